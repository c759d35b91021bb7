//! The answers of a report, by the numbers of session and question.

ghost use Rattle.std.specs.Prelude.{◌≡◌, true, Some, None, take, slice_get, MatchOption};
ghost use Rattle.report_reading.specs.Telling.{is_open};
ghost use Rattle.check_commands.specs.Replies.{is_of, answers_of, left_open, reply_to};

use outcomes::Verdict;
use report_reading::ReplyData;

/// The answer to a question of a session, whose questions are numbered from 1: the one that was made while the log
/// grew; or, where that leaves the question open, the one behind the end.
pub fn reply_to(replies: &[ReplyData], session: u32, question: u32) -> Option<&ReplyData>
    ensures { MatchOption result (reply_to session question replies.now ≡ None)
        (λ r. reply_to session question replies.now ≡ Some r.now) }
{
    let place = question.checked_sub(1)? as usize;
    let live = answer_at(replies, session, true, place)?;
    if !is_open(&live.verdict) {
        return Some(live);
    }
    answer_at(replies, session, false, left_open(replies, session, place))
}

/// Whether it is an answer of the session, and made while the log grew or behind the end.
fn is_of(reply: &ReplyData, session: u32, live: bool) -> bool
    ensures { result ≡ is_of session live reply.now }
{
    reply.session == session && reply.live == live
}

/// Whether the verdict leaves its question open.
fn is_open(verdict: &Verdict) -> bool
    ensures { result ≡ is_open verdict.now }
{
    matches!(verdict, Verdict::Unknown { .. } | Verdict::Stop { .. })
}

/// Of the answers of the session that were made so, the one at this place.
fn answer_at(replies: &[ReplyData], session: u32, live: bool, place: usize) -> Option<&ReplyData>
    ensures { MatchOption result (slice_get (answers_of session live replies.now) place ≡ None)
        (λ r. slice_get (answers_of session live replies.now) place ≡ Some r.now) }
{
    let mut left = place;
    for reply in replies {
        if is_of(reply, session, live) {
            if left == 0 {
                return Some(reply);
            }
            left -= 1;
        }
    }
    None
}

/// How many of the session's first questions, so many, were left open by the answer that was made while the log grew.
fn left_open(replies: &[ReplyData], session: u32, count: usize) -> usize
    ensures { result ≡ left_open (take count (answers_of session true replies.now)) }
{
    let mut left = count;
    let mut open = 0;
    for reply in replies {
        if is_of(reply, session, true) {
            if left == 0 {
                return open;
            }
            left -= 1;
            if is_open(&reply.verdict) {
                open += 1;
            }
        }
    }
    open
}
