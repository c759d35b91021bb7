//! Which line may follow.

ghost use Rattle.std.specs.Prelude.{◌≡◌, ◌↔◌, ◌+◌, ◌<◌, ℕ, List, length, slice_get, None, Some, IsTrue, MatchOption};
ghost use Rattle.presentation.specs.Presented.{Presented};
ghost use Rattle.module_vec.specs.declared.places.Term.{Term};
ghost use Rattle.module_vec.specs.declared.steps.Step.{Step};
ghost use Rattle.outcomes.specs.declared.verdicts.Verdict.{Verdict};
ghost use Rattle.session_text.specs.Questions.{IsWritable};
ghost use Rattle.report_lines.specs.Lines.{subject_count, IsLineOf};
ghost use Rattle.report_lines.specs.declared.lines.Made.{Made};
ghost use Rattle.report_lines.specs.declared.lines.Line.TheVariants as lines;
ghost use Rattle.report_reading.specs.Telling.{proof_count, item_count, last_reply, last_number, IsShown, IsDue};
ghost use Rattle.report_reading.specs.Telling.{IsInOrder, IsNextOpen, MayGoOn, IsClosing, MayFollow};

use crate::ReplyData;
use crate::reader::Reader;
use outcomes::{End, Verdict};
use report_lines::Line;
use session_text::{Question, has_images};

impl Reader {
    /// Whether the line may follow.
    pub fn may_follow(&self, line: &Line) -> bool
        requires { (p : Presented) × IsLineOf p line.now }
        ensures { IsTrue result ↔ MayFollow self.now line.now }
    {
        match line {
            Line::Entry { number, .. } => self.entry_may_follow(*number),
            Line::Seal => self.may_go_on() && !self.sealed,
            Line::Live {
                session,
                number,
                front,
                question,
                ..
            } => self.answer_may_follow(*session, *number, *front, question),
            Line::Proof { subject, .. } => self.is_due(*subject),
            Line::End(end) => self.may_go_on() && self.sealed == matches!(end, End::Sealed),
            Line::Close {
                session,
                number,
                question,
                ..
            } => self.is_closing() && self.is_next_open(*session, *number, question),
            Line::Done => self.is_closing() && self.left_open.is_empty(),
        }
    }

    fn entry_may_follow(&self, number: u32) -> bool
        ensures { (made : Made) (v : List Term) → IsTrue result ↔ MayFollow self.now (lines.Entry number made v) }
    {
        self.may_go_on() && !self.sealed && number as usize == self.entries.len()
    }

    fn answer_may_follow(&self, session: u32, number: u32, front: u32, question: &Question) -> bool
        requires { (p : Presented) × IsWritable p question.now }
        ensures { (v : Verdict) → IsTrue result ↔ MayFollow self.now (lines.Live session number front question.now v) }
    {
        self.may_go_on()
            && front as usize == self.item_count()
            && self.is_next_number(session, number)
            && self.is_in_order(session, front)
            && has_images(question)
    }

    /// The number of items.
    pub fn item_count(&self) -> usize
        ensures { result ≡ item_count self.now }
    {
        self.entries.len() + usize::from(self.sealed)
    }

    /// Whether the end isn't told yet, and no proof is due.
    pub(crate) fn may_go_on(&self) -> bool
        ensures { IsTrue result ↔ MayGoOn self.now }
    {
        self.end.is_none() && self.is_shown()
    }

    /// Whether the end was told and the last line wasn't taken, and no proof is due.
    fn is_closing(&self) -> bool
        ensures { IsTrue result ↔ IsClosing self.now }
    {
        self.end.is_some() && !self.finished && self.is_shown()
    }

    /// Whether the last answer has all its proofs.
    fn is_shown(&self) -> bool
        ensures { IsTrue result ↔ IsShown (last_reply self.now) }
    {
        match self.replies.last() {
            Some(reply) => reply.proofs.proofs().len() == proof_count(reply),
            None => true,
        }
    }

    /// Whether the proof of this subject is due to the last answer.
    fn is_due(&self, subject: u32) -> bool
        ensures { IsTrue result ↔ IsDue subject (last_reply self.now) }
    {
        match self.replies.last() {
            Some(reply) => {
                let shown = reply.proofs.proofs().len();
                shown < proof_count(reply) && subject as usize == shown + 1
            }
            None => false,
        }
    }

    /// Whether the session's next question has this number.
    pub(crate) fn is_next_number(&self, session: u32, number: u32) -> bool
        ensures { IsTrue result ↔ (number ≡ last_number self.now session + 1) }
    {
        number as u64 == self.last_number(session) as u64 + 1
    }

    /// The number of the session's last question, 0 before the first.
    fn last_number(&self, session: u32) -> u32
        ensures { result ≡ last_number self.now session }
    {
        match self.numbers.get(&session) {
            Some(last) => *last,
            None => 0,
        }
    }

    /// Whether no later session was answered at this front.
    pub(crate) fn is_in_order(&self, session: u32, front: u32) -> bool
        ensures { IsTrue result ↔ IsInOrder session front (last_reply self.now) }
    {
        match self.replies.last() {
            Some(reply) => reply.front != front || reply.session <= session,
            None => true,
        }
    }

    /// Whether this is the first of the questions that are open.
    fn is_next_open(&self, session: u32, number: u32, question: &Question) -> bool
        ensures { IsTrue result ↔ IsNextOpen self.now session number question.now }
    {
        let Some((at, place)) = self.left_open.first_key_value() else {
            return false;
        };
        if at.0 != session || at.1 != number {
            return false;
        }
        match reply_at(&self.replies, *place) {
            Some(reply) => reply.question.same(question),
            None => false,
        }
    }
}

/// The answer at this place, if there is one.
fn reply_at(replies: &[ReplyData], place: usize) -> Option<&ReplyData>
    ensures { MatchOption result (slice_get replies.now place ≡ None) (λ r. slice_get replies.now place ≡ Some r.now) }
{
    replies.get(place)
}

/// How many proofs belong to the answer.
fn proof_count(reply: &ReplyData) -> usize
    ensures { result ≡ proof_count reply.now.question reply.now.verdict }
{
    match reply.verdict {
        Verdict::Trivial | Verdict::Extends => subject_count(&reply.question),
        _ => 0,
    }
}

fn subject_count(question: &Question) -> usize
    ensures { result ≡ subject_count question.now }
{
    match question {
        Question::Hom { source, .. } => source.relators().len(),
        _ => 1,
    }
}
