//! The answers that were made while the log grew.

ghost use Rattle.std.specs.List.{AllByRecursion};
ghost use Rattle.std.specs.Prelude.{◌≡◌, ◌+◌, ◌-◌, ◌<◌, ◌≤◌, ◌↔◌, ℕ, List, length, take, slice_get, Some, IfOk, IsTrue};
ghost use Rattle.std.specs.Prelude.{MatchOption};
ghost use Rattle.report_lines.specs.Texts.{lines_text};
ghost use Rattle.session_text.specs.declared.question.Question.{Question};
ghost use Rattle.session_core.specs.declared.kept.Kept.{Kept};
ghost use Rattle.session_core.specs.Questions.{CanBeAsked};
ghost use Rattle.session_core.specs.Replies.{IsReply, tag_of};
ghost use Rattle.session_core.specs.Sessions.{IsSession};
ghost use Rattle.session_core.specs.Verdicts.{IsVerdict};
ghost use Rattle.basis_entry.specs.Items.{seal_below, vectors_below};
ghost use Rattle.report_text.specs.Answers.{AreAnswered, IsAnswered, IsSessionAnswered};
ghost use Rattle.report_text.specs.Histories.{Answered, SessionAnswers, live_at, live_from, live_lines};
ghost use Rattle.report_text.specs.Reports.{IsReplied};
ghost use Rattle.report_text.specs.Writing.{Puts, Counts};

use crate::WriteFault;
use crate::log::Log;
use crate::pieces::put_with_end;
use crate::showing::put_proofs;
use basis_entry::{Below, Front};
use mb_io::Sink;
use outcomes::Verdict;
use report_lines::{QuestionNumber, put_live};
use session_core::judge::verdict;
use session_core::{Kept, Session, Tag};
use session_text::Question;
use std::alloc::{AllocError, Global};

/// Writes what was answered at the front, by session and question.
pub fn put_live_at<K: Sink>(
    alloc: Global,
    log: &Log<'_>,
    sessions: &[Session],
    front: u32,
    out: &mut K,
) -> Result<(), WriteFault>
    requires replied { AllByRecursion (IsReplied log.now.pres log.now.entries log.now.seal) sessions.now }
    ensures text { (ts : List SessionAnswers) → AreAnswered log.now.pres log.now.entries log.now.seal sessions.now ts →
        Puts (K.taken out.old) (lines_text log.now.pres (live_at front ts)) result (K.taken out.new) }
    ensures counts { Counts (K.faults out.old) result (K.faults out.new) }
{
    for session in sessions {
        put_session_at(alloc, log, session, front, out)?;
    }
    Ok(())
}

/// Writes what a session was answered at the front.
fn put_session_at<K: Sink>(
    alloc: Global,
    log: &Log<'_>,
    session: &Session,
    front: u32,
    out: &mut K,
) -> Result<(), WriteFault>
    requires replied { IsReplied log.now.pres log.now.entries log.now.seal session.now }
    ensures text { (t : SessionAnswers) → IsSessionAnswered log.now.pres log.now.entries log.now.seal session.now t →
        Puts (K.taken out.old) (lines_text log.now.pres (live_from front session.now.number 1 t.answers)) result
        (K.taken out.new) }
    ensures counts { Counts (K.faults out.old) result (K.faults out.new) }
{
    let mut number = first_from(session, front);
    while let Some(kept) = reply_at(session, number, front) {
        put_answer(alloc, log, session, number, kept, out)?;
        number += 1;
    }
    Ok(())
}

/// The number of the first question that was answered at this front or at a later one, and one more than that of the
/// last where there is none. Fronts rise, so it is found by halves.
fn first_from(session: &Session, front: u32) -> u32
    requires { length session.now.kept ≡ length session.now.questions }
    ensures first { 1 ≤ result }
    ensures within { result ≤ length session.now.kept + 1 }
    ensures before { (i : ℕ) (k : Kept) → i + 1 < result → slice_get session.now.kept i ≡ Some k → k.front < front }
    ensures session { IsSession session.now }
    ensures behind { (i : ℕ) (k : Kept) → result ≤ i + 1 → slice_get session.now.kept i ≡ Some k → front ≤ k.front }
{
    let mut low = 1;
    let mut high = session.count() + 1;
    while low < high {
        let middle = low + (high - low) / 2;
        if is_before(session, middle, front) {
            low = middle + 1;
        } else {
            high = middle;
        }
    }
    low
}

/// Whether the question was answered before the front.
fn is_before(session: &Session, number: u32, front: u32) -> bool
    requires first { 1 ≤ number }
    requires within { number ≤ length session.now.questions }
    requires replied { length session.now.kept ≡ length session.now.questions }
    ensures { (k : Kept) → slice_get session.now.kept (number - 1) ≡ Some k → IsTrue result ↔ (k.front < front) }
{
    match session.kept(number) {
        Some(kept) => kept.front < front,
        None => false,
    }
}

/// The reply to the question with this number, if there is one and it was made at the front.
fn reply_at(session: &Session, number: u32, front: u32) -> Option<Kept>
    requires { 1 ≤ number }
    ensures is { MatchOption result ((k : Kept) → slice_get session.now.kept (number - 1) ≡ Some k
        → k.front ≡ front → ⊥)
        (λ k. (slice_get session.now.kept (number - 1) ≡ Some k) × (k.front ≡ front)
        × (number ≤ length session.now.questions)) }
{
    if number > session.count() {
        return None;
    }
    let kept = session.kept(number)?;
    if kept.front == front {
        Some(kept)
    } else {
        None
    }
}

/// Writes the answer to a question, and its proofs.
fn put_answer<K: Sink>(
    alloc: Global,
    log: &Log<'_>,
    session: &Session,
    number: u32,
    kept: Kept,
    out: &mut K,
) -> Result<(), WriteFault>
    requires first { 1 ≤ number }
    requires within { number ≤ length session.now.questions }
    requires kept { slice_get session.now.kept (number - 1) ≡ Some kept }
    requires replied { IsReplied log.now.pres log.now.entries log.now.seal session.now }
    ensures text { (q : Question) (a : Answered) → slice_get session.now.questions (number - 1) ≡ Some q
        → IsAnswered log.now.pres log.now.entries log.now.seal q kept a →
        Puts (K.taken out.old) (lines_text log.now.pres (live_lines session.now.number number a)) result
        (K.taken out.new) }
    ensures counts { Counts (K.faults out.old) result (K.faults out.new) }
{
    log.known();
    let p = log.pres();
    let front = kept.front;
    let question = session.question(number);
    let verdict = verdict_of(alloc, log, question, kept)?;
    let at = QuestionNumber::new(session.number(), number);
    let mut line = Vec::new(alloc);
    put_live(alloc, &mut line, p, at, front, question, &verdict)?;
    put_with_end(line, out)?;
    put_proofs(alloc, log, front, question, &verdict, out)
}

/// The verdict that was kept. A normal form is made again, by the items below the front.
fn verdict_of(
    alloc: Global,
    log: &Log<'_>,
    question: &Question,
    kept: Kept,
) -> Result<Verdict, AllocError>
    requires asked { CanBeAsked log.now.pres question.now }
    requires reply { IsReply log.now.pres (take kept.front log.now.entries)
        (seal_below log.now.entries log.now.seal kept.front) question.now kept }
    ensures { IfOk result (IsVerdict log.now.pres (vectors_below log.now.entries kept.front)
        (seal_below log.now.entries log.now.seal kept.front) question.now) }
{
    match kept.tag {
        Tag::Normal => {
            let below = Below {
                list: log,
                front: kept.front,
            };
            verdict(alloc, log.pres(), &below, question)
        }
        Tag::Trivial => Ok(Verdict::Trivial),
        Tag::NotTrivial => Ok(Verdict::NotTrivial),
        Tag::Extends => Ok(Verdict::Extends),
        Tag::Fails { subject } => Ok(Verdict::Fails { subject }),
        Tag::Unknown { subject } => Ok(Verdict::Unknown { subject }),
        Tag::Stop { subject, stop } => Ok(Verdict::Stop { subject, stop }),
    }
}
