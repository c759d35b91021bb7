//! The answers behind the end.

ghost use Rattle.std.specs.List.{AllByRecursion};
ghost use Rattle.std.specs.Prelude.{◌≡◌, ◌-◌, ◌≤◌, ℕ, List, length, slice_get, Some, OnOk, true};
ghost use Rattle.report_lines.specs.Texts.{lines_text};
ghost use Rattle.session_text.specs.declared.question.Question.{Question};
ghost use Rattle.session_core.specs.declared.kept.Kept.{Kept};
ghost use Rattle.session_core.specs.Questions.{CanBeAsked};
ghost use Rattle.report_text.specs.Answers.{AreAnswered, IsAnswered, IsSessionAnswered, IsClosingReply};
ghost use Rattle.report_text.specs.Closing.{is_left_open, HasClosing, HasClosings};
ghost use Rattle.report_text.specs.Histories.{Reply, Answered, SessionAnswers, closing_of, closing_from, closing_lines};
ghost use Rattle.report_text.specs.Reports.{IsReplied};
ghost use Rattle.report_text.specs.Writing.{Puts, Counts};

use crate::WriteFault;
use crate::log::Log;
use crate::pieces::put_with_end;
use crate::showing::put_proofs;
use basis_entry::Front;
use mb_io::Sink;
use report_lines::{QuestionNumber, put_closing};
use session_core::judge::verdict;
use session_core::{Session, Tag};
use std::alloc::Global;

/// Writes what is answered behind the end, by session and question.
pub fn put_closings<K: Sink>(
    alloc: Global,
    log: &Log<'_>,
    sessions: &[Session],
    out: &mut K,
) -> Result<(), WriteFault>
    requires replied { AllByRecursion (IsReplied log.now.pres log.now.entries log.now.seal) sessions.now }
    ensures text { (ts : List SessionAnswers) → AreAnswered log.now.pres log.now.entries log.now.seal sessions.now ts →
        Puts (K.taken out.old) (lines_text log.now.pres (closing_of ts)) result (K.taken out.new) }
    ensures told { OnOk result (AllByRecursion (HasClosings log.now.pres log.now.entries log.now.seal) sessions.now) }
    ensures counts { Counts (K.faults out.old) result (K.faults out.new) }
{
    for session in sessions {
        put_session(alloc, log, session, out)?;
    }
    Ok(())
}

/// Writes what a session is answered behind the end: the questions that were left open are asked once more.
fn put_session<K: Sink>(
    alloc: Global,
    log: &Log<'_>,
    session: &Session,
    out: &mut K,
) -> Result<(), WriteFault>
    requires replied { IsReplied log.now.pres log.now.entries log.now.seal session.now }
    ensures text { (t : SessionAnswers) → IsSessionAnswered log.now.pres log.now.entries log.now.seal session.now t →
        Puts (K.taken out.old) (lines_text log.now.pres (closing_from session.now.number 1 t.answers)) result
        (K.taken out.new) }
    ensures told { OnOk result (HasClosings log.now.pres log.now.entries log.now.seal session.now) }
    ensures counts { Counts (K.faults out.old) result (K.faults out.new) }
{
    for place in 0..session.count() {
        put_if_open(alloc, log, session, place + 1, out)?;
    }
    Ok(())
}

/// Writes what is answered to a question behind the end, if it was left open.
fn put_if_open<K: Sink>(
    alloc: Global,
    log: &Log<'_>,
    session: &Session,
    number: u32,
    out: &mut K,
) -> Result<(), WriteFault>
    requires first { 1 ≤ number }
    requires within { number ≤ length session.now.questions }
    requires replied { IsReplied log.now.pres log.now.entries log.now.seal session.now }
    ensures text { (q : Question) (k : Kept) (a : Answered) → slice_get session.now.questions (number - 1) ≡ Some q
        → slice_get session.now.kept (number - 1) ≡ Some k
        → IsAnswered log.now.pres log.now.entries log.now.seal q k a →
        Puts (K.taken out.old) (lines_text log.now.pres (closing_lines session.now.number number a.question a.closing))
        result (K.taken out.new) }
    ensures told { OnOk result ((q : Question) (k : Kept) → slice_get session.now.questions (number - 1) ≡ Some q
        → slice_get session.now.kept (number - 1) ≡ Some k → is_left_open k.tag ≡ true
        → HasClosing log.now.pres log.now.entries log.now.seal q) }
    ensures counts { Counts (K.faults out.old) result (K.faults out.new) }
{
    if !is_open(session, number) {
        return Ok(());
    }
    put_answer(alloc, log, session, number, out)
}

/// Whether the reply that was kept leaves the question open.
fn is_open(session: &Session, number: u32) -> bool
    requires first { 1 ≤ number }
    requires within { number ≤ length session.now.questions }
    ensures { (k : Kept) → slice_get session.now.kept (number - 1) ≡ Some k → result ≡ is_left_open k.tag }
{
    match session.kept(number) {
        Some(kept) => matches!(kept.tag, Tag::Unknown { .. } | Tag::Stop { .. }),
        None => false,
    }
}

/// Writes the answer to a question by all items, and its proofs.
fn put_answer<K: Sink>(
    alloc: Global,
    log: &Log<'_>,
    session: &Session,
    number: u32,
    out: &mut K,
) -> Result<(), WriteFault>
    requires first { 1 ≤ number }
    requires within { number ≤ length session.now.questions }
    requires asked { AllByRecursion (CanBeAsked log.now.pres) session.now.questions }
    ensures text { (q : Question) (r : Reply) → slice_get session.now.questions (number - 1) ≡ Some q
        → IsClosingReply log.now.pres log.now.entries log.now.seal q r →
        Puts (K.taken out.old) (lines_text log.now.pres (closing_lines session.now.number number q (Some r))) result
        (K.taken out.new) }
    ensures told { OnOk result ((q : Question) → slice_get session.now.questions (number - 1) ≡ Some q
        → HasClosing log.now.pres log.now.entries log.now.seal q) }
    ensures counts { Counts (K.faults out.old) result (K.faults out.new) }
{
    log.known();
    let p = log.pres();
    let question = session.question(number);
    let verdict = verdict(alloc, p, log, question)?;
    let at = QuestionNumber::new(session.number(), number);
    let mut line = Vec::new(alloc);
    put_closing(alloc, &mut line, p, at, question, &verdict)?;
    put_with_end(line, out)?;
    put_proofs(alloc, log, log.front(), question, &verdict, out)
}
