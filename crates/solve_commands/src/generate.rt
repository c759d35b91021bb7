//! The command `gen`: what `solo` finds over the texts that a seed gives, as a summary.

ghost use Rattle.std.specs.Prelude.{◌≡◌, ◌≢◌, ◌≤◌, [], ◌∷◌, length, IfOk, IfErr, IfSome, codes};
ghost use Rattle.command_floor.specs.Parsing.{shown_given};
ghost use Rattle.presentation.specs.Reading.{presentation_text};
ghost use Rattle.session_text.specs.declared.TheConstants.{QUESTIONS};
ghost use Rattle.session_text.specs.Reading.{session_text};
ghost use Rattle.report_text.specs.Histories.{History};
ghost use Rattle.report_text.specs.Reports.{reported, IsHistoryOf};
ghost use Rattle.legal_report.specs.Last.{AreLastKinds};
ghost use Rattle.command_floor.specs.declared.status.Status.TheVariants.{ReadFault};
ghost use Rattle.command_floor.specs.Files.{CommandEnd, HasCause, TextGives, in_lines};
ghost use Rattle.solve_commands.specs.SessionFiles.{QuestionsGive, AreAskable};
ghost use Rattle.solve_commands.specs.Runs.{ShowsSettled};
ghost use Rattle.solve_commands.specs.Generate.{summary, TextsLead, GenLeads, gen_in};
ghost use Rattle.solve_commands.specs.declared.generate.TheConstants.{MOST_SEED};

use crate::delivery::status_of;
use crate::limits::{ENTRIES, limits_with, opened};
use crate::sessions;
use crate::summary::summary;
use command_floor::{Answer, Given, Halt, number_between, refusal};
use gen_input::large;
use legal_report::{Solved, solve};
use module_vec::VecList;
use presentation::{Presentation, read_presentation};
use session_core::Session;
use session_text::{Question, read_session};
use std::alloc::{AllocError, Global};
use std::sync::Arc;
use task_table::Order;

/// The greatest seed.
pub const MOST_SEED: u32 = 999_999_999;

/// The seed that `gen` is asked by what is given behind its name, if that is of its form.
pub fn words(given: &Given) -> Option<u32>
    ensures is { result ≡ gen_in (shown_given given.now) }
    ensures within { IfSome result (λ n. n ≤ MOST_SEED) }
{
    match given.words.as_slice() {
        [seed] => number_between(seed, 0, MOST_SEED),
        _ => None,
    }
}

// The presentation of this text.
fn presentation_in(alloc: Global, text: &[u8]) -> Result<Presentation, Halt>
    ensures gives { TextGives (codes "presentation") (in_lines presentation_text text.now) result }
    ensures cause { IfErr result (HasCause ⊥) }
{
    match read_presentation(alloc, text) {
        Ok(p) => Ok(p),
        Err(fault) => Err(refusal(alloc, "presentation", &fault)),
    }
}

// The questions of this text.
fn questions_in(alloc: Global, p: &Presentation, text: &[u8]) -> Result<Vec<Question>, Halt>
    ensures gives { QuestionsGive (codes "session") (session_text p.now text.now) result }
    ensures askable { IfOk result (λ qs. AreAskable p.now qs.items) }
    ensures cause { IfErr result (HasCause ⊥) }
{
    match read_session(alloc, p, text) {
        Ok(questions) => Ok(questions),
        Err(fault) => Err(sessions::refusal(alloc, "session", &fault)),
    }
}

// The one session of these questions.
fn one_session(
    alloc: Global,
    questions: Vec<Question>,
    base: u32,
) -> Result<Vec<Session>, AllocError>
    requires { length questions.items ≤ QUESTIONS }
    ensures { IfOk result (λ ss. ss.items ≡ record {
      number = 1;
      questions = questions.items;
      base = base;
      kept = [];
    } ∷ []) }
{
    let mut sessions = Vec::new(alloc);
    sessions.push(Session::open(alloc, 1, questions, base)?)?;
    Ok(sessions)
}

// The summary of a report, with the status that shows whether it is settled.
fn shown(alloc: Global, seed: u32, solved: &Solved) -> Result<Answer, AllocError>
    requires { AreLastKinds (reported solved.now.report) solved.now.last.items }
    ensures { IfOk result (λ a. (h : History) → IsHistoryOf (reported solved.now.report) h
        → (a.text ≡ summary seed h) × ShowsSettled h a.status) }
{
    let text = summary(alloc, seed, solved)?;
    Ok(Answer::new(status_of(solved), text))
}

// The answer to these texts.
fn summarize(alloc: Global, seed: u32, presentation: &[u8], session: &[u8]) -> Result<Answer, Halt>
    ensures exact { CommandEnd (TextsLead seed presentation.now session.now) result }
    ensures read { IfOk result (λ a. a.status ≢ ReadFault) }
    ensures cause { IfErr result (HasCause ⊥) }
{
    let p = presentation_in(alloc, presentation)?;
    let p = Arc::new(alloc, p)?;
    let limits = limits_with(ENTRIES, None, Order::ByNumber);
    let book = opened(alloc, &p, limits)?;
    let questions = questions_in(alloc, &p, session)?;
    let sessions = one_session(alloc, questions, book.count())?;
    let solved = solve(alloc, &p, book, sessions, limits)?;
    let answer = shown(alloc, seed, &solved)?;
    Ok(answer)
}

/// The answer to `gen` with this seed.
pub fn answer(alloc: Global, seed: u32) -> Result<Answer, Halt>
    requires { seed ≤ MOST_SEED }
    ensures exact { CommandEnd (GenLeads seed) result }
    ensures read { IfOk result (λ a. a.status ≢ ReadFault) }
    ensures cause { IfErr result (HasCause ⊥) }
{
    let (presentation, session) = large(alloc, u64::from(seed))?;
    summarize(alloc, seed, &presentation, &session)
}
