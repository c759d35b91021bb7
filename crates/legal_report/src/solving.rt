//! What runs come to: a report, with the last verdicts on its questions.

ghost use Rattle.std.specs.Prelude.{◌≡◌, ◌+◌, ◌<◌, ◌^◌, List, length, IfOk};
ghost use Rattle.std.specs.Arc.{arc_value};
ghost use Rattle.presentation.specs.Presented.{Presented};
ghost use Rattle.session_text.specs.declared.question.Question.{Question};
ghost use Rattle.pair_book.specs.declared.limits.Limits.{Limits};
ghost use Rattle.pair_book.specs.Books.{IsOpened};
ghost use Rattle.report_text.specs.Reports.{reported, IsReportable};
ghost use Rattle.legal_report.specs.Legal.{IsLegal};
ghost use Rattle.legal_report.specs.Gathering.{questions_of, AreAskers};
ghost use Rattle.legal_report.specs.Last.{AreLastKinds};
ghost use Rattle.legal_report.specs.Solutions.{AreNewSessions, IsConclusion, GoesOnFrom, IsSolution};

use crate::gathering::gather_alone;
use crate::last::{Kind, last_kinds};
use crate::laws::answers_of_legal_reports_are_true;
use pair_book::{Book, Limits};
use presentation::Presentation;
use report_acceptance::reports::report_is_accepted;
use report_text::Report;
use session_core::Session;
use std::alloc::{AllocError, Global};
use std::sync::Arc;

/// A report, and the kinds of the last verdicts on its questions, by session and question.
#[derive(Drop)]
pub struct Solved {
    pub report: Report,
    pub last: Vec<Kind>,
}

impl Solved {
    /// Finds the last verdicts of a report. It is a conclusion over all that it is legal over.
    pub fn of(alloc: Global, report: Report) -> Result<Solved, AllocError>
        requires { IsReportable (reported report) }
        ensures conclusion { IfOk result (λ s. (p : Presented) (limits : Limits) (questions : List (List Question))
            → IsLegal p limits questions (reported report) → IsConclusion p limits questions (reported s.report)) }
        ensures last { IfOk result (λ s. AreLastKinds (reported s.report) s.last.items) }
        ensures same { IfOk result (λ s. s.report ≡ report) }
    {
        // The proof needs what the types keep, and the laws of legal reports; these calls say so, and do nothing.
        report.pres.known();
        Session::all_known(&report.sessions);
        answers_of_legal_reports_are_true();
        report_is_accepted(&report);
        let last = last_kinds(alloc, &report)?;
        Ok(Solved { report, last })
    }
}

/// Ends a run over a book of the presentation and of these limits, as [`gather_alone`] does, and finds the last
/// verdicts.
pub fn conclude(
    alloc: Global,
    p: &Arc<Presentation>,
    book: Book,
    sessions: Vec<Session>,
    limits: Limits,
) -> Result<Solved, AllocError>
    requires source { book.source ≡ arc_value p.now }
    requires limits { book.limits ≡ limits }
    requires few { limits.entries + 1 < 2 ^ 32 }
    requires sessions { AreAskers book sessions.items }
    ensures conclusion { IfOk result (λ s. IsConclusion (arc_value p.now) limits (questions_of sessions.items)
        (reported s.report)) }
    ensures goes_on { IfOk result (λ s. GoesOnFrom (arc_value p.now) book.entries book.seal sessions.items
        (reported s.report)) }
    ensures last { IfOk result (λ s. AreLastKinds (reported s.report) s.last.items) }
{
    let _ = limits;
    let report = gather_alone(alloc, p, book, sessions)?;
    Solved::of(alloc, report)
}

/// The report of a completion and of the answers to all questions, over a book that was opened with these limits, and
/// sessions before their first reply.
pub fn solve(
    alloc: Global,
    p: &Arc<Presentation>,
    book: Book,
    sessions: Vec<Session>,
    limits: Limits,
) -> Result<Solved, AllocError>
    requires opened { IsOpened (arc_value p.now) limits book }
    requires few { limits.entries + 1 < 2 ^ 32 }
    requires sessions { AreNewSessions (arc_value p.now) (length book.entries) sessions.items }
    ensures solution { IfOk result (λ s. IsSolution (arc_value p.now) limits (questions_of sessions.items)
        (reported s.report)) }
    ensures last { IfOk result (λ s. AreLastKinds (reported s.report) s.last.items) }
{
    p.known();
    Session::all_known(&sessions);
    let solved = conclude(alloc, p, book, sessions, limits)?;
    Ok(solved)
}
