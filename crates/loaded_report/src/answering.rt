//! Answering by a basis that was read.

ghost use Rattle.std.specs.Prelude.{◌≡◌, Some, slice_get, ℕ, IfOk};
ghost use Rattle.std.specs.Arc.{arc_value};
ghost use Rattle.outcomes.specs.declared.ends.End.TheVariants.{Sealed as SealedEnd};
ghost use Rattle.basis_entry.specs.Entries.{AreOf};
ghost use Rattle.session_core.specs.Sessions.{SessionState};
ghost use Rattle.report_text.specs.Reports.{reported};
ghost use Rattle.saved_basis.specs.Files.{IsSaved};
ghost use Rattle.legal_report.specs.Gathering.{questions_of, CanGoOn, AreAnsweredOn};
ghost use Rattle.legal_report.specs.Last.{AreLastKinds};
ghost use Rattle.loaded_report.specs.Loaded.{AreUnasked, IsLoadedSolution};

use basis_entry::{Items, Sealed};
use legal_report::{Solved, answered, last_kinds, shared};
use outcomes::End;
use presentation::Presentation;
use reducer_index::{Index, Indexed};
use report_acceptance::reports::report_is_accepted;
use report_text::Report;
use session_core::Session;
use std::alloc::{AllocError, Global};
use std::sync::Arc;

/// The sessions with each question answered by all items of the seal.
fn answered_by(
    alloc: Global,
    p: &Presentation,
    seal: &Sealed,
    sessions: Vec<Session>,
) -> Result<Vec<Session>, AllocError>
    requires entries { AreOf p.now seal.now.entries }
    requires sessions { (i : ℕ) (s : SessionState) → slice_get sessions.items i ≡ Some s
        → CanGoOn p.now seal.now.entries (Some seal.now) s }
    ensures { IfOk result (λ news. AreAnsweredOn p.now seal.now.entries (Some seal.now) sessions.items news.items) }
{
    let items = Items::of_seal(seal);
    let index = Index::of_list(alloc, &items)?;
    answered(alloc, p, &Indexed::over(&items, &index), sessions)
}

/// The report of a seal and of sessions that have their replies.
fn report(
    alloc: Global,
    p: &Arc<Presentation>,
    seal: Sealed,
    sessions: Vec<Session>,
) -> Result<Report, AllocError>
    ensures { IfOk result (λ r. reported r ≡ record {
      pres = arc_value p.now;
      entries = seal.entries;
      seal = Some seal;
      end = SealedEnd;
      sessions = sessions.items;
    }) }
{
    let entries = shared(alloc, seal.entries())?;
    Ok(Report {
        pres: Arc::try_clone(p)?,
        entries,
        end: End::Sealed,
        sealed: Some(Arc::new(alloc, seal)?),
        sessions,
    })
}

/// The report of the answers to all questions by a basis of the presentation that was read, and the kinds of the last
/// verdicts. Nothing is completed.
pub fn answer_by(
    alloc: Global,
    p: &Arc<Presentation>,
    seal: Sealed,
    sessions: Vec<Session>,
) -> Result<Solved, AllocError>
    requires source { seal.source ≡ arc_value p.now }
    requires saved { IsSaved (arc_value p.now) seal.entries }
    requires sessions { AreUnasked (arc_value p.now) sessions.items }
    ensures solution { IfOk result (λ s. IsLoadedSolution (arc_value p.now) seal.entries (questions_of sessions.items)
        (reported s.report)) }
    ensures last { IfOk result (λ s. AreLastKinds (reported s.report) s.last.items) }
{
    // The proof needs what the types keep; these calls say so, and do nothing.
    p.known();
    seal.known();
    Session::all_known(&sessions);
    let sessions = answered_by(alloc, p, &seal, sessions)?;
    let report = report(alloc, p, seal, sessions)?;
    let last = last_kinds(alloc, &report)?;
    report_is_accepted(&report);
    Ok(Solved { report, last })
}
