//! The command `save`: a completion, and the basis file of what is sealed.

ghost use Rattle.std.specs.Prelude.{◌≡◌, ◌≤◌, ℕ, [], option_map, IfOk, IfErr, IfSome};
ghost use Rattle.std.specs.Arc.{arc_value};
ghost use Rattle.mb_io.specs.Shelf.{CountRose};
ghost use Rattle.report_text.specs.Reports.{reported, IsRecord};
ghost use Rattle.command_floor.specs.Files.{HasCause};
ghost use Rattle.command_floor.specs.Parsing.{shown_given};
ghost use Rattle.command_floor.specs.Settings.{AreInRange};
ghost use Rattle.legal_report.specs.Last.{AreLastKinds};
ghost use Rattle.legal_report.specs.Solutions.{IsSolution};
ghost use Rattle.solve_commands.specs.Limits.{AreInTable};
ghost use Rattle.solve_commands.specs.Save.{SaveLeads, GivesSaved, DeliversBasis, save_in, save_asked};

use crate::limits::{limits_given, opened};
use basis_entry::Sealed;
use command_floor::{Given, Halt, Status, load_presentation};
use legal_report::{Solved, solve};
use mb_io::{Shelf, Sink};
use pair_book::Limits;
use presentation::Presentation;
use saved_basis::laws::written_bases_are_read;
use saved_basis::{WriteFault, write_basis};
use std::alloc::{AllocError, Global};
use std::sync::Arc;

/// What the command `save` is asked: limits, and the name of a presentation.
#[derive(Clone, Copy)]
pub struct SaveWords<'a> {
    pub limits: Limits,
    pub presentation: &'a str,
}

/// What a completion comes to: a basis that is sealed, or the report of one that isn't.
#[derive(Drop)]
pub enum Saved {
    Basis(Arc<Sealed>),
    Report(Solved),
}

/// What `save` is asked by what is given behind its name, if that is of its form.
pub fn words<'a>(given: &Given<'a>) -> Option<SaveWords<'a>>
    requires { AreInRange given.now.settings }
    ensures is { option_map save_asked result ≡ save_in (shown_given given.now) }
    ensures within { IfSome result (λ w. AreInTable w.limits) }
{
    match given.words.as_slice() {
        [presentation] => Some(SaveWords {
            limits: limits_given(&given.settings),
            presentation,
        }),
        _ => None,
    }
}

/// The report of a completion without sessions.
fn completed(alloc: Global, p: &Arc<Presentation>, limits: Limits) -> Result<Solved, AllocError>
    requires { AreInTable limits }
    ensures solution { IfOk result (λ s. IsSolution (arc_value p.now) limits [] (reported s.report)) }
    ensures last { IfOk result (λ s. AreLastKinds (reported s.report) s.last.items) }
{
    let book = opened(alloc, p, limits)?;
    solve(alloc, p, book, Vec::new(alloc), limits)
}

/// What `save` finds over this text: the completion of the presentation.
pub fn complete<S: Shelf>(alloc: Global, shelf: &mut S, words: &SaveWords) -> Result<Saved, Halt>
    requires { AreInTable words.now.limits }
    ensures gives { GivesSaved (SaveLeads (CountRose (S.faults shelf.old) (S.faults shelf.new)) (S.under shelf.old)
        (save_asked words.now)) result }
    ensures cause { IfErr result (HasCause (CountRose (S.faults shelf.old) (S.faults shelf.new))) }
    ensures later { S.faults shelf.old ≤ S.faults shelf.new }
{
    let p = load_presentation(alloc, shelf, words.presentation)?;
    let p = Arc::new(alloc, p)?;
    // The proof needs what the types keep, and that files which are written are read back; these calls do nothing.
    p.known();
    written_bases_are_read();
    let solved = completed(alloc, &p, words.limits)?;
    let Some(seal) = &solved.report.sealed else {
        return Ok(Saved::Report(solved));
    };
    seal.known();
    Ok(Saved::Basis(Arc::try_clone(seal)?))
}

/// Writes the basis file of the seal, and says how the run ends.
pub fn deliver_basis<K: Sink>(alloc: Global, seal: &Sealed, out: &mut K) -> Status
    requires { (base : ℕ) × IsRecord seal.now.source base seal.now.entries }
    ensures written { DeliversBasis (CountRose (K.faults out.old) (K.faults out.new)) (K.taken out.old)
        (K.taken out.new) seal.now result }
    ensures later { K.faults out.old ≤ K.faults out.new }
{
    match write_basis(alloc, seal, out) {
        Ok(()) => Status::Done,
        Err(WriteFault::Failed) => Status::WriteFault,
        Err(WriteFault::NoMemory) => Status::NoMemory,
    }
}
