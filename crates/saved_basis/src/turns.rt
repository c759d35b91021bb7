//! Which entry may be the next one of a file.

ghost use Rattle.std.specs.Prelude.{◌≡◌, ◌↔◌, ◌+◌, ◌<◌, ◌≤◌, List, length, IsTrue, MatchOption};
ghost use Rattle.module_vec.specs.declared.places.Term.{Term};
ghost use Rattle.fox_calculus.specs.Generators.{AreGenerators};
ghost use Rattle.report_lines.specs.declared.lines.Line.TheVariants as lines;
ghost use Rattle.cert_checker.specs.States.{IsInTurn};
ghost use Rattle.basis_entry.specs.Entries.{vectors_of};
ghost use Rattle.saved_basis.specs.declared.TheConstants.{ENTRIES, LOG_TERMS, LOG_STEPS};
ghost use Rattle.saved_basis.specs.Files.{terms_of, steps_of};
ghost use Rattle.saved_basis.specs.Lines.{made_steps, MayStand, IsEntryLine, Outcome};
ghost use Rattle.saved_basis.specs.Readers.{IsReading, IsNoEntry, IsTextFault, IsEnd};

use crate::faults::LineFault;
use crate::lines::are_near;
use crate::reader::Reader;
use crate::{ENTRIES, LOG_STEPS, LOG_TERMS, LineKind};
use basis_entry::Items;
use module_vec::ModVec;
use report_lines::{Line, Made, read_line};
use std::alloc::Global;

/// The line of an entry.
#[derive(Drop)]
pub struct EntryLine {
    pub number: u32,
    pub made: Made,
    pub vector: ModVec,
}

impl EntryLine {
    /// The line, if it is that of an entry.
    fn of(line: Line) -> Option<EntryLine>
        ensures { MatchOption result (IsNoEntry line) (λ e. line ≡ lines.Entry e.number e.made e.vector) }
    {
        match line {
            Line::Entry {
                number,
                made,
                vector,
            } => Some(EntryLine {
                number,
                made,
                vector,
            }),
            _ => None,
        }
    }
}

impl<'a> Reader<'a> {
    /// The line of an entry that these bytes are, where it may be the next one. Behind the last entry that there may be
    /// no line is read.
    pub fn entry_line(&self, alloc: Global, bytes: &[u8]) -> Result<EntryLine, LineFault>
        requires { IsEnd self.now bytes.now → ⊥ }
        ensures reading { IsReading self.now }
        ensures line { (gens : List (List Term)) → AreGenerators self.now.source gens →
            Outcome (λ l. IsEntryLine self.now.source gens self.now.entries bytes.now l.made l.vector)
            (IsTextFault self.now.source gens self.now.entries bytes.now) result }
    {
        self.p.known();
        self.known();
        if self.entries.len() >= ENTRIES as usize {
            return Err(LineFault::Fails(LineKind::Text));
        }
        let Some(read) = read_line(alloc, self.p, bytes)? else {
            return Err(LineFault::Fails(LineKind::Text));
        };
        let Some(line) = EntryLine::of(read) else {
            return Err(LineFault::Fails(LineKind::Text));
        };
        if !self.may_stand(&line) {
            return Err(LineFault::Fails(LineKind::Text));
        }
        Ok(line)
    }

    /// Whether the entry may be the next one.
    fn may_stand(&self, line: &EntryLine) -> bool
        requires { length self.now.entries < ENTRIES }
        ensures { (gens : List (List Term)) → AreGenerators self.now.source gens → IsTrue result
            ↔ ((line.now.number ≡ length self.now.entries)
            × MayStand gens self.now.entries line.now.made line.now.vector) }
    {
        line.number as usize == self.entries.len()
            && self.is_in_turn(&line.made)
            && line.vector.is_entry()
            && self.has_room(&line.made, &line.vector)
    }

    /// Whether the next entry may be made so.
    fn is_in_turn(&self, made: &Made) -> bool
        ensures { (gens : List (List Term)) → AreGenerators self.now.source gens → IsTrue result
            ↔ IsInTurn gens (vectors_of self.now.entries) made.now }
    {
        self.known();
        match made {
            Made::Gen { .. } => !self.has_generators(),
            Made::Sum { steps } => {
                self.has_generators() && are_near(&Items::of(&self.entries, None), steps.steps())
            }
        }
    }

    /// Whether the limits are kept with it.
    fn has_room(&self, made: &Made, vector: &ModVec) -> bool
        ensures { IsTrue result ↔ ((terms_of self.now.entries + length vector.now ≤ LOG_TERMS)
            × (steps_of self.now.entries + made_steps made.now ≤ LOG_STEPS)) }
    {
        vector.terms().len() <= (LOG_TERMS - self.terms) as usize
            && made_steps(made) <= (LOG_STEPS - self.steps) as usize
    }
}

/// How many steps the recipe has; a generator has none.
fn made_steps(made: &Made) -> usize
    ensures { result ≡ made_steps made.now }
{
    match made {
        Made::Gen { .. } => 0,
        Made::Sum { steps } => steps.steps().len(),
    }
}
