//! `Reader`: what was read of a file behind its head.

ghost use Rattle.std.specs.Prelude.{◌≡◌, ◌↔◌, ◌+◌, ◌<◌, ◌≤◌, ◌++◌, ◌∷◌, [], List, length, map, IsTrue, IfOk};
ghost use Rattle.std.specs.Arc.{arc_value};
ghost use Rattle.module_vec.specs.declared.places.Term.{Term};
ghost use Rattle.module_vec.specs.Reducers.{IsEntry};
ghost use Rattle.fox_calculus.specs.Generators.{AreGenerators};
ghost use Rattle.step_text.specs.Over.{AreStepsOf};
ghost use Rattle.report_lines.specs.declared.lines.Made.TheVariants as made;
ghost use Rattle.cert_checker.specs.States.{AreNear};
ghost use Rattle.basis_entry.specs.Entries.{vectors_of};
ghost use Rattle.pair_work.specs.Outcomes.{recipe_steps};
ghost use Rattle.saved_basis.specs.declared.TheConstants.{LOG_STEPS};
ghost use Rattle.saved_basis.specs.Lines.{MadeFails, LineFails, Outcome};
ghost use Rattle.saved_basis.specs.Readers.{IsReading, CanBeNext, IsNextEntry, FitsIn, TakesEntry, IsEnd};

use crate::faults::LineFault;
use crate::heads::is_last_line;
use crate::lines::{generator_agrees, recipe_agrees};
use crate::turns::EntryLine;
use basis_entry::{Entry, Items, Recipe};
use module_vec::ModVec;
use presentation::Presentation;
use report_lines::Made;
use std::alloc::{AllocError, Global};
use std::marker::Model;
use std::sync::Arc;
use step_lists::Steps;

/// The entries that were read so far, beside those of the generators.
#[derive(Drop)]
pub struct Reader<'a> {
    pub(crate) p: &'a Arc<Presentation>,
    pub(crate) generators: Vec<Arc<Entry>>,
    pub(crate) entries: Vec<Arc<Entry>>,
    /// The terms and the recipe steps of all that was read.
    pub(crate) terms: u32,
    pub(crate) steps: u32,
}

impl<'a> Model for Reader<'a> {
    ghost use Rattle.std.specs.Prelude.{◌≡◌, map};
    ghost use Rattle.std.specs.Arc.{arc_value};
    ghost use Rattle.saved_basis.specs.Files.{terms_of, steps_of};
    ghost use Rattle.saved_basis.specs.Readers.{ReadSoFar, IsReading};

    ghost Value = { ReadSoFar };

    ghost view = { λ r. record {
      source = arc_value r.p.now;
      generators = map arc_value r.generators.items;
      entries = map arc_value r.entries.items;
    } };

    ghost invariant = { λ r. IsReading (record {
      source = arc_value r.p.now;
      generators = map arc_value r.generators.items;
      entries = map arc_value r.entries.items;
    }) × (r.terms ≡ terms_of (map arc_value r.entries.items)) × (r.steps ≡ steps_of (map arc_value r.entries.items)) };
}

impl<'a> Reader<'a> {
    /// Before the first entry.
    pub fn new(alloc: Global, p: &'a Arc<Presentation>) -> Result<Reader<'a>, AllocError>
        ensures { IfOk result (λ r. (r.source ≡ arc_value p.entry.now) × (r.entries ≡ []) × IsReading r) }
    {
        p.known();
        let generators = Entry::base(alloc, p)?;
        Ok(Reader {
            p,
            generators,
            entries: Vec::new(alloc),
            terms: 0,
            steps: 0,
        })
    }

    /// The number of the line behind those that were read.
    pub fn line(&self) -> u32
        ensures is { result ≡ length self.now.entries + 3 }
        ensures reading { IsReading self.now }
    {
        self.entries.len() as u32 + 3
    }

    /// What holds of every reader. The call does nothing.
    pub fn known(&self)
        ensures { IsReading self.now }
    {
        let _terms = self.terms;
    }

    /// Whether every generator has its entry.
    pub fn has_generators(&self) -> bool
        ensures { IsTrue result ↔ (length self.now.generators ≤ length self.now.entries) }
    {
        self.generators.len() <= self.entries.len()
    }

    /// Whether this is the last line, and every generator has its entry.
    pub fn is_last(&self, bytes: &[u8]) -> bool
        ensures is { IsTrue result ↔ IsEnd self.now bytes.now }
        ensures reading { IsReading self.now }
    {
        self.known();
        is_last_line(bytes) && self.has_generators()
    }

    /// The entries that were read.
    pub fn into_entries(self) -> Vec<Arc<Entry>>
        ensures { map arc_value result.items ≡ self.entry.entries }
    {
        self.entries
    }

    /// Takes the bytes of a line, which has to be that of an entry.
    pub fn take(self, alloc: Global, bytes: &[u8]) -> Result<Reader<'a>, LineFault>
        requires { IsEnd self bytes.now → ⊥ }
        ensures { (gens : List (List Term)) → AreGenerators self.entry.source gens →
            Outcome (TakesEntry self.entry bytes.now)
            (LineFails self.entry.source gens self.entry.entries bytes.now) result }
    {
        let line = self.entry_line(alloc, bytes)?;
        let entry = self.entry(alloc, line)?;
        Ok(self.with(entry)?)
    }

    /// The entry of a line that may be the next one.
    fn entry(&self, alloc: Global, line: EntryLine) -> Result<Arc<Entry>, LineFault>
        requires { CanBeNext self.now line.made line.vector }
        ensures { (gens : List (List Term)) → AreGenerators self.now.source gens →
            Outcome (λ e. IsNextEntry self.now gens line.made line.vector (arc_value e))
            (MadeFails gens self.now.entries line.made line.vector) result }
    {
        self.known();
        let EntryLine { made, vector, .. } = line;
        match made {
            Made::Gen { negated } => self.generator(alloc, negated, &vector),
            Made::Sum { steps } => self.sum(alloc, steps, vector),
        }
    }

    /// The entry of the next generator, which has this vector.
    fn generator(
        &self,
        alloc: Global,
        negated: bool,
        vector: &ModVec,
    ) -> Result<Arc<Entry>, LineFault>
        requires turn { length self.now.entries < length self.now.generators }
        requires entry { IsEntry vector.now }
        ensures { (gens : List (List Term)) → AreGenerators self.now.source gens →
            Outcome (λ e. IsNextEntry self.now gens (made.Gen negated) vector.now (arc_value e))
            (MadeFails gens self.now.entries (made.Gen negated) vector.now) result }
    {
        self.known();
        let entry = &self.generators[self.entries.len()];
        entry.known();
        generator_agrees(alloc, entry, negated, vector)?;
        Ok(Arc::try_clone(entry)?)
    }

    /// The entry that is the sum of the steps, and has this vector.
    fn sum(&self, alloc: Global, steps: Steps, vector: ModVec) -> Result<Arc<Entry>, LineFault>
        requires turn { length self.now.generators ≤ length self.now.entries }
        requires near { AreNear (vectors_of self.now.entries) steps }
        requires over { AreStepsOf (length self.now.source.names) steps }
        requires entry { IsEntry vector }
        ensures { (gens : List (List Term)) → AreGenerators self.now.source gens →
            Outcome (λ e. IsNextEntry self.now gens (made.Sum steps) vector (arc_value e))
            (MadeFails gens self.now.entries (made.Sum steps) vector) result }
    {
        self.known();
        let list = Items::of(&self.entries, None);
        recipe_agrees(alloc, &list, steps.steps(), &vector)?;
        let entry = Entry::sum(alloc, self.p, &list, vector, steps)?;
        entry.known();
        Ok(entry)
    }

    /// What was read with the entry.
    fn with(self, entry: Arc<Entry>) -> Result<Reader<'a>, AllocError>
        requires { FitsIn self (arc_value entry) }
        ensures { IfOk result (λ taken. taken ≡ record self.entry {
          entries = self.entry.entries ++ arc_value entry ∷ [];
        }) }
    {
        let mut reader = self;
        let terms = entry.vector().terms().len() as u32;
        let steps = recipe_steps(entry.recipe());
        reader.entries.push(entry)?;
        reader.terms += terms;
        reader.steps += steps;
        Ok(reader)
    }
}

/// How many steps a recipe has; a generator has none.
fn recipe_steps(recipe: &Recipe) -> u32
    requires { recipe_steps recipe.now ≤ LOG_STEPS }
    ensures { result ≡ recipe_steps recipe.now }
{
    match recipe {
        Recipe::Gen { .. } => 0,
        Recipe::Sum { steps } => steps.steps().len() as u32,
    }
}
