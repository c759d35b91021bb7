//! `Entry`: a vector of a module, with where it comes from.

ghost use Rattle.std.specs.List.{AllByRecursion};
ghost use Rattle.std.specs.Prelude.{◌≡◌, ◌↔◌, List, length, map, IsTrue, IfOk};
ghost use Rattle.std.specs.Arc.{arc_value};
ghost use Rattle.module_vec.specs.Modules.{AreSteps, steps_at};
ghost use Rattle.module_vec.specs.Reducers.{IsEntry};
ghost use Rattle.module_vec.specs.Results.{Has};
ghost use Rattle.module_vec.specs.Vectors.{sum_of};
ghost use Rattle.vector_text.specs.Over.{VectorIsOver};
ghost use Rattle.fox_calculus.specs.Module.{IsMember};
ghost use Rattle.basis_entry.specs.declared.recipes.Recipe.TheVariants.{Sum};
ghost use Rattle.basis_entry.specs.Base.{AreBase};
ghost use Rattle.basis_entry.specs.Entries.{IsBasisEntry, AreOf, MonosAreOver, RecipeIsOver};

use crate::base::generator_entries;
use crate::{Front, Recipe};
use module_vec::ModVec;
use presentation::Presentation;
use std::alloc::{AllocError, Global};
use std::marker::Model;
use std::sync::Arc;
use step_lists::Steps;

/// An entry of a basis: a vector of the module of a presentation, with a positive lead coefficient, and the recipe by
/// which it was made.
#[derive(Drop)]
pub struct Entry {
    source: Arc<Presentation>,
    vector: ModVec,
    recipe: Recipe,
}

impl Model for Entry {
    ghost use Rattle.basis_entry.specs.Entries.{BasisEntry, IsBasisEntry};

    ghost Value = { BasisEntry };

    ghost view = { λ e. record { source = e.source.value; vector = e.vector; recipe = e.recipe } };

    ghost invariant = { λ e. IsBasisEntry (record { source = e.source.value; vector = e.vector; recipe = e.recipe }) };
}

impl Entry {
    /// The entries of the generators of the presentation's module, in their order. Where the lead coefficient of a
    /// generator is negative, all its signs are turned.
    pub fn base(alloc: Global, p: &Arc<Presentation>) -> Result<Vec<Arc<Entry>>, AllocError>
        ensures { IfOk result (λ made. AreBase (arc_value p.now) (map arc_value made.items)) }
    {
        generator_entries(alloc, p)
    }

    /// The entry that is the sum of these steps over the list. `vector` is that sum. The variables of the steps are
    /// those of the presentation's generators.
    pub fn sum<F: Front>(
        alloc: Global,
        p: &Arc<Presentation>,
        list: &F,
        vector: ModVec,
        steps: Steps,
    ) -> Result<Arc<Entry>, AllocError>
        requires list { AreOf (arc_value p.now) (F.entries list.now) }
        requires steps { AreSteps (F.vectors list.now) steps }
        requires value { Has vector (steps_at (F.vectors list.now) steps) }
        requires entry { IsEntry vector }
        requires over { MonosAreOver (length (arc_value p.now).names) steps }
        ensures { IfOk result (λ e. arc_value e ≡ record {
          source = arc_value p.now;
          vector = vector;
          recipe = Sum steps;
        }) }
    {
        list.known();
        Entry::of(alloc, p, vector, Recipe::Sum { steps })
    }

    /// The entry of this vector, which lies in the module.
    pub(crate) fn of(
        alloc: Global,
        p: &Arc<Presentation>,
        vector: ModVec,
        recipe: Recipe,
    ) -> Result<Arc<Entry>, AllocError>
        requires entry { IsEntry vector }
        requires member { IsMember (arc_value p.now) (sum_of vector) }
        requires over { VectorIsOver (length (arc_value p.now).names) vector }
        requires recipe { RecipeIsOver (length (arc_value p.now).names) recipe }
        ensures { IfOk result (λ e. arc_value e ≡ record {
          source = arc_value p.now;
          vector = vector;
          recipe = recipe;
        }) }
    {
        recipe.known();
        let entry = Entry {
            source: Arc::try_clone(p)?,
            vector,
            recipe,
        };
        Ok(Arc::new(alloc, entry)?)
    }

    /// The presentation in whose module the vector lies.
    pub fn presentation(&self) -> &Presentation
        ensures { result.now ≡ self.now.source }
    {
        &self.source
    }

    /// What holds of every entry. The call does nothing.
    pub fn known(&self)
        ensures { IsBasisEntry self.now }
    {
        let _source = &self.source;
    }

    /// What holds of each of these entries. The call does nothing: where it is compiled no loop is left of it.
    pub fn all_known(entries: &[Arc<Entry>])
        ensures { AllByRecursion IsBasisEntry (map arc_value entries.now) }
    {
        for entry in entries {
            entry.known();
        }
    }

    /// The vector.
    pub fn vector(&self) -> &ModVec
        ensures is { result.now ≡ self.now.vector }
        ensures entry { IsBasisEntry self.now }
    {
        &self.vector
    }

    /// How the entry was made.
    pub fn recipe(&self) -> &Recipe
        ensures { result.now ≡ self.now.recipe }
    {
        &self.recipe
    }

    /// Whether the presentation, the vector and the recipe are those of the other.
    pub fn same(&self, other: &Entry) -> bool
        ensures { IsTrue result ↔ (self.now ≡ other.now) }
    {
        same_vector(self.vector(), other.vector())
            && self.recipe().same(other.recipe())
            && self.presentation().same(other.presentation())
    }
}

/// Whether the vectors have the same terms.
fn same_vector(vector: &ModVec, other: &ModVec) -> bool
    ensures { IsTrue result ↔ (vector.now ≡ other.now) }
{
    vector.terms() == other.terms()
}
