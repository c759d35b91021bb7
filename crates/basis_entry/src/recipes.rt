//! How an entry was made.

ghost use Rattle.std.specs.List.{AllByRecursion};
ghost use Rattle.std.specs.Prelude.{◌≡◌, ◌↔◌, IsTrue};
ghost use Rattle.laurent_terms.specs.Monomials.{IsMonomial};
ghost use Rattle.basis_entry.specs.Entries.{HasMonomials};

use module_vec::Step;
use step_lists::Steps;

/// What an entry was made from.
#[derive(Drop)]
pub enum Recipe {
    /// The generator of the module with this number, all its signs turned where it is `negated`.
    Gen { number: u32, negated: bool },
    /// The sum of these multiples of entries with lower numbers.
    Sum { steps: Steps },
}

impl Recipe {
    /// What holds of the steps of every recipe. The call does nothing.
    pub fn known(&self)
        ensures { HasMonomials self.now }
    {
        if let Recipe::Sum { steps } = self {
            steps_known(steps.steps());
        }
    }

    /// Whether the recipe is that of the other.
    pub fn same(&self, other: &Recipe) -> bool
        ensures { IsTrue result ↔ (self.now ≡ other.now) }
    {
        match (self, other) {
            (
                Recipe::Gen { number, negated },
                Recipe::Gen {
                    number: other_number,
                    negated: other_negated,
                },
            ) => number == other_number && negated == other_negated,
            (Recipe::Sum { steps }, Recipe::Sum { steps: others }) => same_steps(steps, others),
            _ => false,
        }
    }
}

/// The steps have monomials.
fn steps_known(steps: &[Step])
    ensures { AllByRecursion (λ s. IsMonomial s.t) steps.now }
{
    for step in steps {
        step.t.degree();
    }
}

/// Whether the steps are the others, in their order.
fn same_steps(steps: &Steps, others: &Steps) -> bool
    ensures { IsTrue result ↔ (steps.now ≡ others.now) }
{
    steps.steps() == others.steps()
}
