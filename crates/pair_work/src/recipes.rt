//! Recipes of rests.

ghost use Rattle.std.specs.Prelude.{◌≡◌, IfOk, cond, map, ◌++◌, take};
ghost use Rattle.std.specs.List.{AllByRecursion};
ghost use Rattle.module_vec.specs.Vectors.{InRange};
ghost use Rattle.pair_work.specs.Recipes.{turned};
ghost use Rattle.pair_work.specs.Works.{recipe_of, signed};

use module_vec::Step;
use std::alloc::{AllocError, Global};

/// The recipe of a rest: the two steps of its pair, and those of the chain with their signs turned; all signs are
/// turned where the rest was negated.
pub fn recipe(
    alloc: Global,
    first: Step,
    second: Step,
    steps: &[Step],
    negated: bool,
) -> Result<Vec<Step>, AllocError>
    requires first { InRange first.q }
    requires second { InRange second.q }
    requires steps { AllByRecursion (λ s. InRange s.q) steps.now }
    ensures { IfOk result (λ made. made.items ≡ signed negated (recipe_of first second steps.now)) }
{
    let mut made = Vec::new(alloc);
    made.push(turned_if(negated, first))?;
    made.push(turned_if(negated, second))?;
    for step in steps {
        made.push(turned_if(!negated, *step))?;
    }
    Ok(made)
}

fn turned_if(negated: bool, step: Step) -> Step
    requires { InRange step.q }
    ensures { result ≡ cond negated (turned step) step }
{
    if negated {
        Step { q: -step.q, ..step }
    } else {
        step
    }
}
