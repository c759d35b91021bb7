//! The texts of lists of steps.

ghost use Rattle.std.specs.Prelude.{◌≡◌, ◌++◌, length, OnOk, IfOk};
ghost use Rattle.vector_text.specs.Reading.{Reads, IsReadBack};
ghost use Rattle.step_text.specs.Spelling.{steps_text, listed_text};
ghost use Rattle.step_text.specs.Over.{StepsAreOver, AreStepsOf, AreSomeStepsOf};

use crate::step::{put_step, step_of};
use module_vec::Step;
use presentation::Presentation;
use spelling::first_part;
use std::alloc::{AllocError, Global};
use step_lists::Steps;
use vector_text::SpellFault;

/// The text of steps over the presentation's generators: `0`, or the steps in their order with one space between them,
/// as `+2*a.b'@3 -1*1@0`.
#[tactic(auto, using(crate::proofs::ReadingBack::steps_back))]
pub fn write_steps(alloc: Global, p: &Presentation, steps: &[Step]) -> Result<Vec<u8>, AllocError>
    requires { StepsAreOver (length p.now.names) steps.now }
    ensures text { IfOk result (λ text. text.items ≡ steps_text p.now.names steps.now) }
    ensures read_back { AreStepsOf (length p.now.names) steps.now
        → IfOk result (λ text. IsReadBack (steps_text p.now.names) (AreStepsOf (length p.now.names))
        steps.now text.items) }
{
    p.known();
    let mut out = Vec::new(alloc);
    put_steps(&mut out, p, steps)?;
    Ok(out)
}

/// Appends the text of steps over the presentation's generators.
pub fn put_steps(out: &mut Vec<u8>, p: &Presentation, steps: &[Step]) -> Result<(), AllocError>
    requires { StepsAreOver (length p.now.names) steps.now }
    ensures { OnOk result (out.new.items ≡ out.old.items ++ steps_text p.now.names steps.now) }
{
    let Some((first, others)) = steps.split_first() else {
        return out.extend_from_slice(b"0");
    };
    put_step(out, p, first)?;
    for s in others {
        out.extend_from_slice(b" ")?;
        put_step(out, p, s)?;
    }
    Ok(())
}

/// The steps over the presentation's generators that the text spells. `Spelling` exactly where the text is that of no
/// such steps. The time is linear in the text.
pub fn read_steps(alloc: Global, p: &Presentation, text: &[u8]) -> Result<Steps, SpellFault>
    ensures { Reads (steps_text p.now.names) (AreStepsOf (length p.now.names)) text.now result }
{
    if text == b"0".as_slice() {
        return Ok(Steps::of(Vec::new(alloc)));
    }
    some_steps(alloc, p, text)
}

/// The steps that the text spells, of which there is one at least.
fn some_steps(alloc: Global, p: &Presentation, text: &[u8]) -> Result<Steps, SpellFault>
    ensures { Reads (listed_text p.now.names) (AreSomeStepsOf (length p.now.names)) text.now result }
{
    p.known();
    let mut steps = Vec::new(alloc);
    let mut left = Some(text);
    while let Some(rest) = left {
        let (front, after) = first_part(rest, b' ');
        let Some(step) = step_of(p, front) else {
            return Err(SpellFault::Spelling);
        };
        steps.push(step)?;
        left = after;
    }
    Ok(Steps::of(steps))
}
