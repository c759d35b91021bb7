//! The text of one step.

ghost use Rattle.std.specs.Prelude.{◌≡◌, ◌++◌, length, OnOk};
ghost use Rattle.spelling.specs.Spelling.{IsRead};
ghost use Rattle.step_text.specs.Spelling.{step_text};
ghost use Rattle.step_text.specs.Over.{StepIsOver, IsStepOf};

use module_vec::Step;
use presentation::Presentation;
use spelling::{cut, read_coefficient, read_number, write_coefficient, write_number};
use std::alloc::AllocError;
use vector_text::{put_mono, read_mono};

/// Appends the step: its coefficient, `*`, its monomial, `@`, and the number of the entry.
#[tactic(auto, using(crate::proofs::StepTexts::spelled_coefficient))]
pub fn put_step(out: &mut Vec<u8>, p: &Presentation, s: &Step) -> Result<(), AllocError>
    requires { StepIsOver (length p.now.names) s.now }
    ensures { OnOk result (out.new.items ≡ out.old.items ++ step_text p.now.names s.now) }
{
    write_coefficient(out, s.q)?;
    out.extend_from_slice(b"*")?;
    put_mono(out, p, &s.t)?;
    out.extend_from_slice(b"@")?;
    write_number(out, s.by)
}

/// The step that the text spells.
pub fn step_of(p: &Presentation, text: &[u8]) -> Option<Step>
    ensures { IsRead (step_text p.now.names) (IsStepOf (length p.now.names)) text.now result }
{
    p.known();
    let (front, rest) = cut(text, b'*')?;
    let q = read_coefficient(front)?;
    let (middle, last) = cut(rest, b'@')?;
    let Ok(t) = read_mono(p, middle) else {
        return None;
    };
    let by = read_number(last)?;
    Some(Step { q, t, by })
}
