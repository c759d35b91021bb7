//! The two texts.

ghost use Rattle.std.specs.Prelude.{◌≡◌, ◌<◌, ◌++◌, IfOk, OnOk};
ghost use Rattle.gen_input.specs.Texts.{relators, exponent, lines_text, presentation_text, session_text};

use crate::QUESTIONS;
use crate::draws::Draws;
use crate::lines::{draw_line, put_line, put_numbered};
use std::alloc::{AllocError, Global};

/// The presentation and the session that the seed determines, as texts with line ends.
///
/// The presentation is `<a, b, c | [a,b]^p, [a,c]^q, [b,c]^r>` with exponents from 2 to 13. The session has 2,000
/// lines, about powers of two of the generators.
pub fn large(alloc: Global, seed: u64) -> Result<(Vec<u8>, Vec<u8>), AllocError>
    requires { seed < 1000000000 }
    ensures presentation { IfOk result (λ texts. texts.0.items ≡ presentation_text seed) }
    ensures session { IfOk result (λ texts. texts.1.items ≡ session_text seed) }
{
    let mut draws = Draws::of_seed(seed);
    let (p, q, r) = (2 + draws.draw(12), 2 + draws.draw(12), 2 + draws.draw(12));
    let mut presentation = Vec::new(alloc);
    put_presentation(&mut presentation, p, q, r)?;
    let mut session = Vec::new(alloc);
    put_session(&mut session, draws)?;
    Ok((presentation, session))
}

fn put_presentation(out: &mut Vec<u8>, p: u32, q: u32, r: u32) -> Result<(), AllocError>
    ensures { OnOk result (out.new.items ≡ out.old.items ++ relators p q r) }
{
    put_numbered(out, b"<a, b, c | [a,b]^", p)?;
    put_numbered(out, b", [a,c]^", q)?;
    put_numbered(out, b", [b,c]^", r)?;
    out.extend_from_slice(b">\n")
}

fn put_session(out: &mut Vec<u8>, draws: Draws) -> Result<(), AllocError>
    ensures { OnOk result (out.new.items ≡ out.old.items ++ lines_text QUESTIONS draws.state) }
{
    let mut draws = draws;
    for _ in 0..QUESTIONS {
        put_line(out, draw_line(&mut draws))?;
        out.push(b'\n')?;
    }
    Ok(())
}
