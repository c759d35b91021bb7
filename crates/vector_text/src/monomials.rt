//! The texts of monomials.

ghost use Rattle.std.specs.Prelude.{◌≡◌, ◌++◌, [], codes, if◌then◌else◌, length, OnOk, IfOk, IfErr};
ghost use Rattle.vector_text.specs.Spelling.{factors_text, monomial_text};
ghost use Rattle.vector_text.specs.Over.{MonoIsOver, IsMonoOf, IsProductOf};
ghost use Rattle.vector_text.specs.Reading.{Reads, IsReadBack};
ghost use Rattle.spelling.specs.Spelling.{IsRead};

use crate::SpellFault;
use crate::factors::{Factor, power, put_factor, read_factor};
use laurent_terms::Mono;
use presentation::Presentation;
use spelling::first_part;
use std::alloc::{AllocError, Global};

/// The text of a monomial over the presentation's generators: `1`, or its factors in the order of the variables with
/// points between them, as `a.a'.b'^3`. `a` is the
/// generator's variable and `a'` the one that stands for its inverse; an exponent is written where it isn't 1.
#[tactic(auto, using(crate::proofs::ReadingBack::monomial_back))]
pub fn write_mono(alloc: Global, p: &Presentation, m: &Mono) -> Result<Vec<u8>, AllocError>
    requires { MonoIsOver (length p.now.names) m.now }
    ensures text { IfOk result (λ text. text.items ≡ monomial_text p.now.names m.now) }
    ensures read_back { IfOk result (λ text. IsReadBack (monomial_text p.now.names) (IsMonoOf (length p.now.names))
        m.now text.items) }
{
    p.known();
    m.known();
    let mut out = Vec::new(alloc);
    put_mono(&mut out, p, m)?;
    Ok(out)
}

/// Appends the text of a monomial over the presentation's generators.
#[tactic(auto, using(crate::proofs::Writing::factors_written))]
pub fn put_mono(out: &mut Vec<u8>, p: &Presentation, m: &Mono) -> Result<(), AllocError>
    requires { MonoIsOver (length p.now.names) m.now }
    ensures { OnOk result (out.new.items ≡ out.old.items ++ monomial_text p.now.names m.now) }
{
    p.known();
    m.known();
    let mut begun = false;
    for variable in 0..2 * p.count() {
        let exponent = m.exp(variable);
        if exponent > 0 {
            put_point(out, begun)?;
            put_factor(out, p, Factor { variable, exponent })?;
            begun = true;
        }
    }
    if begun {
        return Ok(());
    }
    out.extend_from_slice(b"1")
}

/// The monomial over the presentation's generators that the text spells; its degree is at most
/// [`DEGREE`](laurent_terms::DEGREE). `Spelling` exactly where the text is no such monomial's, and never `NoMemory`.
pub fn read_mono(p: &Presentation, text: &[u8]) -> Result<Mono, SpellFault>
    ensures reads { Reads (monomial_text p.now.names) (IsMonoOf (length p.now.names)) text.now result }
    ensures no_memory_taken { IfErr result (λ e. e ≡ SpellFault.Spelling) }
{
    match mono_of(p, text) {
        Some(m) => Ok(m),
        None => Err(SpellFault::Spelling),
    }
}

/// The monomial that the text spells.
pub fn mono_of(p: &Presentation, text: &[u8]) -> Option<Mono>
    ensures { IsRead (monomial_text p.now.names) (IsMonoOf (length p.now.names)) text.now result }
{
    if text == b"1".as_slice() {
        return Some(Mono::one());
    }
    product_of(p, text)
}

/// The product of the factors that the text spells, in the order of their variables.
fn product_of(p: &Presentation, text: &[u8]) -> Option<Mono>
    ensures { IsRead (factors_text p.now.names) (IsProductOf (length p.now.names)) text.now result }
{
    p.known();
    let mut made = Mono::one();
    let mut next = 0;
    let mut left = Some(text);
    while let Some(rest) = left {
        let (front, after) = first_part(rest, b'.');
        let factor = read_factor(p, front)?;
        if factor.variable < next {
            return None;
        }
        let power = power(factor)?;
        made = made.times(&power)?;
        next = factor.variable + 1;
        left = after;
    }
    Some(made)
}

/// Appends the point before a further factor.
fn put_point(out: &mut Vec<u8>, begun: bool) -> Result<(), AllocError>
    ensures { OnOk result (out.new.items ≡ out.old.items ++ (if begun then codes "." else [])) }
{
    if begun {
        return out.extend_from_slice(b".");
    }
    Ok(())
}
