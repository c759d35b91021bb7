//! The texts of vectors.

ghost use Rattle.std.specs.Prelude.{◌≡◌, ◌++◌, length, OnOk, IfOk};
ghost use Rattle.vector_text.specs.Spelling.{terms_text, vector_text};
ghost use Rattle.vector_text.specs.Over.{VectorIsOver, IsVectorOf, IsSumOf};
ghost use Rattle.vector_text.specs.Reading.{Reads, IsReadBack};

use crate::SpellFault;
use crate::terms::{may_follow, put_term, term_of};
use module_vec::ModVec;
use presentation::Presentation;
use spelling::first_part;
use std::alloc::{AllocError, Global};

/// The text of a vector over the presentation's generators: `0`, or its terms in falling order with one space between
/// them, as `+2*a.b'@a -1*1@b`.
#[tactic(auto, using(crate::proofs::ReadingBack::vector_back))]
pub fn write_vector(alloc: Global, p: &Presentation, v: &ModVec) -> Result<Vec<u8>, AllocError>
    requires { VectorIsOver (length p.now.names) v.now }
    ensures text { IfOk result (λ text. text.items ≡ vector_text p.now.names v.now) }
    ensures read_back { IfOk result (λ text. IsReadBack (vector_text p.now.names) (IsVectorOf (length p.now.names))
        v.now text.items) }
{
    p.known();
    v.known();
    let mut out = Vec::new(alloc);
    put_vector(&mut out, p, v)?;
    Ok(out)
}

/// Appends the text of a vector over the presentation's generators.
pub fn put_vector(out: &mut Vec<u8>, p: &Presentation, v: &ModVec) -> Result<(), AllocError>
    requires { VectorIsOver (length p.now.names) v.now }
    ensures { OnOk result (out.new.items ≡ out.old.items ++ vector_text p.now.names v.now) }
{
    let Some((first, others)) = v.terms().split_first() else {
        return out.extend_from_slice(b"0");
    };
    put_term(out, p, first)?;
    for t in others {
        out.extend_from_slice(b" ")?;
        put_term(out, p, t)?;
    }
    Ok(())
}

/// The vector over the presentation's generators that the text spells: at most [`TERMS`](module_vec::TERMS) terms in
/// strictly falling order of their places. `Spelling` exactly where the text is no such vector's. The time is linear in
/// the text.
pub fn read_vector(alloc: Global, p: &Presentation, text: &[u8]) -> Result<ModVec, SpellFault>
    ensures { Reads (vector_text p.now.names) (IsVectorOf (length p.now.names)) text.now result }
{
    if text == b"0".as_slice() {
        return Ok(ModVec::empty(alloc));
    }
    sum_of(alloc, p, text)
}

/// The sum of the terms that the text spells, in falling order.
fn sum_of(alloc: Global, p: &Presentation, text: &[u8]) -> Result<ModVec, SpellFault>
    ensures { Reads (terms_text p.now.names) (IsSumOf (length p.now.names)) text.now result }
{
    p.known();
    let mut terms = Vec::new(alloc);
    let mut left = Some(text);
    while let Some(rest) = left {
        let (front, after) = first_part(rest, b' ');
        let Some(term) = term_of(p, front) else {
            return Err(SpellFault::Spelling);
        };
        if !may_follow(&terms, &term) {
            return Err(SpellFault::Spelling);
        }
        terms.push(term)?;
        left = after;
    }
    Ok(ModVec::of_falling(terms))
}
