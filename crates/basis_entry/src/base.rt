//! The entries of the generators.

ghost use Rattle.std.specs.Prelude.{◌≡◌, ◌≢◌, negsuc, List, [], length, map, MatchBool, IfOk};
ghost use Rattle.std.specs.Arc.{arc_value};
ghost use Rattle.formal_sums.specs.FormalSum.{scale};
ghost use Rattle.module_vec.specs.Reducers.{IsEntry};
ghost use Rattle.module_vec.specs.Vectors.{sum_of, IsVector};
ghost use Rattle.vector_text.specs.Over.{VectorIsOver};
ghost use Rattle.fox_calculus.specs.Module.{IsMember};
ghost use Rattle.basis_entry.specs.Base.{IsOfGenerator, AreBase, has_negative_lead};

use crate::{Entry, Recipe};
use fox_calculus::generators;
use module_vec::ModVec;
use presentation::Presentation;
use std::alloc::{AllocError, Global};
use std::sync::Arc;

/// The entries of the generators in their order.
pub fn generator_entries(
    alloc: Global,
    p: &Arc<Presentation>,
) -> Result<Vec<Arc<Entry>>, AllocError>
    ensures { IfOk result (λ made. AreBase (arc_value p.now) (map arc_value made.items)) }
{
    p.known();
    let mut made = Vec::new(alloc);
    let mut number = 0;
    for vector in generators(alloc, p)? {
        made.push(generator_entry(alloc, p, number, vector)?)?;
        number += 1;
    }
    Ok(made)
}

/// The entry of the generator with this number.
fn generator_entry(
    alloc: Global,
    p: &Arc<Presentation>,
    number: u32,
    vector: ModVec,
) -> Result<Arc<Entry>, AllocError>
    requires some { vector ≢ [] }
    requires member { IsMember (arc_value p.now) (sum_of vector) }
    requires over { VectorIsOver (length (arc_value p.now).names) vector }
    ensures { IfOk result (λ e. IsOfGenerator (arc_value p.now) number vector (arc_value e)) }
{
    let (vector, negated) = with_positive_lead(vector);
    Entry::of(alloc, p, vector, Recipe::Gen { number, negated })
}

/// The vector with a positive lead coefficient, and whether its signs had to be turned for that.
fn with_positive_lead(mut vector: ModVec) -> (ModVec, bool)
    requires some { vector ≢ [] }
    ensures entry { IsEntry result.0 }
    ensures sign { result.1 ≡ has_negative_lead vector }
    ensures vector { MatchBool (has_negative_lead vector) (sum_of result.0
        ≡ scale (negsuc 0) (sum_of vector)) (result.0 ≡ vector) }
{
    if !has_negative_lead(&vector) {
        return (vector, false);
    }
    vector.negate();
    (vector, true)
}

/// Whether the lead coefficient is negative.
fn has_negative_lead(vector: &ModVec) -> bool
    ensures is { result ≡ has_negative_lead vector.now }
    ensures vector { IsVector vector.now }
{
    match vector.terms().first() {
        Some(lead) => lead.k < 0,
        None => false,
    }
}
