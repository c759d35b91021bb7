//! Whether a certificate shows that a word is trivial.

ghost use Rattle.std.specs.Prelude.{◌≢◌, ◌≤◌, pos, length, IfOk, IfErr};
ghost use Rattle.free_words.specs.declared.TheConstants.{COMPOSED};
ghost use Rattle.free_words.specs.Words.{IsOver};
ghost use Rattle.derivation.specs.Moves.{Trivial};
ghost use Rattle.formal_sums.specs.FormalSum.{FormalSum, Same};
ghost use Rattle.module_vec.specs.declared.places.Place.{Place};
ghost use Rattle.module_vec.specs.Places.{same_place};
ghost use Rattle.module_vec.specs.Vectors.{InRange};
ghost use Rattle.fox_calculus.specs.Fox.{fox};
ghost use Rattle.fox_calculus.specs.Generators.{IsWritten};
ghost use Rattle.flat_cert.specs.Images.{flat_image};
ghost use Rattle.flat_cert.specs.Certificates.{IsFlat, AreFlat, generator_of, certificate_sum};
ghost use Rattle.flat_cert.specs.Checking.{Answers, FaultIsOver};
ghost use Rattle.flat_cert.specs.Adding.{AreRelators, TakesAway, TakesLines};

use crate::faults::FlatFault;
use crate::relators::{RelatorVector, relator_vectors};
use crate::totals::Totals;
use crate::{Flat, FlatKind, FlatSumFault};
use fox_calculus::{binomial, constant, fox};
use free_words::Word;
use laurent_terms::Mono;
use module_vec::ModVec;
use presentation::Presentation;
use std::alloc::Global;

/// Whether the sum of the certificate is the flat image of the word's Fox vector, so that the word is trivial
/// (Magnus 1939).
///
/// `Beyond` comes exactly where a term of the Fox vector or of a line's value stands at a flat place of too great a
/// degree, where the absolute values of all terms at one flat place add up past the range of coefficients, or where
/// the terms stand at more than [`PLACES`](crate::PLACES) flat places; else `NotZero` names the greatest flat place at
/// which the two differ.
pub fn check_flat(
    alloc: Global,
    p: &Presentation,
    w: &Word,
    list: &[Flat],
) -> Result<(), FlatSumFault>
    requires over { IsOver (length p.now.names) w.now }
    requires short { length w.now ≤ COMPOSED }
    requires lines { AreFlat p.now list.now }
    ensures exact { Answers p.now w.now list.now result }
    ensures equal { IfOk result (λ _. Same same_place (flat_image (fox w.now))
        (flat_image (certificate_sum p.now list.now))) }
    ensures sound { IfOk result (λ _. Trivial p.now w.now) }
    // The place that is named is over the presentation's generators, so it can be written.
    ensures over { IfErr result (FaultIsOver (length p.now.names)) }
{
    p.known();
    checked(alloc, p, w, list)
}

/// The same, without what follows from it.
fn checked(alloc: Global, p: &Presentation, w: &Word, list: &[Flat]) -> Result<(), FlatSumFault>
    requires over { IsOver (length p.now.names) w.now }
    requires short { length w.now ≤ COMPOSED }
    requires lines { AreFlat p.now list.now }
    ensures { Answers p.now w.now list.now result }
{
    let relators = relator_vectors(alloc, p)?;
    let vector = fox(alloc, p, w)?;
    let mut totals = Totals::new(alloc);
    totals.add_multiple(1, &Mono::one(), vector.terms())?;
    take_lines(alloc, &mut totals, p, relators.as_slice(), list)?;
    match totals.lead() {
        Some(at) => Err(FlatSumFault::NotZero { at }),
        None => Ok(()),
    }
}

/// Takes the values of the lines away.
fn take_lines(
    alloc: Global,
    totals: &mut Totals,
    p: &Presentation,
    relators: &[RelatorVector],
    list: &[Flat],
) -> Result<(), FlatFault>
    requires relators { AreRelators p.now.relators relators.now }
    requires lines { AreFlat p.now list.now }
    ensures { TakesLines p.now totals.old list.now totals.new result }
{
    for line in list {
        take_line(alloc, totals, p, relators, line)?;
    }
    Ok(())
}

/// Takes the value of a line away.
fn take_line(
    alloc: Global,
    totals: &mut Totals,
    p: &Presentation,
    relators: &[RelatorVector],
    line: &Flat,
) -> Result<(), FlatFault>
    requires relators { AreRelators p.now.relators relators.now }
    requires line { IsFlat p.now line.now }
    ensures { TakesAway totals.old line.now.k line.now.t (generator_of p.now line.now.what) totals.new result }
{
    match line.what {
        FlatKind::Rel { relator } => {
            let of = &relators[relator as usize - 1];
            take(totals, line.k, &line.t, &of.vector)
        }
        FlatKind::Bin { relator, c } => {
            let of = &relators[relator as usize - 1];
            let vector = binomial(alloc, &of.image, c)?;
            take(totals, line.k, &line.t, &vector)
        }
        FlatKind::Mod { c } => {
            let vector = constant(alloc, p.modulus(), c)?;
            take(totals, line.k, &line.t, &vector)
        }
    }
}

/// Takes `k·t` times a vector away.
fn take(totals: &mut Totals, k: i128, t: &Mono, vector: &ModVec) -> Result<(), FlatFault>
    requires range { InRange k }
    requires nonzero { k ≢ pos 0 }
    ensures { (f : FormalSum Place) → IsWritten f vector.now → TakesAway totals.old k t.now f totals.new result }
{
    totals.add_multiple(-k, t, vector.terms())
}
