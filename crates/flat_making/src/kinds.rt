//! What the generators of a presentation's module are in a flat certificate.

ghost use Rattle.std.specs.Prelude.{◌≡◌, ◌<◌, ◌≤◌, ◌*◌, ◌↔◌, [], ◌∷◌, map, IfOk, OnOk, IsTrue, Some, None};
ghost use Rattle.std.specs.List.{range_with_len};
ghost use Rattle.formal_sums.specs.FormalSum.{FormalSum};
ghost use Rattle.laurent_terms.specs.declared.TheConstants.{VARIABLES};
ghost use Rattle.module_vec.specs.declared.places.Place.{Place};
ghost use Rattle.fox_calculus.specs.Generators.{relator_vectors, relator_binomials, unit_binomials, modulus_vectors};
ghost use Rattle.fox_calculus.specs.Generators.{binomial, constant, unit_monomial, IsZero};
ghost use Rattle.flat_cert.specs.declared.lines.FlatKind.TheVariants.{Bin, Mod};
ghost use Rattle.flat_making.specs.Kinds.{AreKinds, Names, relator_kinds, binomial_kinds, unit_kinds, modulus_kinds};

use flat_cert::FlatKind;
use fox_calculus::{fox, image};
use laurent_terms::Mono;
use presentation::Presentation;
use std::alloc::{AllocError, Global};

/// What a line names each generator of the presentation's module, in their order. Unit binomials are named by none.
pub fn generator_kinds(alloc: Global, p: &Presentation) -> Result<Vec<Option<FlatKind>>, AllocError>
    ensures { IfOk result (λ made. AreKinds p.now made.items) }
{
    let mut made = Vec::new(alloc);
    put_relators(alloc, &mut made, p)?;
    put_relator_binomials(&mut made, p)?;
    put_unit_binomials(&mut made, p)?;
    put_modulus_vectors(&mut made, p)?;
    Ok(made)
}

/// Puts the kind of a candidate at the end, unless the candidate is zero.
fn put(
    made: &mut Vec<Option<FlatKind>>,
    is_zero: bool,
    kind: Option<FlatKind>,
) -> Result<(), AllocError>
    ensures { OnOk result ((f : FormalSum Place) → (IsTrue is_zero ↔ IsZero f)
        → Names made.old.items (f ∷ []) (kind ∷ []) made.new.items) }
{
    if is_zero {
        return Ok(());
    }
    made.push(kind)?;
    Ok(())
}

fn put_relators(
    alloc: Global,
    made: &mut Vec<Option<FlatKind>>,
    p: &Presentation,
) -> Result<(), AllocError>
    ensures { OnOk result (Names made.old.items (relator_vectors p.now) (relator_kinds p.now) made.new.items) }
{
    p.known();
    let mut relator = 0;
    for r in p.relators() {
        relator += 1;
        let is_zero = fox(alloc, p, r)?.terms().is_empty();
        put(made, is_zero, Some(FlatKind::Rel { relator }))?;
    }
    Ok(())
}

fn put_relator_binomials(
    made: &mut Vec<Option<FlatKind>>,
    p: &Presentation,
) -> Result<(), AllocError>
    ensures { OnOk result (Names made.old.items (relator_binomials p.now) (binomial_kinds p.now) made.new.items) }
{
    p.known();
    let mut relator = 0;
    for r in p.relators() {
        relator += 1;
        put_binomials(made, &image(r), relator, p.count())?;
    }
    Ok(())
}

/// Those of one relator, whose exponent sums have this monomial.
fn put_binomials(
    made: &mut Vec<Option<FlatKind>>,
    m: &Mono,
    relator: u32,
    count: u8,
) -> Result<(), AllocError>
    ensures { OnOk result (Names made.old.items (map (binomial m.now) (range_with_len 0 count))
        (map (λ c. Some (Bin relator c)) (range_with_len 0 count)) made.new.items) }
{
    let is_zero = *m == Mono::one();
    for c in 0..count {
        put(made, is_zero, Some(FlatKind::Bin { relator, c }))?;
    }
    Ok(())
}

fn put_unit_binomials(made: &mut Vec<Option<FlatKind>>, p: &Presentation) -> Result<(), AllocError>
    ensures { OnOk result (Names made.old.items (unit_binomials p.now) (unit_kinds p.now) made.new.items) }
{
    p.known();
    for g in 0..p.count() {
        put_units(made, g, p.count())?;
    }
    Ok(())
}

/// Those of one generator.
fn put_units(made: &mut Vec<Option<FlatKind>>, g: u8, count: u8) -> Result<(), AllocError>
    requires { 2 * g < VARIABLES }
    ensures { OnOk result (Names made.old.items (map (binomial (unit_monomial g)) (range_with_len 0 count))
        (map (λ c. None) (range_with_len 0 count)) made.new.items) }
{
    for c in 0..count {
        put(made, false, None)?;
    }
    Ok(())
}

fn put_modulus_vectors(made: &mut Vec<Option<FlatKind>>, p: &Presentation) -> Result<(), AllocError>
    ensures { OnOk result (Names made.old.items (modulus_vectors p.now) (modulus_kinds p.now) made.new.items) }
{
    if p.modulus() == 0 {
        return Ok(());
    }
    put_constants(made, p.modulus(), p.count())
}

fn put_constants(made: &mut Vec<Option<FlatKind>>, n: u32, count: u8) -> Result<(), AllocError>
    requires { 0 < n }
    ensures { OnOk result (Names made.old.items (map (constant n) (range_with_len 0 count))
        (map (λ c. Some (Mod c)) (range_with_len 0 count)) made.new.items) }
{
    for c in 0..count {
        put(made, false, Some(FlatKind::Mod { c }))?;
    }
    Ok(())
}
