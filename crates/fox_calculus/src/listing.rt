//! The generators of the module of a presentation.

ghost use Rattle.std.specs.Prelude.{◌≡◌, ◌≢◌, ◌≤◌, ◌<◌, ◌*◌, ◌++◌, List, map, length, IfOk, OnOk, if◌then◌else◌, ◌==◌};
ghost use Rattle.std.specs.Prelude.{[], ◌∷◌};
ghost use Rattle.std.specs.List.{range_with_len, flat_map};
ghost use Rattle.formal_sums.specs.FormalSum.{FormalSum};
ghost use Rattle.module_vec.specs.declared.places.Place.{Place};
ghost use Rattle.fox_calculus.specs.Generators.{IsWritten, AreWritten, AreGenerators, binomial, relator_vectors};
ghost use Rattle.fox_calculus.specs.Generators.{relator_binomials, unit_binomials, modulus_vectors};

use crate::binomials::{binomial, constant, image, unit_monomial};
use crate::derivatives::fox;
use laurent_terms::Mono;
use module_vec::ModVec;
use presentation::Presentation;
use std::alloc::{AllocError, Global};

/// The generators of the presentation's module, in their order: the Fox vector of each relator; (x^a - 1)·e_c for each
/// relator, where a are its exponent sums, and each component c; (x_g·y_g - 1)·e_c for each generator and each
/// component; and with a modulus m also m·e_c for each component. Zero vectors are left out.
pub fn generators(alloc: Global, p: &Presentation) -> Result<Vec<ModVec>, AllocError>
    ensures { IfOk result (λ made. AreGenerators p.now made.items) }
{
    let mut made = Vec::new(alloc);
    put_relator_vectors(alloc, &mut made, p)?;
    put_relator_binomials(alloc, &mut made, p)?;
    put_unit_binomials(alloc, &mut made, p)?;
    put_modulus_vectors(alloc, &mut made, p)?;
    Ok(made)
}

/// Puts the vector at the end, unless it is zero.
fn put(made: &mut Vec<ModVec>, v: ModVec) -> Result<(), AllocError>
    ensures { OnOk result ((fs : List (FormalSum Place)) (f : FormalSum Place) → IsWritten f v
        → AreWritten fs made.old.items → AreWritten (fs ++ f ∷ []) made.new.items) }
{
    if v.terms().is_empty() {
        return Ok(());
    }
    made.push(v)?;
    Ok(())
}

fn put_relator_vectors(
    alloc: Global,
    made: &mut Vec<ModVec>,
    p: &Presentation,
) -> Result<(), AllocError>
    ensures { OnOk result ((fs : List (FormalSum Place)) → AreWritten fs made.old.items
        → AreWritten (fs ++ relator_vectors p.now) made.new.items) }
{
    p.known();
    for r in p.relators() {
        put(made, fox(alloc, p, r)?)?;
    }
    Ok(())
}

/// (m - 1)·e_c for each of so many components c.
fn put_binomials(
    alloc: Global,
    made: &mut Vec<ModVec>,
    m: &Mono,
    count: u8,
) -> Result<(), AllocError>
    ensures { OnOk result ((fs : List (FormalSum Place)) → AreWritten fs made.old.items
        → AreWritten (fs ++ map (binomial m.now) (range_with_len 0 count)) made.new.items) }
{
    for c in 0..count {
        put(made, binomial(alloc, m, c)?)?;
    }
    Ok(())
}

fn put_relator_binomials(
    alloc: Global,
    made: &mut Vec<ModVec>,
    p: &Presentation,
) -> Result<(), AllocError>
    ensures { OnOk result ((fs : List (FormalSum Place)) → AreWritten fs made.old.items
        → AreWritten (fs ++ relator_binomials p.now) made.new.items) }
{
    p.known();
    for r in p.relators() {
        put_binomials(alloc, made, &image(r), p.count())?;
    }
    Ok(())
}

fn put_unit_binomials(
    alloc: Global,
    made: &mut Vec<ModVec>,
    p: &Presentation,
) -> Result<(), AllocError>
    ensures { OnOk result ((fs : List (FormalSum Place)) → AreWritten fs made.old.items
        → AreWritten (fs ++ unit_binomials p.now) made.new.items) }
{
    p.known();
    for g in 0..p.count() {
        put_binomials(alloc, made, &unit_monomial(g), p.count())?;
    }
    Ok(())
}

fn put_modulus_vectors(
    alloc: Global,
    made: &mut Vec<ModVec>,
    p: &Presentation,
) -> Result<(), AllocError>
    ensures { OnOk result ((fs : List (FormalSum Place)) → AreWritten fs made.old.items
        → AreWritten (fs ++ modulus_vectors p.now) made.new.items) }
{
    if p.modulus() == 0 {
        return Ok(());
    }
    put_constants(alloc, made, p.modulus(), p.count())
}

/// n·e_c for each of so many components c.
fn put_constants(alloc: Global, made: &mut Vec<ModVec>, n: u32, count: u8) -> Result<(), AllocError>
    ensures { OnOk result ((fs : List (FormalSum Place)) → AreWritten fs made.old.items
        → AreWritten (fs ++ map (Rattle.fox_calculus.specs.Generators.constant n) (range_with_len 0 count))
        made.new.items) }
{
    for c in 0..count {
        put(made, constant(alloc, n, c)?)?;
    }
    Ok(())
}
