//! Known sums, each limit, and where sums part from vectors.

use crate::{Steps, Sum, SumFault, Way, laws};
use laurent_terms::Mono;
use module_vec::{COEFFICIENT, ModVec, Place, Step, Term};
use std::alloc::Global;
use std::test::Fail;

/// The greatest coefficient, 2^127 - 1.
const MOST: i128 = i128::MAX;

/// x_0 to the power `exponent`.
fn power(exponent: i32) -> Result<Mono, Fail> {
    Ok(Mono::of_exponents(&[exponent]).ok_or("too steep")?)
}

/// x_0^exponent, component 0.
fn place(exponent: i32) -> Result<Place, Fail> {
    Ok(Place {
        m: power(exponent)?,
        c: 0,
    })
}

/// The sum of terms at powers of x_0.
fn vector(alloc: Global, terms: &[(i32, i128)]) -> Result<ModVec, Fail> {
    let mut list = Vec::new(alloc);
    for (exponent, k) in terms {
        list.push(Term {
            at: place(*exponent)?,
            k: *k,
        })?;
    }
    if list.len() > 1_000_000 {
        return Err(Fail::from("too many terms"));
    }
    match ModVec::from_terms(alloc, list.as_slice()) {
        Ok(v) => Ok(v),
        Err(_) => Err(Fail::from("no vector")),
    }
}

/// The sum after q times x_0^exponent times g.
fn pass<'a>(
    alloc: Global,
    sum: Sum<'a>,
    way: Way,
    q: i128,
    exponent: i32,
    g: &ModVec,
) -> Result<Result<Sum<'a>, SumFault>, Fail> {
    let step = Step {
        q,
        t: power(exponent)?,
        by: 0,
    };
    if q.unsigned_abs() > COEFFICIENT || !g.has_room(&step.t) {
        return Err(Fail::from("out of reach"));
    }
    Ok(sum.pass(alloc, way, &step, g))
}

/// The sum that was made.
fn made<'a>(answer: Result<Sum<'a>, SumFault>) -> Result<Sum<'a>, Fail> {
    match answer {
        Ok(sum) => Ok(sum),
        Err(_) => Err(Fail::from("no sum")),
    }
}

#[test]
fn steps_are_added(rt: HostRuntime) -> Result<(), Fail> {
    let alloc = rt.alloc();
    let g = vector(alloc, &[(1, 2), (0, -1)])?;
    let sum = made(pass(alloc, Sum::empty(alloc), Way::Add, 3, 1, &g)?)?;
    let sum = made(pass(alloc, sum, Way::Add, -3, 0, &g)?)?;
    assert!(rt;
        sum.difference(&vector(alloc, &[(2, 6), (1, -9), (0, 3)])?)
            .is_none()
    );
    Ok(())
}

#[test]
fn steps_are_taken(rt: HostRuntime) -> Result<(), Fail> {
    let alloc = rt.alloc();
    let g = vector(alloc, &[(1, 2), (0, -1)])?;
    let start = vector(alloc, &[(2, 6), (1, -9), (0, 3)])?;
    let sum = made(pass(alloc, Sum::of(alloc, &start), Way::Take, 3, 1, &g)?)?;
    let sum = made(pass(alloc, sum, Way::Take, -3, 0, &g)?)?;
    assert!(rt; sum.lead().is_none());
    Ok(())
}

#[test]
fn sums_part_at_the_greatest_place(rt: HostRuntime) -> Result<(), Fail> {
    let alloc = rt.alloc();
    let start = vector(alloc, &[(3, 1), (2, 6), (0, 3)])?;
    let parts = Sum::of(alloc, &start).difference(&vector(alloc, &[(3, 1), (2, 5), (1, 1)])?);
    assert!(rt; parts == Some(place(2)?));
    let parts = Sum::of(alloc, &start).difference(&vector(alloc, &[(4, 1), (3, 1)])?);
    assert!(rt; parts == Some(place(4)?));
    let parts = Sum::of(alloc, &start).difference(&vector(alloc, &[(3, 1), (2, 6)])?);
    assert!(rt; parts == Some(place(0)?));
    assert!(rt; Sum::of(alloc, &start).lead() == Some(place(3)?));
    Ok(())
}

#[test]
fn limits(rt: HostRuntime) -> Result<(), Fail> {
    let alloc = rt.alloc();
    let most = vector(alloc, &[(0, MOST)])?;
    let one = vector(alloc, &[(0, 1)])?;
    assert!(rt;
        pass(alloc, Sum::of(alloc, &most), Way::Add, 1, 0, &one)?.err() == Some(SumFault::Wide)
    );
    assert!(rt; pass(alloc, Sum::of(alloc, &most), Way::Take, 1, 0, &one)?.is_ok());
    assert!(rt;
        pass(alloc, Sum::empty(alloc), Way::Take, 2, 0, &most)?.err() == Some(SumFault::Wide)
    );
    Ok(())
}

#[test]
fn long_sums(rt: HostRuntime) -> Result<(), Fail> {
    let alloc = rt.alloc();
    let mut terms = Vec::new(alloc);
    for exponent in 1..50_001i32 {
        terms.push((exponent, 1))?;
    }
    let full = vector(alloc, &terms)?;
    let one = vector(alloc, &[(0, 1)])?;
    let end = vector(alloc, &[(1, 1)])?;
    assert!(rt;
        pass(alloc, Sum::of(alloc, &full), Way::Add, 1, 0, &one)?.err() == Some(SumFault::Long)
    );
    let shorter = made(pass(alloc, Sum::of(alloc, &full), Way::Take, 1, 0, &end)?)?;
    assert!(rt; pass(alloc, shorter, Way::Add, 1, 0, &one)?.is_ok());
    Ok(())
}

#[test]
fn lists_and_laws(rt: HostRuntime) -> Result<(), Fail> {
    assert!(rt; Steps::of(Vec::new(rt.alloc())).steps().is_empty());
    laws::adding_adds_up();
    laws::taking_takes_away();
    laws::proven_vectors_are_sums();
    laws::values_are_sums();
    Ok(())
}
