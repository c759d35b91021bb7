//! What is left of known terms, and the limit of coefficients.

use crate::{ChangedTerms, TakeFault};
use laurent_terms::Mono;
use module_vec::{ModVec, Place, Term};
use std::alloc::Global;
use std::test::Fail;

/// x_0^exponent, component 0.
fn place(exponent: i32) -> Result<Place, Fail> {
    Ok(Place {
        m: Mono::of_exponents(&[exponent]).ok_or("too steep")?,
        c: 0,
    })
}

/// Three terms at powers of x_0.
fn vector(alloc: Global, terms: [(i32, i128); 3]) -> Result<ModVec, Fail> {
    let mut list = Vec::new(alloc);
    for (exponent, k) in terms {
        list.push(Term {
            at: place(exponent)?,
            k,
        })?;
    }
    if list.len() > 3 {
        return Err(Fail::from("too many terms"));
    }
    match ModVec::from_terms(alloc, list.as_slice()) {
        Ok(v) => Ok(v),
        Err(_) => Err(Fail::from("no vector")),
    }
}

#[test]
fn multiples_are_taken(rt: HostRuntime) -> Result<(), Fail> {
    let alloc = rt.alloc();
    let given = vector(alloc, [(3, 6), (2, 5), (0, 4)])?;
    let taken = vector(alloc, [(2, 2), (1, 1), (0, -1)])?;
    let mut terms = ChangedTerms::new(alloc, given.terms());
    let t = place(1)?.m;
    if !taken.has_room(&t) || terms.len() > 3 {
        return Err(Fail::from("out of reach"));
    }
    assert!(rt; terms.take(alloc, 3, &t, taken.terms()).is_ok());
    assert!(rt; terms.len() == 3);
    assert!(rt; terms.coefficient(&place(1)?) == 3);
    let top = terms.pop().ok_or("no term")?;
    assert!(rt; top.at == place(2)? && top.k == 2);
    Ok(())
}

#[test]
fn wide_coefficients_are_named(rt: HostRuntime) -> Result<(), Fail> {
    let alloc = rt.alloc();
    let given = vector(alloc, [(2, 1), (1, -i128::MAX), (0, 4)])?;
    let taken = vector(alloc, [(2, 1), (1, 1), (0, i128::MAX)])?;
    let mut terms = ChangedTerms::new(alloc, given.terms());
    let t = Mono::one();
    if !taken.has_room(&t) || terms.len() > 3 {
        return Err(Fail::from("out of reach"));
    }
    assert!(rt; terms.take(alloc, 1, &t, taken.terms()).err() == Some(TakeFault::Wide(place(1)?)));
    assert!(rt; terms.len() == 3 && terms.coefficient(&place(2)?) == 1);
    Ok(())
}
