//! Worked reductions, each limit, and a comparison with a plain program that follows the definition step by step.

mod plain;

use crate::{ReduceFault, Step, VecList, laws, reduce, reducer};
use laurent_terms::Mono;
use module_vec::{Entries, ModVec, Place, STEPS, Stop, TERMS, Term};
use std::alloc::Global;
use std::test::Fail;

/// A term: the exponents of a, b and c, the component and the coefficient.
type Row = ([i32; 3], u8, i128);

fn place(exponents: [i32; 3], c: u8) -> Result<Place, Fail> {
    Ok(Place {
        m: Mono::of_exponents(&exponents).ok_or("too steep")?,
        c,
    })
}

/// The sum of the terms.
fn vector(alloc: Global, rows: &[Row]) -> Result<ModVec, Fail> {
    let mut terms = Vec::new(alloc);
    for (exponents, c, k) in rows {
        terms.push(Term {
            at: place(*exponents, *c)?,
            k: *k,
        })?;
    }
    sum(alloc, terms.as_slice())
}

fn sum(alloc: Global, terms: &[Term]) -> Result<ModVec, Fail> {
    if terms.len() > 1_000_000 {
        return Err(Fail::from("too many terms"));
    }
    match ModVec::from_terms(alloc, terms) {
        Ok(v) => Ok(v),
        Err(_) => Err(Fail::from("no vector")),
    }
}

/// The list of these vectors.
fn list(alloc: Global, vectors: &[&[Row]]) -> Result<Entries, Fail> {
    let mut list = Entries::new(alloc);
    for rows in vectors {
        push(&mut list, vector(alloc, rows)?)?;
    }
    Ok(list)
}

/// Puts an entry at the end.
fn push(list: &mut Entries, entry: ModVec) -> Result<(), Fail> {
    if !entry.is_entry() || list.count() > 100 {
        return Err(Fail::from("no entry"));
    }
    list.push(entry)?;
    Ok(())
}

/// The rest and the steps of a reduction by the whole list that doesn't stop.
fn rest(alloc: Global, list: &Entries, v: &ModVec) -> Result<(ModVec, Vec<Step>), Fail> {
    match reduce(alloc, list, list.count(), v) {
        Ok(made) => Ok(made),
        Err(_) => Err(Fail::from("no rest")),
    }
}

/// Why the reduction by the whole list gives no rest.
fn fault(alloc: Global, list: &Entries, v: &ModVec) -> Option<ReduceFault> {
    reduce(alloc, list, list.count(), v).err()
}

fn wide(at: Place, step: u32) -> Option<ReduceFault> {
    Some(ReduceFault::Stop(Stop::Wide { at, step }))
}

fn long(terms: u32, step: u32) -> Option<ReduceFault> {
    Some(ReduceFault::Stop(Stop::Long { terms, step }))
}

#[test]
fn coefficients_are_divided_downwards(rt: HostRuntime) -> Result<(), Fail> {
    let alloc = rt.alloc();
    let list = list(alloc, &[&[([1, 0, 0], 0, 2), ([0, 0, 0], 0, -1)]])?;
    let rows: [(i128, &[Row], i128); 3] = [
        (7, &[([1, 0, 0], 0, 1), ([0, 0, 0], 0, 3)], 3),
        (-1, &[([1, 0, 0], 0, 1), ([0, 0, 0], 0, -1)], -1),
        (-4, &[([0, 0, 0], 0, -2)], -2),
    ];
    for (k, wanted, q) in rows {
        let v = vector(alloc, &[([1, 0, 0], 0, k)])?;
        let (w, steps) = rest(alloc, &list, &v)?;
        assert!(rt; w.terms() == vector(alloc, wanted)?.terms());
        let t = Mono::one();
        assert!(rt; steps.as_slice() == &[Step { q, t, by: 0 }][..]);
    }
    let v = vector(alloc, &[([1, 0, 0], 0, 1), ([2, 0, 0], 1, 5)])?;
    let (w, steps) = rest(alloc, &list, &v)?;
    assert!(rt; w.terms() == v.terms());
    assert!(rt; steps.is_empty());
    assert!(rt; reducer(&list, list.count(), &place([3, 1, 0], 0)?) == Some(0));
    assert!(rt; reducer(&list, list.count(), &place([3, 1, 0], 1)?) == None);
    assert!(rt; reducer(&list, 0, &place([3, 1, 0], 0)?) == None);
    laws::chains_add_up();
    laws::answers_are_determined();
    Ok(())
}

#[test]
fn coefficients_that_double_get_wide_in_the_15th_step(rt: HostRuntime) -> Result<(), Fail> {
    let alloc = rt.alloc();
    // The derivative w of the commutator of a and b, taken (a - 512) times.
    let relator: [Row; 7] = [
        ([2, 0, 0], 1, 1),
        ([1, 1, 0], 0, -1),
        ([1, 0, 0], 1, -513),
        ([1, 0, 0], 0, 1),
        ([0, 1, 0], 0, 512),
        ([0, 0, 0], 1, 512),
        ([0, 0, 0], 0, -512),
    ];
    let mut list = list(alloc, &[&relator])?;
    for g in 0..2u8 {
        for c in 0..2u8 {
            let x = Mono::of_generator(g, true);
            let m = x.times(&Mono::of_generator(g, false)).ok_or("too steep")?;
            let unit = Place { m: Mono::one(), c };
            let both = [
                Term {
                    at: Place { m, c },
                    k: 1,
                },
                Term { at: unit, k: -1 },
            ];
            push(&mut list, sum(alloc, &both)?)?;
        }
    }
    // The difference of a^15 w and w.
    let v = vector(
        alloc,
        &[
            ([16, 0, 0], 1, 1),
            ([15, 1, 0], 0, -1),
            ([15, 0, 0], 1, -1),
            ([15, 0, 0], 0, 1),
            ([1, 0, 0], 1, -1),
            ([0, 1, 0], 0, 1),
            ([0, 0, 0], 1, 1),
            ([0, 0, 0], 0, -1),
        ],
    )?;
    let at = place([1, 0, 0], 1)?;
    assert!(rt; fault(alloc, &list, &v) == wide(at, 15));
    Ok(())
}

#[test]
fn wide_products_are_named_at_their_greatest_place(rt: HostRuntime) -> Result<(), Fail> {
    let alloc = rt.alloc();
    let most = i128::MAX;
    let rows: [(&[Row], &[Row], [i32; 3], u32); 4] = [
        // The product at the lead: twice -2^126.
        (&[([1, 0, 0], 0, 2)], &[([2, 0, 0], 0, -most)], [2, 0, 0], 1),
        // Behind the lead, and two of them.
        (
            &[([3, 0, 0], 0, 1), ([2, 0, 0], 0, 2), ([1, 0, 0], 0, 3)],
            &[([3, 0, 0], 0, most)],
            [2, 0, 0],
            1,
        ),
        // The difference alone.
        (
            &[([3, 0, 0], 0, 1), ([1, 0, 0], 0, -1)],
            &[([3, 0, 0], 0, 1), ([1, 0, 0], 0, most)],
            [1, 0, 0],
            1,
        ),
        // In the second step.
        (
            &[([1, 0, 0], 0, 1), ([0, 0, 0], 0, -2)],
            &[([2, 0, 0], 0, most / 2)],
            [0, 0, 0],
            2,
        ),
    ];
    for (entry, v, exponents, step) in rows {
        let list = list(alloc, &[entry])?;
        let v = vector(alloc, v)?;
        let at = place(exponents, 0)?;
        assert!(rt; fault(alloc, &list, &v) == wide(at, step));
    }
    Ok(())
}

/// The terms a^p·b^q·c^k for each k from 1 to `count`.
fn powers(alloc: Global, [p, q]: [i32; 2], count: i32) -> Result<Vec<Term>, Fail> {
    let mut terms = Vec::new(alloc);
    for k in 1..=count {
        terms.push(Term {
            at: place([p, q, k], 0)?,
            k: 1,
        })?;
    }
    Ok(terms)
}

/// The sum of a^high·c^k for each k from 1 to `count`, and the term a^first.
fn tower(alloc: Global, high: i32, count: i32, first: i32) -> Result<ModVec, Fail> {
    let mut terms = powers(alloc, [high, 0], count)?;
    terms.push(Term {
        at: place([first, 0, 0], 0)?,
        k: 1,
    })?;
    sum(alloc, terms.as_slice())
}

#[test]
fn reductions_end_after_100000_steps(rt: HostRuntime) -> Result<(), Fail> {
    let alloc = rt.alloc();
    let list = list(alloc, &[&[([1, 0, 0], 0, 1), ([0, 1, 0], 0, -1)]])?;
    // Each term makes 300 steps, and the one beside them 0, 100 or 101.
    let (w, steps) = rest(alloc, &list, &tower(alloc, 300, 333, 0)?)?;
    let mut wanted = powers(alloc, [0, 300], 333)?;
    wanted.push(Term {
        at: place([0, 0, 0], 0)?,
        k: 1,
    })?;
    assert!(rt; w.terms() == sum(alloc, wanted.as_slice())?.terms());
    assert_eq!(rt; steps.len(), 99_900);
    let (_, steps) = rest(alloc, &list, &tower(alloc, 300, 333, 100)?)?;
    assert_eq!(rt; steps.len(), STEPS as usize);
    let deep = Some(ReduceFault::Stop(Stop::Deep));
    assert!(rt; fault(alloc, &list, &tower(alloc, 300, 333, 101)?) == deep);
    let v = sum(alloc, powers(alloc, [300, 0], 400)?.as_slice())?;
    assert!(rt; fault(alloc, &list, &v) == deep);
    Ok(())
}

#[test]
fn results_end_at_50000_terms(rt: HostRuntime) -> Result<(), Fail> {
    let alloc = rt.alloc();
    let entry: [Row; 3] = [([1, 0, 0], 0, 1), ([0, 1, 0], 0, -1), ([0, 0, 1], 0, -1)];
    let list = list(alloc, &[&entry])?;
    let v = tower(alloc, 0, 49_999, 40_000)?;
    assert_eq!(rt; v.terms().len(), TERMS as usize);
    assert!(rt; fault(alloc, &list, &v) == long(50_001, 1));
    let v = tower(alloc, 0, 49_998, 40_000)?;
    assert!(rt; fault(alloc, &list, &v) == long(50_001, 2));
    let (w, steps) = rest(alloc, &list, &tower(alloc, 0, 49_997, 1)?)?;
    assert_eq!(rt; w.terms().len(), 49_998);
    assert_eq!(rt; steps.len(), 1);
    Ok(())
}
