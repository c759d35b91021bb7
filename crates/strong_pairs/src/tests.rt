//! Known pairs, each limit and one past it, and each call once where it succeeds.

use crate::{PairFault, PairKind, covers, g_vector, is_pair, pair_steps, s_vector};
use laurent_terms::{DEGREE, Mono};
use module_vec::{Entries, ModVec, Place, Step, Stop, Term, VecList};
use std::alloc::Global;
use std::test::Fail;

/// The greatest coefficient, 2^127 - 1.
const MOST: i128 = i128::MAX;

/// A coefficient, the exponents of x_0 and x_1, and the component.
type Row = (i128, i32, i32, u8);

fn monomial(first: i32, second: i32) -> Result<Mono, Fail> {
    Ok(Mono::of_exponents(&[first, second]).ok_or("too steep")?)
}

fn vector(alloc: Global, rows: &[Row]) -> Result<ModVec, Fail> {
    let mut terms = Vec::new(alloc);
    for (k, first, second, c) in rows {
        let at = Place {
            m: monomial(*first, *second)?,
            c: *c,
        };
        terms.push(Term { at, k: *k })?;
    }
    if terms.len() > 1_000_000 {
        return Err(Fail::from("too many terms"));
    }
    match ModVec::from_terms(alloc, terms.as_slice()) {
        Ok(v) => Ok(v),
        Err(_) => Err(Fail::from("no vector")),
    }
}

fn put(entries: &mut Entries, v: ModVec) -> Result<(), Fail> {
    if !v.is_entry() || entries.count() > 1_000 {
        return Err(Fail::from("no entry"));
    }
    entries.push(v)?;
    Ok(())
}

fn entries(alloc: Global, list: &[&[Row]]) -> Result<Entries, Fail> {
    let mut entries = Entries::new(alloc);
    for rows in list {
        put(&mut entries, vector(alloc, rows)?)?;
    }
    Ok(entries)
}

/// The vector of the first two entries.
fn of_first_two(
    alloc: Global,
    list: &Entries,
    kind: PairKind,
) -> Result<Result<ModVec, PairFault>, Fail> {
    if !is_pair(list, 0, 1) {
        return Err(Fail::from("no pair"));
    }
    Ok(match kind {
        PairKind::S => s_vector(alloc, list, 0, 1),
        PairKind::G => g_vector(alloc, list, 0, 1),
    })
}

fn made(answer: Result<ModVec, PairFault>) -> Result<ModVec, Fail> {
    match answer {
        Ok(v) => Ok(v),
        Err(_) => Err(Fail::from("no vector")),
    }
}

#[test]
fn leads_are_taken_away_or_joined(rt: HostRuntime) -> Result<(), Fail> {
    let alloc = rt.alloc();
    let rows: [(&[Row], &[Row], &[Row], &[Row]); 4] = [
        // Twice and three times one vector.
        (
            &[(2, 1, 0, 1), (-2, 0, 1, 0), (-2, 0, 0, 1), (2, 0, 0, 0)],
            &[(3, 1, 0, 1), (-3, 0, 1, 0), (-3, 0, 0, 1), (3, 0, 0, 0)],
            &[],
            &[(1, 1, 0, 1), (-1, 0, 1, 0), (-1, 0, 0, 1), (1, 0, 0, 0)],
        ),
        // 3·(4·x_0 + 1) - 2·(6·x_0 + 5), and 2 and -1 times them.
        (
            &[(4, 1, 0, 0), (1, 0, 0, 0)],
            &[(6, 1, 0, 0), (5, 0, 0, 0)],
            &[(-7, 0, 0, 0)],
            &[(2, 1, 0, 0), (-3, 0, 0, 0)],
        ),
        // 2·x_1·(6·x_0^2 + 1) - 3·x_0·(4·x_0·x_1 + x_1), and 1 and -1 times them.
        (
            &[(6, 2, 0, 0), (1, 0, 0, 0)],
            &[(4, 1, 1, 0), (1, 0, 1, 0)],
            &[(2, 0, 1, 0), (-3, 1, 1, 0)],
            &[(2, 2, 1, 0), (1, 0, 1, 0), (-1, 1, 1, 0)],
        ),
        // The second lead coefficient divides the first: the G-vector is a multiple of the second entry.
        (
            &[(6, 1, 0, 0), (1, 0, 0, 0)],
            &[(3, 0, 1, 0), (1, 0, 0, 0)],
            &[(1, 0, 1, 0), (-2, 1, 0, 0)],
            &[(3, 1, 1, 0), (1, 1, 0, 0)],
        ),
    ];
    for (first, second, s, g) in rows {
        let list = entries(alloc, &[first, second])?;
        let answer = made(of_first_two(alloc, &list, PairKind::S)?)?;
        assert!(rt; answer.terms() == vector(alloc, s)?.terms());
        let answer = made(of_first_two(alloc, &list, PairKind::G)?)?;
        assert!(rt; answer.terms() == vector(alloc, g)?.terms());
    }
    Ok(())
}

#[test]
fn pairs_have_one_component_and_rising_numbers(rt: HostRuntime) -> Result<(), Fail> {
    let alloc = rt.alloc();
    let list = entries(alloc, &[&[(1, 1, 0, 0)], &[(1, 0, 1, 1)], &[(1, 0, 2, 0)]])?;
    assert!(rt; is_pair(&list, 0, 2));
    for (i, j) in [(0, 1), (1, 2), (2, 0), (0, 0), (0, 3)] {
        assert!(rt; !is_pair(&list, i, j));
    }
    Ok(())
}

#[test]
fn steps_carry_both_leads_to_their_common_multiple(rt: HostRuntime) -> Result<(), Fail> {
    let alloc = rt.alloc();
    let list = entries(alloc, &[&[(4, 2, 1, 0)], &[(6, 1, 3, 0)]])?;
    if !is_pair(&list, 0, 1) {
        return Err(Fail::from("no pair"));
    }
    let (t, s) = (monomial(0, 2)?, monomial(1, 0)?);
    for (kind, u, v) in [(PairKind::S, 3, -2), (PairKind::G, 2, -1)] {
        let first = Step { q: u, t, by: 0 };
        let second = Step { q: v, t: s, by: 1 };
        assert!(rt; pair_steps(&list, kind, 0, 1) == Ok((first, second)));
    }
    Ok(())
}

#[test]
fn common_multiples_end_at_degree_60000(rt: HostRuntime) -> Result<(), Fail> {
    let alloc = rt.alloc();
    let rows = [
        (40_000, 40_000, Some(80_000)),
        (30_000, 30_001, Some(60_001)),
        (30_000, 30_000, None),
    ];
    for (first, second, steep) in rows {
        let list = entries(alloc, &[&[(1, first, 0, 0)], &[(1, 0, second, 0)]])?;
        for kind in [PairKind::S, PairKind::G] {
            let answer = of_first_two(alloc, &list, kind)?;
            match steep {
                Some(degree) => {
                    assert!(rt; answer.err() == Some(PairFault::Stop(Stop::Steep { degree })))
                }
                None => assert!(rt; answer.is_ok()),
            }
        }
    }
    assert_eq!(rt; DEGREE, 60_000);
    Ok(())
}

#[test]
fn wide_multiples_and_sums_stop_at_their_greatest_place(rt: HostRuntime) -> Result<(), Fail> {
    let alloc = rt.alloc();
    // The leads are 1·x_0^3 and 2·x_1^3, or 1 and 1.
    let rows: [(&[Row], &[Row], (i32, i32)); 4] = [
        // 2·x_1^3 times the first leaves the range before the second is looked at.
        (
            &[(1, 3, 0, 0), (MOST, 1, 0, 0), (MOST, 0, 0, 0)],
            &[(2, 0, 3, 0), (MOST, 2, 0, 0)],
            (1, 3),
        ),
        // Both multiples are in range, and their sum isn't.
        (
            &[(1, 3, 0, 0), (MOST, 0, 0, 0)],
            &[(1, 3, 0, 0), (-1, 0, 0, 0)],
            (0, 0),
        ),
        // The second multiple alone: 3 · 2^126.
        (
            &[(3, 3, 0, 0)],
            &[(1, 3, 0, 0), (1 << 126, 1, 0, 0)],
            (1, 0),
        ),
        (
            &[(3, 3, 0, 0)],
            &[(1, 3, 0, 0), (1 << 126, 1, 0, 0), (1 << 126, 2, 0, 0)],
            (2, 0),
        ),
    ];
    for (first, second, (at, also)) in rows {
        let list = entries(alloc, &[first, second])?;
        let m = monomial(at, also)?;
        let stop = Stop::Wide {
            at: Place { m, c: 0 },
            step: 0,
        };
        assert!(rt; of_first_two(alloc, &list, PairKind::S)?.err() == Some(PairFault::Stop(stop)));
    }
    let edge = entries(
        alloc,
        &[
            &[(1, 3, 0, 0), (MOST - 1, 0, 0, 0)],
            &[(1, 3, 0, 0), (-1, 0, 0, 0)],
        ],
    )?;
    let v = made(of_first_two(alloc, &edge, PairKind::S)?)?;
    assert!(rt; v.terms() == vector(alloc, &[(MOST, 0, 0, 0)])?.terms());
    Ok(())
}

/// x_0^30000, and the first `count` powers of x_0 times this power of x_1.
fn long_vector(alloc: Global, count: i32, also: i32) -> Result<ModVec, Fail> {
    let mut rows = Vec::new(alloc);
    rows.push((1, 30_000, 0, 0))?;
    for i in 0..count {
        rows.push((1, i, also, 0))?;
    }
    vector(alloc, rows.as_slice())
}

#[test]
fn sums_end_at_50000_terms(rt: HostRuntime) -> Result<(), Fail> {
    let alloc = rt.alloc();
    for (count, long) in [(25_000, None), (25_001, Some(50_001))] {
        let mut list = Entries::new(alloc);
        put(&mut list, long_vector(alloc, 25_000, 0)?)?;
        put(&mut list, long_vector(alloc, count, 1)?)?;
        let answer = of_first_two(alloc, &list, PairKind::S)?;
        match long {
            Some(terms) => {
                let stop = Stop::Long { terms, step: 0 };
                assert!(rt; answer.err() == Some(PairFault::Stop(stop)))
            }
            None => assert_eq!(rt; made(answer)?.terms().len(), 50_000),
        }
    }
    Ok(())
}

#[test]
fn pairs_are_covered_by_the_least_entry(rt: HostRuntime) -> Result<(), Fail> {
    let alloc = rt.alloc();
    let list = entries(
        alloc,
        &[
            // The pair: its coefficients have the divisor 6, and its place is x_0^2·x_1^3.
            &[(12, 2, 1, 0)],
            &[(18, 1, 3, 0)],
            // 4 and 9 don't divide 6, the next ones have another component or reach too high.
            &[(4, 0, 0, 0)],
            &[(9, 0, 0, 0)],
            &[(1, 0, 0, 1)],
            &[(1, 3, 0, 0)],
            &[(3, 2, 3, 0), (7, 0, 0, 0)],
            &[(1, 1, 1, 0)],
        ],
    )?;
    if !is_pair(&list, 0, 1) || list.count() != 8 {
        return Err(Fail::from("no pair"));
    }
    for front in 0..7 {
        assert!(rt; covers(&list, front, 0, 1) == None);
    }
    assert!(rt; covers(&list, 7, 0, 1) == Some(6));
    assert!(rt; covers(&list, 8, 0, 1) == Some(6));

    // A common multiple of degree 80,000 is covered as any other is.
    let steep = entries(
        alloc,
        &[
            &[(2, 40_000, 0, 0)],
            &[(2, 0, 40_000, 0)],
            &[(1, 20_000, 30_000, 0)],
        ],
    )?;
    if !is_pair(&steep, 0, 1) || steep.count() != 3 {
        return Err(Fail::from("no pair"));
    }
    assert!(rt; covers(&steep, 3, 0, 1) == Some(0));
    assert!(rt; covers(&steep, 0, 0, 1) == None);
    Ok(())
}
