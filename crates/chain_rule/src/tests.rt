//! A pair that is closed through a third entry, and each way in which it isn't. The entries have one term each, so all
//! their S-vectors are empty, and any of their pairs can be closed.

mod closing;

use crate::{chained, laws};
use closing::ClosedPairs;
use laurent_terms::Mono;
use module_vec::{Entries, ModVec, Place, Term, VecList};
use std::alloc::Global;
use std::test::Fail;
use strong_pairs::is_pair;

/// A coefficient, the exponents of x_0 and x_1, and the component.
type Lead = (i128, i32, i32, u8);

fn entries(alloc: Global, leads: &[Lead]) -> Result<Entries, Fail> {
    let mut entries = Entries::new(alloc);
    for (k, first, second, c) in leads {
        let m = Mono::of_exponents(&[*first, *second]).ok_or("too steep")?;
        let terms = [Term {
            at: Place { m, c: *c },
            k: *k,
        }];
        let Ok(v) = ModVec::from_terms(alloc, &terms) else {
            return Err(Fail::from("no vector"));
        };
        if !v.is_entry() || entries.count() > 100 {
            return Err(Fail::from("no entry"));
        }
        entries.push(v)?;
    }
    Ok(entries)
}

/// Whether the pair i, j is closed through `by`, where these pairs are closed.
fn through(
    alloc: Global,
    leads: &[Lead],
    pairs: &[(u32, u32)],
    (i, j): (u32, u32),
    by: u32,
) -> Result<bool, Fail> {
    let mut closed = ClosedPairs::new(alloc, entries(alloc, leads)?);
    for (first, second) in pairs {
        closed = closed.with(alloc, *first, *second)?;
    }
    if !is_pair(closed.entries(), i, j) {
        return Err(Fail::from("no pair"));
    }
    Ok(chained(closed.entries(), &closed, i, j, by))
}

#[test]
fn pairs_are_closed_through_divisors_of_their_common_multiple(rt: HostRuntime) -> Result<(), Fail> {
    let alloc = rt.alloc();
    let rows: [(Lead, bool); 8] = [
        // The least common multiple of the leads is 12·x_0^2·x_1^2.
        ((12, 2, 2, 0), true),
        ((1, 0, 0, 0), true),
        ((3, 1, 1, 0), true),
        // The coefficient divides the product of both alone, or neither.
        ((24, 1, 1, 0), false),
        ((5, 1, 1, 0), false),
        // Too great an exponent, and another component.
        ((1, 3, 0, 0), false),
        ((1, 0, 3, 0), false),
        ((24, 3, 3, 0), false),
    ];
    let (one, two) = ((4, 2, 1, 0), (6, 1, 2, 0));
    for (by, answer) in rows {
        let last = through(alloc, &[one, two, by], &[(0, 2), (1, 2)], (0, 1), 2)?;
        assert!(rt; last == answer);
        let middle = through(alloc, &[one, by, two], &[(0, 1), (1, 2)], (0, 2), 1)?;
        assert!(rt; middle == answer);
        let first = through(alloc, &[by, one, two], &[(0, 1), (0, 2)], (1, 2), 0)?;
        assert!(rt; first == answer);
    }
    Ok(())
}

#[test]
fn both_tasks_of_a_third_entry_are_needed(rt: HostRuntime) -> Result<(), Fail> {
    let alloc = rt.alloc();
    let leads = [(4, 2, 1, 0), (6, 1, 2, 0), (3, 1, 1, 0)];
    let rows: [(&[(u32, u32)], u32, bool); 8] = [
        (&[(0, 2), (1, 2)], 2, true),
        (&[(0, 2)], 2, false),
        (&[(1, 2)], 2, false),
        (&[(0, 1)], 2, false),
        (&[(0, 1), (0, 2), (1, 2)], 0, false),
        (&[(0, 1), (0, 2), (1, 2)], 1, false),
        (&[(0, 1), (0, 2), (1, 2)], 3, false),
        (&[(0, 1), (0, 2), (1, 2)], u32::MAX, false),
    ];
    for (pairs, by, answer) in rows {
        assert!(rt; through(alloc, &leads, pairs, (0, 1), by)? == answer);
    }
    laws::chains_close_tasks();
    laws::tests_select_pairs();
    Ok(())
}

#[test]
fn common_multiples_end_at_degree_60000(rt: HostRuntime) -> Result<(), Fail> {
    let alloc = rt.alloc();
    for (degree, answer) in [(30_000, true), (30_001, false)] {
        let leads = [(1, 30_000, 0, 0), (1, 0, degree, 0), (1, 1, 1, 0)];
        assert!(rt; through(alloc, &leads, &[(0, 2), (1, 2)], (0, 1), 2)? == answer);
    }
    Ok(())
}
