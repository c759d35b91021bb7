//! Known values, each limit and one past it, and each call once where it succeeds.

use crate::{COEFFICIENT, Entries, ModVec, Place, Stop, TERMS, Term, VecFault, VecList};
use laurent_terms::{DEGREE, Mono};
use std::alloc::Global;
use std::cmp::Ordering;
use std::test::Fail;

/// The greatest coefficient, 2^127 - 1.
const MOST: i128 = i128::MAX;

/// x_0 to the power `exponent`, at the component.
fn power(exponent: i32, c: u8) -> Result<Place, Fail> {
    Ok(Place {
        m: Mono::of_exponents(&[exponent]).ok_or("too steep")?,
        c,
    })
}

/// The term `k` at x_0^exponent, component 0.
fn term(exponent: i32, k: i128) -> Result<Term, Fail> {
    Ok(Term {
        at: power(exponent, 0)?,
        k,
    })
}

/// The sum of terms at powers of x_0.
fn vector(alloc: Global, terms: &[(i32, i128)]) -> Result<Result<ModVec, VecFault>, Fail> {
    let mut list = Vec::new(alloc);
    for (exponent, k) in terms {
        list.push(term(*exponent, *k)?)?;
    }
    if list.len() > 1_000_000 {
        return Err(Fail::from("too many terms"));
    }
    Ok(ModVec::from_terms(alloc, list.as_slice()))
}

/// `v - q·t·g`, where both conditions hold.
fn less(
    alloc: Global,
    v: &ModVec,
    q: i128,
    t: &Mono,
    g: &ModVec,
) -> Result<Result<ModVec, VecFault>, Fail> {
    if q.unsigned_abs() > COEFFICIENT || !g.has_room(t) {
        return Err(Fail::from("out of reach"));
    }
    Ok(v.sub_multiple(alloc, q, t, g))
}

/// The vector that was made.
fn made(answer: Result<ModVec, VecFault>) -> Result<ModVec, Fail> {
    match answer {
        Ok(v) => Ok(v),
        Err(_) => Err(Fail::from("no vector")),
    }
}

/// The stop at x_0^exponent.
fn wide(exponent: i32) -> Result<VecFault, Fail> {
    Ok(VecFault::Stop(Stop::Wide {
        at: power(exponent, 0)?,
        step: 0,
    }))
}

fn long(terms: u32) -> VecFault {
    VecFault::Stop(Stop::Long { terms, step: 0 })
}

#[test]
fn places_are_ordered_by_monomial_and_then_by_component(rt: HostRuntime) -> Result<(), Fail> {
    let rising = [
        power(0, 0)?,
        power(0, 1)?,
        power(-1, 0)?,
        power(1, 0)?,
        power(1, 23)?,
        power(-2, 0)?,
        power(2, 0)?,
    ];
    for (i, p) in rising.iter().enumerate() {
        for (j, q) in rising.iter().enumerate() {
            let wanted: Ordering = i.cmp(&j);
            assert!(rt; p.compare(q) == wanted);
            assert!(rt; p.cmp(q) == wanted);
        }
    }
    Ok(())
}

#[test]
fn terms_are_sorted_and_those_at_one_place_added_up(rt: HostRuntime) -> Result<(), Fail> {
    let alloc = rt.alloc();
    let v = made(vector(
        alloc,
        &[(0, 2), (3, 1), (1, 5), (3, 4), (0, -2), (2, 0), (-3, 7)],
    )?)?;
    let wanted = [term(3, 5)?, term(-3, 7)?, term(1, 5)?];
    assert!(rt; v.terms() == &wanted[..]);
    assert!(rt; v.lead() == Some(term(3, 5)?));
    assert_eq!(rt; v.coefficient(&power(3, 0)?), 5);
    assert_eq!(rt; v.coefficient(&power(1, 0)?), 5);
    assert_eq!(rt; v.coefficient(&power(0, 0)?), 0);
    assert_eq!(rt; v.coefficient(&power(3, 1)?), 0);

    let none = ModVec::empty(alloc);
    assert!(rt; none.lead() == None);
    assert_eq!(rt; none.coefficient(&power(0, 0)?), 0);
    assert!(rt; made(vector(alloc, &[])?)?.terms().is_empty());
    Ok(())
}

#[test]
fn whole_sums_are_within_127_bits_though_parts_are_not(rt: HostRuntime) -> Result<(), Fail> {
    let alloc = rt.alloc();
    let in_range = [
        ([MOST, 0, 0, 0, 0], MOST),
        ([-MOST, 0, 0, 0, 0], -MOST),
        ([MOST, MOST, -MOST, 0, 0], MOST),
        ([-MOST, -MOST, MOST, 0, 0], -MOST),
        ([MOST, MOST, MOST, i128::MIN, i128::MIN], MOST - 2),
        ([i128::MIN, i128::MIN, MOST, MOST, 5], 3),
        ([i128::MIN, 1, 0, 0, 0], -MOST),
        ([MOST, 1, -1, 0, 0], MOST),
    ];
    for (ks, wanted) in in_range {
        let terms = ks.map(|k| (4, k));
        let v = made(vector(alloc, &terms)?)?;
        assert_eq!(rt; v.coefficient(&power(4, 0)?), wanted);
    }
    let past = [
        [MOST, 1, 0, 0, 0],
        [-MOST, -1, 0, 0, 0],
        [i128::MIN, 0, 0, 0, 0],
        [MOST, MOST, 1, 1, 0],
        [i128::MIN, i128::MIN, 0, 0, 0],
        [MOST, MOST, MOST, MOST, 4],
    ];
    for ks in past {
        let terms = ks.map(|k| (4, k));
        assert!(rt; vector(alloc, &terms)?.err() == Some(wide(4)?));
    }
    Ok(())
}

#[test]
fn multiples_are_taken_away(rt: HostRuntime) -> Result<(), Fail> {
    let alloc = rt.alloc();
    let v = made(vector(alloc, &[(5, 7), (3, 2), (1, -4)])?)?;
    let g = made(vector(alloc, &[(2, 2), (0, 1)])?)?;
    let t = Mono::of_exponents(&[1]).ok_or("too steep")?;
    let rest = made(less(alloc, &v, 1, &t, &g)?)?;
    assert!(rt; rest.terms() == &[term(5, 7)?, term(1, -5)?][..]);
    let more = made(less(alloc, &v, -3, &t, &g)?)?;
    assert!(rt; more.terms() == &[term(5, 7)?, term(3, 8)?, term(1, -1)?][..]);
    let same = made(less(alloc, &v, 0, &t, &g)?)?;
    assert!(rt; same.terms() == v.terms());
    assert!(rt;
        made(less(alloc, &v, 1, &Mono::one(), &v)?)?
            .terms()
            .is_empty()
    );
    assert!(rt;
        made(less(alloc, &ModVec::empty(alloc), -1, &t, &g)?)?.terms()
            == &[term(3, 2)?, term(1, 1)?][..]
    );
    Ok(())
}

#[test]
fn signs_are_turned(rt: HostRuntime) -> Result<(), Fail> {
    let alloc = rt.alloc();
    let mut v = made(vector(alloc, &[(2, MOST), (1, -MOST), (0, 1)])?)?;
    v.negate();
    assert!(rt; v.terms() == &[term(2, -MOST)?, term(1, MOST)?, term(0, -1)?][..]);
    Ok(())
}

#[test]
fn wide_products_and_differences_stop_at_their_greatest_place(rt: HostRuntime) -> Result<(), Fail> {
    let alloc = rt.alloc();
    let half = 1 << 126;
    let rows: [(&[(i32, i128)], i128, &[(i32, i128)], i32); 6] = [
        // The product at the lead: 2 · -2^126 is in 128 bits, and still past the range.
        (&[(3, -MOST)], -half, &[(3, 2)], 3),
        (&[(3, 1)], half, &[(5, 1), (3, 2), (1, 3)], 3),
        // The difference alone.
        (&[(3, -MOST), (1, -MOST)], 1, &[(3, 0), (1, 1)], 1),
        (&[(3, MOST), (1, MOST)], 1, &[(3, -1), (1, -1)], 3),
        (&[(3, -2)], MOST, &[(3, 1)], 3),
        // Far past 128 bits.
        (&[], MOST, &[(2, 1), (0, MOST)], 0),
    ];
    for (v, q, g, at) in rows {
        let v = made(vector(alloc, v)?)?;
        let g = made(vector(alloc, g)?)?;
        assert!(rt; less(alloc, &v, q, &Mono::one(), &g)?.err() == Some(wide(at)?));
    }
    let v = made(vector(alloc, &[(3, MOST - 1), (1, 1 - MOST)])?)?;
    let g = made(vector(alloc, &[(3, -1), (1, 1)])?)?;
    let edge = made(less(alloc, &v, 1, &Mono::one(), &g)?)?;
    assert!(rt; edge.terms() == &[term(3, MOST)?, term(1, -MOST)?][..]);
    let edge = made(less(alloc, &ModVec::empty(alloc), MOST, &Mono::one(), &g)?)?;
    assert!(rt; edge.terms() == &[term(3, MOST)?, term(1, -MOST)?][..]);
    Ok(())
}

#[test]
fn multiples_of_degree_60000_are_in_reach(rt: HostRuntime) -> Result<(), Fail> {
    let alloc = rt.alloc();
    let g = made(vector(alloc, &[(1, 3), (0, 1)])?)?;
    let below = Mono::of_exponents(&[59_999]).ok_or("too steep")?;
    let most = Mono::of_exponents(&[60_000]).ok_or("too steep")?;
    assert_eq!(rt; most.degree(), DEGREE);
    assert!(rt; g.has_room(&below));
    assert!(rt; !g.has_room(&most));
    assert!(rt; ModVec::empty(alloc).has_room(&most));
    let multiple = made(less(alloc, &ModVec::empty(alloc), -1, &below, &g)?)?;
    assert!(rt; multiple.terms() == &[term(60_000, 3)?, term(59_999, 1)?][..]);
    Ok(())
}

/// The vector with the coefficient 1 at the first `count` powers of x_0 from `from` on.
fn powers(alloc: Global, from: i32, count: i32) -> Result<Result<ModVec, VecFault>, Fail> {
    let mut list = Vec::new(alloc);
    for i in 0..count {
        list.push(term(from.checked_add(i).ok_or("too many")?, 1)?)?;
    }
    if list.len() > 1_000_000 {
        return Err(Fail::from("too many terms"));
    }
    Ok(ModVec::from_terms(alloc, list.as_slice()))
}

#[test]
fn vectors_end_at_50000_terms(rt: HostRuntime) -> Result<(), Fail> {
    let alloc = rt.alloc();
    let most = made(powers(alloc, 0, 50_000)?)?;
    assert_eq!(rt; most.terms().len(), TERMS as usize);
    assert!(rt; powers(alloc, 0, 50_001)?.err() == Some(long(50_001)));

    let one = made(powers(alloc, 50_000, 1)?)?;
    assert!(rt; less(alloc, &most, 1, &Mono::one(), &one)?.err() == Some(long(50_001)));
    let half = made(powers(alloc, 25_000, 25_000)?)?;
    assert_eq!(rt;
        made(less(alloc, &most, 1, &Mono::one(), &half)?)?
            .terms()
            .len(),
        25_000
    );
    let beyond = Mono::of_exponents(&[50_000]).ok_or("too steep")?;
    let low = made(powers(alloc, 0, 10_000)?)?;
    assert!(rt; less(alloc, &most, 2, &beyond, &low)?.err() == Some(long(60_000)));
    // Wide stands before Long.
    let last = made(vector(alloc, &[(50_000, 1), (0, -MOST)])?)?;
    assert!(rt; less(alloc, &most, 1, &Mono::one(), &last)?.err() == Some(wide(0)?));
    Ok(())
}

#[test]
fn reducers_have_the_least_lead_coefficient_and_number(rt: HostRuntime) -> Result<(), Fail> {
    let alloc = rt.alloc();
    let mut list = Entries::new(alloc);
    let leads: [(i32, i128); 6] = [(5, 1), (3, 4), (2, 3), (3, 2), (1, 2), (2, 2)];
    for (exponent, k) in leads {
        let entry = made(vector(alloc, &[(exponent, k), (0, 9)])?)?;
        if !entry.is_entry() || list.count() > 5 {
            return Err(Fail::from("no entry"));
        }
        list.push(entry)?;
    }
    assert_eq!(rt; list.count(), 6);
    let rows = [
        (0, 4, 0, None),
        (2, 4, 0, Some(1)),
        (3, 4, 0, Some(2)),
        (6, 4, 0, Some(3)),
        (6, 2, 0, Some(4)),
        (6, 5, 0, Some(0)),
        (6, 4, 1, None),
        (6, 0, 0, None),
        (6, -3, 0, None),
    ];
    for (front, exponent, c, wanted) in rows {
        assert!(rt; list.find(front, &power(exponent, c)?) == wanted);
    }
    Ok(())
}
