//! The index beside the scan of its list, and reducers worked out by hand.

ghost use Rattle.std.specs.Prelude.{IfOk};
ghost use Rattle.reducer_index.specs.Leads.{AreLeads};

use crate::{Index, Indexed};
use laurent_terms::Mono;
use module_vec::{Entries, ModVec, Place, Term, VecList};
use std::alloc::Global;
use std::test::Fail;

/// A lead: the exponents of two generators, the component and the coefficient.
type Row = ([i32; 2], u8, i128);

const LEADS: [Row; 12] = [
    ([2, 0], 0, 4),
    ([1, 0], 1, 3),
    ([0, 1], 0, 2),
    ([1, 0], 0, 2),
    ([1, 1], 0, 1),
    ([0, 0], 1, 5),
    ([1, 0], 0, 2),
    ([0, -1], 0, 1),
    ([0, 2], 7, 1),
    ([0, 0], 0, 9),
    ([1, 0], 1, 3),
    ([0, 0], 7, 1),
];

fn place(exponents: [i32; 2], c: u8) -> Result<Place, Fail> {
    Ok(Place {
        m: Mono::of_exponents(&exponents).ok_or("too steep")?,
        c,
    })
}

/// The vector of one term.
fn vector(alloc: Global, row: &Row) -> Result<ModVec, Fail> {
    let (exponents, c, k) = *row;
    let term = Term {
        at: place(exponents, c)?,
        k,
    };
    match ModVec::from_terms(alloc, &[term]) {
        Ok(v) => Ok(v),
        Err(_) => Err(Fail::from("no vector")),
    }
}

/// Puts the vector at the end of the list, and its lead at the end of the index.
fn push(list: &mut Entries, index: &mut Index, v: ModVec) -> Result<(), Fail>
    requires { AreLeads list.old index.old }
    ensures { IfOk result (λ _. AreLeads list.new index.new) }
{
    if !v.is_entry() || list.count() > 100 || index.len() > 100 {
        return Err(Fail::from("no entry"));
    }
    let lead = v.lead().ok_or("no lead")?;
    list.push(v)?;
    index.push(lead)?;
    Ok(())
}

/// The list of these leads, with its index.
fn indexed(alloc: Global, rows: &[Row]) -> Result<(Entries, Index), Fail>
    ensures { IfOk result (λ r. AreLeads r.0 r.1) }
{
    let mut list = Entries::new(alloc);
    let mut index = Index::new(alloc);
    for row in rows {
        push(&mut list, &mut index, vector(alloc, row)?)?;
    }
    Ok((list, index))
}

/// The number of the reducer of the place below the front, which isn't past the list's end.
fn find<L: VecList>(list: &L, front: u32, at: &Place) -> Result<Option<u32>, Fail> {
    if front > list.count() {
        return Err(Fail::from("past the end"));
    }
    Ok(list.find(front, at))
}

#[test]
fn the_least_coefficient_and_number_are_found(rt: HostRuntime) -> Result<(), Fail> {
    let alloc = rt.alloc();
    let (list, index) = indexed(alloc, &LEADS)?;
    let found = Indexed::over(&list, &index);
    assert_eq!(rt; index.len(), 12);
    assert_eq!(rt; found.count(), 12);
    assert_eq!(rt; found.vector(5).terms().len(), 1);
    let rows = [
        (12, [2, 1], 0, Some(4)),
        (4, [2, 1], 0, Some(2)),
        (12, [3, 0], 0, Some(3)),
        (3, [3, 0], 0, Some(0)),
        (12, [1, -1], 0, Some(7)),
        (12, [-1, 0], 0, Some(9)),
        (9, [-1, 0], 0, None),
        (12, [1, 0], 1, Some(1)),
        (12, [0, 3], 1, Some(5)),
        (12, [0, 2], 7, Some(8)),
        (12, [0, 1], 7, Some(11)),
        (12, [1, 1], 2, None),
        (0, [1, 1], 0, None),
    ];
    for (front, exponents, c, wanted) in rows {
        assert!(rt; find(&found, front, &place(exponents, c)?)? == wanted);
    }
    Ok(())
}

#[test]
fn the_index_answers_as_the_scan_does(rt: HostRuntime) -> Result<(), Fail> {
    let alloc = rt.alloc();
    let (list, index) = indexed(alloc, &LEADS)?;
    let found = Indexed::over(&list, &index);
    for (a, b, c) in [
        (0, 0, 0),
        (1, 0, 0),
        (2, 0, 0),
        (0, 1, 0),
        (3, 3, 0),
        (-2, 1, 0),
        (2, -2, 0),
        (0, 0, 1),
        (2, 2, 1),
        (0, 2, 7),
        (1, 1, 3),
        (1, 1, 255),
    ] {
        let at = place([a, b], c)?;
        for front in 0..=12 {
            assert!(rt; find(&found, front, &at)? == find(&list, front, &at)?);
        }
    }
    Ok(())
}
