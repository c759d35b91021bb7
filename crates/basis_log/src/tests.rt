//! Rows of `<a|>`, whose one generator entry is published again and again.

use crate::{Item, Refused, Row, SEGMENT, Seat, agree};
use basis_entry::{Entry, Front};
use module_vec::VecList;
use presentation::{Presentation, read_presentation};
use std::alloc::Global;
use std::sync::Arc;
use std::test::Fail;
use std::thread::join_mut;

fn presentation(alloc: Global, text: &str) -> Result<Arc<Presentation>, Fail> {
    match read_presentation(alloc, text.as_bytes()) {
        Ok(p) => Ok(Arc::new(alloc, p)?),
        Err(_) => Err(Fail::from("no presentation")),
    }
}

/// A row of the presentation with so many cells.
fn row(alloc: Global, text: &str, cells: u32) -> Result<Row, Fail> {
    let p = presentation(alloc, text)?;
    p.known();
    let base = Entry::base(alloc, &p)?;
    if cells > 1000 {
        return Err(Fail::from("too many cells"));
    }
    Ok(Row::open(alloc, base, cells)?)
}

/// How publishing went.
#[derive(PartialEq, Eq, Clone, Copy)]
enum Answer {
    Taken,
    NoCell,
    Held,
    Foreign,
}

/// Publishes the generator entry with this number. `None` where there is none, or where memory ran out.
fn publish(alloc: Global, seat: &mut Seat<'_>, number: usize) -> Option<Answer> {
    let row = seat.row();
    let entry = Arc::try_clone(row.base().get(number)?).ok()?;
    let item = Box::new(alloc, Item::Entry(entry)).ok()?;
    if seat.sealed().is_some() || !item.presentation().same(row.presentation()) {
        return None;
    }
    Some(match seat.publish(item) {
        Ok(()) => Answer::Taken,
        Err(Refused::NoCell { .. }) => Answer::NoCell,
        Err(Refused::Held) => Answer::Held,
        Err(Refused::Foreign { .. }) => Answer::Foreign,
    })
}

/// Whether the entry with this number is the first one of the row.
fn is_first(seat: &Seat<'_>, at: u32) -> bool {
    match seat.row().base().first() {
        Some(first) => at < seat.count() && seat.entry(at).same(first),
        None => false,
    }
}

#[test]
fn cells_are_set_once(rt: HostRuntime) -> Result<(), Fail> {
    let alloc = rt.alloc();
    let row = row(alloc, "<a,b|>", 2)?;
    let mut one = row.seat(alloc)?;
    let mut two = row.seat(alloc)?;
    let mut three = row.seat(alloc)?;
    assert!(rt; publish(alloc, &mut one, 0) == Some(Answer::Taken));
    assert_eq!(rt; one.front(), 5);
    assert!(rt; publish(alloc, &mut two, 1) == Some(Answer::Held));
    assert_eq!(rt; two.front(), 5);
    assert!(rt; is_first(&two, 4));
    assert!(rt; publish(alloc, &mut three, 0) == Some(Answer::Taken));
    assert!(rt; publish(alloc, &mut two, 1) == Some(Answer::Taken));
    assert!(rt; publish(alloc, &mut two, 1) == Some(Answer::NoCell));
    assert_eq!(rt; two.front(), 6);
    assert_eq!(rt; one.look(), 6);
    Ok(())
}

#[test]
fn no_cell_in_an_empty_row(rt: HostRuntime) -> Result<(), Fail> {
    let alloc = rt.alloc();
    let row = row(alloc, "<a|>", 0)?;
    let mut seat = row.seat(alloc)?;
    assert!(rt; publish(alloc, &mut seat, 0) == Some(Answer::NoCell));
    assert_eq!(rt; seat.front(), 1);
    assert_eq!(rt; seat.look(), 1);
    Ok(())
}

/// Publishes three entries, and tells whether each was taken.
fn publish_three(alloc: Global, seat: &mut Seat<'_>) -> bool {
    for _ in 0..3u32 {
        if publish(alloc, seat, 0) != Some(Answer::Taken) {
            return false;
        }
    }
    true
}

#[test]
fn look_finds_what_another_thread_published(rt: HostRuntime) -> Result<(), Fail> {
    let alloc = rt.alloc();
    let row = row(alloc, "<a|>", 3)?;
    let mut one = row.seat(alloc)?;
    let mut other = row.seat(alloc)?;
    let mut told = row.seat(alloc)?;
    let mut done = false;
    join_mut(
        &rt,
        &mut || done = publish_three(alloc, &mut one),
        &mut || {
            other.look();
        },
    );
    assert!(rt; done);
    assert_eq!(rt; one.front(), 4);
    assert_eq!(rt; other.look(), 4);
    let mut third = row.seat(alloc)?;
    assert_eq!(rt; third.look(), 4);
    told.learn(&mut third);
    assert_eq!(rt; told.front(), 4);
    agree(&mut third, &mut told);
    assert_eq!(rt; told.look(), 4);
    Ok(())
}

#[test]
fn segments_are_made_when_they_are_due(rt: HostRuntime) -> Result<(), Fail> {
    let alloc = rt.alloc();
    let row = row(alloc, "<a|>", 600)?;
    let mut one = row.seat(alloc)?;
    for _ in 0..SEGMENT {
        assert!(rt; publish(alloc, &mut one, 0) == Some(Answer::Taken));
    }
    assert!(rt; publish(alloc, &mut one, 0) == Some(Answer::NoCell));
    for _ in SEGMENT..600 {
        one.reserve(alloc)?;
        assert!(rt; publish(alloc, &mut one, 0) == Some(Answer::Taken));
    }
    assert!(rt; one.spare());
    assert_eq!(rt; one.front(), 601);
    let mut two = row.seat(alloc)?;
    assert_eq!(rt; two.look(), 601);
    let mut three = row.seat(alloc)?;
    three.learn(&mut two);
    assert_eq!(rt; three.count(), 601);
    assert!(rt; is_first(&three, 600));
    Ok(())
}
