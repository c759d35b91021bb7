//! Entries of small presentations, worked out by hand.

ghost use Rattle.std.specs.Prelude.{◌<◌, length, map, IfOk};
ghost use Rattle.std.specs.Arc.{arc_value};
ghost use Rattle.basis_entry.specs.Entries.{AreOf, vectors_of};

use crate::{Entry, Front, Items, Recipe};
use laurent_terms::Mono;
use module_vec::{ModVec, Step, VecList};
use presentation::{Presentation, read_presentation};
use std::alloc::Global;
use std::sync::Arc;
use std::test::Fail;
use step_lists::Steps;

fn presentation(alloc: Global, text: &str) -> Result<Arc<Presentation>, Fail> {
    match read_presentation(alloc, text.as_bytes()) {
        Ok(p) => Ok(Arc::new(alloc, p)?),
        Err(_) => Err(Fail::from("no presentation")),
    }
}

/// Whether the entry has the recipe of this generator, so many terms, and this lead component.
fn is(entry: &Entry, number: u32, negated: bool, terms: usize, component: u8) -> bool {
    let Some(lead) = entry.vector().lead() else {
        return false;
    };
    lead.k == 1
        && lead.at.c == component
        && entry.vector().terms().len() == terms
        && entry.recipe().same(&Recipe::Gen { number, negated })
}

#[test]
fn generators_have_their_entries(rt: HostRuntime) -> Result<(), Fail> {
    let alloc = rt.alloc();
    let rows: [(&str, &[(bool, usize, u8)]); 3] = [
        ("<a|>", &[(false, 2, 0)]),
        (
            "<a,t | t a t^-1 a^-2>",
            &[
                (true, 5, 1),
                (false, 2, 0),
                (false, 2, 1),
                (false, 2, 0),
                (false, 2, 1),
                (false, 2, 0),
                (false, 2, 1),
            ],
        ),
        (
            "<a,b | , a>",
            &[
                (false, 1, 0),
                (false, 2, 0),
                (false, 2, 1),
                (false, 2, 0),
                (false, 2, 1),
                (false, 2, 0),
                (false, 2, 1),
            ],
        ),
    ];
    for (text, wanted) in rows {
        let p = presentation(alloc, text)?;
        let made = Entry::base(alloc, &p)?;
        assert_eq!(rt; made.len(), wanted.len());
        for (number, (entry, row)) in made.iter().zip(wanted).enumerate() {
            let (negated, terms, component) = *row;
            assert!(rt; is(entry, number as u32, negated, terms, component));
            assert!(rt; entry.presentation().same(&p));
            assert!(rt; entry.same(entry));
        }
    }
    Ok(())
}

/// The generators' entries.
fn list(alloc: Global, p: &Arc<Presentation>) -> Result<Vec<Arc<Entry>>, Fail>
    ensures { IfOk result (λ es. AreOf (arc_value p.now) (map arc_value es.items)) }
{
    let mut list = Vec::new(alloc);
    for entry in &Entry::base(alloc, p)? {
        put(&mut list, p, entry)?;
    }
    Ok(list)
}

/// Puts the entry at the end, which is of the presentation.
fn put(list: &mut Vec<Arc<Entry>>, p: &Arc<Presentation>, entry: &Arc<Entry>) -> Result<(), Fail>
    requires { AreOf (arc_value p.now) (map arc_value list.old.items) }
    ensures { IfOk result (λ _. AreOf (arc_value p.now) (map arc_value list.new.items)) }
{
    if !entry.presentation().same(p) {
        return Err(Fail::from("no entry of the presentation"));
    }
    list.push(Arc::try_clone(entry)?)?;
    Ok(())
}

/// The entry that is once the entry with this number.
fn once(alloc: Global, p: &Arc<Presentation>, list: &Items<'_>, at: u32) -> Result<Arc<Entry>, Fail>
    requires list { AreOf (arc_value p.now) list.now.entries }
    requires at { at < length (vectors_of list.now.entries) }
{
    let vector = ModVec::of_falling(list.vector(at).terms().to_vec(alloc)?);
    let mut steps = Vec::new(alloc);
    steps.push(Step {
        q: 1,
        t: Mono::one(),
        by: at,
    })?;
    Ok(Entry::sum(alloc, p, list, vector, Steps::of(steps))?)
}

#[test]
fn sums_have_their_steps(rt: HostRuntime) -> Result<(), Fail> {
    let alloc = rt.alloc();
    let p = presentation(alloc, "<a,b|>")?;
    let entries = list(alloc, &p)?;
    if entries.len() != 4 {
        return Err(Fail::from("no four entries"));
    }
    let list = Items::of(&entries, None);
    let entry = once(alloc, &p, &list, 2)?;
    assert!(rt; entry.vector().terms() == list.vector(2).terms());
    assert!(rt; entry.presentation().same(&p));
    assert!(rt; !entry.same(list.entry(2)));
    match entry.recipe() {
        Recipe::Sum { steps } => {
            assert!(rt;
                steps.steps()
                    == &[Step {
                        q: 1,
                        t: Mono::one(),
                        by: 2
                    }][..]
            );
        }
        Recipe::Gen { .. } => assert!(rt; false),
    }
    Ok(())
}

#[test]
fn a_list_shows_its_entries(rt: HostRuntime) -> Result<(), Fail> {
    let alloc = rt.alloc();
    let entries = list(alloc, &presentation(alloc, "<a,b|>")?)?;
    if entries.len() != 4 {
        return Err(Fail::from("no four entries"));
    }
    let list = Items::of(&entries, None);
    assert_eq!(rt; list.count(), 4);
    assert_eq!(rt; list.front(), 4);
    assert!(rt; list.sealed().is_none());
    assert!(rt; list.entry(3).same(&entries[3]));
    assert!(rt; !list.entry(3).same(list.entry(1)));
    assert!(rt; list.vector(2).terms() == list.entry(2).vector().terms());
    Ok(())
}
