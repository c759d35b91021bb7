//! Verdicts by small lists, and sessions, worked out by hand.

ghost use Rattle.std.specs.Prelude.{IfSome, IfOk, OnOk, length, map, ◌≤◌};
ghost use Rattle.std.specs.Arc.{arc_value};
ghost use Rattle.basis_entry.specs.Entries.{AreOf};
ghost use Rattle.session_core.specs.Questions.{CanBeAsked};

use crate::judge::verdict;
use crate::{Kept, Session, Tag, laws, proof};
use basis_entry::{Entry, Items};
use module_vec::VecList;
use presentation::{Presentation, read_presentation};
use session_text::{Question, first_long_image, read_question};
use std::alloc::Global;
use std::rt::HostRuntime;
use std::sync::Arc;
use std::test::Fail;

fn presentation(alloc: Global, text: &str) -> Result<Arc<Presentation>, Fail> {
    match read_presentation(alloc, text.as_bytes()) {
        Ok(p) => Ok(Arc::new(alloc, p)?),
        Err(_) => Err(Fail::from("no presentation")),
    }
}

fn push(list: &mut Vec<Arc<Entry>>, p: &Arc<Presentation>, entry: &Arc<Entry>) -> Result<(), Fail>
    ensures { OnOk result (AreOf (arc_value p.now) (map arc_value list.old.items)
        → AreOf (arc_value p.now) (map arc_value list.new.items)) }
{
    if !entry.presentation().same(p) {
        return Err(Fail::from("no entry"));
    }
    list.push(Arc::try_clone(entry)?)?;
    Ok(())
}

/// The generators' entries, at most 100.
fn list(alloc: Global, p: &Arc<Presentation>) -> Result<Vec<Arc<Entry>>, Fail>
    ensures of { IfOk result (λ es. AreOf (arc_value p.now) (map arc_value es.items)) }
    ensures few { IfOk result (λ es. length es.items ≤ 100) }
{
    let mut list = Vec::new(alloc);
    for entry in &Entry::base(alloc, p)? {
        push(&mut list, p, entry)?;
    }
    if list.len() > 100 {
        return Err(Fail::from("many entries"));
    }
    Ok(list)
}

fn question(alloc: Global, p: &Presentation, text: &str) -> Result<Question, Fail>
    ensures { IfOk result (CanBeAsked p.now) }
{
    let Some(q) = read_question(alloc, p, text.as_bytes())? else {
        return Err(Fail::from("no question"));
    };
    if first_long_image(&q).is_some() {
        return Err(Fail::from("a long image"));
    }
    Ok(q)
}

fn tag(alloc: Global, p: &str, text: &str) -> Result<Tag, Fail> {
    let p = presentation(alloc, p)?;
    let entries = list(alloc, &p)?;
    let list = Items::of(&entries, None);
    let q = question(alloc, &p, text)?;
    Ok(Tag::of(&verdict(alloc, &p, &list, &q)?))
}

#[test]
fn verdicts_without_a_seal(rt: HostRuntime) -> Result<(), Fail> {
    let alloc = rt.alloc();
    for (p, text, want) in [
        ("<a | a^2>", "trivial a^2", Tag::Trivial),
        ("<a | a^2>", "equal a = a^-1", Tag::Trivial),
        ("<a | a^2>", "normal a^2 a^-2", Tag::Trivial),
        ("<a | a^2>", "trivial a", Tag::Unknown { subject: 1 }),
        ("<a | a^2>", "normal a^3", Tag::Unknown { subject: 1 }),
        ("<a | a^2>", "hom <s | s^2> -> a", Tag::Extends),
        (
            "<a | a^2>",
            "hom <s, u | s^2, u> -> a, a",
            Tag::Unknown { subject: 2 },
        ),
        (
            "<a, b | >",
            "trivial a b a^-1 b^-1",
            Tag::Unknown { subject: 1 },
        ),
    ] {
        assert!(rt; tag(alloc, p, text)? == want, "{text}");
    }
    Ok(())
}

/// How many steps the proof of the only subject has.
fn steps(alloc: Global, p: &str, text: &str) -> Result<usize, Fail> {
    let p = presentation(alloc, p)?;
    let entries = list(alloc, &p)?;
    let list = Items::of(&entries, None);
    let q = question(alloc, &p, text)?;
    if hom_check::subject_count(&q) == 0 {
        return Err(Fail::from("no subject"));
    }
    match proof(alloc, &p, &list, list.count(), &q, 1) {
        Ok(steps) => Ok(steps.steps().len()),
        Err(_) => Err(Fail::from("no proof")),
    }
}

#[test]
fn proofs(rt: HostRuntime) -> Result<(), Fail> {
    let alloc = rt.alloc();
    assert_eq!(rt; steps(alloc, "<a | a^2>", "trivial 1")?, 0);
    assert_eq!(rt; steps(alloc, "<a | a^2>", "trivial a^2")?, 1);
    assert_eq!(rt; steps(alloc, "<a | a^2>", "trivial a^4")?, 2);
    Ok(())
}

#[test]
fn a_session_keeps_its_replies(rt: HostRuntime) -> Result<(), Fail> {
    let alloc = rt.alloc();
    let p = presentation(alloc, "<a | a^2>")?;
    let entries = list(alloc, &p)?;
    let list = Items::of(&entries, None);
    let mut questions = Vec::new(alloc);
    questions.push(question(alloc, &p, "trivial a^2")?)?;
    let mut session = Session::open(alloc, 3, questions, 3)?;
    assert!(rt; session.next() == Some(1));
    assert!(rt; session.front() == 3 && session.number() == 3 && session.base() == 3);
    if list.count() < 3 {
        return Err(Fail::from("no entries"));
    }
    let kept = session.ask(alloc, &p, &list)?;
    let want = Kept {
        front: 3,
        tag: Tag::Trivial,
    };
    assert!(rt; kept == want);
    assert!(rt; session.next() == None && session.count() == 1);
    assert!(rt; session.kept(1) == Some(want));
    assert!(rt; matches!(session.question(1), Question::Trivial(_)));
    session.forget();
    assert!(rt; session.next() == Some(1) && session.front() == 3);
    laws::sessions_move_between_threads();
    Ok(())
}
