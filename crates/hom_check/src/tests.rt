//! Subjects that small lists show, and the first that they don't, worked out by hand.

ghost use Rattle.std.specs.Prelude.{IfSome};
ghost use Rattle.session_text.specs.Questions.{IsWrittenQuestion, HasImages};

use crate::{Shown, first_unshown, subject, subject_count};
use fox_calculus::generators;
use module_vec::{Entries, VecList};
use presentation::{Presentation, read_presentation};
use session_text::{Question, first_long_image, read_question};
use std::alloc::{AllocError, Global};
use std::rt::HostRuntime;

/// The generators of the module with positive leads.
fn entries(alloc: Global, p: &Presentation) -> Result<Entries, AllocError> {
    let mut list = Entries::new(alloc);
    for vector in generators(alloc, p)? {
        if vector.is_entry() && list.count() < 100 {
            list.push(vector)?;
        }
    }
    Ok(list)
}

/// The question of this text, where it is within all limits.
fn read(alloc: Global, p: &Presentation, text: &str) -> Option<Question>
    ensures { IfSome result (λ q. IsWrittenQuestion p.now q × HasImages q) }
{
    let q = read_question(alloc, p, text.as_bytes()).ok()??;
    if first_long_image(&q).is_some() {
        return None;
    }
    Some(q)
}

/// What the generators of a presentation show of the subjects of a question.
fn shown(alloc: Global, p: &str, text: &str) -> Option<Shown> {
    let p = read_presentation(alloc, p.as_bytes()).ok()?;
    let q = read(alloc, &p, text)?;
    let list = entries(alloc, &p).ok()?;
    first_unshown(alloc, &p, &list, list.count(), &q).ok()
}

/// The number of the first subject that isn't shown, and the number of terms of its rest; 0 and 0 where all are.
fn first(alloc: Global, p: &str, text: &str) -> Option<(u32, usize)> {
    match shown(alloc, p, text)? {
        Shown::All => Some((0, 0)),
        Shown::Rest { subject, rest } => Some((subject, rest.terms().len())),
        Shown::Stopped { .. } => None,
    }
}

#[test]
fn first_subjects_that_are_not_shown(rt: HostRuntime) {
    let alloc = rt.alloc();
    for (p, text, want) in [
        ("<a | a^2>", "trivial 1", (0, 0)),
        ("<a | a^2>", "trivial a^2", (0, 0)),
        ("<a | a^2>", "trivial a", (1, 1)),
        ("<a | a^2>", "equal a = a^-1", (0, 0)),
        ("<a | a^2>", "normal a^3", (1, 1)),
        ("<a | a^2>", "hom <s | > -> a", (0, 0)),
        ("<a | a^2>", "hom <s, u | s^2, u, s u> -> a, a^2", (3, 1)),
        ("<a, b | >", "trivial a b a^-1 b^-1", (1, 4)),
    ] {
        assert_eq!(rt; first(alloc, p, text), Some(want), "{text}");
    }
}

/// How many subjects a question over a free group has, and the length of the last of them.
#[tactic(auto, using(crate::proofs::Fitting::last_fits))]
fn last(alloc: Global, text: &str) -> Option<(u32, u32)> {
    let p = read_presentation(alloc, b"<a, b | >").ok()?;
    let q = read(alloc, &p, text)?;
    let count = subject_count(&q);
    if count == 0 {
        return Some((0, 0));
    }
    let last = subject(alloc, &q, count).ok()?;
    Some((count, last.len()))
}

#[test]
fn subjects_of_questions(rt: HostRuntime) {
    let alloc = rt.alloc();
    for (text, want) in [
        ("trivial a b", (1, 2)),
        ("equal a b = b a", (1, 4)),
        ("normal a^3", (1, 3)),
        ("hom <s | > -> a", (0, 0)),
        ("hom <s, u | s, u^2> -> a b, b^-1", (2, 2)),
    ] {
        assert_eq!(rt; last(alloc, text), Some(want), "{text}");
    }
}
