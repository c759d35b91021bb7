//! Fox vectors and generators of small presentations, worked out by hand.

use super::{fox, generators};
use laurent_terms::Mono;
use module_vec::{ModVec, Term};
use presentation::{read_presentation, read_word};
use std::alloc::Global;

/// A term: the exponent sums that its monomial stands for, its component, and its coefficient.
type Row = (&'static [i32], u8, i128);

/// The Fox vector of a word over a presentation, given as texts.
fn vector(alloc: Global, p: &str, w: &str) -> Option<ModVec> {
    let p = read_presentation(alloc, p.as_bytes()).ok()?;
    let w = read_word(alloc, &p, w.as_bytes()).ok()?;
    fox(alloc, &p, &w).ok()
}

/// How many generators the module of a presentation has, and how many terms the first of them has.
fn counts(alloc: Global, p: &str) -> Option<(usize, usize)> {
    let p = read_presentation(alloc, p.as_bytes()).ok()?;
    let made = generators(alloc, &p).ok()?;
    let first = made.first()?;
    Some((made.len(), first.terms().len()))
}

fn is(t: &Term, row: &Row) -> bool {
    let (exponents, c, k) = *row;
    exponents.len() <= 24
        && Mono::of_exponents(exponents) == Some(t.at.m)
        && t.at.c == c
        && t.k == k
}

fn has(v: &ModVec, rows: &[Row]) -> bool {
    for (t, row) in v.terms().iter().zip(rows) {
        if !is(t, row) {
            return false;
        }
    }
    v.terms().len() == rows.len()
}

#[test]
fn words_have_their_vectors(rt: HostRuntime) {
    let alloc = rt.alloc();
    let rows: [(&str, &str, &[Row]); 6] = [
        ("<a|>", "1", &[]),
        ("<a|>", "a a^-1", &[]),
        ("<a|>", "a^2", &[(&[1], 0, 1), (&[], 0, 1)]),
        ("<a|>", "a^-1", &[(&[-1], 0, -1)]),
        (
            "<a,b|>",
            "[a,b]",
            &[(&[1], 1, 1), (&[0, 1], 0, -1), (&[], 1, -1), (&[], 0, 1)],
        ),
        (
            "<a,t|>",
            "t a t^-1 a^-2",
            &[
                (&[1], 1, -1),
                (&[-1], 0, -1),
                (&[0, 1], 0, 1),
                (&[], 1, 1),
                (&[], 0, -1),
            ],
        ),
    ];
    for (p, w, want) in rows {
        let v = vector(alloc, p, w);
        assert!(rt; v.is_some_and(|v| has(&v, want)), "{w}");
    }
}

#[test]
fn generators_stand_in_order(rt: HostRuntime) {
    let alloc = rt.alloc();
    for (p, count, first) in [
        ("<a|>", 1, 2),
        ("<a,b|>", 4, 2),
        ("<a,b|> modulus 2", 6, 2),
        ("<a,b | [a,b]>", 5, 4),
        ("<a,b | , a>", 7, 1),
        ("<a,t | t a t^-1 a^-2>", 7, 5),
    ] {
        assert_eq!(rt; counts(alloc, p), Some((count, first)));
    }
}
