//! Rows of moves and what they make, of lists of moves, and of texts of derivations with their first fault.

use crate::moves::{Insert, Move, MoveFault, MoveReason, StepsFault};
use crate::reading::read_derivation;
use crate::steps::{apply, check_steps};
use free_words::{Letter, Word};
use presentation::{Presentation, read_presentation, read_word};
use std::alloc::{AllocError, Global};
use std::process::Abort;
use std::rt::HostRuntime;
use word_text::{ReadFault, TextKind};

fn presentation_of(rt: &impl Abort, alloc: Global, text: &str) -> Presentation {
    read_presentation(alloc, text.as_bytes()).expect(rt, "a presentation")
}

fn word_of(rt: &impl Abort, alloc: Global, p: &Presentation, text: &str) -> Word {
    read_word(alloc, p, text.as_bytes()).expect(rt, "a word")
}

/// A letter: generators as a, b, inverses as A, B.
fn push_letter(out: &mut String, l: Letter) -> Result<(), AllocError> {
    out.push(match (l.g, l.inv) {
        (0, false) => 'a',
        (0, true) => 'A',
        (_, false) => 'b',
        (_, true) => 'B',
    })
}

fn push_word(out: &mut String, w: &Word) -> Result<(), AllocError> {
    for l in w.letters() {
        push_letter(out, *l)?;
    }
    Ok(())
}

/// The words, each in brackets.
fn push_words(out: &mut String, words: &[&Word]) -> Result<(), AllocError> {
    for w in words {
        out.push('(')?;
        push_word(out, w)?;
        out.push(')')?;
    }
    Ok(())
}

fn push_insert(alloc: Global, out: &mut String, what: &Insert) -> Result<(), AllocError> {
    match what {
        Insert::Pair(x) => {
            out.push_str("pair ")?;
            push_letter(out, *x)
        }
        Insert::Rel { relator, inverse } => {
            let number = format!(in alloc; "rel {}", relator)?;
            out.push_str(number.as_str())?;
            out.push_str(if *inverse { " inv" } else { "" })
        }
        Insert::Dbl(a, b, c, d) => {
            out.push_str("dbl ")?;
            push_words(out, &[a, b, c, d])
        }
        Insert::Pow(a, b) => {
            out.push_str("pow ")?;
            push_words(out, &[a, b])
        }
    }
}

/// The moves, each with a semicolon behind it.
fn shown(alloc: Global, moves: &[Move]) -> Result<String, AllocError> {
    let mut out = String::new(alloc);
    for m in moves {
        let place = format!(in alloc; "{} {} ", if m.del { "del" } else { "ins" }, m.at)?;
        out.push_str(place.as_str())?;
        push_insert(alloc, &mut out, &m.what)?;
        out.push(';')?;
    }
    Ok(out)
}

const COMMUTING: &str = "<a, b | a b a^-1 b^-1, a^2>";

const WITH_MODULUS: &str = "<a, b | > modulus 2";

const LARGE_MODULUS: &str = "<a, b | > modulus 1000000000";

const LONG_RELATOR: &str = "<a, b | a^16384>";

#[test]
fn moves_are_made(rt: HostRuntime) {
    let alloc = rt.alloc();
    for (presentation, word, line, want) in [
        (COMMUTING, "a b", "ins 0 pair a", "aAab"),
        (COMMUTING, "a b", "ins 1 pair b^-1", "aBbb"),
        (COMMUTING, "a b", "ins 2 pair a", "abaA"),
        (COMMUTING, "a a^-1 b", "del 0 pair a", "b"),
        (COMMUTING, "b a^-1 a", "del 1 pair a^-1", "b"),
        (COMMUTING, "b", "ins 0 rel 1", "abABb"),
        (COMMUTING, "b", "ins 1 rel 1 inv", "bbaBA"),
        (COMMUTING, "b b", "ins 1 rel 2", "baab"),
        (COMMUTING, "b", "ins 0 rel 2 inv", "AAb"),
        (COMMUTING, "b [a, b]", "del 1 rel 1", "b"),
        (COMMUTING, "[b, a] b", "del 0 rel 1 inv", "b"),
        (COMMUTING, "b a^-2 b", "del 1 rel 2 inv", "bb"),
        (
            COMMUTING,
            "1",
            "ins 0 dbl a, b, a a, b",
            "abABaabAABbaBAbaaBAA",
        ),
        (
            COMMUTING,
            "a [[a, b], [a^2, b]] b",
            "del 1 dbl a, b, a a, b",
            "ab",
        ),
        (COMMUTING, "a b", "ins 1 dbl , , ,", "ab"),
        (COMMUTING, "a b", "del 2 dbl , , ,", "ab"),
        (WITH_MODULUS, "b", "ins 1 pow a, b", "babABabAB"),
        (WITH_MODULUS, "[a, b]^3", "del 4 pow a, b", "abAB"),
        (LARGE_MODULUS, "a", "ins 0 pow 1, 1", "a"),
        (LARGE_MODULUS, "a", "del 1 pow , ", "a"),
    ] {
        let p = presentation_of(&rt, alloc, presentation);
        let w = word_of(&rt, alloc, &p, word);
        for m in &read_derivation(alloc, &p, line.as_bytes()).expect(&rt, "a move") {
            let new = apply(alloc, &p, &w, m).expect(&rt, "a word");
            let mut got = String::new(alloc);
            push_word(&mut got, &new).expect(&rt, "memory");
            assert_eq!(rt; got.as_str(), want, "at {line}");
        }
    }
}

#[test]
fn moves_are_refused(rt: HostRuntime) {
    let alloc = rt.alloc();
    for (presentation, word, line, want) in [
        (COMMUTING, "a b", "ins 3 pair a", MoveReason::Place),
        (COMMUTING, "a b", "del 999999 rel 9", MoveReason::Place),
        (COMMUTING, "a b", "ins 3 pow a, b", MoveReason::Place),
        (COMMUTING, "a b", "ins 0 rel 0", MoveReason::NoRelator),
        (COMMUTING, "a b", "del 2 rel 3 inv", MoveReason::NoRelator),
        (
            COMMUTING,
            "[a, b]^2",
            "del 0 pow a, b",
            MoveReason::NoModulus,
        ),
        (
            COMMUTING,
            "a^16384",
            "ins 0 pow a^9000, b",
            MoveReason::NoModulus,
        ),
        (COMMUTING, "a b a^-1", "del 0 pair a", MoveReason::NotThere),
        (COMMUTING, "a a^-1", "del 0 pair a^-1", MoveReason::NotThere),
        (COMMUTING, "b a", "del 1 pair a", MoveReason::NotThere),
        (COMMUTING, "a a^-1", "del 2 pair a", MoveReason::NotThere),
        (COMMUTING, "[a, b]", "del 0 rel 1 inv", MoveReason::NotThere),
        (COMMUTING, "[b, a]", "del 0 rel 1", MoveReason::NotThere),
        (COMMUTING, "a^-2", "del 0 rel 2", MoveReason::NotThere),
        (
            COMMUTING,
            "[[a, b], [b, a]]",
            "del 0 dbl b, a, a, b",
            MoveReason::NotThere,
        ),
        (
            WITH_MODULUS,
            "[a, b]",
            "del 0 pow a, b",
            MoveReason::NotThere,
        ),
        (
            WITH_MODULUS,
            "[b, a]^2",
            "del 0 pow a, b",
            MoveReason::NotThere,
        ),
        (LARGE_MODULUS, "a", "ins 0 pow a, b", MoveReason::TooLong),
        (LARGE_MODULUS, "a", "del 0 pow a, b", MoveReason::NotThere),
        (
            LONG_RELATOR,
            "a^16384",
            "ins 9 pow a, b",
            MoveReason::NoModulus,
        ),
        (
            LONG_RELATOR,
            "1",
            "ins 0 dbl a^16384, b, b, a",
            MoveReason::TooLong,
        ),
    ] {
        let p = presentation_of(&rt, alloc, presentation);
        let w = word_of(&rt, alloc, &p, word);
        for m in &read_derivation(alloc, &p, line.as_bytes()).expect(&rt, "a move") {
            match apply(alloc, &p, &w, m) {
                Ok(_) => assert!(rt; false, "made {line}"),
                Err(fault) => assert!(rt; fault == MoveFault::Refused(want), "at {line}"),
            }
        }
    }
}

/// What the derivation makes of the word.
fn carried_out(
    rt: &impl Abort,
    alloc: Global,
    presentation: &str,
    word: &str,
    derivation: &str,
) -> Result<(), StepsFault> {
    let p = presentation_of(rt, alloc, presentation);
    let w = word_of(rt, alloc, &p, word);
    let moves = read_derivation(alloc, &p, derivation.as_bytes()).expect(rt, "moves");
    check_steps(alloc, &p, &w, &moves)
}

#[test]
fn lists_of_moves(rt: HostRuntime) {
    let alloc = rt.alloc();
    let bad = |number, reason| Err(StepsFault::BadMove { number, reason });
    let left = |left| Err(StepsFault::NotEmpty { left });
    for (presentation, word, derivation, want) in [
        (COMMUTING, "1", "", Ok(())),
        (COMMUTING, "a^3", "", left(3)),
        (COMMUTING, "a b a^-1 b^-1", "del 0 rel 1", Ok(())),
        (
            COMMUTING,
            "[a, b]",
            "del 0 rel 3",
            bad(1, MoveReason::NoRelator),
        ),
        (COMMUTING, "[a, b]", "ins 4 pair a", left(6)),
        (
            COMMUTING,
            "[a, b]",
            "\n\ndel 0 rel 1\n\n\ndel 0 rel 1\nins 9 rel 9",
            bad(2, MoveReason::NotThere),
        ),
        (
            COMMUTING,
            "[a, b]",
            "del 0 rel 1\nins 0 rel 2\ndel 0 rel 2\nins 1 pair a",
            bad(4, MoveReason::Place),
        ),
        (
            COMMUTING,
            "b a a^-1 b^-1 a a^-1 b",
            "ins 7 pair b^-1\ndel 4 pair a\ndel 6 pair b\ndel 1 pair a\ndel 0 pair b\n",
            bad(3, MoveReason::NotThere),
        ),
        (
            COMMUTING,
            "b a a^-1 b^-1 a a^-1",
            "ins 6 pair b^-1\ndel 4 pair a\ndel 1 pair a\ndel 2 pair b^-1\ndel 0 pair b",
            Ok(()),
        ),
        (
            "<a,b|>",
            "[[a, b], [a^2, b]]",
            "del 0 dbl a, b, a a, b",
            Ok(()),
        ),
        (WITH_MODULUS, "[a,b]^2", "del 0 pow a, b", Ok(())),
        (
            "<a,b|>",
            "[a,b]^2",
            "del 0 pow a, b",
            bad(1, MoveReason::NoModulus),
        ),
    ] {
        let got = carried_out(&rt, alloc, presentation, word, derivation);
        assert!(rt; got == want, "at {derivation}");
    }
}

#[test]
fn lists_of_long_moves(rt: HostRuntime) {
    let alloc = rt.alloc();
    for (word, derivation, want) in [
        (
            "a^16384",
            "ins 16384 rel 1",
            Err(StepsFault::NotEmpty { left: 32_768 }),
        ),
        (
            "a^16384",
            "ins 1 rel 1\nins 0 pair a",
            Err(StepsFault::BadMove {
                number: 2,
                reason: MoveReason::TooLong,
            }),
        ),
        ("a^16384", "ins 1 rel 1\ndel 7 rel 1\ndel 0 rel 1", Ok(())),
    ] {
        let got = carried_out(&rt, alloc, LONG_RELATOR, word, derivation);
        assert!(rt; got == want, "at {derivation}");
    }
}

#[test]
fn derivations_are_read(rt: HostRuntime) {
    let alloc = rt.alloc();
    let p = presentation_of(&rt, alloc, "<a, inv | >");
    for (text, want) in [
        ("", ""),
        ("\n\n", ""),
        (" \t\r\n \n\t", ""),
        ("ins 0 pair a", "ins 0 pair a;"),
        ("\n\r\nins 0 pair a^-1\n\n", "ins 0 pair A;"),
        ("\tins\t7\r pair  inv ^-1 \r\n", "ins 7 pair B;"),
        ("del 000012 rel 3", "del 12 rel 3;"),
        ("del 1 rel 0 inv\n", "del 1 rel 0 inv;"),
        (
            "ins 0rel 999999inv\r\ndel 999999pair inv",
            "ins 0 rel 999999 inv;del 999999 pair b;",
        ),
        (
            "ins 1 dbl a,inv^-1,a a,[a,inv]\r",
            "ins 1 dbl (a)(B)(aa)(abAB);",
        ),
        ("ins 1 dbl,,,", "ins 1 dbl ()()()();"),
        (
            "del 2 pow a^2 , (a inv)^-1\nins 0 pow 1 , ",
            "del 2 pow (aa)(BA);ins 0 pow ()();",
        ),
    ] {
        let moves = read_derivation(alloc, &p, text.as_bytes()).expect(&rt, "reads");
        let got = shown(alloc, &moves).expect(&rt, "memory");
        assert_eq!(rt; got.as_str(), want, "at {text}");
    }
}

#[test]
fn faults_have_their_places(rt: HostRuntime) {
    let alloc = rt.alloc();
    let p = presentation_of(&rt, alloc, "<a, b | >");
    for (text, line, column, kind) in [
        // The keyword of the line.
        ("put 0 pair a", 1, 1, TextKind::Expected),
        ("in 0 pair a", 1, 1, TextKind::Expected),
        ("inst 0 pair a", 1, 1, TextKind::Expected),
        ("ins0 pair a", 1, 1, TextKind::Expected),
        ("\0", 1, 1, TextKind::BadByte),
        (" \u{a7}", 1, 2, TextKind::BadByte),
        // The place.
        ("ins", 1, 4, TextKind::Expected),
        ("ins \t", 1, 6, TextKind::Expected),
        ("del pair a", 1, 5, TextKind::Expected),
        ("ins -1 pair a", 1, 5, TextKind::Expected),
        ("ins 1234567 pair a", 1, 11, TextKind::Expected),
        ("ins \u{a7}", 1, 5, TextKind::BadByte),
        // What is put in or taken out.
        ("ins 0", 1, 6, TextKind::Expected),
        ("ins 0 a", 1, 7, TextKind::Expected),
        ("ins 0 pairs a", 1, 7, TextKind::Expected),
        ("ins 0 rel1", 1, 7, TextKind::Expected),
        ("ins 0 \0", 1, 7, TextKind::BadByte),
        ("ins 0 pair", 1, 11, TextKind::Expected),
        ("ins 0 pair 1", 1, 12, TextKind::Expected),
        ("ins 0 pair c", 1, 12, TextKind::UnknownName),
        ("ins 0 pair a^-2", 1, 13, TextKind::Expected),
        ("ins 0 pair a^ -1", 1, 13, TextKind::Expected),
        ("ins 0 pair a^-12", 1, 16, TextKind::Expected),
        ("ins 0 rel", 1, 10, TextKind::Expected),
        ("ins 0 rel inv", 1, 11, TextKind::Expected),
        ("del 0 rel 0000001", 1, 17, TextKind::Expected),
        ("ins 0 dbl a b", 1, 14, TextKind::Expected),
        ("ins 0 dbl a, b a", 1, 17, TextKind::Expected),
        ("ins 0 dbl a, b, a", 1, 18, TextKind::Expected),
        ("ins 0 dbl a, b, a, (b", 1, 22, TextKind::Expected),
        ("ins 0 dbl a, ?", 1, 14, TextKind::BadByte),
        ("ins 0 pow a, b c", 1, 16, TextKind::UnknownName),
        ("ins 0 pow a^16384 b, a", 1, 19, TextKind::WordTooLong),
        ("ins 0 pow a, b^16385", 1, 16, TextKind::ExponentTooLarge),
        // What follows.
        ("ins 0 pair a b", 1, 14, TextKind::Expected),
        ("ins 0 rel 1 inverse", 1, 13, TextKind::Expected),
        ("ins 0 rel 1 inv inv", 1, 17, TextKind::Expected),
        ("ins 0 dbl a, b, a, b, a", 1, 21, TextKind::Expected),
        ("ins 0 pow a, b\0", 1, 15, TextKind::BadByte),
        // Later lines.
        ("ins 0 pow a\n, b", 1, 12, TextKind::Expected),
        ("ins 0 pow a, \n b", 2, 2, TextKind::Expected),
        (
            "ins 0 pair a\r\n\r\n ins 0 rel 1 \u{a7}\n\0",
            3,
            14,
            TextKind::BadByte,
        ),
        ("\n\ndel 0", 3, 6, TextKind::Expected),
        ("ins 0 pair a\ndel", 2, 4, TextKind::Expected),
    ] {
        match read_derivation(alloc, &p, text.as_bytes()) {
            Ok(_) => assert!(rt; false, "read {text}"),
            Err(ReadFault::NoMemory) => assert!(rt; false, "memory"),
            Err(ReadFault::Text(fault)) => {
                assert_eq!(rt; fault.line, line, "line at {text}");
                assert_eq!(rt; fault.column, column, "column at {text}");
                assert!(rt; fault.kind == kind, "kind {:?} at {text}", fault.kind);
            }
        }
    }
}
