//! Certificates worked out by hand.

use crate::{FlatSumFault, FlatTextFault, WriteFault, check_flat, read_flat, write_flat};
use mb_io::MemSink;
use presentation::{read_presentation, read_word};
use std::alloc::Global;
use std::rt::HostRuntime;

const SOLITAR: &str = "<a, t | t a t^-1 a^-2>";

const FAR: &str = "metab flat 1\n+1*a^60000 rel 1\n+1*t^60000 rel 1\ndone\n";

const HEAVY: &str = "metab flat 1\n+170141183460469231731687303715884105727*1 rel 1\n\
    +170141183460469231731687303715884105727*1 rel 1\ndone\n";

/// Whether the check answers this: `trivial`, `beyond`, or the place where the two differ.
fn answers(alloc: Global, p: &str, w: &str, text: &str, want: &str) -> Option<bool> {
    let p = read_presentation(alloc, p.as_bytes()).ok()?;
    let w = read_word(alloc, &p, w.as_bytes()).ok()?;
    let list = read_flat(alloc, &p, text.as_bytes()).ok()?;
    match check_flat(alloc, &p, &w, &list) {
        Ok(()) => Some(want == "trivial"),
        Err(FlatSumFault::Beyond) => Some(want == "beyond"),
        Err(FlatSumFault::NotZero { at }) => Some(
            want == "a^2@t" && at.m.degree() == 2 && at.c == 1,
        ),
        Err(FlatSumFault::NoMemory) => None,
    }
}

/// The first line of the text that can't stand, 0 where all can.
fn first_fault(alloc: Global, p: &str, text: &str) -> Option<u32> {
    let p = read_presentation(alloc, p.as_bytes()).ok()?;
    match read_flat(alloc, &p, text.as_bytes()) {
        Ok(_) => Some(0),
        Err(FlatTextFault::Line { line }) => Some(line),
        Err(FlatTextFault::NoMemory) => None,
    }
}

#[test]
fn certificates_are_added_up(rt: HostRuntime) {
    let alloc = rt.alloc();
    for (p, w, text, want) in [
        (
            SOLITAR,
            "a a t a^-1 t^-1",
            "metab flat 1\n-1*a rel 1\ndone\n",
            "trivial",
        ),
        (
            SOLITAR,
            "a a t a^-1 t^-1",
            "metab flat 1\n+1*a rel 1\ndone\n",
            "a^2@t",
        ),
        (
            SOLITAR,
            "[a, t a t^-1]",
            "metab flat 1\n+1*a rel 1\n-1*1 rel 1\n-1*1 bin 1 a\ndone\n",
            "trivial",
        ),
        (
            "<a, b | > modulus 2",
            "[a,b]^2",
            "metab flat 1\n-1*b mod a\n+1*1 mod a\n+1*a mod b\n-1*1 mod b\ndone\n",
            "trivial",
        ),
        (SOLITAR, "1", FAR, "beyond"),
        (SOLITAR, "1", HEAVY, "beyond"),
    ] {
        assert_eq!(rt; answers(alloc, p, w, text, want), Some(true), "{text}");
    }
}

#[test]
fn first_lines_that_cannot_stand(rt: HostRuntime) {
    let alloc = rt.alloc();
    for (text, want) in [
        ("metab flat 1\ndone\n", 0),
        ("metab flat 1\n-1*a.t'^2 bin 1 t\ndone\n", 0),
        ("metab flat 2\ndone\n", 1),
        ("metab flat 1\n-1*a rel 2\ndone\n", 2),
        ("metab flat 1\n-1*a.a' rel 1\ndone\n", 2),
        ("metab flat 1\n-1*a rel 01\ndone\n", 2),
        ("metab flat 1\n-1*a mod a\ndone\n", 2),
        ("metab flat 1\n-1*a rel 1\n", 3),
        ("metab flat 1\ndone\ndone\n", 3),
        ("metab flat 1\ndone", 2),
    ] {
        assert_eq!(rt; first_fault(alloc, SOLITAR, text), Some(want), "{text}");
    }
}

/// How many bytes of the certificate's text are written to a sink with so much room, 1000 where all are.
fn written(alloc: Global, text: &str, room: u32) -> Option<usize> {
    let p = read_presentation(alloc, SOLITAR.as_bytes()).ok()?;
    let list = read_flat(alloc, &p, text.as_bytes()).ok()?;
    let mut sink = MemSink::new(alloc, room, Vec::new(alloc)).ok()?;
    let answer = write_flat(alloc, &p, &list, &mut sink);
    if !text.as_bytes().starts_with(sink.taken()) {
        return None;
    }
    match answer {
        Ok(()) if sink.taken().len() == text.len() => Some(1000),
        Err(WriteFault::Failed) => Some(sink.taken().len()),
        _ => None,
    }
}

#[test]
fn certificates_are_written_as_they_are_read(rt: HostRuntime) {
    let alloc = rt.alloc();
    for (text, room, want) in [
        ("metab flat 1\ndone\n", 100, 1000),
        (FAR, 100, 1000),
        (
            "metab flat 1\n-1*a.t'^2 bin 1 t\n+12*1 rel 1\ndone\n",
            100,
            1000,
        ),
        (FAR, 30, 30),
        (FAR, 0, 0),
    ] {
        assert_eq!(rt; written(alloc, text, room), Some(want), "{text}");
    }
}
