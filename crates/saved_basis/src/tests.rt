//! Files that are read, and changed ones: each fault at its line or task.

use crate::{BasisFault, LineKind, read_basis, write_basis};
use mb_io::MemSink;
use presentation::read_presentation;
use std::alloc::{AllocError, Global};
use std::sync::Arc;
use std::test::Fail;

/// A solvable Baumslag-Solitar group.
const SOLVABLE: &str = "<a,t | t a t^-1 a^-2>";

const BASIS: [&str; 13] = [
    "metab basis 1",
    "pres <a, t | t a t^-1 a^-2>",
    "entry 0 gen - : +1*a@t +1*a'@a -1*t@a -1*1@t +1*1@a",
    "entry 1 gen + : +1*a'@a -1*1@a",
    "entry 2 gen + : +1*a'@t -1*1@t",
    "entry 3 gen + : +1*a.a'@a -1*1@a",
    "entry 4 gen + : +1*a.a'@t -1*1@t",
    "entry 5 gen + : +1*t.t'@a -1*1@a",
    "entry 6 gen + : +1*t.t'@t -1*1@t",
    "entry 7 sum -1*a@1 +1*1@3 : +1*a@a -1*1@a",
    "entry 8 sum -1*a'@0 +1*1@4 +1*a'@1 -1*t@1 -1*1@2 +2*1@1 : +1*t@a -2*1@a",
    "entry 9 sum +1*1@5 -1*t'@8 : +2*t'@a -1*1@a",
    "done",
];

const FREE: [&str; 4] = [
    "metab basis 1",
    "pres <a | >",
    "entry 0 gen + : +1*a.a'@a -1*1@a",
    "done",
];

/// The lines with their ends; the line of this number, counted from 1, is another one, or none where that is empty.
fn text(alloc: Global, lines: &[&str], number: usize, other: &str) -> Result<Vec<u8>, AllocError> {
    let mut text = Vec::new(alloc);
    for (i, line) in lines.iter().enumerate() {
        let line = if i + 1 == number { other } else { line };
        if !line.is_empty() {
            text.extend_from_slice(line.as_bytes())?;
            text.push(b'\n')?;
        }
    }
    Ok(text)
}

/// The fault of the text, if it has one. A text that is read has to be written again as it was.
fn fault_of(alloc: Global, p: &str, text: &[u8]) -> Result<Option<BasisFault>, Fail> {
    let Ok(p) = read_presentation(alloc, p.as_bytes()) else {
        return Err(Fail::from("no presentation"));
    };
    let p = Arc::new(alloc, p)?;
    let seal = match read_basis(alloc, &p, text) {
        Ok(seal) => seal,
        Err(fault) => return Ok(Some(fault)),
    };
    let mut sink = MemSink::new(alloc, 2_000, Vec::new(alloc))?;
    if write_basis(alloc, &seal, &mut sink).is_err() || sink.taken() != text {
        return Err(Fail::from("another text is written"));
    }
    Ok(None)
}

/// Whether this is told of the text: the number of a line, and why it can't stand there.
fn is_told(alloc: Global, p: &str, text: &[u8], number: u32, why: &str) -> Result<bool, Fail> {
    let right = match fault_of(alloc, p, text)? {
        None => why == "read",
        Some(BasisFault::Line { line, kind }) => {
            let name = match kind {
                LineKind::Text => "text",
                LineKind::NoEntry => "no entry",
                LineKind::NotEqual { at } => {
                    if at.c == 0 {
                        "not equal at the first"
                    } else {
                        "not equal at the second"
                    }
                }
                LineKind::Wide => "wide",
                LineKind::Long => "long",
            };
            line == number && name == why
        }
        Some(BasisFault::Open { i, j, .. }) => i == number && j == 8 && why == "open",
        Some(_) => false,
    };
    Ok(right)
}

/// Whether this is told of the basis where the line is another one.
fn is_wrong(alloc: Global, line: u32, other: &str, why: &str) -> Result<bool, Fail> {
    let changed = text(alloc, &BASIS, line as usize, other)?;
    is_told(alloc, SOLVABLE, &changed, line, why)
}

#[test]
fn bases_are_read_and_written_again(rt: HostRuntime) -> Result<(), Fail> {
    let alloc = rt.alloc();
    let whole = text(alloc, &BASIS, 0, "")?;
    assert!(rt; is_told(alloc, SOLVABLE, &whole, 0, "read")?);
    let small = text(alloc, &FREE, 0, "")?;
    assert!(rt; is_told(alloc, "<a|>", &small, 0, "read")?);
    Ok(())
}

#[test]
fn lines_that_may_not_stand_are_text(rt: HostRuntime) -> Result<(), Fail> {
    let alloc = rt.alloc();
    let changed = [
        (1, "metab report 1"),
        (2, "pres <a, t | t a t^-1 a^-2> "),
        (3, "done"),
        (9, "done"),
        (3, "entry 0 sum 0 : 0"),
        (3, "entry 0 gen - : -1*a@t -1*a'@a +1*t@a +1*1@t -1*1@a"),
        (4, "entry 2 gen + : +1*a'@a -1*1@a"),
        (10, "entry 7 gen + : +1*a@a -1*1@a"),
        (10, "entry 7 sum 0 : 0"),
        (10, "entry 7 sum +1*a@1 -1*1@9 : -1*a@a +1*1@a"),
        (10, "entry 7 sum -1*a^60000@1 +1*1@9 : +1*a@a -1*1@a"),
        (10, "seal"),
        (13, "end sealed"),
        (13, "done done"),
    ];
    for (line, other) in changed {
        assert!(rt; is_wrong(alloc, line, other, "text")?, "{other}");
    }
    for lines in 0..13u32 {
        let part = text(alloc, &BASIS[..lines as usize], 0, "")?;
        assert!(rt;
            is_told(alloc, SOLVABLE, &part, lines + 1, "text")?,
            "{lines} lines"
        );
    }
    let mut longer = text(alloc, &BASIS, 0, "")?;
    longer.push(b'\n')?;
    assert!(rt; is_told(alloc, SOLVABLE, &longer, 14, "text")?);
    Ok(())
}

#[test]
fn entries_that_are_not_what_they_are_made_of(rt: HostRuntime) -> Result<(), Fail> {
    let alloc = rt.alloc();
    let sign = "entry 0 gen + : +1*a@t +1*a'@a -1*t@a -1*1@t +1*1@a";
    assert!(rt; is_wrong(alloc, 3, sign, "not equal at the second")?);
    let value = "entry 7 sum -1*a@1 +1*1@3 : +2*a@a -1*1@a";
    assert!(rt; is_wrong(alloc, 10, value, "not equal at the first")?);
    let later = "entry 7 sum -1*a@7 +1*1@3 : +1*a@a -1*1@a";
    assert!(rt; is_wrong(alloc, 10, later, "no entry")?);
    let wide = "entry 7 sum +170141183460469231731687303715884105727*1@1 +1*1@1 : +1*a@a -1*1@a";
    assert!(rt; is_wrong(alloc, 10, wide, "wide")?);
    Ok(())
}

#[test]
fn lists_that_are_not_complete(rt: HostRuntime) -> Result<(), Fail> {
    let alloc = rt.alloc();
    let shorter = text(alloc, &BASIS, 12, "")?;
    assert!(rt; is_told(alloc, SOLVABLE, &shorter, 5, "open")?);
    Ok(())
}
