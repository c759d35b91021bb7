//! Reports that hold, and changed ones: each fault at its line.

use crate::{CertFault, CertKind, Checked, check};
use laurent_terms::Mono;
use module_vec::Place;
use presentation::read_presentation;
use std::alloc::{AllocError, Global};
use std::test::Fail;

/// The report of a presentation of a solvable Baumslag-Solitar group, with three questions.
pub(crate) const SOLVABLE: &str = "<a,t | t a t^-1 a^-2>";

const REPORT: [&str; 20] = [
    "metab report 1",
    "pres <a, t | t a t^-1 a^-2>",
    "entry 0 gen - : +1*a@t +1*a'@a -1*t@a -1*1@t +1*1@a",
    "entry 1 gen + : +1*a'@a -1*1@a",
    "entry 2 gen + : +1*a'@t -1*1@t",
    "entry 3 gen + : +1*a.a'@a -1*1@a",
    "entry 4 gen + : +1*a.a'@t -1*1@t",
    "entry 5 gen + : +1*t.t'@a -1*1@a",
    "entry 6 gen + : +1*t.t'@t -1*1@t",
    "entry 7 sum -1*a@1 +1*1@3 : +1*a@a -1*1@a",
    "entry 8 sum -1*a'@0 +1*1@4 +1*a'@1 -1*t@1 -1*1@2 +2*1@1 : +1*t@a -2*1@a",
    "entry 9 sum +1*1@5 -1*t'@8 : +2*t'@a -1*1@a",
    "seal",
    "live 1 1 11 equal a^2 = t a t^-1 : trivial",
    "proof 1 +1*a@0 -1*a@1 -1*1@7",
    "live 1 2 11 normal a : normal +1*1@a",
    "live 1 3 11 trivial a t a t^-1 a^-1 t a^-1 t^-1 : trivial",
    "proof 1 -1*a@0 +1*a@1 +1*1@0 +1*1@7 -1*1@1",
    "end sealed",
    "done",
];

/// A report of the free group, with a map of a free abelian group.
const FREE: &str = "<a,b|>";

const MAP: [&str; 10] = [
    "metab report 1",
    "pres <a, b | >",
    "entry 0 gen + : +1*a.a'@a -1*1@a",
    "entry 1 gen + : +1*a.a'@b -1*1@b",
    "entry 2 gen + : +1*b.b'@a -1*1@a",
    "entry 3 gen + : +1*b.b'@b -1*1@b",
    "live 1 1 4 hom <s, u | s u s^-1 u^-1> -> a, a^3 : extends",
    "proof 1 0",
    "end spent 0 0 2 S",
    "done",
];

/// The lines with their ends; the line of this number, counted from 1, is another one.
pub(crate) fn text(
    alloc: Global,
    lines: &[&str],
    number: usize,
    other: &str,
) -> Result<Vec<u8>, AllocError> {
    let mut text = Vec::new(alloc);
    for (i, line) in lines.iter().enumerate() {
        let line = if i + 1 == number { other } else { line };
        text.extend_from_slice(line.as_bytes())?;
        text.push(b'\n')?;
    }
    Ok(text)
}

/// What the checker answers.
pub(crate) fn answer(
    alloc: Global,
    p: &str,
    text: &[u8],
) -> Result<Result<Checked, CertFault>, Fail> {
    match read_presentation(alloc, p.as_bytes()) {
        Ok(p) => Ok(check(alloc, &p, text)),
        Err(_) => Err(Fail::from("no presentation")),
    }
}

pub(crate) fn at(line: u32, kind: CertKind) -> Result<Checked, CertFault> {
    Err(CertFault::Line { line, kind })
}

/// The monomial a at this component.
pub(crate) fn a_at(c: u8) -> Result<Place, Fail> {
    Ok(Place {
        m: Mono::of_exponents(&[1]).ok_or("too steep")?,
        c,
    })
}

/// Whether the report holds, with so many entries and proofs.
pub(crate) fn holds(alloc: Global, p: &str, lines: &[&str], counts: Checked) -> Result<bool, Fail> {
    let text = text(alloc, lines, 0, "")?;
    match answer(alloc, p, &text)? {
        Ok(held) => Ok(held == counts),
        Err(CertFault::Line { line: _, kind: _ }) => Ok(false),
        Err(CertFault::NoMemory) => Ok(false),
    }
}

#[test]
fn reports_hold(rt: HostRuntime) -> Result<(), Fail> {
    let counts = Checked {
        entries: 10,
        proofs: 2,
    };
    assert!(rt; holds(rt.alloc(), SOLVABLE, &REPORT, counts)?);
    let counts = Checked {
        entries: 4,
        proofs: 1,
    };
    assert!(rt; holds(rt.alloc(), FREE, &MAP, counts)?);
    Ok(())
}

#[test]
fn cut_reports_fail_behind_their_last_line(rt: HostRuntime) -> Result<(), Fail> {
    let alloc = rt.alloc();
    for lines in 0..20usize {
        let part = text(alloc, &REPORT[..lines], 0, "")?;
        assert!(rt;
            answer(alloc, SOLVABLE, &part)? == at(lines as u32 + 1, CertKind::Text),
            "{lines} lines"
        );
    }
    let whole = text(alloc, &REPORT, 0, "")?;
    let (_, without_end) = whole.split_last().ok_or("no report")?;
    assert!(rt; answer(alloc, SOLVABLE, without_end)? == at(20, CertKind::Text));
    let mut longer = text(alloc, &REPORT, 0, "")?;
    longer.push(b'\n')?;
    assert!(rt; answer(alloc, SOLVABLE, &longer)? == at(21, CertKind::Text));
    Ok(())
}

#[test]
fn lines_that_may_not_stand_are_text(rt: HostRuntime) -> Result<(), Fail> {
    let alloc = rt.alloc();
    let changed = [
        (1, "metab report 3"),
        (2, "pres <a, t | t a t^-1 a^-2> "),
        (3, "entry 0 sum 0 : 0"),
        (4, "entry 2 gen + : +1*a'@a -1*1@a"),
        (10, "entry 7 gen + : +1*a@a -1*1@a"),
        (9, "seal"),
        (14, "entry 10 sum 0 : 0"),
        (14, "seal"),
        (14, "live 1 1 10 equal a^2 = t a t^-1 : trivial"),
        (15, "proof 2 +1*a@0 -1*a@1 -1*1@7"),
        (16, "proof 2 0"),
        (15, "end sealed"),
        (16, "live 1 2 11 normal a : trivial a"),
        (16, "live 1 2 11 hom <s | s^8192> -> a^5 : fails 1"),
        (18, "proof 1 +1*a^60000@0"),
        (18, "proof 1 +1*a@12 +1*a^60000@0"),
        (18, "proof 1 +170141183460469231731687303715884105728*1@7"),
    ];
    for (line, other) in changed {
        assert!(rt;
            answer(alloc, SOLVABLE, &text(alloc, &REPORT, line, other)?)?
                == at(line as u32, CertKind::Text),
            "{other}"
        );
    }
    Ok(())
}

#[test]
fn entries_that_fail(rt: HostRuntime) -> Result<(), Fail> {
    let alloc = rt.alloc();
    let changed = [
        (
            3,
            "entry 0 gen + : +1*a@t +1*a'@a -1*t@a -1*1@t +1*1@a",
            CertKind::NotEqual { at: a_at(1)? },
        ),
        (
            10,
            "entry 7 sum -1*a@1 +1*1@3 : +2*a@a -1*1@a",
            CertKind::NotEqual { at: a_at(0)? },
        ),
        (
            10,
            "entry 7 sum -1*a@7 +1*1@3 : +1*a@a -1*1@a",
            CertKind::NoEntry,
        ),
        (
            10,
            "entry 7 sum -1*a@1 +1*1@8 : +1*a@a -1*1@a",
            CertKind::NoEntry,
        ),
        (
            10,
            "entry 7 sum +170141183460469231731687303715884105727*1@1 +1*1@1 : +1*a@a -1*1@a",
            CertKind::Wide,
        ),
    ];
    for (line, other, kind) in changed {
        assert!(rt;
            answer(alloc, SOLVABLE, &text(alloc, &REPORT, line, other)?)? == at(line as u32, kind),
            "{other}"
        );
    }
    Ok(())
}

#[test]
fn proofs_that_fail(rt: HostRuntime) -> Result<(), Fail> {
    let alloc = rt.alloc();
    let most =
        "proof 1 +170141183460469231731687303715884105727*1@7 +170141183460469231731687303715884105727*1@7";
    let changed = [
        (
            15,
            "proof 1 +1*a@0 -1*a@1",
            CertKind::NotZero { at: a_at(0)? },
        ),
        (18, most, CertKind::Wide),
        (18, "proof 1 +1*1@10", CertKind::NoEntry),
    ];
    for (line, other, kind) in changed {
        assert!(rt;
            answer(alloc, SOLVABLE, &text(alloc, &REPORT, line, other)?)? == at(line as u32, kind),
            "{other}"
        );
    }
    Ok(())
}

#[test]
fn maps_that_fail(rt: HostRuntime) -> Result<(), Fail> {
    let alloc = rt.alloc();
    let other = "live 1 1 4 hom <s, u | s u s^-1 u^-1> -> a, b : extends";
    assert!(rt;
        answer(alloc, FREE, &text(alloc, &MAP, 7, other)?)?
            == at(8, CertKind::NotZero { at: a_at(1)? })
    );
    let other = "live 1 1 4 hom <s, u | s u s^-1 u^-1, s u s^-1 u^-1> -> a, a^3 : extends";
    assert!(rt; answer(alloc, FREE, &text(alloc, &MAP, 7, other)?)? == at(9, CertKind::Text));
    Ok(())
}
