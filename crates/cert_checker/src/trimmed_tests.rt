//! Trimmed reports that hold, and changed ones.

use crate::tests::{SOLVABLE, a_at, answer, at, holds, text};
use crate::{CertKind, Checked};
use laurent_terms::Mono;
use module_vec::Place;
use std::test::Fail;

const TRIMMED: [&str; 16] = [
    "metab report 2",
    "pres <a, t | t a t^-1 a^-2>",
    "items 11",
    "entry 0 from 0 gen - : +1*a@t +1*a'@a -1*t@a -1*1@t +1*1@a",
    "entry 1 from 1 gen + : +1*a'@a -1*1@a",
    "entry 2 from 3 gen + : +1*a.a'@a -1*1@a",
    "live 1 1 7 trivial t : unknown 1",
    "entry 3 from 7 sum -1*a@1 +1*1@2 : +1*a@a -1*1@a",
    "live 1 2 8 equal a^2 = t a t^-1 : trivial",
    "proof 1 +1*a@0 -1*a@1 -1*1@3",
    "seal",
    "live 1 3 11 normal a : normal +1*1@a",
    "live 1 4 11 trivial a t a t^-1 a^-1 t a^-1 t^-1 : trivial",
    "proof 1 -1*a@0 +1*a@1 +1*1@0 +1*1@3 -1*1@1",
    "end sealed",
    "done",
];

#[test]
fn trimmed_reports_hold(rt: HostRuntime) -> Result<(), Fail> {
    let alloc = rt.alloc();
    let counts = Checked {
        entries: 4,
        proofs: 2,
    };
    assert!(rt; holds(alloc, SOLVABLE, &TRIMMED, counts)?);
    let empty = [
        "metab report 2",
        "pres <a, t | t a t^-1 a^-2>",
        "items 0",
        "end sealed",
        "done",
    ];
    let none = Checked {
        entries: 0,
        proofs: 0,
    };
    assert!(rt; holds(alloc, SOLVABLE, &empty, none)?);
    Ok(())
}

#[test]
fn trimmed_reports_that_fail(rt: HostRuntime) -> Result<(), Fail> {
    let alloc = rt.alloc();
    let a_inverse_at_t = Place {
        m: Mono::of_exponents(&[-1]).ok_or("too steep")?,
        c: 1,
    };
    let text_at = |line: u32| at(line, CertKind::Text);
    let changed = [
        (1, "metab report 3", text_at(1)),
        (3, "items 011", text_at(3)),
        (3, "entry 0 from 0 gen + : 0", text_at(3)),
        (5, "entry 1 from 0 gen + : +1*a'@a -1*1@a", text_at(5)),
        (6, "entry 2 from 3 sum 0 : 0", text_at(6)),
        (6, "entry 2 from 7 gen + : +1*a.a'@a -1*1@a", text_at(6)),
        (6, "entry 2 gen + : +1*a.a'@a -1*1@a", text_at(6)),
        (7, "live 1 1 6 trivial t : unknown 1", text_at(7)),
        // The entry behind is then below the front.
        (7, "live 1 1 8 trivial t : unknown 1", text_at(8)),
        (
            8,
            "entry 3 from 11 sum -1*a@1 +1*1@2 : +1*a@a -1*1@a",
            text_at(8),
        ),
        (
            8,
            "entry 2 from 7 sum -1*a@1 +1*1@2 : +1*a@a -1*1@a",
            text_at(8),
        ),
        (9, "live 1 2 7 equal a^2 = t a t^-1 : trivial", text_at(9)),
        (9, "live 1 2 12 equal a^2 = t a t^-1 : trivial", text_at(9)),
        (
            13,
            "live 1 4 10 trivial a t a t^-1 a^-1 t a^-1 t^-1 : trivial",
            text_at(13),
        ),
        (12, "entry 4 from 9 sum 0 : 0", text_at(12)),
        (
            5,
            "entry 1 from 2 gen + : +1*a'@a -1*1@a",
            at(5, CertKind::NotEqual { at: a_inverse_at_t }),
        ),
        (
            8,
            "entry 3 from 7 sum -1*a@1 +1*1@2 : +2*a@a -1*1@a",
            at(8, CertKind::NotEqual { at: a_at(0)? }),
        ),
        (
            8,
            "entry 3 from 7 sum -1*a@1 +1*1@3 : +1*a@a -1*1@a",
            at(8, CertKind::NoEntry),
        ),
        (
            10,
            "proof 1 +1*a@0 -1*a@1",
            at(10, CertKind::NotZero { at: a_at(0)? }),
        ),
    ];
    for (line, other, found) in changed {
        assert!(rt;
            answer(alloc, SOLVABLE, &text(alloc, &TRIMMED, line, other)?)? == found,
            "{other}"
        );
    }
    Ok(())
}

#[test]
fn cut_trimmed_reports_fail_behind_their_last_line(rt: HostRuntime) -> Result<(), Fail> {
    let alloc = rt.alloc();
    for lines in 0..16usize {
        let part = text(alloc, &TRIMMED[..lines], 0, "")?;
        assert!(rt;
            answer(alloc, SOLVABLE, &part)? == at(lines as u32 + 1, CertKind::Text),
            "{lines} lines"
        );
    }
    Ok(())
}
