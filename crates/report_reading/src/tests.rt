//! Whole reports, and texts that aren't.

use crate::{ReportData, ReportFault, read_report};
use basis_entry::Recipe;
use presentation::{Presentation, read_presentation};
use std::alloc::Global;
use std::test::Fail;

const PRES: &str = "<a, t | t a t^-1 a^-2>";

/// A trimmed report in which each kind of line stands.
const TRIMMED: &str = "metab report 2
pres <a, t | t a t^-1 a^-2>
items 9
entry 0 from 2 gen - : +1*a@t +1*a'@a -1*t@a -1*1@t +1*1@a
live 1 1 4 trivial a : unknown 1
live 2 1 4 hom <s | s^2> -> a : fails 1
live 1 2 5 trivial a : unknown 1
entry 1 from 5 sum -1*a@0 +1*1@0 : +1*a@a -1*1@a
live 1 3 8 normal a : stop 1 deep
seal
live 1 4 9 equal a^2 = t a t^-1 : trivial
proof 1 +1*a@0 -1*a@1
end sealed
close 1 1 trivial a : not-trivial
close 1 2 trivial a : not-trivial
close 1 3 normal a : normal +1*1@a
done
";

/// A report in which each kind of line stands.
const TEXT: &str = "metab report 1
pres <a, t | t a t^-1 a^-2>
entry 0 gen - : +1*a@t +1*a'@a -1*t@a -1*1@t +1*1@a
live 1 1 1 trivial a : unknown 1
live 2 1 1 hom <s | s^2> -> a : fails 1
entry 1 sum -1*a@0 +1*1@0 : +1*a@a -1*1@a
live 1 2 2 normal a : stop 1 deep
seal
live 1 3 3 equal a^2 = t a t^-1 : trivial
proof 1 +1*a@0 -1*a@1
end sealed
close 1 1 trivial a : not-trivial
close 1 2 normal a : normal +1*1@a
done
";

/// The report of a complete log, with three questions asked behind the seal.
const SEALED: &str = "metab report 1
pres <a, t | t a t^-1 a^-2>
entry 0 gen - : +1*a@t +1*a'@a -1*t@a -1*1@t +1*1@a
entry 1 gen + : +1*a'@a -1*1@a
entry 2 gen + : +1*a'@t -1*1@t
entry 3 gen + : +1*a.a'@a -1*1@a
entry 4 gen + : +1*a.a'@t -1*1@t
entry 5 gen + : +1*t.t'@a -1*1@a
entry 6 gen + : +1*t.t'@t -1*1@t
entry 7 sum -1*a@1 +1*1@3 : +1*a@a -1*1@a
entry 8 sum -1*a'@0 +1*1@4 +1*a'@1 -1*t@1 -1*1@2 +2*1@1 : +1*t@a -2*1@a
entry 9 sum +1*1@5 -1*t'@8 : +2*t'@a -1*1@a
seal
live 1 1 11 equal a^2 = t a t^-1 : trivial
proof 1 +1*a@0 -1*a@1 -1*1@7
live 1 2 11 normal a : normal +1*1@a
live 1 3 11 trivial a t a t^-1 a^-1 t a^-1 t^-1 : trivial
proof 1 -1*a@0 +1*a@1 +1*1@0 +1*1@7 -1*1@1
end sealed
done
";

/// The report of a log that was asked while it grew, with two answers behind the end.
const GROWING: &str = "metab report 1
pres <a, b | a b a^-1 b^-1 a b a^-1 b^-1, a b a^-1 b^-1 a b a^-1 b^-1 a b a^-1 b^-1>
entry 0 gen + : +2*a@b -2*b@a -2*1@b +2*1@a
entry 1 gen + : +3*a@b -3*b@a -3*1@b +3*1@a
entry 2 gen + : +1*a.a'@a -1*1@a
entry 3 gen + : +1*a.a'@b -1*1@b
entry 4 gen + : +1*b.b'@a -1*1@a
entry 5 gen + : +1*b.b'@b -1*1@b
live 1 1 6 trivial a b a^-1 b^-1 : unknown 1
live 1 2 6 trivial a b a^-1 b^-1 : unknown 1
entry 6 sum +2*1@0 -1*1@1 : +1*a@b -1*b@a -1*1@b +1*1@a
live 1 3 7 trivial a b a^-1 b^-1 : trivial
proof 1 +1*1@6
entry 7 sum -1*a'@0 +2*1@3 : +2*a'.b@a +2*a'@b -2*a'@a -2*1@b
entry 8 sum +1*a'@1 -3*1@3 +2*1@7 : +1*a'.b@a +1*a'@b -1*a'@a -1*1@b
entry 9 sum -2*a'@4 +1*b'@7 : +2*a'.b'@b -2*a'.b'@a +2*a'@a -2*b'@b
entry 10 sum +1*a'@4 -1*b'@8 +1*1@9 : +1*a'.b'@b -1*a'.b'@a +1*a'@a -1*b'@b
seal
end sealed
close 1 1 trivial a b a^-1 b^-1 : trivial
proof 1 +1*1@6
close 1 2 trivial a b a^-1 b^-1 : trivial
proof 1 +1*1@6
done
";

fn line_of(alloc: Global, p: &Presentation, text: &[u8]) -> Result<u32, Fail> {
    match read_report(alloc, p, text) {
        Err(ReportFault::Line { line }) => Ok(line),
        Err(ReportFault::NoMemory) => Err("no memory".into()),
        Ok(_) => Ok(0),
    }
}

#[test]
fn a_report_is_read(rt: HostRuntime) -> Result<(), Fail> {
    let p = read_presentation(rt.alloc(), PRES.as_bytes())?;
    let Ok(data) = read_report(rt.alloc(), &p, TEXT.as_bytes()) else {
        return Err("no report".into());
    };
    let data: ReportData = data;
    assert_eq!(rt; (data.version, data.items), (1, 3));
    assert_eq!(rt; data.from.numbers(), [0, 1].as_slice());
    assert_eq!(rt; data.entries.entries().len(), 2);
    let replies = data.replies.replies();
    assert_eq!(rt; replies.len(), 6);
    assert_eq!(rt;
        (replies[1].session, replies[1].front, replies[1].live),
        (2, 1, true)
    );
    assert_eq!(rt;
        (replies[5].session, replies[5].front, replies[5].live),
        (1, 3, false)
    );
    assert_eq!(rt; replies[3].proofs.proofs().len(), 1);
    Ok(())
}

#[test]
fn the_first_line_that_cant_stand_is_named(rt: HostRuntime) -> Result<(), Fail> {
    let p = read_presentation(rt.alloc(), PRES.as_bytes())?;
    for (old, new, line) in [
        ("report 1", "report 2", 3),
        ("t a t^-1 a^-2>\n", "t a t^-1 a^-2> \n", 2),
        ("entry 1", "entry 2", 6),
        ("entry 0", "entry 00", 3),
        ("live 1 2 2", "live 1 3 2", 7),
        ("live 2 1 1", "live 0 1 1", 5),
        ("live 1 3 3", "live 1 3 2", 9),
        ("proof 1", "proof 2", 10),
        ("end sealed", "end full terms 4", 11),
        ("close 1 1 trivial a", "close 1 1 trivial t", 12),
        ("close 1 1", "close 1 2", 12),
        ("done\n", "done", 14),
        ("done\n", "", 14),
        ("done\n", "done\n\n", 15),
        ("seal\n", "seal\r\n", 8),
        ("normal a : stop", "normal \0 : stop", 7),
    ] {
        let text = TEXT.replacen(rt.alloc(), old, new, 1)?;
        let found = line_of(rt.alloc(), &p, text.as_bytes())?;
        assert_eq!(rt; found, line, "{new}");
    }
    Ok(())
}

#[test]
fn a_trimmed_report_is_read(rt: HostRuntime) -> Result<(), Fail> {
    let p = read_presentation(rt.alloc(), PRES.as_bytes())?;
    let Ok(data) = read_report(rt.alloc(), &p, TRIMMED.as_bytes()) else {
        return Err("no report".into());
    };
    assert_eq!(rt; (data.version, data.items), (2, 9));
    assert_eq!(rt; data.from.numbers(), [2, 5].as_slice());
    let entries = data.entries.entries();
    assert_eq!(rt; entries.len(), 2);
    let Recipe::Gen { number, negated } = entries[0].recipe else {
        return Err("no generator".into());
    };
    assert_eq!(rt; (number, negated), (2, true));
    let replies = data.replies.replies();
    assert_eq!(rt; replies.len(), 8);
    assert_eq!(rt; (replies[3].front, replies[7].front), (8, 9));
    Ok(())
}

#[test]
fn the_first_line_that_cant_stand_when_trimmed(rt: HostRuntime) -> Result<(), Fail> {
    let p = read_presentation(rt.alloc(), PRES.as_bytes())?;
    for (old, new, line) in [
        ("report 2", "report 3", 1),
        ("items 9", "items 09", 3),
        ("items 9", "items 8", 10),
        ("items 9", "items 10", 11),
        ("from 5", "from 2", 8),
        ("from 5", "from 4", 8),
        ("from 5", "from 8", 9),
        ("from 5", "from 9", 8),
        ("entry 1 from", "entry 2 from", 8),
        ("from 2 gen", "from 4 gen", 5),
        ("live 2 1 4", "live 2 1 3", 6),
        ("live 1 2 5", "live 1 2 4", 7),
        ("live 1 3 8", "live 1 3 9", 10),
        ("live 1 3 8", "live 1 3 5", 9),
        ("live 1 4 9", "live 1 4 8", 11),
        ("seal\n", "", 12),
        ("close 1 2 trivial a", "close 1 3 trivial a", 15),
        ("done\n", "done\n\n", 18),
    ] {
        let text = TRIMMED.replacen(rt.alloc(), old, new, 1)?;
        let found = line_of(rt.alloc(), &p, text.as_bytes())?;
        assert_eq!(rt; found, line, "{new}");
    }
    Ok(())
}

#[test]
fn written_reports_are_read(rt: HostRuntime) -> Result<(), Fail> {
    for (pres, text, entries, replies) in [
        (PRES, SEALED, 10, 3),
        ("<a, b | [a,b]^2, [a,b]^3>", GROWING, 11, 5),
    ] {
        let p = read_presentation(rt.alloc(), pres.as_bytes())?;
        let Ok(data) = read_report(rt.alloc(), &p, text.as_bytes()) else {
            return Err("no report".into());
        };
        assert_eq!(rt; data.entries.entries().len(), entries);
        assert_eq!(rt; data.replies.replies().len(), replies);
        assert_eq!(rt; data.items as usize, entries + 1);
    }
    Ok(())
}
