//! Lines with their texts, and texts that are none.

ghost use Rattle.std.specs.Prelude.{IfOk};
ghost use Rattle.report_lines.specs.Lines.{LineIsOver};
ghost use Rattle.report_lines.specs.Trimmed.{TrimmedIsOver};

use super::{
    Line, TrimmedLine, is_pres_line, is_title, is_trimmed_title, put_items_line, read_items_line,
    read_line, read_trimmed_line, write_line, write_trimmed_line,
};
use crate::laws::{line_is_over, trimmed_line_is_over};
use outcomes::Verdict;
use presentation::{Presentation, read_presentation};
use std::alloc::Global;
use std::test::Fail;

/// The line of the text, which can be written again.
fn line_of(alloc: Global, p: &Presentation, text: &str) -> Result<Line, Fail>
    ensures { IfOk result (λ line. LineIsOver p.now line) }
{
    line_is_over();
    match read_line(alloc, p, text.as_bytes())? {
        Some(line) => Ok(line),
        None => Err(Fail::from("no line")),
    }
}

/// What is written of the line of the text.
fn written(alloc: Global, p: &Presentation, text: &str) -> Result<Vec<u8>, Fail> {
    let line = line_of(alloc, p, text)?;
    Ok(write_line(alloc, p, &line)?)
}

const PRES: &str = "<a, t | t a t^-1 a^-2>";

#[test]
fn lines_are_read_and_written(rt: HostRuntime) -> Result<(), Fail> {
    let p = read_presentation(rt.alloc(), PRES.as_bytes())?;
    for text in [
        "entry 0 gen - : +1*a@t +1*a'@a -1*t@a -1*1@t +1*1@a",
        "entry 9 sum +1*1@5 -1*t'@8 : +2*t'@a -1*1@a",
        "seal",
        "live 1 2 11 normal a : normal +1*1@a",
        "proof 1 +1*a@0 -1*a@1 -1*1@7",
        "end stopped 3 12 G long 100000 50001",
        "end full terms 65537",
        "close 1 1 hom <s | s^2, s> -> a t^-1 : fails 2",
        "done",
    ] {
        let out = written(rt.alloc(), &p, text)?;
        assert_eq!(rt; out.as_slice(), text.as_bytes(), "{text}");
    }
    Ok(())
}

#[test]
fn a_line_holds_what_it_says(rt: HostRuntime) -> Result<(), Fail> {
    let p = read_presentation(rt.alloc(), PRES.as_bytes())?;
    let line = read_line(rt.alloc(), &p, b"live 2 3 11 normal a : unknown 1")?.ok_or("live")?;
    let Line::Live {
        session,
        number,
        front,
        verdict: Verdict::Unknown { subject },
        ..
    } = line
    else {
        return Err("not an unknown subject".into());
    };
    assert_eq!(rt; (session, number), (2, 3));
    assert_eq!(rt; (front, subject), (11, 1));
    Ok(())
}

#[test]
fn other_texts_are_no_lines(rt: HostRuntime) -> Result<(), Fail> {
    let p = read_presentation(rt.alloc(), PRES.as_bytes())?;
    for text in [
        "",
        "seal ",
        "end  sealed",
        "end stopped 4294967296 2 S deep",
        "entry 0 gen + :+1*a'@a -1*1@a",
        "entry 00 gen + : +1*a'@a -1*1@a",
        "live 1 1 11 normal a: normal +1*1@a",
        "live 1 1 11 trivial a : extends",
        "live 1 1 11 trivial a : unknown 2",
    ] {
        let line = read_line(rt.alloc(), &p, text.as_bytes())?;
        assert!(rt; line.is_none(), "{text}");
    }
    Ok(())
}

#[test]
fn heads(rt: HostRuntime) -> Result<(), Fail> {
    let p = read_presentation(rt.alloc(), b"<a,b|[a,b]> modulus 2")?;
    assert!(rt; is_title(b"metab report 1"));
    assert!(rt; !is_title(b"metab report 2"));
    assert!(rt; is_pres_line(rt.alloc(), &p, b"pres <a, b | a b a^-1 b^-1> modulus 2")?);
    assert!(rt; !is_pres_line(rt.alloc(), &p, b"pres <a, b | a b a^-1 b^-1>")?);
    Ok(())
}

/// The line of a trimmed report that the text spells, which can be written again.
fn trimmed_line_of(alloc: Global, p: &Presentation, text: &str) -> Result<TrimmedLine, Fail>
    ensures { IfOk result (λ line. TrimmedIsOver p.now line) }
{
    trimmed_line_is_over();
    match read_trimmed_line(alloc, p, text.as_bytes())? {
        Some(line) => Ok(line),
        None => Err(Fail::from("no line")),
    }
}

#[test]
fn lines_of_trimmed_reports(rt: HostRuntime) -> Result<(), Fail> {
    let p = read_presentation(rt.alloc(), PRES.as_bytes())?;
    for text in [
        "entry 0 from 0 gen - : +1*a@t +1*a'@a -1*t@a -1*1@t +1*1@a",
        "entry 3 from 7 sum -1*a@1 +1*1@2 : +1*a@a -1*1@a",
        "live 1 2 11 normal a : normal +1*1@a",
        "done",
    ] {
        let line = trimmed_line_of(rt.alloc(), &p, text)?;
        let out = write_trimmed_line(rt.alloc(), &p, &line)?;
        assert_eq!(rt; out.as_slice(), text.as_bytes(), "{text}");
    }
    for text in [
        "entry 0 gen + : +1*a'@a -1*1@a",
        "entry 0 from gen + : +1*a'@a -1*1@a",
        "entry 0 from 01 gen + : +1*a'@a -1*1@a",
        "entry 0  from 1 gen + : +1*a'@a -1*1@a",
        "entry 0 from 1 gen +: +1*a'@a -1*1@a",
        "seal 1",
    ] {
        let line = read_trimmed_line(rt.alloc(), &p, text.as_bytes())?;
        assert!(rt; line.is_none(), "{text}");
    }
    Ok(())
}

#[test]
fn heads_of_trimmed_reports(rt: HostRuntime) -> Result<(), Fail> {
    assert!(rt; is_trimmed_title(b"metab report 2"));
    assert!(rt; !is_trimmed_title(b"metab report 1"));
    assert!(rt; read_items_line(b"items 11") == Some(11));
    assert!(rt; read_items_line(b"items 011").is_none());
    assert!(rt; read_items_line(b"items").is_none());
    let mut out = Vec::new(rt.alloc());
    put_items_line(&mut out, 4_294_967_295)?;
    assert_eq!(rt; out.as_slice(), b"items 4294967295".as_slice());
    Ok(())
}
