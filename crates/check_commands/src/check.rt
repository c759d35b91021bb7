//! The command `check`: whether the entries and proofs of a report hold.

ghost use Rattle.std.specs.Prelude.{◌≡◌, ◌≢◌, ◌++◌, ℕ, ◌≤◌, List, length, option_map, IfOk, IfErr, IsOk, OnOk};
ghost use Rattle.mb_io.specs.Shelf.{CountRose};
ghost use Rattle.vector_text.specs.Over.{PlaceIsOver};
ghost use Rattle.vector_text.specs.Spelling.{place_text};
ghost use Rattle.cert_checker.specs.Faults.{KindIsOver, FaultIsOver};
ghost use Rattle.command_floor.specs.Files.{CommandEnd, HasCause};
ghost use Rattle.command_floor.specs.Parsing.{shown_given};
ghost use Rattle.check_commands.specs.Check.{cert_text, holds, fails, ShowsCheck, CheckLeads, AskedTrue};
ghost use Rattle.check_commands.specs.Check.{check_in, check_asked};

use crate::REPORT_BYTES;
use cert_checker::{CertFault, CertKind, Checked};
use command_floor::{Answer, Given, Halt, Status, load, load_presentation};
use mb_io::Shelf;
use module_vec::Place;
use presentation::Presentation;
use std::alloc::{AllocError, Global};
use vector_text::put_place;

/// What the command `check` is asked: the names of a presentation and of a report.
#[derive(Clone, Copy)]
pub struct CheckWords<'a> {
    pub presentation: &'a str,
    pub report: &'a str,
}

/// What `check` is asked by what is given behind its name, if that is of its form.
pub fn words<'a>(given: &Given<'a>) -> Option<CheckWords<'a>>
    ensures { option_map check_asked result ≡ check_in (shown_given given.now) }
{
    match given.words.as_slice() {
        [presentation, report] => Some(CheckWords {
            presentation,
            report,
        }),
        _ => None,
    }
}

// Puts a kind's name and its place at the end.
fn put_named(out: &mut Vec<u8>, p: &Presentation, name: &str, at: &Place) -> Result<(), AllocError>
    requires { PlaceIsOver (length p.now.names) at.now }
    ensures { OnOk result (out.new.items ≡ out.old.items ++ (name.now ++ place_text p.now.names at.now)) }
{
    out.extend_from_slice(name.as_bytes())?;
    put_place(out, p, at)
}

// Puts the name of a kind of fault at the end.
fn put_kind(out: &mut Vec<u8>, p: &Presentation, kind: &CertKind) -> Result<(), AllocError>
    requires { KindIsOver (length p.now.names) kind.now }
    ensures { OnOk result (out.new.items ≡ out.old.items ++ cert_text p.now.names kind.now) }
{
    match kind {
        CertKind::Text => out.extend_from_slice(b"text"),
        CertKind::NoEntry => out.extend_from_slice(b"no-entry"),
        CertKind::NotEqual { at } => put_named(out, p, "not-equal ", at),
        CertKind::NotZero { at } => put_named(out, p, "not-zero ", at),
        CertKind::Wide => out.extend_from_slice(b"wide"),
        CertKind::Long => out.extend_from_slice(b"long"),
    }
}

/// The answer where a line fails.
pub(crate) fn failing(
    alloc: Global,
    p: &Presentation,
    line: u32,
    kind: &CertKind,
) -> Result<Answer, AllocError>
    requires { KindIsOver (length p.now.names) kind.now }
    ensures { IfOk result (λ a. a ≡ fails p.now.names line kind.now) }
{
    let mut text = format!(in alloc; "fails line {line} ")?.into_bytes();
    put_kind(&mut text, p, kind)?;
    text.push(b'\n')?;
    Ok(Answer::new(Status::Fails, text))
}

// The answer where the report holds.
fn holding(alloc: Global, checked: &Checked) -> Result<Answer, AllocError>
    ensures { IfOk result (λ a. a ≡ holds checked.now) }
{
    let entries = checked.entries;
    let proofs = checked.proofs;
    let text = format!(in alloc; "holds entries {entries} proofs {proofs}\n")?;
    Ok(Answer::new(Status::Done, text.into_bytes()))
}

// What the checker found.
fn shown(
    alloc: Global,
    p: &Presentation,
    found: &Result<Checked, CertFault>,
) -> Result<Answer, AllocError>
    requires { IfErr found.now (FaultIsOver (length p.now.names)) }
    ensures shows { IfOk result (ShowsCheck p.now found.now) }
    ensures done { IfOk result (λ a. a.status ≡ Status.Done → IsOk found.now) }
    ensures read { IfOk result (λ a. a.status ≢ Status.ReadFault) }
{
    match found {
        Ok(checked) => holding(alloc, checked),
        Err(CertFault::Line { line, kind }) => failing(alloc, p, *line, kind),
        Err(CertFault::NoMemory) => Err(AllocError),
    }
}

/// The answer to `check` over these texts.
pub fn answer<S: Shelf>(alloc: Global, shelf: &mut S, words: &CheckWords) -> Result<Answer, Halt>
    ensures exact { CommandEnd (CheckLeads (CountRose (S.faults shelf.old) (S.faults shelf.new)) (S.under shelf.old)
        (check_asked words.now)) result }
    ensures true_report { IfOk result (λ a. a.status ≡ Status.Done
        → AskedTrue (S.under shelf.old) (check_asked words.now)) }
    ensures read { IfOk result (λ a. a.status ≢ Status.ReadFault) }
    ensures cause { IfErr result (HasCause (CountRose (S.faults shelf.old) (S.faults shelf.new))) }
    ensures same { (n : List ℕ) → S.under shelf.new n ≡ S.under shelf.old n }
    ensures later { S.faults shelf.old ≤ S.faults shelf.new }
{
    let p = load_presentation(alloc, shelf, words.presentation)?;
    let text = load(alloc, shelf, words.report, REPORT_BYTES)?;
    let found = cert_checker::check(alloc, &p, &text);
    let answer = shown(alloc, &p, &found)?;
    Ok(answer)
}
