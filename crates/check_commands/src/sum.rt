//! The command `sum`: whether a flat certificate shows that a word is trivial.

ghost use Rattle.std.specs.Prelude.{◌≡◌, ◌≢◌, ◌++◌, ℕ, ◌≤◌, List, length, option_map, IfOk, IfErr, IsOk};
ghost use Rattle.mb_io.specs.Shelf.{CountRose};
ghost use Rattle.vector_text.specs.Over.{PlaceIsOver};
ghost use Rattle.vector_text.specs.Spelling.{place_text};
ghost use Rattle.flat_cert.specs.Checking.{FaultIsOver};
ghost use Rattle.flat_cert.specs.Texts.{IsCertificate};
ghost use Rattle.command_floor.specs.Files.{CommandEnd, HasCause};
ghost use Rattle.command_floor.specs.Parsing.{shown_given};
ghost use Rattle.check_commands.specs.Sum.{not_zero, RefusesCertificate, GivesCertificate, LoadsCertificate, ShowsSum};
ghost use Rattle.check_commands.specs.Sum.{SumLeads, AskedTrivial, sum_in, sum_asked};

use crate::CERTIFICATE_BYTES;
use crate::faults::{beyond, refusing_line};
use command_floor::{Answer, Given, Halt, Status, command_word, load, load_presentation};
use flat_cert::{Flat, FlatSumFault, FlatTextFault, check_flat, read_flat};
use mb_io::Shelf;
use module_vec::Place;
use presentation::Presentation;
use std::alloc::{AllocError, Global};
use vector_text::put_place;

/// What the command `sum` is asked: the name of a presentation, a word, and the name of a flat certificate.
#[derive(Clone, Copy)]
pub struct SumWords<'a> {
    pub presentation: &'a str,
    pub word: &'a str,
    pub certificate: &'a str,
}

/// What `sum` is asked by what is given behind its name, if that is of its form.
pub fn words<'a>(given: &Given<'a>) -> Option<SumWords<'a>>
    ensures { option_map sum_asked result ≡ sum_in (shown_given given.now) }
{
    match given.words.as_slice() {
        [presentation, word, certificate] => Some(SumWords {
            presentation,
            word,
            certificate,
        }),
        _ => None,
    }
}

// A line of the text under this name can't stand in a certificate.
fn refusing(alloc: Global, name: &str, fault: FlatTextFault) -> Halt
    ensures refuses { RefusesCertificate name.now fault result }
    ensures cause { HasCause ⊥ result }
{
    match fault {
        FlatTextFault::Line { line } => refusing_line(alloc, name, line, "flat"),
        FlatTextFault::NoMemory => Halt::NoMemory,
    }
}

// The certificate over the presentation whose text this is.
fn certificate_of(
    alloc: Global,
    p: &Presentation,
    name: &str,
    text: &[u8],
) -> Result<Vec<Flat>, Halt>
    ensures gives { GivesCertificate p.now name.now text.now result }
    ensures certificate { IfOk result (λ list. IsCertificate p.now list.items) }
    ensures cause { IfErr result (HasCause ⊥) }
{
    match read_flat(alloc, p, text) {
        Ok(list) => Ok(list),
        Err(fault) => Err(refusing(alloc, name, fault)),
    }
}

/// The certificate under a name, over a presentation.
fn load_certificate<S: Shelf>(
    alloc: Global,
    shelf: &mut S,
    p: &Presentation,
    name: &str,
) -> Result<Vec<Flat>, Halt>
    ensures gives { LoadsCertificate p.now (CountRose (S.faults shelf.old) (S.faults shelf.new)) name.now
        (S.under shelf.old name.now) result }
    ensures certificate { IfOk result (λ list. IsCertificate p.now list.items) }
    ensures cause { IfErr result (HasCause (CountRose (S.faults shelf.old) (S.faults shelf.new))) }
    ensures same { (n : List ℕ) → S.under shelf.new n ≡ S.under shelf.old n }
    ensures later { S.faults shelf.old ≤ S.faults shelf.new }
{
    let text = load(alloc, shelf, name, CERTIFICATE_BYTES)?;
    certificate_of(alloc, p, name, &text)
}

// The answer where the word's vector and the sum differ, at the place and not above it.
fn differing(alloc: Global, p: &Presentation, at: &Place) -> Result<Answer, AllocError>
    requires { PlaceIsOver (length p.now.names) at.now }
    ensures { IfOk result (λ a. a ≡ not_zero p.now.names at.now) }
{
    let mut text = Vec::from_slice(alloc, b"not-zero ")?;
    put_place(&mut text, p, at)?;
    text.push(b'\n')?;
    Ok(Answer::new(Status::Fails, text))
}

// What the check found.
fn shown(
    alloc: Global,
    p: &Presentation,
    found: &Result<(), FlatSumFault>,
) -> Result<Answer, AllocError>
    requires { IfErr found.now (FaultIsOver (length p.now.names)) }
    ensures shows { IfOk result (ShowsSum p.now found.now) }
    ensures done { IfOk result (λ a. a.status ≡ Status.Done → IsOk found.now) }
    ensures read { IfOk result (λ a. a.status ≢ Status.ReadFault) }
{
    match found {
        Ok(()) => {
            let text = String::from_str(alloc, "trivial\n")?;
            Ok(Answer::new(Status::Done, text.into_bytes()))
        }
        Err(FlatSumFault::NotZero { at }) => differing(alloc, p, at),
        Err(FlatSumFault::Beyond) => beyond(alloc),
        Err(FlatSumFault::NoMemory) => Err(AllocError),
    }
}

/// The answer to `sum` over these texts.
pub fn answer<S: Shelf>(alloc: Global, shelf: &mut S, words: &SumWords) -> Result<Answer, Halt>
    ensures exact { CommandEnd (SumLeads (CountRose (S.faults shelf.old) (S.faults shelf.new)) (S.under shelf.old)
        (sum_asked words.now)) result }
    ensures trivial { IfOk result (λ a. a.status ≡ Status.Done
        → AskedTrivial (S.under shelf.old) (sum_asked words.now)) }
    ensures read { IfOk result (λ a. a.status ≢ Status.ReadFault) }
    ensures cause { IfErr result (HasCause (CountRose (S.faults shelf.old) (S.faults shelf.new))) }
    ensures same { (n : List ℕ) → S.under shelf.new n ≡ S.under shelf.old n }
    ensures later { S.faults shelf.old ≤ S.faults shelf.new }
{
    let p = load_presentation(alloc, shelf, words.presentation)?;
    let w = command_word(alloc, &p, words.word)?;
    let list = load_certificate(alloc, shelf, &p, words.certificate)?;
    let found = check_flat(alloc, &p, &w, &list);
    let answer = shown(alloc, &p, &found)?;
    Ok(answer)
}
