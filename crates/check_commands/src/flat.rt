//! The command `flat`: the flat certificate of a proof of a report.

ghost use Rattle.std.specs.Prelude.{◌≡◌, ◌≢◌, ℕ, ◌≤◌, List, Some, None, option_map, IfOk, IfErr, MatchOption};
ghost use Rattle.free_words.specs.declared.letter.Letter.{Letter};
ghost use Rattle.mb_io.specs.Shelf.{CountRose};
ghost use Rattle.flat_cert.specs.Texts.{IsCertificate, certificate_text};
ghost use Rattle.flat_making.specs.Checked.{IsShownBy, IsChecked};
ghost use Rattle.flat_making.specs.Making.{IsLog, IsProof};
ghost use Rattle.command_floor.specs.Files.{CommandEnd, HasCause};
ghost use Rattle.command_floor.specs.Parsing.{shown_given};
ghost use Rattle.check_commands.specs.Replies.{proof_in};
ghost use Rattle.check_commands.specs.Flat.{number, proof_number, no_proof, CertificateLeads, ProofLeads, FlatLeads};
ghost use Rattle.check_commands.specs.Flat.{flat_in, flat_asked, report_asked};
ghost use Rattle.check_commands.specs.Check.{AskedTrue};

use crate::faults::beyond;
use crate::replies::reply_to;
use crate::reports::load_report;
use crate::text_sink::TextSink;
use command_floor::{Answer, Given, Halt, Status, load_presentation, number_between};
use flat_cert::{Flat, FlatFault, write_flat};
use flat_making::flatten;
use mb_io::Shelf;
use module_vec::Step;
use presentation::Presentation;
use report_reading::{EntryData, ReplyData, ReportData};
use std::alloc::{AllocError, Global};
use step_lists::Steps;

/// The greatest number of a session, a question or a subject.
pub const MOST_NUMBER: u32 = 999_999_999;

/// Which proof is asked for: that of a subject of a question of a session, each by its number, from 1.
#[derive(Clone, Copy)]
pub struct ProofNumber {
    pub session: u32,
    pub question: u32,
    pub subject: u32,
}

/// What the command `flat` is asked: the names of a presentation and of a report, and which proof.
#[derive(Clone, Copy)]
pub struct FlatWords<'a> {
    pub presentation: &'a str,
    pub report: &'a str,
    pub proof: ProofNumber,
}

/// A number of a session, a question or a subject.
fn number(text: &str) -> Option<u32>
    ensures { result ≡ number text.now }
{
    number_between(text, 0, MOST_NUMBER)
}

/// The three numbers of a proof.
fn proof_number(session: &str, question: &str, subject: &str) -> Option<ProofNumber>
    ensures { result ≡ proof_number session.now question.now subject.now }
{
    let session = number(session)?;
    let question = number(question)?;
    let subject = number(subject)?;
    Some(ProofNumber {
        session,
        question,
        subject,
    })
}

/// What `flat` is asked by what is given behind its name, if that is of its form.
pub fn words<'a>(given: &Given<'a>) -> Option<FlatWords<'a>>
    ensures { option_map flat_asked result ≡ flat_in (shown_given given.now) }
{
    match given.words.as_slice() {
        [presentation, report, session, question, subject] => {
            let proof = proof_number(session, question, subject)?;
            Some(FlatWords {
                presentation,
                report,
                proof,
            })
        }
        _ => None,
    }
}

// The answer where there is no such proof.
fn no_proof(alloc: Global, at: &ProofNumber) -> Result<Answer, AllocError>
    ensures { IfOk result (λ a. a ≡ no_proof at.now) }
{
    let session = at.session;
    let question = at.question;
    let subject = at.subject;
    let text = format!(in alloc; "no proof {session} {question} {subject}\n")?;
    Ok(Answer::new(Status::Fails, text.into_bytes()))
}

// The text of a certificate.
fn text_of(alloc: Global, p: &Presentation, list: &[Flat]) -> Result<Vec<u8>, AllocError>
    requires { IsCertificate p.now list.now }
    ensures { IfOk result (λ text. text.items ≡ certificate_text p.now.names list.now) }
{
    let mut sink = TextSink::new(alloc);
    match write_flat(alloc, p, list, &mut sink) {
        Ok(()) => Ok(sink.into_text()),
        Err(_) => Err(AllocError),
    }
}

// The certificate of a proof by these entries, whatever it proves.
fn certificate(
    alloc: Global,
    p: &Presentation,
    entries: &[EntryData],
    proof: &[Step],
) -> Result<Answer, AllocError>
    requires log { IsLog p.now entries.now }
    requires proof { IsProof p.now entries.now proof.now }
    ensures leads { IfOk result (λ a. (w : List Letter) → IsShownBy p.now entries.now w proof.now
        → CertificateLeads p.now entries.now w proof.now a) }
    ensures read { IfOk result (λ a. a.status ≢ Status.ReadFault) }
{
    match flatten(alloc, p, entries, proof) {
        Ok(list) => Ok(Answer::new(Status::Done, text_of(alloc, p, &list)?)),
        Err(FlatFault::Beyond) => beyond(alloc),
        Err(FlatFault::NoMemory) => Err(AllocError),
    }
}

/// The proof that is asked for, if there is one.
fn proof_in<'r>(replies: &'r [ReplyData], at: &ProofNumber) -> Option<&'r Steps>
    ensures { MatchOption result (proof_in at.now replies.now ≡ None)
        (λ s. (w : List Letter) × (proof_in at.now replies.now ≡ Some (w, s.now))) }
{
    let reply = reply_to(replies, at.session, at.question)?;
    let place = at.subject.checked_sub(1)? as usize;
    reply.proofs.proofs().get(place)
}

// What is made of the proof that is asked for.
fn shown(
    alloc: Global,
    p: &Presentation,
    report: &ReportData,
    at: &ProofNumber,
) -> Result<Answer, AllocError>
    requires { IsChecked p.now report.now }
    ensures leads { IfOk result (ProofLeads p.now at.now report.now) }
    ensures read { IfOk result (λ a. a.status ≢ Status.ReadFault) }
{
    match proof_in(report.replies.replies(), at) {
        Some(proof) => certificate(alloc, p, report.entries.entries(), proof.steps()),
        None => no_proof(alloc, at),
    }
}

/// The answer to `flat` over these texts.
pub fn answer<S: Shelf>(alloc: Global, shelf: &mut S, words: &FlatWords) -> Result<Answer, Halt>
    ensures exact { CommandEnd (FlatLeads (CountRose (S.faults shelf.old) (S.faults shelf.new)) (S.under shelf.old)
        (flat_asked words.now)) result }
    ensures true_report { IfOk result (λ a. a.status ≡ Status.Done
        → AskedTrue (S.under shelf.old) (report_asked (flat_asked words.now))) }
    ensures read { IfOk result (λ a. a.status ≢ Status.ReadFault) }
    ensures cause { IfErr result (HasCause (CountRose (S.faults shelf.old) (S.faults shelf.new))) }
    ensures same { (n : List ℕ) → S.under shelf.new n ≡ S.under shelf.old n }
    ensures later { S.faults shelf.old ≤ S.faults shelf.new }
{
    let p = load_presentation(alloc, shelf, words.presentation)?;
    let report = load_report(alloc, shelf, &p, words.report)?;
    let answer = shown(alloc, &p, &report, &words.proof)?;
    Ok(answer)
}
