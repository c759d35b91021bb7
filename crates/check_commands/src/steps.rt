//! The command `steps`: whether a derivation carries a word to the empty word.

ghost use Rattle.std.specs.Prelude.{◌≡◌, ◌≢◌, ℕ, ◌≤◌, List, length, option_map, IfOk, IfErr, IsOk, All};
ghost use Rattle.mb_io.specs.Shelf.{CountRose};
ghost use Rattle.derivation.specs.Making.{StepsGive, IsInsertOver};
ghost use Rattle.derivation.specs.Reading.{derivation_text};
ghost use Rattle.command_floor.specs.Files.{CommandEnd, FileGives, HasCause};
ghost use Rattle.command_floor.specs.Parsing.{shown_given};
ghost use Rattle.check_commands.specs.Steps.{reason_text, trivial, Shows, StepsLead, AskedTrivial};
ghost use Rattle.check_commands.specs.Steps.{steps_in, steps_asked};

use crate::DERIVATION_BYTES;
use command_floor::{Answer, Given, Halt, Status, command_word, load, load_presentation, refusal};
use derivation::{Move, MoveReason, StepsFault, check_steps, read_derivation};
use mb_io::Shelf;
use presentation::Presentation;
use std::alloc::{AllocError, Global};

/// What the command `steps` is asked: the name of a presentation, a word, and the name of a derivation.
#[derive(Clone, Copy)]
pub struct StepsWords<'a> {
    pub presentation: &'a str,
    pub word: &'a str,
    pub derivation: &'a str,
}

/// What `steps` is asked by what is given behind its name, if that is of its form.
pub fn words<'a>(given: &Given<'a>) -> Option<StepsWords<'a>>
    ensures { option_map steps_asked result ≡ steps_in (shown_given given.now) }
{
    match given.words.as_slice() {
        [presentation, word, derivation] => Some(StepsWords {
            presentation,
            word,
            derivation,
        }),
        _ => None,
    }
}

/// The derivation under a name, over a presentation.
fn load_derivation<S: Shelf>(
    alloc: Global,
    shelf: &mut S,
    p: &Presentation,
    name: &str,
) -> Result<Vec<Move>, Halt>
    ensures gives { FileGives (λ moves. moves.items) (CountRose (S.faults shelf.old) (S.faults shelf.new))
        DERIVATION_BYTES name.now (S.under shelf.old name.now) (derivation_text p.now) result }
    ensures cause { IfErr result (HasCause (CountRose (S.faults shelf.old) (S.faults shelf.new))) }
    ensures over { IfOk result (λ moves. All (λ m. IsInsertOver p.now m.what) moves.items) }
    ensures same { (n : List ℕ) → S.under shelf.new n ≡ S.under shelf.old n }
    ensures later { S.faults shelf.old ≤ S.faults shelf.new }
{
    let text = load(alloc, shelf, name, DERIVATION_BYTES)?;
    match read_derivation(alloc, p, &text) {
        Ok(moves) => Ok(moves),
        Err(fault) => Err(refusal(alloc, name, &fault)),
    }
}

// The name of a reason in an answer.
fn reason_text(reason: MoveReason) -> &'static str
    ensures { result.now ≡ reason_text reason }
{
    match reason {
        MoveReason::Place => "place",
        MoveReason::NoRelator => "no-relator",
        MoveReason::NoModulus => "no-modulus",
        MoveReason::NotThere => "not-there",
        MoveReason::TooLong => "too-long",
    }
}

// What the moves made of the word.
fn shown(alloc: Global, made: Result<(), StepsFault>) -> Result<Answer, AllocError>
    ensures shows { IfOk result (λ a. Shows made a) }
    ensures done { IfOk result (λ a. a.status ≡ Status.Done → IsOk made) }
    ensures read { IfOk result (λ a. a.status ≢ Status.ReadFault) }
{
    let (status, text) = match made {
        Ok(()) => (Status::Done, String::from_str(alloc, "trivial\n")?),
        Err(StepsFault::BadMove { number, reason }) => {
            let reason = reason_text(reason);
            (
                Status::Fails,
                format!(in alloc; "bad move {number} {reason}\n")?,
            )
        }
        Err(StepsFault::NotEmpty { left }) => {
            (Status::Fails, format!(in alloc; "not-empty {left}\n")?)
        }
        Err(StepsFault::NoMemory) => return Err(AllocError),
    };
    Ok(Answer::new(status, text.into_bytes()))
}

/// The answer to `steps` over these texts.
pub fn answer<S: Shelf>(alloc: Global, shelf: &mut S, words: &StepsWords) -> Result<Answer, Halt>
    ensures exact { CommandEnd (StepsLead (CountRose (S.faults shelf.old) (S.faults shelf.new)) (S.under shelf.old)
        (steps_asked words.now)) result }
    ensures trivial { IfOk result (λ a. a.status ≡ Status.Done
        → AskedTrivial (S.under shelf.old) (steps_asked words.now)) }
    ensures read { IfOk result (λ a. a.status ≢ Status.ReadFault) }
    ensures cause { IfErr result (HasCause (CountRose (S.faults shelf.old) (S.faults shelf.new))) }
    ensures same { (n : List ℕ) → S.under shelf.new n ≡ S.under shelf.old n }
    ensures later { S.faults shelf.old ≤ S.faults shelf.new }
{
    let p = load_presentation(alloc, shelf, words.presentation)?;
    let w = command_word(alloc, &p, words.word)?;
    let moves = load_derivation(alloc, shelf, &p, words.derivation)?;
    let answer = shown(alloc, check_steps(alloc, &p, &w, &moves))?;
    Ok(answer)
}
