//! Texts under names, read whole.

ghost use Rattle.std.specs.Prelude.{◌≡◌, ℕ, ◌≤◌, List, length, IfOk, IfErr};
ghost use Rattle.mb_io.specs.Shelf.{CountRose};
ghost use Rattle.presentation.specs.Reading.{presentation_text};
ghost use Rattle.presentation.specs.Presented.{IsWritten};
ghost use Rattle.command_floor.specs.Files.{Loaded, FileGives, HasCause, Refuses, WordGives, in_lines, read_word};

use crate::PRESENTATION_BYTES;
use crate::answer::{Answer, Halt};
use free_words::Word;
use mb_io::{LoadFault, Shelf, read_all};
use presentation::{Presentation, read_presentation, read_word};
use std::alloc::Global;
use word_text::ReadFault;

/// The bytes under a name, at most so many, or the answer that says what is wrong with them.
pub fn load<S: Shelf>(alloc: Global, shelf: &mut S, name: &str, limit: u32) -> Result<Vec<u8>, Halt>
    ensures loaded { Loaded (CountRose (S.faults shelf.old) (S.faults shelf.new)) limit name.now
        (S.under shelf.old name.now) result }
    ensures cause { IfErr result (HasCause (CountRose (S.faults shelf.old) (S.faults shelf.new))) }
    ensures same { (n : List ℕ) → S.under shelf.new n ≡ S.under shelf.old n }
    ensures later { S.faults shelf.old ≤ S.faults shelf.new }
{
    match read_all(alloc, shelf, name, limit) {
        Ok(bytes) => Ok(bytes),
        Err(LoadFault::ReadFault) => Err(Halt::Says(Answer::unread(alloc, name)?)),
        Err(LoadFault::FileTooLong { at }) => Err(Halt::Says(Answer::too_long(alloc, name, at)?)),
        Err(LoadFault::NoMemory) => Err(Halt::NoMemory),
    }
}

/// The answer to what is wrong with a text.
pub fn refusal(alloc: Global, name: &str, fault: &ReadFault) -> Halt
    ensures refuses { Refuses name.now fault.now result }
    ensures cause { HasCause ⊥ result }
{
    match fault {
        ReadFault::NoMemory => Halt::NoMemory,
        ReadFault::Text(fault) => match Answer::refused(alloc, name, fault) {
            Ok(answer) => Halt::Says(answer),
            Err(_) => Halt::NoMemory,
        },
    }
}

/// The presentation under a name.
pub fn load_presentation<S: Shelf>(
    alloc: Global,
    shelf: &mut S,
    name: &str,
) -> Result<Presentation, Halt>
    ensures gives { FileGives (λ p. p) (CountRose (S.faults shelf.old) (S.faults shelf.new)) PRESENTATION_BYTES name.now
        (S.under shelf.old name.now) (in_lines presentation_text) result }
    ensures cause { IfErr result (HasCause (CountRose (S.faults shelf.old) (S.faults shelf.new))) }
    ensures same { (n : List ℕ) → S.under shelf.new n ≡ S.under shelf.old n }
    ensures later { S.faults shelf.old ≤ S.faults shelf.new }
{
    let text = load(alloc, shelf, name, PRESENTATION_BYTES)?;
    match read_presentation(alloc, &text) {
        Ok(p) => Ok(p),
        Err(fault) => Err(refusal(alloc, name, &fault)),
    }
}

/// The word of the command line, over a presentation.
pub fn command_word(alloc: Global, p: &Presentation, text: &str) -> Result<Word, Halt>
    ensures gives { WordGives (read_word p.now text.now) result }
    ensures cause { IfErr result (HasCause ⊥) }
    ensures over { IfOk result (λ w. IsWritten (length p.now.names) w) }
{
    match read_word(alloc, p, text.as_bytes()) {
        Ok(w) => Ok(w),
        Err(fault) => Err(refusal(alloc, "word", &fault)),
    }
}
