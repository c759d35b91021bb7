//! The command `fox`: the freely reduced form of a word, and its Fox vector.

ghost use Rattle.std.specs.Prelude.{◌≡◌, ◌≢◌, ℕ, ◌≤◌, List, length, option_map, IfOk, IfErr};
ghost use Rattle.mb_io.specs.Shelf.{CountRose};
ghost use Rattle.presentation.specs.Presented.{IsWritten};
ghost use Rattle.command_floor.specs.Files.{CommandEnd, HasCause};
ghost use Rattle.command_floor.specs.Parsing.{shown_given};
ghost use Rattle.check_commands.specs.Fox.{ShowsFox, FoxLeads, fox_in, fox_asked};

use command_floor::{Answer, Given, Halt, Status, command_word, load_presentation};
use free_words::Word;
use mb_io::Shelf;
use presentation::{Presentation, write_word};
use std::alloc::{AllocError, Global};
use vector_text::put_vector;

/// What the command `fox` is asked: the name of a presentation, and a word.
#[derive(Clone, Copy)]
pub struct FoxWords<'a> {
    pub presentation: &'a str,
    pub word: &'a str,
}

/// What `fox` is asked by what is given behind its name, if that is of its form.
pub fn words<'a>(given: &Given<'a>) -> Option<FoxWords<'a>>
    ensures { option_map fox_asked result ≡ fox_in (shown_given given.now) }
{
    match given.words.as_slice() {
        [presentation, word] => Some(FoxWords { presentation, word }),
        _ => None,
    }
}

// The two lines of a word.
fn shown(alloc: Global, p: &Presentation, w: &Word) -> Result<Answer, AllocError>
    requires { IsWritten (length p.now.names) w.now }
    ensures shows { IfOk result (ShowsFox p.now w.now) }
    ensures read { IfOk result (λ a. a.status ≢ Status.ReadFault) }
{
    let reduced = w.reduce(alloc)?;
    let vector = fox_calculus::fox(alloc, p, w)?;
    let mut text = Vec::from_slice(alloc, b"word ")?;
    text.extend_from_slice(&write_word(alloc, p, &reduced)?)?;
    text.extend_from_slice(b"\nfox ")?;
    put_vector(&mut text, p, &vector)?;
    text.push(b'\n')?;
    Ok(Answer::new(Status::Done, text))
}

/// The answer to `fox` over these texts.
pub fn answer<S: Shelf>(alloc: Global, shelf: &mut S, words: &FoxWords) -> Result<Answer, Halt>
    ensures exact { CommandEnd (FoxLeads (CountRose (S.faults shelf.old) (S.faults shelf.new)) (S.under shelf.old)
        (fox_asked words.now)) result }
    ensures read { IfOk result (λ a. a.status ≢ Status.ReadFault) }
    ensures cause { IfErr result (HasCause (CountRose (S.faults shelf.old) (S.faults shelf.new))) }
    ensures same { (n : List ℕ) → S.under shelf.new n ≡ S.under shelf.old n }
    ensures later { S.faults shelf.old ≤ S.faults shelf.new }
{
    let p = load_presentation(alloc, shelf, words.presentation)?;
    let w = command_word(alloc, &p, words.word)?;
    let answer = shown(alloc, &p, &w)?;
    Ok(answer)
}
