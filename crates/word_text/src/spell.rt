//! The letters of a word of a straight-line program, written out from left to right.

ghost use Rattle.std.specs.Prelude.{◌≡◌, ◌≤◌, ◌++◌, ◌∷◌, length, replicate, IfOk, OnOk};
ghost use Rattle.word_text.specs.Program.{word_of};
ghost use Rattle.word_text.specs.Spell.{letters_now, parts, task};

use crate::program::{Line, Program};
use free_words::{Letter, Word};
use std::alloc::{AllocError, Global};
use std::collections::VecDeque;

/// A word that is still to be written, or its inverse.
#[derive(Clone, Copy, Debug, PartialEq, Eq)]
pub struct Task {
    pub word: usize,
    pub inverted: bool,
}

/// The letters of a word of the program. It takes time in proportion to their number.
pub fn spelled(alloc: Global, program: &Program, word: usize) -> Result<Word, AllocError>
    requires { word ≤ length program.now }
    ensures { IfOk result (λ w. w ≡ word_of program.now word) }
{
    let mut letters = Vec::with_capacity(alloc, program.letters_of(word) as usize)?;
    let mut tasks = VecDeque::new(alloc);
    tasks.push_front(Task {
        word,
        inverted: false,
    })?;
    while let Some(task) = tasks.pop_front() {
        if let Some(line) = program.line(task.word) {
            write(line, task.inverted, &mut letters, &mut tasks)?;
        }
    }
    Ok(Word::of(letters))
}

/// Writes the letter of a line, or puts the parts of its word first among the tasks.
fn write(
    line: Line,
    inverted: bool,
    letters: &mut Vec<Letter>,
    tasks: &mut VecDeque<Task>,
) -> Result<(), AllocError>
    ensures letters { OnOk result (letters.new.items ≡ letters.old.items ++ letters_now inverted line) }
    ensures tasks { OnOk result (tasks.new.items ≡ parts inverted line ++ tasks.old.items) }
{
    match line {
        Line::Letter(l) => letters.push(if inverted { l.flip() } else { l })?,
        Line::Product(u, v) => put_product(u, v, inverted, tasks)?,
        Line::Power(base, raise) => {
            let turned = if raise.negative { !inverted } else { inverted };
            put_copies(raise.times, base, turned, tasks)?
        }
        Line::Commutator(u, v) => put_commutator(u, v, inverted, tasks)?,
    }
    Ok(())
}

fn put(word: usize, inverted: bool, tasks: &mut VecDeque<Task>) -> Result<(), AllocError>
    ensures { OnOk result (tasks.new.items ≡ task word inverted ∷ tasks.old.items) }
{
    tasks.push_front(Task { word, inverted })?;
    Ok(())
}

fn put_product(
    u: usize,
    v: usize,
    inverted: bool,
    tasks: &mut VecDeque<Task>,
) -> Result<(), AllocError>
    ensures { OnOk result (tasks.new.items ≡ parts inverted (Line.Product u v) ++ tasks.old.items) }
{
    if inverted {
        put(u, true, tasks)?;
        put(v, true, tasks)
    } else {
        put(v, false, tasks)?;
        put(u, false, tasks)
    }
}

fn put_copies(
    times: u32,
    word: usize,
    inverted: bool,
    tasks: &mut VecDeque<Task>,
) -> Result<(), AllocError>
    ensures { OnOk result (tasks.new.items ≡ replicate times (task word inverted) ++ tasks.old.items) }
{
    for _i in 0..times {
        put(word, inverted, tasks)?;
    }
    Ok(())
}

fn put_commutator(
    u: usize,
    v: usize,
    inverted: bool,
    tasks: &mut VecDeque<Task>,
) -> Result<(), AllocError>
    ensures { OnOk result (tasks.new.items ≡ parts inverted (Line.Commutator u v) ++ tasks.old.items) }
{
    if inverted {
        put(u, true, tasks)?;
        put(v, true, tasks)?;
        put(u, false, tasks)?;
        put(v, false, tasks)
    } else {
        put(v, true, tasks)?;
        put(u, true, tasks)?;
        put(v, false, tasks)?;
        put(u, false, tasks)
    }
}
