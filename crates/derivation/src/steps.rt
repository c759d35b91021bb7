//! One move on a word, and a list of moves that is to carry a word to the empty word.

ghost use Rattle.std.specs.Prelude.{◌<◌, ◌^◌, Err, All, OnOk, IfErr};
ghost use Rattle.derivation.specs.Moves.{Trivial};
ghost use Rattle.derivation.specs.Making.{IsInsertOver, MoveGives, Runs, StepsGive, IsAtMove};

use crate::moves::{Move, MoveFault, StepsFault};
use crate::moving::MovingWord;
use free_words::Word;
use presentation::Presentation;
use std::alloc::Global;

/// The word after one move, or the first reason against the move.
pub fn apply(alloc: Global, p: &Presentation, w: &Word, m: &Move) -> Result<Word, MoveFault>
    requires { IsInsertOver p.now m.now.what }
    ensures { MoveGives p.now w.now m.now result }
{
    let mut moving = MovingWord::new(alloc, w)?;
    moving.make(p, m)?;
    Ok(moving.into_word())
}

/// Makes the moves one after another. Where they carry the word to the empty word, the word is trivial.
pub fn check_steps(
    alloc: Global,
    p: &Presentation,
    w: &Word,
    moves: &[Move],
) -> Result<(), StepsFault>
    requires { All (λ m. IsInsertOver p.now m.what) moves.now }
    ensures exact { StepsGive p.now w.now moves.now result }
    ensures trivial { OnOk result (Trivial p.now w.now) }
{
    let mut moving = MovingWord::new(alloc, w)?;
    make_all(&mut moving, p, moves)?;
    match moving.len() {
        0 => Ok(()),
        left => Err(StepsFault::NotEmpty { left }),
    }
}

/// Makes the moves one after another, up to the first that can't be made.
fn make_all(moving: &mut MovingWord, p: &Presentation, moves: &[Move]) -> Result<(), StepsFault>
    requires { All (λ m. IsInsertOver p.now m.what) moves.now }
    ensures ok { OnOk result (Runs p.now moving.old moves.now moving.new) }
    ensures err { IfErr result (λ e. StepsGive p.now moving.old moves.now (Err e)) }
{
    for (made, m) in moves.iter().enumerate() {
        match moving.make(p, m) {
            Ok(()) => {}
            Err(fault) => return Err(at_move(made, fault)),
        }
    }
    Ok(())
}

/// The fault of a move that stands behind so many others.
fn at_move(before: usize, fault: MoveFault) -> StepsFault
    requires { before < 2 ^ 63 }
    ensures { IsAtMove before fault result }
{
    match fault {
        MoveFault::Refused(reason) => StepsFault::BadMove {
            number: (before + 1).min(u32::MAX as usize) as u32,
            reason,
        },
        MoveFault::NoMemory => StepsFault::NoMemory,
    }
}
