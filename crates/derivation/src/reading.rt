//! Derivations as texts: one move a line.

ghost use Rattle.std.specs.Prelude.{◌≡◌, ◌≤◌, ◌==◌, not, List, length, take_while, take, drop, All, Ok, IfOk, OnOk};
ghost use Rattle.std.specs.List.{prefix_len};
ghost use Rattle.word_text.specs.Machine.{finding};
ghost use Rattle.derivation.specs.Making.{IsInsertOver};
ghost use Rattle.derivation.specs.declared.moves.Move.{Move};
ghost use Rattle.derivation.specs.Grammar.{IsDerivation};
ghost use Rattle.derivation.specs.Reading.{line_moves, derivation_text, ReadsMoves, ReadsLine};

use crate::line_moves::line_move;
use crate::moves::Move;
use presentation::{Presentation, WordReader};
use std::alloc::Global;
use word_text::{ReadFault, after_first};

/// How many bytes stand before the first LF, or before the end where there is none.
fn line_len(text: &[u8]) -> usize
    ensures { result ≡ length (take_while (λ b. not (b == 10)) text.now) }
{
    text.iter().take_while(|b| **b != b'\n').count()
}

/// The first line, and what follows it, with its LF in front.
fn split_line(text: &[u8]) -> (&[u8], &[u8])
    ensures line { result.0.now ≡ take (prefix_len (λ b. not (b == 10)) text.now) text.now }
    ensures rest { result.1.now ≡ drop (prefix_len (λ b. not (b == 10)) text.now) text.now }
    ensures shorter { length result.1.now ≤ length text.now }
{
    text.split_at(line_len(text))
}

/// Puts the move of the line of this number, if it has one, behind those before.
fn read_line(
    alloc: Global,
    p: &Presentation,
    number: u32,
    line: &[u8],
    moves: &mut Vec<Move>,
) -> Result<(), ReadFault>
    ensures exact { ReadsLine moves.old.items moves.new.items
        (line_moves (finding p.now.names) number line.now) result }
    ensures over { All (λ m. IsInsertOver p.now m.what) moves.old.items
        → OnOk result (All (λ m. IsInsertOver p.now m.what) moves.new.items) }
{
    let mut reader = WordReader {
        text: line,
        at: 0,
        line: number,
    };
    if reader.is_at_end() {
        return Ok(());
    }
    let next = line_move(alloc, &mut reader, p)?;
    match moves.push(next) {
        Ok(()) => Ok(()),
        Err(_) => Err(ReadFault::NoMemory),
    }
}

/// The moves that the text spells, or the first fault.
fn read_exactly(alloc: Global, p: &Presentation, text: &[u8]) -> Result<Vec<Move>, ReadFault>
    ensures exact { ReadsMoves (derivation_text p.now text.now) result }
    ensures over { IfOk result (λ moves. All (λ m. IsInsertOver p.now m.what) moves.items) }
{
    let mut moves = Vec::new(alloc);
    let mut number = 1u32;
    let mut rest = text;
    loop {
        let (line, after) = split_line(rest);
        read_line(alloc, p, number, line, &mut moves)?;
        if after.is_empty() {
            return Ok(moves);
        }
        rest = after_first(after);
        number = number.saturating_add(1);
    }
}

/// The moves that the text spells, one a line. Lines of blanks alone have none. A fault has the number of its line, and
/// its column there.
pub fn read_derivation(alloc: Global, p: &Presentation, text: &[u8]) -> Result<Vec<Move>, ReadFault>
    // The text is a derivation of the grammar, with these moves.
    ensures found { IfOk result (λ moves. IsDerivation p.now text.now moves.items) }
    // Where the text is a derivation of the grammar, its moves are read, unless memory runs out.
    ensures only { (ms : List Move) → IsDerivation p.now text.now ms → ReadsMoves (Ok ms) result }
    // Which moves, or which fault, and where.
    ensures exact { ReadsMoves (derivation_text p.now text.now) result }
    // Letters and words are over the presentation, and the words are within the limit on written words.
    ensures over { IfOk result (λ moves. All (λ m. IsInsertOver p.now m.what) moves.items) }
{
    read_exactly(alloc, p, text)
}
