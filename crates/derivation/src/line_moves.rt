//! The move that a line of a derivation spells.

ghost use Rattle.std.specs.Prelude.{◌≡◌, ◌≤◌, length, drop, IfOk};
ghost use Rattle.word_text.specs.Machine.{finding};
ghost use Rattle.presentation.specs.Presented.{Presented, IsWritten};
ghost use Rattle.derivation.specs.Making.{IsInsertOver};
ghost use Rattle.derivation.specs.Reading.{GoesOn, direction_at, comma_at, next_word, two_words, relator_at, double_at};
ghost use Rattle.derivation.specs.Reading.{power_at, insert_at, ending_at, move_at};

use crate::moves::{Insert, Move};
use free_words::Word;
use presentation::{Presentation, WordReader};
use std::alloc::Global;
use word_text::ReadFault;

/// Whether a piece is taken out, or put in.
#[tactic(auto, unfolding(crate::specs::Reading::direction_at))]
fn direction(reader: &mut WordReader) -> Result<bool, ReadFault>
    requires { reader.old.at ≤ length reader.old.text.now }
    ensures exact { GoesOn (λ del. del) reader.old.text.now reader.old.line reader.new.at
        (direction_at (drop reader.old.at reader.old.text.now)) result }
    ensures inside { reader.new.at ≤ length reader.old.text.now }
    ensures text { reader.new.text ≡ reader.old.text }
    ensures line { reader.new.line ≡ reader.old.line }
{
    if reader.at_keyword("ins") {
        Ok(false)
    } else if reader.at_keyword("del") {
        Ok(true)
    } else {
        Err(reader.unexpected())
    }
}

/// The comma that is due.
#[tactic(auto, unfolding(crate::specs::Reading::comma_at))]
fn comma(reader: &mut WordReader) -> Result<(), ReadFault>
    requires { reader.old.at ≤ length reader.old.text.now }
    ensures exact { GoesOn (λ _. tt) reader.old.text.now reader.old.line reader.new.at
        (comma_at (drop reader.old.at reader.old.text.now)) result }
    ensures inside { reader.new.at ≤ length reader.old.text.now }
    ensures text { reader.new.text ≡ reader.old.text }
    ensures line { reader.new.line ≡ reader.old.line }
{
    let unexpected = reader.unexpected();
    if reader.at_bytes(",") {
        Ok(())
    } else {
        Err(unexpected)
    }
}

/// A word behind a comma.
#[tactic(auto, unfolding(crate::specs::Reading::next_word))]
fn next_word(alloc: Global, reader: &mut WordReader, p: &Presentation) -> Result<Word, ReadFault>
    requires { reader.old.at ≤ length reader.old.text.now }
    ensures exact { GoesOn (λ w. w) reader.old.text.now reader.old.line reader.new.at
        (next_word (finding p.now.names) (drop reader.old.at reader.old.text.now)) result }
    ensures written { IfOk result (λ w. IsWritten (length p.now.names) w) }
    ensures inside { reader.new.at ≤ length reader.old.text.now }
    ensures text { reader.new.text ≡ reader.old.text }
    ensures line { reader.new.line ≡ reader.old.line }
{
    comma(reader)?;
    reader.at_word(alloc, p)
}

/// Two words with a comma between them.
#[tactic(auto, unfolding(crate::specs::Reading::two_words))]
fn two_words(
    alloc: Global,
    reader: &mut WordReader,
    p: &Presentation,
) -> Result<(Word, Word), ReadFault>
    requires { reader.old.at ≤ length reader.old.text.now }
    ensures exact { GoesOn (λ x. x) reader.old.text.now reader.old.line reader.new.at
        (two_words (finding p.now.names) (drop reader.old.at reader.old.text.now)) result }
    ensures written { IfOk result (λ x. IsWritten (length p.now.names) x.0 × IsWritten (length p.now.names) x.1) }
    ensures inside { reader.new.at ≤ length reader.old.text.now }
    ensures text { reader.new.text ≡ reader.old.text }
    ensures line { reader.new.line ≡ reader.old.line }
{
    let first = reader.at_word(alloc, p)?;
    let second = next_word(alloc, reader, p)?;
    Ok((first, second))
}

/// A relator's number, and `inv` where its inverse is meant.
#[tactic(auto, unfolding(crate::specs::Reading::relator_at))]
fn relator(reader: &mut WordReader) -> Result<Insert, ReadFault>
    requires { reader.old.at ≤ length reader.old.text.now }
    ensures exact { GoesOn (λ x. x) reader.old.text.now reader.old.line reader.new.at
        (relator_at (drop reader.old.at reader.old.text.now)) result }
    ensures over { IfOk result (λ x. (p : Presented) → IsInsertOver p x) }
    ensures inside { reader.new.at ≤ length reader.old.text.now }
    ensures text { reader.new.text ≡ reader.old.text }
    ensures line { reader.new.line ≡ reader.old.line }
{
    let relator = reader.at_number()?;
    let inverse = reader.at_keyword("inv");
    Ok(Insert::Rel { relator, inverse })
}

/// Four words.
#[tactic(auto, unfolding(crate::specs::Reading::double_at))]
fn double(alloc: Global, reader: &mut WordReader, p: &Presentation) -> Result<Insert, ReadFault>
    requires { reader.old.at ≤ length reader.old.text.now }
    ensures exact { GoesOn (λ x. x) reader.old.text.now reader.old.line reader.new.at
        (double_at (finding p.now.names) (drop reader.old.at reader.old.text.now)) result }
    ensures over { IfOk result (λ x. IsInsertOver p.now x) }
    ensures inside { reader.new.at ≤ length reader.old.text.now }
    ensures text { reader.new.text ≡ reader.old.text }
    ensures line { reader.new.line ≡ reader.old.line }
{
    let (a, b) = two_words(alloc, reader, p)?;
    comma(reader)?;
    let (c, d) = two_words(alloc, reader, p)?;
    Ok(Insert::Dbl(a, b, c, d))
}

/// Two words whose commutator is raised to the modulus.
#[tactic(auto, unfolding(crate::specs::Reading::power_at))]
fn power(alloc: Global, reader: &mut WordReader, p: &Presentation) -> Result<Insert, ReadFault>
    requires { reader.old.at ≤ length reader.old.text.now }
    ensures exact { GoesOn (λ x. x) reader.old.text.now reader.old.line reader.new.at
        (power_at (finding p.now.names) (drop reader.old.at reader.old.text.now)) result }
    ensures over { IfOk result (λ x. IsInsertOver p.now x) }
    ensures inside { reader.new.at ≤ length reader.old.text.now }
    ensures text { reader.new.text ≡ reader.old.text }
    ensures line { reader.new.line ≡ reader.old.line }
{
    let (a, b) = two_words(alloc, reader, p)?;
    Ok(Insert::Pow(a, b))
}

/// What is put in or taken out.
#[tactic(auto, unfolding(crate::specs::Reading::insert_at))]
fn insert(alloc: Global, reader: &mut WordReader, p: &Presentation) -> Result<Insert, ReadFault>
    requires { reader.old.at ≤ length reader.old.text.now }
    ensures exact { GoesOn (λ x. x) reader.old.text.now reader.old.line reader.new.at
        (insert_at (finding p.now.names) (drop reader.old.at reader.old.text.now)) result }
    ensures over { IfOk result (λ x. IsInsertOver p.now x) }
    ensures inside { reader.new.at ≤ length reader.old.text.now }
    ensures text { reader.new.text ≡ reader.old.text }
    ensures line { reader.new.line ≡ reader.old.line }
{
    if reader.at_keyword("pair") {
        Ok(Insert::Pair(reader.at_letter(p)?))
    } else if reader.at_keyword("rel") {
        relator(reader)
    } else if reader.at_keyword("dbl") {
        double(alloc, reader, p)
    } else if reader.at_keyword("pow") {
        power(alloc, reader, p)
    } else {
        Err(reader.unexpected())
    }
}

/// Blanks alone, to the end of the line.
#[tactic(auto, unfolding(crate::specs::Reading::ending_at))]
fn ending(reader: &WordReader) -> Result<(), ReadFault>
    requires { reader.now.at ≤ length reader.now.text.now }
    ensures { GoesOn (λ _. tt) reader.now.text.now reader.now.line reader.now.at
        (ending_at (drop reader.now.at reader.now.text.now)) result }
{
    if reader.is_at_end() {
        Ok(())
    } else {
        Err(reader.unexpected())
    }
}

/// The move that stands in the line, from the reader's place to its end.
#[tactic(auto, unfolding(crate::specs::Reading::move_at))]
pub fn line_move(
    alloc: Global,
    reader: &mut WordReader,
    p: &Presentation,
) -> Result<Move, ReadFault>
    requires { reader.old.at ≤ length reader.old.text.now }
    ensures exact { GoesOn (λ m. m) reader.old.text.now reader.old.line reader.new.at
        (move_at (finding p.now.names) (drop reader.old.at reader.old.text.now)) result }
    ensures over { IfOk result (λ m. IsInsertOver p.now m.what) }
{
    let del = direction(reader)?;
    let at = reader.at_number()?;
    let what = insert(alloc, reader, p)?;
    ending(reader)?;
    Ok(Move { at, del, what })
}
