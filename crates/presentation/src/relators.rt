//! The relators of a presentation's text.

ghost use Rattle.std.specs.Prelude.{◌≡◌, ◌≤◌, [], length, map, string_bytes};
ghost use Rattle.word_text.specs.Scan.{Gives};
ghost use Rattle.word_text.specs.Machine.{finding};
ghost use Rattle.presentation.specs.Reading.{quotient, equation_at, relator_at, relators_from, relators_at};

use crate::RELATORS;
use free_words::{WRITTEN, Word};
use std::alloc::Global;
use word_text::{Fault, ReadError, TextKind, after_first, first_is, skip_blanks, word_at};

/// The word u v^-1, where it is within the limit.
#[tactic(auto, using(crate::proofs::Quotients::quotient_fits, crate::proofs::Quotients::quotient_long))]
fn quotient(alloc: Global, u: Word, v: &Word, start: usize) -> Result<Word, ReadError>
    ensures { Gives (λ w. w) result (quotient start u v.now) }
{
    if u.len() as u64 + v.len() as u64 > WRITTEN as u64 {
        return Err(ReadError::Text(Fault {
            kind: TextKind::WordTooLong,
            left: start,
        }));
    }
    let mut w = u;
    w.append(v.inverse(alloc)?)?;
    Ok(w)
}

/// The equation of this word with the one behind the `=` that stands here.
#[tactic(auto, unfolding(crate::specs::Reading::equation_at))]
fn equation<'a>(
    alloc: Global,
    names: &[String],
    u: Word,
    text: &'a [u8],
) -> Result<(Word, &'a [u8]), ReadError>
    requires { length names.now ≤ 24 }
    ensures { Gives (λ x. (x.0, x.1.now)) result (equation_at (finding (map string_bytes names.now)) u text.now) }
{
    let (v, rest) = word_at(alloc, names, after_first(text))?;
    let w = quotient(alloc, u, &v, text.len())?;
    Ok((w, rest))
}

/// A word, or an equation of two words.
#[tactic(auto, unfolding(crate::specs::Reading::relator_at))]
fn relator<'a>(
    alloc: Global,
    names: &[String],
    text: &'a [u8],
) -> Result<(Word, &'a [u8]), ReadError>
    requires { length names.now ≤ 24 }
    ensures { Gives (λ x. (x.0, x.1.now)) result (relator_at (finding (map string_bytes names.now)) text.now) }
{
    let (word, rest) = word_at(alloc, names, text)?;
    if first_is(b'=', rest) {
        equation(alloc, names, word, rest)
    } else {
        Ok((word, rest))
    }
}

/// One relator or more with commas between them.
fn some_relators<'a>(
    alloc: Global,
    names: &[String],
    text: &'a [u8],
) -> Result<(Vec<Word>, &'a [u8]), ReadError>
    requires { length names.now ≤ 24 }
    ensures { Gives (λ x. (x.0.items, x.1.now)) result (relators_from RELATORS (finding (map string_bytes names.now))
        [] text.now) }
{
    let mut relators = Vec::new(alloc);
    let mut rest = text;
    loop {
        let (word, after) = relator(alloc, names, rest)?;
        relators.push(word)?;
        if !first_is(b',', after) {
            return Ok((relators, after));
        }
        if relators.len() >= RELATORS as usize {
            return Err(ReadError::Text(Fault {
                kind: TextKind::TooManyRelators,
                left: after.len(),
            }));
        }
        rest = after_first(after);
    }
}

/// The relators over these names that stand here, and what follows them and their blanks.
#[tactic(auto, unfolding(crate::specs::Reading::relators_at))]
pub fn relators<'a>(
    alloc: Global,
    names: &[String],
    text: &'a [u8],
) -> Result<(Vec<Word>, &'a [u8]), ReadError>
    requires { length names.now ≤ 24 }
    ensures { Gives (λ x. (x.0.items, x.1.now)) result (relators_at (finding (map string_bytes names.now)) text.now) }
{
    let here = skip_blanks(text);
    if first_is(b'>', here) {
        Ok((Vec::new(alloc), here))
    } else {
        some_relators(alloc, names, text)
    }
}
