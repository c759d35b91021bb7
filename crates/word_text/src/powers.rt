//! Powers behind an atom.

ghost use Rattle.std.specs.Prelude.{◌≡◌, ◌≤◌, ◌*◌, List, length, IfOk};
ghost use Rattle.free_words.specs.declared.letter.Letter.{Letter};
ghost use Rattle.word_text.specs.Scan.{Tells};
ghost use Rattle.word_text.specs.Powers.{written, power_of, size_at, exponent_at, raised, powers_at};

use crate::fault::{Fault, TextKind};
use crate::raise::Raise;
use crate::scan::{after_first, due, first_is, number, skip_blanks, split_digits};
use free_words::WRITTEN;

/// A number that an exponent may have.
#[tactic(auto, unfolding(crate::specs::Powers::size_at))]
fn size(negative: bool, text: &[u8]) -> Result<(Raise, &[u8]), Fault>
    ensures exact { Tells (λ x. record {
      negative = x.0.negative;
      size = x.0.times;
      rest = x.1.now;
    }) result (size_at negative text.now) }
    ensures small { IfOk result (λ x. x.0.times ≤ 16384) }
    ensures shorter { IfOk result (λ x. length x.1.now ≤ length text.now) }
{
    let (digits, rest) = split_digits(text);
    if digits.is_empty() {
        return Err(due(text));
    }
    match number(digits, WRITTEN) {
        None => Err(Fault {
            kind: TextKind::ExponentTooLarge,
            left: text.len(),
        }),
        Some(times) => Ok((Raise { negative, times }, rest)),
    }
}

/// What stands behind `^`.
#[tactic(auto, unfolding(crate::specs::Powers::exponent_at))]
fn exponent(text: &[u8]) -> Result<(Raise, &[u8]), Fault>
    ensures exact { Tells (λ x. record {
      negative = x.0.negative;
      size = x.0.times;
      rest = x.1.now;
    }) result (exponent_at text.now) }
    ensures small { IfOk result (λ x. x.0.times ≤ 16384) }
    ensures shorter { IfOk result (λ x. length x.1.now ≤ length text.now) }
{
    if first_is(b'-', text) {
        size(true, skip_blanks(after_first(text)))
    } else {
        size(false, text)
    }
}

/// One more power of an atom of so many letters, where the word is within the limit.
fn raise_more(letters: u32, so_far: Raise, next: Raise, start: usize) -> Result<Raise, Fault>
    requires so_far { so_far.times ≤ 16384 }
    requires next { next.times ≤ 16384 }
    ensures exact { (atom : List Letter) → length atom ≡ letters → Tells (λ r. power_of r.negative r.times atom) result
        (raised written start next.negative next.times (power_of so_far.negative so_far.times atom)) }
    ensures small { IfOk result (λ r. r.times ≤ 16384) }
{
    if letters == 0 {
        return Ok(so_far);
    }
    let times = next.times as u64 * so_far.times as u64;
    if times * letters as u64 > WRITTEN as u64 {
        return Err(Fault {
            kind: TextKind::WordTooLong,
            left: start,
        });
    }
    Ok(so_far.then(next))
}

/// What the powers that stand here make of an atom of so many letters, and what follows them. The powers cost as many
/// steps as they have bytes: the atom is raised once, at their end.
pub fn powers(letters: u32, start: usize, text: &[u8]) -> Result<(Raise, &[u8]), Fault>
    ensures exact { (atom : List Letter) → length atom ≡ letters
        → Tells (λ x. (power_of x.0.negative x.0.times atom, x.1.now)) result
        (powers_at start atom text.now) }
    ensures small { IfOk result (λ x. x.0.times ≤ 16384) }
    ensures shorter { IfOk result (λ x. length x.1.now ≤ length text.now) }
{
    let mut raise = Raise::ONCE;
    let mut rest = skip_blanks(text);
    while first_is(b'^', rest) {
        let (next, after) = exponent(skip_blanks(after_first(rest)))?;
        raise = raise_more(letters, raise, next, start)?;
        rest = skip_blanks(after);
    }
    Ok((raise, rest))
}
