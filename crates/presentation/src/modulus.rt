//! The modulus behind a presentation's text.

ghost use Rattle.std.specs.Prelude.{◌≡◌, IfOk};
ghost use Rattle.word_text.specs.Scan.{Gives};
ghost use Rattle.presentation.specs.Presented.{IsModulus};
ghost use Rattle.presentation.specs.Reading.{ending, modulus_number, modulus_at};

use crate::MODULUS;
use word_text::{Fault, ReadError, TextKind, due, number, skip_blanks, split_digits, split_name};

/// The modulus, where only blanks follow.
#[tactic(auto, unfolding(crate::specs::Reading::ending))]
fn ending(modulus: u32, text: &[u8]) -> Result<u32, ReadError>
    ensures exact { Gives (λ m. m) result (ending modulus text.now) }
    ensures same { IfOk result (λ m. m ≡ modulus) }
{
    let here = skip_blanks(text);
    if !here.is_empty() {
        return Err(ReadError::Text(due(here)));
    }
    Ok(modulus)
}

/// The number of a modulus, and blanks behind it.
#[tactic(auto, unfolding(crate::specs::Reading::modulus_number))]
fn modulus_number(text: &[u8]) -> Result<u32, ReadError>
    ensures exact { Gives (λ m. m) result (modulus_number text.now) }
    ensures limits { IfOk result (λ m. IsModulus m) }
{
    let (digits, rest) = split_digits(text);
    if digits.is_empty() {
        return Err(ReadError::Text(due(text)));
    }
    match number(digits, MODULUS) {
        Some(modulus) if modulus >= 2 => ending(modulus, rest),
        _ => Err(ReadError::Text(Fault {
            kind: TextKind::ModulusOutOfRange,
            left: text.len(),
        })),
    }
}

/// The modulus that stands at the end of the text, or 0 where only blanks do.
#[tactic(auto, unfolding(crate::specs::Reading::modulus_at))]
pub fn modulus(text: &[u8]) -> Result<u32, ReadError>
    ensures exact { Gives (λ m. m) result (modulus_at text.now) }
    ensures limits { IfOk result (λ m. IsModulus m) }
{
    let here = skip_blanks(text);
    if here.is_empty() {
        return Ok(0);
    }
    let (name, rest) = split_name(here);
    if name != b"modulus".as_slice() {
        return Err(ReadError::Text(due(here)));
    }
    modulus_number(skip_blanks(rest))
}
