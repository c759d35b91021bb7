//! The texts of coefficients.

ghost use Rattle.std.specs.Prelude.{◌≡◌, IfErr};
ghost use Rattle.spelling.specs.Spelling.{IsCoefficient, coefficient};
ghost use Rattle.vector_text.specs.Reading.{Reads};

use crate::SpellFault;

/// The coefficient that the text spells: a sign, and the decimal number without leading zeros, which isn't 0 and at
/// most [`COEFFICIENT`](module_vec::COEFFICIENT). `Spelling` exactly where the text is no coefficient's, and never
/// `NoMemory`.
pub fn read_coefficient(text: &[u8]) -> Result<i128, SpellFault>
    ensures reads { Reads coefficient IsCoefficient text.now result }
    ensures no_memory_taken { IfErr result (λ e. e ≡ SpellFault.Spelling) }
{
    match spelling::read_coefficient(text) {
        Some(k) => Ok(k),
        None => Err(SpellFault::Spelling),
    }
}
