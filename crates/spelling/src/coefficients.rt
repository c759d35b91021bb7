//! Coefficients: numbers with a sign, never 0.

ghost use Rattle.std.specs.Prelude.{◌≡◌, ◌++◌, decimal, OnOk};
ghost use Rattle.spelling.specs.Spelling.{IsRead, IsPositive, IsCoefficient, coefficient};

use crate::number::read_wide;
use itoa::Buffer;
use std::alloc::AllocError;

/// The number from 1 to 2^127 - 1 that the text spells.
#[tactic(auto, using(crate::proofs::Numbers::not_positive))]
fn read_positive(text: &[u8]) -> Option<u128>
    ensures { IsRead decimal IsPositive text.now result }
{
    let n = read_wide(text)?;
    if n == 0 {
        return None;
    }
    if n >= 1 << 127 {
        return None;
    }
    Some(n)
}

/// The coefficient that the text spells: a sign, and then a number that isn't 0.
pub fn read_coefficient(text: &[u8]) -> Option<i128>
    ensures { IsRead coefficient IsCoefficient text.now result }
{
    match text {
        [b'+', rest @ ..] => {
            let n = read_positive(rest)?;
            Some(n as i128)
        }
        [b'-', rest @ ..] => {
            let n = read_positive(rest)?;
            Some(-(n as i128))
        }
        _ => None,
    }
}

/// Appends the coefficient's spelling.
pub fn write_coefficient(out: &mut Vec<u8>, k: i128) -> Result<(), AllocError>
    requires { IsCoefficient k }
    ensures { OnOk result (out.new.items ≡ out.old.items ++ coefficient k) }
{
    let sign = if k < 0 { b'-' } else { b'+' };
    out.push(sign)?;
    let mut buffer = Buffer::new();
    out.extend_from_slice(buffer.format(k.unsigned_abs()).as_bytes())
}
