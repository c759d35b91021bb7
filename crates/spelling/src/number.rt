//! Decimal numbers.

ghost use Rattle.std.specs.Prelude.{◌≡◌, ◌++◌, decimal, OnOk};
ghost use Rattle.spelling.specs.Spelling.{IsRead, IsSmall, IsWide};

use itoa::Buffer;
use std::alloc::AllocError;
use std::str::from_utf8;

/// The number that the text spells: decimal digits, without a leading zero.
pub fn read_number(text: &[u8]) -> Option<u32>
    ensures { IsRead decimal IsSmall text.now result }
{
    let Ok(digits) = from_utf8(text) else {
        return None;
    };
    let Ok(n) = digits.parse::<u32>() else {
        return None;
    };
    let mut buffer = Buffer::new();
    if buffer.format(n).as_bytes() == text {
        Some(n)
    } else {
        None
    }
}

/// Appends the number's spelling.
pub fn write_number(out: &mut Vec<u8>, n: u32) -> Result<(), AllocError>
    ensures { OnOk result (out.new.items ≡ out.old.items ++ decimal n) }
{
    let mut buffer = Buffer::new();
    out.extend_from_slice(buffer.format(n).as_bytes())
}

/// The number of up to 128 bits that the text spells.
pub fn read_wide(text: &[u8]) -> Option<u128>
    ensures { IsRead decimal IsWide text.now result }
{
    let Ok(digits) = from_utf8(text) else {
        return None;
    };
    let Ok(n) = digits.parse::<u128>() else {
        return None;
    };
    let mut buffer = Buffer::new();
    if buffer.format(n).as_bytes() == text {
        Some(n)
    } else {
        None
    }
}
