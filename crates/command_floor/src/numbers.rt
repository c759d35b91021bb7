//! Numbers among the words of the command line.

ghost use Rattle.std.specs.Prelude.{◌≡◌, ◌<◌, ◌≤◌, ◌^◌, IfSome};
ghost use Rattle.command_floor.specs.Numbers.{number_between};

use word_text::{number, split_digits};

/// The number that one to nine digits spell, if it lies in this range.
pub fn number_between(text: &str, least: u32, most: u32) -> Option<u32>
    requires { most < 2 ^ 31 }
    ensures is { result ≡ number_between least most text.now }
    ensures within { IfSome result (λ n. (least ≤ n) × (n ≤ most)) }
{
    let (digits, rest) = split_digits(text.as_bytes());
    if digits.is_empty() || digits.len() > 9 || !rest.is_empty() {
        return None;
    }
    match number(digits, most) {
        Some(n) if n >= least => Some(n),
        _ => None,
    }
}
