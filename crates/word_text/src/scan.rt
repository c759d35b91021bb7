//! Tokens at the head of a text.

ghost use Rattle.std.specs.Prelude.{◌≡◌, ◌≤◌, ◌<◌, ◌+◌, ◌^◌, ◌-◌, List, slice_index, length, take_while, drop, IfOk};
ghost use Rattle.std.specs.Prelude.{IsTrue};
ghost use Rattle.word_text.specs.Scan.{is_blank, is_letter, is_name_byte, is_digit, is_known, mark_byte, after_blanks};
ghost use Rattle.word_text.specs.Scan.{name_at, after_name, digits_at, after_digits, first_is, mark_of, due, within};
ghost use Rattle.word_text.specs.Scan.{number};

use crate::fault::{Fault, TextKind};

/// What the first byte of a token says in a word.
#[derive(Clone, Copy, Debug, PartialEq, Eq)]
pub enum Mark {
    Letter,
    One,
    Round,
    Square,
    Star,
    Bad,
    /// The end, or a byte at which no factor begins.
    Other,
}

#[tactic(auto, unfolding(crate::specs::Scan::is_blank))]
fn is_blank(b: u8) -> bool
    ensures { result ≡ is_blank b }
{
    matches!(b, b' ' | b'\t' | b'\r' | b'\n')
}

#[tactic(auto, unfolding(crate::specs::Scan::is_letter))]
fn is_letter(b: u8) -> bool
    ensures { result ≡ is_letter b }
{
    matches!(b, b'a'..=b'z' | b'A'..=b'Z')
}

#[tactic(auto, unfolding(crate::specs::Scan::is_digit))]
fn is_digit(b: u8) -> bool
    ensures { result ≡ is_digit b }
{
    matches!(b, b'0'..=b'9')
}

#[tactic(auto, unfolding(crate::specs::Scan::is_name_byte))]
fn is_name_byte(b: u8) -> bool
    ensures { result ≡ is_name_byte b }
{
    is_letter(b) || is_digit(b) || b == b'_'
}

#[tactic(auto, unfolding(crate::specs::Scan::is_known))]
fn is_known(b: u8) -> bool
    ensures { result ≡ is_known b }
{
    is_name_byte(b)
        || matches!(b, b'<' | b'>' | b'|' | b',' | b'=' | b'^')
        || matches!(b, b'-' | b'*' | b'(' | b')' | b'[' | b']')
}

/// What follows the blanks.
#[tactic(auto, unfolding(crate::specs::Scan::after_blanks))]
pub fn skip_blanks(text: &[u8]) -> &[u8]
    ensures rest { result.now ≡ after_blanks text.now }
    ensures shorter { length result.now ≤ length text.now }
{
    let n = blank_count(text);
    text.split_at(n).1
}

/// The name that stands here, and what follows it.
#[tactic(auto, unfolding(crate::specs::Scan::name_at, crate::specs::Scan::after_name))]
pub fn split_name(text: &[u8]) -> (&[u8], &[u8])
    ensures name { result.0.now ≡ name_at text.now }
    ensures rest { result.1.now ≡ after_name text.now }
    ensures some { mark_of text.now ≡ Mark.Letter → 0 < length result.0.now }
    ensures shorter { length result.0.now + length result.1.now ≡ length text.now }
{
    let n = name_byte_count(text);
    text.split_at(n)
}

/// The digits that stand here, and what follows them.
#[tactic(auto, unfolding(crate::specs::Scan::digits_at, crate::specs::Scan::after_digits))]
pub fn split_digits(text: &[u8]) -> (&[u8], &[u8])
    ensures digits { result.0.now ≡ digits_at text.now }
    ensures rest { result.1.now ≡ after_digits text.now }
    ensures all { (i : _) → i < length result.0.now → IsTrue (is_digit (slice_index result.0.now i)) }
    ensures shorter { length result.0.now + length result.1.now ≡ length text.now }
{
    let n = digit_count(text);
    text.split_at(n)
}

/// What follows the first byte.
pub fn after_first(text: &[u8]) -> &[u8]
    ensures rest { result.now ≡ drop 1 text.now }
    ensures shorter { length result.now ≡ length text.now - 1 }
{
    match text {
        [] => text,
        [_, rest @ ..] => rest,
    }
}

/// Whether this byte stands first.
pub fn first_is(b: u8, text: &[u8]) -> bool
    ensures first { result ≡ first_is b text.now }
    ensures some { IsTrue result → 0 < length text.now }
{
    match text {
        [] => false,
        [first, ..] => *first == b,
    }
}

/// What the first byte says in a word.
pub fn mark_at(text: &[u8]) -> Mark
    ensures { result ≡ mark_of text.now }
{
    match text {
        [] => Mark::Other,
        [b, ..] => mark_byte(*b),
    }
}

#[tactic(auto, unfolding(crate::specs::Scan::mark_byte))]
fn mark_byte(b: u8) -> Mark
    ensures { result ≡ mark_byte b }
{
    if is_letter(b) {
        Mark::Letter
    } else if b == b'1' {
        Mark::One
    } else if b == b'(' {
        Mark::Round
    } else if b == b'[' {
        Mark::Square
    } else if b == b'*' {
        Mark::Star
    } else if is_known(b) {
        Mark::Other
    } else {
        Mark::Bad
    }
}

/// The fault where a token stands that can't stand there.
pub fn due(text: &[u8]) -> Fault
    ensures { result ≡ due text.now }
{
    let kind = match mark_at(text) {
        Mark::Bad => TextKind::BadByte,
        _ => TextKind::Expected,
    };
    Fault {
        kind,
        left: text.len(),
    }
}

/// The number that the digits spell, where it is within the limit.
#[tactic(auto, using(crate::proofs::Numbers::digit_by_digit), unfolding(crate::specs::Scan::is_digit))]
pub fn number(digits: &[u8], limit: u32) -> Option<u32>
    requires all { (i : _) → i < length digits.now → IsTrue (is_digit (slice_index digits.now i)) }
    requires small { limit < 2 ^ 31 }
    ensures { result ≡ within limit (number 0 digits.now) }
{
    let mut value: u32 = 0;
    for d in digits {
        let next = value as u64 * 10 + (*d - b'0') as u64;
        if next > limit as u64 {
            return None;
        }
        value = next as u32;
    }
    Some(value)
}

fn blank_count(text: &[u8]) -> usize
    ensures { result ≡ length (take_while is_blank text.now) }
{
    text.iter().take_while(|b| is_blank(**b)).count()
}

fn name_byte_count(text: &[u8]) -> usize
    ensures { result ≡ length (take_while is_name_byte text.now) }
{
    text.iter().take_while(|b| is_name_byte(**b)).count()
}

fn digit_count(text: &[u8]) -> usize
    ensures { result ≡ length (take_while is_digit text.now) }
{
    text.iter().take_while(|b| is_digit(**b)).count()
}
