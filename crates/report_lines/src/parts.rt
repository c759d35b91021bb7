//! The parts at the head of a text: what stands before a space, or before a colon.

ghost use Rattle.std.specs.Prelude.{◌≡◌, ◌++◌, ℕ, List, codes, decimal, option_map, MatchOption};
ghost use Rattle.spelling.specs.Spelling.{IsRead, IsSmall};
ghost use Rattle.report_lines.specs.Parts.{headed, IsHead, itself, HasNoColon};

use spelling::{cut, read_number};

/// The number at the head of the text, and what stands behind the space after it.
pub fn number_then(text: &[u8]) -> Option<(u32, &[u8])>
    ensures { IsRead (headed decimal (codes " ")) (IsHead IsSmall) text.now (option_map (λ x. (x.0, x.1.now)) result) }
{
    let (front, rest) = cut(text, b' ')?;
    let number = read_number(front)?;
    Some((number, rest))
}

/// What stands before the first colon, and what stands behind it; there is a space on each side of the colon.
pub fn around_colon(text: &[u8]) -> Option<(&[u8], &[u8])>
    ensures { IsRead (headed itself (codes " : ")) (IsHead HasNoColon) text.now
        (option_map (λ x. (x.0.now, x.1.now)) result) }
{
    let (front, rest) = cut(text, b':')?;
    let before = front.strip_suffix(b" ")?;
    let after = behind(rest, b" ")?;
    Some((before, after))
}

/// What stands in the text behind the word, where the text begins with it.
pub fn behind<'a>(text: &'a [u8], word: &[u8]) -> Option<&'a [u8]>
    ensures { MatchOption result ((rest : List ℕ) → text.now ≡ word.now ++ rest
        → ⊥) (λ rest. text.now ≡ word.now ++ rest.now) }
{
    text.strip_prefix(word)
}
