//! Cutting a text at a separator.

ghost use Rattle.std.specs.Prelude.{◌≡◌, ◌<◌, ℕ, List, ◌∷◌, option_map, length, IfSome, MatchOption};
ghost use Rattle.spelling.specs.Spelling.{cut, first_part};

/// What stands before the first byte `separator` of the text, and what stands behind it; None where there is no such
/// byte.
#[tactic(auto, using(crate::proofs::Cuts::search_for_cut))]
pub fn cut(text: &[u8], separator: u8) -> Option<(&[u8], &[u8])>
    ensures parts { cut separator text.now ≡ option_map (λ p. (p.0.now, p.1.now)) result }
    ensures shorter { IfSome result (λ p. length p.1.now < length text.now) }
{
    let mut at = 0;
    while at < text.len() {
        if text[at] == separator {
            let (front, rest) = text.split_at(at);
            return Some((front, rest.split_at(1).1));
        }
        at += 1;
    }
    None
}

/// What stands before the first byte `separator`, which is the whole text where there is no such byte, and what stands
/// behind it.
pub fn first_part(text: &[u8], separator: u8) -> (&[u8], Option<&[u8]>)
    ensures parts { first_part separator text.now ≡ (result.0.now, option_map (λ r. r.now) result.1) }
    ensures shorter { IfSome result.1 (λ r. length r.now < length text.now) }
{
    match cut(text, separator) {
        Some((front, rest)) => (front, Some(rest)),
        None => (text, None),
    }
}

/// What stands behind the first byte of the text, where that is `byte`.
pub fn after_byte(text: &[u8], byte: u8) -> Option<&[u8]>
    ensures { MatchOption result ((rest : List ℕ) → text.now ≡ byte ∷ rest → ⊥) (λ rest. text.now ≡ byte ∷ rest.now) }
{
    match text.split_first() {
        Some((first, rest)) if *first == byte => Some(rest),
        _ => None,
    }
}
