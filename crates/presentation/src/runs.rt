//! Runs: the longest parts of a word in which one letter follows itself.

ghost use Rattle.std.specs.Prelude.{◌≡◌, ◌<◌, [], ◌∷◌, length, take_while, IfNone, IfSome};
ghost use Rattle.presentation.specs.Writing.{runs, is_same};

use free_words::Letter;

/// A letter, and how often it stands in a row.
#[derive(Clone, Copy, Debug, PartialEq, Eq)]
pub struct Run {
    pub letter: Letter,
    pub count: usize,
}

/// The first run of these letters, and the letters that follow it.
#[tactic(auto, using(crate::proofs::WritingRuns::run_taken))]
pub fn first_run(letters: &[Letter]) -> Option<(Run, &[Letter])>
    ensures none { IfNone result (letters.now ≡ []) }
    ensures first { IfSome result (λ x. runs letters.now ≡ x.0 ∷ runs x.1.now) }
    ensures shorter { IfSome result (λ x. length x.1.now < length letters.now) }
{
    let (first, after) = letters.split_first()?;
    let more = repeats(*first, after);
    let (_, rest) = after.split_at(more);
    Some((
        Run {
            letter: *first,
            count: more + 1,
        },
        rest,
    ))
}

/// How many letters at the head are this one.
fn repeats(letter: Letter, letters: &[Letter]) -> usize
    ensures { result ≡ length (take_while (is_same letter) letters.now) }
{
    letters.iter().take_while(|l| **l == letter).count()
}
