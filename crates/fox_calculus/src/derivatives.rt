//! The Fox vector of a word.

ghost use Rattle.std.specs.Prelude.{◌≤◌, length, IfOk};
ghost use Rattle.free_words.specs.Words.{IsOver};
ghost use Rattle.vector_text.specs.Over.{VectorIsOver};
ghost use Rattle.fox_calculus.specs.Fox.{fox};
ghost use Rattle.fox_calculus.specs.Generators.{IsWritten};

use crate::running::letter_terms;
use crate::small::small_sum;
use free_words::{COMPOSED, Word};
use module_vec::ModVec;
use presentation::Presentation;
use std::alloc::{AllocError, Global};

#[tactic(auto, using(crate::proofs::Over::written_over))]
/// The Fox vector of a word over the presentation's generators: the sum of +[u]·e_g for each letter x_g after a prefix
/// u, and of -[u x_g^-1]·e_g for each letter x_g^-1 (Fox 1953). It has at most as many terms as the word has letters.
pub fn fox(alloc: Global, p: &Presentation, w: &Word) -> Result<ModVec, AllocError>
    requires over { IsOver (length p.now.names) w.now }
    requires short { length w.now ≤ COMPOSED }
    ensures is { IfOk result (IsWritten (fox w.now)) }
    ensures over { IfOk result (VectorIsOver (length p.now.names)) }
{
    p.known();
    let terms = letter_terms(alloc, w.letters())?;
    small_sum(alloc, &terms)
}
