//! Laws of moves and of the texts of derivations, each as the contract of a function with an empty body.

ghost use Rattle.std.specs.Prelude.{[], ◌++◌, ◌≡◌, ◌≢◌, ℕ, List, Contains, Result, Ok, Err};
ghost use Rattle.free_words.specs.declared.letter.Letter.{Letter};
ghost use Rattle.free_words.specs.Words.{inverse};
ghost use Rattle.presentation.specs.Presented.{Presented, IsPresented};
ghost use Rattle.derivation.specs.declared.moves.Move.{Move};
ghost use Rattle.derivation.specs.declared.moves.MoveFault.{MoveFault};
ghost use Rattle.derivation.specs.declared.moves.StepsFault.{StepsFault};
ghost use Rattle.derivation.specs.Making.{MoveGives, StepsGive};
ghost use Rattle.derivation.specs.Reading.{derivation_text};
ghost use Rattle.derivation.specs.Grammar.{IsDerivation};
ghost use Rattle.derivation.specs.Moves.{IsWordOver, IsPiece, Reaches, Trivial, Equal};

/// The empty word is trivial.
#[tactic(auto, using(crate::proofs::TrivialLaws::trivial_nothing))]
pub fn nothing()
    ensures { (p : Presented) → Trivial p [] }
{}

/// What a move may put in or take out is trivial.
#[tactic(auto, using(crate::proofs::TrivialLaws::trivial_piece))]
pub fn piece()
    ensures { (p : Presented) (s : List Letter) → IsPiece p s → Trivial p s }
{}

/// A relator and its inverse are trivial.
#[tactic(auto, using(crate::proofs::TrivialLaws::trivial_relator, crate::proofs::TrivialLaws::trivial_inverse_relator))]
pub fn relator()
    ensures relator { (p : Presented) (r : List Letter) → Contains p.relators r → Trivial p r }
    ensures inverted { (p : Presented) (r : List Letter) → Contains p.relators r → Trivial p (inverse r) }
{}

/// A product of trivial words is trivial.
#[tactic(auto, using(crate::proofs::TrivialLaws::trivial_product))]
pub fn product()
    ensures { (p : Presented) (u v : List Letter) → Trivial p u → Trivial p v → Trivial p (u ++ v) }
{}

/// The inverse of a trivial word is trivial.
#[tactic(auto, using(crate::proofs::TrivialLaws::trivial_inverse))]
pub fn inverted()
    ensures { (p : Presented) (w : List Letter) → Trivial p w → Trivial p (inverse w) }
{}

/// A conjugate of a trivial word by a word over the generators is trivial.
#[tactic(auto, using(crate::proofs::TrivialLaws::trivial_conjugate))]
pub fn conjugate()
    ensures { (p : Presented) (u w : List Letter) → IsWordOver p u → Trivial p w → Trivial p (u ++ (w ++ inverse u)) }
{}

/// Moves lead from each word to itself, back again, and on.
#[tactic(auto, using(crate::proofs::Reaching::reaches_self, crate::proofs::Reaching::reaches_back))]
pub fn reaching()
    ensures same { (p : Presented) (u : List Letter) → Reaches p u u }
    ensures back { (p : Presented) (u v : List Letter) → Reaches p u v → Reaches p v u }
    ensures on { (p : Presented) (u v w : List Letter) → Reaches p u v → Reaches p v w → Reaches p u w }
{}

/// Where moves lead from parts to parts, they lead from the product to the product.
#[tactic(auto, using(crate::proofs::Reaching::reaches_both))]
pub fn reaching_products()
    ensures { (p : Presented) (u v s t : List Letter) → Reaches p u v → Reaches p s t → Reaches p (u ++ s) (v ++ t) }
{}

/// Where moves lead from a word to another, they lead from its inverse to the other's.
#[tactic(auto, using(crate::proofs::Reaching::reaches_inverse))]
pub fn reaching_inverses()
    ensures { (p : Presented) (u v : List Letter) → Reaches p u v → Reaches p (inverse u) (inverse v) }
{}

/// Words over the generators are equal exactly where moves lead from the one to the other.
#[tactic(auto, using(crate::proofs::TrivialLaws::equal_reaches, crate::proofs::TrivialLaws::reaches_equal))]
pub fn equality()
    ensures reached { (p : Presented) (u v : List Letter) → IsWordOver p v → Equal p u v → Reaches p u v }
    ensures equal { (p : Presented) (u v : List Letter) → IsWordOver p v → Reaches p u v → Equal p u v }
{}

/// A move has one answer, want of memory aside: so each reason is given exactly where `MoveGives` names it.
#[tactic(auto, using(crate::proofs::OneAnswer::one_answer))]
pub fn one_answer()
    ensures { (p : Presented) (old : List Letter) (m : Move) (r s : Result (List Letter) MoveFault)
        → r ≢ Err MoveFault.NoMemory → s ≢ Err MoveFault.NoMemory
        → MoveGives p old m r → MoveGives p old m s → r ≡ s }
{}

/// A list of moves has one outcome, want of memory aside: so it is Ok exactly where the moves carry the word to the
/// empty word, and each fault comes exactly where `StepsGive` names it.
#[tactic(auto, using(crate::proofs::OneOutcome::one_outcome))]
pub fn one_outcome()
    ensures { (p : Presented) (w : List Letter) (moves : List Move) (r s : Result (Unit {0}) StepsFault)
        → r ≢ Err StepsFault.NoMemory → s ≢ Err StepsFault.NoMemory
        → StepsGive p w moves r → StepsGive p w moves s → r ≡ s }
{}

/// Moves lead from a word over the generators to words over them.
#[tactic(auto, using(crate::proofs::Staying::reaches_over))]
pub fn staying()
    ensures { (p : Presented) (u v : List Letter) → IsPresented p → Reaches p u v → IsWordOver p u → IsWordOver p v }
{}

/// What is read of a text is a derivation of the grammar, with its moves.
#[tactic(auto, using(crate::proofs::TextLaws::text_spelled))]
pub fn read_is_spelled()
    ensures { (p : Presented) (text : List ℕ) (ms : List Move) → derivation_text p text ≡ Ok ms
        → IsDerivation p text ms }
{}

/// A derivation of the grammar is read, with its moves.
pub fn spelled_is_read()
    ensures { (p : Presented) (text : List ℕ) (ms : List Move) → IsDerivation p text ms
        → derivation_text p text ≡ Ok ms }
{}

/// A text spells one list of moves at most.
pub fn one_value()
    ensures { (p : Presented) (text : List ℕ) (ms ns : List Move) → IsDerivation p text ms
        → IsDerivation p text ns → ms ≡ ns }
{}
