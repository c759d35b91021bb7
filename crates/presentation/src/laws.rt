//! Laws of the readers: what is read is in the grammar, and what is in the grammar is read.

ghost use Rattle.std.specs.Prelude.{◌≡◌, ℕ, List, Ok};
ghost use Rattle.free_words.specs.declared.letter.Letter.{Letter};
ghost use Rattle.presentation.specs.Presented.{Presented};
ghost use Rattle.presentation.specs.Line.{IsEnd};
ghost use Rattle.presentation.specs.Reading.{presentation_at, presentation_text};
ghost use Rattle.presentation.specs.Grammar.{PresentationAt, IsPresentation};

/// What is read of a whole text is a presentation of the grammar, with its value.
#[tactic(auto, using(crate::proofs::SoundWhole::text_sound))]
pub fn read_is_spelled()
    ensures { (text : List ℕ) (p : Presented) → presentation_text text ≡ Ok p → IsPresentation text p }
{}

/// A presentation of the grammar that is a whole text is read, with its value.
pub fn spelled_is_read()
    ensures { (text : List ℕ) (p : Presented) → IsPresentation text p → presentation_text text ≡ Ok p }
{}

/// A text spells one presentation at most.
pub fn one_value()
    ensures { (text : List ℕ) (p q : Presented) → IsPresentation text p → IsPresentation text q → p ≡ q }
{}

/// What is read at the head of a text is a presentation of the grammar without a modulus.
pub fn head_is_spelled()
    ensures { (text : List ℕ) (p : Presented) (rest : List ℕ) → presentation_at text ≡ Ok (p, rest)
        → PresentationAt text p.names p.relators rest × (p.modulus ≡ 0) }
{}

/// A presentation of the grammar without a modulus is read at the head of a text, whatever follows it.
pub fn spelled_head_is_read()
    ensures { (text : List ℕ) (names : List (List ℕ)) (relators : List (List Letter)) (rest : List ℕ)
        → PresentationAt text names relators rest
        → presentation_at text ≡ Ok (record { names = names; relators = relators; modulus = 0 }, rest) }
{}

/// What follows a presentation at the head of a text is an end of the text.
pub fn rest_is_an_end()
    ensures { (text : List ℕ) (p : Presented) (rest : List ℕ) → presentation_at text ≡ Ok (p, rest) → IsEnd text rest }
{}
