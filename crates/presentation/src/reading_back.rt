//! Laws: what is written is read back.

ghost use Rattle.std.specs.Prelude.{◌≡◌, ℕ, ◌++◌, List, length, Ok, IsTrue};
ghost use Rattle.free_words.specs.declared.letter.Letter.{Letter};
ghost use Rattle.word_text.specs.Grammar.{IsWord};
ghost use Rattle.word_text.specs.Machine.{finding, word_at};
ghost use Rattle.word_text.specs.Place.{word_text};
ghost use Rattle.word_text.specs.Scan.{after_blanks};
ghost use Rattle.presentation.specs.Presented.{Presented, IsPresented, IsWritten};
ghost use Rattle.presentation.specs.Grammar.{IsPresentation};
ghost use Rattle.presentation.specs.Writing.{written_word, written_presentation, ends_word};
ghost use Rattle.presentation.specs.Reading.{presentation_at, presentation_text};

/// A written word is in the grammar of words, with the word as its value.
#[tactic(auto, using(crate::proofs::WritingBack::word_spelled_back))]
pub fn written_word_is_spelled()
    ensures { (p : Presented) (w : List Letter) → IsPresented p → IsWritten (length p.names) w
        → IsWord (finding p.names) (written_word p.names w) w }
{}

/// A written word is read back.
#[tactic(auto, using(crate::proofs::WritingBack::word_read_back))]
pub fn written_word_is_read()
    ensures { (p : Presented) (w : List Letter) → IsPresented p → IsWritten (length p.names) w
        → word_text (finding p.names) (written_word p.names w) ≡ Ok w }
{}

/// A written word is read back at the head of a longer text, where no factor begins or goes on behind it.
#[tactic(auto, using(crate::proofs::WritingBack::word_read_first))]
pub fn written_word_is_read_first()
    ensures { (p : Presented) (w : List Letter) (rest : List ℕ) → IsPresented p → IsWritten (length p.names) w
        → IsTrue (ends_word rest)
        → word_at (finding p.names) (written_word p.names w ++ rest) ≡ Ok (w, after_blanks rest) }
{}

/// The same behind blanks.
#[tactic(auto, using(crate::proofs::WritingBack::word_read_before))]
pub fn written_word_is_read_behind_blanks()
    ensures { (p : Presented) (w : List Letter) (text rest : List ℕ) → IsPresented p → IsWritten (length p.names) w
        → IsTrue (ends_word rest)
        → after_blanks text ≡ written_word p.names w ++ rest → word_at (finding p.names) text
        ≡ Ok (w, after_blanks rest) }
{}

/// A written presentation is read back.
#[tactic(auto, using(crate::proofs::WritingWhole::presentation_read))]
pub fn written_presentation_is_read()
    ensures { (p : Presented) → IsPresented p → presentation_text (written_presentation p) ≡ Ok p }
{}

/// A written presentation is in the grammar of presentations, with the presentation as its value.
#[tactic(auto, using(crate::proofs::WritingWhole::presentation_spelled_back))]
pub fn written_presentation_is_spelled()
    ensures { (p : Presented) → IsPresented p → IsPresentation (written_presentation p) p }
{}

/// A written presentation without a modulus is read back at the head of a longer text.
pub fn written_presentation_is_read_first()
    ensures { (p : Presented) (rest : List ℕ) → IsPresented p → p.modulus ≡ 0
        → presentation_at (written_presentation p ++ rest) ≡ Ok (p, rest) }
{}

/// The same behind blanks.
pub fn written_presentation_is_read_behind_blanks()
    ensures { (p : Presented) (text rest : List ℕ) → IsPresented p → p.modulus ≡ 0
        → after_blanks text ≡ written_presentation p ++ rest
        → presentation_at text ≡ Ok (p, rest) }
{}
