//! Laws of the reader.

ghost use Rattle.std.specs.Prelude.{◌≡◌, ℕ, ◌-◌, ◌<◌, ◌≤◌, List, Some, Ok, Err, length, drop};
ghost use Rattle.free_words.specs.declared.letter.Letter.{Letter};
ghost use Rattle.free_words.specs.Words.{IsOver};
ghost use Rattle.word_text.specs.declared.fault.Fault.{Fault};
ghost use Rattle.word_text.specs.Faults.{IsFront, IsFault, bytes_before, bytes_from};
ghost use Rattle.word_text.specs.Machine.{Find, finding, word_at};
ghost use Rattle.word_text.specs.Naming.{IsNumberOf};
ghost use Rattle.word_text.specs.Powers.{written};
ghost use Rattle.word_text.specs.Place.{word_text};
ghost use Rattle.word_text.specs.Grammar.{IsWord};
ghost use Rattle.word_text.specs.Scan.{after_blanks};

/// What is read of a whole text is a word of the grammar, with its value.
#[tactic(auto, using(crate::proofs::Reached::text_spelled))]
pub fn read_is_spelled()
    ensures { (find : Find) (text : List ℕ) (w : List Letter) → word_text find text ≡ Ok w → IsWord find text w }
{}

/// A word of the grammar that is the whole text is read, with its value.
pub fn spelled_is_read()
    ensures { (find : Find) (text : List ℕ) (w : List Letter) → IsWord find text w → word_text find text ≡ Ok w }
{}

/// What stands before the first fault is the front of a word: with some bytes behind it, it is a word of the grammar,
/// of some length.
#[tactic(auto, using(crate::proofs::FirstFault::before_fault))]
pub fn before_a_fault_is_a_front()
    ensures { (find : Find) (text : List ℕ) (e : Fault) → word_text find text ≡ Err e
        → (e.left ≤ length text) × IsFront find (bytes_before text e.left) }
{}

/// What stands at the first fault is why no word goes on there. With the byte of `BadByte` or `Expected`, or at the end
/// of the text, what was read is the front of no word of any length; with the whole name of `UnknownName` or the whole
/// number of `ExponentTooLarge` none goes on; the factor of `WordTooLong` passes the limit, and no word within the
/// limit begins as the text does up to where that is met.
#[tactic(auto, using(crate::proofs::FirstFault::first_fault))]
pub fn at_a_fault_no_word_goes_on()
    ensures { (find : Find) (text : List ℕ) (e : Fault) → word_text find text ≡ Err e
        → IsFault find text (bytes_before text e.left) (bytes_from text e.left) e.kind }
{}

/// A fault of a word at the head of a text is the first fault of the text.
#[tactic(auto, using(crate::proofs::FirstFault::head_fault))]
pub fn head_fault_is_first()
    ensures { (find : Find) (text : List ℕ) (e : Fault) → word_at find text ≡ Err e → word_text find text ≡ Err e }
{}

/// The letters of a word of the grammar are generators that its names gave.
pub fn spelled_is_over()
    ensures { (n : ℕ) (find : Find) (text : List ℕ) (w : List Letter)
        → ((name : List ℕ) (g : ℕ) → find name ≡ Some g → g < n)
        → IsWord find text w → IsOver n w }
{}

/// A word of the grammar has no more letters than a written word may have.
#[tactic(auto, using(crate::proofs::Letters::word_short))]
pub fn spelled_is_short()
    ensures { (find : Find) (text : List ℕ) (w : List Letter) → IsWord find text w → length w ≤ written }
{}

/// The letters of a word that stands at the head of a text are generators that its names gave.
#[tactic(auto, using(crate::proofs::Letters::read_over))]
pub fn head_is_over()
    ensures { (n : ℕ) (find : Find) (text : List ℕ) (w : List Letter) (rest : List ℕ)
        → ((name : List ℕ) (g : ℕ) → find name ≡ Some g → g < n)
        → word_at find text ≡ Ok (w, rest) → IsOver n w }
{}

/// A word that stands at the head of a text has no more letters than a written word may have.
#[tactic(auto, using(crate::proofs::Letters::read_short))]
pub fn head_is_short()
    ensures { (find : Find) (text : List ℕ) (w : List Letter) (rest : List ℕ) → word_at find text ≡ Ok (w, rest)
        → length w ≤ written }
{}

/// What follows a word at the head of a text is an end of the text.
#[tactic(auto, using(crate::proofs::Tails::word_left))]
pub fn rest_is_an_end()
    ensures { (find : Find) (text : List ℕ) (w : List Letter) (rest : List ℕ) → word_at find text ≡ Ok (w, rest)
        → rest ≡ drop (length text - length rest) text }
{}

/// What follows a word at the head of a text begins behind blanks.
#[tactic(auto, using(crate::proofs::Tails::word_clear))]
pub fn rest_is_behind_blanks()
    ensures { (find : Find) (text : List ℕ) (w : List Letter) (rest : List ℕ) → word_at find text ≡ Ok (w, rest)
        → after_blanks rest ≡ rest }
{}

/// The number of a name is that of the first of the names that is the same.
#[tactic(auto, using(crate::proofs::Naming::finding_first))]
pub fn number_is_of_the_first()
    ensures { (names : List (List ℕ)) (name : List ℕ) → IsNumberOf names name (finding names name) }
{}

/// The number of a name is below the number of names.
#[tactic(auto, using(crate::proofs::Naming::finding_below))]
pub fn number_is_below()
    ensures { (names : List (List ℕ)) (name : List ℕ) (g : ℕ) → finding names name ≡ Some g → g < length names }
{}
