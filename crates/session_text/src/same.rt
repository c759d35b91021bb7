//! Whether two questions are the same.

ghost use Rattle.std.specs.Prelude.{◌≡◌, ◌↔◌, IsTrue};

use crate::question::Question;
use free_words::Word;

impl Question {
    /// Whether the question is the other.
    pub fn same(&self, other: &Question) -> bool
        ensures { IsTrue result ↔ (self.now ≡ other.now) }
    {
        match (self, other) {
            (Question::Trivial(word), Question::Trivial(second)) => same_word(word, second),
            (Question::Equal(u, v), Question::Equal(s, t)) => same_word(u, s) && same_word(v, t),
            (Question::Normal(word), Question::Normal(second)) => same_word(word, second),
            (
                Question::Hom { source, images },
                Question::Hom {
                    source: other_source,
                    images: other_images,
                },
            ) => source.same(other_source) && same_words(images.words(), other_images.words()),
            _ => false,
        }
    }
}

/// Whether the word is the other.
fn same_word(u: &Word, v: &Word) -> bool
    ensures { IsTrue result ↔ (u.now ≡ v.now) }
{
    u.letters() == v.letters()
}

/// Whether the words are the others, in their order.
#[tactic(auto, using(presentation::proofs::SameLists::same_list))]
fn same_words(a: &[Word], b: &[Word]) -> bool
    ensures { IsTrue result ↔ (a.now ≡ b.now) }
{
    if a.len() != b.len() {
        return false;
    }
    for (i, u) in a.iter().enumerate() {
        if !same_word(u, &b[i]) {
            return false;
        }
    }
    true
}
