//! Whether two presentations are the same.

ghost use Rattle.std.specs.Prelude.{◌≡◌, ◌↔◌, IsTrue, map, string_bytes};

use crate::presentation::Presentation;
use free_words::Word;

fn same_names(a: &[String], b: &[String]) -> bool
    ensures { IsTrue result ↔ (map string_bytes a.now ≡ map string_bytes b.now) }
{
    a == b
}

fn same_word(u: &Word, v: &Word) -> bool
    ensures { IsTrue result ↔ (u.now ≡ v.now) }
{
    u.letters() == v.letters()
}

#[tactic(auto, using(crate::proofs::SameLists::same_list))]
fn same_words(a: &[Word], b: &[Word]) -> bool
    ensures { IsTrue result ↔ (a.now ≡ b.now) }
{
    if a.len() != b.len() {
        return false;
    }
    for (i, u) in a.iter().enumerate() {
        if !same_word(u, &b[i]) {
            return false;
        }
    }
    true
}

impl Presentation {
    /// Whether the names, the relators and the modulus are those of the other.
    pub fn same(&self, other: &Presentation) -> bool
        ensures { IsTrue result ↔ (self.now ≡ other.now) }
    {
        self.modulus() == other.modulus()
            && same_names(self.names(), other.names())
            && same_words(self.relators(), other.relators())
    }
}
