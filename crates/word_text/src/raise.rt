//! To which power a word is raised.

ghost use Rattle.std.specs.Prelude.{◌≡◌, ◌*◌, ◌<◌, ◌^◌, List};
ghost use Rattle.free_words.specs.declared.letter.Letter.{Letter};
ghost use Rattle.word_text.specs.Powers.{power_of};

/// So many copies of a word, or of its inverse.
#[derive(Clone, Copy, Debug, PartialEq, Eq)]
pub struct Raise {
    pub negative: bool,
    pub times: u32,
}

impl Raise {
    /// The word itself.
    pub const ONCE: Raise = Raise {
        negative: false,
        times: 1,
    };

    /// What this power and then the next one come to.
    #[tactic(auto, using(crate::proofs::Algebra::power_power))]
    pub fn then(self, next: Raise) -> Raise
        requires { next.times * self.times < 2 ^ 32 }
        ensures times { result.times ≡ next.times * self.times }
        ensures same { (w : List Letter) → power_of next.negative next.times (power_of self.negative self.times w)
            ≡ power_of result.negative result.times w }
    {
        Raise {
            negative: if next.negative {
                !self.negative
            } else {
                self.negative
            },
            times: next.times * self.times,
        }
    }
}
