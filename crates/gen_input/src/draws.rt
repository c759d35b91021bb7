//! Draws of small numbers.

ghost use Rattle.std.specs.Prelude.{◌≡◌, ◌<◌};
ghost use Rattle.gen_input.specs.Draws.{next, drawn};

/// A linear congruential generator of 64 bits, with the multiplier and the increment of Knuth's MMIX (The Art of
/// Computer Programming 2, 3.3.4).
#[derive(Clone, Copy)]
pub struct Draws {
    state: u64,
}

impl Draws {
    pub fn of_seed(seed: u64) -> Draws
        ensures { result.state ≡ seed }
    {
        Draws { state: seed }
    }

    /// A number below the bound. The low bits of the state are left out, since they repeat soonest.
    pub fn draw(&mut self, bound: u32) -> u32
        requires { 0 < bound }
        ensures state { self.new.state ≡ next self.old.state }
        ensures is { result ≡ drawn self.new.state bound }
        ensures below { result < bound }
    {
        self.state = self
            .state
            .wrapping_mul(6_364_136_223_846_793_005)
            .wrapping_add(1_442_695_040_888_963_407);
        ((self.state >> 33) % u64::from(bound)) as u32
    }
}
