//! What gives bytes and what takes them.

ghost use Rattle.std.specs.Prelude.{◌≡◌, ℕ, ◌<◌, ◌≤◌, ◌^◌, ◌↔◌, List, [], take, length, Option, IsSome, IfSome, IfOk};
ghost use Rattle.std.specs.Prelude.{OnOk, OnErr};
ghost use Rattle.mb_io.specs.Shelf.{CountRose, Gives, TakesPrefix};

/// A call did not do what it was to do. The shelf or the sink has counted it.
#[derive(Clone, Copy, Debug, PartialEq, Eq)]
pub struct Failed;

/// Bytes under names, read one name at a time.
///
/// A shelf may tell the bytes that it holds, as one in memory does, or tell nothing of them, as the files of a system
/// do. Telling or not is for good, and so are the bytes under a name: no call changes either.
pub trait Shelf {
    /// The bytes under a name, where the shelf tells them. A shelf that tells has None at a name that it doesn't hold.
    ghost under: { Self → List ℕ → Option (List ℕ) };

    /// The bytes that are left to read, where the shelf tells them.
    ghost left: { Self → Option (List ℕ) };

    /// No bytes are left: none were started, the last start failed, or the end was read.
    ghost ended: { Self → Type 0 };

    /// How often it has failed. The count stays at its last value.
    ghost faults: { Self → ℕ };

    /// Goes to the first byte under a name. A name that isn't there is a failure. After one no bytes are left.
    fn start(&mut self, name: &str) -> Result<(), Failed>
        ensures first { OnOk result (left self.new ≡ under self.old name.now) }
        ensures nothing { OnErr result (ended self.new) }
        ensures told { IsSome (left self.new) ↔ IsSome (left self.old) }
        ensures same { (n : List ℕ) → under self.new n ≡ under self.old n }

        ensures later { faults self.old ≤ faults self.new }
        ensures below { faults self.new < 2 ^ 64 }
        ensures cause { OnErr result (CountRose (faults self.old) (faults self.new)) };

    /// Puts the next bytes at the front of the buffer, and answers how many. For a buffer that isn't empty, 0 means
    /// the end. Past the end a read gives 0 again. A read that fails gives nothing.
    fn read(&mut self, buf: &mut [u8]) -> Result<usize, Failed>
        ensures within { IfOk result (λ n. n ≤ length buf.old) }
        ensures gives { IfOk result (λ n. Gives (left self.old) (take n buf.new) (left self.new)) }
        ensures end { IfOk result (λ n. n ≡ 0 → 0 < length buf.old → ended self.new) }
        ensures past { ended self.old → ended self.new × IfOk result (λ n. n ≡ 0) }
        ensures stays { OnErr result (left self.new ≡ left self.old) }
        ensures same { (n : List ℕ) → under self.new n ≡ under self.old n }

        ensures later { faults self.old ≤ faults self.new }
        ensures below { faults self.new < 2 ^ 64 }
        ensures cause { OnErr result (CountRose (faults self.old) (faults self.new)) };

    /// At the end none of the bytes that are told are left.
    ghost none_left: { (s : Self) → ended s → IfSome (left s) (λ bytes. bytes ≡ []) };
}

/// Where bytes go.
///
/// A sink may tell the bytes that it took, or tell nothing of them. Telling or not is for good.
pub trait Sink {
    /// The bytes taken so far, where the sink tells them.
    ghost taken: { Self → Option (List ℕ) };

    /// How often it has failed. The count stays at its last value.
    ghost faults: { Self → ℕ };

    /// Takes the front of the piece, and answers how many bytes that are: at least one, unless the piece is empty. A
    /// write that fails takes nothing.
    fn write(&mut self, piece: &[u8]) -> Result<usize, Failed>
        ensures within { IfOk result (λ n. n ≤ length piece.now) }
        ensures some { IfOk result (λ n. 0 < length piece.now → 0 < n) }
        ensures takes { IfOk result (λ n. TakesPrefix (taken self.old) (take n piece.now) (taken self.new)) }
        ensures stays { OnErr result (taken self.new ≡ taken self.old) }

        ensures later { faults self.old ≤ faults self.new }
        ensures below { faults self.new < 2 ^ 64 }
        ensures cause { OnErr result (CountRose (faults self.old) (faults self.new)) };
}
