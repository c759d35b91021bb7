//! All the bytes of a text, written piece by piece.

ghost use Rattle.std.specs.Prelude.{ℕ, ◌≤◌, take, OnOk, OnErr};
ghost use Rattle.mb_io.specs.Shelf.{TakesPrefix, CountRose};

use crate::shelf::{Failed, Sink};

/// Writes all the bytes, in at most as many turns as there are bytes. After a failure the sink has taken a front of
/// them.
#[tactic(auto, using(crate::proofs::Taking::pieces, crate::proofs::Giving::rose_later))]
pub fn write_all<K: Sink>(out: &mut K, bytes: &[u8]) -> Result<(), Failed>
    ensures all { OnOk result (TakesPrefix (K.taken out.old) bytes.now (K.taken out.new)) }
    ensures front { OnErr result ((n : ℕ) × TakesPrefix (K.taken out.old) (take n bytes.now) (K.taken out.new)) }
    ensures later { K.faults out.old ≤ K.faults out.new }
    ensures cause { OnErr result (CountRose (K.faults out.old) (K.faults out.new)) }
{
    let mut at = 0;
    while at < bytes.len() {
        let (_, rest) = bytes.split_at(at);
        at += out.write(rest)?;
    }
    Ok(())
}
