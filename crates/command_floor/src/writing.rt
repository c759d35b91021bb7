//! Writing an answer.

ghost use Rattle.std.specs.Prelude.{◌≤◌};
ghost use Rattle.mb_io.specs.Shelf.{CountRose};
ghost use Rattle.command_floor.specs.Ends.{Delivers};

use crate::answer::Answer;
use crate::status::Status;
use mb_io::{Sink, write_all};

/// Writes the answer's text, and says how the run ends.
pub fn deliver<K: Sink>(out: &mut K, answer: &Answer) -> Status
    ensures written { Delivers (CountRose (K.faults out.old) (K.faults out.new)) (K.taken out.old) (K.taken out.new)
        answer.now result }
    ensures later { K.faults out.old ≤ K.faults out.new }
{
    match write_all(out, answer.text()) {
        Ok(()) => answer.status(),
        Err(_) => Status::WriteFault,
    }
}
