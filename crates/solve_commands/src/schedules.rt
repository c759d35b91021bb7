//! Schedules under names, read whole.

ghost use Rattle.std.specs.Prelude.{◌≡◌, ◌≤◌, ℕ, List, All, IfOk, IfErr};
ghost use Rattle.mb_io.specs.Shelf.{CountRose};
ghost use Rattle.session_text.specs.Schedule.{IsEvent, schedule_text};
ghost use Rattle.command_floor.specs.Files.{FileGives, HasCause, in_lines};
ghost use Rattle.solve_commands.specs.declared.sessions.TheConstants.{SESSIONS};

use command_floor::{Halt, load, refusal};
use mb_io::Shelf;
use session_text::{Event, read_schedule};
use std::alloc::Global;

/// A schedule's text has at most so many bytes.
pub const SCHEDULE_BYTES: u32 = 1_048_576;

/// The events of the schedule under this name, where there are so many sessions.
pub fn load_schedule<S: Shelf>(
    alloc: Global,
    shelf: &mut S,
    name: &str,
    sessions: usize,
) -> Result<Vec<Event>, Halt>
    requires { sessions ≤ SESSIONS }
    ensures gives { FileGives (λ events. events.items) (CountRose (S.faults shelf.old) (S.faults shelf.new))
        SCHEDULE_BYTES name.now (S.under shelf.old name.now) (in_lines (schedule_text sessions)) result }
    ensures events { IfOk result (λ events. All (IsEvent sessions) events.items) }
    ensures cause { IfErr result (HasCause (CountRose (S.faults shelf.old) (S.faults shelf.new))) }
    ensures same { (n : List ℕ) → S.under shelf.new n ≡ S.under shelf.old n }
    ensures later { S.faults shelf.old ≤ S.faults shelf.new }
{
    let text = load(alloc, shelf, name, SCHEDULE_BYTES)?;
    match read_schedule(alloc, &text, sessions as u32) {
        Ok(events) => Ok(events),
        Err(fault) => Err(refusal(alloc, name, &fault)),
    }
}
