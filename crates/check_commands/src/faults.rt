//! Answers that several commands give: a line that can't stand, and a certificate beyond its limits.

ghost use Rattle.std.specs.Prelude.{◌≡◌, IfOk};
ghost use Rattle.command_floor.specs.Files.{HasCause};
ghost use Rattle.check_commands.specs.Faults.{beyond, line_refused, RefusesLine};

use command_floor::{Answer, Halt, Status};
use std::alloc::{AllocError, Global};

/// The answer where something is beyond the limits of flat certificates.
pub fn beyond(alloc: Global) -> Result<Answer, AllocError>
    ensures { IfOk result (λ a. a ≡ beyond) }
{
    let text = String::from_str(alloc, "flat beyond\n")?;
    Ok(Answer::new(Status::Open, text.into_bytes()))
}

/// The answer where the text under this name can't go on with this line, as the text of what it was to be.
fn line_refused(alloc: Global, name: &str, line: u32, what: &str) -> Result<Answer, AllocError>
    ensures { IfOk result (λ a. a ≡ line_refused name.now line what.now) }
{
    let text = format!(in alloc; "refused {name} line {line} {what}\n")?;
    Ok(Answer::new(Status::TextRefused, text.into_bytes()))
}

/// A command goes no further where the text under this name can't go on with this line.
pub fn refusing_line(alloc: Global, name: &str, line: u32, what: &str) -> Halt
    ensures refuses { RefusesLine name.now line what.now result }
    ensures cause { HasCause ⊥ result }
{
    match line_refused(alloc, name, line, what) {
        Ok(answer) => Halt::Says(answer),
        Err(_) => Halt::NoMemory,
    }
}
