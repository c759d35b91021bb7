//! The texts of tasks and stops, as a report's line of the end has them.

ghost use Rattle.std.specs.Prelude.{◌≡◌, ◌++◌, length, OnOk};
ghost use Rattle.report_lines.specs.Texts.{task_text, stop_text};
ghost use Rattle.report_lines.specs.Lines.{StopIsOver};

use module_vec::Stop;
use outcomes::{PairKind, Task};
use presentation::Presentation;
use spelling::write_number;
use std::alloc::AllocError;
use vector_text::put_place;

/// Appends the text of the task.
pub fn put_task(out: &mut Vec<u8>, task: Task) -> Result<(), AllocError>
    ensures { OnOk result (out.new.items ≡ out.old.items ++ task_text task) }
{
    write_number(out, task.i)?;
    out.extend_from_slice(b" ")?;
    write_number(out, task.j)?;
    out.extend_from_slice(b" ")?;
    match task.kind {
        PairKind::G => out.extend_from_slice(b"G"),
        PairKind::S => out.extend_from_slice(b"S"),
    }
}

/// Appends the text of the stop.
pub fn put_stop(out: &mut Vec<u8>, p: &Presentation, stop: &Stop) -> Result<(), AllocError>
    requires { StopIsOver (length p.now.names) stop.now }
    ensures { OnOk result (out.new.items ≡ out.old.items ++ stop_text p.now.names stop.now) }
{
    match stop {
        Stop::Wide { at, step } => {
            out.extend_from_slice(b"wide ")?;
            write_number(out, *step)?;
            out.extend_from_slice(b" ")?;
            put_place(out, p, at)
        }
        Stop::Long { terms, step } => {
            out.extend_from_slice(b"long ")?;
            write_number(out, *step)?;
            out.extend_from_slice(b" ")?;
            write_number(out, *terms)
        }
        Stop::Deep => out.extend_from_slice(b"deep"),
        Stop::Steep { degree } => {
            out.extend_from_slice(b"steep ")?;
            write_number(out, *degree)
        }
    }
}
