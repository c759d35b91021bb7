//! The texts of tasks: the numbers of two entries, and what is done with them.

ghost use Rattle.std.specs.Prelude.{◌≡◌, ◌++◌, codes, option_map, OnOk};
ghost use Rattle.spelling.specs.Spelling.{IsRead};
ghost use Rattle.report_lines.specs.Parts.{headed, IsHead};
ghost use Rattle.report_lines.specs.Texts.{kind_text, task_text};
ghost use Rattle.report_lines.specs.Lines.{IsKind, IsTask};

use crate::parts::number_then;
use outcomes::{PairKind, Task};
use spelling::{cut, write_number};
use std::alloc::AllocError;

/// The task that the text spells.
pub fn read_task(text: &[u8]) -> Option<Task>
    ensures { IsRead task_text IsTask text.now result }
{
    let (i, rest) = number_then(text)?;
    let (j, last) = number_then(rest)?;
    let kind = read_kind(last)?;
    Some(Task { i, j, kind })
}

/// The task at the head of the text, and what stands behind the space after it.
pub fn task_then(text: &[u8]) -> Option<(Task, &[u8])>
    ensures { IsRead (headed task_text (codes " ")) (IsHead IsTask) text.now (option_map (λ x. (x.0, x.1.now)) result) }
{
    let (i, rest) = number_then(text)?;
    let (j, last) = number_then(rest)?;
    let (kind, behind) = kind_then(last)?;
    Some((Task { i, j, kind }, behind))
}

fn read_kind(text: &[u8]) -> Option<PairKind>
    ensures { IsRead kind_text IsKind text.now result }
{
    if text == b"G".as_slice() {
        return Some(PairKind::G);
    }
    if text == b"S".as_slice() {
        return Some(PairKind::S);
    }
    None
}

fn kind_then(text: &[u8]) -> Option<(PairKind, &[u8])>
    ensures { IsRead (headed kind_text (codes " ")) (IsHead IsKind) text.now (option_map (λ x. (x.0, x.1.now)) result) }
{
    let (front, rest) = cut(text, b' ')?;
    let kind = read_kind(front)?;
    Some((kind, rest))
}

/// Appends the text of the task.
pub fn put_task(out: &mut Vec<u8>, task: Task) -> Result<(), AllocError>
    ensures { OnOk result (out.new.items ≡ out.old.items ++ task_text task) }
{
    write_number(out, task.i)?;
    out.extend_from_slice(b" ")?;
    write_number(out, task.j)?;
    out.extend_from_slice(b" ")?;
    match task.kind {
        PairKind::G => out.extend_from_slice(b"G"),
        PairKind::S => out.extend_from_slice(b"S"),
    }
}
