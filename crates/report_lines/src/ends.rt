//! The texts of ends: how completion ends.

ghost use Rattle.std.specs.Prelude.{◌≡◌, ◌++◌, codes, length, option_map, OnOk};
ghost use Rattle.spelling.specs.Spelling.{IsRead};
ghost use Rattle.report_lines.specs.Parts.{headed, IsHead};
ghost use Rattle.report_lines.specs.Texts.{measure_text, end_text};
ghost use Rattle.report_lines.specs.Lines.{IsMeasure, EndIsOver, IsEndOf};

use crate::parts::{behind, number_then};
use crate::stops::{put_stop, read_stop};
use crate::tasks::{put_task, read_task, task_then};
use outcomes::{End, Measure};
use presentation::Presentation;
use spelling::{cut, read_number, write_number};
use std::alloc::AllocError;

/// The end that the text spells.
pub fn read_end(p: &Presentation, text: &[u8]) -> Option<End>
    ensures { IsRead (end_text p.now.names) (IsEndOf (length p.now.names)) text.now result }
{
    if text == b"sealed".as_slice() {
        return Some(End::Sealed);
    }
    if let Some(rest) = behind(text, b"stopped ") {
        return stopped(p, rest);
    }
    if let Some(rest) = behind(text, b"full ") {
        return full(p, rest);
    }
    if let Some(rest) = behind(text, b"spent ") {
        return spent(p, rest);
    }
    None
}

/// The end that the text spells behind `stopped `.
fn stopped(p: &Presentation, text: &[u8]) -> Option<End>
    ensures { IsRead (end_text p.now.names) (IsEndOf (length p.now.names)) (codes "stopped " ++ text.now) result }
{
    let (task, rest) = task_then(text)?;
    let stop = read_stop(p, rest)?;
    Some(End::Stopped { task, stop })
}

/// The end that the text spells behind `full `.
fn full(p: &Presentation, text: &[u8]) -> Option<End>
    ensures { IsRead (end_text p.now.names) (IsEndOf (length p.now.names)) (codes "full " ++ text.now) result }
{
    let (measure, rest) = measure_then(text)?;
    let count = read_number(rest)?;
    Some(End::Full { measure, count })
}

/// The end that the text spells behind `spent `.
fn spent(p: &Presentation, text: &[u8]) -> Option<End>
    ensures { IsRead (end_text p.now.names) (IsEndOf (length p.now.names)) (codes "spent " ++ text.now) result }
{
    let (commits, rest) = number_then(text)?;
    let task = read_task(rest)?;
    Some(End::Spent { commits, task })
}

fn read_measure(text: &[u8]) -> Option<Measure>
    ensures { IsRead measure_text IsMeasure text.now result }
{
    if text == b"entries".as_slice() {
        return Some(Measure::Entries);
    }
    if text == b"terms".as_slice() {
        return Some(Measure::Terms);
    }
    if text == b"steps".as_slice() {
        return Some(Measure::Steps);
    }
    None
}

fn measure_then(text: &[u8]) -> Option<(Measure, &[u8])>
    ensures { IsRead (headed measure_text (codes " ")) (IsHead IsMeasure) text.now
        (option_map (λ x. (x.0, x.1.now)) result) }
{
    let (front, rest) = cut(text, b' ')?;
    let measure = read_measure(front)?;
    Some((measure, rest))
}

/// Appends the text of the end.
pub fn put_end(out: &mut Vec<u8>, p: &Presentation, end: &End) -> Result<(), AllocError>
    requires { EndIsOver (length p.now.names) end.now }
    ensures { OnOk result (out.new.items ≡ out.old.items ++ end_text p.now.names end.now) }
{
    match end {
        End::Sealed => out.extend_from_slice(b"sealed"),
        End::Stopped { task, stop } => {
            out.extend_from_slice(b"stopped ")?;
            put_task(out, *task)?;
            out.extend_from_slice(b" ")?;
            put_stop(out, p, stop)
        }
        End::Full { measure, count } => {
            out.extend_from_slice(b"full ")?;
            put_measure(out, *measure)?;
            out.extend_from_slice(b" ")?;
            write_number(out, *count)
        }
        End::Spent { commits, task } => {
            out.extend_from_slice(b"spent ")?;
            write_number(out, *commits)?;
            out.extend_from_slice(b" ")?;
            put_task(out, *task)
        }
    }
}

fn put_measure(out: &mut Vec<u8>, measure: Measure) -> Result<(), AllocError>
    ensures { OnOk result (out.new.items ≡ out.old.items ++ measure_text measure) }
{
    match measure {
        Measure::Entries => out.extend_from_slice(b"entries"),
        Measure::Terms => out.extend_from_slice(b"terms"),
        Measure::Steps => out.extend_from_slice(b"steps"),
    }
}
