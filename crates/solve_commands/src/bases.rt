//! Basis files under names, read whole and tested.

ghost use Rattle.std.specs.Prelude.{◌≡◌, ◌≤◌, ◌++◌, ℕ, List, length, IfOk, IfErr, OnOk};
ghost use Rattle.std.specs.Arc.{arc_value};
ghost use Rattle.mb_io.specs.Shelf.{CountRose};
ghost use Rattle.report_lines.specs.Lines.{StopIsOver};
ghost use Rattle.saved_basis.specs.Files.{IsSaved};
ghost use Rattle.saved_basis.specs.Reading.{KindIsOver, FaultIsOver};
ghost use Rattle.command_floor.specs.Files.{HasCause};
ghost use Rattle.solve_commands.specs.Bases.{kind_text, line_fails, task_is_open, task_stops, RefusesBasis, BasisGives};

use crate::stops::{put_stop, put_task};
use basis_entry::Sealed;
use command_floor::{Answer, Halt, Status, load};
use mb_io::Shelf;
use module_vec::Stop;
use outcomes::Task;
use presentation::Presentation;
use saved_basis::{BasisFault, LineKind, read_basis};
use std::alloc::{AllocError, Global};
use std::sync::Arc;
use vector_text::put_place;

/// A basis file has at most so many bytes.
pub const BASIS_BYTES: u32 = 67_108_864;

/// Puts the name of a kind of fault at the end.
fn put_kind(out: &mut Vec<u8>, p: &Presentation, kind: &LineKind) -> Result<(), AllocError>
    requires { KindIsOver (length p.now.names) kind.now }
    ensures { OnOk result (out.new.items ≡ out.old.items ++ kind_text p.now.names kind.now) }
{
    match kind {
        LineKind::Text => out.extend_from_slice(b"text"),
        LineKind::NoEntry => out.extend_from_slice(b"no-entry"),
        LineKind::NotEqual { at } => {
            out.extend_from_slice(b"not-equal ")?;
            put_place(out, p, at)
        }
        LineKind::Wide => out.extend_from_slice(b"wide"),
        LineKind::Long => out.extend_from_slice(b"long"),
    }
}

/// The answer where a line can't stand.
fn line_fails(
    alloc: Global,
    p: &Presentation,
    line: u32,
    kind: &LineKind,
) -> Result<Answer, AllocError>
    requires { KindIsOver (length p.now.names) kind.now }
    ensures { IfOk result (λ a. a ≡ line_fails p.now.names line kind.now) }
{
    let mut text = format!(in alloc; "fails line {line} ")?.into_bytes();
    put_kind(&mut text, p, kind)?;
    text.push(b'\n')?;
    Ok(Answer::new(Status::Fails, text))
}

/// The answer where a task leaves a rest.
fn task_is_open(alloc: Global, task: Task) -> Result<Answer, AllocError>
    ensures { IfOk result (λ a. a ≡ task_is_open task) }
{
    let mut text = Vec::from_slice(alloc, b"fails open ")?;
    put_task(&mut text, task)?;
    text.push(b'\n')?;
    Ok(Answer::new(Status::Fails, text))
}

/// The answer where a task stops.
fn task_stops(
    alloc: Global,
    p: &Presentation,
    task: Task,
    stop: &Stop,
) -> Result<Answer, AllocError>
    requires { StopIsOver (length p.now.names) stop.now }
    ensures { IfOk result (λ a. a ≡ task_stops p.now.names task stop.now) }
{
    let mut text = Vec::from_slice(alloc, b"fails stop ")?;
    put_task(&mut text, task)?;
    text.push(b' ')?;
    put_stop(&mut text, p, stop)?;
    text.push(b'\n')?;
    Ok(Answer::new(Status::Fails, text))
}

/// The answer to what is wrong with a basis.
fn refusal(alloc: Global, p: &Presentation, fault: &BasisFault) -> Halt
    requires { FaultIsOver (length p.now.names) fault.now }
    ensures refuses { RefusesBasis p.now fault.now result }
    ensures cause { HasCause ⊥ result }
{
    let answer = match fault {
        BasisFault::NoMemory => return Halt::NoMemory,
        BasisFault::Line { line, kind } => line_fails(alloc, p, *line, kind),
        BasisFault::Open { i, j, kind } => {
            let task = Task {
                i: *i,
                j: *j,
                kind: *kind,
            };
            task_is_open(alloc, task)
        }
        BasisFault::Stopped { i, j, kind, stop } => {
            let task = Task {
                i: *i,
                j: *j,
                kind: *kind,
            };
            task_stops(alloc, p, task, stop)
        }
    };
    match answer {
        Ok(answer) => Halt::Says(answer),
        Err(_) => Halt::NoMemory,
    }
}

/// The seal of the presentation whose basis file is under this name: each line and each task of it is tested.
pub fn load_basis<S: Shelf>(
    alloc: Global,
    shelf: &mut S,
    p: &Arc<Presentation>,
    name: &str,
) -> Result<Sealed, Halt>
    ensures gives { BasisGives (CountRose (S.faults shelf.old) (S.faults shelf.new)) (arc_value p.now) name.now
        (S.under shelf.old name.now) result }
    ensures source { IfOk result (λ s. s.source ≡ arc_value p.now) }
    ensures saved { IfOk result (λ s. IsSaved (arc_value p.now) s.entries) }
    ensures cause { IfErr result (HasCause (CountRose (S.faults shelf.old) (S.faults shelf.new))) }
    ensures same { (n : List ℕ) → S.under shelf.new n ≡ S.under shelf.old n }
    ensures later { S.faults shelf.old ≤ S.faults shelf.new }
{
    let text = load(alloc, shelf, name, BASIS_BYTES)?;
    match read_basis(alloc, p, &text) {
        Ok(seal) => Ok(seal),
        Err(fault) => Err(refusal(alloc, p, &fault)),
    }
}
