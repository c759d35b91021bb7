//! The lines of the items.

ghost use Rattle.std.specs.List.{AllByRecursion};
ghost use Rattle.std.specs.Prelude.{◌+◌, ◌<◌, ◌^◌, ◌++◌, ◌∷◌, [], List, length};
ghost use Rattle.report_lines.specs.declared.lines.Line.TheVariants as lines;
ghost use Rattle.report_lines.specs.Texts.{line_text, lines_text};
ghost use Rattle.report_text.specs.Answers.{AreAnswered};
ghost use Rattle.report_text.specs.Histories.{SessionAnswers, item_lines, made_by, seal_lines, told_from};
ghost use Rattle.report_text.specs.Reports.{EntryIsOver, IsReplied};
ghost use Rattle.report_text.specs.Writing.{Puts, Counts};

use crate::WriteFault;
use crate::live::put_live_at;
use crate::log::Log;
use crate::pieces::put_with_end;
use basis_entry::{Entry, Front, Recipe};
use mb_io::Sink;
use module_vec::VecList;
use presentation::Presentation;
use report_lines::{put_generator, put_sum};
use session_core::Session;
use std::alloc::Global;

/// Writes the items, and behind each the answers of the front that it completes.
pub fn put_items<K: Sink>(
    alloc: Global,
    log: &Log<'_>,
    sessions: &[Session],
    out: &mut K,
) -> Result<(), WriteFault>
    requires replies { AllByRecursion (IsReplied log.now.pres log.now.entries log.now.seal) sessions.now }
    ensures text { (ts : List SessionAnswers) → AreAnswered log.now.pres log.now.entries log.now.seal sessions.now ts →
        Puts (K.taken out.old) (lines_text log.now.pres (told_from ts 0
        (item_lines log.now.entries log.now.seal))) result (K.taken out.new) }
    ensures counts { Counts (K.faults out.old) result (K.faults out.new) }
{
    for number in 0..log.count() {
        put_entry(alloc, log.pres(), number, log.entry(number), out)?;
        put_live_at(alloc, log, sessions, number + 1, out)?;
    }
    put_seal(alloc, log, sessions, out)
}

/// Writes the seal, if there is one, and the answers by all items behind it.
fn put_seal<K: Sink>(
    alloc: Global,
    log: &Log<'_>,
    sessions: &[Session],
    out: &mut K,
) -> Result<(), WriteFault>
    requires replies { AllByRecursion (IsReplied log.now.pres log.now.entries log.now.seal) sessions.now }
    ensures text { (ts : List SessionAnswers) → AreAnswered log.now.pres log.now.entries log.now.seal sessions.now ts →
        Puts (K.taken out.old) (lines_text log.now.pres (told_from ts (length log.now.entries)
        (seal_lines log.now.seal))) result (K.taken out.new) }
    ensures counts { Counts (K.faults out.old) result (K.faults out.new) }
{
    let Some(_) = log.sealed() else {
        return Ok(());
    };
    let line = Vec::from_slice(alloc, b"seal")?;
    put_with_end(line, out)?;
    put_live_at(alloc, log, sessions, log.front(), out)
}

/// Writes the line of an entry.
fn put_entry<K: Sink>(
    alloc: Global,
    p: &Presentation,
    number: u32,
    entry: &Entry,
    out: &mut K,
) -> Result<(), WriteFault>
    requires { EntryIsOver (length p.now.names) entry.now }
    ensures text { Puts (K.taken out.old) (line_text p.now (lines.Entry number (made_by entry.now.recipe)
        entry.now.vector) ++ 10 ∷ []) result (K.taken out.new) }
    ensures counts { Counts (K.faults out.old) result (K.faults out.new) }
{
    let mut line = Vec::new(alloc);
    match entry.recipe() {
        Recipe::Gen { negated, .. } => {
            put_generator(&mut line, p, number, *negated, entry.vector())?
        }
        Recipe::Sum { steps } => put_sum(&mut line, p, number, steps, entry.vector())?,
    }
    put_with_end(line, out)
}
