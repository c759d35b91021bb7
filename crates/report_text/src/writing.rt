//! Writing a report.

ghost use Rattle.std.specs.List.{AllByRecursion};
ghost use Rattle.std.specs.Prelude.{◌≡◌, ◌++◌, ◌∷◌, [], length, option_map, OnOk};
ghost use Rattle.std.specs.Arc.{arc_value};
ghost use Rattle.report_lines.specs.declared.lines.Line.TheVariants as lines;
ghost use Rattle.report_lines.specs.Lines.{EndIsOver};
ghost use Rattle.report_lines.specs.Texts.{title, pres_line, line_text};
ghost use Rattle.report_text.specs.Closing.{HasClosings};
ghost use Rattle.report_text.specs.Histories.{History};
ghost use Rattle.report_text.specs.Reports.{reported, reported_of, IsReportable, IsHistoryOf, IsReplied, text_of};
ghost use Rattle.report_text.specs.Writing.{Puts, Counts};

use crate::closing::put_closings;
use crate::entries::put_items;
use crate::log::Log;
use crate::pieces::put_with_end;
use crate::{Report, WriteFault};
use basis_entry::{Items, Sealed};
use mb_io::Sink;
use outcomes::End;
use presentation::write_presentation;
use report_lines::put_ending;
use session_core::Session;
use std::alloc::Global;

/// Writes the text of the report, line by line. Where the sink tells its bytes, `Ok` has appended that text, and a
/// refusal a front of it.
///
/// `Failed` comes only where the sink has counted a failure.
pub fn write_report<K: Sink>(alloc: Global, r: &Report, out: &mut K) -> Result<(), WriteFault>
    requires { IsReportable (reported r.now) }
    // There is one history of the report alone.
    ensures text { (h : History) → IsHistoryOf (reported r.now) h →
        Puts (K.taken out.old) (text_of (reported r.now) h) result (K.taken out.new) }
    ensures told { OnOk result ((h : History) × IsHistoryOf (reported r.now) h) }
    ensures counts { Counts (K.faults out.old) result (K.faults out.new) }
{
    let sessions: &[Session] = &r.sessions;
    let log = Log::of(alloc, &r.pres, Items::of(&r.entries, seal_of(r)))?;
    put_lines(alloc, &log, sessions, &r.end, out)
}

/// Writes the lines of a log, with its end and the sessions.
fn put_lines<K: Sink>(
    alloc: Global,
    log: &Log<'_>,
    sessions: &[Session],
    end: &End,
    out: &mut K,
) -> Result<(), WriteFault>
    requires replies { AllByRecursion (IsReplied log.now.pres log.now.entries log.now.seal) sessions.now }
    requires end { EndIsOver (length log.now.pres.names) end.now }
    ensures text { (h : History) → IsHistoryOf (reported_of log.now end.now sessions.now) h →
        Puts (K.taken out.old) (text_of (reported_of log.now end.now sessions.now) h) result (K.taken out.new) }
    ensures told { OnOk result (AllByRecursion (HasClosings log.now.pres log.now.entries log.now.seal) sessions.now) }
    ensures counts { Counts (K.faults out.old) result (K.faults out.new) }
{
    put_head(alloc, log, out)?;
    put_items(alloc, log, sessions, out)?;
    put_end(alloc, log, end, out)?;
    put_closings(alloc, log, sessions, out)?;
    let last = Vec::from_slice(alloc, b"done")?;
    put_with_end(last, out)
}

/// The seal of the report.
fn seal_of(r: &Report) -> Option<&Sealed>
    ensures { option_map (λ s. s.now) result ≡ option_map arc_value r.now.sealed }
{
    match &r.sealed {
        Some(seal) => Some(seal),
        None => None,
    }
}

/// Writes the two lines at the head.
fn put_head<K: Sink>(alloc: Global, log: &Log<'_>, out: &mut K) -> Result<(), WriteFault>
    ensures text { Puts (K.taken out.old) ((title ++ 10 ∷ []) ++ (pres_line log.now.pres ++ 10 ∷ [])) result
        (K.taken out.new) }
    ensures counts { Counts (K.faults out.old) result (K.faults out.new) }
{
    let first = Vec::from_slice(alloc, b"metab report 1")?;
    put_with_end(first, out)?;
    let mut line = Vec::from_slice(alloc, b"pres ")?;
    line.extend_from_slice(&write_presentation(alloc, log.pres())?)?;
    put_with_end(line, out)
}

/// Writes the line of the end.
fn put_end<K: Sink>(alloc: Global, log: &Log<'_>, end: &End, out: &mut K) -> Result<(), WriteFault>
    requires { EndIsOver (length log.now.pres.names) end.now }
    ensures text { Puts (K.taken out.old) (line_text log.now.pres (lines.End end.now) ++ 10 ∷ []) result
        (K.taken out.new) }
    ensures counts { Counts (K.faults out.old) result (K.faults out.new) }
{
    let mut line = Vec::new(alloc);
    put_ending(&mut line, log.pres(), end)?;
    put_with_end(line, out)
}
