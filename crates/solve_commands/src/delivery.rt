//! Writing a report.

ghost use Rattle.std.specs.Prelude.{◌≤◌};
ghost use Rattle.mb_io.specs.Shelf.{CountRose};
ghost use Rattle.report_text.specs.Histories.{History};
ghost use Rattle.report_text.specs.Reports.{reported, IsReportable, IsHistoryOf};
ghost use Rattle.command_floor.specs.Answers.{IsSaid};
ghost use Rattle.legal_report.specs.Last.{AreLastKinds};
ghost use Rattle.solve_commands.specs.Runs.{ShowsSettled, DeliversReport};

use command_floor::Status;
use legal_report::{Kind, Solved};
use mb_io::Sink;
use outcomes::End;
use report_text::{WriteFault, write_report};
use std::alloc::Global;

/// The status that shows whether the report is settled: its log is sealed, and no last verdict is a stop.
pub fn status_of(solved: &Solved) -> Status
    requires { AreLastKinds (reported solved.now.report) solved.now.last.items }
    ensures shows { (h : History) → IsHistoryOf (reported solved.now.report) h → ShowsSettled h result }
    ensures said { IsSaid result }
{
    if solved.report.end == End::Sealed && Kind::Stop.count(&solved.last) == 0 {
        Status::Done
    } else {
        Status::Open
    }
}

/// Writes the report, and says how the run ends.
pub fn deliver_report<K: Sink>(alloc: Global, solved: &Solved, out: &mut K) -> Status
    requires reportable { IsReportable (reported solved.now.report) }
    requires last { AreLastKinds (reported solved.now.report) solved.now.last.items }
    ensures written { DeliversReport (CountRose (K.faults out.old) (K.faults out.new)) (K.taken out.old)
        (K.taken out.new) (reported solved.now.report) result }
    ensures later { K.faults out.old ≤ K.faults out.new }
{
    match write_report(alloc, &solved.report, out) {
        Ok(()) => status_of(solved),
        Err(WriteFault::Failed) => Status::WriteFault,
        Err(WriteFault::NoMemory) => Status::NoMemory,
    }
}
