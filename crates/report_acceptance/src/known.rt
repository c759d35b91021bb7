//! What holds of the parts of every report.

ghost use Rattle.std.specs.Prelude.{length};
ghost use Rattle.report_lines.specs.Lines.{EndIsOver, IsEndOf};
ghost use Rattle.report_text.specs.Reports.{reported, IsReportable};
ghost use Rattle.report_acceptance.specs.Accepting.{IsKnown};

use basis_entry::Entry;
use outcomes::End;
use report_text::Report;
use session_core::Session;

/// What the types of a report's parts keep. The call does nothing.
pub fn report_is_known(r: &Report)
    requires { IsReportable (reported r.now) }
    ensures { IsKnown (reported r.now) }
{
    r.pres.known();
    Entry::all_known(&r.entries);
    end_is_known(r.end, r.pres.count());
    Session::all_known(&r.sessions);
}

/// How completion has ended.
fn end_is_known(end: End, count: u8)
    requires { EndIsOver count end }
    ensures { IsEndOf count end }
{}
