//! Laws of written reports.

ghost use Rattle.std.specs.Prelude.{ℕ, List, Result, Ok};
ghost use Rattle.cert_checker.specs.declared.checked.Checked.{Checked};
ghost use Rattle.cert_checker.specs.declared.faults.CertFault.{CertFault};
ghost use Rattle.cert_checker.specs.Texts.{Answers, TellsWhole};
ghost use Rattle.report_text.specs.Histories.{History};
ghost use Rattle.report_reading.specs.declared.data.ReportData.{ReportData};
ghost use Rattle.report_reading.specs.declared.fault.ReportFault.{ReportFault};
ghost use Rattle.report_reading.specs.Reading.{IsReport, Answers as IsAnswer};
ghost use Rattle.report_trimming.specs.Trimming.{IsTrimming};
ghost use Rattle.report_text.specs.Reports.{Reported, IsReportable, IsHistoryOf, text_of};
ghost use Rattle.report_acceptance.specs.Accepting.{IsKnown, IsAccepted, IsTrimmedAccepted, told_amount, data_amount};
ghost use Rattle.report_acceptance.specs.Saying.{data_of, IsReadBack};

use report_reading::laws::{reports_have_no_fault, reports_say_one_thing};

/// To the text that is written of a report the checker answers how many entries and proofs it holds, unless memory runs
/// out: it never finds a line that fails.
#[tactic(auto, using(crate::proofs::Acceptance::is_accepted))]
pub fn written_reports_are_accepted()
    ensures { (r : Reported) (h : History) → IsKnown r → IsReportable r → IsHistoryOf r h
        → (c : Result Checked CertFault) → Answers r.pres (text_of r h) c → IsAccepted r h c }
{}

/// Each line of that text holds, so that answer is there to be given.
#[tactic(auto, using(crate::proofs::Acceptance::is_told))]
pub fn written_reports_hold()
    ensures { (r : Reported) (h : History) → IsKnown r → IsReportable r → IsHistoryOf r h
        → TellsWhole r.pres (text_of r h) (Ok (told_amount r h)) }
{}

/// The text of the trimming of a report is accepted too: to a text that says what is left of the history, where only
/// the used entries are kept, the checker answers how many entries and proofs that is, unless memory runs out.
pub fn trimmed_reports_are_accepted()
    ensures { (r : Reported) (h : History) → IsKnown r → IsReportable r → IsHistoryOf r h
        → (t : ReportData) → IsTrimming (data_of h) t → (text : List ℕ) → IsReport r.pres text t
        → (c : Result Checked CertFault) → Answers r.pres text c → IsTrimmedAccepted t c }
{}

/// Each line of that text holds, so that answer is there to be given.
pub fn trimmed_reports_hold()
    ensures { (r : Reported) (h : History) → IsKnown r → IsReportable r → IsHistoryOf r h
        → (t : ReportData) → IsTrimming (data_of h) t → (text : List ℕ) → IsReport r.pres text t
        → TellsWhole r.pres text (Ok (data_amount t)) }
{}

/// The text that is written of a report says the history that it was written from: its entries in order, the answers by
/// their fronts with their proofs, behind them the answers to what was left open, and the end.
pub fn written_reports_say()
    ensures { (r : Reported) (h : History) → IsKnown r → IsReportable r → IsHistoryOf r h
        → IsReport r.pres (text_of r h) (data_of h) }
{}

/// So it is read back: to that text the reader answers what was written, unless memory runs out.
pub fn written_reports_are_read_back()
    ensures { (r : Reported) (h : History) → IsKnown r → IsReportable r → IsHistoryOf r h
        → (d : Result ReportData ReportFault) → IsAnswer r.pres (text_of r h) d → IsReadBack h d }
{
    written_reports_say();
    reports_say_one_thing();
    reports_have_no_fault();
}
