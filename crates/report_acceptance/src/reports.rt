//! Written reports as the program has them.

ghost use Rattle.std.specs.Prelude.{ℕ, List, Result, Ok};
ghost use Rattle.cert_checker.specs.declared.checked.Checked.{Checked};
ghost use Rattle.cert_checker.specs.declared.faults.CertFault.{CertFault};
ghost use Rattle.cert_checker.specs.Texts.{Answers, TellsWhole};
ghost use Rattle.report_reading.specs.declared.data.ReportData.{ReportData};
ghost use Rattle.report_reading.specs.declared.fault.ReportFault.{ReportFault};
ghost use Rattle.report_reading.specs.Reading.{IsReport, Answers as IsAnswer};
ghost use Rattle.report_trimming.specs.Trimming.{IsTrimming};
ghost use Rattle.report_text.specs.Histories.{History};
ghost use Rattle.report_text.specs.Reports.{reported, IsReportable, IsHistoryOf, text_of};
ghost use Rattle.report_acceptance.specs.Accepting.{IsAccepted, IsTrimmedAccepted, told_amount, data_amount};
ghost use Rattle.report_acceptance.specs.Saying.{data_of, IsReadBack};

use crate::known::report_is_known;
use crate::laws::{
    trimmed_reports_are_accepted, trimmed_reports_hold, written_reports_are_accepted,
    written_reports_are_read_back, written_reports_hold,
};
use report_text::Report;

/// The checker accepts the text that is written of a report: the laws, for a report as the program has it. The call
/// does nothing.
pub fn report_is_accepted(r: &Report)
    requires { IsReportable (reported r.now) }
    ensures answered { (h : History) → IsHistoryOf (reported r.now) h
        → (c : Result Checked CertFault) → Answers (reported r.now).pres (text_of (reported r.now) h) c
        → IsAccepted (reported r.now) h c }
    ensures told { (h : History) → IsHistoryOf (reported r.now) h
        → TellsWhole (reported r.now).pres (text_of (reported r.now) h) (Ok (told_amount (reported r.now) h)) }
{
    report_is_known(r);
    written_reports_are_accepted();
    written_reports_hold();
}

/// The checker accepts the text of its trimming too. The call does nothing.
pub fn trimming_is_accepted(r: &Report)
    requires { IsReportable (reported r.now) }
    ensures answered { (h : History) → IsHistoryOf (reported r.now) h → (t : ReportData) → IsTrimming (data_of h) t
        → (text : List ℕ) → IsReport (reported r.now).pres text t
        → (c : Result Checked CertFault) → Answers (reported r.now).pres text c → IsTrimmedAccepted t c }
    ensures told { (h : History) → IsHistoryOf (reported r.now) h → (t : ReportData) → IsTrimming (data_of h) t
        → (text : List ℕ) → IsReport (reported r.now).pres text t
        → TellsWhole (reported r.now).pres text (Ok (data_amount t)) }
{
    report_is_known(r);
    trimmed_reports_are_accepted();
    trimmed_reports_hold();
}

/// The reader of reports answers to the text that is written of a report the history that was written. The call does
/// nothing.
pub fn report_is_read_back(r: &Report)
    requires { IsReportable (reported r.now) }
    ensures { (h : History) → IsHistoryOf (reported r.now) h
        → (d : Result ReportData ReportFault) → IsAnswer (reported r.now).pres (text_of (reported r.now) h) d
        → IsReadBack h d }
{
    report_is_known(r);
    written_reports_are_read_back();
}
