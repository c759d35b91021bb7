//! Laws of trimmed reports.

ghost use Rattle.std.specs.Prelude.{◌≡◌};
ghost use Rattle.report_reading.specs.declared.data.ReportData.{ReportData};
ghost use Rattle.report_trimming.specs.Trimming.{IsTrimming};

/// A trimmed report is its own trimming.
#[tactic(auto, using(crate::proofs::Again::own_trimming))]
pub fn trimmed_is_its_own_trimming()
    ensures { (d t : ReportData) → IsTrimming d t → IsTrimming t t }
{}

/// A report has one trimming.
pub fn one_trimming()
    ensures { (d t u : ReportData) → IsTrimming d t → IsTrimming d u → t ≡ u }
{}
