//! Laws of texts that are read.

ghost use Rattle.std.specs.Prelude.{◌≡◌, ℕ, List};
ghost use Rattle.presentation.specs.Presented.{Presented, IsPresented};
ghost use Rattle.report_reading.specs.declared.data.ReportData.{ReportData};
ghost use Rattle.report_reading.specs.Reading.{IsReport, IsFirstFault};

/// A text that is a report has no line that can't stand.
pub fn reports_have_no_fault()
    ensures { (p : Presented) (text : List ℕ) (d : ReportData) (n : ℕ) → IsPresented p → IsReport p text d
        → IsFirstFault p text n → ⊥ }
{}

/// A text says one thing.
pub fn reports_say_one_thing()
    ensures { (p : Presented) (text : List ℕ) (d e : ReportData) → IsPresented p → IsReport p text d
        → IsReport p text e → d ≡ e }
{}
