//! Laws of the lines of reports.

ghost use Rattle.std.specs.Prelude.{◌≡◌};
ghost use Rattle.presentation.specs.Presented.{Presented, IsPresented};
ghost use Rattle.report_lines.specs.declared.lines.Line.{Line};
ghost use Rattle.report_lines.specs.Texts.{line_text};
ghost use Rattle.report_lines.specs.Lines.{LineIsOver, IsLineOf};
ghost use Rattle.report_lines.specs.declared.trimmed.TrimmedLine.{TrimmedLine};
ghost use Rattle.report_lines.specs.Trimmed.{trimmed_line_text, TrimmedIsOver, IsTrimmedLineOf};

/// A text is that of one line.
#[tactic(auto, using(crate::proofs::ReadingBack::one_line))]
pub fn one_line()
    ensures { (p : Presented) (l m : Line) → IsPresented p → IsLineOf p l → IsLineOf p m
        → line_text p l ≡ line_text p m → l ≡ m }
{}

/// A line that is read can be written.
#[tactic(auto, using(crate::proofs::ReadingBack::line_is_over))]
pub fn line_is_over()
    ensures { (p : Presented) (l : Line) → IsLineOf p l → LineIsOver p l }
{}

/// The same of the lines of a trimmed report.
#[tactic(auto, using(crate::proofs::TrimmedTexts::one_trimmed_line))]
pub fn one_trimmed_line()
    ensures { (p : Presented) (l m : TrimmedLine) → IsPresented p → IsTrimmedLineOf p l → IsTrimmedLineOf p m
        → trimmed_line_text p l ≡ trimmed_line_text p m → l ≡ m }
{}

/// Those that are read can be written.
#[tactic(auto, using(crate::proofs::TrimmedTexts::trimmed_is_over))]
pub fn trimmed_line_is_over()
    ensures { (p : Presented) (l : TrimmedLine) → IsTrimmedLineOf p l → TrimmedIsOver p l }
{}
