//! A law of reports by a basis that was read, as a function that does nothing.

ghost use Rattle.std.specs.Prelude.{List};
ghost use Rattle.presentation.specs.Presented.{Presented};
ghost use Rattle.session_text.specs.declared.question.Question.{Question};
ghost use Rattle.report_text.specs.Reports.{Reported};
ghost use Rattle.legal_report.specs.Answering.{IsAnswering};
ghost use Rattle.loaded_report.specs.Loaded.{IsLegalLoaded};

/// A legal report by a basis that was read answers by its log, so that what it answers is true.
pub fn loaded_reports_answer()
    ensures { (p : Presented) (questions : List (List Question)) (r : Reported)
        → IsLegalLoaded p questions r → IsAnswering p questions r }
{}
