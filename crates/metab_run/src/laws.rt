//! Laws of the program's answers, as functions that do nothing.

ghost use Rattle.std.specs.Prelude.{List, ◌+◌, ◌<◌, ◌^◌};
ghost use Rattle.presentation.specs.Presented.{Presented};
ghost use Rattle.session_text.specs.declared.question.Question.{Question};
ghost use Rattle.pair_book.specs.declared.limits.Limits.{Limits};
ghost use Rattle.report_text.specs.Histories.{History};
ghost use Rattle.report_text.specs.Reports.{Reported, IsHistoryOf, text_of};
ghost use Rattle.report_acceptance.specs.Accepting.{IsKnown, told_amount};
ghost use Rattle.check_commands.specs.Check.{holds, ReportLeads};
ghost use Rattle.legal_report.specs.Legal.{IsLegal};

pub use legal_report::laws::answers_of_legal_reports_are_true;

/// `check` answers of the text of a legal report that it holds, with the numbers of its entries and proofs.
pub fn texts_of_legal_reports_hold()
    ensures { (p : Presented) (limits : Limits) (questions : List (List Question)) (r : Reported) (h : History)
        → IsKnown r → limits.entries + 1 < 2 ^ 32 →
        IsLegal p limits questions r → IsHistoryOf r h → ReportLeads p (text_of r h) (holds (told_amount r h)) }
{
    legal_report::laws::texts_of_legal_reports_hold();
}
