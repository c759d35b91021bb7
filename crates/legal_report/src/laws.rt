//! Laws of legal reports, however they came about, as functions that do nothing.

ghost use Rattle.std.specs.List.{AllByRecursion};
ghost use Rattle.std.specs.Prelude.{List, Ok, ◌+◌, ◌<◌, ◌^◌};
ghost use Rattle.presentation.specs.Presented.{Presented, IsPresented};
ghost use Rattle.session_text.specs.declared.question.Question.{Question};
ghost use Rattle.session_text.specs.Questions.{HasSource};
ghost use Rattle.pair_book.specs.declared.limits.Limits.{Limits};
ghost use Rattle.cert_checker.specs.Texts.{TellsWhole};
ghost use Rattle.report_text.specs.Histories.{History};
ghost use Rattle.report_text.specs.Reports.{Reported, IsHistoryOf, text_of};
ghost use Rattle.report_acceptance.specs.Accepting.{IsKnown, told_amount};
ghost use Rattle.legal_report.specs.Legal.{IsLegal};
ghost use Rattle.legal_report.specs.TrueAnswers.{IsAfterSeal, AreTrueAnswers};
ghost use Rattle.legal_report.specs.Answering.{IsAnswering};

use report_acceptance::laws::written_reports_hold;

/// What a report answers by its log is true, and exact where the items of a reply end with the seal, a limit that is
/// named aside (Magnus 1939, Lichtblau 2012). Nothing else is asked of the log.
pub fn answers_by_logs_are_true()
    ensures { (p : Presented) (questions : List (List Question)) (r : Reported) (h : History)
        → IsPresented p → AllByRecursion (AllByRecursion HasSource) questions →
        IsAnswering p questions r → IsHistoryOf r h → AreTrueAnswers p (IsAfterSeal r) h }
{}

/// A legal report answers by its log.
pub fn legal_reports_answer()
    ensures { (p : Presented) (limits : Limits) (questions : List (List Question)) (r : Reported)
        → IsLegal p limits questions r → IsAnswering p questions r }
{}

/// What a legal report answers is true: a word is `trivial` only where moves carry it to the empty word, and a map
/// `extends` only where it does. Where the items of a reply end with the seal, these two are answered wherever they
/// hold, a limit that is named aside, what is said otherwise is true too, and nothing is `unknown` (Magnus 1939,
/// Lichtblau 2012).
pub fn answers_of_legal_reports_are_true()
    ensures { (p : Presented) (limits : Limits) (questions : List (List Question)) (r : Reported) (h : History)
        → IsPresented p → AllByRecursion (AllByRecursion HasSource) questions →
        IsLegal p limits questions r → IsHistoryOf r h → AreTrueAnswers p (IsAfterSeal r) h }
{}

/// The checker finds that all lines of the text of a legal report hold, and counts its entries and proofs.
pub fn texts_of_legal_reports_hold()
    ensures { (p : Presented) (limits : Limits) (questions : List (List Question)) (r : Reported) (h : History)
        → IsKnown r → limits.entries + 1 < 2 ^ 32 →
        IsLegal p limits questions r → IsHistoryOf r h → TellsWhole p (text_of r h) (Ok (told_amount r h)) }
{
    written_reports_hold();
}
