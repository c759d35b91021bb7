//! Laws of questions and of the texts of sessions, each as the contract of a function with an empty body.

ghost use Rattle.std.specs.Prelude.{◌≡◌, ℕ, List, [], Ok};
ghost use Rattle.word_text.specs.Scan.{after_blanks};
ghost use Rattle.word_text.specs.Machine.{finding};
ghost use Rattle.presentation.specs.Presented.{Presented, IsPresented};
ghost use Rattle.session_text.specs.declared.question.Event.{Event};
ghost use Rattle.session_text.specs.declared.question.Question.{Question};
ghost use Rattle.session_text.specs.Questions.{IsQuestion, IsWrittenQuestion, IsWritable};
ghost use Rattle.session_text.specs.Reading.{session_text};
ghost use Rattle.session_text.specs.Grammar.{QuestionAt, IsSession};
ghost use Rattle.session_text.specs.Writing.{written_question};
ghost use Rattle.session_text.specs.Schedule.{schedule_text};
ghost use Rattle.session_text.specs.ScheduleGrammar.{IsSchedule};

/// A question whose words may be written, as those that are read, is one over the presentation.
#[tactic(auto, using(crate::proofs::QuestionLemmas::written_is_over))]
pub fn written_is_over()
    ensures { (p : Presented) (q : Question) → IsWrittenQuestion p q → IsQuestion p q }
{}

/// What is read of a text is a session of the grammar, with its questions.
#[tactic(auto, using(crate::proofs::TextLaws::text_spelled))]
pub fn read_is_spelled()
    ensures { (p : Presented) (text : List ℕ) (qs : List Question) → session_text p text ≡ Ok qs → IsSession p text qs }
{}

/// A session of the grammar is read, with its questions.
pub fn spelled_is_read()
    ensures { (p : Presented) (text : List ℕ) (qs : List Question) → IsSession p text qs → session_text p text ≡ Ok qs }
{}

/// A text spells one list of questions at most.
pub fn one_value()
    ensures { (p : Presented) (text : List ℕ) (qs rs : List Question) → IsSession p text qs
        → IsSession p text rs → qs ≡ rs }
{}

/// A written question is one of the grammar that is the whole line, with the question as its value.
#[tactic(auto, using(crate::proofs::QuestionBack::question_stands))]
pub fn written_question_is_spelled()
    ensures { (p : Presented) (q : Question) → IsPresented p → IsWritable p q
        → QuestionAt (finding p.names) (written_question p.names q) q (after_blanks []) }
{}

/// A text is written of one question at most.
#[tactic(auto, using(crate::proofs::QuestionBack::one_spelling))]
pub fn one_spelling()
    ensures { (p : Presented) (q r : Question) → IsPresented p → IsWritable p q → IsWritable p r
        → written_question p.names q ≡ written_question p.names r → q ≡ r }
{}

/// What is read of a text is a schedule of the grammar, with its events.
#[tactic(auto, using(crate::proofs::ScheduleLaws::text_spelled))]
pub fn read_schedule_is_spelled()
    ensures { (sessions : ℕ) (text : List ℕ) (es : List Event) → schedule_text sessions text ≡ Ok es
        → IsSchedule sessions text es }
{}

/// A schedule of the grammar is read, with its events.
#[tactic(auto, using(crate::proofs::ScheduleLaws::text_again))]
pub fn spelled_schedule_is_read()
    ensures { (sessions : ℕ) (text : List ℕ) (es : List Event) → IsSchedule sessions text es
        → schedule_text sessions text ≡ Ok es }
{}

/// A text spells one list of events at most.
#[tactic(auto, using(crate::proofs::ScheduleLaws::one_value))]
pub fn one_schedule()
    ensures { (sessions : ℕ) (text : List ℕ) (es ds : List Event) → IsSchedule sessions text es
        → IsSchedule sessions text ds → es ≡ ds }
{}
