//! Which line may follow what was taken.

ghost use Rattle.std.specs.Prelude.{◌≡◌, ◌↔◌, ◌<◌, ℕ, List, [], IsTrue};
ghost use Rattle.presentation.specs.Presented.{Presented};
ghost use Rattle.module_vec.specs.declared.places.Term.{Term};
ghost use Rattle.outcomes.specs.declared.ends.End.{End};
ghost use Rattle.outcomes.specs.declared.verdicts.Verdict.{Verdict};
ghost use Rattle.session_text.specs.Questions.{IsWritable};
ghost use Rattle.report_lines.specs.Lines.{IsLineOf};
ghost use Rattle.report_lines.specs.declared.lines.Line.TheVariants as lines;
ghost use Rattle.report_lines.specs.declared.trimmed.TrimmedLine.TheVariants as trimmed;
ghost use Rattle.cert_checker.specs.declared.version.Version.{Version};
ghost use Rattle.cert_checker.specs.States.{IsInTurnAt, MayFollow, LineFollows};
ghost use Rattle.cert_checker.specs.Texts.{IsLineIn};

use crate::checker::Checker;
use crate::phase::Phase;
use crate::steps::are_near;
use module_vec::{ModVec, Step};
use report_lines::{EntryNumber, Line, Made, TrimmedLine};
use session_text::{Question, has_images};

impl Checker {
    /// Whether the line may follow.
    pub fn may_follow(&self, generators: &[ModVec], line: &TrimmedLine) -> bool
        requires { (v : Version) × (p : Presented) × IsLineIn v p line.now }
        ensures { IsTrue result ↔ LineFollows generators.now self.now line.now }
    {
        match line {
            TrimmedLine::Entry {
                number,
                from,
                made,
                ..
            } => self.kept_may_follow(generators, EntryNumber::new(*number, *from), made),
            TrimmedLine::Other(line) => self.line_may_follow(generators, line),
        }
    }

    /// Whether the line may follow, an entry in the form that it has in a whole report.
    fn line_may_follow(&self, generators: &[ModVec], line: &Line) -> bool
        requires { (p : Presented) × IsLineOf p line.now }
        ensures { IsTrue result ↔ MayFollow generators.now self.now line.now }
    {
        match line {
            Line::Entry { number, made, .. } => self.entry_may_follow(generators, *number, made),
            Line::Seal => self.seal_may_follow(generators),
            Line::Live {
                front,
                question,
                ..
            } => self.answer_may_follow(generators, *front, question),
            Line::Proof { subject, steps } => self.proof_may_follow(*subject, steps.steps()),
            Line::End(_) => self.end_may_follow(generators),
            Line::Close { question, .. } => self.closing_may_follow(question),
            Line::Done => self.is_closing(),
        }
    }

    fn kept_may_follow(&self, generators: &[ModVec], at: EntryNumber, made: &Made) -> bool
        ensures { (v : List Term) → IsTrue result
            ↔ LineFollows generators.now self.now (trimmed.Entry at.number at.from made.now v) }
    {
        self.phase == Phase::Entries
            && self.is_settled()
            && at.number as usize == self.entries.len()
            && self.has_next(at.from)
            && is_in_turn(generators, &self.entries, at.from as usize, made)
    }

    fn entry_may_follow(&self, generators: &[ModVec], number: u32, made: &Made) -> bool
        ensures { (v : List Term) → IsTrue result ↔ MayFollow generators.now self.now (lines.Entry number made.now v) }
    {
        self.phase == Phase::Entries
            && self.is_settled()
            && number as usize == self.entries.len()
            && is_in_turn(generators, &self.entries, self.entries.len(), made)
    }

    fn seal_may_follow(&self, generators: &[ModVec]) -> bool
        ensures { IsTrue result ↔ MayFollow generators.now self.now lines.Seal }
    {
        self.phase == Phase::Entries && self.is_settled() && self.has_generators(generators)
    }

    fn answer_may_follow(&self, generators: &[ModVec], front: u32, question: &Question) -> bool
        requires { (p : Presented) × IsWritable p question.now }
        ensures { (session number : ℕ) (verdict : Verdict) → IsTrue result
            ↔ MayFollow generators.now self.now (lines.Live session number front question.now verdict) }
    {
        self.is_open()
            && self.is_settled()
            && self.has_front(generators, front)
            && has_images(question)
    }

    fn proof_may_follow(&self, subject: u32, steps: &[Step]) -> bool
        ensures { IsTrue result ↔ MayFollow [] self.now (lines.Proof subject steps.now) }
    {
        self.shown < self.subjects.len()
            && subject as usize == self.shown + 1
            && are_near(&self.entries, steps)
    }

    fn end_may_follow(&self, generators: &[ModVec]) -> bool
        ensures { (end : End) → IsTrue result ↔ MayFollow generators.now self.now (lines.End end) }
    {
        self.is_open() && self.is_settled() && self.has_generators(generators)
    }

    fn closing_may_follow(&self, question: &Question) -> bool
        requires { (p : Presented) × IsWritable p question.now }
        ensures { (session number : ℕ) (verdict : Verdict) → IsTrue result
            ↔ MayFollow [] self.now (lines.Close session number question.now verdict) }
    {
        self.is_closing() && has_images(question)
    }

    /// Whether the end was told and no proof is due.
    fn is_closing(&self) -> bool
        ensures { IsTrue result ↔ MayFollow [] self.now lines.Done }
    {
        self.phase == Phase::Closing && self.is_settled()
    }
}

/// Whether the entry with this number in the history may be made so, behind these entries.
fn is_in_turn(generators: &[ModVec], entries: &[ModVec], number: usize, made: &Made) -> bool
    ensures { IsTrue result ↔ IsInTurnAt generators.now entries.now number made.now }
{
    match made {
        Made::Gen { .. } => number < generators.len(),
        Made::Sum { steps } => generators.len() <= number && are_near(entries, steps.steps()),
    }
}
