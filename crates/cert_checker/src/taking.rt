//! Taking a line.

ghost use Rattle.std.specs.Prelude.{◌≡◌, ◌+◌, ◌<◌, ◌≤◌, ◌++◌, ◌∷◌, [], length, IfOk};
ghost use Rattle.word_text.specs.Place.{capped};
ghost use Rattle.presentation.specs.Presented.{Presented};
ghost use Rattle.session_text.specs.Questions.{IsWritable, HasImages};
ghost use Rattle.report_lines.specs.Lines.{IsLineOf};
ghost use Rattle.cert_checker.specs.declared.version.Version.{Version};
ghost use Rattle.cert_checker.specs.States.{MayFollow, LineFollows, AreWords, asked, next, with_line};
ghost use Rattle.cert_checker.specs.Checking.{Agrees, Disagrees, LineAgrees, LineDisagrees, Outcome, TakesLine};
ghost use Rattle.cert_checker.specs.Texts.{BytesHold, BytesFail, BodyHolds, BodyFails, IsLineIn};

use crate::CertKind;
use crate::checker::Checker;
use crate::entry::entry_agrees;
use crate::faults::LineFault;
use crate::phase::Phase;
use crate::proof::proof_agrees;
use crate::reading::read_in;
use crate::subjects::asked;
use module_vec::ModVec;
use outcomes::Verdict;
use presentation::Presentation;
use report_lines::{Line, TrimmedLine, is_pres_line};
use session_text::Question;
use std::alloc::{AllocError, Global};

impl Checker {
    /// Takes the bytes of a line.
    pub fn take_bytes(
        self,
        alloc: Global,
        p: &Presentation,
        generators: &[ModVec],
        bytes: &[u8],
    ) -> Result<Checker, LineFault>
        requires words { AreWords p.now self.subjects }
        ensures { Outcome (BytesHold p.now generators.now self bytes.now)
            (BytesFail p.now generators.now self bytes.now) result }
    {
        match self.phase {
            Phase::Title => self.take_title(bytes),
            Phase::Presentation => self.take_presentation(is_pres_line(alloc, p, bytes)?),
            Phase::Items => self.take_items(bytes),
            _ => self.take_body(alloc, p, generators, bytes),
        }
    }

    /// Takes the bytes of a line behind the head.
    fn take_body(
        self,
        alloc: Global,
        p: &Presentation,
        generators: &[ModVec],
        bytes: &[u8],
    ) -> Result<Checker, LineFault>
        requires words { AreWords p.now self.subjects }
        ensures { Outcome (BodyHolds p.now generators.now self bytes.now)
            (BodyFails p.now generators.now self bytes.now) result }
    {
        match read_in(alloc, self.version, p, bytes)? {
            Some(line) => self.take_line(alloc, p, generators, line),
            None => Err(LineFault::Fails(CertKind::Text)),
        }
    }

    /// Takes a line: it has to be one that may follow, and what it says of entries and proofs has to hold.
    fn take_line(
        self,
        alloc: Global,
        p: &Presentation,
        generators: &[ModVec],
        line: TrimmedLine,
    ) -> Result<Checker, LineFault>
        requires valid { IsLineIn self.version p.now line }
        requires words { AreWords p.now self.subjects }
        ensures { TakesLine generators.now self line result }
    {
        if !self.may_follow(generators, &line) {
            return Err(LineFault::Fails(CertKind::Text));
        }
        self.agrees(alloc, p, generators, &line)?;
        Ok(self.with(alloc, generators, line)?)
    }

    /// Whether what the line says of entries and proofs holds.
    fn agrees(
        &self,
        alloc: Global,
        p: &Presentation,
        generators: &[ModVec],
        line: &TrimmedLine,
    ) -> Result<(), LineFault>
        requires valid { (v : Version) × IsLineIn v p.now line.now }
        requires words { AreWords p.now self.now.subjects }
        requires follows { LineFollows generators.now self.now line.now }
        ensures { Outcome (λ _. LineAgrees generators.now self.now line.now)
            (LineDisagrees generators.now self.now line.now) result }
    {
        match line {
            TrimmedLine::Entry {
                from,
                made,
                vector,
                ..
            } => entry_agrees(
                alloc,
                generators,
                &self.entries,
                *from as usize,
                made,
                vector,
            ),
            TrimmedLine::Other(line) => self.line_agrees(alloc, p, generators, line),
        }
    }

    /// The same, of an entry in the form that it has in a whole report.
    fn line_agrees(
        &self,
        alloc: Global,
        p: &Presentation,
        generators: &[ModVec],
        line: &Line,
    ) -> Result<(), LineFault>
        requires valid { IsLineOf p.now line.now }
        requires words { AreWords p.now self.now.subjects }
        requires follows { MayFollow generators.now self.now line.now }
        ensures { Outcome (λ _. Agrees generators.now self.now line.now)
            (Disagrees generators.now self.now line.now) result }
    {
        match line {
            Line::Entry { made, vector, .. } => {
                entry_agrees(
                    alloc,
                    generators,
                    &self.entries,
                    self.entries.len(),
                    made,
                    vector,
                )
            }
            Line::Proof { steps, .. } => {
                let word = &self.subjects[self.shown];
                proof_agrees(alloc, p, &self.entries, word, steps.steps())
            }
            _ => Ok(()),
        }
    }

    /// What was taken with the line.
    fn with(
        self,
        alloc: Global,
        generators: &[ModVec],
        line: TrimmedLine,
    ) -> Result<Checker, AllocError>
        requires valid { (v : Version) × (p : Presented) × IsLineIn v p line }
        requires follows { LineFollows generators.now self line }
        ensures { IfOk result (λ taken. taken ≡ with_line self line) }
    {
        match line {
            TrimmedLine::Entry { from, vector, .. } => self.passing(from + 1).with_entry(vector),
            TrimmedLine::Other(line) => self.with_other(alloc, generators, line),
        }
    }

    /// The same, of an entry in the form that it has in a whole report.
    fn with_other(
        self,
        alloc: Global,
        generators: &[ModVec],
        line: Line,
    ) -> Result<Checker, AllocError>
        requires valid { (p : Presented) × IsLineOf p line }
        requires follows { MayFollow generators.now self line }
        ensures { IfOk result (λ taken. taken ≡ next self line) }
    {
        match line {
            Line::Entry { vector, .. } => self.with_entry(vector),
            Line::Live {
                front,
                question,
                verdict,
                ..
            } => self.passing(front).with_answer(alloc, question, &verdict),
            Line::Close {
                question,
                verdict,
                ..
            } => self.with_answer(alloc, question, &verdict),
            Line::Proof { .. } => Ok(self.with_proof()),
            Line::Seal => Ok(self.with_phase(Phase::Sealed)),
            Line::End(_) => Ok(self.with_phase(Phase::Closing)),
            Line::Done => Ok(self.with_phase(Phase::Finished)),
        }
    }

    fn with_entry(self, vector: ModVec) -> Result<Checker, AllocError>
        ensures { IfOk result (λ taken. taken ≡ record self { entries = self.entries ++ vector ∷ [] }) }
    {
        let mut checker = self;
        checker.entries.push(vector)?;
        Ok(checker)
    }

    fn with_answer(
        self,
        alloc: Global,
        question: Question,
        verdict: &Verdict,
    ) -> Result<Checker, AllocError>
        requires writable { (p : Presented) × IsWritable p question }
        requires images { HasImages question }
        ensures { IfOk result (λ taken. taken ≡ record self { subjects = asked question verdict.now; shown = 0 }) }
    {
        let mut checker = self;
        checker.subjects = asked(alloc, question, verdict)?;
        checker.shown = 0;
        Ok(checker)
    }

    fn with_proof(self) -> Checker
        requires { self.shown < length self.subjects }
        ensures { result ≡ record self { shown = self.shown + 1; proofs = capped (self.proofs + 1) } }
    {
        let mut checker = self;
        checker.shown += 1;
        checker.proofs = checker.proofs.saturating_add(1);
        checker
    }

    /// So many items of the history stand before the next line.
    fn passing(self, passed: u32) -> Checker
        ensures { result ≡ record self { passed = passed } }
    {
        let mut checker = self;
        checker.passed = passed;
        checker
    }

    fn with_phase(self, phase: Phase) -> Checker
        ensures { result ≡ record self { phase = phase } }
    {
        let mut checker = self;
        checker.phase = phase;
        checker
    }
}
