//! Taking a line.

ghost use Rattle.std.specs.Prelude.{◌≡◌, ◌++◌, ◌∷◌, [], ℕ, length, if◌then◌else◌, IfOk, OnOk};
ghost use Rattle.std.specs.BTreeMap.{insert_entry};
ghost use Rattle.presentation.specs.Presented.{Presented};
ghost use Rattle.report_lines.specs.Lines.{IsLineOf};
ghost use Rattle.report_lines.specs.declared.lines.Line.TheVariants as lines;
ghost use Rattle.report_reading.specs.declared.form.Form.TheVariants as forms;
ghost use Rattle.report_reading.specs.Telling.{is_open, by_number, recipe_of, with_proof};
ghost use Rattle.report_reading.specs.Telling.{tell_entry, tell_closing, tell};
ghost use Rattle.report_reading.specs.Reading.{TakesLine, TakesBytes};

use crate::form::Form;
use crate::reader::Reader;
use crate::{EntryData, ProofList, ReplyData};
use basis_entry::Recipe;
use module_vec::ModVec;
use outcomes::{End, Verdict};
use presentation::Presentation;
use report_lines::{Line, Made, QuestionNumber, read_line};
use session_text::Question;
use std::alloc::{AllocError, Global};
use step_lists::Steps;

impl Reader {
    /// Takes the bytes of a line of a report of this form; `None` exactly where they are those of no line that may
    /// follow.
    pub fn take_bytes(
        self,
        alloc: Global,
        p: &Presentation,
        form: Form,
        bytes: &[u8],
    ) -> Result<Option<Reader>, AllocError>
        ensures { IfOk result (TakesBytes form p.now self bytes.now) }
    {
        match form {
            Form::Whole => self.take_whole(alloc, p, bytes),
            Form::Trimmed { items } => self.take_trimmed(alloc, p, items, bytes),
        }
    }

    /// Takes the bytes of a line of a whole report.
    fn take_whole(
        self,
        alloc: Global,
        p: &Presentation,
        bytes: &[u8],
    ) -> Result<Option<Reader>, AllocError>
        ensures { IfOk result (TakesBytes forms.Whole p.now self bytes.now) }
    {
        p.known();
        match read_line(alloc, p, bytes)? {
            Some(line) => self.take_line(alloc, p, line),
            None => Ok(None),
        }
    }

    /// Takes a line over the presentation, if it may follow.
    fn take_line(
        self,
        alloc: Global,
        p: &Presentation,
        line: Line,
    ) -> Result<Option<Reader>, AllocError>
        requires { IsLineOf p.now line }
        ensures { IfOk result (TakesLine self line) }
    {
        let _ = p;
        if !self.may_follow(&line) {
            return Ok(None);
        }
        Ok(Some(self.with(alloc, line)?))
    }

    /// What the lines tell with this one.
    pub(crate) fn with(self, alloc: Global, line: Line) -> Result<Reader, AllocError>
        ensures { IfOk result (λ taken. taken ≡ tell self line) }
    {
        match line {
            Line::Entry {
                number,
                made,
                vector,
            } => self.with_entry(number, made, vector),
            Line::Live {
                session,
                number,
                front,
                question,
                verdict,
            } => {
                let at = QuestionNumber::new(session, number);
                self.with_live(alloc, at, front, question, verdict)
            }
            Line::Proof { steps, .. } => self.with_proof(steps),
            Line::Close {
                session,
                question,
                verdict,
                ..
            } => {
                let front = self.item_count().min(u32::MAX as usize) as u32;
                self.with_closing(alloc, session, front, question, verdict)
            }
            Line::Seal => Ok(self.with_seal()),
            Line::End(end) => Ok(self.with_end(end)),
            Line::Done => Ok(self.with_done()),
        }
    }

    /// Takes an entry with its number among the items.
    pub(crate) fn with_entry(
        self,
        from: u32,
        made: Made,
        vector: ModVec,
    ) -> Result<Reader, AllocError>
        ensures { IfOk result (λ taken. taken ≡ tell_entry self from made vector) }
    {
        let mut reader = self;
        let recipe = recipe_of(from, made);
        reader.entries.push(EntryData { recipe, vector })?;
        reader.from.push(from)?;
        Ok(reader)
    }

    fn with_live(
        self,
        alloc: Global,
        at: QuestionNumber,
        front: u32,
        question: Question,
        verdict: Verdict,
    ) -> Result<Reader, AllocError>
        ensures { IfOk result (λ taken. taken ≡ tell self (lines.Live at.session at.number front question verdict)) }
    {
        let mut reader = self.with_question(at, &verdict)?;
        reader.numbers.insert(at.session, at.number)?;
        reader.replies.push(ReplyData {
            session: at.session,
            question,
            live: true,
            front,
            verdict,
            proofs: ProofList::new(alloc),
        })?;
        Ok(reader)
    }

    /// Notes a question that the verdict leaves open.
    fn with_question(self, at: QuestionNumber, verdict: &Verdict) -> Result<Reader, AllocError>
        ensures { IfOk result (λ taken. taken ≡ record self {
          left_open =
              if is_open verdict.now then insert_entry by_number self.left_open (at.session, at.number)
              (length self.replies) else self.left_open;
        }) }
    {
        if !leaves_open(verdict) {
            return Ok(self);
        }
        let mut reader = self;
        let place = reader.replies.len();
        reader.left_open.insert((at.session, at.number), place)?;
        Ok(reader)
    }

    fn with_proof(self, steps: Steps) -> Result<Reader, AllocError>
        ensures { (j : ℕ) → IfOk result (λ taken. taken ≡ tell self (lines.Proof j steps)) }
    {
        let mut reader = self;
        add_proof(&mut reader.replies, steps)?;
        Ok(reader)
    }

    /// Takes the answer behind the end to the first question that is open.
    pub(crate) fn with_closing(
        self,
        alloc: Global,
        session: u32,
        front: u32,
        question: Question,
        verdict: Verdict,
    ) -> Result<Reader, AllocError>
        ensures { IfOk result (λ taken. taken ≡ tell_closing self session front question verdict) }
    {
        let mut reader = self;
        let _first = reader.left_open.pop_first();
        reader.replies.push(ReplyData {
            session,
            question,
            live: false,
            front,
            verdict,
            proofs: ProofList::new(alloc),
        })?;
        Ok(reader)
    }

    fn with_seal(self) -> Reader
        ensures { result ≡ tell self lines.Seal }
    {
        let mut reader = self;
        reader.sealed = true;
        reader
    }

    fn with_end(self, end: End) -> Reader
        ensures { result ≡ tell self (lines.End end) }
    {
        let mut reader = self;
        reader.end = Some(end);
        reader
    }

    fn with_done(self) -> Reader
        ensures { result ≡ tell self lines.Done }
    {
        let mut reader = self;
        reader.finished = true;
        reader
    }
}

/// Puts one more proof to the last answer.
fn add_proof(replies: &mut Vec<ReplyData>, steps: Steps) -> Result<(), AllocError>
    ensures { OnOk result (replies.new.items ≡ with_proof steps replies.old.items) }
{
    let Some(mut reply) = replies.pop() else {
        return Ok(());
    };
    reply.proofs.push(steps)?;
    replies.push(reply)?;
    Ok(())
}

/// How the entry with this number was made.
fn recipe_of(number: u32, made: Made) -> Recipe
    ensures { result ≡ recipe_of number made }
{
    match made {
        Made::Gen { negated } => Recipe::Gen { number, negated },
        Made::Sum { steps } => Recipe::Sum { steps },
    }
}

/// Whether the verdict leaves its question open.
fn leaves_open(verdict: &Verdict) -> bool
    ensures { result ≡ is_open verdict.now }
{
    matches!(verdict, Verdict::Unknown { .. } | Verdict::Stop { .. })
}
