//! Taking a line of a trimmed report.

ghost use Rattle.std.specs.Prelude.{◌≡◌, IfOk};
ghost use Rattle.report_lines.specs.Trimmed.{IsTrimmedLineOf};
ghost use Rattle.report_reading.specs.declared.form.Form.TheVariants as forms;
ghost use Rattle.report_reading.specs.Reading.{TakesTrimmed, TakesBytes};
ghost use Rattle.report_reading.specs.Trimmed.{tell_other, tell_trimmed};

use crate::reader::Reader;
use presentation::Presentation;
use report_lines::{Line, TrimmedLine, read_trimmed_line};
use std::alloc::{AllocError, Global};

impl Reader {
    /// Takes the bytes of a line of a trimmed report of so many items.
    pub(crate) fn take_trimmed(
        self,
        alloc: Global,
        p: &Presentation,
        items: u32,
        bytes: &[u8],
    ) -> Result<Option<Reader>, AllocError>
        ensures { IfOk result (TakesBytes (forms.Trimmed items) p.now self bytes.now) }
    {
        p.known();
        match read_trimmed_line(alloc, p, bytes)? {
            Some(line) => self.take_trimmed_line(alloc, p, items, line),
            None => Ok(None),
        }
    }

    /// Takes a line over the presentation, if it may follow.
    fn take_trimmed_line(
        self,
        alloc: Global,
        p: &Presentation,
        items: u32,
        line: TrimmedLine,
    ) -> Result<Option<Reader>, AllocError>
        requires { IsTrimmedLineOf p.now line }
        ensures { IfOk result (TakesTrimmed items self line) }
    {
        let _ = p;
        if !self.trimmed_may_follow(items, &line) {
            return Ok(None);
        }
        Ok(Some(self.with_trimmed(alloc, items, line)?))
    }

    /// What the lines tell with this one.
    fn with_trimmed(
        self,
        alloc: Global,
        items: u32,
        line: TrimmedLine,
    ) -> Result<Reader, AllocError>
        ensures { IfOk result (λ taken. taken ≡ tell_trimmed items self line) }
    {
        match line {
            TrimmedLine::Entry {
                from,
                made,
                vector,
                ..
            } => self.with_entry(from, made, vector),
            TrimmedLine::Other(line) => self.with_other(alloc, items, line),
        }
    }

    /// What the lines tell with this one, which is no entry.
    fn with_other(self, alloc: Global, items: u32, line: Line) -> Result<Reader, AllocError>
        ensures { IfOk result (λ taken. taken ≡ tell_other items self line) }
    {
        match line {
            Line::Close {
                session,
                question,
                verdict,
                ..
            } => self.with_closing(alloc, session, items, question, verdict),
            line => self.with(alloc, line),
        }
    }
}
