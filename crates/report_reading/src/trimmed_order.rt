//! Which line of a trimmed report may follow.

ghost use Rattle.std.specs.Prelude.{◌↔◌, IsTrue};
ghost use Rattle.presentation.specs.Presented.{Presented};
ghost use Rattle.report_lines.specs.Lines.{IsLineOf};
ghost use Rattle.report_lines.specs.Trimmed.{IsTrimmedLineOf};
ghost use Rattle.report_reading.specs.Telling.{last_reply};
ghost use Rattle.report_reading.specs.Trimmed.{last_from, AreBelow, IsReached, IsNextItem, IsFrontHere};
ghost use Rattle.report_reading.specs.Trimmed.{OtherMayFollow, TrimmedMayFollow};

use crate::reader::Reader;
use report_lines::{Line, TrimmedLine};
use session_text::has_images;

impl Reader {
    /// Whether the line may follow in a trimmed report of so many items.
    pub fn trimmed_may_follow(&self, items: u32, line: &TrimmedLine) -> bool
        requires { (p : Presented) × IsTrimmedLineOf p line.now }
        ensures { IsTrue result ↔ TrimmedMayFollow items self.now line.now }
    {
        match line {
            TrimmedLine::Entry { number, from, .. } => {
                self.may_go_on()
                    && *number as usize == self.entries.len()
                    && self.is_next_item(items, *from)
            }
            TrimmedLine::Other(line) => self.other_may_follow(items, line),
        }
    }

    /// Whether the line, which is no entry, may follow.
    fn other_may_follow(&self, items: u32, line: &Line) -> bool
        requires { (p : Presented) × IsLineOf p line.now }
        ensures { IsTrue result ↔ OtherMayFollow items self.now line.now }
    {
        match line {
            Line::Entry { .. } => false,
            Line::Seal => self.may_go_on() && self.is_next_item(items, items.saturating_sub(1)),
            Line::Live {
                session,
                number,
                front,
                question,
                ..
            } => {
                self.may_go_on()
                    && self.is_front_here(items, *front)
                    && self.is_next_number(*session, *number)
                    && self.is_in_order(*session, *front)
                    && has_images(question)
            }
            Line::Proof { .. } | Line::End(_) | Line::Close { .. } | Line::Done => {
                self.may_follow(line)
            }
        }
    }

    /// Whether the item with this number may stand here.
    fn is_next_item(&self, items: u32, number: u32) -> bool
        ensures { IsTrue result ↔ IsNextItem items self.now number }
    {
        !self.sealed && number < items && self.are_below(number) && self.is_reached(number)
    }

    /// Whether an answer at this front may stand here.
    fn is_front_here(&self, items: u32, front: u32) -> bool
        ensures { IsTrue result ↔ IsFrontHere items self.now front }
    {
        front <= items
            && self.are_below(front)
            && self.is_reached(front)
            && (!self.sealed || front == items)
    }

    /// Whether the entries so far have numbers below this one.
    fn are_below(&self, number: u32) -> bool
        ensures { IsTrue result ↔ AreBelow (last_from self.now) number }
    {
        match self.from.last() {
            Some(last) => *last < number,
            None => true,
        }
    }

    /// Whether no answer so far was made at a front above this one.
    fn is_reached(&self, front: u32) -> bool
        ensures { IsTrue result ↔ IsReached (last_reply self.now) front }
    {
        match self.replies.last() {
            Some(reply) => reply.front <= front,
            None => true,
        }
    }
}
