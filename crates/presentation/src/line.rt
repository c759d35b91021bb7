//! Words, numbers and marks inside a longer line, read one after another.

ghost use Rattle.std.specs.Prelude.{◌≡◌, ◌≢◌, ◌≤◌, ◌-◌, length, drop, IfOk, Err};
ghost use Rattle.word_text.specs.Scan.{after_digits};
ghost use Rattle.word_text.specs.Machine.{finding, word_at};
ghost use Rattle.word_text.specs.Place.{on_line};
ghost use Rattle.presentation.specs.Presented.{IsWritten};
ghost use Rattle.presentation.specs.Reading.{presentation_at};
ghost use Rattle.presentation.specs.Line.{IsEnd, ReadsOn, Reads, six_digits, number_at, comes_next, after_mark};

use crate::presentation::Presentation;
use crate::text::presentation;
use free_words::Word;
use std::alloc::Global;
use word_text::{
    Fault, ReadError, ReadFault, TextKind, due, number, on_line, skip_blanks, split_digits, word_at,
};

/// A line without its LF, the place of the next byte in it from 0, and the line's number from 1.
///
/// Each call skips blanks first. After a fault, and where memory runs out, the reader stands where it stood.
#[derive(Clone, Copy)]
pub struct WordReader<'a> {
    pub text: &'a [u8],
    pub at: usize,
    pub line: u32,
}

/// The number that stands here, of one to six digits, and what follows it.
#[tactic(auto, using(crate::proofs::Digits::six_fit))]
fn six_digits(text: &[u8]) -> Result<(u32, &[u8]), Fault>
    ensures exact { Reads (λ x. (x.0, x.1.now)) result (six_digits text.now) }
    ensures rest { IfOk result (λ x. x.1.now ≡ after_digits text.now) }
{
    let (digits, rest) = split_digits(text);
    if digits.is_empty() {
        return Err(due(text));
    }
    if digits.len() > 6 {
        return Err(Fault {
            kind: TextKind::Expected,
            left: text.len() - 6,
        });
    }
    Ok((number(digits, 999_999).unwrap(), rest))
}

impl<'a> WordReader<'a> {
    /// What is left of the line.
    pub(crate) fn rest(&self) -> &'a [u8]
        requires { self.now.at ≤ length self.now.text.now }
        ensures { result.now ≡ drop self.now.at self.now.text.now }
    {
        self.text.split_at(self.at).1
    }

    /// Goes on to what is left of the line behind what was read.
    #[tactic(auto, using(crate::proofs::Ends::places))]
    pub(crate) fn goes_to(&mut self, rest: &[u8])
        requires inside { self.old.at ≤ length self.old.text.now }
        requires end { IsEnd (drop self.old.at self.old.text.now) rest.now }
        ensures inside { self.new.at ≤ length self.old.text.now }
        ensures place { drop self.new.at self.old.text.now ≡ rest.now }
        ensures text { self.new.text ≡ self.old.text }
        ensures line { self.new.line ≡ self.old.line }
    {
        self.at = self.text.len() - rest.len();
    }

    /// Reads on to the first token that can't stand in the word, or to the end, and stays before it. Where the word is
    /// unfinished there, that place has the fault.
    pub fn at_word(&mut self, alloc: Global, p: &Presentation) -> Result<Word, ReadFault>
        requires { self.old.at ≤ length self.old.text.now }
        // The word that stands here, and the place behind it, or the first fault.
        ensures exact { ReadsOn (λ w. w) self.old.text.now self.old.line self.old.at self.new.at
            (word_at (finding p.now.names) (drop self.old.at self.old.text.now)) result }
        ensures written { IfOk result (λ w. IsWritten (length p.now.names) w) }
        ensures text { self.new.text ≡ self.old.text }
        ensures line { self.new.line ≡ self.old.line }
    {
        match word_at(alloc, p.names(), self.rest()) {
            Ok((word, rest)) => {
                self.goes_to(rest);
                Ok(word)
            }
            Err(ReadError::NoMemory) => Err(ReadFault::NoMemory),
            Err(ReadError::Text(fault)) => Err(ReadFault::Text(on_line(
                self.text, self.line, fault,
            ))),
        }
    }

    /// Reads a presentation without a modulus, and stays behind its `>`.
    pub fn at_presentation(&mut self, alloc: Global) -> Result<Presentation, ReadFault>
        requires { self.old.at ≤ length self.old.text.now }
        // The presentation that stands here, and the place behind it, or the first fault.
        ensures exact { ReadsOn (λ p. p) self.old.text.now self.old.line self.old.at self.new.at
            (presentation_at (drop self.old.at self.old.text.now)) result }
        ensures no_modulus { IfOk result (λ p. p.modulus ≡ 0) }
        ensures text { self.new.text ≡ self.old.text }
        ensures line { self.new.line ≡ self.old.line }
    {
        match presentation(alloc, self.rest()) {
            Ok((p, rest)) => {
                self.goes_to(rest);
                Ok(p)
            }
            Err(ReadError::NoMemory) => Err(ReadFault::NoMemory),
            Err(ReadError::Text(fault)) => Err(ReadFault::Text(on_line(
                self.text, self.line, fault,
            ))),
        }
    }

    /// Reads a number of one to six digits. No digit is a fault at the byte that stands there, and a seventh digit is
    /// one at that digit. It takes no memory.
    #[tactic(auto, unfolding(crate::specs::Line::number_at))]
    pub fn at_number(&mut self) -> Result<u32, ReadFault>
        requires { self.old.at ≤ length self.old.text.now }
        ensures exact { ReadsOn (λ n. n) self.old.text.now self.old.line self.old.at self.new.at
            (number_at (drop self.old.at self.old.text.now)) result }
        ensures no_memory { result ≢ Err ReadFault.NoMemory }
        ensures text { self.new.text ≡ self.old.text }
        ensures line { self.new.line ≡ self.old.line }
    {
        match six_digits(skip_blanks(self.rest())) {
            Ok((value, rest)) => {
                self.goes_to(rest);
                Ok(value)
            }
            Err(fault) => Err(ReadFault::Text(on_line(self.text, self.line, fault))),
        }
    }

    /// Whether the mark comes next. The reader is then behind it, and else only behind the blanks. It takes no memory.
    #[tactic(auto, unfolding(crate::specs::Line::comes_next, crate::specs::Line::after_mark))]
    pub fn at_bytes(&mut self, mark: &str) -> bool
        requires { self.old.at ≤ length self.old.text.now }
        ensures answer { result ≡ comes_next mark.now (drop self.old.at self.old.text.now) }
        ensures place { drop self.new.at self.old.text.now ≡ after_mark mark.now (drop self.old.at self.old.text.now) }
        ensures inside { self.new.at ≤ length self.old.text.now }
        ensures text { self.new.text ≡ self.old.text }
        ensures line { self.new.line ≡ self.old.line }
    {
        let here = skip_blanks(self.rest());
        match here.strip_prefix(mark.as_bytes()) {
            Some(rest) => {
                self.goes_to(rest);
                true
            }
            None => {
                self.goes_to(here);
                false
            }
        }
    }
}
