//! Keywords, letters and the end of a line.

ghost use Rattle.std.specs.Prelude.{◌≡◌, ◌≢◌, ◌≤◌, ◌<◌, length, drop, IsTrue, IsFalse, IfOk, Err};
ghost use Rattle.word_text.specs.Scan.{after_blanks, due};
ghost use Rattle.word_text.specs.Machine.{finding};
ghost use Rattle.word_text.specs.Place.{on_line};
ghost use Rattle.presentation.specs.Line.{ReadsOn, is_word, after_word, is_end, letter_at};

use crate::line::WordReader;
use crate::presentation::Presentation;
use free_words::Letter;
use word_text::{Fault, Mark, ReadFault, TextKind, due, mark_at, on_line, skip_blanks, split_name};

impl<'a> WordReader<'a> {
    /// Whether this whole name comes next. The reader is then behind it, and else where it stood. It takes no memory.
    #[tactic(auto, unfolding(crate::specs::Line::is_word, crate::specs::Line::after_word))]
    pub fn at_keyword(&mut self, word: &str) -> bool
        requires { self.old.at ≤ length self.old.text.now }
        ensures answer { result ≡ is_word word.now (drop self.old.at self.old.text.now) }
        ensures found { IsTrue result → drop self.new.at self.old.text.now
            ≡ after_word (drop self.old.at self.old.text.now) }
        ensures stays { IsFalse result → self.new.at ≡ self.old.at }
        ensures inside { self.new.at ≤ length self.old.text.now }
        ensures text { self.new.text ≡ self.old.text }
        ensures line { self.new.line ≡ self.old.line }
    {
        let (name, rest) = split_name(skip_blanks(self.rest()));
        if name != word.as_bytes() {
            return false;
        }
        self.goes_to(rest);
        true
    }

    /// Whether blanks alone are left. It takes no memory.
    #[tactic(auto, unfolding(crate::specs::Line::is_end))]
    pub fn is_at_end(&self) -> bool
        requires { self.now.at ≤ length self.now.text.now }
        ensures { result ≡ is_end (drop self.now.at self.now.text.now) }
    {
        skip_blanks(self.rest()).is_empty()
    }

    /// The fault of what stands here, behind blanks, and can't. It takes no memory.
    pub fn unexpected(&self) -> ReadFault
        requires { self.now.at ≤ length self.now.text.now }
        ensures { result ≡ ReadFault.Text (on_line self.now.text.now self.now.line
            (due (after_blanks (drop self.now.at self.now.text.now)))) }
    {
        ReadFault::Text(on_line(self.text, self.line, due(skip_blanks(self.rest()))))
    }

    /// Reads a letter: the name of a generator, or that and `^-1` as one token. It takes no memory.
    #[tactic(auto, unfolding(crate::specs::Line::letter_at))]
    pub fn at_letter(&mut self, p: &Presentation) -> Result<Letter, ReadFault>
        requires { self.old.at ≤ length self.old.text.now }
        ensures exact { ReadsOn (λ x. x) self.old.text.now self.old.line self.old.at self.new.at
            (letter_at (finding p.now.names) (drop self.old.at self.old.text.now)) result }
        ensures over { IfOk result (λ x. x.g < length p.now.names) }
        ensures no_memory { result ≢ Err ReadFault.NoMemory }
        ensures text { self.new.text ≡ self.old.text }
        ensures line { self.new.line ≡ self.old.line }
    {
        let here = skip_blanks(self.rest());
        if mark_at(here) != Mark::Letter {
            return Err(self.unexpected());
        }
        let (name, rest) = split_name(here);
        let Some(g) = p.generator(name) else {
            let fault = Fault {
                kind: TextKind::UnknownName,
                left: here.len(),
            };
            return Err(ReadFault::Text(on_line(self.text, self.line, fault)));
        };
        self.goes_to(rest);
        let inv = self.at_bytes("^-1");
        Ok(Letter { g, inv })
    }
}
