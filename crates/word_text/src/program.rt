//! Words as straight-line programs: each line makes a word of earlier ones, in constant time whatever its length, and
//! letters are written out once, at the end.

ghost use Rattle.std.specs.Prelude.{◌≡◌, ◌+◌, ◌-◌, ◌*◌, ◌<◌, ◌≤◌, ◌++◌, ◌∷◌, [], List, length, IfSome, MatchOption};
ghost use Rattle.free_words.specs.declared.letter.Letter.{Letter};

use crate::raise::Raise;
use free_words::{Letter, WRITTEN};
use std::alloc::{AllocError, Global};
use std::marker::Model;

/// How a word is made. Words are numbered: 0 is the empty word, and line k makes word k + 1.
#[derive(Clone, Copy, Debug, PartialEq, Eq)]
pub enum Line {
    Letter(Letter),
    Product(usize, usize),
    Power(usize, Raise),
    Commutator(usize, usize),
}

/// A line, and how many letters its word has.
#[derive(Clone, Copy, Debug, PartialEq, Eq)]
pub struct Entry {
    pub line: Line,
    pub letters: u32,
}

/// A program, seen as the words that its lines make.
#[derive(Drop)]
pub struct Program {
    entries: Vec<Entry>,
}

impl Model for Program {
    ghost use Rattle.std.specs.Prelude.{List, []};
    ghost use Rattle.free_words.specs.declared.letter.Letter.{Letter};
    ghost use Rattle.word_text.specs.Program.{words_from, IsProgram};

    ghost Value = { List (List Letter) };

    ghost view = { λ p. words_from [] p.entries.items };

    ghost invariant = { λ p. IsProgram [] p.entries.items };
}

impl Program {
    ghost use Rattle.word_text.specs.Program.{word_of, made, Speaks, Adds};
    ghost use Rattle.word_text.specs.Powers.{power_of};
    ghost use Rattle.free_words.specs.Words.{commutator};

    /// The program of no lines.
    pub fn new(alloc: Global) -> Program
        ensures { result ≡ [] }
    {
        Program {
            entries: Vec::new(alloc),
        }
    }

    /// How many letters a word has.
    pub fn letters_of(&self, word: usize) -> u32
        requires { word ≤ length self.now }
        ensures { result ≡ length (word_of self.now word) }
    {
        if word == 0 {
            0
        } else {
            self.entries[word - 1].letters
        }
    }

    /// One more line.
    fn add(&mut self, line: Line, letters: u32) -> Result<usize, AllocError>
        requires earlier { Speaks (length self.old) line }
        requires letters { letters ≡ length (made self.old line) }
        ensures { Adds self.old self.new result (made self.old line) }
    {
        self.entries.push(Entry { line, letters })?;
        Ok(self.entries.len())
    }

    /// The word of one letter.
    pub fn letter(&mut self, l: Letter) -> Result<usize, AllocError>
        ensures { Adds self.old self.new result (l ∷ []) }
    {
        self.add(Line::Letter(l), 1)
    }

    /// The letters of one word followed by those of another.
    pub fn product(&mut self, left: usize, right: usize) -> Result<usize, AllocError>
        requires left { left ≤ length self.old }
        requires right { right ≤ length self.old }
        requires within { length (word_of self.old left) + length (word_of self.old right) ≤ 16384 }
        ensures { Adds self.old self.new result (word_of self.old left ++ word_of self.old right) }
    {
        let before = self.letters_of(left);
        let behind = self.letters_of(right);
        if before == 0 {
            return Ok(right);
        }
        if behind == 0 {
            return Ok(left);
        }
        self.add(Line::Product(left, right), before + behind)
    }

    /// A power of a word.
    pub fn power(&mut self, base: usize, raise: Raise) -> Result<usize, AllocError>
        requires base { base ≤ length self.old }
        requires within { raise.times * length (word_of self.old base) ≤ 16384 }
        ensures { Adds self.old self.new result (power_of raise.negative raise.times (word_of self.old base)) }
    {
        let letters = raise.times * self.letters_of(base);
        if letters == 0 {
            return Ok(0);
        }
        if raise == Raise::ONCE {
            return Ok(base);
        }
        let line = self.raised(base, raise);
        self.add(line, letters)
    }

    /// The line of a power. A power of a power is one power where one of the two only turns signs: so a line of many
    /// powers is short.
    fn raised(&self, base: usize, raise: Raise) -> Line
        requires { base ≤ length self.now }
        ensures earlier { Speaks (length self.now) result }
        ensures word { made self.now result ≡ power_of raise.negative raise.times (word_of self.now base) }
    {
        match self.line(base) {
            Some(Line::Power(root, first)) if first.times == 1 || raise.times == 1 => {
                Line::Power(root, first.then(raise))
            }
            _ => Line::Power(base, raise),
        }
    }

    /// The commutator of two words.
    pub fn commutator(&mut self, left: usize, right: usize) -> Result<usize, AllocError>
        requires left { left ≤ length self.old }
        requires right { right ≤ length self.old }
        requires within { (length (word_of self.old left) + length (word_of self.old right)) * 2 ≤ 16384 }
        ensures { Adds self.old self.new result (commutator (word_of self.old left) (word_of self.old right)) }
    {
        let letters = (self.letters_of(left) + self.letters_of(right)) * 2;
        if letters == 0 {
            return Ok(0);
        }
        self.add(Line::Commutator(left, right), letters)
    }

    /// The line that makes a word, or none for the empty word.
    pub fn line(&self, word: usize) -> Option<Line>
        requires { word ≤ length self.now }
        ensures earlier { IfSome result (λ x. (0 < word) × Speaks (word - 1) x) }
        ensures word { MatchOption result (word_of self.now word ≡ []) (λ x. word_of self.now word ≡ made self.now x) }
    {
        if word == 0 {
            None
        } else {
            Some(self.entries[word - 1].line)
        }
    }
}
