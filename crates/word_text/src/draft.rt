//! The words of a reading: the product so far, the products that wait before open brackets, and the atom that was read
//! last. All are lines of one straight-line program, so that none is written out before the reading ends.

ghost use Rattle.std.specs.Prelude.{◌≡◌, ◌+◌, ◌*◌, ◌≤◌, ◌++◌, ◌∷◌, [], length, Some, IfOk, OnOk, IsSome};
ghost use Rattle.free_words.specs.Words.{commutator};
ghost use Rattle.word_text.specs.Machine.{Round, Square, Second};
ghost use Rattle.word_text.specs.Powers.{power_of};
ghost use Rattle.word_text.specs.Inner.{first_number};

use crate::program::Program;
use crate::raise::Raise;
use crate::spell::spelled;
use free_words::{Letter, Word};
use std::alloc::{AllocError, Global};
use std::collections::VecDeque;
use std::marker::Model;

/// What the innermost open bracket waits for.
#[derive(Clone, Copy, Debug, PartialEq, Eq)]
pub enum Awaited {
    /// `)`, behind the word of a round bracket.
    Parenthesis,
    /// `,`, behind the first word of a square bracket.
    Comma,
    /// `]`, behind its second word.
    Bracket,
}

/// What stands inside an open bracket before the product so far.
#[derive(Clone, Copy, Debug, PartialEq, Eq)]
pub enum Inner {
    Round,
    Square,
    /// A square bracket's first word and the comma.
    Second(usize),
}

/// An open bracket: the product before it, how many bytes are left from its first byte on, and what stands inside it.
#[derive(Clone, Copy, Debug, PartialEq, Eq)]
pub struct Bracket {
    pub outer: usize,
    pub start: usize,
    pub inner: Inner,
}

/// The words of a reading, seen as lists of letters.
#[derive(Drop)]
pub struct Draft {
    program: Program,
    brackets: VecDeque<Bracket>,
    product_at: usize,
    atom_at: usize,
}

impl Model for Draft {
    ghost use Rattle.std.specs.Prelude.{length};
    ghost use Rattle.word_text.specs.Draft.{Drafted, drafted, IsHeld};

    ghost Value = { Drafted };

    ghost view = { λ d. drafted d.program d.brackets.items d.product_at d.atom_at };

    ghost invariant = { λ d. IsHeld (length d.program) d.brackets.items d.product_at d.atom_at };
}

impl Draft {
    ghost use Rattle.word_text.specs.Draft.{awaited_in, innermost, around, first_word};

    /// No open bracket, and the empty product.
    pub fn new(alloc: Global) -> Draft
        ensures { result ≡ record { frames = []; product = []; atom = [] } }
    {
        Draft {
            program: Program::new(alloc),
            brackets: VecDeque::new(alloc),
            product_at: 0,
            atom_at: 0,
        }
    }

    /// What the innermost open bracket waits for, or none where no bracket is open.
    pub fn awaited(&self) -> Option<Awaited>
        ensures { result ≡ awaited_in self.now.frames }
    {
        match self.brackets.front() {
            None => None,
            Some(bracket) => Some(match bracket.inner {
                Inner::Round => Awaited::Parenthesis,
                Inner::Square => Awaited::Comma,
                Inner::Second(_) => Awaited::Bracket,
            }),
        }
    }

    /// The atom is one letter.
    pub fn read_letter(&mut self, l: Letter) -> Result<(), AllocError>
        ensures { OnOk result (self.new ≡ record self.old { atom = l ∷ [] }) }
    {
        self.atom_at = self.program.letter(l)?;
        Ok(())
    }

    /// The atom is the empty word.
    pub fn read_one(&mut self)
        ensures { self.new ≡ record self.old { atom = [] } }
    {
        self.atom_at = 0;
    }

    /// How many letters the atom has.
    pub fn atom_letters(&self) -> u32
        ensures { result ≡ length self.now.atom }
    {
        self.program.letters_of(self.atom_at)
    }

    /// How many letters the product has.
    pub fn letters(&self) -> u32
        ensures { result ≡ length self.now.product }
    {
        self.program.letters_of(self.product_at)
    }

    /// A power of the atom joins the product.
    pub fn join(&mut self, raise: Raise) -> Result<(), AllocError>
        requires { length self.old.product + raise.times * length self.old.atom ≤ 16384 }
        ensures { OnOk result (self.new ≡ record self.old {
          product =
              self.old.product ++ power_of raise.negative raise.times self.old.atom;
        }) }
    {
        let factor = self.program.power(self.atom_at, raise)?;
        self.product_at = self.program.product(self.product_at, factor)?;
        Ok(())
    }

    /// A round bracket opens: the product so far waits before it.
    pub fn open_round(&mut self, start: usize) -> Result<(), AllocError>
        ensures { OnOk result (self.new ≡ record self.old {
          frames =
              record { outer = self.old.product; start = start; opening = Round } ∷ self.old.frames;
          product = [];
        }) }
    {
        self.brackets.push_front(Bracket {
            outer: self.product_at,
            start,
            inner: Inner::Round,
        })?;
        self.product_at = 0;
        Ok(())
    }

    /// A square bracket opens: the product so far waits before it.
    pub fn open_square(&mut self, start: usize) -> Result<(), AllocError>
        ensures { OnOk result (self.new ≡ record self.old {
          frames =
              record { outer = self.old.product; start = start; opening = Square } ∷ self.old.frames;
          product = [];
        }) }
    {
        self.brackets.push_front(Bracket {
            outer: self.product_at,
            start,
            inner: Inner::Square,
        })?;
        self.product_at = 0;
        Ok(())
    }

    /// The comma of a square bracket: the product is its first word.
    pub fn pass_comma(&mut self)
        requires { awaited_in self.old.frames ≡ Some Awaited.Comma }
        ensures { self.new ≡ record self.old {
          frames = record (innermost self.old.frames) { opening = Second self.old.product } ∷ around self.old.frames;
          product = [];
        } }
    {
        self.brackets[0].inner = Inner::Second(self.product_at);
        self.product_at = 0;
    }

    /// The end of a round bracket: its word is the atom, and the product is the one before it. Answers how many bytes
    /// are left from the bracket on.
    pub fn close_round(&mut self) -> usize
        requires { awaited_in self.old.frames ≡ Some Awaited.Parenthesis }
        ensures draft { self.new ≡ record {
          frames = around self.old.frames;
          product = (innermost self.old.frames).outer;
          atom = self.old.product;
        } }
        ensures start { result ≡ (innermost self.old.frames).start }
    {
        let bracket = self.brackets.pop_front().unwrap();
        self.atom_at = self.product_at;
        self.product_at = bracket.outer;
        bracket.start
    }

    /// How many letters the commutator of a square bracket's two words has.
    pub fn commutator_letters(&self) -> u64
        ensures { result ≡ length (commutator (first_word (innermost self.now.frames).opening) self.now.product) }
    {
        let first = self.program.letters_of(first_word_of(&self.brackets));
        (first as u64 + self.letters() as u64) * 2
    }

    /// The end of a square bracket: the commutator of its words is the atom, and the product is the one before it.
    /// Answers how many bytes are left from the bracket on.
    pub fn close_square(&mut self) -> Result<usize, AllocError>
        requires second { awaited_in self.old.frames ≡ Some Awaited.Bracket }
        requires within { length (commutator (first_word (innermost self.old.frames).opening)
            self.old.product) ≤ 16384 }
        ensures draft { OnOk result (self.new ≡ record {
          frames = around self.old.frames;
          product = (innermost self.old.frames).outer;
          atom = commutator (first_word (innermost self.old.frames).opening) self.old.product;
        }) }
        ensures start { IfOk result (λ start. start ≡ (innermost self.old.frames).start) }
    {
        self.atom_at = self
            .program
            .commutator(first_word_of(&self.brackets), self.product_at)?;
        let bracket = self.brackets.pop_front().unwrap();
        self.product_at = bracket.outer;
        Ok(bracket.start)
    }

    /// How many bytes are left from the innermost open bracket on.
    pub fn start(&self) -> usize
        requires { IsSome (awaited_in self.now.frames) }
        ensures { result ≡ (innermost self.now.frames).start }
    {
        self.brackets[0].start
    }

    /// The letters of the product, written out.
    pub fn word(&self, alloc: Global) -> Result<Word, AllocError>
        ensures { IfOk result (λ w. w ≡ self.now.product) }
    {
        spelled(alloc, &self.program, self.product_at)
    }
}

/// The number of a square bracket's first word, where the innermost bracket is behind its comma.
fn first_word_of(brackets: &VecDeque<Bracket>) -> usize
    ensures { result ≡ first_number brackets.now.items }
{
    match brackets.front() {
        Some(bracket) => match bracket.inner {
            Inner::Second(first) => first,
            _ => 0,
        },
        None => 0,
    }
}
