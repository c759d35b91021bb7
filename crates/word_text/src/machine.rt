//! Words, read from left to right: the brackets that are open are a list, so that their depth takes no stack.

ghost use Rattle.std.specs.Prelude.{◌≡◌, ◌≤◌, ◌<◌, ◌++◌, ◌∷◌, [], ℕ, List, Some, length, false, IfOk, map, position};
ghost use Rattle.std.specs.Prelude.{string_bytes};
ghost use Rattle.std.specs.Str.{bytes_eq};
ghost use Rattle.free_words.specs.declared.letter.Letter.{Letter};
ghost use Rattle.word_text.specs.Scan.{Gives, name_at, mark_of};
ghost use Rattle.word_text.specs.Powers.{written};
ghost use Rattle.word_text.specs.Draft.{awaited_in};
ghost use Rattle.word_text.specs.Machine.{Round, Square, Reading, factor_ends, opens, closes, stands_no_factor};
ghost use Rattle.word_text.specs.Machine.{starred, named, turn_on, turn, word_at, fresh, finding};
ghost use Rattle.word_text.specs.State.{reading};

use crate::draft::{Awaited, Draft};
use crate::fault::{Fault, ReadError, TextKind};
use crate::powers::powers;
use crate::scan::{Mark, after_first, due, first_is, mark_at, skip_blanks, split_name};
use free_words::{Letter, WRITTEN, Word};
use std::alloc::Global;

/// What stands before a place in a word.
#[derive(Clone, Copy, Debug, PartialEq, Eq)]
pub enum Spot {
    /// No factor of the innermost product.
    Start,
    /// A factor.
    After,
    /// A factor and `*`.
    Starred,
}

/// Where the reading of a word stands.
#[derive(Drop)]
pub struct State {
    draft: Draft,
    spot: Spot,
}

/// The place of this name in the list.
fn place_of(names: &[String], name: &[u8]) -> Option<usize>
    ensures { result ≡ position (λ n. bytes_eq (string_bytes n) name.now) names.now }
{
    names.iter().position(|n| n.as_bytes() == name)
}

/// The number of the generator of this name.
fn generator(names: &[String], name: &[u8]) -> Option<usize>
    ensures { result ≡ finding (map string_bytes names.now) name.now }
{
    place_of(names, name)
}

fn too_long(start: usize) -> ReadError
    ensures { result ≡ ReadError.Text (record { kind = TextKind.WordTooLong; left = start }) }
{
    ReadError::Text(Fault {
        kind: TextKind::WordTooLong,
        left: start,
    })
}

impl State {
    fn new(alloc: Global) -> State
        ensures { reading result ≡ fresh }
    {
        State {
            draft: Draft::new(alloc),
            spot: Spot::Start,
        }
    }

    /// An atom has been read: its powers follow, and the factor joins the product.
    #[tactic(auto, unfolding(crate::specs::Machine::factor_ends))]
    fn factor_ends<'a>(
        &mut self,
        start: usize,
        text: &'a [u8],
    ) -> Result<(bool, &'a [u8]), ReadError>
        ensures exact { Gives (λ x. record { state = reading self.new; ended = x.0; rest = x.1.now }) result
            (factor_ends written self.old.draft.frames self.old.draft.product start self.old.draft.atom text.now) }
        ensures shorter { IfOk result (λ x. length x.1.now ≤ length text.now) }
    {
        let atom = self.draft.atom_letters();
        let (raise, rest) = powers(atom, start, text)?;
        let factor = raise.times as u64 * atom as u64;
        if self.draft.letters() as u64 + factor > WRITTEN as u64 {
            return Err(too_long(start));
        }
        self.draft.join(raise)?;
        self.spot = Spot::After;
        Ok((false, rest))
    }

    /// A round bracket opens here.
    fn opens_round<'a>(&mut self, text: &'a [u8]) -> Result<(bool, &'a [u8]), ReadError>
        requires { 0 < length text.now }
        ensures exact { Gives (λ x. record {
          state = reading self.new;
          ended = x.0;
          rest = x.1.now;
        }) result (opens Round (reading self.old) text.now) }
        ensures shorter { IfOk result (λ x. x.0 ≡ false → length x.1.now < length text.now) }
    {
        self.draft.open_round(text.len())?;
        self.spot = Spot::Start;
        Ok((false, after_first(text)))
    }

    /// A square bracket opens here.
    fn opens_square<'a>(&mut self, text: &'a [u8]) -> Result<(bool, &'a [u8]), ReadError>
        requires { 0 < length text.now }
        ensures exact { Gives (λ x. record {
          state = reading self.new;
          ended = x.0;
          rest = x.1.now;
        }) result (opens Square (reading self.old) text.now) }
        ensures shorter { IfOk result (λ x. x.0 ≡ false → length x.1.now < length text.now) }
    {
        self.draft.open_square(text.len())?;
        self.spot = Spot::Start;
        Ok((false, after_first(text)))
    }

    /// A round bracket has to close here.
    #[tactic(auto, using(crate::proofs::Closing::closes_round))]
    fn closes_round<'a>(&mut self, text: &'a [u8]) -> Result<(bool, &'a [u8]), ReadError>
        requires { awaited_in self.old.draft.frames ≡ Some Awaited.Parenthesis }
        ensures exact { Gives (λ x. record { state = reading self.new; ended = x.0; rest = x.1.now }) result
            (closes written self.old.draft.frames (reading self.old) text.now) }
        ensures shorter { IfOk result (λ x. x.0 ≡ false → length x.1.now < length text.now) }
    {
        if !first_is(b')', text) {
            return Err(due(text).into());
        }
        let start = self.draft.close_round();
        self.factor_ends(start, after_first(text))
    }

    /// The comma of a square bracket has to stand here.
    #[tactic(auto, using(crate::proofs::Closing::closes_comma))]
    fn passes_comma<'a>(&mut self, text: &'a [u8]) -> Result<(bool, &'a [u8]), ReadError>
        requires { awaited_in self.old.draft.frames ≡ Some Awaited.Comma }
        ensures exact { Gives (λ x. record { state = reading self.new; ended = x.0; rest = x.1.now }) result
            (closes written self.old.draft.frames (reading self.old) text.now) }
        ensures shorter { IfOk result (λ x. x.0 ≡ false → length x.1.now < length text.now) }
    {
        if !first_is(b',', text) {
            return Err(due(text).into());
        }
        self.draft.pass_comma();
        self.spot = Spot::Start;
        Ok((false, after_first(text)))
    }

    /// A square bracket has to close here.
    #[tactic(auto, using(crate::proofs::Closing::closes_square))]
    fn closes_square<'a>(&mut self, text: &'a [u8]) -> Result<(bool, &'a [u8]), ReadError>
        requires { awaited_in self.old.draft.frames ≡ Some Awaited.Bracket }
        ensures exact { Gives (λ x. record { state = reading self.new; ended = x.0; rest = x.1.now }) result
            (closes written self.old.draft.frames (reading self.old) text.now) }
        ensures shorter { IfOk result (λ x. x.0 ≡ false → length x.1.now < length text.now) }
    {
        if !first_is(b']', text) {
            return Err(due(text).into());
        }
        if self.draft.commutator_letters() > WRITTEN as u64 {
            return Err(too_long(self.draft.start()));
        }
        let start = self.draft.close_square()?;
        self.factor_ends(start, after_first(text))
    }

    /// No factor stands here: the word ends, or the innermost bracket goes on.
    fn closes<'a>(&mut self, text: &'a [u8]) -> Result<(bool, &'a [u8]), ReadError>
        ensures exact { Gives (λ x. record { state = reading self.new; ended = x.0; rest = x.1.now }) result
            (closes written self.old.draft.frames (reading self.old) text.now) }
        ensures shorter { IfOk result (λ x. x.0 ≡ false → length x.1.now < length text.now) }
    {
        match self.draft.awaited() {
            None => Ok((true, text)),
            Some(Awaited::Parenthesis) => self.closes_round(text),
            Some(Awaited::Comma) => self.passes_comma(text),
            Some(Awaited::Bracket) => self.closes_square(text),
        }
    }

    fn stands_no_factor<'a>(&mut self, text: &'a [u8]) -> Result<(bool, &'a [u8]), ReadError>
        ensures exact { Gives (λ x. record { state = reading self.new; ended = x.0; rest = x.1.now }) result
            (stands_no_factor written self.old.spot (reading self.old) text.now) }
        ensures shorter { IfOk result (λ x. x.0 ≡ false → length x.1.now < length text.now) }
    {
        match self.spot {
            Spot::Starred => Err(due(text).into()),
            _ => self.closes(text),
        }
    }

    fn starred<'a>(&mut self, text: &'a [u8]) -> Result<(bool, &'a [u8]), ReadError>
        requires { 0 < length text.now }
        ensures exact { Gives (λ x. record { state = reading self.new; ended = x.0; rest = x.1.now }) result
            (starred written self.old.spot (reading self.old) text.now) }
        ensures shorter { IfOk result (λ x. x.0 ≡ false → length x.1.now < length text.now) }
    {
        match self.spot {
            Spot::Starred => Err(due(text).into()),
            Spot::Start => self.closes(text),
            Spot::After => {
                self.spot = Spot::Starred;
                Ok((false, after_first(text)))
            }
        }
    }

    fn named<'a>(&mut self, names: &[String], text: &'a [u8]) -> Result<(bool, &'a [u8]), ReadError>
        requires few { length names.now ≤ 24 }
        requires letter { mark_of text.now ≡ Mark.Letter }
        ensures exact { Gives (λ x. record { state = reading self.new; ended = x.0; rest = x.1.now }) result
            (named written (finding (map string_bytes names.now) (name_at text.now)) (reading self.old) text.now) }
        ensures shorter { IfOk result (λ x. x.0 ≡ false → length x.1.now < length text.now) }
    {
        let (name, rest) = split_name(text);
        match generator(names, name) {
            None => Err(ReadError::Text(Fault {
                kind: TextKind::UnknownName,
                left: text.len(),
            })),
            Some(g) => {
                self.draft.read_letter(Letter {
                    g: g as u8,
                    inv: false,
                })?;
                self.factor_ends(text.len(), rest)
            }
        }
    }

    fn turn_on<'a>(
        &mut self,
        names: &[String],
        text: &'a [u8],
    ) -> Result<(bool, &'a [u8]), ReadError>
        requires { length names.now ≤ 24 }
        ensures exact { Gives (λ x. record { state = reading self.new; ended = x.0; rest = x.1.now }) result
            (turn_on written (finding (map string_bytes names.now)) (mark_of text.now) (reading self.old) text.now) }
        ensures shorter { IfOk result (λ x. x.0 ≡ false → length x.1.now < length text.now) }
    {
        if text.is_empty() {
            return self.stands_no_factor(text);
        }
        match mark_at(text) {
            Mark::Letter => self.named(names, text),
            Mark::One => {
                self.draft.read_one();
                self.factor_ends(text.len(), after_first(text))
            }
            Mark::Round => self.opens_round(text),
            Mark::Square => self.opens_square(text),
            Mark::Star => self.starred(text),
            Mark::Bad => self.stands_no_factor(text),
            Mark::Other => self.stands_no_factor(text),
        }
    }

    /// One token, or a whole factor's end.
    #[tactic(auto, unfolding(crate::specs::Machine::turn))]
    fn turn<'a>(&mut self, names: &[String], text: &'a [u8]) -> Result<(bool, &'a [u8]), ReadError>
        requires { length names.now ≤ 24 }
        ensures exact { Gives (λ x. record { state = reading self.new; ended = x.0; rest = x.1.now }) result
            (turn written (finding (map string_bytes names.now)) (reading self.old) text.now) }
        ensures shorter { IfOk result (λ x. x.0 ≡ false → length x.1.now < length text.now) }
    {
        self.turn_on(names, skip_blanks(text))
    }
}

/// The word at the head of the text, and what follows it and its blanks.
#[tactic(auto, unfolding(crate::specs::Machine::word_within))]
pub fn word_at<'a>(
    alloc: Global,
    names: &[String],
    text: &'a [u8],
) -> Result<(Word, &'a [u8]), ReadError>
    requires { length names.now ≤ 24 }
    ensures { Gives (λ x. (x.0, x.1.now)) result (word_at (finding (map string_bytes names.now)) text.now) }
{
    let mut state = State::new(alloc);
    let mut rest = text;
    loop {
        let (ended, after) = state.turn(names, rest)?;
        if ended {
            return Ok((state.draft.word(alloc)?, after));
        }
        rest = after;
    }
}
