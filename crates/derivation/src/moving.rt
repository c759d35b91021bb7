//! A word that moves are made on.

ghost use Rattle.std.specs.Prelude.{◌≡◌, ◌≤◌, length, Ok, Err, OnOk, OnErr, IfOk, IfErr};
ghost use Rattle.derivation.specs.Making.{IsInsertOver, MoveGives};
ghost use Rattle.derivation.specs.Pieces.{letters_of, IsCountable, PuttingGives, TakingGives};

use crate::gap::GapWord;
use crate::moves::{Move, MoveFault, MoveReason};
use crate::piece::{Piece, find_piece};
use free_words::{COMPOSED, Letter, Word};
use presentation::Presentation;
use std::alloc::{AllocError, Global};
use std::marker::Model;

/// A word under moves, with room for one piece beside it. It is seen as the word's letters.
#[derive(Drop)]
pub struct MovingWord {
    word: GapWord,
    piece: Vec<Letter>,
}

impl Model for MovingWord {
    ghost use Rattle.std.specs.Prelude.{List};
    ghost use Rattle.free_words.specs.declared.letter.Letter.{Letter};

    ghost Value = { List Letter };

    ghost view = { λ w. w.word };
}

impl MovingWord {
    /// The word before any move.
    pub fn new(alloc: Global, w: &Word) -> Result<MovingWord, AllocError>
        ensures { IfOk result (λ moving. moving ≡ w.now) }
    {
        Ok(MovingWord {
            word: GapWord::new(alloc, w)?,
            piece: Vec::new(alloc),
        })
    }

    /// The number of letters.
    pub fn len(&self) -> u32
        ensures { result ≡ length self.now }
    {
        self.word.len() as u32
    }

    /// The word as it stands.
    pub fn into_word(self) -> Word
        ensures { result ≡ self }
    {
        let MovingWord { word, .. } = self;
        word.into_word()
    }

    /// Makes one move. After an error the word is as before.
    pub fn make(&mut self, p: &Presentation, m: &Move) -> Result<(), MoveFault>
        requires { IsInsertOver p.now m.now.what }
        ensures ok { OnOk result (MoveGives p.now self.old m.now (Ok self.new)) }
        ensures err { IfErr result (λ e. MoveGives p.now self.old m.now (Err e)) }
        ensures same { OnErr result (self.new ≡ self.old) }
    {
        let at = m.at as usize;
        if at > self.word.len() {
            return Err(MoveFault::Refused(MoveReason::Place));
        }
        let piece = find_piece(p, &m.what).map_err(MoveFault::Refused)?;
        if m.del {
            self.take_out(at, &piece)
        } else {
            self.put_in(at, &piece)
        }
    }

    /// Puts a piece in at a place, where the word stays within the limit.
    #[tactic(auto, using(crate::proofs::MoveLemmas::put_at))]
    fn put_in(&mut self, at: usize, piece: &Piece) -> Result<(), MoveFault>
        requires at { at ≤ length self.old }
        requires countable { IsCountable piece.now }
        ensures ok { OnOk result (PuttingGives at (letters_of piece.now) self.old (Ok self.new)) }
        ensures err { IfErr result (λ e. PuttingGives at (letters_of piece.now) self.old (Err e)) }
        ensures same { OnErr result (self.new ≡ self.old) }
    {
        if self.word.len() as u64 + piece.len() > COMPOSED as u64 {
            return Err(MoveFault::Refused(MoveReason::TooLong));
        }
        self.piece.clear();
        piece.put(&mut self.piece)?;
        self.word.put_in(at, &self.piece);
        Ok(())
    }

    /// Takes a piece out from a place on, where it stands there.
    #[tactic(auto, using(crate::proofs::MoveLemmas::too_long_to_stand))]
    fn take_out(&mut self, at: usize, piece: &Piece) -> Result<(), MoveFault>
        requires at { at ≤ length self.old }
        requires countable { IsCountable piece.now }
        ensures ok { OnOk result (TakingGives at (letters_of piece.now) self.old (Ok self.new)) }
        ensures err { IfErr result (λ e. TakingGives at (letters_of piece.now) self.old (Err e)) }
        ensures same { OnErr result (self.new ≡ self.old) }
    {
        if piece.len() > (self.word.len() - at) as u64 {
            return Err(MoveFault::Refused(MoveReason::NotThere));
        }
        self.piece.clear();
        piece.put(&mut self.piece)?;
        if self.word.take_out(at, &self.piece) {
            Ok(())
        } else {
            Err(MoveFault::Refused(MoveReason::NotThere))
        }
    }
}
