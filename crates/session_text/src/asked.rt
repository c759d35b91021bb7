//! The questions of a session so far.

ghost use Rattle.std.specs.Prelude.{◌≡◌, ◌≤◌, ◌<◌, ◌+◌, nat_le, nat_lt, [], ◌∷◌, ◌++◌, length, OnOk};
ghost use Rattle.session_text.specs.declared.TheConstants.{QUESTIONS, LETTERS};
ghost use Rattle.session_text.specs.Questions.{question_letters, session_letters};

use crate::question::Question;
use crate::{LETTERS, QUESTIONS};
use std::alloc::{AllocError, Global};
use std::marker::Model;

/// Questions within the limits of a session, with the number of their letters. Contracts see them as their list.
#[derive(Drop)]
pub struct Asked {
    questions: Vec<Question>,
    letters: u32,
}

impl Model for Asked {
    ghost use Rattle.std.specs.Prelude.{◌≡◌, ◌≤◌, List, length};
    ghost use Rattle.session_text.specs.declared.TheConstants.{QUESTIONS, LETTERS};
    ghost use Rattle.session_text.specs.declared.question.Question.{Question};
    ghost use Rattle.session_text.specs.Questions.{session_letters};

    ghost Value = { List Question };

    ghost view = { λ a. a.questions.items };

    ghost invariant = { λ a. (a.letters ≡ session_letters a.questions.items) × (a.letters ≤ LETTERS)
        × (length a.questions.items ≤ QUESTIONS) };
}

impl Asked {
    /// No questions.
    pub fn new(alloc: Global) -> Asked
        ensures { result ≡ [] }
    {
        Asked {
            questions: Vec::new(alloc),
            letters: 0,
        }
    }

    /// Whether there may not be another question.
    pub fn is_full(&self) -> bool
        ensures { result ≡ nat_le QUESTIONS (length self.now) }
    {
        self.questions.len() >= QUESTIONS as usize
    }

    /// Whether so many more letters are too many.
    pub fn is_passed_by(&self, letters: u32) -> bool
        ensures { result ≡ nat_lt LETTERS (session_letters self.now + letters) }
    {
        self.letters as u64 + letters as u64 > LETTERS as u64
    }

    /// Puts a question with so many letters behind those before. Where memory runs out, nothing is changed.
    #[tactic(auto, using(crate::proofs::LetterSums::letters_behind))]
    pub fn push(&mut self, question: Question, letters: u32) -> Result<(), AllocError>
        requires letters { letters ≡ question_letters question }
        requires room { length self.old < QUESTIONS }
        requires few { session_letters self.old + letters ≤ LETTERS }
        ensures { OnOk result (self.new ≡ self.old ++ question ∷ []) }
    {
        self.questions.push(question)?;
        self.letters += letters;
        Ok(())
    }

    /// The questions in order.
    pub fn into_questions(self) -> Vec<Question>
        ensures questions { result.items ≡ self }
        ensures few { length self ≤ QUESTIONS }
        ensures few_letters { session_letters self ≤ LETTERS }
    {
        self.questions
    }
}
