//! `Session`: questions, and the replies that are kept.

ghost use Rattle.std.specs.List.{AllByRecursion};
ghost use Rattle.std.specs.Prelude.{◌≡◌, ◌+◌, ◌-◌, ◌<◌, ◌≤◌, [], ◌∷◌, ◌++◌, List, length, slice_get, Option, Some};
ghost use Rattle.std.specs.Prelude.{IfOk, OnErr};
ghost use Rattle.session_text.specs.declared.TheConstants.{QUESTIONS};
ghost use Rattle.session_text.specs.declared.question.Question.{Question};
ghost use Rattle.basis_entry.specs.Entries.{AreOf};
ghost use Rattle.basis_entry.specs.Seals.{item_count};
ghost use Rattle.session_core.specs.declared.kept.Tag.TheVariants as tags;
ghost use Rattle.session_core.specs.Questions.{CanBeAsked};
ghost use Rattle.session_core.specs.Meaning.{AllAreTrivial, MapExtends};
ghost use Rattle.session_core.specs.Replies.{IsReply};
ghost use Rattle.session_core.specs.Sessions.{SessionState, IsSession, last_front, next_question};

use crate::Kept;
use crate::judge::verdict;
use basis_entry::Front;
use presentation::Presentation;
use session_text::Question;
use std::alloc::{AllocError, Global};
use std::marker::Model;

/// The questions of a session, and the replies kept so far. Questions are answered in order, each at a front no shorter
/// than that of the one before.
#[derive(Drop)]
pub struct Session {
    number: u32,
    questions: Vec<Question>,
    base: u32,
    replies: Vec<Kept>,
}

impl Model for Session {
    ghost use Rattle.std.specs.Prelude.{◌≤◌, length};
    ghost use Rattle.std.specs.Vec.{vec_capacity};
    ghost use Rattle.session_core.specs.Sessions.{SessionState, IsSession};

    ghost Value = { SessionState };

    ghost view = { λ s. record {
      number = s.number;
      questions = s.questions.items;
      base = s.base;
      kept = s.replies.items;
    } };

    ghost invariant = { λ s. IsSession (record {
      number = s.number;
      questions = s.questions.items;
      base = s.base;
      kept = s.replies.items;
    }) × (length s.questions.items ≤ vec_capacity s.replies) };
}

impl Session {
    /// The session with this number and these questions, before its first reply. The base is the least front of a
    /// reply. The room for all replies is taken at once.
    pub fn open(
        alloc: Global,
        number: u32,
        questions: Vec<Question>,
        base: u32,
    ) -> Result<Session, AllocError>
        requires { length questions.items ≤ QUESTIONS }
        ensures { IfOk result (λ s. s ≡ record {
          number = number;
          questions = questions.items;
          base = base;
          kept = [];
        }) }
    {
        Question::all_known(&questions);
        let replies = Vec::with_capacity(alloc, questions.len())?;
        Ok(Session {
            number,
            questions,
            base,
            replies,
        })
    }

    /// What holds of every session. The call does nothing.
    pub fn known(&self)
        ensures { IsSession self.now }
    {
        let _number = &self.number;
    }

    /// What holds of each of these sessions. The call does nothing: where it is compiled no loop is left of it.
    pub fn all_known(sessions: &[Session])
        ensures { AllByRecursion IsSession sessions.now }
    {
        for session in sessions {
            session.known();
        }
    }

    /// The number of the next question, counted from 1. `None` exactly where every question has its reply.
    pub fn next(&self) -> Option<u32>
        ensures { result ≡ next_question self.now }
    {
        let answered = self.replies.len();
        if answered < self.questions.len() {
            Some(answered as u32 + 1)
        } else {
            None
        }
    }

    /// Answers the next question by all items of the list, and keeps the reply. Where memory runs out nothing is
    /// changed.
    pub fn ask<F: Front>(
        &mut self,
        alloc: Global,
        p: &Presentation,
        list: &F,
    ) -> Result<Kept, AllocError>
        requires next { length self.old.kept < length self.old.questions }
        requires front { last_front self.old ≤ item_count (F.entries list.now) (F.seal list.now) }
        requires questions { AllByRecursion (CanBeAsked p.now) self.old.questions }
        requires entries { AreOf p.now (F.entries list.now) }
        ensures reply { IfOk result (λ k. (q : Question) → slice_get self.old.questions (length self.old.kept) ≡ Some q
            → IsReply p.now (F.entries list.now) (F.seal list.now) q k) }
        ensures kept { IfOk result (λ k. self.new ≡ record self.old { kept = self.old.kept ++ k ∷ [] }) }
        ensures err { OnErr result (self.new ≡ self.old) }
        ensures trivial { IfOk result (λ k. (q : Question) → slice_get self.old.questions (length self.old.kept)
            ≡ Some q → k.tag ≡ tags.Trivial → AllAreTrivial p.now q) }
        ensures extends { IfOk result (λ k. (q : Question) → slice_get self.old.questions (length self.old.kept)
            ≡ Some q → k.tag ≡ tags.Extends → MapExtends p.now q) }
    {
        let verdict = verdict(alloc, p, list, self.asked())?;
        let front = list.front();
        self.replies.push_reserved(Kept::of(front, &verdict));
        Ok(Kept::of(front, &verdict))
    }

    /// The question that is next.
    fn asked(&self) -> &Question
        requires { length self.now.kept < length self.now.questions }
        ensures { slice_get self.now.questions (length self.now.kept) ≡ Some result.now }
    {
        &self.questions[self.replies.len()]
    }

    /// The session's number.
    pub fn number(&self) -> u32
        ensures { result ≡ self.now.number }
    {
        self.number
    }

    /// How many questions it has.
    pub fn count(&self) -> u32
        ensures is { result ≡ length self.now.questions }
        ensures session { IsSession self.now }
    {
        self.questions.len() as u32
    }

    /// The least front of a reply.
    pub fn base(&self) -> u32
        ensures { result ≡ self.now.base }
    {
        self.base
    }

    /// The front of the last reply, and the base while none is kept.
    pub fn front(&self) -> u32
        ensures { result ≡ last_front self.now }
    {
        match self.replies.last() {
            Some(kept) => kept.front,
            None => self.base,
        }
    }

    /// The reply to the question with this number, counted from 1. `None` exactly where it has none.
    pub fn kept(&self, question: u32) -> Option<Kept>
        requires first { 1 ≤ question }
        requires within { question ≤ length self.now.questions }
        ensures { result ≡ slice_get self.now.kept (question - 1) }
    {
        self.replies.get(question as usize - 1).copied()
    }

    /// The question with this number, counted from 1.
    pub fn question(&self, number: u32) -> &Question
        requires first { 1 ≤ number }
        requires within { number ≤ length self.now.questions }
        ensures { slice_get self.now.questions (number - 1) ≡ Some result.now }
    {
        &self.questions[number as usize - 1]
    }

    /// Drops all replies. The last front is then the base.
    pub fn forget(&mut self)
        ensures { self.new ≡ record self.old { kept = [] } }
    {
        self.replies.clear();
    }
}
