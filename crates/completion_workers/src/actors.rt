//! `Actor`: a worker or a session, with its seat.

ghost use Rattle.std.specs.Prelude.{◌≡◌};
ghost use Rattle.std.specs.Arc.{arc_value};
ghost use Rattle.completion_workers.specs.Acting.{IsReady, HasActed, HasAnsweredSome, HasQuestion};

use crate::asking::ask_all;
use crate::gates::Gate;
use crate::shared::Shared;
use crate::turns::run_worker;
use basis_log::Seat;
use session_core::Session;
use std::alloc::AllocError;
use std::mem;
use std::sync::Wait;

/// Who takes part in a completion by threads.
#[derive(Drop)]
pub enum Actor<'r> {
    /// A worker takes tasks of the book, and publishes in the row what it appends.
    Worker {
        number: u32,
        seat: Seat<'r>,
    },
    /// A session asks its questions, each by what its seat then sees. `dry` says that memory ran out, and the rest of
    /// the questions is unasked.
    Session {
        session: Session,
        seat: Seat<'r>,
        dry: bool,
    },
}

impl<'r> Actor<'r> {
    /// Does all that the actor has to do. It is number `at` of those that run.
    pub(crate) fn run<G: Gate, R: Wait>(&mut self, rt: &R, shared: &Shared<'_>, gate: &G, at: usize)
        requires { IsReady (arc_value shared.now.p.now) self.old }
        ensures { HasActed (arc_value shared.now.p.now) self.old self.new }
    {
        match self {
            Actor::Worker { number, .. } => {
                let number = *number;
                if let Actor::Worker { seat, .. } = self {
                    run_worker(rt, shared, gate, at, number, seat);
                }
            }
            Actor::Session { .. } => {
                let _ = self.ask(rt, shared, gate);
                let is_dry = self.has_question();
                if let Actor::Session { dry, .. } = self {
                    *dry = is_dry;
                }
            }
        }
    }

    /// Asks the questions of a session. A pattern lends one part of an actor alone: while the session asks over its
    /// seat it stands outside, and an empty one in its place.
    fn ask<G: Gate, R: Wait>(
        &mut self,
        rt: &R,
        shared: &Shared<'_>,
        gate: &G,
    ) -> Result<(), AllocError>
        requires { IsReady (arc_value shared.now.p.now) self.old }
        ensures { HasAnsweredSome (arc_value shared.now.p.now) self.old self.new }
    {
        let mut own = Session::open(shared.alloc, 0, Vec::new(shared.alloc), 0)?;
        if let Actor::Session { session, .. } = self {
            mem::swap(session, &mut own);
        }
        let asked = match self {
            Actor::Session { seat, .. } => ask_all(rt, shared, gate, &mut own, seat),
            Actor::Worker { .. } => Ok(()),
        };
        if let Actor::Session { session, .. } = self {
            mem::swap(session, &mut own);
        }
        asked
    }

    /// Whether it is a session that has a question without a reply.
    fn has_question(&self) -> bool
        ensures { HasQuestion self.now result }
    {
        match self {
            Actor::Session { session, .. } => {
                session.known();
                session.next().is_some()
            }
            Actor::Worker { .. } => false,
        }
    }
}
