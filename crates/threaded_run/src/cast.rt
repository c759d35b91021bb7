//! The actors of a run.

ghost use Rattle.std.specs.Prelude.{◌≡◌, ◌≤◌, ◌+◌, IfOk, length};
ghost use Rattle.std.specs.Arc.{arc_value};
ghost use Rattle.presentation.specs.Presented.{Presented};
ghost use Rattle.basis_log.specs.Rows.{row_source};
ghost use Rattle.session_core.specs.Sessions.{SessionState};
ghost use Rattle.legal_report.specs.Solutions.{AreNewSessions};
ghost use Rattle.threaded_run.specs.Parts.{session_in, seated_in, AreCast};

use basis_log::{Row, Seat};
use completion_workers::Actor;
use presentation::Presentation;
use session_core::Session;
use std::alloc::{AllocError, Global};
use std::sync::Arc;

/// So many workers, numbered from 1, and the sessions, each with a seat of its own in the row.
pub(crate) fn cast<'r>(
    alloc: Global,
    p: &Arc<Presentation>,
    row: &'r Row,
    workers: u32,
    sessions: Vec<Session>,
) -> Result<Vec<Actor<'r>>, AllocError>
    requires source { row_source row.now ≡ arc_value p.now }
    requires sessions { AreNewSessions (arc_value p.now) (length row.now.base) sessions.items }
    ensures { IfOk result (λ actors. AreCast (arc_value p.now) workers sessions.items actors.items) }
{
    let mut actors = Vec::with_capacity(alloc, workers as usize + sessions.len())?;
    for number in 0..workers {
        let seat = row.seat(alloc)?;
        actors.push(Actor::Worker {
            number: number + 1,
            seat,
        })?;
    }
    for session in sessions {
        let seat = row.seat(alloc)?;
        actors.push(Actor::Session {
            session,
            seat,
            dry: false,
        })?;
    }
    Ok(actors)
}

/// The session of an actor, with its seat, if it is one.
fn session_of<'r>(actor: Actor<'r>) -> Option<(Session, Option<Seat<'r>>)>
    ensures { result ≡ session_in actor.entry }
{
    match actor {
        Actor::Worker { .. } => None,
        Actor::Session { session, seat, .. } => Some((session, Some(seat))),
    }
}

/// The sessions among the actors, each with its seat, in order.
pub(crate) fn seated<'r>(
    alloc: Global,
    actors: Vec<Actor<'r>>,
) -> Result<Vec<(Session, Option<Seat<'r>>)>, AllocError>
    ensures { IfOk result (λ seated. seated.items ≡ seated_in actors.entry.items) }
{
    let mut seated = Vec::with_capacity(alloc, actors.len())?;
    for actor in actors {
        if let Some(session) = session_of(actor) {
            seated.push(session)?;
        }
    }
    Ok(seated)
}
