//! The questions of a session.

ghost use Rattle.std.specs.List.{AllByRecursion};
ghost use Rattle.std.specs.Prelude.{◌≡◌, ◌+◌, ◌<◌, ◌≤◌, length, MatchResult, IfOk, OnErr};
ghost use Rattle.std.specs.Arc.{arc_value};
ghost use Rattle.basis_entry.specs.Entries.{AreOf};
ghost use Rattle.basis_entry.specs.Seals.{item_count};
ghost use Rattle.session_core.specs.Questions.{CanBeAsked};
ghost use Rattle.session_core.specs.Sessions.{last_front};
ghost use Rattle.completion_workers.specs.Growth.{AreFirstLeads};
ghost use Rattle.completion_workers.specs.Asking.{HasAsked, CanAsk, HasGoneOn};

use crate::gates::Gate;
use crate::leads::look;
use crate::shared::Shared;
use basis_entry::Front;
use basis_log::Seat;
use presentation::Presentation;
use reducer_index::{Index, Indexed};
use session_core::Session;
use std::alloc::{AllocError, Global};
use std::sync::Wait;

/// Asks all questions of a session, in order, each by what the seat then sees. Where memory runs out the rest stays
/// unasked.
#[tactic(auto, using(crate::proofs::Going::going))]
pub(crate) fn ask_all<G: Gate, R: Wait>(
    rt: &R,
    shared: &Shared<'_>,
    gate: &G,
    session: &mut Session,
    seat: &mut Seat<'_>,
) -> Result<(), AllocError>
    requires { CanAsk (arc_value shared.now.p.now) session.old seat.old }
    ensures goes { HasGoneOn (arc_value shared.now.p.now) session.old session.new seat.old seat.new }
    ensures all { IfOk result (λ _. length session.new.questions ≤ length session.new.kept) }
{
    let mut index = Index::new(shared.alloc);
    while session.next().is_some() {
        gate.pass(rt, session.number(), 1);
        ask_next(shared, session, seat, &mut index)?;
    }
    Ok(())
}

/// Looks, and answers the next question by all items that are seen.
#[tactic(auto, using(crate::proofs::Going::going))]
fn ask_next(
    shared: &Shared<'_>,
    session: &mut Session,
    seat: &mut Seat<'_>,
    index: &mut Index,
) -> Result<(), AllocError>
    requires can { CanAsk (arc_value shared.now.p.now) session.old seat.old }
    requires next { length session.old.kept < length session.old.questions }
    requires leads { AreFirstLeads seat.old.items index.old }
    ensures goes { HasGoneOn (arc_value shared.now.p.now) session.old session.new seat.old seat.new }
    ensures leads { AreFirstLeads seat.new.items index.new }
    ensures ok { IfOk result (λ _. length session.new.kept ≡ length session.old.kept + 1) }
    ensures err { OnErr result (session.new ≡ session.old) }
{
    look(seat, index)?;
    ask(shared.alloc, shared.p, &Indexed::over(seat, index), session)
}

/// Answers the next question of the session by all items of the list.
fn ask<F: Front>(
    alloc: Global,
    p: &Presentation,
    list: &F,
    session: &mut Session,
) -> Result<(), AllocError>
    requires next { length session.old.kept < length session.old.questions }
    requires front { last_front session.old ≤ item_count (F.entries list.now) (F.seal list.now) }
    requires questions { AllByRecursion (CanBeAsked p.now) session.old.questions }
    requires entries { AreOf p.now (F.entries list.now) }
    ensures { MatchResult result (λ _. HasAsked p.now (F.entries list.now) (F.seal list.now) session.old session.new)
        (λ _. session.new ≡ session.old) }
{
    let _ = session.ask(alloc, p, list)?;
    Ok(())
}
