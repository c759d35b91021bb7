//! A session's turn.

ghost use Rattle.std.specs.List.{AllByRecursion};
ghost use Rattle.std.specs.Prelude.{◌≡◌, ◌≤◌, OnOk, OnErr};
ghost use Rattle.basis_entry.specs.Entries.{AreOf};
ghost use Rattle.basis_entry.specs.Seals.{item_count};
ghost use Rattle.session_core.specs.Questions.{CanBeAsked};
ghost use Rattle.session_core.specs.Sessions.{last_front};
ghost use Rattle.interleave_core.specs.Machine.{Asks};

use basis_entry::Front;
use presentation::Presentation;
use session_core::Session;
use std::alloc::{AllocError, Global};

/// The session's next question is answered by all items of the list, if one is left.
pub fn ask<F: Front>(
    alloc: Global,
    p: &Presentation,
    list: &F,
    session: &mut Session,
) -> Result<(), AllocError>
    requires entries { AreOf p.now (F.entries list.now) }
    requires questions { AllByRecursion (CanBeAsked p.now) session.old.questions }
    requires front { last_front session.old ≤ item_count (F.entries list.now) (F.seal list.now) }
    ensures ok { OnOk result (Asks p.now (F.entries list.now) (F.seal list.now) session.old session.new) }
    ensures err { OnErr result (session.new ≡ session.old) }
{
    if session.next().is_some() {
        let _ = session.ask(alloc, p, list)?;
    }
    Ok(())
}
