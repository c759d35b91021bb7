//! An index that follows a seat.

ghost use Rattle.std.specs.Prelude.{◌≡◌, ◌<◌, ◌^◌, length, IfOk};
ghost use Rattle.basis_entry.specs.Entries.{AreOf, vectors_of};
ghost use Rattle.basis_log.specs.Items.{AreItems, entries_of};
ghost use Rattle.basis_log.specs.Rows.{row_source};
ghost use Rattle.reducer_index.specs.Leads.{AreLeads};
ghost use Rattle.completion_workers.specs.Growth.{HasGrown, AreFirstLeads};

use basis_log::Seat;
use module_vec::VecList;
use reducer_index::Index;
use std::alloc::AllocError;

/// Looks, and pushes the leads of what is new into the index.
#[tactic(auto, using(crate::proofs::Growing::growing))]
pub(crate) fn look(seat: &mut Seat<'_>, index: &mut Index) -> Result<(), AllocError>
    requires { AreFirstLeads seat.old.items index.old }
    ensures grows { HasGrown seat.old seat.new }
    ensures first { AreFirstLeads seat.new.items index.new }
    ensures all { IfOk result (λ _. AreLeads (vectors_of (entries_of seat.new.items)) index.new) }
    ensures few { length seat.new.items < 2 ^ 32 }
    ensures items { AreItems (row_source seat.old.row) seat.new.items }
    ensures source { AreOf (row_source seat.old.row) (entries_of seat.new.items) }
{
    seat.look();
    // The proof needs what holds of the items, and the call says so.
    let _ = seat.front();
    catch_up(index, seat)
}

/// Pushes the leads that the index lacks of the seat's entries.
fn catch_up(index: &mut Index, seat: &Seat<'_>) -> Result<(), AllocError>
    requires { AreFirstLeads seat.now.items index.old }
    ensures first { AreFirstLeads seat.now.items index.new }
    ensures all { IfOk result (λ _. AreLeads (vectors_of (entries_of seat.now.items)) index.new) }
{
    for at in index.len()..seat.count() {
        index.push(seat.vector(at).terms()[0])?;
    }
    Ok(())
}
