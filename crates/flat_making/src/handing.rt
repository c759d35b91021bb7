//! Handing on from entry to entry.

ghost use Rattle.std.specs.List.{AllByRecursion};
ghost use Rattle.std.specs.Prelude.{◌+◌, ◌<◌, ◌^◌};
ghost use Rattle.formal_sums.specs.FormalSum.{FormalSum};
ghost use Rattle.module_vec.specs.declared.places.Place.{Place};
ghost use Rattle.flat_cert.specs.Adding.{sum_at, Adds};
ghost use Rattle.flat_making.specs.Handing.{IsRow, hands_on, HaveFactor, HasFactors, HaveFactors, HandsDown};
ghost use Rattle.flat_making.specs.Pairs.{IsShare, shares_hand};

use crate::handed::{Handed, Share};
use basis_entry::Recipe;
use flat_cert::FlatFault;
use module_vec::Step;
use report_reading::EntryData;
use std::alloc::Global;

/// From the last entry to the first, what stands at an entry is handed on by its recipe.
pub fn hand_down(alloc: Global, entries: &[EntryData], handed: &mut Handed) -> Result<(), FlatFault>
    requires { HaveFactors entries.now }
    ensures { HandsDown entries.now handed.old handed.new result }
{
    let mut left = entries.len();
    while left > 0 {
        left -= 1;
        hand_entry(alloc, &entries[left].recipe, left, handed)?;
    }
    Ok(())
}

/// What stands at this entry is handed on by its recipe.
fn hand_entry(
    alloc: Global,
    recipe: &Recipe,
    number: usize,
    handed: &mut Handed,
) -> Result<(), FlatFault>
    requires factors { HasFactors recipe.now }
    requires number { number + 1 < 2 ^ 64 }
    ensures { (row : FormalSum Place) → IsRow (sum_at handed.old) number row
        → Adds handed.old (hands_on row recipe.now) handed.new result }
{
    match recipe {
        Recipe::Gen { .. } => Ok(()),
        Recipe::Sum { steps } => {
            let row = handed.row(alloc, number)?;
            hand_shares(&row, steps.steps(), handed)
        }
    }
}

/// Each share is handed on by the steps.
fn hand_shares(row: &[Share], steps: &[Step], handed: &mut Handed) -> Result<(), FlatFault>
    requires shares { AllByRecursion IsShare row.now }
    requires steps { HaveFactor steps.now }
    ensures { Adds handed.old (shares_hand row.now steps.now) handed.new result }
{
    for share in row {
        handed.hand_on(share.k, &share.t, steps)?;
    }
    Ok(())
}
