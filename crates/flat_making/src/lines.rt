//! The lines of a certificate.

ghost use Rattle.std.specs.List.{AllByRecursion};
ghost use Rattle.std.specs.Prelude.{◌≡◌, ◌+◌, ◌<◌, ◌^◌, ◌++◌, neg_ℤ, IfOk, OnOk, None, slice_index_or, if◌then◌else◌};
ghost use Rattle.formal_sums.specs.FormalSum.{FormalSum, coefficient};
ghost use Rattle.module_vec.specs.declared.places.Place.{Place};
ghost use Rattle.module_vec.specs.Places.{same_place};
ghost use Rattle.module_vec.specs.Vectors.{InRange};
ghost use Rattle.flat_cert.specs.Adding.{sum_at};
ghost use Rattle.flat_making.specs.Handing.{IsRow, Holds};
ghost use Rattle.flat_making.specs.Lines.{entry_lines, AreLinesFrom};
ghost use Rattle.flat_making.specs.Pairs.{IsShare, share_lines};

use crate::handed::{Handed, Share};
use basis_entry::Recipe;
use flat_cert::{Flat, FlatKind};
use report_reading::EntryData;
use std::alloc::{AllocError, Global};

/// The lines of the entries of generators, by the numbers of the entries and then by falling monomials. `kinds` says
/// what a line names each generator.
pub fn certificate_lines(
    alloc: Global,
    entries: &[EntryData],
    kinds: &[Option<FlatKind>],
    handed: &Handed,
) -> Result<Vec<Flat>, AllocError>
    ensures { IfOk result (λ made. (all : FormalSum Place) → Holds handed.now all
        → AreLinesFrom kinds.now (coefficient same_place all) 0 entries.now made.items) }
{
    let mut made = Vec::new(alloc);
    for (number, entry) in entries.iter().enumerate() {
        put_lines(alloc, &mut made, kinds, handed, &entry.recipe, number)?;
    }
    Ok(made)
}

/// The lines of one entry.
fn put_lines(
    alloc: Global,
    made: &mut Vec<Flat>,
    kinds: &[Option<FlatKind>],
    handed: &Handed,
    recipe: &Recipe,
    number: usize,
) -> Result<(), AllocError>
    requires { number + 1 < 2 ^ 64 }
    ensures { OnOk result ((row : FormalSum Place) → IsRow (sum_at handed.now) number row
        → made.new.items ≡ made.old.items ++ entry_lines kinds.now recipe.now row) }
{
    match recipe {
        Recipe::Sum { .. } => Ok(()),
        Recipe::Gen {
            number: generator,
            negated,
        } => match kind_at(kinds, *generator) {
            None => Ok(()),
            Some(what) => {
                let row = handed.row(alloc, number)?;
                put_shares(made, &row, what, *negated)
            }
        },
    }
}

/// What a line names the generator with this number.
fn kind_at(kinds: &[Option<FlatKind>], number: u32) -> Option<FlatKind>
    ensures { result ≡ slice_index_or kinds.now number None }
{
    match kinds.get(number as usize) {
        Some(kind) => *kind,
        None => None,
    }
}

/// A line for each share, its sign turned where the generator was `negated`.
fn put_shares(
    made: &mut Vec<Flat>,
    row: &[Share],
    what: FlatKind,
    negated: bool,
) -> Result<(), AllocError>
    requires { AllByRecursion IsShare row.now }
    ensures { OnOk result (made.new.items ≡ made.old.items ++ share_lines negated what row.now) }
{
    for share in row {
        made.push(Flat {
            k: signed(negated, share.k),
            t: share.t,
            what,
        })?;
    }
    Ok(())
}

/// The number, or where `negated` the one with the other sign.
fn signed(negated: bool, k: i128) -> i128
    requires { InRange k }
    ensures { result ≡ (if negated then neg_ℤ k else k) }
{
    if negated { -k } else { k }
}
