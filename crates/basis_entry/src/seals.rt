//! `Sealed`: the entries of a strong basis.

ghost use Rattle.std.specs.List.{AllByRecursion};
ghost use Rattle.std.specs.Prelude.{◌≡◌, ◌+◌, ◌<◌, ◌^◌, List, map, length, IfOk};
ghost use Rattle.std.specs.Arc.{arc_value};
ghost use Rattle.basis_entry.specs.Entries.{AreOf, IsBasisEntry, vectors_of};
ghost use Rattle.basis_entry.specs.Seals.{Seal, IsSeal, IsStrongBasis};

use crate::Entry;
use presentation::Presentation;
use std::alloc::{AllocError, Global};
use std::marker::Model;
use std::sync::Arc;

/// A seal: a presentation, and entries whose vectors are a strong basis of its module.
#[derive(Drop)]
pub struct Sealed {
    source: Arc<Presentation>,
    entries: Vec<Arc<Entry>>,
}

impl Model for Sealed {
    ghost use Rattle.std.specs.Prelude.{map};
    ghost use Rattle.std.specs.Arc.{arc_value};
    ghost use Rattle.basis_entry.specs.Seals.{Seal, IsSeal};

    ghost Value = { Seal };

    ghost view = { λ s. record { source = s.source.value; entries = map arc_value s.entries.items } };

    ghost invariant = { λ s. IsSeal (record { source = s.source.value; entries = map arc_value s.entries.items }) };
}

impl Sealed {
    /// The seal of the presentation with these entries, of which there are fewer than 2^32 - 1.
    pub fn make(
        alloc: Global,
        p: &Arc<Presentation>,
        entries: &[Arc<Entry>],
    ) -> Result<Sealed, AllocError>
        requires source { AreOf (arc_value p.now) (map arc_value entries.now) }
        requires few { length entries.now + 1 < 2 ^ 32 }
        requires strong { IsStrongBasis (arc_value p.now) (vectors_of (map arc_value entries.now)) }
        ensures { IfOk result (λ s. s ≡ record { source = arc_value p.now; entries = map arc_value entries.now }) }
    {
        Entry::all_known(entries);
        let entries = shared(alloc, entries)?;
        Ok(Sealed {
            source: Arc::try_clone(p)?,
            entries,
        })
    }

    /// What holds of every seal. The call does nothing.
    pub fn known(&self)
        ensures { IsSeal self.now }
    {
        let _source = &self.source;
    }

    /// The presentation.
    pub fn presentation(&self) -> &Presentation
        ensures { result.now ≡ self.now.source }
    {
        &self.source
    }

    /// The entries of the strong basis, in order.
    pub fn entries(&self) -> &[Arc<Entry>]
        ensures is { map arc_value result.now ≡ self.now.entries }
        ensures seal { IsSeal self.now }
    {
        &self.entries
    }
}

/// One more reference to each of the entries.
fn shared(alloc: Global, entries: &[Arc<Entry>]) -> Result<Vec<Arc<Entry>>, AllocError>
    ensures { IfOk result (λ made. map arc_value made.items ≡ map arc_value entries.now) }
{
    let mut made = Vec::with_capacity(alloc, entries.len())?;
    for entry in entries {
        made.push(Arc::try_clone(entry)?)?;
    }
    Ok(made)
}
