//! All the bytes under a name, read piece by piece.

ghost use Rattle.std.specs.Prelude.{◌≡◌, ℕ, ◌≤◌, List, OnOk};
ghost use Rattle.mb_io.specs.Load.{Loads};
ghost use Rattle.mb_io.specs.declared.load.LoadFault.TheVariants.{ReadFault, NoMemory};

use crate::shelf::{Failed, Shelf};
use std::alloc::{AllocError, AllocFailed, Global};

/// How many bytes one read asks for.
const PIECE: usize = 16_384;

/// Why the bytes under a name were not read.
#[derive(Clone, Copy, Debug, PartialEq, Eq)]
pub enum LoadFault {
    /// The shelf failed, and has counted it.
    ReadFault,

    /// There are more bytes than the limit, which is `at`.
    FileTooLong { at: u32 },

    /// No memory was left for the bytes.
    NoMemory,
}

impl From<AllocError> for LoadFault {
    ghost from_gives = { λ _ e. e ≡ NoMemory };

    fn from(_: AllocError) -> LoadFault {
        LoadFault::NoMemory
    }
}

impl<T: Drop> From<AllocFailed<T>> for LoadFault {
    ghost from_gives = { λ _ e. e ≡ NoMemory };

    fn from(_: AllocFailed<T>) -> LoadFault {
        LoadFault::NoMemory
    }
}

impl From<Failed> for LoadFault {
    ghost from_gives = { λ _ e. e ≡ ReadFault };

    fn from(_: Failed) -> LoadFault {
        LoadFault::ReadFault
    }
}

/// All the bytes under a name, at most `limit` of them.
///
/// It reads to the end, or stops at the first read that fails or passes the limit. Each turn takes at least one byte,
/// so at most `limit` + 1 turns read bytes. The shelf then stands where the last read left it.
#[tactic(auto, using(crate::proofs::Giving::pieces))]
pub fn read_all<S: Shelf>(
    alloc: Global,
    shelf: &mut S,
    name: &str,
    limit: u32,
) -> Result<Vec<u8>, LoadFault>
    ensures loads { Loads limit (S.under shelf.old name.now) (S.faults shelf.old) (S.faults shelf.new) result }
    ensures end { OnOk result (S.ended shelf.new) }
    ensures same { (n : List ℕ) → S.under shelf.new n ≡ S.under shelf.old n }
    ensures later { S.faults shelf.old ≤ S.faults shelf.new }
{
    shelf.start(name)?;
    let mut bytes: Vec<u8> = Vec::new(alloc);
    let mut piece = [0u8; PIECE];
    loop {
        let count = shelf.read(&mut piece)?;
        if count == 0 {
            return Ok(bytes);
        }
        if bytes.len() + count > limit as usize {
            return Err(LoadFault::FileTooLong { at: limit });
        }
        bytes.extend_from_slice(&piece[..count])?;
    }
}
