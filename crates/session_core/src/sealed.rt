//! Questions to a seal.

ghost use Rattle.std.specs.Prelude.{Some, IfOk};
ghost use Rattle.basis_entry.specs.Entries.{vectors_of};
ghost use Rattle.session_core.specs.Questions.{CanBeAsked};
ghost use Rattle.session_core.specs.Verdicts.{IsVerdict};
ghost use Rattle.session_core.specs.Meaning.{IsExact};

use crate::judge::verdict;
use basis_entry::{Items, Sealed};
use outcomes::Verdict;
use session_text::Question;
use std::alloc::{AllocError, Global};

/// The verdict on the question by a seal. Unless it is `Stop` it is exact: `Trivial` and `Extends` are answered exactly
/// where they hold, `Fails` names the first relator whose image isn't trivial, `Normal` gives the reduced form of the
/// word's Fox vector, and `Unknown` is never answered (Magnus 1939, Lichtblau 2012).
pub fn ask_sealed(alloc: Global, s: &Sealed, q: &Question) -> Result<Verdict, AllocError>
    requires question { CanBeAsked s.now.source q.now }
    ensures is { IfOk result (IsVerdict s.now.source (vectors_of s.now.entries) (Some s.now) q.now) }
    ensures exact { IfOk result (IsExact s.now.source q.now) }
{
    s.presentation().known();
    s.known();
    q.known();
    verdict(alloc, s.presentation(), &Items::of_seal(s), q)
}
