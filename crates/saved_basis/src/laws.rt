//! Laws. Each function does nothing: its contract is the law.

ghost use Rattle.std.specs.Prelude.{ℕ, Result};
ghost use Rattle.presentation.specs.Presented.{IsPresented};
ghost use Rattle.basis_entry.specs.Seals.{Seal, IsSeal};
ghost use Rattle.report_text.specs.Reports.{IsRecord};
ghost use Rattle.saved_basis.specs.declared.faults.BasisFault.{BasisFault};
ghost use Rattle.saved_basis.specs.Files.{AreWithin, basis_text};
ghost use Rattle.saved_basis.specs.Reading.{ReadsBasis, IsReadBack};

/// The file that is written of a seal whose entries are within the limits is read back as that seal, unless the work of
/// one of its tasks stops, or memory runs out: no line of it fails, and no task is open. A task can stop though the
/// list is strong, since a completion may close it through other tasks.
pub fn written_bases_are_read()
    ensures { (s : Seal) (base : ℕ) → IsPresented s.source → IsSeal s → IsRecord s.source base s.entries
        → AreWithin s.entries → (r : Result Seal BasisFault)
        → ReadsBasis s.source (basis_text s.source s.entries) r → IsReadBack s r }
{}
