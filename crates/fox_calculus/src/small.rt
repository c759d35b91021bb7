//! Vectors that are far below all limits.

ghost use Rattle.std.specs.Prelude.{◌≡◌, ◌≤◌, length, sum_by, unsigned_abs, IfOk};
ghost use Rattle.module_vec.specs.declared.TheConstants.{COEFFICIENT, TERMS};
ghost use Rattle.module_vec.specs.Vectors.{sum_of};
ghost use Rattle.fox_calculus.specs.Generators.{IsWritten};

use module_vec::{ModVec, Term, VecFault};
use std::alloc::{AllocError, Global};

/// The sum of these terms, of which there are few, with coefficients that are small even taken together.
pub fn small_sum(alloc: Global, terms: &[Term]) -> Result<ModVec, AllocError>
    requires few { length terms.now ≤ TERMS }
    requires small { sum_by (λ t. unsigned_abs t.k) terms.now ≤ COEFFICIENT }
    ensures { IfOk result (IsWritten (sum_of terms.now)) }
{
    match ModVec::from_terms(alloc, terms) {
        Ok(v) => Ok(v),
        Err(VecFault::Stop(_)) => unreachable!(),
        Err(VecFault::NoMemory) => Err(AllocError),
    }
}
