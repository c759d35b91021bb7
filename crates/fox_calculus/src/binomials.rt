//! Vectors of one term or two.

ghost use Rattle.std.specs.Prelude.{◌≡◌, ◌≤◌, ◌<◌, ◌*◌, length, IfOk};
ghost use Rattle.free_words.specs.Words.{IsOver};
ghost use Rattle.laurent_terms.specs.declared.TheConstants.{VARIABLES};
ghost use Rattle.laurent_terms.specs.Monomials.{IsMonomial};
ghost use Rattle.fox_calculus.specs.Fox.{image};
ghost use Rattle.fox_calculus.specs.Generators.{IsWritten, binomial, constant, unit_monomial};

use crate::small::small_sum;
use free_words::{COMPOSED, GENERATORS, Word};
use laurent_terms::Mono;
use module_vec::{ModVec, Place, Term};
use std::alloc::{AllocError, Global};

/// (m - 1)·e_c, which is zero where m is 1.
pub fn binomial(alloc: Global, m: &Mono, c: u8) -> Result<ModVec, AllocError>
    ensures { IfOk result (IsWritten (binomial m.now c)) }
{
    let first = Place { m: *m, c };
    let second = Place { m: Mono::one(), c };
    small_sum(
        alloc,
        &[Term { at: first, k: 1 }, Term { at: second, k: -1 }],
    )
}

/// n·e_c.
pub fn constant(alloc: Global, n: u32, c: u8) -> Result<ModVec, AllocError>
    ensures { IfOk result (IsWritten (constant n c)) }
{
    let at = Place { m: Mono::one(), c };
    small_sum(
        alloc,
        &[Term {
            at,
            k: i128::from(n),
        }],
    )
}

/// x_g·y_g, which stands for 1.
pub fn unit_monomial(g: u8) -> Mono
    requires { 2 * g < VARIABLES }
    ensures is { result ≡ unit_monomial g }
    ensures monomial { IsMonomial result }
{
    Mono::of_generator(g, true).product(&Mono::of_generator(g, false))
}

/// The monomial of the exponent sums of a word.
pub fn image(w: &Word) -> Mono
    requires over { IsOver GENERATORS w.now }
    requires short { length w.now ≤ COMPOSED }
    ensures is { result ≡ image w.now }
    ensures monomial { IsMonomial result }
{
    match Mono::of_exponents(&w.exponents()) {
        Some(m) => m,
        None => unreachable!(),
    }
}
