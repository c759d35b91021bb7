//! The terms of a word's letters, with the exponent sums kept while going.

ghost use Rattle.std.specs.Prelude.{◌≡◌, ◌<◌, ◌≤◌, sum_by, unsigned_abs, length, IfOk, if◌then◌else◌, negsuc, pos};
ghost use Rattle.free_words.specs.Words.{IsOver};
ghost use Rattle.laurent_terms.specs.Monomials.{monomial_of};
ghost use Rattle.module_vec.specs.Vectors.{sum_of};
ghost use Rattle.fox_calculus.specs.Fox.{fox};
ghost use Rattle.fox_calculus.specs.Running.{added, running_term};

use free_words::{COMPOSED, GENERATORS, Letter};
use laurent_terms::{DEGREE, Mono};
use module_vec::{Place, Term};
use std::alloc::{AllocError, Global};

/// The terms of the letters of a word, in their order.
pub fn letter_terms(alloc: Global, word: &[Letter]) -> Result<Vec<Term>, AllocError>
    requires over { IsOver GENERATORS word.now }
    requires short { length word.now ≤ COMPOSED }
    ensures { IfOk result (λ v. sum_of v.items ≡ fox word.now) }
{
    let mut sums = [0; 24];
    let mut terms = Vec::with_capacity(alloc, word.len())?;
    for l in word {
        terms.push(letter_term(&mut sums, *l))?;
    }
    Ok(terms)
}

/// The term of a letter behind letters with these exponent sums, to which it is added.
fn letter_term(sums: &mut [i32; 24], l: Letter) -> Term
    requires known { l.g < GENERATORS }
    requires small { sum_by unsigned_abs sums.old < DEGREE }
    ensures term { result ≡ running_term sums.old l }
    ensures sums { sums.new ≡ added sums.old l }
{
    if l.inv {
        sums[l.g as usize] -= 1;
        return Term {
            at: place(sums, l.g),
            k: -1,
        };
    }
    let at = place(sums, l.g);
    sums[l.g as usize] += 1;
    Term { at, k: 1 }
}

/// The place of a generator behind letters with these exponent sums.
fn place(sums: &[i32; 24], g: u8) -> Place
    requires { sum_by unsigned_abs sums.now ≤ DEGREE }
    ensures { result ≡ record { m = monomial_of sums.now; c = g } }
{
    match Mono::of_exponents(sums) {
        Some(m) => Place { m, c: g },
        None => unreachable!(),
    }
}
