//! What an order of tasks looks at in a vector.

ghost use Rattle.std.specs.Prelude.{◌≡◌, ◌≤◌, pos, ◌<ℤ◌};
ghost use Rattle.module_vec.specs.Reducers.{IsEntry};
ghost use Rattle.task_table.specs.Profiles.{IsProfile, binary_digits, most_digits, profile_of};

use module_vec::{ModVec, Term};

/// A vector's lead, the most binary digits of a coefficient, and whether the vector has at most two terms.
#[derive(Clone, Copy)]
pub struct Profile {
    pub lead: Term,
    pub digits: u32,
    pub short: bool,
}

impl Profile {
    /// The profile of an entry's vector.
    pub fn of(vector: &ModVec) -> Profile
        requires { IsEntry vector.now }
        ensures is { result ≡ profile_of vector.now }
        ensures profile { IsProfile result }
    {
        let terms = vector.terms();
        Profile {
            lead: terms[0],
            digits: digits_of(terms),
            short: terms.len() <= 2,
        }
    }
}

/// The most binary digits of a coefficient.
fn digits_of(terms: &[Term]) -> u32
    ensures is { result ≡ most_digits terms.now }
    ensures most { result ≤ 128 }
{
    let mut most = 0;
    for term in terms {
        most = digits(term.k.unsigned_abs()).max(most);
    }
    most
}

/// The number of binary digits.
pub fn digits(number: u128) -> u32
    ensures is { result ≡ binary_digits number }
    ensures most { result ≤ 128 }
{
    128 - number.leading_zeros()
}
