//! Products of monomials where x_g·y_g is 1.

ghost use Rattle.std.specs.Prelude.{◌≡◌, ◌<◌, ℕ, pos, length, slice_index_or, IfSome};
ghost use Rattle.free_words.specs.declared.TheConstants.{GENERATORS};
ghost use Rattle.laurent_terms.specs.Monomials.{degree, product, MadeWithin, IsMonomial};
ghost use Rattle.flat_cert.specs.Images.{cancelled};
ghost use Rattle.flat_cert.specs.Adding.{difference_in};

use laurent_terms::Mono;

/// The product with x_g·y_g cancelled, or `None` where its degree passes [`DEGREE`](laurent_terms::DEGREE).
pub fn flat_product(s: &Mono, t: &Mono) -> Option<Mono>
    ensures made { let flat = cancelled (product s.now t.now) in MadeWithin (degree flat) flat result }
    ensures monomial { IfSome result IsMonomial }
{
    // The proof needs that both are monomials, and the calls say so.
    let _ = (s.degree(), t.degree());
    Mono::of_exponents(&differences(s, t))
}

/// For each generator the exponent of x_g less that of y_g in the product.
fn differences(s: &Mono, t: &Mono) -> [i32; 24]
    ensures whole { length result ≡ GENERATORS }
    ensures each { (g : ℕ) → g < GENERATORS → slice_index_or result g (pos 0) ≡ difference_in s.now t.now g }
{
    let mut made = [0; 24];
    for g in 0..24 {
        let (x, y) = (2 * g as u8, 2 * g as u8 + 1);
        let positive = i32::from(s.exp(x)) + i32::from(t.exp(x));
        made[g] = positive - i32::from(s.exp(y)) - i32::from(t.exp(y));
    }
    made
}
