//! The laws of monomials, as contracts of functions that do nothing: what the calls of `Mono` give can be relied on to
//! be an order, a division and a product. Lists of exponents stand for monomials. A law that wants lists of one length
//! says so.

ghost use Rattle.std.specs.Prelude.{◌≡◌, ℕ, ◌+◌, ◌*◌, ◌<◌, ◌≤◌, ◌⊎◌, ◌↔◌, true, List, length, ℤ, pos, ◌-ℤ◌};
ghost use Rattle.std.specs.Prelude.{slice_index, slice_index_or, sum_by, unsigned_abs};
ghost use Rattle.std.specs.Cmp.{IsTotalOrder};
ghost use Rattle.std.specs.declared.cmp.Ordering.TheVariants.{Less, Equal};
ghost use mathlib.Core.WellFounded.{WellFounded};
ghost use Rattle.laurent_terms.specs.Monomials.{one, degree, product, quotient, common_multiple, divides, mono_cmp};
ghost use Rattle.laurent_terms.specs.Monomials.{monomial_of, positive_part, negative_part};
ghost use Rattle.laurent_terms.specs.Orders.{Below};

use crate::VARIABLES;

/// The order is a strict total order, and only a monomial itself is equal to it.
pub fn order_is_total()
    ensures total { IsTotalOrder mono_cmp }
    ensures exact { (s t : List ℕ) → (mono_cmp s t ≡ Equal) ↔ (s ≡ t) }
{}

/// Products with one monomial stand as the monomials themselves do.
pub fn order_is_kept_by_products()
    ensures { (t r s : List ℕ) → length r ≡ length t → length s ≡ length t →
        mono_cmp (product t r) (product t s) ≡ mono_cmp r s }
{}

/// No chain of monomials falls for ever.
pub fn order_is_well_founded()
    ensures { (n : ℕ) → WellFounded (Below n) }
{}

/// Whoever divides a monomial stands below it or is that monomial.
pub fn divisors_stand_below()
    ensures { (s t : List ℕ) → divides s t ≡ true → (mono_cmp s t ≡ Less) ⊎ (s ≡ t) }
{}

/// Division is a partial order.
pub fn division_is_a_partial_order()
    ensures reflexive { (s : List ℕ) → divides s s ≡ true }
    ensures transitive { (r s t : List ℕ) → divides r s ≡ true → divides s t ≡ true → divides r t ≡ true }
    ensures antisymmetric { (s t : List ℕ) → divides s t ≡ true → divides t s ≡ true → s ≡ t }
{}

/// A monomial divides its multiples and no other: the quotient is what it has to be multiplied by.
pub fn quotients_undo_products()
    ensures multiple { (s t : List ℕ) → length s ≡ length t → divides s (product s t) ≡ true }
    ensures quotient { (s t : List ℕ) → length s ≡ length t → quotient (product s t) s ≡ t }
    ensures back { (s t : List ℕ) → length s ≡ length t → divides s t ≡ true → product s (quotient t s) ≡ t }
{}

/// The least common multiple divides exactly what both monomials divide.
pub fn common_multiple_is_least()
    ensures { (s t u : List ℕ) → length s ≡ length t →
        (divides (common_multiple s t) u ≡ true) ↔ ((divides s u ≡ true) × (divides t u ≡ true)) }
{}

/// The product is associative and commutative, and the monomial without a variable changes nothing.
pub fn products_form_a_monoid()
    ensures associative { (r s t : List ℕ) → product (product r s) t ≡ product r (product s t) }
    ensures commutative { (s t : List ℕ) → product s t ≡ product t s }
    ensures neutral { (s : List ℕ) → length s ≡ VARIABLES → product one s ≡ s }
{}

/// Degrees add up, and a divisor has no greater one.
pub fn degrees_add_up()
    ensures product { (s t : List ℕ) → length s ≡ length t → degree (product s t) ≡ degree s + degree t }
    ensures divisor { (s t : List ℕ) → divides s t ≡ true → degree s ≤ degree t }
    ensures common_multiple { (s t : List ℕ) → length s ≡ length t →
        degree (common_multiple s t) ≤ degree s + degree t }
{}

/// The monomial of an integer vector has the vector's numbers, x_g less y_g, and never both variables of a generator.
pub fn integer_vectors_are_kept()
    ensures length { (p : List ℤ) → 2 * length p ≤ VARIABLES → length (monomial_of p) ≡ VARIABLES }
    ensures degree { (p : List ℤ) → degree (monomial_of p) ≡ sum_by unsigned_abs p }
    ensures positive { (p : List ℤ) (g : ℕ) →
        slice_index (monomial_of p) (2 * g) ≡ positive_part (slice_index_or p g (pos 0)) }
    ensures negative { (p : List ℤ) (g : ℕ) →
        slice_index (monomial_of p) (2 * g + 1) ≡ negative_part (slice_index_or p g (pos 0)) }
    ensures difference { (z : ℤ) → pos (positive_part z) -ℤ pos (negative_part z) ≡ z }
    ensures apart { (z : ℤ) → (positive_part z ≡ 0) ⊎ (negative_part z ≡ 0) }
{}
