//! The laws of integers and of formal sums. Each function does nothing: its contract is the law, and
//! a call of it tells the law to the proof of the caller.

ghost use Rattle.std.specs.Cmp.{IsTotalOrder};
ghost use Rattle.std.specs.Int.{int_div_euclid};
ghost use Rattle.std.specs.List.Sorted.{IsPermutation};
ghost use Rattle.std.specs.Ordering.{eq_by_cmp};
ghost use Rattle.std.specs.declared.cmp.Ordering.{Ordering};
ghost use Rattle.std.specs.Prelude.{◌≡◌, ◌≢◌, ◌⊎◌, Bool, if◌then◌else◌, ℕ, ◌<◌, ◌≤◌, nat_eq, [], ◌∷◌, ◌++◌, length};
ghost use Rattle.std.specs.Prelude.{ℤ, pos, neg_ℤ, ◌+ℤ◌, ◌*ℤ◌, ◌<ℤ◌};
ghost use Rattle.formal_sums.specs.Evaluation.{Addition, IsAdditive, Extends, evaluate};
ghost use Rattle.formal_sums.specs.Evaluation.{integer_addition, sum_addition};
ghost use Rattle.formal_sums.specs.FormalSum.{FormalSum, coefficient, Same, scale, rename};
ghost use Rattle.formal_sums.specs.FormalSum.{Falling, NonZero};
ghost use Rattle.formal_sums.specs.IntegerTuple.{IntegerTuple, plus, none, minus, one_at, entry, tuple_eq};
ghost use Rattle.formal_sums.specs.Keys.{IsEqualityTest, IsStrictOrder};

use crate::relations::{Ordered, Setoid};
use std::cmp::Ordering;

/// Multiplication of integers is associative.
pub fn products_associate()
    ensures { (a b c : ℤ) → (a *ℤ b) *ℤ c ≡ a *ℤ (b *ℤ c) }
{}

/// Products of integers distribute over sums, on either side.
pub fn products_distribute()
    ensures left { (a b c : ℤ) → a *ℤ (b +ℤ c) ≡ a *ℤ b +ℤ a *ℤ c }
    ensures right { (a b c : ℤ) → (a +ℤ b) *ℤ c ≡ a *ℤ c +ℤ b *ℤ c }
{}

/// A product of integers is 0 only where a factor is.
pub fn products_have_no_zero_divisors()
    ensures { (a b : ℤ) → a *ℤ b ≡ pos 0 → (a ≡ pos 0) ⊎ (b ≡ pos 0) }
{}

/// Division by a positive integer rounds down: it leaves a remainder from 0 on that is below the
/// divisor, and no other quotient does.
pub fn division_rounds_down()
    ensures remainder { (k l : ℤ) → pos 0 <ℤ l →
        (r : ℕ) × (k ≡ int_div_euclid k l *ℤ l +ℤ pos r) × (pos r <ℤ l) }
    ensures unique { (k l q : ℤ) (r : ℕ) →
        k ≡ q *ℤ l +ℤ pos r → pos r <ℤ l → int_div_euclid k l ≡ q }
{}

/// The tuples of n integers form an abelian group under addition by entries, in which equality is
/// decided.
pub fn tuples_form_a_group()
    ensures associative { (n : ℕ) (a b c : IntegerTuple n) →
        plus n (plus n a b) c ≡ plus n a (plus n b c) }
    ensures commutative { (n : ℕ) (a b : IntegerTuple n) → plus n a b ≡ plus n b a }
    ensures neutral { (n : ℕ) (a : IntegerTuple n) → plus n (none n) a ≡ a }
    ensures inverse { (n : ℕ) (a : IntegerTuple n) → plus n (minus n a) a ≡ none n }
    ensures decided { (n : ℕ) → IsEqualityTest (tuple_eq n) }
{}

/// A tuple is determined by its entries, and the operations go by entries. The tuple `one_at n h`
/// has the entry 1 at place h, and 0 elsewhere.
pub fn tuples_go_by_entries()
    ensures determined { (n : ℕ) (a b : IntegerTuple n) →
        ((g : ℕ) → entry n a g ≡ entry n b g) → a ≡ b }
    ensures sum { (n : ℕ) (a b : IntegerTuple n) (g : ℕ) →
        entry n (plus n a b) g ≡ entry n a g +ℤ entry n b g }
    ensures negative { (n : ℕ) (a : IntegerTuple n) (g : ℕ) →
        entry n (minus n a) g ≡ neg_ℤ (entry n a g) }
    ensures zero { (n g : ℕ) → entry n (none n) g ≡ pos 0 }
    ensures generator { (n h g : ℕ) → h < n →
        entry n (one_at n h) g ≡ (if nat_eq h g then pos 1 else pos 0) }
{}

/// A comparison that is a total order, and answers `Equal` of equal keys alone, is a test for
/// equality and a strict order of the keys.
pub fn comparisons_order_keys<K>()
    ensures test { (cmp : K → K → Ordering) → IsTotalOrder cmp →
        ((a b : K) → cmp a b ≡ Ordering.Equal → a ≡ b) → IsEqualityTest (eq_by_cmp cmp) }
    ensures order { (cmp : K → K → Ordering) → IsTotalOrder cmp →
        ((a b : K) → cmp a b ≡ Ordering.Equal → a ≡ b) →
        IsStrictOrder (λ a b. cmp a b ≡ Ordering.Less) }
{}

/// A single term has its coefficient at its key, and 0 at each other key.
pub fn coefficients_of_terms<K>()
    ensures own { (eq : K → K → Bool) → IsEqualityTest eq →
        (q : ℤ) (k : K) → coefficient eq ((q, k) ∷ []) k ≡ q }
    ensures other { (eq : K → K → Bool) → IsEqualityTest eq →
        (q : ℤ) (k m : K) → k ≢ m → coefficient eq ((q, k) ∷ []) m ≡ pos 0 }
{}

/// The coefficients of the sum of two formal sums are the sums of their coefficients.
pub fn coefficients_of_sums<K>()
    ensures { (eq : K → K → Bool) (v w : FormalSum K) (k : K) →
        coefficient eq (v ++ w) k ≡ coefficient eq v k +ℤ coefficient eq w k }
{}

/// The coefficients of a multiple are the multiples of the coefficients.
pub fn coefficients_of_multiples<K>()
    ensures { (eq : K → K → Bool) (q : ℤ) (v : FormalSum K) (k : K) →
        coefficient eq (scale q v) k ≡ q *ℤ coefficient eq v k }
{}

/// Where keys are renamed, the coefficient of a new key is the sum of the coefficients of the terms
/// that get it.
pub fn coefficients_of_renamed_sums<K, J>()
    ensures { (eq : J → J → Bool) (f : K → J) (v : FormalSum K) (j : J) →
        coefficient eq (rename f v) j
        ≡ evaluate integer_addition (λ k. if eq (f k) j then pos 1 else pos 0) v }
{}

/// Where equal sums are added to equal sums, the results are equal.
pub fn addition_keeps_equality<K>()
    ensures { (eq : K → K → Bool) (v v' w w' : FormalSum K) →
        Same eq v v' → Same eq w w' → Same eq (v ++ w) (v' ++ w') }
{}

/// The same multiples of equal sums are equal.
pub fn scaling_keeps_equality<K>()
    ensures { (eq : K → K → Bool) (q : ℤ) (v w : FormalSum K) →
        Same eq v w → Same eq (scale q v) (scale q w) }
{}

/// Equal sums stay equal under every map of the keys, also where keys fall together.
pub fn renaming_keeps_equality<K, J>()
    ensures { (eq : K → K → Bool) → IsEqualityTest eq →
        (eq' : J → J → Bool) (f : K → J) (v w : FormalSum K) →
        Same eq v w → Same eq' (rename f v) (rename f w) }
{}

/// The order of the terms says nothing.
pub fn exchanges_keep_equality<K>()
    ensures { (eq : K → K → Bool) (v w : FormalSum K) → IsPermutation v w → Same eq v w }
{}

/// The universal property of formal sums. Let values of the type C be added with the laws of a
/// commutative monoid with integer multiples, up to a relation that counts as equality, and let f
/// give each key a value. Then equal sums have equal values, taking values is additive and extends
/// f, and no other additive map does.
pub fn sums_are_universal<K, C: Setoid>()
    ensures well_defined { (addition : Addition C) → IsAdditive addition C.alike →
        (eq : K → K → Bool) → IsEqualityTest eq → (f : K → C) (v w : FormalSum K) →
        Same eq v w → C.alike (evaluate addition f v) (evaluate addition f w) }
    ensures extends { (addition : Addition C) → IsAdditive addition C.alike →
        (f : K → C) → Extends addition C.alike f (evaluate addition f) }
    ensures unique { (addition : Addition C) → IsAdditive addition C.alike →
        (f : K → C) (g : FormalSum K → C) → Extends addition C.alike f g →
        (v : FormalSum K) → C.alike (g v) (evaluate addition f v) }
{}

/// Equal sums have the same integer value, whatever integers stand for the keys.
pub fn integer_values_of_equal_sums<K>()
    ensures { (eq : K → K → Bool) → IsEqualityTest eq → (f : K → ℤ) (v w : FormalSum K) →
        Same eq v w → evaluate integer_addition f v ≡ evaluate integer_addition f w }
{}

/// Equal sums stay equal where for each key a sum over other keys is put in.
pub fn substitution_keeps_equality<K, J>()
    ensures { (eq : K → K → Bool) → IsEqualityTest eq →
        (eq' : J → J → Bool) (f : K → FormalSum J) (v w : FormalSum K) →
        Same eq v w → Same eq' (evaluate sum_addition f v) (evaluate sum_addition f w) }
{}

/// A sum with strictly falling keys and no zero coefficient is determined, as a list, by its
/// coefficients.
pub fn coefficients_determine_falling_sums<K: Ordered>()
    ensures { (eq : K → K → Bool) → IsEqualityTest eq → IsStrictOrder K.is_below →
        (v w : FormalSum K) → Falling K.is_below v → NonZero v → Falling K.is_below w → NonZero w →
        Same eq v w → v ≡ w }
{}

/// Of all sums that are the same, one with strictly falling keys and no zero coefficient has the fewest terms.
pub fn falling_sums_are_shortest<K: Ordered>()
    ensures { (eq : K → K → Bool) → IsEqualityTest eq → IsStrictOrder K.is_below →
        (v w : FormalSum K) → Falling K.is_below v → NonZero v → Same eq v w → length v ≤ length w }
{}
