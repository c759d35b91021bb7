//! Each law is told once, the generic ones at concrete types: nothing is computed here.

ghost use Rattle.std.specs.Prelude.{◌≡◌, ◌<◌};

use crate::laws;
use crate::relations::{Ordered, Setoid};

impl Setoid for u64 {
    ghost alike = { λ a b. a ≡ b };
}

impl Ordered for u8 {
    ghost is_below = { λ a b. a < b };
}

#[test]
fn laws_of_integers() {
    laws::products_associate();
    laws::products_distribute();
    laws::products_have_no_zero_divisors();
    laws::division_rounds_down();
    laws::tuples_form_a_group();
    laws::tuples_go_by_entries();
}

#[test]
fn laws_of_formal_sums() {
    laws::comparisons_order_keys::<u8>();
    laws::coefficients_of_terms::<u8>();
    laws::coefficients_of_sums::<u8>();
    laws::coefficients_of_multiples::<u8>();
    laws::coefficients_of_renamed_sums::<u8, char>();
    laws::addition_keeps_equality::<u8>();
    laws::scaling_keeps_equality::<u8>();
    laws::renaming_keeps_equality::<u8, char>();
    laws::exchanges_keep_equality::<u8>();
    laws::sums_are_universal::<u8, u64>();
    laws::integer_values_of_equal_sums::<u8>();
    laws::substitution_keeps_equality::<u8, char>();
    laws::coefficients_determine_falling_sums::<u8>();
}
