//! Each law is told once: nothing is computed here.

use crate::{magnus, maps, rules};

#[test]
fn laws_of_trivial_and_equal_words() {
    magnus::trivial_exactly_where_member();
    magnus::equal_exactly_where_congruent();
}

#[test]
fn laws_of_maps() {
    maps::kept_relators_suffice();
    maps::homomorphisms_keep_relators();
    maps::extends_exactly_where_images_are_members();
}

#[test]
fn laws_of_fox_vectors() {
    rules::fox_of_product();
    rules::fox_of_inverse();
    rules::fox_of_cancelled();
    rules::members_form_a_module();
    rules::congruence_is_an_equivalence();
}
