//! Steps: multiples of listed vectors.

use laurent_terms::Mono;

/// `q·t` times the vector with the number `by` in a list.
#[derive(Clone, Copy, PartialEq, Eq)]
pub struct Step {
    pub q: i128,
    pub t: Mono,
    pub by: u32,
}
