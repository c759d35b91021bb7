//! The two tasks of a pair.

/// What is done with a pair of entries.
#[derive(Clone, Copy, PartialEq, Eq, PartialOrd, Ord)]
pub enum PairKind {
    /// Its G-vector has the greatest common divisor of the lead coefficients. This task goes first.
    G,
    /// Its S-vector has no term at the pair's place.
    S,
}
