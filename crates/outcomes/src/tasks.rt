//! Tasks of completion.

use crate::PairKind;

/// What is to be done with the pair of the entries number `i` and `j`, `i < j`, of a log.
#[derive(Clone, Copy, PartialEq, Eq)]
pub struct Task {
    pub i: u32,
    pub j: u32,
    pub kind: PairKind,
}
