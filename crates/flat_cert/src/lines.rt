//! The lines of a flat certificate.

use laurent_terms::Mono;

/// What a line is a multiple of. Relators are numbered from 1, and components from 0.
#[derive(Clone, Copy, PartialEq, Eq)]
pub enum FlatKind {
    /// The Fox vector of a relator.
    Rel { relator: u32 },
    /// (x^a - 1)·e_c, where a are the exponent sums of a relator.
    Bin { relator: u32, c: u8 },
    /// m·e_c, where m is the modulus.
    Mod { c: u8 },
}

/// `k·t` times what stands there. `t` is the monomial of an integer vector.
#[derive(Clone, Copy, PartialEq, Eq)]
pub struct Flat {
    pub k: i128,
    pub t: Mono,
    pub what: FlatKind,
}
