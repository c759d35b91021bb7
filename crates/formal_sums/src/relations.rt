//! Relations on types, for the laws that hold of every such relation.

/// A type with a relation that counts as its equality.
pub trait Setoid {
    /// The two values count as equal.
    ghost alike: { Self → Self → Type 0 };
}

/// A type with a relation that counts as its strict order.
pub trait Ordered {
    /// The first value is below the second.
    ghost is_below: { Self → Self → Type 0 };
}
