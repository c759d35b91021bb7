//! Orders of tasks.

/// The order in which tasks are worked. A task's rank goes first, and then its number.
#[derive(Clone, Copy, PartialEq, Eq)]
pub enum Order {
    /// All ranks are 0: by the greater entry of the pair, then the lesser one, then G before S.
    ByNumber,
    /// Cheap tasks first. A rank is three numbers, compared in turn: 0 where both vectors have at most two terms, else
    /// 1; the degree of the least common multiple of the lead monomials, also where no monomial has it; and the most
    /// binary digits that a coefficient may get where both leads are carried to their least common multiple.
    ByCost,
}
