//! What is done with a step.

/// Whether steps are added to a vector, as a recipe says, or taken from it, as a proof does.
#[derive(Clone, Copy, PartialEq, Eq)]
pub enum Way {
    Add,
    Take,
}
