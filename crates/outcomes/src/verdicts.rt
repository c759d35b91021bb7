//! What is answered to a question.

use module_vec::{ModVec, Stop};

/// A verdict. The subjects of a question are numbered from 1.
#[derive(Drop)]
pub enum Verdict {
    /// The subject is trivial.
    Trivial,
    /// It is not.
    NotTrivial,
    /// The normal form of its Fox vector, which isn't zero.
    Normal(ModVec),
    /// The map extends to a homomorphism.
    Extends,
    /// It doesn't: this is the first subject that isn't trivial.
    Fails { subject: u32 },
    /// The list of entries isn't known to be complete, and doesn't show this subject to be trivial.
    Unknown { subject: u32 },
    /// The reduction of this subject meets a limit.
    Stop { subject: u32, stop: Stop },
}
