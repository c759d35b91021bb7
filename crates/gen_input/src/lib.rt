//! Large inputs that a seed determines: a presentation of three generators whose commutators have small powers as
//! relators, and a session of 2,000 questions about it. The same seed gives the same texts on every machine.
#![tactic(auto)]

mod draws;
mod lines;
mod texts;

pub use texts::large;

/// The number of questions of the session.
pub const QUESTIONS: u32 = 2_000;

#[cfg(test)]
mod tests;
