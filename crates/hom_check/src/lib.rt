//! Which subjects of a question a list of vectors shows to be trivial.
//!
//! The subjects of a question are the words that are trivial exactly where its answer is yes. For a map of generators
//! they are the images of the source's relators, since the map extends to a homomorphism exactly where these are
//! trivial. A subject is shown to be trivial where its Fox vector reduces to zero (Fox 1953, Magnus 1939).
#![tactic(auto)]

mod ending;
mod first;
mod shown;
mod subjects;

pub use first::first_unshown;
pub use shown::Shown;
pub use subjects::{subject, subject_count};

#[cfg(test)]
mod tests;
