//! The checker of reports: whether the entries and the proofs of a report hold.
//!
//! It stands on words, presentations, questions, Fox vectors and the lines of reports, and on nothing that finds
//! answers: a report is believed for what it says, whoever wrote it.
#![tactic(auto)]

mod checked;
mod checker;
mod entry;
mod faults;
mod heads;
mod order;
mod phase;
mod proof;
mod reading;
mod report;
mod steps;
mod subjects;
mod taking;
mod version;

pub use checked::Checked;
pub use faults::{CertFault, CertKind};
pub use report::check;

#[cfg(test)]
mod tests;
#[cfg(test)]
mod trimmed_tests;
