//! The text of a report, written to a sink line by line.
//!
//! A report tells a history: the entries of a log in their order, each answer behind the last item that it was made
//! from, with the proofs of what is answered yes, how completion has ended, and what is answered once more behind the
//! end. The proofs and the normal forms aren't kept with the replies: each is made again when its line is due, by the
//! items below its front.
#![tactic(auto)]

mod closing;
mod entries;
mod faults;
mod live;
mod log;
mod pieces;
mod report;
mod showing;
mod writing;

pub use faults::WriteFault;
pub use report::Report;
pub use writing::write_report;

#[cfg(test)]
mod tests;
