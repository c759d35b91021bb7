//! Reading a report: the data that its text spells, or the first line that can't stand.
//!
//! The text is gone through once, line by line. A line can stand where it may follow those before it: numbers count on,
//! answers stand behind the items that they were made from, proofs behind their answers, and behind the end each
//! question that was left open is answered once more. In a trimmed report some of the entries stand, with their numbers
//! in the whole history. Whether entries and proofs hold is not tested here.
#![tactic(auto)]

mod data;
mod entry;
mod fault;
mod form;
pub mod laws;
mod order;
mod proof_list;
mod reader;
mod replies;
mod report;
mod taking;
mod trimmed_order;
mod trimmed_taking;

pub use data::{Numbers, ReportData};
pub use entry::{EntryData, EntryList};
pub use fault::ReportFault;
pub use proof_list::ProofList;
pub use replies::{ReplyData, ReplyList};
pub use report::read_report;

#[cfg(test)]
mod tests;
