//! What the program does: from the words of the command line and the texts under names to a status.
#![tactic(auto)]

pub mod laws;
#[cfg(test)]
mod tests;
mod top;
mod words;

pub use check_commands::{DERIVATION_BYTES, REPORT_BYTES};
pub use command_floor::{PRESENTATION_BYTES, Status};
pub use completion_workers::{Gate, OpenGate};
pub use legal_report::gather;
pub use solve_commands::{LOG_STEPS, LOG_TERMS, SESSION_BYTES};
pub use top::{metab, metab_alone};
