//! What all commands stand on: the words of the command line, texts under names, answers with their statuses, and their
//! writing.
#![tactic(auto)]

mod answer;
mod commands;
mod files;
mod numbers;
mod parsing;
mod settings;
mod status;
#[cfg(test)]
mod tests;
mod writing;

pub use answer::{Answer, Halt};
pub use commands::{Asked, Command, read_command};
pub use files::{command_word, load, load_presentation, refusal};
pub use numbers::number_between;
pub use parsing::Given;
pub use settings::{Setting, Settings};
pub use status::Status;
pub use writing::deliver;

/// A presentation's text has at most so many bytes.
pub const PRESENTATION_BYTES: u32 = 65_536;
