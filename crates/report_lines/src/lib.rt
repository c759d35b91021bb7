//! The lines of a report: a type for each of them, and their one spelling.
//!
//! A report says how completion went and what was answered: the entries with their recipes, the answers with their
//! proofs, and the end. A trimmed report holds some of the entries, each with its number in the whole history. Here a
//! line is taken by itself, without its line end, over the presentation of the report. Which lines may follow which,
//! and whether they hold, is said elsewhere.
#![tactic(auto)]

mod answers;
mod ends;
mod heads;
pub mod laws;
mod lines;
mod made;
mod parts;
mod reading;
mod stops;
mod tasks;
mod trimmed;
mod trimmed_heads;
mod trimmed_reading;
mod trimmed_writing;
mod verdicts;
mod writing;

pub use heads::{is_pres_line, is_title};
pub use lines::{Line, Made, QuestionNumber};
pub use reading::read_line;
pub use trimmed::{EntryNumber, TrimmedLine};
pub use trimmed_heads::{is_trimmed_title, put_items_line, read_items_line};
pub use trimmed_reading::read_trimmed_line;
pub use trimmed_writing::{
    put_trimmed_generator, put_trimmed_line, put_trimmed_sum, write_trimmed_line,
};
pub use writing::{
    put_closing, put_ending, put_generator, put_line, put_live, put_proof, put_sum, write_line,
};

#[cfg(test)]
mod tests;
