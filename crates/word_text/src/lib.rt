//! The texts of words: tokens, powers, brackets, and the first fault of a text that spells no word.
#![tactic(auto)]

mod draft;
mod fault;
pub mod laws;
mod machine;
mod place;
mod powers;
mod program;
mod raise;
mod scan;
mod spell;
#[cfg(test)]
mod tests;
mod whole;

pub use fault::{Fault, ReadError, ReadFault, TextFault, TextKind};
pub use machine::word_at;
pub use place::{on_line, placed};
pub use scan::{
    Mark, after_first, due, first_is, mark_at, number, skip_blanks, split_digits, split_name,
};
pub use whole::whole_word;
