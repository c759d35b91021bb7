//! Completion on one thread: the tasks of a book are worked, one after another, until its log is a strong basis or a
//! limit is met (Buchberger 1965; over the integers Möller 1988, Lichtblau 2012).
#![tactic(auto)]

mod completing;
pub mod laws;
mod rounds;

pub use completing::finish;
pub use pair_book::{Book, End, Limits, Measure, Task};

#[cfg(test)]
mod tests;
