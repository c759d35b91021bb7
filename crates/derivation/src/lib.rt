//! Moves on words over a presentation, and what a list of moves shows of a word.
#![tactic(auto)]

mod gap;
pub mod laws;
mod line_moves;
mod moves;
mod moving;
mod piece;
mod reading;
mod steps;

pub use moves::{Insert, Move, MoveFault, MoveReason, StepsFault};
pub use reading::read_derivation;
pub use steps::{apply, check_steps};

#[cfg(test)]
mod tests;
