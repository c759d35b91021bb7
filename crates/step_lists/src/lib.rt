//! Lists of steps, and what they add up to in their order.
//!
//! A step is a multiple of a listed vector. A recipe makes a vector as a sum of steps, from the empty vector on; a
//! proof takes steps from a vector until nothing is left. The definitions of both stand in `specs/`, with the limits
//! that each step has to keep.
#![tactic(auto)]

mod faults;
pub mod laws;
mod steps;
mod sum;
mod way;

pub use faults::SumFault;
pub use steps::Steps;
pub use sum::Sum;
pub use way::Way;

#[cfg(test)]
mod tests;
