//! A completion by several threads while sessions ask, from the opened book to the report.
#![tactic(auto)]

mod cast;
mod running;

pub use running::run;
