//! Completion by several threads: workers and sessions over one locked book and one row of cells.
//!
//! A worker takes a task under the book's lock, works it outside the lock by what its seat has seen of the row, commits
//! under the lock what came out, and publishes each entry that it appends in the row. A session looks at the row and
//! answers its questions by what it sees. What an actor does to itself is proved, whatever the others do: its list only
//! grows, and each reply is right of the items below its front. What the book came to is known by its type.
#![tactic(auto)]

mod actors;
mod asking;
mod commits;
mod fates;
mod gates;
mod leads;
mod pace;
mod running;
mod shared;
mod turns;

pub use actors::Actor;
pub use gates::{Gate, OpenGate};
pub use running::run_actors;

#[cfg(test)]
mod tests;
