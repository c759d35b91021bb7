//! What the writer of reports writes, the checker of reports accepts, and the reader of reports reads back.
//!
//! The checker knows nothing of reduction, and the writer nothing of the checker. The module `laws` ties them: what
//! makes a report one that can be written is enough for each of its lines to hold. The module `reports` says the same
//! of a report as the program has it.
#![tactic(auto)]

mod known;
pub mod laws;
pub mod reports;
