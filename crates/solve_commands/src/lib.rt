//! The commands that solve, and what they share: sessions, limits, and the delivery of reports.
#![tactic(auto)]

mod bases;
mod begun;
mod delivery;
pub mod generate;
mod limits;
pub mod load;
pub mod replay;
pub mod run;
pub mod save;
mod schedules;
mod sessions;
pub mod solo;
mod stops;
mod summary;

pub use bases::{BASIS_BYTES, load_basis};
pub use delivery::{deliver_report, status_of};
pub use limits::{ENTRIES, LOG_STEPS, LOG_TERMS, limits_given, limits_with, opened};
pub use run::WORKERS;
pub use schedules::{SCHEDULE_BYTES, load_schedule};
pub use sessions::{SESSION_BYTES, SESSIONS, load_sessions, session_names};
