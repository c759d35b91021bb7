//! `Report`: what a run has come to.

use basis_entry::{Entry, Sealed};
use outcomes::End;
use presentation::Presentation;
use session_core::Session;
use std::sync::Arc;

/// The log of a presentation with its end, and the sessions with their replies. The seal is there exactly where the end
/// is `Sealed`.
#[derive(Drop)]
pub struct Report {
    pub pres: Arc<Presentation>,
    pub entries: Vec<Arc<Entry>>,
    pub end: End,
    pub sealed: Option<Arc<Sealed>>,
    pub sessions: Vec<Session>,
}
