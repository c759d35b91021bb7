//! `Shared`: what the actors of a run share.

use crate::pace::Pace;
use pair_book::Book;
use presentation::Presentation;
use std::alloc::Global;
use std::sync::{Arc, Mutex};

/// What the actors of a run share.
#[derive(Clone, Copy)]
pub(crate) struct Shared<'a> {
    pub alloc: Global,
    pub p: &'a Arc<Presentation>,
    pub book: &'a Mutex<Book>,
    pub pace: &'a Pace,
}
