//! `Gate`: where actors may be held.

use std::sync::Wait;

/// Where actors may be held. It promises nothing: an actor whose call never returns is held for good.
pub trait Gate {
    /// Place 1 is before a session's look, and `actor` is then the session's number. Place 2 is between the take and
    /// the commit of a worker, and `actor` is then the worker's number.
    fn pass<R: Wait>(&self, rt: &R, actor: u32, place: u8);
}

/// The gate that holds nobody.
pub struct OpenGate;

impl Gate for OpenGate {
    fn pass<R: Wait>(&self, _: &R, _: u32, _: u8) {}
}
