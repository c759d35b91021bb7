//! Bytes taken in memory.

ghost use Rattle.std.specs.Prelude.{◌≡◌, ◌+◌, ◌<◌, ◌≤◌, ◌^◌, [], Option, Some, None, IfOk, IfSome, length, vec_len};
ghost use Rattle.std.specs.Prelude.{vec_capacity};
ghost use Rattle.mb_io.specs.MemSink.{SinkState, fresh_sink, Writes};

use crate::calls::Calls;
use crate::piece::in_piece;
use crate::shelf::{Failed, Sink};
use std::alloc::{AllocError, Global};
use std::marker::Model;

/// Bytes taken in memory, as far as its room goes. It tells them, and fails in the writes that it was told to fail in.
#[derive(Drop)]
pub struct MemSink {
    bytes: Vec<u8>,
    calls: Calls,
    room: usize,
    most: Option<u32>,
}

impl Model for MemSink {
    ghost Value = { SinkState };

    ghost view = { λ s. record { taken = s.bytes.items; calls = s.calls; room = s.room; most = s.most } };

    ghost invariant = { λ s. IfSome s.most (λ most. 1 ≤ most) × (vec_len s.bytes + s.room ≤ vec_capacity s.bytes) };
}

impl MemSink {
    /// A sink with room for so many bytes, which is taken here, so that no write takes memory. Its writes are numbered
    /// from 1, and those with these numbers fail.
    pub fn new(alloc: Global, room: u32, failing: Vec<u32>) -> Result<MemSink, AllocError>
        ensures { IfOk result (λ sink. sink ≡ fresh_sink room failing.items) }
    {
        let room = room as usize;
        Ok(MemSink {
            bytes: Vec::with_capacity(alloc, room)?,
            calls: Calls::new(failing),
            room,
            most: None,
        })
    }

    /// The bytes taken so far.
    pub fn taken(&self) -> &[u8]
        ensures { result.now ≡ self.now.taken }
    {
        self.bytes.as_slice()
    }

    /// From now on a write takes at most so many bytes.
    pub fn pieces(&mut self, most: u32)
        requires { 1 ≤ most }
        ensures { self.new ≡ record self.old { most = Some most } }
    {
        self.most = Some(most);
    }
}

impl Sink for MemSink {
    ghost taken = { λ s. Some s.taken };

    ghost faults = { λ s. s.calls.faults };

    fn write(&mut self, piece: &[u8]) -> Result<usize, Failed>
        ensures writes { Writes self.old piece.now result self.new }
        ensures some { IfOk result (λ n. 0 < length piece.now → 0 < n) }

        ensures later { self.old.calls.faults ≤ self.new.calls.faults }
        ensures below { self.new.calls.faults < 2 ^ 64 }
    {
        self.calls.count()?;
        if self.room == 0 && !piece.is_empty() {
            return Err(self.calls.fault());
        }
        let count = in_piece(self.most, piece.len()).min(self.room);
        self.bytes.extend_from_slice(&piece[..count]).unwrap();
        self.room -= count;
        Ok(count)
    }
}
