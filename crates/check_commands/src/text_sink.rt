//! A text in memory, as a sink.

ghost use Rattle.std.specs.Prelude.{◌≡◌, []};
ghost use Rattle.check_commands.specs.TextSink.{empty_text};

use mb_io::{Failed, Sink};
use std::alloc::Global;
use std::marker::Model;

/// A text that grows with what is written. A write fails only where memory runs out.
#[derive(Drop)]
pub struct TextSink {
    text: Vec<u8>,
    faults: u64,
}

impl Model for TextSink {
    ghost use Rattle.std.specs.Prelude.{◌<◌, ◌^◌};
    ghost use Rattle.check_commands.specs.TextSink.{TextState};

    ghost Value = { TextState };

    ghost view = { λ s. record { text = s.text.items; faults = s.faults } };

    ghost invariant = { λ s. s.faults < 2 ^ 64 };
}

impl TextSink {
    /// Nothing is written yet.
    pub fn new(alloc: Global) -> TextSink
        ensures { result ≡ empty_text }
    {
        TextSink {
            text: Vec::new(alloc),
            faults: 0,
        }
    }

    /// What was written.
    pub fn into_text(self) -> Vec<u8>
        ensures { result.items ≡ self.text }
    {
        self.text
    }
}

impl Sink for TextSink {
    ghost use Rattle.std.specs.Prelude.{Some};

    ghost taken = { λ s. Some s.text };

    ghost faults = { λ s. s.faults };

    fn write(&mut self, piece: &[u8]) -> Result<usize, Failed> {
        match self.text.extend_from_slice(piece) {
            Ok(()) => Ok(piece.len()),
            Err(_) => {
                self.faults = self.faults.saturating_add(1);
                Err(Failed)
            }
        }
    }
}
