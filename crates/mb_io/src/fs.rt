//! Files of the system, and its output.
//!
//! Nothing is known here of what a real file holds: both adapters tell no bytes. Each error of the system counts as a
//! fault, want of memory inside the system's own calls among them.

ghost use Rattle.std.specs.Prelude.{◌≡◌, ℕ, ◌<◌, ◌≤◌, ◌^◌, None, false, length, is_some, IsFalse, IfOk, OnErr};
ghost use Rattle.std.specs.Io.KnownBytes.{ReadConsumes, WriteAppends};
ghost use Rattle.mb_io.specs.Fs.{FsState};
ghost use Rattle.mb_io.specs.Shelf.{CountRose};

use crate::faults::Faults;
use crate::shelf::{Failed, Shelf, Sink};
use std::fs;
use std::io::{Read, Write};
use std::marker::Model;
use std::rt::Files;

/// The files of a system, by their paths.
#[derive(Drop)]
pub struct FsShelf<'a, R: Files> {
    rt: &'a R,
    file: Option<R::File>,
    faults: Faults,
}

impl<'a, R: Files> Model for FsShelf<'a, R> {
    ghost Value = { FsState };

    ghost view = { λ s. record { is_reading = is_some s.file; faults = s.faults } };

    ghost invariant = { λ s. s.faults < 2 ^ 64 };
}

impl<'a, R: Files> FsShelf<'a, R> {
    /// No file is read yet.
    pub fn new(rt: &'a R) -> FsShelf<'a, R>
        ensures { result ≡ record { is_reading = false; faults = 0 } }
    {
        FsShelf {
            rt,
            file: None,
            faults: Faults::new(),
        }
    }
}

impl<R: Files> Shelf for FsShelf<'_, R> {
    ghost under = { λ _ _. None };

    ghost left = { λ _. None };

    ghost ended = { λ s. IsFalse s.is_reading };

    ghost faults = { λ s. s.faults };

    ghost none_left = { λ _ _. tt };

    fn start(&mut self, name: &str) -> Result<(), Failed> {
        match fs::open(self.rt, name) {
            Ok(file) => {
                self.file = Some(file);
                Ok(())
            }
            Err(_) => {
                self.file = None;
                Err(self.faults.add())
            }
        }
    }

    fn read(&mut self, buf: &mut [u8]) -> Result<usize, Failed> {
        let Some(file) = &mut self.file else {
            return Ok(0);
        };
        let count = read_from(file, buf, &mut self.faults)?;
        if count == 0 && !buf.is_empty() {
            self.file = None;
        }
        Ok(count)
    }
}

/// Reads from the file. Its error is a failure, which is counted.
fn read_from<F: Read>(file: &mut F, buf: &mut [u8], faults: &mut Faults) -> Result<usize, Failed>
    ensures bytes { ReadConsumes (F.remaining file.old) (F.remaining file.new) result buf.new }
    ensures within { IfOk result (λ n. n ≤ length buf.old) }
    ensures later { faults.old ≤ faults.new }
    ensures below { faults.old < 2 ^ 64 → faults.new < 2 ^ 64 }
    ensures cause { OnErr result (CountRose faults.old faults.new) }
{
    match file.read(buf) {
        Ok(count) => Ok(count),
        Err(_) => Err(faults.add()),
    }
}

/// A writer of the system, such as its standard output.
#[derive(Drop)]
pub struct OutSink<W: Write + Drop> {
    out: W,
    faults: Faults,
}

impl<W: Write + Drop> Model for OutSink<W> {
    ghost Value = { ℕ };

    ghost view = { λ s. s.faults };

    ghost invariant = { λ s. s.faults < 2 ^ 64 };
}

impl<W: Write + Drop> OutSink<W> {
    /// Nothing is written yet.
    pub fn new(out: W) -> OutSink<W>
        ensures { result ≡ 0 }
    {
        OutSink {
            out,
            faults: Faults::new(),
        }
    }
}

impl<W: Write + Drop> Sink for OutSink<W> {
    ghost taken = { λ _. None };

    ghost faults = { λ s. s };

    fn write(&mut self, piece: &[u8]) -> Result<usize, Failed> {
        write_to(&mut self.out, piece, &mut self.faults)
    }
}

/// Writes a front of the piece to the writer, which is empty only where the piece is. The writer's error is a failure,
/// which is counted, and so is a write of nothing.
fn write_to<W: Write>(out: &mut W, piece: &[u8], faults: &mut Faults) -> Result<usize, Failed>
    ensures bytes { WriteAppends (W.contents out.old) (W.contents out.new) result piece.now }
    ensures within { IfOk result (λ n. n ≤ length piece.now) }
    ensures some { IfOk result (λ n. 0 < length piece.now → 0 < n) }
    ensures later { faults.old ≤ faults.new }
    ensures below { faults.old < 2 ^ 64 → faults.new < 2 ^ 64 }
    ensures cause { OnErr result (CountRose faults.old faults.new) }
{
    match out.write(piece) {
        Ok(count) if count > 0 || piece.is_empty() => Ok(count),
        _ => Err(faults.add()),
    }
}
