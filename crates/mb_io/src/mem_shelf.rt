//! Named bytes in memory, as a shelf.

ghost use Rattle.std.specs.Prelude.{◌≡◌, ℕ, ◌+◌, ◌<◌, ◌≤◌, ◌^◌, ◌++◌, ◌↔◌, List, [], take, drop, length, min, Option};
ghost use Rattle.std.specs.Prelude.{Some, None, IsSome, IfSome, IfOk};
ghost use Rattle.mb_io.specs.Files.{file_named, first_place};
ghost use Rattle.mb_io.specs.MemShelf.{ShelfState, fresh_shelf, Starts, Reads, rest_of};
ghost use Rattle.mb_io.specs.Piece as piece;
ghost use Rattle.mb_io.specs.Shelf.{CountRose, Gives};

use crate::calls::Calls;
use crate::named::NamedBytes;
use crate::piece::in_piece;
use crate::shelf::{Failed, Shelf};
use std::marker::Model;

/// Named bytes in memory, which tells them, and fails in the calls that it was told to fail in.
#[derive(Drop)]
pub struct MemShelf {
    files: Vec<NamedBytes>,
    calls: Calls,

    // The place of the file that is read, and how many of its bytes were given.
    place: Option<usize>,
    given: usize,

    most: Option<u32>,
}

impl Model for MemShelf {
    ghost Value = { ShelfState };

    ghost view = { λ s. record {
      files = s.files.items;
      calls = s.calls;
      left = rest_of s.files.items s.place s.given;
      most = s.most;
    } };

    ghost invariant = { λ s. IfSome s.most (λ most. 1 ≤ most) };
}

impl MemShelf {
    /// A shelf with these files, of which the first of a name counts. Its calls of `start` and `read` are numbered
    /// together from 1, and those with these numbers fail.
    pub fn new(files: Vec<NamedBytes>, failing: Vec<u32>) -> MemShelf
        ensures { result ≡ fresh_shelf files.items failing.items }
    {
        MemShelf {
            files,
            calls: Calls::new(failing),
            place: None,
            given: 0,
            most: None,
        }
    }

    /// From now on a read gives at most so many bytes.
    pub fn pieces(&mut self, most: u32)
        requires { 1 ≤ most }
        ensures { self.new ≡ record self.old { most = Some most } }
    {
        self.most = Some(most);
    }
}

impl Shelf for MemShelf {
    ghost under = { λ s n. file_named s.files n };

    ghost left = { λ s. Some s.left };

    ghost ended = { λ s. s.left ≡ [] };

    ghost faults = { λ s. s.calls.faults };

    ghost none_left = { λ s h. h };

    #[tactic(auto, using(crate::proofs::Finding::file_named_at, crate::proofs::Finding::file_named_absent))]
    fn start(&mut self, name: &str) -> Result<(), Failed>
        ensures starts { Starts self.old name.now result self.new }

        ensures later { self.old.calls.faults ≤ self.new.calls.faults }
        ensures below { self.new.calls.faults < 2 ^ 64 }
    {
        self.place = None;
        self.given = 0;
        self.calls.count()?;
        match place_of(&self.files, name) {
            Some(place) => {
                self.place = Some(place);
                Ok(())
            }
            None => Err(self.calls.fault()),
        }
    }

    fn read(&mut self, buf: &mut [u8]) -> Result<usize, Failed>
        ensures reads { Reads self.old buf.old result buf.new self.new }
        ensures end { IfOk result (λ n. n ≡ 0 → 0 < length buf.old → self.new.left ≡ []) }

        ensures later { self.old.calls.faults ≤ self.new.calls.faults }
        ensures below { self.new.calls.faults < 2 ^ 64 }
    {
        self.calls.count()?;
        let rest = bytes_left(&self.files, self.place, self.given);
        let count = fill(buf, rest, self.most);
        self.given += count;
        Ok(count)
    }
}

/// The place of the first file of a name.
#[tactic(auto, unfolding(crate::specs::Files::first_place))]
fn place_of(files: &[NamedBytes], name: &str) -> Option<usize>
    ensures { result ≡ first_place files.now name.now }
{
    files.iter().position(|f| f.name() == name)
}

/// The bytes of the open file that were not given.
fn bytes_left(files: &[NamedBytes], place: Option<usize>, given: usize) -> &[u8]
    ensures rest { result.now ≡ rest_of files.now place given }
    ensures room { given + length result.now < 2 ^ 64 }
{
    match place {
        None => &[],
        Some(i) => match files.get(i) {
            None => &[],
            Some(f) => f.bytes().get(given..).unwrap_or(&[]),
        },
    }
}

/// Fills the buffer from its front with the next bytes, as far as it, they and the piece go.
fn fill(buf: &mut [u8], rest: &[u8], most: Option<u32>) -> usize
    ensures count { result ≡ min (piece.in_piece most (length buf.old)) (length rest.now) }
    ensures bytes { buf.new ≡ take result rest.now ++ drop result buf.old }
{
    let count = in_piece(most, buf.len()).min(rest.len());
    buf[..count].copy_from_slice(&rest[..count]);
    count
}
