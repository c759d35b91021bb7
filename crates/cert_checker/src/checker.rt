//! `Checker`: what was taken of a report.

ghost use Rattle.std.specs.Prelude.{◌≡◌, ◌↔◌, IsTrue};
ghost use Rattle.cert_checker.specs.States.{start, IsSettled, IsOpen, HasGenerators, IsNextIn, IsFront, items};
ghost use Rattle.cert_checker.specs.Texts.{IsComplete, counts};

use crate::Checked;
use crate::phase::Phase;
use crate::version::Version;
use free_words::Word;
use module_vec::ModVec;
use std::alloc::Global;
use std::marker::Model;

/// What was taken of a report before a line.
#[derive(Drop)]
pub struct Checker {
    pub(crate) phase: Phase,
    pub(crate) version: Version,
    /// Of a trimmed report: how many items of the history stand before, by the entries and fronts so far.
    pub(crate) passed: u32,
    /// The vectors of the entries.
    pub(crate) entries: Vec<ModVec>,
    /// The subjects of the last answer that has proofs.
    pub(crate) subjects: Vec<Word>,
    /// How many of them were shown.
    pub(crate) shown: usize,
    /// The number of all proofs, at most 2^32 - 1.
    pub(crate) proofs: u32,
}

impl Model for Checker {
    ghost use Rattle.cert_checker.specs.States.{State};

    ghost Value = { State };

    ghost view = { λ c. record {
      phase = c.phase;
      version = c.version;
      passed = c.passed;
      entries = c.entries.items;
      subjects = c.subjects.items;
      shown = c.shown;
      proofs = c.proofs;
    } };
}

impl Checker {
    /// Before the first line.
    pub fn new(alloc: Global) -> Checker
        ensures { result ≡ start }
    {
        Checker {
            phase: Phase::Title,
            version: Version::Whole,
            passed: 0,
            entries: Vec::new(alloc),
            subjects: Vec::new(alloc),
            shown: 0,
            proofs: 0,
        }
    }

    /// Whether no proof is due.
    pub fn is_settled(&self) -> bool
        ensures { IsTrue result ↔ IsSettled self.now }
    {
        self.subjects.len() <= self.shown
    }

    /// Whether the end isn't told yet.
    pub fn is_open(&self) -> bool
        ensures { IsTrue result ↔ IsOpen self.now.phase }
    {
        match self.phase {
            Phase::Entries | Phase::Sealed => true,
            _ => false,
        }
    }

    /// Whether each of the generators has its entry, unless entries may be left out.
    pub fn has_generators(&self, generators: &[ModVec]) -> bool
        ensures { IsTrue result ↔ HasGenerators generators.now self.now }
    {
        match self.version {
            Version::Whole => generators.len() <= self.entries.len(),
            Version::Trimmed { .. } => true,
        }
    }

    /// Whether the entry with this number in the history may be the next one that a trimmed report has.
    pub fn has_next(&self, from: u32) -> bool
        ensures { IsTrue result ↔ IsNextIn self.now.version self.now.passed from }
    {
        match self.version {
            Version::Whole => false,
            Version::Trimmed { items } => self.passed <= from && from < items,
        }
    }

    /// Whether an answer may be made by so many items of the history.
    pub fn has_front(&self, generators: &[ModVec], front: u32) -> bool
        ensures { IsTrue result ↔ IsFront generators.now self.now front }
    {
        match self.version {
            Version::Whole => generators.len() <= self.entries.len() && self.has_items(front),
            Version::Trimmed { items } => {
                generators.len() <= front as usize && self.passed <= front && front <= items
            }
        }
    }

    /// Whether there are so many entries and seals.
    pub fn has_items(&self, front: u32) -> bool
        ensures { IsTrue result ↔ (front ≡ items self.now) }
    {
        let entries = front as usize;
        match self.phase {
            Phase::Sealed => entries != 0 && entries - 1 == self.entries.len(),
            _ => entries == self.entries.len(),
        }
    }

    /// Whether the last line was taken and no proof is due, where these bytes stand behind.
    pub fn is_complete(&self, rest: &[u8]) -> bool
        ensures { IsTrue result ↔ IsComplete self.now rest.now }
    {
        self.phase == Phase::Finished && self.is_settled() && rest.is_empty()
    }

    /// How much was checked.
    pub fn counts(&self) -> Checked
        ensures { result ≡ counts self.now }
    {
        Checked {
            entries: self.entries.len().min(u32::MAX as usize) as u32,
            proofs: self.proofs,
        }
    }
}
