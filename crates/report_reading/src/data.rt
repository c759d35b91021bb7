//! `ReportData`: what a report says.

ghost use Rattle.std.specs.Prelude.{◌≡◌};

use crate::{EntryList, ReplyList};
use outcomes::End;
use std::marker::Model;

/// Numbers in order, which contracts see as a list.
#[derive(Drop)]
pub struct Numbers {
    list: Vec<u32>,
}

impl Model for Numbers {
    ghost use Rattle.std.specs.Prelude.{List, ℕ};

    ghost Value = { List ℕ };

    ghost view = { λ n. n.list.items };
}

impl Numbers {
    /// The list of these numbers.
    pub fn of(list: Vec<u32>) -> Numbers
        ensures { result ≡ list.items }
    {
        Numbers { list }
    }

    /// The numbers in order.
    pub fn numbers(&self) -> &[u32]
        ensures { result.now ≡ self.now }
    {
        &self.list
    }
}

/// What a report says: entries, answers, and how completion has ended.
#[derive(Drop)]
pub struct ReportData {
    pub version: u8,
    /// The number of items, the seal counted: at most 2^32 - 1.
    pub items: u32,
    /// The number of each entry among the items.
    pub from: Numbers,
    pub entries: EntryList,
    pub replies: ReplyList,
    pub end: End,
}
