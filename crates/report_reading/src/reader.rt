//! `Reader`: what the lines so far tell.

ghost use Rattle.std.specs.Prelude.{◌≡◌, MatchOption, [], List, ℕ};
ghost use Rattle.report_reading.specs.declared.data.ReportData.{ReportData};
ghost use Rattle.report_reading.specs.Telling.{nothing, IsDataAs};
ghost use Rattle.report_reading.specs.Forms.{SaysIn};

use crate::form::Form;
use crate::{EntryData, EntryList, Numbers, ReplyData, ReplyList, ReportData};
use outcomes::End;
use std::alloc::Global;
use std::collections::BTreeMap;
use std::marker::Model;

/// What the lines so far tell.
#[derive(Drop)]
pub struct Reader {
    pub(crate) from: Vec<u32>,
    pub(crate) entries: Vec<EntryData>,
    pub(crate) sealed: bool,
    pub(crate) replies: Vec<ReplyData>,
    /// The number of each session's last question.
    pub(crate) numbers: BTreeMap<u32, u32>,
    /// Where among the answers those stand that leave their question open and have no closing one, by session and
    /// question.
    pub(crate) left_open: BTreeMap<(u32, u32), usize>,
    pub(crate) end: Option<End>,
    pub(crate) finished: bool,
}

impl Model for Reader {
    ghost use Rattle.report_reading.specs.Telling.{Told};

    ghost Value = { Told };

    ghost view = { λ r. record {
      from = r.from.items;
      entries = r.entries.items;
      sealed = r.sealed;
      replies = r.replies.items;
      numbers = r.numbers.entries;
      left_open = r.left_open.entries;
      end = r.end;
      finished = r.finished;
    } };
}

impl Reader {
    /// Before the first line behind the head.
    pub fn new(alloc: Global) -> Reader
        ensures { result ≡ nothing }
    {
        Reader {
            from: Vec::new(alloc),
            entries: Vec::new(alloc),
            sealed: false,
            replies: Vec::new(alloc),
            numbers: BTreeMap::new(alloc),
            left_open: BTreeMap::new(alloc),
            end: None,
            finished: false,
        }
    }

    /// The data of a report of this form, if the last line was taken and no bytes are left.
    pub fn into_data(self, form: Form, rest: &[u8]) -> Option<ReportData>
        ensures { MatchOption result ((d : ReportData) → rest.now ≡ [] → SaysIn form self d
            → ⊥) (λ d. (rest.now ≡ []) × SaysIn form self d) }
    {
        match form {
            Form::Whole => {
                let items = self.item_count().min(u32::MAX as usize) as u32;
                self.data_as(1, items, rest)
            }
            Form::Trimmed { items } => self.data_as(2, items, rest),
        }
    }

    /// The data with these numbers of the version and of items, if the last line was taken and no bytes are left.
    fn data_as(self, version: u8, items: u32, rest: &[u8]) -> Option<ReportData>
        ensures { MatchOption result ((d : ReportData) → rest.now ≡ [] → IsDataAs version items self d
            → ⊥) (λ d. (rest.now ≡ []) × IsDataAs version items self d) }
    {
        if !self.finished {
            return None;
        }
        if !rest.is_empty() {
            return None;
        }
        let end = self.end?;
        Some(ReportData {
            version,
            items,
            from: Numbers::of(self.from),
            entries: EntryList::of(self.entries),
            replies: ReplyList::of(self.replies),
            end,
        })
    }
}
