//! Trimming a report.

ghost use Rattle.std.specs.Prelude.{◌≡◌, ℕ, ◌+◌, ◌<◌, IfOk, OnOk, List, length, take, slice_get, Some};
ghost use Rattle.report_reading.specs.declared.entry.EntryData.{EntryData as AnEntry};
ghost use Rattle.report_trimming.specs.Used.{Name, NamedInProof, steps_in, CanBeTrimmed};
ghost use Rattle.report_trimming.specs.Kept.{kept_by, IsMarked};
ghost use Rattle.report_trimming.specs.Trimming.{Pairwise, IsKeptEntry, IsReplyRenamed, IsTrimming};

use crate::kept::Kept;
use crate::renaming::{renamed_entry, renamed_reply};
use crate::used::used_entries;
use report_reading::{EntryData, EntryList, Numbers, ReplyData, ReplyList, ReportData};
use std::alloc::{AllocError, Global};

/// The trimming of the report: of its entries the used ones alone, each with its number in the whole history, and the
/// steps renamed.
///
/// The used entries are the least set that holds each entry named in a proof, and each named in the recipe of a member.
/// Vectors and questions go over as they are, so that none is kept twice.
pub fn trim(alloc: Global, report: ReportData) -> Result<ReportData, AllocError>
    requires { CanBeTrimmed report }
    ensures { IfOk result (IsTrimming report) }
{
    let kept = Kept::of(alloc, used_entries(alloc, &report)?)?;
    let from = kept_numbers(alloc, report.from.numbers(), &kept)?;
    let entries = kept_entries(alloc, report.entries.into_list(), &kept)?;
    let replies = renamed_replies(alloc, report.replies.into_list(), &kept)?;
    Ok(ReportData {
        version: 2,
        items: report.items,
        from: Numbers::of(from),
        entries: EntryList::of(entries),
        replies: ReplyList::of(replies),
        end: report.end,
    })
}

/// The numbers of the entries that are kept.
fn kept_numbers(alloc: Global, from: &[u32], kept: &Kept) -> Result<Vec<u32>, AllocError>
    requires { length from.now ≡ length kept.now }
    ensures { IfOk result (λ numbers. Pairwise (λ k f. slice_get from.now k ≡ Some f) (kept_by kept.now)
        numbers.items) }
{
    let mut numbers = Vec::new(alloc);
    for (at, number) in from.iter().enumerate() {
        if kept.holds(at) {
            numbers.push(*number)?;
        }
    }
    Ok(numbers)
}

/// The entries that are kept, renamed.
fn kept_entries(
    alloc: Global,
    entries: Vec<EntryData>,
    kept: &Kept,
) -> Result<Vec<EntryData>, AllocError>
    requires length { length entries.items ≡ length kept.now }
    requires closed { (j k : ℕ) (e : AnEntry) → IsMarked kept.now j → slice_get entries.items j ≡ Some e
        → Name (steps_in e.recipe) k → IsMarked kept.now k }
    ensures { IfOk result (λ made. Pairwise (IsKeptEntry entries.items (kept_by kept.now)) (kept_by kept.now)
        made.items) }
{
    let mut made = Vec::new(alloc);
    let mut at = 0usize;
    for entry in entries {
        put_kept(alloc, &mut made, at, entry, kept)?;
        at += 1;
    }
    Ok(made)
}

/// Appends the entry with this number, renamed, if it is kept.
fn put_kept(
    alloc: Global,
    made: &mut Vec<EntryData>,
    at: usize,
    entry: EntryData,
    kept: &Kept,
) -> Result<(), AllocError>
    requires within { at < length kept.now }
    requires closed { IsMarked kept.now at → (k : ℕ) → Name (steps_in entry.recipe) k → IsMarked kept.now k }
    ensures { (es : List AnEntry) → slice_get es at ≡ Some entry
        → Pairwise (IsKeptEntry es (kept_by kept.now)) (kept_by (take at kept.now)) made.old.items
        → OnOk result (Pairwise (IsKeptEntry es (kept_by kept.now)) (kept_by (take (at + 1) kept.now))
        made.new.items) }
{
    if !kept.holds(at) {
        return Ok(());
    }
    made.push(renamed_entry(alloc, entry, kept)?)?;
    Ok(())
}

/// The replies, with their proofs renamed.
fn renamed_replies(
    alloc: Global,
    replies: Vec<ReplyData>,
    kept: &Kept,
) -> Result<Vec<ReplyData>, AllocError>
    requires { (k : ℕ) → NamedInProof replies.items k → IsMarked kept.now k }
    ensures { IfOk result (λ made. Pairwise (IsReplyRenamed (kept_by kept.now)) replies.items made.items) }
{
    let mut made = Vec::new(alloc);
    for reply in replies {
        made.push(renamed_reply(alloc, reply, kept)?)?;
    }
    Ok(made)
}
