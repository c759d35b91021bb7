//! The summary of a report: how its log ends, and how many of its last verdicts are of each kind.

ghost use Rattle.std.specs.Prelude.{◌≡◌, string_bytes, IfOk};
ghost use Rattle.report_text.specs.Histories.{History};
ghost use Rattle.report_text.specs.Reports.{reported, IsHistoryOf};
ghost use Rattle.legal_report.specs.Last.{AreLastKinds};
ghost use Rattle.solve_commands.specs.Generate.{end_word, head_text, words_text, maps_text, unsettled_text};
ghost use Rattle.solve_commands.specs.Generate.{summary_line};
ghost use Rattle.solve_commands.specs.Generate.{summary};

use legal_report::{Kind, Solved};
use outcomes::End;
use std::alloc::{AllocError, Global};

/// The word for how a log ends.
fn end_word(end: &End) -> &'static str
    ensures { result.now ≡ end_word end.now }
{
    match end {
        End::Sealed => "sealed",
        End::Stopped { .. } => "stopped",
        End::Full { .. } => "full",
        End::Spent { .. } => "spent",
    }
}

/// The seed, the number of entries, and how the log ends.
#[tactic(auto, unfolding(crate::specs::Generate::head_text))]
fn head_text(alloc: Global, seed: u32, entries: usize, end: &End) -> Result<String, AllocError>
    ensures { IfOk result (λ text. string_bytes text ≡ head_text seed entries end.now) }
{
    let word = end_word(end);
    let text = format!(in alloc; "gen {seed} entries {entries} end {word}")?;
    Ok(text)
}

/// How many verdicts on words there are.
#[tactic(auto, unfolding(crate::specs::Generate::words_text))]
fn words_text(alloc: Global, kinds: &[Kind]) -> Result<String, AllocError>
    ensures { IfOk result (λ text. string_bytes text ≡ words_text kinds.now) }
{
    let trivial = Kind::Trivial.count(kinds);
    let not_trivial = Kind::NotTrivial.count(kinds);
    let normal = Kind::Normal.count(kinds);
    let text = format!(in alloc; "trivial {trivial} not-trivial {not_trivial} normal {normal}")?;
    Ok(text)
}

/// How many verdicts on maps there are.
#[tactic(auto, unfolding(crate::specs::Generate::maps_text))]
fn maps_text(alloc: Global, kinds: &[Kind]) -> Result<String, AllocError>
    ensures { IfOk result (λ text. string_bytes text ≡ maps_text kinds.now) }
{
    let extends = Kind::Extends.count(kinds);
    let fails = Kind::Fails.count(kinds);
    let text = format!(in alloc; "extends {extends} fails {fails}")?;
    Ok(text)
}

/// How many verdicts there are that settle nothing.
#[tactic(auto, unfolding(crate::specs::Generate::unsettled_text))]
fn unsettled_text(alloc: Global, kinds: &[Kind]) -> Result<String, AllocError>
    ensures { IfOk result (λ text. string_bytes text ≡ unsettled_text kinds.now) }
{
    let unknown = Kind::Unknown.count(kinds);
    let stop = Kind::Stop.count(kinds);
    let text = format!(in alloc; "unknown {unknown} stop {stop}")?;
    Ok(text)
}

/// The line of all this.
fn summary_line(
    alloc: Global,
    seed: u32,
    entries: usize,
    end: &End,
    kinds: &[Kind],
) -> Result<Vec<u8>, AllocError>
    ensures { IfOk result (λ text. text.items ≡ summary_line seed entries end.now kinds.now) }
{
    let head = head_text(alloc, seed, entries, end)?;
    let words = words_text(alloc, kinds)?;
    let maps = maps_text(alloc, kinds)?;
    let rest = unsettled_text(alloc, kinds)?;
    let text = format!(in alloc; "{head} {words} {maps} {rest}\n")?;
    Ok(text.into_bytes())
}

/// The summary of what a seed leads to.
pub fn summary(alloc: Global, seed: u32, solved: &Solved) -> Result<Vec<u8>, AllocError>
    requires { AreLastKinds (reported solved.now.report) solved.now.last.items }
    ensures { IfOk result (λ text. (h : History) → IsHistoryOf (reported solved.now.report) h
        → text.items ≡ summary seed h) }
{
    let report = &solved.report;
    summary_line(alloc, seed, report.entries.len(), &report.end, &solved.last)
}
