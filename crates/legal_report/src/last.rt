//! The last verdicts of a report.

ghost use Rattle.std.specs.Prelude.{◌≡◌, ◌-◌, ◌≤◌, length, option_map, IfOk, OnOk};
ghost use Rattle.std.specs.Arc.{arc_value};
ghost use Rattle.std.specs.List.{AllByRecursion};
ghost use Rattle.basis_entry.specs.Entries.{AreOf};
ghost use Rattle.report_text.specs.Closing.{is_left_open};
ghost use Rattle.report_text.specs.Histories.{History};
ghost use Rattle.report_text.specs.Reports.{reported, IsReportable, IsReplied, IsHistoryOf};
ghost use Rattle.legal_report.specs.Last.{kind_of, is_same, how_many, AreLastKinds, kind_kept, IsLastKind, ArePut};
ghost use Rattle.legal_report.specs.Last.{AreFound};

use basis_entry::{Front, Items, Sealed};
use presentation::Presentation;
use reducer_index::{Index, Indexed};
use report_text::Report;
use session_core::judge::verdict;
use session_core::{Kept, Session, Tag};
use std::alloc::{AllocError, Global};

/// The kinds of verdicts.
#[derive(Clone, Copy)]
pub enum Kind {
    Trivial,
    NotTrivial,
    Normal,
    Extends,
    Fails,
    Unknown,
    Stop,
}

impl Kind {
    /// The kind of a verdict, by its tag.
    pub fn of(tag: Tag) -> Kind
        ensures { result ≡ kind_of tag }
    {
        match tag {
            Tag::Trivial => Kind::Trivial,
            Tag::NotTrivial => Kind::NotTrivial,
            Tag::Normal => Kind::Normal,
            Tag::Extends => Kind::Extends,
            Tag::Fails { .. } => Kind::Fails,
            Tag::Unknown { .. } => Kind::Unknown,
            Tag::Stop { .. } => Kind::Stop,
        }
    }

    /// Whether the other one is the same.
    pub fn is(self, other: Kind) -> bool
        ensures { result ≡ is_same self other }
    {
        match self {
            Kind::Trivial => matches!(other, Kind::Trivial),
            Kind::NotTrivial => matches!(other, Kind::NotTrivial),
            Kind::Normal => matches!(other, Kind::Normal),
            Kind::Extends => matches!(other, Kind::Extends),
            Kind::Fails => matches!(other, Kind::Fails),
            Kind::Unknown => matches!(other, Kind::Unknown),
            Kind::Stop => matches!(other, Kind::Stop),
        }
    }

    /// How many of the kinds are this one.
    pub fn count(self, kinds: &[Kind]) -> usize
        ensures { result ≡ how_many self kinds.now }
    {
        kinds.iter().filter(|kind| self.is(**kind)).count()
    }
}

/// Whether the reply leaves the question open.
fn is_left_open(tag: Tag) -> bool
    ensures { result ≡ is_left_open tag }
{
    matches!(tag, Tag::Unknown { .. } | Tag::Stop { .. })
}

/// The kind of a reply that is the last one to its question: it decides that, or is by all items, of which there are so
/// many.
fn kind_kept(kept: Option<Kept>, all: u32) -> Option<Kind>
    ensures { result ≡ kind_kept all kept }
{
    match kept {
        Some(kept) if !is_left_open(kept.tag) || kept.front == all => Some(Kind::of(kept.tag)),
        _ => None,
    }
}

/// The kind of the last verdict on the question with this number, which has its reply.
fn last_kind<F: Front>(
    alloc: Global,
    p: &Presentation,
    list: &F,
    session: &Session,
    number: u32,
) -> Result<Kind, AllocError>
    requires first { 1 ≤ number }
    requires within { number ≤ length session.now.questions }
    requires entries { AreOf p.now (F.entries list.now) }
    requires replied { IsReplied p.now (F.entries list.now) (F.seal list.now) session.now }
    ensures { IfOk result (IsLastKind p.now (F.entries list.now) (F.seal list.now) session.now (number - 1)) }
{
    match kind_kept(session.kept(number), list.front()) {
        Some(kind) => Ok(kind),
        None => {
            let verdict = verdict(alloc, p, list, session.question(number))?;
            Ok(Kind::of(Tag::of(&verdict)))
        }
    }
}

/// Puts the kinds of the session's last verdicts behind the others.
#[tactic(auto, using(crate::proofs::Lasting::putting))]
fn put_kinds<F: Front>(
    alloc: Global,
    p: &Presentation,
    list: &F,
    session: &Session,
    kinds: &mut Vec<Kind>,
) -> Result<(), AllocError>
    requires entries { AreOf p.now (F.entries list.now) }
    requires replied { IsReplied p.now (F.entries list.now) (F.seal list.now) session.now }
    ensures { OnOk result (ArePut p.now (F.entries list.now) (F.seal list.now) session.now kinds.old.items
        kinds.new.items) }
{
    for place in 0..session.count() {
        kinds.push(last_kind(alloc, p, list, session, place + 1)?)?;
    }
    Ok(())
}

/// The kinds of the sessions' last verdicts.
#[tactic(auto, using(crate::proofs::Lasting::finding))]
fn kinds_of<F: Front>(
    alloc: Global,
    p: &Presentation,
    list: &F,
    sessions: &[Session],
) -> Result<Vec<Kind>, AllocError>
    requires entries { AreOf p.now (F.entries list.now) }
    requires replied { AllByRecursion (IsReplied p.now (F.entries list.now) (F.seal list.now)) sessions.now }
    ensures { IfOk result (λ kinds. AreFound p.now (F.entries list.now) (F.seal list.now) sessions.now kinds.items) }
{
    let mut kinds = Vec::new(alloc);
    for session in sessions {
        put_kinds(alloc, p, list, session, &mut kinds)?;
    }
    Ok(kinds)
}

/// The seal of the report.
fn seal_of(report: &Report) -> Option<&Sealed>
    ensures { option_map (λ s. s.now) result ≡ option_map arc_value report.now.sealed }
{
    match &report.sealed {
        Some(seal) => Some(seal),
        None => None,
    }
}

/// The kinds of the last verdicts of the report, by session and question: of what is answered behind the end, where a
/// question is answered once more there, and else of its reply.
pub fn last_kinds(alloc: Global, report: &Report) -> Result<Vec<Kind>, AllocError>
    requires { IsReportable (reported report.now) }
    ensures are { IfOk result (λ kinds. AreLastKinds (reported report.now) kinds.items) }
    // Each question that was left open has a reply by all items.
    ensures told { IfOk result (λ _. (h : History) × IsHistoryOf (reported report.now) h) }
{
    let items = Items::of(&report.entries, seal_of(report));
    let index = Index::of_list(alloc, &items)?;
    let list = Indexed::over(&items, &index);
    kinds_of(alloc, &report.pres, &list, &report.sessions)
}
