//! Why an outcome is not committed.

ghost use Rattle.std.specs.Prelude.{◌≡◌, ◌≢◌, ◌<◌, ◌↔◌, IsTrue, map, length, pos, ◌<ℤ◌, MatchOption};
ghost use Rattle.std.specs.Arc.{arc_value};
ghost use Rattle.module_vec.specs.declared.places.Term.{Term as TheTerm};
ghost use Rattle.basis_entry.specs.Entries.{vectors_of};
ghost use Rattle.pair_book.specs.Commits.{IsStranger, IsLeadDivisor, HasBudget, Refuses, RefusesTask};
ghost use Rattle.pair_book.specs.Commits.{RefusesRest, IfRest};
ghost use Rattle.pair_book.specs.Logs.{DividesLead, NoneDivides};
ghost use Rattle.pair_work.specs.Outcomes.{used_entry, AllThere, AreRising, IsThere};
ghost use Rattle.strong_pairs.specs.Pairs.{lead_of};

use crate::log::Log;
use crate::newcomers::entry_lead;
use crate::{Book, CommitFault};
use basis_entry::{Entry, Front};
use module_vec::{Term, VecList};
use outcomes::Task;
use pair_work::{Close, Outcome, Used};
use strong_pairs::{divides, lead};

/// Whether the log has the entry under its number.
fn is_there(log: &Log, used: &Used) -> bool
    ensures { IsTrue result ↔ IsThere log.now.entries (used_entry used.now) }
{
    used.number < log.count() && log.get(used.number).same(&used.entry)
}

/// The least number of a used entry that isn't the log's.
fn first_stranger(log: &Log, used: &[Used]) -> Option<u32>
    requires { AreRising (map used_entry used.now) }
    ensures { MatchOption result (AllThere log.now.entries (map used_entry used.now))
        (λ k. IsStranger log.now.entries (map used_entry used.now) k) }
{
    for one in used {
        if !is_there(log, one) {
            return Some(one.number);
        }
    }
    None
}

/// Whether the lead term d divides the lead term e.
fn divides_lead(d: &Term, e: &Term) -> bool
    requires d { pos 0 <ℤ d.now.k }
    requires e { pos 0 <ℤ e.now.k }
    ensures { IsTrue result ↔ DividesLead d.now e.now }
{
    d.at.c == e.at.c && d.at.m.divides(&e.at.m) && divides(d.k, e.k)
}

/// The least number of an entry whose lead term divides that of another one.
fn first_divisor(log: &Log, entry: &Entry) -> Option<u32>
    ensures { MatchOption result (NoneDivides (vectors_of log.now.entries) (lead_of (entry.now).vector))
        (λ k. IsLeadDivisor log.now.entries entry.now k) }
{
    let e = entry_lead(entry);
    for k in 0..log.count() {
        if divides_lead(&lead(log, k), &e) {
            return Some(k);
        }
    }
    None
}

/// The least number of an entry that the outcome used and the log doesn't have.
fn stranger(log: &Log, o: &Outcome) -> Option<u32>
    ensures { MatchOption result (AllThere log.now.entries (o.now).used)
        (λ k. IsStranger log.now.entries (o.now).used k) }
{
    o.known();
    first_stranger(log, o.used())
}

impl Book {
    ghost use Rattle.pair_work.specs.Outcomes.{IsShort};

    /// Why the outcome can't be committed now.
    pub(crate) fn refusal(&self, o: &Outcome) -> Option<CommitFault>
        ensures { Refuses self.now o.now result }
    {
        if let Some(fault) = self.refused_task(o.task()) {
            return Some(fault);
        }
        if let Some(entry) = stranger(self.log(), o) {
            return Some(CommitFault::Stranger { entry });
        }
        let Close::Rest { entry } = o.close() else {
            return None;
        };
        self.refused_rest(o, entry)
    }

    /// Why an outcome can't be committed now whose used entries are the log's, and whose rest is of the book's
    /// presentation.
    pub(crate) fn refusal_of_known(&self, o: &Outcome) -> Option<CommitFault>
        requires there { AllThere self.now.entries o.now.used }
        requires source { IfRest o.now.close (λ e. e.source ≡ self.now.source) }
        ensures { Refuses self.now o.now result }
    {
        if let Some(fault) = self.refused_task(o.task()) {
            return Some(fault);
        }
        let Close::Rest { entry } = o.close() else {
            return None;
        };
        self.refused_known_rest(o, entry)
    }

    /// Why no outcome of the task can be committed now.
    fn refused_task(&self, task: Task) -> Option<CommitFault>
        ensures { RefusesTask self.now task result }
    {
        if !self.is_taken(task) || self.sealed().is_some() {
            return Some(CommitFault::NotTaken);
        }
        let commits = self.commits();
        if self.limits().budget == Some(commits) {
            return Some(CommitFault::Spent { commits });
        }
        None
    }

    /// Why the rest of an outcome can't be appended now, where the outcome passes the other tests.
    fn refused_rest(&self, o: &Outcome, entry: &Entry) -> Option<CommitFault>
        requires budget { HasBudget self.now (o.now).task }
        requires there { AllThere self.now.entries (o.now).used }
        requires short { IsShort entry.now }
        ensures { RefusesRest self.now o.now entry.now result }
    {
        if !entry.presentation().same(self.source()) {
            let now = self.count();
            return Some(CommitFault::Stranger { entry: now });
        }
        self.refused_known_rest(o, entry)
    }

    /// The same, where the rest is known to be of the book's presentation.
    fn refused_known_rest(&self, o: &Outcome, entry: &Entry) -> Option<CommitFault>
        requires budget { HasBudget self.now (o.now).task }
        requires there { AllThere self.now.entries (o.now).used }
        requires source { (entry.now).source ≡ self.now.source }
        requires short { IsShort entry.now }
        ensures { RefusesRest self.now o.now entry.now result }
    {
        let now = self.count();
        let front = o.front();
        if front < now {
            return Some(CommitFault::Stale { front, now });
        }
        if let Some(entry) = first_divisor(self.log(), entry) {
            return Some(CommitFault::Stranger { entry });
        }
        match self.passed(entry) {
            Some((measure, count)) => Some(CommitFault::Full { measure, count }),
            None => None,
        }
    }
}
