//! Commits.

ghost use Rattle.std.specs.Prelude.{◌≡◌, None};
ghost use Rattle.pair_book.specs.Commits.{Commits, IsCommitted, Refuses, IfRest};
ghost use Rattle.pair_work.specs.Outcomes.{AllThere};

use crate::{Book, CommitFault, Committed};
use module_vec::VecList;
use pair_work::{Close, Outcome};

impl Book {
    /// Commits an outcome of a task that is taken in this book, or hands it back. It takes no memory.
    ///
    /// `Closed` comes exactly where the outcome has no rest. Otherwise the rest is appended to the log, with its tasks.
    /// Where an S task is closed so, the open and hard S tasks that the chain rule then shows are closed too. The
    /// refusals come in the order of [`CommitFault`], but that the lead terms of the log are tried after `Stale`.
    pub fn commit(&mut self, o: Outcome) -> Result<Committed, (CommitFault, Outcome)>
        ensures { Commits self.old o result self.new }
    {
        if let Some(fault) = self.refusal(&o) {
            return Err((fault, o));
        }
        Ok(self.carry_out(o))
    }

    /// Commits an outcome as [`Book::commit`] does, without comparing entries: those that were used are known to be the
    /// log's, and a rest to be of the book's presentation.
    pub fn commit_known(&mut self, o: Outcome) -> Result<Committed, (CommitFault, Outcome)>
        requires there { AllThere self.old.entries o.used }
        requires source { IfRest o.close (λ e. e.source ≡ self.old.source) }
        ensures { Commits self.old o result self.new }
    {
        if let Some(fault) = self.refusal_of_known(&o) {
            return Err((fault, o));
        }
        Ok(self.carry_out(o))
    }

    /// Commits an outcome that isn't refused.
    fn carry_out(&mut self, o: Outcome) -> Committed
        requires { Refuses self.old o None }
        ensures { IsCommitted self.old o result self.new }
    {
        let task = o.task();
        let number = self.count();
        match o.into_close() {
            Close::Rest { entry } => {
                let closed = self.append(task, entry);
                self.chain_behind(task, closed);
                Committed::Appended {
                    entry: number,
                    closed,
                }
            }
            _ => {
                self.close(task);
                self.chain_behind(task, true);
                Committed::Closed
            }
        }
    }
}
