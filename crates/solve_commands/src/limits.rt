//! The limits of a run, and the book that is opened with them.

ghost use Rattle.std.specs.Prelude.{◌≡◌, IfOk};
ghost use Rattle.std.specs.Arc.{arc_value};
ghost use Rattle.pair_book.specs.Books.{IsOpened, AreWithin};
ghost use Rattle.command_floor.specs.Settings.{AreInRange};
ghost use Rattle.solve_commands.specs.Limits.{limits_with, order_given, limits_given, AreInTable};

use command_floor::Settings;
use pair_book::laws::generator_entries_are_within;
use pair_book::{Book, Limits};
use presentation::Presentation;
use std::alloc::{AllocError, Global};
use std::sync::Arc;
use task_table::Order;

/// The log of a run has at most so many entries, where the command line doesn't say.
pub const ENTRIES: u32 = 3_072;

/// The vectors of a log have at most so many terms in all.
pub const LOG_TERMS: u32 = 8_000_000;

/// The recipes of a log have at most so many steps in all.
pub const LOG_STEPS: u32 = 8_000_000;

/// The limits of a run with so many entries, this budget and this order of tasks.
pub fn limits_with(entries: u32, budget: Option<u32>, order: Order) -> Limits
    ensures { result ≡ limits_with entries budget order }
{
    Limits {
        entries,
        terms: LOG_TERMS,
        steps: LOG_STEPS,
        budget,
        order,
    }
}

/// The order of tasks that has this number.
fn order_given(number: Option<u32>) -> Order
    ensures { result ≡ order_given number }
{
    match number {
        None | Some(1) => Order::ByNumber,
        Some(_) => Order::ByCost,
    }
}

/// The limits of a run with these options.
#[tactic(auto, using(crate::proofs::GivenLimits::entries_least, crate::proofs::GivenLimits::entries_most))]
pub fn limits_given(settings: &Settings) -> Limits
    requires { AreInRange settings.now }
    ensures is { result ≡ limits_given settings.now }
    ensures within { AreInTable result }
{
    let entries = settings.entries.unwrap_or(ENTRIES);
    limits_with(entries, settings.budget, order_given(settings.order))
}

/// The generator entries of the presentation are within limits that options can give. The call does nothing.
pub fn generators_fit(p: &Presentation, limits: Limits)
    requires { AreInTable limits }
    ensures { AreWithin p.now limits }
{
    let _ = limits;
    p.known();
    generator_entries_are_within();
}

/// The book of the presentation before its completion.
pub fn opened(alloc: Global, p: &Arc<Presentation>, limits: Limits) -> Result<Book, AllocError>
    requires { AreInTable limits }
    ensures { IfOk result (λ book. IsOpened (arc_value p.now) limits book) }
{
    generators_fit(p, limits);
    Book::open(alloc, p, limits)
}
