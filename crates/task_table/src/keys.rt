//! Keys: a task by its cost as one number, its rank in the upper bits, and its pair and its kind in the lower ones.

ghost use Rattle.std.specs.List.{AllByRecursion};
ghost use Rattle.std.specs.Prelude.{◌≡◌, ◌<◌, ◌≤◌, ℕ, List, length};
ghost use Rattle.outcomes.specs.declared.tasks.Task.{Task as TheTask};
ghost use Rattle.task_table.specs.declared.TheConstants.{ENTRIES as MOST};
ghost use Rattle.task_table.specs.declared.profiles.Profile.{Profile as TheProfile};
ghost use Rattle.task_table.specs.Keys.{key_of, rank_number, pair_number};
ghost use Rattle.task_table.specs.Orders.{cost, digits_with, greatest_common};
ghost use Rattle.task_table.specs.Profiles.{IsProfile};
ghost use Rattle.task_table.specs.Tasks.{IsTask};
ghost use Rattle.std.specs.Prelude.{unsigned_abs};

use crate::profiles::{Profile, digits};
use laurent_terms::bezout;
use outcomes::{PairKind, Task};

const DEGREES: u64 = 1 << 17;

const DIGITS: u64 = 1 << 9;

const PAIRS: u64 = 1 << 25;

const NUMBERS: u64 = 1 << 12;

/// The key of a task of the vectors with these profiles.
#[tactic(auto, unfolding(crate::specs::Keys::key_of))]
pub fn key(profiles: &[Profile], task: Task) -> u64
    requires few { length profiles.now ≤ MOST }
    requires profiles { AllByRecursion IsProfile profiles.now }
    requires task { IsTask (length profiles.now) task }
    ensures { result ≡ key_of profiles.now task }
{
    rank(&profiles[task.i as usize], &profiles[task.j as usize]) * PAIRS + pair(task)
}

/// The task that has this key.
pub fn task_of(key: u64) -> Task
    ensures { (profiles : List TheProfile) (t : TheTask) → t.i < MOST → t.j < MOST → key ≡ key_of profiles t
        → result ≡ t }
{
    let kind = if key % 2 == 0 {
        PairKind::G
    } else {
        PairKind::S
    };
    Task {
        i: (key / 2 % NUMBERS) as u32,
        j: (key / (2 * NUMBERS) % NUMBERS) as u32,
        kind,
    }
}

/// A pair and a kind as a number below [`PAIRS`].
fn pair(task: Task) -> u64
    requires i { task.i < MOST }
    requires j { task.j < MOST }
    ensures is { result ≡ pair_number task }
    ensures small { result < 33554432 }
{
    let kind = match task.kind {
        PairKind::G => 0,
        PairKind::S => 1,
    };
    (u64::from(task.j) * NUMBERS + u64::from(task.i)) * 2 + kind
}

/// The rank of the tasks of two vectors as a number.
#[tactic(auto, unfolding(crate::specs::Orders::cost))]
fn rank(first: &Profile, second: &Profile) -> u64
    requires first { IsProfile first.now }
    requires second { IsProfile second.now }
    ensures is { result ≡ rank_number (cost first.now second.now) }
    ensures small { result < 134217728 }
{
    let degree = first.lead.at.m.lcm_degree(&second.lead.at.m);
    (long(first, second) * DEGREES + u64::from(degree)) * DIGITS
        + u64::from(most_digits(first, second))
}

/// 0 for two short vectors, else 1.
#[tactic(auto, unfolding(crate::specs::Orders::cost))]
fn long(first: &Profile, second: &Profile) -> u64
    ensures { result ≡ (cost first.now second.now).length }
{
    if first.short && second.short { 0 } else { 1 }
}

/// The most digits that a coefficient may get where both leads are carried to their least common multiple.
fn most_digits(first: &Profile, second: &Profile) -> u32
    requires first { IsProfile first.now }
    requires second { IsProfile second.now }
    ensures is { result ≡ (cost first.now second.now).digits }
    ensures small { result < 512 }
{
    let (divisor, _, _) = bezout(first.lead.k, second.lead.k);
    let divisor = divisor.unsigned_abs();
    carried(first, second, divisor).max(carried(second, first, divisor))
}

/// The most digits that a coefficient of one vector may get where its lead is carried to that of the pair with another.
fn carried(one: &Profile, other: &Profile, divisor: u128) -> u32
    requires one { (one.now).digits ≤ 128 }
    requires divisor { divisor ≡ greatest_common (unsigned_abs (one.now).lead.k) (unsigned_abs (other.now).lead.k) }
    requires positive { 0 < divisor }
    ensures is { result ≡ digits_with one.now other.now }
    ensures small { result ≤ 256 }
{
    one.digits + digits(other.lead.k.unsigned_abs() / divisor)
}
