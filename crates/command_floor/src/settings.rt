//! The options of the commands. Each has a number as its value: a new option is a row in each table here.

ghost use Rattle.std.specs.Prelude.{◌≡◌, ◌<◌, ◌^◌};
ghost use Rattle.command_floor.specs.Settings.{option_name, least_of, most_of};

/// The least limit on entries: the generators of every presentation fit.
pub const LEAST_ENTRIES: u32 = 2_200;

/// The greatest limit on entries.
pub const MOST_ENTRIES: u32 = 4_096;

/// The greatest budget.
pub const MOST_BUDGET: u32 = 999_999_999;

/// The number of the order of tasks that is taken where none is given.
pub const FIRST_ORDER: u32 = 1;

/// The number of the last order of tasks.
pub const LAST_ORDER: u32 = 2;

/// A completion has at most so many workers.
pub const MOST_WORKERS: u32 = 16;

/// The number of the last version of reports.
pub const LAST_REPORT: u32 = 2;

/// An option of a command.
#[derive(Clone, Copy)]
pub enum Setting {
    /// The limit on the entries of a log.
    Entries,
    /// How many tasks a completion may work.
    Budget,
    /// The number of the order in which tasks are worked.
    Order,
    /// How many workers complete a log.
    Workers,
    /// The version of the report that is written.
    Report,
}

impl Setting {
    /// The option's name, as it stands behind `--`.
    pub fn name(self) -> &'static str
        ensures { result.now ≡ option_name self }
    {
        match self {
            Setting::Entries => "entries",
            Setting::Budget => "budget",
            Setting::Order => "order",
            Setting::Workers => "workers",
            Setting::Report => "report",
        }
    }

    /// The least number that it may have.
    pub fn least(self) -> u32
        ensures { result ≡ least_of self }
    {
        match self {
            Setting::Entries => LEAST_ENTRIES,
            Setting::Budget => 0,
            Setting::Order => FIRST_ORDER,
            Setting::Workers | Setting::Report => 1,
        }
    }

    /// The greatest number that it may have.
    pub fn most(self) -> u32
        ensures is { result ≡ most_of self }
        ensures few { result < 2 ^ 31 }
    {
        match self {
            Setting::Entries => MOST_ENTRIES,
            Setting::Budget => MOST_BUDGET,
            Setting::Order => LAST_ORDER,
            Setting::Workers => MOST_WORKERS,
            Setting::Report => LAST_REPORT,
        }
    }
}

/// The numbers of the options that are given.
#[derive(Clone, Copy)]
pub struct Settings {
    pub entries: Option<u32>,
    pub budget: Option<u32>,
    pub order: Option<u32>,
    pub workers: Option<u32>,
    pub report: Option<u32>,
}
