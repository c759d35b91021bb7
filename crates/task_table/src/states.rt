//! States of tasks.

ghost use Rattle.std.specs.Prelude.{◌≡◌};
ghost use Rattle.task_table.specs.Tasks as tasks;

/// What is known of a task.
#[derive(Clone, Copy, PartialEq, Eq)]
pub enum TaskState {
    /// It can be taken.
    Open,
    /// A worker has it.
    Taken,
    /// Its work met a limit.
    Hard,
    /// A commit has closed it.
    Closed,
    /// It was closed when it came, or its entries make no pair.
    Never,
}

/// Which tasks are looked for.
#[derive(Clone, Copy, PartialEq, Eq)]
pub enum Wanted {
    OpenOnes,
    /// All that are open, taken or hard.
    Unclosed,
}

/// Which tasks become open again.
#[derive(Clone, Copy, PartialEq, Eq)]
pub enum Reopened {
    HardOnes,
    TakenOnes,
}

impl Wanted {
    /// Whether a task in this state is looked for.
    pub fn is(self, state: TaskState) -> bool
        ensures { result ≡ tasks.is_wanted self state }
    {
        match self {
            Wanted::OpenOnes => matches!(state, TaskState::Open),
            Wanted::Unclosed => !matches!(state, TaskState::Closed | TaskState::Never),
        }
    }
}

impl Reopened {
    /// Whether a task in this state becomes open.
    pub fn is(self, state: TaskState) -> bool
        ensures { result ≡ tasks.is_reopened self state }
    {
        match self {
            Reopened::HardOnes => matches!(state, TaskState::Hard),
            Reopened::TakenOnes => matches!(state, TaskState::Taken),
        }
    }

    /// The state afterwards.
    pub fn after(self, state: TaskState) -> TaskState
        ensures { result ≡ tasks.reopened self state }
    {
        if self.is(state) {
            TaskState::Open
        } else {
            state
        }
    }
}
