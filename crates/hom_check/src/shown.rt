//! What is shown of the subjects of a question.

use module_vec::{ModVec, Stop};

/// What a list of vectors shows of the subjects of a question. Subjects are numbered from 1.
#[derive(Drop)]
pub enum Shown {
    /// Each of them is shown to be trivial.
    All,
    /// This is the first that isn't. Its Fox vector has this rest, which isn't zero.
    Rest { subject: u32, rest: ModVec },
    /// This is the first that isn't. The reduction of its Fox vector meets a limit.
    Stopped { subject: u32, stop: Stop },
}
