//! The texts of sessions and schedules: the questions that are asked of a presentation, and the order of events.
#![tactic(auto)]

mod asked;
mod fault;
mod images;
pub mod laws;
mod letters;
mod line;
mod one_question;
mod question;
mod reading;
mod same;
mod schedule;
mod session;
#[cfg(test)]
mod tests;
mod words;
mod writing;

pub use fault::SessionFault;
pub use images::{first_long_image, has_images};
pub use one_question::read_question;
pub use question::{Event, Question};
pub use schedule::read_schedule;
pub use session::read_session;
pub use words::Words;
pub use writing::write_question;

/// A session has at most so many questions.
pub const QUESTIONS: u32 = 4096;

/// The words of one session have at most so many letters together.
pub const LETTERS: u32 = 4_194_304;
