//! Words of a free group: lists of letters, each a generator or its inverse.
//!
//! A word is kept as it is written: nothing cancels before [`Word::reduce`] is called. A call that makes a longer word
//! takes the greatest length that it may make, and answers [`WordFault::TooLong`] exactly where the result would pass
//! it. The laws that hold of these words stand in [`laws`].
#![tactic(auto)]

mod fault;
mod images;
pub mod laws;
mod letter;
mod making;
mod reduction;
mod sums;
#[cfg(test)]
mod tests;
mod word;

pub use fault::WordFault;
pub use letter::Letter;
pub use making::{commutator_of, inverse_of};
pub use word::Word;

/// A presentation has at most so many generators.
pub const GENERATORS: u32 = 24;

/// A written word, and each part of it, has at most so many letters when it is expanded.
pub const WRITTEN: u32 = 16_384;

/// A word composed of others (a subject, an image, a word under moves) has at most so many letters.
pub const COMPOSED: u32 = 32_768;
