//! What is kept of a reply.

ghost use Rattle.std.specs.Prelude.{◌≡◌};
ghost use Rattle.session_core.specs.Replies.{tag_of};

use module_vec::Stop;
use outcomes::Verdict;

/// A verdict without the vector of a normal form. The subjects of a question are numbered from 1.
#[derive(Clone, Copy, PartialEq, Eq)]
pub enum Tag {
    Trivial,
    NotTrivial,
    /// The normal form isn't kept: the report makes it again.
    Normal,
    Extends,
    Fails { subject: u32 },
    Unknown { subject: u32 },
    Stop { subject: u32, stop: Stop },
}

/// A reply as it is kept: the number of items of the list that it was made from, and its verdict's tag.
#[derive(Clone, Copy, PartialEq, Eq)]
pub struct Kept {
    pub front: u32,
    pub tag: Tag,
}

impl Tag {
    /// The tag of a verdict.
    pub fn of(verdict: &Verdict) -> Tag
        ensures { result ≡ tag_of verdict.now }
    {
        match verdict {
            Verdict::Trivial => Tag::Trivial,
            Verdict::NotTrivial => Tag::NotTrivial,
            Verdict::Normal(_) => Tag::Normal,
            Verdict::Extends => Tag::Extends,
            Verdict::Fails { subject } => Tag::Fails { subject: *subject },
            Verdict::Unknown { subject } => Tag::Unknown { subject: *subject },
            Verdict::Stop { subject, stop } => Tag::Stop {
                subject: *subject,
                stop: *stop,
            },
        }
    }
}

impl Kept {
    /// What is kept of this verdict by so many items.
    pub(crate) fn of(front: u32, verdict: &Verdict) -> Kept
        ensures { result ≡ record { front = front; tag = tag_of verdict.now } }
    {
        Kept {
            front,
            tag: Tag::of(verdict),
        }
    }
}
