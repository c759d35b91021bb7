//! Answers as a report tells them.

ghost use Rattle.std.specs.Prelude.{◌≡◌};

use crate::ProofList;
use outcomes::Verdict;
use session_text::Question;
use std::marker::Model;

/// What a session is answered to a question.
#[derive(Drop)]
pub struct ReplyData {
    pub session: u32,
    pub question: Question,
    /// It was answered while the log grew, and not behind the end.
    pub live: bool,
    /// The number of items below which the answer was made: all of them behind the end.
    pub front: u32,
    pub verdict: Verdict,
    /// One proof for each subject of a yes, and none for other verdicts.
    pub proofs: ProofList,
}

/// Answers in order, which contracts see as a list.
#[derive(Drop)]
pub struct ReplyList {
    list: Vec<ReplyData>,
}

impl Model for ReplyList {
    ghost use Rattle.std.specs.Prelude.{List};
    ghost use Rattle.report_reading.specs.declared.replies.ReplyData.{ReplyData};

    ghost Value = { List ReplyData };

    ghost view = { λ r. r.list.items };
}

impl ReplyList {
    /// The list of these answers.
    pub fn of(list: Vec<ReplyData>) -> ReplyList
        ensures { result ≡ list.items }
    {
        ReplyList { list }
    }

    /// The answers in order.
    pub fn replies(&self) -> &[ReplyData]
        ensures { result.now ≡ self.now }
    {
        &self.list
    }

    /// The answers themselves.
    pub fn into_list(self) -> Vec<ReplyData>
        ensures { result.items ≡ self }
    {
        self.list
    }
}
