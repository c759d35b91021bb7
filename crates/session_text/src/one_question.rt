//! One question as its one spelling.

ghost use Rattle.std.specs.Prelude.{IfOk};
ghost use Rattle.spelling.specs.Spelling.{IsRead};
ghost use Rattle.session_text.specs.Questions.{IsWritable};
ghost use Rattle.session_text.specs.Writing.{written_question};

use crate::asked::Asked;
use crate::line::spelled_question;
use crate::question::Question;
use crate::writing::write_question;
use presentation::Presentation;
use std::alloc::{AllocError, Global};
use word_text::ReadFault;

/// The question whose one spelling the text is, as `write_question` writes it: None exactly where it is the spelling of
/// no question within the limits. Images of relators may be of any length.
pub fn read_question(
    alloc: Global,
    p: &Presentation,
    text: &[u8],
) -> Result<Option<Question>, AllocError>
    ensures { IfOk result (λ read. IsRead (written_question p.now.names) (IsWritable p.now) text.now read) }
{
    p.known();
    let question = match spelled_question(alloc, p, 1, text, &Asked::new(alloc)) {
        Ok(question) => question,
        Err(ReadFault::Text(_)) => return Ok(None),
        Err(ReadFault::NoMemory) => return Err(AllocError),
    };
    let written = write_question(alloc, p, &question)?;
    if written.as_slice() == text {
        Ok(Some(question))
    } else {
        Ok(None)
    }
}
