//! The first subject of a question that isn't shown to be trivial.

ghost use Rattle.std.specs.List.{AllByRecursion};
ghost use Rattle.std.specs.Prelude.{◌≡◌, ◌≤◌, length, take, IfOk};
ghost use Rattle.session_text.specs.Questions.{IsWrittenQuestion, HasImages, subjects};
ghost use Rattle.hom_check.specs.declared.shown.Shown.TheVariants.{All};
ghost use Rattle.hom_check.specs.Shown.{Shows, IsSum};

use crate::Shown;
use crate::ending::{Ending, ending_of};
use crate::subjects::{subject, subject_count};
use presentation::Presentation;
use reduce_cofactor::VecList;
use session_text::Question;
use std::alloc::{AllocError, Global};

/// The first subject of the question whose Fox vector the entries below `front` don't reduce to zero, with the rest or
/// the limit that its reduction comes to. The subjects are made and reduced one at a time, in order.
pub fn first_unshown<L: VecList>(
    alloc: Global,
    p: &Presentation,
    list: &L,
    front: u32,
    q: &Question,
) -> Result<Shown, AllocError>
    requires question { IsWrittenQuestion p.now q.now }
    requires images { HasImages q.now }
    requires front { front ≤ length (L.vectors list.now) }
    ensures is { IfOk result (λ shown. Shows (take front (L.vectors list.now)) q.now shown) }
    // Where all are shown, each subject's Fox vector is a sum of multiples of entries below `front`.
    ensures sums { IfOk result (λ shown. shown ≡ All
        → AllByRecursion (IsSum (take front (L.vectors list.now))) (subjects q.now)) }
{
    for place in 0..subject_count(q) {
        let number = place + 1;
        let w = subject(alloc, q, number)?;
        match ending_of(alloc, p, list, front, &w)? {
            Ending::Zero => {}
            Ending::Rest(rest) => {
                return Ok(Shown::Rest {
                    subject: number,
                    rest,
                });
            }
            Ending::Stopped(stop) => {
                return Ok(Shown::Stopped {
                    subject: number,
                    stop,
                });
            }
        }
    }
    Ok(Shown::All)
}
