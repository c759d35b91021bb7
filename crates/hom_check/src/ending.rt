//! How the chain of one word's Fox vector ends.

ghost use Rattle.std.specs.Prelude.{◌≤◌, List, length, take, IfOk};
ghost use Rattle.free_words.specs.declared.letter.Letter.{Letter};
ghost use Rattle.module_vec.specs.declared.places.Term.{Term};
ghost use Rattle.free_words.specs.Words.{IsOver};
ghost use Rattle.free_words.specs.declared.TheConstants.{COMPOSED};
ghost use Rattle.hom_check.specs.Endings.{HasEnding};
ghost use Rattle.hom_check.specs.Shown.{EndsIn};

use fox_calculus::fox;
use free_words::Word;
use module_vec::{ModVec, Stop};
use presentation::Presentation;
use reduce_cofactor::{ReduceFault, VecList, reduce};
use std::alloc::{AllocError, Global};

/// How the reduction of a word's Fox vector ends.
#[derive(Drop)]
pub enum Ending {
    /// In zero.
    Zero,
    /// In this vector, which isn't zero.
    Rest(ModVec),
    /// At this limit.
    Stopped(Stop),
}

/// How the reduction of the word's Fox vector by the entries below `front` ends.
pub fn ending_of<L: VecList>(
    alloc: Global,
    p: &Presentation,
    list: &L,
    front: u32,
    w: &Word,
) -> Result<Ending, AllocError>
    requires front { front ≤ length (L.vectors list.now) }
    requires over { IsOver (length p.now.names) w.now }
    requires short { length w.now ≤ COMPOSED }
    ensures { IfOk result (λ e. HasEnding (take front (L.vectors list.now)) w.now e) }
{
    let vector = fox(alloc, p, w)?;
    match reduce(alloc, list, front, &vector) {
        Ok((rest, _)) => Ok(with_rest(rest)),
        Err(ReduceFault::Stop(stop)) => Ok(Ending::Stopped(stop)),
        Err(ReduceFault::NoMemory) => Err(AllocError),
    }
}

/// The ending in this vector.
fn with_rest(rest: ModVec) -> Ending
    ensures { (b : List (List Term)) (w : List Letter) → EndsIn b rest w → HasEnding b w result }
{
    if rest.terms().is_empty() {
        Ending::Zero
    } else {
        Ending::Rest(rest)
    }
}
