//! The texts of terms.

ghost use Rattle.std.specs.Prelude.{◌≡◌, ◌++◌, ◌↔◌, length, IsTrue, OnOk};
ghost use Rattle.spelling.specs.Spelling.{IsRead};
ghost use Rattle.module_vec.specs.Vectors.{IsTerm};
ghost use Rattle.vector_text.specs.Spelling.{term_text};
ghost use Rattle.vector_text.specs.Over.{PlaceIsOver, IsTermOf, MayFollow};

use crate::places::{place_of, put_place};
use module_vec::{TERMS, Term};
use presentation::Presentation;
use spelling::{cut, read_coefficient, write_coefficient};
use std::alloc::AllocError;

/// Appends the term: its coefficient, `*`, and its place.
#[tactic(auto, using(crate::proofs::Writing::spelled_coefficient))]
pub fn put_term(out: &mut Vec<u8>, p: &Presentation, t: &Term) -> Result<(), AllocError>
    requires over { PlaceIsOver (length p.now.names) t.now.at }
    requires term { IsTerm t.now }
    ensures { OnOk result (out.new.items ≡ out.old.items ++ term_text p.now.names t.now) }
{
    write_coefficient(out, t.k)?;
    out.extend_from_slice(b"*")?;
    put_place(out, p, &t.at)
}

/// The term that the text spells.
pub fn term_of(p: &Presentation, text: &[u8]) -> Option<Term>
    ensures { IsRead (term_text p.now.names) (IsTermOf (length p.now.names)) text.now result }
{
    p.known();
    let (front, rest) = cut(text, b'*')?;
    let k = read_coefficient(front)?;
    let at = place_of(p, rest)?;
    Some(Term { at, k })
}

/// Whether a vector may go on with the term `t` behind these terms.
pub fn may_follow(terms: &[Term], t: &Term) -> bool
    ensures { IsTrue result ↔ MayFollow terms.now t.now }
{
    if terms.len() >= TERMS as usize {
        return false;
    }
    match terms.last() {
        Some(last) => t.at.compare(&last.at).is_lt(),
        None => true,
    }
}
