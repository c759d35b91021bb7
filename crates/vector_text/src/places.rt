//! The texts of places.

ghost use Rattle.std.specs.Prelude.{◌≡◌, ◌++◌, length, OnOk, IfOk, IfErr};
ghost use Rattle.vector_text.specs.Spelling.{place_text};
ghost use Rattle.spelling.specs.Spelling.{IsRead};
ghost use Rattle.vector_text.specs.Over.{PlaceIsOver, IsPlaceOf};
ghost use Rattle.vector_text.specs.Reading.{Reads, IsReadBack};

use crate::SpellFault;
use crate::monomials::{mono_of, put_mono};
use module_vec::Place;
use presentation::Presentation;
use spelling::cut;
use std::alloc::{AllocError, Global};

/// The text of a place over the presentation's generators: the monomial, `@`, and the name of the component.
#[tactic(auto, using(crate::proofs::ReadingBack::place_back))]
pub fn write_place(alloc: Global, p: &Presentation, at: &Place) -> Result<Vec<u8>, AllocError>
    requires { PlaceIsOver (length p.now.names) at.now }
    ensures text { IfOk result (λ text. text.items ≡ place_text p.now.names at.now) }
    ensures read_back { IfOk result (λ text. IsReadBack (place_text p.now.names) (IsPlaceOf (length p.now.names))
        at.now text.items) }
{
    p.known();
    at.m.known();
    let mut out = Vec::new(alloc);
    put_place(&mut out, p, at)?;
    Ok(out)
}

/// Appends the text of a place over the presentation's generators.
pub fn put_place(out: &mut Vec<u8>, p: &Presentation, at: &Place) -> Result<(), AllocError>
    requires { PlaceIsOver (length p.now.names) at.now }
    ensures { OnOk result (out.new.items ≡ out.old.items ++ place_text p.now.names at.now) }
{
    put_mono(out, p, &at.m)?;
    out.extend_from_slice(b"@")?;
    out.extend_from_slice(p.name(at.c).as_bytes())
}

/// The place over the presentation's generators that the text spells. `Spelling` exactly where it is no place's, and
/// never `NoMemory`.
pub fn read_place(p: &Presentation, text: &[u8]) -> Result<Place, SpellFault>
    ensures reads { Reads (place_text p.now.names) (IsPlaceOf (length p.now.names)) text.now result }
    ensures no_memory_taken { IfErr result (λ e. e ≡ SpellFault.Spelling) }
{
    match place_of(p, text) {
        Some(at) => Ok(at),
        None => Err(SpellFault::Spelling),
    }
}

/// The place that the text spells.
pub fn place_of(p: &Presentation, text: &[u8]) -> Option<Place>
    ensures { IsRead (place_text p.now.names) (IsPlaceOf (length p.now.names)) text.now result }
{
    p.known();
    let (front, name) = cut(text, b'@')?;
    let m = mono_of(p, front)?;
    let c = p.generator(name)?;
    Some(Place { m, c })
}
