//! The text of one line.

ghost use Rattle.std.specs.Prelude.{◌≡◌, ◌↔◌, ◌++◌, decimal, IsTrue, OnOk};
ghost use Rattle.spelling.specs.Spelling.{IsRead};
ghost use Rattle.flat_cert.specs.Images.{IsFlatMono};
ghost use Rattle.flat_cert.specs.Certificates.{IsRelator, IsKind, IsFlat};
ghost use Rattle.flat_cert.specs.Texts.{kind_text, line_text};

use crate::{Flat, FlatKind};
use laurent_terms::Mono;
use presentation::Presentation;
use spelling::{cut, read_coefficient, read_number, write_coefficient, write_number};
use std::alloc::AllocError;
use vector_text::{put_mono, read_mono};

/// Appends the line: its coefficient, `*`, its monomial, a space, and what it is a multiple of.
#[tactic(auto, using(crate::proofs::LineTexts::spelled_coefficient))]
pub fn put_line(out: &mut Vec<u8>, p: &Presentation, line: &Flat) -> Result<(), AllocError>
    requires { IsFlat p.now line.now }
    ensures { OnOk result (out.new.items ≡ out.old.items ++ line_text p.now.names line.now) }
{
    write_coefficient(out, line.k)?;
    out.extend_from_slice(b"*")?;
    put_mono(out, p, &line.t)?;
    out.extend_from_slice(b" ")?;
    put_kind(out, p, line.what)
}

/// Appends what a line is a multiple of: `rel`, `bin` or `mod`, the number of the relator, and the component's name.
fn put_kind(out: &mut Vec<u8>, p: &Presentation, what: FlatKind) -> Result<(), AllocError>
    requires { IsKind p.now what }
    ensures { OnOk result (out.new.items ≡ out.old.items ++ kind_text p.now.names what) }
{
    match what {
        FlatKind::Rel { relator } => {
            out.extend_from_slice(b"rel ")?;
            write_number(out, relator)
        }
        FlatKind::Bin { relator, c } => {
            out.extend_from_slice(b"bin ")?;
            write_number(out, relator)?;
            out.extend_from_slice(b" ")?;
            out.extend_from_slice(p.name(c).as_bytes())
        }
        FlatKind::Mod { c } => {
            out.extend_from_slice(b"mod ")?;
            out.extend_from_slice(p.name(c).as_bytes())
        }
    }
}

/// The line that the text spells.
pub fn line_of(p: &Presentation, text: &[u8]) -> Option<Flat>
    ensures { IsRead (line_text p.now.names) (IsFlat p.now) text.now result }
{
    p.known();
    let (front, rest) = cut(text, b'*')?;
    let k = read_coefficient(front)?;
    let (middle, last) = cut(rest, b' ')?;
    let Ok(t) = read_mono(p, middle) else {
        return None;
    };
    if !is_flat(&t) {
        return None;
    }
    let what = kind_of(p, last)?;
    Some(Flat { k, t, what })
}

/// Whether no generator stands in the monomial with both its variables.
fn is_flat(m: &Mono) -> bool
    ensures { IsTrue result ↔ IsFlatMono m.now }
{
    // The proof needs that this is a monomial, and the call says so.
    let _ = m.degree();
    for g in 0..24u8 {
        if m.exp(2 * g) > 0 && m.exp(2 * g + 1) > 0 {
            return false;
        }
    }
    true
}

/// What the text says that a line is a multiple of.
fn kind_of(p: &Presentation, text: &[u8]) -> Option<FlatKind>
    ensures { IsRead (kind_text p.now.names) (IsKind p.now) text.now result }
{
    p.known();
    let (word, rest) = cut(text, b' ')?;
    if is_same(word, b"rel") {
        let relator = relator_of(p, rest)?;
        return Some(FlatKind::Rel { relator });
    }
    if is_same(word, b"bin") {
        let (number, name) = cut(rest, b' ')?;
        let relator = relator_of(p, number)?;
        let c = p.generator(name)?;
        return Some(FlatKind::Bin { relator, c });
    }
    if is_same(word, b"mod") && p.modulus() > 0 {
        let c = p.generator(rest)?;
        return Some(FlatKind::Mod { c });
    }
    None
}

/// The number of a relator that the text spells.
fn relator_of(p: &Presentation, text: &[u8]) -> Option<u32>
    ensures { IsRead decimal (IsRelator p.now) text.now result }
{
    p.known();
    let j = read_number(text)?;
    if j == 0 || j as usize > p.relators().len() {
        return None;
    }
    Some(j)
}

/// Whether the bytes are these.
pub fn is_same(bytes: &[u8], wanted: &[u8]) -> bool
    ensures { IsTrue result ↔ (bytes.now ≡ wanted.now) }
{
    bytes == wanted
}
