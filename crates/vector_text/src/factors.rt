//! Factors: a variable and its exponent.

ghost use Rattle.std.specs.Prelude.{◌≡◌, ◌<◌, ◌*◌, ◌++◌, length, slice_set, replicate, pos, unsigned_abs, OnOk, IfSome};
ghost use Rattle.laurent_terms.specs.Monomials.{one, monomial_of, MadeWithin, IsMonomial};
ghost use Rattle.spelling.specs.Spelling.{IsRead};
ghost use Rattle.vector_text.specs.Spelling.{variable_text, exponent_text, factor_text};
ghost use Rattle.vector_text.specs.Over.{IsExponent, IsFactorOf};

use laurent_terms::{DEGREE, Mono, VARIABLES};
use presentation::Presentation;
use spelling::{after_byte, read_number, write_number};
use std::alloc::AllocError;
use word_text::split_name;

/// A power of the variable numbered `variable`: x_g has the number 2g, and y_g, which stands for its inverse, 2g + 1.
#[derive(Clone, Copy)]
pub struct Factor {
    pub variable: u8,
    pub exponent: u16,
}

/// Appends the factor: `a`, `a'`, `a^2` or `a'^2`.
pub fn put_factor(out: &mut Vec<u8>, p: &Presentation, f: Factor) -> Result<(), AllocError>
    requires { f.variable < 2 * length p.now.names }
    ensures { OnOk result (out.new.items ≡ out.old.items ++ factor_text p.now.names f) }
{
    put_variable(out, p, f.variable)?;
    put_exponent(out, f.exponent)
}

fn put_variable(out: &mut Vec<u8>, p: &Presentation, variable: u8) -> Result<(), AllocError>
    requires { variable < 2 * length p.now.names }
    ensures { OnOk result (out.new.items ≡ out.old.items ++ variable_text p.now.names variable) }
{
    out.extend_from_slice(p.name(variable / 2).as_bytes())?;
    if variable % 2 == 0 {
        return Ok(());
    }
    out.extend_from_slice(b"'")
}

fn put_exponent(out: &mut Vec<u8>, exponent: u16) -> Result<(), AllocError>
    ensures { OnOk result (out.new.items ≡ out.old.items ++ exponent_text exponent) }
{
    if exponent == 1 {
        return Ok(());
    }
    out.extend_from_slice(b"^")?;
    write_number(out, u32::from(exponent))
}

/// The factor that the text spells.
#[tactic(auto, using(crate::proofs::FactorTexts::factors_read))]
pub fn read_factor(p: &Presentation, text: &[u8]) -> Option<Factor>
    ensures { IsRead (factor_text p.now.names) (IsFactorOf (length p.now.names)) text.now result }
{
    p.known();
    let (name, rest) = split_name(text);
    let g = p.generator(name)?;
    if let Some(rest) = after_byte(rest, b'\'') {
        let exponent = read_exponent(rest)?;
        return Some(Factor {
            variable: 2 * g + 1,
            exponent,
        });
    }
    let exponent = read_exponent(rest)?;
    Some(Factor {
        variable: 2 * g,
        exponent,
    })
}

#[tactic(auto, using(crate::proofs::FactorTexts::exponents_read))]
fn read_exponent(text: &[u8]) -> Option<u16>
    ensures { IsRead exponent_text IsExponent text.now result }
{
    if text.is_empty() {
        return Some(1);
    }
    let digits = after_byte(text, b'^')?;
    let exponent = read_number(digits)?;
    if exponent < 2 {
        return None;
    }
    if exponent > DEGREE {
        return None;
    }
    Some(exponent as u16)
}

/// The factor as a monomial, or `None` where its exponent passes [`DEGREE`].
#[tactic(auto, using(crate::proofs::Powers::even_power, crate::proofs::Powers::odd_power))]
pub fn power(f: Factor) -> Option<Mono>
    requires variable { f.variable < VARIABLES }
    requires some { 0 < f.exponent }
    ensures made { MadeWithin f.exponent (slice_set one f.variable f.exponent) result }
    ensures monomial { IfSome result IsMonomial }
{
    let exponent = i32::from(f.exponent);
    if f.variable % 2 == 0 {
        return signed_power(f.variable / 2, exponent);
    }
    signed_power(f.variable / 2, -exponent)
}

/// The monomial of an integer vector with one number that isn't 0.
#[tactic(auto, using(crate::proofs::Powers::total_set))]
fn signed_power(g: u8, exponent: i32) -> Option<Mono>
    requires { 2 * g < VARIABLES }
    ensures made { MadeWithin (unsigned_abs exponent) (monomial_of
        (slice_set (replicate 24 (pos 0)) g exponent)) result }
    ensures monomial { IfSome result IsMonomial }
{
    let mut exponents = [0; VARIABLES / 2];
    exponents[usize::from(g)] = exponent;
    Mono::of_exponents(&exponents)
}
