//! The lines of the session.

ghost use Rattle.std.specs.Prelude.{◌≡◌, ◌++◌, ◌∷◌, [], OnOk};
ghost use Rattle.gen_input.specs.declared.lines.Form.TheVariants as forms;
ghost use Rattle.gen_input.specs.Texts as Texts;
ghost use Rattle.gen_input.specs.Texts.{numbered, power, product, commutator, form_text, line_text, first_of};
ghost use Rattle.gen_input.specs.Texts.{second_of, line_from, after_line};

use crate::draws::Draws;
use spelling::write_number;
use std::alloc::AllocError;

/// What a line asks.
#[derive(Clone, Copy)]
pub enum Form {
    Trivial,
    Equal,
    Normal,
    Hom,
}

/// A question about powers of the generators x and y, which are given by their names of one byte.
#[derive(Clone, Copy)]
pub struct Line {
    pub form: Form,
    pub x: u8,
    pub y: u8,
    pub i: u32,
    pub j: u32,
    /// The exponent of a commutator.
    pub m: u32,
}

/// Draws a line: its form, its generators, and the exponents i, j, m.
pub fn draw_line(draws: &mut Draws) -> Line
    ensures line { result ≡ line_from draws.old.state }
    ensures state { draws.new.state ≡ after_line draws.old.state }
{
    let form = form_of(draws.draw(4));
    let pair = draws.draw(3);
    Line {
        form,
        x: first(pair),
        y: second(pair),
        i: 1 + draws.draw(20),
        j: 1 + draws.draw(20),
        m: 1 + draws.draw(6),
    }
}

fn form_of(drawn: u32) -> Form
    ensures { result ≡ Texts.form_of drawn }
{
    match drawn {
        0 => Form::Trivial,
        1 => Form::Equal,
        2 => Form::Normal,
        _ => Form::Hom,
    }
}

fn first(pair: u32) -> u8
    ensures { result ≡ first_of pair }
{
    if pair == 2 { b'b' } else { b'a' }
}

fn second(pair: u32) -> u8
    ensures { result ≡ second_of pair }
{
    if pair == 0 { b'b' } else { b'c' }
}

/// Appends the line, without its end.
pub fn put_line(out: &mut Vec<u8>, line: Line) -> Result<(), AllocError>
    ensures { OnOk result (out.new.items ≡ out.old.items ++ line_text line) }
{
    match line.form {
        Form::Trivial => put_trivial(out, line),
        Form::Equal => put_equal(out, line),
        Form::Normal => put_normal(out, line),
        Form::Hom => put_hom(out, line),
    }
}

/// Appends `trivial [x^i,y^j]^m`.
fn put_trivial(out: &mut Vec<u8>, line: Line) -> Result<(), AllocError>
    ensures { OnOk result (out.new.items ≡ out.old.items ++ form_text forms.Trivial line) }
{
    out.extend_from_slice(b"trivial [")?;
    put_power(out, line.x, line.i)?;
    out.push(b',')?;
    put_power(out, line.y, line.j)?;
    put_numbered(out, b"]^", line.m)
}

/// Appends `equal x^i y^j = y^j x^i [x,y]^m`.
fn put_equal(out: &mut Vec<u8>, line: Line) -> Result<(), AllocError>
    ensures { OnOk result (out.new.items ≡ out.old.items ++ form_text forms.Equal line) }
{
    out.extend_from_slice(b"equal ")?;
    put_product(out, (line.x, line.i), (line.y, line.j))?;
    out.extend_from_slice(b" = ")?;
    put_product(out, (line.y, line.j), (line.x, line.i))?;
    out.push(b' ')?;
    put_commutator(out, line.x, line.y, line.m)
}

/// The product of two powers.
fn put_product(out: &mut Vec<u8>, u: (u8, u32), v: (u8, u32)) -> Result<(), AllocError>
    ensures { OnOk result (out.new.items ≡ out.old.items ++ product (power u.0 u.1) (power v.0 v.1)) }
{
    put_power(out, u.0, u.1)?;
    out.push(b' ')?;
    put_power(out, v.0, v.1)
}

/// The power of the commutator of two generators.
fn put_commutator(out: &mut Vec<u8>, x: u8, y: u8, m: u32) -> Result<(), AllocError>
    ensures { OnOk result (out.new.items ≡ out.old.items ++ commutator (x ∷ []) (y ∷ []) m) }
{
    out.push(b'[')?;
    out.push(x)?;
    out.push(b',')?;
    out.push(y)?;
    put_numbered(out, b"]^", m)
}

/// Appends `normal [x^i,y]^m`.
fn put_normal(out: &mut Vec<u8>, line: Line) -> Result<(), AllocError>
    ensures { OnOk result (out.new.items ≡ out.old.items ++ form_text forms.Normal line) }
{
    out.extend_from_slice(b"normal [")?;
    put_power(out, line.x, line.i)?;
    out.push(b',')?;
    out.push(line.y)?;
    put_numbered(out, b"]^", line.m)
}

/// Appends `hom <s,u | [s,u]^m> -> x^i, y^j`.
fn put_hom(out: &mut Vec<u8>, line: Line) -> Result<(), AllocError>
    ensures { OnOk result (out.new.items ≡ out.old.items ++ form_text forms.Hom line) }
{
    out.extend_from_slice(b"hom <s,u | [s,u")?;
    put_numbered(out, b"]^", line.m)?;
    out.extend_from_slice(b"> -> ")?;
    put_power(out, line.x, line.i)?;
    out.extend_from_slice(b", ")?;
    put_power(out, line.y, line.j)
}

fn put_power(out: &mut Vec<u8>, name: u8, n: u32) -> Result<(), AllocError>
    ensures { OnOk result (out.new.items ≡ out.old.items ++ power name n) }
{
    out.push(name)?;
    out.push(b'^')?;
    write_number(out, n)
}

/// Appends the text and the number.
pub fn put_numbered(out: &mut Vec<u8>, text: &[u8], n: u32) -> Result<(), AllocError>
    ensures { OnOk result (out.new.items ≡ out.old.items ++ numbered text.now n) }
{
    out.extend_from_slice(text)?;
    write_number(out, n)
}
