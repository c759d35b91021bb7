//! Writing a line of a trimmed report.

ghost use Rattle.std.specs.Prelude.{◌≡◌, ◌++◌, codes, decimal, length, IfOk, OnOk};
ghost use Rattle.step_text.specs.Over.{StepsAreOver};
ghost use Rattle.vector_text.specs.Over.{VectorIsOver};
ghost use Rattle.report_lines.specs.declared.lines.Made.TheVariants.{Gen, Sum};
ghost use Rattle.report_lines.specs.declared.trimmed.TrimmedLine.TheVariants as trimmed;
ghost use Rattle.report_lines.specs.Lines.{MadeIsOver};
ghost use Rattle.report_lines.specs.Trimmed.{trimmed_line_text, TrimmedIsOver, IsTrimmedLineOf, IsTrimmedReadBack};

use crate::made::put_sign;
use crate::writing::put_line;
use crate::{EntryNumber, Made, TrimmedLine};
use module_vec::ModVec;
use presentation::Presentation;
use spelling::write_number;
use std::alloc::{AllocError, Global};
use step_lists::Steps;
use step_text::put_steps;
use vector_text::put_vector;

/// The text of the line, without a line end.
pub fn write_trimmed_line(
    alloc: Global,
    p: &Presentation,
    line: &TrimmedLine,
) -> Result<Vec<u8>, AllocError>
    requires { TrimmedIsOver p.now line.now }
    ensures text { IfOk result (λ text. text.items ≡ trimmed_line_text p.now line.now) }
    ensures read_back { IsTrimmedLineOf p.now line.now
        → IfOk result (λ text. IsTrimmedReadBack p.now line.now text.items) }
{
    p.known();
    let mut out = Vec::new(alloc);
    put_trimmed_line(alloc, &mut out, p, line)?;
    Ok(out)
}

/// Appends the text of the line, without a line end.
pub fn put_trimmed_line(
    alloc: Global,
    out: &mut Vec<u8>,
    p: &Presentation,
    line: &TrimmedLine,
) -> Result<(), AllocError>
    requires { TrimmedIsOver p.now line.now }
    ensures { OnOk result (out.new.items ≡ out.old.items ++ trimmed_line_text p.now line.now) }
{
    match line {
        TrimmedLine::Entry {
            number,
            from,
            made,
            vector,
        } => put_entry(out, p, EntryNumber::new(*number, *from), made, vector),
        TrimmedLine::Other(line) => put_line(alloc, out, p, line),
    }
}

fn put_entry(
    out: &mut Vec<u8>,
    p: &Presentation,
    at: EntryNumber,
    made: &Made,
    vector: &ModVec,
) -> Result<(), AllocError>
    requires made { MadeIsOver (length p.now.names) made.now }
    requires vector { VectorIsOver (length p.now.names) vector.now }
    ensures { OnOk result (out.new.items ≡ out.old.items ++ trimmed_line_text p.now
        (trimmed.Entry at.number at.from made.now vector.now)) }
{
    match made {
        Made::Gen { negated } => put_trimmed_generator(out, p, at, *negated, vector),
        Made::Sum { steps } => put_trimmed_sum(out, p, at, steps, vector),
    }
}

/// Appends the line of the entry of a generator, or of its negative.
pub fn put_trimmed_generator(
    out: &mut Vec<u8>,
    p: &Presentation,
    at: EntryNumber,
    negated: bool,
    vector: &ModVec,
) -> Result<(), AllocError>
    requires { VectorIsOver (length p.now.names) vector.now }
    ensures { OnOk result (out.new.items ≡ out.old.items ++ trimmed_line_text p.now
        (trimmed.Entry at.number at.from (Gen negated) vector.now)) }
{
    put_numbers(out, at)?;
    put_sign(out, negated)?;
    out.extend_from_slice(b" : ")?;
    put_vector(out, p, vector)
}

/// Appends the line of an entry that is the sum of these steps.
pub fn put_trimmed_sum(
    out: &mut Vec<u8>,
    p: &Presentation,
    at: EntryNumber,
    steps: &Steps,
    vector: &ModVec,
) -> Result<(), AllocError>
    requires steps { StepsAreOver (length p.now.names) steps.now }
    requires vector { VectorIsOver (length p.now.names) vector.now }
    ensures { OnOk result (out.new.items ≡ out.old.items ++ trimmed_line_text p.now
        (trimmed.Entry at.number at.from (Sum steps.now) vector.now)) }
{
    put_numbers(out, at)?;
    out.extend_from_slice(b"sum ")?;
    put_steps(out, p, steps.steps())?;
    out.extend_from_slice(b" : ")?;
    put_vector(out, p, vector)
}

/// Appends both numbers of an entry with their words, and a space behind each.
fn put_numbers(out: &mut Vec<u8>, at: EntryNumber) -> Result<(), AllocError>
    ensures { OnOk result (out.new.items ≡ out.old.items ++ (codes "entry " ++ (decimal at.number ++ (codes " "
        ++ (codes "from " ++ (decimal at.from ++ codes " ")))))) }
{
    out.extend_from_slice(b"entry ")?;
    write_number(out, at.number)?;
    out.extend_from_slice(b" from ")?;
    write_number(out, at.from)?;
    out.extend_from_slice(b" ")
}
