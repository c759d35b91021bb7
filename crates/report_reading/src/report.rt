//! Reading a whole text.

ghost use Rattle.std.specs.Prelude.{◌≡◌, ◌++◌, ◌∷◌, IfOk, IfErr};
ghost use Rattle.report_lines.specs.Texts.{pres_line};
ghost use Rattle.report_lines.specs.Trimmed.{items_line};
ghost use Rattle.report_reading.specs.Forms.{IsForm, headed_in};
ghost use Rattle.report_reading.specs.Reading.{Answers, FaultIs, HeadFails, IsAtSecond, IsAtThird, AnswersBody};

use crate::form::Form;
use crate::reader::Reader;
use crate::{ReportData, ReportFault};
use presentation::Presentation;
use report_lines::{is_pres_line, is_title, is_trimmed_title, read_items_line};
use spelling::cut;
use std::alloc::Global;

/// What the report over the presentation says whose text this is, or else the first line that can't stand after those
/// before it; one more than the last line's number where a line is missing at the end. Both versions are read.
///
/// It tests the order of lines, their numbers, that `seal` stands exactly where the end is `sealed`, that images are
/// short, and that exactly the questions left open are answered behind the end; in a trimmed report also that the
/// numbers of its items rise below the number of all, and that each answer stands behind the items below its front and
/// before the others. Which entries are generators, which entries steps name, and whether entries and proofs hold, is
/// not tested.
pub fn read_report(alloc: Global, p: &Presentation, text: &[u8]) -> Result<ReportData, ReportFault>
    ensures { Answers p.now text.now result }
{
    let (form, body) = behind_head(alloc, p, text)?;
    read_body(alloc, p, form, body)
}

/// The form of the report, and what stands behind the lines at its head.
fn behind_head<'a>(
    alloc: Global,
    p: &Presentation,
    text: &'a [u8],
) -> Result<(Form, &'a [u8]), ReportFault>
    ensures body { IfOk result (λ x. IsForm x.0 × (text.now ≡ headed_in x.0 p.now x.1.now)) }
    ensures fault { IfErr result (HeadFails p.now text.now) }
{
    let Some((first, others)) = cut(text, b'\n') else {
        return Err(ReportFault::Line { line: 1 });
    };
    if is_title(first) {
        let body = behind_presentation(alloc, p, others)?;
        return Ok((Form::Whole, body));
    }
    if is_trimmed_title(first) {
        let more = behind_presentation(alloc, p, others)?;
        let (items, body) = behind_items(more)?;
        return Ok((Form::Trimmed { items }, body));
    }
    Err(ReportFault::Line { line: 1 })
}

/// What stands behind the second line.
fn behind_presentation<'a>(
    alloc: Global,
    p: &Presentation,
    text: &'a [u8],
) -> Result<&'a [u8], ReportFault>
    ensures body { IfOk result (λ body. text.now ≡ pres_line p.now ++ 10 ∷ body.now) }
    ensures fault { IfErr result (FaultIs (IsAtSecond p.now text.now)) }
{
    let Some((second, body)) = cut(text, b'\n') else {
        return Err(ReportFault::Line { line: 2 });
    };
    if !is_pres_line(alloc, p, second)? {
        return Err(ReportFault::Line { line: 2 });
    }
    Ok(body)
}

/// The number of items that the third line of a trimmed report tells, and what stands behind that line.
fn behind_items(text: &[u8]) -> Result<(u32, &[u8]), ReportFault>
    ensures body { IfOk result (λ x. text.now ≡ items_line x.0 ++ 10 ∷ x.1.now) }
    ensures fault { IfErr result (FaultIs (IsAtThird text.now)) }
{
    let Some((third, body)) = cut(text, b'\n') else {
        return Err(ReportFault::Line { line: 3 });
    };
    let Some(items) = read_items_line(third) else {
        return Err(ReportFault::Line { line: 3 });
    };
    Ok((items, body))
}

/// What the lines behind the head say.
fn read_body(
    alloc: Global,
    p: &Presentation,
    form: Form,
    text: &[u8],
) -> Result<ReportData, ReportFault>
    ensures { AnswersBody form p.now text.now result }
{
    let mut reader = Reader::new(alloc);
    let mut number = form.first_line();
    let mut rest = text;
    while let Some((line, others)) = cut(rest, b'\n') {
        reader = match reader.take_bytes(alloc, p, form, line)? {
            Some(taken) => taken,
            None => return Err(ReportFault::Line { line: number }),
        };
        number = number.saturating_add(1);
        rest = others;
    }
    match reader.into_data(form, rest) {
        Some(data) => Ok(data),
        None => Err(ReportFault::Line { line: number }),
    }
}
