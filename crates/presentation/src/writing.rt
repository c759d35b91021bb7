//! The one form in which words and presentations are written.

ghost use Rattle.std.specs.Prelude.{◌≡◌, ◌<◌, ◌≤◌, ◌++◌, length, map, string_bytes, decimal, codes, Ok, IfOk, OnOk};
ghost use Rattle.std.specs.List.{AllByRecursion};
ghost use Rattle.free_words.specs.Words.{IsOver};
ghost use Rattle.word_text.specs.Machine.{finding};
ghost use Rattle.word_text.specs.Place.{word_text};
ghost use Rattle.presentation.specs.Presented.{IsWritten};
ghost use Rattle.presentation.specs.Reading.{presentation_text};
ghost use Rattle.presentation.specs.Writing.{runs, AreOver, joined, led_by, written_exponent, written_run};
ghost use Rattle.presentation.specs.Writing.{written_word, written_modulus, written_presentation};

use crate::presentation::Presentation;
use crate::runs::{Run, first_run};
use free_words::{Letter, WRITTEN, Word};
use itoa::Buffer;
use std::alloc::{AllocError, Global};

/// The word as its runs of equal letters with spaces between them: `a` for one letter, `a^2` for two, `a^-1` and `a^-3`
/// for inverse ones. The empty word is `1`.
#[tactic(auto, using(crate::proofs::WritingBack::word_read_back))]
pub fn write_word(alloc: Global, p: &Presentation, w: &Word) -> Result<Vec<u8>, AllocError>
    requires { IsOver (length p.now.names) w.now }
    ensures text { IfOk result (λ v. v.items ≡ written_word p.now.names w.now) }
    ensures read_back { length w.now ≤ WRITTEN → IfOk result (λ v. word_text (finding p.now.names) v.items ≡ Ok w.now) }
{
    p.known();
    let mut out = Vec::new(alloc);
    append_word(&mut out, p, w.letters())?;
    Ok(out)
}

/// The presentation as `<a, b | a b a^-1 b^-1>`, with ` modulus ` and the number behind it where there is a modulus.
/// With no relators it is `<a, b | >`.
#[tactic(auto, using(crate::proofs::WritingWhole::presentation_read))]
pub fn write_presentation(alloc: Global, p: &Presentation) -> Result<Vec<u8>, AllocError>
    ensures text { IfOk result (λ v. v.items ≡ written_presentation p.now) }
    ensures read_back { IfOk result (λ v. presentation_text v.items ≡ Ok p.now) }
{
    p.known();
    let mut out = Vec::new(alloc);
    out.extend_from_slice(b"<")?;
    append_names(&mut out, p.names())?;
    out.extend_from_slice(b" | ")?;
    append_relators(&mut out, p, p.relators())?;
    out.extend_from_slice(b">")?;
    append_modulus(&mut out, p.modulus())?;
    Ok(out)
}

fn append_number(out: &mut Vec<u8>, n: usize) -> Result<(), AllocError>
    ensures { OnOk result (out.new.items ≡ out.old.items ++ decimal n) }
{
    let mut buffer = Buffer::new();
    out.extend_from_slice(buffer.format(n).as_bytes())
}

fn append_exponent(out: &mut Vec<u8>, inverse: bool, count: usize) -> Result<(), AllocError>
    ensures { OnOk result (out.new.items ≡ out.old.items ++ written_exponent inverse count) }
{
    if inverse {
        out.extend_from_slice(b"^-")?;
        return append_number(out, count);
    }
    if count == 1 {
        return Ok(());
    }
    out.extend_from_slice(b"^")?;
    append_number(out, count)
}

fn append_run(out: &mut Vec<u8>, p: &Presentation, run: Run) -> Result<(), AllocError>
    requires { run.letter.g < length p.now.names }
    ensures { OnOk result (out.new.items ≡ out.old.items ++ written_run p.now.names run) }
{
    out.extend_from_slice(p.name(run.letter.g).as_bytes())?;
    append_exponent(out, run.letter.inv, run.count)
}

#[tactic(auto, using(crate::proofs::WritingRuns::over_taken))]
fn append_word(out: &mut Vec<u8>, p: &Presentation, letters: &[Letter]) -> Result<(), AllocError>
    requires { IsOver (length p.now.names) letters.now }
    ensures { OnOk result (out.new.items ≡ out.old.items ++ written_word p.now.names letters.now) }
{
    let Some((run, after)) = first_run(letters) else {
        return out.extend_from_slice(b"1");
    };
    append_run(out, p, run)?;
    append_more(out, p, after)
}

/// The runs of these letters, each with a space before it.
fn append_more(out: &mut Vec<u8>, p: &Presentation, letters: &[Letter]) -> Result<(), AllocError>
    requires { AreOver (length p.now.names) (runs letters.now) }
    ensures { OnOk result (out.new.items ≡ out.old.items ++ led_by (codes " ")
        (map (written_run p.now.names) (runs letters.now))) }
{
    let mut rest = letters;
    while let Some((run, after)) = first_run(rest) {
        out.extend_from_slice(b" ")?;
        append_run(out, p, run)?;
        rest = after;
    }
    Ok(())
}

fn append_names(out: &mut Vec<u8>, names: &[String]) -> Result<(), AllocError>
    ensures { OnOk result (out.new.items ≡ out.old.items ++ joined (codes ", ") (map string_bytes names.now)) }
{
    let Some((first, others)) = names.split_first() else {
        return Ok(());
    };
    out.extend_from_slice(first.as_bytes())?;
    for name in others {
        out.extend_from_slice(b", ")?;
        out.extend_from_slice(name.as_bytes())?;
    }
    Ok(())
}

fn append_relators(out: &mut Vec<u8>, p: &Presentation, relators: &[Word]) -> Result<(), AllocError>
    requires { AllByRecursion (IsWritten (length p.now.names)) relators.now }
    ensures { OnOk result (out.new.items ≡ out.old.items ++ joined (codes ", ")
        (map (written_word p.now.names) relators.now)) }
{
    let Some((first, others)) = relators.split_first() else {
        return Ok(());
    };
    append_word(out, p, first.letters())?;
    for relator in others {
        out.extend_from_slice(b", ")?;
        append_word(out, p, relator.letters())?;
    }
    Ok(())
}

fn append_modulus(out: &mut Vec<u8>, modulus: u32) -> Result<(), AllocError>
    ensures { OnOk result (out.new.items ≡ out.old.items ++ written_modulus modulus) }
{
    if modulus == 0 {
        return Ok(());
    }
    out.extend_from_slice(b" modulus ")?;
    append_number(out, modulus as usize)
}

#[cfg(test)]
mod tests;
