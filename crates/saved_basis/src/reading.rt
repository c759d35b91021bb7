//! Reading a file.

ghost use Rattle.std.specs.Prelude.{◌≡◌, ◌≢◌, ◌+◌, ◌++◌, ◌∷◌, [], length, map, IfOk, IfErr, MatchResult};
ghost use Rattle.std.specs.Arc.{arc_value};
ghost use Rattle.report_lines.specs.Texts.{pres_line};
ghost use Rattle.saved_basis.specs.declared.faults.LineKind.TheVariants.{Text};
ghost use Rattle.saved_basis.specs.declared.faults.BasisFault.TheVariants.{Line};
ghost use Rattle.saved_basis.specs.Faults.{of_line};
ghost use Rattle.saved_basis.specs.Files.{title};
ghost use Rattle.saved_basis.specs.Reading.{IsFileOf, TellsLine, HeadFails, ReadsBasis, FaultIsOver};

use crate::faults::LineFault;
use crate::heads::is_title;
use crate::reader::Reader;
use crate::tasks::test_tasks;
use crate::{BasisFault, LineKind};
use basis_entry::{Entry, Items, Sealed};
use presentation::Presentation;
use reducer_index::{Index, Indexed};
use report_lines::is_pres_line;
use spelling::cut;
use std::alloc::Global;
use std::sync::Arc;

/// The seal of the presentation whose basis file this text is.
///
/// Every line is tested first: an entry has to be a generator with its sign, in their order, or the sum of its steps
/// over entries before, with a positive lead coefficient, and all of them within the limits. Then the tasks of the list
/// are tested in their order: each that isn't closed from the start has to add nothing to it. So the list is a strong
/// basis, whoever wrote the file.
pub fn read_basis(alloc: Global, p: &Arc<Presentation>, text: &[u8]) -> Result<Sealed, BasisFault>
    ensures exact { ReadsBasis (arc_value p.now) text.now result }
    // A place that is named is over the presentation's generators, so it can be written.
    ensures over { IfErr result (FaultIsOver (length (arc_value p.now).names)) }
{
    p.known();
    let entries = read_entries(alloc, p, text)?;
    let items = Items::of(&entries, None);
    let index = Index::of_list(alloc, &items)?;
    test_tasks(alloc, &Indexed::over(&items, &index))?;
    Ok(Sealed::make(alloc, p, &entries)?)
}

/// The entries of the file, of which every line can stand.
fn read_entries(
    alloc: Global,
    p: &Arc<Presentation>,
    text: &[u8],
) -> Result<Vec<Arc<Entry>>, BasisFault>
    ensures { MatchResult result (λ es. IsFileOf (arc_value p.now) text.now (map arc_value es.items))
        (TellsLine (arc_value p.now) text.now) }
{
    p.known();
    let mut reader = Reader::new(alloc, p)?;
    let mut rest = behind_head(alloc, p, text)?;
    while let Some((line, others)) = cut(rest, b'\n') {
        if reader.is_last(line) {
            return ended(reader, others);
        }
        let number = reader.line();
        reader = match reader.take(alloc, line) {
            Ok(taken) => taken,
            Err(fault) => return Err(of_line(number, fault)),
        };
        rest = others;
    }
    Err(no_text(reader.line()))
}

/// What stands behind the two lines at the head.
fn behind_head<'t>(alloc: Global, p: &Presentation, text: &'t [u8]) -> Result<&'t [u8], BasisFault>
    ensures body { IfOk result (λ body. text.now ≡ title ++ 10 ∷ (pres_line p.now ++ 10 ∷ body.now)) }
    ensures fault { IfErr result (HeadFails p.now text.now) }
{
    let Some((first, others)) = cut(text, b'\n') else {
        return Err(no_text(1));
    };
    if !is_title(first) {
        return Err(no_text(1));
    }
    let Some((second, body)) = cut(others, b'\n') else {
        return Err(no_text(2));
    };
    if !is_pres_line(alloc, p, second)? {
        return Err(no_text(2));
    }
    Ok(body)
}

/// The entries that were read, where nothing stands behind the last line.
fn ended(reader: Reader<'_>, behind: &[u8]) -> Result<Vec<Arc<Entry>>, BasisFault>
    ensures { MatchResult result (λ es. (behind.now ≡ []) × (map arc_value es.items ≡ reader.entry.entries))
        (λ fault. (behind.now ≢ []) × (fault ≡ Line (length reader.entry.entries + 4) Text)) }
{
    if !behind.is_empty() {
        return Err(no_text(reader.line() + 1));
    }
    Ok(reader.into_entries())
}

/// The line with this number can't stand there.
fn no_text(line: u32) -> BasisFault
    ensures { result ≡ Line line Text }
{
    BasisFault::Line {
        line,
        kind: LineKind::Text,
    }
}

/// The fault of the line with this number.
fn of_line(line: u32, fault: LineFault) -> BasisFault
    ensures { result ≡ of_line line fault }
{
    match fault {
        LineFault::Fails(kind) => BasisFault::Line { line, kind },
        LineFault::NoMemory => BasisFault::NoMemory,
    }
}
