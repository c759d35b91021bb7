//! Writing a basis.

ghost use Rattle.std.specs.List.{AllByRecursion};
ghost use Rattle.std.specs.Prelude.{ℕ, ◌++◌, ◌∷◌, [], length};
ghost use Rattle.report_lines.specs.declared.lines.Line.TheVariants as lines;
ghost use Rattle.report_lines.specs.Texts.{pres_line, line_text, lines_text};
ghost use Rattle.report_text.specs.Histories.{entry_lines, made_by};
ghost use Rattle.report_text.specs.Reports.{IsRecord, EntryIsOver};
ghost use Rattle.saved_basis.specs.Files.{title, basis_text};
ghost use Rattle.saved_basis.specs.Writing.{Puts, Counts};

use crate::WriteFault;
use basis_entry::{Entry, Front, Items, Recipe, Sealed};
use mb_io::{Sink, write_all};
use module_vec::VecList;
use presentation::{Presentation, write_presentation};
use report_lines::{put_generator, put_sum};
use std::alloc::Global;

/// Writes the basis file of the seal, line by line. Where the sink tells its bytes, `Ok` has appended that file, and a
/// refusal a front of it. The entries are those of the generators, and then sums of multiples of entries before.
///
/// `Failed` comes only where the sink has counted a failure.
pub fn write_basis<K: Sink>(alloc: Global, s: &Sealed, out: &mut K) -> Result<(), WriteFault>
    requires { (base : ℕ) × IsRecord s.now.source base s.now.entries }
    ensures text { Puts (K.taken out.old) (basis_text s.now.source s.now.entries) result (K.taken out.new) }
    ensures counts { Counts (K.faults out.old) result (K.faults out.new) }
{
    s.known();
    let p = s.presentation();
    put_head(alloc, p, out)?;
    put_entries(alloc, p, &Items::of_seal(s), out)?;
    let last = Vec::from_slice(alloc, b"done")?;
    put_with_end(last, out)
}

/// Writes the two lines at the head.
fn put_head<K: Sink>(alloc: Global, p: &Presentation, out: &mut K) -> Result<(), WriteFault>
    ensures text { Puts (K.taken out.old) ((title ++ 10 ∷ []) ++ (pres_line p.now ++ 10 ∷ [])) result
        (K.taken out.new) }
    ensures counts { Counts (K.faults out.old) result (K.faults out.new) }
{
    let first = Vec::from_slice(alloc, b"metab basis 1")?;
    put_with_end(first, out)?;
    let mut line = Vec::from_slice(alloc, b"pres ")?;
    line.extend_from_slice(&write_presentation(alloc, p)?)?;
    put_with_end(line, out)
}

/// Writes the lines of the entries.
fn put_entries<K: Sink>(
    alloc: Global,
    p: &Presentation,
    items: &Items<'_>,
    out: &mut K,
) -> Result<(), WriteFault>
    requires { AllByRecursion (EntryIsOver (length p.now.names)) items.now.entries }
    ensures text { Puts (K.taken out.old) (lines_text p.now (entry_lines 0 items.now.entries)) result
        (K.taken out.new) }
    ensures counts { Counts (K.faults out.old) result (K.faults out.new) }
{
    for number in 0..items.count() {
        put_entry(alloc, p, number, items.entry(number), out)?;
    }
    Ok(())
}

/// Writes the line of an entry.
fn put_entry<K: Sink>(
    alloc: Global,
    p: &Presentation,
    number: u32,
    entry: &Entry,
    out: &mut K,
) -> Result<(), WriteFault>
    requires { EntryIsOver (length p.now.names) entry.now }
    ensures text { Puts (K.taken out.old) (line_text p.now (lines.Entry number (made_by entry.now.recipe)
        entry.now.vector) ++ 10 ∷ []) result (K.taken out.new) }
    ensures counts { Counts (K.faults out.old) result (K.faults out.new) }
{
    let mut line = Vec::new(alloc);
    match entry.recipe() {
        Recipe::Gen { negated, .. } => {
            put_generator(&mut line, p, number, *negated, entry.vector())?
        }
        Recipe::Sum { steps } => put_sum(&mut line, p, number, steps, entry.vector())?,
    }
    put_with_end(line, out)
}

/// Writes the line with its end, as one piece.
fn put_with_end<K: Sink>(line: Vec<u8>, out: &mut K) -> Result<(), WriteFault>
    ensures text { Puts (K.taken out.old) (line.items ++ 10 ∷ []) result (K.taken out.new) }
    ensures counts { Counts (K.faults out.old) result (K.faults out.new) }
{
    let mut line = line;
    line.push(b'\n')?;
    write_all(out, &line)?;
    Ok(())
}
