//! Writing a certificate.

ghost use Rattle.std.specs.Prelude.{◌++◌, ◌∷◌, []};
ghost use Rattle.flat_cert.specs.Certificates.{IsFlat, AreFlat};
ghost use Rattle.flat_cert.specs.Texts.{line_text, lines_text, certificate_text};
ghost use Rattle.flat_cert.specs.Writing.{Puts, Counts};

use crate::line_text::put_line;
use crate::{Flat, WriteFault};
use mb_io::{Sink, write_all};
use presentation::Presentation;
use std::alloc::Global;

/// Writes the text of the certificate, line by line. Where the sink tells its bytes, `Ok` has appended that text, and a
/// refusal a front of it.
///
/// `Failed` comes only where the sink has counted a failure.
pub fn write_flat<K: Sink>(
    alloc: Global,
    p: &Presentation,
    list: &[Flat],
    out: &mut K,
) -> Result<(), WriteFault>
    requires { AreFlat p.now list.now }
    ensures text { Puts (K.taken out.old) (certificate_text p.now.names list.now) result (K.taken out.new) }
    ensures counts { Counts (K.faults out.old) result (K.faults out.new) }
{
    let first = Vec::from_slice(alloc, b"metab flat 1")?;
    put_with_end(first, out)?;
    put_lines(alloc, p, list, out)?;
    let last = Vec::from_slice(alloc, b"done")?;
    put_with_end(last, out)
}

/// Writes the lines, each with its end.
fn put_lines<K: Sink>(
    alloc: Global,
    p: &Presentation,
    list: &[Flat],
    out: &mut K,
) -> Result<(), WriteFault>
    requires { AreFlat p.now list.now }
    ensures text { Puts (K.taken out.old) (lines_text p.now.names list.now) result (K.taken out.new) }
    ensures counts { Counts (K.faults out.old) result (K.faults out.new) }
{
    for line in list {
        put_flat(alloc, p, line, out)?;
    }
    Ok(())
}

/// Writes one line with its end.
fn put_flat<K: Sink>(
    alloc: Global,
    p: &Presentation,
    line: &Flat,
    out: &mut K,
) -> Result<(), WriteFault>
    requires { IsFlat p.now line.now }
    ensures text { Puts (K.taken out.old) (line_text p.now.names line.now ++ 10 ∷ []) result (K.taken out.new) }
    ensures counts { Counts (K.faults out.old) result (K.faults out.new) }
{
    let mut text = Vec::new(alloc);
    put_line(&mut text, p, line)?;
    put_with_end(text, out)
}

/// Writes the text of a line with its end, as one piece.
fn put_with_end<K: Sink>(line: Vec<u8>, out: &mut K) -> Result<(), WriteFault>
    ensures text { Puts (K.taken out.old) (line.items ++ 10 ∷ []) result (K.taken out.new) }
    ensures counts { Counts (K.faults out.old) result (K.faults out.new) }
{
    let mut line = line;
    line.push(b'\n')?;
    write_all(out, &line)?;
    Ok(())
}
