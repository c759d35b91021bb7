//! Checking a whole text.

ghost use Rattle.std.specs.Prelude.{length, IfOk, IfErr};
ghost use Rattle.cert_checker.specs.Faults.{OfLine, FaultIsOver};
ghost use Rattle.cert_checker.specs.Texts.{Answers};
ghost use Rattle.cert_checker.specs.Truth.{IsTrueReport};

use crate::checker::Checker;
use crate::faults::LineFault;
use crate::{CertFault, CertKind, Checked};
use fox_calculus::generators;
use presentation::Presentation;
use spelling::cut;
use std::alloc::Global;

/// Whether the text is a report over the presentation each of whose entries and proofs holds, and how many of them
/// there are; or else the first line that fails, and why.
///
/// An entry is a generator of the presentation's module, or its negative, or the sum of multiples of earlier entries; a
/// proof takes multiples of entries from the Fox vector of a subject until nothing is left. So each entry lies in the
/// module, and by the theorem of Magnus (1939) each word that is answered `trivial` is trivial, and each map that is
/// answered `extends` extends. Other verdicts aren't tested.
pub fn check(alloc: Global, p: &Presentation, text: &[u8]) -> Result<Checked, CertFault>
    ensures exact { Answers p.now text.now result }
    ensures sound { IfOk result (λ _. IsTrueReport p.now text.now) }
    // A place that is named is over the presentation's generators, so it can be written.
    ensures over { IfErr result (FaultIsOver (length p.now.names)) }
{
    p.known();
    checked(alloc, p, text)
}

/// The same, without what follows from it.
fn checked(alloc: Global, p: &Presentation, text: &[u8]) -> Result<Checked, CertFault>
    ensures { Answers p.now text.now result }
{
    let generators = generators(alloc, p)?;
    let mut checker = Checker::new(alloc);
    let mut number = 1u32;
    let mut rest = text;
    while let Some((line, others)) = cut(rest, b'\n') {
        checker = match checker.take_bytes(alloc, p, &generators, line) {
            Ok(taken) => taken,
            Err(fault) => return Err(of_line(number, fault)),
        };
        number = number.saturating_add(1);
        rest = others;
    }
    if !checker.is_complete(rest) {
        return Err(CertFault::Line {
            line: number,
            kind: CertKind::Text,
        });
    }
    Ok(checker.counts())
}

/// The fault of the line with this number.
fn of_line(line: u32, fault: LineFault) -> CertFault
    ensures { OfLine line fault result }
{
    match fault {
        LineFault::Fails(kind) => CertFault::Line { line, kind },
        LineFault::NoMemory => CertFault::NoMemory,
    }
}
