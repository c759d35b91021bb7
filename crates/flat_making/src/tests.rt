//! Certificates worked out by hand.

ghost use Rattle.std.specs.Prelude.{IsTrue, IfSome};
ghost use Rattle.flat_making.specs.Checked.{IsChecked};
ghost use Rattle.flat_making.specs.Making.{NameBelow};

use crate::flatten;
use crate::laws::accepted_reports_hold;
use cert_checker::check;
use flat_cert::{FlatFault, write_flat};
use mb_io::MemSink;
use module_vec::Step;
use presentation::{Presentation, read_presentation};
use report_reading::{ReportData, read_report};
use std::alloc::Global;
use std::rt::HostRuntime;
use step_text::read_steps;

const SOLITAR: &str = "metab report 1
pres <a, t | t a t^-1 a^-2>
entry 0 gen - : +1*a@t +1*a'@a -1*t@a -1*1@t +1*1@a
entry 1 gen + : +1*a'@a -1*1@a
entry 2 gen + : +1*a'@t -1*1@t
entry 3 gen + : +1*a.a'@a -1*1@a
entry 4 gen + : +1*a.a'@t -1*1@t
entry 5 gen + : +1*t.t'@a -1*1@a
entry 6 gen + : +1*t.t'@t -1*1@t
entry 7 sum -1*a@1 +1*1@3 : +1*a@a -1*1@a
entry 8 sum -1*a'@0 +1*1@4 +1*a'@1 -1*t@1 -1*1@2 +2*1@1 : +1*t@a -2*1@a
entry 9 sum +1*1@5 -1*t'@8 : +2*t'@a -1*1@a
seal
end sealed
done
";

const MODULUS: &str = "metab report 1
pres <a, b | > modulus 2
entry 0 gen + : +1*a.a'@a -1*1@a
entry 1 gen + : +1*a.a'@b -1*1@b
entry 2 gen + : +1*b.b'@a -1*1@a
entry 3 gen + : +1*b.b'@b -1*1@b
entry 4 gen + : +2*1@a
entry 5 gen + : +2*1@b
seal
end sealed
done
";

/// Relators whose Fox vector is zero, and whose exponent sums are.
const ZEROS: &str = "metab report 1
pres <a, b | 1, a b a^-1 b^-1, a^2>
entry 0 gen + : +1*a@b -1*b@a -1*1@b +1*1@a
entry 1 gen + : +1*a@a +1*1@a
entry 2 gen + : +1*a^2@a -1*1@a
entry 3 gen + : +1*a^2@b -1*1@b
entry 4 gen + : +1*a.a'@a -1*1@a
entry 5 gen + : +1*a.a'@b -1*1@b
entry 6 gen + : +1*b.b'@a -1*1@a
entry 7 gen + : +1*b.b'@b -1*1@b
seal
end sealed
done
";

/// The text of the certificate, `beyond`, or nothing where memory runs out.
fn certificate(alloc: Global, p: &str, report: &str, proof: &str) -> Option<String> {
    let p = read_presentation(alloc, p.as_bytes()).ok()?;
    let report = accepted(alloc, &p, report.as_bytes())?;
    let proof = read_steps(alloc, &p, proof.as_bytes()).ok()?;
    let entries = report.entries.entries();
    if !all_named(proof.steps(), entries.len()) {
        return None;
    }
    let list = match flatten(alloc, &p, entries, proof.steps()) {
        Ok(list) => list,
        Err(FlatFault::Beyond) => return String::from_str(alloc, "beyond").ok(),
        Err(FlatFault::NoMemory) => return None,
    };
    let mut sink = MemSink::new(alloc, 1000, Vec::new(alloc)).ok()?;
    write_flat(alloc, &p, &list, &mut sink).ok()?;
    String::from_utf8(Vec::from_slice(alloc, sink.taken()).ok()?).ok()
}

/// What is read of the report, where the checker accepts it.
fn accepted(alloc: Global, p: &Presentation, report: &[u8]) -> Option<ReportData>
    ensures { IfSome result (IsChecked p.now) }
{
    p.known();
    let Ok(_checked) = check(alloc, p, report) else {
        return None;
    };
    let Ok(data) = read_report(alloc, p, report) else {
        return None;
    };
    accepted_reports_hold();
    Some(data)
}

/// Whether the steps name entries below the front.
fn all_named(steps: &[Step], front: usize) -> bool
    ensures { IsTrue result → NameBelow front steps.now }
{
    for step in steps {
        if step.by as usize >= front {
            return false;
        }
    }
    true
}

#[test]
fn proofs_are_flattened(rt: HostRuntime) {
    let alloc = rt.alloc();
    let solitar = "<a, t | t a t^-1 a^-2>";
    let zeros = "<a, b | 1, a b a^-1 b^-1, a^2>";
    for (p, report, proof, want) in [
        (
            solitar,
            SOLITAR,
            "+1*a@0 -1*a@1 -1*1@7",
            "metab flat 1\n-1*a rel 1\ndone\n",
        ),
        (
            solitar,
            SOLITAR,
            "-1*a@0 +1*a@1 +1*1@0 +1*1@7 -1*1@1",
            "metab flat 1\n+1*a rel 1\n-1*1 rel 1\n-1*1 bin 1 a\ndone\n",
        ),
        (solitar, SOLITAR, "+1*a^60000@7", "beyond"),
        (
            "<a, b | > modulus 2",
            MODULUS,
            "+1*a@5 -1*b@4 -1*1@5 +1*1@4",
            "metab flat 1\n-1*b mod a\n+1*1 mod a\n+1*a mod b\n-1*1 mod b\ndone\n",
        ),
        (
            zeros,
            ZEROS,
            "+2*a@0 -1*b.b'@1 +3*a'@3 +1*1@1 +5*b@4 -3*a'@2",
            "metab flat 1\n+2*a rel 2\n-3*a' bin 3 a\n+3*a' bin 3 b\ndone\n",
        ),
    ] {
        let got = certificate(alloc, p, report, proof);
        assert!(rt; got.is_some_and(|text| text.as_str() == want), "{proof}");
    }
}
