//! Runs of `save` and `load` over groups whose bases can be worked out by hand, and files that are none.

use super::{Status, ends, shelf};
use mb_io::MemShelf;
use std::alloc::{AllocError, Global};
use std::test::Fail;

const SMALL: &str = "metab basis 1
pres <a | >
entry 0 gen + : +1*a.a'@a -1*1@a
done
";

const BY_SMALL: &str = "metab report 1
pres <a | >
entry 0 gen + : +1*a.a'@a -1*1@a
seal
live 1 1 2 trivial a : not-trivial
end sealed
done
";

const DOUBLING: &str = "<a,t | t a t^-1 a^-2>";

const ASKED: &str = "equal a^2 = t a t^-1\nnormal a\ntrivial [a, t a t^-1]\n";

const ENTRIES: &str = "pres <a, t | t a t^-1 a^-2>
entry 0 gen - : +1*a@t +1*a'@a -1*t@a -1*1@t +1*1@a
entry 1 gen + : +1*a'@a -1*1@a
entry 2 gen + : +1*a'@t -1*1@t
entry 3 gen + : +1*a.a'@a -1*1@a
entry 4 gen + : +1*a.a'@t -1*1@t
entry 5 gen + : +1*t.t'@a -1*1@a
entry 6 gen + : +1*t.t'@t -1*1@t
entry 7 sum -1*a@1 +1*1@3 : +1*a@a -1*1@a
entry 8 sum -1*a'@0 +1*1@4 +1*a'@1 -1*t@1 -1*1@2 +2*1@1 : +1*t@a -2*1@a
";

const NINTH: &str = "entry 9 sum +1*1@5 -1*t'@8 : +2*t'@a -1*1@a\n";

const ANSWERS: &str = "seal
live 1 1 11 equal a^2 = t a t^-1 : trivial
proof 1 +1*a@0 -1*a@1 -1*1@7
live 1 2 11 normal a : normal +1*1@a
live 1 3 11 trivial a t a t^-1 a^-1 t a^-1 t^-1 : trivial
proof 1 -1*a@0 +1*a@1 +1*1@0 +1*1@7 -1*1@1
end sealed
done
";

/// The text of a file or report: its first line, and these pieces.
fn text(alloc: Global, title: &str, pieces: &[&str]) -> Result<String, AllocError> {
    let mut text = String::new(alloc);
    text.push_str(title)?;
    for piece in pieces {
        text.push_str(piece)?;
    }
    Ok(text)
}

fn files(alloc: Global, p: &str, basis: &str, session: &str) -> Result<MemShelf, AllocError> {
    let named: [(&str, &[u8]); 3] = [
        ("p", p.as_bytes()),
        ("b", basis.as_bytes()),
        ("s", session.as_bytes()),
    ];
    shelf(alloc, &named, &[])
}

/// Whether `load` over these texts writes this text and ends so.
fn loads(
    alloc: Global,
    p: &str,
    basis: &str,
    session: &str,
    text: &str,
    ended: Status,
) -> Result<bool, AllocError> {
    let files = files(alloc, p, basis, session)?;
    ends(alloc, &["load", "p", "b", "s"], files, text, ended)
}

#[test]
fn bases_are_saved_and_loaded(rt: HostRuntime) -> Result<(), Fail> {
    let alloc = rt.alloc();
    let line: &[&str] = &["save", "p"];
    assert!(rt;
        ends(
            alloc,
            line,
            files(alloc, "<a|>", "", "")?,
            SMALL,
            Status::Done
        )?
    );
    assert!(rt; loads(alloc, "<a|>", SMALL, "trivial a", BY_SMALL, Status::Done)?);
    let basis = text(alloc, "metab basis 1\n", &[ENTRIES, NINTH, "done\n"])?;
    let report = text(alloc, "metab report 1\n", &[ENTRIES, NINTH, ANSWERS])?;
    assert!(rt;
        ends(
            alloc,
            line,
            files(alloc, DOUBLING, "", "")?,
            &basis,
            Status::Done
        )?
    );
    assert!(rt; loads(alloc, DOUBLING, &basis, ASKED, &report, Status::Done)?);
    Ok(())
}

#[test]
fn files_that_are_no_basis_are_refused(rt: HostRuntime) -> Result<(), Fail> {
    let alloc = rt.alloc();
    let shorter = text(alloc, "metab basis 1\n", &[ENTRIES, "done\n"])?;
    let open = "fails open 5 8 S\n";
    assert!(rt; loads(alloc, DOUBLING, &shorter, ASKED, open, Status::Fails)?);
    // The basis is tested before the session is read, which has a fault too, and behind the presentation.
    assert!(rt; loads(alloc, DOUBLING, &shorter, "x", open, Status::Fails)?);
    let other = "fails line 2 text\n";
    assert!(rt; loads(alloc, DOUBLING, SMALL, ASKED, other, Status::Fails)?);
    let refused = "refused p line 1 column 3 expected\n";
    assert!(rt; loads(alloc, "<a", SMALL, ASKED, refused, Status::TextRefused)?);
    let refused = "refused s line 1 column 1 expected\n";
    assert!(rt; loads(alloc, "<a|>", SMALL, "x", refused, Status::TextRefused)?);
    Ok(())
}

const ONE_MORE: &str = "pres <a | >
entry 0 gen + : +1*a.a'@a -1*1@a
entry 1 sum +1*a@0 : +1*a^2.a'@a -1*a@a
";

// The S task of its last two entries doubles the greatest power of 2 in range.
const LARGE: &str = "pres <a | >
entry 0 gen + : +1*a.a'@a -1*1@a
entry 1 sum +3*a@0 +85070591730234615865843651857942052864*1@0 : \
+3*a^2.a'@a +85070591730234615865843651857942052864*a.a'@a -3*a@a -85070591730234615865843651857942052864*1@a
entry 2 sum +2*a@0 : +2*a^2.a'@a -2*a@a
";

#[test]
fn whoever_wrote_a_file(rt: HostRuntime) -> Result<(), Fail> {
    let alloc = rt.alloc();
    // No completion appends an entry whose lead is divided by another's; the list is strong all the same.
    let basis = text(alloc, "metab basis 1\n", &[ONE_MORE, "done\n"])?;
    let end = "seal\nlive 1 1 3 trivial a : not-trivial\nend sealed\ndone\n";
    let report = text(alloc, "metab report 1\n", &[ONE_MORE, end])?;
    assert!(rt; loads(alloc, "<a|>", &basis, "trivial a", &report, Status::Done)?);
    let basis = text(alloc, "metab basis 1\n", &[LARGE, "done\n"])?;
    let stop = "fails stop 1 2 S wide 0 a.a'@a\n";
    assert!(rt; loads(alloc, "<a|>", &basis, "trivial a", stop, Status::Fails)?);
    Ok(())
}
