//! Runs of `replay` over a group whose entries can be worked out by hand, and what is wrong with schedules.

use super::{Status, ends, run, shelf, sink};
use mb_io::MemShelf;
use std::alloc::{AllocError, Global};
use std::test::Fail;

const PRESENTATION: &str = "<a,b | [a,b]^2, [a,b]^3>";

const QUESTIONS: &str = "trivial [a,b]\ntrivial [a,b]\ntrivial [a,b]\n";

const BASE: &str = "metab report 1
pres <a, b | a b a^-1 b^-1 a b a^-1 b^-1, a b a^-1 b^-1 a b a^-1 b^-1 a b a^-1 b^-1>
entry 0 gen + : +2*a@b -2*b@a -2*1@b +2*1@a
entry 1 gen + : +3*a@b -3*b@a -3*1@b +3*1@a
entry 2 gen + : +1*a.a'@a -1*1@a
entry 3 gen + : +1*a.a'@b -1*1@b
entry 4 gen + : +1*b.b'@a -1*1@a
entry 5 gen + : +1*b.b'@b -1*1@b
";

// It comes of the G-vector of the first two entries, whose S-vector is empty.
const SIXTH: &str = "entry 6 sum +2*1@0 -1*1@1 : +1*a@b -1*b@a -1*1@b +1*1@a\n";

const OTHERS: &str = "entry 7 sum -1*a'@0 +2*1@3 : +2*a'.b@a +2*a'@b -2*a'@a -2*1@b
entry 8 sum +1*a'@1 -3*1@3 +2*1@7 : +1*a'.b@a +1*a'@b -1*a'@a -1*1@b
entry 9 sum -2*a'@4 +1*b'@7 : +2*a'.b'@b -2*a'.b'@a +2*a'@a -2*b'@b
entry 10 sum +1*a'@4 -1*b'@8 +1*1@9 : +1*a'.b'@b -1*a'.b'@a +1*a'@a -1*b'@b
seal
";

const UNKNOWN: &str = "live 1 1 6 trivial a b a^-1 b^-1 : unknown 1
live 1 2 6 trivial a b a^-1 b^-1 : unknown 1
";

const CLOSED: &str = "end sealed
close 1 1 trivial a b a^-1 b^-1 : trivial
proof 1 +1*1@6
close 1 2 trivial a b a^-1 b^-1 : trivial
proof 1 +1*1@6
done
";

const ALL_AT_12: &str = "live 1 1 12 trivial a b a^-1 b^-1 : trivial
proof 1 +1*1@6
live 1 2 12 trivial a b a^-1 b^-1 : trivial
proof 1 +1*1@6
live 1 3 12 trivial a b a^-1 b^-1 : trivial
proof 1 +1*1@6
end sealed
done
";

const FIRST_AT_7: &str = "live 1 1 7 trivial a b a^-1 b^-1 : trivial\nproof 1 +1*1@6\n";

const OTHERS_AT_12: &str = "live 1 2 12 trivial a b a^-1 b^-1 : trivial
proof 1 +1*1@6
live 1 3 12 trivial a b a^-1 b^-1 : trivial
proof 1 +1*1@6
end sealed
done
";

const THIRD_AT_7: &str = "live 1 3 7 trivial a b a^-1 b^-1 : trivial\nproof 1 +1*1@6\n";

const SPENT_AT_7: &str = "live 1 1 7 trivial a b a^-1 b^-1 : trivial
proof 1 +1*1@6
live 1 2 7 trivial a b a^-1 b^-1 : trivial
proof 1 +1*1@6
live 1 3 7 trivial a b a^-1 b^-1 : trivial
proof 1 +1*1@6
end spent 1 0 1 S
done
";

fn files(alloc: Global, p: &str, schedule: &str, session: &str) -> Result<MemShelf, AllocError> {
    let named: [(&str, &[u8]); 3] = [
        ("p", p.as_bytes()),
        ("h", schedule.as_bytes()),
        ("s", session.as_bytes()),
    ];
    shelf(alloc, &named, &[])
}

// Whether `replay` of the schedule over that group, with these further words, writes these pieces and ends so.
fn replays(
    alloc: Global,
    line: &[&str],
    schedule: &str,
    pieces: &[&str],
    ended: Status,
) -> Result<bool, AllocError> {
    let mut text = String::new(alloc);
    for piece in pieces {
        text.push_str(piece)?;
    }
    let files = files(alloc, PRESENTATION, schedule, QUESTIONS)?;
    ends(alloc, line, files, &text, ended)
}

#[test]
fn questions_come_between(rt: HostRuntime) -> Result<(), Fail> {
    let alloc = rt.alloc();
    let line: &[&str] = &["replay", "p", "h", "s"];
    let between: &[&str] = &[BASE, UNKNOWN, SIXTH, THIRD_AT_7, OTHERS, CLOSED];
    let behind: &[&str] = &[BASE, SIXTH, FIRST_AT_7, OTHERS, OTHERS_AT_12];
    let at_the_end: &[&str] = &[BASE, SIXTH, OTHERS, ALL_AT_12];
    for (schedule, pieces) in [
        ("s1 w1 s1 w1 s1", between),
        ("w1 w2 w1 w2 s1", behind),
        ("w1 w2 w3 w1 w3 w3", at_the_end),
        (" \r\n", at_the_end),
    ] {
        assert!(rt;
            replays(alloc, line, schedule, pieces, Status::Done)?,
            "{schedule}"
        );
    }
    let line: &[&str] = &["replay", "--budget=1", "p", "h", "s"];
    let pieces: &[&str] = &[BASE, SIXTH, SPENT_AT_7];
    assert!(rt; replays(alloc, line, "w1 w2 w3 w1 w3", pieces, Status::Open)?);
    Ok(())
}

#[test]
fn what_is_wrong_with_a_schedule_is_told(rt: HostRuntime) -> Result<(), Fail> {
    let alloc = rt.alloc();
    let line: &[&str] = &["replay", "p", "h", "s"];
    for (schedule, text) in [
        ("s2", "refused h line 1 column 1 no-session\n"),
        ("w01", "refused h line 1 column 1 expected\n"),
        ("w1\n w17 s2", "refused h line 2 column 2 expected\n"),
    ] {
        assert!(rt;
            replays(alloc, line, schedule, &[text], Status::TextRefused)?,
            "{schedule}"
        );
    }
    // The schedule is read before the session, which has a fault too.
    let shelf = files(alloc, "<a|>", "x", "normal b")?;
    let text = "refused h line 1 column 1 expected\n";
    assert!(rt; ends(alloc, line, shelf, text, Status::TextRefused)?);
    let shelf = files(alloc, "<a|>", "", "")?;
    assert!(rt;
        ends(
            alloc,
            &["replay", "p", "h"],
            shelf,
            "refused words\n",
            Status::WordsRefused
        )?
    );
    Ok(())
}

// A coefficient leaves the range by the first entries, and not by the last ones.
#[test]
fn a_stop_that_is_answered_at_the_end_is_settled(rt: HostRuntime) -> Result<(), Fail> {
    let alloc = rt.alloc();
    let p = "<a,b | a [a,b]^2 a^-1 [a,b]^-16, [a,b]^3>";
    let shelf = files(alloc, p, "s1", "trivial a^45 [a,b]^2 a^-45 [a,b]^-2")?;
    let line: &[&str] = &["replay", "p", "h", "s"];
    let (status, out) = run(alloc, line, shelf, sink(alloc, &[])?)?;
    let stop = b" : stop 1 wide 42 a^4@b\n";
    assert!(rt;
        out.taken()
            .windows(stop.len())
            .any(|part| part == stop.as_slice())
    );
    assert!(rt; out.taken().ends_with(b" : not-trivial\ndone\n"));
    assert!(rt; status == Status::Done);
    Ok(())
}
