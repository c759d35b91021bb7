//! Runs of `flat` and `sum`: certificates that can be worked out by hand, and what is wrong with others.

use super::{Row, SOLVED, Status, first_other};
use std::test::Fail;

const SOLITAR: &str = "<a,t | t a t^-1 a^-2>";

// Text with two live answers, of which the second leaves its question open until the end.
const CLOSED_LATER: &str = "metab report 1
pres <a, b | a b a^-1 b^-1>
entry 0 gen + : +1*a@b -1*b@a -1*1@b +1*1@a
entry 1 gen + : +1*a.a'@a -1*1@a
entry 2 gen + : +1*a.a'@b -1*1@b
entry 3 gen + : +1*b.b'@a -1*1@a
entry 4 gen + : +1*b.b'@b -1*1@b
live 1 1 5 trivial a b a^-1 b^-1 : trivial
proof 1 +1*1@0
live 1 2 5 trivial b a b^-1 a^-1 : unknown 1
live 2 1 5 hom <s | 1, s s^-1> -> a : extends
proof 1 0
proof 2 0
end spent 0 0 2 S
close 1 2 trivial b a b^-1 a^-1 : trivial
proof 1 -1*1@0
done
";

// The trimming of a report of the same presentation, without its unused entries.
const TRIMMED: &str = "metab report 2
pres <a, b | a b a^-1 b^-1>
items 5
entry 0 from 0 gen + : +1*a@b -1*b@a -1*1@b +1*1@a
live 1 1 5 trivial a b a^-1 b^-1 : trivial
proof 1 +1*1@0
end spent 0 0 2 S
done
";

const UNREAD: &str = "metab report 1
pres <a, b | a b a^-1 b^-1>
entry 0 gen - : +1*a@b -1*b@a -1*1@b +1*1@a
live 1 2 1 trivial a b a^-1 b^-1 : trivial
";

const FALSE: &str = "metab report 1
pres <a, b | a b a^-1 b^-1>
entry 0 gen - : +1*a@b -1*b@a -1*1@b +1*1@a
end spent 0 0 2 S
done
";

const COMMUTATOR: &str = "<a,b | [a,b]>";

#[test]
fn proofs_are_told_by_relators(rt: HostRuntime) -> Result<(), Fail> {
    let first = "metab flat 1\n-1*a rel 1\ndone\n";
    let third = "metab flat 1\n+1*a rel 1\n-1*1 rel 1\n-1*1 bin 1 a\ndone\n";
    let one = "metab flat 1\n+1*1 rel 1\ndone\n";
    let turned = "metab flat 1\n-1*1 rel 1\ndone\n";
    let none = "metab flat 1\ndone\n";
    let rows: [Row; 15] = [
        (
            &["flat", "p", "d", "1", "1", "1"],
            SOLITAR,
            SOLVED,
            first,
            Status::Done,
        ),
        (
            &["flat", "p", "d", "01", "3", "001"],
            SOLITAR,
            SOLVED,
            third,
            Status::Done,
        ),
        (
            &["flat", "p", "d", "1", "2", "1"],
            SOLITAR,
            SOLVED,
            "no proof 1 2 1\n",
            Status::Fails,
        ),
        (
            &["flat", "p", "d", "1", "4", "01"],
            SOLITAR,
            SOLVED,
            "no proof 1 4 1\n",
            Status::Fails,
        ),
        (
            &["flat", "p", "d", "0", "00", "1"],
            SOLITAR,
            SOLVED,
            "no proof 0 0 1\n",
            Status::Fails,
        ),
        (
            &["flat", "p", "d", "1", "1", "0"],
            SOLITAR,
            SOLVED,
            "no proof 1 1 0\n",
            Status::Fails,
        ),
        (
            &["flat", "p", "d", "2", "1", "2"],
            COMMUTATOR,
            CLOSED_LATER,
            none,
            Status::Done,
        ),
        (
            &["flat", "p", "d", "2", "1", "3"],
            COMMUTATOR,
            CLOSED_LATER,
            "no proof 2 1 3\n",
            Status::Fails,
        ),
        (
            &["flat", "p", "d", "1", "1", "1"],
            COMMUTATOR,
            CLOSED_LATER,
            one,
            Status::Done,
        ),
        (
            &["flat", "p", "d", "1", "2", "1"],
            COMMUTATOR,
            CLOSED_LATER,
            turned,
            Status::Done,
        ),
        (
            &["flat", "p", "d", "1", "1", "1"],
            COMMUTATOR,
            TRIMMED,
            one,
            Status::Done,
        ),
        (
            &["flat", "p", "d", "1", "1", "1"],
            COMMUTATOR,
            UNREAD,
            "refused d line 4 report\n",
            Status::TextRefused,
        ),
        (
            &["flat", "p", "d", "1", "1", "1"],
            COMMUTATOR,
            FALSE,
            "fails line 3 not-equal a@b\n",
            Status::Fails,
        ),
        (
            &["flat", "p", "d", "1", "1"],
            SOLITAR,
            SOLVED,
            "refused words\n",
            Status::WordsRefused,
        ),
        (
            &["flat", "p", "d", "1", "1", "1000000000"],
            SOLITAR,
            SOLVED,
            "refused words\n",
            Status::WordsRefused,
        ),
    ];
    assert_eq!(rt; first_other(rt.alloc(), &rows)?, None);
    Ok(())
}

#[test]
fn certificates_are_added_up(rt: HostRuntime) -> Result<(), Fail> {
    let first = "metab flat 1\n-1*a rel 1\ndone\n";
    let other = "metab flat 1\n+1*a rel 1\ndone\n";
    let unknown = "metab flat 1\n-1*a rel 2\ndone\n";
    let beyond = "metab flat 1
+170141183460469231731687303715884105727*1 rel 1
+170141183460469231731687303715884105727*1 rel 1
done
";
    let rows: [Row; 7] = [
        (
            &["sum", "p", "a a t a^-1 t^-1", "d"],
            SOLITAR,
            first,
            "trivial\n",
            Status::Done,
        ),
        (
            &["sum", "p", "a a t a^-1 t^-1", "d"],
            SOLITAR,
            other,
            "not-zero a^2@t\n",
            Status::Fails,
        ),
        (
            &["sum", "p", "a a t a^-1 t^-1", "d"],
            SOLITAR,
            unknown,
            "refused d line 2 flat\n",
            Status::TextRefused,
        ),
        (
            &["sum", "p", "a a t a^-1 t^-1", "d"],
            SOLITAR,
            beyond,
            "flat beyond\n",
            Status::Open,
        ),
        (
            &["sum", "p", "1", "d"],
            SOLITAR,
            "metab flat 1\ndone\n",
            "trivial\n",
            Status::Done,
        ),
        (
            &["sum", "p", "c", "d"],
            SOLITAR,
            "x",
            "refused word line 1 column 1 unknown-name\n",
            Status::TextRefused,
        ),
        (
            &["sum", "p", "1"],
            SOLITAR,
            first,
            "refused words\n",
            Status::WordsRefused,
        ),
    ];
    assert_eq!(rt; first_other(rt.alloc(), &rows)?, None);
    Ok(())
}
