//! Written forms of words and presentations.

use super::{write_presentation, write_word};
use crate::{read_presentation, read_word};
use std::test::Fail;

/// Words over a and b, and their written forms.
const WORDS: [(&str, &str); 14] = [
    ("", "1"),
    ("a", "a"),
    ("a^-1", "a^-1"),
    ("a a", "a^2"),
    ("a^-1 a^-1 a^-1", "a^-3"),
    ("a b^-1 b^-1 a a a", "a b^-2 a^3"),
    ("a a^-1", "a a^-1"),
    ("[a,b]^-1", "b a b^-1 a^-1"),
    ("(a b)^-2", "b^-1 a^-1 b^-1 a^-1"),
    ("a^2^3", "a^6"),
    ("a^06", "a^6"),
    ("a^-0", "1"),
    ("a^16384", "a^16384"),
    ("(b*b)^-5000 1", "b^-10000"),
];

#[test]
fn words(rt: HostRuntime) -> Result<(), Fail> {
    let p = read_presentation(rt.alloc(), b"<a,b|>")?;
    for (text, written) in WORDS {
        let word = read_word(rt.alloc(), &p, text.as_bytes())?;
        let out = write_word(rt.alloc(), &p, &word)?;
        assert_eq!(rt; out.as_slice(), written.as_bytes(), "{text}");
    }
    Ok(())
}

/// Presentations, and their written forms.
const PRESENTATIONS: [(&str, &str); 8] = [
    ("<a,b|>", "<a, b | >"),
    ("<a,b | a b = b a>", "<a, b | a b a^-1 b^-1>"),
    ("<a | a^8000 = a^-193>", "<a | a^8193>"),
    ("<a|a,,a^-2>", "<a | a, 1, a^-2>"),
    ("<a|=>", "<a | 1>"),
    ("<a,b|>modulus 2", "<a, b | > modulus 2"),
    ("<a | a^3> modulus 0010", "<a | a^3> modulus 10"),
    ("< x_1 , Y2 | Y2*Y2 x_1 >\n", "<x_1, Y2 | Y2^2 x_1>"),
];

#[test]
fn presentations(rt: HostRuntime) -> Result<(), Fail> {
    for (text, written) in PRESENTATIONS {
        let p = read_presentation(rt.alloc(), text.as_bytes())?;
        let out = write_presentation(rt.alloc(), &p)?;
        assert_eq!(rt; out.as_slice(), written.as_bytes(), "{text}");
    }
    Ok(())
}
