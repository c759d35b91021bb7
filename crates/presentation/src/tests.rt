//! Rows of texts, of their values, and of the place and kind of the first fault.

use crate::line::WordReader;
use crate::presentation::Presentation;
use crate::text::read_presentation;
use crate::word::read_word;
use free_words::Word;
use std::alloc::{AllocError, Global};
use std::process::Abort;
use std::rt::HostRuntime;
use word_text::{ReadFault, TextKind};

/// The letters of a word: generators as a, b, c, inverses as A, B, C.
fn push_word(out: &mut String, w: &Word) -> Result<(), AllocError> {
    for l in w.letters() {
        out.push(match (l.g, l.inv) {
            (0, false) => 'a',
            (0, true) => 'A',
            (1, false) => 'b',
            (1, true) => 'B',
            (_, false) => 'c',
            (_, true) => 'C',
        })?;
    }
    Ok(())
}

/// The names, the relators' letters, each in brackets, and the modulus.
fn shown(alloc: Global, p: &Presentation) -> Result<String, AllocError> {
    let mut out = String::new(alloc);
    for name in p.names() {
        out.push_str(name.as_str())?;
        out.push(' ')?;
    }
    for relator in p.relators() {
        out.push('(')?;
        push_word(&mut out, relator)?;
        out.push(')')?;
    }
    let modulus = format!(in alloc; " {}", p.modulus())?;
    out.push_str(modulus.as_str())?;
    Ok(out)
}

fn expect_fault(rt: &impl Abort, fault: ReadFault, line: u32, column: u32, kind: TextKind) {
    match fault {
        ReadFault::NoMemory => assert!(rt; false, "memory"),
        ReadFault::Text(f) => {
            assert_eq!(rt; f.line, line, "line");
            assert_eq!(rt; f.column, column, "column");
            assert!(rt; f.kind == kind, "kind {:?}", f.kind);
        }
    }
}

#[test]
fn presentations_are_read(rt: HostRuntime) {
    let alloc = rt.alloc();
    for (text, want) in [
        ("<a,b|>", "a b  0"),
        ("<a,b | a b = b a>", "a b (abAB) 0"),
        ("<a,b | , [a,b], [a,b]>", "a b ()(abAB)(abAB) 0"),
        ("<a|1>", "a () 0"),
        ("<a|,>", "a ()() 0"),
        ("<a| = >", "a () 0"),
        ("<a| = a a>", "a (AA) 0"),
        ("<a,t | t a t^-1 a^-2>", "a t (baBAA) 0"),
        (" \t<\r\nx_1 ,\r\nX1\r\n|\r\n>\r\n", "x_1 X1  0"),
        ("<a|>modulus 0002\n", "a  2"),
        ("<a | a> modulus\r\n1000000000 \t", "a (a) 1000000000"),
        ("<modulus|modulus> modulus 2", "modulus (a) 2"),
    ] {
        let p = read_presentation(alloc, text.as_bytes()).expect(&rt, "reads");
        let got = shown(alloc, &p).expect(&rt, "memory");
        assert_eq!(rt; got.as_str(), want, "at {text}");
    }
}

#[test]
fn faults_have_their_places(rt: HostRuntime) {
    let alloc = rt.alloc();
    for (text, line, column, kind) in [
        ("", 1, 1, TextKind::Expected),
        (" \n", 2, 1, TextKind::Expected),
        ("\0<a|>", 1, 1, TextKind::BadByte),
        ("<a|\0>", 1, 4, TextKind::BadByte),
        ("<a|a\r\n\u{a7}>", 2, 1, TextKind::BadByte),
        ("a|>", 1, 1, TextKind::Expected),
        ("<|>", 1, 2, TextKind::Expected),
        ("<1|>", 1, 2, TextKind::Expected),
        ("<_a|>", 1, 2, TextKind::Expected),
        ("<a>", 1, 3, TextKind::Expected),
        ("<a b|>", 1, 4, TextKind::Expected),
        ("<a,|>", 1, 4, TextKind::Expected),
        ("<a, b, a|>", 1, 8, TextKind::RepeatedName),
        ("<a|", 1, 4, TextKind::Expected),
        ("<a | a c>", 1, 8, TextKind::UnknownName),
        ("<a | a^16384 a>", 1, 14, TextKind::WordTooLong),
        ("<a | a^16000 = a^-385>", 1, 14, TextKind::WordTooLong),
        ("<a|a^16384=a ?>", 1, 11, TextKind::WordTooLong),
        ("<a|a^16384=(a ?>", 1, 15, TextKind::BadByte),
        ("<a|a=a=a>", 1, 7, TextKind::Expected),
        ("<a|a)>", 1, 5, TextKind::Expected),
        ("<a|> ?", 1, 6, TextKind::BadByte),
        ("<a|> mod 2", 1, 6, TextKind::Expected),
        ("<a|> modulus2", 1, 6, TextKind::Expected),
        ("<a|> modulus", 1, 13, TextKind::Expected),
        ("<a|> modulus -2", 1, 14, TextKind::Expected),
        ("<a|> modulus 1", 1, 14, TextKind::ModulusOutOfRange),
        ("<a|> modulus 1 ?", 1, 14, TextKind::ModulusOutOfRange),
        (
            "<a|> modulus 1000000001",
            1,
            14,
            TextKind::ModulusOutOfRange,
        ),
        (
            "<a|> modulus 99999999999999999999",
            1,
            14,
            TextKind::ModulusOutOfRange,
        ),
        ("<a|> modulus 2 3", 1, 16, TextKind::Expected),
        ("<a|>\nmodulus 2\n?", 3, 1, TextKind::BadByte),
    ] {
        match read_presentation(alloc, text.as_bytes()) {
            Ok(_) => assert!(rt; false, "read {text}"),
            Err(fault) => expect_fault(&rt, fault, line, column, kind),
        }
    }
}

/// A presentation's text with so many names, the last one being `last`, and so many commas between its relators.
fn long_text(alloc: Global, names: u32, last: &str, commas: u32) -> Result<String, AllocError> {
    let mut out = String::from_str(alloc, "<")?;
    for i in 1..names {
        let name = format!(in alloc; "x{},", i % 90 + 10)?;
        out.push_str(name.as_str())?;
    }
    out.push_str(last)?;
    out.push('|')?;
    for _ in 0..commas {
        out.push(',')?;
    }
    out.push('>')?;
    Ok(out)
}

#[test]
fn limits_of_names_and_relators(rt: HostRuntime) {
    let alloc = rt.alloc();
    let most = long_text(alloc, 24, "z", 63).expect(&rt, "memory");
    let p = read_presentation(alloc, most.as_bytes()).expect(&rt, "reads");
    assert_eq!(rt; p.count(), 24);
    assert_eq!(rt; p.relators().len(), 64);
    // The k-th name begins in column 4 * k - 2, and the k-th comma between relators of one name in column k + 3.
    for (names, last, commas, column, kind) in [
        (25, "z", 0, 98, TextKind::TooManyNames),
        (25, "x11", 0, 98, TextKind::TooManyNames),
        (24, "x11", 0, 94, TextKind::RepeatedName),
        (1, "z", 64, 67, TextKind::TooManyRelators),
    ] {
        let text = long_text(alloc, names, last, commas).expect(&rt, "memory");
        match read_presentation(alloc, text.as_bytes()) {
            Ok(_) => assert!(rt; false, "read {names} {commas}"),
            Err(fault) => expect_fault(&rt, fault, 1, column, kind),
        }
    }
    let long = read_presentation(alloc, b"<a | a^8000 = a^-193>".as_slice()).expect(&rt, "reads");
    for relator in long.relators() {
        assert_eq!(rt; relator.len(), 8193);
    }
}

#[test]
fn words_over_a_presentation(rt: HostRuntime) {
    let alloc = rt.alloc();
    let p = read_presentation(alloc, b"<a, b|>".as_slice()).expect(&rt, "reads");
    let q = read_presentation(alloc, b"<b, a|>".as_slice()).expect(&rt, "reads");
    assert!(rt; p.same(&p));
    assert!(rt; !p.same(&q));
    let w = read_word(alloc, &p, b" [a,b]^-1 ".as_slice()).expect(&rt, "reads");
    let mut got = String::new(alloc);
    push_word(&mut got, &w).expect(&rt, "memory");
    assert_eq!(rt; got.as_str(), "baBA");
    match read_word(alloc, &p, b"a\n c".as_slice()) {
        Ok(_) => assert!(rt; false, "read"),
        Err(fault) => expect_fault(&rt, fault, 2, 2, TextKind::UnknownName),
    }
}

#[test]
fn parts_of_a_line(rt: HostRuntime) {
    let alloc = rt.alloc();
    let text = b" 000123 <s|> -> s^2, ?".as_slice();
    let mut reader = WordReader {
        text,
        at: 0,
        line: 7,
    };
    assert_eq!(rt; reader.at_number().expect(&rt, "reads"), 123);
    assert_eq!(rt; reader.at, 7);
    assert!(rt; !reader.at_bytes("->"));
    assert_eq!(rt; reader.at, 8);
    let p = reader.at_presentation(alloc).expect(&rt, "reads");
    assert_eq!(rt; reader.at, 12);
    assert!(rt; reader.at_bytes("->"));
    assert_eq!(rt; reader.at, 15);
    let w = reader.at_word(alloc, &p).expect(&rt, "reads");
    assert_eq!(rt; w.len(), 2);
    assert_eq!(rt; reader.at, 19);
    assert!(rt; reader.at_bytes(","));
    match reader.at_number() {
        Ok(_) => assert!(rt; false, "read"),
        Err(fault) => expect_fault(&rt, fault, 7, 22, TextKind::BadByte),
    }
    assert_eq!(rt; reader.at, 20);
}

#[test]
fn numbers_of_a_line(rt: HostRuntime) {
    for (text, want) in [("0", 0), ("999999", 999_999), (" \t000007a", 7)] {
        let mut reader = WordReader {
            text: text.as_bytes(),
            at: 0,
            line: 1,
        };
        assert_eq!(rt; reader.at_number().expect(&rt, "reads"), want, "at {text}");
    }
    for (text, column, kind) in [
        ("", 1, TextKind::Expected),
        ("  ", 3, TextKind::Expected),
        (" -1", 2, TextKind::Expected),
        ("1234567", 7, TextKind::Expected),
        (" 0000000", 8, TextKind::Expected),
        ("?", 1, TextKind::BadByte),
    ] {
        let mut reader = WordReader {
            text: text.as_bytes(),
            at: 0,
            line: 3,
        };
        match reader.at_number() {
            Ok(_) => assert!(rt; false, "read {text}"),
            Err(fault) => expect_fault(&rt, fault, 3, column, kind),
        }
    }
}
