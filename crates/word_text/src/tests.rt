//! Rows of texts, of their values, and of the place and kind of the first fault.

ghost use Rattle.std.specs.Prelude.{◌≤◌, length, IfOk};

use crate::{Fault, ReadError, TextFault, TextKind, on_line, placed, whole_word, word_at};
use free_words::Word;
use std::alloc::{AllocError, Global};
use std::process::Abort;
use std::rt::HostRuntime;

/// Three names.
fn names(alloc: Global) -> Result<Vec<String>, AllocError>
    ensures { IfOk result (λ v. length v.items ≤ 24) }
{
    let mut names = Vec::new(alloc);
    names.push(String::from_str(alloc, "a")?)?;
    names.push(String::from_str(alloc, "b")?)?;
    names.push(String::from_str(alloc, "b_1Z")?)?;
    Ok(names)
}

/// The letters of a word: the names as a, b, c, inverses as A, B, C.
fn shown(alloc: Global, word: &Word) -> Result<String, AllocError> {
    let mut out = String::new(alloc);
    for l in word.letters() {
        out.push(match (l.g, l.inv) {
            (0, false) => 'a',
            (0, true) => 'A',
            (1, false) => 'b',
            (1, true) => 'B',
            (_, false) => 'c',
            (_, true) => 'C',
        })?;
    }
    Ok(out)
}

fn expect_fault(
    rt: &impl Abort,
    alloc: Global,
    names: &[String],
    text: &str,
    want: (u32, u32, TextKind),
)
    requires { length names.now ≤ 24 }
{
    let (line, column, kind) = want;
    match whole_word(alloc, names, text.as_bytes()) {
        Ok(_) => assert!(rt; false, "read {text}"),
        Err(ReadError::NoMemory) => assert!(rt; false, "memory"),
        Err(ReadError::Text(fault)) => {
            let got = placed(text.as_bytes(), fault);
            assert_eq!(rt; got.line, line, "line at {text}");
            assert_eq!(rt; got.column, column, "column at {text}");
            assert!(rt; got.kind == kind, "kind at {text}");
        }
    }
}

#[test]
fn words_have_their_values(rt: HostRuntime) {
    let alloc = rt.alloc();
    let names = names(alloc).expect(&rt, "memory");
    for (text, want) in [
        ("", ""),
        (" \t\r\n", ""),
        ("1", ""),
        ("11 1", ""),
        ("1a 1b", "ab"),
        ("()", ""),
        ("[,]", ""),
        ("b_1Z", "c"),
        ("a*b b_1Z", "abc"),
        ("a\r\n*\r\nb", "ab"),
        ("a b^-1 a", "aBa"),
        ("[a,b]", "abAB"),
        ("[a,b]^-1", "baBA"),
        ("(a b)^-2", "BABA"),
        ("a^2b", "aab"),
        ("a^2^3", "aaaaaa"),
        ("(a b)^2^-1", "BABA"),
        ("[a,b]^-1^2", "baBAbaBA"),
        ("a^ - \n 2 ^ - 1", "aa"),
        ("a^06", "aaaaaa"),
        ("a^0", ""),
        ("a^-0", ""),
        ("b a^-00^7 b", "bb"),
        ("a^0^16384^16384", ""),
        ("( a ) * [ ,b]^ - 02", "abBbB"),
        ("[[a,b],(b)]", "abABbbaBAB"),
        ("[a , 1]", "aA"),
        ("1^16384^-16384", ""),
        ("a^-2 a", "AAa"),
    ] {
        let word = whole_word(alloc, &names, text.as_bytes()).expect(&rt, "reads");
        let got = shown(alloc, &word).expect(&rt, "memory");
        assert_eq!(rt; got.as_str(), want, "at {text}");
    }
}

#[test]
fn faulty_tokens_have_their_places(rt: HostRuntime) {
    let alloc = rt.alloc();
    let names = names(alloc).expect(&rt, "memory");
    for (text, line, column, kind) in [
        // bytes of no token
        ("?", 1, 1, TextKind::BadByte),
        ("\0", 1, 1, TextKind::BadByte),
        ("a\0b", 1, 2, TextKind::BadByte),
        ("a \u{a7}", 1, 3, TextKind::BadByte),
        ("a\u{a7}", 1, 2, TextKind::BadByte),
        ("a * \u{ff}", 1, 5, TextKind::BadByte),
        ("(a\u{a7})", 1, 3, TextKind::BadByte),
        ("[a,b\u{a7}]", 1, 5, TextKind::BadByte),
        ("a^\u{a7}", 1, 3, TextKind::BadByte),
        ("a^-\u{a7}", 1, 4, TextKind::BadByte),
        ("a^2\u{a7}", 1, 4, TextKind::BadByte),
        ("a^+2", 1, 3, TextKind::BadByte),
        ("a\u{b}b", 1, 2, TextKind::BadByte),
        // tokens that can't stand there
        ("0", 1, 1, TextKind::Expected),
        ("10", 1, 2, TextKind::Expected),
        ("_a", 1, 1, TextKind::Expected),
        ("-a", 1, 1, TextKind::Expected),
        ("a - b", 1, 3, TextKind::Expected),
        ("a = b", 1, 3, TextKind::Expected),
        ("a | b", 1, 3, TextKind::Expected),
        ("a, b", 1, 2, TextKind::Expected),
        ("<a>", 1, 1, TextKind::Expected),
        ("* a", 1, 1, TextKind::Expected),
        ("a * * b", 1, 5, TextKind::Expected),
        ("a *", 1, 4, TextKind::Expected),
        ("(a *) b", 1, 5, TextKind::Expected),
        ("(* a)", 1, 2, TextKind::Expected),
        ("^2", 1, 1, TextKind::Expected),
        ("a * ^2", 1, 5, TextKind::Expected),
        ("a^", 1, 3, TextKind::Expected),
        ("a^ ", 1, 4, TextKind::Expected),
        ("a^-", 1, 4, TextKind::Expected),
        ("a^--1", 1, 4, TextKind::Expected),
        ("a^b", 1, 3, TextKind::Expected),
        ("a^(2)", 1, 3, TextKind::Expected),
        ("a^2^", 1, 5, TextKind::Expected),
        ("a^1-1", 1, 4, TextKind::Expected),
        ("a^2 3", 1, 5, TextKind::Expected),
        ("a)", 1, 2, TextKind::Expected),
        ("]", 1, 1, TextKind::Expected),
        ("(a", 1, 3, TextKind::Expected),
        ("(a]", 1, 3, TextKind::Expected),
        ("(a,b)", 1, 3, TextKind::Expected),
        ("[a", 1, 3, TextKind::Expected),
        ("[a)", 1, 3, TextKind::Expected),
        ("[a]", 1, 3, TextKind::Expected),
        ("[a,b", 1, 5, TextKind::Expected),
        ("[a,b)", 1, 5, TextKind::Expected),
        ("[a,b,a]", 1, 5, TextKind::Expected),
        // lines and columns
        ("\n )", 2, 2, TextKind::Expected),
        ("(\n", 2, 1, TextKind::Expected),
        ("a\r)", 1, 3, TextKind::Expected),
        ("\r\n\ta\r\n\t b ^ \r\n ?", 4, 2, TextKind::BadByte),
    ] {
        expect_fault(&rt, alloc, &names, text, (line, column, kind));
    }
}

#[test]
fn faulty_names_and_numbers_have_their_places(rt: HostRuntime) {
    let alloc = rt.alloc();
    let names = names(alloc).expect(&rt, "memory");
    for (text, line, column, kind) in [
        // names
        ("c", 1, 1, TextKind::UnknownName),
        ("A", 1, 1, TextKind::UnknownName),
        ("b_1z", 1, 1, TextKind::UnknownName),
        ("1a1", 1, 2, TextKind::UnknownName),
        ("a b_1", 1, 3, TextKind::UnknownName),
        ("a b_1Z2?", 1, 3, TextKind::UnknownName),
        ("ab", 1, 1, TextKind::UnknownName),
        ("a\n [1,c^", 2, 5, TextKind::UnknownName),
        // exponents
        ("a^16385", 1, 3, TextKind::ExponentTooLarge),
        ("1^16385", 1, 3, TextKind::ExponentTooLarge),
        ("a^-16385?", 1, 4, TextKind::ExponentTooLarge),
        ("a^ - \n 0016385", 2, 2, TextKind::ExponentTooLarge),
        ("a^0^99999999999999999999", 1, 5, TextKind::ExponentTooLarge),
        // lengths
        ("a^16384 a", 1, 9, TextKind::WordTooLong),
        ("a^16384 a ?", 1, 9, TextKind::WordTooLong),
        ("a^16384 * b^-1", 1, 11, TextKind::WordTooLong),
        ("a^16384 (a ?", 1, 12, TextKind::BadByte),
        ("a^16384 a^?", 1, 11, TextKind::BadByte),
        ("a (a a)^8193?", 1, 3, TextKind::WordTooLong),
        ("a^128^129", 1, 1, TextKind::WordTooLong),
        ("b a^2^16384^0", 1, 3, TextKind::WordTooLong),
        ("[a^8000,b^193]", 1, 1, TextKind::WordTooLong),
        ("[b (a^16384 b)]", 1, 13, TextKind::WordTooLong),
        ("b\n [a^8000,b^192](", 2, 2, TextKind::WordTooLong),
    ] {
        expect_fault(&rt, alloc, &names, text, (line, column, kind));
    }
}

/// A piece so many times between two others.
fn repeated(
    alloc: Global,
    front: &str,
    piece: &str,
    times: u32,
    back: &str,
) -> Result<String, AllocError> {
    let mut out = String::from_str(alloc, front)?;
    for _ in 0..times {
        out.push_str(piece)?;
    }
    out.push_str(back)?;
    Ok(out)
}

/// A letter inside so many brackets, with the same behind each of them.
fn nested(
    alloc: Global,
    bracket: &str,
    letter: &str,
    behind: &str,
    depth: u32,
) -> Result<String, AllocError> {
    let inside = repeated(alloc, letter, behind, depth, "")?;
    repeated(alloc, "", bracket, depth, inside.as_str())
}

/// `[a,a]`, `[[a,a],[a,a]]`, and so on: its word has 4^height letters.
fn tower(alloc: Global, height: u32) -> Result<String, AllocError> {
    let mut out = String::from_str(alloc, "a")?;
    for _ in 0..height {
        out = format!(in alloc; "[{},{}]", out, out)?;
    }
    Ok(out)
}

#[test]
fn long_texts_are_read(rt: HostRuntime) {
    let alloc = rt.alloc();
    let names = names(alloc).expect(&rt, "memory");
    for (front, piece, times, back, letters) in [
        ("", "a ", 16_384, "", 16_384),
        ("", "a ", 16_384, "b^0 1", 16_384),
        ("", "1", 50_000, "a", 1),
        ("", " \r\n", 20_000, "a", 1),
        ("a^16384", "^-1", 20_000, "", 16_384),
        ("a^", "0", 50_000, "7", 7),
        ("(a b)^-8192", "[,]", 10_000, "", 16_384),
        ("a^128^128", "", 0, "", 16_384),
        ("[a^8000,b^192]", "", 0, "", 16_384),
    ] {
        let text = repeated(alloc, front, piece, times, back).expect(&rt, "memory");
        let word = whole_word(alloc, &names, text.as_bytes()).expect(&rt, "reads");
        assert_eq!(rt; word.len(), letters, "at {front} {piece} {back}");
    }
    for (bracket, letter, behind, depth, letters) in [
        ("(", "a", ")", 50_000, 1),
        ("[", "", ",]", 50_000, 0),
        ("(", "a", ")^-1", 20_000, 1),
        ("(", "a", "^2)", 14, 16_384),
        ("[", "a", ",b]", 12, 12_286),
    ] {
        let text = nested(alloc, bracket, letter, behind, depth).expect(&rt, "memory");
        let word = whole_word(alloc, &names, text.as_bytes()).expect(&rt, "reads");
        assert_eq!(rt; word.len(), letters, "at {bracket} {behind}");
    }
    let text = tower(alloc, 7).expect(&rt, "memory");
    let word = whole_word(alloc, &names, text.as_bytes()).expect(&rt, "reads");
    assert_eq!(rt; word.len(), 16_384);
}

#[test]
fn long_texts_are_refused(rt: HostRuntime) {
    let alloc = rt.alloc();
    let names = names(alloc).expect(&rt, "memory");
    for (front, piece, times, back, column, kind) in [
        ("", "a ", 16_384, "a", 32_769, TextKind::WordTooLong),
        ("", "a ", 16_384, "(a", 32_771, TextKind::Expected),
        ("", "(", 50_000, "a", 50_002, TextKind::Expected),
        ("", "(", 50_000, "?", 50_001, TextKind::BadByte),
        ("", "[", 50_000, ")", 50_001, TextKind::Expected),
        ("", "[a,(", 20_000, "c", 80_001, TextKind::UnknownName),
        ("", "b", 50_000, "", 1, TextKind::UnknownName),
        ("a^", "9", 50_000, "", 3, TextKind::ExponentTooLarge),
        ("a", "^2", 20_000, "", 1, TextKind::WordTooLong),
        ("a", "^1", 20_000, "^", 40_003, TextKind::Expected),
    ] {
        let text = repeated(alloc, front, piece, times, back).expect(&rt, "memory");
        expect_fault(&rt, alloc, &names, text.as_str(), (1, column, kind));
    }
    // The brackets' words double from the innermost one on.
    for (bracket, letter, behind, column) in [
        ("(", "a", "^2)", 19_987),
        ("(", "a", ")^2", 19_986),
        ("[", "a", ",b]", 19_988),
        ("[a,", "b", "]", 59_962),
    ] {
        let text = nested(alloc, bracket, letter, behind, 20_000).expect(&rt, "memory");
        expect_fault(
            &rt,
            alloc,
            &names,
            text.as_str(),
            (1, column, TextKind::WordTooLong),
        );
    }
    for (height, column) in [(8, 1), (9, 2), (10, 3)] {
        let text = tower(alloc, height).expect(&rt, "memory");
        expect_fault(
            &rt,
            alloc,
            &names,
            text.as_str(),
            (1, column, TextKind::WordTooLong),
        );
    }
}

#[test]
fn words_at_the_head_of_a_line(rt: HostRuntime) {
    let alloc = rt.alloc();
    let names = names(alloc).expect(&rt, "memory");
    let text = b"a b^2 , ?".as_slice();
    let (word, rest) = word_at(alloc, &names, text).expect(&rt, "reads");
    assert_eq!(rt; word.len(), 3);
    assert_eq!(rt; rest, b", ?".as_slice());
    let fault = Fault {
        kind: TextKind::Expected,
        left: rest.len(),
    };
    let want = TextFault {
        line: 7,
        column: 7,
        kind: TextKind::Expected,
    };
    assert!(rt; on_line(text, 7, fault) == want);
}
