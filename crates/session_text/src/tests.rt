//! Sessions and their questions as they are written, and the first fault of texts that are none.

ghost use Rattle.std.specs.Prelude.{All};
ghost use Rattle.session_text.specs.Questions.{IsWrittenQuestion, HasImages};

use crate::fault::SessionFault;
use crate::images::first_long_image;
use crate::one_question::read_question;
use crate::question::{Event, Question};
use crate::schedule::read_schedule;
use crate::session::read_session;
use crate::writing::write_question;
use presentation::{Presentation, read_presentation};
use std::alloc::{AllocError, Global};
use std::process::Abort;
use std::rt::HostRuntime;
use word_text::{ReadFault, TextKind};

fn free(rt: &impl Abort, alloc: Global) -> Presentation {
    read_presentation(alloc, b"<a, b | >").expect(rt, "a presentation")
}

// The questions as they are written, each with a semicolon behind it.
#[tactic(auto, using(crate::proofs::QuestionLemmas::written_is_over))]
fn shown(alloc: Global, p: &Presentation, questions: &[Question]) -> Result<Vec<u8>, AllocError>
    requires { All (λ q. IsWrittenQuestion p.now q × HasImages q) questions.now }
{
    let mut out = Vec::new(alloc);
    for question in questions {
        out.extend_from_slice(&write_question(alloc, p, question)?)?;
        out.push(b';')?;
    }
    Ok(out)
}

/// Texts, and their questions as they are written.
const SESSIONS: [(&str, &str); 18] = [
    ("", ""),
    ("\n \t\r\n\n", ""),
    ("trivial", "trivial 1;"),
    ("trivial\n", "trivial 1;"),
    ("trivial 1\r\nnormal a a\r\n", "trivial 1;normal a^2;"),
    ("trivial(a)\n\n trivial\tb ", "trivial a;trivial b;"),
    ("trivial [a,b]", "trivial a b a^-1 b^-1;"),
    ("equal a = b", "equal a = b;"),
    ("equal =", "equal 1 = 1;"),
    ("equal a a^-1= b b", "equal a a^-1 = b^2;"),
    ("normal(a b)^2", "normal a b a b;"),
    ("hom <s|>->", "hom <s | > -> 1;"),
    ("hom <s|> -> a", "hom <s | > -> a;"),
    (
        "hom<s,u|s u = u s>->a^-1,b",
        "hom <s, u | s u s^-1 u^-1> -> a^-1, b;",
    ),
    (
        "hom <a, b | a, , b> -> b a, ",
        "hom <a, b | a, 1, b> -> b a, 1;",
    ),
    ("hom <s | s^8192> -> a^3", "hom <s | s^8192> -> a^3;"),
    ("hom <s | s^8192> -> a^4", "hom <s | s^8192> -> a^4;"),
    (
        "normal a\nhom <trivial | > -> a\nequal a = 1",
        "normal a;hom <trivial | > -> a;equal a = 1;",
    ),
];

#[test]
fn sessions(rt: HostRuntime) {
    let alloc = rt.alloc();
    let p = free(&rt, alloc);
    for (text, written) in SESSIONS {
        let questions = read_session(alloc, &p, text.as_bytes()).expect(&rt, "a session");
        let out = shown(alloc, &p, &questions).expect(&rt, "memory");
        assert_eq!(rt; out.as_slice(), written.as_bytes(), "{text}");
    }
}

/// Texts, and where their first fault stands.
const FAULTS: [(&str, u32, u32, TextKind); 40] = [
    ("hom <s,u | s u s^-1 u^-1> -> a", 1, 31, TextKind::Expected),
    (
        "hom <s,u | s u s^-1 u^-1> -> a, b, a",
        1,
        34,
        TextKind::Expected,
    ),
    ("trivia a", 1, 1, TextKind::Expected),
    ("triviala", 1, 1, TextKind::Expected),
    ("trivial1", 1, 1, TextKind::Expected),
    ("trivial_ a", 1, 1, TextKind::Expected),
    ("Trivial a", 1, 1, TextKind::Expected),
    ("a", 1, 1, TextKind::Expected),
    ("  # a", 1, 3, TextKind::BadByte),
    ("= a", 1, 1, TextKind::Expected),
    ("\n\ntrivial c", 3, 9, TextKind::UnknownName),
    ("trivial a\r\n\t\nnormal a b)", 3, 11, TextKind::Expected),
    ("trivial a, b", 1, 10, TextKind::Expected),
    ("trivial a ;", 1, 11, TextKind::BadByte),
    ("trivial a^16385", 1, 11, TextKind::ExponentTooLarge),
    ("trivial a^16384 b", 1, 17, TextKind::WordTooLong),
    ("trivial (a", 1, 11, TextKind::Expected),
    ("normal a normal b", 1, 10, TextKind::UnknownName),
    ("normal a = b", 1, 10, TextKind::Expected),
    ("equal a", 1, 8, TextKind::Expected),
    ("equal a \r", 1, 10, TextKind::Expected),
    ("equal a b\nequal a = b", 1, 10, TextKind::Expected),
    ("equal a = b = a", 1, 13, TextKind::Expected),
    ("equal a = b, a", 1, 12, TextKind::Expected),
    ("equal a = c", 1, 11, TextKind::UnknownName),
    ("hom a -> a", 1, 5, TextKind::Expected),
    ("hom <s> -> a", 1, 7, TextKind::Expected),
    ("hom <s,s|> -> a", 1, 8, TextKind::RepeatedName),
    ("hom <s|a> -> a", 1, 8, TextKind::UnknownName),
    ("hom <s|> -> s", 1, 13, TextKind::UnknownName),
    ("hom <s|> modulus 3 -> a", 1, 10, TextKind::Expected),
    ("hom <s|> - > a", 1, 10, TextKind::Expected),
    ("hom <s|> = a", 1, 10, TextKind::Expected),
    ("hom <s|> -> a ^2 -> b", 1, 18, TextKind::Expected),
    ("hom <s|> -> a,", 1, 14, TextKind::Expected),
    ("hom <s,u|> -> a b", 1, 18, TextKind::Expected),
    ("hom <s,u|> -> a\n, b", 1, 16, TextKind::Expected),
    ("hom <s|\n> -> a", 1, 8, TextKind::Expected),
    ("hom <s|s^8192> -> a^5, b", 1, 22, TextKind::Expected),
    ("hom <s|s^8192> -> a^5 !", 1, 23, TextKind::BadByte),
];

#[test]
fn faults(rt: HostRuntime) {
    let alloc = rt.alloc();
    let p = free(&rt, alloc);
    for (text, line, column, kind) in FAULTS {
        match read_session(alloc, &p, text.as_bytes()) {
            Err(SessionFault::Text(f)) => {
                assert_eq!(rt; (f.line, f.column), (line, column), "{text}");
                assert!(rt; f.kind == kind, "{text}");
            }
            _ => panic!(rt; "no fault: {text}"),
        }
    }
}

#[test]
fn long_images(rt: HostRuntime) {
    let alloc = rt.alloc();
    let p = free(&rt, alloc);
    for (text, line, relator) in [
        ("hom <s | s^8192> -> a^5", 1, 1),
        ("hom <s | s^8192> -> a^4 b\ntrivial c", 1, 1),
        ("trivial\n\nhom <s | s, s^2, s^8192, s^9000> -> a^5", 3, 3),
        ("hom <s, u | u^10000, s^10000> -> a^4, b", 1, 2),
    ] {
        match read_session(alloc, &p, text.as_bytes()) {
            Err(fault) => assert!(rt;
                fault == SessionFault::ImageTooLong { line, relator },
                "{text}"
            ),
            _ => panic!(rt; "no fault: {text}"),
        }
    }
}

/// Spellings of one question, and the number of the first relator whose image is too long.
const SPELLINGS: [(&str, Option<u32>); 7] = [
    ("trivial 1", None),
    ("equal a^2 b = b^-1", None),
    ("normal a b a^-1 b^-1", None),
    ("hom <s | > -> 1", None),
    ("hom <s, u | s u s^-1 u^-1> -> a^-1, b", None),
    ("hom <s | s^8192> -> a^4", None),
    ("hom <s | s, s^8193, s^8194> -> a^4", Some(2)),
];

/// Texts that aren't the spelling of a question.
const OTHERS: [&str; 13] = [
    "",
    "trivial",
    "trivial a a",
    "trivial  a",
    " trivial a",
    "trivial a ",
    "trivial a\n",
    "trivial a\ntrivial b",
    "equal a=b",
    "hom <s|> -> a",
    "hom <s | > -> a, b",
    "hom <s | > modulus 3 -> a",
    "trivial c",
];

#[test]
fn one_question(rt: HostRuntime) {
    let alloc = rt.alloc();
    let p = free(&rt, alloc);
    for (text, long) in SPELLINGS {
        let read = read_question(alloc, &p, text.as_bytes()).expect(&rt, "memory");
        let question = read.expect(&rt, "a question");
        assert_eq!(rt; first_long_image(&question), long, "{text}");
        let out = write_question(alloc, &p, &question).expect(&rt, "memory");
        assert_eq!(rt; out.as_slice(), text.as_bytes(), "{text}");
    }
    for text in OTHERS {
        let read = read_question(alloc, &p, text.as_bytes()).expect(&rt, "memory");
        assert!(rt; read.is_none(), "{text}");
    }
}

// So many lines.
fn lines(rt: &impl Abort, alloc: Global, line: &str, count: u32) -> Vec<u8> {
    let mut text = Vec::new(alloc);
    for _i in 0..count {
        text.extend_from_slice(line.as_bytes()).expect(rt, "memory");
        text.push(b'\n').expect(rt, "memory");
    }
    text
}

#[test]
fn many_questions(rt: HostRuntime) {
    let alloc = rt.alloc();
    let p = free(&rt, alloc);
    let mut text = lines(&rt, alloc, "trivial", 4096);
    let full = read_session(alloc, &p, &text).expect(&rt, "a session");
    assert_eq!(rt; full.len(), 4096);
    text.extend_from_slice(b" normal c").expect(&rt, "memory");
    match read_session(alloc, &p, &text) {
        Err(SessionFault::Text(f)) => {
            assert_eq!(rt; (f.line, f.column), (4097, 2));
            assert!(rt; f.kind == TextKind::TooManyQuestions);
        }
        _ => panic!(rt; "no fault"),
    }
}

// A homomorphism from a source with 64 relators of 16,384 letters, whose image is empty.
fn large_source(rt: &impl Abort, alloc: Global) -> String {
    let mut line = String::new(alloc);
    line.push_str("hom <s | s^16384").expect(rt, "memory");
    for _i in 1..64 {
        line.push_str(", s^16384").expect(rt, "memory");
    }
    line.push_str("> -> 1").expect(rt, "memory");
    line
}

#[test]
fn many_letters(rt: HostRuntime) {
    let alloc = rt.alloc();
    let p = free(&rt, alloc);
    let mut text = lines(&rt, alloc, large_source(&rt, alloc).as_str(), 3);
    let words = lines(&rt, alloc, "equal a^16384 = b^-16384", 32);
    text.extend_from_slice(&words).expect(&rt, "memory");
    let full = read_session(alloc, &p, &text).expect(&rt, "a session");
    assert_eq!(rt; full.len(), 35);
    text.extend_from_slice(b" hom <s | > -> a")
        .expect(&rt, "memory");
    match read_session(alloc, &p, &text) {
        Err(SessionFault::Text(f)) => {
            assert_eq!(rt; (f.line, f.column), (36, 2));
            assert!(rt; f.kind == TextKind::TooManyLetters);
        }
        _ => panic!(rt; "no fault"),
    }
}

// The events, each as it is written with a space behind it.
fn listed(alloc: Global, events: &[Event]) -> Result<String, AllocError> {
    let mut out = String::new(alloc);
    for event in events {
        let text = match event {
            Event::Worker(n) => format!(in alloc; "w{} ", n)?,
            Event::Session(n) => format!(in alloc; "s{} ", n)?,
        };
        out.push_str(text.as_str())?;
    }
    Ok(out)
}

#[test]
fn schedules(rt: HostRuntime) {
    let alloc = rt.alloc();
    for (text, sessions, want) in [
        ("", 1, ""),
        (" \n\t\r\n", 1, ""),
        ("s1 w1 s1 w1 s1", 1, "s1 w1 s1 w1 s1 "),
        ("w16\nw9\r\n\tw10 ", 1, "w16 w9 w10 "),
        ("s16 s2 w16", 16, "s16 s2 w16 "),
        ("w1\r\ns2\r\n", 2, "w1 s2 "),
    ] {
        let events = read_schedule(alloc, text.as_bytes(), sessions).expect(&rt, "a schedule");
        let got = listed(alloc, &events).expect(&rt, "memory");
        assert_eq!(rt; got.as_str(), want, "{text}");
    }
}

/// Schedules with so many sessions, and the line, the column and the kind of their first fault.
const SCHEDULE_FAULTS: [(&str, u32, (u32, u32), TextKind); 27] = [
    ("s4", 3, (1, 1), TextKind::NoSession),
    ("s2", 1, (1, 1), TextKind::NoSession),
    ("w1 s3\n s16 x", 3, (2, 2), TextKind::NoSession),
    ("s17", 3, (1, 1), TextKind::Expected),
    ("w17", 3, (1, 1), TextKind::Expected),
    ("w20", 3, (1, 1), TextKind::Expected),
    ("w0", 3, (1, 1), TextKind::Expected),
    ("w01", 3, (1, 1), TextKind::Expected),
    ("s001", 3, (1, 1), TextKind::Expected),
    ("w", 3, (1, 1), TextKind::Expected),
    ("w1 s", 3, (1, 4), TextKind::Expected),
    ("w 1", 3, (1, 1), TextKind::Expected),
    ("w1s1", 3, (1, 1), TextKind::Expected),
    ("w1a", 3, (1, 1), TextKind::Expected),
    ("W1", 3, (1, 1), TextKind::Expected),
    ("x", 3, (1, 1), TextKind::Expected),
    ("x1", 3, (1, 1), TextKind::Expected),
    ("1", 3, (1, 1), TextKind::Expected),
    ("w1, w2", 3, (1, 1), TextKind::Expected),
    ("w1\n\n_w1", 3, (3, 1), TextKind::Expected),
    ("w1 ;", 3, (1, 4), TextKind::Expected),
    ("w1;", 3, (1, 1), TextKind::Expected),
    ("s1 w1;", 3, (1, 4), TextKind::Expected),
    ("s4;", 3, (1, 1), TextKind::Expected),
    ("w1\r\n;", 3, (2, 1), TextKind::Expected),
    ("w1\u{b}s1", 3, (1, 1), TextKind::Expected),
    ("w111", 3, (1, 1), TextKind::Expected),
];

#[test]
fn schedule_faults(rt: HostRuntime) {
    let alloc = rt.alloc();
    for (text, sessions, place, kind) in SCHEDULE_FAULTS {
        match read_schedule(alloc, text.as_bytes(), sessions) {
            Err(ReadFault::Text(f)) => {
                assert_eq!(rt; (f.line, f.column), place, "{text}");
                assert!(rt; f.kind == kind, "{text}");
            }
            _ => panic!(rt; "no fault: {text}"),
        }
    }
}
