//! Values with their texts, and texts that are none.

use super::{
    SpellFault, put_mono, put_place, put_vector, read_coefficient, read_mono, read_place,
    read_vector, write_mono, write_place, write_vector,
};
use presentation::read_presentation;
use spelling::write_number;
use std::test::Fail;

/// Monomials over a and b, with the exponents of a, a', b and b'.
const MONOMIALS: [(&str, [u16; 4]); 10] = [
    ("1", [0, 0, 0, 0]),
    ("a", [1, 0, 0, 0]),
    ("a'", [0, 1, 0, 0]),
    ("b'", [0, 0, 0, 1]),
    ("a.a'", [1, 1, 0, 0]),
    ("a^2.a'.b'^13", [2, 1, 0, 13]),
    ("a.b.b'", [1, 0, 1, 1]),
    ("a^60000", [60_000, 0, 0, 0]),
    ("b'^60000", [0, 0, 0, 60_000]),
    ("a^30000.b^29999.b'", [30_000, 0, 29_999, 1]),
];

#[test]
fn monomials(rt: HostRuntime) -> Result<(), Fail> {
    let p = read_presentation(rt.alloc(), b"<a,b|>")?;
    for (text, exponents) in MONOMIALS {
        let m = read_mono(&p, text.as_bytes()).ok().ok_or(text)?;
        for variable in 0..48 {
            let wanted = if variable < 4 {
                exponents[variable as usize]
            } else {
                0
            };
            assert_eq!(rt; m.exp(variable), wanted, "{text}");
        }
        let out = write_mono(rt.alloc(), &p, &m)?;
        assert_eq!(rt; out.as_slice(), text.as_bytes(), "{text}");
    }
    Ok(())
}

/// Texts of no monomial over a and b.
const NO_MONOMIALS: [&str; 32] = [
    "",
    "0",
    "a^1",
    "a^0",
    "a^02",
    "a^",
    "a^-2",
    "a^+2",
    "a^2^2",
    "b.a",
    "a'.a",
    "b'.b",
    "a.a",
    "a'.a'",
    "1.a",
    "a.1",
    "1.1",
    "a.",
    ".a",
    "a..b",
    "c",
    "ab",
    "a''",
    "a^2'",
    "'",
    "^2",
    " a",
    "a ",
    "a b",
    "a^60001",
    "a^65536",
    "a^30000.b^30001",
];

#[test]
fn no_monomials(rt: HostRuntime) -> Result<(), Fail> {
    let p = read_presentation(rt.alloc(), b"<a,b|>")?;
    for text in NO_MONOMIALS {
        assert!(rt;
            read_mono(&p, text.as_bytes()) == Err(SpellFault::Spelling),
            "{text}"
        );
    }
    assert!(rt; read_mono(&p, b"a^4294967298") == Err(SpellFault::Spelling));
    assert!(rt; read_mono(&p, "a\u{b7}b".as_bytes()) == Err(SpellFault::Spelling));
    Ok(())
}

#[test]
fn places(rt: HostRuntime) -> Result<(), Fail> {
    let p = read_presentation(rt.alloc(), b"<x_1, Y2 | >")?;
    for (text, component) in [("1@x_1", 0), ("x_1^2.Y2'@Y2", 1), ("Y2@Y2", 1)] {
        let at = read_place(&p, text.as_bytes()).ok().ok_or(text)?;
        assert_eq!(rt; at.c, component, "{text}");
        let out = write_place(rt.alloc(), &p, &at)?;
        assert_eq!(rt; out.as_slice(), text.as_bytes(), "{text}");
    }
    for text in [
        "",
        "@",
        "1@",
        "@x_1",
        "1@x_",
        "1@x_1@x_1",
        "1",
        "x_1",
        "x_1@z",
        "Y2.x_1@Y2",
        "1 @x_1",
        "1@x_1'",
    ] {
        assert!(rt; read_place(&p, text.as_bytes()).is_err(), "{text}");
    }
    Ok(())
}

#[test]
fn coefficients(rt: HostRuntime) {
    assert!(rt; read_coefficient(b"+1") == Ok(1));
    assert!(rt; read_coefficient(b"-170141183460469231731687303715884105727") == Ok(-i128::MAX));
    for text in [
        "",
        "1",
        "+0",
        "-0",
        "+01",
        "+ 1",
        "-170141183460469231731687303715884105728",
    ] {
        assert!(rt;
            read_coefficient(text.as_bytes()) == Err(SpellFault::Spelling),
            "{text}"
        );
    }
}

/// Vectors over a and t, with the numbers of their terms and the coefficients of their leads.
const VECTORS: [(&str, usize, i128); 6] = [
    ("0", 0, 0),
    ("+1*a@t +1*a'@a -1*t@a -1*1@t +1*1@a", 5, 1),
    ("+1*a.a'@a -1*1@a", 2, 1),
    ("-13*t'@a", 1, -13),
    ("+2*t'@a -1*1@a", 2, 2),
    (
        "+170141183460469231731687303715884105727*a^60000@t",
        1,
        i128::MAX,
    ),
];

#[test]
fn vectors(rt: HostRuntime) -> Result<(), Fail> {
    let p = read_presentation(rt.alloc(), b"<a, t | t a t^-1 a^-2>")?;
    for (text, count, first) in VECTORS {
        let v = read_vector(rt.alloc(), &p, text.as_bytes())
            .ok()
            .ok_or(text)?;
        assert_eq!(rt; v.terms().len(), count, "{text}");
        let lead = match v.lead() {
            Some(t) => t.k,
            None => 0,
        };
        assert_eq!(rt; lead, first, "{text}");
        let out = write_vector(rt.alloc(), &p, &v)?;
        assert_eq!(rt; out.as_slice(), text.as_bytes(), "{text}");
    }
    Ok(())
}

/// Texts of no vector over a and t.
const NO_VECTORS: [&str; 23] = [
    "",
    " ",
    "00",
    "+0",
    "0 0",
    "+1*1@a 0",
    "0*1@a",
    "+0*1@a",
    "1*1@a",
    "+1*a@",
    "+1*@a",
    "+1@a",
    "*1@a",
    " +1*1@a",
    "+1*1@a ",
    "+1*t@a  +1*1@a",
    "+1*t@a\n+1*1@a",
    "+1* 1@a",
    "+1*1@a +1*t@a",
    "+1*1@a +1*1@t",
    "+1*1@a +1*1@a",
    "+1*1@a -1*1@a",
    "+170141183460469231731687303715884105728*1@a",
];

#[test]
fn no_vectors(rt: HostRuntime) -> Result<(), Fail> {
    let p = read_presentation(rt.alloc(), b"<a, t | t a t^-1 a^-2>")?;
    for text in NO_VECTORS {
        assert!(rt;
            read_vector(rt.alloc(), &p, text.as_bytes()).is_err(),
            "{text}"
        );
    }
    Ok(())
}

#[test]
fn texts_are_appended(rt: HostRuntime) -> Result<(), Fail> {
    let p = read_presentation(rt.alloc(), b"<a, t | >")?;
    let m = read_mono(&p, b"a.t'").ok().ok_or("monomial")?;
    let at = read_place(&p, b"t^2@a").ok().ok_or("place")?;
    let v = read_vector(rt.alloc(), &p, b"-1*t@a +3*1@t")
        .ok()
        .ok_or("vector")?;
    let mut out = Vec::new(rt.alloc());
    out.extend_from_slice(b"m ")?;
    put_mono(&mut out, &p, &m)?;
    out.extend_from_slice(b" p ")?;
    put_place(&mut out, &p, &at)?;
    out.extend_from_slice(b" v ")?;
    put_vector(&mut out, &p, &v)?;
    assert_eq!(rt;
        out.as_slice(),
        b"m a.t' p t^2@a v -1*t@a +3*1@t".as_slice()
    );
    Ok(())
}

#[test]
fn vectors_end_at_50000_terms(rt: HostRuntime) -> Result<(), Fail> {
    let p = read_presentation(rt.alloc(), b"<a|>")?;
    for (greatest, fits) in [(50_001u32, true), (50_002, false)] {
        let mut text = Vec::new(rt.alloc());
        for i in 2..greatest {
            text.extend_from_slice(b"+1*a^")?;
            write_number(&mut text, greatest + 2 - i)?;
            text.extend_from_slice(b"@a ")?;
        }
        text.extend_from_slice(b"+1*a^2@a")?;
        assert_eq!(rt; read_vector(rt.alloc(), &p, &text).is_ok(), fits);
    }
    Ok(())
}
