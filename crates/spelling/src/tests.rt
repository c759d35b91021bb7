//! Values with their spellings, and texts that spell none.

use super::{
    after_byte, cut, first_part, read_coefficient, read_number, write_coefficient, write_number,
};
use std::test::Fail;

#[test]
fn spellings_are_written_and_read(rt: HostRuntime) -> Result<(), Fail> {
    let alloc = rt.alloc();
    for (n, text) in [
        (0, "0"),
        (7, "7"),
        (60_000, "60000"),
        (u32::MAX, "4294967295"),
    ] {
        let mut out = Vec::new(alloc);
        write_number(&mut out, n)?;
        assert!(rt; out.as_slice() == text.as_bytes(), "{n}");
        assert_eq!(rt; read_number(text.as_bytes()), Some(n));
    }
    for (k, text) in [
        (1, "+1"),
        (-1, "-1"),
        (i128::MAX, "+170141183460469231731687303715884105727"),
        (-i128::MAX, "-170141183460469231731687303715884105727"),
    ] {
        let mut out = Vec::new(alloc);
        write_coefficient(&mut out, k)?;
        assert!(rt; out.as_slice() == text.as_bytes(), "{text}");
        assert_eq!(rt; read_coefficient(text.as_bytes()), Some(k));
    }
    Ok(())
}

#[test]
fn other_texts_spell_nothing(rt: HostRuntime) -> Result<(), Fail> {
    for text in [
        "",
        "+5",
        "-5",
        "007",
        "00",
        " 1",
        "1 ",
        "4294967296",
        "a",
        "\u{661}",
    ] {
        assert_eq!(rt; read_number(text.as_bytes()), None);
    }
    for text in [
        "",
        "1",
        "+",
        "+0",
        "-0",
        "+01",
        "++1",
        "+170141183460469231731687303715884105728",
        "-170141183460469231731687303715884105728",
        "+340282366920938463463374607431768211456",
    ] {
        assert_eq!(rt; read_coefficient(text.as_bytes()), None);
    }
    assert!(rt; cut(b"a@b@c", b'@') == Some((b"a".as_slice(), b"b@c".as_slice())));
    assert!(rt; cut(b"@", b'@') == Some((b"".as_slice(), b"".as_slice())));
    assert!(rt; cut(b"abc", b'@').is_none());
    assert!(rt; first_part(b"a.b.c", b'.') == (b"a".as_slice(), Some(b"b.c".as_slice())));
    assert!(rt; first_part(b"abc", b'.') == (b"abc".as_slice(), None));
    assert!(rt; after_byte(b"^12", b'^') == Some(b"12".as_slice()));
    assert!(rt; after_byte(b"12^", b'^').is_none());
    Ok(())
}
