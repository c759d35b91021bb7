//! What no clause says: that the calls succeed, which numbers the calls have, and what real files give.

use super::{
    Failed, FsShelf, LoadFault, MemShelf, MemSink, NamedBytes, OutSink, Shelf, Sink, read_all,
    write_all,
};
use std::alloc::{AllocError, Global};
use std::io::Write;
use std::test::Fail;
use std::{fs, io};

fn named(alloc: Global, name: &str, bytes: &[u8]) -> Result<NamedBytes, AllocError> {
    let name = String::from_str(alloc, name)?;
    Ok(NamedBytes::new(name, Vec::from_slice(alloc, bytes)?))
}

/// Two files under `a`, of which the first counts, and an empty one under `b`.
fn shelf(alloc: Global, failing: &[u32]) -> Result<MemShelf, AllocError> {
    let mut files = Vec::new(alloc);
    files.push(named(alloc, "a", b"first")?)?;
    files.push(named(alloc, "a", b"second")?)?;
    files.push(named(alloc, "b", b"")?)?;
    Ok(MemShelf::new(files, Vec::from_slice(alloc, failing)?))
}

fn is_read(answer: &Result<Vec<u8>, LoadFault>, want: Result<&[u8], LoadFault>) -> bool {
    match (answer, want) {
        (Ok(bytes), Ok(want)) => bytes.as_slice() == want,
        (Err(fault), Err(want)) => *fault == want,
        _ => false,
    }
}

#[test]
fn reads_up_to_the_limit(rt: HostRuntime) -> Result<(), Fail> {
    let alloc = rt.alloc();
    let rows: [(&str, u32, Result<&[u8], LoadFault>); 6] = [
        ("a", 6, Ok(b"first")),
        ("a", 5, Ok(b"first")),
        ("a", 4, Err(LoadFault::FileTooLong { at: 4 })),
        ("a", 0, Err(LoadFault::FileTooLong { at: 0 })),
        ("b", 0, Ok(b"")),
        ("c", 9, Err(LoadFault::ReadFault)),
    ];
    for (name, limit, want) in rows {
        let mut shelf = shelf(alloc, &[])?;
        let answer = read_all(alloc, &mut shelf, name, limit);
        assert!(rt; is_read(&answer, want), "{name} up to {limit}");
    }
    Ok(())
}

#[test]
fn fails_at_the_numbered_reads(rt: HostRuntime) -> Result<(), Fail> {
    let alloc = rt.alloc();
    // The piece length, or 0 for none, and how many calls a whole read then makes.
    for (most, calls) in [(0, 3), (2, 5), (1, 7)] {
        for number in 1..=8u32 {
            let mut shelf = shelf(alloc, &[number])?;
            if most > 0 {
                shelf.pieces(most);
            }
            let answer = read_all(alloc, &mut shelf, "a", 5);
            let want: Result<&[u8], LoadFault> = if number <= calls {
                Err(LoadFault::ReadFault)
            } else {
                Ok(b"first")
            };
            assert!(rt; is_read(&answer, want), "call {number}, pieces {most}");
        }
    }
    Ok(())
}

#[test]
fn stays_where_a_read_fails(rt: HostRuntime) -> Result<(), Fail> {
    let mut shelf = shelf(rt.alloc(), &[3, 6])?;
    let mut buf = [0u8; 3];
    assert_eq!(rt; shelf.read(&mut buf), Ok(0));
    assert_eq!(rt; shelf.start("a"), Ok(()));
    assert_eq!(rt; shelf.read(&mut buf), Err(Failed));
    assert_eq!(rt; shelf.read(&mut buf), Ok(3));
    assert!(rt; buf == *b"fir");
    assert_eq!(rt; shelf.read(&mut buf), Ok(2));
    assert!(rt; buf == *b"str");
    assert_eq!(rt; shelf.start("a"), Err(Failed));
    assert_eq!(rt; shelf.read(&mut buf), Ok(0));
    Ok(())
}

#[test]
fn writes_up_to_the_room(rt: HostRuntime) -> Result<(), Fail> {
    let alloc = rt.alloc();
    // The room, the piece length or 0 for none, the write that fails, and what is taken then.
    let rows: [(u32, u32, u32, &[u8]); 7] = [
        (8, 0, 9, b"abcdef"),
        (6, 0, 9, b"abcdef"),
        (5, 0, 9, b"abcde"),
        (0, 0, 9, b""),
        (8, 0, 2, b"abc"),
        (8, 1, 9, b"abcdef"),
        (8, 2, 4, b"abcde"),
    ];
    for (room, most, number, want) in rows {
        let failing = Vec::from_slice(alloc, &[number])?;
        let mut sink = MemSink::new(alloc, room, failing)?;
        if most > 0 {
            sink.pieces(most);
        }
        let answer = write_all(&mut sink, b"abc").and_then(|()| write_all(&mut sink, b"def"));
        assert_eq!(rt;
            answer.is_ok(),
            want.len() == 6,
            "write {number}, room {room}"
        );
        assert!(rt; sink.taken() == want, "write {number}, room {room}");
    }
    Ok(())
}

#[test]
fn reads_real_files(rt: HostRuntime) -> Result<(), Fail> {
    let alloc = rt.alloc();
    fs::write(&rt, "short", b"bytes")?;
    let mut shelf = FsShelf::new(&rt);
    assert!(rt; is_read(&read_all(alloc, &mut shelf, "short", 5), Ok(b"bytes")));
    assert_eq!(rt; shelf.start("short"), Ok(()));
    let missing = read_all(alloc, &mut shelf, "missing", 5);
    assert!(rt; is_read(&missing, Err(LoadFault::ReadFault)));
    assert_eq!(rt; shelf.read(&mut [0u8; 4]), Ok(0));
    fs::remove_file(&rt, "short")?;
    // A folder can be opened, and its reading fails.
    fs::create_dir(&rt, "folder")?;
    let folder = read_all(alloc, &mut shelf, "folder", 5);
    assert!(rt; is_read(&folder, Err(LoadFault::ReadFault)));
    fs::remove_dir(&rt, "folder")?;
    Ok(())
}

/// A writer that fails.
#[derive(Drop)]
struct Broken;

impl Write for Broken {
    fn write(&mut self, _: &[u8]) -> io::Result<usize> {
        Err(io::ErrorKind::StorageFull.into())
    }

    fn flush(&mut self) -> io::Result<()> {
        Ok(())
    }
}

/// A writer that takes nothing.
#[derive(Drop)]
struct Full;

impl Write for Full {
    fn write(&mut self, _: &[u8]) -> io::Result<usize> {
        Ok(0)
    }

    fn flush(&mut self) -> io::Result<()> {
        Ok(())
    }
}

#[test]
fn writes_real_files(rt: HostRuntime) -> Result<(), Fail> {
    let alloc = rt.alloc();
    let mut out = OutSink::new(fs::create(&rt, "written")?);
    assert_eq!(rt; write_all(&mut out, b"bytes"), Ok(()));
    let mut shelf = FsShelf::new(&rt);
    assert!(rt; is_read(&read_all(alloc, &mut shelf, "written", 5), Ok(b"bytes")));
    fs::remove_file(&rt, "written")?;
    let mut full = OutSink::new(Full);
    assert_eq!(rt; full.write(b""), Ok(0));
    assert_eq!(rt; write_all(&mut full, b"bytes"), Err(Failed));
    let mut broken = OutSink::new(Broken);
    assert_eq!(rt; write_all(&mut broken, b"bytes"), Err(Failed));
    Ok(())
}
