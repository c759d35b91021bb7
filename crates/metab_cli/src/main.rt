//! The program: real files, the standard output, and the status.
#![tactic(auto)]

use completion_workers::OpenGate;
use mb_io::{FsShelf, OutSink};
use metab_run::metab;
use std::process::ExitCode;
use std::{env, io};

// The words after the program's name, or none where one of them is no text.
fn words(rt: &HostRuntime) -> io::Result<Vec<String>> {
    let mut words = Vec::new(rt.alloc());
    for word in env::args(rt)?.skip(1) {
        words.push(word)?;
    }
    Ok(words)
}

fn main(rt: HostRuntime) -> ExitCode {
    let alloc = rt.alloc();
    let words = match words(&rt) {
        Ok(words) => words,
        Err(_) => Vec::new(alloc),
    };
    let mut shelf = FsShelf::new(&rt);
    let mut out = OutSink::new(io::writer(&rt));
    let status = metab(
        &rt,
        alloc,
        words.as_slice(),
        &mut shelf,
        &mut out,
        &OpenGate,
    );
    ExitCode::from(status.code())
}
