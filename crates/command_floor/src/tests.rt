//! What no clause says: that the words below are read as a user expects, with ample memory.

use super::{Command, read_command};
use std::alloc::{AllocError, Global};
use std::test::Fail;

fn words(alloc: Global, texts: &[&str]) -> Result<Vec<String>, AllocError> {
    let mut words = Vec::new(alloc);
    for text in texts {
        words.push(String::from_str(alloc, text)?)?;
    }
    Ok(words)
}

#[test]
fn words_outside_the_table_are_refused(rt: HostRuntime) -> Result<(), Fail> {
    let alloc = rt.alloc();
    let lines: [&[&str]; 16] = [
        &[],
        &["step"],
        &["Steps", "p", "1", "d"],
        &["steps", "--help", "p", "1", "d"],
        &["steps", "-x", "1", "d"],
        &["steps", "--entries=3072", "p", "1", "d"],
        &["solo", "--entries", "2199", "p", "s"],
        &["solo", "--entries=", "p", "s"],
        &["solo", "--budget", "1000000000", "p", "s"],
        &["solo", "--order", "0", "p", "s"],
        &["solo", "--order=3", "p", "s"],
        &["solo", "--order=1", "--order", "1", "p", "s"],
        &["gen", "--order", "2", "5"],
        &["run", "--workers", "0", "p", "q"],
        &["run", "--workers=17", "p", "q"],
        &["save", "--budget", "5", "p"],
    ];
    for line in lines {
        let words = words(alloc, line)?;
        assert!(rt;
            read_command(alloc, &words)?.is_none(),
            "{} words",
            line.len()
        );
    }
    Ok(())
}

#[test]
fn options_stand_anywhere_behind_the_command(rt: HostRuntime) -> Result<(), Fail> {
    let alloc = rt.alloc();
    let lines: [&[&str]; 3] = [
        &[
            "solo",
            "--entries",
            "4096",
            "--budget=0",
            "--order",
            "2",
            "p",
            "-",
        ],
        &[
            "solo",
            "p",
            "--budget",
            "000",
            "--order=000000002",
            "-",
            "--entries=4096",
        ],
        &[
            "solo",
            "--order",
            "2",
            "--entries=4096",
            "p",
            "--budget=0",
            "--",
            "-",
        ],
    ];
    for line in lines {
        let words = words(alloc, line)?;
        let Some(asked) = read_command(alloc, &words)? else {
            return Err(Fail::from("refused"));
        };
        assert!(rt; matches!(asked.command, Command::Solo));
        assert_eq!(rt; asked.given.settings.entries, Some(4096));
        assert_eq!(rt; asked.given.settings.budget, Some(0));
        assert_eq!(rt; asked.given.settings.order, Some(2));
        assert!(rt; asked.given.words.as_slice() == ["p", "-"].as_slice());
    }
    Ok(())
}
