//! Command lines, and what they ask for, by hand.

use crate::{Command, read_words};
use std::alloc::{AllocError, Global};
use std::test::Fail;

fn words_in(alloc: Global, line: &str) -> Result<Vec<String>, AllocError> {
    let mut words = Vec::new(alloc);
    for word in line.split_whitespace() {
        words.push(String::from_str(alloc, word)?)?;
    }
    Ok(words)
}

#[test]
fn lines_that_are_plain(rt: HostRuntime) -> Result<(), Fail> {
    for (line, rounds) in [
        ("plain", 100_000),
        ("plain --rounds 1", 1),
        ("plain --rounds=50", 50),
        ("plain --rounds 0000050", 50),
        ("plain --rounds 1000000", 1_000_000),
        ("plain --rounds=1000000", 1_000_000),
    ] {
        let words = words_in(rt.alloc(), line)?;
        assert_eq!(rt;
            read_words(words.as_slice()),
            Some(Command::Plain { rounds }),
            "{line}"
        );
    }
    Ok(())
}

#[test]
fn lines_that_are_work(rt: HostRuntime) -> Result<(), Fail> {
    for (line, workers, rounds) in [
        ("work --workers 1", 1, 100_000),
        ("work --workers=8", 8, 100_000),
        ("work --workers 0000004", 4, 100_000),
        ("work --workers 2 --rounds 50", 2, 50),
        ("work --rounds=50 --workers=2", 2, 50),
        ("work --rounds 1000000 --workers 8", 8, 1_000_000),
    ] {
        let words = words_in(rt.alloc(), line)?;
        assert_eq!(rt;
            read_words(words.as_slice()),
            Some(Command::Work { workers, rounds }),
            "{line}"
        );
    }
    Ok(())
}

#[test]
fn lines_that_are_big(rt: HostRuntime) -> Result<(), Fail> {
    for (line, number, rounds) in [
        ("big 1", 1, 100_000),
        ("big 60", 60, 100_000),
        ("big 0000003", 3, 100_000),
        ("big 007 --rounds=0000050", 7, 50),
        ("big 7 --rounds 50", 7, 50),
        ("big --rounds 50 7", 7, 50),
        ("big --rounds=1000000 60", 60, 1_000_000),
    ] {
        let words = words_in(rt.alloc(), line)?;
        assert_eq!(rt;
            read_words(words.as_slice()),
            Some(Command::Big { number, rounds }),
            "{line}"
        );
    }
    Ok(())
}

#[test]
fn lines_that_are_no_command(rt: HostRuntime) -> Result<(), Fail> {
    for line in [
        "",
        "Plain",
        "plainer",
        "plain 5",
        "plain --",
        "plain --rounds",
        "plain --rounds=",
        "plain --rounds 0",
        "plain --rounds 1000001",
        "plain --rounds=1000001",
        "plain --rounds 00000050",
        "plain --rounds +5",
        "plain --rounds -5",
        "plain --rounds 5x",
        "plain --rounds5",
        "plain --round 5",
        "plain --rounds 5 --rounds 5",
        "plain --rounds=5 --rounds 6",
        "plain --rounds 5 6",
        "--rounds 5 plain",
        "-h",
        "--help",
        "help",
        "work",
        "work --workers",
        "work --workers 0",
        "work --workers 9",
        "work --workers=",
        "work --workers 2 3",
        "work --workers 2 --workers 2",
        "work --rounds 5",
        "work --rounds 5 --workers 2 --rounds 5",
        "work 2",
        "plain --workers 2",
        "plain --rounds 5 --workers 2",
        "big 3 --workers 2",
        "big",
        "big 0",
        "big 61",
        "big 00000003",
        "big x",
        "big 3 4",
        "big 3 4 --rounds 5",
        "big --rounds 5",
        "big --rounds 5 6 --rounds 7",
        "big 3 --rounds",
        "big 3 --rounds=0",
        "big 3 --rounds 5 --rounds 5",
    ] {
        let words = words_in(rt.alloc(), line)?;
        assert_eq!(rt; read_words(words.as_slice()), None, "{line}");
    }
    Ok(())
}
