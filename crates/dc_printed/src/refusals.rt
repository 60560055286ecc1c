//! Outcomes that name paths, lines and digests.
#![tactic(auto)]

use crate::ended::ends;
use dc_engine::Outcome;
use dc_path::{Name, OutOfMemory, Path, PathError};
use std::alloc::Global;
use std::test::Fail;

// The lines and statuses of outcomes that name one path, which is `/a/b`.
const LOCATED: [(&str, u8); 12] = [
    ("distcp: no file /a/b\n", 255),
    ("distcp: file too big /a/b\n", 255),
    ("distcp: no report /a/b\n", 255),
    ("distcp: no source /a/b\n", 255),
    ("distcp: clash at ./a/b\n", 25),
    ("distcp: target changed at ./a/b\n", 25),
    ("distcp: stage exists /a/b\n", 25),
    ("distcp: report is false at ./a/b\n", 25),
    ("distcp: work path exists /a/b\n", 25),
    ("distcp: copy failed ./a/b\n", 25),
    ("distcp: store changed at /a/b\n", 25),
    ("distcp: uncertain /a/b\n", 26),
];

// The outcome that names this path, by its place in the list.
fn located(path: Path, place: usize) -> Outcome {
    match place {
        0 => Outcome::NoFile { path },
        1 => Outcome::TooBig { path },
        2 => Outcome::NoReport { path },
        3 => Outcome::NoSource { path },
        4 => Outcome::Clash { path },
        5 => Outcome::NotAtBegin { path },
        6 => Outcome::StageExists { path },
        7 => Outcome::ReportFalse { path },
        8 => Outcome::WorkExists { path },
        9 => Outcome::CopyFailed { path },
        10 => Outcome::Changed { path },
        _ => Outcome::Uncertain { path },
    }
}

// Whether the outcome at this place, of the path of a text, ends so.
fn ends_at(
    alloc: Global,
    text: &str,
    place: usize,
    line: &str,
    code: u8,
) -> Result<bool, PathError> {
    let path = Path::read(alloc, text)?;
    Ok(ends(alloc, located(path, place), line, code)?)
}

#[test]
fn a_path_is_told_as_it_is_or_below_the_target(rt: HostRuntime) -> Result<(), Fail> {
    for place in 0..LOCATED.len() {
        let (line, code) = LOCATED[place];
        assert_eq!(rt;
            ends_at(rt.alloc(), "/a/b", place, line, code),
            Ok(true),
            "at {line}"
        );
    }
    Ok(())
}

#[test]
fn the_root_is_a_slash_and_below_the_target_a_dot(rt: HostRuntime) -> Result<(), Fail> {
    let alloc = rt.alloc();
    assert_eq!(rt;
        ends_at(alloc, "/", 3, "distcp: no source /\n", 255),
        Ok(true)
    );
    assert_eq!(rt;
        ends_at(alloc, "/", 4, "distcp: clash at .\n", 25),
        Ok(true)
    );
    Ok(())
}

const NUMBERED: [(u32, &str); 5] = [
    (0, "distcp: bad list in line 0\n"),
    (7, "distcp: bad pattern in line 7\n"),
    (10, "distcp: pattern too big in line 10\n"),
    (65_537, "distcp: bad kill plan in line 65537\n"),
    (u32::MAX, "distcp: bad report in line 4294967295\n"),
];

// The outcome that names this line, by its place in the list.
fn numbered(line: u32, place: usize) -> Outcome {
    match place {
        0 => Outcome::BadList { line },
        1 => Outcome::BadPattern { line },
        2 => Outcome::BigPattern { line },
        3 => Outcome::BadPlan { line },
        _ => Outcome::BadReport { line },
    }
}

#[test]
fn the_line_of_a_file_is_told_by_its_number(rt: HostRuntime) -> Result<(), Fail> {
    for place in 0..NUMBERED.len() {
        let (number, line) = NUMBERED[place];
        assert_eq!(rt;
            ends(rt.alloc(), numbered(number, place), line, 255),
            Ok(true),
            "at {line}"
        );
    }
    Ok(())
}

// Whether two sources of one place end a run so.
fn doubles(alloc: Global, line: &str) -> Result<bool, PathError> {
    let rel = Path::read(alloc, "/x")?;
    let first = Path::read(alloc, "/s/x")?;
    let second = Path::read(alloc, "/t/x")?;
    let outcome = Outcome::Duplicate { rel, first, second };
    Ok(ends(alloc, outcome, line, 254)?)
}

#[test]
fn two_sources_of_one_place_are_named(rt: HostRuntime) -> Result<(), Fail> {
    let line = "distcp: duplicate ./x from /s/x and /t/x\n";
    assert_eq!(rt; doubles(rt.alloc(), line), Ok(true));
    Ok(())
}

// Whether a name that is too long in a directory ends a run so.
fn passes_limits(alloc: Global, line: &str) -> Result<bool, PathError> {
    let parent = Path::read(alloc, "/p/q")?;
    let name = Name::read(alloc, "n m")?;
    Ok(ends(alloc, Outcome::TooLong { parent, name }, line, 25)?)
}

#[test]
fn the_name_that_passes_the_limits_comes_first(rt: HostRuntime) -> Result<(), Fail> {
    assert_eq!(rt;
        passes_limits(rt.alloc(), "distcp: path too long: n m in /p/q\n"),
        Ok(true)
    );
    Ok(())
}

// MD5 of the empty message and of `a` (RFC 1321).
const EMPTY: [u8; 16] = [
    0xd4, 0x1d, 0x8c, 0xd9, 0x8f, 0x00, 0xb2, 0x04, 0xe9, 0x80, 0x09, 0x98, 0xec, 0xf8, 0x42, 0x7e,
];

const OF_A: [u8; 16] = [
    0x0c, 0xc1, 0x75, 0xb9, 0xc0, 0xf1, 0xb6, 0xa8, 0x31, 0xc3, 0x99, 0xe2, 0x69, 0x77, 0x26, 0x61,
];

// Whether two digests that differ end a run so.
fn differ(alloc: Global, line: &str) -> Result<bool, PathError> {
    let path = Path::read(alloc, "/f")?;
    let outcome = Outcome::Differs {
        path,
        expected: EMPTY,
        found: OF_A,
    };
    Ok(ends(alloc, outcome, line, 25)?)
}

#[test]
fn the_expected_digest_comes_first(rt: HostRuntime) -> Result<(), Fail> {
    let line =
        "distcp: differs ./f d41d8cd98f00b204e9800998ecf8427e 0cc175b9c0f1b6a831c399e269772661\n";
    assert_eq!(rt; differ(rt.alloc(), line), Ok(true));
    Ok(())
}
