//! Runs that copy what the target has not, or has under another name.
#![tactic(auto)]

use crate::runs::{Case, Ran, ends_with, has_landed, holds, leaves, run};
use dc_attrs::TreeError;
use dc_engine::{Counts, Outcome};
use std::alloc::Global;
use std::test::Fail;
use std::thread::Threads;

const SMALL: &str = "/s /s/a=hi /s/b= /s/e";

const COPY: &str = "/d /d/a=hi /d/b= /d/e";

const LINES: &str = "COPY=2;DIR_COPY=1;SKIP=0;FAIL=0;BYTESCOPIED=2;BYTESSKIPPED=0;committed;";

const ONE: &str = "COPY=1;DIR_COPY=0;SKIP=0;FAIL=0;BYTESCOPIED=1;BYTESSKIPPED=0;committed;";

const NOTHING: &str = "COPY=0;DIR_COPY=0;SKIP=0;FAIL=0;BYTESCOPIED=0;BYTESSKIPPED=0;committed;";

// One directory.
const DIRECTORIES: [Case; 6] = [
    Case {
        source: SMALL,
        target: "-",
        words: "/s /d",
        left: COPY,
        landed: "/d/a=2 /d/b=0",
        status: 0,
        output: LINES,
    },
    Case {
        source: SMALL,
        target: "/d",
        words: "/s /d",
        left: "/d /d/s /d/s/a=hi /d/s/b= /d/s/e",
        landed: "/d/s/a=2 /d/s/b=0",
        status: 0,
        output: "COPY=2;DIR_COPY=2;SKIP=0;FAIL=0;BYTESCOPIED=2;BYTESSKIPPED=0;committed;",
    },
    Case {
        source: "/s",
        target: "-",
        words: "/s /d",
        left: "/d",
        landed: "",
        status: 0,
        output: NOTHING,
    },
    Case {
        source: "/s /s/a=1",
        target: "-",
        words: "/s /x/y/d",
        left: "/x /x/y /x/y/d /x/y/d/a=1",
        landed: "/x/y/d/a=1",
        status: 0,
        output: ONE,
    },
    Case {
        source: "/s /s/a=1 /s/.snapshot /s/.snapshot/k /s/.snapshot/k/a=0",
        target: "-",
        words: "/s /d",
        left: "/d /d/a=1",
        landed: "/d/a=1",
        status: 0,
        output: ONE,
    },
    Case {
        source: "/s /s/.snapshot /s/.snapshot/k /s/.snapshot/k/a=0",
        target: "-",
        words: "/s/.snapshot/k /d",
        left: "/d /d/a=0",
        landed: "/d/a=1",
        status: 0,
        output: ONE,
    },
];

#[test]
fn a_directory_is_copied_with_all_but_what_is_hidden(rt: HostRuntime) -> Result<(), Fail> {
    for case in &DIRECTORIES {
        assert_eq!(rt;
            holds(&rt, rt.alloc(), case),
            Ok(true),
            "at {} onto {}",
            case.words,
            case.target
        );
    }
    Ok(())
}

// One file, to a path where nothing stands, a file, or a directory.
const FILES: [Case; 4] = [
    Case {
        source: "/s /s/f=abc",
        target: "-",
        words: "/s/f /d",
        left: "/d=abc",
        landed: "/d=3",
        status: 0,
        output: "COPY=1;DIR_COPY=0;SKIP=0;FAIL=0;BYTESCOPIED=3;BYTESSKIPPED=0;committed;",
    },
    Case {
        source: "/s /s/f=abc",
        target: "/d=old",
        words: "/s/f /d",
        left: "/d=old",
        landed: "",
        status: 0,
        output: "COPY=0;DIR_COPY=0;SKIP=1;FAIL=0;BYTESCOPIED=0;BYTESSKIPPED=3;committed;",
    },
    Case {
        source: "/s /s/f=abc",
        target: "/d",
        words: "/s/f /d",
        left: "/d /d/f=abc",
        landed: "/d/f=3",
        status: 0,
        output: "COPY=1;DIR_COPY=0;SKIP=0;FAIL=0;BYTESCOPIED=3;BYTESSKIPPED=0;committed;",
    },
    Case {
        source: "/s /s/f=abc",
        target: "/d=old",
        words: "-overwrite /s/f /d",
        left: "/d=abc",
        landed: "/d=3",
        status: 0,
        output: "COPY=1;DIR_COPY=0;SKIP=0;FAIL=0;BYTESCOPIED=3;BYTESSKIPPED=0;committed;",
    },
];

#[test]
fn a_file_becomes_the_target_or_goes_into_it(rt: HostRuntime) -> Result<(), Fail> {
    for case in &FILES {
        assert_eq!(rt;
            holds(&rt, rt.alloc(), case),
            Ok(true),
            "at {} onto {}",
            case.words,
            case.target
        );
    }
    Ok(())
}

// Several sources, by words or by the lines of a file.
const SEVERAL: [Case; 4] = [
    Case {
        source: "/s1 /s1/c=1 /s2 /s2/c=22",
        target: "-",
        words: "/s1 /s2 /d",
        left: "/d /d/s1 /d/s1/c=1 /d/s2 /d/s2/c=22",
        landed: "/d/s1/c=1 /d/s2/c=2",
        status: 0,
        output: "COPY=2;DIR_COPY=2;SKIP=0;FAIL=0;BYTESCOPIED=3;BYTESSKIPPED=0;committed;",
    },
    Case {
        source: "/s1 /s1/c=1 /s2 /s2/b=22 /f=333",
        target: "/d",
        words: "/s1 /f -update /s2 /d",
        left: "/d /d/b=22 /d/c=1 /d/f=333",
        landed: "/d/b=2 /d/c=1 /d/f=3",
        status: 0,
        output: "COPY=3;DIR_COPY=0;SKIP=0;FAIL=0;BYTESCOPIED=6;BYTESSKIPPED=0;committed;",
    },
    Case {
        source: "/s /s/a=1 /l=/s;;",
        target: "-",
        words: "-f /l /d",
        left: "/d /d/a=1",
        landed: "/d/a=1",
        status: 0,
        output: ONE,
    },
    Case {
        source: "/s1 /s1/c=1 /s2 /s2/c=22 /l=;/s2;/s1",
        target: "-",
        words: "/d -f /l",
        left: "/d /d/s1 /d/s1/c=1 /d/s2 /d/s2/c=22",
        landed: "/d/s1/c=1 /d/s2/c=2",
        status: 0,
        output: "COPY=2;DIR_COPY=2;SKIP=0;FAIL=0;BYTESCOPIED=3;BYTESSKIPPED=0;committed;",
    },
];

#[test]
fn several_sources_come_from_words_or_a_file(rt: HostRuntime) -> Result<(), Fail> {
    for case in &SEVERAL {
        assert_eq!(rt; holds(&rt, rt.alloc(), case), Ok(true), "at {}", case.words);
    }
    Ok(())
}

const COUNTS: Counts = Counts {
    copied: 2,
    dirs: 1,
    skipped: 0,
    failed: 0,
    bytes_copied: 2,
    bytes_skipped: 0,
};

// Whether an answer has these counters, and no moves.
fn has_counts(ran: &Ran) -> bool {
    ran.answer.counts == COUNTS && ran.answer.moves == 0
}

// Whether the answer of a copy has its counters.
fn counts<R: Threads + Sync>(rt: &R, alloc: Global) -> Result<bool, TreeError> {
    let ran = run(rt, alloc, SMALL, "-", "/s /d", None)?;
    Ok(has_counts(&ran))
}

#[test]
fn the_answer_has_the_counters(rt: HostRuntime) -> Result<(), Fail> {
    assert_eq!(rt; counts(&rt, rt.alloc()), Ok(true));
    Ok(())
}

// Whether a run has committed and has not printed that.
fn is_silent(ran: &Ran) -> bool {
    matches!(&ran.answer.outcome, Outcome::Committed) && !ran.answer.printed
}

// Whether all has been copied and nothing printed, which has a status of its own.
fn is_silent_copy(alloc: Global, ran: &Ran) -> Result<bool, TreeError> {
    Ok(
        is_silent(ran)
            && ends_with(alloc, ran, 28, "")?
            && leaves(alloc, ran, COPY)?
            && has_landed(alloc, ran, "/d/a=2 /d/b=0")?,
    )
}

// Whether a run whose sink fails copies all, and prints nothing.
fn copies_silently<R: Threads + Sync>(rt: &R, alloc: Global) -> Result<bool, TreeError> {
    let ran = run(rt, alloc, SMALL, "-", "/s /d", Some(1))?;
    is_silent_copy(alloc, &ran)
}

#[test]
fn a_run_whose_sink_fails_has_copied_all(rt: HostRuntime) -> Result<(), Fail> {
    assert_eq!(rt; copies_silently(&rt, rt.alloc()), Ok(true));
    Ok(())
}
