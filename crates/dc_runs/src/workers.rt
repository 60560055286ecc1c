//! Runs by one worker and by many: the tree, what has landed in which order, the counters and the lines are the same.
#![tactic(auto)]

use crate::runs::{Case, came_to, run};
use dc_attrs::TreeError;
use std::alloc::Global;
use std::test::Fail;
use std::thread::Threads;

// How many workers there are, as words of a run before those of a case.
const WORKERS: [&str; 4] = ["-m 1 ", "-m 2 ", "-m 7 ", "-m 64 "];

// Files in several directories, of which one has three pieces.
const SOURCE: &str =
    "/s /s/a=1 /s/b /s/b/c=22 /s/b/d /s/b/d/e=0123456789!4 /s/f=same /s/g /s/h=new";

const UPDATED: Case = Case {
    source: SOURCE,
    target: "/d /d/b /d/b/c=2x /d/f=same /d/old=x /d/sub /d/sub/t=y",
    words: "-update -delete -blocksperchunk 1 /s /d",
    left: "/d /d/a=1 /d/b /d/b/c=22 /d/b/d /d/b/d/e=0123456789 /d/f=same /d/g /d/h=new",
    landed: "/d/a=1 /d/b/c=2 /d/b/d/e=10 /d/h=3",
    status: 0,
    output: "COPY=4;DIR_COPY=3;SKIP=1;FAIL=0;BYTESCOPIED=16;BYTESSKIPPED=4;committed;",
};

const MOVED: Case = Case {
    source: SOURCE,
    target: "/n=z",
    words: "-atomic -blocksperchunk 1 /s /d",
    left: "/n=z /d /d/a=1 /d/b /d/b/c=22 /d/b/d /d/b/d/e=0123456789 /d/f=same /d/g /d/h=new",
    landed: "/.distcp.work/a=1 /.distcp.work/b/c=2 /.distcp.work/b/d/e=10 /.distcp.work/f=4 /.distcp.work/h=3",
    status: 0,
    output: "COPY=5;DIR_COPY=3;SKIP=0;FAIL=0;BYTESCOPIED=20;BYTESSKIPPED=0;committed;",
};

// Whether the run of a case comes to what the case says, by these words in place of its own.
fn holds_as<R: Threads + Sync>(
    rt: &R,
    alloc: Global,
    case: &Case,
    words: &str,
) -> Result<bool, TreeError> {
    let ran = run(rt, alloc, case.source, case.target, words, None)?;
    came_to(alloc, &ran, case)
}

// The same by so many workers.
fn holds_by<R: Threads + Sync>(
    rt: &R,
    alloc: Global,
    case: &Case,
    workers: &str,
) -> Result<bool, TreeError> {
    let mut words = String::from_str(alloc, workers)?;
    words.push_str(case.words)?;
    holds_as(rt, alloc, case, words.as_str())
}

#[test]
fn an_update_is_the_same_by_any_number_of_workers(rt: HostRuntime) -> Result<(), Fail> {
    for workers in &WORKERS {
        assert_eq!(rt;
            holds_by(&rt, rt.alloc(), &UPDATED, workers),
            Ok(true),
            "at {workers}"
        );
    }
    Ok(())
}

#[test]
fn what_is_moved_is_the_same_by_any_number_of_workers(rt: HostRuntime) -> Result<(), Fail> {
    for workers in &WORKERS {
        assert_eq!(rt;
            holds_by(&rt, rt.alloc(), &MOVED, workers),
            Ok(true),
            "at {workers}"
        );
    }
    Ok(())
}
