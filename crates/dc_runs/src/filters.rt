//! Runs with `-filters`.
#![tactic(auto)]

use crate::runs::{Case, came_to, holds, run_by};
use dc_attrs::TreeError;
use dc_filter::RegexPatterns;
use std::alloc::Global;
use std::test::Fail;
use std::thread::Threads;

const FILTERED: [Case; 3] = [
    // a directory that is excluded excludes what is under it
    Case {
        source: "/flt=.*/_temporary;.*\\.tmp; /s /s/_temporary /s/_temporary/x=1 /s/a.tmp=1 /s/k=2",
        target: "-",
        words: "-filters /flt /s /d",
        left: "/d /d/k=2",
        landed: "/d/k=1",
        status: 0,
        output: "COPY=1;DIR_COPY=0;SKIP=0;FAIL=0;BYTESCOPIED=1;BYTESSKIPPED=0;committed;",
    },
    // a pattern is for the whole path of the source
    Case {
        source: "/flt=/s/b|a;; /s /s/a=1 /s/b=2 /s/bb=3",
        target: "-",
        words: "/s /d -filters /flt",
        left: "/d /d/a=1 /d/bb=3",
        landed: "/d/a=1 /d/bb=1",
        status: 0,
        output: "COPY=2;DIR_COPY=0;SKIP=0;FAIL=0;BYTESCOPIED=2;BYTESSKIPPED=0;committed;",
    },
    Case {
        source: "/flt=.*/_temporary;.*\\.tmp;( /s /s/k=2",
        target: "-",
        words: "-filters /flt /s /d",
        left: "-",
        landed: "",
        status: 255,
        output: "distcp: bad pattern in line 3;",
    },
];

#[test]
fn what_a_pattern_matches_is_not_copied(rt: HostRuntime) -> Result<(), Fail> {
    for case in &FILTERED {
        assert_eq!(rt;
            holds(&rt, rt.alloc(), case),
            Ok(true),
            "at {}",
            case.source
        );
    }
    Ok(())
}

const TOO_BIG: Case = Case {
    source: "/flt=.*/_temporary;.*\\.tmp; /s /s/k=2",
    target: "-",
    words: "-filters /flt /s /d",
    left: "-",
    landed: "",
    status: 255,
    output: "distcp: pattern too big in line 1;",
};

// Whether a run of which the first pattern is refused for its size comes to what the case says.
fn holds_small<R: Threads + Sync>(rt: &R, alloc: Global, case: &Case) -> Result<bool, TreeError> {
    let mut pats = RegexPatterns::new(Some(1));
    let ran = run_by(rt, alloc, case, &mut pats)?;
    came_to(alloc, &ran, case)
}

#[test]
fn a_pattern_that_is_too_big_is_named(rt: HostRuntime) -> Result<(), Fail> {
    assert_eq!(rt; holds_small(&rt, rt.alloc(), &TOO_BIG), Ok(true));
    Ok(())
}
