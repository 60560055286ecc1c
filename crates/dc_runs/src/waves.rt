//! Runs of which attempts are stopped or fail.
#![tactic(auto)]

use crate::runs::{Case, Failing, QUIET, come_to, holds};
use dc_attrs::TreeError;
use dc_memfs::{Fail, Which};
use std::alloc::Global;
use std::test;
use std::thread::Threads;

const KILLED: [Case; 3] = [
    // a file of four pieces, of which three are stopped at once
    Case {
        source: "/kills=0~1~0;1~1~2;2~1~5; /s /s/f=0123456789012345678901234567890123456789!4",
        target: "-",
        words: "-m 4 -blocksperchunk 3 -copybuffersize 8 -kills /kills /s /d",
        left: "/d /d/f=0123456789012345678901234567890123456789",
        landed: "/d/f=40",
        status: 0,
        output: "COPY=1;DIR_COPY=0;SKIP=0;FAIL=0;BYTESCOPIED=40;BYTESSKIPPED=0;committed;",
    },
    // all workers stop with their attempts
    Case {
        source: "/kills=0~1~0~worker;1~1~0~worker; /s /s/a=1 /s/b=2",
        target: "-",
        words: "-m 2 -kills /kills /s /d",
        left: "/d /d/a=1 /d/b=2",
        landed: "/d/a=1 /d/b=1",
        status: 0,
        output: "COPY=2;DIR_COPY=0;SKIP=0;FAIL=0;BYTESCOPIED=2;BYTESSKIPPED=0;committed;",
    },
    // an attempt that is stopped is no failure, however often
    Case {
        source: "/kills=0~1~1;0~2~1;0~3~1;0~4~1;0~5~1;7~1~0 /s /s/a=1 /s/b=2",
        target: "-",
        words: "-strategy dynamic -kills /kills /s /d",
        left: "/d /d/a=1 /d/b=2",
        landed: "/d/a=1 /d/b=1",
        status: 0,
        output: "COPY=2;DIR_COPY=0;SKIP=0;FAIL=0;BYTESCOPIED=2;BYTESSKIPPED=0;committed;",
    },
];

#[test]
fn what_is_stopped_is_tried_again(rt: HostRuntime) -> Result<(), test::Fail> {
    for case in &KILLED {
        assert_eq!(rt; holds(&rt, rt.alloc(), case), Ok(true), "at {}", case.words);
    }
    Ok(())
}

// Each call fails.
const ALL: [Fail; 1] = [Fail {
    which: Which::Any,
    nth: 1,
    done: false,
    then_all: true,
}];

// The first read of an object fails.
const FIRST: Fail = Fail {
    which: Which::Read,
    nth: 1,
    done: false,
    then_all: false,
};

// The second.
const SECOND: Fail = Fail { nth: 2, ..FIRST };

// And so on.
const THIRD: Fail = Fail { nth: 3, ..FIRST };

const FOURTH: Fail = Fail { nth: 4, ..FIRST };

const FIFTH: Fail = Fail { nth: 5, ..FIRST };

const SIXTH: Fail = Fail { nth: 6, ..FIRST };

// The reads of a piece after the first one fail.
const AFTER_ONE: [Fail; 4] = [SECOND, THIRD, FOURTH, FIFTH];

// Reads after the first two fail.
const AFTER_TWO: [Fail; 4] = [THIRD, FOURTH, FIFTH, SIXTH];

// The second read alone goes through.
const BUT_SECOND: [Fail; 4] = [FIRST, THIRD, FOURTH, FIFTH];

// A desk does not make its second temporary.
const CREATE: [Fail; 1] = [Fail {
    which: Which::Create,
    ..SECOND
}];

// A desk does not take the first bytes.
const APPEND: [Fail; 1] = [Fail {
    which: Which::Append,
    ..FIRST
}];

const FAILED: Case = Case {
    source: "/s /s/a=1 /s/b=2",
    target: "-",
    words: "/s /d",
    left: "-",
    landed: "",
    status: 25,
    output: "distcp: copy failed ./a;",
};

const WITHOUT: Case = Case {
    source: "/s /s/a=1 /s/e",
    target: "-",
    words: "-i /s /d",
    left: "/d /d/e",
    landed: "",
    status: 29,
    output: "COPY=0;DIR_COPY=1;SKIP=0;FAIL=1;BYTESCOPIED=0;BYTESSKIPPED=0;WITHOUT ./a;committed without 1;",
};

const COPIED: Case = Case {
    source: "/s /s/a=1 /s/b=2",
    target: "-",
    words: "-m 1 /s /d",
    left: "/d /d/a=1 /d/b=2",
    landed: "/d/a=1 /d/b=1",
    status: 0,
    output: "COPY=2;DIR_COPY=0;SKIP=0;FAIL=0;BYTESCOPIED=2;BYTESSKIPPED=0;committed;",
};

#[test]
fn four_failures_end_the_run_or_leave_the_file_out(rt: HostRuntime) -> Result<(), test::Fail> {
    let alloc = rt.alloc();
    let forks = Failing {
        forks: &ALL,
        ..QUIET
    };
    let desks = Failing {
        desks: &ALL,
        ..QUIET
    };
    assert_eq!(rt; come_to(&rt, alloc, &FAILED, forks), Ok(true));
    assert_eq!(rt; come_to(&rt, alloc, &WITHOUT, forks), Ok(true));
    assert_eq!(rt; come_to(&rt, alloc, &FAILED, desks), Ok(true));
    assert_eq!(rt; come_to(&rt, alloc, &WITHOUT, desks), Ok(true));
    Ok(())
}

#[test]
fn a_failure_that_does_not_come_again_is_made_good(rt: HostRuntime) -> Result<(), test::Fail> {
    let alloc = rt.alloc();
    let reads = Failing {
        forks: &[FIRST],
        ..QUIET
    };
    let temporaries = Failing {
        desks: &CREATE,
        ..QUIET
    };
    let bytes = Failing {
        desks: &APPEND,
        ..QUIET
    };
    assert_eq!(rt; come_to(&rt, alloc, &COPIED, reads), Ok(true));
    assert_eq!(rt; come_to(&rt, alloc, &COPIED, temporaries), Ok(true));
    assert_eq!(rt; come_to(&rt, alloc, &COPIED, bytes), Ok(true));
    Ok(())
}

// The first attempt reads, and is stopped before its digest: four more fail.
const STOPPED: Case = Case {
    source: "/kills=0~1~2; /s /s/a=1",
    words: "-m 1 -kills /kills /s /d",
    ..FAILED
};

// In the first wave the worker stops with the second piece, and the third is lost: it is the least that fails four times.
const LOST: Case = Case {
    source: "/kills=1~1~0~worker; /s /s/a=1 /s/b=2 /s/c=3",
    words: "-m 1 -kills /kills /s /d",
    output: "distcp: copy failed ./c;",
    ..FAILED
};

// Where each piece has a bundle of its own, it is sealed in the first wave.
const SPREAD: Case = Case {
    words: "-strategy dynamic -m 1 -kills /kills /s /d",
    output: "distcp: copy failed ./b;",
    ..LOST
};

// Of two pieces the first fails four times.
const CUT: Case = Case {
    source: "/s /s/f=ab!1",
    words: "-m 1 -blocksperchunk 1 /s /d",
    output: "distcp: copy failed ./f;",
    ..FAILED
};

// A run that is to come to what a case says where these calls on each fork of the source fail.
const UNREAD: [(Case, &[Fail]); 4] = [
    (STOPPED, &AFTER_ONE),
    (LOST, &AFTER_TWO),
    (SPREAD, &AFTER_TWO),
    (CUT, &BUT_SECOND),
];

// Whether the run of a case comes to what it says where these calls on each fork of the source fail.
fn comes_to<R: Threads + Sync>(
    rt: &R,
    alloc: Global,
    case: &Case,
    forks: &'static [Fail],
) -> Result<bool, TreeError> {
    come_to(rt, alloc, case, Failing { forks, ..QUIET })
}

#[test]
fn attempts_go_by_the_kill_plan_the_bundles_and_the_pieces(
    rt: HostRuntime,
) -> Result<(), test::Fail> {
    for (case, forks) in &UNREAD {
        assert_eq!(rt;
            comes_to(&rt, rt.alloc(), case, forks),
            Ok(true),
            "at {}",
            case.words
        );
    }
    Ok(())
}
