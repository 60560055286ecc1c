//! Runs with `-atomic`, which build under the work path and move it to the target.
#![tactic(auto)]

use crate::runs::{Case, Failing, QUIET, come_to, holds};
use dc_attrs::TreeError;
use dc_memfs::{Fail, Which};
use std::alloc::Global;
use std::test;
use std::thread::Threads;

const COPIED: Case = Case {
    source: "/s /s/a=hi",
    target: "-",
    words: "-atomic /s /d",
    left: "/d /d/a=hi",
    landed: "/.distcp.work/a=2",
    status: 0,
    output: "COPY=1;DIR_COPY=0;SKIP=0;FAIL=0;BYTESCOPIED=2;BYTESSKIPPED=0;committed;",
};

const OTHERS: [Case; 4] = [
    COPIED,
    // what an earlier run left under the work path is not touched
    Case {
        source: "/s /s/a=hi",
        target: "/.distcp.work /.distcp.work/a=hi",
        words: "-atomic /s /d",
        left: "/.distcp.work /.distcp.work/a=hi",
        landed: "",
        status: 25,
        output: "distcp: work path exists /.distcp.work;",
    },
    Case {
        source: "/s /s/a=hi",
        target: "/t /x",
        words: "-tmp /t -atomic /s /x/d",
        left: "/t /x /x/d /x/d/a=hi",
        landed: "/t/.distcp.work/a=2",
        status: 0,
        output: "COPY=1;DIR_COPY=0;SKIP=0;FAIL=0;BYTESCOPIED=2;BYTESSKIPPED=0;committed;",
    },
    Case {
        source: "/s /s/f=abc",
        target: "-",
        words: "-atomic /s/f /d",
        left: "/d=abc",
        landed: "/.distcp.work=3",
        status: 0,
        output: "COPY=1;DIR_COPY=0;SKIP=0;FAIL=0;BYTESCOPIED=3;BYTESSKIPPED=0;committed;",
    },
];

#[test]
fn what_is_built_under_the_work_path_is_moved(rt: HostRuntime) -> Result<(), test::Fail> {
    for case in &OTHERS {
        assert_eq!(rt;
            holds(&rt, rt.alloc(), case),
            Ok(true),
            "at {} onto {}",
            case.words,
            case.target
        );
    }
    Ok(())
}

// The first rename fails, and nothing is moved.
const RENAME: Fail = Fail {
    which: Which::Rename,
    nth: 1,
    done: false,
    then_all: false,
};

// It is moved nevertheless.
const MOVED: [Fail; 1] = [Fail {
    done: true,
    ..RENAME
}];

// It is moved nevertheless, and no later call answers.
const MOVED_UNSEEN: [Fail; 1] = [Fail {
    done: true,
    then_all: true,
    ..RENAME
}];

// It is not moved, and no later call answers.
const UNSEEN: [Fail; 1] = [Fail {
    then_all: true,
    ..RENAME
}];

// Twice it is not moved.
const LATE: [Fail; 2] = [RENAME, Fail { nth: 2, ..RENAME }];

// Three times it is not moved.
const NOT_MOVED: [Fail; 3] = [RENAME, Fail { nth: 2, ..RENAME }, Fail { nth: 3, ..RENAME }];

const UNCERTAIN: Case = Case {
    status: 26,
    output: "distcp: uncertain /d;",
    ..COPIED
};

const UNTOUCHED: &str = "/.distcp.work /.distcp.work/a=hi";

const BUILT: Case = Case {
    left: UNTOUCHED,
    ..UNCERTAIN
};

const STOPPED: Case = Case {
    left: UNTOUCHED,
    status: 25,
    output: "distcp: target fault in move after 0;",
    ..COPIED
};

// A run that is to come to what a case says where these calls on the target fail.
const FAILED: [(Case, &[Fail]); 5] = [
    (COPIED, &MOVED),
    (COPIED, &LATE),
    (UNCERTAIN, &MOVED_UNSEEN),
    (BUILT, &UNSEEN),
    (STOPPED, &NOT_MOVED),
];

// Whether the run of a case comes to what it says where these calls on the target fail.
fn comes_to<R: Threads + Sync>(
    rt: &R,
    alloc: Global,
    case: &Case,
    target: &'static [Fail],
) -> Result<bool, TreeError> {
    come_to(rt, alloc, case, Failing { target, ..QUIET })
}

#[test]
fn a_move_that_fails_leaves_all_or_nothing(rt: HostRuntime) -> Result<(), test::Fail> {
    for (case, target) in &FAILED {
        assert_eq!(rt;
            comes_to(&rt, rt.alloc(), case, target),
            Ok(true),
            "at {}",
            case.output
        );
    }
    Ok(())
}
