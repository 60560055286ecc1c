//! Runs that bring a target up to date: with `-update`, `-append`, `-delete`, `-overwrite` and `-p`.
#![tactic(auto)]

use crate::runs::{Case, Ran, came_to, holds, run};
use crate::trees::path;
use dc_attrs::{Seen, TreeError};
use dc_engine::Outcome;
use dc_path::{OutOfMemory, Path};
use std::alloc::Global;
use std::test::Fail;
use std::thread::Threads;

const UPDATES: [Case; 6] = [
    // what is the same is skipped
    Case {
        source: "/s /s/x=same /s/y=longer /s/z=new",
        target: "/d /d/x=same /d/y=lon",
        words: "-update /s /d",
        left: "/d /d/x=same /d/y=longer /d/z=new",
        landed: "/d/y=6 /d/z=3",
        status: 0,
        output: "COPY=2;DIR_COPY=0;SKIP=1;FAIL=0;BYTESCOPIED=9;BYTESSKIPPED=4;committed;",
    },
    // what begins as the source does is extended
    Case {
        source: "/s /s/p=abcdef /s/q=xyz /s/r=12345 /s/t=789",
        target: "/d /d/p=abc /d/q= /d/r=54321 /d/t=x",
        words: "-update -append /s /d",
        left: "/d /d/p=abcdef /d/q=xyz /d/r=12345 /d/t=789",
        landed: "/d/p+3 /d/q+3 /d/r=5 /d/t=3",
        status: 0,
        output: "COPY=4;DIR_COPY=0;SKIP=0;FAIL=0;BYTESCOPIED=14;BYTESSKIPPED=0;committed;",
    },
    // where block sizes are kept, another one is a difference
    Case {
        source: "/s /s/f=data!8",
        target: "/d /d/f=data!4",
        words: "-update -pb /s /d",
        left: "/d /d/f=data!8",
        landed: "/d/f=4",
        status: 0,
        output: "COPY=1;DIR_COPY=0;SKIP=0;FAIL=0;BYTESCOPIED=4;BYTESSKIPPED=0;committed;",
    },
    Case {
        source: "/s /s/f=data!8",
        target: "/d /d/f=data!8",
        words: "-update -pb /s /d",
        left: "/d /d/f=data!8",
        landed: "",
        status: 0,
        output: "COPY=0;DIR_COPY=0;SKIP=1;FAIL=0;BYTESCOPIED=0;BYTESSKIPPED=4;committed;",
    },
    // without checksums the same length is enough
    Case {
        source: "/s /s/f=data",
        target: "/d /d/f=tada",
        words: "-update -skipcrccheck /s /d",
        left: "/d /d/f=tada",
        landed: "",
        status: 0,
        output: "COPY=0;DIR_COPY=0;SKIP=1;FAIL=0;BYTESCOPIED=0;BYTESSKIPPED=4;committed;",
    },
    // what is overwritten is copied even where it is the same
    Case {
        source: "/s /s/f=data",
        target: "/d /d/f=data",
        words: "-overwrite /s /d",
        left: "/d /d/f=data",
        landed: "/d/f=4",
        status: 0,
        output: "COPY=1;DIR_COPY=0;SKIP=0;FAIL=0;BYTESCOPIED=4;BYTESSKIPPED=0;committed;",
    },
];

#[test]
fn what_differs_is_copied(rt: HostRuntime) -> Result<(), Fail> {
    for case in &UPDATES {
        assert_eq!(rt;
            holds(&rt, rt.alloc(), case),
            Ok(true),
            "at {} from {}",
            case.words,
            case.source
        );
    }
    Ok(())
}

// What the source lacks goes.
const LACKING: Case = Case {
    source: "/s /s/a=1",
    target: "/n=z /d /d/a=1 /d/old=x /d/sub /d/sub/t=y /d/.snapshot /d/.snapshot/k /d/.snapshot/k/a=0",
    words: "-update -delete /s /d",
    left: "/n=z /d /d/a=1",
    landed: "",
    status: 0,
    output: "COPY=0;DIR_COPY=0;SKIP=1;FAIL=0;BYTESCOPIED=0;BYTESSKIPPED=1;committed;",
};

// But no directory that has snapshots.
const SHOT: Case = Case {
    source: "/s /s/a=1",
    target: "/d /d/a=1 /d/sub /d/sub/t=y /d/sub/.snapshot /d/sub/.snapshot/k",
    words: "-update -delete /s /d",
    left: "/d /d/a=1 /d/sub",
    landed: "",
    status: 0,
    output: "COPY=0;DIR_COPY=0;SKIP=1;FAIL=0;BYTESCOPIED=0;BYTESSKIPPED=1;committed;",
};

const DELETES: [Case; 3] = [
    LACKING,
    SHOT,
    Case {
        source: "/s /s/a=1 /s/e",
        target: "/d /d/a=0 /d/b=2",
        words: "-overwrite -delete /s /d",
        left: "/d /d/a=1 /d/e",
        landed: "/d/a=1",
        status: 0,
        output: "COPY=1;DIR_COPY=1;SKIP=0;FAIL=0;BYTESCOPIED=1;BYTESSKIPPED=0;committed;",
    },
];

// Whether this stands at a path of the target.
fn shows(alloc: Global, ran: &Ran, text: &str, seen: Seen) -> Result<bool, TreeError> {
    let path = path(alloc, text)?;
    Ok(ran.target.tree().kind(&path) == seen)
}

// Whether the run of a case leaves what stands at a path of the target as it is.
fn keeps<R: Threads + Sync>(
    rt: &R,
    alloc: Global,
    case: &Case,
    text: &str,
    seen: Seen,
) -> Result<bool, TreeError> {
    let ran = run(rt, alloc, case.source, case.target, case.words, None)?;
    shows(alloc, &ran, text, seen)
}

#[test]
fn what_the_source_lacks_goes(rt: HostRuntime) -> Result<(), Fail> {
    for case in &DELETES {
        assert_eq!(rt;
            holds(&rt, rt.alloc(), case),
            Ok(true),
            "at {} onto {}",
            case.words,
            case.target
        );
    }
    Ok(())
}

#[test]
fn what_is_in_snapshots_stays(rt: HostRuntime) -> Result<(), Fail> {
    let alloc = rt.alloc();
    let file = Seen::File { length: 1 };
    assert_eq!(rt;
        keeps(&rt, alloc, &LACKING, "/d/.snapshot/k/a", file),
        Ok(true)
    );
    assert_eq!(rt;
        keeps(&rt, alloc, &SHOT, "/d/sub/.snapshot/k", Seen::Dir),
        Ok(true)
    );
    Ok(())
}

// What clashes alone is left out.
const LEFT_OUT: Case = Case {
    source: "/s /s/f=1 /s/g=2",
    target: "/d /d/f",
    words: "-update -i /s /d",
    left: "/d /d/f /d/g=2",
    landed: "/d/g=1",
    status: 29,
    output: "COPY=1;DIR_COPY=0;SKIP=0;FAIL=1;BYTESCOPIED=1;BYTESSKIPPED=0;WITHOUT ./f;committed without 1;",
};

const CLASHES: [Case; 4] = [
    LEFT_OUT,
    Case {
        source: "/s /s/f=1 /s/g=2",
        target: "/d /d/f",
        words: "-update /s /d",
        left: "/d /d/f",
        landed: "",
        status: 25,
        output: "distcp: clash at ./f;",
    },
    // with a directory all that is listed under it
    Case {
        source: "/s /s/f /s/f/x=1 /s/f/y=22 /s/g=2",
        target: "/d /d/f=0",
        words: "-i -update /s /d",
        left: "/d /d/f=0 /d/g=2",
        landed: "/d/g=1",
        status: 29,
        output: "COPY=1;DIR_COPY=0;SKIP=0;FAIL=3;BYTESCOPIED=1;BYTESSKIPPED=0;WITHOUT ./f;WITHOUT ./f/x;WITHOUT ./f/y;committed without 3;",
    },
    // what clashes is listed, and so is no lack of the source
    Case {
        source: "/s /s/f=1",
        target: "/d /d/f /d/f/x=1 /d/g=2",
        words: "-i -update -delete /s /d",
        left: "/d /d/f",
        landed: "",
        status: 29,
        output: "COPY=0;DIR_COPY=0;SKIP=0;FAIL=1;BYTESCOPIED=0;BYTESSKIPPED=0;WITHOUT ./f;committed without 1;",
    },
];

#[test]
fn what_clashes_ends_the_run_or_is_left_as_it_is(rt: HostRuntime) -> Result<(), Fail> {
    for case in &CLASHES {
        assert_eq!(rt;
            holds(&rt, rt.alloc(), case),
            Ok(true),
            "at {} from {}",
            case.words,
            case.source
        );
    }
    Ok(())
}

// Whether there is one path, of this text.
fn is_one(alloc: Global, paths: &[Path], text: &str) -> Result<bool, OutOfMemory> {
    match paths {
        [path] => Ok(path.text(alloc)?.as_str() == text),
        _ => Ok(false),
    }
}

// Whether a run went on without the item at this path alone.
fn is_without(alloc: Global, ran: &Ran, text: &str) -> Result<bool, OutOfMemory> {
    match &ran.answer.outcome {
        Outcome::CommittedWithout { paths } => is_one(alloc, paths.as_slice(), text),
        _ => Ok(false),
    }
}

// Whether a run went on without the item at this path alone, and came to what the case says.
fn went_on_without(alloc: Global, ran: &Ran, case: &Case, text: &str) -> Result<bool, TreeError> {
    Ok(is_without(alloc, ran, text)? && came_to(alloc, ran, case)?)
}

// Whether the run of a case does.
fn goes_on_without<R: Threads + Sync>(
    rt: &R,
    alloc: Global,
    case: &Case,
    text: &str,
) -> Result<bool, TreeError> {
    let ran = run(rt, alloc, case.source, case.target, case.words, None)?;
    went_on_without(alloc, &ran, case, text)
}

#[test]
fn the_answer_has_the_path_that_is_left_out(rt: HostRuntime) -> Result<(), Fail> {
    assert_eq!(rt; goes_on_without(&rt, rt.alloc(), &LEFT_OUT, "/f"), Ok(true));
    Ok(())
}
