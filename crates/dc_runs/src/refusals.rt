//! Runs that are refused: for their words, for what stands at their paths, and for what is listed.
#![tactic(auto)]

use crate::runs::{Ran, ends_with, has_landed, leaves, run};
use dc_attrs::TreeError;
use std::alloc::Global;
use std::test::Fail;
use std::thread::Threads;

const SOURCE: &str = "/s /s/a=1";

// Whether a run ended with this status and line, and left the target as this tree.
fn is_refusal(
    alloc: Global,
    ran: &Ran,
    target: &str,
    status: u8,
    line: &str,
) -> Result<bool, TreeError> {
    Ok(
        leaves(alloc, ran, target)?
            && has_landed(alloc, ran, "")?
            && ends_with(alloc, ran, status, line)?,
    )
}

// Whether a run from one tree to another ends with this status and line, and leaves the target as it was.
fn refuses<R: Threads + Sync>(
    rt: &R,
    alloc: Global,
    source: &str,
    target: &str,
    words: &str,
    status: u8,
    line: &str,
) -> Result<bool, TreeError> {
    let ran = run(rt, alloc, source, target, words, None)?;
    is_refusal(alloc, &ran, target, status, line)
}

// Words, and the line that a run of them ends with.
const WORDS: [(&str, &str); 32] = [
    ("", "distcp: bad option: no paths;"),
    ("/s", "distcp: bad option: no paths;"),
    ("-update -delete", "distcp: bad option: no paths;"),
    ("-", "distcp: bad option: unknown -;"),
    ("-x /s /d", "distcp: bad option: unknown -x;"),
    ("/s /d -log", "distcp: bad option: unknown -log;"),
    ("-x s", "distcp: bad option: unknown -x;"),
    ("s -x", "distcp: bad option: bad path s;"),
    ("/s d", "distcp: bad option: bad path d;"),
    ("/s/.. /d", "distcp: bad option: bad path /s/..;"),
    (
        "-update -update /s /d",
        "distcp: bad option: repeated -update;",
    ),
    ("-pu -pg /s /d", "distcp: bad option: repeated -pg;"),
    ("-m", "distcp: bad option: no value for -m;"),
    ("-m 0 /s /d", "distcp: bad option: bad number for -m;"),
    ("-m 65536 /s /d", "distcp: bad option: bad number for -m;"),
    (
        "-copybuffersize 0 /s /d",
        "distcp: bad option: bad number for -copybuffersize;",
    ),
    ("-pq /s /d", "distcp: bad option: bad letter at 0;"),
    ("-puq /s /d", "distcp: bad option: bad letter at 1;"),
    ("-strategy fast /s /d", "distcp: bad option: bad strategy;"),
    (
        "-diff .snapshot t /s /d",
        "distcp: bad option: bad snapshot for -diff;",
    ),
    ("-f l /d", "distcp: bad option: bad path l;"),
    (
        "-overwrite -update /s /d",
        "distcp: bad option: -update with -overwrite;",
    ),
    (
        "-update -atomic /s /d",
        "distcp: bad option: -update with -atomic;",
    ),
    (
        "-overwrite -atomic /s /d",
        "distcp: bad option: -overwrite with -atomic;",
    ),
    (
        "-delete",
        "distcp: bad option: -delete needs -update or -overwrite;",
    ),
    (
        "-append /s /d",
        "distcp: bad option: -append needs -update;",
    ),
    (
        "-update -append -skipcrccheck /s /d",
        "distcp: bad option: -append with -skipcrccheck;",
    ),
    (
        "-diff s t /s /d",
        "distcp: bad option: -diff needs -update;",
    ),
    (
        "-update -delete -diff s t /s /d",
        "distcp: bad option: -delete with a report;",
    ),
    ("-tmp /t /s /d", "distcp: bad option: -tmp needs -atomic;"),
    ("-f /l /s /d", "distcp: bad option: -f with source paths;"),
    (
        "-update -diff s t /s /x /d",
        "distcp: bad option: a report needs one source;",
    ),
];

#[test]
fn words_are_refused_from_left_to_right_and_then_together(rt: HostRuntime) -> Result<(), Fail> {
    let alloc = rt.alloc();
    for (words, line) in &WORDS {
        assert_eq!(rt;
            refuses(&rt, alloc, SOURCE, "/d", words, 255, line),
            Ok(true),
            "at {words}"
        );
    }
    Ok(())
}

// Words and a line, where the source has a directory `/s` and files `/a` and `/m` beside, and the target a directory `/e` and
// a file `/f`.
const PATHS: [(&str, &str); 24] = [
    ("/t /d", "distcp: no source /t;"),
    ("/s /t /d", "distcp: no source /t;"),
    ("//t///u/ /d", "distcp: no source /t/u;"),
    ("/a/x /d", "distcp: no source /a/x;"),
    ("/t /.snapshot", "distcp: no source /t;"),
    ("-f /n /d", "distcp: no file /n;"),
    ("-f /s /d", "distcp: no file /s;"),
    ("-f /l /d", "distcp: bad list in line 2;"),
    ("-f /m /d", "distcp: bad list in line 0;"),
    ("-filters /n /s /d", "distcp: no file /n;"),
    ("-kills /l /s /d", "distcp: bad kill plan in line 1;"),
    ("-kills /n -filters /k /t /d", "distcp: no file /k;"),
    ("/s /.snapshot", "distcp: bad target: in a snapshot;"),
    ("/s /f/.snapshot", "distcp: bad target: in a snapshot;"),
    (
        "-atomic -tmp /.snapshot/t /s /d",
        "distcp: bad target: in a snapshot;",
    ),
    ("/s /f/d", "distcp: bad target: under a file;"),
    ("/a /s /f/d/e", "distcp: bad target: under a file;"),
    (
        "/s /a /f",
        "distcp: bad target: several sources onto a file;",
    ),
    ("/s /f", "distcp: bad target: a directory onto a file;"),
    ("-atomic /s /e", "distcp: bad target: exists under -atomic;"),
    ("-atomic /a /f", "distcp: bad target: exists under -atomic;"),
    (
        "-atomic -tmp /f /s /d",
        "distcp: bad target: no folder for -tmp;",
    ),
    (
        "-atomic -tmp /n /s /d",
        "distcp: bad target: no folder for -tmp;",
    ),
    (
        "-atomic -tmp /e /s /e/.distcp.work/d",
        "distcp: bad target: work path and target overlap;",
    ),
];

#[test]
fn what_stands_at_the_paths_is_refused_in_order(rt: HostRuntime) -> Result<(), Fail> {
    let alloc = rt.alloc();
    let source = "/a=0 /l=/s;s /m= /s /s/a=1";
    for (words, line) in &PATHS {
        assert_eq!(rt;
            refuses(&rt, alloc, source, "/e /f=0", words, 255, line),
            Ok(true),
            "at {words}"
        );
    }
    Ok(())
}

// A source, a target, words, the exit status and the line.
const LISTED: [(&str, &str, &str, u8, &str); 5] = [
    (
        "/s1 /s1/c=1 /s2 /s2/c=2",
        "-",
        "-update /s1 /s2 /d",
        254,
        "distcp: duplicate ./c from /s1/c and /s2/c;",
    ),
    (
        "/a /a/x /a/x/f=1 /b /b/x /b/x/g=1",
        "/d",
        "/a/x /b/x /d",
        254,
        "distcp: duplicate ./x from /a/x and /b/x;",
    ),
    (
        "/s /s/f=1 /s/g=2",
        "/d /d/f",
        "-update /s /d",
        25,
        "distcp: clash at ./f;",
    ),
    (
        "/s /s/f /s/f/g=1",
        "/d /d/s=0",
        "/s /d",
        25,
        "distcp: clash at ./s;",
    ),
    (
        "/s /s/.snapshot /s/.snapshot/k=1",
        "/d",
        "/s/.snapshot /d",
        255,
        "distcp: bad target: in a snapshot;",
    ),
];

#[test]
fn what_is_listed_twice_or_clashes_is_refused(rt: HostRuntime) -> Result<(), Fail> {
    for (source, target, words, status, line) in &LISTED {
        assert_eq!(rt;
            refuses(&rt, rt.alloc(), source, target, words, *status, line),
            Ok(true),
            "at {line}"
        );
    }
    Ok(())
}
