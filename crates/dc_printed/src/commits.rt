//! Runs that commit, and sinks that fail.
#![tactic(auto)]

use crate::ended::{prints, unprinted};
use dc_engine::{Counts, Outcome};
use dc_memfs::MemSink;
use dc_output::{Answer, print, print_no_memory, status};
use dc_path::{List, OutOfMemory, Path, PathError};
use std::alloc::Global;
use std::test::Fail;

const COUNTS: Counts = Counts {
    copied: 10,
    dirs: 4,
    skipped: 0,
    failed: 2,
    bytes_copied: 340_282_366_920_938_463_463_374_607_431_768_211_455,
    bytes_skipped: 9,
};

// What a run prints of these counters.
const COUNTERS: &str =
    "COPY=10\nDIR_COPY=4\nSKIP=0\nFAIL=2\nBYTESCOPIED=340282366920938463463374607431768211455\nBYTESSKIPPED=9\n";

// The answer of a run that committed with these counters, and is not printed yet.
fn committed(outcome: Outcome) -> Answer {
    let mut answer = unprinted(outcome);
    answer.counts = COUNTS;
    answer
}

// Whether a run that committed prints its counters and then these lines.
fn ends_after_counters(
    alloc: Global,
    outcome: Outcome,
    lines: &str,
    code: u8,
) -> Result<bool, OutOfMemory> {
    let mut text = String::from_str(alloc, COUNTERS)?;
    text.push_str(lines)?;
    prints(alloc, committed(outcome), text.as_str(), code)
}

#[test]
fn a_run_that_commits_prints_its_counters_first(rt: HostRuntime) -> Result<(), Fail> {
    assert_eq!(rt;
        ends_after_counters(rt.alloc(), Outcome::Committed, "committed\n", 0),
        Ok(true)
    );
    Ok(())
}

// Adds the path of a text.
fn add(alloc: Global, paths: &mut List<Path>, text: &str) -> Result<(), PathError> {
    let path = Path::read(alloc, text)?;
    Ok(paths.add(path)?)
}

// A run that committed without two items.
fn without(alloc: Global) -> Result<Outcome, PathError> {
    let mut paths = List::new(alloc);
    add(alloc, &mut paths, "/a/b")?;
    add(alloc, &mut paths, "/c")?;
    Ok(Outcome::CommittedWithout { paths })
}

// Whether it ends so.
fn ends_without(alloc: Global, lines: &str) -> Result<bool, PathError> {
    let outcome = without(alloc)?;
    Ok(ends_after_counters(alloc, outcome, lines, 29)?)
}

#[test]
fn what_a_run_went_on_without_has_a_line_for_each(rt: HostRuntime) -> Result<(), Fail> {
    let lines = "WITHOUT ./a/b\nWITHOUT ./c\ncommitted without 2\n";
    assert_eq!(rt; ends_without(rt.alloc(), lines), Ok(true));
    Ok(())
}

// Whether a run that committed so has status 28 where its sink fails from a write on, and has printed this front before.
fn is_unprinted(
    alloc: Global,
    outcome: Outcome,
    fail_at: u64,
    front: &str,
) -> Result<bool, OutOfMemory> {
    let mut answer = committed(outcome);
    let mut sink = MemSink::new(alloc, Some(fail_at))?;
    answer.printed = print(&answer, &mut sink);
    Ok(!answer.printed && status(&answer) == 28 && sink.bytes() == front.as_bytes())
}

// The write that fails, and what the sink has taken before it.
const FRONTS: [(u64, &str); 4] = [(1, ""), (2, "COPY="), (4, "COPY=10\n"), (19, COUNTERS)];

#[test]
fn a_commit_that_is_not_printed_has_a_status_of_its_own(rt: HostRuntime) -> Result<(), Fail> {
    for (fail_at, front) in FRONTS {
        assert_eq!(rt;
            is_unprinted(rt.alloc(), Outcome::Committed, fail_at, front),
            Ok(true),
            "at {fail_at}"
        );
    }
    Ok(())
}

// Whether the same holds of a run that committed without two items.
fn is_unprinted_without(alloc: Global) -> Result<bool, PathError> {
    let outcome = without(alloc)?;
    Ok(is_unprinted(alloc, outcome, 19, COUNTERS)?)
}

#[test]
fn so_has_a_commit_without_some_items(rt: HostRuntime) -> Result<(), Fail> {
    assert_eq!(rt; is_unprinted_without(rt.alloc()), Ok(true));
    Ok(())
}

// Whether want of memory before a run is printed.
fn lacks_memory(alloc: Global) -> Result<bool, OutOfMemory> {
    let mut sink = MemSink::new(alloc, None)?;
    let answer = print_no_memory(&mut sink);
    Ok(answer.printed && status(&answer) == 24 && sink.bytes() == "distcp: no memory\n".as_bytes())
}

#[test]
fn want_of_memory_is_printed_before_a_run(rt: HostRuntime) -> Result<(), Fail> {
    assert_eq!(rt; lacks_memory(rt.alloc()), Ok(true));
    Ok(())
}
