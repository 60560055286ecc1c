//! Kill plans, worked out by hand, with ample memory.
#![tactic(auto)]

use dc_kills::{KillPlan, PlanError, Stop};
use std::alloc::{AllocError, Global};
use std::test::Fail;

// Where the plan that a text spells stops an attempt.
fn stop_in(alloc: Global, text: &str, piece: u32, attempt: u32) -> Result<Option<Stop>, PlanError> {
    let plan = KillPlan::read(alloc, text.as_bytes())?;
    Ok(plan.stop_at(piece, attempt))
}

// Whether a text is refused by its line.
fn is_bad(alloc: Global, text: &str, line: u32) -> bool {
    KillPlan::read(alloc, text.as_bytes()).err() == Some(PlanError::BadLine { line })
}

// Whether a text is refused since an attempt of this line stood before.
fn is_repeated(alloc: Global, text: &str, line: u32) -> bool {
    KillPlan::read(alloc, text.as_bytes()).err() == Some(PlanError::Repeated { line })
}

// A stop at a step, at which the worker goes on.
fn at(step: u64) -> Option<Stop> {
    Some(Stop {
        step,
        worker_too: false,
    })
}

#[test]
fn a_line_stops_one_attempt(rt: HostRuntime) -> Result<(), Fail> {
    assert_eq!(rt; stop_in(rt.alloc(), "0 1 5", 0, 1), Ok(at(5)));
    assert_eq!(rt; stop_in(rt.alloc(), "0 1 5\n0 2 6\n", 0, 2), Ok(at(6)));
    assert_eq!(rt; stop_in(rt.alloc(), "0 1 5\n", 1, 1), Ok(None));
    Ok(())
}

#[test]
fn no_lines_stop_nothing(rt: HostRuntime) -> Result<(), Fail> {
    assert_eq!(rt; stop_in(rt.alloc(), "", 0, 1), Ok(None));
    assert_eq!(rt; KillPlan::none(rt.alloc()).stop_at(0, 1), None);
    assert!(rt; is_bad(rt.alloc(), "\n", 1));
    Ok(())
}

#[test]
fn the_last_part_stops_the_worker(rt: HostRuntime) -> Result<(), Fail> {
    let stop = stop_in(rt.alloc(), "7 1 0 worker\n", 7, 1);
    assert_eq!(rt;
        stop,
        Ok(Some(Stop {
            step: 0,
            worker_too: true
        }))
    );
    assert!(rt; is_bad(rt.alloc(), "7 1 0 workers", 1));
    assert!(rt; is_bad(rt.alloc(), "7 1 0 worker worker", 1));
    Ok(())
}

#[test]
fn one_blank_stands_between_parts(rt: HostRuntime) -> Result<(), Fail> {
    assert_eq!(rt; stop_in(rt.alloc(), "0\t1\t5", 0, 1), Ok(at(5)));
    assert!(rt; is_bad(rt.alloc(), "0  1 5", 1));
    assert!(rt; is_bad(rt.alloc(), "0 1 5 ", 1));
    Ok(())
}

#[test]
fn numbers_may_have_leading_zeros(rt: HostRuntime) -> Result<(), Fail> {
    assert_eq!(rt;
        stop_in(
            rt.alloc(),
            "000 0001 00000000000000000000000000000007",
            0,
            1
        ),
        Ok(at(7))
    );
    assert!(rt; is_bad(rt.alloc(), "+0 1 5", 1));
    assert!(rt; is_bad(rt.alloc(), "0 1", 1));
    Ok(())
}

#[test]
fn attempts_count_from_1_to_their_end(rt: HostRuntime) -> Result<(), Fail> {
    assert!(rt; is_bad(rt.alloc(), "0 0 5", 1));
    assert_eq!(rt;
        stop_in(rt.alloc(), "0 4294967295 5", 0, u32::MAX),
        Ok(at(5))
    );
    assert!(rt; is_bad(rt.alloc(), "0 4294967296 5", 1));
    Ok(())
}

#[test]
fn pieces_end_at_8388607(rt: HostRuntime) -> Result<(), Fail> {
    assert_eq!(rt; stop_in(rt.alloc(), "8388607 1 5", 8_388_607, 1), Ok(at(5)));
    assert!(rt; is_bad(rt.alloc(), "8388608 1 5", 1));
    Ok(())
}

#[test]
fn steps_have_64_bits(rt: HostRuntime) -> Result<(), Fail> {
    assert_eq!(rt;
        stop_in(rt.alloc(), "0 1 18446744073709551615", 0, 1),
        Ok(at(u64::MAX))
    );
    assert!(rt; is_bad(rt.alloc(), "0 1 18446744073709551616", 1));
    Ok(())
}

#[test]
fn the_first_line_with_a_fault_decides(rt: HostRuntime) -> Result<(), Fail> {
    assert!(rt; is_repeated(rt.alloc(), "0 1 5\n0 1 6\n", 2));
    assert!(rt; is_repeated(rt.alloc(), "0 1 5\n1 1 5\n00 01 5 worker\nx\n", 3));
    assert!(rt; is_bad(rt.alloc(), "0 1 5\nx\n0 1 6\n", 2));
    Ok(())
}

// So many lines, each of another attempt.
fn lines(alloc: Global, count: u32) -> Result<String, AllocError> {
    let mut text = String::new(alloc);
    for attempt in 1..=count {
        let line = format!(in alloc; "0 {attempt} 5\n")?;
        text.push_str(line.as_str())?;
    }
    Ok(text)
}

#[test]
fn a_plan_has_65536_lines(rt: HostRuntime) -> Result<(), Fail> {
    let full = lines(rt.alloc(), 65_536)?;
    assert_eq!(rt; stop_in(rt.alloc(), full.as_str(), 0, 65_536), Ok(at(5)));
    let long = lines(rt.alloc(), 65_537)?;
    assert!(rt; is_bad(rt.alloc(), long.as_str(), 65_537));
    Ok(())
}
