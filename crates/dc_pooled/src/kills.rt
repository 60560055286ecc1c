//! What a killed number takes with it.
#![tactic(auto)]

use crate::script::{Script, run};
use dc_path::List;
use dc_pool::{Receipt, Wave};
use std::test::Fail;

// Whether these numbers have receipts, each with its number for its value, in this order.
fn are(receipts: &List<Receipt<u32>>, numbers: &[u32]) -> bool {
    if receipts.len() != numbers.len() {
        return false;
    }
    for (receipt, number) in receipts.as_slice().iter().zip(numbers) {
        if receipt.number != *number || receipt.value != *number {
            return false;
        }
    }
    true
}

// Whether these are the numbers of a list, in this order.
fn has(list: &List<u32>, numbers: &[u32]) -> bool {
    list.as_slice() == numbers
}

// Whether so many numbers stand in each list: done, failed, killed, lost, ended.
fn counts(wave: &Wave<u32, u32>) -> (usize, usize, usize, usize, usize) {
    (
        wave.done.len(),
        wave.failed.len(),
        wave.killed.len(),
        wave.lost.len(),
        wave.ended.len(),
    )
}

#[test]
fn each_number_goes_where_it_is_told(rt: HostRuntime) -> Result<(), Fail> {
    let script = Script {
        count: 5,
        stopper: 9,
        killed: 1,
        failing: 2,
        ending: 3,
    };
    let wave = run(&rt, rt.alloc(), &script, &[1, 1, 1, 1, 1], 1).expect(&rt, "memory");
    assert!(rt; are(&wave.done, &[0, 4]));
    assert!(rt; has(&wave.failed, &[2]));
    assert!(rt; has(&wave.killed, &[1]));
    assert!(rt; wave.lost.is_empty());
    assert!(rt; are(&wave.ended, &[3]));
    Ok(())
}

#[test]
fn a_stopped_worker_loses_its_bundle_and_those_that_nobody_draws(
    rt: HostRuntime,
) -> Result<(), Fail> {
    let script = Script {
        count: 4,
        stopper: 1,
        killed: 9,
        failing: 9,
        ending: 9,
    };
    let wave = run(&rt, rt.alloc(), &script, &[1, 1, 1, 3], 1).expect(&rt, "memory");
    assert!(rt; are(&wave.done, &[0]));
    assert!(rt; has(&wave.killed, &[1]));
    assert!(rt; has(&wave.lost, &[2, 3]));
    assert_eq!(rt; counts(&wave), (1, 0, 1, 2, 0));
    Ok(())
}

#[test]
fn another_worker_draws_the_other_bundle(rt: HostRuntime) -> Result<(), Fail> {
    let script = Script {
        count: 4,
        stopper: 1,
        killed: 9,
        failing: 9,
        ending: 9,
    };
    let wave = run(&rt, rt.alloc(), &script, &[1, 1, 1, 3], 2).expect(&rt, "memory");
    assert!(rt; has(&wave.killed, &[1]));
    assert!(rt; has(&wave.lost, &[2]));
    assert_eq!(rt; counts(&wave), (2, 0, 1, 1, 0));
    Ok(())
}
