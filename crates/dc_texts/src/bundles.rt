//! Bundles of records, worked out by hand, with ample memory.
#![tactic(auto)]

ghost use Rattle.std.specs.Prelude.{◌≤◌, ◌<◌, ◌^◌, length};

use dc_path::{List, OutOfMemory};
use dc_split::laws::bundle_laws;
use dc_split::{dynamic, uniform};
use std::alloc::Global;
use std::test::Fail;

// Whether these are the bundles.
fn are(bundles: &List<List<u32>>, expected: &[&[u32]]) -> bool {
    if bundles.len() != expected.len() {
        return false;
    }
    for (bundle, numbers) in bundles.as_slice().iter().zip(expected) {
        if bundle.as_slice() != *numbers {
            return false;
        }
    }
    true
}

// Whether records of these lengths are in these bundles.
fn fill(alloc: Global, lengths: &[u64], maps: u32, expected: &[&[u32]]) -> Result<bool, OutOfMemory>
    requires some { 1 ≤ maps }
    requires few { length lengths.now < 2 ^ 32 }
{
    Ok(are(&uniform(alloc, lengths, maps)?, expected))
}

// Whether so many records are in these bundles.
fn deal(alloc: Global, count: u32, maps: u32, expected: &[&[u32]]) -> Result<bool, OutOfMemory>
    requires { 1 ≤ maps }
{
    Ok(are(&dynamic(alloc, count, maps)?, expected))
}

#[test]
fn a_bundle_may_reach_the_limit(rt: HostRuntime) -> Result<(), Fail> {
    assert_eq!(rt;
        fill(rt.alloc(), &[3, 3, 3], 2, &[&[0], &[1], &[2]]),
        Ok(true)
    );
    assert_eq!(rt;
        fill(rt.alloc(), &[1, 1, 1, 1], 2, &[&[0, 1], &[2, 3]]),
        Ok(true)
    );
    assert_eq!(rt; fill(rt.alloc(), &[5, 0, 7], 1, &[&[0, 1, 2]]), Ok(true));
    Ok(())
}

#[test]
fn empty_records_are_in_one_bundle(rt: HostRuntime) -> Result<(), Fail> {
    assert_eq!(rt; fill(rt.alloc(), &[0, 0], 2, &[&[0, 1]]), Ok(true));
    assert_eq!(rt; fill(rt.alloc(), &[], 2, &[]), Ok(true));
    bundle_laws();
    Ok(())
}

#[test]
fn a_record_past_the_limit_is_alone(rt: HostRuntime) -> Result<(), Fail> {
    assert_eq!(rt; fill(rt.alloc(), &[9, 1, 1], 3, &[&[0], &[1, 2]]), Ok(true));
    assert_eq!(rt;
        fill(rt.alloc(), &[1, 9, 1], 3, &[&[0], &[1], &[2]]),
        Ok(true)
    );
    assert_eq!(rt; fill(rt.alloc(), &[1, 1, 9], 3, &[&[0, 1], &[2]]), Ok(true));
    Ok(())
}

#[test]
fn a_sum_may_pass_64_bits(rt: HostRuntime) -> Result<(), Fail> {
    let longest = [u64::MAX, u64::MAX];
    assert_eq!(rt; fill(rt.alloc(), &longest, 1, &[&[0, 1]]), Ok(true));
    assert_eq!(rt; fill(rt.alloc(), &longest, 2, &[&[0], &[1]]), Ok(true));
    assert_eq!(rt;
        fill(rt.alloc(), &[1, 0, 1], 65_535, &[&[0, 1], &[2]]),
        Ok(true)
    );
    Ok(())
}

#[test]
fn records_are_dealt_to_two_bundles_a_map(rt: HostRuntime) -> Result<(), Fail> {
    assert_eq!(rt;
        deal(rt.alloc(), 5, 2, &[&[0, 4], &[1], &[2], &[3]]),
        Ok(true)
    );
    assert_eq!(rt; deal(rt.alloc(), 5, 1, &[&[0, 2, 4], &[1, 3]]), Ok(true));
    Ok(())
}

#[test]
fn no_more_bundles_than_records(rt: HostRuntime) -> Result<(), Fail> {
    assert_eq!(rt; deal(rt.alloc(), 0, 2, &[]), Ok(true));
    assert_eq!(rt; deal(rt.alloc(), 3, 65_535, &[&[0], &[1], &[2]]), Ok(true));
    assert_eq!(rt; deal(rt.alloc(), 2, u32::MAX, &[&[0], &[1]]), Ok(true));
    Ok(())
}
