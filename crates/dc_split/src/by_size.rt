//! Bundles of about one size.
#![tactic(auto)]

ghost use Rattle.std.specs.Prelude.{◌≡◌, ◌≤◌, ◌<◌, ◌^◌, [], ◌∷◌, length, sum, IfOk};
ghost use Rattle.dc_split.specs.Bundles.{AreUniform, HoldEachOnce, limit_of};

use dc_path::{List, OutOfMemory};
use std::alloc::Global;
use std::mem;

// The sum of all lengths.
fn total(lengths: &[u64]) -> u128
    requires { length lengths.now < 2 ^ 32 }
    ensures { result ≡ sum lengths.now }
{
    let mut total = 0u128;
    for length in lengths {
        total += u128::from(*length);
    }
    total
}

// The bundle of one record.
fn bundle_of(alloc: Global, number: u32) -> Result<List<u32>, OutOfMemory>
    ensures { IfOk result (λ bundle. bundle ≡ number ∷ []) }
{
    let mut bundle = List::new(alloc);
    bundle.add(number)?;
    Ok(bundle)
}

/// Splits records of these lengths, in bytes, into bundles of about one size, for so many maps.
///
/// The limit is the sum of all lengths divided by `maps`, rounded up. Records are taken in order. One that would
/// make the current bundle pass the limit opens a new bundle, unless it is the first of all. So a bundle passes
/// the limit only where it is one record, and no records make no bundles (Hadoop DistCp,
/// `UniformSizeInputFormat`).
///
/// `OutOfMemory` is the one error. Sums have 128 bits.
pub fn uniform(alloc: Global, lengths: &[u64], maps: u32) -> Result<List<List<u32>>, OutOfMemory>
    requires some { 1 ≤ maps }
    requires few { length lengths.now < 2 ^ 32 }
    ensures bundles { IfOk result (AreUniform lengths.now maps) }
    ensures once { IfOk result (HoldEachOnce (length lengths.now)) }
    ensures few { IfOk result (λ bundles. length bundles ≤ length lengths.now) }
{
    let limit = total(lengths).div_ceil(u128::from(maps));
    let mut bundles = List::new(alloc);
    let Some(first) = lengths.first() else {
        return Ok(bundles);
    };
    let mut bundle = bundle_of(alloc, 0)?;
    let mut size = u128::from(*first);
    for number in 1..lengths.len() {
        let length = u128::from(lengths[number]);
        if size + length > limit {
            let next = bundle_of(alloc, number as u32)?;
            bundles.add(mem::replace(&mut bundle, next))?;
            size = length;
        } else {
            bundle.add(number as u32)?;
            size += length;
        }
    }
    bundles.add(bundle)?;
    Ok(bundles)
}
