//! Bundles that records are dealt out to.
#![tactic(auto)]

ghost use Rattle.std.specs.Prelude.{◌≡◌, ◌≤◌, [], map, length, IfOk};
ghost use Rattle.dc_split.specs.Bundles.{HoldEachOnce, dynamic_bundles, numbers};

use dc_path::{List, OutOfMemory};
use std::alloc::Global;

// So many bundles of no records.
fn empty_bundles(alloc: Global, count: u32) -> Result<Vec<List<u32>>, OutOfMemory>
    ensures { IfOk result (λ bundles. bundles.items ≡ map (λ _. []) (numbers count)) }
{
    let mut bundles = Vec::new(alloc);
    for _place in 0..count {
        bundles.push(List::new(alloc))?;
    }
    Ok(bundles)
}

/// Splits so many records into bundles for so many maps, without regard to lengths.
///
/// There are as many bundles as two for each map, but no more than there are records. A record goes to the
/// bundle whose place is what its number leaves when it is divided by the number of bundles. So no bundle is
/// empty, and no records make no bundles.
///
/// `OutOfMemory` is the one error.
pub fn dynamic(alloc: Global, count: u32, maps: u32) -> Result<List<List<u32>>, OutOfMemory>
    requires { 1 ≤ maps }
    ensures bundles { IfOk result (λ bundles. bundles ≡ dynamic_bundles count maps) }
    ensures once { IfOk result (HoldEachOnce count) }
    ensures few { IfOk result (λ bundles. length bundles ≤ count) }
{
    let places = count.min(maps.saturating_mul(2));
    let mut bundles = empty_bundles(alloc, places)?;
    for number in 0..count {
        let place = (number % places) as usize;
        bundles[place].add(number)?;
    }
    Ok(List::of(bundles))
}
