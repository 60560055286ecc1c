//! What a wave gives.
#![tactic(auto)]

ghost use Rattle.std.specs.Prelude.{◌≡◌, ◌++◌, [], IfOk};
ghost use Rattle.dc_pool.specs.Waves.{IsJoined};

use dc_path::{List, OutOfMemory};
use std::alloc::Global;

/// What the work on a number gave.
#[derive(Drop)]
pub struct Receipt<R> {
    /// The number.
    pub number: u32,
    /// What it gave.
    pub value: R,
}

/// What came of each number of a wave. Each stands in exactly one of the five lists.
#[derive(Drop)]
pub struct Wave<R, E> {
    /// The numbers that are done, with their receipts.
    pub done: List<Receipt<R>>,
    /// The numbers whose work failed.
    pub failed: List<u32>,
    /// The numbers whose work was killed.
    pub killed: List<u32>,
    /// The numbers whose work was not begun.
    pub lost: List<u32>,
    /// The numbers that ended for good, and how.
    pub ended: List<Receipt<E>>,
}

// The wave of no numbers.
pub(crate) fn empty<R: Drop, E: Drop>(alloc: Global) -> Wave<R, E>
    ensures { (result.done ≡ []) × (result.failed ≡ []) × (result.killed ≡ []) × (result.lost ≡ []) × (result.ended ≡ []) }
{
    Wave {
        done: List::new(alloc),
        failed: List::new(alloc),
        killed: List::new(alloc),
        lost: List::new(alloc),
        ended: List::new(alloc),
    }
}

// One list behind the other.
fn append<T: Drop>(one: List<T>, other: List<T>) -> Result<List<T>, OutOfMemory>
    ensures { IfOk result (λ both. both ≡ one ++ other) }
{
    let mut items = one.into_vec();
    let mut more = other.into_vec();
    items.append(&mut more)?;
    Ok(List::of(items))
}

// The lists of two waves, one behind the other.
fn merge<R: Drop, E: Drop>(one: Wave<R, E>, other: Wave<R, E>) -> Result<Wave<R, E>, OutOfMemory>
    ensures { IfOk result (IsJoined one other) }
{
    let Wave {
        done,
        failed,
        killed,
        lost,
        ended,
    } = one;
    Ok(Wave {
        done: append(done, other.done)?,
        failed: append(failed, other.failed)?,
        killed: append(killed, other.killed)?,
        lost: append(lost, other.lost)?,
        ended: append(ended, other.ended)?,
    })
}

// The same, where both workers had memory.
pub(crate) fn both<R: Drop, E: Drop>(
    front: Result<Wave<R, E>, OutOfMemory>,
    back: Result<Wave<R, E>, OutOfMemory>,
) -> Result<Wave<R, E>, OutOfMemory>
    ensures { IfOk result (λ w. (a : Wave R E) × (b : Wave R E) × (front ≡ Ok a) × (back ≡ Ok b) × IsJoined a b w) }
{
    merge(front?, back?)
}
