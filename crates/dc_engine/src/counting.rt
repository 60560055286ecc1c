//! The six counters of a copy that is committed, and the paths that it went on without.
#![tactic(auto)]

ghost use Rattle.std.specs.Prelude.{◌≡◌, ◌<◌, ◌^◌, length, IfOk};
ghost use Rattle.dc_commit.specs.Landing.{is_landing};
ghost use Rattle.dc_commit.specs.Settings.{is_dir_item};
ghost use Rattle.dc_ready.specs.Laws.{copied_bytes};
ghost use Rattle.dc_engine.specs.Counting.{is_skipped, copied_of, dirs_of, skipped_of, failed_of, bytes_copied_of, bytes_skipped_of, paths_out};

use crate::Counts;
use dc_decide::{Action, Plan, Planned};
use dc_path::{List, OutOfMemory, Path};
use std::alloc::Global;

// Whether it is a file that lands.
fn is_copied(planned: &Planned) -> bool
    ensures { result ≡ is_landing planned.now }
{
    !planned.is_out() && matches!(planned.action(), Action::Replace | Action::Extend { .. })
}

// Whether it is a directory that the copy goes on with.
fn is_dir(planned: &Planned) -> bool
    ensures { result ≡ is_dir_item planned.now }
{
    !planned.is_out() && planned.item().is_dir()
}

// Whether it is a file that is left as the target has it.
fn is_skipped(planned: &Planned) -> bool
    ensures { result ≡ is_skipped planned.now }
{
    !planned.is_out() && matches!(planned.action(), Action::Skip)
}

// How many bytes of an item land, where it does.
fn bytes_landing(planned: &Planned) -> u64
    ensures { result ≡ copied_bytes planned.now }
{
    let length = planned.item().length();
    match planned.action() {
        Action::Extend { from } => length - from,
        Action::Folder | Action::Skip | Action::Replace => length,
    }
}

// How many files land.
fn count_copied(items: &[Planned]) -> u64
    ensures { result ≡ copied_of items.now }
{
    let mut count = 0u64;
    for planned in items {
        if !is_copied(planned) {
            continue;
        }
        count += 1;
    }
    count
}

// How many directories the copy goes on with.
fn count_dirs(items: &[Planned]) -> u64
    ensures { result ≡ dirs_of items.now }
{
    let mut count = 0u64;
    for planned in items {
        if !is_dir(planned) {
            continue;
        }
        count += 1;
    }
    count
}

// How many files are left as the target has them.
fn count_skipped(items: &[Planned]) -> u64
    ensures { result ≡ skipped_of items.now }
{
    let mut count = 0u64;
    for planned in items {
        if !is_skipped(planned) {
            continue;
        }
        count += 1;
    }
    count
}

// How many items the copy goes on without.
fn count_failed(items: &[Planned]) -> u64
    ensures { result ≡ failed_of items.now }
{
    let mut count = 0u64;
    for planned in items {
        if !planned.is_out() {
            continue;
        }
        count += 1;
    }
    count
}

// The bytes of all landings.
fn bytes_copied(items: &[Planned]) -> u128
    requires { length items.now < 2 ^ 32 }
    ensures { result ≡ bytes_copied_of items.now }
{
    let mut total = 0u128;
    for planned in items {
        if !is_copied(planned) {
            continue;
        }
        total += u128::from(bytes_landing(planned));
    }
    total
}

// The source lengths of the files that are skipped.
fn bytes_skipped(items: &[Planned]) -> u128
    requires { length items.now < 2 ^ 32 }
    ensures { result ≡ bytes_skipped_of items.now }
{
    let mut total = 0u128;
    for planned in items {
        if !is_skipped(planned) {
            continue;
        }
        total += u128::from(planned.item().length());
    }
    total
}

/// The counters of a copy that is committed by this plan. Each is exact: there are fewer than 2^32 items, and the sums of bytes
/// fit 128 bits.
pub(crate) fn count(plan: &Plan) -> Counts
    ensures copied { result.copied ≡ copied_of plan.now.items }
    ensures dirs { result.dirs ≡ dirs_of plan.now.items }
    ensures skipped { result.skipped ≡ skipped_of plan.now.items }
    ensures failed { result.failed ≡ failed_of plan.now.items }
    ensures bytes_copied { result.bytes_copied ≡ bytes_copied_of plan.now.items }
    ensures bytes_skipped { result.bytes_skipped ≡ bytes_skipped_of plan.now.items }
{
    let items = plan.items();
    Counts {
        copied: count_copied(items),
        dirs: count_dirs(items),
        skipped: count_skipped(items),
        failed: count_failed(items),
        bytes_copied: bytes_copied(items),
        bytes_skipped: bytes_skipped(items),
    }
}

/// The paths under the target of the items that the copy goes on without, in path order.
///
/// # Errors
///
/// `OutOfMemory` is the one error.
pub(crate) fn left_out(alloc: Global, plan: &Plan) -> Result<List<Path>, OutOfMemory>
    ensures { IfOk result (λ paths. paths ≡ paths_out plan.now.items) }
{
    let mut paths = List::new(alloc);
    let items = plan.items();
    for planned in items {
        if !planned.is_out() {
            continue;
        }
        paths.add(planned.item().rel().copy(alloc)?)?;
    }
    Ok(paths)
}
