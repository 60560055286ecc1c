//! Whether a target stands where a report begins.
#![tactic(auto)]

ghost use Rattle.std.specs.Prelude.{◌≡◌, ◌≤◌, ◌+◌, true, None, Err, IfErr, IfSome};
ghost use Rattle.dc_fs.specs.Views.{view, OnlyLooks};
ghost use Rattle.dc_path.specs.Unless.{GivesUnless};
ghost use Rattle.dc_sync.specs.Beginning.{begins_at, first_path};
ghost use Rattle.dc_sync.specs.Errors.{Gives, is_denied, is_fault};

use crate::{SyncError, read_report};
use dc_fs::Target;
use dc_path::{Name, Path};
use dc_report::Entry;
use std::alloc::Global;

// The refusal of a target for which there is this entry.
fn not_at_begin(alloc: Global, entry: &Entry) -> Result<(), SyncError>
    ensures { GivesUnless SyncError.Memory result (Err (SyncError.NotAtBegin (first_path entry.now))) }
{
    let path = match entry {
        Entry::Deleted(path) => path,
        Entry::Renamed { from, .. } => from,
        Entry::Created(path) => path,
        Entry::Modified(path) => path,
    };
    let path = path.copy(alloc)?;
    Err(SyncError::NotAtBegin { path })
}

/// Tests that a target is as it was at a snapshot: the target's report from the snapshot to now has no entries (Hadoop DistCp,
/// `DistCpSync.checkNoChange`).
///
/// The target is looked at twice.
///
/// # Errors
///
/// - those of `read_report`, for the report of the target from the snapshot to now;
/// - `NotAtBegin` with the first path of the report's first entry, exactly where it has one.
pub fn at_begin<T: Target>(
    alloc: Global,
    target: &mut T,
    base: &Path,
    from: &Name,
) -> Result<(), SyncError>
    ensures target { OnlyLooks (view T.Store target.old) (view T.Store target.new) result is_fault }
    ensures looks { T.looks target.new ≤ T.looks target.old + 2 }
    ensures begins { IfSome (T.tree target.old) (λ t. Gives result (begins_at t base.now from.now)) }
    ensures denied { IfErr result (λ e. is_denied e ≡ true → T.tree target.old ≡ None) }
{
    let report = read_report(alloc, target, base, from, None)?;
    match report.entries().get(0) {
        None => Ok(()),
        Some(entry) => not_at_begin(alloc, entry),
    }
}
