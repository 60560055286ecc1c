//! The tests before the listing with a report: what it looks for stands in the later snapshot.
#![tactic(auto)]

ghost use Rattle.std.specs.Prelude.{◌≡◌, ◌≤◌, ◌+◌, length, map};
ghost use Rattle.dc_fs.specs.Views.{view};
ghost use Rattle.dc_report.specs.Carrying.{carries_of};
ghost use Rattle.dc_replay.specs.ListingTests.{listed_answer, listing_answer, listing_test};
ghost use Rattle.dc_sync.specs.Checks.{Tests};

use crate::SyncError;
use crate::looks::{is_standing, look_below};
use crate::tests::refuse;
use dc_fs::Store;
use dc_path::{List, Name, Path};
use dc_report::{Entry, Report};
use std::alloc::Global;

// The test that something stands at a path of the snapshot, where there is one to look for.
fn test_listed<S: Store>(
    alloc: Global,
    store: &mut S,
    snapshot: &Path,
    path: Option<List<Name>>,
) -> Result<(), SyncError>
    ensures tests { Tests (view S.Store store.old) (view S.Store store.new) snapshot.now (λ N. listed_answer snapshot.now N path) result }
    ensures looks { S.looks store.new ≤ S.looks store.old + 1 }
{
    let Some(path) = path else {
        return Ok(());
    };
    let shown = look_below(alloc, store, snapshot, path.as_slice())?;
    if is_standing(shown) {
        Ok(())
    } else {
        refuse(alloc, snapshot, path.as_slice())
    }
}

// The test of an entry: where what is modified goes, or the place of what is created.
fn test_entry<S: Store>(
    alloc: Global,
    store: &mut S,
    snapshot: &Path,
    report: &Report,
    entry: &Entry,
) -> Result<(), SyncError>
    ensures tests { Tests (view S.Store store.old) (view S.Store store.new) snapshot.now (λ N. listing_test snapshot.now report.now N entry.now) result }
    ensures looks { S.looks store.new ≤ S.looks store.old + 1 }
{
    match entry {
        Entry::Deleted(_) | Entry::Renamed { .. } => Ok(()),
        Entry::Modified(path) => {
            if path.len() == 0 {
                return Ok(());
            }
            let to = report.moved_names(alloc, path.names())?;
            test_listed(alloc, store, snapshot, to)
        }
        Entry::Created(path) => {
            let place = report.place_names(alloc, path)?;
            test_listed(alloc, store, snapshot, place)
        }
    }
}

/// Tests that what the listing with a report looks for stands in the later snapshot, over the entries in order: where what
/// is modified goes, and the place of what is created. One look for each entry at most.
pub fn test_listing<S: Store>(
    alloc: Global,
    store: &mut S,
    snapshot: &Path,
    report: &Report,
) -> Result<(), SyncError>
    ensures tests { Tests (view S.Store store.old) (view S.Store store.new) snapshot.now (listing_answer snapshot.now report.now) result }
    ensures looks { S.looks store.new ≤ S.looks store.old + length report.now }
{
    for entry in report.entries().as_slice() {
        test_entry(alloc, store, snapshot, report, entry)?;
    }
    Ok(())
}
