//! The tests of a report on a target, each by a look or two.
#![tactic(auto)]

ghost use Rattle.std.specs.Prelude.{◌≡◌, ◌≤◌, ◌+◌, ◌||◌, not, Ok, Err, Some, cond, is_some};
ghost use Rattle.std.specs.BTreeSet.{contains};
ghost use Rattle.std.specs.List.{list_any};
ghost use Rattle.dc_fs.specs.Views.{view};
ghost use Rattle.dc_path.specs.Paths.{Names, front_of, path_cmp, same_path};
ghost use Rattle.dc_path.specs.Unless.{GivesUnless};
ghost use Rattle.dc_report.specs.Carries.{carries_in, OldsFit};
ghost use Rattle.dc_report.specs.Carrying.{carries_of, is_made, plan};
ghost use Rattle.dc_report.specs.Landings.{sources_of};
ghost use Rattle.dc_report.specs.Moves.{stage_name};
ghost use Rattle.dc_report.specs.Writing.{paths_of};
ghost use Rattle.dc_replay.specs.Checking.{begins_with};
ghost use Rattle.dc_replay.specs.Limits.{entry_answer, landing_answer, made_answer, new_answer, own_answer, place_answer, stage_answer};
ghost use Rattle.dc_replay.specs.TestAnswers.{FalseAt, holds_if, within};
ghost use Rattle.dc_sync.specs.Checks.{Tests, TestsPaths, renamed};

use crate::SyncError;
use crate::looks::{is_standing, look_back, look_below, origin, other_origin};
use crate::steps::{name_of, step_on};
use dc_attrs::Seen;
use dc_fs::Store;
use dc_path::{List, Name, Path};
use dc_report::{Carries, Entry, Report};
use std::alloc::Global;
use std::collections::BTreeSet;

// The names of a path but the last.
fn front(path: &Path) -> &[Name]
    ensures { result.now ≡ front_of path.now }
{
    let names = path.names();
    &names[..names.len().saturating_sub(1)]
}

// The refusal of a report at a path, unless a test of it holds.
fn hold(alloc: Global, holds: bool, path: &Path) -> Result<(), SyncError>
    ensures { GivesUnless SyncError.Memory result (cond holds (Ok tt) (Err (SyncError.ReportFalse path.now))) }
{
    if holds {
        return Ok(());
    }
    let path = path.copy(alloc)?;
    Err(SyncError::ReportFalse { path })
}

// Tests that something stands at a path.
fn test_there<S: Store>(
    alloc: Global,
    store: &mut S,
    base: &Path,
    path: &Path,
) -> Result<(), SyncError>
    ensures tests { Tests (view S.Store store.old) (view S.Store store.new) base.now (λ A. within base.now path.now (holds_if (is_some (A path.now)) path.now)) result }
    ensures looks { S.looks store.new ≤ S.looks store.old + 1 }
{
    let shown = look_below(alloc, store, base, path.names())?;
    hold(alloc, is_standing(shown), path)
}

// Tests that what was created was created in a directory that is not deleted.
fn test_created<S: Store>(
    alloc: Global,
    store: &mut S,
    base: &Path,
    report: &Report,
    path: &Path,
) -> Result<(), SyncError>
    ensures tests { Tests (view S.Store store.old) (view S.Store store.new) base.now (λ A. entry_answer base.now (plan report.now) A (Entry.Created path.now)) result }
    ensures looks { S.looks store.new ≤ S.looks store.old + 1 }
{
    let goes = report.moved_names(alloc, front(path))?.is_some();
    let shown = look_below(alloc, store, base, front(path))?;
    hold(alloc, shown == Seen::Dir && goes, path)
}

/// Tests that the target has what an entry needs.
pub(crate) fn test_entry<S: Store>(
    alloc: Global,
    store: &mut S,
    base: &Path,
    report: &Report,
    entry: &Entry,
) -> Result<(), SyncError>
    ensures tests { Tests (view S.Store store.old) (view S.Store store.new) base.now (λ A. entry_answer base.now (plan report.now) A entry.now) result }
    ensures looks { S.looks store.new ≤ S.looks store.old + 1 }
{
    match entry {
        Entry::Deleted(path) => test_there(alloc, store, base, path),
        Entry::Renamed { from, .. } => test_there(alloc, store, base, from),
        Entry::Created(path) => test_created(alloc, store, base, report, path),
        Entry::Modified(path) => {
            if path.len() == 0 {
                Ok(())
            } else {
                test_there(alloc, store, base, path)
            }
        }
    }
}

// Tests that nothing else is moved to a new path.
fn test_own<S: Store>(
    alloc: Global,
    store: &mut S,
    base: &Path,
    report: &Report,
    sources: &Carries,
    from: &Path,
    to: &Path,
) -> Result<(), SyncError>
    requires sources { sources.now.entries ≡ sources_of (carries_of report.now) }
    requires fit { OldsFit (carries_in sources.now.entries) }
    ensures tests { Tests (view S.Store store.old) (view S.Store store.new) base.now (λ A. own_answer base.now (plan report.now) A (renamed from.now to.now)) result }
    ensures looks { S.looks store.new ≤ S.looks store.old + 1 }
{
    let found = other_origin(alloc, report, sources, to)?;
    let other = match &found {
        Some(path) => path.as_slice() != from.names(),
        None => false,
    };
    let shown = look_back(alloc, store, base, found)?;
    hold(alloc, !(is_standing(shown) && other), to)
}

// Tests that a new path has a parent to land in.
fn test_landing<S: Store>(
    alloc: Global,
    store: &mut S,
    base: &Path,
    report: &Report,
    sources: &Carries,
    made: &BTreeSet<Path>,
    from: &Path,
    to: &Path,
) -> Result<(), SyncError>
    requires sources { sources.now.entries ≡ sources_of (carries_of report.now) }
    requires fit { OldsFit (carries_in sources.now.entries) }
    requires made { (q : Names) → contains path_cmp made.now q ≡ is_made (plan report.now) (plan report.now).news q }
    ensures tests { Tests (view S.Store store.old) (view S.Store store.new) base.now (λ A. landing_answer base.now (plan report.now) A (renamed from.now to.now)) result }
    ensures looks { S.looks store.new ≤ S.looks store.old + 1 }
{
    let Some(parent) = to.parent(alloc)? else {
        return Ok(());
    };
    if parent.len() == 0 {
        return Ok(());
    }
    let is_made = made.contains(&parent);
    let found = origin(alloc, report, sources, parent.names())?;
    let shown = look_back(alloc, store, base, found)?;
    hold(alloc, shown == Seen::Dir || is_made, to)
}

/// Tests that nothing else is moved to a new path, and that it has a parent to land in.
pub(crate) fn test_new<S: Store>(
    alloc: Global,
    store: &mut S,
    base: &Path,
    report: &Report,
    sources: &Carries,
    made: &BTreeSet<Path>,
    from: &Path,
    to: &Path,
) -> Result<(), SyncError>
    requires sources { sources.now.entries ≡ sources_of (carries_of report.now) }
    requires fit { OldsFit (carries_in sources.now.entries) }
    requires made { (q : Names) → contains path_cmp made.now q ≡ is_made (plan report.now) (plan report.now).news q }
    ensures tests { Tests (view S.Store store.old) (view S.Store store.new) base.now (λ A. new_answer base.now (plan report.now) A (renamed from.now to.now)) result }
    ensures looks { S.looks store.new ≤ S.looks store.old + 2 }
{
    test_own(alloc, store, base, report, sources, from, to)?;
    test_landing(alloc, store, base, report, sources, made, from, to)
}

/// The refusal of a report at a path below a base, which is told as too long where it is.
pub(crate) fn refuse(alloc: Global, base: &Path, place: &[Name]) -> Result<(), SyncError>
    ensures { TestsPaths base.now (within base.now place.now (FalseAt place.now)) result }
{
    step_on(alloc, base, place)?;
    let path = step_on(alloc, &Path::root(alloc), place)?;
    Err(SyncError::ReportFalse { path })
}

/// Tests that nothing is moved to the place of something created.
pub(crate) fn test_place<S: Store>(
    alloc: Global,
    store: &mut S,
    base: &Path,
    report: &Report,
    sources: &Carries,
    place: &[Name],
) -> Result<(), SyncError>
    requires sources { sources.now.entries ≡ sources_of (carries_of report.now) }
    requires fit { OldsFit (carries_in sources.now.entries) }
    ensures tests { Tests (view S.Store store.old) (view S.Store store.new) base.now (λ A. place_answer base.now (plan report.now) A place.now) result }
    ensures looks { S.looks store.new ≤ S.looks store.old + 1 }
{
    let found = origin(alloc, report, sources, place)?;
    let shown = look_back(alloc, store, base, found)?;
    if is_standing(shown) {
        refuse(alloc, base, place)
    } else {
        Ok(())
    }
}

/// Tests that nothing is moved to a parent that is to be made.
pub(crate) fn test_made<S: Store>(
    alloc: Global,
    store: &mut S,
    base: &Path,
    report: &Report,
    sources: &Carries,
    path: &Path,
) -> Result<(), SyncError>
    requires sources { sources.now.entries ≡ sources_of (carries_of report.now) }
    requires fit { OldsFit (carries_in sources.now.entries) }
    ensures tests { Tests (view S.Store store.old) (view S.Store store.new) base.now (λ A. made_answer base.now (plan report.now) A path.now) result }
    ensures looks { S.looks store.new ≤ S.looks store.old + 1 }
{
    let found = origin(alloc, report, sources, path.names())?;
    let shown = look_back(alloc, store, base, found)?;
    hold(alloc, !is_standing(shown), path)
}

// Whether a path begins with a name.
fn begins_with(path: &Path, name: &Name) -> bool
    ensures { result ≡ begins_with name.now path.now }
{
    match path.name(0) {
        Some(first) => first == name,
        None => false,
    }
}

// Whether a path of an entry begins with a name.
fn names_stage(entry: &Entry, stage: &Name) -> bool
    ensures { result ≡ list_any (begins_with stage.now) (paths_of entry.now) }
{
    match entry {
        Entry::Deleted(path) => begins_with(path, stage),
        Entry::Renamed { from, to } => begins_with(from, stage) || begins_with(to, stage),
        Entry::Created(path) => begins_with(path, stage),
        Entry::Modified(path) => begins_with(path, stage),
    }
}

// Whether a path of the report begins with a name.
fn is_named(report: &Report, name: &Name) -> bool
    ensures { result ≡ list_any (λ entry. list_any (begins_with name.now) (paths_of entry)) report.now }
{
    report
        .entries()
        .iter()
        .any(|entry| names_stage(entry, name))
}

// The refusal of the stage, unless nothing stands there and none of the report's paths begins with its name.
fn free(stands: bool, named: bool, stage: Path) -> Result<(), SyncError>
    ensures { result ≡ cond (not (stands || named)) (Ok tt) (Err (SyncError.StageExists stage)) }
{
    if stands || named {
        Err(SyncError::StageExists { path: stage })
    } else {
        Ok(())
    }
}

/// Tests that nothing stands at the stage, and that no path of the report begins with its name.
pub(crate) fn test_stage<S: Store>(
    alloc: Global,
    store: &mut S,
    base: &Path,
    report: &Report,
) -> Result<(), SyncError>
    ensures tests { Tests (view S.Store store.old) (view S.Store store.new) base.now (stage_answer stage_name base.now report.now) result }
    ensures looks { S.looks store.new ≤ S.looks store.old + 1 }
{
    let name = name_of(alloc, ".distcp.stage")?;
    let named = is_named(report, &name);
    let mut names = List::new(alloc);
    names.add(name)?;
    let below = names.as_slice();
    let stage = step_on(alloc, base, below)?;
    let shown = look_below(alloc, store, base, below)?;
    free(is_standing(shown), named, stage)
}
