//! Looks at a store below a base, and the one path that a report leads to another.
#![tactic(auto)]

ghost use Rattle.std.specs.Prelude.{◌≡◌, ◌≤◌, ◌+◌, not, ◌&&◌, IfOk, IfErr, OnOk, IfSome, Some, None, Option, cond};
ghost use Rattle.dc_attrs.specs.Trees.{IsTree, seen};
ghost use Rattle.dc_fs.specs.Views.{view, OnlyLooks};
ghost use Rattle.dc_listing.specs.Roots.{is_absent};
ghost use Rattle.dc_path.specs.Paths.{Names};
ghost use Rattle.dc_report.specs.Carries.{carries_in, OldsFit};
ghost use Rattle.dc_report.specs.Carrying.{Place, carries_of, moved, plan};
ghost use Rattle.dc_report.specs.Landings.{is_at, sources_of};
ghost use Rattle.dc_replay.specs.Arrivals.{source};
ghost use Rattle.dc_replay.specs.Checking.{look, others};
ghost use Rattle.dc_replay.specs.TestAnswers.{is_long};
ghost use Rattle.dc_sync.specs.Checks.{Looked, source_beside};

use crate::SyncError;
use crate::steps::step_on;
use dc_attrs::Seen;
use dc_fs::Store;
use dc_path::{List, Name, OutOfMemory, Path};
use dc_report::{Carries, Report, moved_names};
use std::alloc::Global;

/// Whether something stands there.
pub(crate) fn is_standing(shown: Seen) -> bool
    ensures { result ≡ not (is_absent shown) }
{
    match shown {
        Seen::Dir | Seen::File { .. } => true,
        Seen::Missing | Seen::NotDir => false,
    }
}

/// What stands at the path of these names below a base.
pub(crate) fn look_below<S: Store>(
    alloc: Global,
    store: &mut S,
    base: &Path,
    names: &[Name],
) -> Result<Seen, SyncError>
    ensures looked { Looked (view S.Store store.old) (view S.Store store.new) base.now (Some names.now) result }
    ensures looks { S.looks store.new ≤ S.looks store.old + 1 }
{
    let path = step_on(alloc, base, names)?;
    match store.kind(&path) {
        Ok(shown) => Ok(shown),
        Err(_) => Err(SyncError::Fault),
    }
}

// The path, where the report leads it to this one.
fn if_it_leads(
    alloc: Global,
    report: &Report,
    path: List<Name>,
    to: &[Name],
) -> Result<Option<List<Name>>, OutOfMemory>
    ensures { IfOk result (λ found. found ≡ cond (is_at (moved (carries_of report.now) path) to.now) (Some path) None) }
{
    let Some(end) = report.moved_names(alloc, path.as_slice())? else {
        return Ok(None);
    };
    if end.as_slice() == to {
        Ok(Some(path))
    } else {
        Ok(None)
    }
}

/// The one path that the report may lead to this one, where it does. `OutOfMemory` is the one error.
pub(crate) fn origin(
    alloc: Global,
    report: &Report,
    sources: &Carries,
    to: &[Name],
) -> Result<Option<List<Name>>, OutOfMemory>
    requires sources { sources.now.entries ≡ sources_of (carries_of report.now) }
    requires fit { OldsFit (carries_in sources.now.entries) }
    ensures { IfOk result (λ found. found ≡ look (carries_of report.now) (plan report.now).news to.now) }
{
    let Some(path) = moved_names(sources, alloc, to)? else {
        return Ok(None);
    };
    if_it_leads(alloc, report, path, to)
}

// The path that the report may lead to a new path, the rename to it left out.
fn other_source(
    alloc: Global,
    sources: &Carries,
    to: &Path,
) -> Result<Option<List<Name>>, OutOfMemory>
    requires fit { OldsFit (carries_in sources.now.entries) }
    ensures { IfOk result (λ found. found ≡ source_beside (carries_in sources.now.entries) to.now) }
{
    let Some(last) = to.last() else {
        return Ok(Some(List::new(alloc)));
    };
    let names = to.names();
    let Some(mut path) = moved_names(sources, alloc, &names[..names.len() - 1])? else {
        return Ok(None);
    };
    path.add(last.copy(alloc)?)?;
    Ok(Some(path))
}

/// The one path that the report may lead to this new one, the rename to it left out, where it does. `OutOfMemory` is the one
/// error.
pub(crate) fn other_origin(
    alloc: Global,
    report: &Report,
    sources: &Carries,
    to: &Path,
) -> Result<Option<List<Name>>, OutOfMemory>
    requires sources { sources.now.entries ≡ sources_of (carries_of report.now) }
    requires fit { OldsFit (carries_in sources.now.entries) }
    ensures { IfOk result (λ found. (n : Place) → n.new ≡ to.now → found ≡ look (carries_of report.now) (others n (plan report.now).news) n.new) }
{
    let Some(path) = other_source(alloc, sources, to)? else {
        return Ok(None);
    };
    if_it_leads(alloc, report, path, to.names())
}

/// What stands at the one path that the report leads to this one; nothing where it leads none there.
pub(crate) fn look_back<S: Store>(
    alloc: Global,
    store: &mut S,
    base: &Path,
    found: Option<List<Name>>,
) -> Result<Seen, SyncError>
    ensures looked { Looked (view S.Store store.old) (view S.Store store.new) base.now found result }
    ensures looks { S.looks store.new ≤ S.looks store.old + 1 }
{
    match found {
        Some(path) => look_below(alloc, store, base, path.as_slice()),
        None => Ok(Seen::Missing),
    }
}
