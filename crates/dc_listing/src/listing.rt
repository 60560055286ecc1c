//! The walk of a root: the root itself, and what stands below it.
#![tactic(auto)]

ghost use Rattle.std.specs.Prelude.{◌≡◌, ◌+◌, ◌*◌, ◌≤◌, ◌&&◌, false, length, ◌++◌, IfOk, IfErr, OnOk, IfSome, IsErrOf, IsTrue, None};
ghost use Rattle.dc_path.specs.Found.{has_path};
ghost use Rattle.dc_path.specs.Paths.{is_root, fits};
ghost use Rattle.dc_attrs.specs.Trees.{IsTree, IsThere, seen};
ghost use Rattle.dc_fs.specs.Answers.{refused_status};
ghost use Rattle.dc_fs.specs.Looks.{fits_kind, IsStatusOf};
ghost use Rattle.dc_fs.specs.Views.{view, OnlyLooks};
ghost use Rattle.dc_listing.specs.Errors.{is_fault, is_of_walk, is_of_names, IfTooLong, Passes, IsChanged};
ghost use Rattle.dc_listing.specs.Listed.{rules_of};
ghost use Rattle.dc_listing.specs.Walks.{max_items, Gains, Walks, IsPastOn};

use crate::steps::join;
use crate::walking::{Place, Walk, add, changed, walk_dir};
use crate::{Item, ListError, Root};
use dc_filter::Searches;
use dc_fs::{ReadError, Status, Store};
use dc_path::{List, Path};
use std::alloc::Global;

// Whether the path is in the list, which is gone through from its start.
fn has_path(paths: &List<Path>, path: &Path) -> bool
    ensures { result ≡ has_path paths.now path.now }
{
    paths.iter().any(|other| other == path)
}

// What stands at a root, with its length and attributes.
fn root_status<S: Store>(alloc: Global, source: &mut S, path: &Path) -> Result<Status, ListError>
    ensures source { OnlyLooks (view S.Store source.old) (view S.Store source.new) result is_fault }
    ensures looks { S.looks source.new ≤ S.looks source.old + 1 }
    ensures fits { IfOk result (λ status. IsTrue (fits_kind status)) }
    ensures shows { IfOk result (λ status. IfSome (S.tree source.old) (λ s. IsStatusOf (s path.now) status)) }
    ensures changed { IfErr result (λ e. IsChanged e → IfSome (S.tree source.old) (λ s. refused_status (seen s path.now) ≡ None → ⊥)) }
    ensures kind { IfErr result (λ e. IsTrue (is_of_names e)) }
    ensures walk_kind { IfErr result (λ e. IsTrue (is_of_walk e)) }
    ensures too_long { IfErr result (λ e. IfTooLong e Passes) }
    ensures not_full { IsErrOf result ListError.TooMany → ⊥ }
{
    match source.status(alloc, path) {
        Ok(status) => Ok(status),
        Err(ReadError::Fault) => Err(ListError::Fault),
        Err(ReadError::Memory) => Err(ListError::Memory),
        Err(ReadError::Missing) => changed(alloc, path),
        Err(ReadError::NotDir) => changed(alloc, path),
        Err(ReadError::IsDir) => changed(alloc, path),
        Err(ReadError::Short) => changed(alloc, path),
    }
}

// Whether a root is a directory that is itself put at the target.
#[tactic(auto, using(crate::proofs::NameLemmas::root_is_empty))]
fn is_bare(root: &Root, status: &Status) -> bool
    ensures { result ≡ (is_root root.now.prefix && status.now.dir) }
{
    root.prefix.len() == 0 && status.dir
}

// The two paths of a root that is an item.
fn root_place(alloc: Global, walk: &Walk<'_>) -> Result<Place, ListError>
    ensures from { IfOk result (λ place. place.from ≡ walk.now.root.now.source) }
    ensures rel { IfOk result (λ place. place.rel ≡ walk.now.root.now.prefix) }
    ensures within { IfOk result (λ place. IsTrue (fits (walk.now.base.now ++ walk.now.root.now.prefix))) }
    ensures past { IfErr result (λ e. IsPastOn e (walk.now.base.now ++ walk.now.root.now.prefix)) }
{
    join(alloc, walk.base, &walk.root.prefix)?;
    let from = walk.root.source.copy(alloc)?;
    let rel = walk.root.prefix.copy(alloc)?;
    Ok(Place { from, rel })
}

// Adds what stands at and under a root that is an item, by the look at it.
fn walk_item<S: Store>(
    alloc: Global,
    source: &mut S,
    searches: &mut Searches<'_>,
    walk: &Walk<'_>,
    status: Status,
    items: &mut List<Item>,
) -> Result<(), ListError>
    requires fits { IsTrue (fits_kind status) }
    requires shows { IfSome (S.tree source.old) (λ s. IsStatusOf (s walk.now.root.now.source) status) }
    requires source { IsTrue (fits walk.now.root.now.source) }
    requires kept { has_path walk.now.without.now walk.now.root.now.prefix ≡ false }
    requires item { (is_root walk.now.root.now.prefix && status.dir) ≡ false }
    ensures source { OnlyLooks (view S.Store source.old) (view S.Store source.new) result is_fault }
    ensures looks { OnOk result (S.looks source.new + 2 * length items.old ≤ S.looks source.old + 2 * length items.new) }
    ensures searches { searches.new ≡ searches.old }
    ensures few { length items.old ≤ max_items → length items.new ≤ max_items }
    ensures gains { Gains walk.now.root.now walk.now.base.now items.old items.new }
    ensures walks { IfSome (S.tree source.old) (λ s. IsTree s → Walks (rules_of searches.old walk.now.without.now) s walk.now.root.now walk.now.base.now result items.old items.new) }
    ensures full { IsErrOf result ListError.TooMany → max_items ≤ length items.new }
    ensures too_long { IfErr result (λ e. IfTooLong e Passes) }
    ensures changed { IfErr result (λ e. IsChanged e → IfSome (S.tree source.old) (λ s. IsTree s → ⊥)) }
    ensures kind { IfErr result (λ e. IsTrue (is_of_walk e)) }
{
    let excluded = searches.excludes(alloc, &walk.root.source)?;
    if excluded {
        return Ok(());
    }
    let place = root_place(alloc, walk)?;
    let at = items.len();
    let dir = add(items, place, status)?;
    if dir {
        walk_dir(alloc, source, searches, walk, Some(at), items)
    } else {
        Ok(())
    }
}

/// Adds what stands at and under a root, in path order, without what is hidden or left out (Hadoop DistCp,
/// `SimpleCopyListing`).
///
/// Left out are the paths that the filter excludes, asked by their source path, and the relative paths in `without`, each
/// with all that is under it. The root itself is an item, unless it is a directory and its prefix is the root path; only
/// items are asked of the filter. Below the root a path with the name `.snapshot` is hidden.
///
/// # Errors
///
/// The first path in walk order at which the walk stops decides. The list then has what comes before that path.
///
/// - `TooLong`, exactly where the source path passes the limits of a path, or the place of an item under `base` does. At one
///   path the source path is tested first, and the filter is not asked of one that passes a limit;
/// - `TooMany`, exactly where there would be more than `MAX_ITEMS` items;
/// - `Changed`, only where the store denied what it showed;
/// - `Fault`, only where the store's count of faults rose;
/// - `Memory`, which may come in the place of any answer.
pub fn walk<S: Store>(
    alloc: Global,
    source: &mut S,
    root: &Root,
    without: &List<Path>,
    searches: &mut Searches<'_>,
    base: &Path,
    items: &mut List<Item>,
) -> Result<(), ListError>
    ensures source { OnlyLooks (view S.Store source.old) (view S.Store source.new) result is_fault }
    ensures looks { OnOk result (S.looks source.new + 2 * length items.old ≤ S.looks source.old + 2 * length items.new + 2) }
    ensures searches { searches.new ≡ searches.old }
    ensures few { length items.old ≤ max_items → length items.new ≤ max_items }
    ensures gains { Gains root.now base.now items.old items.new }
    ensures walks { IfSome (S.tree source.old) (λ s. IsTree s → Walks (rules_of searches.old without.now) s root.now base.now result items.old items.new) }
    ensures full { IsErrOf result ListError.TooMany → max_items ≤ length items.new }
    ensures too_long { IfErr result (λ e. IfTooLong e Passes) }
    ensures changed { IfErr result (λ e. IsChanged e → IfSome (S.tree source.old) (λ s. IsTree s → IsThere s root.now.source → ⊥)) }
    ensures kind { IfErr result (λ e. IsTrue (is_of_walk e)) }
{
    let _under = base.len();
    let _names = root.source.len();
    let left_out = has_path(without, &root.prefix);
    if left_out {
        return Ok(());
    }
    let status = root_status(alloc, source, &root.source)?;
    let bare = is_bare(root, &status);
    let walk = Walk {
        root,
        without,
        base,
    };
    if bare {
        walk_dir(alloc, source, searches, &walk, None, items)
    } else {
        walk_item(alloc, source, searches, &walk, status, items)
    }
}
