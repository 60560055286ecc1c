//! The listing of all roots: what they list, in path order, where no path is listed twice.
#![tactic(auto)]

ghost use Rattle.std.specs.Prelude.{◌≡◌, ◌+◌, ◌*◌, ◌≤◌, Bool, false, length, map, [], Err, IfOk, IfErr, IfSome, IfNone, IsTrue, All};
ghost use Rattle.std.specs.List.{list_all};
ghost use Rattle.std.specs.List.Sorted.{IsSortedByKey};
ghost use Rattle.dc_path.specs.Order.{is_ascending};
ghost use Rattle.dc_path.specs.Paths.{Names, path_cmp};
ghost use Rattle.dc_path.specs.Unless.{GivesUnless};
ghost use Rattle.dc_attrs.specs.Trees.{IsTree, IsThere};
ghost use Rattle.dc_fs.specs.Views.{view, OnlyLooks};
ghost use Rattle.dc_listing.specs.Entries.{Entry, rel_of, fits_under};
ghost use Rattle.dc_listing.specs.Errors.{is_fault, is_of_list, is_of_walk, IfTooLong, Passes, IsChanged};
ghost use Rattle.dc_listing.specs.Listed.{entries_at, rules_of};
ghost use Rattle.dc_listing.specs.Listing.{AllStand, IsListing, IsTwiceAt, IsTwiceIn, NoneTwiceBelow, ListsAll, StopsAt};
ghost use Rattle.dc_listing.specs.Walks.{max_items};

use crate::listing::walk;
use crate::{Item, ListError, Root};
use dc_filter::Searches;
use dc_fs::Store;
use dc_path::{List, OutOfMemory, Path};
use std::alloc::Global;

// What all roots list, one root after the other.
fn walk_all<S: Store>(
    alloc: Global,
    source: &mut S,
    roots: &List<Root>,
    searches: &mut Searches<'_>,
    base: &Path,
) -> Result<List<Item>, ListError>
    ensures source { OnlyLooks (view S.Store source.old) (view S.Store source.new) result is_fault }
    ensures looks { IfOk result (λ items. S.looks source.new ≤ S.looks source.old + 2 * length items + 2 * length roots.now) }
    ensures searches { searches.new ≡ searches.old }
    ensures few { IfOk result (λ items. length items ≤ max_items) }
    ensures within { IfOk result (λ items. IsTrue (list_all (fits_under base.now) items)) }
    ensures lists { IfOk result (λ items. IfSome (S.tree source.old) (λ s. IsTree s → ListsAll (rules_of searches.old []) s roots.now base.now items)) }
    ensures stops { IfErr result (λ e. IfSome (S.tree source.old) (λ s. IsTree s → StopsAt e (rules_of searches.old []) s roots.now base.now)) }
    ensures too_long { IfErr result (λ e. IfTooLong e Passes) }
    ensures changed { IfErr result (λ e. IsChanged e → IfSome (S.tree source.old) (λ s. IsTree s → AllStand s roots.now → ⊥)) }
    ensures kind { IfErr result (λ e. IsTrue (is_of_walk e)) }
{
    let without = List::new(alloc);
    let mut items = List::new(alloc);
    for root in roots.as_slice() {
        walk(alloc, source, root, &without, searches, base, &mut items)?;
    }
    Ok(items)
}

// The items in order of their paths under the target. Those of one path keep their order.
fn sorted(items: List<Item>) -> Result<List<Item>, OutOfMemory>
    ensures sorted { IfOk result (IsSortedByKey rel_of path_cmp) }
    ensures kept { IfOk result (λ sorted. (q : Names) → entries_at sorted q ≡ entries_at items q) }
    ensures tests { IfOk result (λ sorted. (test : Entry → Bool) → list_all test sorted ≡ list_all test items) }
    ensures count { IfOk result (λ sorted. length sorted ≡ length items) }
{
    let mut sorted = items.into_vec();
    sorted.sort_by(|one, other| one.rel().compare(other.rel()))?;
    Ok(List::of(sorted))
}

// The place of the first item whose path the next one has too.
fn first_twice(items: &[Item]) -> Option<usize>
    ensures some { IfSome result (IsTwiceAt items.now) }
    ensures none { IfNone result (NoneTwiceBelow items.now (length items.now)) }
{
    for next in 1..items.len() {
        if items[next - 1].rel() == items[next].rel() {
            return Some(next - 1);
        }
    }
    None
}

// The refusal of two items with one path.
fn twice<T: Drop>(alloc: Global, first: &Item, second: &Item) -> Result<T, ListError>
    ensures { GivesUnless ListError.Memory result (Err (ListError.Duplicate first.now.rel first.now.from second.now.from)) }
{
    let rel = first.rel().copy(alloc)?;
    let from = first.from().copy(alloc)?;
    let second = second.from().copy(alloc)?;
    Err(ListError::Duplicate {
        rel,
        first: from,
        second,
    })
}

// The items in order, unless two have one path.
fn distinct(alloc: Global, items: List<Item>) -> Result<List<Item>, ListError>
    requires { IsSortedByKey rel_of path_cmp items }
    ensures ascending { IfOk result (λ distinct. IsTrue (is_ascending (map rel_of distinct))) }
    ensures same { IfOk result (λ distinct. distinct ≡ items) }
    ensures twice { IfErr result (IsTwiceIn items) }
    ensures too_long { IfErr result (λ e. IfTooLong e Passes) }
    ensures unchanged { IfErr result (λ e. IsChanged e → ⊥) }
    ensures no_fault { IfErr result (λ e. is_fault e ≡ false) }
    ensures kind { IfErr result (λ e. IsTrue (is_of_list e)) }
{
    match first_twice(items.as_slice()) {
        Some(at) => twice(alloc, &items.as_slice()[at], &items.as_slice()[at + 1]),
        None => Ok(items),
    }
}

/// What all roots list, in order of the paths under the target (Hadoop DistCp, `SimpleCopyListing`).
///
/// Left out are the paths that the filter excludes, asked by their source path, each with all that is under it, and what is
/// hidden below a root. A directory that is itself put at the target is no item. There are at most `MAX_ITEMS` items, each
/// within the limits of a path under `base`.
///
/// # Errors
///
/// The roots are walked in their order, and the first path at which a walk stops decides.
///
/// - `TooLong`, exactly where a source path passes the limits of a path, or the place of an item under `base` does;
/// - `TooMany`, exactly where there would be more than `MAX_ITEMS` items;
/// - `Changed`, only where the store denied what it showed;
/// - `Duplicate`, exactly where no walk stops and two items have one path under the target: the least such path, and the
///   first two source paths that are put there, in order of the walk;
/// - `Fault`, only where the store's count of faults rose;
/// - `Memory`, which may come in the place of any answer.
pub fn list<S: Store>(
    alloc: Global,
    source: &mut S,
    roots: &List<Root>,
    searches: &mut Searches<'_>,
    base: &Path,
) -> Result<List<Item>, ListError>
    ensures source { OnlyLooks (view S.Store source.old) (view S.Store source.new) result is_fault }
    ensures looks { IfOk result (λ items. S.looks source.new ≤ S.looks source.old + 2 * length items + 2 * length roots.now) }
    ensures searches { searches.new ≡ searches.old }
    ensures ascending { IfOk result (λ items. IsTrue (is_ascending (map rel_of items))) }
    ensures few { IfOk result (λ items. length items ≤ max_items) }
    ensures within { IfOk result (λ items. IsTrue (list_all (fits_under base.now) items)) }
    ensures lists { IfSome (S.tree source.old) (λ s. IsTree s → IsListing (rules_of searches.old []) s roots.now base.now result) }
    ensures too_long { IfErr result (λ e. IfTooLong e Passes) }
    ensures changed { IfErr result (λ e. IsChanged e → IfSome (S.tree source.old) (λ s. IsTree s → AllStand s roots.now → ⊥)) }
    ensures kind { IfErr result (λ e. IsTrue (is_of_list e)) }
{
    let items = walk_all(alloc, source, roots, searches, base)?;
    let items = sorted(items)?;
    distinct(alloc, items)
}
