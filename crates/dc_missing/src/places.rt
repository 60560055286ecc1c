//! The places of a plan, by their order.
#![tactic(auto)]

ghost use Rattle.std.specs.Prelude.{◌≡◌, true, false, map, length, drop, IsTrue};
ghost use Rattle.std.specs.List.{list_any};
ghost use Rattle.std.specs.List.Sorted.{IsPartitionPoint};
ghost use Rattle.dc_path.specs.Order.{path_lt, is_ascending};
ghost use Rattle.dc_path.specs.Paths.{is_under};
ghost use Rattle.dc_decide.specs.Plans.{item_rel};
ghost use Rattle.dc_missing.specs.Missing.{has_under};

use dc_decide::{Plan, Planned};
use dc_path::{Name, Path};

// How many of the items, which are in path order, come before a path.
fn count_before(items: &[Planned], path: &[Name]) -> usize
    requires { is_ascending (map item_rel items.now) ≡ true }
    ensures { IsPartitionPoint (λ d. path_lt (item_rel d) path.now ≡ true) (λ d. path_lt (item_rel d) path.now ≡ false) items.now result }
{
    items.partition_point(|planned| planned.item().rel().names().cmp(path).is_lt())
}

// Whether an item, of those in path order, is at or under a path.
fn any_under(items: &[Planned], path: &[Name]) -> bool
    requires { is_ascending (map item_rel items.now) ≡ true }
    ensures { result ≡ list_any (λ d. is_under path.now (item_rel d)) items.now }
{
    match items.get(count_before(items, path)) {
        Some(planned) => planned.item().rel().names().starts_with(path),
        None => false,
    }
}

// The names of a path that follow the base.
fn rest_of<'p>(base: &Path, path: &'p Path) -> &'p [Name]
    requires { IsTrue (is_under base.now path.now) }
    ensures { result.now ≡ drop (length base.now) path.now }
{
    let names = path.names();
    let count = base.len();
    &names[count..]
}

/// Whether the place of an item is at or under a path that is not above the base.
pub(crate) fn has_under(plan: &Plan, path: &Path) -> bool
    requires { IsTrue (is_under plan.now.base path.now) }
    ensures { result ≡ has_under plan.now path.now }
{
    any_under(plan.items(), rest_of(plan.base(), path))
}
