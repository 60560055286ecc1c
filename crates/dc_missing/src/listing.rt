//! The list of what goes.
#![tactic(auto)]

ghost use Rattle.std.specs.Prelude.{◌≡◌, ◌+◌, ◌*◌, ◌≤◌, ◌↔◌, ◌++◌, true, false, IfOk, IfErr, IfSome, IsTrue};
ghost use Rattle.std.specs.List.{list_all};
ghost use Rattle.dc_path.specs.Found.{has_path};
ghost use Rattle.dc_path.specs.Order.{is_ascending};
ghost use Rattle.dc_path.specs.Paths.{Names};
ghost use Rattle.dc_attrs.specs.Trees.{IsTree, IsThere, IsDirAt};
ghost use Rattle.dc_fs.specs.Views.{view, OnlyLooks};
ghost use Rattle.dc_listing.specs.Errors.{Passes};
ghost use Rattle.dc_listing.specs.Walking.{is_below};
ghost use Rattle.dc_missing.specs.Errors.{is_fault, IfTooLong};
ghost use Rattle.dc_missing.specs.Finding.{FindsList};
ghost use Rattle.dc_missing.specs.Limits.{max_paths};
ghost use Rattle.dc_missing.specs.Missing.{is_place, Goes, covers, are_apart, leads_below};
ghost use Rattle.dc_missing.specs.Walks.{Walks};

use crate::DeleteError;
use crate::found::Found;
use crate::looks::has_dir;
use crate::walking::{Walk, walk_dir};
use dc_decide::Plan;
use dc_fs::Target;
use dc_path::{List, Name, Path};
use std::alloc::Global;

/// The name under which snapshots are read.
const SNAPSHOT: &str = ".snapshot";

// The paths to remove of what is in a base that is a directory.
fn list_below<T: Target>(
    alloc: Global,
    target: &mut T,
    plan: &Plan,
) -> Result<List<Path>, DeleteError>
    requires dir { IfSome (T.tree target.old) (λ t. IsDirAt t plan.now.base) }
    ensures target { OnlyLooks (view T.Store target.old) (view T.Store target.new) result is_fault }
    ensures looks { T.looks target.new ≤ T.looks target.old + (1 + 3 * max_paths) }
    ensures finds { IfOk result (FindsList (T.tree target.old) plan.now) }
    ensures walks { IfSome (T.tree target.old) (λ t. IsTree t → Walks t plan.now.base result (T.looks target.old) (T.looks target.new + 1)) }
    ensures too_long { IfErr result (λ e. IfTooLong e Passes) }
{
    let Ok(hidden) = Name::read(alloc, SNAPSHOT) else {
        return Err(DeleteError::Memory);
    };
    let walk = Walk {
        plan,
        hidden: &hidden,
    };
    let mut found = Found::new(alloc);
    walk_dir(alloc, target, &walk, plan.base(), &mut found)?;
    Ok(found.into_list())
}

// The paths to remove of what is in the base, if it is a directory.
fn list_found<T: Target>(
    alloc: Global,
    target: &mut T,
    plan: &Plan,
) -> Result<List<Path>, DeleteError>
    ensures target { OnlyLooks (view T.Store target.old) (view T.Store target.new) result is_fault }
    ensures looks { T.looks target.new ≤ T.looks target.old + (2 + 3 * max_paths) }
    ensures finds { IfOk result (FindsList (T.tree target.old) plan.now) }
    ensures walks { IfSome (T.tree target.old) (λ t. IsTree t → Walks t plan.now.base result (T.looks target.old) (T.looks target.new)) }
    ensures too_long { IfErr result (λ e. IfTooLong e Passes) }
{
    let dir = has_dir(target, plan.base())?;
    if dir {
        list_below(alloc, target, plan)
    } else {
        Ok(List::new(alloc))
    }
}

/// The paths to remove, so that nothing stays below the base of a plan that the source lacks.
///
/// What stands below the base goes unless it is hidden there, is the place of an item, or has such a place or something
/// hidden under it. Below the base a path with the name `.snapshot` is hidden. Items that the copy goes on without count as
/// every other. The list has the topmost of what goes, in path order. Where no directory stands at the base it is empty.
///
/// The walk meets what stands below the base and is not hidden: each directory, then what is in it by its names in order.
/// The target is only looked at.
///
/// # Errors
///
/// The first path in walk order at which the walk stops decides.
///
/// - `TooLong`, exactly where a path that the walk meets passes the limits of a path, or `.snapshot` in a directory that it
///   meets does. That is tested before what is in the directory; it names the parent and the last name;
/// - `TooMany`, exactly where the walk meets more than `MAX_PATHS` paths. At one path `TooLong` comes first, but `.snapshot`
///   in a directory is tested after the directory is counted;
/// - `Changed`, only where the target denied what it showed; never where it tells a tree;
/// - `Fault`, only where the target's count of faults rose;
/// - `Memory`, which may come in the place of any answer.
pub fn delete_list<T: Target>(
    alloc: Global,
    target: &mut T,
    plan: &Plan,
) -> Result<List<Path>, DeleteError>
    ensures target { OnlyLooks (view T.Store target.old) (view T.Store target.new) result is_fault }
    ensures looks { T.looks target.new ≤ T.looks target.old + (2 + 3 * max_paths) }

    // The list: its order, and that none is under another. Each is below the base, not hidden, and no prefix of a place.
    ensures ascending { IfOk result (λ paths. is_ascending paths ≡ true) }
    ensures apart { IfOk result (λ paths. are_apart paths ≡ true) }
    ensures below { IfOk result (λ paths. list_all (leads_below plan.now.base) paths ≡ true) }
    ensures unlisted { IfOk result (λ paths. (p : Names) → covers paths p ≡ true → is_place plan.now p ≡ false) }

    // Each path stands. They cover exactly what goes of what stands below the base.
    ensures stand { IfOk result (λ paths. IfSome (T.tree target.old) (λ t. IsTree t → (p : Names) → has_path paths p ≡ true → IsThere t p)) }
    ensures goes { IfOk result (λ paths. IfSome (T.tree target.old) (λ t. IsTree t → (q : Names) → is_below q ≡ true → IsThere t (plan.now.base ++ q)
        → (covers paths (plan.now.base ++ q) ≡ true) ↔ Goes t (is_place plan.now) plan.now.base q)) }

    // When each refusal comes.
    ensures walks { IfSome (T.tree target.old) (λ t. IsTree t → Walks t plan.now.base result (T.looks target.old) (T.looks target.new)) }
    ensures too_long { IfErr result (λ e. IfTooLong e Passes) }
{
    list_found(alloc, target, plan)
}
