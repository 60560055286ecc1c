//! The walk below a directory: what goes of what stands there.
#![tactic(auto)]

ghost use Rattle.std.specs.Prelude.{◌≡◌, ◌+◌, ◌*◌, ◌≤◌, [], ◌∷◌, ◌++◌, true, IfErr, IfSome, IsTrue};
ghost use Rattle.std.specs.Option.{is_some};
ghost use Rattle.dc_path.specs.Paths.{is_under, fits};
ghost use Rattle.dc_attrs.specs.Trees.{IsDirAt, snapshot};
ghost use Rattle.dc_fs.specs.Looks.{is_shown};
ghost use Rattle.dc_fs.specs.Views.{view, OnlyLooks};
ghost use Rattle.dc_listing.specs.Errors.{Passes};
ghost use Rattle.dc_listing.specs.Walking.{is_in};
ghost use Rattle.dc_missing.specs.Errors.{is_fault, IfTooLong};
ghost use Rattle.dc_missing.specs.Missing.{is_place};
ghost use Rattle.dc_missing.specs.Finding.{is_any, is_open, WalksPart, WalksInside};

use crate::DeleteError;
use crate::error::step;
use crate::found::Found;
use crate::looks::{has_name, is_dir, names_of};
use crate::places::has_under;
use dc_decide::Plan;
use dc_fs::Target;
use dc_path::{Name, Path};
use std::alloc::Global;

/// What a walk goes by, from its beginning to its end.
#[derive(Clone, Copy)]
pub(crate) struct Walk<'w> {
    /// The plan, with the base.
    pub plan: &'w Plan,
    /// The name under which snapshots are read.
    pub hidden: &'w Name,
}

// What goes of what stands at and under one name of a directory, and whether something there is kept.
#[cycle(walk)]
fn walk_child<T: Target>(
    alloc: Global,
    target: &mut T,
    walk: &Walk<'_>,
    dir: &Path,
    name: &Name,
    found: &mut Found,
) -> Result<bool, DeleteError>
    requires named { walk.now.hidden.now ≡ snapshot }
    requires below { IsTrue (is_under walk.now.plan.now.base dir.now) }
    requires shown { IsTrue (is_shown name.now) }
    requires there { IfSome (T.tree target.old) (λ t. IsTrue (is_some (t (dir.now ++ name.now ∷ [])))) }
    ensures target { OnlyLooks (view T.Store target.old) (view T.Store target.new) result is_fault }
    ensures looks { T.looks target.new + 3 * found.old.met ≤ T.looks target.old + 3 * found.new.met }
    ensures walks { WalksPart (T.tree target.old) (is_place walk.now.plan.now) dir.now (is_in (name.now ∷ [])) result found.old found.new }
    ensures too_long { IfErr result (λ e. IfTooLong e Passes) }
{
    let place = step(alloc, dir, name)?;
    walk_place(alloc, target, walk, place, found)
}

// The same of what stands at and under a path.
#[cycle(walk)]
fn walk_place<T: Target>(
    alloc: Global,
    target: &mut T,
    walk: &Walk<'_>,
    place: Path,
    found: &mut Found,
) -> Result<bool, DeleteError>
    requires named { walk.now.hidden.now ≡ snapshot }
    requires below { IsTrue (is_under walk.now.plan.now.base place) }
    requires within { IsTrue (fits place) }
    requires there { IfSome (T.tree target.old) (λ t. IsTrue (is_some (t place))) }
    ensures target { OnlyLooks (view T.Store target.old) (view T.Store target.new) result is_fault }
    ensures looks { T.looks target.new + 3 * found.old.met ≤ T.looks target.old + 3 * found.new.met }
    ensures walks { WalksPart (T.tree target.old) (is_place walk.now.plan.now) place is_any result found.old found.new }
    ensures too_long { IfErr result (λ e. IfTooLong e Passes) }
{
    found.count()?;
    let mark = found.mark();
    let inside = walk_inside(alloc, target, walk, &place, found)?;
    let kept = inside || has_under(walk.plan, &place);
    found.close(mark, place, kept)?;
    Ok(kept)
}

// The same of what stands under a path at which something stands.
#[cycle(walk)]
fn walk_inside<T: Target>(
    alloc: Global,
    target: &mut T,
    walk: &Walk<'_>,
    place: &Path,
    found: &mut Found,
) -> Result<bool, DeleteError>
    requires named { walk.now.hidden.now ≡ snapshot }
    requires below { IsTrue (is_under walk.now.plan.now.base place.now) }
    requires within { IsTrue (fits place.now) }
    requires there { IfSome (T.tree target.old) (λ t. IsTrue (is_some (t place.now))) }
    ensures target { OnlyLooks (view T.Store target.old) (view T.Store target.new) result is_fault }
    ensures looks { T.looks target.new + 3 * found.old.met ≤ T.looks target.old + 3 * found.new.met + 3 }
    ensures walks { WalksInside (T.tree target.old) (is_place walk.now.plan.now) place.now result found.old found.new }
    ensures too_long { IfErr result (λ e. IfTooLong e Passes) }
{
    let dir = is_dir(alloc, target, place)?;
    if !dir {
        return Ok(false);
    }
    let hides = has_name(alloc, target, place, walk.hidden)?;
    let kept = walk_dir(alloc, target, walk, place, found)?;
    Ok(hides || kept)
}

/// What goes of what stands below a directory and is not hidden in it, and whether something there is kept.
#[cycle(walk)]
pub(crate) fn walk_dir<T: Target>(
    alloc: Global,
    target: &mut T,
    walk: &Walk<'_>,
    dir: &Path,
    found: &mut Found,
) -> Result<bool, DeleteError>
    requires named { walk.now.hidden.now ≡ snapshot }
    requires below { IsTrue (is_under walk.now.plan.now.base dir.now) }
    requires dir { IfSome (T.tree target.old) (λ t. IsDirAt t dir.now) }
    ensures target { OnlyLooks (view T.Store target.old) (view T.Store target.new) result is_fault }
    ensures looks { T.looks target.new + 3 * found.old.met ≤ T.looks target.old + 3 * found.new.met + 1 }
    ensures walks { WalksPart (T.tree target.old) (is_place walk.now.plan.now) dir.now is_open result found.old found.new }
    ensures too_long { IfErr result (λ e. IfTooLong e Passes) }
{
    let names = names_of(alloc, target, dir)?;
    let mut kept = false;
    for name in names.as_slice() {
        let keeps = walk_child(alloc, target, walk, dir, name, found)?;
        kept = kept || keeps;
    }
    Ok(kept)
}
