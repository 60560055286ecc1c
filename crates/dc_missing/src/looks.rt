//! Looks at the target.
#![tactic(auto)]

ghost use Rattle.std.specs.Prelude.{◌≡◌, ◌+◌, ◌≤◌, [], ◌∷◌, ◌++◌, true, false, not, IfOk, IfErr, IfSome, IsTrue};
ghost use Rattle.std.specs.List.{list_all};
ghost use Rattle.std.specs.List.Sorted.{IsStrictlySortedBy};
ghost use Rattle.std.specs.Cmp.Lexicographic.{slice_cmp};
ghost use Rattle.std.specs.Ordering.{nat_cmp};
ghost use Rattle.dc_path.specs.Paths.{fits};
ghost use Rattle.dc_attrs.specs.Trees.{seen};
ghost use Rattle.dc_attrs.specs.declared.shown.Seen.TheVariants as seen_as;
ghost use Rattle.dc_fs.specs.Looks.{is_shown, AreNames};
ghost use Rattle.dc_fs.specs.Views.{view, OnlyLooks};
ghost use Rattle.dc_listing.specs.Errors.{Passes};
ghost use Rattle.dc_listing.specs.Roots.{is_absent};
ghost use Rattle.dc_missing.specs.Errors.{is_fault, IfTooLong, IfChanged, is_of_look, IsOfChild, shows_dir};

use crate::DeleteError;
use crate::error::{changed, step};
use dc_attrs::Seen;
use dc_fs::{LookFault, ReadError, Target};
use dc_path::{List, Name, Path};
use std::alloc::Global;

/// Whether a directory stands at a path.
pub(crate) fn has_dir<T: Target>(target: &mut T, path: &Path) -> Result<bool, DeleteError>
    ensures target { OnlyLooks (view T.Store target.old) (view T.Store target.new) result is_fault }
    ensures looks { T.looks target.new ≤ T.looks target.old + 1 }
    ensures value { IfOk result (λ dir. IfSome (T.tree target.old) (λ t. dir ≡ shows_dir (seen t path.now))) }
    ensures fault { IfErr result (λ e. e ≡ DeleteError.Fault) }
{
    match target.kind(path) {
        Ok(Seen::Dir) => Ok(true),
        Ok(Seen::File { .. }) => Ok(false),
        Ok(Seen::Missing) => Ok(false),
        Ok(Seen::NotDir) => Ok(false),
        Err(LookFault) => Err(DeleteError::Fault),
    }
}

/// Whether a directory stands at a path at which something does.
pub(crate) fn is_dir<T: Target>(
    alloc: Global,
    target: &mut T,
    path: &Path,
) -> Result<bool, DeleteError>
    ensures target { OnlyLooks (view T.Store target.old) (view T.Store target.new) result is_fault }
    ensures looks { T.looks target.new ≤ T.looks target.old + 1 }
    ensures value { IfOk result (λ dir. IfSome (T.tree target.old) (λ t. dir ≡ shows_dir (seen t path.now))) }
    ensures changed { IfErr result (λ e. IfChanged e (IfSome (T.tree target.old) (λ t. is_absent (seen t path.now) ≡ true))) }
    ensures kind { IfErr result (λ e. IsTrue (is_of_look e)) }
    ensures too_long { IfErr result (λ e. IfTooLong e Passes) }
{
    match target.kind(path) {
        Ok(Seen::Dir) => Ok(true),
        Ok(Seen::File { .. }) => Ok(false),
        Ok(Seen::Missing) => changed(alloc, path),
        Ok(Seen::NotDir) => changed(alloc, path),
        Err(LookFault) => Err(DeleteError::Fault),
    }
}

// Whether something stands at a path of which the parent is a directory.
fn stands<T: Target>(alloc: Global, target: &mut T, path: &Path) -> Result<bool, DeleteError>
    ensures target { OnlyLooks (view T.Store target.old) (view T.Store target.new) result is_fault }
    ensures looks { T.looks target.new ≤ T.looks target.old + 1 }
    ensures value { IfOk result (λ there. IfSome (T.tree target.old) (λ t. there ≡ not (is_absent (seen t path.now)))) }
    ensures changed { IfErr result (λ e. IfChanged e (IfSome (T.tree target.old) (λ t. seen t path.now ≡ seen_as.NotDir))) }
    ensures kind { IfErr result (λ e. IsTrue (is_of_look e)) }
    ensures too_long { IfErr result (λ e. IfTooLong e Passes) }
{
    match target.kind(path) {
        Ok(Seen::Dir) => Ok(true),
        Ok(Seen::File { .. }) => Ok(true),
        Ok(Seen::Missing) => Ok(false),
        Ok(Seen::NotDir) => changed(alloc, path),
        Err(LookFault) => Err(DeleteError::Fault),
    }
}

/// Whether a directory has the name, by which no list shows what it has.
pub(crate) fn has_name<T: Target>(
    alloc: Global,
    target: &mut T,
    dir: &Path,
    name: &Name,
) -> Result<bool, DeleteError>
    ensures target { OnlyLooks (view T.Store target.old) (view T.Store target.new) result is_fault }
    ensures looks { T.looks target.new ≤ T.looks target.old + 1 }
    ensures value { IfOk result (λ there. IfSome (T.tree target.old) (λ t. there ≡ not (is_absent (seen t (dir.now ++ name.now ∷ []))))) }
    ensures changed { IfErr result (λ e. IfChanged e (IfSome (T.tree target.old) (λ t. seen t (dir.now ++ name.now ∷ []) ≡ seen_as.NotDir))) }
    ensures within { IfOk result (λ _. IsTrue (fits (dir.now ++ name.now ∷ []))) }
    ensures child { IfErr result (λ e. IsOfChild e dir.now name.now) }
    ensures too_long { IfErr result (λ e. IfTooLong e Passes) }
{
    let place = step(alloc, dir, name)?;
    stands(alloc, target, &place)
}

/// The names in a directory.
pub(crate) fn names_of<T: Target>(
    alloc: Global,
    target: &mut T,
    dir: &Path,
) -> Result<List<Name>, DeleteError>
    ensures target { OnlyLooks (view T.Store target.old) (view T.Store target.new) result is_fault }
    ensures looks { T.looks target.new ≤ T.looks target.old + 1 }
    ensures ascending { IfOk result (IsStrictlySortedBy (slice_cmp nat_cmp)) }
    ensures shown { IfOk result (λ names. IsTrue (list_all is_shown names)) }
    ensures names { IfOk result (λ names. IfSome (T.tree target.old) (λ t. AreNames t dir.now names)) }
    ensures changed { IfErr result (λ e. IfChanged e (IfSome (T.tree target.old) (λ t. shows_dir (seen t dir.now) ≡ false))) }
    ensures kind { IfErr result (λ e. IsTrue (is_of_look e)) }
    ensures too_long { IfErr result (λ e. IfTooLong e Passes) }
{
    match target.list(alloc, dir) {
        Ok(names) => Ok(names),
        Err(ReadError::Fault) => Err(DeleteError::Fault),
        Err(ReadError::Memory) => Err(DeleteError::Memory),
        Err(ReadError::Missing) => changed(alloc, dir),
        Err(ReadError::NotDir) => changed(alloc, dir),
        Err(ReadError::IsDir) => changed(alloc, dir),
        Err(ReadError::Short) => changed(alloc, dir),
    }
}
