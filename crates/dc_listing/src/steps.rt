//! Paths with names more, and the refusal of those that pass the limits.
#![tactic(auto)]

ghost use Rattle.std.specs.Prelude.{◌≡◌, [], ◌∷◌, ◌++◌, Err, IfOk, IfErr, IsTrue};
ghost use Rattle.dc_path.specs.Paths.{fits};
ghost use Rattle.dc_path.specs.Unless.{GivesUnless};
ghost use Rattle.dc_listing.specs.Errors.{stepped, IfTooLong, Passes};
ghost use Rattle.dc_listing.specs.Walks.{IsPastOn};

use crate::ListError;
use dc_path::{Name, Path, PathError};
use std::alloc::Global;

/// The refusal of a path that passes the limits.
pub(crate) fn too_long<T: Drop>(alloc: Global, parent: &Path, name: &Name) -> Result<T, ListError>
    ensures { GivesUnless ListError.Memory result (Err (ListError.TooLong parent.now name.now)) }
{
    let parent = parent.copy(alloc)?;
    let name = name.copy(alloc)?;
    Err(ListError::TooLong { parent, name })
}

/// A path with a name more.
pub(crate) fn step(alloc: Global, path: &Path, name: &Name) -> Result<Path, ListError>
    ensures value { GivesUnless ListError.Memory result (stepped path.now name.now) }
    ensures longer { IfOk result (λ p. p ≡ path.now ++ name.now ∷ []) }
    ensures too_long { IfErr result (λ e. IfTooLong e Passes) }
{
    match path.child(alloc, name) {
        Ok(child) => Ok(child),
        Err(PathError::TooDeep) => too_long(alloc, path, name),
        Err(PathError::TooLong) => too_long(alloc, path, name),
        Err(_) => Err(ListError::Memory),
    }
}

/// A path with another one after it.
pub(crate) fn join(alloc: Global, path: &Path, rel: &Path) -> Result<Path, ListError>
    ensures value { IfOk result (λ p. p ≡ path.now ++ rel.now) }
    ensures within { IfOk result (λ p. IsTrue (fits (path.now ++ rel.now))) }
    ensures past { IfErr result (λ e. IsPastOn e (path.now ++ rel.now)) }
{
    let mut joined = path.copy(alloc)?;
    for name in rel.names() {
        joined = step(alloc, &joined, name)?;
    }
    let _count = joined.len();
    Ok(joined)
}
