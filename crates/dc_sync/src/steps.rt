//! Names, and paths with names more.
#![tactic(auto)]

ghost use Rattle.std.specs.Prelude.{◌≡◌, [], ◌∷◌, ◌++◌, true, Err, IfOk, drop};
ghost use Rattle.dc_path.specs.Names.{is_name};
ghost use Rattle.dc_path.specs.Unless.{GivesUnless};
ghost use Rattle.dc_sync.specs.Steps.{stepped, stepped_on};

use crate::SyncError;
use dc_path::{Name, OutOfMemory, Path, PathError};
use std::alloc::Global;

/// The name with a text that is one, so want of memory is the one error.
pub(crate) fn name_of(alloc: Global, text: &str) -> Result<Name, OutOfMemory>
    requires { is_name text.now ≡ true }
    ensures { IfOk result (λ name. name ≡ text.now) }
{
    match Name::read(alloc, text) {
        Ok(name) => Ok(name),
        Err(_) => Err(OutOfMemory),
    }
}

// The refusal of a path that passes the limits.
fn too_long(alloc: Global, parent: &Path, name: &Name) -> Result<Path, SyncError>
    ensures { GivesUnless SyncError.Memory result (Err (SyncError.TooLong parent.now name.now)) }
{
    let parent = parent.copy(alloc)?;
    let name = name.copy(alloc)?;
    Err(SyncError::TooLong { parent, name })
}

// A path with a name more.
fn step(alloc: Global, path: &Path, name: &Name) -> Result<Path, SyncError>
    ensures { GivesUnless SyncError.Memory result (stepped path.now name.now) }
{
    match path.child(alloc, name) {
        Ok(child) => Ok(child),
        Err(PathError::TooDeep | PathError::TooLong) => too_long(alloc, path, name),
        Err(_) => Err(SyncError::Memory),
    }
}

/// A path with names more, or the refusal of the first of them that passes the limits.
pub(crate) fn step_on(alloc: Global, path: &Path, names: &[Name]) -> Result<Path, SyncError>
    ensures { GivesUnless SyncError.Memory result (stepped_on path.now names.now) }
{
    let mut longer = path.copy(alloc)?;
    for name in names {
        longer = step(alloc, &longer, name)?;
    }
    Ok(longer)
}
