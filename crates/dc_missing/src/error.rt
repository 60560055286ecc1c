//! Why it is not known what goes.
#![tactic(auto)]

ghost use Rattle.std.specs.Prelude.{◌≡◌, [], ◌∷◌, ◌++◌, Err, IfOk, IfErr};
ghost use Rattle.dc_path.specs.Unless.{GivesUnless};
ghost use Rattle.dc_listing.specs.Errors.{Passes};
ghost use Rattle.dc_missing.specs.Errors.{stepped, IfTooLong};

use dc_path::{Name, OutOfMemory, Path, PathError};
use std::alloc::Global;

/// Why it is not known what goes.
#[derive(Drop)]
pub enum DeleteError {
    /// More than `MAX_PATHS` paths stand below the base.
    TooMany,
    /// A path of the target passes the limits, or the place of snapshots in a directory does: its parent and its last name.
    TooLong { parent: Path, name: Name },
    /// The target denied what it showed before.
    Changed { path: Path },
    /// The target failed.
    Fault,
    /// Memory ran out.
    Memory,
}

impl From<OutOfMemory> for DeleteError {
    ghost use Rattle.std.specs.Prelude.{◌≡◌};
    ghost use Rattle.dc_missing.specs.declared.error.DeleteError.TheVariants.{Memory};

    ghost from_gives = { λ _ e. e ≡ Memory };

    fn from(_lack: OutOfMemory) -> DeleteError {
        DeleteError::Memory
    }
}

/// The refusal of a target that denies what it showed at a path.
pub(crate) fn changed<T: Drop>(alloc: Global, path: &Path) -> Result<T, DeleteError>
    ensures { GivesUnless DeleteError.Memory result (Err (DeleteError.Changed path.now)) }
{
    let path = path.copy(alloc)?;
    Err(DeleteError::Changed { path })
}

// The refusal of a path that passes the limits.
fn too_long<T: Drop>(alloc: Global, parent: &Path, name: &Name) -> Result<T, DeleteError>
    ensures { GivesUnless DeleteError.Memory result (Err (DeleteError.TooLong parent.now name.now)) }
{
    let parent = parent.copy(alloc)?;
    let name = name.copy(alloc)?;
    Err(DeleteError::TooLong { parent, name })
}

/// A path with a name more.
pub(crate) fn step(alloc: Global, path: &Path, name: &Name) -> Result<Path, DeleteError>
    ensures value { GivesUnless DeleteError.Memory result (stepped path.now name.now) }
    ensures longer { IfOk result (λ p. p ≡ path.now ++ name.now ∷ []) }
    ensures too_long { IfErr result (λ e. IfTooLong e Passes) }
{
    match path.child(alloc, name) {
        Ok(child) => Ok(child),
        Err(PathError::TooDeep) => too_long(alloc, path, name),
        Err(PathError::TooLong) => too_long(alloc, path, name),
        Err(_) => Err(DeleteError::Memory),
    }
}
