//! Why a tree is not changed.
#![tactic(auto)]

use dc_path::OutOfMemory;
use std::alloc::{AllocError, AllocFailed};

/// Why a tree is not looked at or changed.
#[derive(Clone, Copy, Debug, PartialEq, Eq)]
pub enum TreeError {
    /// What must be there is not: it or a prefix is absent.
    Missing,
    /// A proper prefix is a file, or what must be a directory is none.
    NotDir,
    /// Something stands where something new is to stand.
    Exists,
    /// A directory stands where a file is meant.
    IsDir,
    /// A directory would be moved to a path under itself.
    IntoItself,
    /// The root is neither removed nor moved.
    Root,
    /// Memory ran out.
    Memory,
}

impl From<OutOfMemory> for TreeError {
    ghost use Rattle.std.specs.Prelude.{◌≡◌};
    ghost use Rattle.dc_attrs.specs.declared.refusals.TreeError.TheVariants.{Memory};

    ghost from_gives = { λ _ e. e ≡ Memory };

    fn from(_lack: OutOfMemory) -> TreeError {
        TreeError::Memory
    }
}

impl From<AllocError> for TreeError {
    ghost use Rattle.std.specs.Prelude.{◌≡◌};
    ghost use Rattle.dc_attrs.specs.declared.refusals.TreeError.TheVariants.{Memory};

    ghost from_gives = { λ _ e. e ≡ Memory };

    fn from(_lack: AllocError) -> TreeError {
        TreeError::Memory
    }
}

impl<T: Drop> From<AllocFailed<T>> for TreeError {
    ghost use Rattle.std.specs.Prelude.{◌≡◌};
    ghost use Rattle.dc_attrs.specs.declared.refusals.TreeError.TheVariants.{Memory};

    ghost from_gives = { λ _ e. e ≡ Memory };

    fn from(_lack: AllocFailed<T>) -> TreeError {
        TreeError::Memory
    }
}
