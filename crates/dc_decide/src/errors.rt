//! Why nothing is decided.
#![tactic(auto)]

ghost use Rattle.std.specs.Prelude.{◌≡◌, true, false};
ghost use Rattle.dc_decide.specs.Errors.{is_source_fault, is_target_fault, is_clash, is_denial, IfChanged};

use dc_fs::ReadError;
use dc_path::{OutOfMemory, Path};
use std::alloc::Global;

/// Why it is not decided what becomes of an item.
#[derive(Drop)]
pub enum DecideError {
    /// The target has the other kind at the place, or a file on the way there.
    Clash,
    /// The source failed: its count of faults rose.
    SourceFault,
    /// The target failed: its count of faults rose.
    TargetFault,
    /// A store denied what it showed before: at the item's path in the source, or at its place in the target.
    Changed { path: Path },
    /// Memory ran out.
    Memory,
}

impl From<OutOfMemory> for DecideError {
    ghost use Rattle.std.specs.Prelude.{◌≡◌};
    ghost use Rattle.dc_decide.specs.declared.errors.DecideError.TheVariants.{Memory};

    ghost from_gives = { λ _ e. e ≡ Memory };

    fn from(_lack: OutOfMemory) -> DecideError {
        DecideError::Memory
    }
}

/// A store denied what it showed at a path.
pub(crate) fn changed(alloc: Global, path: &Path) -> DecideError
    ensures source { is_source_fault result ≡ false }
    ensures target { is_target_fault result ≡ false }
    ensures clash { is_clash result ≡ false }
    ensures path { IfChanged result (λ denied. denied ≡ path.now) }
{
    match path.copy(alloc) {
        Ok(path) => DecideError::Changed { path },
        Err(OutOfMemory) => DecideError::Memory,
    }
}

/// What it means that the source refused a look at a path.
pub(crate) fn source_stopped(alloc: Global, error: ReadError, path: &Path) -> DecideError
    ensures fault { is_source_fault result ≡ true → error ≡ ReadError.Fault }
    ensures target { is_target_fault result ≡ false }
    ensures clash { is_clash result ≡ false }
    ensures path { IfChanged result (λ denied. denied ≡ path.now) }
    ensures changed { IfChanged result (λ _. is_denial error ≡ true) }
{
    match error {
        ReadError::Fault => DecideError::SourceFault,
        ReadError::Memory => DecideError::Memory,
        ReadError::Missing => changed(alloc, path),
        ReadError::NotDir => changed(alloc, path),
        ReadError::IsDir => changed(alloc, path),
        ReadError::Short => changed(alloc, path),
    }
}

/// What it means that the target refused a look at a path.
pub(crate) fn target_stopped(alloc: Global, error: ReadError, path: &Path) -> DecideError
    ensures fault { is_target_fault result ≡ true → error ≡ ReadError.Fault }
    ensures source { is_source_fault result ≡ false }
    ensures clash { is_clash result ≡ false }
    ensures path { IfChanged result (λ denied. denied ≡ path.now) }
    ensures changed { IfChanged result (λ _. is_denial error ≡ true) }
{
    match error {
        ReadError::Fault => DecideError::TargetFault,
        ReadError::Memory => DecideError::Memory,
        ReadError::Missing => changed(alloc, path),
        ReadError::NotDir => changed(alloc, path),
        ReadError::IsDir => changed(alloc, path),
        ReadError::Short => changed(alloc, path),
    }
}
