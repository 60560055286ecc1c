//! Why a phase stops.
#![tactic(auto)]

ghost use Rattle.dc_commit.specs.Steps.{Answers};

use dc_fs::WriteError;
use dc_path::{OutOfMemory, Path};
use std::alloc::Global;

/// Why a phase stops. `done` counts its elements that are finished.
#[derive(Drop)]
pub enum StepError {
    /// The target failed. The element at hand is done or not.
    Fault { done: u64 },
    /// The target denied, at this path, what it allowed by what it showed before. No more is done.
    Changed { path: Path },
    /// Memory ran out. No more is done.
    Memory { done: u64 },
}

// What a step answers where the target refused a call at its path, after so many other steps.
pub(crate) fn stopped(alloc: Global, error: WriteError, path: &Path, done: u64) -> StepError
    ensures { Answers error path.now done result }
{
    match error {
        WriteError::Fault => StepError::Fault { done },
        WriteError::Memory => StepError::Memory { done },
        _ => match path.copy(alloc) {
            Ok(path) => StepError::Changed { path },
            Err(OutOfMemory) => StepError::Memory { done },
        },
    }
}
