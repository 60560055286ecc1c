//! Removing what the source lacks.
#![tactic(auto)]

ghost use Rattle.std.specs.Prelude.{◌≡◌, ◌+◌, ◌≤◌, length, IfErr, OnOk};
ghost use Rattle.std.specs.Option.{option_map};
ghost use Rattle.dc_fs.specs.Views.{view};
ghost use Rattle.dc_commit.specs.Keeping.{Keeps};
ghost use Rattle.dc_commit.specs.Removals.{remove_step, remove_steps};
ghost use Rattle.dc_commit.specs.Steps.{after, TakesStep, Stops};

use crate::StepError;
use crate::steps::stopped;
use dc_fs::Target;
use dc_path::{List, Path};
use std::alloc::Global;

// Removes what stands at a path.
fn remove_one<T: Target>(
    alloc: Global,
    target: &mut T,
    path: &Path,
    done: u64,
) -> Result<(), StepError>
    ensures step { TakesStep done (remove_step path.now) (T.tree target.old) (T.tree target.new) result }
    ensures kept { Keeps (view T.Store target.old) (view T.Store target.new) result }
    ensures looks { T.looks target.new ≤ T.looks target.old + 1 }
{
    match target.remove(alloc, path) {
        Ok(()) => Ok(()),
        Err(error) => Err(stopped(alloc, error, path, done)),
    }
}

/// Removes what stands at each of the paths, in their order, with all that is under it.
///
/// # Errors
///
/// - `Fault`, only where the target's count of faults rose;
/// - `Changed`, only where a path is the root or nothing stands there;
/// - `Memory`, at any element.
pub fn delete_missing<T: Target>(
    alloc: Global,
    target: &mut T,
    paths: &List<Path>,
) -> Result<(), StepError>
    ensures ok { OnOk result (T.tree target.new ≡ option_map (after (remove_steps paths.now)) (T.tree target.old)) }
    ensures stops { IfErr result (Stops (remove_steps paths.now) (T.tree target.old) (T.tree target.new)) }
    ensures kept { Keeps (view T.Store target.old) (view T.Store target.new) result }
    ensures looks { T.looks target.new ≤ T.looks target.old + length paths.now }
{
    let items = paths.as_slice();
    let mut done = 0u64;
    for path in items {
        match remove_one(alloc, target, path, done) {
            Ok(()) => done += 1,
            Err(error) => return Err(error),
        }
    }
    Ok(())
}
