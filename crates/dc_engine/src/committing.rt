//! All phases of a commit, in their order, on one target (Hadoop DistCp, `CopyCommitter.commitJob`).
#![tactic(auto)]

ghost use Rattle.std.specs.Prelude.{◌≡◌, ◌+◌, ◌*◌, ◌≤◌, true, false, length, IfErr, OnOk};
ghost use Rattle.std.specs.List.{list_all, sum_by};
ghost use Rattle.dc_fs.specs.Causes.{steady_at};
ghost use Rattle.dc_fs.specs.Views.{view, HasCauseIf};
ghost use Rattle.dc_commit.specs.Landing.{is_ready, parts_of};
ghost use Rattle.dc_commit.specs.Moving.{KeepsButRenames, MoveCause};
ghost use Rattle.dc_engine.specs.Committing.{Adjusts, Builds, CommitCause, CommitStops, HasCommitted, Lands, LeavesDue, Moves, TellsPath};
ghost use Rattle.dc_engine.specs.Committing.{is_adjust_fault, is_build_fault, is_past_sweep, lacks_work, landings_of, move_of, moves, task_of};
ghost use Rattle.dc_engine.specs.Committing.{outcome_of_adjust, outcome_of_build, outcome_of_move, outcome_of_step};

use crate::{Outcome, Phase};
use dc_attrs::Keep;
use dc_commit::{
    Moved, Ready, StepError, delete_missing, land_all, make_dirs, move_work, set_dir_attrs,
    set_file_attrs,
};
use dc_decide::{Plan, Planned};
use dc_fs::{Desk, Target};
use dc_options::Options;
use dc_path::{List, OutOfMemory, Path};
use std::alloc::Global;

/// Why a commit stops before all files have landed and no temporary is left.
#[derive(Drop)]
pub(crate) enum BuildError {
    /// While directories are made.
    Dirs { error: StepError },
    /// While files land.
    Land { error: StepError },
    /// The sweep of temporaries failed.
    Sweep,
}

/// Why a commit stops between the sweep and the move.
#[derive(Drop)]
pub(crate) enum AdjustError {
    /// While the attributes of files are set.
    FileAttrs { error: StepError },
    /// While what the source lacks is removed.
    Delete { error: StepError },
    /// While the attributes of directories are set.
    DirAttrs { error: StepError },
}

/// Why the work path is not moved to the target, or not known to be.
#[derive(Drop)]
pub(crate) enum MoveError {
    /// Three renames failed.
    NotMoved,
    /// A rename failed, and then three looks at this path, the target.
    Uncertain { path: Path },
    /// The target denied the move to this path, the target.
    Changed { path: Path },
    /// Memory ran out.
    Memory,
}

/// Why a commit stops.
#[derive(Drop)]
pub(crate) enum CommitError {
    /// Before all files have landed and no temporary is left.
    Build { error: BuildError },
    /// Between the sweep and the move.
    Adjust { error: AdjustError },
    /// At the move.
    Move { error: MoveError },
}

// How a run ends where a phase stops.
fn stopped_in(phase: Phase, error: StepError) -> Outcome
    ensures { result ≡ outcome_of_step error phase }
{
    match error {
        StepError::Fault { done } => Outcome::TargetFault { phase, done },
        StepError::Changed { path } => Outcome::Changed { path },
        StepError::Memory { .. } => Outcome::Memory,
    }
}

// How it ends before no temporary is left.
fn unbuilt(error: BuildError) -> Outcome
    ensures { result ≡ outcome_of_build error }
{
    match error {
        BuildError::Dirs { error } => stopped_in(Phase::Dirs, error),
        BuildError::Land { error } => stopped_in(Phase::Land, error),
        BuildError::Sweep => Outcome::TargetFault {
            phase: Phase::Sweep,
            done: 0,
        },
    }
}

// How it ends between the sweep and the move.
fn unadjusted(error: AdjustError) -> Outcome
    ensures { result ≡ outcome_of_adjust error }
{
    match error {
        AdjustError::FileAttrs { error } => stopped_in(Phase::FileAttrs, error),
        AdjustError::Delete { error } => stopped_in(Phase::Delete, error),
        AdjustError::DirAttrs { error } => stopped_in(Phase::DirAttrs, error),
    }
}

// How it ends at the move.
fn unmoved(error: MoveError) -> Outcome
    ensures { result ≡ outcome_of_move error }
{
    match error {
        MoveError::NotMoved => Outcome::TargetFault {
            phase: Phase::Move,
            done: 0,
        },
        MoveError::Uncertain { path } => Outcome::Uncertain { path },
        MoveError::Changed { path } => Outcome::Changed { path },
        MoveError::Memory => Outcome::Memory,
    }
}

impl From<CommitError> for Outcome {
    ghost use Rattle.std.specs.Prelude.{◌≡◌};
    ghost use Rattle.dc_engine.specs.Committing.{outcome_of_commit};

    ghost from_gives = { λ error e. e ≡ outcome_of_commit error };

    fn from(error: CommitError) -> Outcome {
        match error {
            CommitError::Build { error } => unbuilt(error),
            CommitError::Adjust { error } => unadjusted(error),
            CommitError::Move { error } => unmoved(error),
        }
    }
}

// Lands the files that are ready, and removes what is left of temporaries.
fn land_and_sweep<T: Target>(
    alloc: Global,
    target: &mut T,
    plan: &Plan,
    files: List<Ready<<T::Desk as Desk>::Temp>>,
) -> Result<(), BuildError>
    requires ready { list_all (is_ready plan.now) files ≡ true }
    requires counted { sum_by parts_of files ≤ (T.rest target.old).scratch }
    ensures lands { Lands (landings_of T.Desk.Temp.content T.Desk.Temp.size plan.now files) (view T.Store target.old) (view T.Store target.new) result }
    ensures cause { HasCauseIf (T.faults target.old) (T.faults target.new) result is_build_fault }
    ensures calm { steady_at (T.steady target.new) (T.faults target.new) ≡ steady_at (T.steady target.old) (T.faults target.old) }
    ensures looks { T.looks target.new ≤ T.looks target.old + length files + 1 }
{
    match land_all(alloc, target, plan, files) {
        Ok(()) => {}
        Err(error) => return Err(BuildError::Land { error }),
    }
    match target.sweep() {
        Ok(()) => Ok(()),
        Err(_) => Err(BuildError::Sweep),
    }
}

// Makes the directories, lands the files, and sweeps.
fn build<T: Target>(
    alloc: Global,
    target: &mut T,
    place: &Path,
    plan: &Plan,
    files: List<Ready<<T::Desk as Desk>::Temp>>,
) -> Result<(), BuildError>
    requires ready { list_all (is_ready plan.now) files ≡ true }
    requires counted { sum_by parts_of files ≤ (T.rest target.old).scratch }
    ensures builds { Builds place.now plan.now (landings_of T.Desk.Temp.content T.Desk.Temp.size plan.now files) (view T.Store target.old) (view T.Store target.new) result }
    ensures cause { HasCauseIf (T.faults target.old) (T.faults target.new) result is_build_fault }
    ensures calm { steady_at (T.steady target.new) (T.faults target.new) ≡ steady_at (T.steady target.old) (T.faults target.old) }
    ensures looks { T.looks target.new ≤ T.looks target.old + length place.now + length plan.now.items + length files + 2 }
{
    match make_dirs(alloc, target, place, plan) {
        Ok(()) => land_and_sweep(alloc, target, plan, files),
        Err(error) => Err(BuildError::Dirs { error }),
    }
}

// Sets the attributes of files, removes what the source lacks, and sets the attributes of directories.
fn adjust<T: Target>(
    alloc: Global,
    target: &mut T,
    plan: &Plan,
    keep: &Keep,
    deletes: &List<Path>,
) -> Result<(), AdjustError>
    ensures adjusts { Adjusts keep.now plan.now deletes.now (T.tree target.old) (T.tree target.new) result }
    ensures rest { T.rest target.new ≡ T.rest target.old }
    ensures cause { HasCauseIf (T.faults target.old) (T.faults target.new) result is_adjust_fault }
    ensures calm { steady_at (T.steady target.new) (T.faults target.new) ≡ steady_at (T.steady target.old) (T.faults target.old) }
    ensures looks { T.looks target.new ≤ T.looks target.old + 4 * length plan.now.items + length deletes.now }
{
    match set_file_attrs(alloc, target, plan, keep) {
        Ok(()) => {}
        Err(error) => return Err(AdjustError::FileAttrs { error }),
    }
    match delete_missing(alloc, target, deletes) {
        Ok(()) => {}
        Err(error) => return Err(AdjustError::Delete { error }),
    }
    match set_dir_attrs(alloc, target, plan, keep) {
        Ok(()) => Ok(()),
        Err(error) => Err(AdjustError::DirAttrs { error }),
    }
}

// Moves the work path to the target. The path that an error names is copied first, so that want of memory moves nothing.
fn move_built<T: Target>(
    alloc: Global,
    target: &mut T,
    work: &Path,
    place: &Path,
) -> Result<(), MoveError>
    ensures tree { Moves (move_of result) work.now place.now (T.tree target.old) (T.tree target.new) }
    ensures kept { KeepsButRenames (view T.Store target.old) (view T.Store target.new) }
    ensures cause { MoveCause (move_of result) (view T.Store target.old) (view T.Store target.new) }
    ensures named { IfErr result (λ e. TellsPath e place.now) }
    ensures looks { T.looks target.new ≤ T.looks target.old + 12 }
{
    let path = match place.copy(alloc) {
        Ok(path) => path,
        Err(OutOfMemory) => return Err(MoveError::Memory),
    };
    match move_work(alloc, target, work, place) {
        Moved::Moved => Ok(()),
        Moved::NotMoved => Err(MoveError::NotMoved),
        Moved::Uncertain => Err(MoveError::Uncertain { path }),
        Moved::Changed => Err(MoveError::Changed { path }),
        Moved::Memory => Err(MoveError::Memory),
    }
}

// Whether a file is listed at the root path that the copy goes on without.
#[tactic(auto, using(dc_listing::proofs::NameLemmas::root_is_empty))]
fn lacks_work(items: &[Planned]) -> bool
    ensures { result ≡ lacks_work items.now }
{
    items.iter().any(|planned| {
        planned.item().rel().len() == 0 && (!planned.item().is_dir() && planned.is_out())
    })
}

// Whether the work path is moved to the target.
fn moves(options: &Options, plan: &Plan) -> bool
    ensures { result ≡ moves options.now plan.now }
{
    options.atomic() && !lacks_work(plan.items())
}

/// All phases of a commit, in their order, of a plan under its base and for the target path `place`: directories are made,
/// the files land, temporaries are swept, the attributes of files are set, the paths of `deletes` are removed, the attributes
/// of directories are set, and with `-atomic` the base is moved to `place`, unless a file that the copy goes on without is
/// listed at the root path, since nothing is made at the base then.
///
/// # Errors
///
/// The first phase that stops decides. A fault comes only where the count of faults rose: at the move by three, and that of
/// renames that failed by three too. `Uncertain` comes only where a rename failed and the count of faults rose by four.
pub(crate) fn commit<T: Target>(
    alloc: Global,
    target: &mut T,
    options: &Options,
    place: &Path,
    plan: &Plan,
    files: List<Ready<<T::Desk as Desk>::Temp>>,
    deletes: &List<Path>,
) -> Result<(), CommitError>
    requires ready { list_all (is_ready plan.now) files ≡ true }
    requires counted { sum_by parts_of files ≤ (T.rest target.old).scratch }
    ensures ok { OnOk result (HasCommitted (task_of T.Desk.Temp.content T.Desk.Temp.size options.now place.now plan.now files deletes.now) (view T.Store target.old) (view T.Store target.new)) }
    ensures stops { IfErr result (CommitStops (task_of T.Desk.Temp.content T.Desk.Temp.size options.now place.now plan.now files deletes.now) (view T.Store target.old) (view T.Store target.new)) }
    ensures later { T.faults target.old ≤ T.faults target.new }
    ensures cause { IfErr result (CommitCause (view T.Store target.old) (view T.Store target.new)) }
    ensures calm { steady_at (T.steady target.new) (T.faults target.new) ≡ steady_at (T.steady target.old) (T.faults target.old) }
    ensures swept { IfErr result (λ e. is_past_sweep e ≡ true → (T.rest target.new).scratch ≡ 0) }
    ensures looks { T.looks target.new ≤ T.looks target.old + length place.now + 5 * length plan.now.items + length files + length deletes.now + 14 }
    ensures due { LeavesDue (task_of T.Desk.Temp.content T.Desk.Temp.size options.now place.now plan.now files deletes.now) (view T.Store target.old) (view T.Store target.new) result }
{
    match build(alloc, target, place, plan, files) {
        Ok(()) => {}
        Err(error) => return Err(CommitError::Build { error }),
    }
    match adjust(alloc, target, plan, options.keep(), deletes) {
        Ok(()) => {}
        Err(error) => return Err(CommitError::Adjust { error }),
    }
    if !moves(options, plan) {
        return Ok(());
    }
    match move_built(alloc, target, plan.base(), place) {
        Ok(()) => Ok(()),
        Err(error) => Err(CommitError::Move { error }),
    }
}
