//! All files of a plan: copied to temporaries, and made ready to land.
#![tactic(auto)]

ghost use Rattle.std.specs.Prelude.{◌≡◌, ◌≢◌, ◌+◌, ◌*◌, ◌-◌, ◌<◌, ◌≤◌, ◌^◌, true, false, length, count_by, All, OnOk, IfOk, IfErr, IfSome};
ghost use Rattle.std.specs.List.{list_all, sum_by};
ghost use Rattle.std.specs.Option.{is_some, option_copied};
ghost use Rattle.dc_attrs.specs.Trees.{IsTree};
ghost use Rattle.dc_fs.specs.Causes.{Rose};
ghost use Rattle.dc_fs.specs.Views.{view};
ghost use Rattle.dc_pieces.specs.Cutting.{plan_pieces};
ghost use Rattle.dc_kills.specs.Plans.{IsInOrder};
ghost use Rattle.dc_commit.specs.Landing.{is_ready, parts_of};
ghost use Rattle.dc_join.specs.Joining.{AreJoined};
ghost use Rattle.dc_join.specs.Leaving.{AreLeftOut};
ghost use Rattle.dc_crew.specs.Advances.{is_reached_entry};
ghost use Rattle.dc_crew.specs.Jobs.{job_of, most_workers};
ghost use Rattle.dc_crew.specs.Slots.{TakesForksBack, KeepsTarget, RoseTogether, MadeMore, StandStill};
ghost use Rattle.dc_engine.specs.Counting.{failed_of};
ghost use Rattle.dc_engine.specs.Outcomes.{is_target_fault};
ghost use Rattle.dc_engine.specs.Copying.{decision_of, IsPlaceOf, IsOriginOf, IsOutcomeOf, IsToWrite, IsToRead, LeavesFiles, AreCopied, AreShown, is_of_copy, IfCopyFailed, IfDiffers, IfChanged};

use crate::{Outcome, Phase};
use dc_commit::Ready;
use dc_crew::{Copied, CopyError, Halt, copy_pieces};
use dc_decide::{Plan, Planned};
use dc_fs::{Desk, Source, Target};
use dc_join::{join, leave_out_given_up};
use dc_kills::KillPlan;
use dc_options::Options;
use dc_path::{List, OutOfMemory, Path};
use dc_pieces::Pieces;
use std::alloc::Global;
use std::thread::Threads;

// The item of which a piece is, where both are there.
fn planned_of<'a>(plan: &'a Plan, pieces: &Pieces, piece: u32) -> Option<&'a Planned>
    ensures { option_copied result ≡ decision_of plan.now pieces.now piece }
{
    match pieces.get(piece as usize) {
        Some(piece) => plan.items().get(piece.item as usize),
        None => None,
    }
}

// The path under the target of the file of a piece. A piece past the last one has none.
fn place_of(alloc: Global, plan: &Plan, pieces: &Pieces, piece: u32) -> Result<Path, OutOfMemory>
    ensures { IfOk result (IsPlaceOf plan.now pieces.now piece) }
{
    match planned_of(plan, pieces, piece) {
        Some(planned) => planned.item().rel().copy(alloc),
        None => Err(OutOfMemory),
    }
}

// The path in the source of the file of a piece. A piece past the last one has none.
fn origin_of(alloc: Global, plan: &Plan, pieces: &Pieces, piece: u32) -> Result<Path, OutOfMemory>
    ensures { IfOk result (IsOriginOf plan.now pieces.now piece) }
{
    match planned_of(plan, pieces, piece) {
        Some(planned) => {
            let _action = planned.action();
            planned.item().from().copy(alloc)
        }
        None => Err(OutOfMemory),
    }
}

// How a run ends in which the waves of a copy ended so.
fn outcome_of_halt(alloc: Global, plan: &Plan, pieces: &Pieces, halt: Halt) -> Outcome
    ensures { IsOutcomeOf plan.now pieces.now (CopyError.Halted halt) result }
{
    match halt {
        Halt::Memory => Outcome::Memory,
        Halt::Differs {
            piece,
            expected,
            found,
        } => match place_of(alloc, plan, pieces, piece) {
            Ok(path) => Outcome::Differs {
                path,
                expected,
                found,
            },
            Err(OutOfMemory) => Outcome::Memory,
        },
        Halt::Changed { piece } => match origin_of(alloc, plan, pieces, piece) {
            Ok(path) => Outcome::Changed { path },
            Err(OutOfMemory) => Outcome::Memory,
        },
        Halt::Failed { piece } => match place_of(alloc, plan, pieces, piece) {
            Ok(path) => Outcome::CopyFailed { path },
            Err(OutOfMemory) => Outcome::Memory,
        },
    }
}

// How a run ends in which the pieces of a copy are not all copied.
fn outcome_of(alloc: Global, plan: &Plan, pieces: &Pieces, error: CopyError) -> Outcome
    ensures { IsOutcomeOf plan.now pieces.now error result }
{
    match error {
        CopyError::Fault => Outcome::TargetFault {
            phase: Phase::Copy,
            done: 0,
        },
        CopyError::Halted(halt) => outcome_of_halt(alloc, plan, pieces, halt),
    }
}

// Lets the copy go on without the items of pieces that were given up, and joins the parts of all others.
fn join_copied<P: Drop>(
    alloc: Global,
    plan: &mut Plan,
    pieces: &Pieces,
    copied: Copied<P>,
) -> Result<List<Ready<P>>, OutOfMemory>
    requires { All (λ p. p.item < length plan.old.items) pieces.now }
    ensures base { plan.new.base ≡ plan.old.base }
    ensures len { length plan.new.items ≡ length plan.old.items }
    ensures left { AreLeftOut pieces.now copied.given_up plan.old.items plan.new.items }
    ensures joined { IfOk result (AreJoined plan.new pieces.now copied.parts) }
    ensures ready { IfOk result (λ files. list_all (is_ready plan.new) files ≡ true) }
    ensures counted { IfOk result (λ files. sum_by parts_of files ≤ length copied.parts) }
    ensures few { length copied.parts < 2 ^ 64 }
{
    let Copied { parts, given_up } = copied;
    let _count = parts.len();
    leave_out_given_up(plan, pieces, &given_up);
    join(alloc, plan, pieces, parts)
}

/// Copies all files of a plan to temporaries of the target, in waves of workers, and joins what they made of each file.
///
/// With `-i` the copy goes on without a file of which a piece was given up after four failures: the plan leaves it out, and
/// nothing of it is ready. What is ready has the temporaries of each other file that is written, in the order of their ranges.
/// Nothing has landed, and the target counts at least as many temporaries as are ready.
///
/// # Errors
///
/// - `TargetFault`, in the copy and after nothing, only where the target's count of faults rose: a desk could not be opened;
/// - `Differs`, with the path under the target, only where the target tells nothing and the two digests differ;
/// - `Changed`, with the path in the source, only where the source's tree is not told, or an item is not as it is listed;
/// - `CopyFailed`, with the path under the target, only without `-i`, and where forks and desks failed four times together;
/// - `Memory`, which may come in the place of any answer.
pub(crate) fn copy<S: Source, T: Target, R: Threads + Sync>(
    rt: &R,
    alloc: Global,
    options: &Options,
    source: &mut S,
    target: &mut T,
    plan: &mut Plan,
    pieces: &Pieces,
    kills: &KillPlan,
) -> Result<List<Ready<<T::Desk as Desk>::Temp>>, Outcome>
    requires pieces { pieces.now ≡ plan_pieces options.now.blocks plan.old }
    requires few { length kills.now ≤ 65536 }
    requires ordered { IsInOrder kills.now }

    // what the two stores keep
    ensures source { TakesForksBack 0 (view S.Store source.old) (view S.Store source.new) }
    ensures source_looks { S.looks source.new ≡ S.looks source.old }
    ensures target { KeepsTarget (view T.Store target.old) (view T.Store target.new) }
    ensures target_looks { T.looks target.new ≤ T.looks target.old + most_workers }

    // the plan is as it was, but for files that are left out: none without `-i`, and none where nothing fails
    ensures base { plan.new.base ≡ plan.old.base }
    ensures leaves { OnOk result (LeavesFiles plan.old plan.new) }
    ensures allowed { OnOk result (options.now.ignore ≡ false → plan.new ≡ plan.old) }
    ensures spared { OnOk result (S.steady source.old ≡ true → T.steady target.old ≡ true → plan.new ≡ plan.old) }
    ensures failures { OnOk result (
        RoseTogether (S.rest source.old) (S.rest source.new) (T.rest target.old) (T.rest target.new)
        (4 * (failed_of plan.new.items - failed_of plan.old.items))) }

    // what is ready: the parts of all other files, which the target counts
    ensures copied { IfOk result (
        AreCopied (job_of (S.tree source.old) (is_some (T.tree target.old)) plan.old.items pieces.now)
        T.Desk.Temp.content T.Desk.Temp.size plan.old plan.new) }
    ensures ready { IfOk result (λ files. list_all (is_ready plan.new) files ≡ true) }
    ensures counted { IfOk result (λ files. sum_by parts_of files ≤ (T.rest target.new).scratch) }

    // where nothing has failed, a temporary was created for each piece, and for each kill after one was made
    ensures created { OnOk result (
        StandStill (S.rest source.old) (S.rest source.new) (T.rest target.old) (T.rest target.new) →
        MadeMore (T.rest target.old) (T.rest target.new)
        (length pieces.now + count_by (is_reached_entry kills.now pieces.now options.now.buffer) kills.now)) }

    // why nothing is ready
    ensures kind { IfErr result (λ e. is_of_copy e ≡ true) }
    ensures cause { IfErr result (λ e. is_target_fault e ≡ true → Rose (T.faults target.old) (T.faults target.new)) }
    ensures given_up { IfErr result (λ e. IfCopyFailed e (λ _. options.now.ignore ≡ false)) }
    ensures four { IfErr result (λ e. IfCopyFailed e (λ _.
        RoseTogether (S.rest source.old) (S.rest source.new) (T.rest target.old) (T.rest target.new) 4)) }
    ensures named { IfErr result (λ e. IfCopyFailed e (IsToWrite plan.old)) }
    ensures differ { IfErr result (λ e. IfDiffers e (λ path expected found. expected ≢ found)) }
    ensures untold { IfErr result (λ e. IfDiffers e (λ path _ _. is_some (T.tree target.old) ≡ false)) }
    ensures differs_at { IfErr result (λ e. IfDiffers e (λ path _ _. IsToWrite plan.old path)) }
    ensures changed { IfErr result (λ e. IfChanged e (λ _.
        IfSome (S.tree source.old) (λ s. IsTree s → AreShown s plan.old.items → ⊥))) }
    ensures changed_at { IfErr result (λ e. IfChanged e (IsToRead plan.old)) }
    ensures unfailed { IfErr result (λ e.
        S.steady source.old ≡ true → T.steady target.old ≡ true → IfCopyFailed e (λ _. ⊥)) }
    ensures steady { IfErr result (λ e.
        S.steady source.old ≡ true → T.steady target.old ≡ true → is_target_fault e ≡ false) }
{
    match copy_pieces(rt, alloc, options, source, target, &*plan, pieces, kills) {
        Ok(copied) => match join_copied(alloc, plan, pieces, copied) {
            Ok(files) => Ok(files),
            Err(OutOfMemory) => Err(Outcome::Memory),
        },
        Err(error) => Err(outcome_of(alloc, &*plan, pieces, error)),
    }
}
