//! What comes behind the settling of a run: the copy, its commit and the answer (Hadoop DistCp, `DistCp.execute`).
#![tactic(auto)]

ghost use Rattle.std.specs.Prelude.{◌≡◌, ◌⊎◌, ◌+◌, ◌≤◌, true, false, length, count_by, All, IfOk, IfErr, OnOk};
ghost use Rattle.std.specs.List.{list_all, sum_by};
ghost use Rattle.dc_fs.specs.Causes.{Rose, raised, steady_at};
ghost use Rattle.dc_fs.specs.Views.{view, BothTrees};
ghost use Rattle.dc_kills.specs.Plans.{IsInOrder};
ghost use Rattle.dc_listing.specs.Entries.{Entry};
ghost use Rattle.dc_plan.specs.Planning.{IsAsked};
ghost use Rattle.dc_pieces.specs.Cutting.{plan_pieces};
ghost use Rattle.dc_commit.specs.Landing.{is_ready, parts_of};
ghost use Rattle.dc_crew.specs.Advances.{is_reached_entry};
ghost use Rattle.dc_crew.specs.Slots.{TakesForksBack, StandStill};
ghost use Rattle.dc_ready.specs.Laws.{IsKept};
ghost use Rattle.dc_engine.specs.Committing.{HasCommitted, task_of};
ghost use Rattle.dc_engine.specs.Counting.{paths_out};
ghost use Rattle.dc_engine.specs.Copying.{IfCopyFailed, IsToWrite};
ghost use Rattle.dc_engine.specs.Finishing.{ended_without, IsRunOf, EndsCommit, LeavesDone, ShowsEnd, outcome_in, is_of_finish, HasCreated, Gains, IsSure, HasEnded};
ghost use Rattle.dc_engine.specs.Outcomes.{is_target_fault};
ghost use Rattle.dc_engine.specs.Running.{IsPrepared, Ends, commits};

use crate::committing::commit;
use crate::copying::copy;
use crate::counting::{count, left_out};
use crate::sweeping::give_up;
use crate::{Counts, Outcome, Run, Settled};
use dc_commit::Ready;
use dc_decide::Plan;
use dc_fs::{Desk, Source, Target};
use dc_kills::KillPlan;
use dc_options::Options;
use dc_path::{List, Path};
use dc_pieces::Pieces;
use std::alloc::Global;
use std::thread::Threads;

// How a run ends in which all steps are done, without the items at these paths.
fn ending(paths: List<Path>) -> Outcome
    ensures { result ≡ ended_without paths }
{
    if paths.is_empty() {
        return Outcome::Committed;
    }
    Outcome::CommittedWithout { paths }
}

// The answer of a run whose copy is committed by this plan, without the items at these paths.
fn committed(plan: &Plan, paths: List<Path>) -> Run
    requires { paths ≡ paths_out plan.now.items }
    ensures { IsRunOf plan.now result }
{
    Run {
        counts: count(plan),
        outcome: ending(paths),
        moves: 0,
    }
}

/// The answer of a run that does not commit.
pub(crate) fn uncommitted(outcome: Outcome) -> Run
    ensures outcome { result.outcome ≡ outcome }
    ensures counts { result.counts ≡ Counts.NONE }
    ensures moves { result.moves ≡ 0 }
{
    Run {
        outcome,
        counts: Counts::NONE,
        moves: 0,
    }
}

// Commits what is ready. The paths that are left out are copied first, so that want of memory for them leaves nothing half done.
fn commit_copied<T: Target>(
    alloc: Global,
    options: &Options,
    target: &mut T,
    plan: &Plan,
    files: List<Ready<<T::Desk as Desk>::Temp>>,
    deletes: &List<Path>,
) -> Result<Run, Outcome>
    requires ready { list_all (is_ready plan.now) files ≡ true }
    requires counted { sum_by parts_of files ≤ (T.rest target.old).scratch }
    ensures answer { IfOk result (IsRunOf plan.now) }
    ensures done { OnOk result (HasCommitted (task_of T.Desk.Temp.content T.Desk.Temp.size options.now options.now.target plan.now files deletes.now) (view T.Store target.old) (view T.Store target.new)) }
    ensures due { OnOk result (LeavesDone (task_of T.Desk.Temp.content T.Desk.Temp.size options.now options.now.target plan.now files deletes.now) (view T.Store target.old) (view T.Store target.new)) }
    ensures ends { IfErr result (EndsCommit (task_of T.Desk.Temp.content T.Desk.Temp.size options.now options.now.target plan.now files deletes.now) (view T.Store target.old) (view T.Store target.new)) }
    ensures later { T.faults target.old ≤ T.faults target.new }
    ensures calm { steady_at (T.steady target.new) (T.faults target.new) ≡ steady_at (T.steady target.old) (T.faults target.old) }
{
    let paths = left_out(alloc, plan)?;
    commit(
        alloc,
        target,
        options,
        options.target(),
        plan,
        files,
        deletes,
    )?;
    Ok(committed(plan, paths))
}

// Reads each item of a plan, which tells what the type of items keeps.
fn read_items(plan: &Plan)
    ensures { All IsKept plan.now.items }
{
    let items = plan.items();
    for planned in items {
        let _action = planned.action();
        let _attrs = planned.item().attrs();
    }
}

// Copies the files of a plan, and commits what is ready.
fn carry_out<S: Source, T: Target, R: Threads + Sync>(
    rt: &R,
    alloc: Global,
    options: &Options,
    source: &mut S,
    target: &mut T,
    plan: &mut Plan,
    pieces: &Pieces,
    deletes: &List<Path>,
    kills: &KillPlan,
) -> Result<Run, Outcome>
    requires pieces { pieces.now ≡ plan_pieces options.now.blocks plan.old }
    requires asked { All (IsAsked options.now) plan.old.items }
    requires few { length kills.now ≤ 65536 }
    requires ordered { IsInOrder kills.now }
    ensures source { TakesForksBack 0 (view S.Store source.old) (view S.Store source.new) }
    ensures later { T.faults target.old ≤ T.faults target.new }
    ensures calm { steady_at (T.steady target.new) (T.faults target.new) ≡ steady_at (T.steady target.old) (T.faults target.old) }
    ensures desks { (T.rest target.new).desks_out ≡ (T.rest target.old).desks_out }
    ensures moves { IfOk result (λ run. run.moves ≡ 0) }
    ensures commits { IfOk result (λ run. commits run.outcome ≡ true) }
    ensures uncommitted { IfErr result (λ e. commits e ≡ false) }
    ensures kind { is_of_finish (outcome_in result) ≡ true }
    ensures shows { ShowsEnd options.now (outcome_in result) (view S.Store source.old) (view S.Store source.new) (view T.Store target.old) (view T.Store target.new) }
    ensures created { OnOk result (
        StandStill (S.rest source.old) (S.rest source.new) (T.rest target.old) (T.rest target.new) →
        HasCreated (T.rest target.old) (T.rest target.new)
        (length pieces.now + count_by (is_reached_entry kills.now pieces.now options.now.buffer) kills.now)) }
    ensures gained { IfOk result (λ run. Gains run.counts (T.rest target.old).landed (T.rest target.new).landed) }
    ensures named { IfErr result (λ e. IfCopyFailed e (IsToWrite plan.old)) }
    ensures told { BothTrees (S.tree source.old) (T.tree target.old) (λ s t. (entries : List Entry) → IsPrepared options.now s t entries plan.old deletes.now
        → Ends options.now s t result (view S.Store source.old) (view S.Store source.new) (view T.Store target.old) (view T.Store target.new)) }
    ensures sure { BothTrees (S.tree source.old) (T.tree target.old) (λ s t. (entries : List Entry) → IsPrepared options.now s t entries plan.old deletes.now → IsSure (outcome_in result)) }
{
    read_items(&*plan);
    let files = copy(rt, alloc, options, source, target, plan, pieces, kills)?;
    commit_copied(alloc, options, target, &*plan, files, deletes)
}

/// Carries out what is settled: copies the files in waves of workers, commits what is ready, and answers with the counters.
///
/// Nothing is changed at the target before all files that are copied are ready as temporaries. Where the run does not commit, what
/// is left of temporaries is removed, whatever comes of that; the target keeps what the phases of the commit did until then.
///
/// # Outcomes
///
/// - `Committed`, or with `-i` `CommittedWithout` the paths that the plan leaves out and those of files that could not be read;
/// - `TargetFault` in `Copy`, `CopyFailed`, `Differs` and `Changed` where not all files are ready: nothing has changed then;
/// - `TargetFault` in a phase of the commit, after so many of its elements, only where the target's count of faults rose;
/// - `Uncertain`, only with `-atomic`, where it is not known whether the last move was made;
/// - `Memory`, which may come in the place of any answer.
pub fn finish<S: Source, T: Target, R: Threads + Sync>(
    rt: &R,
    alloc: Global,
    options: &Options,
    source: &mut S,
    target: &mut T,
    settled: Settled,
    kills: &KillPlan,
) -> Run
    requires pieces { settled.pieces ≡ plan_pieces options.now.blocks settled.plan }
    requires asked { All (IsAsked options.now) settled.plan.items }
    requires few { length kills.now ≤ 65536 }
    requires ordered { IsInOrder kills.now }

    // What every store keeps and shows.
    ensures source { TakesForksBack 0 (view S.Store source.old) (view S.Store source.new) }
    ensures later { T.faults target.old ≤ T.faults target.new }
    ensures calm { steady_at (T.steady target.new) (T.faults target.new) ≡ steady_at (T.steady target.old) (T.faults target.old) }
    ensures desks { (T.rest target.new).desks_out ≡ (T.rest target.old).desks_out }
    ensures cleared { ((T.rest target.new).scratch ≡ 0) ⊎ Rose (T.faults target.old) (T.faults target.new) }
    ensures emptied { is_target_fault result.outcome ≡ true → ((T.rest target.new).scratch ≡ 0) ⊎ Rose (raised (T.faults target.old)) (T.faults target.new) }
    ensures shows { ShowsEnd options.now result.outcome (view S.Store source.old) (view S.Store source.new) (view T.Store target.old) (view T.Store target.new) }
    ensures created { commits result.outcome ≡ true →
        StandStill (S.rest source.old) (S.rest source.new) (T.rest target.old) (T.rest target.new) →
        HasCreated (T.rest target.old) (T.rest target.new)
        (length settled.pieces + count_by (is_reached_entry kills.now settled.pieces options.now.buffer) kills.now) }
    ensures gained { commits result.outcome ≡ true → Gains result.counts (T.rest target.old).landed (T.rest target.new).landed }

    // What is answered.
    ensures kind { is_of_finish result.outcome ≡ true }
    ensures named { IfCopyFailed result.outcome (IsToWrite settled.plan) }
    ensures moves { result.moves ≡ 0 }
    ensures uncounted { commits result.outcome ≡ false → result.counts ≡ Counts.NONE }

    // What is left of trees that are told.
    ensures told { BothTrees (S.tree source.old) (T.tree target.old) (λ s t. (entries : List Entry) → IsPrepared options.now s t entries settled.plan settled.deletes
        → HasEnded options.now s t result (view S.Store source.old) (view S.Store source.new) (view T.Store target.old) (view T.Store target.new)) }
{
    let Settled {
        mut plan,
        deletes,
        pieces,
    } = settled;
    match carry_out(
        rt, alloc, options, source, target, &mut plan, &pieces, &deletes, kills,
    ) {
        Ok(run) => run,
        Err(outcome) => uncommitted(give_up(target, outcome)),
    }
}
