//! A run from its first look to its answer (Hadoop DistCp, `DistCp.execute`).
#![tactic(auto)]

ghost use Rattle.std.specs.Prelude.{◌≡◌, ◌⊎◌, ◌≤◌, Err, true, false, IfOk, IfErr, OnOk};
ghost use Rattle.std.specs.Option.{is_some};
ghost use Rattle.dc_fs.specs.Causes.{Rose, raised, steady_at};
ghost use Rattle.dc_fs.specs.Rest.{SweepStops};
ghost use Rattle.dc_fs.specs.Views.{view, BothTrees};
ghost use Rattle.dc_listing.specs.Errors.{Passes};
ghost use Rattle.dc_crew.specs.Slots.{StandStill};
ghost use Rattle.dc_engine.specs.Copying.{IfCopyFailed};
ghost use Rattle.dc_engine.specs.Finishing.{Gains, HasEnded, ShowsEnd, is_of_finish};
ghost use Rattle.dc_engine.specs.Outcomes.{IfTooLong, is_big_pattern, is_decided, is_of_survey, is_source_fault, is_target_fault, is_unbuilt};
ghost use Rattle.dc_engine.specs.Preparing.{AreWaves, IsHeldBack, IsPreparedFor, KeepsSource, is_of_run};
ghost use Rattle.dc_engine.specs.Running.{IsRefused, IsToCopy, commits};
ghost use Rattle.dc_engine.specs.Settling.{is_of_settle};
ghost use Rattle.dc_engine.specs.Surveys.{asks_report};

use crate::finishing::uncommitted;
use crate::{Counts, Outcome, Run, Settled, Surveyed, finish, settle, survey};
use dc_filter::Patterns;
use dc_fs::{Source, Target};
use dc_kills::KillPlan;
use dc_options::Options;
use std::alloc::Global;
use std::thread::Threads;

/// What is found and settled before anything is copied.
#[derive(Drop)]
pub(crate) struct Prepared {
    /// The plan, the paths that go, and the pieces.
    pub settled: Settled,
    /// Which attempts are stopped.
    pub kills: KillPlan,
}

// Surveys and settles. It changes no tree.
fn prepare<S: Source, T: Target, P: Patterns>(
    alloc: Global,
    options: &Options,
    source: &mut S,
    target: &mut T,
    pats: &mut P,
) -> Result<Prepared, Outcome>
    ensures source_same { OnOk result (view S.Store source.new ≡ view S.Store source.old) }
    ensures target_same { OnOk result (view T.Store target.new ≡ view T.Store target.old) }
    ensures prepared { IfOk result (IsPreparedFor options.now (S.tree source.old) (T.tree target.old)) }
    ensures held { IfErr result (λ e. IsHeldBack options.now e (view S.Store source.old) (view S.Store source.new) (view T.Store target.old) (view T.Store target.new)) }
    ensures patterns { P.refused pats.old ≤ P.refused pats.new }
    ensures big { IfErr result (λ e. is_big_pattern e ≡ true → Rose (P.refused pats.old) (P.refused pats.new)) }
    ensures filtered { IfErr result (λ e. is_big_pattern e ≡ true → is_some options.now.filters ≡ true) }
    ensures unbuilt { asks_report options.now.sync ≡ true → result ≡ Err Outcome.Unbuilt }
{
    let Surveyed { base, items, kills } = survey(alloc, options, source, target, pats)?;
    let settled = settle(alloc, options, source, target, base, items)?;
    Ok(Prepared { settled, kills })
}

/// Copies what the options ask for from the source to the target, and answers how that ended, with the counters.
///
/// # Outcomes
///
/// The first refusal in the order of a run decides: of the files that options name, of the sources, of the target, of the listing, of
/// a clash, of the walk for `-delete`, of the number of pieces. A run that meets no refusal, no fault and no want of memory commits.
/// `Memory` may come in the place of any answer.
pub fn run<S: Source, T: Target, P: Patterns, R: Threads + Sync>(
    rt: &R,
    alloc: Global,
    options: &Options,
    source: &mut S,
    target: &mut T,
    pats: &mut P,
) -> Run
    // What every store keeps and shows.
    ensures source { KeepsSource (view S.Store source.old) (view S.Store source.new) }
    ensures source_fault { is_source_fault result.outcome ≡ true → Rose (S.faults source.old) (S.faults source.new) }
    ensures source_still { commits result.outcome ≡ true → S.faults source.new ≡ S.faults source.old }
    ensures later { T.faults target.old ≤ T.faults target.new }
    ensures calm { steady_at (T.steady target.new) (T.faults target.new) ≡ steady_at (T.steady target.old) (T.faults target.old) }
    ensures desks { (T.rest target.new).desks_out ≡ (T.rest target.old).desks_out }
    ensures shows { ShowsEnd options.now result.outcome (view S.Store source.old) (view S.Store source.new) (view T.Store target.old) (view T.Store target.new) }
    ensures cleared { is_of_survey result.outcome ≡ false → ((T.rest target.new).scratch ≡ 0) ⊎ Rose (T.faults target.old) (T.faults target.new) }
    ensures emptied { is_of_finish result.outcome ≡ true → is_target_fault result.outcome ≡ true → ((T.rest target.new).scratch ≡ 0) ⊎ Rose (raised (T.faults target.old)) (T.faults target.new) }
    ensures left { commits result.outcome ≡ false → (T.rest target.new ≡ T.rest target.old) ⊎ (((T.rest target.new).scratch ≡ 0) ⊎ Rose (T.faults target.old) (T.faults target.new)) }
    ensures gained { commits result.outcome ≡ true → Gains result.counts (T.rest target.old).landed (T.rest target.new).landed }
    ensures patterns { P.refused pats.old ≤ P.refused pats.new }
    ensures big { is_big_pattern result.outcome ≡ true → Rose (P.refused pats.old) (P.refused pats.new) }
    ensures filtered { is_big_pattern result.outcome ≡ true → is_some options.now.filters ≡ true }

    // What is answered. What only the survey answers leaves the target as it was; what else comes before the copy leaves all but temporaries.
    ensures kind { is_of_run result.outcome ≡ true }
    ensures first { is_of_settle result.outcome ≡ false → is_of_finish result.outcome ≡ false → T.rest target.new ≡ T.rest target.old }
    ensures unchanged { is_of_finish result.outcome ≡ false → SweepStops (T.rest target.old) (T.rest target.new) }
    ensures unbuilt { asks_report options.now.sync ≡ true → result.outcome ≡ Outcome.Unbuilt }
    ensures built { is_unbuilt result.outcome ≡ true → asks_report options.now.sync ≡ true }
    ensures too_long { IfTooLong result.outcome Passes }
    ensures uncounted { commits result.outcome ≡ false → result.counts ≡ Counts.NONE }
    ensures moves { result.moves ≡ 0 }

    // What is refused, and what is left, of trees that are told.
    ensures refused { is_decided result.outcome ≡ true → commits result.outcome ≡ false → BothTrees (S.tree source.old) (T.tree target.old) (λ s t. IsRefused options.now s t result.outcome) }
    ensures told { BothTrees (S.tree source.old) (T.tree target.old) (λ s t. HasEnded options.now s t result (view S.Store source.old) (view S.Store source.new) (view T.Store target.old) (view T.Store target.new)) }
    ensures named { BothTrees (S.tree source.old) (T.tree target.old) (λ s t. IfCopyFailed result.outcome (IsToCopy options.now s t)) }
    ensures waves { commits result.outcome ≡ true →
        StandStill (S.rest source.old) (S.rest source.new) (T.rest target.old) (T.rest target.new) →
        BothTrees (S.tree source.old) (T.tree target.old) (λ s t. AreWaves options.now s t (T.rest target.old) (T.rest target.new)) }
{
    match prepare(alloc, options, source, target, pats) {
        Ok(Prepared { settled, kills }) => finish(
            rt, alloc, options, source, target, settled, &kills,
        ),
        Err(outcome) => uncommitted(outcome),
    }
}
