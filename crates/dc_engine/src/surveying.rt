//! What a run looks at before it changes anything: the files that options name, the sources, the target, and the listing.
#![tactic(auto)]

ghost use Rattle.std.specs.Prelude.{◌≡◌, ◌+◌, ◌*◌, ◌≤◌, ◌↔◌, [], Ok, Err, IfOk, IfErr, IfSome, IsErrOf, IsTrue, true, false, map, length, None};
ghost use Rattle.std.specs.List.{list_all};
ghost use Rattle.std.specs.Option.{is_some};
ghost use Rattle.dc_path.specs.Causes.{Rose};
ghost use Rattle.dc_path.specs.Order.{is_ascending};
ghost use Rattle.dc_attrs.specs.Trees.{IsTree, seen};
ghost use Rattle.dc_fs.specs.Views.{view, OnlyLooks, BothTell, BothTrees};
ghost use Rattle.dc_kills.specs.Plans.{IsInOrder};
ghost use Rattle.dc_listing.specs.Entries.{rel_of, fits_under};
ghost use Rattle.dc_listing.specs.Errors.{is_fault, is_of_list, Passes, IsChanged};
ghost use Rattle.dc_listing.specs.Errors as listing;
ghost use Rattle.dc_listing.specs.Listed.{rules_of};
ghost use Rattle.dc_listing.specs.Listing.{AllStand, IsListing};
ghost use Rattle.dc_listing.specs.Walks.{max_items};
ghost use Rattle.dc_engine.specs.Inputs.{most_sources, KillsAre};
ghost use Rattle.dc_engine.specs.Outcomes.{is_decided, is_changed, is_source_fault, is_target_fault, is_big_pattern, is_unbuilt, is_of_survey, IfTooLong};
ghost use Rattle.dc_engine.specs.Refusals.{Answers};
ghost use Rattle.dc_engine.specs.Surveys.{outcome_of_input, outcome_of_target, outcome_of_list, asks_report, placed_in, SurveyAnswers};
ghost use Rattle.dc_engine.specs.Targets.{base_of};

use crate::inputs::{InputError, Inputs, read_inputs};
use crate::targets::{TargetError, find_base, look};
use crate::{Outcome, Phase, TooManyOf};
use dc_attrs::Seen;
use dc_filter::{Filter, Patterns};
use dc_fs::{Source, Store, Target};
use dc_kills::KillPlan;
use dc_listing::{Item, ListError, Root, list, roots};
use dc_options::{Options, SyncBy};
use dc_path::{List, Path};
use std::alloc::Global;

/// What a survey finds.
#[derive(Drop)]
pub struct Surveyed {
    /// The path under which all is put: the target, or with `-atomic` the work path.
    pub base: Path,
    /// What is listed, in path order.
    pub items: List<Item>,
    /// Which attempts are stopped.
    pub kills: KillPlan,
}

// Where the sources stand and are put, and under which path.
#[derive(Drop)]
struct Placed {
    roots: List<Root>,
    base: Path,
}

impl From<InputError> for Outcome {
    ghost use Rattle.std.specs.Prelude.{◌≡◌};
    ghost use Rattle.dc_engine.specs.Surveys.{outcome_of_input};

    ghost from_gives = { λ error e. e ≡ outcome_of_input error };

    fn from(error: InputError) -> Outcome {
        match error {
            InputError::NoFile { path } => Outcome::NoFile { path },
            InputError::TooBig { path } => Outcome::TooBig { path },
            InputError::BadList { line } => Outcome::BadList { line },
            InputError::BadPattern { line } => Outcome::BadPattern { line },
            InputError::BigPattern { line } => Outcome::BigPattern { line },
            InputError::BadPlan { line } => Outcome::BadPlan { line },
            InputError::Changed { path } => Outcome::Changed { path },
            InputError::Fault => Outcome::SourceFault,
            InputError::Memory => Outcome::Memory,
        }
    }
}

impl From<TargetError> for Outcome {
    ghost use Rattle.std.specs.Prelude.{◌≡◌};
    ghost use Rattle.dc_engine.specs.Surveys.{outcome_of_target};

    ghost from_gives = { λ error e. e ≡ outcome_of_target error };

    fn from(error: TargetError) -> Outcome {
        match error {
            TargetError::Bad { kind } => Outcome::BadTarget { kind },
            TargetError::TooLong { parent, name } => Outcome::TooLong { parent, name },
            TargetError::WorkExists { path } => Outcome::WorkExists { path },
            TargetError::SourceFault => Outcome::SourceFault,
            TargetError::TargetFault => Outcome::TargetFault {
                phase: Phase::Check,
                done: 0,
            },
            TargetError::Memory => Outcome::Memory,
        }
    }
}

impl From<ListError> for Outcome {
    ghost use Rattle.std.specs.Prelude.{◌≡◌};
    ghost use Rattle.dc_engine.specs.Surveys.{outcome_of_list};

    ghost from_gives = { λ error e. e ≡ outcome_of_list error };

    fn from(error: ListError) -> Outcome {
        match error {
            ListError::NoSource { path } => Outcome::NoSource { path },
            ListError::Duplicate { rel, first, second } => Outcome::Duplicate {
                rel,
                first,
                second,
            },
            ListError::TooMany => Outcome::TooMany {
                what: TooManyOf::Items,
            },
            ListError::TooLong { parent, name } => Outcome::TooLong { parent, name },
            ListError::Changed { path } => Outcome::Changed { path },
            ListError::Fault => Outcome::SourceFault,
            ListError::Memory => Outcome::Memory,
        }
    }
}

// Where the sources stand and are put, and under which path all is put.
fn place_sources<S: Store, T: Store>(
    alloc: Global,
    options: &Options,
    source: &mut S,
    target: &mut T,
    sources: &List<Path>,
) -> Result<Placed, Outcome>
    ensures source { OnlyLooks (view S.Store source.old) (view S.Store source.new) result is_source_fault }
    ensures target { OnlyLooks (view T.Store target.old) (view T.Store target.new) result is_target_fault }
    ensures looks { S.looks source.new ≤ S.looks source.old + length sources.now + 1 }
    ensures target_looks { T.looks target.new ≤ T.looks target.old + 3 }
    ensures base { IfOk result (λ p. p.base ≡ base_of options.now) }
    ensures count { IfOk result (λ p. length p.roots ≡ length sources.now) }
    ensures placed { BothTell (S.tree source.old) (T.tree target.old) (λ s t. Answers is_decided result (placed_in options.now s t sources.now)) }
    ensures stand { IfOk result (λ p. BothTell (S.tree source.old) (T.tree target.old) (λ s t. AllStand s p.roots)) }
    ensures too_long { IfErr result (λ e. IfTooLong e Passes) }
    ensures kind { IfErr result (λ e. is_of_survey e ≡ true) }
    ensures phase { IfErr result (λ e. is_target_fault e ≡ true → e ≡ Outcome.TargetFault Phase.Check 0) }
    ensures unchanged { IfErr result (λ e. is_changed e ≡ false) }
    ensures small { IfErr result (λ e. is_big_pattern e ≡ false) }
    ensures built { IfErr result (λ e. is_unbuilt e ≡ false) }
{
    let shown = look(target, options.target())?;
    let roots = roots(alloc, source, options, sources, shown)?;
    let base = find_base(alloc, options, source, target, shown, roots.as_slice())?;
    Ok(Placed { roots, base })
}

// What is listed of the sources, without what the filter excludes.
fn list_placed<S: Store>(
    alloc: Global,
    source: &mut S,
    filter: &Filter,
    placed: &Placed,
) -> Result<List<Item>, ListError>
    ensures source { OnlyLooks (view S.Store source.old) (view S.Store source.new) result is_fault }
    ensures looks { IfOk result (λ items. S.looks source.new ≤ S.looks source.old + 2 * length items + 2 * length placed.now.roots) }
    ensures ascending { IfOk result (λ items. IsTrue (is_ascending (map rel_of items))) }
    ensures few { IfOk result (λ items. length items ≤ max_items) }
    ensures within { IfOk result (λ items. IsTrue (list_all (fits_under placed.now.base) items)) }
    ensures lists { IfSome (S.tree source.old) (λ s. IsTree s → IsListing (rules_of filter.now []) s placed.now.roots placed.now.base result) }
    ensures too_long { IfErr result (λ e. listing.IfTooLong e Passes) }
    ensures changed { IfErr result (λ e. IsChanged e → IfSome (S.tree source.old) (λ s. IsTree s → AllStand s placed.now.roots → ⊥)) }
    ensures kind { IfErr result (λ e. IsTrue (is_of_list e)) }
{
    let mut searches = filter.searches(alloc)?;
    list(alloc, source, &placed.roots, &mut searches, &placed.base)
}

// Whether a report is asked for.
fn asks_report(by: &SyncBy) -> bool
    ensures { result ≡ asks_report by.now }
{
    match by {
        SyncBy::None => false,
        SyncBy::Diff { .. } | SyncBy::Rdiff { .. } => true,
    }
}

/// Reads the files that options name, tests the sources and the target, and lists what is to be copied. It changes nothing.
///
/// Sources, patterns and kill plans are files of the source store. All is listed by its place under the target, or with
/// `-atomic` under the work path: `.distcp.work` in the folder of `-tmp`, or else beside the target.
///
/// # Errors
///
/// The first of these decides, in this order:
///
/// - `Unbuilt`, exactly where a report is asked for;
/// - of the files of `-f`, `-filters` and `-kills`, in this order: `NoFile`, `TooBig`, and then `BadList`, `BadPattern` or
///   `BadPlan`, each exactly where the file is so. `BigPattern` comes only where the count of refused patterns rose;
/// - `NoSource`, exactly where a source does not exist: the first such;
/// - `BadTarget`, exactly where a test of the target fails: the first in the order of its kinds;
/// - `TooLong`, exactly where the work path passes the limits, in the place of the test whether it and the target overlap;
/// - `WorkExists`, exactly where the work path stands;
/// - `TooMany`, `TooLong` and `Duplicate`, exactly where `dc_listing::list` has them.
///
/// `SourceFault` and `TargetFault` come only where the count of faults of that store rose, `Changed` only where a store denied
/// what it showed, and `Memory` may come in the place of any answer but `Unbuilt`.
pub fn survey<S: Source, T: Target, P: Patterns>(
    alloc: Global,
    options: &Options,
    source: &mut S,
    target: &mut T,
    pats: &mut P,
) -> Result<Surveyed, Outcome>
    ensures source { OnlyLooks (view S.Store source.old) (view S.Store source.new) result is_source_fault }
    ensures target { OnlyLooks (view T.Store target.old) (view T.Store target.new) result is_target_fault }
    ensures patterns { P.refused pats.old ≤ P.refused pats.new }
    ensures big { IfErr result (λ e. is_big_pattern e ≡ true → Rose (P.refused pats.old) (P.refused pats.new)) }
    ensures filtered { IfErr result (λ e. is_big_pattern e ≡ true → is_some options.now.filters ≡ true) }
    ensures kind { IfErr result (λ e. is_of_survey e ≡ true) }
    ensures phase { IfErr result (λ e. is_target_fault e ≡ true → e ≡ Outcome.TargetFault Phase.Check 0) }
    ensures unbuilt { asks_report options.now.sync ≡ true → result ≡ Err Outcome.Unbuilt }
    ensures built { IfErr result (λ e. is_unbuilt e ≡ true → asks_report options.now.sync ≡ true) }
    ensures answers { BothTrees (S.tree source.old) (T.tree target.old) (λ s t. SurveyAnswers options.now s t result) }
    ensures changed { IfErr result (λ e. is_changed e ≡ true → BothTrees (S.tree source.old) (T.tree target.old) (λ s t. ⊥)) }
    ensures too_long { IfErr result (λ e. IfTooLong e Passes) }
    ensures ascending { IfOk result (λ found. IsTrue (is_ascending (map rel_of found.items))) }
    ensures few { IfOk result (λ found. length found.items ≤ max_items) }
    ensures base { IfOk result (λ found. found.base ≡ base_of options.now) }
    ensures within { IfOk result (λ found. IsTrue (list_all (fits_under found.base) found.items)) }
    ensures kills { IfOk result (λ found. IfSome (S.tree source.old) (λ s. KillsAre options.now.kills s found.kills)) }
    ensures stops { IfOk result (λ found. length found.kills ≤ 65536) }
    ensures ordered { IfOk result (λ found. IsInOrder found.kills) }
    ensures looks { IfOk result (λ found. S.looks source.new ≤ S.looks source.old + 7 + 3 * most_sources options.now + 2 * length found.items) }
    ensures target_looks { T.looks target.new ≤ T.looks target.old + 3 }
{
    if asks_report(options.sync()) {
        return Err(Outcome::Unbuilt);
    }
    let Inputs {
        sources,
        filter,
        kills,
    } = read_inputs(alloc, options, source, pats)?;
    let placed = place_sources(alloc, options, source, target, &sources)?;
    let items = list_placed(alloc, source, &filter, &placed)?;
    let Placed {
        roots: _roots,
        base,
    } = placed;
    Ok(Surveyed { base, items, kills })
}
