//! The plan of a copy: what becomes of each item, in path order.
#![tactic(auto)]

ghost use Rattle.std.specs.Prelude.{◌≡◌, ◌+◌, ◌*◌, ◌≤◌, ◌^◌, ◌<◌, ◌++◌, true, false, length, map, All, IfOk, IfErr, IfSome, IsTrue};
ghost use Rattle.std.specs.List.{list_all};
ghost use Rattle.dc_path.specs.Order.{is_ascending};
ghost use Rattle.dc_path.specs.Paths.{IsWithin};
ghost use Rattle.dc_fs.specs.Views.{view, OnlyLooks, BothTell};
ghost use Rattle.dc_listing.specs.Entries.{rel_of, fits_under};
ghost use Rattle.dc_decide.specs.Looking.{IsDenied};
ghost use Rattle.dc_decide.specs.Plans.{clashing};
ghost use Rattle.dc_plan.specs.Planning.{item_of, clashes_in, IsAsked, IsOutByClash, IsDecidedOn, is_source_fault, is_target_fault, IfClash, IfChanged, IsFirstClash, IsDeniedAmong};

use dc_decide::{DecideError, Plan, Planned, decide};
use dc_fs::{Source, Target};
use dc_listing::Item;
use dc_options::Options;
use dc_path::{List, OutOfMemory, Path};
use std::alloc::Global;

/// Why there is no plan.
#[derive(Drop)]
pub enum PlanError {
    /// The target has the other kind at the place of the item with this path, or a file on the way there.
    Clash { rel: Path },
    /// The source failed: its count of faults rose.
    SourceFault,
    /// The target failed: its count of faults rose.
    TargetFault,
    /// A store denied what it showed before: at an item's path in the source, or at its place in the target.
    Changed { path: Path },
    /// Memory ran out.
    Memory,
}

impl From<OutOfMemory> for PlanError {
    ghost use Rattle.std.specs.Prelude.{◌≡◌};
    ghost use Rattle.dc_plan.specs.declared.planning.PlanError.TheVariants.{Memory};

    ghost from_gives = { λ _ e. e ≡ Memory };

    fn from(_lack: OutOfMemory) -> PlanError {
        PlanError::Memory
    }
}

// What becomes of an item that clashes: the copy goes on without it, where that is asked for.
fn clashed(alloc: Global, ignore: bool, item: Item) -> Result<Planned, PlanError>
    ensures ok { IfOk result (λ d. (ignore ≡ true) × (d ≡ clashing item)) }
    ensures err { IfErr result (λ e. IfClash e (λ rel. (ignore ≡ false) × (rel ≡ item.rel))) }
    ensures source { IfErr result (λ e. is_source_fault e ≡ false) }
    ensures target { IfErr result (λ e. is_target_fault e ≡ false) }
    ensures changed { IfErr result (λ e. IfChanged e (λ _. ⊥)) }
{
    if ignore {
        return Ok(Planned::without(item));
    }
    let rel = item.rel().copy(alloc)?;
    Err(PlanError::Clash { rel })
}

// What a refusal to decide on an item comes to.
fn undecided(
    alloc: Global,
    ignore: bool,
    error: DecideError,
    item: Item,
) -> Result<Planned, PlanError>
    ensures ok { IfOk result (λ d. (ignore ≡ true) × (error ≡ DecideError.Clash) × (d ≡ clashing item)) }
    ensures err { IfErr result (λ e. IfClash e (λ rel. (ignore ≡ false) × (error ≡ DecideError.Clash) × (rel ≡ item.rel))) }
    ensures source { IfErr result (λ e. is_source_fault e ≡ true → error ≡ DecideError.SourceFault) }
    ensures target { IfErr result (λ e. is_target_fault e ≡ true → error ≡ DecideError.TargetFault) }
    ensures changed { IfErr result (λ e. IfChanged e (λ path. error ≡ DecideError.Changed path)) }
{
    match error {
        DecideError::Clash => clashed(alloc, ignore, item),
        DecideError::SourceFault => Err(PlanError::SourceFault),
        DecideError::TargetFault => Err(PlanError::TargetFault),
        DecideError::Changed { path } => Err(PlanError::Changed { path }),
        DecideError::Memory => Err(PlanError::Memory),
    }
}

// What becomes of an item under the base.
fn plan_item<S: Source, T: Target>(
    alloc: Global,
    options: &Options,
    source: &mut S,
    target: &mut T,
    base: &Path,
    item: Item,
) -> Result<Planned, PlanError>
    requires within { IsWithin (base.now ++ item.rel) }
    ensures source { OnlyLooks (view S.Store source.old) (view S.Store source.new) result is_source_fault }
    ensures target { OnlyLooks (view T.Store target.old) (view T.Store target.new) result is_target_fault }
    ensures source_looks { S.looks source.new ≤ S.looks source.old + 1 }
    ensures target_looks { T.looks target.new ≤ T.looks target.old + 3 }
    ensures item { IfOk result (λ d. d.item ≡ item) }
    ensures asked { IfOk result (IsAsked options.now) }
    ensures clash { IfOk result (λ d. IfSome (T.tree target.old) (λ t. IsOutByClash t base.now d)) }
    ensures decides { IfOk result (λ d. BothTell (S.tree source.old) (T.tree target.old) (λ s t. IsDecidedOn options.now base.now s t d)) }
    ensures clashes { IfErr result (λ e. IfClash e (λ rel. (options.now.ignore ≡ false) × (rel ≡ item.rel) × IfSome (T.tree target.old) (λ t. clashes_in t base.now item ≡ true))) }
    ensures changed { IfErr result (λ e. IfChanged e (IsDenied (S.tree source.old) (T.tree target.old) item (base.now ++ item.rel))) }
{
    let place = match base.join_within(alloc, item.rel()) {
        Ok(place) => place,
        Err(OutOfMemory) => return Err(PlanError::Memory),
    };
    match decide(alloc, options, source, target, &item, &place) {
        Ok(decided) => Ok(Planned::new(item, decided.action, decided.before)),
        Err(error) => undecided(alloc, options.ignore(), error, item),
    }
}

/// Decides what becomes of each item of a listing, under a base, in path order (Hadoop DistCp, `CopyMapper`).
///
/// With `-i` the copy goes on without the items that clash. It changes neither store.
///
/// # Errors
///
/// The first item that is refused decides.
///
/// - `TargetFault` and `SourceFault`, only where the count of faults of that store rose;
/// - `Clash`, exactly where an item clashes and `-i` is not given: the first one in path order;
/// - `Changed`, only where a store denied what it showed;
/// - `Memory`, which may come in the place of any answer.
pub fn plan_items<S: Source, T: Target>(
    alloc: Global,
    options: &Options,
    source: &mut S,
    target: &mut T,
    base: Path,
    items: List<Item>,
) -> Result<Plan, PlanError>
    requires ascending { is_ascending (map rel_of items) ≡ true }
    requires few { length items < 2 ^ 32 }
    requires within { list_all (fits_under base) items ≡ true }
    ensures source { OnlyLooks (view S.Store source.old) (view S.Store source.new) result is_source_fault }
    ensures target { OnlyLooks (view T.Store target.old) (view T.Store target.new) result is_target_fault }
    ensures source_looks { S.looks source.new ≤ S.looks source.old + length items }
    ensures target_looks { T.looks target.new ≤ T.looks target.old + 3 * length items }
    ensures base { IfOk result (λ plan. plan.base ≡ base) }
    ensures items { IfOk result (λ plan. map item_of plan.items ≡ items) }
    ensures asked { IfOk result (λ plan. All (IsAsked options.now) plan.items) }
    ensures out { IfOk result (λ plan. IfSome (T.tree target.old) (λ t. All (IsOutByClash t base) plan.items)) }
    ensures decides { IfOk result (λ plan. BothTell (S.tree source.old) (T.tree target.old) (λ s t. All (IsDecidedOn options.now base s t) plan.items)) }
    ensures allowed { IfErr result (λ e. IfClash e (λ _. options.now.ignore ≡ false)) }
    ensures clash { IfErr result (λ e. IfClash e (λ rel. IfSome (T.tree target.old) (λ t. IsFirstClash t base items rel))) }
    ensures changed { IfErr result (λ e. IfChanged e (IsDeniedAmong (S.tree source.old) (T.tree target.old) base items)) }
{
    let mut planned = List::new(alloc);
    for item in items {
        match plan_item(alloc, options, source, target, &base, item) {
            Ok(decision) => match planned.add(decision) {
                Ok(()) => {}
                Err(OutOfMemory) => return Err(PlanError::Memory),
            },
            Err(error) => return Err(error),
        }
    }
    Ok(Plan::new(base, planned))
}
