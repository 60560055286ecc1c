//! What is decided of what is listed before anything is copied: what becomes of each item, what of the target goes, and how
//! files are cut.
#![tactic(auto)]

ghost use Rattle.std.specs.Prelude.{◌≡◌, ◌⊎◌, ◌+◌, ◌*◌, ◌≤◌, Ok, Err, IfOk, IfErr, OnErr, IsTrue, true, map, length};
ghost use Rattle.std.specs.List.{list_all};
ghost use Rattle.dc_path.specs.Causes.{Rose};
ghost use Rattle.dc_path.specs.Order.{is_ascending};
ghost use Rattle.dc_fs.specs.Views.{view, OnlyLooks};
ghost use Rattle.dc_listing.specs.Entries.{rel_of, fits_under};
ghost use Rattle.dc_listing.specs.Errors.{Passes};
ghost use Rattle.dc_listing.specs.Walks.{max_items};
ghost use Rattle.dc_pieces.specs.Cutting.{plan_pieces};
ghost use Rattle.dc_pieces.specs.Pieces.{most_pieces};
ghost use Rattle.dc_missing.specs.Errors.{is_fault};
ghost use Rattle.dc_missing.specs.Errors as missing;
ghost use Rattle.dc_engine.specs.Outcomes.{is_changed, is_source_fault, is_target_fault, IfTooLong};
ghost use Rattle.dc_engine.specs.Settling.{is_of_settle, IsPlanned, AreDeletes, HasWalked, WalkEnds, walk_looks, EndsFirst, MayDeny, IsCarriedOn, IsHeldUp, IsSettled, IsUnsettled};
ghost use Rattle.dc_engine.specs.Sweeping.{LooksOrSweeps};

use crate::sweeping::give_up;
use crate::{Outcome, Phase, TooManyOf};
use dc_decide::Plan;
use dc_fs::{Source, Target};
use dc_listing::Item;
use dc_missing::{DeleteError, delete_list};
use dc_options::Options;
use dc_path::{List, Path};
use dc_pieces::{PieceError, Pieces, pieces};
use dc_plan::{PlanError, plan_items};
use std::alloc::Global;

/// What is settled before anything is copied.
#[derive(Drop)]
pub struct Settled {
    /// What becomes of each item, under the path to which all is put.
    pub plan: Plan,
    /// What of the target goes, in path order and none under another: nothing without `-delete`.
    pub deletes: List<Path>,
    /// The ranges of the files that are copied.
    pub pieces: Pieces,
}

impl From<PlanError> for Outcome {
    ghost use Rattle.std.specs.Prelude.{◌≡◌};
    ghost use Rattle.dc_engine.specs.Settling.{outcome_of_plan};

    ghost from_gives = { λ error e. e ≡ outcome_of_plan error };

    fn from(error: PlanError) -> Outcome {
        match error {
            PlanError::Clash { rel } => Outcome::Clash { path: rel },
            PlanError::SourceFault => Outcome::SourceFault,
            PlanError::TargetFault => Outcome::TargetFault {
                phase: Phase::Decide,
                done: 0,
            },
            PlanError::Changed { path } => Outcome::Changed { path },
            PlanError::Memory => Outcome::Memory,
        }
    }
}

impl From<DeleteError> for Outcome {
    ghost use Rattle.std.specs.Prelude.{◌≡◌};
    ghost use Rattle.dc_engine.specs.Settling.{outcome_of_delete};

    ghost from_gives = { λ error e. e ≡ outcome_of_delete error };

    fn from(error: DeleteError) -> Outcome {
        match error {
            DeleteError::TooMany => Outcome::TooMany {
                what: TooManyOf::Missing,
            },
            DeleteError::TooLong { parent, name } => Outcome::TooLong { parent, name },
            DeleteError::Changed { path } => Outcome::Changed { path },
            DeleteError::Fault => Outcome::TargetFault {
                phase: Phase::Decide,
                done: 0,
            },
            DeleteError::Memory => Outcome::Memory,
        }
    }
}

impl From<PieceError> for Outcome {
    ghost use Rattle.std.specs.Prelude.{◌≡◌};
    ghost use Rattle.dc_engine.specs.Settling.{outcome_of_piece};

    ghost from_gives = { λ error e. e ≡ outcome_of_piece error };

    fn from(error: PieceError) -> Outcome {
        match error {
            PieceError::TooMany => Outcome::TooMany {
                what: TooManyOf::Pieces,
            },
            PieceError::Memory => Outcome::Memory,
        }
    }
}

// What of the target goes: with `-delete` what the source lacks, and else nothing.
fn find_deletes<T: Target>(
    alloc: Global,
    options: &Options,
    target: &mut T,
    plan: &Plan,
) -> Result<List<Path>, DeleteError>
    ensures target { OnlyLooks (view T.Store target.old) (view T.Store target.new) result is_fault }
    ensures looks { T.looks target.new ≤ T.looks target.old + walk_looks options.now }
    ensures deletes { IfOk result (AreDeletes options.now (T.tree target.old) plan.now) }
    ensures walks { WalkEnds options.now (T.tree target.old) plan.now.base result }
    ensures too_long { IfErr result (λ e. missing.IfTooLong e Passes) }
{
    if !options.delete() {
        return Ok(List::new(alloc));
    }
    delete_list(alloc, target, plan)
}

// From a plan on: what goes, and the pieces.
fn carry_on<T: Target>(
    alloc: Global,
    options: &Options,
    target: &mut T,
    plan: Plan,
) -> Result<Settled, Outcome>
    ensures target { OnlyLooks (view T.Store target.old) (view T.Store target.new) result is_target_fault }
    ensures looks { T.looks target.new ≤ T.looks target.old + walk_looks options.now }
    ensures ok { IfOk result (IsCarriedOn options.now (T.tree target.old) plan) }
    ensures err { IfErr result (IsHeldUp options.now (T.tree target.old) plan) }
{
    let deletes = find_deletes(alloc, options, target, &plan)?;
    let pieces = pieces(alloc, &plan, options.blocks())?;
    Ok(Settled {
        plan,
        deletes,
        pieces,
    })
}

// The plan of the items, what goes, and the pieces.
fn settle_items<S: Source, T: Target>(
    alloc: Global,
    options: &Options,
    source: &mut S,
    target: &mut T,
    base: Path,
    items: List<Item>,
) -> Result<Settled, Outcome>
    requires ascending { IsTrue (is_ascending (map rel_of items)) }
    requires few { length items ≤ max_items }
    requires within { IsTrue (list_all (fits_under base) items) }
    ensures source { OnlyLooks (view S.Store source.old) (view S.Store source.new) result is_source_fault }
    ensures target { OnlyLooks (view T.Store target.old) (view T.Store target.new) result is_target_fault }
    ensures source_looks { S.looks source.new ≤ S.looks source.old + length items }
    ensures target_looks { T.looks target.new ≤ T.looks target.old + 3 * length items + walk_looks options.now }
    ensures ok { IfOk result (IsSettled options.now base items (S.tree source.old) (T.tree target.old)) }
    ensures err { IfErr result (IsUnsettled options.now base items (S.tree source.old) (T.tree target.old)) }
{
    let plan = plan_items(alloc, options, source, target, base, items)?;
    carry_on(alloc, options, target, plan)
}

/// Decides what becomes of each item of a listing under a base, with `-delete` what of the target goes, and how files are cut.
///
/// It changes no tree. After a refusal what is left of temporaries is removed from the target, whatever comes of that.
///
/// # Errors
///
/// The first of these decides, in this order:
///
/// - `Clash`, exactly where an item clashes with what the target has at its place and `-i` is not given: the first in path order;
/// - `TooLong` and `TooMany` of `Missing`, exactly where `-delete` is given and `dc_missing::delete_list` has them;
/// - `TooMany` of `Pieces`, exactly where the plan has more than `dc_pieces::MAX_PIECES`.
///
/// `SourceFault` and `TargetFault`, in `Decide` after 0, come only where the count of faults of that store rose. `Changed` comes
/// only where a store denied what it showed, and `Memory` may come in the place of any answer.
pub fn settle<S: Source, T: Target>(
    alloc: Global,
    options: &Options,
    source: &mut S,
    target: &mut T,
    base: Path,
    items: List<Item>,
) -> Result<Settled, Outcome>
    requires ascending { IsTrue (is_ascending (map rel_of items)) }
    requires few { length items ≤ max_items }
    requires within { IsTrue (list_all (fits_under base) items) }

    // What the stores are left as, and how often they are looked at.
    ensures source { OnlyLooks (view S.Store source.old) (view S.Store source.new) result is_source_fault }
    ensures target { LooksOrSweeps (view T.Store target.old) (view T.Store target.new) result is_target_fault }
    ensures cleared { OnErr result (((T.rest target.new).scratch ≡ 0) ⊎ Rose (T.faults target.old) (T.faults target.new)) }
    ensures source_looks { S.looks source.new ≤ S.looks source.old + length items }
    ensures target_looks { T.looks target.new ≤ T.looks target.old + 3 * length items + walk_looks options.now + 1 }

    // What is settled.
    ensures plan { IfOk result (λ settled. IsPlanned options.now base items (S.tree source.old) (T.tree target.old) settled.plan) }
    ensures deletes { IfOk result (λ settled. AreDeletes options.now (T.tree target.old) settled.plan settled.deletes) }
    ensures walked { IfOk result (λ settled. HasWalked options.now (T.tree target.old) settled.plan.base) }
    ensures pieces { IfOk result (λ settled. settled.pieces ≡ plan_pieces options.now.blocks settled.plan) }
    ensures few { IfOk result (λ settled. length settled.pieces ≤ most_pieces) }

    // When each refusal comes.
    ensures kind { IfErr result (λ e. is_of_settle e ≡ true) }
    ensures phase { IfErr result (λ e. is_target_fault e ≡ true → e ≡ Outcome.TargetFault Phase.Decide 0) }
    ensures refused { IfErr result (EndsFirst options.now base items (S.tree source.old) (T.tree target.old)) }
    ensures changed { IfErr result (λ e. is_changed e ≡ true → MayDeny items (S.tree source.old) (T.tree target.old)) }
    ensures too_long { IfErr result (λ e. IfTooLong e Passes) }
{
    match settle_items(alloc, options, source, target, base, items) {
        Ok(settled) => Ok(settled),
        Err(outcome) => Err(give_up(target, outcome)),
    }
}
