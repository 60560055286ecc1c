//! The copy decision.
#![tactic(auto)]

ghost use Rattle.std.specs.Prelude.{◌≡◌, ◌+◌, ◌≤◌, true, false, cond, None, IfOk, IfErr, IfSome, IsTrue};
ghost use Rattle.std.specs.Option.{is_some};
ghost use Rattle.dc_attrs.specs.Trees.{seen};
ghost use Rattle.dc_attrs.specs.declared.shown.Seen.TheVariants as seen_as;
ghost use Rattle.dc_fs.specs.Looks.{IsStatusOf, fits_kind};
ghost use Rattle.dc_fs.specs.Views.{view, OnlyLooks, BothTell};
ghost use Rattle.dc_decide.specs.Deciding.{DecidesAs, Obeys, clashes, decision_of};
ghost use Rattle.dc_decide.specs.Errors.{is_source_fault, is_target_fault, is_clash, ClashesIf, IfChanged};
ghost use Rattle.dc_decide.specs.Looking.{IsDenied, LooksFew, may_ask, asks, asks_of, action_on, is_missing, is_over};
ghost use Rattle.dc_decide.specs.Plans.{IsDecision, is_folder, extends_within};
ghost use Rattle.dc_decide.specs.declared.action.Action.TheVariants.{Folder, Replace};

use crate::errors::{changed, target_stopped};
use crate::files::choose;
use crate::{Action, DecideError};
use dc_attrs::{Attrs, Seen};
use dc_fs::{Source, Status, Target};
use dc_listing::Item;
use dc_options::Options;
use dc_path::Path;
use std::alloc::Global;

/// What becomes of an item at its place.
#[derive(Drop)]
pub struct Decided {
    /// What is done with it.
    pub action: Action,
    /// The attributes of what the target has there; none where nothing stands there.
    pub before: Option<Attrs>,
}

// What the target has at a place, which is of the item's kind.
fn look_over<T: Target>(
    alloc: Global,
    target: &mut T,
    item: &Item,
    place: &Path,
    shown: Seen,
) -> Result<Status, DecideError>
    requires shown { IfSome (T.tree target.old) (λ t. shown ≡ seen t place.now) }
    requires over { is_over item.now.dir shown ≡ true }
    ensures target { OnlyLooks (view T.Store target.old) (view T.Store target.new) result is_target_fault }
    ensures looks { T.looks target.new ≤ T.looks target.old + 1 }
    ensures status { IfOk result (λ status. IfSome (T.tree target.old) (λ t. IsStatusOf (t place.now) status)) }
    ensures fits { IfOk result (λ status. IsTrue (fits_kind status)) }
    ensures kind { IfOk result (λ status. status.dir ≡ item.now.dir) }
    ensures source { IfErr result (λ e. is_source_fault e ≡ false) }
    ensures clash { IfErr result (λ e. is_clash e ≡ false) }
    ensures path { IfErr result (λ e. IfChanged e (λ denied. denied ≡ place.now)) }
    ensures changed { IfErr result (λ e. IfChanged e (λ _. T.tree target.old ≡ None)) }
{
    match target.status(alloc, place) {
        Ok(status) => {
            if status.dir == item.is_dir() {
                Ok(status)
            } else {
                Err(changed(alloc, place))
            }
        }
        Err(error) => Err(target_stopped(alloc, error, place)),
    }
}

// What becomes of an item over what the target has at its place, which is of its kind.
fn act_over<S: Source, T: Target>(
    alloc: Global,
    options: &Options,
    source: &mut S,
    target: &mut T,
    item: &Item,
    place: &Path,
    over: &Status,
) -> Result<Action, DecideError>
    requires over { item.now.dir ≡ false → IfSome (T.tree target.old) (λ t. seen t place.now ≡ seen_as.File over.now.length) }
    ensures source { OnlyLooks (view S.Store source.old) (view S.Store source.new) result is_source_fault }
    ensures target { OnlyLooks (view T.Store target.old) (view T.Store target.new) result is_target_fault }
    ensures looks { LooksFew 0 (asks options.now item.now over.now) (S.looks source.old) (S.looks source.new) (T.looks target.old) (T.looks target.new) }
    ensures action { IfOk result (λ a. BothTell (S.tree source.old) (T.tree target.old) (λ s t. a ≡ cond item.now.dir Folder (action_on options.now item.now over.now place.now s t))) }
    ensures kind { IfOk result (λ a. is_folder a ≡ item.now.dir) }
    ensures extends { IfOk result (λ a. IsTrue (extends_within a item.now.length)) }
    ensures obeys { IfOk result (Obeys options.now item.now.dir true) }
    ensures clash { IfErr result (λ e. is_clash e ≡ false) }
    ensures changed { IfErr result (λ e. IfChanged e (IsDenied (S.tree source.old) (T.tree target.old) item.now place.now)) }
{
    if item.is_dir() {
        return Ok(Action::Folder);
    }
    choose(alloc, options, source, target, item, place, over)
}

// What becomes of an item at its place, where something of its kind was seen there.
fn decide_over<S: Source, T: Target>(
    alloc: Global,
    options: &Options,
    source: &mut S,
    target: &mut T,
    item: &Item,
    place: &Path,
    shown: Seen,
) -> Result<Decided, DecideError>
    requires shown { IfSome (T.tree target.old) (λ t. shown ≡ seen t place.now) }
    requires over { is_over item.now.dir shown ≡ true }
    ensures source { OnlyLooks (view S.Store source.old) (view S.Store source.new) result is_source_fault }
    ensures target { OnlyLooks (view T.Store target.old) (view T.Store target.new) result is_target_fault }
    ensures looks { LooksFew 1 (may_ask options.now item.now) (S.looks source.old) (S.looks source.new) (T.looks target.old) (T.looks target.new) }
    ensures asked { IfSome (T.tree target.old) (λ t. LooksFew 1 (asks_of options.now item.now (t place.now)) (S.looks source.old) (S.looks source.new) (T.looks target.old) (T.looks target.new)) }
    ensures decides { IfOk result (λ d. BothTell (S.tree source.old) (T.tree target.old) (DecidesAs options.now item.now place.now d)) }
    ensures fits { IfOk result (λ d. IsDecision (decision_of item.now d)) }
    ensures obeys { IfOk result (λ d. Obeys options.now item.now.dir (is_some d.before) d.action) }
    ensures clash { IfErr result (λ e. is_clash e ≡ false) }
    ensures changed { IfErr result (λ e. IfChanged e (IsDenied (S.tree source.old) (T.tree target.old) item.now place.now)) }
{
    let status = match look_over(alloc, target, item, place, shown) {
        Ok(status) => status,
        Err(error) => return Err(error),
    };
    match act_over(alloc, options, source, target, item, place, &status) {
        Ok(action) => Ok(Decided {
            action,
            before: Some(status.attrs),
        }),
        Err(error) => Err(error),
    }
}

// What becomes of an item where nothing stands at its place.
fn decide_new(item: &Item) -> Decided
    ensures { result ≡ record { action = cond item.now.dir Folder Replace; before = None } }
{
    if item.is_dir() {
        Decided {
            action: Action::Folder,
            before: None,
        }
    } else {
        Decided {
            action: Action::Replace,
            before: None,
        }
    }
}

// Whether what is seen at an item's place is of the other kind, or a file stands on the way.
fn clashes(dir: bool, shown: Seen) -> bool
    ensures { result ≡ clashes dir shown }
{
    match shown {
        Seen::Dir => !dir,
        Seen::File { .. } => dir,
        Seen::Missing => false,
        Seen::NotDir => true,
    }
}

// Whether nothing is seen.
fn is_missing(shown: Seen) -> bool
    ensures { result ≡ is_missing shown }
{
    matches!(shown, Seen::Missing)
}

/// Decides what becomes of a listed item at its place in the target (Hadoop DistCp, `CopyMapper`).
///
/// A directory is a `Folder`. Of a file the first of these that holds decides:
///
/// 1. The target has nothing there: `Replace`.
/// 2. `-overwrite`: `Replace`.
/// 3. No `-update`: `Skip`.
/// 4. The lengths are equal, the block sizes too unless `b` is not kept, and the MD5 digests too unless `-skipcrccheck` is
///    given: `Skip`.
/// 5. With `-append` the target's file is shorter, and has the digest of as many first bytes of the source's: `Extend` from
///    its length on.
/// 6. Else `Replace`.
///
/// It changes neither store. The source is looked at for a digest alone, and a digest of each side is asked for at most
/// once, where sizes do not decide.
///
/// # Errors
///
/// - `TargetFault` and `SourceFault`, only where the count of faults of that store rose;
/// - `Clash`, exactly where the target shows the other kind at the place, or a file on the way there;
/// - `Changed`, only where a store denied what it showed;
/// - `Memory`, which may come in the place of every answer but `Clash` and a fault of the first look.
pub fn decide<S: Source, T: Target>(
    alloc: Global,
    options: &Options,
    source: &mut S,
    target: &mut T,
    item: &Item,
    place: &Path,
) -> Result<Decided, DecideError>
    ensures source { OnlyLooks (view S.Store source.old) (view S.Store source.new) result is_source_fault }
    ensures target { OnlyLooks (view T.Store target.old) (view T.Store target.new) result is_target_fault }
    ensures looks { LooksFew 2 (may_ask options.now item.now) (S.looks source.old) (S.looks source.new) (T.looks target.old) (T.looks target.new) }
    ensures asked { IfSome (T.tree target.old) (λ t. LooksFew 2 (asks_of options.now item.now (t place.now)) (S.looks source.old) (S.looks source.new) (T.looks target.old) (T.looks target.new)) }
    ensures decides { IfOk result (λ d. BothTell (S.tree source.old) (T.tree target.old) (DecidesAs options.now item.now place.now d)) }
    ensures fits { IfOk result (λ d. IsDecision (decision_of item.now d)) }
    ensures obeys { IfOk result (λ d. Obeys options.now item.now.dir (is_some d.before) d.action) }
    ensures clash { IfSome (T.tree target.old) (λ t. ClashesIf (clashes item.now.dir (seen t place.now)) result) }
    ensures unfailed { IfErr result (λ e. is_clash e ≡ true → (S.faults source.new ≡ S.faults source.old) × (T.faults target.new ≡ T.faults target.old)) }
    ensures changed { IfErr result (λ e. IfChanged e (IsDenied (S.tree source.old) (T.tree target.old) item.now place.now)) }
{
    let shown = match target.kind(place) {
        Ok(shown) => shown,
        Err(_) => return Err(DecideError::TargetFault),
    };
    if clashes(item.is_dir(), shown) {
        return Err(DecideError::Clash);
    }
    if is_missing(shown) {
        return Ok(decide_new(item));
    }
    decide_over(alloc, options, source, target, item, place, shown)
}
