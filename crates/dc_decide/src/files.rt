//! What becomes of a file over a file of the target.
#![tactic(auto)]

ghost use Rattle.std.specs.Prelude.{◌≡◌, ◌&&◌, true, false, not, IfOk, IfErr, IfSome, IsTrue};
ghost use Rattle.dc_attrs.specs.Trees.{seen};
ghost use Rattle.dc_attrs.specs.declared.shown.Seen.TheVariants as seen_as;
ghost use Rattle.dc_fs.specs.Views.{view, OnlyLooks, BothTell};
ghost use Rattle.dc_decide.specs.Deciding.{Obeys};
ghost use Rattle.dc_decide.specs.Errors.{is_source_fault, is_target_fault, is_clash, IfChanged};
ghost use Rattle.dc_decide.specs.Looking.{IsDenied, LooksFew, same_sizes, asks_over, asks, action_on};
ghost use Rattle.dc_decide.specs.Plans.{is_folder, extends_within};

use crate::digests::same_digests;
use crate::{Action, DecideError};
use dc_fs::{Source, Status, Target};
use dc_listing::Item;
use dc_options::Options;
use dc_path::Path;
use std::alloc::Global;

// Whether two files have one length, and one block size if that is kept.
#[tactic(auto, unfolding(dc_attrs::specs::Keeping::keeps))]
fn same_sizes(options: &Options, item: &Item, over: &Status) -> bool
    ensures { result ≡ same_sizes options.now item.now over.now }
{
    item.length() == over.length
        && (!options.keep().has('b') || item.attrs().block_size() == over.attrs.block_size())
}

// What becomes of a file over one that may be current, where `-update` is given.
fn update<S: Source, T: Target>(
    alloc: Global,
    options: &Options,
    source: &mut S,
    target: &mut T,
    item: &Item,
    place: &Path,
    over: &Status,
) -> Result<Action, DecideError>
    requires file { item.now.dir ≡ false }
    requires over { IfSome (T.tree target.old) (λ t. seen t place.now ≡ seen_as.File over.now.length) }
    requires options { (not options.now.overwrite && options.now.update) ≡ true }
    ensures source { OnlyLooks (view S.Store source.old) (view S.Store source.new) result is_source_fault }
    ensures target { OnlyLooks (view T.Store target.old) (view T.Store target.new) result is_target_fault }
    ensures looks { LooksFew 0 (asks_over options.now item.now over.now) (S.looks source.old) (S.looks source.new) (T.looks target.old) (T.looks target.new) }
    ensures action { IfOk result (λ a. BothTell (S.tree source.old) (T.tree target.old) (λ s t. a ≡ action_on options.now item.now over.now place.now s t)) }
    ensures kind { IfOk result (λ a. is_folder a ≡ false) }
    ensures extends { IfOk result (λ a. IsTrue (extends_within a item.now.length)) }
    ensures obeys { IfOk result (Obeys options.now false true) }
    ensures clash { IfErr result (λ e. is_clash e ≡ false) }
    ensures changed { IfErr result (λ e. IfChanged e (IsDenied (S.tree source.old) (T.tree target.old) item.now place.now)) }
{
    if same_sizes(options, item, over) {
        if options.skip_crc() {
            return Ok(Action::Skip);
        }
        return match same_digests(alloc, source, target, item, place, over, item.length()) {
            Ok(true) => Ok(Action::Skip),
            Ok(false) => Ok(Action::Replace),
            Err(error) => Err(error),
        };
    }
    if !options.append() || over.length >= item.length() {
        return Ok(Action::Replace);
    }
    match same_digests(alloc, source, target, item, place, over, over.length) {
        Ok(true) => Ok(Action::Extend { from: over.length }),
        Ok(false) => Ok(Action::Replace),
        Err(error) => Err(error),
    }
}

/// What becomes of a file over a file of the target.
pub(crate) fn choose<S: Source, T: Target>(
    alloc: Global,
    options: &Options,
    source: &mut S,
    target: &mut T,
    item: &Item,
    place: &Path,
    over: &Status,
) -> Result<Action, DecideError>
    requires file { item.now.dir ≡ false }
    requires over { IfSome (T.tree target.old) (λ t. seen t place.now ≡ seen_as.File over.now.length) }
    ensures source { OnlyLooks (view S.Store source.old) (view S.Store source.new) result is_source_fault }
    ensures target { OnlyLooks (view T.Store target.old) (view T.Store target.new) result is_target_fault }
    ensures looks { LooksFew 0 (asks options.now item.now over.now) (S.looks source.old) (S.looks source.new) (T.looks target.old) (T.looks target.new) }
    ensures action { IfOk result (λ a. BothTell (S.tree source.old) (T.tree target.old) (λ s t. a ≡ action_on options.now item.now over.now place.now s t)) }
    ensures kind { IfOk result (λ a. is_folder a ≡ false) }
    ensures extends { IfOk result (λ a. IsTrue (extends_within a item.now.length)) }
    ensures obeys { IfOk result (Obeys options.now false true) }
    ensures clash { IfErr result (λ e. is_clash e ≡ false) }
    ensures changed { IfErr result (λ e. IfChanged e (IsDenied (S.tree source.old) (T.tree target.old) item.now place.now)) }
{
    if options.overwrite() {
        return Ok(Action::Replace);
    }
    if !options.update() {
        return Ok(Action::Skip);
    }
    update(alloc, options, source, target, item, place, over)
}
