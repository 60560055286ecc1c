//! Digests of the first bytes of two files, compared.
#![tactic(auto)]

ghost use Rattle.std.specs.Prelude.{◌≡◌, ◌+◌, ◌≤◌, false, nat_eq, IfOk, IfErr, IfSome, None};
ghost use Rattle.std.specs.Cmp.Lexicographic.{pointwise};
ghost use Rattle.dc_attrs.specs.Trees.{seen};
ghost use Rattle.dc_attrs.specs.declared.shown.Seen.TheVariants as seen_as;
ghost use Rattle.dc_fs.specs.Answers.{refused_read};
ghost use Rattle.dc_fs.specs.Digests.{IsChecksum};
ghost use Rattle.dc_fs.specs.Views.{view, OnlyLooks, BothTell};
ghost use Rattle.dc_decide.specs.Errors.{is_source_fault, is_target_fault, is_clash, IfChanged};
ghost use Rattle.dc_decide.specs.Looking.{fronts_at, IsDenied};

use crate::DecideError;
use crate::errors::{source_stopped, target_stopped};
use dc_fs::{Source, Status, Target};
use dc_listing::Item;
use dc_path::Path;
use std::alloc::Global;

// The digest of the first bytes of a file of the source.
fn source_digest<S: Source>(
    alloc: Global,
    source: &mut S,
    path: &Path,
    length: u64,
) -> Result<[u8; 16], DecideError>
    ensures source { OnlyLooks (view S.Store source.old) (view S.Store source.new) result is_source_fault }
    ensures looks { S.looks source.new ≤ S.looks source.old + 1 }
    ensures value { IfOk result (λ digest. IfSome (S.tree source.old) (λ s. IsChecksum length (s path.now) digest)) }
    ensures target { IfErr result (λ e. is_target_fault e ≡ false) }
    ensures clash { IfErr result (λ e. is_clash e ≡ false) }
    ensures path { IfErr result (λ e. IfChanged e (λ denied. denied ≡ path.now)) }
    ensures changed { IfErr result (λ e. IfChanged e (λ _. IfSome (S.tree source.old) (λ s. refused_read length (seen s path.now) ≡ None → ⊥))) }
{
    match source.checksum(alloc, path, length) {
        Ok(digest) => Ok(digest),
        Err(error) => Err(source_stopped(alloc, error, path)),
    }
}

// The digest of the first bytes of a file of the target.
fn target_digest<T: Target>(
    alloc: Global,
    target: &mut T,
    path: &Path,
    length: u64,
) -> Result<[u8; 16], DecideError>
    ensures target { OnlyLooks (view T.Store target.old) (view T.Store target.new) result is_target_fault }
    ensures looks { T.looks target.new ≤ T.looks target.old + 1 }
    ensures value { IfOk result (λ digest. IfSome (T.tree target.old) (λ t. IsChecksum length (t path.now) digest)) }
    ensures source { IfErr result (λ e. is_source_fault e ≡ false) }
    ensures clash { IfErr result (λ e. is_clash e ≡ false) }
    ensures path { IfErr result (λ e. IfChanged e (λ denied. denied ≡ path.now)) }
    ensures changed { IfErr result (λ e. IfChanged e (λ _. IfSome (T.tree target.old) (λ t. refused_read length (seen t path.now) ≡ None → ⊥))) }
{
    match target.checksum(alloc, path, length) {
        Ok(digest) => Ok(digest),
        Err(error) => Err(target_stopped(alloc, error, path)),
    }
}

// Whether two digests are equal.
fn same_bytes(one: &[u8; 16], other: &[u8; 16]) -> bool
    ensures { result ≡ pointwise nat_eq one.now other.now }
{
    one.as_slice() == other.as_slice()
}

/// Whether as many first bytes of an item's file and of the target's file at its place have one digest.
pub(crate) fn same_digests<S: Source, T: Target>(
    alloc: Global,
    source: &mut S,
    target: &mut T,
    item: &Item,
    place: &Path,
    over: &Status,
    length: u64,
) -> Result<bool, DecideError>
    requires file { item.now.dir ≡ false }
    requires within { length ≤ item.now.length }
    requires over { IfSome (T.tree target.old) (λ t. seen t place.now ≡ seen_as.File over.now.length) }
    requires within_over { length ≤ over.now.length }
    ensures source { OnlyLooks (view S.Store source.old) (view S.Store source.new) result is_source_fault }
    ensures target { OnlyLooks (view T.Store target.old) (view T.Store target.new) result is_target_fault }
    ensures source_looks { S.looks source.new ≤ S.looks source.old + 1 }
    ensures target_looks { T.looks target.new ≤ T.looks target.old + 1 }
    ensures value { IfOk result (λ same. BothTell (S.tree source.old) (T.tree target.old) (λ s t. same ≡ fronts_at s item.now.from t place.now length)) }
    ensures clash { IfErr result (λ e. is_clash e ≡ false) }
    ensures changed { IfErr result (λ e. IfChanged e (IsDenied (S.tree source.old) (T.tree target.old) item.now place.now)) }
{
    let one = match source_digest(alloc, source, item.from(), length) {
        Ok(digest) => digest,
        Err(error) => return Err(error),
    };
    let other = match target_digest(alloc, target, place, length) {
        Ok(digest) => digest,
        Err(error) => return Err(error),
    };
    Ok(same_bytes(&one, &other))
}
