//! Removals, moves and settings of attributes in a target in memory, and what is left where they fail.
#![tactic(auto)]

use crate::fixtures::{are_same, has_bytes, make_dir, path, put};
use dc_attrs::{Attrs, Seen, TreeError};
use dc_fs::{Target, WriteError};
use dc_memfs::{Fail, Fails, MemTarget, Which};
use dc_path::{List, OutOfMemory, Text};
use dc_tree::MemTree;
use std::alloc::Global;
use std::test;

// The tree of two directories, one with a file.
fn small_tree(alloc: Global) -> Result<MemTree, TreeError> {
    let mut tree = MemTree::new(alloc)?;
    make_dir(alloc, &mut tree, "/x")?;
    put(alloc, &mut tree, "/x/f", b"ab")?;
    make_dir(alloc, &mut tree, "/w")?;
    Ok(tree)
}

// A target of that tree, on which the first call of a kind fails, perhaps after its change, and no other.
fn failing(alloc: Global, which: Which, done: bool) -> Result<MemTarget, WriteError> {
    let mut list = List::new(alloc);
    list.push(Fail {
        which,
        nth: 1,
        done,
        then_all: false,
    })
    .map_err(|_| OutOfMemory)?;
    let tree = small_tree(alloc)?;
    let own = Fails::new(alloc, list);
    Ok(MemTarget::new(alloc, tree, own, Fails::none(alloc)))
}

// A target of that tree, on which nothing fails.
fn sound(alloc: Global) -> Result<MemTarget, WriteError> {
    let tree = small_tree(alloc)?;
    Ok(MemTarget::new(alloc, tree, Fails::none(alloc), Fails::none(alloc)))
}

fn remove(alloc: Global, target: &mut MemTarget, text: &str) -> Result<(), WriteError> {
    let path = path(alloc, text)?;
    target.remove(alloc, &path)
}

fn rename(alloc: Global, target: &mut MemTarget, from: &str, to: &str) -> Result<(), WriteError> {
    let (from, to) = (path(alloc, from)?, path(alloc, to)?);
    target.rename(alloc, &from, &to)
}

// Whether what stands at a path of a target is shown as this.
fn shows(alloc: Global, target: &MemTarget, text: &str, seen: Seen) -> Result<bool, WriteError> {
    let path = path(alloc, text)?;
    Ok(target.tree().kind(&path) == seen)
}

fn what_is_moved_stands_at_its_new_path(alloc: Global) -> Result<bool, WriteError> {
    let mut target = sound(alloc)?;
    rename(alloc, &mut target, "/x", "/w/z")?;
    let gone = shows(alloc, &target, "/x", Seen::Missing)?;
    let there = has_bytes(alloc, target.tree(), "/w/z/f", b"ab")?;
    let again = rename(alloc, &mut target, "/x", "/y") == Err(WriteError::Missing);
    let taken = rename(alloc, &mut target, "/w/z", "/w") == Err(WriteError::Exists);
    let inside = rename(alloc, &mut target, "/w", "/w/z/y") == Err(WriteError::IntoItself);
    Ok(gone && there && again && taken && inside && target.rename_faults() == 0)
}

fn what_is_removed_goes_with_all_under_it(alloc: Global) -> Result<bool, WriteError> {
    let mut target = sound(alloc)?;
    remove(alloc, &mut target, "/x")?;
    let gone = shows(alloc, &target, "/x/f", Seen::Missing)?;
    let again = remove(alloc, &mut target, "/x") == Err(WriteError::Missing);
    let root = remove(alloc, &mut target, "/") == Err(WriteError::Root);
    Ok(gone && again && root && shows(alloc, &target, "/w", Seen::Dir)?)
}

// A target on which a move has failed, perhaps after its change; an error where it did not.
fn failed_move(alloc: Global, done: bool) -> Result<MemTarget, WriteError> {
    let mut target = failing(alloc, Which::Rename, done)?;
    match rename(alloc, &mut target, "/x", "/z") {
        Err(WriteError::Fault) => Ok(target),
        _ => Err(WriteError::Memory),
    }
}

fn a_failed_move_is_counted(alloc: Global) -> Result<bool, WriteError> {
    let target = failed_move(alloc, false)?;
    Ok(target.rename_faults() == 1 && shows(alloc, &target, "/x", Seen::Dir)?)
}

fn a_move_that_fails_done_is_counted(alloc: Global) -> Result<bool, WriteError> {
    let target = failed_move(alloc, true)?;
    Ok(target.rename_faults() == 1 && has_bytes(alloc, target.tree(), "/z/f", b"ab")?)
}

// Whether a removal fails, perhaps after its change, and `/x` is then shown as this.
fn fails_to_remove(alloc: Global, done: bool, seen: Seen) -> Result<bool, WriteError> {
    let mut target = failing(alloc, Which::Remove, done)?;
    let failed = remove(alloc, &mut target, "/x") == Err(WriteError::Fault);
    Ok(failed && shows(alloc, &target, "/x", seen)?)
}

// Attributes of a file that no new file has.
fn private(alloc: Global) -> Result<Attrs, WriteError> {
    let (user, group) = (Text::read(alloc, "etl")?, Text::new(alloc));
    let (acl, xattrs) = (Text::new(alloc), List::new(alloc));
    Attrs::new(2, 8, user, group, 0o600, acl, xattrs, 7).map_err(|_| WriteError::Memory)
}

// Gives the file of a target these attributes, if a file may have them.
#[tactic(auto, using(dc_tree::proofs::FittingLemmas::fitting))]
fn dress(alloc: Global, target: &mut MemTarget, attrs: &Attrs) -> Result<(), WriteError> {
    let path = path(alloc, "/x/f")?;
    if !attrs.fits_file() {
        return Err(WriteError::IsDir);
    }
    match target.tree().kind(&path) {
        Seen::File { .. } => target.set_attrs(alloc, &path, attrs),
        _ => Err(WriteError::Missing),
    }
}

// Whether the file of a target has these attributes, and its bytes are as they were.
fn is_dressed(alloc: Global, target: &MemTarget, attrs: &Attrs) -> Result<bool, WriteError> {
    let path = path(alloc, "/x/f")?;
    let kept = has_bytes(alloc, target.tree(), "/x/f", b"ab")?;
    match target.tree().attrs(&path) {
        Some(found) => Ok(kept && are_same(found, attrs)),
        None => Ok(false),
    }
}

fn set_attributes_are_there_and_the_bytes_stay(alloc: Global) -> Result<bool, WriteError> {
    let mut target = sound(alloc)?;
    let attrs = private(alloc)?;
    dress(alloc, &mut target, &attrs)?;
    is_dressed(alloc, &target, &attrs)
}

// A target on which a setting of attributes has failed, perhaps after its change; an error where it did not.
fn failed_dress(alloc: Global, done: bool, attrs: &Attrs) -> Result<MemTarget, WriteError> {
    let mut target = failing(alloc, Which::SetAttrs, done)?;
    match dress(alloc, &mut target, attrs) {
        Err(WriteError::Fault) => Ok(target),
        _ => Err(WriteError::Memory),
    }
}

// Whether the attributes are there after a setting that failed.
fn is_dressed_by_failure(alloc: Global, done: bool) -> Result<bool, WriteError> {
    let attrs = private(alloc)?;
    let target = failed_dress(alloc, done, &attrs)?;
    is_dressed(alloc, &target, &attrs)
}

#[test]
fn changes_are_made_or_refused(rt: HostRuntime) -> Result<(), test::Fail> {
    let alloc = rt.alloc();
    assert_eq!(rt; what_is_moved_stands_at_its_new_path(alloc), Ok(true));
    assert_eq!(rt; what_is_removed_goes_with_all_under_it(alloc), Ok(true));
    assert_eq!(rt;
        set_attributes_are_there_and_the_bytes_stay(alloc),
        Ok(true)
    );
    Ok(())
}

#[test]
fn failed_changes_are_done_or_not(rt: HostRuntime) -> Result<(), test::Fail> {
    let alloc = rt.alloc();
    assert_eq!(rt; a_failed_move_is_counted(alloc), Ok(true));
    assert_eq!(rt; a_move_that_fails_done_is_counted(alloc), Ok(true));
    assert_eq!(rt; fails_to_remove(alloc, false, Seen::Dir), Ok(true));
    assert_eq!(rt; fails_to_remove(alloc, true, Seen::Missing), Ok(true));
    assert_eq!(rt; is_dressed_by_failure(alloc, false), Ok(false));
    assert_eq!(rt; is_dressed_by_failure(alloc, true), Ok(true));
    Ok(())
}
