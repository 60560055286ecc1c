//! Calls that fail in stores in memory since a list names them.
#![tactic(auto)]

use dc_attrs::Seen;
use dc_fs::{Desk, DeskError, LookFault, ReadError, Store, Target, WriteError};
use dc_memfs::{Fail, Fails, MemDesk, MemSource, MemTarget, Which};
use dc_path::{List, OutOfMemory, Path};
use dc_tree::MemTree;
use std::alloc::Global;
use std::test;

fn path(alloc: Global, text: &str) -> Result<Path, WriteError> {
    Path::read(alloc, text).map_err(|_| WriteError::Memory)
}

// A target with the root alone, and with these calls that fail.
fn failing(alloc: Global, own: Fails, desks: Fails) -> Result<MemTarget, WriteError> {
    let tree = MemTree::new(alloc)?;
    Ok(MemTarget::new(alloc, tree, own, desks))
}

// The list of one entry.
fn listed(alloc: Global, entry: Fail) -> Result<Fails, OutOfMemory> {
    let mut list = List::new(alloc);
    list.push(entry).map_err(|_| OutOfMemory)?;
    Ok(Fails::new(alloc, list))
}

// The call of a kind with this number, alone and without its change.
fn nth(which: Which, nth: u64) -> Fail {
    Fail {
        which,
        nth,
        done: false,
        then_all: false,
    }
}

fn the_second_look_of_a_kind_fails_alone(alloc: Global) -> Result<bool, OutOfMemory> {
    let tree = MemTree::new(alloc)?;
    let own = listed(alloc, nth(Which::Kind, 2))?;
    let forks = Fails::none(alloc);
    let mut source = MemSource::new(&tree, &own, &forks);
    let root = Path::root(alloc);
    let first = source.kind(&root).is_ok();
    let other = source.status(alloc, &root).is_ok();
    let second = source.kind(&root) == Err(LookFault);
    Ok(first && other && second && source.kind(&root).is_ok())
}

fn any_counts_calls_of_each_kind(alloc: Global) -> Result<bool, OutOfMemory> {
    let tree = MemTree::new(alloc)?;
    let own = listed(alloc, nth(Which::Any, 3))?;
    let forks = Fails::none(alloc);
    let mut source = MemSource::new(&tree, &own, &forks);
    let root = Path::root(alloc);
    let first = source.kind(&root).is_ok();
    let second = source.list(alloc, &root).is_ok();
    let third = source.read_at(alloc, &root, 0, &mut []) == Err(ReadError::Fault);
    Ok(first && second && third && source.kind(&root).is_ok())
}

// Whether making a directory fails.
fn dir_fails(alloc: Global, target: &mut MemTarget, text: &str) -> Result<bool, WriteError> {
    let path = path(alloc, text)?;
    Ok(target.make_dir(alloc, &path) == Err(WriteError::Fault))
}

// Whether a tree shows this at a path.
fn shows(alloc: Global, tree: &MemTree, text: &str, seen: Seen) -> Result<bool, WriteError> {
    let path = path(alloc, text)?;
    Ok(tree.kind(&path) == seen)
}

fn a_directory_is_made_by_the_call_that_fails_done(alloc: Global) -> Result<bool, WriteError> {
    let entry = Fail {
        which: Which::MakeDir,
        nth: 1,
        done: true,
        then_all: true,
    };
    let own = listed(alloc, entry)?;
    let mut target = failing(alloc, own, Fails::none(alloc))?;
    let first = dir_fails(alloc, &mut target, "/a")?;
    let second = dir_fails(alloc, &mut target, "/b")?;
    let swept = target.sweep() == Err(WriteError::Fault);
    let tree = target.into_tree();
    let is_made = shows(alloc, &tree, "/a", Seen::Dir)?;
    Ok(first && second && swept && is_made && shows(alloc, &tree, "/b", Seen::Missing)?)
}

fn a_fault_comes_before_a_refusal_of_the_tree(alloc: Global) -> Result<bool, WriteError> {
    let own = listed(alloc, nth(Which::MakeDir, 1))?;
    let mut target = failing(alloc, own, Fails::none(alloc))?;
    let root = Path::root(alloc);
    let first = target.make_dir(alloc, &root) == Err(WriteError::Fault);
    Ok(first && target.make_dir(alloc, &root) == Err(WriteError::Exists))
}

// Whether the first append to a desk fails, and a later one does not.
fn fails_once(alloc: Global, desk: &mut MemDesk) -> Result<bool, DeskError> {
    desk.create(alloc)?;
    let first = desk.append(alloc, b"a") == Err(DeskError::Fault);
    desk.append(alloc, b"b")?;
    let bytes = desk.seal(alloc)?.into_bytes();
    Ok(first && bytes.as_slice() == b"b".as_slice())
}

// The same on a new desk of a target.
fn new_desk_fails_once(alloc: Global, target: &mut MemTarget) -> Result<bool, WriteError> {
    let mut desk = target.open_desk(alloc)?;
    fails_once(alloc, &mut desk).map_err(|_| WriteError::Memory)
}

fn each_desk_fails_by_the_list_of_its_target(alloc: Global) -> Result<bool, WriteError> {
    let desks = listed(alloc, nth(Which::Append, 1))?;
    let mut target = failing(alloc, Fails::none(alloc), desks)?;
    let first = new_desk_fails_once(alloc, &mut target)?;
    Ok(first && new_desk_fails_once(alloc, &mut target)?)
}

#[test]
fn listed_calls_fail(rt: HostRuntime) -> Result<(), test::Fail> {
    let alloc = rt.alloc();
    assert_eq!(rt; the_second_look_of_a_kind_fails_alone(alloc), Ok(true));
    assert_eq!(rt; any_counts_calls_of_each_kind(alloc), Ok(true));
    assert_eq!(rt;
        a_directory_is_made_by_the_call_that_fails_done(alloc),
        Ok(true)
    );
    assert_eq!(rt; a_fault_comes_before_a_refusal_of_the_tree(alloc), Ok(true));
    assert_eq!(rt; each_desk_fails_by_the_list_of_its_target(alloc), Ok(true));
    Ok(())
}
