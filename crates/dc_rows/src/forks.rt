//! Forks of a source in memory, and what they leave when they come back.
#![tactic(auto)]

use crate::fixtures::{make_dir, path};
use dc_attrs::{Seen, TreeError};
use dc_fs::{LookFault, Source, Store};
use dc_memfs::{Fail, Fails, MemSource, Which};
use dc_path::{List, OutOfMemory, Path};
use dc_tree::MemTree;
use std::alloc::Global;
use std::test;

// The tree of one directory.
fn small_tree(alloc: Global) -> Result<MemTree, TreeError> {
    let mut tree = MemTree::new(alloc)?;
    make_dir(alloc, &mut tree, "/s")?;
    Ok(tree)
}

// The list by which each call fails.
fn always(alloc: Global) -> Result<Fails, OutOfMemory> {
    let mut list = List::new(alloc);
    list.push(Fail {
        which: Which::Any,
        nth: 1,
        done: false,
        then_all: true,
    })
    .map_err(|_| OutOfMemory)?;
    Ok(Fails::new(alloc, list))
}

fn a_fork_shows_the_same_tree_and_counts_for_itself(alloc: Global) -> Result<bool, TreeError> {
    let tree = small_tree(alloc)?;
    let place = path(alloc, "/s")?;
    let none = Fails::none(alloc);
    let mut source = MemSource::new(&tree, &none, &none);
    let looked = source.kind(&place).is_ok();
    let mut fork = source.fork(alloc)?;
    let fresh = fork.looks() == 0 && fork.faults() == 0 && fork.fork_faults() == 0;
    let same = fork.kind(&place) == Ok(Seen::Dir);
    source.rejoin(fork);
    Ok(looked && fresh && same && source.looks() == 1)
}

fn faults_of_a_fork_are_counted_when_it_comes_back(alloc: Global) -> Result<bool, OutOfMemory> {
    let tree = MemTree::new(alloc)?;
    let (own, forks) = (Fails::none(alloc), always(alloc)?);
    let mut source = MemSource::new(&tree, &own, &forks);
    let root = Path::root(alloc);
    let mut fork = source.fork(alloc)?;
    let first = fork.kind(&root) == Err(LookFault);
    let second = fork.kind(&root) == Err(LookFault);
    source.rejoin(fork);
    let counted = source.fork_faults() == 2 && source.faults() == 0;
    Ok(first && second && counted && source.kind(&root).is_ok())
}

// The faults that reach a source through a fork of a fork.
fn reached(source: &mut MemSource, alloc: Global) -> Result<u64, OutOfMemory> {
    let root = Path::root(alloc);
    let mut fork = source.fork(alloc)?;
    let mut inner = fork.fork(alloc)?;
    let failed = fork.kind(&root).is_err() && inner.kind(&root).is_err();
    fork.rejoin(inner);
    source.rejoin(fork);
    Ok(if failed { source.fork_faults() } else { 0 })
}

fn faults_of_forks_of_forks_are_counted_too(alloc: Global) -> Result<bool, OutOfMemory> {
    let tree = MemTree::new(alloc)?;
    let (own, forks) = (Fails::none(alloc), always(alloc)?);
    let mut source = MemSource::new(&tree, &own, &forks);
    Ok(reached(&mut source, alloc)? == 2)
}

#[test]
fn forks_count_for_themselves_and_for_their_source(rt: HostRuntime) -> Result<(), test::Fail> {
    let alloc = rt.alloc();
    assert_eq!(rt;
        a_fork_shows_the_same_tree_and_counts_for_itself(alloc),
        Ok(true)
    );
    assert_eq!(rt;
        faults_of_a_fork_are_counted_when_it_comes_back(alloc),
        Ok(true)
    );
    assert_eq!(rt; faults_of_forks_of_forks_are_counted_too(alloc), Ok(true));
    Ok(())
}
