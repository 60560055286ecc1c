//! Trees in memory: each call, and what it leaves.
#![tactic(auto)]

use crate::fixtures::{extend, has_bytes, make_dir, path, put, rename, small_tree};
use dc_attrs::{Attrs, Seen, TreeError};
use dc_tree::MemTree;
use std::alloc::Global;
use std::test::Fail;

// What stands at a path, and how many names are under it.
fn shows_bare_dir(alloc: Global, tree: &MemTree, text: &str) -> Result<bool, TreeError> {
    let path = path(alloc, text)?;
    let names = tree.children(alloc, &path)?;
    Ok(tree.kind(&path) == Seen::Dir && names.len() == 0)
}

fn remove(alloc: Global, tree: &mut MemTree, text: &str) -> Result<(), TreeError> {
    let path = path(alloc, text)?;
    tree.remove(&path)
}

fn kind(alloc: Global, tree: &MemTree, text: &str) -> Result<Seen, TreeError> {
    let path = path(alloc, text)?;
    Ok(tree.kind(&path))
}

// Whether a directory has this child alone.
fn has_child(alloc: Global, tree: &MemTree, text: &str, child: &str) -> Result<bool, TreeError> {
    let path = path(alloc, text)?;
    let names = tree.children(alloc, &path)?;
    match names.as_slice() {
        [name] => Ok(name.as_str() == child),
        _ => Ok(false),
    }
}

// The mode of what stands at a path.
fn mode(alloc: Global, tree: &MemTree, text: &str) -> Result<u16, TreeError> {
    let path = path(alloc, text)?;
    match tree.attrs(&path) {
        Some(attrs) => Ok(attrs.mode()),
        None => Err(TreeError::Missing),
    }
}

// Gives what stands at a path the attributes of what is new.
#[tactic(auto, using(dc_tree::proofs::FittingLemmas::fitting))]
fn renew(alloc: Global, tree: &mut MemTree, text: &str) -> Result<(), TreeError> {
    let path = path(alloc, text)?;
    match tree.kind(&path) {
        Seen::File { .. } => tree.set_attrs(&path, Attrs::default_file(alloc)),
        Seen::Dir => tree.set_attrs(&path, Attrs::default_dir(alloc)),
        Seen::Missing => tree.set_attrs(&path, Attrs::default_dir(alloc)),
        Seen::NotDir => tree.set_attrs(&path, Attrs::default_dir(alloc)),
    }
}

#[test]
fn a_new_tree_has_the_root_alone(rt: HostRuntime) -> Result<(), Fail> {
    let alloc = rt.alloc();
    let tree = MemTree::new(alloc)?;
    assert_eq!(rt; shows_bare_dir(alloc, &tree, "/"), Ok(true));
    assert_eq!(rt; shows_bare_dir(alloc, &tree, "/a"), Err(TreeError::Missing));
    Ok(())
}

#[test]
fn a_file_is_put_again_where_it_stands(rt: HostRuntime) -> Result<(), Fail> {
    let alloc = rt.alloc();
    let mut tree = MemTree::new(alloc)?;
    assert_eq!(rt;
        put(alloc, &mut tree, "/a/f", b"1"),
        Err(TreeError::Missing)
    );
    assert_eq!(rt; make_dir(alloc, &mut tree, "/a"), Ok(()));
    assert_eq!(rt; put(alloc, &mut tree, "/a/f", b"1"), Ok(()));
    assert_eq!(rt; put(alloc, &mut tree, "/a/f", b"23"), Ok(()));
    assert_eq!(rt; has_bytes(alloc, &tree, "/a/f", b"23"), Ok(true));
    Ok(())
}

#[test]
fn a_directory_is_made_once(rt: HostRuntime) -> Result<(), Fail> {
    let alloc = rt.alloc();
    let mut tree = MemTree::new(alloc)?;
    assert_eq!(rt; make_dir(alloc, &mut tree, "/a"), Ok(()));
    assert_eq!(rt; make_dir(alloc, &mut tree, "/a"), Err(TreeError::Exists));
    assert_eq!(rt; mode(alloc, &tree, "/a"), Ok(0o755));
    Ok(())
}

#[test]
fn a_file_grows_under_its_directory(rt: HostRuntime) -> Result<(), Fail> {
    let alloc = rt.alloc();
    let mut tree = small_tree(alloc)?;
    assert_eq!(rt; put(alloc, &mut tree, "/a", b"1"), Err(TreeError::IsDir));
    assert_eq!(rt; has_child(alloc, &tree, "/a", "f"), Ok(true));
    assert_eq!(rt; has_bytes(alloc, &tree, "/a/f", b"12"), Ok(true));
    assert_eq!(rt;
        has_child(alloc, &tree, "/a/f", "f"),
        Err(TreeError::NotDir)
    );
    Ok(())
}

#[test]
fn a_directory_moves_with_its_file(rt: HostRuntime) -> Result<(), Fail> {
    let alloc = rt.alloc();
    let mut tree = small_tree(alloc)?;
    assert_eq!(rt;
        rename(alloc, &mut tree, "/a", "/a/x"),
        Err(TreeError::IntoItself)
    );
    assert_eq!(rt; rename(alloc, &mut tree, "/a", "/b"), Ok(()));
    assert_eq!(rt; kind(alloc, &tree, "/b/f"), Ok(Seen::File { length: 2 }));
    assert_eq!(rt; remove(alloc, &mut tree, "/a"), Err(TreeError::Missing));
    Ok(())
}

#[test]
fn a_copy_stays_when_the_tree_changes(rt: HostRuntime) -> Result<(), Fail> {
    let alloc = rt.alloc();
    let mut tree = small_tree(alloc)?;
    let copy = tree.copy(alloc)?;
    assert_eq!(rt; remove(alloc, &mut tree, "/a"), Ok(()));
    assert_eq!(rt; kind(alloc, &tree, "/a/f"), Ok(Seen::Missing));
    assert_eq!(rt; has_bytes(alloc, &copy, "/a/f", b"12"), Ok(true));
    Ok(())
}

#[test]
fn attributes_are_set_where_something_stands(rt: HostRuntime) -> Result<(), Fail> {
    let alloc = rt.alloc();
    let mut tree = small_tree(alloc)?;
    assert_eq!(rt; renew(alloc, &mut tree, "/a/f"), Ok(()));
    assert_eq!(rt; mode(alloc, &tree, "/a/f"), Ok(0o644));
    assert_eq!(rt; renew(alloc, &mut tree, "/b"), Err(TreeError::Missing));
    assert_eq!(rt; renew(alloc, &mut tree, "/a/f/g"), Err(TreeError::NotDir));
    Ok(())
}

// Removes what stands in the small tree, and puts the same there again, with other calls between.
fn replace(alloc: Global, tree: &mut MemTree) -> Result<(), TreeError> {
    remove(alloc, tree, "/a/f")?;
    remove(alloc, tree, "/a")?;
    put(alloc, tree, "/g", b"1")?;
    extend(alloc, tree, "/g", b"2")?;
    make_dir(alloc, tree, "/b")?;
    renew(alloc, tree, "/b")?;
    rename(alloc, tree, "/b", "/a")?;
    put(alloc, tree, "/a/f", b"1")
}

#[test]
fn removed_slots_are_used_again(rt: HostRuntime) -> Result<(), Fail> {
    let alloc = rt.alloc();
    let mut tree = small_tree(alloc)?;
    put(alloc, &mut tree, "/g", b"1")?;
    for _ in 0..3 {
        replace(alloc, &mut tree)?;
    }
    assert_eq!(rt; tree.slots(), 4);
    Ok(())
}

#[test]
fn a_copy_uses_free_slots(rt: HostRuntime) -> Result<(), Fail> {
    let alloc = rt.alloc();
    let mut tree = small_tree(alloc)?;
    remove(alloc, &mut tree, "/a")?;
    let mut copy = tree.copy(alloc)?;
    make_dir(alloc, &mut copy, "/b")?;
    put(alloc, &mut copy, "/b/g", b"1")?;
    assert_eq!(rt; copy.slots(), 3);
    Ok(())
}
