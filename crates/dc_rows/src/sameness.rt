//! Whether two parts of trees are the same.
#![tactic(auto)]

use crate::fixtures::{extend, laid_over, make_dir, path, put, rename, small_tree};
use dc_attrs::{Keep, TreeError};
use dc_tree::MemTree;
use std::alloc::Global;
use std::test::Fail;

// Whether two parts are the same, with the attributes of these letters.
fn same(
    alloc: Global,
    tree: &MemTree,
    here: &str,
    other: &MemTree,
    there: &str,
    letters: &str,
) -> Result<bool, TreeError> {
    let Ok(keep) = Keep::read(letters) else {
        return Err(TreeError::Missing);
    };
    let here = path(alloc, here)?;
    let there = path(alloc, there)?;
    Ok(tree.same_under(&here, other, &there, &keep))
}

// The small tree with a file more.
fn with_file(alloc: Global, text: &str, content: &[u8]) -> Result<MemTree, TreeError> {
    let mut tree = small_tree(alloc)?;
    put(alloc, &mut tree, text, content)?;
    Ok(tree)
}

// The small tree with a directory more.
fn with_dir(alloc: Global, text: &str) -> Result<MemTree, TreeError> {
    let mut tree = small_tree(alloc)?;
    make_dir(alloc, &mut tree, text)?;
    Ok(tree)
}

#[test]
fn parts_differ_by_a_name_a_kind_or_a_byte(rt: HostRuntime) -> Result<(), Fail> {
    let alloc = rt.alloc();
    let tree = small_tree(alloc)?;
    let more = with_file(alloc, "/a/g", b"1")?;
    let byte = with_file(alloc, "/a/g", b"2")?;
    let dir = with_dir(alloc, "/a/g")?;
    for (one, other, is) in [
        (&tree, &tree, true),
        (&tree, &more, false),
        (&more, &tree, false),
        (&more, &byte, false),
        (&more, &dir, false),
    ] {
        assert_eq!(rt; same(alloc, one, "/", other, "/", ""), Ok(is));
    }
    Ok(())
}

#[test]
fn hidden_and_absent_paths_are_the_same(rt: HostRuntime) -> Result<(), Fail> {
    let alloc = rt.alloc();
    let tree = with_dir(alloc, "/b")?;
    let file = with_file(alloc, "/a/.snapshot", b"1")?;
    let byte = with_file(alloc, "/a/.snapshot", b"2")?;
    assert_eq!(rt; same(alloc, &tree, "/a", &file, "/a", "t"), Ok(true));
    assert_eq!(rt; same(alloc, &byte, "/", &file, "/", "t"), Ok(true));
    assert_eq!(rt; same(alloc, &tree, "/c", &file, "/a/f/g", "t"), Ok(true));
    assert_eq!(rt; same(alloc, &tree, "/b", &file, "/b", "t"), Ok(false));
    assert_eq!(rt; same(alloc, &tree, "/a", &tree, "/b", "t"), Ok(false));
    Ok(())
}

// Makes a directory that has the mode of a file.
fn make_odd_dir(alloc: Global, tree: &mut MemTree, text: &str) -> Result<(), TreeError> {
    let Ok(keep) = Keep::read("p") else {
        return Err(TreeError::Missing);
    };
    let path = path(alloc, text)?;
    let attrs = laid_over(alloc, &keep)?;
    if attrs.fits_dir() {
        tree.make_dir(alloc, &path, attrs)
    } else {
        Err(TreeError::Missing)
    }
}

// The small tree with such a directory more.
fn with_mode(alloc: Global, text: &str) -> Result<MemTree, TreeError> {
    let mut tree = small_tree(alloc)?;
    make_odd_dir(alloc, &mut tree, text)?;
    Ok(tree)
}

#[test]
fn kept_attributes_count_below_the_tops(rt: HostRuntime) -> Result<(), Fail> {
    let alloc = rt.alloc();
    let tree = with_dir(alloc, "/b")?;
    let mode = with_mode(alloc, "/b")?;
    assert_eq!(rt; same(alloc, &tree, "/", &mode, "/", "p"), Ok(false));
    assert_eq!(rt; same(alloc, &tree, "/", &mode, "/", "rbugxt"), Ok(true));
    assert_eq!(rt; same(alloc, &tree, "/b", &mode, "/b", "p"), Ok(true));
    Ok(())
}

#[test]
fn deep_parts_are_compared(rt: HostRuntime) -> Result<(), Fail> {
    let alloc = rt.alloc();
    let mut tree = small_tree(alloc)?;
    for _ in 0..5 {
        make_dir(alloc, &mut tree, "/b")?;
        rename(alloc, &mut tree, "/a", "/b/a")?;
        rename(alloc, &mut tree, "/b", "/a")?;
    }
    let mut other = tree.copy(alloc)?;
    assert_eq!(rt; same(alloc, &tree, "/a", &other, "/a", "t"), Ok(true));
    extend(alloc, &mut other, "/a/a/a/a/a/a/f", b"3")?;
    assert_eq!(rt; same(alloc, &tree, "/a", &other, "/a", "t"), Ok(false));
    assert_eq!(rt; same(alloc, &tree, "/a/a", &tree, "/a", "t"), Ok(false));
    Ok(())
}
