//! A source in memory of one file.
#![tactic(auto)]

use crate::fixtures::{make_dir, path, put};
use dc_attrs::TreeError;
use dc_fs::{ReadError, Store};
use dc_memfs::{Fails, MemSource};
use dc_tree::MemTree;
use std::alloc::Global;
use std::test::Fail;

// The tree of a directory with one file of three bytes.
fn small_tree(alloc: Global) -> Result<MemTree, TreeError> {
    let mut tree = MemTree::new(alloc)?;
    make_dir(alloc, &mut tree, "/s")?;
    put(alloc, &mut tree, "/s/f", b"abc")?;
    Ok(tree)
}

// Whether a source shows a file of this length at a path.
fn shows_file(alloc: Global, tree: &MemTree, text: &str, length: u64) -> Result<bool, TreeError> {
    let path = path(alloc, text)?;
    let none = Fails::none(alloc);
    let mut source = MemSource::new(tree, &none, &none);
    match source.status(alloc, &path) {
        Ok(status) => Ok(!status.dir && status.length == length),
        Err(_) => Ok(false),
    }
}

// Whether a source lists this name alone in a directory.
fn lists_one(alloc: Global, tree: &MemTree, text: &str, name: &str) -> Result<bool, TreeError> {
    let path = path(alloc, text)?;
    let none = Fails::none(alloc);
    let mut source = MemSource::new(tree, &none, &none);
    match source.list(alloc, &path) {
        Ok(names) => match names.as_slice() {
            [one] => Ok(one.as_str() == name),
            _ => Ok(false),
        },
        Err(_) => Ok(false),
    }
}

// Reads the one file from a place on.
fn read(alloc: Global, tree: &MemTree, at: u64, into: &mut [u8]) -> Result<usize, ReadError> {
    let path = path(alloc, "/s/f").map_err(|_| ReadError::Memory)?;
    let none = Fails::none(alloc);
    let mut source = MemSource::new(tree, &none, &none);
    source.read_at(alloc, &path, at, into)
}

#[test]
fn a_source_shows_and_lists_its_file(rt: HostRuntime) -> Result<(), Fail> {
    let alloc = rt.alloc();
    let tree = small_tree(alloc)?;
    assert_eq!(rt; shows_file(alloc, &tree, "/s/f", 3), Ok(true));
    assert_eq!(rt; lists_one(alloc, &tree, "/s", "f"), Ok(true));
    Ok(())
}

#[test]
fn a_read_gives_what_is_left_of_a_file(rt: HostRuntime) -> Result<(), Fail> {
    let alloc = rt.alloc();
    let tree = small_tree(alloc)?;
    let mut into = [0u8; 8];
    assert_eq!(rt; read(alloc, &tree, 1, &mut into), Ok(2));
    assert!(rt; into == *b"bc\0\0\0\0\0\0");
    assert_eq!(rt; read(alloc, &tree, 3, &mut into), Ok(0));
    assert_eq!(rt; read(alloc, &tree, 4, &mut into), Err(ReadError::Short));
    Ok(())
}
