//! Paths, trees and comparisons that the examples share.
#![tactic(auto)]

use dc_attrs::{Attrs, Keep, TreeError, overlay};
use dc_path::{List, OutOfMemory, Path};
use dc_tree::MemTree;
use std::alloc::Global;

// The path of a text.
pub(crate) fn path(alloc: Global, text: &str) -> Result<Path, TreeError> {
    Path::read(alloc, text).map_err(|_| TreeError::Memory)
}

// Makes a directory with default attributes.
#[tactic(auto, using(dc_tree::proofs::FittingLemmas::default_dir_fits))]
pub(crate) fn make_dir(alloc: Global, tree: &mut MemTree, text: &str) -> Result<(), TreeError> {
    let path = path(alloc, text)?;
    tree.make_dir(alloc, &path, Attrs::default_dir(alloc))
}

// Puts a file with default attributes.
#[tactic(auto, using(dc_tree::proofs::FittingLemmas::default_file_fits))]
pub(crate) fn put(
    alloc: Global,
    tree: &mut MemTree,
    text: &str,
    content: &[u8],
) -> Result<(), TreeError> {
    let path = path(alloc, text)?;
    let mut bytes = Vec::new(alloc);
    bytes.extend_from_slice(content)?;
    tree.put(alloc, &path, List::of(bytes), Attrs::default_file(alloc))
}

// Whether a file of these bytes stands at a path.
pub(crate) fn has_bytes(
    alloc: Global,
    tree: &MemTree,
    text: &str,
    content: &[u8],
) -> Result<bool, TreeError> {
    let path = path(alloc, text)?;
    match tree.bytes(&path) {
        Some(bytes) => Ok(bytes == content),
        None => Ok(false),
    }
}

// Whether two attributes are the same in each field but the extended attributes, of which they have as many.
pub(crate) fn are_same(one: &Attrs, other: &Attrs) -> bool {
    one.replication() == other.replication()
        && one.block_size() == other.block_size()
        && one.user() == other.user()
        && one.group() == other.group()
        && one.mode() == other.mode()
        && one.acl() == other.acl()
        && one.xattrs().len() == other.xattrs().len()
        && one.mtime() == other.mtime()
}

// Adds bytes to a file.
pub(crate) fn extend(
    alloc: Global,
    tree: &mut MemTree,
    text: &str,
    content: &[u8],
) -> Result<(), TreeError> {
    let path = path(alloc, text)?;
    tree.extend(alloc, &path, content)
}

// Moves what stands at a path.
pub(crate) fn rename(
    alloc: Global,
    tree: &mut MemTree,
    from: &str,
    to: &str,
) -> Result<(), TreeError> {
    let from = path(alloc, from)?;
    let to = path(alloc, to)?;
    tree.rename(alloc, &from, &to)
}

// The tree of one directory with one file of two bytes.
pub(crate) fn small_tree(alloc: Global) -> Result<MemTree, TreeError> {
    let mut tree = MemTree::new(alloc)?;
    make_dir(alloc, &mut tree, "/a")?;
    put(alloc, &mut tree, "/a/f", b"1")?;
    extend(alloc, &mut tree, "/a/f", b"2")?;
    Ok(tree)
}

// A default directory's attributes with a default file's values at these letters.
pub(crate) fn laid_over(alloc: Global, keep: &Keep) -> Result<Attrs, OutOfMemory> {
    let file = Attrs::default_file(alloc);
    let dir = Attrs::default_dir(alloc);
    overlay(alloc, keep, &file, &dir)
}
