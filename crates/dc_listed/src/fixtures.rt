//! Trees, words and texts that the examples share.
#![tactic(auto)]

use dc_attrs::{Attrs, TreeError};
use dc_path::{List, OutOfMemory, Path, Text};
use dc_tree::MemTree;
use std::alloc::Global;

// Makes a directory with default attributes.
#[tactic(auto, using(dc_tree::proofs::FittingLemmas::default_dir_fits))]
fn make_dir(alloc: Global, tree: &mut MemTree, text: &str) -> Result<(), TreeError> {
    let path = Path::read(alloc, text).map_err(|_| TreeError::Memory)?;
    tree.make_dir(alloc, &path, Attrs::default_dir(alloc))
}

// Puts an empty file with default attributes.
#[tactic(auto, using(dc_tree::proofs::FittingLemmas::default_file_fits))]
fn make_file(alloc: Global, tree: &mut MemTree, text: &str) -> Result<(), TreeError> {
    let path = Path::read(alloc, text).map_err(|_| TreeError::Memory)?;
    tree.put(
        alloc,
        &path,
        List::of(Vec::new(alloc)),
        Attrs::default_file(alloc),
    )
}

// Makes what the words of a line name, in their order: a directory where the word ends in `/`, and else a file.
fn make_all(alloc: Global, tree: &mut MemTree, line: &str) -> Result<(), TreeError> {
    for word in line.split(' ') {
        if word.ends_with('/') {
            make_dir(alloc, tree, word)?;
        } else {
            make_file(alloc, tree, word)?;
        }
    }
    Ok(())
}

// The tree of what the words of a line name.
pub(crate) fn tree_of(alloc: Global, line: &str) -> Result<MemTree, OutOfMemory> {
    let mut tree = MemTree::new(alloc).map_err(|_| OutOfMemory)?;
    make_all(alloc, &mut tree, line).map_err(|_| OutOfMemory)?;
    Ok(tree)
}

// The words of a line, between blanks.
pub(crate) fn words_of(alloc: Global, line: &str) -> Result<List<Text>, OutOfMemory> {
    let mut words = List::new(alloc);
    for word in line.split(' ') {
        if !word.is_empty() {
            let word = Text::read(alloc, word)?;
            words.add(word)?;
        }
    }
    Ok(words)
}
