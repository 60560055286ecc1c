//! Trees and options that the examples share.
#![tactic(auto)]

use dc_attrs::{Attrs, TreeError};
use dc_options::Options;
use dc_path::{List, OutOfMemory, Path, Text};
use dc_tree::MemTree;
use std::alloc::Global;

// Makes a directory with default attributes.
#[tactic(auto, using(dc_tree::proofs::FittingLemmas::default_dir_fits))]
fn make_dir(alloc: Global, tree: &mut MemTree, text: &str) -> Result<(), TreeError> {
    let path = Path::read(alloc, text).map_err(|_| TreeError::Memory)?;
    tree.make_dir(alloc, &path, Attrs::default_dir(alloc))
}

// The byte for which a byte of a content stands: `;` for a line feed and `_` for a blank.
fn meant(byte: u8) -> u8 {
    match byte {
        b';' => b'\n',
        b'_' => b' ',
        _ => byte,
    }
}

// The bytes of a content.
fn bytes_of(alloc: Global, content: &str) -> Result<List<u8>, OutOfMemory> {
    let mut bytes = List::new(alloc);
    for byte in content.as_bytes() {
        bytes.add(meant(*byte))?;
    }
    Ok(bytes)
}

// Puts a file with default attributes.
#[tactic(auto, using(dc_tree::proofs::FittingLemmas::default_file_fits))]
fn put(alloc: Global, tree: &mut MemTree, text: &str, content: &str) -> Result<(), TreeError> {
    let path = Path::read(alloc, text).map_err(|_| TreeError::Memory)?;
    let bytes = bytes_of(alloc, content).map_err(|_| TreeError::Memory)?;
    tree.put(alloc, &path, bytes, Attrs::default_file(alloc))
}

// Makes what a word names: a file of the bytes behind `=` where it has one, and else a directory; nothing for `-`.
fn make(alloc: Global, tree: &mut MemTree, word: &str) -> Result<(), TreeError> {
    if word == "-" {
        return Ok(());
    }
    match word.split_once('=') {
        Some((path, content)) => put(alloc, tree, path, content),
        None => make_dir(alloc, tree, word),
    }
}

// Makes what the words of a line name, in their order.
fn make_all(alloc: Global, tree: &mut MemTree, line: &str) -> Result<(), TreeError> {
    for word in line.split(' ') {
        make(alloc, tree, word)?;
    }
    Ok(())
}

// The tree of what the words of a line name.
pub(crate) fn tree_of(alloc: Global, line: &str) -> Result<MemTree, OutOfMemory> {
    let mut tree = MemTree::new(alloc).map_err(|_| OutOfMemory)?;
    make_all(alloc, &mut tree, line).map_err(|_| OutOfMemory)?;
    Ok(tree)
}

// The words of a line, between blanks.
fn words_of(alloc: Global, line: &str) -> Result<List<Text>, OutOfMemory> {
    let mut words = List::new(alloc);
    for word in line.split(' ') {
        let word = Text::read(alloc, word)?;
        words.add(word)?;
    }
    Ok(words)
}

// The options of the words of a line.
pub(crate) fn options_of(alloc: Global, line: &str) -> Result<Options, OutOfMemory> {
    let words = words_of(alloc, line)?;
    Options::read(alloc, words.as_slice()).map_err(|_| OutOfMemory)
}
