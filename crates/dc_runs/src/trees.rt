//! Trees as lines of text.
//!
//! The words of a line are parted by blanks. A word that is a path is a directory, and `PATH=CONTENT` is a file; in a content
//! `;` stands for a line feed and `~` for a blank. `PATH=CONTENT!8` is a file with the block size 8. All other attributes are
//! the defaults. A directory comes before what is under it, and `-` is no path.
#![tactic(auto)]

use dc_attrs::{Attrs, Keep, TreeError};
use dc_path::{List, OutOfMemory, Path, Text, read_number};
use dc_tree::MemTree;
use std::alloc::Global;

/// The path of a text.
pub(crate) fn path(alloc: Global, text: &str) -> Result<Path, TreeError> {
    Path::read(alloc, text).map_err(|_| TreeError::Memory)
}

/// Makes a directory with default attributes.
#[tactic(auto, using(dc_tree::proofs::FittingLemmas::default_dir_fits))]
pub(crate) fn make_dir(alloc: Global, tree: &mut MemTree, text: &str) -> Result<(), TreeError> {
    let path = path(alloc, text)?;
    tree.make_dir(alloc, &path, Attrs::default_dir(alloc))
}

// The byte for which a byte of a content stands.
fn meant(byte: u8) -> u8 {
    match byte {
        b';' => b'\n',
        b'~' => b' ',
        _ => byte,
    }
}

/// The bytes of a content.
pub(crate) fn bytes_of(alloc: Global, content: &str) -> Result<List<u8>, OutOfMemory> {
    let mut bytes = List::new(alloc);
    for byte in content.as_bytes() {
        bytes.add(meant(*byte))?;
    }
    Ok(bytes)
}

// Default attributes of a file, but for the block size.
fn with_block(alloc: Global, block: u64) -> Result<Attrs, TreeError> {
    let none = || Text::read(alloc, "");
    let (Ok(user), Ok(group), Ok(acl)) = (none(), none(), none()) else {
        return Err(TreeError::Memory);
    };
    Attrs::new(3, block, user, group, 0o644, acl, List::new(alloc), 0).map_err(
        |_| TreeError::Memory,
    )
}

// The attributes of a file, by what stands behind the `!` of its word.
fn attrs_of(alloc: Global, block: Option<&str>) -> Result<Attrs, TreeError> {
    let Some(block) = block else {
        return Ok(Attrs::default_file(alloc));
    };
    match read_number(block.as_bytes(), 1, 1 << 40) {
        Some(block) => with_block(alloc, block),
        None => Err(TreeError::Memory),
    }
}

// Puts a file.
#[tactic(auto, using(dc_tree::proofs::FittingLemmas::default_file_fits))]
fn put(alloc: Global, tree: &mut MemTree, text: &str, content: &str) -> Result<(), TreeError> {
    let (content, block) = match content.split_once('!') {
        Some((content, block)) => (content, Some(block)),
        None => (content, None),
    };
    let path = path(alloc, text)?;
    let bytes = bytes_of(alloc, content)?;
    let attrs = attrs_of(alloc, block)?;
    if !attrs.fits_file() {
        return Err(TreeError::Memory);
    }
    tree.put(alloc, &path, bytes, attrs)
}

// Makes what a word names.
fn make(alloc: Global, tree: &mut MemTree, word: &str) -> Result<(), TreeError> {
    if word == "-" {
        return Ok(());
    }
    match word.split_once('=') {
        Some((path, content)) => put(alloc, tree, path, content),
        None => make_dir(alloc, tree, word),
    }
}

/// The tree of the words of a line, under the root.
pub(crate) fn tree_of(alloc: Global, line: &str) -> Result<MemTree, TreeError> {
    let mut tree = MemTree::new(alloc)?;
    for word in line.split(' ') {
        make(alloc, &mut tree, word)?;
    }
    Ok(tree)
}

/// Whether two trees are the same, with all attributes but those of the root. What is in snapshots is not compared.
pub(crate) fn is_same_tree(alloc: Global, tree: &MemTree, wanted: &MemTree) -> bool {
    let root = Path::root(alloc);
    match Keep::read("rbugpaxt") {
        Ok(all) => tree.same_under(&root, wanted, &root, &all),
        Err(_) => false,
    }
}

/// Whether a tree is that of a line.
pub(crate) fn is_tree_of(alloc: Global, tree: &MemTree, line: &str) -> Result<bool, TreeError> {
    let wanted = tree_of(alloc, line)?;
    Ok(is_same_tree(alloc, tree, &wanted))
}
