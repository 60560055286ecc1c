//! Options, items and stores that the examples share.
#![tactic(auto)]

use dc_attrs::{Attrs, TreeError};
use dc_filter::Filter;
use dc_listing::{Item, Root, list};
use dc_memfs::{Fails, MemSource, MemTarget};
use dc_options::Options;
use dc_path::{List, OutOfMemory, Path, Text};
use dc_tree::MemTree;
use std::alloc::Global;

// A path of a text.
pub(crate) fn path_of(alloc: Global, text: &str) -> Result<Path, OutOfMemory> {
    Path::read(alloc, text).map_err(|_| OutOfMemory)
}

// Makes a directory with default attributes.
#[tactic(auto, using(dc_tree::proofs::FittingLemmas::default_dir_fits))]
fn make_dir(alloc: Global, tree: &mut MemTree, text: &str) -> Result<(), TreeError> {
    let path = Path::read(alloc, text).map_err(|_| TreeError::Memory)?;
    tree.make_dir(alloc, &path, Attrs::default_dir(alloc))
}

// Puts a file with default attributes.
#[tactic(auto, using(dc_tree::proofs::FittingLemmas::default_file_fits))]
fn put(alloc: Global, tree: &mut MemTree, text: &str, content: &str) -> Result<(), TreeError> {
    let path = Path::read(alloc, text).map_err(|_| TreeError::Memory)?;
    let mut bytes = Vec::new(alloc);
    bytes.extend_from_slice(content.as_bytes())?;
    tree.put(alloc, &path, List::of(bytes), Attrs::default_file(alloc))
}

// Makes at a path what a word says: nothing for `-`, a directory for `/`, and else a file, of no bytes for `empty` and of the
// word's own bytes for every other.
fn make(alloc: Global, tree: &mut MemTree, text: &str, word: &str) -> Result<(), TreeError> {
    match word {
        "-" => Ok(()),
        "/" => make_dir(alloc, tree, text),
        "empty" => put(alloc, tree, text, ""),
        _ => put(alloc, tree, text, word),
    }
}

// Makes what the target has: a file in the place of its directory for `blocked`, and else what the word says below it.
fn make_target(alloc: Global, tree: &mut MemTree, word: &str) -> Result<(), TreeError> {
    if word == "blocked" {
        return put(alloc, tree, "/d", "");
    }
    make_dir(alloc, tree, "/d")?;
    make(alloc, tree, "/d/f", word)
}

// The tree of a source that has at `/f` what a word says.
pub(crate) fn source_tree(alloc: Global, word: &str) -> Result<MemTree, OutOfMemory> {
    let mut tree = MemTree::new(alloc).map_err(|_| OutOfMemory)?;
    make(alloc, &mut tree, "/f", word).map_err(|_| OutOfMemory)?;
    Ok(tree)
}

// The tree of a target that has at `/d/f` what a word says.
fn target_tree(alloc: Global, word: &str) -> Result<MemTree, OutOfMemory> {
    let mut tree = MemTree::new(alloc).map_err(|_| OutOfMemory)?;
    make_target(alloc, &mut tree, word).map_err(|_| OutOfMemory)?;
    Ok(tree)
}

// The target of that tree, on which these calls fail.
pub(crate) fn target_of(alloc: Global, word: &str, own: Fails) -> Result<MemTarget, OutOfMemory> {
    let tree = target_tree(alloc, word)?;
    Ok(MemTarget::new(alloc, tree, own, Fails::none(alloc)))
}

// Adds a word.
fn add_word(alloc: Global, words: &mut List<Text>, word: &str) -> Result<(), OutOfMemory> {
    let word = Text::read(alloc, word)?;
    words.add(word)?;
    Ok(())
}

// The words of a copy of `/f` to `/d` with the options of a line, between blanks.
fn words_of(alloc: Global, line: &str) -> Result<List<Text>, OutOfMemory> {
    let mut words = List::new(alloc);
    for word in line.split(' ') {
        if !word.is_empty() {
            add_word(alloc, &mut words, word)?;
        }
    }
    add_word(alloc, &mut words, "/f")?;
    add_word(alloc, &mut words, "/d")?;
    Ok(words)
}

// The options of a copy of `/f` to `/d` with those of a line.
pub(crate) fn options_of(alloc: Global, line: &str) -> Result<Options, OutOfMemory> {
    let words = words_of(alloc, line)?;
    Options::read(alloc, words.as_slice()).map_err(|_| OutOfMemory)
}

// The source `/f`, put below the target under its own name.
fn roots(alloc: Global) -> Result<List<Root>, OutOfMemory> {
    let source = path_of(alloc, "/f")?;
    let prefix = path_of(alloc, "/f")?;
    let mut roots = List::new(alloc);
    roots.add(Root { source, prefix })?;
    Ok(roots)
}

// What roots list in a tree, for the target `/d`.
fn listed(
    alloc: Global,
    tree: &MemTree,
    roots: &List<Root>,
    filter: &Filter,
) -> Result<List<Item>, OutOfMemory> {
    let none = Fails::none(alloc);
    let mut source = MemSource::new(tree, &none, &none);
    let base = path_of(alloc, "/d")?;
    let mut searches = filter.searches(alloc)?;
    list(alloc, &mut source, roots, &mut searches, &base).map_err(|_| OutOfMemory)
}

// The item that `/f` is listed as.
pub(crate) fn item_of(alloc: Global, tree: &MemTree) -> Result<Item, OutOfMemory> {
    let roots = roots(alloc)?;
    let filter = Filter::none(alloc);
    let items = listed(alloc, tree, &roots, &filter)?;
    items.into_vec().pop().ok_or(OutOfMemory)
}
