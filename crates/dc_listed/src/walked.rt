//! What the walk of a root adds, by what a filter excludes and by what is left out.
#![tactic(auto)]

use crate::fixtures::tree_of;
use dc_filter::{Filter, RegexPatterns};
use dc_listing::{Item, ListError, Root, walk};
use dc_memfs::{Fails, MemSource};
use dc_path::{List, OutOfMemory, Path};
use dc_tree::MemTree;
use std::alloc::Global;
use std::test::Fail as Failed;

// What stands in the source.
const TREE: &str = "/s/ /s/a/ /s/a/x /s/a.b /s/b /s/c/ /s/c/.snapshot/ /s/c/.snapshot/t/ /f";

// Each line has a source, its path under the target, a pattern, a path that is left out, and behind `= ` the items.
const CASES: &str = "\
/s / - - = ./a ./a/x ./a.b ./b ./c
/s /s - - = ./s ./s/a ./s/a/x ./s/a.b ./s/b ./s/c
/f / - - = .
/f /f - - = ./f
/s /s /s - =
/s / /s - = ./a ./a/x ./a.b ./b ./c
/f / /f - =
/s /s /s/a - = ./s ./s/a.b ./s/b ./s/c
/s / .*/a - = ./a.b ./b ./c
/s /s .*/x - = ./s ./s/a ./s/a.b ./s/b ./s/c
/s / .* - =
/s /s .* - =
/s / - /a = ./a.b ./b ./c
/s / - / =
/s /s - /s =
/s /s - /a = ./s ./s/a ./s/a/x ./s/a.b ./s/b ./s/c
/x / - - = refused
";

// A path of a word.
fn path_of(alloc: Global, word: &str) -> Result<Path, OutOfMemory> {
    Path::read(alloc, word).map_err(|_| OutOfMemory)
}

// The filter of a word: one pattern, and none for `-`.
fn filter_of(alloc: Global, word: &str) -> Result<Filter, OutOfMemory> {
    if word == "-" {
        return Ok(Filter::none(alloc));
    }
    Filter::read(alloc, word.as_bytes(), &mut RegexPatterns::new(None)).map_err(|_| OutOfMemory)
}

// The list of a word: one path, and none for `-`.
fn paths_of(alloc: Global, word: &str) -> Result<List<Path>, OutOfMemory> {
    let mut paths = List::new(alloc);
    if word != "-" {
        let path = path_of(alloc, word)?;
        paths.add(path)?;
    }
    Ok(paths)
}

// The text of items, a blank before each.
fn text_of(alloc: Global, items: &List<Item>) -> Result<String, OutOfMemory> {
    let mut text = String::new(alloc);
    for item in items.as_slice() {
        let rel = item.rel().dotted(alloc)?;
        text.push_str(" ")?;
        text.push_str(rel.as_str())?;
    }
    Ok(text)
}

// What a walk adds, as a text.
fn walked(
    alloc: Global,
    tree: &MemTree,
    root: &Root,
    filter: &Filter,
    without: &List<Path>,
) -> Result<String, OutOfMemory> {
    let none = Fails::none(alloc);
    let mut source = MemSource::new(tree, &none, &none);
    let base = path_of(alloc, "/d")?;
    let mut searches = filter.searches(alloc)?;
    let mut items = List::new(alloc);
    match walk(
        alloc,
        &mut source,
        root,
        without,
        &mut searches,
        &base,
        &mut items,
    ) {
        Ok(()) => text_of(alloc, &items),
        Err(ListError::Memory) => Err(OutOfMemory),
        Err(_) => Ok(String::from_str(alloc, " refused")?),
    }
}

// Whether a walk adds what the line says.
fn is_walked(alloc: Global, tree: &MemTree, line: &str) -> Result<bool, OutOfMemory> {
    let Some((case, expected)) = line.split_once(" =") else {
        return Ok(false);
    };
    let mut words = case.split(' ');
    let (Some(source), Some(prefix), Some(pattern), Some(left_out)) = (
        words.next(),
        words.next(),
        words.next(),
        words.next(),
    ) else {
        return Ok(false);
    };
    let root = Root {
        source: path_of(alloc, source)?,
        prefix: path_of(alloc, prefix)?,
    };
    let filter = filter_of(alloc, pattern)?;
    let without = paths_of(alloc, left_out)?;
    let text = walked(alloc, tree, &root, &filter, &without)?;
    Ok(text.as_str() == expected)
}

#[test]
fn roots_are_walked_by_the_table(rt: HostRuntime) -> Result<(), Failed> {
    let tree = tree_of(rt.alloc(), TREE)?;
    for line in CASES.lines() {
        assert_eq!(rt; is_walked(rt.alloc(), &tree, line), Ok(true), "{line}");
    }
    Ok(())
}
