//! What all roots list: in which order, what a filter leaves out, and which two are refused where one path is listed twice.
#![tactic(auto)]

use crate::fixtures::tree_of;
use dc_filter::{Filter, RegexPatterns};
use dc_listing::{Item, ListError, Root, list};
use dc_memfs::{Fails, MemSource};
use dc_path::{List, OutOfMemory, Path};
use dc_tree::MemTree;
use std::alloc::Global;
use std::test::Fail as Failed;

// What stands in the source.
const TREE: &str = "/s/ /s/a/ /s/a/x /s/a.b /s/b /t/ /t/a/ /t/a/w /t/c /t/b /u/ /u/b /u/a/ /u/z /f";

// Each line has a pattern, roots as a source and a path under the target, and behind `= ` the items by their source paths, or
// the path that is listed twice and the first two that are put there.
const CASES: &str = "\
- =
- /s:/ = /s/a /s/a/x /s/a.b /s/b
- /s:/s /t:/t = /s /s/a /s/a/x /s/a.b /s/b /t /t/a /t/a/w /t/b /t/c
- /t:/t /s:/s = /s /s/a /s/a/x /s/a.b /s/b /t /t/a /t/a/w /t/b /t/c
- /t:/b /s:/a = /s /s/a /s/a/x /s/a.b /s/b /t /t/a /t/a/w /t/b /t/c
- /s:/ /f:/f = /s/a /s/a/x /s/a.b /s/b /f
- /f:/a.c /s:/ = /s/a /s/a/x /s/a.b /f /s/b
- /s:/ /t:/ = twice ./a /s/a /t/a
- /t:/ /s:/ = twice ./a /t/a /s/a
- /u:/ /t:/ /s:/ = twice ./a /u/a /t/a
- /s:/p /s:/p = twice ./p /s /s
- /f:/a/x /s:/ = twice ./a/x /f /s/a/x
.*/a /s:/ /t:/ = twice ./b /s/b /t/b
.*/a /s:/ /t:/t = /s/a.b /s/b /t /t/b /t/c
.*/[ab] /s:/ /t:/ = /s/a.b /t/c
.* /s:/s /t:/ =
- /s:/ /x:/ = changed /x
- /x:/ /s:/ /t:/ = changed /x
";

// A path of a word.
fn path_of(alloc: Global, word: &str) -> Result<Path, OutOfMemory> {
    Path::read(alloc, word).map_err(|_| OutOfMemory)
}

// The filter of a word: one pattern, and none for `-`.
fn filter_of(alloc: Global, word: &str) -> Result<Filter, OutOfMemory> {
    if word == "-" {
        return Ok(Filter::none(alloc));
    }
    Filter::read(alloc, word.as_bytes(), &mut RegexPatterns::new(None)).map_err(|_| OutOfMemory)
}

// A root of two words.
fn root_of(alloc: Global, source: &str, prefix: &str) -> Result<Root, OutOfMemory> {
    let source = path_of(alloc, source)?;
    let prefix = path_of(alloc, prefix)?;
    Ok(Root { source, prefix })
}

// The roots of the words of a line that have a colon between the source and the path under the target.
fn roots_of(alloc: Global, line: &str) -> Result<List<Root>, OutOfMemory> {
    let mut roots = List::new(alloc);
    for word in line.split(' ') {
        if let Some((source, prefix)) = word.split_once(':') {
            let root = root_of(alloc, source, prefix)?;
            roots.add(root)?;
        }
    }
    Ok(roots)
}

// Adds a path to a text, behind a blank.
fn add_path(text: &mut String, path: &Path) -> Result<(), OutOfMemory> {
    let path = path.text(*text.allocator())?;
    text.push_str(" ")?;
    text.push_str(path.as_str())?;
    Ok(())
}

// The text of items.
fn text_of(alloc: Global, items: &List<Item>) -> Result<String, OutOfMemory> {
    let mut text = String::new(alloc);
    for item in items.as_slice() {
        add_path(&mut text, item.from())?;
    }
    Ok(text)
}

// The text of a path that is listed twice.
fn twice(alloc: Global, rel: &Path, first: &Path, second: &Path) -> Result<String, OutOfMemory> {
    let mut text = String::from_str(alloc, " twice ")?;
    let rel = rel.dotted(alloc)?;
    text.push_str(rel.as_str())?;
    add_path(&mut text, first)?;
    add_path(&mut text, second)?;
    Ok(text)
}

// The text of a path that the store denies.
fn changed(alloc: Global, path: &Path) -> Result<String, OutOfMemory> {
    let mut text = String::from_str(alloc, " changed")?;
    add_path(&mut text, path)?;
    Ok(text)
}

// The text of a refusal.
fn refusal(alloc: Global, error: &ListError) -> Result<String, OutOfMemory> {
    match error {
        ListError::Duplicate { rel, first, second } => twice(alloc, rel, first, second),
        ListError::Changed { path } => changed(alloc, path),
        _ => Ok(String::from_str(alloc, " other")?),
    }
}

// What roots list, as a text.
fn listed(
    alloc: Global,
    tree: &MemTree,
    roots: &List<Root>,
    filter: &Filter,
) -> Result<String, OutOfMemory> {
    let none = Fails::none(alloc);
    let mut source = MemSource::new(tree, &none, &none);
    let base = path_of(alloc, "/d")?;
    let mut searches = filter.searches(alloc)?;
    match list(alloc, &mut source, roots, &mut searches, &base) {
        Ok(items) => text_of(alloc, &items),
        Err(error) => refusal(alloc, &error),
    }
}

// Whether the roots of a line list what it says.
fn is_listed(alloc: Global, tree: &MemTree, line: &str) -> Result<bool, OutOfMemory> {
    let Some((case, expected)) = line.split_once(" =") else {
        return Ok(false);
    };
    let Some(pattern) = case.split(' ').next() else {
        return Ok(false);
    };
    let roots = roots_of(alloc, case)?;
    let filter = filter_of(alloc, pattern)?;
    let text = listed(alloc, tree, &roots, &filter)?;
    Ok(text.as_str() == expected)
}

#[test]
fn roots_are_listed_by_the_table(rt: HostRuntime) -> Result<(), Failed> {
    let tree = tree_of(rt.alloc(), TREE)?;
    for line in CASES.lines() {
        assert_eq!(rt; is_listed(rt.alloc(), &tree, line), Ok(true), "{line}");
    }
    Ok(())
}
