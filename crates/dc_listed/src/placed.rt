//! Where sources are put, by the options, by what stands at them, and by what stands at the target.
#![tactic(auto)]

use crate::fixtures::{tree_of, words_of};
use dc_attrs::Seen;
use dc_listing::{ListError, Root, roots};
use dc_memfs::{Fail, Fails, MemSource, Which};
use dc_options::Options;
use dc_path::{List, OutOfMemory, Path};
use dc_tree::MemTree;
use std::alloc::Global;
use std::test::Fail as Failed;

// What stands in the source.
const TREE: &str =
    "/s/ /s/a /s/.snapshot/ /s/.snapshot/s1/ /s/.snapshot/s2/ /s/.snapshot/f /f /p/ /p/q/";

// Each line has what stands at the target, the words, and behind `= ` the roots or why there are none.
const CASES: &str = "\
nothing /s /d = /s at .
directory /s /d = /s at ./s
file /s /d = /s at ./s
blocked /s /d = /s at .
directory -update /s /d = /s at .
directory -overwrite /s /d = /s at .
file -update /s /d = /s at .
nothing /f /d = /f at .
file /f /d = /f at .
blocked /f /d = /f at .
directory /f /d = /f at ./f
directory -update /f /d = /f at ./f
file -update /f /d = /f at .
nothing /s /f /d = /s at ./s /f at ./f
nothing -update /s /f /d = /s at . /f at ./f
file -overwrite /f /s/a /d = /f at ./f /s/a at ./a
nothing / /d = / at .
directory / /d = / at .
directory / /p/q /d = / at . /p/q at ./q
nothing /p /p /d = /p at ./p /p at ./p
nothing /x /d = no source /x
nothing /s /x /y /d = no source /x
nothing /f/x /d = no source /f/x
directory -update -diff s1 s2 /s /d = /s/.snapshot/s2 at .
directory -update -rdiff s2 s1 /s /d = /s/.snapshot/s1 at .
directory -update -diff s1 s3 /s /d = no source /s/.snapshot/s3
directory -update -diff s1 f /s /d = no source /s/.snapshot/f
directory -update -rdiff s2 s1 /x /d = no source /x/.snapshot/s1
directory -update -diff s1 s2 /f /d = no source /f/.snapshot/s2
";

// What a word says of the target.
fn seen_by(word: &str) -> Seen {
    match word {
        "directory" => Seen::Dir,
        "file" => Seen::File { length: 0 },
        "blocked" => Seen::NotDir,
        _ => Seen::Missing,
    }
}

// Adds a root to a text.
fn add_root(text: &mut String, root: &Root) -> Result<(), OutOfMemory> {
    let alloc = *text.allocator();
    let source = root.source.text(alloc)?;
    let prefix = root.prefix.dotted(alloc)?;
    text.push_str(source.as_str())?;
    text.push_str(" at ")?;
    text.push_str(prefix.as_str())?;
    text.push_str(" ")?;
    Ok(())
}

// The text of roots.
fn text_of(alloc: Global, roots: &List<Root>) -> Result<String, OutOfMemory> {
    let mut text = String::new(alloc);
    for root in roots.as_slice() {
        add_root(&mut text, root)?;
    }
    Ok(text)
}

// Adds a path to a text.
fn with_path(alloc: Global, says: &str, path: &Path) -> Result<String, OutOfMemory> {
    let mut text = String::from_str(alloc, says)?;
    let path = path.text(alloc)?;
    text.push_str(path.as_str())?;
    Ok(text)
}

// The text of a refusal.
fn refusal(alloc: Global, error: &ListError) -> Result<String, OutOfMemory> {
    match error {
        ListError::NoSource { path } => with_path(alloc, "no source ", path),
        ListError::TooLong { .. } => Ok(String::from_str(alloc, "too long")?),
        ListError::Fault => Ok(String::from_str(alloc, "fault")?),
        _ => Ok(String::from_str(alloc, "other")?),
    }
}

// Where a line's sources are put.
fn answer(
    alloc: Global,
    tree: &MemTree,
    own: &Fails,
    target: Seen,
    words: &str,
) -> Result<String, OutOfMemory> {
    let words = words_of(alloc, words)?;
    let Ok(options) = Options::read(alloc, words.as_slice()) else {
        return Err(OutOfMemory);
    };
    let sources = options.copy_sources(alloc)?;
    let none = Fails::none(alloc);
    let mut source = MemSource::new(tree, own, &none);
    match roots(alloc, &mut source, &options, &sources, target) {
        Ok(roots) => text_of(alloc, &roots),
        Err(error) => refusal(alloc, &error),
    }
}

// Whether the sources of a line are put as it says.
fn is_put(alloc: Global, tree: &MemTree, line: &str) -> Result<bool, OutOfMemory> {
    let Some((case, expected)) = line.split_once(" = ") else {
        return Ok(false);
    };
    let Some((target, words)) = case.split_once(" ") else {
        return Ok(false);
    };
    let own = Fails::none(alloc);
    let text = answer(alloc, tree, &own, seen_by(target), words)?;
    Ok(text.as_str().trim() == expected)
}

#[test]
fn sources_are_put_by_the_table(rt: HostRuntime) -> Result<(), Failed> {
    let tree = tree_of(rt.alloc(), TREE)?;
    for line in CASES.lines() {
        assert_eq!(rt; is_put(rt.alloc(), &tree, line), Ok(true), "{line}");
    }
    Ok(())
}

// Whether the second look fails the call, as a fault.
fn second_look_fails(alloc: Global) -> Result<bool, OutOfMemory> {
    let tree = tree_of(alloc, TREE)?;
    let mut list = List::new(alloc);
    list.add(Fail {
        which: Which::Kind,
        nth: 2,
        done: false,
        then_all: false,
    })?;
    let own = Fails::new(alloc, list);
    let text = answer(alloc, &tree, &own, Seen::Missing, "/s /f /d")?;
    Ok(text.as_str() == "fault")
}

#[test]
fn a_look_that_fails_is_a_fault(rt: HostRuntime) -> Result<(), Failed> {
    assert_eq!(rt; second_look_fails(rt.alloc()), Ok(true));
    Ok(())
}

// Words with a source of so many names, read at a snapshot.
fn deep_words(alloc: Global, names: usize) -> Result<String, OutOfMemory> {
    let mut words = String::from_str(alloc, "-update -diff s1 s2 ")?;
    for _ in 0..names {
        words.push_str("/n")?;
    }
    words.push_str(" /d")?;
    Ok(words)
}

// The refusal of a source of so many names, read at a snapshot.
fn deep_refusal(alloc: Global, names: usize) -> Result<String, OutOfMemory> {
    let tree = tree_of(alloc, "/n/")?;
    let words = deep_words(alloc, names)?;
    let own = Fails::none(alloc);
    answer(alloc, &tree, &own, Seen::Missing, words.as_str())
}

// Whether the path of a snapshot passes the limits behind a source of so many names.
fn is_too_long(alloc: Global, names: usize) -> Result<bool, OutOfMemory> {
    let text = deep_refusal(alloc, names)?;
    Ok(text.as_str() == "too long")
}

#[test]
fn the_path_of_a_snapshot_has_at_most_256_names(rt: HostRuntime) -> Result<(), Failed> {
    assert_eq!(rt; is_too_long(rt.alloc(), 254), Ok(false));
    assert_eq!(rt; is_too_long(rt.alloc(), 255), Ok(true));
    assert_eq!(rt; is_too_long(rt.alloc(), 256), Ok(true));
    Ok(())
}
