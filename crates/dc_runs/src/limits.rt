//! Runs with paths at their limits.
#![tactic(auto)]

use crate::runs::{Ran, run, run_from};
use crate::trees::{make_dir, path};
use dc_attrs::TreeError;
use dc_engine::Outcome;
use dc_options::OptionError;
use dc_path::OutOfMemory;
use dc_tree::MemTree;
use std::alloc::Global;
use std::test::Fail;
use std::thread::Threads;

const SOURCE: &str = "/s /s/b /s/b/c=1";

// A text so many times.
fn repeated(alloc: Global, text: &str, times: usize) -> Result<String, OutOfMemory> {
    let mut whole = String::new(alloc);
    for _ in 0..times {
        whole.push_str(text)?;
    }
    Ok(whole)
}

// Whether the run was refused for a word that is no path.
fn is_bad_path(ran: &Ran) -> bool {
    matches!(
        &ran.answer.outcome,
        Outcome::BadOption {
            error: OptionError::BadPath { .. }
        }
    )
}

// Whether a run of these words is refused for a word that is no path.
fn is_refused_of<R: Threads + Sync>(rt: &R, alloc: Global, words: &str) -> Result<bool, TreeError> {
    let ran = run(rt, alloc, SOURCE, "-", words, None)?;
    Ok(is_bad_path(&ran))
}

// Whether a path as a source is no path; one that is a path is no source.
fn is_refused<R: Threads + Sync>(rt: &R, alloc: Global, text: &str) -> Result<bool, TreeError> {
    let mut words = String::from_str(alloc, text)?;
    words.push_str(" /d")?;
    is_refused_of(rt, alloc, words.as_str())
}

// Whether so many names are too many.
fn is_too_deep<R: Threads + Sync>(rt: &R, alloc: Global, names: usize) -> Result<bool, TreeError> {
    let text = repeated(alloc, "/x", names)?;
    is_refused(rt, alloc, text.as_str())
}

// Whether a name of so many bytes is too long.
fn is_long_name<R: Threads + Sync>(rt: &R, alloc: Global, bytes: usize) -> Result<bool, TreeError> {
    let mut text = String::from_str(alloc, "/")?;
    text.push_str(repeated(alloc, "n", bytes)?.as_str())?;
    is_refused(rt, alloc, text.as_str())
}

// The text of 15 names of 255 bytes.
fn front(alloc: Global) -> Result<String, OutOfMemory> {
    let mut name = String::from_str(alloc, "/")?;
    name.push_str(repeated(alloc, "n", 255)?.as_str())?;
    repeated(alloc, name.as_str(), 15)
}

// Whether the path of 15 names of 255 bytes, this text and so many bytes is too long. The names alone have 3,840 bytes.
fn is_long_path<R: Threads + Sync>(
    rt: &R,
    alloc: Global,
    between: &str,
    last: usize,
) -> Result<bool, TreeError> {
    let mut text = front(alloc)?;
    text.push_str(between)?;
    text.push_str(repeated(alloc, "n", last)?.as_str())?;
    is_refused(rt, alloc, text.as_str())
}

#[test]
fn a_path_is_a_word_up_to_its_limits(rt: HostRuntime) -> Result<(), Fail> {
    let alloc = rt.alloc();
    assert_eq!(rt; is_too_deep(&rt, alloc, 256), Ok(false));
    assert_eq!(rt; is_too_deep(&rt, alloc, 257), Ok(true));
    assert_eq!(rt; is_long_name(&rt, alloc, 255), Ok(false));
    assert_eq!(rt; is_long_name(&rt, alloc, 256), Ok(true));
    Ok(())
}

#[test]
fn a_text_of_4096_bytes_is_a_path_and_one_more_is_none(rt: HostRuntime) -> Result<(), Fail> {
    let alloc = rt.alloc();
    assert_eq!(rt; is_long_path(&rt, alloc, "/", 255), Ok(false));
    assert_eq!(rt; is_long_path(&rt, alloc, "/n/", 253), Ok(false));
    assert_eq!(rt; is_long_path(&rt, alloc, "/n/", 254), Ok(true));
    Ok(())
}

// Whether the run was refused for the path of this name in a directory with so many names under this path.
fn is_too_long(
    alloc: Global,
    ran: &Ran,
    under: &str,
    names: usize,
    last: &str,
) -> Result<bool, TreeError> {
    let front = path(alloc, under)?;
    match &ran.answer.outcome {
        Outcome::TooLong { parent, name } => Ok(
            parent.starts_with(&front) && parent.len() == names && name.as_str() == last,
        ),
        _ => Ok(false),
    }
}

// The words of a run to a target of 255 names.
fn deep_words(alloc: Global) -> Result<String, OutOfMemory> {
    let mut words = String::from_str(alloc, "/s ")?;
    words.push_str(repeated(alloc, "/x", 255)?.as_str())?;
    Ok(words)
}

// Whether a run of these words to a deep target is refused for a path in it.
fn is_long_under<R: Threads + Sync>(rt: &R, alloc: Global, words: &str) -> Result<bool, TreeError> {
    let ran = run(rt, alloc, SOURCE, "-", words, None)?;
    is_too_long(alloc, &ran, "/x/x", 256, "c")
}

// Whether a target of 255 names is too deep for what is listed.
fn is_long_in_the_target<R: Threads + Sync>(rt: &R, alloc: Global) -> Result<bool, TreeError> {
    let words = deep_words(alloc)?;
    is_long_under(rt, alloc, words.as_str())
}

// Makes a directory, and a chain of so many directories under it; answers the last.
fn make_chain(
    alloc: Global,
    tree: &mut MemTree,
    top: &str,
    names: usize,
) -> Result<String, TreeError> {
    let mut text = String::from_str(alloc, top)?;
    make_dir(alloc, tree, text.as_str())?;
    for _ in 0..names {
        text.push_str("/x")?;
        make_dir(alloc, tree, text.as_str())?;
    }
    Ok(text)
}

// A tree with a path of 302 names, which no call but a rename makes.
fn deep_tree(alloc: Global) -> Result<MemTree, TreeError> {
    let mut tree = MemTree::new(alloc)?;
    let mut end = make_chain(alloc, &mut tree, "/s", 100)?;
    end.push_str("/a")?;
    let _ = make_chain(alloc, &mut tree, "/a", 200)?;
    let from = path(alloc, "/a")?;
    let to = path(alloc, end.as_str())?;
    tree.rename(alloc, &from, &to)?;
    Ok(tree)
}

// Whether a run from a deep tree is refused for a path in the source.
fn is_long_in_the_source<R: Threads + Sync>(
    rt: &R,
    alloc: Global,
    words: &str,
) -> Result<bool, TreeError> {
    let tree = deep_tree(alloc)?;
    let ran = run_from(rt, alloc, &tree, "-", words, None)?;
    is_too_long(alloc, &ran, "/s", 256, "x")
}

#[test]
fn the_first_path_that_passes_a_limit_is_named(rt: HostRuntime) -> Result<(), Fail> {
    let alloc = rt.alloc();
    assert_eq!(rt; is_long_in_the_target(&rt, alloc), Ok(true));
    assert_eq!(rt; is_long_in_the_source(&rt, alloc, "/s/x/x /d"), Ok(true));
    assert_eq!(rt; is_long_in_the_source(&rt, alloc, "/s /d"), Ok(true));
    Ok(())
}
