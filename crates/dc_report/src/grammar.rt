//! What a line of a report says.
#![tactic(auto)]

ghost use Rattle.std.specs.Prelude.{◌≡◌, ◌≢◌, ◌≤◌, length, None, Ok, IfOk, IsTrue};
ghost use Rattle.dc_report.specs.Grammar.{last_arrow, has_tab, is_told, if_spelt, path_in, below_root, renamed_at, entry_by, entry_from, is_heading};
ghost use Rattle.std.specs.List.{list_all};
ghost use Rattle.dc_path.specs.declared.path.PathError.TheVariants.{Memory};
ghost use Rattle.dc_report.specs.Spelling.{split_of};

use crate::Entry;
use dc_path::{OutOfMemory, Path, PathError};
use std::alloc::Global;
use std::str;

/// Whether a line is a heading: it begins with `Difference between ` and ends with `:`.
#[tactic(auto, using(crate::proofs::Texts::texts), unfolding(crate::specs::Grammar::is_heading))]
pub fn is_heading(line: &[u8]) -> bool
    ensures heading { result ≡ is_heading line.now }
    ensures long { IsTrue result → 3 ≤ length line.now }
{
    match str::from_utf8(line) {
        Ok(_) => {
            line.starts_with(b"Difference between ".as_slice()) && line.ends_with(b":".as_slice())
        }
        Err(_) => false,
    }
}

/// What stands before and behind the last ` -> `.
pub fn at_arrow(text: &str) -> Option<(&str, &str)>
    ensures { split_of result ≡ last_arrow text.now }
{
    text.rsplit_once(" -> ")
}

// Whether there is a tab.
fn has_tab(text: &[u8]) -> bool
    ensures { result ≡ has_tab text.now }
{
    text.iter().any(|byte| *byte == b'\t')
}

// Whether a report may have a name: it is not `.snapshot`, and holds no tab and no ` -> `.
#[tactic(auto, using(crate::proofs::Texts::parts), unfolding(crate::specs::Grammar::is_told))]
fn is_told(name: &str) -> bool
    ensures { result ≡ is_told name.now }
{
    name != ".snapshot" && !has_tab(name.as_bytes()) && at_arrow(name).is_none()
}

// Whether a report may have each name of a path.
fn all_told(path: &Path) -> bool
    ensures { result ≡ list_all is_told path.now }
{
    for place in 0..path.len() {
        let Some(name) = path.name(place) else {
            return false;
        };
        if !is_told(name.as_str()) {
            return false;
        }
    }
    true
}

// No path, unless memory ran out.
fn no_path(error: PathError) -> Result<Option<Path>, OutOfMemory>
    ensures { IfOk result (λ path. (path ≡ None) × (error ≢ Memory)) }
{
    match error {
        PathError::Memory => Err(OutOfMemory),
        _ => Ok(None),
    }
}

// The path, where it is spelled like this and a report may have its names.
fn if_spelt(alloc: Global, path: Path, text: &str) -> Result<Option<Path>, OutOfMemory>
    ensures { IfOk result (λ told. told ≡ if_spelt text.now (Ok path)) }
{
    let spelt = path.dotted(alloc)?;
    if spelt.as_str() == text && all_told(&path) {
        Ok(Some(path))
    } else {
        Ok(None)
    }
}

// The path that a text spells: `.`, or `./` and names with one `/` between two.
fn read_path(alloc: Global, text: &str) -> Result<Option<Path>, OutOfMemory>
    ensures { IfOk result (λ path. path ≡ path_in text.now) }
{
    if text == "." {
        return Ok(Some(Path::root(alloc)));
    }
    let Some(names) = text.strip_prefix(".") else {
        return Ok(None);
    };
    match Path::read(alloc, names) {
        Ok(path) => if_spelt(alloc, path, text),
        Err(error) => no_path(error),
    }
}

// The path that a text spells, where it is not the root.
fn read_below(alloc: Global, text: &str) -> Result<Option<Path>, OutOfMemory>
    ensures { IfOk result (λ path. path ≡ below_root (path_in text.now)) }
{
    match read_path(alloc, text)? {
        Some(path) if path.len() > 0 => Ok(Some(path)),
        _ => Ok(None),
    }
}

// The rename that a text spells: a path, ` -> ` and a path.
fn read_rename(alloc: Global, text: &str) -> Result<Option<Entry>, OutOfMemory>
    ensures { IfOk result (λ entry. entry ≡ renamed_at (last_arrow text.now)) }
{
    let Some((from, to)) = at_arrow(text) else {
        return Ok(None);
    };
    let Some(from) = read_below(alloc, from)? else {
        return Ok(None);
    };
    let Some(to) = read_below(alloc, to)? else {
        return Ok(None);
    };
    Ok(Some(Entry::Renamed { from, to }))
}

// The entry that the text behind a tag and a tab spells.
#[tactic(auto, unfolding(crate::specs::Grammar::entry_by))]
fn read_tagged(alloc: Global, tag: u8, text: &str) -> Result<Option<Entry>, OutOfMemory>
    ensures { IfOk result (λ entry. entry ≡ entry_by tag text.now) }
{
    match tag {
        b'+' => Ok(read_below(alloc, text)?.map(Entry::Created)),
        b'-' => Ok(read_below(alloc, text)?.map(Entry::Deleted)),
        b'M' => Ok(read_path(alloc, text)?.map(Entry::Modified)),
        b'R' => read_rename(alloc, text),
        _ => Ok(None),
    }
}

/// The entry that a line spells; `None` where it is of no such form.
///
/// A line is `+`, `-` or `M`, a tab and a path, or `R`, a tab, a path, ` -> ` and a path. A path is `.`, or `./` and
/// names with one `/` between two. No name is `.snapshot`, or holds a tab or ` -> `, and `.` stands behind `M` alone.
pub fn read_entry(alloc: Global, line: &[u8]) -> Result<Option<Entry>, OutOfMemory>
    ensures { IfOk result (λ entry. entry ≡ entry_from line.now) }
{
    let [tag, b'\t', text @ ..] = line else {
        return Ok(None);
    };
    match str::from_utf8(text) {
        Ok(text) => read_tagged(alloc, *tag, text),
        Err(_) => Ok(None),
    }
}
