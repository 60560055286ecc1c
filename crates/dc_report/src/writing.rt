//! Reports as texts.
#![tactic(auto)]

ghost use Rattle.std.specs.Prelude.{◌≡◌, ◌≢◌, [], ◌∷◌, ◌++◌, ◌==◌, Some, None, true, false, IfErr, OnOk, string_bytes};
ghost use Rattle.std.specs.List.{list_any, find};
ghost use Rattle.dc_path.specs.Paths.{dotted_of};
ghost use Rattle.dc_path.specs.Unless.{GivesUnless};
ghost use Rattle.dc_report.specs.Writing.{is_break, is_ambiguous, has_ambiguous, line_of, paths_of, written, IsRefusedFor};
ghost use Rattle.dc_report.specs.declared.writing.WriteReportError.TheVariants.{Ambiguous, Memory};

use crate::Entry;
use crate::grammar::{at_arrow, is_heading};
use dc_path::{OutOfMemory, Path, Text};
use std::alloc::{AllocError, Global};

/// Why a report has no text.
#[derive(Drop)]
pub enum WriteReportError {
    /// The heading is none, or holds a line feed.
    BadHead,
    /// The first path with a name that holds a tab, a line feed or ` -> `.
    Ambiguous { path: Path },
    /// Memory ran out. No clause says when this comes.
    Memory,
}

impl From<OutOfMemory> for WriteReportError {
    ghost use Rattle.std.specs.Prelude.{◌≡◌};
    ghost use Rattle.dc_report.specs.declared.writing.WriteReportError.TheVariants.{Memory};

    ghost from_gives = { λ _ e. e ≡ Memory };

    fn from(_lack: OutOfMemory) -> WriteReportError {
        WriteReportError::Memory
    }
}

impl From<AllocError> for WriteReportError {
    ghost use Rattle.std.specs.Prelude.{◌≡◌};
    ghost use Rattle.dc_report.specs.declared.writing.WriteReportError.TheVariants.{Memory};

    ghost from_gives = { λ _ e. e ≡ Memory };

    fn from(_lack: AllocError) -> WriteReportError {
        WriteReportError::Memory
    }
}

// Whether there is a tab or a line feed.
fn has_break(text: &[u8]) -> bool
    ensures { result ≡ list_any is_break text.now }
{
    text.iter().any(|byte| *byte == b'\t' || *byte == b'\n')
}

// Whether there is a line feed.
fn has_feed(text: &[u8]) -> bool
    ensures { result ≡ list_any (λ b. b == 10) text.now }
{
    text.iter().any(|byte| *byte == b'\n')
}

// Whether a name cannot be read back: it holds a tab, a line feed or ` -> `.
#[tactic(auto, using(crate::proofs::Texts::parts), unfolding(crate::specs::Writing::is_ambiguous))]
fn is_ambiguous(name: &str) -> bool
    ensures { result ≡ is_ambiguous name.now }
{
    if has_break(name.as_bytes()) {
        return true;
    }
    at_arrow(name).is_some()
}

// Whether a path has such a name.
fn has_ambiguous(path: &Path) -> bool
    ensures { result ≡ has_ambiguous path.now }
{
    for place in 0..path.len() {
        let Some(name) = path.name(place) else {
            return false;
        };
        if is_ambiguous(name.as_str()) {
            return true;
        }
    }
    false
}

// Adds a path, unless it cannot be read back.
fn write_path(alloc: Global, path: &Path, text: &mut String) -> Result<(), WriteReportError>
    ensures ok { OnOk result (string_bytes text.new ≡ string_bytes text.old ++ dotted_of path.now) }
    ensures clear { OnOk result (has_ambiguous path.now ≡ false) }
    ensures err { IfErr result (λ e. e ≢ Memory → (e ≡ Ambiguous path.now) × (has_ambiguous path.now ≡ true)) }
{
    if has_ambiguous(path) {
        let path = path.copy(alloc)?;
        return Err(WriteReportError::Ambiguous { path });
    }
    let dotted = path.dotted(alloc)?;
    text.push_str(dotted.as_str())?;
    Ok(())
}

// Adds the line of an entry, with its line feed.
fn write_entry(alloc: Global, entry: &Entry, text: &mut String) -> Result<(), WriteReportError>
    ensures ok { OnOk result (string_bytes text.new ≡ string_bytes text.old ++ (line_of entry.now ++ 10 ∷ [])) }
    ensures clear { OnOk result (find has_ambiguous (paths_of entry.now) ≡ None) }
    ensures err { IfErr result (λ e. e ≢ Memory → IsRefusedFor e (find has_ambiguous (paths_of entry.now))) }
{
    match entry {
        Entry::Created(path) => {
            text.push_str("+\t")?;
            write_path(alloc, path, text)?;
        }
        Entry::Deleted(path) => {
            text.push_str("-\t")?;
            write_path(alloc, path, text)?;
        }
        Entry::Modified(path) => {
            text.push_str("M\t")?;
            write_path(alloc, path, text)?;
        }
        Entry::Renamed { from, to } => {
            text.push_str("R\t")?;
            write_path(alloc, from, text)?;
            text.push_str(" -> ")?;
            write_path(alloc, to, text)?;
        }
    }
    text.push_str("\n")?;
    Ok(())
}

/// The text of these entries with this heading. `BadHead` where the first line of the heading is none, or there are more;
/// `Ambiguous` with the first path that cannot be read back.
pub fn write_entries(
    alloc: Global,
    heading: &Text,
    entries: &[Entry],
) -> Result<Text, WriteReportError>
    ensures { GivesUnless Memory result (written heading.now entries.now) }
{
    let first = heading.as_str();
    if !is_heading(first.as_bytes()) || has_feed(first.as_bytes()) {
        return Err(WriteReportError::BadHead);
    }
    let mut text = String::from_str(alloc, first)?;
    text.push_str("\n")?;
    for entry in entries {
        write_entry(alloc, entry, &mut text)?;
    }
    Ok(Text::read(alloc, text.as_str())?)
}
