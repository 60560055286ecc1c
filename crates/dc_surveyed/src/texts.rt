//! What a survey answers, as a text.
#![tactic(auto)]

use dc_engine::{BadTarget, Outcome, Phase, Surveyed, TooManyOf};
use dc_listing::Item;
use dc_path::{OutOfMemory, Path};
use std::alloc::Global;

// A text followed by a path, behind a blank.
fn with_path(alloc: Global, begin: &str, path: &Path) -> Result<String, OutOfMemory> {
    let path = path.text(alloc)?;
    let mut text = String::from_str(alloc, begin)?;
    text.push_str(" ")?;
    text.push_str(path.as_str())?;
    Ok(text)
}

// A text followed by a number, behind a blank.
fn with_line(alloc: Global, begin: &str, line: u32) -> Result<String, OutOfMemory> {
    Ok(format!(in alloc; "{begin} {line}")?)
}

// What is wrong with a target.
fn text_of_target(kind: BadTarget) -> &'static str {
    match kind {
        BadTarget::InSnapshot => "in a snapshot",
        BadTarget::UnderFile => "under a file",
        BadTarget::ManyOntoFile => "several sources onto a file",
        BadTarget::DirOntoFile => "a directory onto a file",
        BadTarget::AtomicExists => "exists under -atomic",
        BadTarget::NoTmp => "no folder for -tmp",
        BadTarget::TmpInside => "work path and target overlap",
    }
}

// Two sources at one path under the target.
fn text_of_two(
    alloc: Global,
    rel: &Path,
    first: &Path,
    second: &Path,
) -> Result<String, OutOfMemory> {
    let text = with_path(alloc, "twice", rel)?;
    let text = with_path(alloc, text.as_str(), first)?;
    with_path(alloc, text.as_str(), second)
}

// A refusal that names no path.
fn text_of_rest(outcome: &Outcome) -> &'static str {
    match outcome {
        Outcome::BadTarget { kind } => text_of_target(*kind),
        Outcome::SourceFault => "source fault",
        Outcome::TargetFault {
            phase: Phase::Check,
            done: 0,
        } => "target fault",
        Outcome::TargetFault {
            phase: Phase::Decide,
            done: 0,
        } => "target fault while deciding",
        Outcome::TooMany {
            what: TooManyOf::Items,
        } => "too many items",
        Outcome::TooMany {
            what: TooManyOf::Pieces,
        } => "too many pieces",
        Outcome::Unbuilt => "not built",
        _ => "other",
    }
}

// A refusal that names a line.
fn text_of_line(alloc: Global, outcome: &Outcome) -> Result<String, OutOfMemory> {
    match outcome {
        Outcome::BadList { line } => with_line(alloc, "bad list", *line),
        Outcome::BadPattern { line } => with_line(alloc, "bad pattern", *line),
        Outcome::BigPattern { line } => with_line(alloc, "pattern too big", *line),
        Outcome::BadPlan { line } => with_line(alloc, "bad plan", *line),
        _ => Ok(String::from_str(alloc, text_of_rest(outcome))?),
    }
}

/// A refusal.
pub(crate) fn text_of_outcome(alloc: Global, outcome: &Outcome) -> Result<String, OutOfMemory> {
    match outcome {
        Outcome::NoFile { path } => with_path(alloc, "no file", path),
        Outcome::NoSource { path } => with_path(alloc, "no source", path),
        Outcome::WorkExists { path } => with_path(alloc, "work exists", path),
        Outcome::Clash { path } => with_path(alloc, "clash", path),
        Outcome::TooLong { parent, .. } => with_path(alloc, "too long in", parent),
        Outcome::Duplicate { rel, first, second } => text_of_two(alloc, rel, first, second),
        _ => text_of_line(alloc, outcome),
    }
}

// What is listed: each source path, and behind a colon its path under the target.
fn text_of_items(alloc: Global, items: &[Item]) -> Result<String, OutOfMemory> {
    let mut text = String::from_str(alloc, "listed")?;
    for item in items {
        let from = item.from().text(alloc)?;
        let rel = item.rel().text(alloc)?;
        text.push_str(" ")?;
        text.push_str(from.as_str())?;
        text.push_str(":")?;
        text.push_str(rel.as_str())?;
    }
    Ok(text)
}

// The step at which the first attempt at the first piece is stopped, where it is.
fn text_of_stop(alloc: Global, text: &str, found: &Surveyed) -> Result<String, OutOfMemory> {
    match found.kills.stop_at(0, 1) {
        Some(stop) => {
            let step = stop.step;
            Ok(format!(in alloc; "{text} stop {step}")?)
        }
        None => Ok(String::from_str(alloc, text)?),
    }
}

// What is found.
fn text_of_found(alloc: Global, found: &Surveyed) -> Result<String, OutOfMemory> {
    let text = text_of_items(alloc, found.items.as_slice())?;
    text_of_stop(alloc, text.as_str(), found)
}

/// What a survey answers.
pub(crate) fn text_of(
    alloc: Global,
    answer: &Result<Surveyed, Outcome>,
) -> Result<String, OutOfMemory> {
    match answer {
        Ok(found) => text_of_found(alloc, found),
        Err(outcome) => text_of_outcome(alloc, outcome),
    }
}
