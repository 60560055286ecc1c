//! What is settled, as a text.
#![tactic(auto)]

use crate::texts::text_of_outcome;
use dc_decide::{Action, Planned};
use dc_engine::{Outcome, Settled};
use dc_path::{OutOfMemory, Path};
use dc_pieces::Piece;
use std::alloc::Global;

// The word of an action, and where a file is extended from which byte on.
fn text_of_action(alloc: Global, action: Action) -> Result<String, OutOfMemory> {
    let text = match action {
        Action::Folder => String::from_str(alloc, "folder")?,
        Action::Skip => String::from_str(alloc, "skip")?,
        Action::Replace => String::from_str(alloc, "replace")?,
        Action::Extend { from } => format!(in alloc; "extend-{from}")?,
    };
    Ok(text)
}

// What becomes of an item.
fn text_of_planned(alloc: Global, planned: &Planned) -> Result<String, OutOfMemory> {
    if planned.is_out() {
        return Ok(String::from_str(alloc, "without")?);
    }
    text_of_action(alloc, planned.action())
}

// Adds a path, behind a blank.
fn add_path(alloc: Global, text: &mut String, path: &Path) -> Result<(), OutOfMemory> {
    let path = path.text(alloc)?;
    text.push_str(" ")?;
    text.push_str(path.as_str())?;
    Ok(())
}

// Adds the path of each item, and behind a colon what becomes of it.
fn add_plan(alloc: Global, text: &mut String, items: &[Planned]) -> Result<(), OutOfMemory> {
    for planned in items {
        let word = text_of_planned(alloc, planned)?;
        add_path(alloc, text, planned.item().rel())?;
        text.push_str(":")?;
        text.push_str(word.as_str())?;
    }
    Ok(())
}

// Adds the paths that go.
fn add_deletes(alloc: Global, text: &mut String, paths: &[Path]) -> Result<(), OutOfMemory> {
    for path in paths {
        add_path(alloc, text, path)?;
    }
    Ok(())
}

// Adds of each piece the number of its item, its first byte and its length.
fn add_pieces(alloc: Global, text: &mut String, pieces: &[Piece]) -> Result<(), OutOfMemory> {
    for piece in pieces {
        let Piece { item, from, length } = *piece;
        let piece = format!(in alloc; " {item}:{from}+{length}")?;
        text.push_str(piece.as_str())?;
    }
    Ok(())
}

// The plan, what goes, and the pieces.
fn text_of_parts(alloc: Global, settled: &Settled) -> Result<String, OutOfMemory> {
    let mut text = String::from_str(alloc, "plan")?;
    add_plan(alloc, &mut text, settled.plan.items())?;
    text.push_str(" goes")?;
    add_deletes(alloc, &mut text, settled.deletes.as_slice())?;
    text.push_str(" cut")?;
    add_pieces(alloc, &mut text, settled.pieces.as_slice())?;
    Ok(text)
}

/// What a settling answers.
pub(crate) fn text_of(
    alloc: Global,
    answer: &Result<Settled, Outcome>,
) -> Result<String, OutOfMemory> {
    match answer {
        Ok(settled) => text_of_parts(alloc, settled),
        Err(outcome) => text_of_outcome(alloc, outcome),
    }
}
