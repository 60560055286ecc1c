//! The parts of each file, in the order of their ranges.
#![tactic(auto)]

ghost use Rattle.std.specs.Prelude.{◌≡◌, ◌<◌, ◌≤◌, ◌++◌, ◌∷◌, [], true, length, IfOk, OnOk, IsTrue, IsPermutation};
ghost use Rattle.std.specs.List.{flat_map, list_all, sum_by};
ghost use Rattle.std.specs.List.Sorted.{IsNonDecreasingBy};
ghost use Rattle.dc_commit.specs.Landing.{is_ready, parts_of};
ghost use Rattle.dc_pieces.specs.Parts.{number_of};
ghost use Rattle.dc_join.specs.Adding.{added, begun, grouped, is_last, with_more};
ghost use Rattle.dc_join.specs.Joining.{AreJoined, bit_for, item_for, lands_at};

use dc_commit::Ready;
use dc_decide::{Action, Plan};
use dc_path::{List, OutOfMemory};
use dc_pieces::{Part, Piece, Pieces};
use std::alloc::Global;

// Whether the item at a place is a file that the copy goes on with and writes.
fn lands(plan: &Plan, item: u32) -> bool
    ensures { result ≡ lands_at plan.now item }
{
    match plan.items().get(item as usize) {
        Some(planned) => {
            !planned.is_out() && matches!(planned.action(), Action::Replace | Action::Extend { .. })
        }
        None => false,
    }
}

// The item of the piece with this number, where it lands.
fn item_for(plan: &Plan, pieces: &[Piece], number: u32) -> Option<u32>
    ensures { result ≡ item_for plan.now pieces.now number }
{
    match pieces.get(number as usize) {
        Some(piece) if lands(plan, piece.item) => Some(piece.item),
        _ => None,
    }
}

// The parts in the order of their pieces.
fn by_piece<P: Drop>(mut parts: Vec<Part<P>>) -> Vec<Part<P>>
    ensures same { IsPermutation parts.items result.items }
    ensures rises { IsNonDecreasingBy number_of result.items }
{
    parts.sort_unstable_by_key(|part| part.piece);
    parts
}

// Begins a file.
fn begin<P: Drop>(
    alloc: Global,
    files: &mut Vec<Ready<P>>,
    item: u32,
    part: P,
) -> Result<(), OutOfMemory>
    ensures { OnOk result (files.new.items ≡ files.old.items ++ begun item part ∷ []) }
{
    let mut parts = List::new(alloc);
    parts.add(part)?;
    files.push(Ready { item, parts })?;
    Ok(())
}

// Whether the last file is this item.
fn ends_with<P: Drop>(files: &[Ready<P>], item: u32) -> bool
    ensures { result ≡ is_last item files.now }
{
    match files.last() {
        Some(file) => file.item == item,
        None => false,
    }
}

// Adds a part at the end of the last file.
fn add_to_last<P: Drop>(files: &mut Vec<Ready<P>>, part: P) -> Result<(), OutOfMemory>
    requires { 0 < length files.old.items }
    ensures { OnOk result (files.new.items ≡ with_more part files.old.items) }
{
    let last = files.len() - 1;
    files[last].parts.add(part)
}

// Adds a part of an item: to the last file where it is this item, else as a file of its own.
fn add<P: Drop>(
    alloc: Global,
    files: &mut Vec<Ready<P>>,
    item: u32,
    part: P,
) -> Result<(), OutOfMemory>
    ensures { OnOk result (files.new.items ≡ added item part files.old.items) }
{
    if ends_with(files.as_slice(), item) {
        add_to_last(files, part)
    } else {
        begin(alloc, files, item, part)
    }
}

// Adds a part where its item lands.
fn add_if_landing<P: Drop>(
    alloc: Global,
    files: &mut Vec<Ready<P>>,
    plan: &Plan,
    pieces: &[Piece],
    part: Part<P>,
) -> Result<(), OutOfMemory>
    ensures { OnOk result (files.new.items ≡ grouped files.old.items (bit_for plan.now pieces.now part)) }
{
    match item_for(plan, pieces, part.piece) {
        Some(item) => add(alloc, files, item, part.part),
        None => Ok(()),
    }
}

// The files of parts in the order of their pieces.
fn group<P: Drop>(
    alloc: Global,
    plan: &Plan,
    pieces: &[Piece],
    parts: Vec<Part<P>>,
) -> Result<Vec<Ready<P>>, OutOfMemory>
    ensures { IfOk result (λ files. files.items ≡ grouped [] (flat_map (bit_for plan.now pieces.now) parts.items)) }
{
    let mut files = Vec::new(alloc);
    for part in parts {
        add_if_landing(alloc, &mut files, plan, pieces, part)?;
    }
    Ok(files)
}

/// The files that land, in the order of the plan, each with its parts in the order of their ranges.
///
/// A part of an item that is not written, or that the copy goes on without, is let go, and so is one of no piece.
///
/// # Errors
///
/// `OutOfMemory` is the one error.
pub fn join<P: Drop>(
    alloc: Global,
    plan: &Plan,
    pieces: &Pieces,
    parts: List<Part<P>>,
) -> Result<List<Ready<P>>, OutOfMemory>
    ensures joined { IfOk result (AreJoined plan.now pieces.now parts) }
    ensures ready { IfOk result (λ files. list_all (is_ready plan.now) files ≡ true) }
    ensures counted { IfOk result (λ files. sum_by parts_of files ≤ length parts) }
{
    let sorted = by_piece(parts.into_vec());
    let files = group(alloc, plan, pieces.as_slice(), sorted)?;
    Ok(List::of(files))
}
