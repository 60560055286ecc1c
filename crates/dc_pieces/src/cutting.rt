//! How a plan's files are cut into pieces.
#![tactic(auto)]

ghost use Rattle.std.specs.Prelude.{◌≡◌, ℕ, ◌<◌, ◌≤◌, ◌↔◌, ◌++◌, true, false, length, IfOk, IfSome, IfNone, OnOk, IsErrOf};
ghost use Rattle.dc_decide.specs.Plans.{IsPlan};
ghost use Rattle.dc_pieces.specs.Cuts.{cut_pieces, FitsCut};
ghost use Rattle.dc_pieces.specs.Cutting.{is_cut, chunk_size, chunks, pieces_of, pieces_from, plan_pieces};
ghost use Rattle.dc_pieces.specs.Pieces.{most_pieces};

use crate::{MAX_PIECES, Piece, Pieces};
use dc_decide::{Action, Plan, Planned};
use dc_path::{List, OutOfMemory};
use std::alloc::{AllocError, Global};

/// Why there are no pieces.
#[derive(Clone, Copy, Debug, PartialEq, Eq)]
pub enum PieceError {
    /// There are more than `MAX_PIECES`.
    TooMany,
    /// Memory ran out.
    Memory,
}

impl From<AllocError> for PieceError {
    ghost use Rattle.std.specs.Prelude.{◌≡◌};
    ghost use Rattle.dc_pieces.specs.declared.cutting.PieceError.TheVariants.{Memory};

    ghost from_gives = { λ _ e. e ≡ Memory };

    fn from(_lack: AllocError) -> PieceError {
        PieceError::Memory
    }
}

impl From<OutOfMemory> for PieceError {
    ghost use Rattle.std.specs.Prelude.{◌≡◌};
    ghost use Rattle.dc_pieces.specs.declared.cutting.PieceError.TheVariants.{Memory};

    ghost from_gives = { λ _ e. e ≡ Memory };

    fn from(_lack: OutOfMemory) -> PieceError {
        PieceError::Memory
    }
}

// How an item is cut.
#[derive(Clone, Copy)]
enum Cut {
    // No byte of it is copied.
    Nothing,
    // What is copied of it is one piece.
    One { from: u64, length: u64 },
    // All of it is copied, in pieces of one size but for the last.
    Chunks { size: u64, length: u64 },
}

// The bytes of each piece but the last of a file; `None` where it is not cut.
fn size_of_chunks(length: u64, block_size: u64, blocks: u32) -> Option<u64>
    requires { 0 < block_size }
    ensures cut { IfSome result (λ size. is_cut blocks block_size length ≡ true) }
    ensures size { IfSome result (λ size. size ≡ chunk_size blocks block_size) }
    ensures some { IfSome result (λ size. 0 < size) }
    ensures uncut { IfNone result (is_cut blocks block_size length ≡ false) }
{
    let blocks = u64::from(blocks);
    if blocks >= 1 && length.div_ceil(block_size) > blocks {
        Some(blocks * block_size)
    } else {
        None
    }
}

// How an item of a plan is cut.
fn cut_of(planned: &Planned, blocks: u32) -> Cut
    ensures pieces { (item : ℕ) → pieces_of blocks item planned.now ≡ cut_pieces item result }
    ensures fits { FitsCut result }
{
    if planned.is_out() {
        return Cut::Nothing;
    }
    let item = planned.item();
    let length = item.length();
    match planned.action() {
        Action::Folder => Cut::Nothing,
        Action::Skip => Cut::Nothing,
        Action::Replace => match size_of_chunks(length, item.attrs().block_size(), blocks) {
            None => Cut::One { from: 0, length },
            Some(size) => Cut::Chunks { size, length },
        },
        Action::Extend { from } => Cut::One {
            from,
            length: length - from,
        },
    }
}

// How many pieces an item has that is cut so.
fn count_of(cut: Cut) -> u64
    requires { FitsCut cut }
    ensures { (item : ℕ) → result ≡ length (cut_pieces item cut) }
{
    match cut {
        Cut::Nothing => 0,
        Cut::One { .. } => 1,
        Cut::Chunks { size, length } => length.div_ceil(size),
    }
}

// How many pieces there are; `None` where there are too many.
fn total(items: &[Planned], blocks: u32) -> Option<usize>
    ensures total { IfSome result (λ count. count ≡ length (pieces_from blocks 0 items.now)) }
    ensures few { IfSome result (λ count. count ≤ most_pieces) }
    ensures many { IfNone result (most_pieces < length (pieces_from blocks 0 items.now)) }
{
    let mut total = 0usize;
    for planned in items {
        let count = count_of(cut_of(planned, blocks));
        if count > (MAX_PIECES - total) as u64 {
            return None;
        }
        total += count as usize;
    }
    Some(total)
}

// Adds all pieces of this size of a file.
fn add_chunks(pieces: &mut Vec<Piece>, item: u32, size: u64, length: u64) -> Result<(), OutOfMemory>
    requires { 0 < size }
    ensures { OnOk result (pieces.new.items ≡ pieces.old.items ++ chunks item size length) }
{
    for place in 0..length.div_ceil(size) {
        let from = place * size;
        pieces.push(Piece {
            item,
            from,
            length: size.min(length - from),
        })?;
    }
    Ok(())
}

// Adds the pieces of an item that is cut so.
fn add(pieces: &mut Vec<Piece>, item: u32, cut: Cut) -> Result<(), OutOfMemory>
    requires { FitsCut cut }
    ensures { OnOk result (pieces.new.items ≡ pieces.old.items ++ cut_pieces item cut) }
{
    match cut {
        Cut::Nothing => Ok(()),
        Cut::One { from, length } => {
            pieces.push(Piece { item, from, length })?;
            Ok(())
        }
        Cut::Chunks { size, length } => add_chunks(pieces, item, size, length),
    }
}

/// The pieces of a plan, in the order of its items and of their ranges (Hadoop DistCp Guide, "-blocksperchunk").
///
/// A file to replace is one piece, unless `blocks` is at least 1 and the file has more blocks than that, by the block size of
/// its attributes. Then each piece but the last has so many blocks. What is added to a file that is extended is one piece, and
/// an empty file is one empty piece. A directory, a file that is skipped and an item that the copy goes on without have none.
///
/// # Errors
///
/// - `TooMany`, exactly where there are more than `MAX_PIECES`. It is found before memory is taken;
/// - `Memory`.
pub fn pieces(alloc: Global, plan: &Plan, blocks: u32) -> Result<Pieces, PieceError>
    ensures pieces { IfOk result (λ pieces. pieces ≡ plan_pieces blocks plan.now) }
    ensures too_many { IsErrOf result PieceError.TooMany ↔ (most_pieces < length (plan_pieces blocks plan.now)) }
{
    let items = plan.items();
    let Some(count) = total(items, blocks) else {
        return Err(PieceError::TooMany);
    };
    let mut pieces = Vec::with_capacity(alloc, count)?;
    for number in 0..items.len() {
        add(&mut pieces, number as u32, cut_of(&items[number], blocks))?;
    }
    Ok(Pieces::of(List::of(pieces)))
}
