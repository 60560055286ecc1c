//! A range of bytes that is copied, and all ranges of a copy.
#![tactic(auto)]

ghost use Rattle.std.specs.Prelude.{◌≡◌, ◌==◌, ◌+◌, ◌-◌, ◌<◌, ◌≤◌, ◌^◌, true, length, IfSome, slice_get};
ghost use Rattle.std.specs.List.{AllWithin, range_with_len};
ghost use Rattle.dc_pieces.specs.Parts.{numbers_of};
ghost use Rattle.dc_pieces.specs.Pieces.{ArePieces, are_in_order, most_pieces};

use dc_path::List;
use std::marker::Model;
use std::ops::Range;

/// The most pieces of a copy.
pub const MAX_PIECES: usize = 8_388_608;

/// A range of bytes of one item.
#[derive(Clone, Copy, Debug, PartialEq, Eq)]
pub struct Piece {
    /// The item, by its place in the plan, counted from 0.
    pub item: u32,
    /// The place of the first byte in the source's file, counted from 0.
    pub from: u64,
    /// The number of bytes, which is 0 for the one piece of an empty file.
    pub length: u64,
}

/// The pieces of a copy, seen as their list. The number of a piece is its place in the list, counted from 0.
///
/// The type keeps that each piece is of an earlier item than the next, or ends where the next begins; that there are at most
/// `MAX_PIECES`; and that the end of each fits 64 bits.
#[derive(Drop)]
pub struct Pieces {
    pieces: List<Piece>,
}

impl Model for Pieces {
    ghost use Rattle.std.specs.Prelude.{List};
    ghost use Rattle.dc_pieces.specs.Pieces.{ArePieces};
    ghost use Rattle.dc_pieces.specs.declared.piece.Piece.{Piece};

    ghost Value = { List Piece };

    ghost view = { λ p. p.pieces };

    ghost invariant = { λ p. ArePieces p.pieces };
}

// The number of the first piece of this item or a later one; that of pieces where there is none.
fn first_from(pieces: &[Piece], item: u64) -> usize
    requires { are_in_order pieces.now ≡ true }
    ensures within { result ≤ length pieces.now }
    ensures below { AllWithin (λ piece. piece.item < item) pieces.now 0 result }
    ensures above { AllWithin (λ piece. item ≤ piece.item) pieces.now result (length pieces.now) }
{
    pieces.partition_point(|piece| u64::from(piece.item) < item)
}

impl Pieces {
    // The pieces of a list that keeps what the type keeps.
    pub(crate) fn of(pieces: List<Piece>) -> Pieces
        requires { ArePieces pieces }
        ensures { result ≡ pieces }
    {
        Pieces { pieces }
    }

    /// The number of pieces, at most `MAX_PIECES`.
    pub fn len(&self) -> usize
        ensures value { result ≡ length self.now }
        ensures few { result ≤ most_pieces }
    {
        self.pieces.len()
    }

    /// Whether there are no pieces.
    pub fn is_empty(&self) -> bool
        ensures { result ≡ (length self.now == 0) }
    {
        self.pieces.is_empty()
    }

    /// The piece with this number; `None` past the last one. Its end fits 64 bits.
    pub fn get(&self, number: usize) -> Option<Piece>
        ensures value { result ≡ slice_get self.now number }
        ensures fits { IfSome result (λ piece. piece.from + piece.length < 2 ^ 64) }
    {
        self.pieces.get(number).copied()
    }

    /// All pieces in order of their numbers.
    pub fn as_slice(&self) -> &[Piece]
        ensures value { result.now ≡ self.now }
        ensures pieces { ArePieces self.now }
    {
        self.pieces.as_slice()
    }

    /// The numbers of an item's pieces, which stand side by side; an empty range where it has none.
    pub fn numbers(&self, item: u32) -> Range<usize>
        ensures numbers { numbers_of self.now item ≡ range_with_len result.start (result.end - result.start) }
        ensures rises { result.start ≤ result.end }
        ensures within { result.end ≤ length self.now }
        ensures few { result.end ≤ most_pieces }
    {
        let pieces = self.pieces.as_slice();
        let start = first_from(pieces, u64::from(item));
        let end = first_from(pieces, u64::from(item) + 1);
        start..end
    }
}
