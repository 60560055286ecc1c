//! What the pieces of a file became, put in order.
#![tactic(auto)]

ghost use Rattle.std.specs.Prelude.{◌≡◌, ◌+◌, ◌-◌, ◌≤◌, ◌↔◌, [], length, map, IfOk, IfErr, IsTrue, IsPermutation, vec_capacity};
ghost use Rattle.std.specs.List.{range_with_len};
ghost use Rattle.std.specs.List.Sorted.{IsNonDecreasing, IsNonDecreasingBy};
ghost use Rattle.dc_pieces.specs.Parts.{number_of, part_of, StandOnce, IsWhole, IsLacking, parts_back};
ghost use Rattle.dc_pieces.specs.Pieces.{most_pieces};

use crate::Pieces;
use dc_path::{List, OutOfMemory};
use std::alloc::Global;

/// What one piece became.
#[derive(Drop)]
pub struct Part<P> {
    /// The number of the piece.
    pub piece: u32,
    /// What it became, as a temporary that is sealed.
    pub part: P,
}

/// Why parts are not put in order. The parts are handed back as they were given.
#[derive(Drop)]
pub enum PartsError<P> {
    /// A piece of the item is not there or stands there twice, or there is a piece of another item.
    Lacking { parts: List<Part<P>> },
    /// Memory ran out.
    Memory { parts: List<Part<P>> },
}

// Whether the numbers are those in a row from here on.
fn are_in_row(numbers: &[u32], first: usize) -> bool
    requires { first + length numbers.now ≤ most_pieces }
    ensures { IsTrue result ↔ (numbers.now ≡ range_with_len first (length numbers.now)) }
{
    for place in 0..numbers.len() {
        if numbers[place] as usize != first + place {
            return false;
        }
    }
    true
}

// The numbers of the pieces of these parts.
fn numbers_in<P: Drop>(alloc: Global, parts: &[Part<P>]) -> Result<Vec<u32>, OutOfMemory>
    ensures { IfOk result (λ numbers. numbers.items ≡ map number_of parts.now) }
{
    let numbers = parts.iter().map(|part| part.piece).collect(alloc)?;
    Ok(numbers)
}

// The same numbers in ascending order.
fn ascending(mut numbers: Vec<u32>) -> Vec<u32>
    ensures same { IsPermutation numbers.items result.items }
    ensures rises { IsNonDecreasing result.items }
{
    numbers.sort_unstable();
    numbers
}

// Whether each piece of the item stands in the parts once, and no other piece does.
fn stand_once<P: Drop>(
    alloc: Global,
    pieces: &Pieces,
    item: u32,
    parts: &[Part<P>],
) -> Result<bool, OutOfMemory>
    ensures { IfOk result (λ once. IsTrue once ↔ StandOnce pieces.now item parts.now) }
{
    let of_item = pieces.numbers(item);
    if parts.len() != of_item.end - of_item.start {
        return Ok(false);
    }
    let numbers = ascending(numbers_in(alloc, parts)?);
    Ok(are_in_row(numbers.as_slice(), of_item.start))
}

// The parts in the order of their numbers.
fn by_number<P: Drop>(mut parts: Vec<Part<P>>) -> Vec<Part<P>>
    ensures same { IsPermutation parts.items result.items }
    ensures rises { IsNonDecreasingBy number_of result.items }
{
    parts.sort_unstable_by_key(|part| part.piece);
    parts
}

// What the pieces became, put into a vector with room for all.
fn unpacked<P: Drop>(parts: Vec<Part<P>>, room: Vec<P>) -> Vec<P>
    requires empty { room.items ≡ [] }
    requires room { length parts.items ≤ vec_capacity room }
    ensures { result.items ≡ map part_of parts.items }
{
    let mut whole = room;
    for part in parts {
        match whole.push(part.part) {
            Ok(()) => {}
            Err(_) => unreachable!(),
        }
    }
    whole
}

/// What the pieces of an item became, in the order of their ranges.
///
/// Each piece of the item must stand in the parts once, and no other piece.
///
/// # Errors
///
/// Either hands the parts back as they were given.
///
/// - `Lacking`, exactly where not each piece of the item stands there once, or another piece stands there;
/// - `Memory`, which may come in the place of any answer.
pub fn whole<P: Drop>(
    alloc: Global,
    pieces: &Pieces,
    item: u32,
    parts: List<Part<P>>,
) -> Result<List<P>, PartsError<P>>
    ensures whole { IfOk result (IsWhole pieces.now item parts) }
    ensures lacking { IfErr result (λ e. IsLacking e → StandOnce pieces.now item parts → ⊥) }
    ensures back { IfErr result (λ e. parts_back e ≡ parts) }
{
    match stand_once(alloc, pieces, item, parts.as_slice()) {
        Ok(true) => {}
        Ok(false) => return Err(PartsError::Lacking { parts }),
        Err(_) => return Err(PartsError::Memory { parts }),
    }
    match Vec::with_capacity(alloc, parts.len()) {
        Ok(room) => Ok(List::of(unpacked(by_number(parts.into_vec()), room))),
        Err(_) => Err(PartsError::Memory { parts }),
    }
}
