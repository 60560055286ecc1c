//! What a line of a kill plan says.
#![tactic(auto)]

ghost use Rattle.std.specs.Prelude.{◌≡◌};
ghost use Rattle.std.specs.Option.{option_copied};
ghost use Rattle.dc_kills.specs.Entries.{entry_from, worker_from};
ghost use Rattle.dc_kills.specs.Parts.{parts_behind};

use crate::Stop;
use crate::parts::first_part;
use dc_path::read_number;

/// The greatest number of a piece that a plan may name.
pub const MAX_PIECE: u64 = 8_388_607;

/// The greatest number of an attempt that a plan may name.
pub const MAX_ATTEMPT: u64 = 4_294_967_295;

// Whether the worker stops too, by what follows the blank behind the step, if there is one.
fn read_worker(rest: Option<&[u8]>) -> Option<bool>
    ensures { result ≡ worker_from (parts_behind (option_copied rest.entry)) }
{
    let Some(rest) = rest else {
        return Some(false);
    };
    let (word, others) = first_part(rest);
    if others.is_some() || word != b"worker".as_slice() {
        return None;
    }
    Some(true)
}

/// The entry that a line spells; `None` where it is of no such form.
///
/// A line is `PIECE ATTEMPT STEP` or `PIECE ATTEMPT STEP worker`, with one blank between two parts.
pub fn read_entry(line: &[u8]) -> Option<((u32, u32), Stop)>
    ensures { result ≡ entry_from line.now }
{
    let (piece, rest) = first_part(line);
    let (attempt, rest) = first_part(rest?);
    let (step, rest) = first_part(rest?);
    let worker_too = read_worker(rest)?;
    let piece = read_number(piece, 0, MAX_PIECE)? as u32;
    let attempt = read_number(attempt, 1, MAX_ATTEMPT)? as u32;
    let step = read_number(step, 0, u64::MAX)?;
    Some(((piece, attempt), Stop { step, worker_too }))
}
