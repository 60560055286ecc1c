//! Why the waves end before all pieces are done.
#![tactic(auto)]

ghost use Rattle.std.specs.Prelude.{◌≡◌, ℕ, ◌<◌, ◌≤◌, ◌^◌, ◌⊎◌, [], length, take, map, Some, IfSome, IfNone, All};
ghost use Rattle.dc_crew.specs.Halts.{halt_of, rank, IsEarliest};
ghost use Rattle.dc_crew.specs.Jobs.{task_of};
ghost use Rattle.dc_crew.specs.States.{state_of};
ghost use Rattle.dc_crew.specs.Advances.{IsGivenUp};

use crate::crew::{End, Task};
use crate::states::{MAX_FAILED, State};
use dc_path::OutOfMemory;
use dc_pool::Receipt;

/// Why the waves end before all pieces are done.
#[derive(Clone, Copy)]
pub enum Halt {
    /// Memory ran out.
    Memory,
    /// The digests of a piece differ.
    Differs {
        piece: u32,
        expected: [u8; 16],
        found: [u8; 16],
    },
    /// The file of a piece has changed.
    Changed {
        piece: u32,
    },
    /// A piece has failed four times.
    Failed {
        piece: u32,
    },
}

impl From<OutOfMemory> for Halt {
    ghost use Rattle.std.specs.Prelude.{◌≡◌};
    ghost use Rattle.dc_crew.specs.declared.halts.Halt.TheVariants.{Memory};

    ghost from_gives = { λ _ h. h ≡ Memory };

    fn from(_lack: OutOfMemory) -> Halt {
        Halt::Memory
    }
}

// Why a piece halts the waves.
fn halt_by(piece: u32, end: &End) -> Halt
    ensures { result ≡ halt_of piece end.now }
{
    match end {
        End::Memory => Halt::Memory,
        End::Differs { expected, found } => Halt::Differs {
            piece,
            expected: *expected,
            found: *found,
        },
        End::Changed => Halt::Changed { piece },
    }
}

// Memory before all pieces, and these in order.
fn rank_of(halt: Halt) -> u64
    ensures { result ≡ rank halt }
{
    match halt {
        Halt::Memory => 0,
        Halt::Differs { piece, .. } => u64::from(piece) + 1,
        Halt::Changed { piece } => u64::from(piece) + 1,
        Halt::Failed { piece } => u64::from(piece) + 1,
    }
}

// The one that comes first.
fn earlier(one: Halt, other: Halt) -> Halt
    ensures least { (rank result ≤ rank one) × (rank result ≤ rank other) }
    ensures either { (result ≡ one) ⊎ (result ≡ other) }
{
    if rank_of(one) <= rank_of(other) {
        one
    } else {
        other
    }
}

/// The first piece that was given up, in order.
pub(crate) fn given_up(states: &[State]) -> Option<u32>
    requires { length states.now < 2 ^ 32 }
    ensures some { IfSome result (IsGivenUp states.now) }
    ensures none { IfNone result ((q : ℕ) → (state_of states.now q).failed < 4) }
{
    for place in 0..states.len() {
        if states[place].failed >= MAX_FAILED {
            return Some(place as u32);
        }
    }
    None
}

/// The end that comes first, if there is one.
pub(crate) fn first_end(ended: &[Receipt<End>], tasks: &[Task]) -> Option<Halt>
    requires { All (λ r. r.number < length tasks.now) ended.now }
    ensures some { IfSome result (IsEarliest tasks.now ended.now) }
    ensures none { IfNone result (ended.now ≡ []) }
{
    let first = ended.first()?;
    let mut best = halt_by(tasks[first.number as usize].piece, &first.value);
    for receipt in ended {
        let next = halt_by(tasks[receipt.number as usize].piece, &receipt.value);
        best = earlier(best, next);
    }
    Some(best)
}
