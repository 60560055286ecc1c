//! The move of the work path to its place.
#![tactic(auto)]

ghost use Rattle.std.specs.Prelude.{◌≡◌, ℕ, ◌+◌, ◌≤◌, IfSome, None};
ghost use Rattle.dc_attrs.specs.Refusals.{refused_rename};
ghost use Rattle.dc_attrs.specs.Trees.{moved, seen};
ghost use Rattle.dc_fs.specs.Causes.{steady_at};
ghost use Rattle.dc_fs.specs.Views.{view};
ghost use Rattle.dc_commit.specs.Moving.{Shows, AfterMove, AfterTry, LookCause, MoveCause, TryCause, KeepsButRenames};

use dc_attrs::Seen;
use dc_fs::{LookFault, Target, WriteError};
use dc_path::Path;
use std::alloc::Global;

/// What became of the work path.
#[derive(Clone, Copy, Debug, PartialEq, Eq)]
pub enum Moved {
    /// It stands at its place.
    Moved,
    /// It stands where it was: three renames failed, and after each a look found nothing at the place.
    NotMoved,
    /// It stands where it was or at its place: a rename failed, and then three looks did.
    Uncertain,
    /// The target denied what it allowed by what it showed before.
    Changed,
    /// It stands where it was: memory ran out.
    Memory,
}

// What looks at a path found.
#[derive(Clone, Copy)]
enum Look {
    There,
    Absent,
    Unknown,
}

// What a look that succeeds finds.
fn found(seen: Seen) -> Look
    ensures shows { Shows result seen }
    ensures cause { (before : ℕ) (now : ℕ) → LookCause result before now }
{
    match seen {
        Seen::Dir | Seen::File { .. } => Look::There,
        Seen::Missing | Seen::NotDir => Look::Absent,
    }
}

// Looks at a path, up to three times, until a look is no fault.
fn look_thrice<T: Target>(target: &mut T, place: &Path) -> Look
    ensures tree { T.tree target.new ≡ T.tree target.old }
    ensures rest { T.rest target.new ≡ T.rest target.old }
    ensures shows { IfSome (T.tree target.old) (λ t. Shows result (seen t place.now)) }
    ensures later { T.faults target.old ≤ T.faults target.new }
    ensures cause { LookCause result (T.faults target.old) (T.faults target.new) }
    ensures calm { steady_at (T.steady target.new) (T.faults target.new) ≡ steady_at (T.steady target.old) (T.faults target.old) }
    ensures looks { T.looks target.new ≤ T.looks target.old + 3 }
{
    for turn in 0u32..3 {
        match target.kind(place) {
            Ok(seen) => return found(seen),
            Err(LookFault) => {}
        }
    }
    Look::Unknown
}

// One rename, and looks after one that is a fault. None asks for the next try.
fn try_move<T: Target>(alloc: Global, target: &mut T, work: &Path, place: &Path) -> Option<Moved>
    ensures tree { IfSome (T.tree target.old) (λ t. refused_rename t work.now place.now ≡ None → AfterTry result t (moved t work.now place.now) (T.tree target.new)) }
    ensures kept { KeepsButRenames (view T.Store target.old) (view T.Store target.new) }
    ensures cause { TryCause result (view T.Store target.old) (view T.Store target.new) }
    ensures looks { T.looks target.new ≤ T.looks target.old + 4 }
{
    match target.rename(alloc, work, place) {
        Ok(()) => Some(Moved::Moved),
        Err(WriteError::Memory) => Some(Moved::Memory),
        Err(WriteError::Fault) => match look_thrice(target, place) {
            Look::There => Some(Moved::Moved),
            Look::Absent => None,
            Look::Unknown => Some(Moved::Uncertain),
        },
        Err(_) => Some(Moved::Changed),
    }
}

/// Moves the work path to its place, in up to three tries. After a rename that is a fault it looks at the place, up to three
/// times, until a look is no fault: the work path has been moved where something stands there, and else is tried again.
///
/// What is said of the tree is said where the target's tree refuses no such rename at the call.
pub fn move_work<T: Target>(alloc: Global, target: &mut T, work: &Path, place: &Path) -> Moved
    ensures tree { IfSome (T.tree target.old) (λ t. refused_rename t work.now place.now ≡ None → AfterMove result t (moved t work.now place.now) (T.tree target.new)) }
    ensures kept { KeepsButRenames (view T.Store target.old) (view T.Store target.new) }
    ensures cause { MoveCause result (view T.Store target.old) (view T.Store target.new) }
    ensures looks { T.looks target.new ≤ T.looks target.old + 12 }
{
    for turn in 0u32..3 {
        match try_move(alloc, target, work, place) {
            Some(moved) => return moved,
            None => {}
        }
    }
    Moved::NotMoved
}
