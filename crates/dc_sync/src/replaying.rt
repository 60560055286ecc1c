//! The moves of a report, made on a target one after the other.
#![tactic(auto)]

ghost use Rattle.std.specs.Prelude.{◌≡◌, ◌≤◌, ◌+◌, length, IfSome, IfErr, true};
ghost use Rattle.dc_fs.specs.Answers.{Changes, WriteAnswers, is_refusal};
ghost use Rattle.dc_fs.specs.Causes.{HasCause, steady_at};
ghost use Rattle.dc_fs.specs.Rest.{after_rename};
ghost use Rattle.dc_fs.specs.Views.{view};
ghost use Rattle.dc_replay.specs.Refused.{refused};
ghost use Rattle.dc_replay.specs.Steps.{step};
ghost use Rattle.dc_sync.specs.Replays.{KeepsIn, Leaves, Stops, Keeps};

use dc_fs::{Target, WriteError};
use dc_path::{List, OutOfMemory, Path};
use dc_report::Move;
use std::alloc::Global;

/// What became of the moves of a report. `done` counts those that are made.
#[derive(Drop)]
pub enum Replayed {
    /// All are made.
    Done,
    /// The target failed. The next move is made or not.
    Stopped { done: u64 },
    /// The target refused the next move, of which this is the first path. No more is made.
    Changed { path: Path, done: u64 },
    /// Memory ran out. No more is made.
    Memory { done: u64 },
}

// Makes one move.
fn make_move<T: Target>(alloc: Global, target: &mut T, one: &Move) -> Result<(), WriteError>
    ensures tree { Changes (step one.now) (T.tree target.old) (T.tree target.new) result }
    ensures answers { IfSome (T.tree target.old) (λ t. WriteAnswers (refused t one.now) result) }
    ensures kept { KeepsIn (view T.Store target.old) (view T.Store target.new) result }
    ensures looks { T.looks target.new ≤ T.looks target.old + 1 }
{
    match one {
        Move::Make { path } => target.make_dir(alloc, path),
        Move::Shift { from, to } => target.rename(alloc, from, to),
        Move::Clear { path } => target.remove(alloc, path),
    }
}

// The answer where the target refused a move, after so many others.
fn stopped(alloc: Global, error: WriteError, one: &Move, done: u64) -> Replayed
    ensures { Stops error one.now done result }
{
    let path = match one {
        Move::Make { path } => path,
        Move::Shift { from, .. } => from,
        Move::Clear { path } => path,
    };
    match error {
        WriteError::Fault => Replayed::Stopped { done },
        WriteError::Memory => Replayed::Memory { done },
        _ => match path.copy(alloc) {
            Ok(path) => Replayed::Changed { path, done },
            Err(OutOfMemory) => Replayed::Memory { done },
        },
    }
}

/// Makes the moves of a report on a target, in their order (Hadoop DistCp, `DistCpSync`; HDFS-7535).
///
/// It stops at the first move that is not made:
///
/// - `Stopped`, only where the target's count of faults rose; the tree is that after `done` moves, or after one more;
/// - `Changed`, only where the target's tree refuses the move, which `checked` of `replay_laws` excludes for a report that fits;
/// - `Memory`, at any move; of its own it takes memory for the path of `Changed` alone.
///
/// After each number of moves below all of them every file stands, where the moves take it, as `replay_laws` of `dc_replay` say.
pub fn replay<T: Target>(alloc: Global, target: &mut T, moves: &List<Move>) -> Replayed
    ensures tree { Leaves moves.now (T.tree target.old) (T.tree target.new) result }
    ensures kept { Keeps (view T.Store target.old) (view T.Store target.new) result }
    ensures looks { T.looks target.new ≤ T.looks target.old + length moves.now }
{
    let mut done = 0u64;
    for one in moves.as_slice() {
        match make_move(alloc, target, one) {
            Ok(()) => done += 1,
            Err(error) => return stopped(alloc, error, one, done),
        }
    }
    Replayed::Done
}
