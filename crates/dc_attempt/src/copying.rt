//! The steps of an attempt.
#![tactic(auto)]

ghost use Rattle.std.specs.Prelude.{◌≡◌, ◌+◌, ◌<◌, ◌≤◌, ◌^◌, length, true, false, IsSome, IfOk, IfErr, OnOk, IsErrOf};
ghost use Rattle.dc_fs.specs.Causes.{steady_at};
ghost use Rattle.dc_attempt.specs.Attempts.{IsStill, Answers, attempted_of};
ghost use Rattle.dc_attempt.specs.Benches.{bench};
ghost use Rattle.dc_attempt.specs.Parts.{IsHashed, PartStops, IsCopied, RangeStops};
ghost use Rattle.dc_attempt.specs.Steps.{asked_for, reads, most_reads, NoStopBefore};

use crate::stopping::{Stopped, is_stop};
use dc_fs::{Desk, DeskError, ReadError, Store};
use dc_path::Path;
use md5::{Digest, Md5};
use std::alloc::Global;

/// The steps of an attempt, as methods of each desk.
pub trait Copies: Desk {
    /// Reads one bufferful, hashes it, and appends it to the temporary at work.
    fn copy_part<S: Store>(
        &mut self,
        alloc: Global,
        reader: &mut S,
        path: &Path,
        at: u64,
        into: &mut [u8],
        hasher: &mut Md5,
    ) -> Result<(), Stopped>
        requires { IsSome (Self.current self.old) }
        ensures tree { S.tree reader.new ≡ S.tree reader.old }
        ensures rest { S.rest reader.new ≡ S.rest reader.old }
        ensures later { S.faults reader.old ≤ S.faults reader.new }
        ensures looks { S.looks reader.new ≤ S.looks reader.old + 1 }
        ensures calm { steady_at (S.steady reader.new) (S.faults reader.new) ≡ steady_at (S.steady reader.old) (S.faults reader.old) }
        ensures tells { Self.tells self.new ≡ Self.tells self.old }
        ensures made { Self.made self.new ≡ Self.made self.old }
        ensures desk_later { Self.faults self.old ≤ Self.faults self.new }
        ensures desk_calm { steady_at (Self.steady self.new) (Self.faults self.new) ≡ steady_at (Self.steady self.old) (Self.faults self.old) }
        ensures still { OnOk result (IsStill (bench Self.Desk self.old) (bench Self.Desk self.new) (S.faults reader.old) (S.faults reader.new)) }
        ensures read { OnOk result (IsHashed (S.tree reader.old) path.now at (length into.old) (bench Self.Desk self.old) (bench Self.Desk self.new) hasher.old hasher.new) }
        ensures stopped { IfErr result (PartStops (S.tree reader.old) path.now at (length into.old) (bench Self.Desk self.old) (bench Self.Desk self.new) (S.faults reader.old) (S.faults reader.new)) }
        ensures never { S.steady reader.old ≡ true → Self.steady self.old ≡ true → IsErrOf result Stopped.Fault → ⊥ }
    {
        match reader.read_at(alloc, path, at, into) {
            Ok(count) => {
                if count < into.len() {
                    return Err(Stopped::Changed);
                }
            }
            Err(ReadError::Fault) => return Err(Stopped::Fault),
            Err(ReadError::Memory) => return Err(Stopped::Memory),
            Err(ReadError::Missing) => return Err(Stopped::Changed),
            Err(ReadError::NotDir) => return Err(Stopped::Changed),
            Err(ReadError::IsDir) => return Err(Stopped::Changed),
            Err(ReadError::Short) => return Err(Stopped::Changed),
        }
        hasher.update(&*into);
        match self.append(alloc, into) {
            Ok(()) => Ok(()),
            Err(DeskError::Fault) => Err(Stopped::Fault),
            Err(DeskError::Memory) => Err(Stopped::Memory),
        }
    }

    /// Copies a range to the temporary at work, a bufferful at a time. It answers the step behind the last.
    fn copy_range<S: Store>(
        &mut self,
        alloc: Global,
        reader: &mut S,
        path: &Path,
        from: u64,
        count: u64,
        buffer: &mut [u8],
        stop: Option<u64>,
        hasher: &mut Md5,
    ) -> Result<u128, Stopped>
        requires room { 0 < length buffer.old }
        requires fits { from + count < 2 ^ 64 }
        requires begun { IsCopied (asked_for (S.tree reader.old) path.now from count (length buffer.old) stop) 0 (Self.tells self.old) (bench Self.Desk self.old) hasher.old }
        requires unstopped { NoStopBefore stop 1 }
        ensures tree { S.tree reader.new ≡ S.tree reader.old }
        ensures rest { S.rest reader.new ≡ S.rest reader.old }
        ensures later { S.faults reader.old ≤ S.faults reader.new }
        ensures looks { S.looks reader.new ≤ S.looks reader.old + most_reads (asked_for (S.tree reader.old) path.now from count (length buffer.old) stop) }
        ensures calm { steady_at (S.steady reader.new) (S.faults reader.new) ≡ steady_at (S.steady reader.old) (S.faults reader.old) }
        ensures tells { Self.tells self.new ≡ Self.tells self.old }
        ensures made { Self.made self.new ≡ Self.made self.old }
        ensures desk_later { Self.faults self.old ≤ Self.faults self.new }
        ensures desk_calm { steady_at (Self.steady self.new) (Self.faults self.new) ≡ steady_at (Self.steady self.old) (Self.faults self.old) }
        ensures still { OnOk result (IsStill (bench Self.Desk self.old) (bench Self.Desk self.new) (S.faults reader.old) (S.faults reader.new)) }
        ensures copied { OnOk result (IsCopied (asked_for (S.tree reader.old) path.now from count (length buffer.old) stop) count (Self.tells self.old) (bench Self.Desk self.new) hasher.new) }
        ensures step { IfOk result (λ step. step ≡ reads (asked_for (S.tree reader.old) path.now from count (length buffer.old) stop) + 1) }
        ensures goes_on { IfOk result (NoStopBefore stop) }
        ensures stopped { IfErr result (RangeStops (asked_for (S.tree reader.old) path.now from count (length buffer.old) stop) (Self.tells self.old) (bench Self.Desk self.old) (bench Self.Desk self.new) (S.faults reader.old) (S.faults reader.new)) }
        ensures never { S.steady reader.old ≡ true → Self.steady self.old ≡ true → IsErrOf result Stopped.Fault → ⊥ }
    {
        let mut done = 0u64;
        let mut step = 1u128;
        'reads: while done < count {
            if is_stop(stop, step) {
                return Err(Stopped::Killed);
            }
            let left = count - done;
            let want = left.min(buffer.len() as u64) as usize;
            self.copy_part(
                alloc,
                reader,
                path,
                from + done,
                &mut buffer[..want],
                hasher,
            )?;
            done += want as u64;
            step += 1;
        }
        Ok(step)
    }

    /// Takes all steps, and hands the temporary out.
    fn take_steps<S: Store>(
        &mut self,
        alloc: Global,
        reader: &mut S,
        path: &Path,
        from: u64,
        count: u64,
        buffer: &mut [u8],
        stop: Option<u64>,
    ) -> Result<Self::Temp, Stopped>
        requires room { 0 < length buffer.old }
        requires fits { from + count < 2 ^ 64 }
        ensures tree { S.tree reader.new ≡ S.tree reader.old }
        ensures rest { S.rest reader.new ≡ S.rest reader.old }
        ensures later { S.faults reader.old ≤ S.faults reader.new }
        ensures looks { S.looks reader.new ≤ S.looks reader.old + most_reads (asked_for (S.tree reader.old) path.now from count (length buffer.old) stop) }
        ensures calm { steady_at (S.steady reader.new) (S.faults reader.new) ≡ steady_at (S.steady reader.old) (S.faults reader.old) }
        ensures tells { Self.tells self.new ≡ Self.tells self.old }
        ensures made { Self.made self.old ≤ Self.made self.new }
        ensures desk_later { Self.faults self.old ≤ Self.faults self.new }
        ensures desk_calm { steady_at (Self.steady self.new) (Self.faults self.new) ≡ steady_at (Self.steady self.old) (Self.faults self.old) }
        ensures answer { Answers Self.Temp.content Self.Temp.size (asked_for (S.tree reader.old) path.now from count (length buffer.old) stop) (bench Self.Desk self.old) (bench Self.Desk self.new) (S.faults reader.old) (S.faults reader.new) (attempted_of result) }
        ensures never { S.steady reader.old ≡ true → Self.steady self.old ≡ true → IsErrOf result Stopped.Fault → ⊥ }
    {
        if is_stop(stop, 0) {
            return Err(Stopped::Killed);
        }
        self.create(alloc)?;
        let mut hasher = Md5::new();
        let step = self.copy_range(alloc, reader, path, from, count, buffer, stop, &mut hasher)?;
        if is_stop(stop, step) {
            return Err(Stopped::Killed);
        }
        let expected = hasher.finalize();
        let found = self.digest(alloc)?;
        if expected != found {
            return Err(Stopped::Differs { expected, found });
        }
        if is_stop(stop, step + 1) {
            return Err(Stopped::Killed);
        }
        let temp = self.seal(alloc)?;
        if is_stop(stop, step + 2) {
            return Err(Stopped::Killed);
        }
        Ok(temp)
    }
}

impl<D: Desk> Copies for D {}
