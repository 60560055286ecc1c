//! Attempts.
#![tactic(auto)]

ghost use Rattle.std.specs.Prelude.{◌≡◌, ◌+◌, ◌<◌, ◌≤◌, ◌^◌, length, true, false};
ghost use Rattle.dc_fs.specs.Causes.{steady_at};
ghost use Rattle.dc_attempt.specs.Attempts.{Answers, is_fault};
ghost use Rattle.dc_attempt.specs.Benches.{bench};
ghost use Rattle.dc_attempt.specs.Steps.{asked_for, most_reads};

use crate::Attempted;
use crate::attempted::ended;
use crate::copying::Copies;
use dc_fs::{Desk, Store};
use dc_path::Path;
use std::alloc::Global;

/// `attempt` as a method of each desk, for calls from a method of a trait, where a bound of a function that has `Send` is
/// not taken.
pub trait Attempts: Copies {
    /// As `attempt`, on this desk.
    fn attempt_from<S: Store>(
        &mut self,
        alloc: Global,
        reader: &mut S,
        path: &Path,
        from: u64,
        count: u64,
        buffer: &mut [u8],
        stop: Option<u64>,
    ) -> Attempted<Self::Temp>
        requires room { 0 < length buffer.old }
        requires fits { from + count < 2 ^ 64 }
        ensures tree { S.tree reader.new ≡ S.tree reader.old }
        ensures rest { S.rest reader.new ≡ S.rest reader.old }
        ensures later { S.faults reader.old ≤ S.faults reader.new }
        ensures looks { S.looks reader.new ≤ S.looks reader.old + most_reads (asked_for (S.tree reader.old) path.now from count (length buffer.old) stop) }
        ensures calm { steady_at (S.steady reader.new) (S.faults reader.new) ≡ steady_at (S.steady reader.old) (S.faults reader.old) }
        ensures tells { Self.tells self.new ≡ Self.tells self.old }
        ensures made { Self.made self.old ≤ Self.made self.new }
        ensures desk_later { Self.faults self.old ≤ Self.faults self.new }
        ensures desk_calm { steady_at (Self.steady self.new) (Self.faults self.new) ≡ steady_at (Self.steady self.old) (Self.faults self.old) }
        ensures answer { Answers Self.Temp.content Self.Temp.size (asked_for (S.tree reader.old) path.now from count (length buffer.old) stop) (bench Self.Desk self.old) (bench Self.Desk self.new) (S.faults reader.old) (S.faults reader.new) result }
        ensures never { S.steady reader.old ≡ true → Self.steady self.old ≡ true → is_fault result ≡ false }
    {
        ended(self.take_steps(alloc, reader, path, from, count, buffer, stop))
    }
}

impl<D: Desk> Attempts for D {}

/// Copies the `count` bytes of a file from the place `from` on into a temporary of a desk, through a buffer.
///
/// With `r` the number of bytes divided by the length of the buffer, rounded up, the steps are: 0 creates the temporary; from 1
/// to `r` a bufferful is read and appended; `r + 1` compares the digests; `r + 2` seals; `r + 3` hands the temporary out. The
/// attempt stops before the step `stop`. After every answer the buffer holds any bytes.
///
/// An empty range is not read, so its file may be missing.
pub fn attempt<S: Store, D: Desk>(
    alloc: Global,
    reader: &mut S,
    desk: &mut D,
    path: &Path,
    from: u64,
    count: u64,
    buffer: &mut [u8],
    stop: Option<u64>,
) -> Attempted<D::Temp>
    requires room { 0 < length buffer.old }
    requires fits { from + count < 2 ^ 64 }
    ensures tree { S.tree reader.new ≡ S.tree reader.old }
    ensures rest { S.rest reader.new ≡ S.rest reader.old }
    ensures later { S.faults reader.old ≤ S.faults reader.new }
    ensures looks { S.looks reader.new ≤ S.looks reader.old + most_reads (asked_for (S.tree reader.old) path.now from count (length buffer.old) stop) }
    ensures calm { steady_at (S.steady reader.new) (S.faults reader.new) ≡ steady_at (S.steady reader.old) (S.faults reader.old) }
    ensures tells { D.tells desk.new ≡ D.tells desk.old }
    ensures made { D.made desk.old ≤ D.made desk.new }
    ensures desk_later { D.faults desk.old ≤ D.faults desk.new }
    ensures desk_calm { steady_at (D.steady desk.new) (D.faults desk.new) ≡ steady_at (D.steady desk.old) (D.faults desk.old) }
    ensures answer { Answers D.Temp.content D.Temp.size (asked_for (S.tree reader.old) path.now from count (length buffer.old) stop) (bench D.Desk desk.old) (bench D.Desk desk.new) (S.faults reader.old) (S.faults reader.new) result }
    ensures never { S.steady reader.old ≡ true → D.steady desk.old ≡ true → is_fault result ≡ false }
{
    desk.attempt_from(alloc, reader, path, from, count, buffer, stop)
}
