//! Sinks in memory.
#![tactic(auto)]

ghost use Rattle.std.specs.Prelude.{◌≡◌, ◌<◌, ◌+◌, length, IfSome, false, [], Some, IfOk, IsTrue, OnOk, OnErr};
ghost use Rattle.dc_fs.specs.Causes.{HasCause};
ghost use Rattle.dc_memfs.specs.Sinks.{is_due, write_fails, with_piece, with_fault, limit_of};

use dc_fs::{Sink, SinkFault};
use dc_path::OutOfMemory;
use std::alloc::Global;
use std::marker::Model;

/// The most bytes that a sink in memory takes.
pub const MAX_SINK_BYTES: usize = 1_048_576;

/// A sink in memory, which tells what it has taken. It takes at most 1,048,576 bytes.
#[derive(Drop)]
pub struct MemSink {
    bytes: Vec<u8>,
    fail_at: Option<u64>,
    writes: u64,
    faults: u64,
}

impl Model for MemSink {
    ghost use Rattle.std.specs.Prelude.{◌≤◌, vec_len, vec_capacity};
    ghost use Rattle.dc_memfs.specs.Sinks.{Taking};

    ghost Value = { Taking };

    ghost view = { λ s. record { taken = s.bytes.items; fail_at = s.fail_at; writes = s.writes; faults = s.faults } };

    ghost invariant = { λ s. (vec_len s.bytes ≤ 1048576) × (1048576 ≤ vec_capacity s.bytes) };
}

impl MemSink {
    /// An empty sink. Its writes fail from the `fail_at`-th on, counted from 1, and take nothing. So does a write after
    /// which it would have more than `MAX_SINK_BYTES` bytes. The memory for all of them is taken here.
    pub fn new(alloc: Global, fail_at: Option<u64>) -> Result<MemSink, OutOfMemory>
        ensures state { IfOk result (λ sink. sink ≡ record { taken = []; fail_at = fail_at; writes = 0; faults = 0 }) }
        ensures bytes { IfOk result (λ sink. ⟦<MemSink as Sink>⟧.bytes sink ≡ Some []) }
        ensures faults { IfOk result (λ sink. ⟦<MemSink as Sink>⟧.faults sink ≡ 0) }
        ensures limit { IfOk result (λ sink. ⟦<MemSink as Sink>⟧.limit sink ≡ limit_of fail_at) }
    {
        let bytes = Vec::with_capacity(alloc, MAX_SINK_BYTES)?;
        Ok(MemSink {
            bytes,
            fail_at,
            writes: 0,
            faults: 0,
        })
    }

    /// What it has taken.
    pub fn bytes(&self) -> &[u8]
        ensures taken { result.now ≡ self.now.taken }
        ensures told { ⟦<MemSink as Sink>⟧.bytes self.now ≡ Some result.now }
    {
        self.bytes.as_slice()
    }

    // Whether the write that was counted last is to fail.
    fn is_due(&self) -> bool
        ensures { result ≡ is_due self.now.fail_at self.now.writes }
    {
        match self.fail_at {
            Some(first) => first <= self.writes,
            None => false,
        }
    }
}

impl Sink for MemSink {
    ghost bytes = { λ sink. Some sink.taken };

    ghost faults = { λ sink. sink.faults };

    ghost limit = { λ sink. limit_of sink.fail_at };

    fn write(&mut self, piece: &[u8]) -> Result<(), SinkFault>
        ensures taken { OnOk result (self.new ≡ with_piece piece.now self.old) }
        ensures stopped { OnErr result (self.new ≡ with_fault self.old) }
        ensures ok { OnOk result (write_fails piece.now self.old ≡ false) }
        ensures err { OnErr result (IsTrue (write_fails piece.now self.old)) }
        ensures past { OnErr result (IfSome (limit_of self.old.fail_at) (λ most. most < length self.old.taken + length piece.now)) }
        ensures cause { HasCause self.old.faults self.new.faults result (record {}) }
    {
        self.writes = self.writes.saturating_add(1);
        let room = MAX_SINK_BYTES - self.bytes.len();
        if self.is_due() || room < piece.len() || self.bytes.extend_from_slice(piece).is_err() {
            self.faults = self.faults.saturating_add(1);
            return Err(SinkFault);
        }
        Ok(())
    }
}
