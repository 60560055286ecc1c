//! The standard output as a sink.
#![tactic(auto)]

ghost use Rattle.std.specs.Prelude.{◌≡◌, ℕ, List, None, Option};

use dc_fs::{Sink, SinkFault};
use std::io::ErrorKind;

/// The standard output. It tells nothing of what it has taken, and takes no memory.
#[derive(Drop)]
pub struct StdSink<'a, R: Print> {
    rt: &'a R,
    // Stands still at its last value.
    faults: u64,
}

impl<'a, R: Print> StdSink<'a, R> {
    /// The standard output, which has not failed yet.
    pub fn new(rt: &'a R) -> StdSink<'a, R>
        ensures untold { ⟦<StdSink<'a, R> as Sink>⟧.bytes result ≡ None }
        ensures unfailed { ⟦<StdSink<'a, R> as Sink>⟧.faults result ≡ 0 }
    {
        StdSink { rt, faults: 0 }
    }
}

// Writes a piece, however many calls it takes. An interrupted call is made again.
fn write_whole<R: Print>(rt: &R, piece: &[u8]) -> Result<(), SinkFault> {
    let mut done = 0usize;
    'writes: for _ in 0..u64::MAX {
        if done >= piece.len() {
            return Ok(());
        }
        match rt.write_some(&piece[done..]) {
            Ok(0) => return Err(SinkFault),
            Ok(count) => done += count,
            Err(e) if e.kind() == ErrorKind::Interrupted => {}
            Err(_) => return Err(SinkFault),
        }
    }
    Err(SinkFault)
}

impl<'a, R: Print> Sink for StdSink<'a, R> {
    ghost bytes = { λ _. None };

    ghost faults = { λ s. s.faults };

    ghost limit = { λ _. None };

    fn write(&mut self, piece: &[u8]) -> Result<(), SinkFault> {
        match write_whole(self.rt, piece) {
            Ok(()) => Ok(()),
            Err(fault) => {
                self.faults = self.faults.saturating_add(1);
                Err(fault)
            }
        }
    }
}
