//! How a run ended, and what it prints then.
#![tactic(auto)]

use dc_engine::{Counts, Outcome};
use dc_memfs::MemSink;
use dc_output::{Answer, print, status};
use dc_path::OutOfMemory;
use std::alloc::Global;

/// The answer of a run that is not printed yet.
pub(crate) fn unprinted(outcome: Outcome) -> Answer {
    Answer {
        outcome,
        counts: Counts::NONE,
        moves: 0,
        printed: false,
    }
}

/// Whether an answer prints this text, and has this status then.
pub(crate) fn prints(
    alloc: Global,
    mut answer: Answer,
    text: &str,
    code: u8,
) -> Result<bool, OutOfMemory> {
    let mut sink = MemSink::new(alloc, None)?;
    answer.printed = print(&answer, &mut sink);
    Ok(answer.printed && sink.bytes() == text.as_bytes() && status(&answer) == code)
}

/// Whether a run that ended so prints this text, and has this status, whether it printed it or not.
pub(crate) fn ends(
    alloc: Global,
    outcome: Outcome,
    text: &str,
    code: u8,
) -> Result<bool, OutOfMemory> {
    let answer = unprinted(outcome);
    Ok(status(&answer) == code && prints(alloc, answer, text, code)?)
}
