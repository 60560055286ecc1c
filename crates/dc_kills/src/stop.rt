//! Where an attempt is stopped.
#![tactic(auto)]

/// Where an attempt is stopped.
#[derive(Clone, Copy, Debug, PartialEq, Eq)]
pub struct Stop {
    /// The step of the attempt that is not done any more, counted from 0.
    pub step: u64,
    /// Whether the worker that makes the attempt stops too.
    pub worker_too: bool,
}
