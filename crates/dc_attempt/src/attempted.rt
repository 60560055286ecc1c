//! How an attempt ends.
#![tactic(auto)]

ghost use Rattle.std.specs.Prelude.{◌≡◌};
ghost use Rattle.dc_attempt.specs.Attempts.{attempted_of};

use crate::stopping::Stopped;

/// How an attempt ended.
#[derive(Drop)]
pub enum Attempted<P> {
    /// The range stands in a sealed temporary.
    Sealed(P),
    /// The attempt was stopped before a step.
    Killed,
    /// The reader or the desk failed.
    Fault,
    /// The digest of what was read and that of the temporary differ.
    Differs {
        /// The digest of what was read.
        expected: [u8; 16],
        /// The digest of the temporary.
        found: [u8; 16],
    },
    /// The file is gone, or ends before the range does.
    Changed,
    /// Memory ran out.
    Memory,
}

// The end of an attempt whose steps came to this.
pub(crate) fn ended<P>(answer: Result<P, Stopped>) -> Attempted<P>
    ensures { result ≡ attempted_of answer }
{
    match answer {
        Ok(temp) => Attempted::Sealed(temp),
        Err(Stopped::Killed) => Attempted::Killed,
        Err(Stopped::Fault) => Attempted::Fault,
        Err(Stopped::Differs { expected, found }) => Attempted::Differs { expected, found },
        Err(Stopped::Changed) => Attempted::Changed,
        Err(Stopped::Memory) => Attempted::Memory,
    }
}
