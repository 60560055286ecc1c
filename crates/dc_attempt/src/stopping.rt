//! Why an attempt does not come to its end.
#![tactic(auto)]

ghost use Rattle.std.specs.Prelude.{◌≡◌, ◌↔◌, Some, IsTrue};

use dc_fs::DeskError;

/// Why an attempt does not come to its end.
#[derive(Drop)]
pub enum Stopped {
    /// The next step is the stop.
    Killed,
    /// The reader or the desk failed.
    Fault,
    /// The digest of what was read and that of the temporary differ.
    Differs {
        /// The digest of what was read.
        expected: [u8; 16],
        /// The digest of the temporary.
        found: [u8; 16],
    },
    /// The file is gone, or ends before the range does.
    Changed,
    /// Memory ran out.
    Memory,
}

impl From<DeskError> for Stopped {
    ghost use Rattle.std.specs.Prelude.{◌≡◌};
    ghost use Rattle.dc_attempt.specs.Steps.{stopped_of};

    ghost from_gives = { λ error e. e ≡ stopped_of error };

    fn from(error: DeskError) -> Stopped {
        match error {
            DeskError::Fault => Stopped::Fault,
            DeskError::Memory => Stopped::Memory,
        }
    }
}

/// Whether an attempt stops before this step.
pub fn is_stop(stop: Option<u64>, step: u128) -> bool
    ensures { IsTrue result ↔ (stop ≡ Some step) }
{
    match stop {
        Some(at) => u128::from(at) == step,
        None => false,
    }
}
