//! Counts of looks and faults.
#![tactic(auto)]

ghost use Rattle.std.specs.Prelude.{◌≡◌, ◌≤◌, true, IfErr};
ghost use Rattle.dc_fs.specs.Answers.{is_refusal};
ghost use Rattle.dc_fs.specs.Causes.{raised, Rose, RisesByOne, HasCause};

use dc_attrs::Seen;
use dc_fs::{DeskError, LookFault, ReadError, WriteError};

// A count with one more; it stands still at its last value.
pub(crate) fn one_more(count: u64) -> u64
    ensures value { result ≡ raised count }
    ensures later { count ≤ result }
    ensures once { RisesByOne count result }
{
    count.saturating_add(1)
}

// The count of faults after a refusal of a desk.
pub(crate) fn after_desk(faults: u64, error: DeskError) -> u64
    ensures later { faults ≤ result }
    ensures rose { error ≡ DeskError.Fault → Rose faults result }
{
    match error {
        DeskError::Fault => one_more(faults),
        DeskError::Memory => faults,
    }
}

/// How often a store was called, and how often it has failed.
#[derive(Drop)]
pub struct Counts {
    pub looks: u64,
    pub faults: u64,
}

impl Counts {
    // Nothing was counted yet.
    pub(crate) fn new() -> Counts
        ensures looks { result.looks ≡ 0 }
        ensures faults { result.faults ≡ 0 }
    {
        Counts {
            looks: 0,
            faults: 0,
        }
    }

    // Counts a look at a path with its answer.
    pub(crate) fn see(&mut self, answer: Result<Seen, ReadError>) -> Result<Seen, LookFault>
        ensures looks { self.new.looks ≡ raised self.old.looks }
        ensures cause { HasCause self.old.faults self.new.faults result (record {}) }
    {
        self.looks = one_more(self.looks);
        match answer {
            Ok(shown) => Ok(shown),
            Err(_) => {
                self.faults = one_more(self.faults);
                Err(LookFault)
            }
        }
    }

    // Counts a call that reads with its answer, which it hands back.
    pub(crate) fn read<T>(&mut self, answer: Result<T, ReadError>) -> Result<T, ReadError>
        ensures same { result ≡ answer }
        ensures looks { self.new.looks ≡ raised self.old.looks }
        ensures cause { HasCause self.old.faults self.new.faults answer ReadError.Fault }
    {
        self.looks = one_more(self.looks);
        if let Err(ReadError::Fault) = answer {
            self.faults = one_more(self.faults);
        }
        answer
    }

    // Counts a call that changes with its answer, which it hands back.
    pub(crate) fn change<T>(&mut self, answer: Result<T, WriteError>) -> Result<T, WriteError>
        ensures same { result ≡ answer }
        ensures looks { RisesByOne self.old.looks self.new.looks }
        ensures cause { HasCause self.old.faults self.new.faults answer WriteError.Fault }
        ensures refused { IfErr answer (λ e. is_refusal e ≡ true → self.new.faults ≡ self.old.faults) }
    {
        self.looks = one_more(self.looks);
        if let Err(WriteError::Fault) = answer {
            self.faults = one_more(self.faults);
        }
        answer
    }
}
