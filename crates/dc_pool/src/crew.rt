//! What is done with a number, and in what.
#![tactic(auto)]

ghost use Rattle.std.specs.Prelude.{ℕ, ◌<◌, Bool};

use std::alloc::Global;

/// What came of the work on a number.
#[derive(Drop)]
pub enum Worked<R, E> {
    /// It is done, with a receipt.
    Done(R),
    /// It failed, and may be tried again.
    Failed,
    /// It was killed, maybe with its worker.
    Killed {
        /// Whether the worker is to stop.
        worker_too: bool,
    },
    /// It ended for good.
    Ended(E),
}

/// What is done with each number. Many threads share a crew, and each works in a slot of its own.
pub trait Crew: Sync {
    /// What a worker works in.
    type Slot: Send + Drop;

    /// What a number that is done gives.
    type Receipt: Send + Drop;

    /// How a number ends for good.
    type End: Send + Drop;

    ghost use Rattle.dc_pool.specs.Answers.{Answers};
    ghost use Rattle.dc_pool.specs.Counts.{RoseBy, failures, gifts};

    /// How many numbers there are. They count from 0.
    ghost count: { Self → ℕ };

    /// The slots that can be worked in.
    ghost fit: { Self → Self.Slot → Type 0 };

    /// The receipts that are right for a number.
    ghost right: { Self → ℕ → Self.Receipt → Type 0 };

    /// The ends that are right for a number.
    ghost right_end: { Self → ℕ → Self.End → Type 0 };

    /// The numbers that are to be killed.
    ghost doomed: { Self → ℕ → Bool };

    /// Those of them that are to be killed with their worker.
    ghost stops: { Self → ℕ → Bool };

    /// Those of them that are to be killed after something was made.
    ghost late: { Self → ℕ → Bool };

    /// How often work in a slot has failed.
    ghost faults: { Self.Slot → ℕ };

    /// How often something was made in a slot.
    ghost makes: { Self.Slot → ℕ };

    /// Works on a number, in a slot.
    ///
    /// It is killed exactly where that is said of it, and fails only where the slot's faults rose. What is done was made in the
    /// slot. Whatever the answer, the slot stays fit and its counts have not fallen.
    fn work(
        &self,
        alloc: Global,
        slot: &mut Self::Slot,
        number: u32,
    ) -> Worked<Self::Receipt, Self::End>
        requires known { number < count self.now }
        requires fit { fit self.now slot.old }
        ensures fit { fit self.now slot.new }
        ensures answer { Answers (right self.now number) (right_end self.now number) (doomed self.now number) (stops self.now number) result }
        ensures faults { RoseBy (failures result) (faults slot.old) (faults slot.new) }
        ensures makes { RoseBy (gifts (late self.now number) result) (makes slot.old) (makes slot.new) };
}
