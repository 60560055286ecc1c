//! A crew that is told what becomes of some numbers.
#![tactic(auto)]

ghost use Rattle.std.specs.Prelude.{◌≡◌, ◌==◌, ◌||◌, ◌<◌, ◌^◌, length, IfOk};

use dc_path::{List, OutOfMemory};
use dc_pool::{Crew, Wave, Worked, wave};
use dc_split::uniform;
use std::alloc::Global;
use std::thread::Threads;

/// What becomes of four numbers. The first line that names a number decides, and all others are done.
#[derive(Drop)]
pub(crate) struct Script {
    /// How many numbers there are.
    pub count: u32,
    /// The number that is killed with its worker.
    pub stopper: u32,
    /// The number that is killed alone.
    pub killed: u32,
    /// The number that fails.
    pub failing: u32,
    /// The number that ends for good.
    pub ending: u32,
}

/// A slot that counts what failed and what was made in it.
#[derive(Drop)]
pub(crate) struct Place {
    faults: u64,
    made: u64,
}

impl Crew for Script {
    type Slot = Place;

    type Receipt = u32;

    type End = u32;

    ghost count = { λ s. s.count };

    ghost fit = { λ _ _. Unit {0} };

    ghost right = { λ _ n value. value ≡ n };

    ghost right_end = { λ _ n value. value ≡ n };

    ghost doomed = { λ s n. (n == s.stopper) || (n == s.killed) };

    ghost stops = { λ s n. n == s.stopper };

    ghost late = { λ s n. n == s.killed };

    ghost faults = { λ p. p.faults };

    ghost makes = { λ p. p.made };

    fn work(&self, _alloc: Global, slot: &mut Place, number: u32) -> Worked<u32, u32> {
        if number == self.stopper {
            slot.made = slot.made.saturating_add(1);
            return Worked::Killed { worker_too: true };
        }
        if number == self.killed {
            slot.made = slot.made.saturating_add(1);
            return Worked::Killed { worker_too: false };
        }
        if number == self.failing {
            slot.faults = slot.faults.saturating_add(1);
            return Worked::Failed;
        }
        if number == self.ending {
            return Worked::Ended(number);
        }
        slot.made = slot.made.saturating_add(1);
        Worked::Done(number)
    }
}

// So many slots.
fn places(alloc: Global, count: u32) -> Result<List<Place>, OutOfMemory>
    ensures { IfOk result (λ places. length places ≡ count) }
{
    let mut places = List::new(alloc);
    for _place in 0..count {
        places.add(Place { faults: 0, made: 0 })?;
    }
    Ok(places)
}

/// A wave over records of these lengths, in as many bundles as `uniform` makes for two maps.
pub(crate) fn run<R: Threads + Sync>(
    rt: &R,
    alloc: Global,
    script: &Script,
    lengths: &[u64],
    workers: u32,
) -> Result<Wave<u32, u32>, OutOfMemory>
    requires some { 0 < workers }
    requires few { length lengths.now < 2 ^ 32 }
    requires all { length lengths.now ≡ script.now.count }
{
    let bundles = uniform(alloc, lengths, 2)?;
    let mut slots = places(alloc, workers)?;
    wave(rt, alloc, script, &mut slots, &bundles)
}
