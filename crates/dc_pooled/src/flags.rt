//! Two workers run at a time.
#![tactic(auto)]

ghost use Rattle.std.specs.Prelude.{◌≡◌, false, length, IfOk};

use dc_path::{List, OutOfMemory};
use dc_pool::{Crew, Wave, Worked, wave};
use dc_split::dynamic;
use std::alloc::Global;
use std::sync::atomic::{AtomicBool, Ordering};
use std::test::Fail;
use std::thread::Threads;

// Each of two numbers sets its flag, and looks for the other's. The receipt says whether it was seen.
#[derive(Drop)]
struct Flags {
    first: AtomicBool,
    second: AtomicBool,
}

// Looks at a flag until it is set, but not for ever.
fn is_seen(flag: &AtomicBool) -> bool {
    for _ in 0..100_000_000u64 {
        if flag.load(Ordering::SeqCst) {
            return true;
        }
    }
    false
}

// Sets one flag, and looks for the other.
fn set_and_look(mine: &AtomicBool, other: &AtomicBool) -> bool {
    mine.store(true, Ordering::SeqCst);
    is_seen(other)
}

// A slot that counts what was made in it.
#[derive(Drop)]
struct Place {
    made: u64,
}

impl Crew for Flags {
    type Slot = Place;

    type Receipt = bool;

    type End = ();

    ghost count = { λ _. 2 };

    ghost fit = { λ _ _. Unit {0} };

    ghost right = { λ _ _ _. Unit {0} };

    ghost right_end = { λ _ _ _. Unit {0} };

    ghost doomed = { λ _ _. false };

    ghost stops = { λ _ _. false };

    ghost late = { λ _ _. false };

    ghost faults = { λ _. 0 };

    ghost makes = { λ p. p.made };

    fn work(&self, _alloc: Global, slot: &mut Place, number: u32) -> Worked<bool, ()> {
        slot.made = slot.made.saturating_add(1);
        if number == 0 {
            Worked::Done(set_and_look(&self.first, &self.second))
        } else {
            Worked::Done(set_and_look(&self.second, &self.first))
        }
    }
}

// Two slots.
fn two_places(alloc: Global) -> Result<List<Place>, OutOfMemory>
    ensures { IfOk result (λ places. length places ≡ 2) }
{
    let mut places = List::new(alloc);
    places.add(Place { made: 0 })?;
    places.add(Place { made: 0 })?;
    Ok(places)
}

// A wave of two bundles of one number each, in two slots.
fn run<R: Threads + Sync>(rt: &R, alloc: Global) -> Result<Wave<bool, ()>, OutOfMemory> {
    let crew = Flags {
        first: AtomicBool::new(false),
        second: AtomicBool::new(false),
    };
    let bundles = dynamic(alloc, 2, 1)?;
    let mut places = two_places(alloc)?;
    wave(rt, alloc, &crew, &mut places, &bundles)
}

#[test]
fn two_workers_see_each_other(rt: HostRuntime) -> Result<(), Fail> {
    let wave = run(&rt, rt.alloc()).expect(&rt, "memory");
    assert_eq!(rt; wave.done.len(), 2);
    for receipt in &wave.done {
        assert!(rt; receipt.value);
    }
    Ok(())
}
