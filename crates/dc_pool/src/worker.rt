//! One worker.
#![tactic(auto)]

ghost use Rattle.std.specs.Prelude.{◌≡◌, ℕ, ◌+◌, ◌<◌, ◌≤◌, ◌++◌, ◌∷◌, [], length, take, drop, true, false, if◌then◌else◌, IfOk, IfSome, IfNone, OnOk, All, count_by, MatchBool};
ghost use Rattle.dc_split.specs.Bundles.{times};
ghost use Rattle.dc_pool.specs.Drawing.{weight};
ghost use Rattle.dc_pool.specs.Counts.{RoseWith};
ghost use Rattle.dc_pool.specs.Waves.{stands, AllRight, AreBelow, in_bundle, IsAdded, IsBehind, HasStopped, LeaveGoing, Stopped, with_lost, made_for};

use crate::crew::{Crew, Worked};
use crate::draws::{Drawer, Draws};
use crate::results::{Receipt, Wave, empty};
use dc_path::{List, OutOfMemory};
use std::alloc::Global;

// Works on a number, and writes down what came of it. Answers whether it stops the worker.
fn do_number<
    S: Send + Drop,
    T: Send + Drop,
    E: Send + Drop,
    C: Crew<Slot = S, Receipt = T, End = E>,
>(
    alloc: Global,
    crew: &C,
    slot: &mut S,
    number: u32,
    wave: &mut Wave<T, E>,
) -> Result<bool, OutOfMemory>
    requires known { number < C.count crew.now }
    requires fit { C.fit crew.now slot.old }
    requires right { AllRight (C.right crew.now) (C.right_end crew.now) (C.doomed crew.now) wave.old }
    requires going { LeaveGoing (C.stops crew.now) wave.old.killed }
    ensures fit { C.fit crew.now slot.new }
    ensures kept { (C.faults slot.old ≤ C.faults slot.new) × (C.makes slot.old ≤ C.makes slot.new) }
    ensures added { OnOk result (IsAdded (C.right crew.now) (C.right_end crew.now) (C.doomed crew.now) (C.late crew.now) C.faults C.makes slot.old slot.new wave.old wave.new) }
    ensures numbers { OnOk result ((x : ℕ) → stands x wave.new ≡ stands x wave.old + times x (number ∷ [])) }
    ensures lost { OnOk result (wave.new.lost ≡ wave.old.lost) }
    ensures stopped { IfOk result (λ stopped. stopped ≡ true → (C.stops crew.now number ≡ true) × (wave.new.killed ≡ wave.old.killed ++ number ∷ [])) }
    ensures going { IfOk result (λ stopped. stopped ≡ false → LeaveGoing (C.stops crew.now) wave.new.killed) }
{
    match crew.work(alloc, slot, number) {
        Worked::Done(value) => {
            wave.done.add(Receipt { number, value })?;
            Ok(false)
        }
        Worked::Failed => {
            wave.failed.add(number)?;
            Ok(false)
        }
        Worked::Killed { worker_too } => {
            wave.killed.add(number)?;
            Ok(worker_too)
        }
        Worked::Ended(value) => {
            wave.ended.add(Receipt { number, value })?;
            Ok(false)
        }
    }
}

// Works on the numbers in order, until one stops the worker. Answers the place of that one.
fn do_until_stopped<
    S: Send + Drop,
    T: Send + Drop,
    E: Send + Drop,
    C: Crew<Slot = S, Receipt = T, End = E>,
>(
    alloc: Global,
    crew: &C,
    slot: &mut S,
    numbers: &[u32],
    wave: &mut Wave<T, E>,
) -> Result<Option<usize>, OutOfMemory>
    requires known { AreBelow (C.count crew.now) numbers.now }
    requires fit { C.fit crew.now slot.old }
    requires right { AllRight (C.right crew.now) (C.right_end crew.now) (C.doomed crew.now) wave.old }
    requires going { LeaveGoing (C.stops crew.now) wave.old.killed }
    ensures fit { C.fit crew.now slot.new }
    ensures kept { (C.faults slot.old ≤ C.faults slot.new) × (C.makes slot.old ≤ C.makes slot.new) }
    ensures added { OnOk result (IsAdded (C.right crew.now) (C.right_end crew.now) (C.doomed crew.now) (C.late crew.now) C.faults C.makes slot.old slot.new wave.old wave.new) }
    ensures whole { IfOk result (λ at. IfNone at ((x : ℕ) → stands x wave.new ≡ stands x wave.old + times x numbers.now)) }
    ensures part { IfOk result (λ at. IfSome at (λ i. (x : ℕ) → stands x wave.new ≡ stands x wave.old + times x (take (i + 1) numbers.now))) }
    ensures lost { OnOk result (wave.new.lost ≡ wave.old.lost) }
    ensures going { IfOk result (λ at. IfNone at (LeaveGoing (C.stops crew.now) wave.new.killed)) }
    ensures stopped { IfOk result (λ at. IfSome at (λ i. (i < length numbers.now) × Stopped (C.stops crew.now) numbers.now [] wave.new.killed (drop (i + 1) numbers.now))) }
{
    let mut at = 0usize;
    while at < numbers.len() {
        let stopped = do_number(alloc, crew, slot, numbers[at], wave)?;
        if stopped {
            return Ok(Some(at));
        }
        at += 1;
    }
    Ok(None)
}

// Adds numbers at the end of a list.
fn push_all(list: &mut List<u32>, numbers: &[u32]) -> Result<(), OutOfMemory>
    ensures { OnOk result (list.new ≡ list.old ++ numbers.now) }
{
    for number in numbers {
        list.add(*number)?;
    }
    Ok(())
}

// Writes down that numbers are lost.
pub(crate) fn lose<T: Drop, E: Drop>(
    wave: &mut Wave<T, E>,
    numbers: &[u32],
) -> Result<(), OutOfMemory>
    ensures { OnOk result (wave.new ≡ with_lost (wave.old.lost ++ numbers.now) wave.old) }
{
    push_all(&mut wave.lost, numbers)
}

// Works on the numbers of a bundle. Those behind one that stops the worker are lost. Answers whether it is stopped.
fn do_bundle<
    S: Send + Drop,
    T: Send + Drop,
    E: Send + Drop,
    C: Crew<Slot = S, Receipt = T, End = E>,
>(
    alloc: Global,
    crew: &C,
    slot: &mut S,
    numbers: &[u32],
    wave: &mut Wave<T, E>,
) -> Result<bool, OutOfMemory>
    requires known { AreBelow (C.count crew.now) numbers.now }
    requires fit { C.fit crew.now slot.old }
    requires right { AllRight (C.right crew.now) (C.right_end crew.now) (C.doomed crew.now) wave.old }
    requires going { LeaveGoing (C.stops crew.now) wave.old.killed }
    ensures fit { C.fit crew.now slot.new }
    ensures kept { (C.faults slot.old ≤ C.faults slot.new) × (C.makes slot.old ≤ C.makes slot.new) }
    ensures added { OnOk result (IsAdded (C.right crew.now) (C.right_end crew.now) (C.doomed crew.now) (C.late crew.now) C.faults C.makes slot.old slot.new wave.old wave.new) }
    ensures numbers { OnOk result ((x : ℕ) → stands x wave.new ≡ stands x wave.old + times x numbers.now) }
    ensures stopped { IfOk result (λ stopped. MatchBool stopped (Stopped (C.stops crew.now) numbers.now wave.old.lost wave.new.killed wave.new.lost) ((wave.new.lost ≡ wave.old.lost) × LeaveGoing (C.stops crew.now) wave.new.killed)) }
{
    let stop = do_until_stopped(alloc, crew, slot, numbers, wave)?;
    match stop {
        None => Ok(false),
        Some(at) => {
            lose(wave, &numbers[at + 1..])?;
            Ok(true)
        }
    }
}

/// Draws bundles until all are given or a number stops the worker, and works on each.
pub(crate) fn one_worker<
    S: Send + Drop,
    T: Send + Drop,
    E: Send + Drop,
    C: Crew<Slot = S, Receipt = T, End = E>,
>(
    alloc: Global,
    crew: &C,
    draws: &Draws,
    bundles: &[List<u32>],
    slot: &mut S,
    drawer: &mut Drawer,
) -> Result<Wave<T, E>, OutOfMemory>
    requires known { All (AreBelow (C.count crew.now)) bundles.now }
    requires fit { C.fit crew.now slot.old }
    requires own { (drawer.old.seat.table_id ≡ draws.now.table.shared.table_id) × (drawer.old.bundles ≡ draws.now.bundles) }
    requires told { draws.now.bundles ≡ length bundles.now }
    ensures fit { C.fit crew.now slot.new }
    ensures kept { (C.faults slot.old ≤ C.faults slot.new) × (C.makes slot.old ≤ C.makes slot.new) }
    ensures own { (drawer.new.seat.table_id ≡ drawer.old.seat.table_id) × (drawer.new.bundles ≡ drawer.old.bundles) × (drawer.new.seat.me.0.seats ≡ drawer.old.seat.me.0.seats) }
    ensures numbers { IfOk result (λ w. (x : ℕ) → stands x w + weight (in_bundle bundles.now x) drawer.old.seat.me.0.drawn ≡ weight (in_bundle bundles.now x) drawer.new.seat.me.0.drawn) }
    ensures right { IfOk result (AllRight (C.right crew.now) (C.right_end crew.now) (C.doomed crew.now)) }
    ensures faults { IfOk result (λ w. RoseWith (C.faults slot.old) 0 (length w.failed) (C.faults slot.new)) }
    ensures makes { IfOk result (λ w. RoseWith (C.makes slot.old) 0 (made_for (C.late crew.now) w) (C.makes slot.new)) }
    ensures lost { IfOk result (λ w. All (IsBehind (C.stops crew.now) bundles.now w.killed) w.lost) }
    ensures stopped { IfOk result (λ w. All (HasStopped (C.stops crew.now) bundles.now w.lost) w.killed) }
    ensures few { IfOk result (λ w. count_by (C.stops crew.now) w.killed ≤ 1) }
    ensures halted { IfOk result (λ w. 1 ≤ count_by (C.stops crew.now) w.killed + (if drawer.new.ended then 1 else 0)) }
{
    let mut wave = empty(alloc);
    while let Some(b) = draws.draw(drawer) {
        let stopped = do_bundle(alloc, crew, slot, bundles[b as usize].as_slice(), &mut wave)?;
        if stopped {
            return Ok(wave);
        }
    }
    Ok(wave)
}
