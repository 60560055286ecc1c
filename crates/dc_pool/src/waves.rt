//! A wave: all bundles once, over all slots.
#![tactic(auto)]

ghost use Rattle.std.specs.Prelude.{◌≡◌, ℕ, ◌<◌, ◌≤◌, ◌^◌, ◌++◌, true, length, drop, IfOk, OnOk, All, count_by};
ghost use Rattle.dc_split.specs.Bundles.{flatten, once_below, HoldEachOnce};
ghost use Rattle.dc_pool.specs.Drawing.{weight};
ghost use Rattle.dc_pool.specs.Counts.{Gained, NoneFell};
ghost use Rattle.dc_pool.specs.Waves.{stands, AllRight, drawn_weight, endings, IsSeated, HasLoss, HasStopped, made_for, with_lost};

use crate::crew::Crew;
use crate::draws::{Drawer, Draws};
use crate::results::Wave;
use crate::threads::halves;
use crate::worker::lose;
use dc_path::{List, OutOfMemory};
use std::alloc::Global;
use std::mem;
use std::thread::Threads;

// Puts all drawers together.
fn all_together(draws: &Draws, mut drawers: Vec<Drawer>) -> Drawer
    requires some { 0 < length drawers.items }
    requires own { All (IsSeated draws.now.table.shared.table_id draws.now.bundles) drawers.items }
    ensures own { (result.seat.table_id ≡ draws.now.table.shared.table_id) × (result.bundles ≡ draws.now.bundles) × (result.seat.me.0.seats ≡ length drawers.items) }
    ensures drawn { (h : ℕ → ℕ) → weight h result.seat.me.0.drawn ≡ drawn_weight h drawers.items }
    ensures ended { 0 < endings drawers.items → result.ended ≡ true }
{
    let Some(mut all) = drawers.pop() else {
        unreachable!()
    };
    while let Some(other) = drawers.pop() {
        draws.put_together(&mut all, other);
    }
    all
}

// The bundles from a place on are lost.
fn lose_rest<T: Drop, E: Drop>(
    bundles: &[List<u32>],
    given: u64,
    wave: &mut Wave<T, E>,
) -> Result<(), OutOfMemory>
    ensures { OnOk result (wave.new ≡ with_lost (wave.old.lost ++ flatten (drop given bundles.now)) wave.old) }
{
    let mut at = given;
    while at < bundles.len() as u64 {
        lose(wave, bundles[at as usize].as_slice())?;
        at += 1;
    }
    Ok(())
}

/// Works on all numbers of the bundles, by one worker for each slot.
///
/// The bundles hold each number of the crew once. Each worker draws one bundle after the other and works on its numbers in order, until all
/// bundles are given, or a number that is killed with its worker stops it. The rest of that bundle is lost then, and so are the bundles
/// that no worker draws. Afterwards each number stands in exactly one of the five lists, once.
///
/// The workers run in threads of their own, as far as these can be made, and else one after the other. Slots keep their places.
/// `OutOfMemory` is the one error: then the receipts are given up, and the slots are fit all the same.
pub fn wave<C: Crew, R: Threads + Sync>(
    rt: &R,
    alloc: Global,
    crew: &C,
    slots: &mut List<C::Slot>,
    bundles: &List<List<u32>>,
) -> Result<Wave<C::Receipt, C::End>, OutOfMemory>
    requires some { (0 < length slots.old) × (length slots.old < 2 ^ 32) }
    requires fit { All (C.fit crew.now) slots.old }
    requires few { length bundles.now < 2 ^ 32 }
    requires once { HoldEachOnce (C.count crew.now) bundles.now }

    ensures fit { All (C.fit crew.now) slots.new }
    ensures slots { length slots.new ≡ length slots.old }
    ensures faults_kept { NoneFell C.faults slots.old slots.new }
    ensures makes_kept { NoneFell C.makes slots.old slots.new }

    ensures numbers { IfOk result (λ w. (x : ℕ) → stands x w ≡ once_below (C.count crew.now) x) }
    ensures right { IfOk result (AllRight (C.right crew.now) (C.right_end crew.now) (C.doomed crew.now)) }

    // a number is lost only behind a stop or where all workers stopped; a stop loses the rest of its bundle, and no worker stops twice
    ensures lost { IfOk result (λ w. All (HasLoss (C.stops crew.now) bundles.now w.killed (length slots.old)) w.lost) }
    ensures stopped { IfOk result (λ w. All (HasStopped (C.stops crew.now) bundles.now w.lost) w.killed) }
    ensures few_stops { IfOk result (λ w. count_by (C.stops crew.now) w.killed ≤ length slots.old) }

    ensures faults { IfOk result (λ w. Gained C.faults (length w.failed) slots.old slots.new) }
    ensures makes { IfOk result (λ w. Gained C.makes (made_for (C.late crew.now) w) slots.old slots.new) }
{
    let seats = slots.len() as u32;
    let (draws, drawers) = Draws::new(alloc, bundles.len() as u32, seats)?;
    let mut drawers = drawers.into_vec();
    let mut items = mem::replace(slots, List::new(alloc)).into_vec();
    let done = halves(
        rt,
        &alloc,
        crew,
        &draws,
        bundles.as_slice(),
        items.as_mut_slice(),
        drawers.as_mut_slice(),
    );
    *slots = List::of(items);
    let mut done = done?;
    let all = all_together(&draws, drawers);
    let given = draws.finish(all);
    lose_rest(bundles.as_slice(), given, &mut done)?;
    Ok(done)
}
