//! Workers side by side, each half of the slots in a thread of its own.
#![tactic(auto)]

ghost use Rattle.std.specs.Prelude.{◌≡◌, length, IfOk, All};
ghost use Rattle.std.specs.Thread.{IsSync};
ghost use Rattle.dc_pool.specs.Counts.{NoneFell};
ghost use Rattle.dc_pool.specs.Waves.{AreBelow, IsSeated, AreReady, IsGathered};

use crate::crew::Crew;
use crate::draws::{Drawer, Draws};
use crate::results::{Wave, both};
use crate::worker::one_worker;
use dc_path::{List, OutOfMemory};
use std::alloc::Global;
use std::thread::{Threads, join_mut};

/// Runs one worker for each slot. Where no thread can be made, `join_mut` runs both halves on the caller's thread.
pub(crate) fn halves<
    S: Send + Drop,
    T: Send + Drop,
    E: Send + Drop,
    C: Crew<Slot = S, Receipt = T, End = E>,
    R: Threads + Sync,
>(
    rt: &R,
    alloc: &Global,
    crew: &C,
    draws: &Draws,
    bundles: &[List<u32>],
    slots: &mut [S],
    drawers: &mut [Drawer],
) -> Result<Wave<T, E>, OutOfMemory>
    requires known { All (AreBelow (C.count crew.now)) bundles.now }
    requires told { draws.now.bundles ≡ length bundles.now }
    requires ready { AreReady (C.fit crew.now) draws.now.table.shared.table_id draws.now.bundles slots.old drawers.old }
    ensures fit { All (C.fit crew.now) slots.new }
    ensures own { All (IsSeated draws.now.table.shared.table_id draws.now.bundles) drawers.new }
    ensures faults { NoneFell C.faults slots.old slots.new }
    ensures makes { NoneFell C.makes slots.old slots.new }
    ensures gathered { IfOk result (IsGathered (C.right crew.now) (C.right_end crew.now) (C.doomed crew.now) (C.stops crew.now) (C.late crew.now) C.faults C.makes bundles.now slots.old slots.new drawers.new) }
{
    if slots.len() < 2 {
        return one_worker(*alloc, crew, draws, bundles, &mut slots[0], &mut drawers[0]);
    }
    let half = slots.len() / 2;
    let (front_slots, back_slots) = slots.split_at_mut(half);
    let (front_drawers, back_drawers) = drawers.split_at_mut(half);
    let (front, back) = join_mut(
        rt,
        &mut ||
            requires sync { IsSync R.row }
            requires known { All (AreBelow (C.count crew.now)) bundles.now }
            requires told { draws.now.bundles ≡ length bundles.now }
            requires ready { AreReady (C.fit crew.now) draws.now.table.shared.table_id draws.now.bundles front_slots.now front_drawers.now }
            ensures fit { All (C.fit crew.entry.now) front_slots.exit.now }
            ensures own { All (IsSeated draws.entry.now.table.shared.table_id draws.entry.now.bundles) front_drawers.exit.now }
            ensures faults { NoneFell C.faults front_slots.entry.now front_slots.exit.now }
            ensures makes { NoneFell C.makes front_slots.entry.now front_slots.exit.now }
            ensures gathered { IfOk result (IsGathered (C.right crew.entry.now) (C.right_end crew.entry.now) (C.doomed crew.entry.now) (C.stops crew.entry.now) (C.late crew.entry.now) C.faults C.makes bundles.entry.now front_slots.entry.now front_slots.exit.now front_drawers.exit.now) }
        { halves(rt, alloc, crew, draws, bundles, front_slots, front_drawers) },
        &mut ||
            requires sync { IsSync R.row }
            requires known { All (AreBelow (C.count crew.now)) bundles.now }
            requires told { draws.now.bundles ≡ length bundles.now }
            requires ready { AreReady (C.fit crew.now) draws.now.table.shared.table_id draws.now.bundles back_slots.now back_drawers.now }
            ensures fit { All (C.fit crew.entry.now) back_slots.exit.now }
            ensures own { All (IsSeated draws.entry.now.table.shared.table_id draws.entry.now.bundles) back_drawers.exit.now }
            ensures faults { NoneFell C.faults back_slots.entry.now back_slots.exit.now }
            ensures makes { NoneFell C.makes back_slots.entry.now back_slots.exit.now }
            ensures gathered { IfOk result (IsGathered (C.right crew.entry.now) (C.right_end crew.entry.now) (C.doomed crew.entry.now) (C.stops crew.entry.now) (C.late crew.entry.now) C.faults C.makes bundles.entry.now back_slots.entry.now back_slots.exit.now back_drawers.exit.now) }
        { halves(rt, alloc, crew, draws, bundles, back_slots, back_drawers) },
    );
    both(front, back)
}
