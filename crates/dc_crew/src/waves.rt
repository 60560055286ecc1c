//! One wave over the attempts that are due.
#![tactic(auto)]

ghost use Rattle.std.specs.Prelude.{◌≡◌, ℕ, ◌<◌, ◌≤◌, ◌^◌, length, IfOk, All};
ghost use Rattle.dc_options.specs.declared.settings.Strategy.{Strategy};
ghost use Rattle.dc_split.specs.Bundles.{HoldEachOnce, once_below};
ghost use Rattle.dc_pool.specs.Counts.{Gained, NoneFell};
ghost use Rattle.dc_pool.specs.Waves.{stands, AllRight, HasLoss, made_for};
ghost use Rattle.dc_crew.specs.Jobs.{AreTasks, IsPart, IsEnd, task_of, is_doomed, is_stopper, is_late};
ghost use Rattle.dc_crew.specs.Slots.{IsFit, job_in, slot_faults, slot_makes};
ghost use Rattle.dc_crew.specs.States.{lengths_of, IsSplit};

use crate::crew::{CopyCrew, End, Place, Task};
use crate::world::World;
use dc_decide::Planned;
use dc_fs::{Desk, Source};
use dc_options::Strategy;
use dc_path::{List, OutOfMemory};
use dc_pieces::Piece;
use dc_pool::{Wave, wave};
use dc_split::{dynamic, uniform};
use std::alloc::Global;
use std::marker::PhantomData;
use std::thread::Threads;

// The lengths of the pieces of tasks.
fn task_lengths(alloc: Global, pieces: &[Piece], tasks: &[Task]) -> Result<Vec<u64>, OutOfMemory>
    requires { All (λ t. t.piece < length pieces.now) tasks.now }
    ensures { IfOk result (λ lengths. lengths.items ≡ lengths_of pieces.now tasks.now) }
{
    let mut lengths = Vec::new(alloc);
    for task in tasks {
        lengths.push(pieces[task.piece as usize].length)?;
    }
    Ok(lengths)
}

/// Splits tasks into bundles for so many maps, by the strategy.
pub(crate) fn split(
    alloc: Global,
    pieces: &[Piece],
    tasks: &[Task],
    maps: u32,
    strategy: Strategy,
) -> Result<List<List<u32>>, OutOfMemory>
    requires known { All (λ t. t.piece < length pieces.now) tasks.now }
    requires few { length tasks.now < 2 ^ 32 }
    requires some { 1 ≤ maps }
    ensures once { IfOk result (HoldEachOnce (length tasks.now)) }
    ensures few { IfOk result (λ bundles. length bundles ≤ length tasks.now) }
    ensures rule { IfOk result (IsSplit pieces.now tasks.now maps strategy) }
{
    match strategy {
        Strategy::Dynamic => dynamic(alloc, tasks.len() as u32, maps),
        Strategy::Uniform => {
            let lengths = task_lengths(alloc, pieces, tasks)?;
            uniform(alloc, lengths.as_slice(), maps)
        }
    }
}

/// Makes one attempt at each task, by workers.
pub(crate) fn one_wave<S: Source, D: Desk, J: World, R: Threads + Sync>(
    rt: &R,
    alloc: Global,
    items: &[Planned],
    pieces: &[Piece],
    tasks: &[Task],
    size: u64,
    slots: &mut List<Place<S, D>>,
    bundles: &List<List<u32>>,
) -> Result<Wave<D::Temp, End>, OutOfMemory>
    requires known { AreTasks (length items.now) pieces.now tasks.now }
    requires filled { 0 < size }
    requires some { (0 < length slots.old) × (length slots.old < 2 ^ 32) }
    requires fit { All (IsFit S.Store D.Desk J.scene size) slots.old }
    requires few { length bundles.now < 2 ^ 32 }
    requires once { HoldEachOnce (length tasks.now) bundles.now }
    ensures fit { All (IsFit S.Store D.Desk J.scene size) slots.new }
    ensures slots { length slots.new ≡ length slots.old }
    ensures faults_kept { NoneFell (slot_faults S.Store D.Desk) slots.old slots.new }
    ensures makes_kept { NoneFell (slot_makes D.Desk) slots.old slots.new }
    ensures numbers { IfOk result (λ w. (x : ℕ) → stands x w ≡ once_below (length tasks.now) x) }
    ensures right { IfOk result (AllRight
        (λ n t. IsPart (job_in J.scene items.now pieces.now) (task_of tasks.now n).piece (D.Temp.content t) (D.Temp.size t))
        (λ n e. IsEnd (job_in J.scene items.now pieces.now) (task_of tasks.now n).piece e)
        (λ n. is_doomed pieces.now size (task_of tasks.now n))) }
    ensures lost { IfOk result (λ w.
        All (HasLoss (λ n. is_stopper (task_of tasks.now n)) bundles.now w.killed (length slots.old)) w.lost) }
    ensures faults { IfOk result (λ w. Gained (slot_faults S.Store D.Desk) (length w.failed) slots.old slots.new) }
    ensures makes { IfOk result (λ w. Gained (slot_makes D.Desk) (made_for (λ n. is_late (task_of tasks.now n)) w) slots.old slots.new) }
{
    let crew = CopyCrew::<'_, S, D, J> {
        items,
        pieces,
        tasks,
        size,
        marker: PhantomData,
    };
    let given = wave(rt, alloc, &crew, slots, bundles);
    let CopyCrew {
        items: _,
        pieces: _,
        tasks: _,
        size: _,
        marker: _,
    } = crew;
    given
}
