//! Waves one after the other, until each piece is done or given up.
#![tactic(auto)]

ghost use Rattle.std.specs.Prelude.{◌≡◌, ℕ, ◌+◌, ◌<◌, ◌≤◌, ◌^◌, ◌==◌, ◌++◌, ◌≢◌, [], length, map, reverse, false, IfSome, IfNone, IfErr, OnOk, OnSome, All, count_by};
ghost use Rattle.dc_crew.specs.Jobs.{IsPiece};
ghost use Rattle.dc_crew.specs.Slots.{IsFit, job_in, slot_faults, slot_makes, FailedIn, MadeIn};
ghost use Rattle.dc_crew.specs.States.{state_of, tasks_of, hits, tally, numbers_of, part_for};
ghost use Rattle.dc_crew.specs.Advances.{Spread, Brought, Begins, Brings, IsHalt, EndsWaves, IsGivenUp, IsSettled};
ghost use Rattle.dc_crew.specs.Halts.{IsEarliest};
ghost use Rattle.dc_crew.specs.declared.halts.Halt.TheVariants.{Memory};

use crate::crew::{End, Place, Task};
use crate::halts::{Halt, first_end, given_up};
use crate::states::{State, count_failed, count_killed, due, due_again, is_any_failed, keep_done};
use crate::waves::{one_wave, split};
use crate::world::World;
use dc_decide::Planned;
use dc_fs::{Desk, Source};
use dc_kills::KillPlan;
use dc_options::Strategy;
use dc_path::{List, OutOfMemory};
use dc_pieces::{Part, Piece};
use dc_pool::Wave;
use std::alloc::Global;
use std::thread::Threads;

/// How pieces are copied.
#[derive(Clone, Copy)]
pub struct Settings {
    /// How many maps there are.
    pub maps: u32,
    /// How pieces are spread over maps.
    pub strategy: Strategy,
    /// The size of a buffer, in bytes.
    pub size: u64,
    /// Whether the copy goes on without a piece that has failed four times.
    pub go_on: bool,
    ghost some_maps: { 1 ≤ maps },
    ghost some_size: { 0 < size },
    ghost small_size: { size < 2 ^ 32 },
}

// Writes down what came of a wave.
fn take_in<P: Drop>(
    states: &mut [State],
    parts: &mut Vec<Part<P>>,
    tasks: &[Task],
    wave: Wave<P, End>,
) -> Result<(), Halt>
    requires pieces { All (λ t. t.piece < length states.old) tasks.now }
    requires small { (p : ℕ) → ((state_of states.old p).ended < 2 ^ 31) × ((state_of states.old p).failed ≤ 4) }
    requires spread { Spread tasks.now wave }
    requires due { (p : ℕ) → tally (state_of states.old p).done + count_by (λ t. t.piece == p) tasks.now ≤ 1 }
    ensures ended { OnOk result (wave.ended ≡ []) }
    ensures len { length states.new ≡ length states.old }
    ensures counted { OnOk result ((p : ℕ) →
        (state_of states.new p).ended ≡ (state_of states.old p).ended + hits tasks.now p wave.killed + hits tasks.now p wave.failed) }
    ensures failed { OnOk result ((p : ℕ) →
        (state_of states.new p).failed ≡ (state_of states.old p).failed + hits tasks.now p wave.failed) }
    ensures done { OnOk result ((p : ℕ) →
        tally (state_of states.new p).done ≡ tally (state_of states.old p).done + hits tasks.now p (numbers_of wave.done)) }
    ensures parts { OnOk result (parts.new.items ≡ parts.old.items ++ reverse (map (part_for tasks.now) wave.done)) }
    ensures halted { IfErr result (λ h. h ≢ Memory → IsEarliest tasks.now wave.ended h) }
{
    if let Some(halt) = first_end(wave.ended.as_slice(), tasks) {
        return Err(halt);
    }
    count_killed(states, tasks, wave.killed.as_slice());
    count_failed(states, tasks, wave.failed.as_slice());
    keep_done(states, parts, tasks, wave.done)?;
    Ok(())
}

// Makes one wave over the attempts that are due.
fn make_wave<S: Source, D: Desk, J: World, R: Threads + Sync>(
    rt: &R,
    alloc: Global,
    items: &[Planned],
    pieces: &[Piece],
    kills: &KillPlan,
    settings: Settings,
    tasks: &[Task],
    slots: &mut List<Place<S, D>>,
    states: &mut [State],
    parts: &mut Vec<Part<D::Temp>>,
) -> Result<(), Halt>
    requires pieces { All (IsPiece (length items.now)) pieces.now }
    requires len { (length states.old ≡ length pieces.now) × (length pieces.now ≤ 8388608) }
    requires due { (tasks.now ≡ tasks_of kills.now states.old) × (0 < length tasks.now) }
    requires small { (p : ℕ) → ((state_of states.old p).ended < 2 ^ 31) × ((state_of states.old p).failed ≤ 4) }
    requires some { (0 < length slots.old) × (length slots.old < 2 ^ 32) }
    requires fit { All (IsFit S.Store D.Desk J.scene settings.size) slots.old }
    ensures fit { All (IsFit S.Store D.Desk J.scene settings.size) slots.new }
    ensures slots { length slots.new ≡ length slots.old }
    ensures len { length states.new ≡ length states.old }
    ensures brought { OnOk result (Brought (job_in J.scene items.now pieces.now) D.Temp.content D.Temp.size
        (slot_faults S.Store D.Desk) (slot_makes D.Desk) kills.now settings.size slots.old slots.new
        states.old states.new parts.old.items parts.new.items) }
    ensures halted { IfErr result (IsHalt (job_in J.scene items.now pieces.now)) }
{
    let bundles = split(alloc, pieces, tasks, settings.maps, settings.strategy)?;
    let given = one_wave::<S, D, J, R>(
        rt,
        alloc,
        items,
        pieces,
        tasks,
        settings.size,
        slots,
        &bundles,
    )?;
    take_in(states, parts, tasks, given)
}

// The first piece that was given up in a wave over these tasks, where the copy does not go on without it.
fn stopped_by(settings: Settings, states: &[State], tasks: &[Task]) -> Option<u32>
    requires known { All (λ t. t.piece < length states.now) tasks.now }
    requires few { length states.now < 2 ^ 32 }
    ensures some { IfSome result (IsGivenUp states.now) }
    ensures leave { OnSome result (settings.go_on ≡ false) }
    ensures none { IfNone result (settings.go_on ≡ false → All (λ t. (state_of states.now t.piece).failed < 4) tasks.now) }
{
    if settings.go_on || !is_any_failed(states, tasks) {
        return None;
    }
    given_up(states)
}

/// Makes waves until each piece is done or given up.
///
/// Without `go_on` the first piece that is given up ends the waves.
pub(crate) fn make_waves<S: Source, D: Desk, J: World, R: Threads + Sync>(
    rt: &R,
    alloc: Global,
    items: &[Planned],
    pieces: &[Piece],
    kills: &KillPlan,
    settings: Settings,
    slots: &mut List<Place<S, D>>,
    states: &mut [State],
    parts: &mut Vec<Part<D::Temp>>,
) -> Result<(), Halt>
    requires begins { Begins (length items.now) pieces.now kills.now states.old parts.old.items }
    requires some { (0 < length pieces.now → 0 < length slots.old) × (length slots.old < 2 ^ 32) }
    requires fit { All (IsFit S.Store D.Desk J.scene settings.size) slots.old }
    ensures fit { All (IsFit S.Store D.Desk J.scene settings.size) slots.new }
    ensures slots { length slots.new ≡ length slots.old }
    ensures len { length states.new ≡ length states.old }
    ensures settled { OnOk result (IsSettled settings.go_on states.new) }
    ensures brings { OnOk result (Brings (job_in J.scene items.now pieces.now) D.Temp.content D.Temp.size
        kills.now settings.size (FailedIn S.Store D.Desk slots.old slots.new) (MadeIn D.Desk slots.old slots.new)
        states.new parts.new.items) }
    ensures halted { IfErr result (EndsWaves (job_in J.scene items.now pieces.now) states.new
        ((settings.go_on ≡ false) × FailedIn S.Store D.Desk slots.old slots.new 4)) }
{
    let mut tasks = due(alloc, kills, states)?;
    'waves: while !tasks.is_empty() {
        make_wave::<S, D, J, R>(
            rt,
            alloc,
            items,
            pieces,
            kills,
            settings,
            tasks.as_slice(),
            slots,
            states,
            parts,
        )?;
        if let Some(piece) = stopped_by(settings, states, tasks.as_slice()) {
            return Err(Halt::Failed { piece });
        }
        tasks = due_again(alloc, kills, states, tasks.as_slice())?;
    }
    Ok(())
}
