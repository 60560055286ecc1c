//! The copy of all pieces.
#![tactic(auto)]

ghost use Rattle.std.specs.Prelude.{◌≡◌, ◌⊎◌, ℕ, ◌+◌, ◌*◌, ◌<◌, ◌≤◌, ◌^◌, [], length, true, false, IfOk, IfErr, OnOk, All, count_by};
ghost use Rattle.std.specs.Option.{is_some};
ghost use Rattle.dc_fs.specs.Causes.{Rose};
ghost use Rattle.dc_fs.specs.Views.{view};
ghost use Rattle.dc_kills.specs.Plans.{IsInOrder};
ghost use Rattle.dc_split.specs.Bundles.{times, once_below};
ghost use Rattle.dc_crew.specs.Jobs.{job_of, most_workers};
ghost use Rattle.dc_crew.specs.Slots.{IsFit, scene_of, job_in, slot_faults, slot_makes, ComeTo, FailedIn, MadeIn, OpensDesks, TakesForksBack, KeepsTarget, RoseTogether, MadeMore, StandStill};
ghost use Rattle.dc_crew.specs.States.{no_state, state_of, parts_of, undone};
ghost use Rattle.dc_crew.specs.Advances.{AreRight, Begins, Brings, EndsWaves, failures, is_reached_entry, IsSettled};
ghost use Rattle.dc_crew.specs.Ends.{EndsAs, EndsCopy, is_failure};

use crate::crew::Place;
use crate::halts::Halt;
use crate::rounds::{Settings, make_waves};
use crate::slots::{close_slots, open_slots};
use crate::states::{State, due, fresh_states, not_done};
use crate::waves::split;
use crate::world::World;
use dc_decide::{Plan, Planned};
use dc_fs::{Desk, DeskError, Source, Target};
use dc_kills::KillPlan;
use dc_options::Options;
use dc_path::{List, OutOfMemory};
use dc_pieces::{Part, Piece, Pieces};
use std::alloc::Global;
use std::marker::Brand;
use std::thread::Threads;

/// The most workers of a copy.
pub const MAX_WORKERS: u32 = 64;

/// Why the pieces of a copy are not all copied.
#[derive(Clone, Copy)]
pub enum CopyError {
    /// The target failed: a desk could not be opened.
    Fault,
    /// The waves ended before all pieces were done or given up.
    Halted(Halt),
}

impl From<OutOfMemory> for CopyError {
    ghost use Rattle.std.specs.Prelude.{◌≡◌};
    ghost use Rattle.dc_crew.specs.declared.copy.CopyError.TheVariants.{Halted};
    ghost use Rattle.dc_crew.specs.declared.halts.Halt.TheVariants.{Memory};

    ghost from_gives = { λ _ e. e ≡ Halted Memory };

    fn from(_lack: OutOfMemory) -> CopyError {
        CopyError::Halted(Halt::Memory)
    }
}

impl From<DeskError> for CopyError {
    ghost use Rattle.std.specs.Prelude.{◌≡◌};
    ghost use Rattle.dc_crew.specs.Ends.{error_of};

    ghost from_gives = { λ error e. e ≡ error_of error };

    fn from(error: DeskError) -> CopyError {
        match error {
            DeskError::Fault => CopyError::Fault,
            DeskError::Memory => CopyError::Halted(Halt::Memory),
        }
    }
}

/// What the pieces of a copy became.
#[derive(Drop)]
pub struct Copied<P> {
    /// A sealed temporary for each piece that is done, in no order.
    pub parts: List<Part<P>>,
    /// The numbers of the pieces that were given up, after four failures each, in ascending order.
    pub given_up: List<u32>,
}

// How the options say that pieces are copied.
fn settings_of(options: &Options) -> Settings
    ensures { (result.size ≡ options.now.buffer) × (result.go_on ≡ options.now.ignore) }
{
    Settings {
        maps: options.maps(),
        strategy: options.strategy(),
        size: u64::from(options.buffer()),
        go_on: options.ignore(),
    }
}

// How many workers there are: no more than maps, than `MAX_WORKERS` and than bundles of the first wave.
fn worker_count(
    alloc: Global,
    pieces: &[Piece],
    kills: &KillPlan,
    settings: Settings,
    states: &[State],
) -> Result<u32, OutOfMemory>
    requires len { (length states.now ≡ length pieces.now) × (length pieces.now ≤ 8388608) }
    requires fresh { (p : ℕ) → state_of states.now p ≡ no_state }
    ensures some { IfOk result (λ count. 0 < length pieces.now → 1 ≤ count) }
    ensures most { IfOk result (λ count. count ≤ most_workers) }
    ensures maps { IfOk result (λ count. count ≤ settings.maps) }
{
    let tasks = due(alloc, kills, states)?;
    let bundles = split(
        alloc,
        pieces,
        tasks.as_slice(),
        settings.maps,
        settings.strategy,
    )?;
    let count = settings.maps.min(MAX_WORKERS);
    Ok(count.min(bundles.len() as u32))
}

// A halt of the waves ends the copy.
fn ends_by(done: Result<(), Halt>) -> Result<(), CopyError>
    ensures ok { OnOk result (done ≡ Ok record {}) }
    ensures err { IfErr result (λ e. (h : Halt) × (done ≡ Err h) × (e ≡ CopyError.Halted h)) }
{
    match done {
        Ok(()) => Ok(()),
        Err(halt) => Err(CopyError::Halted(halt)),
    }
}

// Makes the waves over slots that are fit for what these two stores are.
fn waves_over<S: Source, T: Target, J: World, R: Threads + Sync>(
    rt: &R,
    alloc: Global,
    source: &S,
    target: &T,
    items: &[Planned],
    pieces: &[Piece],
    kills: &KillPlan,
    settings: Settings,
    slots: &mut List<Place<S, T::Desk>>,
    states: &mut [State],
    parts: &mut Vec<Part<<T::Desk as Desk>::Temp>>,
) -> Result<(), Halt>
    requires world { scene_of S.Store T.Store source.now target.now ≡ J.scene }
    requires begins { Begins (length items.now) pieces.now kills.now states.old parts.old.items }
    requires some { (0 < length pieces.now → 0 < length slots.old) × (length slots.old < 2 ^ 32) }
    requires fit { All (IsFit S.Store T.Desk.Desk (scene_of S.Store T.Store source.now target.now) settings.size) slots.old }
    ensures fit { All (IsFit S.Store T.Desk.Desk (scene_of S.Store T.Store source.now target.now) settings.size) slots.new }
    ensures slots { length slots.new ≡ length slots.old }
    ensures len { length states.new ≡ length states.old }
    ensures settled { OnOk result (IsSettled settings.go_on states.new) }
    ensures brings { OnOk result (Brings (job_in (scene_of S.Store T.Store source.now target.now) items.now pieces.now)
        T.Desk.Temp.content T.Desk.Temp.size kills.now settings.size
        (FailedIn S.Store T.Desk.Desk slots.old slots.new) (MadeIn T.Desk.Desk slots.old slots.new) states.new parts.new.items) }
    ensures halted { IfErr result (EndsWaves (job_in (scene_of S.Store T.Store source.now target.now) items.now pieces.now) states.new
        ((settings.go_on ≡ false) × FailedIn S.Store T.Desk.Desk slots.old slots.new 4)) }
{
    make_waves::<S, T::Desk, J, R>(
        rt, alloc, items, pieces, kills, settings, slots, states, parts,
    )
}

// Opens the slots and makes the waves.
fn open_and_copy<S: Source, T: Target, R: Threads + Sync>(
    rt: &R,
    alloc: Global,
    source: &S,
    target: &mut T,
    items: &[Planned],
    pieces: &[Piece],
    kills: &KillPlan,
    settings: Settings,
    workers: u32,
    slots: &mut List<Place<S, T::Desk>>,
    states: &mut [State],
    parts: &mut Vec<Part<<T::Desk as Desk>::Temp>>,
) -> Result<(), CopyError>
    requires begins { Begins (length items.now) pieces.now kills.now states.old parts.old.items }
    requires workers { 0 < length pieces.now → 1 ≤ workers }
    requires none { slots.old ≡ [] }
    ensures opened { OpensDesks (length slots.new) (view T.Store target.old) (view T.Store target.new) }
    ensures looks { T.looks target.new ≤ T.looks target.old + workers }
    ensures fit { All (IsFit S.Store T.Desk.Desk (scene_of S.Store T.Store source.now target.old) settings.size) slots.new }
    ensures len { length states.new ≡ length states.old }
    ensures settled { OnOk result (IsSettled settings.go_on states.new) }
    ensures brings { OnOk result (Brings (job_in (scene_of S.Store T.Store source.now target.old) items.now pieces.now)
        T.Desk.Temp.content T.Desk.Temp.size kills.now settings.size
        (ComeTo (slot_faults S.Store T.Desk.Desk) slots.new) (ComeTo (slot_makes T.Desk.Desk) slots.new) states.new parts.new.items) }
    ensures ended { IfErr result (EndsAs (job_in (scene_of S.Store T.Store source.now target.old) items.now pieces.now) states.new
        (Rose (T.faults target.old) (T.faults target.new))
        ((settings.go_on ≡ false) × ComeTo (slot_faults S.Store T.Desk.Desk) slots.new 4)) }
    ensures never { IfErr result (λ e. T.steady target.old ≡ true → e ≡ CopyError.Fault → ⊥) }
{
    open_slots(alloc, source, target, settings.size, workers, slots)?;
    ends_by(waves_over::<S, T, Brand, R>(
        rt, alloc, source, target, items, pieces, kills, settings, slots, states, parts,
    ))
}

// Copies all pieces, by so many workers.
fn copy_all<S: Source, T: Target, R: Threads + Sync>(
    rt: &R,
    alloc: Global,
    source: &mut S,
    target: &mut T,
    items: &[Planned],
    pieces: &[Piece],
    kills: &KillPlan,
    settings: Settings,
    workers: u32,
    states: &mut [State],
    parts: &mut Vec<Part<<T::Desk as Desk>::Temp>>,
) -> Result<(), CopyError>
    requires begins { Begins (length items.now) pieces.now kills.now states.old parts.old.items }
    requires workers { 0 < length pieces.now → 1 ≤ workers }
    ensures source { TakesForksBack 0 (view S.Store source.old) (view S.Store source.new) }
    ensures source_looks { S.looks source.new ≡ S.looks source.old }
    ensures target { KeepsTarget (view T.Store target.old) (view T.Store target.new) }
    ensures target_looks { T.looks target.new ≤ T.looks target.old + workers }
    ensures len { length states.new ≡ length states.old }
    ensures settled { OnOk result (IsSettled settings.go_on states.new) }
    ensures brings { OnOk result (Brings (job_of (S.tree source.old) (is_some (T.tree target.old)) items.now pieces.now)
        T.Desk.Temp.content T.Desk.Temp.size kills.now settings.size
        (RoseTogether (S.rest source.old) (S.rest source.new) (T.rest target.old) (T.rest target.new))
        (MadeMore (T.rest target.old) (T.rest target.new)) states.new parts.new.items) }
    ensures calm { OnOk result (S.steady source.old ≡ true → T.steady target.old ≡ true → failures states.new ≡ 0) }
    ensures ended { IfErr result (EndsAs (job_of (S.tree source.old) (is_some (T.tree target.old)) items.now pieces.now) states.new
        (Rose (T.faults target.old) (T.faults target.new))
        ((settings.go_on ≡ false) × RoseTogether (S.rest source.old) (S.rest source.new) (T.rest target.old) (T.rest target.new) 4)) }
    ensures never { IfErr result (λ e. S.steady source.old ≡ true → T.steady target.old ≡ true → is_failure e ≡ false) }
{
    let mut slots = List::new(alloc);
    let done = open_and_copy(
        rt, alloc, &*source, target, items, pieces, kills, settings, workers, &mut slots, states,
        parts,
    );
    close_slots(source, target, slots);
    done
}

// What is handed out once all pieces are done or given up.
fn packed<P: Drop>(
    alloc: Global,
    done: Result<(), CopyError>,
    states: Vec<State>,
    parts: Vec<Part<P>>,
) -> Result<Copied<P>, CopyError>
    requires { length states.items < 2 ^ 32 }
    ensures done { OnOk result (done ≡ Ok record {}) }
    ensures parts { IfOk result (λ copied. copied.parts ≡ parts.items) }
    ensures given_up { IfOk result (λ copied. copied.given_up ≡ undone states.items) }
    ensures err { IfErr result (λ e. (done ≡ Err e) ⊎ (e ≡ CopyError.Halted Halt.Memory)) }
{
    done?;
    let given_up = not_done(alloc, states.as_slice())?;
    Ok(Copied {
        parts: List::of(parts),
        given_up,
    })
}

/// Copies all pieces of a plan to temporaries of the target, by workers of their own.
///
/// In a wave the pieces that are due are split into bundles by the strategy, and workers draw these and try each piece once. A
/// piece that was killed, lost or failed is due again in the next wave. The number of an attempt is one more than the attempts
/// that were begun at the piece: a killed one was begun, a lost one was not. After four failed attempts a piece is given up.
/// Then the waves end, unless the options say that the copy goes on without items that fail.
///
/// There are as many workers as maps, but no more than `MAX_WORKERS`, and no more than bundles of the first wave. Each owns a
/// fork of the source, a desk of the target and a buffer from before the first wave until all are over. Without pieces there is
/// no worker and no wave.
///
/// Temporaries that are not handed out stay counted as scratch, until the target is swept.
///
/// # Errors
///
/// - `Fault`, where a desk could not be opened;
/// - `Halted`: want of memory first; else the least piece of the wave whose digests differ or whose file has changed; else the
///   least piece that was given up.
pub fn copy_pieces<S: Source, T: Target, R: Threads + Sync>(
    rt: &R,
    alloc: Global,
    options: &Options,
    source: &mut S,
    target: &mut T,
    plan: &Plan,
    pieces: &Pieces,
    kills: &KillPlan,
) -> Result<Copied<<T::Desk as Desk>::Temp>, CopyError>
    requires items { All (λ p. p.item < length plan.now.items) pieces.now }
    requires few { length kills.now ≤ 65536 }
    requires ordered { IsInOrder kills.now }

    // what the two stores keep
    ensures source { TakesForksBack 0 (view S.Store source.old) (view S.Store source.new) }
    ensures source_looks { S.looks source.new ≡ S.looks source.old }
    ensures target { KeepsTarget (view T.Store target.old) (view T.Store target.new) }
    ensures target_looks { T.looks target.new ≤ T.looks target.old + most_workers }

    // each piece has one part, which is right for it, or it was given up
    ensures once { IfOk result (λ copied. (p : ℕ) →
        parts_of p copied.parts + times p copied.given_up ≡ once_below (length pieces.now) p) }
    ensures right { IfOk result (λ copied.
        AreRight (job_of (S.tree source.old) (is_some (T.tree target.old)) plan.now.items pieces.now)
        T.Desk.Temp.content T.Desk.Temp.size copied.parts) }

    // a piece is given up only where that is allowed, after four failures of its own
    ensures allowed { IfOk result (λ copied. options.now.ignore ≡ false → copied.given_up ≡ []) }
    ensures failures { IfOk result (λ copied.
        RoseTogether (S.rest source.old) (S.rest source.new) (T.rest target.old) (T.rest target.new) (4 * length copied.given_up)) }
    ensures spared { IfOk result (λ copied.
        S.steady source.old ≡ true → T.steady target.old ≡ true → copied.given_up ≡ []) }

    // temporaries are counted: those that are handed out; and where no fork and no desk has failed, one for each piece and one for
    // each entry of the kill plan that is reached after a temporary was made
    ensures made { IfOk result (λ copied. MadeMore (T.rest target.old) (T.rest target.new) (length copied.parts)) }
    ensures reached { OnOk result (
        StandStill (S.rest source.old) (S.rest source.new) (T.rest target.old) (T.rest target.new) →
        MadeMore (T.rest target.old) (T.rest target.new)
        (length pieces.now + count_by (is_reached_entry kills.now pieces.now options.now.buffer) kills.now)) }

    // why not all is copied
    ensures ended { IfErr result (
        EndsCopy (job_of (S.tree source.old) (is_some (T.tree target.old)) plan.now.items pieces.now)
        (Rose (T.faults target.old) (T.faults target.new))
        ((options.now.ignore ≡ false)
        × RoseTogether (S.rest source.old) (S.rest source.new) (T.rest target.old) (T.rest target.new) 4)) }
    ensures never { IfErr result (λ e.
        S.steady source.old ≡ true → T.steady target.old ≡ true → is_failure e ≡ false) }
{
    let settings = settings_of(options);
    let mut states = fresh_states(alloc, pieces.len())?;
    let workers = worker_count(alloc, pieces.as_slice(), kills, settings, states.as_slice())?;
    let mut parts = Vec::new(alloc);
    let done = copy_all(
        rt,
        alloc,
        source,
        target,
        plan.items(),
        pieces.as_slice(),
        kills,
        settings,
        workers,
        states.as_mut_slice(),
        &mut parts,
    );
    packed(alloc, done, states, parts)
}
