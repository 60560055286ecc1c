//! Slots for workers: they are opened before the first wave, and closed on every way out.
#![tactic(auto)]

ghost use Rattle.std.specs.Prelude.{◌≡◌, ℕ, ◌+◌, ◌<◌, ◌≤◌, ◌^◌, [], length, true, IfOk, OnOk, OnErr, IsErrOf, All, sum_by, vec_capacity};
ghost use Rattle.dc_fs.specs.Causes.{Rose};
ghost use Rattle.dc_fs.specs.Views.{view};
ghost use Rattle.dc_crew.specs.Slots.{IsFit, IsFresh, scene_of, source_faults, desk_faults, slot_makes, OpensDesks, TakesForksBack, TakesDesksBack};

use crate::crew::Place;
use dc_fs::{DeskError, Source, Target, WriteError};
use dc_path::{List, OutOfMemory};
use std::alloc::Global;

// A buffer of so many bytes.
fn buffer_of(alloc: Global, size: u64) -> Result<Vec<u8>, OutOfMemory>
    requires { size < 2 ^ 32 }
    ensures { IfOk result (λ buffer. length buffer.items ≡ size) }
{
    let buffer = vec![in alloc; 0u8; size as usize]?;
    Ok(buffer)
}

// A vector with room for so many slots.
fn room_for<S: Source, T: Target>(
    alloc: Global,
    workers: u32,
) -> Result<Vec<Place<S, T::Desk>>, OutOfMemory>
    ensures none { IfOk result (λ places. places.items ≡ []) }
    ensures room { IfOk result (λ places. workers ≤ vec_capacity places) }
{
    let places = Vec::with_capacity(alloc, workers as usize)?;
    Ok(places)
}

// Opens a slot. The desk comes last, so that none is out where the rest fails.
fn open_slot<S: Source, T: Target>(
    alloc: Global,
    source: &S,
    target: &mut T,
    size: u64,
) -> Result<Place<S, T::Desk>, DeskError>
    requires { size < 2 ^ 32 }
    ensures opened { OnOk result (OpensDesks 1 (view T.Store target.old) (view T.Store target.new)) }
    ensures kept { OnErr result (OpensDesks 0 (view T.Store target.old) (view T.Store target.new)) }
    ensures looks { T.looks target.new ≤ T.looks target.old + 1 }
    ensures fit { IfOk result (IsFit S.Store T.Desk.Desk (scene_of S.Store T.Store source.now target.old) size) }
    ensures fresh { IfOk result (IsFresh S.Store T.Desk.Desk) }
    ensures rose { IsErrOf result DeskError.Fault → Rose (T.faults target.old) (T.faults target.new) }
    ensures never { T.steady target.old ≡ true → IsErrOf result DeskError.Fault → ⊥ }
{
    let buffer = buffer_of(alloc, size)?;
    let fork = source.fork(alloc)?;
    match target.open_desk(alloc) {
        Ok(desk) => Ok(Place {
            source: fork,
            desk,
            buffer,
        }),
        Err(WriteError::Memory) => Err(DeskError::Memory),
        Err(_) => Err(DeskError::Fault),
    }
}

// Opens slots for so many workers, into a vector with room for all. At `Err` some are open.
fn open_into<S: Source, T: Target>(
    alloc: Global,
    source: &S,
    target: &mut T,
    size: u64,
    workers: u32,
    places: &mut Vec<Place<S, T::Desk>>,
) -> Result<(), DeskError>
    requires size { size < 2 ^ 32 }
    requires none { places.old.items ≡ [] }
    requires room { workers ≤ vec_capacity places.old }
    ensures opened { OpensDesks (length places.new.items) (view T.Store target.old) (view T.Store target.new) }
    ensures looks { T.looks target.new ≤ T.looks target.old + workers }
    ensures fit { All (IsFit S.Store T.Desk.Desk (scene_of S.Store T.Store source.now target.old) size) places.new.items }
    ensures fresh { All (IsFresh S.Store T.Desk.Desk) places.new.items }
    ensures count { OnOk result (length places.new.items ≡ workers) }
    ensures rose { IsErrOf result DeskError.Fault → Rose (T.faults target.old) (T.faults target.new) }
    ensures never { T.steady target.old ≡ true → IsErrOf result DeskError.Fault → ⊥ }
{
    for _ in 0..workers {
        let place = open_slot(alloc, source, target, size)?;
        places.push_reserved(place);
    }
    Ok(())
}

/// Opens slots for so many workers. At `Err` some are open.
pub(crate) fn open_slots<S: Source, T: Target>(
    alloc: Global,
    source: &S,
    target: &mut T,
    size: u64,
    workers: u32,
    slots: &mut List<Place<S, T::Desk>>,
) -> Result<(), DeskError>
    requires size { size < 2 ^ 32 }
    requires none { slots.old ≡ [] }
    ensures opened { OpensDesks (length slots.new) (view T.Store target.old) (view T.Store target.new) }
    ensures looks { T.looks target.new ≤ T.looks target.old + workers }
    ensures fit { All (IsFit S.Store T.Desk.Desk (scene_of S.Store T.Store source.now target.old) size) slots.new }
    ensures fresh { All (IsFresh S.Store T.Desk.Desk) slots.new }
    ensures count { OnOk result (length slots.new ≡ workers) }
    ensures rose { IsErrOf result DeskError.Fault → Rose (T.faults target.old) (T.faults target.new) }
    ensures never { T.steady target.old ≡ true → IsErrOf result DeskError.Fault → ⊥ }
{
    let mut places = room_for::<S, T>(alloc, workers)?;
    let done = open_into(alloc, source, target, size, workers, &mut places);
    *slots = List::of(places);
    done
}

/// Takes the slots back.
pub(crate) fn close_slots<S: Source, T: Target>(
    source: &mut S,
    target: &mut T,
    slots: List<Place<S, T::Desk>>,
)
    ensures source { TakesForksBack (sum_by (source_faults S.Store) slots) (view S.Store source.old) (view S.Store source.new) }
    ensures source_looks { S.looks source.new ≡ S.looks source.old }
    ensures target { TakesDesksBack (length slots) (sum_by (slot_makes T.Desk.Desk) slots) (sum_by (desk_faults T.Desk.Desk) slots)
        (view T.Store target.old) (view T.Store target.new) }
    ensures target_looks { T.looks target.new ≡ T.looks target.old }
{
    let mut places = slots.into_vec();
    while let Some(place) = places.pop() {
        let Place {
            source: fork,
            desk,
            buffer: _,
        } = place;
        source.rejoin(fork);
        target.rejoin_desk(desk);
    }
}
