//! The crew of a copy: what a worker owns, and how it copies a piece.
#![tactic(auto)]

ghost use Rattle.std.specs.Prelude.{◌≡◌, ◌<◌, length};
ghost use Rattle.dc_crew.specs.Jobs.{AreTasks, IsPart, IsEnd, source_path, path_at, task_of, is_doomed, is_stopper, is_late, stops_with, step_in};
ghost use Rattle.dc_crew.specs.Slots.{IsFit, job_in, slot_faults, slot_makes};

use crate::world::World;
use dc_attempt::{Attempted, Attempts};
use dc_decide::Planned;
use dc_fs::{Desk, Source};
use dc_kills::Stop;
use dc_path::Path;
use dc_pieces::Piece;
use dc_pool::{Crew, Worked};
use std::alloc::Global;
use std::marker::PhantomData;

/// The next attempt at a piece.
#[derive(Clone, Copy)]
pub struct Task {
    /// The number of the piece.
    pub piece: u32,
    /// The number of the attempt, from 1 on.
    pub attempt: u32,
    /// Where the kill plan stops it.
    pub stop: Option<Stop>,
}

/// What a worker owns.
#[derive(Drop)]
pub struct Place<S: Source, D: Desk> {
    /// A fork of the source.
    pub source: S,
    /// A desk of the target.
    pub desk: D,
    /// The buffer through which all its pieces go.
    pub buffer: Vec<u8>,
}

/// How a piece ends all waves.
#[derive(Drop)]
pub enum End {
    /// Memory ran out.
    Memory,
    /// The digest of what was read and that of the temporary differ.
    Differs {
        /// The digest of what was read.
        expected: [u8; 16],
        /// The digest of the temporary.
        found: [u8; 16],
    },
    /// The file is gone, or ends before the piece does.
    Changed,
}

/// The attempts of a wave, at pieces of the files of a plan, through buffers of one size.
pub struct CopyCrew<'a, S: Source, D: Desk, J: World> {
    pub items: &'a [Planned],
    pub pieces: &'a [Piece],
    pub tasks: &'a [Task],
    pub size: u64,
    pub marker: PhantomData<(S, D, J)>,
    ghost known: { AreTasks (length items.now) pieces.now tasks.now },
    ghost filled: { 0 < size },
}

impl<'a, S: Source, D: Desk, J: World> Crew for CopyCrew<'a, S, D, J> {
    type Slot = Place<S, D>;

    type Receipt = D::Temp;

    type End = End;

    ghost count = { λ c. length c.tasks.now };

    ghost fit = { λ c p. IsFit S.Store D.Desk J.scene c.size p };

    ghost right = { λ c n t. IsPart (job_in J.scene c.items.now c.pieces.now) (task_of c.tasks.now n).piece (D.Temp.content t) (D.Temp.size t) };

    ghost right_end = { λ c n e. IsEnd (job_in J.scene c.items.now c.pieces.now) (task_of c.tasks.now n).piece e };

    ghost doomed = { λ c n. is_doomed c.pieces.now c.size (task_of c.tasks.now n) };

    ghost stops = { λ c n. is_stopper (task_of c.tasks.now n) };

    ghost late = { λ c n. is_late (task_of c.tasks.now n) };

    ghost faults = { slot_faults S.Store D.Desk };

    ghost makes = { slot_makes D.Desk };

    fn work(&self, alloc: Global, slot: &mut Place<S, D>, number: u32) -> Worked<D::Temp, End> {
        let task = self.tasks[number as usize];
        let piece = self.pieces[task.piece as usize];
        let path = self.items[piece.item as usize].item().from();
        let stop = step_of(task.stop);
        match slot.desk.attempt_from(
            alloc,
            &mut slot.source,
            path,
            piece.from,
            piece.length,
            slot.buffer.as_mut_slice(),
            stop,
        ) {
            Attempted::Sealed(temp) => Worked::Done(temp),
            Attempted::Killed => Worked::Killed {
                worker_too: stops_worker(task.stop),
            },
            Attempted::Fault => Worked::Failed,
            Attempted::Differs { expected, found } => {
                Worked::Ended(End::Differs { expected, found })
            }
            Attempted::Changed => Worked::Ended(End::Changed),
            Attempted::Memory => Worked::Ended(End::Memory),
        }
    }
}

// Whether the worker stops with its attempt.
fn stops_worker(stop: Option<Stop>) -> bool
    ensures { result ≡ stops_with stop }
{
    match stop {
        Some(stop) => stop.worker_too,
        None => false,
    }
}

// The step of a stop.
fn step_of(stop: Option<Stop>) -> Option<u64>
    ensures { result ≡ step_in stop }
{
    match stop {
        Some(stop) => Some(stop.step),
        None => None,
    }
}
