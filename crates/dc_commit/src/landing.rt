//! Landing: the temporaries of each file become the file, or are added to it.
#![tactic(auto)]

ghost use Rattle.std.specs.Prelude.{◌≡◌, ℕ, ◌+◌, ◌^◌, ◌<◌, ◌≤◌, true, length, map, OnOk, IfErr, IsTrue};
ghost use Rattle.std.specs.List.{list_all, sum_by};
ghost use Rattle.dc_path.specs.Paths.{IsWithin};
ghost use Rattle.dc_fs.specs.Causes.{steady_at};
ghost use Rattle.dc_fs.specs.Views.{view, HasCauseIf};
ghost use Rattle.dc_commit.specs.Landing.{Landing, HaveLanded, LandsOne, LandStops, is_ready, landing_mode, landing_of, parts_of};
ghost use Rattle.dc_commit.specs.Steps.{is_fault};

use crate::StepError;
use crate::steps::stopped;
use dc_decide::{Action, Plan};
use dc_fs::{Desk, Held, Mode, Target};
use dc_path::{List, OutOfMemory, Path};
use std::alloc::Global;

/// A file whose temporaries are ready to land.
#[derive(Drop)]
pub struct Ready<P> {
    /// Which item of the plan it is, counted from 0.
    pub item: u32,
    /// Its temporaries, in the order in which they become one file.
    pub parts: List<P>,
}

// How what an action writes lands.
fn mode_of(action: Action) -> Mode
    ensures { result ≡ landing_mode action }
{
    match action {
        Action::Extend { .. } => Mode::Extend,
        Action::Folder | Action::Skip | Action::Replace => Mode::Replace,
    }
}

// Lands temporaries at a path, after so many other files.
fn land_at<T: Target>(
    alloc: Global,
    target: &mut T,
    place: &Path,
    mode: Mode,
    parts: List<<T::Desk as Desk>::Temp>,
    done: u64,
) -> Result<(), StepError>
    requires some { 1 ≤ length parts }
    requires counted { length parts ≤ (T.rest target.old).scratch }
    ensures lands { LandsOne done (record { place = place.now; mode = mode; parts = map T.Desk.Temp.content parts; bytes = sum_by T.Desk.Temp.size parts }) (view T.Store target.old) (view T.Store target.new) result }
    ensures cause { HasCauseIf (T.faults target.old) (T.faults target.new) result is_fault }
    ensures calm { steady_at (T.steady target.new) (T.faults target.new) ≡ steady_at (T.steady target.old) (T.faults target.old) }
    ensures looks { T.looks target.new ≤ T.looks target.old + 1 }
{
    match target.land(alloc, parts, place, mode) {
        Ok(()) => Ok(()),
        Err(error) => Err(stopped(alloc, error, place, done)),
    }
}

// Lands one file, after so many others.
fn land_one<T: Target>(
    alloc: Global,
    target: &mut T,
    plan: &Plan,
    file: Ready<<T::Desk as Desk>::Temp>,
    done: u64,
) -> Result<(), StepError>
    requires ready { IsTrue (is_ready plan.now file) }
    requires counted { parts_of file ≤ (T.rest target.old).scratch }
    ensures lands { LandsOne done (landing_of T.Desk.Temp.content T.Desk.Temp.size plan.now file) (view T.Store target.old) (view T.Store target.new) result }
    ensures cause { HasCauseIf (T.faults target.old) (T.faults target.new) result is_fault }
    ensures calm { steady_at (T.steady target.new) (T.faults target.new) ≡ steady_at (T.steady target.old) (T.faults target.old) }
    ensures looks { T.looks target.new ≤ T.looks target.old + 1 }
{
    let items = plan.items();
    let at = file.item as usize;
    let planned = &items[at];
    match plan.base().join_within(alloc, planned.item().rel()) {
        Ok(place) => land_at(
            alloc,
            target,
            &place,
            mode_of(planned.action()),
            file.parts,
            done,
        ),
        Err(OutOfMemory) => Err(StepError::Memory { done }),
    }
}

/// Lands the files that are ready, in the order given, each once and as its item in the plan says: the parts of a file, one
/// after the other, become the file, or are added at its end.
///
/// # Errors
///
/// - `Fault`, only where the target's count of faults rose;
/// - `Changed`, only where the tree refuses a file at its place;
/// - `Memory`, at any file.
pub fn land_all<T: Target>(
    alloc: Global,
    target: &mut T,
    plan: &Plan,
    files: List<Ready<<T::Desk as Desk>::Temp>>,
) -> Result<(), StepError>
    requires ready { list_all (is_ready plan.now) files ≡ true }
    requires counted { sum_by parts_of files ≤ (T.rest target.old).scratch }
    ensures ok { OnOk result (HaveLanded (map (landing_of T.Desk.Temp.content T.Desk.Temp.size plan.now) files) (view T.Store target.old) (view T.Store target.new)) }
    ensures stops { IfErr result (LandStops (map (landing_of T.Desk.Temp.content T.Desk.Temp.size plan.now) files) (view T.Store target.old) (view T.Store target.new)) }
    ensures cause { HasCauseIf (T.faults target.old) (T.faults target.new) result is_fault }
    ensures calm { steady_at (T.steady target.new) (T.faults target.new) ≡ steady_at (T.steady target.old) (T.faults target.old) }
    ensures looks { T.looks target.new ≤ T.looks target.old + length files }
{
    let mut done = 0u64;
    for file in files {
        match land_one(alloc, target, plan, file, done) {
            Ok(()) => done += 1,
            Err(error) => return Err(error),
        }
    }
    Ok(())
}
