//! Making directories: on the way to the target, at the base, and those that are listed.
#![tactic(auto)]

ghost use Rattle.std.specs.Prelude.{◌≡◌, ℕ, ◌+◌, ◌^◌, ◌<◌, ◌≤◌, true, length, OnOk, IfOk, IfErr, IfSome};
ghost use Rattle.std.specs.Option.{option_map};
ghost use Rattle.dc_path.specs.Paths.{IsWithin, front_of, max_names};
ghost use Rattle.dc_attrs.specs.Refusals.{refused_dir};
ghost use Rattle.dc_attrs.specs.Trees.{updated, made};
ghost use Rattle.dc_fs.specs.Answers.{Changes, is_refusal};
ghost use Rattle.dc_fs.specs.Causes.{HasCause, steady_at};
ghost use Rattle.dc_fs.specs.Views.{view};
ghost use Rattle.dc_commit.specs.Keeping.{Keeps};
ghost use Rattle.dc_commit.specs.Making.{is_hindrance, has_root_file, make_item, make_step, way_steps, base_steps, folder_steps, inner_steps, make_steps};
ghost use Rattle.dc_commit.specs.Settings.{place_of};
ghost use Rattle.dc_commit.specs.Steps.{after, TakesStep, Stops, StopsFrom};

use crate::StepError;
use crate::items::is_dir_item;
use crate::steps::stopped;
use dc_decide::{Plan, Planned};
use dc_fs::{Target, WriteError};
use dc_path::{Name, OutOfMemory, Path};
use std::alloc::Global;

// Makes a directory where nothing stands.
fn make_or_find<T: Target>(alloc: Global, target: &mut T, place: &Path) -> Result<(), WriteError>
    ensures tree { Changes (λ t. updated t place.now made) (T.tree target.old) (T.tree target.new) result }
    ensures hindered { IfErr result (λ e. is_refusal e ≡ true → IfSome (T.tree target.old) (λ t. is_hindrance (refused_dir t place.now) ≡ true)) }
    ensures rest { T.rest target.new ≡ T.rest target.old }
    ensures cause { HasCause (T.faults target.old) (T.faults target.new) result WriteError.Fault }
    ensures calm { steady_at (T.steady target.new) (T.faults target.new) ≡ steady_at (T.steady target.old) (T.faults target.old) }
    ensures looks { T.looks target.new ≤ T.looks target.old + 1 }
{
    match target.make_dir(alloc, place) {
        Ok(()) => Ok(()),
        Err(WriteError::Exists) => Ok(()),
        Err(error) => Err(error),
    }
}

// The same as a step, after so many others.
fn make_place<T: Target>(
    alloc: Global,
    target: &mut T,
    place: &Path,
    done: u64,
) -> Result<(), StepError>
    ensures step { TakesStep done (make_step place.now) (T.tree target.old) (T.tree target.new) result }
    ensures kept { Keeps (view T.Store target.old) (view T.Store target.new) result }
    ensures looks { T.looks target.new ≤ T.looks target.old + 1 }
{
    match make_or_find(alloc, target, place) {
        Ok(()) => Ok(()),
        Err(error) => Err(stopped(alloc, error, place, done)),
    }
}

// The names of a path but the last.
fn above(path: &Path) -> &[Name]
    ensures value { result.now ≡ front_of path.now }
    ensures within { IsWithin (front_of path.now) }
    ensures few { length (front_of path.now) ≤ length path.now }
    ensures most { length path.now ≤ max_names }
{
    let count = path.len();
    &path.names()[..count.saturating_sub(1)]
}

// Makes the directories at each path that begins with the root and goes on by these names.
fn make_way<T: Target>(alloc: Global, target: &mut T, names: &[Name]) -> Result<(), StepError>
    requires within { IsWithin names.now }
    ensures ok { OnOk result (T.tree target.new ≡ option_map (after (way_steps names.now)) (T.tree target.old)) }
    ensures stops { IfErr result (Stops (way_steps names.now) (T.tree target.old) (T.tree target.new)) }
    ensures kept { Keeps (view T.Store target.old) (view T.Store target.new) result }
    ensures looks { T.looks target.new ≤ T.looks target.old + length names.now }
{
    let mut at = Path::root(alloc);
    let mut done = 0u64;
    for name in names {
        at = match at.child_within(alloc, name) {
            Ok(next) => next,
            Err(OutOfMemory) => return Err(StepError::Memory { done }),
        };
        match make_place(alloc, target, &at, done) {
            Ok(()) => done += 1,
            Err(error) => return Err(error),
        }
    }
    Ok(())
}

// Whether a file is listed at the root path.
#[tactic(auto, using(dc_listing::proofs::NameLemmas::root_is_empty))]
fn has_root_file(items: &[Planned]) -> bool
    ensures { result ≡ has_root_file items.now }
{
    items.iter().any(|planned| planned.item().rel().len() == 0 && !planned.item().is_dir())
}

// Makes the base, unless a file goes there. It answers how many steps are done then.
fn make_base<T: Target>(
    alloc: Global,
    target: &mut T,
    plan: &Plan,
    first: u64,
) -> Result<u64, StepError>
    requires room { first < 2 ^ 32 }
    ensures ok { OnOk result (T.tree target.new ≡ option_map (after (base_steps plan.now)) (T.tree target.old)) }
    ensures count { IfOk result (λ done. done ≡ first + length (base_steps plan.now)) }
    ensures stops { IfErr result (StopsFrom first (base_steps plan.now) (T.tree target.old) (T.tree target.new)) }
    ensures kept { Keeps (view T.Store target.old) (view T.Store target.new) result }
    ensures looks { T.looks target.new ≤ T.looks target.old + 1 }
{
    if has_root_file(plan.items()) {
        return Ok(first);
    }
    match make_place(alloc, target, plan.base(), first) {
        Ok(()) => Ok(first + 1),
        Err(error) => Err(error),
    }
}

// Makes the directory of an item.
fn make_item<T: Target>(
    alloc: Global,
    target: &mut T,
    base: &Path,
    planned: &Planned,
    done: u64,
) -> Result<(), StepError>
    requires within { IsWithin (place_of base.now planned.now) }
    ensures step { TakesStep done (make_item base.now planned.now) (T.tree target.old) (T.tree target.new) result }
    ensures kept { Keeps (view T.Store target.old) (view T.Store target.new) result }
    ensures looks { T.looks target.new ≤ T.looks target.old + 1 }
{
    match base.join_within(alloc, planned.item().rel()) {
        Ok(place) => make_place(alloc, target, &place, done),
        Err(OutOfMemory) => Err(StepError::Memory { done }),
    }
}

// Makes the directories that are listed, after so many steps.
fn make_folders<T: Target>(
    alloc: Global,
    target: &mut T,
    plan: &Plan,
    first: u64,
) -> Result<(), StepError>
    requires room { first < 2 ^ 33 }
    ensures ok { OnOk result (T.tree target.new ≡ option_map (after (folder_steps plan.now)) (T.tree target.old)) }
    ensures stops { IfErr result (StopsFrom first (folder_steps plan.now) (T.tree target.old) (T.tree target.new)) }
    ensures kept { Keeps (view T.Store target.old) (view T.Store target.new) result }
    ensures looks { T.looks target.new ≤ T.looks target.old + length plan.now.items }
{
    let items = plan.items();
    let mut done = first;
    for planned in items {
        if !is_dir_item(planned) {
            continue;
        }
        match make_item(alloc, target, plan.base(), planned, done) {
            Ok(()) => done += 1,
            Err(error) => return Err(error),
        }
    }
    Ok(())
}

// Makes the base and the directories that are listed, after so many steps.
fn make_inner<T: Target>(
    alloc: Global,
    target: &mut T,
    plan: &Plan,
    first: u64,
) -> Result<(), StepError>
    requires room { first < 2 ^ 32 }
    ensures ok { OnOk result (T.tree target.new ≡ option_map (after (inner_steps plan.now)) (T.tree target.old)) }
    ensures stops { IfErr result (StopsFrom first (inner_steps plan.now) (T.tree target.old) (T.tree target.new)) }
    ensures kept { Keeps (view T.Store target.old) (view T.Store target.new) result }
    ensures looks { T.looks target.new ≤ T.looks target.old + 1 + length plan.now.items }
{
    match make_base(alloc, target, plan, first) {
        Ok(done) => make_folders(alloc, target, plan, done),
        Err(error) => Err(error),
    }
}

/// Makes what is missing of the directories on the way to the target, `place`, then the base of the plan, unless the item at
/// the root path is a file, and then the listed directories in path order. Items that the copy goes on without are left out.
/// Where something stands already, nothing is made, and it counts as made.
///
/// # Errors
///
/// - `Fault`, only where the target's count of faults rose;
/// - `Changed`, only where the parent of a path is no directory;
/// - `Memory`, at any element.
pub fn make_dirs<T: Target>(
    alloc: Global,
    target: &mut T,
    place: &Path,
    plan: &Plan,
) -> Result<(), StepError>
    ensures ok { OnOk result (T.tree target.new ≡ option_map (after (make_steps place.now plan.now)) (T.tree target.old)) }
    ensures stops { IfErr result (Stops (make_steps place.now plan.now) (T.tree target.old) (T.tree target.new)) }
    ensures kept { Keeps (view T.Store target.old) (view T.Store target.new) result }
    ensures looks { T.looks target.new ≤ T.looks target.old + length place.now + 1 + length plan.now.items }
{
    let way = above(place);
    match make_way(alloc, target, way) {
        Ok(()) => make_inner(alloc, target, plan, way.len() as u64),
        Err(error) => Err(error),
    }
}
