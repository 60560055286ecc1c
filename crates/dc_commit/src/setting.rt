//! Setting attributes: of files in path order, and of directories the other way round.
#![tactic(auto)]

ghost use Rattle.std.specs.Prelude.{◌≡◌, ℕ, ◌+◌, ◌*◌, ◌^◌, ◌<◌, ◌≤◌, ◌++◌, true, length, IfOk, IfErr, OnOk, IsTrue};
ghost use Rattle.std.specs.Option.{option_copied, option_map};
ghost use Rattle.dc_path.specs.Paths.{IsWithin};
ghost use Rattle.dc_attrs.specs.Attributes.{default_file, default_dir};
ghost use Rattle.dc_fs.specs.Views.{view};
ghost use Rattle.dc_commit.specs.Keeping.{Keeps};
ghost use Rattle.dc_commit.specs.Settings.{attrs_under, final_attrs, fits_as, is_kind, place_of, set_at, set_step, file_steps, dir_steps};
ghost use Rattle.dc_commit.specs.Steps.{after, TakesStep, Stops};

use crate::StepError;
use crate::items::{is_dir_item, is_file_item};
use crate::steps::stopped;
use dc_attrs::{Attrs, Keep, Seen, overlay};
use dc_decide::{Action, Plan, Planned};
use dc_fs::{LookFault, Target, WriteError};
use dc_path::{OutOfMemory, Path};
use std::alloc::Global;

// The attributes over which those of the source are laid, where these are the defaults.
fn attrs_under<'a>(
    action: Action,
    before: Option<&'a Attrs>,
    file: &'a Attrs,
    dir: &'a Attrs,
) -> &'a Attrs
    requires file { file.now ≡ default_file }
    requires dir { dir.now ≡ default_dir }
    ensures { result.now ≡ attrs_under action (option_copied before.entry) }
{
    let default = match action {
        Action::Folder => dir,
        Action::Replace => return file,
        Action::Skip | Action::Extend { .. } => file,
    };
    match before {
        Some(attrs) => attrs,
        None => default,
    }
}

// The attributes of an item at the end of the copy. They fit its kind.
fn final_attrs(alloc: Global, keep: &Keep, planned: &Planned) -> Result<Attrs, OutOfMemory>
    ensures value { IfOk result (λ attrs. attrs ≡ final_attrs keep.now planned.now) }
    ensures fits { IfOk result (λ attrs. IsTrue (fits_as planned.now.item.dir attrs)) }
{
    let file = Attrs::default_file(alloc);
    let dir = Attrs::default_dir(alloc);
    let onto = attrs_under(planned.action(), planned.before(), &file, &dir);
    overlay(alloc, keep, planned.item().attrs(), onto)
}

// Whether a directory, or a file, is seen.
fn is_kind(dir: bool, seen: Seen) -> bool
    ensures { result ≡ is_kind dir seen }
{
    match seen {
        Seen::Dir => dir,
        Seen::File { .. } => !dir,
        Seen::Missing | Seen::NotDir => false,
    }
}

// Sets attributes at a path, where a directory or a file is seen.
fn set_at<T: Target>(
    alloc: Global,
    target: &mut T,
    place: &Path,
    dir: bool,
    attrs: &Attrs,
    done: u64,
) -> Result<(), StepError>
    requires fits { IsTrue (fits_as dir attrs.now) }
    ensures step { TakesStep done (set_at dir place.now attrs.now) (T.tree target.old) (T.tree target.new) result }
    ensures kept { Keeps (view T.Store target.old) (view T.Store target.new) result }
    ensures looks { T.looks target.new ≤ T.looks target.old + 2 }
{
    let seen = match target.kind(place) {
        Ok(seen) => seen,
        Err(LookFault) => return Err(StepError::Fault { done }),
    };
    if !is_kind(dir, seen) {
        return Err(stopped(alloc, WriteError::Missing, place, done));
    }
    match target.set_attrs(alloc, place, attrs) {
        Ok(()) => Ok(()),
        Err(error) => Err(stopped(alloc, error, place, done)),
    }
}

// Sets the attributes of an item.
fn set_item<T: Target>(
    alloc: Global,
    target: &mut T,
    base: &Path,
    planned: &Planned,
    keep: &Keep,
    done: u64,
) -> Result<(), StepError>
    requires within { IsWithin (place_of base.now planned.now) }
    ensures step { TakesStep done (set_step keep.now base.now planned.now) (T.tree target.old) (T.tree target.new) result }
    ensures kept { Keeps (view T.Store target.old) (view T.Store target.new) result }
    ensures looks { T.looks target.new ≤ T.looks target.old + 2 }
{
    let place = match base.join_within(alloc, planned.item().rel()) {
        Ok(place) => place,
        Err(OutOfMemory) => return Err(StepError::Memory { done }),
    };
    let attrs = match final_attrs(alloc, keep, planned) {
        Ok(attrs) => attrs,
        Err(OutOfMemory) => return Err(StepError::Memory { done }),
    };
    set_at(alloc, target, &place, planned.item().is_dir(), &attrs, done)
}

/// Sets the attributes of each file that the copy goes on with, in path order: those of the source at the kept letters,
/// and else those that the target had, or the defaults for a file that is new or replaced.
///
/// # Errors
///
/// - `Fault`, only where the target's count of faults rose;
/// - `Changed`, only where no file is seen at a place;
/// - `Memory`, at any element.
pub fn set_file_attrs<T: Target>(
    alloc: Global,
    target: &mut T,
    plan: &Plan,
    keep: &Keep,
) -> Result<(), StepError>
    ensures ok { OnOk result (T.tree target.new ≡ option_map (after (file_steps keep.now plan.now)) (T.tree target.old)) }
    ensures stops { IfErr result (Stops (file_steps keep.now plan.now) (T.tree target.old) (T.tree target.new)) }
    ensures kept { Keeps (view T.Store target.old) (view T.Store target.new) result }
    ensures looks { T.looks target.new ≤ T.looks target.old + 2 * length plan.now.items }
{
    let items = plan.items();
    let mut done = 0u64;
    for planned in items {
        if !is_file_item(planned) {
            continue;
        }
        match set_item(alloc, target, plan.base(), planned, keep, done) {
            Ok(()) => done += 1,
            Err(error) => return Err(error),
        }
    }
    Ok(())
}

/// Sets the attributes of each directory that the copy goes on with, from the last one in path order to the first, so that
/// those of a directory come after those of what is in it.
///
/// # Errors
///
/// As of `set_file_attrs`, with `Changed` where no directory is seen.
pub fn set_dir_attrs<T: Target>(
    alloc: Global,
    target: &mut T,
    plan: &Plan,
    keep: &Keep,
) -> Result<(), StepError>
    ensures ok { OnOk result (T.tree target.new ≡ option_map (after (dir_steps keep.now plan.now)) (T.tree target.old)) }
    ensures stops { IfErr result (Stops (dir_steps keep.now plan.now) (T.tree target.old) (T.tree target.new)) }
    ensures kept { Keeps (view T.Store target.old) (view T.Store target.new) result }
    ensures looks { T.looks target.new ≤ T.looks target.old + 2 * length plan.now.items }
{
    let items = plan.items();
    let mut done = 0u64;
    let mut at = items.len();
    while at > 0 {
        at -= 1;
        let planned = &items[at];
        if !is_dir_item(planned) {
            continue;
        }
        match set_item(alloc, target, plan.base(), planned, keep, done) {
            Ok(()) => done += 1,
            Err(error) => return Err(error),
        }
    }
    Ok(())
}
