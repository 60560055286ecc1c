//! Where paths go as lists of names, which may pass the limits of a path.
#![tactic(auto)]

ghost use Rattle.std.specs.Prelude.{◌≡◌, ◌≢◌, ◌++◌, true, IfOk, OnOk};
ghost use Rattle.dc_path.specs.Paths.{Names, is_under};
ghost use Rattle.dc_path.specs.declared.path.PathError.TheVariants.{Memory};
ghost use Rattle.dc_report.specs.Carries.{carries_in, IsFitting, OldsFit};
ghost use Rattle.dc_report.specs.Carrying.{moved, place, then_rest};

use crate::carries::{Carries, carrier};
use dc_path::{List, Name, OutOfMemory, Path, PathError};
use std::alloc::Global;

/// Whether memory ran out.
pub fn no_memory(error: PathError) -> Result<(), OutOfMemory>
    ensures { OnOk result (error ≢ Memory) }
{
    match error {
        PathError::Memory => Err(OutOfMemory),
        _ => Ok(()),
    }
}

// Adds copies of names at the end.
fn add_names(alloc: Global, names: &[Name], to: &mut List<Name>) -> Result<(), OutOfMemory>
    ensures { OnOk result (to.new ≡ to.old ++ names.now) }
{
    for name in names {
        let copied = name.copy(alloc)?;
        to.add(copied)?;
    }
    Ok(())
}

// The longest front of names that is within the limits of a path.
fn fitting(alloc: Global, names: &[Name]) -> Result<Path, OutOfMemory>
    ensures { IfOk result (λ front. IsFitting front names.now) }
{
    let mut front = Path::root(alloc);
    for name in names {
        match front.child(alloc, name) {
            Ok(longer) => front = longer,
            Err(error) => {
                no_memory(error)?;
                return Ok(front);
            }
        }
    }
    Ok(front)
}

// Where names go by what carries this front of them.
fn follow_names(
    carries: &Carries,
    alloc: Global,
    front: &Path,
    names: &[Name],
) -> Result<Option<List<Name>>, OutOfMemory>
    requires { is_under front.now names.now ≡ true }
    ensures { (rest : Names) → names.now ≡ front.now ++ rest → IfOk result (λ to. to ≡ then_rest (moved (carries_in carries.now.entries) front.now) rest) }
{
    let mut to = List::new(alloc);
    let Some((old, new)) = carrier(carries, alloc, front)? else {
        add_names(alloc, names, &mut to)?;
        return Ok(Some(to));
    };
    let Some(new) = new else {
        return Ok(None);
    };
    add_names(alloc, new.names(), &mut to)?;
    add_names(alloc, &names[old.len()..], &mut to)?;
    Ok(Some(to))
}

/// Where the path of these names goes by a map from old paths to new ones, as names; `None` where it goes nowhere. The paths of
/// the map are within the limits of a path. `OutOfMemory` is the one error.
pub fn moved_names(
    carries: &Carries,
    alloc: Global,
    names: &[Name],
) -> Result<Option<List<Name>>, OutOfMemory>
    requires { OldsFit (carries_in carries.now.entries) }
    ensures { IfOk result (λ to. to ≡ moved (carries_in carries.now.entries) names.now) }
{
    let front = fitting(alloc, names)?;
    follow_names(carries, alloc, &front, names)
}

/// Where what is created at a path goes, as names; `None` for the root. `OutOfMemory` is the one error.
pub fn place_names(
    carries: &Carries,
    alloc: Global,
    created: &Path,
) -> Result<Option<List<Name>>, OutOfMemory>
    ensures { IfOk result (λ to. to ≡ place (carries_in carries.now.entries) created.now) }
{
    match created.parent(alloc)? {
        None => Ok(None),
        Some(parent) => follow_names(carries, alloc, &parent, created.names()),
    }
}
