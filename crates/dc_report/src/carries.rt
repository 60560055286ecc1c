//! Where what stood at a path goes, by the paths that are deleted or renamed.
#![tactic(auto)]

ghost use Rattle.std.specs.Prelude.{◌≡◌, ◌++◌, [], ◌∷◌, IfOk};
ghost use Rattle.dc_path.specs.Paths.{Names};
ghost use Rattle.dc_path.specs.Unless.{GivesUnless};
ghost use Rattle.dc_path.specs.declared.path.PathError.TheVariants.{Memory};
ghost use Rattle.dc_report.specs.Carrying.{carrier, limited, moved, place, then_rest};
ghost use Rattle.dc_report.specs.Carries.{carries_in, found, hit_of};

use dc_path::{OutOfMemory, Path, PathError};
use std::alloc::Global;
use std::collections::BTreeMap;

/// Each path that is deleted or renamed, and the path that it is renamed to; `None` where it is deleted.
pub type Carries = BTreeMap<Path, Option<Path>>;

/// The longest prefix of a path that is deleted or renamed, and where to. `OutOfMemory` is the one error.
pub fn carrier<'a>(
    carries: &'a Carries,
    alloc: Global,
    path: &Path,
) -> Result<Option<(Path, &'a Option<Path>)>, OutOfMemory>
    ensures { IfOk result (λ hit. found hit ≡ hit_of (carrier (carries_in carries.now.entries) path.now)) }
{
    if carries.len() == 0 {
        return Ok(None);
    }
    let mut rest = Some(path.copy(alloc)?);
    while let Some(front) = rest {
        if let Some(new) = carries.get(&front) {
            return Ok(Some((front, new)));
        }
        rest = front.parent(alloc)?;
    }
    Ok(None)
}

// Where a path goes by what carries this front of it.
fn follow(
    carries: &Carries,
    alloc: Global,
    front: &Path,
    path: &Path,
) -> Result<Option<Path>, PathError>
    ensures { (rest : Names) → path.now ≡ front.now ++ rest → GivesUnless Memory result (limited (then_rest (moved (carries_in carries.now.entries) front.now) rest)) }
{
    let Some((old, new)) = carrier(carries, alloc, front)? else {
        return Ok(Some(path.copy(alloc)?));
    };
    match new {
        None => Ok(None),
        Some(new) => path.graft(alloc, &old, new),
    }
}

/// Where a path goes: its longest prefix that is renamed is replaced; `None` where the longest that is deleted or
/// renamed is deleted.
///
/// # Errors
///
/// `TooDeep` and `TooLong`, exactly where the path of the answer passes that limit of `Path`; `Memory`, which may come in
/// the place of any answer.
pub fn moved(carries: &Carries, alloc: Global, path: &Path) -> Result<Option<Path>, PathError>
    ensures { GivesUnless Memory result (limited (moved (carries_in carries.now.entries) path.now)) }
{
    follow(carries, alloc, path, path)
}

/// Where what is created at a path goes: to where its parent goes, under its own last name; `None` for the root.
///
/// # Errors
///
/// As `moved`.
pub fn place(carries: &Carries, alloc: Global, created: &Path) -> Result<Option<Path>, PathError>
    ensures { GivesUnless Memory result (limited (place (carries_in carries.now.entries) created.now)) }
{
    match created.parent(alloc)? {
        None => Ok(None),
        Some(parent) => follow(carries, alloc, &parent, created),
    }
}
