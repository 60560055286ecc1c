//! Which paths the entries so far name.
#![tactic(auto)]

ghost use Rattle.std.specs.Prelude.{◌≡◌, ◌≢◌, ◌||◌, [], ◌∷◌, ◌++◌, List, None, Some, not, IfOk, IfErr, OnOk, IsTrue};
ghost use Rattle.std.specs.BTreeMap.{get};
ghost use Rattle.std.specs.BTreeSet.{contains};
ghost use Rattle.std.specs.Option.{is_some, option_copied};
ghost use Rattle.dc_path.specs.Paths.{Names, path_cmp, same_path};
ghost use Rattle.dc_report.specs.Carries.{carries_in, carry_to};
ghost use Rattle.dc_report.specs.Carrying.{insert_by, old_lt};
ghost use Rattle.dc_report.specs.declared.entries.Entry.{Entry as Told};
ghost use Rattle.dc_report.specs.declared.report.ReportError.TheVariants.{Memory};
ghost use Rattle.dc_report.specs.Known.{Knows};
ghost use Rattle.dc_report.specs.Reports.{double_of};

use crate::carries::Carries;
use crate::{Entry, ReportError};
use dc_path::{OutOfMemory, Path};
use std::alloc::Global;
use std::collections::{BTreeMap, BTreeSet};

/// The paths that the entries so far name, by what is told of them.
#[derive(Drop)]
pub struct Known {
    created: BTreeSet<Path>,
    modified: BTreeSet<Path>,
    carries: Carries,
    given: BTreeSet<Path>,
}

// Adds a path to a set; whether it is new there.
fn enter(alloc: Global, paths: &mut BTreeSet<Path>, path: &Path) -> Result<bool, OutOfMemory>
    ensures new { IfOk result (λ is_new. is_new ≡ not (contains path_cmp paths.old path.now)) }
    ensures enters { OnOk result ((p : Names) → contains path_cmp paths.new p ≡ (contains path_cmp paths.old p || same_path p path.now)) }
{
    let copied = path.copy(alloc)?;
    Ok(paths.insert(copied)?)
}

// A copy of a path, where there is one.
fn copy_of(alloc: Global, path: Option<&Path>) -> Result<Option<Path>, OutOfMemory>
    ensures { IfOk result (λ copied. copied ≡ option_copied path.entry) }
{
    match path {
        Some(path) => Ok(Some(path.copy(alloc)?)),
        None => Ok(None),
    }
}

// Adds a path that is deleted or renamed, and where to; whether it is new there.
fn carry(
    alloc: Global,
    carries: &mut Carries,
    old: &Path,
    new: Option<&Path>,
) -> Result<bool, OutOfMemory>
    ensures new { IfOk result (λ is_new. is_new ≡ not (is_some (get path_cmp carries.old old.now))) }
    ensures enters { OnOk result ((p : Names) → is_some (get path_cmp carries.new p) ≡ (is_some (get path_cmp carries.old p) || same_path p old.now)) }
    ensures carries { IfOk result (λ is_new. IsTrue is_new → carries_in carries.new.entries ≡ insert_by old_lt (carry_to old.now (option_copied new.entry)) (carries_in carries.old.entries)) }
{
    let from = old.copy(alloc)?;
    let to = copy_of(alloc, new)?;
    match carries.insert(from, to) {
        Ok(None) => Ok(true),
        Ok(Some(_)) => Ok(false),
        Err(_) => Err(OutOfMemory),
    }
}

impl Known {
    /// No paths. It takes no memory.
    pub fn new(alloc: Global) -> Known
        ensures { Knows result [] }
    {
        Known {
            created: BTreeSet::new(alloc),
            modified: BTreeSet::new(alloc),
            carries: BTreeMap::new(alloc),
            given: BTreeSet::new(alloc),
        }
    }

    /// Adds the paths of the entry of a line, unless an earlier entry has told of one.
    pub fn add(&mut self, alloc: Global, line: u64, entry: &Entry) -> Result<(), ReportError>
        ensures ok { OnOk result ((before : List Told) → Knows self.old before → (double_of line before entry.now ≡ None) × Knows self.new (before ++ entry.now ∷ [])) }
        ensures err { IfErr result (λ e. e ≢ Memory → (before : List Told) → Knows self.old before → double_of line before entry.now ≡ Some e) }
    {
        match entry {
            Entry::Created(path) => {
                if !enter(alloc, &mut self.created, path)? {
                    return Err(ReportError::DoubleLine { line });
                }
            }
            Entry::Modified(path) => {
                if !enter(alloc, &mut self.modified, path)? {
                    return Err(ReportError::DoubleLine { line });
                }
            }
            Entry::Deleted(path) => {
                if !carry(alloc, &mut self.carries, path, None)? {
                    return Err(ReportError::DoubleSource { line });
                }
            }
            Entry::Renamed { from, to } => {
                if !carry(alloc, &mut self.carries, from, Some(to))? {
                    return Err(ReportError::DoubleSource { line });
                }
                if !enter(alloc, &mut self.given, to)? {
                    return Err(ReportError::DoubleTarget { line });
                }
            }
        }
        Ok(())
    }

    /// The paths that are deleted or renamed, and where to.
    pub fn into_carries(self) -> Carries
        ensures { result ≡ self.carries }
    {
        self.carries
    }
}
