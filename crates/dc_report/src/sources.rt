//! Where what stands at the new paths of a report stood before.
#![tactic(auto)]

ghost use Rattle.std.specs.Prelude.{◌≡◌, Some, IfOk, OnOk};
ghost use Rattle.dc_report.specs.Carries.{carries_in};
ghost use Rattle.dc_report.specs.Landings.{NewsDiffer, landed, sources_of};

use crate::carries::Carries;
use dc_path::{OutOfMemory, Path};
use std::alloc::Global;
use std::collections::BTreeMap;

// Adds the new path of an item with its old path, where it has a new one.
fn add_source(
    alloc: Global,
    sources: &mut Carries,
    old: &Path,
    new: &Option<Path>,
) -> Result<(), OutOfMemory>
    ensures { OnOk result (sources.new.entries ≡ landed new.now (Some old.now) sources.old.entries) }
{
    if let Some(new) = new {
        let new = new.copy(alloc)?;
        let old = old.copy(alloc)?;
        sources.insert(new, Some(old))?;
    }
    Ok(())
}

/// Each new path of a rename with its old path. `OutOfMemory` is the one error.
pub fn sources(alloc: Global, carries: &Carries) -> Result<Carries, OutOfMemory>
    requires { NewsDiffer (carries_in carries.now.entries) }
    ensures { IfOk result (λ sources. sources.entries ≡ sources_of (carries_in carries.now.entries)) }
{
    let mut sources = BTreeMap::new(alloc);
    for (old, new) in carries.iter().rev() {
        add_source(alloc, &mut sources, old, new)?;
    }
    Ok(sources)
}
