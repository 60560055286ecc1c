//! Where each slot of an arena hangs: the way from a slot up to its directory.
//!
//! A note is kept beside each slot. Of a slot that was cut off it may be stale, and nobody reads it there.
#![tactic(auto)]

ghost use Rattle.std.specs.Prelude.{◌≡◌, ◌≤◌, ◌<◌, length, IfOk, OnOk};
ghost use Rattle.std.specs.Option.{option_copied};
ghost use Rattle.dc_tree.specs.Homes.{home_at, Rehomed};

use dc_path::{Name, OutOfMemory};
use std::alloc::Global;

/// Where a slot hangs.
#[derive(Drop)]
pub struct Home {
    /// The slot of the directory.
    pub parent: usize,
    /// The name in the directory.
    pub name: Name,
}

/// Where a slot hangs, as far as it was noted.
pub fn home_of(homes: &[Option<Home>], at: usize) -> Option<&Home>
    ensures { option_copied result ≡ home_at homes.now at }
{
    match homes.get(at) {
        Some(Some(home)) => Some(home),
        Some(None) => None,
        None => None,
    }
}

/// Makes room for notes of as many slots. `OutOfMemory` is the one error.
pub fn make_homes(homes: &mut Vec<Option<Home>>, count: usize) -> Result<(), OutOfMemory>
    ensures room { OnOk result (count ≤ length homes.new.items) }
    ensures same { home_at homes.new.items ≡ home_at homes.old.items }
{
    for _ in homes.len()..count {
        homes.push(None)?;
    }
    Ok(())
}

/// Notes where a slot hangs.
pub fn set_home(homes: &mut Vec<Option<Home>>, at: usize, home: Home)
    requires { at < length homes.old.items }
    ensures { Rehomed homes.old.items homes.new.items at home }
{
    homes[at] = Some(home);
}

// An equal note.
fn copy_home(alloc: Global, home: &Option<Home>) -> Result<Option<Home>, OutOfMemory>
    ensures { IfOk result (λ copy. copy ≡ home.now) }
{
    match home {
        Some(home) => Ok(Some(Home {
            parent: home.parent,
            name: home.name.copy(alloc)?,
        })),
        None => Ok(None),
    }
}

/// Equal notes. `OutOfMemory` is the one error.
pub fn copy_homes(alloc: Global, homes: &[Option<Home>]) -> Result<Vec<Option<Home>>, OutOfMemory>
    ensures { IfOk result (λ copy. copy.items ≡ homes.now) }
{
    let mut copy = Vec::new(alloc);
    for home in homes {
        let copied = copy_home(alloc, home)?;
        copy.push(copied)?;
    }
    Ok(copy)
}
