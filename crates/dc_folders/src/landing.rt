//! What lands in a folder is read back from it.
#![tactic(auto)]

use crate::fixtures::{land_one, land_two, lists, make_dir, reads_as, remove, rename, seen};
use dc_attrs::Seen;
use dc_fs::{Mode, Store, Target, WriteError};
use dc_local::{LocalSource, LocalTarget};
use std::alloc::Global;
use std::fs;
use std::io::ErrorKind;
use std::test::Fail;

// Lands one piece, two pieces, and two more at the end of the first.
fn land_three<T: Target>(alloc: Global, target: &mut T) -> Result<(), WriteError> {
    land_one(alloc, target, "/f", "abc")?;
    land_two(alloc, target, "/g", ("de", "f"), Mode::Replace)?;
    land_two(alloc, target, "/f", ("x", "yz"), Mode::Extend)?;
    target.sweep()
}

// Whether the files that have landed are all that stands there, each with its bytes.
fn has_three<S: Store>(alloc: Global, store: &mut S) -> bool {
    reads_as(alloc, store, "/f", "abcxyz") == Ok(true)
        && reads_as(alloc, store, "/g", "def") == Ok(true)
        && lists(alloc, store, "/", "f g ")
}

// Whether nothing at all stands at a place of the machine.
fn is_missing(rt: &HostRuntime, place: &str) -> bool {
    match fs::symlink_metadata(rt, place) {
        Ok(_) => false,
        Err(error) => error.kind() == ErrorKind::NotFound,
    }
}

#[test]
fn a_file_lands_and_is_read_back(rt: HostRuntime) -> Result<(), Fail> {
    let alloc = rt.alloc();
    fs::create_dir(&rt, "landing")?;
    let mut target = LocalTarget::open_at(&rt, alloc, "landing").expect(&rt, "a folder");
    assert_eq!(rt; land_three(alloc, &mut target), Ok(()));
    let mut source = LocalSource::open_at(&rt, alloc, "landing").expect(&rt, "a folder");
    assert!(rt; has_three(alloc, &mut source));
    assert!(rt; is_missing(&rt, "landing/.distcp.attrs"));
    assert!(rt; is_missing(&rt, "landing/.distcp.scratch"));
    Ok(())
}

// Moves a directory with a file in it, and answers what stands at the file's old path and at its new one.
fn move_dir<T: Target>(alloc: Global, target: &mut T) -> Result<(Seen, Seen), WriteError> {
    make_dir(alloc, target, "/d")?;
    land_one(alloc, target, "/d/f", "abc")?;
    rename(alloc, target, "/d", "/e")?;
    Ok((seen(alloc, target, "/d/f")?, seen(alloc, target, "/e/f")?))
}

// Removes the directory, and answers what stands at the file's path.
fn remove_dir<T: Target>(alloc: Global, target: &mut T) -> Result<Seen, WriteError> {
    remove(alloc, target, "/e")?;
    seen(alloc, target, "/e/f")
}

#[test]
fn what_is_moved_or_removed_is_not_remembered(rt: HostRuntime) -> Result<(), Fail> {
    let alloc = rt.alloc();
    fs::create_dir(&rt, "moving")?;
    let mut target = LocalTarget::open_at(&rt, alloc, "moving").expect(&rt, "a folder");
    let moved = move_dir(alloc, &mut target);
    assert!(rt; matches!(moved, Ok((Seen::Missing, Seen::File { length: 3 }))));
    assert_eq!(rt; remove_dir(alloc, &mut target), Ok(Seen::Missing));
    Ok(())
}
