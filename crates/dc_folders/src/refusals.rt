//! Folders that are not opened, and what stands in a folder but is neither a file nor a directory.
#![tactic(auto)]

use crate::fixtures::{land_one, listed, lists, make_dir, seen};
use dc_attrs::Seen;
use dc_fs::{ReadError, Store, Target, WriteError};
use dc_local::{LocalError, LocalSource, LocalTarget};
use std::alloc::Global;
use std::fs;
use std::os::unix::fs::symlink;
use std::test::Fail;

// Writes a folder with a catalogue of these lines.
fn write_lines(rt: &HostRuntime, folder: &str, lines: &str) -> Result<(), Fail> {
    fs::create_dir(rt, folder)?;
    let place = format!(in rt.alloc(); "{folder}/.distcp.attrs")?;
    fs::write(rt, place.as_str(), lines)?;
    Ok(())
}

// Why a folder is not opened as a source, as text.
fn refusal(rt: &HostRuntime, folder: &str) -> Result<String, Fail> {
    match LocalSource::open_at(rt, rt.alloc(), folder) {
        Ok(_) => Ok(format!(in rt.alloc(); "opened")?),
        Err(error) => Ok(format!(in rt.alloc(); "{error} {error:?}")?),
    }
}

// Whether a folder is not opened for this reason.
fn is_refused(rt: &HostRuntime, folder: &str, why: &str) -> Result<bool, Fail> {
    Ok(refusal(rt, folder)?.as_str() == why)
}

#[test]
fn folders_that_are_not_opened(rt: HostRuntime) -> Result<(), Fail> {
    fs::write(&rt, "file", "x")?;
    write_lines(&rt, "bad", "-\t/a\n>\t/a\t/b\n-\t/a\t\n")?;
    write_lines(&rt, "cut", "-\t/a\n-\t/b")?;
    fs::create_dir(&rt, "dir")?;
    fs::create_dir(&rt, "dir/.distcp.attrs")?;
    assert!(rt; is_refused(&rt, "none", "NoFolder NoFolder")?);
    assert!(rt; is_refused(&rt, "file", "NoFolder NoFolder")?);
    assert!(rt; is_refused(&rt, "bad", "BadCatalogue BadCatalogue { line: 3 }")?);
    assert!(rt; is_refused(&rt, "cut", "BadCatalogue BadCatalogue { line: 2 }")?);
    assert!(rt; is_refused(&rt, "dir", "Fault Fault")?);
    Ok(())
}

// Whether a look at a path is a fault.
fn look_fails<S: Store>(alloc: Global, store: &mut S, text: &str) -> bool {
    seen(alloc, store, text) == Err(WriteError::Fault)
}

// Whether a path is missing, and no change of it is made.
fn is_closed<T: Target>(alloc: Global, target: &mut T, text: &str) -> bool {
    seen(alloc, target, text) == Ok(Seen::Missing)
        && make_dir(alloc, target, text) == Err(WriteError::Fault)
}

// Whether a link is listed and nothing else is done with it.
fn is_not_followed<T: Target>(alloc: Global, target: &mut T) -> bool {
    lists(alloc, target, "/", "d l ")
        && look_fails(alloc, target, "/l")
        && look_fails(alloc, target, "/l/x")
        && matches!(listed(alloc, target, "/l"), Err(ReadError::Fault))
        && land_one(alloc, target, "/l/x", "x") == Err(WriteError::Fault)
}

#[test]
fn no_link_is_followed(rt: HostRuntime) -> Result<(), Fail> {
    let alloc = rt.alloc();
    fs::create_dir(&rt, "links")?;
    fs::create_dir(&rt, "links/d")?;
    symlink(&rt, "d", "links/l")?;
    let mut target = LocalTarget::open_at(&rt, alloc, "links").expect(&rt, "a folder");
    assert!(rt; is_not_followed(alloc, &mut target));
    Ok(())
}

#[test]
fn no_device_is_opened(rt: HostRuntime) -> Result<(), Fail> {
    let alloc = rt.alloc();
    let mut devices = LocalSource::open_at(&rt, alloc, "/dev").expect(&rt, "a folder");
    assert!(rt; look_fails(alloc, &mut devices, "/null"));
    Ok(())
}

#[test]
fn the_catalogue_is_no_part_of_the_tree(rt: HostRuntime) -> Result<(), Fail> {
    let alloc = rt.alloc();
    write_lines(&rt, "own", "-\t/a\n")?;
    let mut target = LocalTarget::open_at(&rt, alloc, "own").expect(&rt, "a folder");
    assert!(rt; lists(alloc, &mut target, "/", ""));
    assert!(rt; is_closed(alloc, &mut target, "/.distcp.attrs"));
    assert!(rt; is_closed(alloc, &mut target, "/.distcp.scratch/x"));
    Ok(())
}
