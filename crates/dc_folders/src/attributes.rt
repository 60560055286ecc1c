//! Attributes that are set in a folder are read back from its catalogue.
#![tactic(auto)]

use crate::fixtures::{land_one, path, rename};
use dc_attrs::Attrs;
use dc_fs::{Store, Target, WriteError};
use dc_local::{LocalSource, LocalTarget};
use dc_path::{List, Text};
use std::alloc::Global;
use std::fs;
use std::test::Fail;

// Attributes of a file that belongs to this user.
fn owned(alloc: Global, user: &str) -> Result<Attrs, WriteError> {
    let user = Text::read(alloc, user)?;
    let group = Text::new(alloc);
    let acl = Text::new(alloc);
    let xattrs = List::new(alloc);
    Attrs::new(2, 8, user, group, 0o640, acl, xattrs, 0).map_err(|_| WriteError::Memory)
}

// Whether what stands at a path belongs to this user.
fn belongs_to<S: Store>(
    alloc: Global,
    store: &mut S,
    text: &str,
    user: &str,
) -> Result<bool, WriteError> {
    let path = path(alloc, text)?;
    match store.status(alloc, &path) {
        Ok(status) => Ok(status.attrs.user() == user),
        Err(_) => Err(WriteError::Fault),
    }
}

// Lands a file, and sets its attributes twice.
fn land_owned(
    alloc: Global,
    target: &mut LocalTarget<'_, HostRuntime>,
    text: &str,
) -> Result<(), WriteError> {
    land_one(alloc, target, text, "x")?;
    let attrs = owned(alloc, "etl")?;
    let place = path(alloc, text)?;
    target.set_attrs(alloc, &place, &attrs)?;
    target.set_attrs(alloc, &place, &attrs)
}

// Whether a file has kept its attributes, and keeps them as it moves.
fn is_kept_and_moves<T: Target>(alloc: Global, target: &mut T) -> Result<bool, WriteError> {
    let kept = belongs_to(alloc, target, "/a b", "etl")?;
    rename(alloc, target, "/a b", "/c")?;
    Ok(kept && belongs_to(alloc, target, "/c", "etl")?)
}

// Whether a new file has default attributes.
fn is_new<T: Target>(alloc: Global, target: &mut T) -> Result<bool, WriteError> {
    land_one(alloc, target, "/c", "y")?;
    belongs_to(alloc, target, "/c", "")
}

// Lands a file with attributes in a new folder, and answers whether it has.
fn make_owned(rt: &HostRuntime, folder: &str) -> Result<bool, Fail> {
    fs::create_dir(rt, folder)?;
    match LocalTarget::open_at(rt, rt.alloc(), folder) {
        Ok(mut target) => Ok(land_owned(rt.alloc(), &mut target, "/a b") == Ok(())),
        Err(_) => Ok(false),
    }
}

#[test]
fn attributes_are_read_back_after_reopening(rt: HostRuntime) -> Result<(), Fail> {
    assert!(rt; make_owned(&rt, "attrs")?);
    let mut target = LocalTarget::open_at(&rt, rt.alloc(), "attrs").expect(&rt, "a folder");
    assert_eq!(rt; is_kept_and_moves(rt.alloc(), &mut target), Ok(true));
    assert_eq!(rt; is_new(rt.alloc(), &mut target), Ok(true));
    let lines = fs::read_to_string(&rt, "attrs/.distcp.attrs")?;
    let wanted = "=\t/a%20b\t2\t8\tetl\t\t0640\t\t\t0\n>\t/a%20b\t/c\n-\t/c\n";
    assert!(rt; lines.as_str() == wanted);
    Ok(())
}

#[test]
fn a_source_reads_the_catalogue(rt: HostRuntime) -> Result<(), Fail> {
    assert!(rt; make_owned(&rt, "source")?);
    let mut source = LocalSource::open_at(&rt, rt.alloc(), "source").expect(&rt, "a folder");
    assert_eq!(rt;
        belongs_to(rt.alloc(), &mut source, "/a b", "etl"),
        Ok(true)
    );
    Ok(())
}
