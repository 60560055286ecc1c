//! A target in memory on which one file lands.
#![tactic(auto)]

use crate::fixtures::{are_same, has_bytes, path};
use dc_attrs::{Attrs, TreeError};
use dc_fs::{Desk, DeskError, Mode, Target, WriteError};
use dc_memfs::{Fails, MemTarget, MemTemp};
use dc_path::List;
use dc_tree::MemTree;
use std::alloc::Global;
use std::test::Fail;

// A target of the root alone.
fn empty_target(alloc: Global) -> Result<MemTarget, TreeError> {
    let tree = MemTree::new(alloc)?;
    let (own, desks) = (Fails::none(alloc), Fails::none(alloc));
    Ok(MemTarget::new(alloc, tree, own, desks))
}

// A sealed temporary of these bytes.
fn sealed<D: Desk>(alloc: Global, desk: &mut D, bytes: &[u8]) -> Result<D::Temp, DeskError> {
    desk.create(alloc)?;
    desk.append(alloc, bytes)?;
    desk.seal(alloc)
}

// One temporary of these bytes, from a desk of the target that is taken back.
fn one_part(
    alloc: Global,
    target: &mut MemTarget,
    bytes: &[u8],
) -> Result<List<MemTemp>, WriteError> {
    let mut desk = target.open_desk(alloc)?;
    let part = sealed(alloc, &mut desk, bytes).map_err(|_| WriteError::Memory)?;
    target.rejoin_desk(desk);
    let mut parts = List::new(alloc);
    parts.push(part).map_err(|_| WriteError::Memory)?;
    Ok(parts)
}

// Lands temporaries, of which the target must have counted as many.
fn land(
    alloc: Global,
    target: &mut MemTarget,
    parts: List<MemTemp>,
    text: &str,
) -> Result<(), WriteError> {
    let path = path(alloc, text)?;
    if parts.len() == 0 {
        return Err(WriteError::Missing);
    }
    if target.scratch() < parts.len() as u64 {
        return Err(WriteError::Missing);
    }
    target.land(alloc, parts, &path, Mode::Replace)
}

// Whether one file has landed and nothing else, replacing what stood there.
fn has_landed(
    alloc: Global,
    target: &MemTarget,
    text: &str,
    bytes: u64,
) -> Result<bool, TreeError> {
    match target.landed().as_slice() {
        [one] => {
            let found = one.path.text(alloc)?;
            Ok(found.as_str() == text && one.mode == Mode::Replace && one.bytes == bytes)
        }
        _ => Ok(false),
    }
}

// Whether what stands at a path has the attributes of a new file.
fn is_new_file(alloc: Global, tree: &MemTree, text: &str) -> Result<bool, TreeError> {
    let path = path(alloc, text)?;
    match tree.attrs(&path) {
        Some(attrs) => Ok(are_same(attrs, &Attrs::default_file(alloc))),
        None => Ok(false),
    }
}

// A target on which a file has landed.
fn landed_target(alloc: Global) -> Result<MemTarget, WriteError> {
    let mut target = empty_target(alloc).map_err(|_| WriteError::Memory)?;
    let parts = one_part(alloc, &mut target, b"hi")?;
    land(alloc, &mut target, parts, "/d")?;
    Ok(target)
}

#[test]
fn a_part_is_counted_until_it_lands(rt: HostRuntime) -> Result<(), Fail> {
    let alloc = rt.alloc();
    let mut target = empty_target(alloc)?;
    let parts = one_part(alloc, &mut target, b"hi")?;
    assert_eq!(rt; target.scratch(), 1);
    assert_eq!(rt; land(alloc, &mut target, parts, "/d"), Ok(()));
    assert_eq!(rt; target.scratch(), 0);
    assert_eq!(rt; target.sweep(), Ok(()));
    Ok(())
}

#[test]
fn what_lands_is_a_new_file_and_recorded(rt: HostRuntime) -> Result<(), Fail> {
    let alloc = rt.alloc();
    let target = landed_target(alloc)?;
    assert_eq!(rt; has_landed(alloc, &target, "/d", 2), Ok(true));
    assert_eq!(rt; has_bytes(alloc, target.tree(), "/d", b"hi"), Ok(true));
    assert_eq!(rt; is_new_file(alloc, target.tree(), "/d"), Ok(true));
    Ok(())
}
