//! Digests of files and of temporaries, by the vectors of RFC 1321.
#![tactic(auto)]

use crate::fixtures::{make_dir, path, put};
use dc_attrs::TreeError;
use dc_fs::{Desk, DeskError, ReadError, Store, Target, WriteError};
use dc_memfs::{Fails, MemSource, MemTarget};
use dc_tree::MemTree;
use std::alloc::Global;
use std::test::Fail;

// The digest of the empty message.
const OF_NOTHING: [u8; 16] = [
    0xd4, 0x1d, 0x8c, 0xd9, 0x8f, 0x00, 0xb2, 0x04, 0xe9, 0x80, 0x09, 0x98, 0xec, 0xf8, 0x42, 0x7e,
];

// The digest of `a`.
const OF_A: [u8; 16] = [
    0x0c, 0xc1, 0x75, 0xb9, 0xc0, 0xf1, 0xb6, 0xa8, 0x31, 0xc3, 0x99, 0xe2, 0x69, 0x77, 0x26, 0x61,
];

// The digest of `abc`.
const OF_ABC: [u8; 16] = [
    0x90, 0x01, 0x50, 0x98, 0x3c, 0xd2, 0x4f, 0xb0, 0xd6, 0x96, 0x3f, 0x7d, 0x28, 0xe1, 0x7f, 0x72,
];

// The tree of a directory with one file of three bytes.
fn small_tree(alloc: Global) -> Result<MemTree, TreeError> {
    let mut tree = MemTree::new(alloc)?;
    make_dir(alloc, &mut tree, "/s")?;
    put(alloc, &mut tree, "/s/f", b"abc")?;
    Ok(tree)
}

// The digest of the first bytes of what stands at a path of a source.
fn checksum(alloc: Global, tree: &MemTree, text: &str, length: u64) -> Result<[u8; 16], ReadError> {
    let path = path(alloc, text).map_err(|_| ReadError::Memory)?;
    let none = Fails::none(alloc);
    let mut source = MemSource::new(tree, &none, &none);
    source.checksum(alloc, &path, length)
}

// The digest of a new temporary with these bytes.
fn filled<D: Desk>(alloc: Global, desk: &mut D, bytes: &[u8]) -> Result<[u8; 16], DeskError> {
    desk.create(alloc)?;
    desk.append(alloc, bytes)?;
    desk.digest(alloc)
}

// The digest of a temporary with these bytes, on a desk of a target that takes it back.
fn digest(alloc: Global, bytes: &[u8]) -> Result<[u8; 16], WriteError> {
    let tree = MemTree::new(alloc)?;
    let mut target = MemTarget::new(alloc, tree, Fails::none(alloc), Fails::none(alloc));
    let mut desk = target.open_desk(alloc)?;
    let found = filled(alloc, &mut desk, bytes).map_err(|_| WriteError::Memory);
    target.rejoin_desk(desk);
    found
}

#[test]
fn a_checksum_is_that_of_the_first_bytes(rt: HostRuntime) -> Result<(), Fail> {
    let alloc = rt.alloc();
    let tree = small_tree(alloc)?;
    assert_eq!(rt; checksum(alloc, &tree, "/s/f", 0), Ok(OF_NOTHING));
    assert_eq!(rt; checksum(alloc, &tree, "/s/f", 1), Ok(OF_A));
    assert_eq!(rt; checksum(alloc, &tree, "/s/f", 3), Ok(OF_ABC));
    Ok(())
}

#[test]
fn a_checksum_is_refused_past_the_end_and_where_no_file_stands(
    rt: HostRuntime,
) -> Result<(), Fail> {
    let alloc = rt.alloc();
    let tree = small_tree(alloc)?;
    assert_eq!(rt; checksum(alloc, &tree, "/s/f", 4), Err(ReadError::Short));
    assert_eq!(rt; checksum(alloc, &tree, "/s", 0), Err(ReadError::IsDir));
    assert_eq!(rt; checksum(alloc, &tree, "/x", 0), Err(ReadError::Missing));
    Ok(())
}

#[test]
fn a_digest_is_that_of_the_temporary(rt: HostRuntime) -> Result<(), Fail> {
    let alloc = rt.alloc();
    assert_eq!(rt; digest(alloc, b""), Ok(OF_NOTHING));
    assert_eq!(rt; digest(alloc, b"abc"), Ok(OF_ABC));
    Ok(())
}
