//! Loops over the machine's reads and writes, which may take several calls each.
#![tactic(auto)]

ghost use Rattle.std.specs.Prelude.{◌≤◌, length, IfOk};

use dc_fs::ReadError;
use md5::{Digest, Md5};
use std::fs::File;
use std::io::{ErrorKind, Write};
use std::os::unix::fs::FileExt;

/// The bytes that are read at a time where a whole file is read.
pub(crate) const PIECE: usize = 65536;

// Fills a slice from a place of a file on, until it is full or the file ends, and answers how many bytes that are.
pub(crate) fn fill(file: &File, at: u64, into: &mut [u8]) -> Result<usize, ReadError>
    ensures { IfOk result (λ count. count ≤ length into.new) }
{
    let mut done = 0usize;
    'reads: for _ in 0..u64::MAX {
        if done >= into.len() {
            break;
        }
        let Some(from) = at.checked_add(done as u64) else {
            return Err(ReadError::Fault);
        };
        match file.read_at(&mut into[done..], from) {
            Ok(0) => break,
            Ok(count) => done += count,
            Err(e) if e.kind() == ErrorKind::Interrupted => {}
            Err(_) => return Err(ReadError::Fault),
        }
    }
    Ok(done)
}

// The MD5 digest of the first bytes of a file, so many as are asked for.
pub(crate) fn digest_of(file: &File, length: u64) -> Result<[u8; 16], ReadError> {
    let mut buffer = [0u8; PIECE];
    let mut hash = Md5::new();
    let mut left = length;
    'pieces: for _ in 0..u64::MAX {
        if left == 0 {
            break;
        }
        let want = left.min(PIECE as u64) as usize;
        let count = fill(file, length - left, &mut buffer[..want])?;
        if count == 0 {
            return Err(ReadError::Short);
        }
        hash.update(&buffer[..count]);
        left = left.saturating_sub(count as u64);
    }
    Ok(hash.finalize())
}

// Writes bytes after what was written, and answers how many: all of them, unless the machine fails.
pub(crate) fn write_front(file: &mut File, bytes: &[u8]) -> usize
    ensures { result ≤ length bytes.now }
{
    let mut done = 0usize;
    'writes: for _ in 0..u64::MAX {
        if done >= bytes.len() {
            break;
        }
        match file.write(&bytes[done..]) {
            Ok(0) => break,
            Ok(count) => done += count,
            Err(e) if e.kind() == ErrorKind::Interrupted => {}
            Err(_) => break,
        }
    }
    done
}
