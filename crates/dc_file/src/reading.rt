//! How a file is read whole.
#![tactic(auto)]

ghost use Rattle.std.specs.Prelude.{◌≡◌, ◌+◌, ◌≤◌, false, length, IfOk, IfErr, IfSome, OnOk, IsErrOf, None};
ghost use Rattle.dc_attrs.specs.Trees.{seen, bytes_of};
ghost use Rattle.dc_attrs.specs.declared.shown.Seen.TheVariants as seen_as;
ghost use Rattle.dc_fs.specs.Views.{view, OnlyLooks};
ghost use Rattle.dc_file.specs.Files.{max_bytes, is_fault, file_at, FileAnswers, RefusedLength, IsReadWhole};

use dc_attrs::Seen;
use dc_fs::{ReadError, Store};
use dc_path::{List, OutOfMemory, Path};
use std::alloc::{AllocError, Global};

/// The most bytes of a file that is read whole.
pub const MAX_BYTES: u64 = 67_108_864;

/// Why a file is not read whole.
#[derive(Clone, Copy, Debug, PartialEq, Eq)]
pub enum FileError {
    /// No file stands there: nothing does, a directory does, or a file stands above.
    NoFile,
    /// The file has more than `MAX_BYTES` bytes.
    TooBig,
    /// The store denied what it showed before.
    Changed,
    /// The store failed.
    Fault,
    /// Memory ran out.
    Memory,
}

impl From<AllocError> for FileError {
    ghost use Rattle.std.specs.Prelude.{◌≡◌};
    ghost use Rattle.dc_file.specs.declared.reading.FileError.TheVariants.{Memory};

    ghost from_gives = { λ _ e. e ≡ Memory };

    fn from(_lack: AllocError) -> FileError {
        FileError::Memory
    }
}

// The length of the file at a path, if it is within the limit. It takes no memory.
fn length_at<S: Store>(store: &mut S, path: &Path) -> Result<u64, FileError>
    ensures store { OnlyLooks (view S.Store store.old) (view S.Store store.new) result is_fault }
    ensures looks { S.looks store.new ≤ S.looks store.old + 1 }
    ensures within { IfOk result (λ n. n ≤ max_bytes) }
    ensures file { IfOk result (λ n. IfSome (S.tree store.old) (λ t. seen t path.now ≡ seen_as.File n)) }
    ensures refused { IfErr result (λ e. IfSome (S.tree store.old) (λ t. RefusedLength (seen t path.now) e)) }
    ensures unchanged { IsErrOf result FileError.Changed → ⊥ }
{
    match store.kind(path) {
        Ok(Seen::File { length }) => {
            if length > MAX_BYTES {
                Err(FileError::TooBig)
            } else {
                Ok(length)
            }
        }
        Ok(Seen::Dir | Seen::Missing | Seen::NotDir) => Err(FileError::NoFile),
        Err(_) => Err(FileError::Fault),
    }
}

// Fills a buffer with all bytes of a file, which was seen to have as many.
fn fill<S: Store>(
    alloc: Global,
    store: &mut S,
    path: &Path,
    into: &mut [u8],
) -> Result<(), FileError>
    requires file { IfSome (S.tree store.old) (λ t. seen t path.now ≡ seen_as.File (length into.old)) }
    ensures store { OnlyLooks (view S.Store store.old) (view S.Store store.new) result is_fault }
    ensures looks { S.looks store.new ≤ S.looks store.old + 1 }
    ensures read { OnOk result (IfSome (S.tree store.old) (λ t. IsReadWhole (bytes_of (t path.now)) into.new)) }
    ensures told { IfErr result (λ e. IfSome (S.tree store.old) (λ t. FileAnswers (Err e) (file_at t path.now))) }
    ensures changed { IsErrOf result FileError.Changed → S.tree store.old ≡ None }
{
    match store.read_at(alloc, path, 0, into) {
        Ok(count) => {
            if count == into.len() {
                Ok(())
            } else {
                Err(FileError::Changed)
            }
        }
        Err(ReadError::Fault) => Err(FileError::Fault),
        Err(ReadError::Memory) => Err(FileError::Memory),
        Err(ReadError::Missing | ReadError::NotDir | ReadError::IsDir | ReadError::Short) => {
            Err(FileError::Changed)
        }
    }
}

/// All bytes of a file, of which there are at most `MAX_BYTES`.
///
/// The store is looked at twice: for the length, which takes no memory, and for that many bytes.
///
/// # Errors
///
/// - `NoFile`, exactly where no file stands at the path: nothing does, a directory does, or a file stands above;
/// - `TooBig`, exactly where the file has more than `MAX_BYTES` bytes;
/// - `Changed`, only where the store denied what it showed;
/// - `Fault`, only where the store's count of faults rose;
/// - `Memory`, which may come in the place of every answer but `NoFile`, `TooBig` and a fault of the first look.
pub fn read_file<S: Store>(alloc: Global, store: &mut S, path: &Path) -> Result<List<u8>, FileError>
    ensures store { OnlyLooks (view S.Store store.old) (view S.Store store.new) result is_fault }
    ensures looks { S.looks store.new ≤ S.looks store.old + 2 }
    ensures file { IfSome (S.tree store.old) (λ t. FileAnswers result (file_at t path.now)) }
    ensures changed { IsErrOf result FileError.Changed → S.tree store.old ≡ None }
    ensures within { IfOk result (λ bytes. length bytes ≤ max_bytes) }
{
    let length = length_at(store, path)?;
    let mut bytes = vec![in alloc; 0u8; length as usize]?;
    fill(alloc, store, path, bytes.as_mut_slice())?;
    Ok(List::of(bytes))
}
