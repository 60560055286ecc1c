//! Names and paths of the items of a tree, owned texts and lists, and the lines and numbers of texts.
//!
//! A `Name` is a filename and a `Path` a list of names, both within fixed limits (POSIX.1, "Filename"
//! and "Pathname", without `.`, `..` and symbolic links). `Text` and `List` own their content and take
//! their memory from the allocator that they were made with. Each call that can find no memory says so by
//! an error of its own, and everything else that it answers is exact.
#![tactic(auto)]

pub mod laws;
mod lines;
mod list;
mod name;
mod numbers;
mod path;
mod text;

pub use lines::first_line;
pub use list::List;
pub use name::Name;
pub(crate) use name::test_name;
pub use numbers::read_number;
pub use path::{MAX_BYTES, MAX_NAMES, Path, PathError};
use std::alloc::{AllocError, AllocFailed};
pub use text::Text;

/// Memory ran out: the one error of a call that nothing else can fail.
///
/// No clause says when it comes. A call that answers it leaves what it borrows as it was, unless its own
/// clauses say otherwise.
#[derive(Clone, Copy, Debug, PartialEq, Eq)]
pub struct OutOfMemory;

impl From<AllocError> for OutOfMemory {
    fn from(_lack: AllocError) -> OutOfMemory {
        OutOfMemory
    }
}

impl<T: Drop> From<AllocFailed<T>> for OutOfMemory {
    fn from(_lack: AllocFailed<T>) -> OutOfMemory {
        OutOfMemory
    }
}
