//! Stores that are looked at, and the source of a copy.
#![tactic(auto)]

ghost use Rattle.std.specs.Prelude.{◌≡◌, ℕ, ◌≤◌, Bool, true, Option, length, IfOk, IfSome, IsSomeAnd, IsTrue, IsErrOf};
ghost use Rattle.std.specs.List.{list_all};
ghost use Rattle.std.specs.List.Sorted.{IsStrictlySortedBy};
ghost use Rattle.std.specs.Cmp.Lexicographic.{slice_cmp};
ghost use Rattle.std.specs.Ordering.{nat_cmp};
ghost use Rattle.dc_attrs.specs.Trees.{Tree, seen, bytes_of};
ghost use Rattle.dc_fs.specs.Causes.{raised, HasCause, steady_at};
ghost use Rattle.dc_fs.specs.Answers.{ReadAnswers, refused_status, refused_list, refused_read};
ghost use Rattle.dc_fs.specs.Digests.{IsChecksum};
ghost use Rattle.dc_fs.specs.Looks.{IsStatusOf, fits_kind, is_shown, AreNames, IsRead};

use crate::{LookFault, ReadError};
use dc_attrs::{Attrs, Seen};
use dc_path::{List, Name, OutOfMemory, Path};
use std::alloc::Global;

/// What stands at a path, with its attributes (HDFS, `FileStatus`).
#[derive(Drop)]
pub struct Status {
    /// Whether it is a directory.
    pub dir: bool,
    /// The bytes of a file, and 0 for a directory.
    pub length: u64,
    /// The attributes; they fit the kind.
    pub attrs: Attrs,
}

/// A tree of directories and files that can be looked at (Hadoop, `FileSystem`). No call of this trait changes it.
///
/// A store may tell its tree to contracts, or tell nothing; it never changes which. It counts its failures in `faults`,
/// which never falls, and the calls that look in `looks`. Both stand still at the last value of 64 bits.
pub trait Store: Drop {
    ghost use Rattle.dc_fs.specs.Rest.{Rest};

    /// The whole tree, where the store tells it.
    ghost tree: { Self → Option Tree };

    /// How often the store has failed.
    ghost faults: { Self → ℕ };

    /// Whether no call fails, now and from now on.
    ghost steady: { Self → Bool };

    /// How often the store was called.
    ghost looks: { Self → ℕ };

    /// What the store keeps besides, which no look changes.
    ghost rest: { Self → Rest };

    /// What stands at a path. It takes no memory.
    fn kind(&mut self, path: &Path) -> Result<Seen, LookFault>
        ensures tree { tree self.new ≡ tree self.old }
        ensures rest { rest self.new ≡ rest self.old }
        ensures looks { looks self.new ≡ raised (looks self.old) }
        ensures cause { HasCause (faults self.old) (faults self.new) result (record {}) }
        ensures calm { steady_at (steady self.new) (faults self.new) ≡ steady_at (steady self.old) (faults self.old) }
        ensures never { steady self.old ≡ true → IsErrOf result (record {}) → ⊥ }
        ensures seen { IfOk result (λ shown. IfSome (tree self.old) (λ t. shown ≡ seen t path.now)) };

    /// What stands at a path, with its length and attributes, which always fit its kind.
    /// It refuses `Missing` and `NotDir`.
    fn status(&mut self, alloc: Global, path: &Path) -> Result<Status, ReadError>
        ensures tree { tree self.new ≡ tree self.old }
        ensures rest { rest self.new ≡ rest self.old }
        ensures looks { looks self.new ≡ raised (looks self.old) }
        ensures cause { HasCause (faults self.old) (faults self.new) result ReadError.Fault }
        ensures calm { steady_at (steady self.new) (faults self.new) ≡ steady_at (steady self.old) (faults self.old) }
        ensures never { steady self.old ≡ true → IsErrOf result ReadError.Fault → ⊥ }
        ensures fits { IfOk result (λ status. IsTrue (fits_kind status)) }
        ensures shows { IfOk result (λ status. IfSome (tree self.old) (λ t. IsStatusOf (t path.now) status)) }
        ensures answers { IfSome (tree self.old) (λ t. ReadAnswers (refused_status (seen t path.now)) result) };

    /// The names in a directory, strictly ascending by bytes, without `.snapshot`.
    /// It refuses `Missing` and `NotDir`, the latter for a file too.
    fn list(&mut self, alloc: Global, path: &Path) -> Result<List<Name>, ReadError>
        ensures tree { tree self.new ≡ tree self.old }
        ensures rest { rest self.new ≡ rest self.old }
        ensures looks { looks self.new ≡ raised (looks self.old) }
        ensures cause { HasCause (faults self.old) (faults self.new) result ReadError.Fault }
        ensures calm { steady_at (steady self.new) (faults self.new) ≡ steady_at (steady self.old) (faults self.old) }
        ensures never { steady self.old ≡ true → IsErrOf result ReadError.Fault → ⊥ }
        ensures ascending { IfOk result (IsStrictlySortedBy (slice_cmp nat_cmp)) }
        ensures shown { IfOk result (λ names. IsTrue (list_all is_shown names)) }
        ensures names { IfOk result (λ names. IfSome (tree self.old) (λ t. AreNames t path.now names)) }
        ensures answers { IfSome (tree self.old) (λ t. ReadAnswers (refused_list (seen t path.now)) result) };

    /// Reads a file's bytes from the place `at` on into a slice: as many as the slice has room for and the file has left.
    /// It answers how many. It refuses `Missing`, `NotDir`, `IsDir`, and `Short` where `at` is past the end.
    fn read_at(
        &mut self,
        alloc: Global,
        path: &Path,
        at: u64,
        into: &mut [u8],
    ) -> Result<usize, ReadError>
        ensures tree { tree self.new ≡ tree self.old }
        ensures rest { rest self.new ≡ rest self.old }
        ensures looks { looks self.new ≡ raised (looks self.old) }
        ensures cause { HasCause (faults self.old) (faults self.new) result ReadError.Fault }
        ensures calm { steady_at (steady self.new) (faults self.new) ≡ steady_at (steady self.old) (faults self.old) }
        ensures never { steady self.old ≡ true → IsErrOf result ReadError.Fault → ⊥ }
        ensures within { IfOk result (λ count. count ≤ length into.new) }
        ensures read { IfOk result (λ count. IfSome (tree self.old) (λ t. IsSomeAnd (bytes_of (t path.now)) (λ bytes. IsRead bytes at count into.new))) }
        ensures answers { IfSome (tree self.old) (λ t. ReadAnswers (refused_read at (seen t path.now)) result) };

    /// The MD5 digest of the first `length` bytes of a file.
    /// It refuses `Missing`, `NotDir`, `IsDir`, and `Short` where the file has fewer bytes.
    fn checksum(&mut self, alloc: Global, path: &Path, length: u64) -> Result<[u8; 16], ReadError>
        ensures tree { tree self.new ≡ tree self.old }
        ensures rest { rest self.new ≡ rest self.old }
        ensures looks { looks self.new ≡ raised (looks self.old) }
        ensures cause { HasCause (faults self.old) (faults self.new) result ReadError.Fault }
        ensures calm { steady_at (steady self.new) (faults self.new) ≡ steady_at (steady self.old) (faults self.old) }
        ensures never { steady self.old ≡ true → IsErrOf result ReadError.Fault → ⊥ }
        ensures value { IfOk result (λ digest. IfSome (tree self.old) (λ t. IsChecksum length (t path.now) digest)) }
        ensures answers { IfSome (tree self.old) (λ t. ReadAnswers (refused_read length (seen t path.now)) result) };
}

/// A store that is copied from.
///
/// Workers read through forks of it, each of its own. How often these have failed stands in `rest`, as `fork_faults`.
pub trait Source: Store + Send + Sync {
    ghost use Rattle.dc_fs.specs.Rest.{nothing_kept, rejoined_fork};

    /// A store of the same tree, on which nothing was done yet. It is steady where this one is.
    fn fork(&self, alloc: Global) -> Result<Self, OutOfMemory>
        ensures tree { IfOk result (λ fork. Self.tree fork ≡ Self.tree self.now) }
        ensures rest { IfOk result (λ fork. Self.rest fork ≡ nothing_kept) }
        ensures looks { IfOk result (λ fork. Self.looks fork ≡ 0) }
        ensures faults { IfOk result (λ fork. Self.faults fork ≡ 0) }
        ensures steady { IfOk result (λ fork. Self.steady self.now ≡ true → Self.steady fork ≡ true) };

    /// Takes a fork back: its faults, and those of its own forks, are counted here. Its looks are not. It takes no memory.
    fn rejoin(&mut self, fork: Self)
        ensures tree { Self.tree self.new ≡ Self.tree self.old }
        ensures rest { Self.rest self.new ≡ rejoined_fork (Self.faults fork) (Self.rest fork).fork_faults (Self.rest self.old) }
        ensures looks { Self.looks self.new ≡ Self.looks self.old }
        ensures faults { Self.faults self.new ≡ Self.faults self.old }
        ensures steady { Self.steady self.new ≡ Self.steady self.old };
}
