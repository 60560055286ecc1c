//! Sources in memory.
#![tactic(auto)]

ghost use Rattle.std.specs.Prelude.{◌≡◌, ◌≢◌, ◌≤◌, ◌&&◌, true, false, Some, length, drop, IfOk, IfErr, IfSome, OnErr, IsOk, IsSomeAnd, IsTrue};
ghost use Rattle.std.specs.List.{list_all};
ghost use Rattle.std.specs.List.Sorted.{IsStrictlySortedBy};
ghost use Rattle.std.specs.Cmp.Lexicographic.{slice_cmp};
ghost use Rattle.std.specs.Ordering.{nat_cmp};
ghost use Rattle.dc_attrs.specs.Fitting.{HasFittingAttrs};
ghost use Rattle.dc_attrs.specs.Trees.{IsTree, seen, bytes_of};
ghost use Rattle.dc_tree.specs.Arena.{tree_of};
ghost use Rattle.dc_fs.specs.Causes.{Rose, steady_at};
ghost use Rattle.dc_fs.specs.Answers.{ReadAnswers, refused_status, refused_list, refused_read};
ghost use Rattle.dc_fs.specs.Digests.{IsChecksum};
ghost use Rattle.dc_fs.specs.Looks.{IsStatusOf, fits_kind, is_shown, AreNames, IsRead};
ghost use Rattle.dc_fs.specs.Rest.{nothing_kept};
ghost use Rattle.dc_memfs.specs.Failing.{fails_next, is_steady};
ghost use Rattle.dc_memfs.specs.States.{new_source, source_called, with_fork, is_steady_source, SourceFails};

use crate::calls::Calls;
use crate::{Fails, Which, looks};
use dc_attrs::Seen;
use dc_fs::{LookFault, ReadError, Source, Status, Store};
use dc_path::{List, Name, OutOfMemory, Path};
use dc_tree::MemTree;
use std::alloc::Global;
use std::marker::Model;

/// A source in memory. It borrows its tree and the lists of calls that are to fail, and tells its tree.
#[derive(Drop)]
pub struct MemSource<'t> {
    tree: &'t MemTree,
    own: &'t Fails,
    forks: &'t Fails,
    calls: Calls,
    looks: u64,
    fork_faults: u64,
}

impl<'t> Model for MemSource<'t> {
    ghost use Rattle.dc_memfs.specs.States.{SourceState};

    ghost Value = { SourceState };

    ghost view = { λ s. record { tree = s.tree.now; own = s.own.now; forks = s.forks.now; calls = s.calls; looks = s.looks; fork_faults = s.fork_faults } };
}

impl<'t> MemSource<'t> {
    /// The source of a tree. On it the calls of `own` fail, on each fork of it those of `forks`. All its counts are 0.
    /// It takes no memory.
    pub fn new(tree: &'t MemTree, own: &'t Fails, forks: &'t Fails) -> MemSource<'t>
        ensures tree { ⟦<MemSource<'t> as Store>⟧.tree result ≡ Some (tree_of tree.now) }
        ensures faults { ⟦<MemSource<'t> as Store>⟧.faults result ≡ 0 }
        ensures looks { ⟦<MemSource<'t> as Store>⟧.looks result ≡ 0 }
        ensures rest { ⟦<MemSource<'t> as Store>⟧.rest result ≡ nothing_kept }
        ensures steady { ⟦<MemSource<'t> as Store>⟧.steady result ≡ (is_steady own.now && is_steady forks.now) }
        ensures is_tree { IfSome (⟦<MemSource<'t> as Store>⟧.tree result) IsTree }
        ensures fits { IfSome (⟦<MemSource<'t> as Store>⟧.tree result) HasFittingAttrs }
        ensures state { result ≡ new_source tree.now own.now forks.now }
    {
        // Read, so that what the type keeps of a tree is known.
        let _slots = tree.slots();
        MemSource {
            tree,
            own,
            forks,
            calls: Calls::new(),
            looks: 0,
            fork_faults: 0,
        }
    }

    /// How often a call of it has failed.
    pub fn faults(&self) -> u64
        ensures { result ≡ ⟦<MemSource<'t> as Store>⟧.faults self.now }
    {
        self.calls.faults
    }

    /// How often it was called.
    pub fn looks(&self) -> u64
        ensures { result ≡ ⟦<MemSource<'t> as Store>⟧.looks self.now }
    {
        self.looks
    }

    /// How often calls of its forks have failed, of those that came back.
    pub fn fork_faults(&self) -> u64
        ensures { result ≡ (⟦<MemSource<'t> as Store>⟧.rest self.now).fork_faults }
    {
        self.fork_faults
    }

    // Begins a call: counts it, and answers whether it fails.
    fn fails(&mut self, which: Which) -> bool
        ensures named { result ≡ fails_next self.old.own which self.old.calls }
        ensures after { self.new ≡ source_called which self.old }
        ensures later { self.old.calls.faults ≤ self.new.calls.faults }
        ensures rose { IsTrue result → Rose self.old.calls.faults self.new.calls.faults }
        ensures calm { steady_at (is_steady_source self.old) self.new.calls.faults ≡ steady_at (is_steady_source self.old) self.old.calls.faults }
        ensures never { is_steady_source self.old ≡ true → result ≡ false }
    {
        self.looks = self.looks.saturating_add(1);
        self.calls.fails(self.own, which)
    }
}

impl<'t> Store for MemSource<'t> {
    ghost tree = { λ source. Some (tree_of source.tree) };

    ghost faults = { λ source. source.calls.faults };

    ghost steady = { λ source. is_steady_source source };

    ghost looks = { λ source. source.looks };

    ghost rest = { λ source. record nothing_kept { fork_faults = source.fork_faults } };

    fn kind(&mut self, path: &Path) -> Result<Seen, LookFault>
        ensures after { self.new ≡ source_called Which.Kind self.old }
        ensures fails { SourceFails Which.Kind self.old self.new result (record {}) }
        ensures seen { IfOk result (λ shown. shown ≡ seen (tree_of self.old.tree) path.now) }
    {
        if self.fails(Which::Kind) {
            return Err(LookFault);
        }
        Ok(self.tree.kind(path))
    }

    fn status(&mut self, alloc: Global, path: &Path) -> Result<Status, ReadError>
        ensures after { self.new ≡ source_called Which.Status self.old }
        ensures fails { SourceFails Which.Status self.old self.new result ReadError.Fault }
        ensures fits { IfOk result (λ status. IsTrue (fits_kind status)) }
        ensures shows { IfOk result (IsStatusOf (tree_of self.old.tree path.now)) }
        ensures answers { ReadAnswers (refused_status (seen (tree_of self.old.tree) path.now)) result }
    {
        if self.fails(Which::Status) {
            return Err(ReadError::Fault);
        }
        looks::status(alloc, self.tree, path)
    }

    fn list(&mut self, alloc: Global, path: &Path) -> Result<List<Name>, ReadError>
        ensures after { self.new ≡ source_called Which.List self.old }
        ensures fails { SourceFails Which.List self.old self.new result ReadError.Fault }
        ensures ascending { IfOk result (IsStrictlySortedBy (slice_cmp nat_cmp)) }
        ensures shown { IfOk result (λ names. IsTrue (list_all is_shown names)) }
        ensures names { IfOk result (AreNames (tree_of self.old.tree) path.now) }
        ensures answers { ReadAnswers (refused_list (seen (tree_of self.old.tree) path.now)) result }
    {
        if self.fails(Which::List) {
            return Err(ReadError::Fault);
        }
        looks::list(alloc, self.tree, path)
    }

    fn read_at(
        &mut self,
        _alloc: Global,
        path: &Path,
        at: u64,
        into: &mut [u8],
    ) -> Result<usize, ReadError>
        ensures after { self.new ≡ source_called Which.Read self.old }
        ensures fails { SourceFails Which.Read self.old self.new result ReadError.Fault }
        ensures within { IfOk result (λ count. count ≤ length into.new) }
        ensures read { IfOk result (λ count. IsSomeAnd (bytes_of (tree_of self.old.tree path.now)) (λ bytes. IsRead bytes at count into.new)) }
        ensures beyond { IfOk result (λ count. drop count into.new ≡ drop count into.old) }
        ensures err { OnErr result (into.new ≡ into.old) }
        ensures answers { ReadAnswers (refused_read at (seen (tree_of self.old.tree) path.now)) result }
        ensures memory { IfErr result (λ e. e ≢ ReadError.Memory) }
    {
        if self.fails(Which::Read) {
            return Err(ReadError::Fault);
        }
        looks::read_at(self.tree, path, at, into)
    }

    /// The MD5 digest of the first `length` bytes of a file. It takes no memory.
    fn checksum(&mut self, _alloc: Global, path: &Path, length: u64) -> Result<[u8; 16], ReadError>
        ensures after { self.new ≡ source_called Which.Checksum self.old }
        ensures fails { SourceFails Which.Checksum self.old self.new result ReadError.Fault }
        ensures value { IfOk result (IsChecksum length (tree_of self.old.tree path.now)) }
        ensures answers { ReadAnswers (refused_read length (seen (tree_of self.old.tree) path.now)) result }
        ensures memory { IfErr result (λ e. e ≢ ReadError.Memory) }
    {
        if self.fails(Which::Checksum) {
            return Err(ReadError::Fault);
        }
        looks::checksum(self.tree, path, length)
    }
}

impl<'t> Source for MemSource<'t> {
    /// A source of the same tree, on which nothing was done yet. On it the calls fail that fail on each fork, and so they do
    /// on each fork of it. It takes no memory.
    fn fork(&self, _alloc: Global) -> Result<MemSource<'t>, OutOfMemory>
        ensures fork { IfOk result (λ fork. fork ≡ new_source self.now.tree self.now.forks self.now.forks) }
        ensures always { IsOk result }
        ensures tree { IfOk result (λ fork. ⟦<MemSource<'t> as Store>⟧.tree fork ≡ ⟦<MemSource<'t> as Store>⟧.tree self.now) }
        ensures rest { IfOk result (λ fork. ⟦<MemSource<'t> as Store>⟧.rest fork ≡ nothing_kept) }
        ensures looks { IfOk result (λ fork. ⟦<MemSource<'t> as Store>⟧.looks fork ≡ 0) }
        ensures faults { IfOk result (λ fork. ⟦<MemSource<'t> as Store>⟧.faults fork ≡ 0) }
        ensures steady { IfOk result (λ fork. ⟦<MemSource<'t> as Store>⟧.steady self.now ≡ true → ⟦<MemSource<'t> as Store>⟧.steady fork ≡ true) }
    {
        Ok(MemSource::new(self.tree, self.forks, self.forks))
    }

    fn rejoin(&mut self, fork: MemSource<'t>)
        ensures { self.new ≡ with_fork fork.entry self.old }
    {
        let more = self.fork_faults.saturating_add(fork.calls.faults);
        self.fork_faults = more.saturating_add(fork.fork_faults);
    }
}
