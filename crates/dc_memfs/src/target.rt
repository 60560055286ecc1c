//! Targets in memory.
#![tactic(auto)]

ghost use Rattle.std.specs.Prelude.{◌≡◌, ◌≢◌, ◌≤◌, ◌-◌, ◌++◌, ◌∷◌, ◌↔◌, ◌&&◌, [], Some, None, true, false, not, length, map, take, drop, IfOk, IfErr, IfSome, OnOk, OnErr, IsSomeAnd, IsTrue, IsErrOf};
ghost use Rattle.std.specs.Option.{option_map, is_some};
ghost use Rattle.std.specs.List.{list_all, sum_by};
ghost use Rattle.std.specs.List.Sorted.{IsStrictlySortedBy};
ghost use Rattle.std.specs.Cmp.Lexicographic.{slice_cmp};
ghost use Rattle.std.specs.Ordering.{nat_cmp};
ghost use Rattle.dc_attrs.specs.Fitting.{fits_at, HasFittingAttrs};
ghost use Rattle.dc_attrs.specs.Refusals.{Refuses, refused_dir, refused_remove, refused_rename, refused_at};
ghost use Rattle.dc_attrs.specs.Trees.{IsTree, updated, made, without, moved, with_attrs, seen, bytes_of};
ghost use Rattle.dc_tree.specs.Arena.{tree_of};
ghost use Rattle.dc_fs.specs.Causes.{Rose, RisesByOne, steady_at};
ghost use Rattle.dc_fs.specs.Answers.{Changes, ReadAnswers, refused_status, refused_list, refused_read, WriteAnswers, refused_land};
ghost use Rattle.dc_fs.specs.Digests.{IsChecksum};
ghost use Rattle.dc_fs.specs.Looks.{IsStatusOf, fits_kind, is_shown, AreNames, IsRead};
ghost use Rattle.dc_fs.specs.Temporaries.{all_told, landed_by};
ghost use Rattle.dc_fs.specs.Rest.{nothing_kept, Lands, with_desk_out, rejoined, after_rename, with_scratch};
ghost use Rattle.dc_memfs.specs.Failing.{no_calls, next_fate, fails, fails_next, is_steady};
ghost use Rattle.dc_memfs.specs.States.{target_called, with_tree, with_rest, new_desk, is_steady_target, answer_by, TargetFails, TargetChanges, CountsChange};

use crate::calls::{Calls, Fate};
use crate::{Fails, MemDesk, MemTemp, Which, looks};
use dc_attrs::{Attrs, Seen, TreeError};
use dc_fs::{Held, Landed, LookFault, Mode, ReadError, Status, Store, Target, WriteError};
use dc_path::{List, Name, OutOfMemory, Path};
use dc_tree::MemTree;
use std::alloc::Global;
use std::marker::Model;
use std::mem;

/// A target in memory. It owns its tree and tells it.
#[derive(Drop)]
pub struct MemTarget {
    tree: MemTree,
    own: Fails,
    desks: Fails,
    landed: List<Landed>,
    scratch: u64,
    created: u64,
    desks_out: u64,
    desk_faults: u64,
    rename_faults: u64,
    calls: Calls,
    looks: u64,
}

impl Model for MemTarget {
    ghost use Rattle.dc_memfs.specs.States.{TargetState};

    ghost Value = { TargetState };

    ghost view = { λ t. record { tree = t.tree; own = t.own; desks = t.desks; calls = t.calls; looks = t.looks; rest = record { landed = t.landed; scratch = t.scratch; created = t.created; desks_out = t.desks_out; desk_faults = t.desk_faults; rename_faults = t.rename_faults; fork_faults = 0 } } };
}

impl MemTarget {
    /// The target of a tree. On it the calls of `own` fail, on each of its desks those of `desks`. All its counts are 0,
    /// and nothing has landed. It takes no memory.
    pub fn new(alloc: Global, tree: MemTree, own: Fails, desks: Fails) -> MemTarget
        ensures tree { ⟦<MemTarget as Store>⟧.tree result ≡ Some (tree_of tree) }
        ensures faults { ⟦<MemTarget as Store>⟧.faults result ≡ 0 }
        ensures looks { ⟦<MemTarget as Store>⟧.looks result ≡ 0 }
        ensures rest { ⟦<MemTarget as Store>⟧.rest result ≡ nothing_kept }
        ensures steady { ⟦<MemTarget as Store>⟧.steady result ≡ (is_steady own && is_steady desks) }
        ensures is_tree { IfSome (⟦<MemTarget as Store>⟧.tree result) IsTree }
        ensures fits { IfSome (⟦<MemTarget as Store>⟧.tree result) HasFittingAttrs }
        ensures state { result ≡ record { tree = tree; own = own; desks = desks; calls = no_calls; looks = 0; rest = nothing_kept } }
    {
        // Read, so that what the type keeps of a tree is known.
        let _slots = tree.slots();
        MemTarget {
            tree,
            own,
            desks,
            landed: List::new(alloc),
            scratch: 0,
            created: 0,
            desks_out: 0,
            desk_faults: 0,
            rename_faults: 0,
            calls: Calls::new(),
            looks: 0,
        }
    }

    /// The tree.
    pub fn tree(&self) -> &MemTree
        ensures { ⟦<MemTarget as Store>⟧.tree self.now ≡ Some (tree_of result.now) }
    {
        &self.tree
    }

    /// What has landed, in order.
    pub fn landed(&self) -> &List<Landed>
        ensures { result.now ≡ (⟦<MemTarget as Store>⟧.rest self.now).landed }
    {
        &self.landed
    }

    /// How many temporaries there are.
    pub fn scratch(&self) -> u64
        ensures { result ≡ (⟦<MemTarget as Store>⟧.rest self.now).scratch }
    {
        self.scratch
    }

    /// How many temporaries were created.
    pub fn created(&self) -> u64
        ensures { result ≡ (⟦<MemTarget as Store>⟧.rest self.now).created }
    {
        self.created
    }

    /// How many desks are out.
    pub fn desks_out(&self) -> u64
        ensures { result ≡ (⟦<MemTarget as Store>⟧.rest self.now).desks_out }
    {
        self.desks_out
    }

    /// How often calls of its desks have failed, of those that came back.
    pub fn desk_faults(&self) -> u64
        ensures { result ≡ (⟦<MemTarget as Store>⟧.rest self.now).desk_faults }
    {
        self.desk_faults
    }

    /// How often `rename` has failed.
    pub fn rename_faults(&self) -> u64
        ensures { result ≡ (⟦<MemTarget as Store>⟧.rest self.now).rename_faults }
    {
        self.rename_faults
    }

    /// How often a call of it has failed.
    pub fn faults(&self) -> u64
        ensures { result ≡ ⟦<MemTarget as Store>⟧.faults self.now }
    {
        self.calls.faults
    }

    /// How often it was called.
    pub fn looks(&self) -> u64
        ensures { result ≡ ⟦<MemTarget as Store>⟧.looks self.now }
    {
        self.looks
    }

    /// The tree, out of the target.
    pub fn into_tree(self) -> MemTree
        ensures { ⟦<MemTarget as Store>⟧.tree self ≡ Some (tree_of result) }
    {
        self.tree
    }

    // Begins a call: counts it, and answers what becomes of it.
    fn begins(&mut self, which: Which) -> Fate
        ensures fate { result ≡ next_fate self.old.own which self.old.calls }
        ensures after { self.new ≡ target_called which self.old }
        ensures looks { RisesByOne self.old.looks self.new.looks }
        ensures quiet { IsTrue (not (fails result)) → self.new.calls.faults ≡ self.old.calls.faults }
        ensures later { self.old.calls.faults ≤ self.new.calls.faults }
        ensures rose { IsTrue (fails result) → Rose self.old.calls.faults self.new.calls.faults }
        ensures calm { steady_at (is_steady_target self.old) self.new.calls.faults ≡ steady_at (is_steady_target self.old) self.old.calls.faults }
        ensures never { is_steady_target self.old ≡ true → fails result ≡ false }
    {
        self.looks = self.looks.saturating_add(1);
        self.calls.count(&self.own, which)
    }

    // Begins a call that makes no change where it fails, and answers whether it fails.
    fn fails(&mut self, which: Which) -> bool
        ensures named { result ≡ fails_next self.old.own which self.old.calls }
        ensures after { self.new ≡ target_called which self.old }
        ensures looks { RisesByOne self.old.looks self.new.looks }
        ensures quiet { IsTrue (not result) → self.new.calls.faults ≡ self.old.calls.faults }
        ensures later { self.old.calls.faults ≤ self.new.calls.faults }
        ensures rose { IsTrue result → Rose self.old.calls.faults self.new.calls.faults }
        ensures calm { steady_at (is_steady_target self.old) self.new.calls.faults ≡ steady_at (is_steady_target self.old) self.old.calls.faults }
        ensures never { is_steady_target self.old ≡ true → result ≡ false }
    {
        self.begins(which).fails()
    }

    // Moves what stands at a path, by a call that is counted, but for its own fault in `rest`.
    fn moves(&mut self, alloc: Global, from: &Path, to: &Path) -> Result<(), WriteError>
        ensures after { self.new ≡ with_tree self.new.tree (target_called Which.Rename self.old) }
        ensures change { TargetChanges Which.Rename (refused_rename (tree_of self.old.tree) from.now to.now) (λ t. moved t from.now to.now) self.old self.new result }
        ensures counts { CountsChange self.old self.new result }
    {
        match self.begins(Which::Rename) {
            Fate::Fails => Err(WriteError::Fault),
            fate => answer(fate, self.tree.rename(alloc, from, to)),
        }
    }
}

// The bytes of two temporaries as one; a buffer is copied only where bytes stand before it.
fn joined(mut front: Vec<u8>, rest: Vec<u8>) -> Result<Vec<u8>, OutOfMemory>
    ensures { IfOk result (λ bytes. bytes.items ≡ front.items ++ rest.items) }
{
    if front.is_empty() {
        return Ok(rest);
    }
    front.extend_from_slice(rest.as_slice())?;
    Ok(front)
}

// The bytes of temporaries, one after the other.
fn gathered(alloc: Global, parts: List<MemTemp>) -> Result<Vec<u8>, OutOfMemory>
    ensures told { IfOk result (λ bytes. all_told (map ⟦<MemTemp as Held>⟧.content parts) ≡ Some bytes.items) }
    ensures size { IfOk result (λ bytes. length bytes.items ≡ sum_by ⟦<MemTemp as Held>⟧.size parts) }
{
    let mut bytes = Vec::new(alloc);
    for part in parts.into_vec() {
        bytes = joined(bytes, part.into_bytes())?;
    }
    Ok(bytes)
}

// Makes the change of a landing.
#[tactic(auto, using(dc_tree::proofs::FittingLemmas::default_file_fits))]
fn land_bytes(
    alloc: Global,
    tree: &mut MemTree,
    bytes: Vec<u8>,
    path: &Path,
    mode: Mode,
) -> Result<(), TreeError>
    ensures ok { OnOk result (tree_of tree.new ≡ updated (tree_of tree.old) path.now (landed_by mode bytes.items)) }
    ensures err { OnErr result (tree_of tree.new ≡ tree_of tree.old) }
    ensures answers { Refuses (refused_land mode (tree_of tree.old) path.now) result }
{
    match mode {
        Mode::Replace => tree.put(alloc, path, List::of(bytes), Attrs::default_file(alloc)),
        Mode::Extend => tree.extend(alloc, path, bytes.as_slice()),
    }
}

// Makes a directory with default attributes.
fn make_default_dir(alloc: Global, tree: &mut MemTree, path: &Path) -> Result<(), TreeError>
    ensures ok { OnOk result (tree_of tree.new ≡ updated (tree_of tree.old) path.now made) }
    ensures err { OnErr result (tree_of tree.new ≡ tree_of tree.old) }
    ensures answers { Refuses (refused_dir (tree_of tree.old) path.now) result }
{
    tree.make_dir(alloc, path, Attrs::default_dir(alloc))
}

// Sets the attributes of what stands at a path to a copy of these.
fn set_copy(alloc: Global, tree: &mut MemTree, path: &Path, attrs: &Attrs) -> Result<(), TreeError>
    requires fits { IsTrue (fits_at (tree_of tree.old path.now) attrs.now) }
    ensures ok { OnOk result (tree_of tree.new ≡ updated (tree_of tree.old) path.now (with_attrs attrs.now)) }
    ensures err { OnErr result (tree_of tree.new ≡ tree_of tree.old) }
    ensures answers { Refuses (refused_at (seen (tree_of tree.old) path.now)) result }
{
    let copy = attrs.copy(alloc)?;
    tree.set_attrs(path, copy)
}

// What a call answers that has tried its change: its fault, if it fails and memory did not run out.
fn answer(fate: Fate, tried: Result<(), TreeError>) -> Result<(), WriteError>
    ensures value { result ≡ answer_by fate tried }
    ensures memory { IfErr tried (λ e. e ≢ TreeError.Memory) → IfErr result (λ e. e ≢ WriteError.Memory) }
{
    match fate {
        Fate::Goes => Ok(tried?),
        _ => match tried {
            Err(TreeError::Memory) => Err(WriteError::Memory),
            _ => Err(WriteError::Fault),
        },
    }
}

// Takes the last entry out of a list.
fn drop_last(alloc: Global, list: &mut List<Landed>)
    ensures { list.new ≡ take (length list.old - 1) list.old }
{
    let mut entries = mem::replace(list, List::new(alloc)).into_vec();
    entries.pop();
    *list = List::of(entries);
}

impl Store for MemTarget {
    ghost tree = { λ target. Some (tree_of target.tree) };

    ghost faults = { λ target. target.calls.faults };

    ghost steady = { λ target. is_steady_target target };

    ghost looks = { λ target. target.looks };

    ghost rest = { λ target. target.rest };

    fn kind(&mut self, path: &Path) -> Result<Seen, LookFault>
        ensures after { self.new ≡ target_called Which.Kind self.old }
        ensures fails { TargetFails Which.Kind self.old self.new result (record {}) }
        ensures seen { IfOk result (λ shown. shown ≡ seen (tree_of self.old.tree) path.now) }
    {
        if self.fails(Which::Kind) {
            return Err(LookFault);
        }
        Ok(self.tree.kind(path))
    }

    fn status(&mut self, alloc: Global, path: &Path) -> Result<Status, ReadError>
        ensures after { self.new ≡ target_called Which.Status self.old }
        ensures fails { TargetFails Which.Status self.old self.new result ReadError.Fault }
        ensures fits { IfOk result (λ status. IsTrue (fits_kind status)) }
        ensures shows { IfOk result (IsStatusOf (tree_of self.old.tree path.now)) }
        ensures answers { ReadAnswers (refused_status (seen (tree_of self.old.tree) path.now)) result }
    {
        if self.fails(Which::Status) {
            return Err(ReadError::Fault);
        }
        looks::status(alloc, &self.tree, path)
    }

    fn list(&mut self, alloc: Global, path: &Path) -> Result<List<Name>, ReadError>
        ensures after { self.new ≡ target_called Which.List self.old }
        ensures fails { TargetFails Which.List self.old self.new result ReadError.Fault }
        ensures ascending { IfOk result (IsStrictlySortedBy (slice_cmp nat_cmp)) }
        ensures shown { IfOk result (λ names. IsTrue (list_all is_shown names)) }
        ensures names { IfOk result (AreNames (tree_of self.old.tree) path.now) }
        ensures answers { ReadAnswers (refused_list (seen (tree_of self.old.tree) path.now)) result }
    {
        if self.fails(Which::List) {
            return Err(ReadError::Fault);
        }
        looks::list(alloc, &self.tree, path)
    }

    fn read_at(
        &mut self,
        _alloc: Global,
        path: &Path,
        at: u64,
        into: &mut [u8],
    ) -> Result<usize, ReadError>
        ensures after { self.new ≡ target_called Which.Read self.old }
        ensures fails { TargetFails Which.Read self.old self.new result ReadError.Fault }
        ensures within { IfOk result (λ count. count ≤ length into.new) }
        ensures read { IfOk result (λ count. IsSomeAnd (bytes_of (tree_of self.old.tree path.now)) (λ bytes. IsRead bytes at count into.new)) }
        ensures beyond { IfOk result (λ count. drop count into.new ≡ drop count into.old) }
        ensures err { OnErr result (into.new ≡ into.old) }
        ensures answers { ReadAnswers (refused_read at (seen (tree_of self.old.tree) path.now)) result }
        ensures memory { IfErr result (λ e. e ≢ ReadError.Memory) }
    {
        if self.fails(Which::Read) {
            return Err(ReadError::Fault);
        }
        looks::read_at(&self.tree, path, at, into)
    }

    /// The MD5 digest of the first `length` bytes of a file. It takes no memory.
    fn checksum(&mut self, _alloc: Global, path: &Path, length: u64) -> Result<[u8; 16], ReadError>
        ensures after { self.new ≡ target_called Which.Checksum self.old }
        ensures fails { TargetFails Which.Checksum self.old self.new result ReadError.Fault }
        ensures value { IfOk result (IsChecksum length (tree_of self.old.tree path.now)) }
        ensures answers { ReadAnswers (refused_read length (seen (tree_of self.old.tree) path.now)) result }
        ensures memory { IfErr result (λ e. e ≢ ReadError.Memory) }
    {
        if self.fails(Which::Checksum) {
            return Err(ReadError::Fault);
        }
        looks::checksum(&self.tree, path, length)
    }
}

impl Target for MemTarget {
    type Desk = MemDesk;

    fn open_desk(&mut self, alloc: Global) -> Result<MemDesk, WriteError>
        ensures opened { OnOk result (self.new ≡ with_rest (with_desk_out self.old.rest) (target_called Which.OpenDesk self.old)) }
        ensures kept { OnErr result (self.new ≡ target_called Which.OpenDesk self.old) }
        ensures desk { IfOk result (λ desk. desk ≡ new_desk self.old.desks) }
        ensures steady { IfOk result (λ desk. is_steady_target self.old ≡ true → is_steady desk.fails ≡ true) }
        ensures looks { RisesByOne self.old.looks self.new.looks }
        ensures fails { TargetFails Which.OpenDesk self.old self.new result WriteError.Fault }
        ensures answers { WriteAnswers None result }
    {
        if self.fails(Which::OpenDesk) {
            return Err(WriteError::Fault);
        }
        let Some(out) = self.desks_out.checked_add(1) else {
            return Err(WriteError::Memory);
        };
        let fails = self.desks.copy(alloc)?;
        self.desks_out = out;
        Ok(MemDesk::new(fails))
    }

    /// Takes a desk back: its temporaries and its faults are counted here, and one desk fewer is out. It takes no memory.
    /// It cannot fail, so it has no kind and is not counted as a call.
    fn rejoin_desk(&mut self, desk: MemDesk)
        ensures { self.new ≡ with_rest (rejoined desk.made desk.calls.faults self.old.rest) self.old }
    {
        self.scratch = self.scratch.saturating_add(desk.made());
        self.created = self.created.saturating_add(desk.made());
        self.desks_out = self.desks_out.saturating_sub(1);
        self.desk_faults = self.desk_faults.saturating_add(desk.faults());
    }

    /// Makes a directory with default attributes. It refuses `Exists`, then `Missing` or `NotDir` of the parent.
    /// A fault comes before these. It leaves the tree as it was, or, by an entry with `done`, with the directory where the
    /// tree allows one. Where memory runs out at that, the answer is `Memory`.
    fn make_dir(&mut self, alloc: Global, path: &Path) -> Result<(), WriteError>
        ensures after { self.new ≡ with_tree self.new.tree (target_called Which.MakeDir self.old) }
        ensures change { TargetChanges Which.MakeDir (refused_dir (tree_of self.old.tree) path.now) (λ t. updated t path.now made) self.old self.new result }
        ensures counts { CountsChange self.old self.new result }
    {
        match self.begins(Which::MakeDir) {
            Fate::Fails => Err(WriteError::Fault),
            fate => answer(fate, make_default_dir(alloc, &mut self.tree, path)),
        }
    }

    /// Removes what stands at a path, with all under it. It refuses `Root`, then `Missing` or `NotDir`.
    /// A fault comes before these. It leaves the tree as it was, or, by an entry with `done`, without the path where the
    /// tree allows it. It takes no memory.
    fn remove(&mut self, _alloc: Global, path: &Path) -> Result<(), WriteError>
        ensures after { self.new ≡ with_tree self.new.tree (target_called Which.Remove self.old) }
        ensures change { TargetChanges Which.Remove (refused_remove (tree_of self.old.tree) path.now) (λ t. without t path.now) self.old self.new result }
        ensures counts { CountsChange self.old self.new result }
        ensures memory { IfErr result (λ e. e ≢ WriteError.Memory) }
    {
        match self.begins(Which::Remove) {
            Fate::Fails => Err(WriteError::Fault),
            fate => answer(fate, self.tree.remove(path)),
        }
    }

    /// Moves what stands at a path, with all under it, to another. It refuses, in this order, `Root` where either is the
    /// root, `Missing` or `NotDir` of `from`, `Exists` at `to`, `IntoItself` where `from` is a prefix of `to`, and `Missing`
    /// or `NotDir` of the parent of `to`. A fault comes before these. It leaves the tree as it was, or, by an entry with
    /// `done`, with the move where the tree allows it. Where memory runs out at that, the answer is `Memory`, and `rest`
    /// counts no fault of it.
    #[tactic(auto, using(crate::proofs::ChangeLemmas::tells_change))]
    fn rename(&mut self, alloc: Global, from: &Path, to: &Path) -> Result<(), WriteError>
        ensures after { self.new ≡ with_rest (after_rename result self.old.rest) (with_tree self.new.tree (target_called Which.Rename self.old)) }
        ensures change { TargetChanges Which.Rename (refused_rename (tree_of self.old.tree) from.now to.now) (λ t. moved t from.now to.now) self.old self.new result }
        ensures counts { CountsChange self.old self.new result }
        ensures tree { Changes (λ t. moved t from.now to.now) (Some (tree_of self.old.tree)) (Some (tree_of self.new.tree)) result }
        ensures later { self.old.rest.rename_faults ≤ self.new.rest.rename_faults }
    {
        let moved = self.moves(alloc, from, to);
        if let Err(WriteError::Fault) = moved {
            self.rename_faults = self.rename_faults.saturating_add(1);
        }
        moved
    }

    /// Sets the attributes of what stands at a path to a copy of these, which must fit it. It refuses `Missing` and
    /// `NotDir`. A fault comes before these. It leaves the tree as it was, or, by an entry with `done`, with the attributes
    /// set where the tree allows it. Where memory runs out at that, the answer is `Memory`.
    fn set_attrs(&mut self, alloc: Global, path: &Path, attrs: &Attrs) -> Result<(), WriteError>
        requires fits { IfSome (⟦<MemTarget as Store>⟧.tree self.old) (λ t. IsTrue (fits_at (t path.now) attrs.now)) }
        ensures after { self.new ≡ with_tree self.new.tree (target_called Which.SetAttrs self.old) }
        ensures change { TargetChanges Which.SetAttrs (refused_at (seen (tree_of self.old.tree) path.now)) (λ t. updated t path.now (with_attrs attrs.now)) self.old self.new result }
        ensures counts { CountsChange self.old self.new result }
    {
        match self.begins(Which::SetAttrs) {
            Fate::Fails => Err(WriteError::Fault),
            fate => answer(fate, set_copy(alloc, &mut self.tree, path, attrs)),
        }
    }

    fn land(
        &mut self,
        alloc: Global,
        parts: List<MemTemp>,
        path: &Path,
        mode: Mode,
    ) -> Result<(), WriteError>
        requires some { 1 ≤ length parts }
        requires counted { length parts ≤ (⟦<MemTarget as Store>⟧.rest self.old).scratch }
        ensures tree { OnOk result (IfSome (all_told (map ⟦<MemTemp as Held>⟧.content parts)) (λ bytes. ⟦<MemTarget as Store>⟧.tree self.new ≡ option_map (λ t. updated t path.now (landed_by mode bytes)) (⟦<MemTarget as Store>⟧.tree self.old))) }
        ensures tells { is_some (⟦<MemTarget as Store>⟧.tree self.new) ≡ is_some (⟦<MemTarget as Store>⟧.tree self.old) }
        ensures rest { OnOk result (Lands (map ⟦<MemTemp as Held>⟧.content parts) (sum_by ⟦<MemTemp as Held>⟧.size parts) path.now mode (⟦<MemTarget as Store>⟧.rest self.old) (⟦<MemTarget as Store>⟧.rest self.new)) }
        ensures kept_tree { OnErr result (⟦<MemTarget as Store>⟧.tree self.new ≡ ⟦<MemTarget as Store>⟧.tree self.old) }
        ensures kept_rest { OnErr result (⟦<MemTarget as Store>⟧.rest self.new ≡ ⟦<MemTarget as Store>⟧.rest self.old) }
        ensures looks { RisesByOne (⟦<MemTarget as Store>⟧.looks self.old) (⟦<MemTarget as Store>⟧.looks self.new) }
        ensures answers { IfSome (⟦<MemTarget as Store>⟧.tree self.old) (λ t. WriteAnswers (refused_land mode t path.now) result) }
        ensures after { self.new ≡ with_rest self.new.rest (with_tree self.new.tree (target_called Which.Land self.old)) }
        ensures fails { TargetFails Which.Land self.old self.new result WriteError.Fault }
    {
        if self.fails(Which::Land) {
            return Err(WriteError::Fault);
        }
        let count = parts.len() as u64;
        let bytes = gathered(alloc, parts)?;
        let entry = Landed {
            path: path.copy(alloc)?,
            mode,
            bytes: bytes.len() as u64,
        };
        self.landed.push(entry).map_err(|_| WriteError::Memory)?;
        match land_bytes(alloc, &mut self.tree, bytes, path, mode) {
            Ok(()) => {
                self.scratch -= count;
                Ok(())
            }
            Err(refusal) => {
                drop_last(alloc, &mut self.landed);
                Err(refusal.into())
            }
        }
    }

    fn sweep(&mut self) -> Result<(), WriteError>
        ensures swept { OnOk result (self.new ≡ with_rest (with_scratch 0 self.old.rest) (target_called Which.Sweep self.old)) }
        ensures stopped { OnErr result (self.new ≡ target_called Which.Sweep self.old) }
        ensures fault { IfErr result (λ e. e ≡ WriteError.Fault) }
        ensures looks { RisesByOne self.old.looks self.new.looks }
        ensures fails { TargetFails Which.Sweep self.old self.new result WriteError.Fault }
    {
        if self.fails(Which::Sweep) {
            return Err(WriteError::Fault);
        }
        self.scratch = 0;
        Ok(())
    }
}
