//! A tree in memory: its calls.
#![tactic(auto)]

ghost use Rattle.std.specs.Prelude.{◌≡◌, ◌≢◌, length, None, [], true, false, IsTrue, IfErr, IfOk, OnOk, OnErr};
ghost use Rattle.std.specs.Option.{option_copied};
ghost use Rattle.dc_attrs.specs.Attributes.{default_dir, fits_file, fits_dir};
ghost use Rattle.dc_attrs.specs.Trees.{Dir, File, IsTree, seen, with_node, without, moved, updated, appended, with_attrs, bytes_of, attrs_of};
ghost use Rattle.dc_attrs.specs.Refusals.{Refuses, refused_dir, refused_put, refused_extend, refused_remove, refused_rename, refused_onto, refused_at, refused_in};
ghost use Rattle.dc_tree.specs.Arena.{tree_of};
ghost use Rattle.dc_tree.specs.Children.{AreChildren};
ghost use Rattle.dc_attrs.specs.Fitting.{fits_at, HasFittingAttrs};
ghost use Rattle.dc_tree.specs.Same.{SameUnder, DiffersUnder};
ghost use Rattle.dc_tree.specs.Places.{IsTaken};

use crate::arena::Arena;
use crate::slots::{Place, Slot, Way};
use dc_attrs::{Attrs, Keep, Seen, TreeError};
use dc_path::{List, Name, OutOfMemory, Path};
use std::alloc::Global;
use std::collections::BTreeMap;
use std::marker::Model;

/// A tree of directories and files in memory (HDFS, "The File System Namespace").
///
/// It is an arena of slots, in which each directory has an ordered map of its children. The type keeps that it is a tree:
/// the root is a directory, and so is the parent of all that stands. It keeps too that attributes fit: those of each file
/// fit a file, those of each directory a directory. A lookup takes one search in a map for each name of the path, and a
/// rename takes two lookups, however much moves. `copy`, `remove` and `same_under` go over the slots in loops, so a deep
/// tree does not use up the stack. Beside each slot stands where it hangs, with a copy of its name.
#[derive(Drop)]
pub struct MemTree {
    arena: Arena,
}

impl Model for MemTree {
    ghost use Rattle.std.specs.Prelude.{List};
    ghost use Rattle.dc_tree.specs.Arena.{Cell};
    ghost use Rattle.dc_tree.specs.Places.{IsWhole};

    ghost Value = { List Cell };

    ghost view = { λ t. t.arena };

    ghost invariant = { λ t. IsWhole t.arena };
}

impl MemTree {
    /// The root alone, with the attributes of a new directory. `OutOfMemory` is the one error.
    pub fn new(alloc: Global) -> Result<MemTree, OutOfMemory>
        ensures { IfOk result (λ t. tree_of t ≡ with_node (λ _. None) [] (Dir default_dir)) }
    {
        Ok(MemTree {
            arena: Arena::new(alloc)?,
        })
    }

    /// How many slots the tree has: one for each node, and those of removed nodes that no new node has taken yet. Its memory
    /// goes by it.
    pub fn slots(&self) -> usize
        ensures count { result ≡ length self.now }
        ensures tree { IsTree (tree_of self.now) }
        ensures fits { HasFittingAttrs (tree_of self.now) }
    {
        self.arena.count()
    }

    /// What stands at a path (HDFS, `getFileStatus`): a directory, a file with its length in bytes, or nothing.
    /// Going from the root, the first prefix that is no directory decides.
    pub fn kind(&self, path: &Path) -> Seen
        ensures value { result ≡ seen (tree_of self.now) path.now }
        ensures tree { IsTree (tree_of self.now) }
        ensures fits { HasFittingAttrs (tree_of self.now) }
    {
        match self.arena.find(path) {
            Way::At(at) => self.arena.look(at),
            Way::Missing => Seen::Missing,
            Way::NotDir => Seen::NotDir,
        }
    }

    /// The bytes of a file; `None` where no file stands.
    pub fn bytes(&self, path: &Path) -> Option<&[u8]>
        ensures value { option_copied result ≡ bytes_of (tree_of self.now path.now) }
    {
        match self.arena.find(path) {
            Way::At(at) => self.arena.bytes_in(at),
            Way::Missing => None,
            Way::NotDir => None,
        }
    }

    /// The attributes of what stands at a path; `None` where nothing does.
    pub fn attrs(&self, path: &Path) -> Option<&Attrs>
        ensures value { option_copied result ≡ attrs_of (tree_of self.now path.now) }
        ensures fits { HasFittingAttrs (tree_of self.now) }
    {
        match self.arena.find(path) {
            Way::At(at) => self.arena.attrs_in(at),
            Way::Missing => None,
            Way::NotDir => None,
        }
    }

    /// The names of what stands directly under a directory, strictly ascending by bytes, `.snapshot` too (HDFS, `listStatus`).
    ///
    /// # Errors
    ///
    /// - `Missing`, where the path or a prefix is absent;
    /// - `NotDir`, where the path or a prefix is a file;
    /// - `Memory`, which may come in the place of any answer.
    pub fn children(&self, alloc: Global, path: &Path) -> Result<List<Name>, TreeError>
        ensures ok { IfOk result (λ names. AreChildren (tree_of self.now) path.now names) }
        ensures answers { Refuses (refused_in (seen (tree_of self.now) path.now)) result }
        ensures tree { IsTree (tree_of self.now) }
    {
        let at = self.arena.stands(path)?;
        match self.arena.look(at) {
            Seen::Dir => Ok(self.arena.names_in(alloc, at)?),
            Seen::Missing => Err(TreeError::Missing),
            Seen::File { .. } => Err(TreeError::NotDir),
            Seen::NotDir => Err(TreeError::NotDir),
        }
    }

    /// Makes a directory with nothing in it (POSIX.1, `mkdir`). The attributes must fit a directory.
    ///
    /// # Errors
    ///
    /// The first of these, in this order; each leaves the tree as it was:
    ///
    /// - `Exists`, where something stands at the path;
    /// - `Missing` or `NotDir`, where the parent is no directory;
    /// - `Memory`, which may come in the place of any answer.
    pub fn make_dir(&mut self, alloc: Global, path: &Path, attrs: Attrs) -> Result<(), TreeError>
        requires fits { IsTrue (fits_dir attrs) }
        ensures ok { OnOk result (tree_of self.new ≡ with_node (tree_of self.old) path.now (Dir attrs)) }
        ensures err { OnErr result (tree_of self.new ≡ tree_of self.old) }
        ensures answers { Refuses (refused_dir (tree_of self.old) path.now) result }
    {
        match self.arena.place(path) {
            Place::Vacant { parent } => {
                let children = BTreeMap::new(alloc);
                self.arena
                    .hang(alloc, path, parent, Slot::Dir { attrs, children })?;
                Ok(())
            }
            Place::Root => Err(TreeError::Exists),
            Place::Taken { .. } => Err(TreeError::Exists),
            Place::Refused(error) => Err(error),
        }
    }

    /// Makes a file, or replaces one (HDFS, `create`). The attributes must fit a file.
    ///
    /// # Errors
    ///
    /// The first of these, in this order; each leaves the tree as it was:
    ///
    /// - `IsDir`, where a directory stands at the path;
    /// - `Missing` or `NotDir`, where the parent is no directory;
    /// - `Memory`, which may come in the place of any answer.
    pub fn put(
        &mut self,
        alloc: Global,
        path: &Path,
        bytes: List<u8>,
        attrs: Attrs,
    ) -> Result<(), TreeError>
        requires fits { IsTrue (fits_file attrs) }
        ensures ok { OnOk result (tree_of self.new ≡ with_node (tree_of self.old) path.now (File bytes attrs)) }
        ensures err { OnErr result (tree_of self.new ≡ tree_of self.old) }
        ensures answers { Refuses (refused_put (tree_of self.old) path.now) result }
    {
        match self.arena.place(path) {
            Place::Vacant { parent } => {
                self.arena
                    .hang(alloc, path, parent, Slot::File { bytes, attrs })?;
                Ok(())
            }
            Place::Taken { child, .. } => match self.arena.look(child) {
                Seen::File { .. } => {
                    self.arena.replace(child, bytes, attrs);
                    Ok(())
                }
                _ => Err(TreeError::IsDir),
            },
            Place::Root => Err(TreeError::IsDir),
            Place::Refused(error) => Err(error),
        }
    }

    /// Adds bytes at the end of a file (HDFS, `append`).
    ///
    /// # Errors
    ///
    /// Each leaves the tree as it was:
    ///
    /// - `Missing`, where the path or a prefix is absent;
    /// - `NotDir`, where a proper prefix is a file;
    /// - `IsDir`, where a directory stands at the path;
    /// - `Memory`, which may come in the place of any answer.
    pub fn extend(&mut self, alloc: Global, path: &Path, bytes: &[u8]) -> Result<(), TreeError>
        ensures ok { OnOk result (tree_of self.new ≡ updated (tree_of self.old) path.now (appended bytes.now)) }
        ensures err { OnErr result (tree_of self.new ≡ tree_of self.old) }
        ensures answers { Refuses (refused_extend (tree_of self.old) path.now) result }
    {
        let at = self.arena.stands(path)?;
        match self.arena.look(at) {
            Seen::File { .. } => Ok(self.arena.append(alloc, at, bytes)?),
            _ => Err(TreeError::IsDir),
        }
    }

    /// Sets the attributes of what stands at a path (HDFS, `setPermission` and the like). They must fit what stands there,
    /// if anything does. It takes no memory.
    ///
    /// # Errors
    ///
    /// Each leaves the tree as it was:
    ///
    /// - `Missing`, where the path or a prefix is absent;
    /// - `NotDir`, where a proper prefix is a file.
    pub fn set_attrs(&mut self, path: &Path, attrs: Attrs) -> Result<(), TreeError>
        requires fits { IsTrue (fits_at (tree_of self.old path.now) attrs) }
        ensures ok { OnOk result (tree_of self.new ≡ updated (tree_of self.old) path.now (with_attrs attrs)) }
        ensures err { OnErr result (tree_of self.new ≡ tree_of self.old) }
        ensures memory { IfErr result (λ e. e ≢ TreeError.Memory) }
        ensures answers { Refuses (refused_at (seen (tree_of self.old) path.now)) result }
    {
        let at = self.arena.stands(path)?;
        self.arena.dress(at, attrs);
        Ok(())
    }

    /// Removes what stands at a path, with all under it (HDFS, `delete`). It takes no memory.
    ///
    /// # Errors
    ///
    /// Each leaves the tree as it was:
    ///
    /// - `Root`, where the path is the root;
    /// - `Missing`, where the path or a prefix is absent;
    /// - `NotDir`, where a proper prefix is a file.
    pub fn remove(&mut self, path: &Path) -> Result<(), TreeError>
        ensures ok { OnOk result (tree_of self.new ≡ without (tree_of self.old) path.now) }
        ensures err { OnErr result (tree_of self.new ≡ tree_of self.old) }
        ensures memory { IfErr result (λ e. e ≢ TreeError.Memory) }
        ensures answers { Refuses (refused_remove (tree_of self.old) path.now) result }
    {
        match self.arena.place(path) {
            Place::Taken { parent, child } => {
                self.arena.unhang(path, parent, child);
                Ok(())
            }
            Place::Root => Err(TreeError::Root),
            Place::Vacant { .. } => Err(TreeError::Missing),
            Place::Refused(error) => Err(error),
        }
    }

    /// Moves what stands at a path, with all under it, to a path at which nothing stands (HDFS, `rename`).
    ///
    /// # Errors
    ///
    /// The first of these, in this order; each leaves the tree as it was:
    ///
    /// - `Root`, where either path is the root;
    /// - `Missing` or `NotDir`, where nothing stands at `from`;
    /// - `Exists`, where something stands at `to`;
    /// - `IntoItself`, where `from` is a prefix of `to`;
    /// - `Missing` or `NotDir`, where the parent of `to` is no directory;
    /// - `Memory`, which may come in the place of any answer.
    pub fn rename(&mut self, alloc: Global, from: &Path, to: &Path) -> Result<(), TreeError>
        ensures ok { OnOk result (tree_of self.new ≡ moved (tree_of self.old) from.now to.now) }
        ensures err { OnErr result (tree_of self.new ≡ tree_of self.old) }
        ensures answers { Refuses (refused_rename (tree_of self.old) from.now to.now) result }
    {
        if to.len() == 0 {
            return Err(TreeError::Root);
        }
        match self.arena.place(from) {
            Place::Taken { parent, child } => self.rename_taken(alloc, from, parent, child, to),
            Place::Root => Err(TreeError::Root),
            Place::Vacant { .. } => Err(TreeError::Missing),
            Place::Refused(error) => Err(error),
        }
    }

    // Moves what is held at a path.
    fn rename_taken(
        &mut self,
        alloc: Global,
        from: &Path,
        held_by: usize,
        child: usize,
        to: &Path,
    ) -> Result<(), TreeError>
        requires from { IsTaken self.old from.now held_by child }
        ensures ok { OnOk result (tree_of self.new ≡ moved (tree_of self.old) from.now to.now) }
        ensures err { OnErr result (self.new ≡ self.old) }
        ensures answers { Refuses (refused_onto (tree_of self.old) from.now to.now) result }
    {
        let into = to.starts_with(from);
        match self.arena.place(to) {
            Place::Root => Err(TreeError::Exists),
            Place::Taken { .. } => Err(TreeError::Exists),
            Place::Vacant { parent } => {
                if into {
                    return Err(TreeError::IntoItself);
                }
                self.arena.rehang(alloc, from, held_by, child, to, parent)?;
                Ok(())
            }
            Place::Refused(error) => {
                if into {
                    return Err(TreeError::IntoItself);
                }
                Err(error)
            }
        }
    }

    /// Whether what stands at and under `path` here is the same as what stands at and under `place` in `other`.
    ///
    /// Below both, the same paths must stand, of the same kinds, with the same bytes and the same attributes at the kept
    /// letters. The tops must be of one kind with the same bytes; their attributes do not count. Paths that have the name
    /// `.snapshot` below the tops are passed over. Where nothing stands at both, they are the same; where something stands
    /// at one alone, they are not.
    ///
    /// It takes no memory, and no stack by depth. It looks up each name of both parts a few times, so it takes n log n
    /// steps.
    pub fn same_under(&self, path: &Path, other: &MemTree, place: &Path, keep: &Keep) -> bool
        ensures same { result ≡ true → SameUnder keep.now (tree_of self.now) path.now (tree_of other.now) place.now }
        ensures differs { result ≡ false → DiffersUnder keep.now (tree_of self.now) path.now (tree_of other.now) place.now }
    {
        match (self.arena.slot_of(path), other.arena.slot_of(place)) {
            (Some(at), Some(there)) => self.arena.same_from(at, &other.arena, there, keep),
            (Some(_), None) => false,
            (None, Some(_)) => false,
            (None, None) => true,
        }
    }

    /// An equal tree. `OutOfMemory` is the one error.
    pub fn copy(&self, alloc: Global) -> Result<MemTree, OutOfMemory>
        ensures { IfOk result (λ t. tree_of t ≡ tree_of self.now) }
    {
        Ok(MemTree {
            arena: self.arena.copy(alloc)?,
        })
    }
}
