//! An arena that holds a tree: the look-ups in it, and the changes that keep it one.
#![tactic(auto)]

ghost use Rattle.std.specs.Prelude.{◌≡◌, length, Some, None, [], true, false, IsTrue, IsSome, IfOk, OnOk, OnErr};
ghost use Rattle.std.specs.Option.{option_copied, is_some};
ghost use Rattle.dc_path.specs.Paths.{Names, cut};
ghost use Rattle.dc_attrs.specs.Attributes.{default_dir, fits_file};
ghost use Rattle.dc_attrs.specs.Trees.{Node, Dir, File, IsTree, seen_node, with_node, without, moved, appended, with_attrs, bytes_of, attrs_of};
ghost use Rattle.dc_tree.specs.Arena.{cell_of, node_of, links_of, node, tree_of, link, reach, IsFileNode, IsArena};
ghost use Rattle.dc_tree.specs.Children.{IsNames};
ghost use Rattle.dc_tree.specs.Edits.{Nodes};
ghost use Rattle.dc_attrs.specs.Fitting.{is_fitting, fits_at};
ghost use Rattle.dc_tree.specs.Walking.{SameBelow, DiffersBelow};
ghost use Rattle.dc_tree.specs.Places.{IsWhole, FitsPlace, FitsSlot, Leads, IsSound, IsVacant, IsTaken};

use crate::homes::{Home, copy_homes, set_home};
use crate::same::same_below;
use crate::slots::{
    Place, Slot, Way, add, add_link, append_at, attrs_at, bytes_at, copy_slots, cut_link, dismiss,
    drain, find_place, names_at, put_slot, seen_at, set_attrs_at, walk,
};
use dc_attrs::{Attrs, Keep, Seen, TreeError};
use dc_path::{List, Name, OutOfMemory, Path};
use std::alloc::Global;
use std::collections::BTreeMap;
use std::marker::Model;

/// An arena of slots that holds a tree: of the slots, the first is a directory, and each other one that stands is led to
/// from one directory. Beside each slot it is noted where that hangs.
#[derive(Drop)]
pub struct Arena {
    slots: Vec<Slot>,
    homes: Vec<Option<Home>>,
    free: usize,
    alloc: Global,
}

impl Model for Arena {
    ghost use Rattle.std.specs.Prelude.{List, map};
    ghost use Rattle.dc_tree.specs.Arena.{Cell, cell_of, link, IsArena};
    ghost use Rattle.dc_tree.specs.Homes.{AreHomes};

    ghost Value = { List Cell };

    ghost view = { λ t. map cell_of t.slots.items };

    ghost invariant = { λ t. IsArena (map cell_of t.slots.items) × AreHomes (link (map cell_of t.slots.items)) t.homes.items };
}

impl Arena {
    /// The root alone, with the attributes of a new directory. `OutOfMemory` is the one error.
    pub fn new(alloc: Global) -> Result<Arena, OutOfMemory>
        ensures whole { IfOk result (λ t. IsWhole t) }
        ensures tree { IfOk result (λ t. tree_of t ≡ with_node (λ _. None) [] (Dir default_dir)) }
    {
        let mut slots = Vec::new(alloc);
        slots.push(Slot::Dir {
            attrs: Attrs::default_dir(alloc),
            children: BTreeMap::new(alloc),
        })?;
        Ok(Arena {
            slots,
            homes: Vec::new(alloc),
            free: 0,
            alloc,
        })
    }

    /// How many slots there are.
    pub fn count(&self) -> usize
        ensures { result ≡ length self.now }
    {
        self.slots.len()
    }

    /// What is at a path, and under what.
    pub fn place(&self, path: &Path) -> Place
        ensures { FitsPlace self.now path.now result }
    {
        find_place(&self.slots, path)
    }

    /// Where a path leads.
    pub fn find(&self, path: &Path) -> Way
        ensures way { Leads self.now path.now result }
        ensures sound { IsSound (tree_of self.now) }
    {
        walk(&self.slots, path, path.len())
    }

    /// In which slot what is at a path stands, or why nothing does.
    pub fn stands(&self, path: &Path) -> Result<usize, TreeError>
        ensures slot { FitsSlot self.now path.now result }
        ensures tree { IsTree (tree_of self.now) }
    {
        match self.find(path) {
            Way::At(at) => Ok(at),
            Way::Missing => Err(TreeError::Missing),
            Way::NotDir => Err(TreeError::NotDir),
        }
    }

    /// The slot to which a path leads.
    pub fn slot_of(&self, path: &Path) -> Option<usize>
        ensures slot { result ≡ reach (link self.now) 0 path.now }
        ensures arena { IsArena self.now }
    {
        match self.find(path) {
            Way::At(at) => Some(at),
            Way::Missing => None,
            Way::NotDir => None,
        }
    }

    /// What is in a slot.
    pub fn look(&self, at: usize) -> Seen
        ensures { result ≡ seen_node (node self.now at) }
    {
        seen_at(&self.slots, at)
    }

    /// The bytes in a slot.
    pub fn bytes_in(&self, at: usize) -> Option<&[u8]>
        ensures { option_copied result ≡ bytes_of (node self.now at) }
    {
        bytes_at(&self.slots, at)
    }

    /// The attributes in a slot.
    pub fn attrs_in(&self, at: usize) -> Option<&Attrs>
        ensures { option_copied result ≡ attrs_of (node self.now at) }
    {
        attrs_at(&self.slots, at)
    }

    /// The names under a slot.
    pub fn names_in(&self, alloc: Global, at: usize) -> Result<List<Name>, OutOfMemory>
        ensures { IfOk result (λ names. IsNames (λ x. is_some (link self.now at x)) names) }
    {
        names_at(alloc, &self.slots, at)
    }

    /// Hangs a new slot at a path.
    pub fn hang(
        &mut self,
        alloc: Global,
        path: &Path,
        parent: usize,
        slot: Slot,
    ) -> Result<(), OutOfMemory>
        requires vacant { IsVacant self.old path.now parent }
        requires bare { links_of (cell_of slot) ≡ [] }
        requires some { IsSome (node_of (cell_of slot)) }
        requires fits { IsTrue (is_fitting (node_of (cell_of slot))) }
        ensures whole { IsWhole self.new }
        ensures ok { OnOk result ((v : Node) → node_of (cell_of slot) ≡ Some v → tree_of self.new ≡ with_node (tree_of self.old) path.now v) }
        ensures err { OnErr result (tree_of self.new ≡ tree_of self.old) }
    {
        // The root is not vacant, so there is a last name.
        let Some(name) = path.last() else {
            return Err(OutOfMemory);
        };
        add(
            alloc,
            &mut self.slots,
            &mut self.homes,
            &mut self.free,
            parent,
            name,
            slot,
        )
    }

    /// Puts a file in place of a file.
    pub fn replace(&mut self, at: usize, bytes: List<u8>, attrs: Attrs)
        requires file { IsFileNode (node self.old at) }
        requires fits { IsTrue (fits_file attrs) }
        ensures whole { IsWhole self.new }
        ensures node { Nodes self.old at (Some (File bytes attrs)) self.new }
    {
        put_slot(&mut self.slots, at, Slot::File { bytes, attrs });
    }

    /// Adds bytes at the end of a file.
    pub fn append(&mut self, alloc: Global, at: usize, bytes: &[u8]) -> Result<(), OutOfMemory>
        requires { IsFileNode (node self.old at) }
        ensures whole { OnOk result (IsWhole self.new) }
        ensures ok { OnOk result (Nodes self.old at (appended bytes.now (node self.old at)) self.new) }
        ensures err { OnErr result (self.new ≡ self.old) }
    {
        append_at(alloc, &mut self.slots, at, bytes)
    }

    /// Sets the attributes in a slot.
    pub fn dress(&mut self, at: usize, attrs: Attrs)
        requires some { IsSome (node self.old at) }
        requires fits { IsTrue (fits_at (node self.old at) attrs) }
        ensures whole { IsWhole self.new }
        ensures node { Nodes self.old at (with_attrs attrs (node self.old at)) self.new }
    {
        set_attrs_at(&mut self.slots, at, attrs);
    }

    /// Takes what is at a path out of its directory, and frees it.
    pub fn unhang(&mut self, path: &Path, parent: usize, child: usize)
        requires { IsTaken self.old path.now parent child }
        ensures whole { IsWhole self.new }
        ensures tree { tree_of self.new ≡ without (tree_of self.old) path.now }
    {
        // The root is not taken out, so there is a last name.
        let Some(name) = path.last() else {
            return;
        };
        cut_link(&mut self.slots, parent, name);
        dismiss(self.alloc, &mut self.slots, child, usize::MAX);
        drain(self.alloc, &mut self.slots, &mut self.free, child);
    }

    /// Hangs what is at one path at another.
    pub fn rehang(
        &mut self,
        alloc: Global,
        from: &Path,
        held_by: usize,
        child: usize,
        to: &Path,
        parent: usize,
    ) -> Result<(), OutOfMemory>
        requires from { IsTaken self.old from.now held_by child }
        requires to { IsVacant self.old to.now parent }
        requires apart { cut from.now to.now ≡ None }
        ensures whole { OnOk result (IsWhole self.new) }
        ensures ok { OnOk result (tree_of self.new ≡ moved (tree_of self.old) from.now to.now) }
        ensures err { OnErr result (self.new ≡ self.old) }
    {
        // Neither path is the root, so each has a last name.
        let Some(old_name) = from.last() else {
            return Err(OutOfMemory);
        };
        let Some(new_name) = to.last() else {
            return Err(OutOfMemory);
        };
        let name = new_name.copy(alloc)?;
        let home = Home {
            parent,
            name: new_name.copy(alloc)?,
        };
        add_link(&mut self.slots, parent, name, child)?;
        cut_link(&mut self.slots, held_by, old_name);
        set_home(&mut self.homes, child, home);
        Ok(())
    }

    /// Whether two parts are alike, by the slots of their tops.
    pub fn same_from(&self, at: usize, other: &Arena, there: usize, keep: &Keep) -> bool
        ensures yes { result ≡ true → SameBelow keep.now self.now at other.now there }
        ensures no { result ≡ false → (p : Names) → reach (link self.now) 0 p ≡ Some at → DiffersBelow keep.now self.now at other.now there }
    {
        same_below(
            keep,
            &self.slots,
            &self.homes,
            at,
            &other.slots,
            &other.homes,
            there,
        )
    }

    /// An equal tree. `OutOfMemory` is the one error.
    pub fn copy(&self, alloc: Global) -> Result<Arena, OutOfMemory>
        ensures { IfOk result (λ t. t ≡ self.now) }
    {
        let slots = copy_slots(alloc, &self.slots)?;
        let homes = copy_homes(alloc, &self.homes)?;
        Ok(Arena {
            slots,
            homes,
            free: self.free,
            alloc,
        })
    }
}
