//! The slots of a tree in memory: where paths lead among them, and the steps that change them.
//!
//! Slot 0 is the root. A directory's children are links, from a name to a slot, and each slot is led to by one link at
//! most. Slots that were cut off stand in one chain, by `next`: first those whose children are still to be given up, then
//! those that are free. Whoever takes a slot from the chain looks at it first, so a tree never rests on the chain.
#![tactic(auto)]

ghost use Rattle.std.specs.Prelude.{◌≡◌, ◌≤◌, ◌<◌, [], length, take, map, Some, None, true, ◌++◌, IsSome, IfOk, OnOk, OnErr};
ghost use Rattle.dc_tree.specs.Arena.{cell_of, cell_at, GoneCell, link, node, way_on, way_from, IsArena, IsDirNode, node_of, links_of, IsFileNode};
ghost use Rattle.dc_tree.specs.Places.{FitsPlace};
ghost use Rattle.dc_tree.specs.Edits.{Links, Nodes, Puts, Child, Edit, Pops, PopsAt, Keeps, Hangs, Takes, Grows, Stays};
ghost use Rattle.std.specs.Option.{option_copied, is_some};
ghost use Rattle.std.specs.BTreeMap.{keys, IsOrdered};
ghost use Rattle.std.specs.Ordering.{nat_cmp};
ghost use Rattle.std.specs.Cmp.Lexicographic.{slice_cmp};
ghost use Rattle.dc_tree.specs.Children.{IsNames};
ghost use Rattle.dc_attrs.specs.Trees.{seen_node, bytes_of, attrs_of, appended, with_attrs};

use crate::homes::{Home, make_homes, set_home};
use dc_attrs::{Attrs, Seen, TreeError};
use dc_path::{List, Name, OutOfMemory, Path};
use std::alloc::Global;
use std::collections::BTreeMap;
use std::mem;

/// What an arena holds.
#[derive(Drop)]
pub enum Slot {
    /// A directory, with the slots of its children.
    Dir {
        attrs: Attrs,
        children: BTreeMap<Name, usize>,
    },
    /// A file.
    File {
        bytes: List<u8>,
        attrs: Attrs,
    },
    /// What was cut off. Once it has no children left, it may be taken again.
    Gone {
        next: usize,
        children: BTreeMap<Name, usize>,
    },
}

/// Where a path leads.
#[derive(Clone, Copy)]
pub enum Way {
    /// To a slot.
    At(usize),
    /// Nowhere: it or a prefix is absent.
    Missing,
    /// Nowhere: a proper prefix is a file.
    NotDir,
}

/// Where a name leads from a slot.
pub fn child(slots: &[Slot], at: usize, name: &Name) -> Way
    ensures { result ≡ way_on (node (map cell_of slots.now) at) (link (map cell_of slots.now) at name.now) (λ c. Way.At c) }
{
    match slots.get(at) {
        Some(Slot::Dir { children, .. }) => match children.get(name).copied() {
            Some(child) => Way::At(child),
            None => Way::Missing,
        },
        Some(Slot::File { .. }) => Way::NotDir,
        Some(Slot::Gone { .. }) => Way::Missing,
        None => Way::Missing,
    }
}

/// Where the first names of a path lead from the root.
pub fn walk(slots: &[Slot], path: &Path, count: usize) -> Way
    requires { count ≤ length path.now }
    ensures { result ≡ way_from (map cell_of slots.now) 0 (take count path.now) }
{
    let mut at = 0usize;
    for i in 0..count {
        let Some(name) = path.name(i) else {
            return Way::Missing;
        };
        match child(slots, at, name) {
            Way::At(next) => at = next,
            end => return end,
        }
    }
    Way::At(at)
}

/// What is at a path, and under what.
#[derive(Clone, Copy)]
pub enum Place {
    /// The root, which is under nothing.
    Root,
    /// Something, in the slot `child` under the directory in the slot `parent`.
    Taken { parent: usize, child: usize },
    /// Nothing, under the directory in the slot `parent`.
    Vacant { parent: usize },
    /// Nothing, since a proper prefix is no directory: `Missing` where it is absent, `NotDir` where it is a file.
    Refused(TreeError),
}

/// What is at a path, and under what.
pub fn find_place(slots: &[Slot], path: &Path) -> Place
    ensures { IsArena (map cell_of slots.now) → FitsPlace (map cell_of slots.now) path.now result }
{
    let Some(name) = path.last() else {
        return Place::Root;
    };
    match walk(slots, path, path.len() - 1) {
        Way::At(parent) => match child(slots, parent, name) {
            Way::At(child) => Place::Taken { parent, child },
            Way::Missing => Place::Vacant { parent },
            Way::NotDir => Place::Refused(TreeError::NotDir),
        },
        Way::Missing => Place::Refused(TreeError::Missing),
        Way::NotDir => Place::Refused(TreeError::NotDir),
    }
}

/// What is in a slot.
pub fn seen_at(slots: &[Slot], at: usize) -> Seen
    ensures { result ≡ seen_node (node (map cell_of slots.now) at) }
{
    match slots.get(at) {
        Some(Slot::Dir { .. }) => Seen::Dir,
        Some(Slot::File { bytes, .. }) => Seen::File {
            length: bytes.len() as u64,
        },
        Some(Slot::Gone { .. }) => Seen::Missing,
        None => Seen::Missing,
    }
}

// Sets the link of a name in a directory.
fn add_child(slot: &mut Slot, name: Name, to: usize) -> Result<(), OutOfMemory>
    requires { IsDirNode (node_of (cell_of slot.old)) }
    ensures ok { OnOk result (Child (cell_of slot.old) name (Some to) (cell_of slot.new)) }
    ensures err { OnErr result (cell_of slot.new ≡ cell_of slot.old) }
{
    match slot {
        Slot::Dir { children, .. } => {
            children.insert(name, to)?;
            Ok(())
        }
        Slot::File { .. } => Ok(()),
        Slot::Gone { .. } => Ok(()),
    }
}

/// Sets the link of a name in a directory.
pub fn add_link(slots: &mut Vec<Slot>, at: usize, name: Name, to: usize) -> Result<(), OutOfMemory>
    requires { IsDirNode (node (map cell_of slots.old.items) at) }
    ensures ok { OnOk result (Links (map cell_of slots.old.items) at name (Some to) (map cell_of slots.new.items)) }
    ensures len { length slots.new.items ≡ length slots.old.items }
    ensures err { OnErr result (map cell_of slots.new.items ≡ map cell_of slots.old.items) }
{
    add_child(&mut slots[at], name, to)
}

// Takes the link of a name out of a directory.
fn cut_child(slot: &mut Slot, name: &Name)
    requires { IsDirNode (node_of (cell_of slot.old)) }
    ensures { Child (cell_of slot.old) name.now None (cell_of slot.new) }
{
    match slot {
        Slot::Dir { children, .. } => {
            children.remove(name);
        }
        Slot::File { .. } => {}
        Slot::Gone { .. } => {}
    }
}

/// Takes the link of a name out of a directory.
pub fn cut_link(slots: &mut Vec<Slot>, at: usize, name: &Name)
    requires { IsDirNode (node (map cell_of slots.old.items) at) }
    ensures { Links (map cell_of slots.old.items) at name.now None (map cell_of slots.new.items) }
{
    cut_child(&mut slots[at], name);
}

/// Whether a slot holds nothing.
pub fn is_blank(slots: &[Slot], at: usize) -> bool
    ensures { result ≡ true → (at < length slots.now) × (cell_at (map cell_of slots.now) at ≡ GoneCell []) }
{
    match slots.get(at) {
        Some(Slot::Gone { children, .. }) => children.is_empty(),
        _ => false,
    }
}

/// Sees to it that the first free slot holds nothing.
pub fn make_room(alloc: Global, slots: &mut Vec<Slot>, free: &mut usize) -> Result<(), OutOfMemory>
    ensures ok { OnOk result (free.new < length slots.new.items) }
    ensures blank { OnOk result (cell_at (map cell_of slots.new.items) free.new ≡ GoneCell []) }
    ensures same { cell_at (map cell_of slots.new.items) ≡ cell_at (map cell_of slots.old.items) }
{
    if is_blank(slots, *free) {
        return Ok(());
    }
    let next = *free;
    let place = slots.len();
    slots.push(Slot::Gone {
        next,
        children: BTreeMap::new(alloc),
    })?;
    *free = place;
    Ok(())
}

/// Puts a slot in place of another.
pub fn put_slot(slots: &mut Vec<Slot>, at: usize, slot: Slot)
    requires { at < length slots.old.items }
    ensures { Puts (map cell_of slots.old.items) at (cell_of slot) (map cell_of slots.new.items) }
{
    slots[at] = slot;
}

// The slot that is free after this one.
fn next_free(slots: &[Slot], at: usize) -> usize {
    match slots.get(at) {
        Some(Slot::Gone { next, .. }) => *next,
        _ => at,
    }
}

// Sets the link of a name in a directory, and notes for the slot to which it leads where that hangs.
fn hang_at(
    alloc: Global,
    slots: &mut Vec<Slot>,
    homes: &mut Vec<Option<Home>>,
    at: usize,
    name: &Name,
    place: usize,
) -> Result<(), OutOfMemory>
    requires dir { IsDirNode (node (map cell_of slots.old.items) at) }
    requires room { place < length homes.old.items }
    ensures ok { OnOk result (Hangs (map cell_of slots.old.items) homes.old.items at name.now place (map cell_of slots.new.items) homes.new.items) }
    ensures err { OnErr result (Stays (map cell_of slots.old.items) homes.old.items (map cell_of slots.new.items) homes.new.items) }
    ensures len { length slots.new.items ≡ length slots.old.items }
{
    let linked = name.copy(alloc)?;
    let home = Home {
        parent: at,
        name: name.copy(alloc)?,
    };
    add_link(slots, at, linked, place)?;
    set_home(homes, place, home);
    Ok(())
}

// Takes the first free slot for a name in a directory: makes room where there is none, and hangs it there.
fn take(
    alloc: Global,
    slots: &mut Vec<Slot>,
    homes: &mut Vec<Option<Home>>,
    free: &mut usize,
    at: usize,
    name: &Name,
) -> Result<usize, OutOfMemory>
    requires { IsDirNode (node (map cell_of slots.old.items) at) }
    ensures within { IfOk result (λ place. place < length slots.new.items) }
    ensures ok { IfOk result (λ place. Takes (map cell_of slots.old.items) homes.old.items at name.now place (map cell_of slots.new.items) homes.new.items) }
    ensures err { OnErr result (Stays (map cell_of slots.old.items) homes.old.items (map cell_of slots.new.items) homes.new.items) }
{
    make_room(alloc, slots, free)?;
    make_homes(homes, slots.len())?;
    let place = *free;
    hang_at(alloc, slots, homes, at, name, place)?;
    Ok(place)
}

/// Hangs a new slot under a directory, and notes where it hangs.
pub fn add(
    alloc: Global,
    slots: &mut Vec<Slot>,
    homes: &mut Vec<Option<Home>>,
    free: &mut usize,
    at: usize,
    name: &Name,
    slot: Slot,
) -> Result<(), OutOfMemory>
    requires dir { IsDirNode (node (map cell_of slots.old.items) at) }
    requires bare { links_of (cell_of slot) ≡ [] }
    ensures ok { OnOk result (Grows (map cell_of slots.old.items) homes.old.items at name.now (node_of (cell_of slot)) (map cell_of slots.new.items) homes.new.items) }
    ensures err { OnErr result (Stays (map cell_of slots.old.items) homes.old.items (map cell_of slots.new.items) homes.new.items) }
{
    let place = take(alloc, slots, homes, free, at, name)?;
    *free = next_free(slots, place);
    put_slot(slots, place, slot);
    Ok(())
}

/// The bytes of a file.
pub fn bytes_at(slots: &[Slot], at: usize) -> Option<&[u8]>
    ensures { option_copied result ≡ bytes_of (node (map cell_of slots.now) at) }
{
    match slots.get(at) {
        Some(Slot::File { bytes, .. }) => Some(bytes.as_slice()),
        Some(Slot::Dir { .. }) => None,
        Some(Slot::Gone { .. }) => None,
        None => None,
    }
}

/// The attributes in a slot.
pub fn attrs_at(slots: &[Slot], at: usize) -> Option<&Attrs>
    ensures { option_copied result ≡ attrs_of (node (map cell_of slots.now) at) }
{
    match slots.get(at) {
        Some(Slot::File { attrs, .. }) => Some(attrs),
        Some(Slot::Dir { attrs, .. }) => Some(attrs),
        Some(Slot::Gone { .. }) => None,
        None => None,
    }
}

// Adds bytes at the end.
fn grow(alloc: Global, bytes: &mut List<u8>, more: &[u8]) -> Result<(), OutOfMemory>
    ensures ok { OnOk result (bytes.new ≡ bytes.old ++ more.now) }
    ensures err { OnErr result (bytes.new ≡ bytes.old) }
{
    let mut items = mem::replace(bytes, List::new(alloc)).into_vec();
    let grown = items.extend_from_slice(more);
    *bytes = List::of(items);
    grown?;
    Ok(())
}

// Adds bytes at the end of a file.
fn append_in(alloc: Global, slot: &mut Slot, more: &[u8]) -> Result<(), OutOfMemory>
    requires { IsFileNode (node_of (cell_of slot.old)) }
    ensures ok { OnOk result (Edit (cell_of slot.old) (appended more.now (node_of (cell_of slot.old))) (cell_of slot.new)) }
    ensures err { OnErr result (cell_of slot.new ≡ cell_of slot.old) }
{
    match slot {
        Slot::File { bytes, .. } => grow(alloc, bytes, more),
        Slot::Dir { .. } => Ok(()),
        Slot::Gone { .. } => Ok(()),
    }
}

/// Adds bytes at the end of a file.
pub fn append_at(
    alloc: Global,
    slots: &mut Vec<Slot>,
    at: usize,
    more: &[u8],
) -> Result<(), OutOfMemory>
    requires { IsFileNode (node (map cell_of slots.old.items) at) }
    ensures ok { OnOk result (Nodes (map cell_of slots.old.items) at (appended more.now (node (map cell_of slots.old.items) at)) (map cell_of slots.new.items)) }
    ensures err { OnErr result (map cell_of slots.new.items ≡ map cell_of slots.old.items) }
{
    append_in(alloc, &mut slots[at], more)
}

// Sets the attributes of a slot.
fn set_attrs_in(slot: &mut Slot, new: Attrs)
    ensures { Edit (cell_of slot.old) (with_attrs new (node_of (cell_of slot.old))) (cell_of slot.new) }
{
    match slot {
        Slot::File { attrs, .. } => *attrs = new,
        Slot::Dir { attrs, .. } => *attrs = new,
        Slot::Gone { .. } => {}
    }
}

/// Sets the attributes of a slot.
pub fn set_attrs_at(slots: &mut Vec<Slot>, at: usize, attrs: Attrs)
    requires { IsSome (node (map cell_of slots.old.items) at) }
    ensures { Nodes (map cell_of slots.old.items) at (with_attrs attrs (node (map cell_of slots.old.items) at)) (map cell_of slots.new.items) }
{
    set_attrs_in(&mut slots[at], attrs);
}

// Gives a slot up, and keeps its links.
fn dismiss_in(alloc: Global, slot: &mut Slot, next: usize)
    ensures { Edit (cell_of slot.old) None (cell_of slot.new) }
{
    let blank = Slot::Gone {
        next,
        children: BTreeMap::new(alloc),
    };
    let children = match mem::replace(slot, blank) {
        Slot::Dir {
            attrs: _attrs,
            children,
        } => children,
        Slot::Gone {
            next: _next,
            children,
        } => children,
        Slot::File {
            bytes: _bytes,
            attrs: _attrs,
        } => BTreeMap::new(alloc),
    };
    *slot = Slot::Gone { next, children };
}

/// Gives a slot up, and keeps its links.
pub fn dismiss(alloc: Global, slots: &mut Vec<Slot>, at: usize, next: usize)
    requires { at < length slots.old.items }
    ensures nodes { Nodes (map cell_of slots.old.items) at None (map cell_of slots.new.items) }
    ensures len { length slots.new.items ≡ length slots.old.items }
{
    dismiss_in(alloc, &mut slots[at], next);
}

/// What is taken out of a slot that was given up.
pub enum Popped {
    /// A child.
    Child(usize),
    /// Nothing, since no child is left; the slot after it in the chain.
    Bare(usize),
    /// Nothing, since the slot was not given up.
    Kept,
}

// Takes the first link out of a slot that was given up.
fn pop_in(slot: &mut Slot) -> Popped
    ensures { Pops (cell_of slot.old) result (cell_of slot.new) }
{
    match slot {
        Slot::Gone { next, children } => {
            if let Some((_name, child)) = children.pop_first() {
                return Popped::Child(child);
            }
            Popped::Bare(*next)
        }
        Slot::Dir { .. } => Popped::Kept,
        Slot::File { .. } => Popped::Kept,
    }
}

// Puts a slot that was given up in front of another.
fn set_next(slot: &mut Slot, free: usize)
    ensures { cell_of slot.new ≡ cell_of slot.old }
{
    match slot {
        Slot::Gone { next, .. } => *next = free,
        Slot::Dir { .. } => {}
        Slot::File { .. } => {}
    }
}

// Takes the first link out of a slot that was given up.
fn pop_at(slots: &mut Vec<Slot>, at: usize) -> Popped
    requires { at < length slots.old.items }
    ensures pops { PopsAt (map cell_of slots.old.items) at result (map cell_of slots.new.items) }
    ensures len { length slots.new.items ≡ length slots.old.items }
{
    pop_in(&mut slots[at])
}

// Puts a slot that was given up in front of the free ones.
fn free_at(slots: &mut Vec<Slot>, at: usize, free: usize)
    requires { at < length slots.old.items }
    ensures { map cell_of slots.new.items ≡ map cell_of slots.old.items }
{
    set_next(&mut slots[at], free);
}

// Takes one link out of a slot that was given up, or frees the slot; answers the slot to go on with.
fn drain_one(alloc: Global, slots: &mut Vec<Slot>, free: &mut usize, at: usize) -> Option<usize>
    ensures { Keeps (map cell_of slots.old.items) (map cell_of slots.new.items) }
{
    if at >= slots.len() {
        return None;
    }
    match pop_at(slots, at) {
        Popped::Child(child) => {
            if child >= slots.len() {
                return None;
            }
            dismiss(alloc, slots, child, at);
            Some(child)
        }
        Popped::Bare(next) => {
            free_at(slots, at, *free);
            *free = at;
            Some(next)
        }
        Popped::Kept => None,
    }
}

/// Frees a slot that was given up, and all under it. It goes down to a child and back up to the slot above by `next`, so
/// it needs neither memory nor the stack.
pub fn drain(alloc: Global, slots: &mut Vec<Slot>, free: &mut usize, top: usize)
    ensures { Keeps (map cell_of slots.old.items) (map cell_of slots.new.items) }
{
    let mut at = top;
    for _ in 0..u64::MAX {
        match drain_one(alloc, slots, free, at) {
            Some(next) => at = next,
            None => return,
        }
    }
}

// The names of a directory's children.
fn names_of(alloc: Global, children: &BTreeMap<Name, usize>) -> Result<List<Name>, OutOfMemory>
    ensures names { IfOk result (λ names. names ≡ keys children.now) }
    ensures ascending { IsOrdered (slice_cmp nat_cmp) children.now }
{
    let mut names = List::new(alloc);
    for name in children.keys() {
        let copied = name.copy(alloc)?;
        names.push(copied).map_err(|_| OutOfMemory)?;
    }
    Ok(names)
}

/// The names of the children in a slot, in order.
pub fn names_at(alloc: Global, slots: &[Slot], at: usize) -> Result<List<Name>, OutOfMemory>
    ensures { IfOk result (λ names. IsNames (λ x. is_some (link (map cell_of slots.now) at x)) names) }
{
    match slots.get(at) {
        Some(Slot::Dir { children, .. }) => names_of(alloc, children),
        Some(Slot::Gone { children, .. }) => names_of(alloc, children),
        Some(Slot::File { .. }) => Ok(List::new(alloc)),
        None => Ok(List::new(alloc)),
    }
}

// Equal bytes.
fn copy_bytes(alloc: Global, bytes: &List<u8>) -> Result<List<u8>, OutOfMemory>
    ensures { IfOk result (λ copy. copy ≡ bytes.now) }
{
    let mut items = Vec::new(alloc);
    items.extend_from_slice(bytes.as_slice())?;
    Ok(List::of(items))
}

// Equal links.
fn copy_links(children: &BTreeMap<Name, usize>) -> Result<BTreeMap<Name, usize>, OutOfMemory>
    ensures { IfOk result (λ copy. copy.entries ≡ children.now.entries) }
{
    Ok(children.clone()?)
}

// An equal slot.
fn copy_slot(alloc: Global, slot: &Slot) -> Result<Slot, OutOfMemory>
    ensures { IfOk result (λ copy. cell_of copy ≡ cell_of slot.now) }
{
    match slot {
        Slot::Dir { attrs, children } => {
            let attrs = attrs.copy(alloc)?;
            let children = copy_links(children)?;
            Ok(Slot::Dir { attrs, children })
        }
        Slot::File { bytes, attrs } => {
            let bytes = copy_bytes(alloc, bytes)?;
            let attrs = attrs.copy(alloc)?;
            Ok(Slot::File { bytes, attrs })
        }
        Slot::Gone { next, children } => {
            let children = copy_links(children)?;
            Ok(Slot::Gone {
                next: *next,
                children,
            })
        }
    }
}

/// Equal slots.
pub fn copy_slots(alloc: Global, slots: &[Slot]) -> Result<Vec<Slot>, OutOfMemory>
    ensures { IfOk result (λ copy. map cell_of copy.items ≡ map cell_of slots.now) }
{
    let mut copy = Vec::new(alloc);
    for slot in slots {
        let copied = copy_slot(alloc, slot)?;
        copy.push(copied)?;
    }
    Ok(copy)
}
