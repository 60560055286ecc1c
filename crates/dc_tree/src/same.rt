//! Whether two parts of arenas are the same.
//!
//! Both parts are walked in step, in the order of paths: down to the first child, and else up by the notes of where slots
//! hang to the next name. So the walk needs neither memory nor the stack, however deep the parts are.
#![tactic(auto)]

ghost use Rattle.std.specs.Prelude.{◌≡◌, ℕ, ◌+◌, ◌<◌, map, length, true, false, Some, nat_eq, ◌||◌};
ghost use Rattle.std.specs.Option.{option_copied, option_eq, is_some};
ghost use Rattle.std.specs.Cmp.Lexicographic.{pointwise};
ghost use Rattle.dc_path.specs.Names.{same_name};
ghost use Rattle.dc_path.specs.Order.{path_lt, is_after};
ghost use Rattle.dc_path.specs.Paths.{Names};
ghost use Rattle.dc_attrs.specs.Keeping.{same_kept};
ghost use Rattle.dc_attrs.specs.Trees.{snapshot};
ghost use Rattle.dc_tree.specs.Arena.{cell_of, cell_at, links_of, find, link, node, reach, IsArena};
ghost use Rattle.dc_tree.specs.Homes.{AreHomes};
ghost use Rattle.dc_tree.specs.Same.{alike, counted};
ghost use Rattle.dc_tree.specs.Walking.{links_in, comes_after, is_next, FitsFirst, AreKnown, IsUnknown, Matched, Unmatched, FitsNext, SameBelow, DiffersBelow, Stands, FitsTurn, IsNoDeeper};

use crate::homes::{Home, home_of};
use crate::slots::{Slot, attrs_at, bytes_at};
use dc_attrs::{Attrs, Keep, same_kept};
use dc_path::Name;
use std::collections::BTreeMap;
use std::ops::Bound;

// Whether a name is hidden from a walk.
fn is_hidden(name: &Name) -> bool
    ensures { result ≡ same_name snapshot name.now }
{
    ".snapshot" == name.as_str()
}

fn same_bytes(one: Option<&[u8]>, other: Option<&[u8]>) -> bool
    ensures { result ≡ option_eq (pointwise nat_eq) (option_copied one.entry) (option_copied other.entry) }
{
    match (one, other) {
        (Some(one), Some(other)) => one == other,
        (None, None) => true,
        (Some(_), None) => false,
        (None, Some(_)) => false,
    }
}

fn same_attrs(keep: &Keep, one: Option<&Attrs>, other: Option<&Attrs>) -> bool
    ensures { result ≡ option_eq (same_kept keep.now) (option_copied one.entry) (option_copied other.entry) }
{
    match (one, other) {
        (Some(one), Some(other)) => same_kept(keep, one, other),
        (None, None) => true,
        (Some(_), None) => false,
        (None, Some(_)) => false,
    }
}

// Whether what is in two slots is alike.
#[tactic(auto, unfolding(crate::specs::Same::alike))]
fn is_alike(keep: &Keep, first: &[Slot], at: usize, second: &[Slot], place: usize) -> bool
    ensures { result ≡ alike keep.now (node (map cell_of first.now) at) (node (map cell_of second.now) place) }
{
    same_bytes(bytes_at(first, at), bytes_at(second, place))
        && same_attrs(keep, attrs_at(first, at), attrs_at(second, place))
}

// The links of a slot.
fn links_at(slots: &[Slot], at: usize) -> Option<&BTreeMap<Name, usize>>
    ensures { (links_of (cell_at (map cell_of slots.now) at)) ≡ links_in (option_copied result) }
{
    match slots.get(at) {
        Some(Slot::Dir { children, .. }) => Some(children),
        Some(Slot::Gone { children, .. }) => Some(children),
        Some(Slot::File { .. }) => None,
        None => None,
    }
}

// Where a name leads from a slot.
fn link_at(slots: &[Slot], at: usize, name: &Name) -> Option<usize>
    ensures { result ≡ link (map cell_of slots.now) at name.now }
{
    match links_at(slots, at) {
        Some(children) => children.get(name).copied(),
        None => None,
    }
}

// Whether a name is hidden, or leads somewhere from a slot.
fn is_known(slots: &[Slot], at: usize, name: &Name) -> bool
    ensures { result ≡ (same_name snapshot name.now || is_some (link (map cell_of slots.now) at name.now)) }
{
    is_hidden(name) || link_at(slots, at, name).is_some()
}

// Whether each name under the second slot is hidden, or is one under the first.
fn all_known(first: &[Slot], at: usize, second: &[Slot], place: usize) -> bool
    ensures yes { result ≡ true → AreKnown (map cell_of first.now) at (map cell_of second.now) place }
    ensures no { result ≡ false → IsUnknown (map cell_of first.now) at (map cell_of second.now) place }
{
    let Some(children) = links_at(second, place) else {
        return true;
    };
    for (name, _child) in children {
        if !is_known(first, at, name) {
            return false;
        }
    }
    true
}

// Whether two slots are alike, and the second has no name that the first lacks.
fn is_matched(keep: &Keep, first: &[Slot], at: usize, second: &[Slot], place: usize) -> bool
    ensures yes { result ≡ true → Matched keep.now (map cell_of first.now) at (map cell_of second.now) place }
    ensures no { result ≡ false → Unmatched keep.now (map cell_of first.now) at (map cell_of second.now) place }
{
    is_alike(keep, first, at, second, place) && all_known(first, at, second, place)
}

// The first name after another one, or the first of all.
fn next_name<'a>(children: &'a BTreeMap<Name, usize>, after: Option<&Name>) -> Option<&'a Name>
    ensures { FitsFirst (λ x. find x children.now.entries) (comes_after (option_copied after.entry)) (option_copied result) }
{
    match after {
        Some(after) => match children
            .range((Bound::Excluded(after), Bound::Unbounded))
            .next()
        {
            Some((name, _child)) => Some(name),
            None => None,
        },
        None => match children.first_key_value() {
            Some((name, _child)) => Some(name),
            None => None,
        },
    }
}

// The first name after another one that is not hidden, or the first of all.
fn next_shown<'a>(children: &'a BTreeMap<Name, usize>, after: Option<&Name>) -> Option<&'a Name>
    ensures { FitsFirst (λ x. find x children.now.entries) (is_next (option_copied after.entry)) (option_copied result) }
{
    let Some(name) = next_name(children, after) else {
        return None;
    };
    if is_hidden(name) {
        return next_name(children, Some(name));
    }
    Some(name)
}

/// A step to a child in both parts.
pub enum Next {
    /// To these slots.
    To { here: usize, there: usize },
    /// The second part has no such child.
    Differs,
    /// The first part has no such child.
    Nowhere,
}

// The first child after a name that is not hidden, in both parts.
fn step(first: &[Slot], at: usize, second: &[Slot], place: usize, after: Option<&Name>) -> Next
    ensures { FitsNext (map cell_of first.now) at (map cell_of second.now) place (option_copied after.entry) result }
{
    let Some(children) = links_at(first, at) else {
        return Next::Nowhere;
    };
    let Some(name) = next_shown(children, after) else {
        return Next::Nowhere;
    };
    // The name is one of the children.
    let Some(here) = link_at(first, at, name) else {
        return Next::Nowhere;
    };
    match link_at(second, place, name) {
        Some(there) => Next::To { here, there },
        None => Next::Differs,
    }
}

/// Where a walk of two parts is.
#[derive(Clone, Copy)]
pub struct Pair {
    /// The slot in the first part.
    pub here: usize,
    /// The slot in the second part.
    pub there: usize,
    /// How many names below the tops.
    pub depth: usize,
}

/// How a walk of two parts goes on.
#[derive(Clone, Copy)]
pub enum Turn {
    /// To this pair.
    To(Pair),
    /// The second part has no such path.
    Differs,
    /// The walk has seen the whole first part.
    Over,
}

// Goes up to the first path that comes after a pair and all under it.
fn climb(
    first: &[Slot],
    first_homes: &[Option<Home>],
    second: &[Slot],
    second_homes: &[Option<Home>],
    at: Pair,
) -> Turn
    requires here { AreHomes (link (map cell_of first.now)) first_homes.now }
    requires there { AreHomes (link (map cell_of second.now)) second_homes.now }
    ensures turn { (i j : ℕ) (r : Names) → Stands (map cell_of first.now) i (map cell_of second.now) j r at → FitsTurn (map cell_of first.now) i (map cell_of second.now) j (is_after r) result }
    ensures deep { IsNoDeeper at.depth result }
{
    let mut here = at.here;
    let mut there = at.there;
    for up in 0..at.depth {
        // Below the tops each slot has a note.
        let Some(home) = home_of(first_homes, here) else {
            return Turn::Over;
        };
        let Some(other) = home_of(second_homes, there) else {
            return Turn::Over;
        };
        match step(first, home.parent, second, other.parent, Some(&home.name)) {
            Next::To { here, there } => {
                let depth = at.depth - up;
                return Turn::To(Pair { here, there, depth });
            }
            Next::Differs => return Turn::Differs,
            Next::Nowhere => {
                here = home.parent;
                there = other.parent;
            }
        }
    }
    Turn::Over
}

// Goes to the first path after a pair's.
fn advance(
    first: &[Slot],
    first_homes: &[Option<Home>],
    second: &[Slot],
    second_homes: &[Option<Home>],
    at: Pair,
) -> Turn
    requires here { AreHomes (link (map cell_of first.now)) first_homes.now }
    requires there { AreHomes (link (map cell_of second.now)) second_homes.now }
    requires room { at.depth < length first.now }
    ensures turn { (i j : ℕ) (r : Names) → Stands (map cell_of first.now) i (map cell_of second.now) j r at → FitsTurn (map cell_of first.now) i (map cell_of second.now) j (path_lt r) result }
    ensures deep { IsNoDeeper (at.depth + 1) result }
{
    match step(first, at.here, second, at.there, None) {
        Next::To { here, there } => {
            let depth = at.depth + 1;
            Turn::To(Pair { here, there, depth })
        }
        Next::Differs => Turn::Differs,
        Next::Nowhere => climb(first, first_homes, second, second_homes, at),
    }
}

// The attributes that count so many names below the tops: none of the tops themselves.
fn counted(keep: &Keep, depth: usize) -> Keep
    ensures { (r : Names) → length r ≡ depth → result ≡ counted keep.now r }
{
    if depth == 0 { Keep::none() } else { *keep }
}

/// Whether two parts are alike at each path that is not hidden. Of the tops no attributes count.
pub fn same_below(
    keep: &Keep,
    first: &[Slot],
    first_homes: &[Option<Home>],
    top: usize,
    second: &[Slot],
    second_homes: &[Option<Home>],
    other_top: usize,
) -> bool
    requires here { AreHomes (link (map cell_of first.now)) first_homes.now }
    requires there { AreHomes (link (map cell_of second.now)) second_homes.now }
    ensures yes { result ≡ true → SameBelow keep.now (map cell_of first.now) top (map cell_of second.now) other_top }
    ensures no { result ≡ false → IsArena (map cell_of first.now) → IsArena (map cell_of second.now) → (p : Names) → reach (link (map cell_of first.now)) 0 p ≡ Some top → DiffersBelow keep.now (map cell_of first.now) top (map cell_of second.now) other_top }
{
    let mut at = Pair {
        here: top,
        there: other_top,
        depth: 0,
    };
    for _ in 0..first.len() {
        let kept = counted(keep, at.depth);
        if !is_matched(&kept, first, at.here, second, at.there) {
            return false;
        }
        match advance(first, first_homes, second, second_homes, at) {
            Turn::To(next) => at = next,
            Turn::Differs => return false,
            Turn::Over => return true,
        }
    }
    // A walk meets no slot twice, so it is over before.
    false
}
