//! What becomes of an item, and of all items of a copy.
#![tactic(auto)]

ghost use Rattle.std.specs.Prelude.{◌≡◌, ◌<◌, ◌^◌, true, false, IsTrue, map, length};
ghost use Rattle.std.specs.List.{list_all};
ghost use Rattle.std.specs.Option.{option_copied};
ghost use Rattle.dc_path.specs.Order.{is_ascending};
ghost use Rattle.dc_decide.specs.Plans.{IsDecision, IsPlan, item_rel, is_folder, extends_within, fits_before, left_out, is_placed, clashing, left_out_at};

use crate::Action;
use dc_attrs::Attrs;
use dc_listing::Item;
use dc_path::{List, Path};
use std::marker::Model;

/// An item with what becomes of it at the target.
///
/// The type keeps that a `Folder` is a directory and every other action a file's, that an `Extend` begins before the end of
/// the item, and that the attributes of before, where they are given, fit the item's kind.
#[derive(Drop)]
pub struct Planned {
    item: Item,
    action: Action,
    before: Option<Attrs>,
    out: bool,
}

impl Model for Planned {
    ghost use Rattle.dc_decide.specs.Plans.{Decision, IsDecision};

    ghost Value = { Decision };

    ghost view = { λ p. record { item = p.item; action = p.action; before = p.before; out = p.out } };

    ghost invariant = { λ p. IsDecision (record { item = p.item; action = p.action; before = p.before; out = p.out }) };
}

impl Planned {
    /// An item with its action, over what had these attributes, if anything stood there. The copy goes on with it.
    pub fn new(item: Item, action: Action, before: Option<Attrs>) -> Planned
        requires kind { is_folder action ≡ item.dir }
        requires extends { IsTrue (extends_within action item.length) }
        requires fitting { IsTrue (fits_before item.dir before) }
        ensures { result ≡ record { item = item; action = action; before = before; out = false } }
    {
        Planned {
            item,
            action,
            before,
            out: false,
        }
    }

    /// An item that the copy goes on without, as where it clashes with what stands at its place.
    pub fn without(item: Item) -> Planned
        ensures { result ≡ clashing item }
    {
        let action = if item.is_dir() {
            Action::Folder
        } else {
            Action::Skip
        };
        Planned {
            item,
            action,
            before: None,
            out: true,
        }
    }

    /// The item.
    pub fn item(&self) -> &Item
        ensures { result.now ≡ self.now.item }
    {
        &self.item
    }

    /// What becomes of it, which fits its kind and its length.
    pub fn action(&self) -> Action
        ensures value { result ≡ self.now.action }
        ensures fits { IsDecision self.now }
    {
        self.action
    }

    /// The attributes of what the target has at its place; none where nothing stands there. They fit the item's kind.
    pub fn before(&self) -> Option<&Attrs>
        ensures value { option_copied result ≡ self.now.before }
        ensures fits { IsTrue (fits_before self.now.item.dir self.now.before) }
    {
        self.before.as_ref()
    }

    /// Whether the copy goes on without it.
    pub fn is_out(&self) -> bool
        ensures { result ≡ self.now.out }
    {
        self.out
    }

    /// Lets the copy go on without the item.
    pub fn leave_out(&mut self)
        ensures { self.new ≡ left_out self.old }
    {
        self.out = true;
    }
}

/// What becomes of all items of a copy, under one path.
///
/// The type keeps that the items are in path order, fewer than 2^32, and that the place of each under the base is within the
/// limits of a path.
#[derive(Drop)]
pub struct Plan {
    base: Path,
    items: List<Planned>,
}

impl Model for Plan {
    ghost use Rattle.dc_decide.specs.Plans.{Decisions, IsPlan};

    ghost Value = { Decisions };

    ghost view = { λ p. record { base = p.base; items = p.items } };

    ghost invariant = { λ p. IsPlan (record { base = p.base; items = p.items }) };
}

impl Plan {
    /// The items under a base. It takes no memory.
    pub fn new(base: Path, items: List<Planned>) -> Plan
        requires ascending { is_ascending (map item_rel items) ≡ true }
        requires few { length items < 2 ^ 32 }
        requires within { list_all (is_placed base) items ≡ true }
        ensures { result ≡ record { base = base; items = items } }
    {
        Plan { base, items }
    }

    /// The path under which the items go.
    pub fn base(&self) -> &Path
        ensures { result.now ≡ self.now.base }
    {
        &self.base
    }

    /// The items in path order.
    pub fn items(&self) -> &[Planned]
        ensures value { result.now ≡ self.now.items }
        ensures plan { IsPlan self.now }
    {
        self.items.as_slice()
    }

    /// Lets the copy go on without the item at a place, counted from 0.
    pub fn leave_out(&mut self, place: usize)
        requires { place < length self.old.items }
        ensures base { self.new.base ≡ self.old.base }
        ensures items { self.new.items ≡ left_out_at place self.old.items }
    {
        let items = self.items.as_mut_slice();
        items[place].leave_out();
    }
}
