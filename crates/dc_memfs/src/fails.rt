//! Which calls on an object in memory are to fail.
#![tactic(auto)]

ghost use Rattle.std.specs.Prelude.{◌≡◌, [], IfOk};

use dc_path::{List, OutOfMemory};
use std::alloc::Global;
use std::marker::Model;

/// A kind of call. `Source::fork`, `Source::rejoin` and `Target::rejoin_desk` have none: they have no fault, and are not
/// counted.
#[derive(Clone, Copy, Debug, PartialEq, Eq)]
pub enum Which {
    /// Each call, whatever its kind.
    Any,
    /// `Store::kind`.
    Kind,
    /// `Store::status`.
    Status,
    /// `Store::list`.
    List,
    /// `Store::read_at`.
    Read,
    /// `Store::checksum`.
    Checksum,
    /// `Target::open_desk`.
    OpenDesk,
    /// `Target::make_dir`.
    MakeDir,
    /// `Target::remove`.
    Remove,
    /// `Target::rename`.
    Rename,
    /// `Target::set_attrs`.
    SetAttrs,
    /// `Target::land`.
    Land,
    /// `Target::sweep`.
    Sweep,
    /// `Desk::create`.
    Create,
    /// `Desk::append`.
    Append,
    /// `Desk::digest`.
    Digest,
    /// `Desk::seal`.
    Seal,
}

/// A call that is to fail: the `nth` of its kind on one object. It fails before its refusals are looked at.
#[derive(Clone, Copy, Debug, PartialEq, Eq)]
pub struct Fail {
    /// The kind of the call.
    pub which: Which,
    /// Which call of that kind, counted from 1; 0 names none.
    pub nth: u64,
    /// Whether it makes its change before it fails, where the tree allows it: so do `Target::make_dir`, `Target::remove`,
    /// `Target::rename` and `Target::set_attrs`. Every other call fails without a change.
    pub done: bool,
    /// Whether every later call on the object fails too, without its change.
    pub then_all: bool,
}

/// The calls on one object that are to fail, seen as their list. The first entry that names a call decides on it.
#[derive(Drop)]
pub struct Fails {
    list: List<Fail>,
}

impl Model for Fails {
    ghost use Rattle.std.specs.Prelude.{List};
    ghost use Rattle.dc_memfs.specs.declared.fails.Fail.{Fail};

    ghost Value = { List Fail };

    ghost view = { λ f. f.list };
}

impl Fails {
    /// The calls that the entries of a list name fail. It takes no memory.
    pub fn new(_alloc: Global, list: List<Fail>) -> Fails
        ensures { result ≡ list }
    {
        Fails { list }
    }

    /// No call fails. It takes no memory.
    pub fn none(alloc: Global) -> Fails
        ensures { result ≡ [] }
    {
        Fails {
            list: List::new(alloc),
        }
    }

    // The entries, in order.
    pub(crate) fn as_slice(&self) -> &[Fail]
        ensures { result.now ≡ self.now }
    {
        self.list.as_slice()
    }

    // The same calls.
    pub(crate) fn copy(&self, alloc: Global) -> Result<Fails, OutOfMemory>
        ensures { IfOk result (λ fails. fails ≡ self.now) }
    {
        let mut list = Vec::new(alloc);
        list.extend_from_slice(self.list.as_slice())?;
        Ok(Fails {
            list: List::of(list),
        })
    }
}
