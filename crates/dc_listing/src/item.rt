//! What is listed, and why there is no listing.
#![tactic(auto)]

ghost use Rattle.std.specs.Prelude.{◌≡◌, IsTrue};
ghost use Rattle.dc_listing.specs.Entries.{Entry, entry_with, fits_entry};
ghost use Rattle.dc_fs.specs.Looks.{fits_kind};

use dc_attrs::Attrs;
use dc_fs::Status;
use dc_path::{Name, OutOfMemory, Path};
use std::marker::Model;

/// The most items of a listing.
pub const MAX_ITEMS: usize = 1_048_576;

/// A directory or a file that is listed. Its attributes fit its kind.
#[derive(Drop)]
pub struct Item {
    rel: Path,
    from: Path,
    dir: bool,
    length: u64,
    attrs: Attrs,
}

impl Model for Item {
    ghost use Rattle.std.specs.Prelude.{IsTrue};
    ghost use Rattle.dc_listing.specs.Entries.{Entry, fits_entry};

    ghost Value = { Entry };

    ghost view = { λ i. record { rel = i.rel; from = i.from; dir = i.dir; length = i.length; attrs = i.attrs } };

    ghost invariant = { λ i. IsTrue (fits_entry (record { rel = i.rel; from = i.from; dir = i.dir; length = i.length; attrs = i.attrs })) };
}

impl Item {
    // What a look showed at a path of the source, listed.
    pub(crate) fn new(rel: Path, from: Path, status: Status) -> Item
        requires { IsTrue (fits_kind status) }
        ensures { result ≡ entry_with rel from status }
    {
        let Status { dir, length, attrs } = status;
        Item {
            rel,
            from,
            dir,
            length,
            attrs,
        }
    }

    /// The path under the target.
    pub fn rel(&self) -> &Path
        ensures { result.now ≡ self.now.rel }
    {
        &self.rel
    }

    /// The path in the source.
    pub fn from(&self) -> &Path
        ensures { result.now ≡ self.now.from }
    {
        &self.from
    }

    /// Whether it is a directory.
    pub fn is_dir(&self) -> bool
        ensures { result ≡ self.now.dir }
    {
        self.dir
    }

    /// The bytes of a file, and 0 for a directory.
    pub fn length(&self) -> u64
        ensures { result ≡ self.now.length }
    {
        self.length
    }

    /// The attributes, which fit the kind.
    pub fn attrs(&self) -> &Attrs
        ensures value { result.now ≡ self.now.attrs }
        ensures fits { IsTrue (fits_entry self.now) }
    {
        &self.attrs
    }
}

/// A source, as it is walked.
#[derive(Drop)]
pub struct Root {
    /// The path in the source.
    pub source: Path,
    /// The path under the target at which it is put: the root path where it is put at the target itself.
    pub prefix: Path,
}

/// Why there is no listing.
#[derive(Drop)]
pub enum ListError {
    /// The source is not there; of a snapshot, it is no directory.
    NoSource {
        path: Path,
    },
    /// Two items have one path under the target: their paths in the source, in order of the walk.
    Duplicate {
        rel: Path,
        first: Path,
        second: Path,
    },
    /// There are more than `MAX_ITEMS` items.
    TooMany,
    /// A path passes the limits: the shortest part of it that does, by its parent and its last name.
    TooLong {
        parent: Path,
        name: Name,
    },
    /// The store denied what it showed before.
    Changed {
        path: Path,
    },
    /// The store failed.
    Fault,
    /// Memory ran out.
    Memory,
}

impl From<OutOfMemory> for ListError {
    ghost use Rattle.std.specs.Prelude.{◌≡◌};
    ghost use Rattle.dc_listing.specs.declared.item.ListError.TheVariants.{Memory};

    ghost from_gives = { λ _ e. e ≡ Memory };

    fn from(_lack: OutOfMemory) -> ListError {
        ListError::Memory
    }
}
