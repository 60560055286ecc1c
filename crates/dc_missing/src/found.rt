//! What a walk of the target has found so far.
#![tactic(auto)]

ghost use Rattle.std.specs.Prelude.{◌≡◌, ◌+◌, ◌≤◌, [], ◌∷◌, ◌++◌, length, take, OnOk, OnErr, IfErr};
ghost use Rattle.dc_missing.specs.Limits.{max_paths};

use crate::DeleteError;
use dc_listing::MAX_ITEMS;
use dc_path::{List, Path};
use std::alloc::Global;

/// The most paths of the target that a walk meets: as many as a listing may have items.
pub const MAX_PATHS: usize = MAX_ITEMS;

/// How many paths a walk has met, and which it has found to go.
#[derive(Drop)]
pub(crate) struct Found {
    /// The paths that go, none under another.
    pub gone: Vec<Path>,
    /// How many paths were met.
    pub met: usize,
    ghost few: { met ≤ max_paths },
}

impl Found {
    ghost use Rattle.dc_missing.specs.Finding.{IsCounted, Closes};

    /// Nothing yet.
    pub fn new(alloc: Global) -> Found
        ensures met { result.met ≡ 0 }
        ensures gone { result.gone.items ≡ [] }
    {
        Found {
            gone: Vec::new(alloc),
            met: 0,
        }
    }

    /// The paths that go.
    pub fn into_list(self) -> List<Path>
        ensures { result ≡ self.gone.items }
    {
        let Found { gone, met: _ } = self;
        List::of(gone)
    }

    /// How many paths go.
    pub fn mark(&self) -> usize
        ensures { result ≡ length self.now.gone.items }
    {
        self.gone.len()
    }

    /// Counts one path more.
    pub fn count(&mut self) -> Result<(), DeleteError>
        ensures ok { OnOk result (IsCounted self.old self.new) }
        ensures err { IfErr result (λ e. (e ≡ DeleteError.TooMany) × (self.new.met ≡ self.old.met) × (self.old.met ≡ max_paths)) }
    {
        if self.met >= MAX_PATHS {
            return Err(DeleteError::TooMany);
        }
        self.met += 1;
        Ok(())
    }

    /// Ends with a path: it goes, in the place of all that was found under it, unless it is kept.
    pub fn close(&mut self, mark: usize, place: Path, kept: bool) -> Result<(), DeleteError>
        ensures met { self.new.met ≡ self.old.met }
        ensures ok { OnOk result (Closes mark place kept self.old.gone.items self.new.gone.items) }
        ensures err { IfErr result (λ e. e ≡ DeleteError.Memory) }
    {
        if kept {
            return Ok(());
        }
        self.gone.truncate(mark);
        match self.gone.push(place) {
            Ok(()) => Ok(()),
            Err(_) => Err(DeleteError::Memory),
        }
    }
}
