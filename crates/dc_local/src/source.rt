//! Folders that are copied from.
#![tactic(auto)]

ghost use Rattle.std.specs.Prelude.{◌≡◌, None, false, IfOk};
ghost use Rattle.dc_fs.specs.Rest.{nothing_kept};

use crate::LocalError;
use crate::catalogue::Catalogue;
use crate::counts::Counts;
use crate::errors::unopened;
use crate::folder::Folder;
use crate::kept::read_catalogue;
use dc_attrs::Seen;
use dc_fs::{LookFault, ReadError, Source, Status, Store};
use dc_path::{List, Name, OutOfMemory, Path};
use std::alloc::Global;
use std::fs::File;
use std::rt::Files;
use std::sync::Arc;

/// A folder of the machine that is copied from. It tells nothing of content.
#[derive(Drop)]
pub struct LocalSource<'a, R: Files<File = File>> {
    folder: Folder<'a, R>,
    // Shared with all forks.
    catalogue: Arc<Catalogue>,
    counts: Counts,
    fork_faults: u64,
}

impl<'a, R: Files<File = File>> LocalSource<'a, R> {
    /// Opens a folder as a source.
    ///
    /// # Errors
    ///
    /// - `NoFolder`, where no directory stands there;
    /// - `BadCatalogue`, with the number of the first line of the catalogue that is none, counted from 1;
    /// - `Fault`, where the machine fails, or what has the catalogue's name is no file;
    /// - `Memory`, which may come in the place of any answer.
    pub fn open_at(rt: &'a R, alloc: Global, folder: &str) -> Result<LocalSource<'a, R>, LocalError>
        ensures untold { IfOk result (λ source. ⟦<LocalSource<'a, R> as Store>⟧.tree source ≡ None) }
        ensures unfailed { IfOk result (λ source. ⟦<LocalSource<'a, R> as Store>⟧.faults source ≡ 0) }
        ensures unlooked { IfOk result (λ source. ⟦<LocalSource<'a, R> as Store>⟧.looks source ≡ 0) }
        ensures empty { IfOk result (λ source. ⟦<LocalSource<'a, R> as Store>⟧.rest source ≡ nothing_kept) }
        ensures unsteady { IfOk result (λ source. ⟦<LocalSource<'a, R> as Store>⟧.steady source ≡ false) }
    {
        let folder = match Folder::open_at(rt, alloc, folder) {
            Ok(folder) => folder,
            Err(error) => return Err(unopened(error)),
        };
        let catalogue = read_catalogue(rt, alloc, &folder)?;
        let Ok(catalogue) = Arc::new(alloc, catalogue) else {
            return Err(LocalError::Memory);
        };
        Ok(LocalSource {
            folder,
            catalogue,
            counts: Counts::new(),
            fork_faults: 0,
        })
    }

    // A source of the same folder, on which nothing was done yet.
    fn another(&self, alloc: Global) -> Result<LocalSource<'a, R>, OutOfMemory>
        ensures looks { IfOk result (λ another. another.counts.looks ≡ 0) }
        ensures faults { IfOk result (λ another. another.counts.faults ≡ 0) }
        ensures forks { IfOk result (λ another. another.fork_faults ≡ 0) }
    {
        Ok(LocalSource {
            folder: self.folder.another(alloc)?,
            catalogue: Arc::try_clone(&self.catalogue)?,
            counts: Counts::new(),
            fork_faults: 0,
        })
    }
}

impl<'a, R: Files<File = File>> Store for LocalSource<'a, R> {
    ghost use Rattle.std.specs.Prelude.{false, None};
    ghost use Rattle.dc_fs.specs.Rest.{nothing_kept};

    ghost tree = { λ _. None };

    ghost faults = { λ source. source.counts.faults };

    ghost steady = { λ _. false };

    ghost looks = { λ source. source.counts.looks };

    ghost rest = { λ source. record nothing_kept { fork_faults = source.fork_faults } };

    fn kind(&mut self, path: &Path) -> Result<Seen, LookFault> {
        let shown = self.folder.see(path);
        self.counts.see(shown)
    }

    fn status(&mut self, alloc: Global, path: &Path) -> Result<Status, ReadError> {
        let status = self.folder.status(alloc, path, &self.catalogue);
        self.counts.read(status)
    }

    fn list(&mut self, alloc: Global, path: &Path) -> Result<List<Name>, ReadError> {
        let names = self.folder.names(alloc, path);
        self.counts.read(names)
    }

    fn read_at(
        &mut self,
        _alloc: Global,
        path: &Path,
        at: u64,
        into: &mut [u8],
    ) -> Result<usize, ReadError> {
        let count = self.folder.bytes_at(path, at, into);
        self.counts.read(count)
    }

    fn checksum(
        &mut self,
        _alloc: Global,
        path: &Path,
        length: u64,
    ) -> Result<[u8; 16], ReadError> {
        let digest = self.folder.checksum(path, length);
        self.counts.read(digest)
    }
}

impl<'a, R: Files<File = File> + Sync> Source for LocalSource<'a, R> {
    fn fork(&self, alloc: Global) -> Result<LocalSource<'a, R>, OutOfMemory> {
        self.another(alloc)
    }

    fn rejoin(&mut self, fork: LocalSource<'a, R>) {
        let more = self.fork_faults.saturating_add(fork.counts.faults);
        self.fork_faults = more.saturating_add(fork.fork_faults);
    }
}
