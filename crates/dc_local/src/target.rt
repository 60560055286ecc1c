//! Folders that are copied to.
#![tactic(auto)]

ghost use Rattle.std.specs.Prelude.{◌≡◌, ◌≤◌, ◌++◌, ◌∷◌, [], None, true, false, length, map, IfOk, IfErr, IfSome, OnOk, OnErr, IsErrOf};
ghost use Rattle.std.specs.Option.{option_map, is_some};
ghost use Rattle.std.specs.List.{sum_by};
ghost use Rattle.dc_attrs.specs.Trees.{updated};
ghost use Rattle.dc_fs.specs.Answers.{WriteAnswers, refused_land};
ghost use Rattle.dc_fs.specs.Temporaries.{all_told, landed_by};
ghost use Rattle.dc_fs.specs.Causes.{HasCause, RisesByOne, steady_at};
ghost use Rattle.dc_fs.specs.Rest.{Lands, nothing_kept};

use crate::LocalError;
use crate::counts::{Counts, one_more};
use crate::desk::{LocalDesk, LocalTemp};
use crate::written::Written;
use dc_attrs::{Attrs, Seen};
use dc_fs::{Held, Landed, LookFault, Mode, ReadError, Status, Store, Target, WriteError};
use dc_path::{List, Name, Path};
use std::alloc::Global;
use std::fs::File;
use std::rt::Files;

/// A folder of the machine that is copied to. It tells nothing of content.
#[derive(Drop)]
pub struct LocalTarget<'a, R: Files<File = File>> {
    written: Written<'a, R>,
    landed: Vec<Landed>,
    scratch: u64,
    created: u64,
    desks_out: u64,
    desk_faults: u64,
    rename_faults: u64,
    counts: Counts,
}

impl<'a, R: Files<File = File>> LocalTarget<'a, R> {
    /// Opens a folder as a target. Temporaries that an earlier run left there are removed.
    ///
    /// # Errors
    ///
    /// - `NoFolder`, where no directory stands there;
    /// - `BadCatalogue`, with the number of the first line of the catalogue that is none, counted from 1;
    /// - `Fault`, where the machine fails, or what has the catalogue's name is no file;
    /// - `Memory`, which may come in the place of any answer.
    pub fn open_at(rt: &'a R, alloc: Global, folder: &str) -> Result<LocalTarget<'a, R>, LocalError>
        ensures untold { IfOk result (λ target. ⟦<LocalTarget<'a, R> as Store>⟧.tree target ≡ None) }
        ensures unfailed { IfOk result (λ target. ⟦<LocalTarget<'a, R> as Store>⟧.faults target ≡ 0) }
        ensures unlooked { IfOk result (λ target. ⟦<LocalTarget<'a, R> as Store>⟧.looks target ≡ 0) }
        ensures empty { IfOk result (λ target. ⟦<LocalTarget<'a, R> as Store>⟧.rest target ≡ nothing_kept) }
        ensures unsteady { IfOk result (λ target. ⟦<LocalTarget<'a, R> as Store>⟧.steady target ≡ false) }
    {
        Ok(LocalTarget {
            written: Written::open_at(rt, alloc, folder)?,
            landed: Vec::new(alloc),
            scratch: 0,
            created: 0,
            desks_out: 0,
            desk_faults: 0,
            rename_faults: 0,
            counts: Counts::new(),
        })
    }
}

// The bytes of temporaries, if their number is one of 64 bits.
fn total(parts: &[LocalTemp]) -> Option<u64>
    ensures { IfSome result (λ bytes. bytes ≡ sum_by ⟦<LocalTemp as Held>⟧.size parts.now) }
{
    let mut bytes = 0u64;
    for part in parts {
        let Some(more) = bytes.checked_add(part.bytes()) else {
            return None;
        };
        bytes = more;
    }
    Some(bytes)
}

// Adds an entry to the list of what has landed.
fn keep(
    alloc: Global,
    landed: &mut Vec<Landed>,
    path: &Path,
    mode: Mode,
    bytes: u64,
) -> Result<(), WriteError>
    ensures ok { OnOk result (landed.new.items ≡ landed.old.items ++ (record { path = path.now; mode = mode; bytes = bytes }) ∷ []) }
    ensures err { OnErr result (landed.new.items ≡ landed.old.items) }
{
    let path = path.copy(alloc)?;
    match landed.push(Landed { path, mode, bytes }) {
        Ok(()) => Ok(()),
        Err(_) => Err(WriteError::Memory),
    }
}

impl<'a, R: Files<File = File>> Store for LocalTarget<'a, R> {
    ghost use Rattle.std.specs.Prelude.{false, None};

    ghost tree = { λ _. None };

    ghost faults = { λ target. target.counts.faults };

    ghost steady = { λ _. false };

    ghost looks = { λ target. target.counts.looks };

    ghost rest = { λ target. record { landed = target.landed.items; scratch = target.scratch; created = target.created; desks_out = target.desks_out; desk_faults = target.desk_faults; rename_faults = target.rename_faults; fork_faults = 0 } };

    fn kind(&mut self, path: &Path) -> Result<Seen, LookFault> {
        let shown = self.written.folder.see(path);
        self.counts.see(shown)
    }

    fn status(&mut self, alloc: Global, path: &Path) -> Result<Status, ReadError> {
        let status = self.written.status(alloc, path);
        self.counts.read(status)
    }

    fn list(&mut self, alloc: Global, path: &Path) -> Result<List<Name>, ReadError> {
        let names = self.written.folder.names(alloc, path);
        self.counts.read(names)
    }

    fn read_at(
        &mut self,
        _alloc: Global,
        path: &Path,
        at: u64,
        into: &mut [u8],
    ) -> Result<usize, ReadError> {
        let count = self.written.folder.bytes_at(path, at, into);
        self.counts.read(count)
    }

    fn checksum(
        &mut self,
        _alloc: Global,
        path: &Path,
        length: u64,
    ) -> Result<[u8; 16], ReadError> {
        let digest = self.written.folder.checksum(path, length);
        self.counts.read(digest)
    }
}

impl<'a, R: Files<File = File> + Sync> Target for LocalTarget<'a, R> {
    type Desk = LocalDesk<'a, R>;

    fn open_desk(&mut self, alloc: Global) -> Result<LocalDesk<'a, R>, WriteError> {
        let Some(out) = self.desks_out.checked_add(1) else {
            return self.counts.change(Err(WriteError::Memory));
        };
        let opened = self.written.new_desk(alloc);
        if opened.is_ok() {
            self.desks_out = out;
        }
        self.counts.change(opened)
    }

    fn rejoin_desk(&mut self, desk: LocalDesk<'a, R>) {
        self.scratch = self.scratch.saturating_add(desk.made());
        self.created = self.created.saturating_add(desk.made());
        self.desks_out = self.desks_out.saturating_sub(1);
        self.desk_faults = self.desk_faults.saturating_add(desk.faults());
    }

    fn make_dir(&mut self, alloc: Global, path: &Path) -> Result<(), WriteError> {
        let made = self.written.make_dir(alloc, path);
        self.counts.change(made)
    }

    fn remove(&mut self, alloc: Global, path: &Path) -> Result<(), WriteError> {
        let removed = self.written.remove(alloc, path);
        self.counts.change(removed)
    }

    fn rename(&mut self, alloc: Global, from: &Path, to: &Path) -> Result<(), WriteError> {
        let moved = self.written.rename(alloc, from, to);
        if let Err(WriteError::Fault) = moved {
            self.rename_faults = one_more(self.rename_faults);
        }
        self.counts.change(moved)
    }

    fn set_attrs(&mut self, alloc: Global, path: &Path, attrs: &Attrs) -> Result<(), WriteError> {
        let set = self.written.set_attrs(alloc, path, attrs);
        self.counts.change(set)
    }

    #[tactic(auto, using(crate::proofs::Untold::untold))]
    fn land(
        &mut self,
        alloc: Global,
        parts: List<LocalTemp>,
        path: &Path,
        mode: Mode,
    ) -> Result<(), WriteError>
        requires some { 1 ≤ length parts }
        requires counted { length parts ≤ (⟦<LocalTarget<'a, R> as Store>⟧.rest self.old).scratch }
        ensures tree { OnOk result (IfSome (all_told (map ⟦<LocalTemp as Held>⟧.content parts)) (λ bytes. ⟦<LocalTarget<'a, R> as Store>⟧.tree self.new ≡ option_map (λ t. updated t path.now (landed_by mode bytes)) (⟦<LocalTarget<'a, R> as Store>⟧.tree self.old))) }
        ensures tells { is_some (⟦<LocalTarget<'a, R> as Store>⟧.tree self.new) ≡ is_some (⟦<LocalTarget<'a, R> as Store>⟧.tree self.old) }
        ensures rest { OnOk result (Lands (map ⟦<LocalTemp as Held>⟧.content parts) (sum_by ⟦<LocalTemp as Held>⟧.size parts) path.now mode (⟦<LocalTarget<'a, R> as Store>⟧.rest self.old) (⟦<LocalTarget<'a, R> as Store>⟧.rest self.new)) }
        ensures kept_tree { OnErr result (⟦<LocalTarget<'a, R> as Store>⟧.tree self.new ≡ ⟦<LocalTarget<'a, R> as Store>⟧.tree self.old) }
        ensures kept_rest { OnErr result (⟦<LocalTarget<'a, R> as Store>⟧.rest self.new ≡ ⟦<LocalTarget<'a, R> as Store>⟧.rest self.old) }
        ensures looks { RisesByOne (⟦<LocalTarget<'a, R> as Store>⟧.looks self.old) (⟦<LocalTarget<'a, R> as Store>⟧.looks self.new) }
        ensures cause { HasCause (⟦<LocalTarget<'a, R> as Store>⟧.faults self.old) (⟦<LocalTarget<'a, R> as Store>⟧.faults self.new) result WriteError.Fault }
        ensures calm { steady_at (⟦<LocalTarget<'a, R> as Store>⟧.steady self.new) (⟦<LocalTarget<'a, R> as Store>⟧.faults self.new) ≡ steady_at (⟦<LocalTarget<'a, R> as Store>⟧.steady self.old) (⟦<LocalTarget<'a, R> as Store>⟧.faults self.old) }
        ensures never { ⟦<LocalTarget<'a, R> as Store>⟧.steady self.old ≡ true → IsErrOf result WriteError.Fault → ⊥ }
        ensures answers { IfSome (⟦<LocalTarget<'a, R> as Store>⟧.tree self.old) (λ t. WriteAnswers (refused_land mode t path.now) result) }
    {
        let count = parts.len() as u64;
        let Some(bytes) = total(parts.as_slice()) else {
            return self.counts.change(Err(WriteError::Fault));
        };
        if let Err(lack) = keep(alloc, &mut self.landed, path, mode, bytes) {
            return self.counts.change(Err(lack));
        }
        let moved = self.written.land(alloc, parts.as_slice(), path, mode);
        match self.counts.change(moved) {
            Ok(()) => {
                self.scratch -= count;
                Ok(())
            }
            Err(error) => {
                self.landed.pop();
                Err(error)
            }
        }
    }

    fn sweep(&mut self) -> Result<(), WriteError> {
        let swept = self.written.sweep();
        if swept.is_ok() {
            self.scratch = 0;
        }
        self.counts.change(swept)
    }
}
