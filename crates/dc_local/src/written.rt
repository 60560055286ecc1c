//! A folder of the machine that is written to, without counting.
#![tactic(auto)]

ghost use Rattle.std.specs.Prelude.{◌≡◌, ◌⊎◌, None, IfOk, IfErr, IsTrue};
ghost use Rattle.dc_fs.specs.Looks.{fits_kind};

use crate::LocalError;
use crate::counts::one_more;
use crate::desk::{LocalDesk, LocalTemp};
use crate::errors::{unchanged, unopened, write_error};
use crate::folder::{Folder, SCRATCH, is_own, put};
use crate::kept::Kept;
use crate::reading::{PIECE, fill, write_front};
use dc_attrs::{Attrs, Seen};
use dc_fs::{DeskError, Mode, ReadError, Status, WriteError};
use dc_path::Path;
use std::alloc::Global;
use std::fs;
use std::fs::File;
use std::io::ErrorKind;
use std::rt::Files;

/// A folder that is written to.
#[derive(Drop)]
pub(crate) struct Written<'a, R: Files<File = File>> {
    rt: &'a R,
    pub(crate) folder: Folder<'a, R>,
    kept: Kept<'a, R>,
    // The text of the folder of temporaries, and whether it was made.
    scratch_place: String,
    has_scratch: bool,
    // The text of the place of a temporary, or of what is moved.
    other_place: String,
    // How many desks were opened.
    desks: u64,
}

// Removes what an earlier run left of temporaries.
fn clear_scratch<R: Files>(rt: &R, alloc: Global, scratch: &str) -> Result<(), ReadError> {
    match fs::symlink_metadata(rt, scratch) {
        Err(e) if e.kind() == ErrorKind::NotFound => return Ok(()),
        Err(_) => return Err(ReadError::Fault),
        Ok(_) => {}
    }
    match fs::remove_dir_all(&(rt, alloc), scratch) {
        Ok(()) => Ok(()),
        Err(e) if e.kind() == ErrorKind::OutOfMemory => Err(ReadError::Memory),
        Err(_) => Err(ReadError::Fault),
    }
}

// How a change is answered for which a place is not put into a text.
fn unplaced(error: DeskError) -> WriteError {
    match error {
        DeskError::Fault => WriteError::Fault,
        DeskError::Memory => WriteError::Memory,
    }
}

// How a change is answered that was made, of which the catalogue then learns.
fn noted(note: Result<(), WriteError>) -> Result<(), WriteError> {
    match note {
        Ok(()) => Ok(()),
        Err(_) => Err(WriteError::Fault),
    }
}

// Adds the bytes of a file at the end of another.
fn pour<R: Files<File = File>>(rt: &R, place: &str, into: &mut File) -> Result<(), WriteError> {
    let Ok(file) = fs::open(rt, place) else {
        return Err(WriteError::Fault);
    };
    let mut buffer = [0u8; PIECE];
    let mut at = 0u64;
    for _ in 0..u64::MAX {
        let count = match fill(&file, at, &mut buffer) {
            Ok(0) => return Ok(()),
            Ok(count) => count,
            Err(_) => return Err(WriteError::Fault),
        };
        if write_front(into, &buffer[..count]) < count {
            return Err(WriteError::Fault);
        }
        at = at.saturating_add(count as u64);
    }
    Err(WriteError::Fault)
}

impl<'a, R: Files<File = File>> Written<'a, R> {
    // Opens a folder to be written to. What an earlier run left of temporaries is removed.
    pub(crate) fn open_at(
        rt: &'a R,
        alloc: Global,
        folder: &str,
    ) -> Result<Written<'a, R>, LocalError> {
        let folder = match Folder::open_at(rt, alloc, folder) {
            Ok(folder) => folder,
            Err(error) => return Err(unopened(error)),
        };
        let Ok(scratch_place) = folder.own_place(alloc, SCRATCH) else {
            return Err(LocalError::Memory);
        };
        match clear_scratch(rt, alloc, scratch_place.as_str()) {
            Ok(()) => {}
            Err(error) => return Err(unopened(error)),
        }
        Ok(Written {
            rt,
            kept: Kept::open_at(rt, alloc, &folder)?,
            folder,
            scratch_place,
            has_scratch: false,
            other_place: String::new(alloc),
            desks: 0,
        })
    }

    // Makes the folder of temporaries.
    fn make_scratch(&mut self) -> Result<(), WriteError>
        ensures { IfErr result (λ e. e ≡ WriteError.Fault) }
    {
        if self.has_scratch {
            return Ok(());
        }
        match fs::create_dir(self.rt, self.scratch_place.as_str()) {
            Ok(()) => {
                self.has_scratch = true;
                Ok(())
            }
            Err(_) => Err(WriteError::Fault),
        }
    }

    // A desk that no other has the number of.
    pub(crate) fn new_desk(&mut self, alloc: Global) -> Result<LocalDesk<'a, R>, WriteError>
        ensures idle { IfOk result (λ desk. desk.current ≡ None) }
        ensures made { IfOk result (λ desk. desk.made ≡ 0) }
        ensures faults { IfOk result (λ desk. desk.faults ≡ 0) }
        ensures answers { IfErr result (λ e. (e ≡ WriteError.Fault) ⊎ (e ≡ WriteError.Memory)) }
    {
        self.make_scratch()?;
        let number = self.desks;
        self.desks = one_more(number);
        match LocalDesk::new(self.rt, alloc, self.scratch_place.as_str(), number) {
            Ok(desk) => Ok(desk),
            Err(_) => Err(WriteError::Memory),
        }
    }

    // Goes to the place of a path that may be changed.
    fn go(&mut self, path: &Path) -> Result<(), WriteError> {
        if is_own(path) {
            return Err(WriteError::Fault);
        }
        match self.folder.go(path) {
            Ok(()) => Ok(()),
            Err(error) => Err(unchanged(error)),
        }
    }

    // What stands at a path that may be changed, which must be there.
    fn find(&mut self, path: &Path) -> Result<Seen, WriteError> {
        if is_own(path) {
            return Err(WriteError::Fault);
        }
        match self.folder.find(path) {
            Ok(shown) => Ok(shown),
            Err(error) => Err(unchanged(error)),
        }
    }

    // Makes a directory.
    pub(crate) fn make_dir(&mut self, alloc: Global, path: &Path) -> Result<(), WriteError> {
        if path.len() == 0 {
            return Err(WriteError::Exists);
        }
        self.go(path)?;
        match fs::create_dir(self.rt, self.folder.place()) {
            Ok(()) => {
                let _ = self.folder.know_place();
                noted(self.kept.drop_lines(alloc, path))
            }
            Err(e) => Err(write_error(&e)),
        }
    }

    // Removes what stands at a path, with all under it.
    pub(crate) fn remove(&mut self, alloc: Global, path: &Path) -> Result<(), WriteError> {
        if path.len() == 0 {
            return Err(WriteError::Root);
        }
        let shown = self.find(path)?;
        self.folder.forget();
        let removed = match shown {
            Seen::Dir => fs::remove_dir_all(&(self.rt, alloc), self.folder.place()),
            _ => fs::remove_file(self.rt, self.folder.place()),
        };
        match removed {
            Ok(()) => noted(self.kept.drop_lines(alloc, path)),
            Err(_) => Err(WriteError::Fault),
        }
    }

    // Moves what stands at a path to another, with all under it.
    pub(crate) fn rename(
        &mut self,
        alloc: Global,
        from: &Path,
        to: &Path,
    ) -> Result<(), WriteError> {
        if from.len() == 0 || to.len() == 0 {
            return Err(WriteError::Root);
        }
        self.find(from)?;
        if put(&mut self.other_place, self.folder.place()).is_err() {
            return Err(WriteError::Memory);
        }
        match self.find(to) {
            Ok(_) => return Err(WriteError::Exists),
            Err(WriteError::Missing | WriteError::NotDir) => {}
            Err(error) => return Err(error),
        }
        if to.starts_with(from) {
            return Err(WriteError::IntoItself);
        }
        self.go(to)?;
        self.folder.forget();
        match fs::rename(self.rt, self.other_place.as_str(), self.folder.place()) {
            Ok(()) => noted(self.kept.move_lines(alloc, from, to)),
            Err(_) => Err(WriteError::Fault),
        }
    }

    // What stands at a path, with its length and attributes.
    pub(crate) fn status(&mut self, alloc: Global, path: &Path) -> Result<Status, ReadError>
        ensures fits { IfOk result (λ status. IsTrue (fits_kind status)) }
    {
        self.folder.status(alloc, path, self.kept.catalogue())
    }

    // Sets the attributes of what stands at a path.
    pub(crate) fn set_attrs(
        &mut self,
        alloc: Global,
        path: &Path,
        attrs: &Attrs,
    ) -> Result<(), WriteError> {
        let shown = self.find(path)?;
        self.kept.set(alloc, path, shown, attrs)
    }

    // Lands temporaries in the folder: one rename brings the whole file, or nothing.
    pub(crate) fn land(
        &mut self,
        alloc: Global,
        parts: &[LocalTemp],
        path: &Path,
        mode: Mode,
    ) -> Result<(), WriteError> {
        self.folder.let_go();
        self.go(path)?;
        match mode {
            Mode::Replace if self.kept.has_line(path) => self.replace(alloc, parts, path),
            Mode::Replace => self.move_parts(parts),
            Mode::Extend => self.extend(parts, path),
        }
    }

    // Lands temporaries where the path has a line, which is dropped first. It comes back where they do not land.
    fn replace(
        &mut self,
        alloc: Global,
        parts: &[LocalTemp],
        path: &Path,
    ) -> Result<(), WriteError> {
        match self.find(path) {
            Ok(Seen::Dir) => return Err(WriteError::IsDir),
            Ok(_) | Err(WriteError::Missing) => {}
            Err(error) => return Err(error),
        }
        let old = self.kept.take(alloc, path)?;
        match self.move_parts(parts) {
            Ok(()) => Ok(()),
            Err(error) => {
                if let Some(attrs) = old {
                    let _ = self.kept.put(alloc, path, attrs);
                }
                Err(error)
            }
        }
    }

    // Makes the buffer the text of a part's place.
    fn put_part(&mut self, part: &LocalTemp) -> Result<(), WriteError> {
        match part.put_place(self.scratch_place.as_str(), &mut self.other_place) {
            Ok(()) => Ok(()),
            Err(error) => Err(unplaced(error)),
        }
    }

    // Moves the first part, after the others were added to it.
    fn move_parts(&mut self, parts: &[LocalTemp]) -> Result<(), WriteError> {
        let [first, rest @ ..] = parts else {
            return Err(WriteError::Fault);
        };
        self.put_part(first)?;
        if !rest.is_empty() {
            let mut options = File::options();
            options.append(true);
            let Ok(file) = options.open(self.rt, self.other_place.as_str()) else {
                return Err(WriteError::Fault);
            };
            self.add_parts(file, rest)?;
            self.put_part(first)?;
        }
        self.move_other()
    }

    // Moves the temporary whose place is in the buffer to the place that was gone to.
    fn move_other(&self) -> Result<(), WriteError> {
        match fs::rename(self.rt, self.other_place.as_str(), self.folder.place()) {
            Ok(()) => Ok(()),
            Err(e) => Err(write_error(&e)),
        }
    }

    // Adds parts at the end of a temporary.
    fn add_parts(&mut self, mut file: File, parts: &[LocalTemp]) -> Result<(), WriteError> {
        for part in parts {
            self.put_part(part)?;
            pour(self.rt, self.other_place.as_str(), &mut file)?;
            let _ = fs::remove_file(self.rt, self.other_place.as_str());
        }
        Ok(())
    }

    // Makes a temporary of the file at the place and of parts after it, and moves it there.
    fn extend(&mut self, parts: &[LocalTemp], path: &Path) -> Result<(), WriteError> {
        match self.find(path)? {
            Seen::File { .. } => {}
            _ => return Err(WriteError::IsDir),
        }
        self.put_whole()?;
        let mut options = File::options();
        options.write(true).create(true).truncate(true);
        let Ok(mut file) = options.open(self.rt, self.other_place.as_str()) else {
            return Err(WriteError::Fault);
        };
        pour(self.rt, self.folder.place(), &mut file)?;
        self.add_parts(file, parts)?;
        self.put_whole()?;
        self.move_other()
    }

    // Makes the buffer the text of the place at which a file and its parts are put together.
    fn put_whole(&mut self) -> Result<(), WriteError> {
        if put(&mut self.other_place, self.scratch_place.as_str()).is_err() {
            return Err(WriteError::Memory);
        }
        match self.other_place.push_str("/whole") {
            Ok(()) => Ok(()),
            Err(_) => Err(WriteError::Memory),
        }
    }

    // Removes the folder of temporaries with the folders in it. That takes memory.
    pub(crate) fn sweep(&mut self) -> Result<(), WriteError>
        ensures { IfErr result (λ e. e ≡ WriteError.Fault) }
    {
        if !self.has_scratch {
            return Ok(());
        }
        match fs::remove_dir(self.rt, self.scratch_place.as_str()) {
            Ok(()) => {
                self.has_scratch = false;
                return Ok(());
            }
            Err(e) if e.kind() == ErrorKind::DirectoryNotEmpty => {}
            Err(_) => return Err(WriteError::Fault),
        }
        let alloc = *self.scratch_place.allocator();
        match fs::remove_dir_all(&(self.rt, alloc), self.scratch_place.as_str()) {
            Ok(()) => {
                self.has_scratch = false;
                Ok(())
            }
            Err(_) => Err(WriteError::Fault),
        }
    }
}
