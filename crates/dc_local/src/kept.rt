//! The catalogue of a folder that is written to, with its file.
#![tactic(auto)]

use crate::LocalError;
use crate::catalogue::{Catalogue, attrs_line, drop_line, move_line};
use crate::errors::unchanged;
use crate::folder::{CATALOGUE, Folder};
use crate::reading::write_front;
use dc_attrs::{Attrs, Keep, LineError, Seen, same_kept};
use dc_fs::WriteError;
use dc_path::Path;
use std::alloc::Global;
use std::fs;
use std::fs::File;
use std::io::ErrorKind;
use std::rt::Files;

/// The attributes of what stands in a folder. Each change of them adds a line to a file.
#[derive(Drop)]
pub(crate) struct Kept<'a, R: Files<File = File>> {
    rt: &'a R,
    catalogue: Catalogue,
    // The text of the place of the file, and the file once a line was added.
    place: String,
    file: Option<File>,
    // The bytes of the file's whole lines, and whether other bytes stand after them.
    length: u64,
    is_broken: bool,
}

// The bytes of a catalogue's file; none where there is no file. What is no file is never opened.
fn read_lines<R: Files<File = File>>(
    rt: &R,
    alloc: Global,
    place: &str,
) -> Result<Vec<u8>, LocalError> {
    match fs::symlink_metadata(rt, place) {
        Ok(found) if found.is_file() => {}
        Ok(_) => return Err(LocalError::Fault),
        Err(e) if e.kind() == ErrorKind::NotFound => return Ok(Vec::new(alloc)),
        Err(_) => return Err(LocalError::Fault),
    }
    match fs::read(&(rt, alloc), place) {
        Ok(lines) => Ok(lines),
        Err(e) if e.kind() == ErrorKind::OutOfMemory => Err(LocalError::Memory),
        Err(_) => Err(LocalError::Fault),
    }
}

// The catalogue of a folder that is only read.
pub(crate) fn read_catalogue<R: Files<File = File>>(
    rt: &R,
    alloc: Global,
    folder: &Folder<'_, R>,
) -> Result<Catalogue, LocalError> {
    let Ok(place) = folder.own_place(alloc, CATALOGUE) else {
        return Err(LocalError::Memory);
    };
    let lines = read_lines(rt, alloc, place.as_str())?;
    Catalogue::read(alloc, lines.as_slice())
}

// How a change is answered for which no line is made.
fn unmade(error: LineError) -> WriteError {
    match error {
        LineError::Bad => WriteError::Fault,
        LineError::Memory => WriteError::Memory,
    }
}

// Whether two attributes are the same.
fn are_same(one: &Attrs, other: &Attrs) -> bool {
    match Keep::read("rbugpaxt") {
        Ok(all) => same_kept(&all, one, other),
        Err(_) => false,
    }
}

impl<'a, R: Files<File = File>> Kept<'a, R> {
    // Reads the catalogue of a folder.
    pub(crate) fn open_at(
        rt: &'a R,
        alloc: Global,
        folder: &Folder<'a, R>,
    ) -> Result<Kept<'a, R>, LocalError> {
        let Ok(place) = folder.own_place(alloc, CATALOGUE) else {
            return Err(LocalError::Memory);
        };
        let lines = read_lines(rt, alloc, place.as_str())?;
        Ok(Kept {
            rt,
            catalogue: Catalogue::read(alloc, lines.as_slice())?,
            place,
            file: None,
            length: lines.len() as u64,
            is_broken: false,
        })
    }

    // The lines as they are now.
    pub(crate) fn catalogue(&self) -> &Catalogue {
        &self.catalogue
    }

    // Whether a path has a line.
    pub(crate) fn has_line(&self, path: &Path) -> bool {
        self.catalogue.attrs(path).is_some()
    }

    // Opens the file, to add lines at its end.
    fn open_file(&mut self) -> Result<(), WriteError> {
        if self.file.is_some() {
            return Ok(());
        }
        let mut options = File::options();
        options.append(true).create(true);
        match options.open(self.rt, self.place.as_str()) {
            Ok(file) => {
                self.file = Some(file);
                Ok(())
            }
            Err(_) => Err(WriteError::Fault),
        }
    }

    // Adds a line, with its line feed, at the end of the file. What was written of one that fails is cut off.
    fn add(&mut self, line: &str) -> Result<(), WriteError> {
        if self.is_broken {
            return Err(WriteError::Fault);
        }
        self.open_file()?;
        let Some(file) = &mut self.file else {
            return Err(WriteError::Fault);
        };
        if write_front(file, line.as_bytes()) < line.len() {
            self.is_broken = file.set_len(self.length).is_err();
            return Err(WriteError::Fault);
        }
        self.length = self.length.saturating_add(line.len() as u64);
        Ok(())
    }

    // Gives what stands at a path these attributes. No line is added where it has them.
    pub(crate) fn set(
        &mut self,
        alloc: Global,
        path: &Path,
        shown: Seen,
        attrs: &Attrs,
    ) -> Result<(), WriteError> {
        let status = match self.catalogue.status(alloc, path, shown) {
            Ok(status) => status,
            Err(error) => return Err(unchanged(error)),
        };
        if are_same(&status.attrs, attrs) {
            return Ok(());
        }
        self.put(alloc, path, attrs.copy(alloc)?)
    }

    // Adds the line of a path and its attributes.
    pub(crate) fn put(
        &mut self,
        alloc: Global,
        path: &Path,
        attrs: Attrs,
    ) -> Result<(), WriteError> {
        let key = path.copy(alloc)?;
        match attrs_line(alloc, path, &attrs) {
            Ok(line) => self.add(line.as_str())?,
            Err(error) => return Err(unmade(error)),
        }
        match self.catalogue.put(key, attrs) {
            Ok(()) => Ok(()),
            Err(_) => Err(WriteError::Fault),
        }
    }

    // Drops the lines of a path and of all under it. No line is added where there are none.
    pub(crate) fn drop_lines(&mut self, alloc: Global, path: &Path) -> Result<(), WriteError> {
        if !self.catalogue.has_under(alloc, path)? {
            return Ok(());
        }
        match drop_line(alloc, path) {
            Ok(line) => self.add(line.as_str())?,
            Err(error) => return Err(unmade(error)),
        }
        match self.catalogue.drop_under(alloc, path) {
            Ok(()) => Ok(()),
            Err(_) => Err(WriteError::Fault),
        }
    }

    // Drops the line of a path, if it has one, and answers its attributes.
    pub(crate) fn take(&mut self, alloc: Global, path: &Path) -> Result<Option<Attrs>, WriteError> {
        let old = match self.catalogue.attrs(path) {
            Some(attrs) => attrs.copy(alloc)?,
            None => return Ok(None),
        };
        self.drop_lines(alloc, path)?;
        Ok(Some(old))
    }

    // Makes the lines of a path and of all under it those of another. No line is added where there are none.
    pub(crate) fn move_lines(
        &mut self,
        alloc: Global,
        from: &Path,
        to: &Path,
    ) -> Result<(), WriteError> {
        if !self.catalogue.has_under(alloc, from)? && !self.catalogue.has_under(alloc, to)? {
            return Ok(());
        }
        match move_line(alloc, from, to) {
            Ok(line) => self.add(line.as_str())?,
            Err(error) => return Err(unmade(error)),
        }
        match self.catalogue.move_under(alloc, from, to) {
            Ok(()) => Ok(()),
            Err(_) => Err(WriteError::Fault),
        }
    }
}
