//! The attributes of what stands in a folder, as the lines of its catalogue give them.
#![tactic(auto)]

ghost use Rattle.std.specs.Prelude.{◌≡◌, true, IfOk, IsTrue};
ghost use Rattle.dc_attrs.specs.Attributes.{fits_file, fits_dir};
ghost use Rattle.dc_fs.specs.Looks.{fits_kind};

use crate::LocalError;
use dc_attrs::{Attrs, LineError, Seen};
use dc_fs::{ReadError, Status};
use dc_path::{OutOfMemory, Path, PathError, first_line};
use std::alloc::Global;
use std::collections::BTreeMap;
use std::ops::Bound;
use std::str;

/// The line that wins at each path that has one.
#[derive(Drop)]
pub struct Catalogue {
    lines: BTreeMap<Path, Attrs>,
}

// The path that a field spells, in the spelling of attribute lines.
fn read_spelled(alloc: Global, field: &str) -> Result<Path, LineError> {
    let line = format!(in alloc; "=\t{field}\t0\t0\t\t\t0000\t\t\t0")?;
    let (path, _attrs) = Attrs::read_line(alloc, line.as_str())?;
    Ok(path)
}

// Adds a tab and a path, in the spelling of attribute lines.
fn write_spelled(alloc: Global, path: &Path, line: &mut String) -> Result<(), LineError> {
    let spelled = Attrs::default_dir(alloc).write_line(alloc, path)?;
    let Some(fields) = spelled.as_str().strip_prefix("=\t") else {
        return Err(LineError::Bad);
    };
    let Some((field, _rest)) = fields.split_once('\t') else {
        return Err(LineError::Bad);
    };
    line.push_str("\t")?;
    line.push_str(field)?;
    Ok(())
}

// The line, with its line feed, by which a path has these attributes.
pub(crate) fn attrs_line(alloc: Global, path: &Path, attrs: &Attrs) -> Result<String, LineError> {
    let text = attrs.write_line(alloc, path)?;
    let mut line = String::from_str(alloc, text.as_str())?;
    line.push_str("\n")?;
    Ok(line)
}

// The line, with its line feed, by which a path and all under it have no line any more.
pub(crate) fn drop_line(alloc: Global, path: &Path) -> Result<String, LineError> {
    let mut line = String::from_str(alloc, "-")?;
    write_spelled(alloc, path, &mut line)?;
    line.push_str("\n")?;
    Ok(line)
}

// The line, with its line feed, by which the lines of a path and of all under it are those of another.
pub(crate) fn move_line(alloc: Global, from: &Path, to: &Path) -> Result<String, LineError> {
    let mut line = String::from_str(alloc, ">")?;
    write_spelled(alloc, from, &mut line)?;
    write_spelled(alloc, to, &mut line)?;
    line.push_str("\n")?;
    Ok(line)
}

// Why the line of this number, counted from 1, ends the reading.
fn unread(error: LineError, line: u32) -> LocalError {
    match error {
        LineError::Bad => LocalError::BadCatalogue { line },
        LineError::Memory => LocalError::Memory,
    }
}

// The attributes of a directory that has this line, if any.
fn dir_attrs(alloc: Global, line: Option<&Attrs>) -> Result<Attrs, OutOfMemory>
    ensures { IfOk result (λ attrs. fits_dir attrs ≡ true) }
{
    match line {
        Some(attrs) if attrs.fits_dir() => attrs.copy(alloc),
        _ => Ok(Attrs::default_dir(alloc)),
    }
}

// The attributes of a file that has this line, if any.
fn file_attrs(alloc: Global, line: Option<&Attrs>) -> Result<Attrs, OutOfMemory>
    ensures { IfOk result (λ attrs. fits_file attrs ≡ true) }
{
    match line {
        Some(attrs) if attrs.fits_file() => attrs.copy(alloc),
        _ => Ok(Attrs::default_file(alloc)),
    }
}

impl Catalogue {
    // The catalogue of no lines.
    pub(crate) fn new(alloc: Global) -> Catalogue {
        Catalogue {
            lines: BTreeMap::new(alloc),
        }
    }

    // The catalogue of these lines, of which a later one wins. Each ends with a line feed.
    pub(crate) fn read(alloc: Global, text: &[u8]) -> Result<Catalogue, LocalError> {
        let mut catalogue = Catalogue::new(alloc);
        let mut rest = text;
        let mut number = 0u32;
        for _ in 0..text.len() {
            if rest.is_empty() {
                break;
            }
            let (line, more) = first_line(rest);
            number = number.saturating_add(1);
            if line.len() == rest.len() {
                return Err(LocalError::BadCatalogue { line: number });
            }
            if let Err(error) = catalogue.add_bytes(alloc, line) {
                return Err(unread(error, number));
            }
            rest = more;
        }
        Ok(catalogue)
    }

    // Adds a line, without its line feed.
    fn add_bytes(&mut self, alloc: Global, line: &[u8]) -> Result<(), LineError> {
        match str::from_utf8(line) {
            Ok(text) => self.add_line(alloc, text),
            Err(_) => Err(LineError::Bad),
        }
    }

    // Adds a line: one of attributes, one that drops lines, or one that moves them.
    fn add_line(&mut self, alloc: Global, line: &str) -> Result<(), LineError> {
        if let Some(field) = line.strip_prefix("-\t") {
            let path = read_spelled(alloc, field)?;
            return Ok(self.drop_under(alloc, &path)?);
        }
        if let Some(fields) = line.strip_prefix(">\t") {
            let Some((first, second)) = fields.split_once('\t') else {
                return Err(LineError::Bad);
            };
            let from = read_spelled(alloc, first)?;
            let to = read_spelled(alloc, second)?;
            return Ok(self.move_under(alloc, &from, &to)?);
        }
        let (path, attrs) = Attrs::read_line(alloc, line)?;
        Ok(self.put(path, attrs)?)
    }

    // The attributes in the line of a path, if it has one.
    pub(crate) fn attrs(&self, path: &Path) -> Option<&Attrs> {
        self.lines.get(path)
    }

    // What stands at a path with its attributes: those of its line, if they fit it, or else the default ones.
    pub(crate) fn status(
        &self,
        alloc: Global,
        path: &Path,
        shown: Seen,
    ) -> Result<Status, ReadError>
        ensures fits { IfOk result (λ status. IsTrue (fits_kind status)) }
    {
        match shown {
            Seen::Dir => Ok(Status {
                dir: true,
                length: 0,
                attrs: dir_attrs(alloc, self.attrs(path))?,
            }),
            Seen::File { length } => Ok(Status {
                dir: false,
                length,
                attrs: file_attrs(alloc, self.attrs(path))?,
            }),
            Seen::Missing => Err(ReadError::Missing),
            Seen::NotDir => Err(ReadError::NotDir),
        }
    }

    // Gives a path these attributes as its line.
    pub(crate) fn put(&mut self, path: Path, attrs: Attrs) -> Result<(), OutOfMemory> {
        self.lines.insert(path, attrs)?;
        Ok(())
    }

    // The first path with a line, of a path and all under it.
    fn first_under(&self, alloc: Global, front: &Path) -> Result<Option<Path>, OutOfMemory> {
        if self.lines.is_empty() {
            return Ok(None);
        }
        let from = Bound::Included(front.copy(alloc)?);
        match self.lines.range((from, Bound::Unbounded)).next() {
            Some((path, _)) if path.starts_with(front) => Ok(Some(path.copy(alloc)?)),
            _ => Ok(None),
        }
    }

    // Whether a path, or one under it, has a line.
    pub(crate) fn has_under(&self, alloc: Global, front: &Path) -> Result<bool, OutOfMemory> {
        Ok(self.first_under(alloc, front)?.is_some())
    }

    // Takes out the lines of a path and of all under it.
    fn take_under(
        &mut self,
        alloc: Global,
        front: &Path,
    ) -> Result<Vec<(Path, Attrs)>, OutOfMemory> {
        let mut taken = Vec::new(alloc);
        for _ in 0..self.lines.len() {
            let Some(path) = self.first_under(alloc, front)? else {
                break;
            };
            if let Some(line) = self.lines.remove_entry(&path) {
                taken.push(line)?;
            }
        }
        Ok(taken)
    }

    // Drops the lines of a path and of all under it.
    pub(crate) fn drop_under(&mut self, alloc: Global, front: &Path) -> Result<(), OutOfMemory> {
        let _dropped = self.take_under(alloc, front)?;
        Ok(())
    }

    // Makes the lines of a path and of all under it those of another, which has no other lines then.
    pub(crate) fn move_under(
        &mut self,
        alloc: Global,
        from: &Path,
        to: &Path,
    ) -> Result<(), OutOfMemory> {
        let taken = self.take_under(alloc, from)?;
        self.drop_under(alloc, to)?;
        for (path, attrs) in taken {
            match path.graft(alloc, from, to) {
                Ok(Some(moved)) => self.put(moved, attrs)?,
                Err(PathError::Memory) => return Err(OutOfMemory),
                // Past the limits of a path: nothing can be asked of it.
                _ => {}
            }
        }
        Ok(())
    }
}
