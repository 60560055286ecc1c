//! A folder of the machine, looked at without counting.
#![tactic(auto)]

ghost use Rattle.std.specs.Prelude.{◌≤◌, ◌≡◌, true, false, length, IfOk, IsTrue, map, string_bytes};
ghost use Rattle.std.specs.List.{list_all};
ghost use Rattle.std.specs.List.Sorted.{IsStrictlySortedBy};
ghost use Rattle.std.specs.Cmp.Lexicographic.{slice_cmp};
ghost use Rattle.std.specs.Ordering.{nat_cmp};
ghost use Rattle.std.specs.declared.cmp.Ordering.TheVariants.{Less};
ghost use Rattle.dc_fs.specs.Looks.{is_shown, fits_kind};

use crate::catalogue::Catalogue;
use crate::errors::read_error;
use crate::reading::{digest_of, fill};
use dc_attrs::Seen;
use dc_fs::{ReadError, Status};
use dc_path::{List, Name, Path, PathError};
use std::alloc::{AllocError, Global};
use std::fs;
use std::fs::{File, Metadata};
use std::rt::Files;

/// The folder of temporaries, at the folder's top. It is no part of the tree.
pub(crate) const SCRATCH: &str = ".distcp.scratch";

/// The catalogue of attributes, at the folder's top. It is no part of the tree.
pub(crate) const CATALOGUE: &str = ".distcp.attrs";

/// The name under which snapshots are read. Listings leave it out.
const SNAPSHOT: &str = ".snapshot";

// A file that is open for reading.
#[derive(Drop)]
struct Held {
    file: File,
    length: u64,
}

// A folder of the machine, with what was learned of it last. Nobody else changes it in the meantime.
#[derive(Drop)]
pub(crate) struct Folder<'a, R: Files<File = File>> {
    rt: &'a R,
    // The text of the folder itself.
    top: String,
    // The text of the place that was last gone to.
    place: String,
    // The text of a place that is a real directory, as is all on the way to it.
    known: String,
    // The file that was last read, and the text of its place.
    held: Option<Held>,
    held_place: String,
}

// Whether a path is of what stands in the folder and is no part of the tree.
pub(crate) fn is_own(path: &Path) -> bool {
    match path.name(0) {
        Some(name) => name.as_str() == SCRATCH || name.as_str() == CATALOGUE,
        None => false,
    }
}

// What the machine shows: neither a directory nor a file, as a link, is a fault.
fn seen(found: &Metadata) -> Result<Seen, ReadError> {
    if found.is_dir() {
        return Ok(Seen::Dir);
    }
    if found.is_file() {
        return Ok(Seen::File {
            length: found.len(),
        });
    }
    Err(ReadError::Fault)
}

// Puts a text into a buffer.
pub(crate) fn put(buffer: &mut String, text: &str) -> Result<(), AllocError> {
    buffer.clear();
    buffer.push_str(text)
}

// How many bytes two texts begin with alike.
fn alike(one: &str, other: &str) -> usize {
    one.as_bytes()
        .iter()
        .zip(other.as_bytes().iter())
        .take_while(|(a, b)| a == b)
        .count()
}

// Whether so many bytes of a text are a front of a known place that ends with a name.
fn ends_name(known: &str, end: usize) -> bool {
    match known.as_bytes().get(end) {
        Some(byte) => *byte == b'/',
        None => known.len() == end,
    }
}

// A name of a folder's entry.
fn read_name(alloc: Global, text: &str) -> Result<Name, ReadError> {
    match Name::read(alloc, text) {
        Ok(name) => Ok(name),
        Err(PathError::Memory) => Err(ReadError::Memory),
        Err(_) => Err(ReadError::Fault),
    }
}

impl<'a, R: Files<File = File>> Folder<'a, R> {
    // Opens the folder of this text, or answers why there is none.
    pub(crate) fn open_at(
        rt: &'a R,
        alloc: Global,
        text: &str,
    ) -> Result<Folder<'a, R>, ReadError> {
        let found = match fs::metadata(rt, text) {
            Ok(found) => found,
            Err(e) => return Err(read_error(&e)),
        };
        if !found.is_dir() {
            return Err(ReadError::NotDir);
        }
        match Folder::looked_at(rt, alloc, text) {
            Ok(folder) => Ok(folder),
            Err(_) => Err(ReadError::Memory),
        }
    }

    // A folder that is known to be there.
    fn looked_at(rt: &'a R, alloc: Global, text: &str) -> Result<Folder<'a, R>, AllocError> {
        Ok(Folder {
            rt,
            top: String::from_str(alloc, text)?,
            place: String::new(alloc),
            known: String::from_str(alloc, text)?,
            held: None,
            held_place: String::new(alloc),
        })
    }

    // The same folder, of which nothing was learned yet.
    pub(crate) fn another(&self, alloc: Global) -> Result<Folder<'a, R>, AllocError> {
        Folder::looked_at(self.rt, alloc, self.top.as_str())
    }

    // The text of the place of what stands at the folder's top and is no part of the tree.
    pub(crate) fn own_place(&self, alloc: Global, name: &str) -> Result<String, AllocError> {
        let mut text = String::from_str(alloc, self.top.as_str())?;
        text.push_str("/")?;
        text.push_str(name)?;
        Ok(text)
    }

    // The text of the place that was last gone to.
    pub(crate) fn place(&self) -> &str {
        self.place.as_str()
    }

    // Makes the buffer the text of a path's place.
    fn put_place(&mut self, path: &Path) -> Result<(), AllocError> {
        self.place.clear();
        self.place.push_str(self.top.as_str())?;
        for count in 0..path.len() {
            let Some(name) = path.name(count) else { break };
            self.place.push_str("/")?;
            self.place.push_str(name.as_str())?;
        }
        Ok(())
    }

    // Goes to a path's place: what is on the way to it is a real directory each.
    pub(crate) fn go(&mut self, path: &Path) -> Result<(), ReadError> {
        if is_own(path) {
            return Err(ReadError::Missing);
        }
        if self.put_place(path).is_err() {
            return Err(ReadError::Memory);
        }
        self.look_on_way(path)
    }

    // Looks at what is on the way to the place, where it is not known.
    fn look_on_way(&mut self, path: &Path) -> Result<(), ReadError> {
        let Some(last) = path.last() else {
            return Ok(());
        };
        let more = last.as_str().len().saturating_add(1);
        let end = self.place.len().saturating_sub(more);
        if self.place.as_bytes().get(..end) == Some(self.known.as_bytes()) {
            return Ok(());
        }
        self.look_from(path, end)
    }

    // Looks at each directory on the way that is not known, up to this many bytes of the place.
    fn look_from(&mut self, path: &Path, most: usize) -> Result<(), ReadError> {
        let shared = alike(self.place.as_str(), self.known.as_str());
        let mut end = self.top.len();
        for count in 0..path.len() {
            let Some(name) = path.name(count) else { break };
            end = end.saturating_add(name.as_str().len()).saturating_add(1);
            if end > most {
                break;
            }
            if end <= shared && ends_name(self.known.as_str(), end) {
                continue;
            }
            self.look_at_front(end)?;
        }
        self.know_front(most)
    }

    // Whether a front of the place is a real directory.
    fn look_at_front(&self, end: usize) -> Result<(), ReadError> {
        let Some(front) = self.place.as_str().get(..end) else {
            return Err(ReadError::Fault);
        };
        match fs::symlink_metadata(self.rt, front) {
            Ok(found) => match seen(&found)? {
                Seen::Dir => Ok(()),
                _ => Err(ReadError::NotDir),
            },
            Err(e) => Err(read_error(&e)),
        }
    }

    // Keeps that a front of the place is a real directory.
    fn know_front(&mut self, end: usize) -> Result<(), ReadError> {
        let Some(front) = self.place.as_str().get(..end) else {
            return Err(ReadError::Fault);
        };
        match put(&mut self.known, front) {
            Ok(()) => Ok(()),
            Err(_) => {
                self.known.clear();
                Err(ReadError::Memory)
            }
        }
    }

    // Keeps that the place is a real directory.
    pub(crate) fn know_place(&mut self) -> Result<(), ReadError> {
        let end = self.place.len();
        self.know_front(end)
    }

    // Lets a file that was read go, since it may be changed.
    pub(crate) fn let_go(&mut self) {
        self.held = None;
    }

    // Gives up all that was learned, since what stands in the folder may be another.
    pub(crate) fn forget(&mut self) {
        self.known.clear();
        self.held = None;
    }

    // What stands at the place that was gone to.
    fn look_here(&mut self, path: &Path) -> Result<Seen, ReadError> {
        if path.len() == 0 || self.place.as_str() == self.known.as_str() {
            return Ok(Seen::Dir);
        }
        let found = match fs::symlink_metadata(self.rt, self.place.as_str()) {
            Ok(found) => found,
            Err(e) => return Err(read_error(&e)),
        };
        let shown = seen(&found)?;
        if shown == Seen::Dir {
            self.know_place()?;
        }
        Ok(shown)
    }

    // What stands at a path, which must be there.
    pub(crate) fn find(&mut self, path: &Path) -> Result<Seen, ReadError> {
        self.go(path)?;
        self.look_here(path)
    }

    // What stands at a path, with its length and the attributes that a catalogue gives it.
    pub(crate) fn status(
        &mut self,
        alloc: Global,
        path: &Path,
        catalogue: &Catalogue,
    ) -> Result<Status, ReadError>
        ensures fits { IfOk result (λ status. IsTrue (fits_kind status)) }
    {
        let shown = self.find(path)?;
        catalogue.status(alloc, path, shown)
    }

    // What stands at a path.
    pub(crate) fn see(&mut self, path: &Path) -> Result<Seen, ReadError> {
        match self.find(path) {
            Ok(shown) => Ok(shown),
            Err(ReadError::Missing) => Ok(Seen::Missing),
            Err(ReadError::NotDir) => Ok(Seen::NotDir),
            Err(error) => Err(error),
        }
    }

    // The names in a directory, in the order of the machine.
    fn read_names(&mut self, alloc: Global, path: &Path) -> Result<Vec<Name>, ReadError> {
        let entries = match fs::read_dir(&(self.rt, alloc), self.place.as_str()) {
            Ok(entries) => entries,
            Err(e) => return Err(read_error(&e)),
        };
        let is_top = path.len() == 0;
        let mut names = Vec::new(alloc);
        for entry in entries {
            match entry {
                Ok(entry) => add_name(alloc, &mut names, entry.file_name(), is_top)?,
                Err(e) => return Err(read_error(&e)),
            }
        }
        Ok(names)
    }

    // The names in a directory, in ascending order.
    pub(crate) fn names(&mut self, alloc: Global, path: &Path) -> Result<List<Name>, ReadError>
        ensures ascending { IfOk result (IsStrictlySortedBy (slice_cmp nat_cmp)) }
        ensures shown { IfOk result (λ names. IsTrue (list_all is_shown names)) }
    {
        match self.find(path)? {
            Seen::Dir => {}
            _ => return Err(ReadError::NotDir),
        }
        let mut names = self.read_names(alloc, path)?;
        if names.sort().is_err() {
            return Err(ReadError::Memory);
        }
        if !are_ascending(names.as_slice()) || !are_shown(names.as_slice()) {
            return Err(ReadError::Fault);
        }
        Ok(List::of(names))
    }

    // Opens the file at a path for reading, if it is not the one that is open.
    fn hold(&mut self, path: &Path) -> Result<(), ReadError> {
        if self.held.is_some() && self.held_place.as_str() == self.place.as_str() {
            return Ok(());
        }
        self.held = None;
        let length = match self.look_here(path)? {
            Seen::File { length } => length,
            _ => return Err(ReadError::IsDir),
        };
        let file = match fs::open(self.rt, self.place.as_str()) {
            Ok(file) => file,
            Err(e) => return Err(read_error(&e)),
        };
        if put(&mut self.held_place, self.place.as_str()).is_err() {
            return Err(ReadError::Memory);
        }
        self.held = Some(Held { file, length });
        Ok(())
    }

    // Reads bytes of a file into a slice.
    pub(crate) fn bytes_at(
        &mut self,
        path: &Path,
        at: u64,
        into: &mut [u8],
    ) -> Result<usize, ReadError>
        ensures { IfOk result (λ count. count ≤ length into.new) }
    {
        self.go(path)?;
        self.hold(path)?;
        match &self.held {
            Some(held) => {
                if held.length < at {
                    return Err(ReadError::Short);
                }
                fill(&held.file, at, into)
            }
            None => Err(ReadError::Fault),
        }
    }

    // The MD5 digest of the first bytes of a file.
    pub(crate) fn checksum(&mut self, path: &Path, length: u64) -> Result<[u8; 16], ReadError> {
        self.go(path)?;
        self.hold(path)?;
        match &self.held {
            Some(held) => {
                if held.length < length {
                    return Err(ReadError::Short);
                }
                digest_of(&held.file, length)
            }
            None => Err(ReadError::Fault),
        }
    }
}

// Adds the name of an entry, if it is one that listings show.
fn add_name(
    alloc: Global,
    names: &mut Vec<Name>,
    text: &str,
    is_top: bool,
) -> Result<(), ReadError> {
    if text == SNAPSHOT {
        return Ok(());
    }
    if is_top && (text == SCRATCH || text == CATALOGUE) {
        return Ok(());
    }
    let name = read_name(alloc, text)?;
    match names.push(name) {
        Ok(()) => Ok(()),
        Err(_) => Err(ReadError::Memory),
    }
}

// Whether a name comes before another.
fn is_before(first: &Name, next: &Name) -> bool
    ensures { result ≡ true → slice_cmp nat_cmp first.now next.now ≡ Less }
{
    first < next
}

// Whether names are strictly ascending. A folder has no name twice, but no contract of the machine says so.
fn are_ascending(names: &[Name]) -> bool
    ensures { result ≡ true → IsStrictlySortedBy (slice_cmp nat_cmp) names.now }
{
    'names: for k in 1..names.len() {
        if !is_before(&names[k - 1], &names[k]) {
            return false;
        }
    }
    true
}

// Whether listings show all names.
fn are_shown(names: &[Name]) -> bool
    ensures { result ≡ list_all is_shown names.now }
{
    names.iter().all(|name| name.as_str() != SNAPSHOT)
}
