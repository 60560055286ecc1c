//! Paths: how a text reads as one, their texts, and what is added to, cut from and replaced in them.
#![tactic(auto)]

ghost use Rattle.std.specs.Prelude.{◌≡◌, ℕ, ◌+◌, ◌-◌, ◌<◌, ◌≤◌, [], ◌∷◌, ◌++◌, List, length, take, drop, IfOk, OnOk, OnErr, Ok, Err, Some, None, IsTrue, IsNone, slice_get, string_bytes, if◌then◌else◌, MatchOption};
ghost use Rattle.std.specs.Option.{option_copied};
ghost use Rattle.dc_path.specs.Names.{is_name};
ghost use Rattle.dc_path.specs.Paths.{joined, text_of, dotted_of, max_names, max_bytes, IsPath, IsWithin, path_cmp, is_under, cut, parent_of};

use crate::{List, Name, OutOfMemory, Text, test_name};
use std::alloc::{AllocError, Global};
use std::cmp::Ordering;
use std::marker::Model;

/// The most names that a `Path` may have.
pub const MAX_NAMES: usize = 256;

/// The most bytes that the text of a `Path` may have. It has no byte 0 at its end, which `PATH_MAX` of
/// POSIX.1 counts.
pub const MAX_BYTES: usize = 4096;

/// Why a text is no path or no name, or why a list of names passes the limits of a path.
#[derive(Clone, Copy, Debug, PartialEq, Eq)]
pub enum PathError {
    /// The text has no bytes.
    Empty,
    /// The first byte of the text is not `/`.
    Relative,
    /// A part of the text is no name. `place` counts the parts before it: it is at most 256, and 0 where a
    /// text is read as one name.
    BadName { place: u32 },
    /// There would be more than `MAX_NAMES` names.
    TooDeep,
    /// The text would have more than `MAX_BYTES` bytes.
    TooLong,
    /// Memory ran out. No clause says when this comes.
    Memory,
}

impl From<OutOfMemory> for PathError {
    ghost use Rattle.std.specs.Prelude.{◌≡◌};
    ghost use Rattle.dc_path.specs.declared.path.PathError.TheVariants.{Memory};

    ghost from_gives = { λ _ e. e ≡ Memory };

    fn from(_lack: OutOfMemory) -> PathError {
        PathError::Memory
    }
}

impl From<AllocError> for PathError {
    ghost use Rattle.std.specs.Prelude.{◌≡◌};
    ghost use Rattle.dc_path.specs.declared.path.PathError.TheVariants.{Memory};

    ghost from_gives = { λ _ e. e ≡ Memory };

    fn from(_lack: AllocError) -> PathError {
        PathError::Memory
    }
}

/// A path, seen as the list of its names (POSIX.1, "Pathname", without `.` and `..`).
///
/// It has at most `MAX_NAMES` names, and its text at most `MAX_BYTES` bytes. The list of no names is
/// the root, with the text `/`; else the text is a `/` and a name for each name. A path that is meant
/// from some directory is a `Path` too, and reads and prints with the `/` in front.
/// Paths are ordered name by name, a name by its bytes, a prefix first.
#[derive(Drop)]
pub struct Path {
    names: List<Name>,
    bytes: usize,
}

impl Model for Path {
    ghost use Rattle.std.specs.Prelude.{◌≡◌, List, ℕ, length};
    ghost use Rattle.dc_path.specs.Paths.{IsPath, joined};

    ghost Value = { List (List ℕ) };

    ghost view = { λ p. p.names };

    ghost invariant = { λ p. IsPath p.names × (p.bytes ≡ length (joined p.names)) };
}

impl Path {
    ghost use Rattle.dc_path.specs.declared.path.PathError.TheVariants.{Memory};
    ghost use Rattle.dc_path.specs.Unless.{GivesUnless};
    ghost use Rattle.dc_path.specs.Reading.{within_limits, grafted, path_from, path_of, parts_of};

    /// The root: the path of no names. It takes no memory, and cannot fail.
    pub fn root(alloc: Global) -> Path
        ensures { result ≡ [] }
    {
        Path {
            names: List::new(alloc),
            bytes: 0,
        }
    }

    /// The path that a text reads as. A run of `/` counts as one, and a `/` at the end is dropped
    /// (POSIX.1, "Pathname Resolution").
    ///
    /// # Errors
    ///
    /// The first of these, in this order:
    ///
    /// - `Empty`, where the text has no bytes;
    /// - `Relative`, where its first byte is not `/`;
    /// - from left to right, `TooDeep` at a 257th name, or `BadName` with the place, counted from 0, of
    ///   the first part that is no name;
    /// - `TooLong`, where the path's own text passes `MAX_BYTES` bytes.
    ///
    /// `Memory` may come in the place of any answer.
    pub fn read(alloc: Global, text: &str) -> Result<Path, PathError>
        ensures { GivesUnless Memory result (path_from text.now) }
    {
        match text.as_bytes() {
            [] => Err(PathError::Empty),
            [b'/', ..] => Path::read_parts(alloc, text),
            _ => Err(PathError::Relative),
        }
    }

    // The path of the parts of a text between its runs of `/`.
    fn read_parts(alloc: Global, text: &str) -> Result<Path, PathError>
        ensures { GivesUnless Memory result (path_of (parts_of text.now)) }
    {
        let mut names = List::new(alloc);
        let mut bytes = 0usize;
        for part in text.split('/') {
            if part.is_empty() {
                continue;
            }
            if !test_name(part) {
                let place = names.len() as u32;
                return Err(PathError::BadName { place });
            }
            if names.len() == MAX_NAMES {
                return Err(PathError::TooDeep);
            }
            let name = Name::read(alloc, part)?;
            bytes += part.len() + 1;
            names.add(name)?;
        }
        if bytes > MAX_BYTES {
            return Err(PathError::TooLong);
        }
        Ok(Path { names, bytes })
    }

    /// The number of names: 0 for the root, and at most `MAX_NAMES`.
    pub fn len(&self) -> usize
        ensures count { result ≡ length self.now }
        ensures path { IsPath self.now }
    {
        self.names.len()
    }

    /// The name at a place, counted from 0, that below the root first; `None` at the number of
    /// names and past it.
    pub fn name(&self, place: usize) -> Option<&Name>
        ensures { option_copied result ≡ slice_get self.now place }
    {
        self.names.get(place)
    }

    /// The names in order, that below the root first.
    pub fn names(&self) -> &[Name]
        ensures { result.now ≡ self.now }
    {
        self.names.as_slice()
    }

    /// The last name; `None` for the root.
    pub fn last(&self) -> Option<&Name>
        ensures { option_copied result ≡ slice_get self.now (length self.now - 1) }
    {
        self.names.as_slice().last()
    }

    // Adds a copy of a name at the end, where the limits leave room for it.
    fn push(&mut self, alloc: Global, name: &Name) -> Result<(), OutOfMemory>
        requires few { length self.old < max_names }
        requires short { length (joined self.old) + (length name.now + 1) ≤ max_bytes }
        ensures ok { OnOk result (self.new ≡ self.old ++ name.now ∷ []) }
        ensures err { OnErr result (self.new ≡ self.old) }
    {
        let copied = name.copy(alloc)?;
        let more = name.as_str().len() + 1;
        self.names.add(copied)?;
        self.bytes += more;
        Ok(())
    }

    // Adds copies of names at the end, where the limits leave room for them.
    #[tactic(auto, using(crate::proofs::Joins::joins))]
    fn push_all(&mut self, alloc: Global, names: &[Name]) -> Result<(), OutOfMemory>
        requires few { length self.old + length names.now ≤ max_names }
        requires short { length (joined self.old) + length (joined names.now) ≤ max_bytes }
        ensures { OnOk result (self.new ≡ self.old ++ names.now) }
    {
        for name in names {
            self.push(alloc, name)?;
        }
        Ok(())
    }

    // The root, with room for a number of names to come.
    fn with_room(alloc: Global, count: usize) -> Result<Path, OutOfMemory>
        ensures { IfOk result (λ p. p ≡ []) }
    {
        let names = Vec::with_capacity(alloc, count)?;
        Ok(Path {
            names: List::of(names),
            bytes: 0,
        })
    }

    // A path of the same names, with room for more of them.
    fn copy_with_room(&self, alloc: Global, more: usize) -> Result<Path, OutOfMemory>
        requires { more ≤ max_names }
        ensures { IfOk result (λ p. p ≡ self.now) }
    {
        let mut path = Path::with_room(alloc, self.names.len() + more)?;
        path.push_all(alloc, self.names.as_slice())?;
        Ok(path)
    }

    /// A path of the same names. `OutOfMemory` is the one error.
    pub fn copy(&self, alloc: Global) -> Result<Path, OutOfMemory>
        ensures { IfOk result (λ p. p ≡ self.now) }
    {
        self.copy_with_room(alloc, 0)
    }

    /// The path without its last name; `None` for the root. `OutOfMemory` is the one error.
    #[tactic(auto, using(crate::proofs::Joins::joins))]
    pub fn parent(&self, alloc: Global) -> Result<Option<Path>, OutOfMemory>
        ensures { IfOk result (λ p. p ≡ parent_of self.now) }
    {
        let count = self.names.len();
        if count == 0 {
            return Ok(None);
        }
        let mut path = Path::with_room(alloc, count - 1)?;
        path.push_all(alloc, &self.names.as_slice()[..count - 1])?;
        Ok(Some(path))
    }

    /// The path with one name more at its end, where that is within the limits. `OutOfMemory` is the one error.
    #[tactic(auto, using(crate::proofs::Joins::joins))]
    pub fn child_within(&self, alloc: Global, name: &Name) -> Result<Path, OutOfMemory>
        requires { IsWithin (self.now ++ name.now ∷ []) }
        ensures { IfOk result (λ path. path ≡ self.now ++ name.now ∷ []) }
    {
        let mut path = self.copy_with_room(alloc, 1)?;
        path.push(alloc, name)?;
        Ok(path)
    }

    /// The path with one name more at its end.
    ///
    /// # Errors
    ///
    /// - `TooDeep`, exactly where the new path would have more than `MAX_NAMES` names;
    /// - else `TooLong`, exactly where its text would have more than `MAX_BYTES` bytes;
    /// - `Memory`, which may come in the place of any answer.
    #[tactic(auto, using(crate::proofs::Joins::joins))]
    pub fn child(&self, alloc: Global, name: &Name) -> Result<Path, PathError>
        ensures { GivesUnless Memory result (within_limits (self.now ++ name.now ∷ [])) }
    {
        let more = name.as_str().len() + 1;
        if self.names.len() == MAX_NAMES {
            return Err(PathError::TooDeep);
        }
        if self.bytes + more > MAX_BYTES {
            return Err(PathError::TooLong);
        }
        Ok(self.child_within(alloc, name)?)
    }

    /// The path followed by the names of another, where that is within the limits. `OutOfMemory` is the one error.
    #[tactic(auto, using(crate::proofs::Joins::joins))]
    pub fn join_within(&self, alloc: Global, rel: &Path) -> Result<Path, OutOfMemory>
        requires { IsWithin (self.now ++ rel.now) }
        ensures { IfOk result (λ path. path ≡ self.now ++ rel.now) }
    {
        let mut path = self.copy_with_room(alloc, rel.names.len())?;
        path.push_all(alloc, rel.names.as_slice())?;
        Ok(path)
    }

    /// The path followed by the names of another.
    ///
    /// # Errors
    ///
    /// - `TooDeep`, exactly where the new path would have more than `MAX_NAMES` names;
    /// - else `TooLong`, exactly where its text would have more than `MAX_BYTES` bytes;
    /// - `Memory`, which may come in the place of any answer.
    #[tactic(auto, using(crate::proofs::Joins::joins))]
    pub fn join(&self, alloc: Global, rel: &Path) -> Result<Path, PathError>
        ensures { GivesUnless Memory result (within_limits (self.now ++ rel.now)) }
    {
        if self.names.len() + rel.names.len() > MAX_NAMES {
            return Err(PathError::TooDeep);
        }
        if self.bytes + rel.bytes > MAX_BYTES {
            return Err(PathError::TooLong);
        }
        Ok(self.join_within(alloc, rel)?)
    }

    /// Whether the path begins with all names of another. Each path begins with the root and with itself.
    #[tactic(auto, using(crate::proofs::PathLemmas::fronts))]
    pub fn starts_with(&self, front: &Path) -> bool
        ensures { result ≡ is_under front.now self.now }
    {
        self.names.as_slice().starts_with(front.names.as_slice())
    }

    /// The names that follow a front, as a path; `None` where the path does not begin with the front.
    /// `OutOfMemory` is the one error.
    #[tactic(auto, using(crate::proofs::Joins::joins, crate::proofs::PathLemmas::fronts))]
    pub fn cut(&self, alloc: Global, front: &Path) -> Result<Option<Path>, OutOfMemory>
        ensures { IfOk result (λ p. p ≡ cut front.now self.now) }
    {
        if !self.names.as_slice().starts_with(front.names.as_slice()) {
            return Ok(None);
        }
        let mut rest = Path::with_room(alloc, self.names.len() - front.names.len())?;
        rest.push_all(alloc, &self.names.as_slice()[front.names.len()..])?;
        Ok(Some(rest))
    }

    /// Another path, `to`, in the place of a front: `to` followed by the names that follow the front;
    /// `None` where the path does not begin with the front.
    ///
    /// # Errors
    ///
    /// - `TooDeep`, exactly where the new path would have more than `MAX_NAMES` names;
    /// - else `TooLong`, exactly where its text would have more than `MAX_BYTES` bytes;
    /// - `Memory`, which may come in the place of any answer.
    #[tactic(auto, using(crate::proofs::Joins::joins))]
    pub fn graft(&self, alloc: Global, front: &Path, to: &Path) -> Result<Option<Path>, PathError>
        ensures { GivesUnless Memory result (grafted front.now to.now self.now) }
    {
        match self.cut(alloc, front)? {
            None => Ok(None),
            Some(rest) => Ok(Some(to.join(alloc, &rest)?)),
        }
    }

    /// The order of paths: name by name, a name by its bytes as numbers, a prefix first. Only equal paths tie.
    pub fn compare(&self, other: &Path) -> Ordering
        ensures { result ≡ path_cmp self.now other.now }
    {
        self.names.as_slice().cmp(other.names.as_slice())
    }

    // Adds to a text a `/` and the name, for each name.
    fn write_names(&self, text: &mut String) -> Result<(), OutOfMemory>
        ensures { OnOk result (string_bytes text.new ≡ string_bytes text.old ++ joined self.now) }
    {
        for name in self.names.as_slice() {
            text.push_str("/")?;
            text.push_str(name.as_str())?;
        }
        Ok(())
    }

    /// The text of the path, of 1 to `MAX_BYTES` bytes: `/` for the root, else a `/` and the name for each
    /// name. `OutOfMemory` is the one error.
    pub fn text(&self, alloc: Global) -> Result<Text, OutOfMemory>
        ensures { IfOk result (λ t. t ≡ text_of self.now) }
    {
        if self.names.len() == 0 {
            return Text::read(alloc, "/");
        }
        let mut text = String::new(alloc);
        self.write_names(&mut text)?;
        Ok(Text::of(text))
    }

    /// `.` followed by the text, and `.` alone for the root: the path as one from a directory on.
    /// `OutOfMemory` is the one error.
    pub fn dotted(&self, alloc: Global) -> Result<Text, OutOfMemory>
        ensures { IfOk result (λ t. t ≡ dotted_of self.now) }
    {
        let mut text = String::from_str(alloc, ".")?;
        self.write_names(&mut text)?;
        Ok(Text::of(text))
    }
}

impl PartialEq for Path {
    ghost use Rattle.std.specs.Prelude.{nat_eq};
    ghost use Rattle.std.specs.Cmp.Lexicographic.{pointwise};
    ghost use Rattle.std.proofs.Common.{rules};
    ghost use Rattle.std.specs.Cmp.Rules.{comparing};

    ghost eq = { pointwise (pointwise nat_eq) };

    ghost laws = { Prim.search (comparing, rules) };

    fn eq(&self, other: &Path) -> bool {
        self.names.as_slice() == other.names.as_slice()
    }
}

impl Eq for Path {
    ghost use Rattle.std.proofs.Common.{rules};
    ghost use Rattle.std.specs.Cmp.Rules.{comparing};

    ghost laws = { Prim.search (comparing, rules) };
}

impl PartialOrd for Path {
    ghost use Rattle.std.specs.Ordering.{as_partial_cmp, nat_cmp};
    ghost use Rattle.std.specs.Cmp.Lexicographic.{slice_cmp, lists_total, lists_ties, texts_ties, nat_list_cmp_total};
    ghost use Rattle.std.specs.Cmp.{partial_order_from_own_ties, partial_order_from_total};
    ghost use Rattle.std.proofs.Common.{rules};
    ghost use Rattle.std.specs.Cmp.Rules.{comparing};
    ghost use Rattle.dc_path.specs.Paths.{path_cmp};

    ghost partial_cmp = { as_partial_cmp path_cmp };

    ghost laws = { partial_order_from_own_ties (partial_order_from_total (lists_total nat_list_cmp_total)) (lists_ties (slice_cmp nat_cmp) texts_ties) };

    fn partial_cmp(&self, other: &Path) -> Option<Ordering> {
        Some(self.compare(other))
    }
}

impl Ord for Path {
    ghost use Rattle.std.specs.Ordering.{nat_cmp};
    ghost use Rattle.std.specs.Cmp.Lexicographic.{slice_cmp, lists_total, lists_ties, texts_ties, nat_list_cmp_total};
    ghost use Rattle.std.proofs.Common.{rules};
    ghost use Rattle.std.specs.Cmp.Rules.{comparing};
    ghost use Rattle.dc_path.specs.Paths.{path_cmp};

    ghost cmp = { path_cmp };

    ghost total = { lists_total nat_list_cmp_total };

    ghost matches_partial_cmp = { Prim.search (comparing, rules) };

    ghost matches_eq = { lists_ties (slice_cmp nat_cmp) texts_ties };

    fn cmp(&self, other: &Path) -> Ordering {
        self.compare(other)
    }
}
