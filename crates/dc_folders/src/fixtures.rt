//! What the examples share: small steps on any store, each of which holds one path.
#![tactic(auto)]

ghost use Rattle.std.specs.Prelude.{◌≡◌, ◌≤◌, OnOk, IfOk, length};
ghost use Rattle.dc_fs.specs.Causes.{raised};

use dc_attrs::Seen;
use dc_fs::{Desk, DeskError, Mode, ReadError, Store, Target, WriteError};
use dc_path::{List, Path};
use std::alloc::Global;

// The path of a text.
pub(crate) fn path(alloc: Global, text: &str) -> Result<Path, WriteError> {
    Path::read(alloc, text).map_err(|_| WriteError::Memory)
}

// A sealed temporary of these bytes.
fn sealed<D: Desk>(alloc: Global, desk: &mut D, bytes: &[u8]) -> Result<D::Temp, DeskError>
    ensures { OnOk result (D.made desk.new ≡ raised (D.made desk.old)) }
{
    desk.create(alloc)?;
    desk.append(alloc, bytes)?;
    let _digest = desk.digest(alloc)?;
    desk.seal(alloc)
}

// A temporary of these bytes, from a desk that is taken back.
fn temporary<T: Target>(
    alloc: Global,
    target: &mut T,
    piece: &str,
) -> Result<<T::Desk as Desk>::Temp, WriteError>
    ensures { OnOk result ((T.rest target.new).scratch ≡ raised (T.rest target.old).scratch) }
{
    let mut desk = target.open_desk(alloc)?;
    let part = sealed(alloc, &mut desk, piece.as_bytes());
    target.rejoin_desk(desk);
    part.map_err(|_| WriteError::Fault)
}

// Lands one piece at a path.
pub(crate) fn land_one<T: Target>(
    alloc: Global,
    target: &mut T,
    text: &str,
    piece: &str,
) -> Result<(), WriteError> {
    let part = temporary(alloc, target, piece)?;
    let mut parts = List::new(alloc);
    parts.push(part).map_err(|_| WriteError::Memory)?;
    let path = path(alloc, text)?;
    target.land(alloc, parts, &path, Mode::Replace)
}

// Two temporaries of these bytes.
fn temporaries<T: Target>(
    alloc: Global,
    target: &mut T,
    pieces: (&str, &str),
) -> Result<List<<T::Desk as Desk>::Temp>, WriteError>
    ensures parts { IfOk result (λ parts. length parts ≡ 2) }
    ensures counted { OnOk result (2 ≤ (T.rest target.new).scratch) }
{
    let mut parts = List::new(alloc);
    parts
        .push(temporary(alloc, target, pieces.0)?)
        .map_err(|_| WriteError::Memory)?;
    parts
        .push(temporary(alloc, target, pieces.1)?)
        .map_err(|_| WriteError::Memory)?;
    Ok(parts)
}

// Lands two pieces at a path, each of them a temporary.
pub(crate) fn land_two<T: Target>(
    alloc: Global,
    target: &mut T,
    text: &str,
    pieces: (&str, &str),
    mode: Mode,
) -> Result<(), WriteError> {
    let parts = temporaries(alloc, target, pieces)?;
    let path = path(alloc, text)?;
    target.land(alloc, parts, &path, mode)
}

// Makes a directory.
pub(crate) fn make_dir<T: Target>(
    alloc: Global,
    target: &mut T,
    text: &str,
) -> Result<(), WriteError> {
    let path = path(alloc, text)?;
    target.make_dir(alloc, &path)
}

// Moves what stands at a path to another.
pub(crate) fn rename<T: Target>(
    alloc: Global,
    target: &mut T,
    from: &str,
    to: &str,
) -> Result<(), WriteError> {
    let from = path(alloc, from)?;
    let to = path(alloc, to)?;
    target.rename(alloc, &from, &to)
}

// Removes what stands at a path.
pub(crate) fn remove<T: Target>(
    alloc: Global,
    target: &mut T,
    text: &str,
) -> Result<(), WriteError> {
    let path = path(alloc, text)?;
    target.remove(alloc, &path)
}

// What stands at a path.
pub(crate) fn seen<S: Store>(alloc: Global, store: &mut S, text: &str) -> Result<Seen, WriteError> {
    let path = path(alloc, text)?;
    store.kind(&path).map_err(|_| WriteError::Fault)
}

// Whether a file reads as these bytes, of which there are fewer than 64.
pub(crate) fn reads_as<S: Store>(
    alloc: Global,
    store: &mut S,
    text: &str,
    bytes: &str,
) -> Result<bool, ReadError> {
    let path = Path::read(alloc, text).map_err(|_| ReadError::Memory)?;
    let mut into = [0u8; 64];
    let count = store.read_at(alloc, &path, 0, &mut into)?;
    Ok(&into[..count] == bytes.as_bytes())
}

// The names in a directory, each with a blank after it.
pub(crate) fn listed<S: Store>(
    alloc: Global,
    store: &mut S,
    text: &str,
) -> Result<String, ReadError> {
    let path = Path::read(alloc, text).map_err(|_| ReadError::Memory)?;
    let names = store.list(alloc, &path)?;
    let mut line = String::new(alloc);
    for name in names.as_slice() {
        line.push_str(name.as_str()).map_err(|_| ReadError::Memory)?;
        line.push_str(" ").map_err(|_| ReadError::Memory)?;
    }
    Ok(line)
}

// Whether these are the names in a directory, each with a blank after it.
pub(crate) fn lists<S: Store>(alloc: Global, store: &mut S, text: &str, names: &str) -> bool {
    match listed(alloc, store, text) {
        Ok(line) => line.as_str() == names,
        Err(_) => false,
    }
}
