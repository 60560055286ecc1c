//! Looks at a tree in memory, as stores answer them.
#![tactic(auto)]

ghost use Rattle.std.specs.Prelude.{◌≡◌, ◌≢◌, ◌≤◌, Some, length, drop, IfOk, IfErr, OnErr, IsSomeAnd, IsSome, IsTrue};
ghost use Rattle.std.specs.List.{list_all};
ghost use Rattle.std.specs.List.Sorted.{IsStrictlySortedBy};
ghost use Rattle.std.specs.Cmp.Lexicographic.{slice_cmp};
ghost use Rattle.std.specs.Ordering.{nat_cmp};
ghost use Rattle.dc_attrs.specs.Trees.{seen, seen_node, bytes_of, attrs_of};
ghost use Rattle.dc_attrs.specs.declared.shown.Seen.{Seen};
ghost use Rattle.dc_tree.specs.Arena.{tree_of};
ghost use Rattle.dc_fs.specs.Answers.{ReadAnswers, refused_status, refused_list, refused_read};
ghost use Rattle.dc_fs.specs.Looks.{IsStatusOf, fits_kind, is_shown, AreNames, IsRead};
ghost use Rattle.dc_fs.specs.Digests.{IsChecksum};

use dc_attrs::{Attrs, Seen};
use dc_fs::{ReadError, Status};
use dc_path::{List, Name, OutOfMemory, Path};
use dc_tree::MemTree;
use md5::{Digest, Md5};
use std::alloc::Global;

// A copy of the attributes of what stands at a path.
fn attrs_at(alloc: Global, tree: &MemTree, path: &Path) -> Result<Attrs, OutOfMemory>
    requires { IsSome (attrs_of (tree_of tree.now path.now)) }
    ensures { IfOk result (λ attrs. attrs_of (tree_of tree.now path.now) ≡ Some attrs) }
{
    match tree.attrs(path) {
        Some(attrs) => attrs.copy(alloc),
        None => unreachable!(),
    }
}

// What stands at a path, with its length and attributes.
pub fn status(alloc: Global, tree: &MemTree, path: &Path) -> Result<Status, ReadError>
    ensures fits { IfOk result (λ status. IsTrue (fits_kind status)) }
    ensures shows { IfOk result (IsStatusOf (tree_of tree.now path.now)) }
    ensures answers { ReadAnswers (refused_status (seen (tree_of tree.now) path.now)) result }
    ensures no_fault { IfErr result (λ e. e ≢ ReadError.Fault) }
{
    match tree.kind(path) {
        Seen::Missing => Err(ReadError::Missing),
        Seen::NotDir => Err(ReadError::NotDir),
        Seen::Dir => {
            let attrs = attrs_at(alloc, tree, path)?;
            Ok(Status {
                dir: true,
                length: 0,
                attrs,
            })
        }
        Seen::File { length } => {
            let attrs = attrs_at(alloc, tree, path)?;
            Ok(Status {
                dir: false,
                length,
                attrs,
            })
        }
    }
}

// Whether listings show a name.
fn test_shown(name: &Name) -> bool
    ensures { result ≡ is_shown name.now }
{
    ".snapshot" != name.as_str()
}

// The names in a directory that listings show.
fn shown_names(alloc: Global, tree: &MemTree, path: &Path) -> Result<List<Name>, OutOfMemory>
    requires { seen (tree_of tree.now) path.now ≡ Seen.Dir }
    ensures ascending { IfOk result (IsStrictlySortedBy (slice_cmp nat_cmp)) }
    ensures shown { IfOk result (λ names. IsTrue (list_all is_shown names)) }
    ensures names { IfOk result (AreNames (tree_of tree.now) path.now) }
{
    match tree.children(alloc, path) {
        Ok(children) => {
            let mut names = children.into_vec();
            names.retain(|name| test_shown(name));
            Ok(List::of(names))
        }
        Err(_) => Err(OutOfMemory),
    }
}

// The names in a directory that listings show, strictly ascending.
pub fn list(alloc: Global, tree: &MemTree, path: &Path) -> Result<List<Name>, ReadError>
    ensures ascending { IfOk result (IsStrictlySortedBy (slice_cmp nat_cmp)) }
    ensures shown { IfOk result (λ names. IsTrue (list_all is_shown names)) }
    ensures names { IfOk result (AreNames (tree_of tree.now) path.now) }
    ensures answers { ReadAnswers (refused_list (seen (tree_of tree.now) path.now)) result }
    ensures no_fault { IfErr result (λ e. e ≢ ReadError.Fault) }
{
    match tree.kind(path) {
        Seen::Missing => Err(ReadError::Missing),
        Seen::NotDir => Err(ReadError::NotDir),
        Seen::File { .. } => Err(ReadError::NotDir),
        Seen::Dir => Ok(shown_names(alloc, tree, path)?),
    }
}

// Fills a slice with bytes from a place on.
fn fill_from(bytes: &[u8], at: usize, into: &mut [u8]) -> usize
    requires { at ≤ length bytes.now }
    ensures within { result ≤ length into.new }
    ensures read { IsRead bytes.now at result into.new }
    ensures beyond { drop result into.new ≡ drop result into.old }
{
    let count = into.len().min(bytes.len() - at);
    into[..count].copy_from_slice(&bytes[at..at + count]);
    count
}

// Reads the bytes of a file from a place on.
fn read_file(tree: &MemTree, path: &Path, at: u64, into: &mut [u8]) -> Result<usize, ReadError>
    requires { IsSome (bytes_of (tree_of tree.now path.now)) }
    ensures within { IfOk result (λ count. count ≤ length into.new) }
    ensures read { IfOk result (λ count. IsSomeAnd (bytes_of (tree_of tree.now path.now)) (λ bytes. IsRead bytes at count into.new)) }
    ensures beyond { IfOk result (λ count. drop count into.new ≡ drop count into.old) }
    ensures err { OnErr result (into.new ≡ into.old) }
    ensures answers { ReadAnswers (refused_read at (seen_node (tree_of tree.now path.now))) result }
    ensures memory { IfErr result (λ e. e ≢ ReadError.Memory) }
    ensures no_fault { IfErr result (λ e. e ≢ ReadError.Fault) }
{
    match tree.bytes(path) {
        Some(bytes) => {
            if at > bytes.len() as u64 {
                return Err(ReadError::Short);
            }
            Ok(fill_from(bytes, at as usize, into))
        }
        None => unreachable!(),
    }
}

// Reads what must be a file.
pub fn read_at(tree: &MemTree, path: &Path, at: u64, into: &mut [u8]) -> Result<usize, ReadError>
    ensures within { IfOk result (λ count. count ≤ length into.new) }
    ensures read { IfOk result (λ count. IsSomeAnd (bytes_of (tree_of tree.now path.now)) (λ bytes. IsRead bytes at count into.new)) }
    ensures beyond { IfOk result (λ count. drop count into.new ≡ drop count into.old) }
    ensures err { OnErr result (into.new ≡ into.old) }
    ensures answers { ReadAnswers (refused_read at (seen (tree_of tree.now) path.now)) result }
    ensures memory { IfErr result (λ e. e ≢ ReadError.Memory) }
    ensures no_fault { IfErr result (λ e. e ≢ ReadError.Fault) }
{
    match tree.kind(path) {
        Seen::Missing => Err(ReadError::Missing),
        Seen::NotDir => Err(ReadError::NotDir),
        Seen::Dir => Err(ReadError::IsDir),
        Seen::File { .. } => read_file(tree, path, at, into),
    }
}

// The digest of the first bytes of a file.
fn digest_file(tree: &MemTree, path: &Path, length: u64) -> Result<[u8; 16], ReadError>
    requires { IsSome (bytes_of (tree_of tree.now path.now)) }
    ensures value { IfOk result (IsChecksum length (tree_of tree.now path.now)) }
    ensures answers { ReadAnswers (refused_read length (seen_node (tree_of tree.now path.now))) result }
    ensures memory { IfErr result (λ e. e ≢ ReadError.Memory) }
    ensures no_fault { IfErr result (λ e. e ≢ ReadError.Fault) }
{
    match tree.bytes(path) {
        Some(bytes) => {
            if length > bytes.len() as u64 {
                return Err(ReadError::Short);
            }
            Ok(Md5::digest(&bytes[..length as usize]))
        }
        None => unreachable!(),
    }
}

// The digest of the first bytes of what must be a file.
pub fn checksum(tree: &MemTree, path: &Path, length: u64) -> Result<[u8; 16], ReadError>
    ensures value { IfOk result (IsChecksum length (tree_of tree.now path.now)) }
    ensures answers { ReadAnswers (refused_read length (seen (tree_of tree.now) path.now)) result }
    ensures memory { IfErr result (λ e. e ≢ ReadError.Memory) }
    ensures no_fault { IfErr result (λ e. e ≢ ReadError.Fault) }
{
    match tree.kind(path) {
        Seen::Missing => Err(ReadError::Missing),
        Seen::NotDir => Err(ReadError::NotDir),
        Seen::Dir => Err(ReadError::IsDir),
        Seen::File { .. } => digest_file(tree, path, length),
    }
}
