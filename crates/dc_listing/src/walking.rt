//! The walk below a root: each directory's names in order, with what stands at and under each.
#![tactic(auto)]

ghost use Rattle.std.specs.Prelude.{◌≡◌, ◌+◌, ◌*◌, ◌<◌, ◌≤◌, Bool, true, false, List, [], ◌∷◌, ◌++◌, length, Some, Ok, Err, IfOk, IfErr, OnOk, OnErr, IfSome, IsErrOf, IsTrue, None};
ghost use Rattle.std.specs.Option.{is_some};
ghost use Rattle.std.specs.List.{list_all};
ghost use Rattle.std.specs.List.Sorted.{IsStrictlySortedBy};
ghost use Rattle.std.specs.Cmp.Lexicographic.{slice_cmp};
ghost use Rattle.std.specs.Ordering.{nat_cmp};
ghost use Rattle.dc_path.specs.Found.{has_path};
ghost use Rattle.dc_path.specs.Paths.{joined, fits, same_path};
ghost use Rattle.dc_path.specs.Unless.{GivesUnless};
ghost use Rattle.dc_attrs.specs.Trees.{IsTree, IsThere, IsDirAt, seen};
ghost use Rattle.dc_attrs.specs.declared.shown.Seen.TheVariants as seen_as;
ghost use Rattle.dc_fs.specs.Answers.{refused_status};
ghost use Rattle.dc_fs.specs.Looks.{is_shown, AreNames, fits_kind};
ghost use Rattle.dc_fs.specs.Views.{view, OnlyLooks};
ghost use Rattle.dc_listing.specs.Entries.{entry_with};
ghost use Rattle.dc_listing.specs.Errors.{is_fault, is_of_walk, is_of_look, is_of_names, is_of_add, IfTooLong, Passes, IsChanged};
ghost use Rattle.dc_listing.specs.Listed.{rules_of};
ghost use Rattle.dc_listing.specs.Walks.{max_items};
ghost use Rattle.dc_listing.specs.Walking.{dir_at, IsAmong, entered, put, is_in, is_below, WalksPart, WalksPlace, GainsEntry};

use crate::steps::{step, too_long};
use crate::{Item, ListError, MAX_ITEMS, Root};
use dc_filter::Searches;
use dc_fs::{ReadError, Status, Store};
use dc_path::{List, MAX_BYTES, MAX_NAMES, Name, OutOfMemory, Path};
use std::alloc::Global;

/// What a walk goes by, from its beginning to its end.
#[derive(Drop)]
pub(crate) struct Walk<'w> {
    /// The root.
    pub root: &'w Root,
    /// The relative paths that are left out.
    pub without: &'w List<Path>,
    /// The path under which places are within the limits.
    pub base: &'w Path,
}

/// The two paths of what a walk has come to.
#[derive(Drop)]
pub(crate) struct Place {
    /// The path in the source.
    pub from: Path,
    /// The path under the target.
    pub rel: Path,
}

// The two paths of a directory.
#[derive(Clone, Copy)]
struct Here<'d> {
    from: &'d Path,
    rel: &'d Path,
}

// The paths of the directory: of the item at this place, or of the root.
fn dir_here<'d>(root: &'d Root, items: &'d List<Item>, at: Option<usize>) -> Here<'d>
    ensures from { result.from.now ≡ (dir_at root.now items.now at).from }
    ensures rel { result.rel.now ≡ (dir_at root.now items.now at).rel }
{
    let item = match at {
        Some(place) => items.get(place),
        None => None,
    };
    match item {
        Some(item) => Here {
            from: item.from(),
            rel: item.rel(),
        },
        None => Here {
            from: &root.source,
            rel: &root.prefix,
        },
    }
}

// The bytes of a path's text, a `/` before each name.
fn bytes_of(path: &Path) -> usize
    ensures value { result ≡ length (joined path.now) }
    ensures few { result ≤ 4096 }
{
    let _count = path.len();
    let mut bytes = 0usize;
    for name in path.names() {
        bytes += name.as_str().len() + 1;
    }
    bytes
}

// Whether a directory's place has room for a name more.
fn has_room(base: &Path, rel: &Path, name: &Name) -> bool
    ensures { result ≡ fits (base.now ++ (rel.now ++ name.now ∷ [])) }
{
    let bytes = bytes_of(base) + bytes_of(rel) + name.as_str().len() + 1;
    base.len() + rel.len() < MAX_NAMES && bytes <= MAX_BYTES
}

// The refusal of a place under the base.
fn too_long_under<T: Drop>(
    alloc: Global,
    base: &Path,
    rel: &Path,
    name: &Name,
) -> Result<T, ListError>
    requires { IsTrue (fits (base.now ++ rel.now)) }
    ensures { GivesUnless ListError.Memory result (Err (ListError.TooLong (base.now ++ rel.now) name.now)) }
{
    match base.join(alloc, rel) {
        Ok(parent) => too_long(alloc, &parent, name),
        Err(_) => Err(ListError::Memory),
    }
}

// Whether a path is a directory's path with this name more.
#[tactic(auto, using(crate::proofs::NameLemmas::ends_are_same, crate::proofs::NameLemmas::root_is_no_child))]
fn is_child(path: &Path, dir: &Path, name: &Name) -> bool
    ensures { result ≡ same_path path.now (dir.now ++ name.now ∷ []) }
{
    match path.names().split_last() {
        Some((last, front)) => last == name && front == dir.names(),
        None => false,
    }
}

// Whether a directory's path with this name more is in the list, which is gone through from its start.
fn has_child(paths: &List<Path>, dir: &Path, name: &Name) -> bool
    ensures { result ≡ has_path paths.now (dir.now ++ name.now ∷ []) }
{
    paths.iter().any(|path| is_child(path, dir, name))
}

// What has this name in a directory, at its place under the target.
fn put(
    alloc: Global,
    base: &Path,
    dir: Here<'_>,
    name: &Name,
    from: Path,
) -> Result<Option<Place>, ListError>
    requires within { IsTrue (fits (base.now ++ dir.rel.now)) }
    requires child { from ≡ dir.from.now ++ name.now ∷ [] }
    ensures too_long { IfErr result (λ e. IfTooLong e Passes) }
    ensures kind { IfErr result (λ e. IsTrue (is_of_walk e)) }
    ensures unchanged { IfErr result (λ e. IsChanged e → ⊥) }
    ensures not_full { IsErrOf result ListError.TooMany → ⊥ }
    ensures no_fault { IfErr result (λ e. is_fault e ≡ false) }
    ensures value { GivesUnless ListError.Memory result (put base.now (record { from = dir.entry.from.now; rel = dir.entry.rel.now }) name.now) }
{
    if !has_room(base, dir.rel, name) {
        return too_long_under(alloc, base, dir.rel, name);
    }
    match dir.rel.child(alloc, name) {
        Ok(rel) => Ok(Some(Place { from, rel })),
        Err(_) => Err(ListError::Memory),
    }
}

// What has this name in a directory, unless it is left out.
fn enter(
    alloc: Global,
    searches: &mut Searches<'_>,
    walk: &Walk<'_>,
    dir: Here<'_>,
    name: &Name,
) -> Result<Option<Place>, ListError>
    requires { IsTrue (fits (walk.now.base.now ++ dir.rel.now)) }
    ensures searches { searches.new ≡ searches.old }
    ensures too_long { IfErr result (λ e. IfTooLong e Passes) }
    ensures kind { IfErr result (λ e. IsTrue (is_of_walk e)) }
    ensures unchanged { IfErr result (λ e. IsChanged e → ⊥) }
    ensures not_full { IsErrOf result ListError.TooMany → ⊥ }
    ensures no_fault { IfErr result (λ e. is_fault e ≡ false) }
    ensures entered { GivesUnless ListError.Memory result (entered (rules_of searches.old walk.now.without.now) walk.now.base.now (record { from = dir.entry.from.now; rel = dir.entry.rel.now }) name.now) }
{
    if has_child(walk.without, dir.rel, name) {
        return Ok(None);
    }
    let from = step(alloc, dir.from, name)?;
    if searches.excludes(alloc, &from)? {
        return Ok(None);
    }
    put(alloc, walk.base, dir, name, from)
}

// The names in a directory.
fn names_of<S: Store>(alloc: Global, source: &mut S, path: &Path) -> Result<List<Name>, ListError>
    ensures source { OnlyLooks (view S.Store source.old) (view S.Store source.new) result is_fault }
    ensures looks { S.looks source.new ≤ S.looks source.old + 1 }
    ensures ascending { IfOk result (IsStrictlySortedBy (slice_cmp nat_cmp)) }
    ensures shown { IfOk result (λ names. IsTrue (list_all is_shown names)) }
    ensures names { IfOk result (λ names. IfSome (S.tree source.old) (λ s. AreNames s path.now names)) }
    ensures changed { IfErr result (λ e. IsChanged e → IfSome (S.tree source.old) (λ s. seen s path.now ≡ seen_as.Dir → ⊥)) }
    ensures kind { IfErr result (λ e. IsTrue (is_of_names e)) }
    ensures too_long { IfErr result (λ e. IfTooLong e Passes) }
    ensures walk_kind { IfErr result (λ e. IsTrue (is_of_walk e)) }
    ensures not_full { IsErrOf result ListError.TooMany → ⊥ }
{
    match source.list(alloc, path) {
        Ok(names) => Ok(names),
        Err(ReadError::Fault) => Err(ListError::Fault),
        Err(ReadError::Memory) => Err(ListError::Memory),
        Err(ReadError::Missing) => changed(alloc, path),
        Err(ReadError::NotDir) => changed(alloc, path),
        Err(ReadError::IsDir) => changed(alloc, path),
        Err(ReadError::Short) => changed(alloc, path),
    }
}

/// The refusal of a store that denies what it showed.
pub(crate) fn changed<T: Drop>(alloc: Global, path: &Path) -> Result<T, ListError>
    ensures { GivesUnless ListError.Memory result (Err (ListError.Changed path.now)) }
{
    let path = path.copy(alloc)?;
    Err(ListError::Changed { path })
}

/// Adds an item of what a look has shown at a place, and answers whether it is a directory.
pub(crate) fn add(items: &mut List<Item>, place: Place, status: Status) -> Result<bool, ListError>
    requires { IsTrue (fits_kind status) }
    ensures dir { IfOk result (λ dir. dir ≡ status.dir) }
    ensures ok { OnOk result (items.new ≡ items.old ++ entry_with place.rel place.from status ∷ []) }
    ensures few { OnOk result (length items.old < max_items) }
    ensures stays { OnErr result (items.new ≡ items.old) }
    ensures full { IsErrOf result ListError.TooMany → max_items ≤ length items.old }
    ensures kind { IfErr result (λ e. IsTrue (is_of_add e)) }
    ensures too_long { IfErr result (λ e. IfTooLong e Passes) }
{
    if items.len() >= MAX_ITEMS {
        return Err(ListError::TooMany);
    }
    let dir = status.dir;
    let item = Item::new(place.rel, place.from, status);
    match items.push(item) {
        Ok(()) => Ok(dir),
        Err(_) => Err(ListError::Memory),
    }
}

// Adds the item of what stands at a place, and answers whether it is a directory.
fn visit<S: Store>(
    alloc: Global,
    source: &mut S,
    place: Place,
    items: &mut List<Item>,
) -> Result<bool, ListError>
    ensures source { OnlyLooks (view S.Store source.old) (view S.Store source.new) result is_fault }
    ensures looks { S.looks source.new ≤ S.looks source.old + 1 }
    ensures gains { IfOk result (λ dir. GainsEntry (S.tree source.old) place dir items.old items.new) }
    ensures few { OnOk result (length items.old < max_items) }
    ensures stays { OnErr result (items.new ≡ items.old) }
    ensures full { IsErrOf result ListError.TooMany → max_items ≤ length items.old }
    ensures changed { IfErr result (λ e. IsChanged e → IfSome (S.tree source.old) (λ s. refused_status (seen s place.from) ≡ None → ⊥)) }
    ensures kind { IfErr result (λ e. IsTrue (is_of_look e)) }
    ensures too_long { IfErr result (λ e. IfTooLong e Passes) }
    ensures walk_kind { IfErr result (λ e. IsTrue (is_of_walk e)) }
{
    match source.status(alloc, &place.from) {
        Ok(status) => add(items, place, status),
        Err(ReadError::Fault) => Err(ListError::Fault),
        Err(ReadError::Memory) => Err(ListError::Memory),
        Err(ReadError::Missing) => denied(place),
        Err(ReadError::NotDir) => denied(place),
        Err(ReadError::IsDir) => denied(place),
        Err(ReadError::Short) => denied(place),
    }
}

// The refusal of a store that denies what it showed at a place.
fn denied<T: Drop>(place: Place) -> Result<T, ListError>
    ensures { result ≡ Err (ListError.Changed place.from) }
{
    Err(ListError::Changed { path: place.from })
}

// Adds what stands at and under one name of a directory.
#[cycle(walk)]
fn walk_child<S: Store>(
    alloc: Global,
    source: &mut S,
    searches: &mut Searches<'_>,
    walk: &Walk<'_>,
    at: Option<usize>,
    name: &Name,
    items: &mut List<Item>,
) -> Result<(), ListError>
    requires among { IsAmong items.old at }
    requires within { IsTrue (fits (walk.now.base.now ++ (dir_at walk.now.root.now items.old at).rel)) }
    requires shown { IsTrue (is_shown name.now) }
    requires there { IfSome (S.tree source.old) (λ s. IsTrue (is_some (s ((dir_at walk.now.root.now items.old at).from ++ name.now ∷ [])))) }
    ensures source { OnlyLooks (view S.Store source.old) (view S.Store source.new) result is_fault }
    ensures looks { OnOk result (S.looks source.new + 2 * length items.old ≤ S.looks source.old + 2 * length items.new) }
    ensures searches { searches.new ≡ searches.old }
    ensures few { length items.old ≤ max_items → length items.new ≤ max_items }
    ensures walks { WalksPart (S.tree source.old) (rules_of searches.old walk.now.without.now) (dir_at walk.now.root.now items.old at) walk.now.base.now (is_in (name.now ∷ [])) result items.old items.new }
    ensures full { IsErrOf result ListError.TooMany → max_items ≤ length items.new }
    ensures too_long { IfErr result (λ e. IfTooLong e Passes) }
    ensures changed { IfErr result (λ e. IsChanged e → IfSome (S.tree source.old) (λ s. IsTree s → ⊥)) }
    ensures kind { IfErr result (λ e. IsTrue (is_of_walk e)) }
{
    let dir = dir_here(walk.root, items, at);
    let entered = enter(alloc, searches, walk, dir, name)?;
    match entered {
        Some(place) => walk_place(alloc, source, searches, walk, place, items),
        None => Ok(()),
    }
}

// Adds what stands at and under a place.
#[cycle(walk)]
fn walk_place<S: Store>(
    alloc: Global,
    source: &mut S,
    searches: &mut Searches<'_>,
    walk: &Walk<'_>,
    place: Place,
    items: &mut List<Item>,
) -> Result<(), ListError>
    requires within { IsTrue (fits (walk.now.base.now ++ place.rel)) }
    ensures source { OnlyLooks (view S.Store source.old) (view S.Store source.new) result is_fault }
    ensures looks { OnOk result (S.looks source.new + 2 * length items.old ≤ S.looks source.old + 2 * length items.new) }
    ensures searches { searches.new ≡ searches.old }
    ensures few { length items.old ≤ max_items → length items.new ≤ max_items }
    ensures walks { WalksPlace (S.tree source.old) (rules_of searches.old walk.now.without.now) place walk.now.base.now result items.old items.new }
    ensures full { IsErrOf result ListError.TooMany → max_items ≤ length items.new }
    ensures too_long { IfErr result (λ e. IfTooLong e Passes) }
    ensures changed { IfErr result (λ e. IsChanged e → IfSome (S.tree source.old) (λ s. IsTree s → IsThere s place.from → ⊥)) }
    ensures kind { IfErr result (λ e. IsTrue (is_of_walk e)) }
{
    let at = items.len();
    let dir = visit(alloc, source, place, items)?;
    if dir {
        walk_dir(alloc, source, searches, walk, Some(at), items)
    } else {
        Ok(())
    }
}

/// Adds what stands under a directory, in path order, without what is hidden or left out.
#[cycle(walk)]
pub(crate) fn walk_dir<S: Store>(
    alloc: Global,
    source: &mut S,
    searches: &mut Searches<'_>,
    walk: &Walk<'_>,
    at: Option<usize>,
    items: &mut List<Item>,
) -> Result<(), ListError>
    requires among { IsAmong items.old at }
    requires within { IsTrue (fits (walk.now.base.now ++ (dir_at walk.now.root.now items.old at).rel)) }
    ensures source { OnlyLooks (view S.Store source.old) (view S.Store source.new) result is_fault }
    ensures looks { OnOk result (S.looks source.new + 2 * length items.old ≤ S.looks source.old + 2 * length items.new + 1) }
    ensures searches { searches.new ≡ searches.old }
    ensures few { length items.old ≤ max_items → length items.new ≤ max_items }
    ensures walks { WalksPart (S.tree source.old) (rules_of searches.old walk.now.without.now) (dir_at walk.now.root.now items.old at) walk.now.base.now is_below result items.old items.new }
    ensures full { IsErrOf result ListError.TooMany → max_items ≤ length items.new }
    ensures too_long { IfErr result (λ e. IfTooLong e Passes) }
    ensures changed { IfErr result (λ e. IsChanged e → IfSome (S.tree source.old) (λ s. IsTree s → IsDirAt s (dir_at walk.now.root.now items.old at).from → ⊥)) }
    ensures kind { IfErr result (λ e. IsTrue (is_of_walk e)) }
{
    let dir = dir_here(walk.root, items, at);
    let names = names_of(alloc, source, dir.from)?;
    for name in names.as_slice() {
        walk_child(alloc, source, searches, walk, at, name, items)?;
    }
    Ok(())
}
