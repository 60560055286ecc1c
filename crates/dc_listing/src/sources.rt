//! Where each source is read, and where it is put under the target.
#![tactic(auto)]

ghost use Rattle.std.specs.Prelude.{◌≡◌, ◌+◌, ◌≤◌, [], ◌∷◌, ◌++◌, map, true, false, Ok, Err, IfOk, IfErr, IfSome, IsTrue, length};
ghost use Rattle.std.specs.List.{list_all};
ghost use Rattle.dc_path.specs.Unless.{GivesUnless};
ghost use Rattle.dc_attrs.specs.Trees.{seen, snapshot};
ghost use Rattle.dc_fs.specs.Views.{view, OnlyLooks};
ghost use Rattle.dc_listing.specs.Errors.{is_fault, is_of_roots, IfTooLong, Passes, stepped};
ghost use Rattle.dc_listing.specs.Roots.{is_absent, is_put_on, prefix_of, last_of, and_then, plain_root, dir_root, snapshot_path, snapshot_in, read_at, source_of, is_well_put, root_at, roots_of, RootAnswers};

use crate::steps::step;
use crate::{ListError, Root};
use dc_attrs::Seen;
use dc_fs::Store;
use dc_options::{Options, SyncBy};
use dc_path::{List, Name, OutOfMemory, Path};
use std::alloc::Global;
use std::marker::Model;

/// The name under which snapshots are read.
const SNAPSHOT: &str = ".snapshot";

// What decides where sources are put.
#[derive(Drop)]
struct Placer {
    // Whether they are put anew on what the target has.
    anew: bool,
    // Whether there is one source alone.
    only: bool,
    // What stands at the target.
    target: Seen,
}

impl Model for Placer {
    ghost use Rattle.dc_listing.specs.Roots.{Placing};

    ghost Value = { Placing };

    ghost view = { λ p. record { anew = p.anew; only = p.only; target = p.target } };
}

// Whether nothing stands there.
fn is_absent(shown: Seen) -> bool
    ensures { result ≡ is_absent shown }
{
    matches!(shown, Seen::Missing | Seen::NotDir)
}

impl Placer {
    // Whether the source is itself put at the target path.
    fn puts_on_target(&self, shown: Seen) -> bool
        ensures { result ≡ is_put_on self.now shown }
    {
        match shown {
            Seen::Dir => self.anew || (self.only && is_absent(self.target)),
            Seen::File { .. } => {
                self.only && (is_absent(self.target) || matches!(self.target, Seen::File { .. }))
            }
            Seen::Missing | Seen::NotDir => false,
        }
    }

    // The path of a source under the target.
    fn prefix(&self, alloc: Global, shown: Seen, path: &Path) -> Result<Path, OutOfMemory>
        ensures { IfOk result (λ p. p ≡ prefix_of self.now shown path.now) }
    {
        if self.puts_on_target(shown) {
            return Ok(Path::root(alloc));
        }
        last_name(alloc, path)
    }
}

// The last name alone.
#[tactic(auto, using(crate::proofs::NameLemmas::last_is, crate::proofs::NameLemmas::last_none))]
fn last_name(alloc: Global, path: &Path) -> Result<Path, OutOfMemory>
    ensures { IfOk result (λ p. p ≡ last_of path.now) }
{
    let root = Path::root(alloc);
    let Some(name) = path.last() else {
        return Ok(root);
    };
    match root.child(alloc, name) {
        Ok(name) => Ok(name),
        Err(_) => Err(OutOfMemory),
    }
}

// What stands at a path of the source.
fn look<S: Store>(source: &mut S, path: &Path) -> Result<Seen, ListError>
    ensures source { OnlyLooks (view S.Store source.old) (view S.Store source.new) result is_fault }
    ensures looks { S.looks source.new ≤ S.looks source.old + 1 }
    ensures only { IfErr result (λ e. e ≡ ListError.Fault) }
    ensures seen { IfOk result (λ shown. IfSome (S.tree source.old) (λ s. shown ≡ seen s path.now)) }
{
    match source.kind(path) {
        Ok(shown) => Ok(shown),
        Err(_) => Err(ListError::Fault),
    }
}

// The refusal of a source that is not there.
fn no_source<T: Drop>(alloc: Global, path: &Path) -> Result<T, ListError>
    ensures { GivesUnless ListError.Memory result (Err (ListError.NoSource path.now)) }
{
    let path = path.copy(alloc)?;
    Err(ListError::NoSource { path })
}

// The root of a source that is read as it is.
#[tactic(auto, using(crate::proofs::RootLemmas::prefix_put))]
fn plain_root<S: Store>(
    alloc: Global,
    source: &mut S,
    placer: &Placer,
    path: &Path,
) -> Result<Root, ListError>
    ensures source { OnlyLooks (view S.Store source.old) (view S.Store source.new) result is_fault }
    ensures looks { S.looks source.new ≤ S.looks source.old + 1 }
    ensures kind { IfErr result (λ e. IsTrue (is_of_roots e)) }
    ensures too_long { IfErr result (λ e. IfTooLong e Passes) }
    ensures read { IfOk result (λ root. root.source ≡ path.now) }
    ensures put { IfOk result (λ root. is_well_put root ≡ true) }
    ensures answers { IfSome (S.tree source.old) (λ s. RootAnswers result (plain_root placer.now s path.now)) }
{
    let shown = look(source, path)?;
    if is_absent(shown) {
        return no_source(alloc, path);
    }
    let prefix = placer.prefix(alloc, shown, path)?;
    let source = path.copy(alloc)?;
    Ok(Root { source, prefix })
}

// The path of a source's snapshot.
fn path_of_snapshot(alloc: Global, path: &Path, name: &Name) -> Result<Path, ListError>
    ensures value { GivesUnless ListError.Memory result (snapshot_path path.now name.now) }
    ensures read { IfOk result (λ p. p ≡ (path.now ++ snapshot ∷ []) ++ name.now ∷ []) }
    ensures too_long { IfErr result (λ e. IfTooLong e Passes) }
    ensures kind { IfErr result (λ e. IsTrue (is_of_roots e)) }
    ensures no_fault { IfErr result (λ e. is_fault e ≡ false) }
{
    let Ok(snapshots) = Name::read(alloc, SNAPSHOT) else {
        return Err(ListError::Memory);
    };
    let folder = step(alloc, path, &snapshots)?;
    step(alloc, &folder, name)
}

// The root of a source that is read at a snapshot.
fn snapshot_root<S: Store>(
    alloc: Global,
    source: &mut S,
    path: &Path,
    name: &Name,
) -> Result<Root, ListError>
    ensures source { OnlyLooks (view S.Store source.old) (view S.Store source.new) result is_fault }
    ensures looks { S.looks source.new ≤ S.looks source.old + 1 }
    ensures kind { IfErr result (λ e. IsTrue (is_of_roots e)) }
    ensures too_long { IfErr result (λ e. IfTooLong e Passes) }
    ensures read { IfOk result (λ root. root.source ≡ (path.now ++ snapshot ∷ []) ++ name.now ∷ []) }
    ensures put { IfOk result (λ root. is_well_put root ≡ true) }
    ensures answers { IfSome (S.tree source.old) (λ s. RootAnswers result (and_then (snapshot_path path.now name.now) (λ p. dir_root p (seen s p)))) }
{
    let snapshot = path_of_snapshot(alloc, path, name)?;
    dir_root_at(alloc, source, snapshot)
}

// The root of a directory.
fn dir_root_at<S: Store>(alloc: Global, source: &mut S, path: Path) -> Result<Root, ListError>
    ensures source { OnlyLooks (view S.Store source.old) (view S.Store source.new) result is_fault }
    ensures looks { S.looks source.new ≤ S.looks source.old + 1 }
    ensures kind { IfErr result (λ e. IsTrue (is_of_roots e)) }
    ensures too_long { IfErr result (λ e. IfTooLong e Passes) }
    ensures read { IfOk result (λ root. root.source ≡ path) }
    ensures put { IfOk result (λ root. is_well_put root ≡ true) }
    ensures answers { IfSome (S.tree source.old) (λ s. RootAnswers result (dir_root path (seen s path))) }
{
    match look(source, &path)? {
        Seen::Dir => Ok(Root {
            source: path,
            prefix: Path::root(alloc),
        }),
        Seen::File { .. } | Seen::Missing | Seen::NotDir => Err(ListError::NoSource { path }),
    }
}

// The root of a source.
fn root_of<S: Store>(
    alloc: Global,
    source: &mut S,
    placer: &Placer,
    by: &SyncBy,
    path: &Path,
) -> Result<Root, ListError>
    ensures source { OnlyLooks (view S.Store source.old) (view S.Store source.new) result is_fault }
    ensures looks { S.looks source.new ≤ S.looks source.old + 1 }
    ensures kind { IfErr result (λ e. IsTrue (is_of_roots e)) }
    ensures too_long { IfErr result (λ e. IfTooLong e Passes) }
    ensures read { IfOk result (λ root. root.source ≡ read_at (snapshot_in by.now) path.now) }
    ensures put { IfOk result (λ root. is_well_put root ≡ true) }
    ensures answers { IfSome (S.tree source.old) (λ s. RootAnswers result (root_at placer.now s (snapshot_in by.now) path.now)) }
{
    match by {
        SyncBy::None => plain_root(alloc, source, placer, path),
        SyncBy::Diff { to, .. } => snapshot_root(alloc, source, path, to),
        SyncBy::Rdiff { older, .. } => snapshot_root(alloc, source, path, older),
    }
}

/// Where each source is read, and where it is put under the target, by the options and what stands at the target path
/// (Hadoop DistCp Guide, "Update and Overwrite").
///
/// Put at the target itself are: a file that is the only source, where nothing or a file stands at the target; a directory,
/// where it is the only source and nothing stands at the target, or with `-update` or `-overwrite`; and the path `/`. Every
/// other source is put at its last name. With `-diff` and `-rdiff` a source is read at its snapshot, and put at the target
/// itself (HDFS-7535, HDFS-9820).
///
/// # Errors
///
/// The first source that is refused decides.
///
/// - `TooLong`, exactly where the path of its snapshot passes the limits;
/// - `NoSource`, exactly where nothing stands at the source, or no directory at the path of its snapshot, which is named then;
/// - `Fault`, only where the store's count of faults rose;
/// - `Memory`, which may come in the place of any answer.
pub fn roots<S: Store>(
    alloc: Global,
    source: &mut S,
    options: &Options,
    sources: &List<Path>,
    target: Seen,
) -> Result<List<Root>, ListError>
    ensures source { OnlyLooks (view S.Store source.old) (view S.Store source.new) result is_fault }
    ensures looks { S.looks source.new ≤ S.looks source.old + length sources.now }
    ensures kind { IfErr result (λ e. IsTrue (is_of_roots e)) }
    ensures too_long { IfErr result (λ e. IfTooLong e Passes) }
    ensures read { IfOk result (λ roots. map source_of roots ≡ map (read_at (snapshot_in options.now.sync)) sources.now) }
    ensures put { IfOk result (λ roots. IsTrue (list_all is_well_put roots)) }
    ensures answers { IfSome (S.tree source.old) (λ s. RootAnswers result (roots_of options.now target s sources.now)) }
{
    let placer = Placer {
        anew: options.update() || options.overwrite(),
        only: sources.len() == 1,
        target,
    };
    let mut roots = List::new(alloc);
    for path in sources.as_slice() {
        let root = root_of(alloc, source, &placer, options.sync(), path)?;
        roots.add(root)?;
    }
    Ok(roots)
}
