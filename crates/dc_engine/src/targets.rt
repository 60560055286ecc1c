//! Whether the target will do, and the path under which all is put.
#![tactic(auto)]

ghost use Rattle.std.specs.Prelude.{◌≡◌, ◌+◌, ◌≤◌, true, false, not, Ok, Err, IfOk, IfErr, IfSome, OnOk, OnErr, length};
ghost use Rattle.std.specs.List.{list_any};
ghost use Rattle.std.specs.Option.{option_copied};
ghost use Rattle.dc_path.specs.Paths.{fits};
ghost use Rattle.dc_attrs.specs.Trees.{seen, is_hidden};
ghost use Rattle.dc_fs.specs.Views.{view, OnlyLooks, BothTell};
ghost use Rattle.dc_listing.specs.Errors.{Passes};
ghost use Rattle.dc_listing.specs.Roots.{is_absent, is_file};
ghost use Rattle.dc_engine.specs.Refusals.{Answers};
ghost use Rattle.dc_engine.specs.Targets.{work_name, work_folder, work_path, base_of, is_folder, is_under_file, is_hidden_given, is_in_snapshot, is_first_dir, overlap, test_shown, test_source, test_free, test_tmp, place_in, base_in, is_target_decided, is_from_source, is_from_target, IfLong};

use crate::BadTarget;
use dc_attrs::Seen;
use dc_fs::Store;
use dc_listing::Root;
use dc_options::Options;
use dc_path::{Name, OutOfMemory, Path, PathError};
use std::alloc::Global;

/// The name under which snapshots are read.
const SNAPSHOT: &str = ".snapshot";

/// The name of what is filled before it is moved to the target.
const WORK: &str = ".distcp.work";

/// Why the target will not do.
#[derive(Drop)]
pub(crate) enum TargetError {
    /// A test of the target fails.
    Bad { kind: BadTarget },
    /// The work path passes the limits, by its folder and its name.
    TooLong { parent: Path, name: Name },
    /// The work path stands already.
    WorkExists { path: Path },
    /// The source failed.
    SourceFault,
    /// The target failed.
    TargetFault,
    /// Memory ran out.
    Memory,
}

impl From<OutOfMemory> for TargetError {
    ghost use Rattle.std.specs.Prelude.{◌≡◌};
    ghost use Rattle.dc_engine.specs.declared.targets.TargetError.TheVariants.{Memory};

    ghost from_gives = { λ _ e. e ≡ Memory };

    fn from(_lack: OutOfMemory) -> TargetError {
        TargetError::Memory
    }
}

// Whether nothing stands there.
fn is_absent(shown: Seen) -> bool
    ensures { result ≡ is_absent shown }
{
    matches!(shown, Seen::Missing | Seen::NotDir)
}

// Whether a file stands there.
fn is_file(shown: Seen) -> bool
    ensures { result ≡ is_file shown }
{
    matches!(shown, Seen::File { .. })
}

// Whether a directory stands there.
fn is_folder(shown: Seen) -> bool
    ensures { result ≡ is_folder shown }
{
    matches!(shown, Seen::Dir)
}

// Whether a file stands above.
fn is_under_file(shown: Seen) -> bool
    ensures { result ≡ is_under_file shown }
{
    matches!(shown, Seen::NotDir)
}

// Whether a path has the name of snapshots.
fn is_hidden(path: &Path) -> bool
    ensures { result ≡ is_hidden path.now }
{
    path.names().iter().any(|name| SNAPSHOT == name.as_str())
}

// Whether a path is given that has the name of snapshots.
fn is_hidden_given(path: Option<&Path>) -> bool
    ensures { result ≡ is_hidden_given (option_copied path.entry) }
{
    match path {
        Some(path) => is_hidden(path),
        None => false,
    }
}

// Whether the place of a source has the name of snapshots.
fn is_any_hidden(roots: &[Root]) -> bool
    ensures { result ≡ list_any (λ root. is_hidden root.prefix) roots.now }
{
    roots.iter().any(|root| is_hidden(&root.prefix))
}

// Whether the target, the folder of `-tmp` or the place of a source has the name of snapshots.
fn is_in_snapshot(options: &Options, roots: &[Root]) -> bool
    ensures { result ≡ is_in_snapshot options.now roots.now }
{
    is_hidden(options.target()) || is_hidden_given(options.tmp()) || is_any_hidden(roots)
}

// Tests the names of paths, what stands at the target, and how many sources there are.
fn test_shown(options: &Options, shown: Seen, roots: &[Root]) -> Result<(), TargetError>
    ensures { result ≡ test_shown options.now shown roots.now }
{
    let kind = if is_in_snapshot(options, roots) {
        BadTarget::InSnapshot
    } else if is_under_file(shown) {
        BadTarget::UnderFile
    } else if is_file(shown) && roots.len() > 1 {
        BadTarget::ManyOntoFile
    } else {
        return Ok(());
    };
    Err(TargetError::Bad { kind })
}

// Whether the first source is a directory.
fn is_first_dir<S: Store>(source: &mut S, roots: &[Root]) -> Result<bool, TargetError>
    ensures source { OnlyLooks (view S.Store source.old) (view S.Store source.new) result is_from_source }
    ensures looks { S.looks source.new ≤ S.looks source.old + 1 }
    ensures value { IfOk result (λ dir. IfSome (S.tree source.old) (λ s. dir ≡ is_first_dir s roots.now)) }
    ensures only { IfErr result (λ e. e ≡ TargetError.SourceFault) }
{
    let Some(root) = roots.first() else {
        return Ok(false);
    };
    match source.kind(&root.source) {
        Ok(shown) => Ok(is_folder(shown)),
        Err(_) => Err(TargetError::SourceFault),
    }
}

// Tests that a directory is not put onto a file. The source is looked at only where the target is a file.
fn test_source<S: Store>(source: &mut S, shown: Seen, roots: &[Root]) -> Result<(), TargetError>
    ensures source { OnlyLooks (view S.Store source.old) (view S.Store source.new) result is_from_source }
    ensures looks { S.looks source.new ≤ S.looks source.old + 1 }
    ensures tested { IfSome (S.tree source.old) (λ s. Answers is_target_decided result (test_source s shown roots.now)) }
    ensures target { IfErr result (λ e. is_from_target e ≡ false) }
    ensures too_long { IfErr result (λ e. IfLong e Passes) }
{
    if !is_file(shown) {
        return Ok(());
    }
    let dir = is_first_dir(source, roots)?;
    if dir {
        return Err(TargetError::Bad {
            kind: BadTarget::DirOntoFile,
        });
    }
    Ok(())
}

// Tests that with `-atomic` nothing stands at the target.
fn test_free(options: &Options, shown: Seen) -> Result<(), TargetError>
    ensures { result ≡ test_free options.now shown }
{
    if options.atomic() && !is_absent(shown) {
        return Err(TargetError::Bad {
            kind: BadTarget::AtomicExists,
        });
    }
    Ok(())
}

/// What stands at a path of the target.
pub(crate) fn look<T: Store>(target: &mut T, path: &Path) -> Result<Seen, TargetError>
    ensures target { OnlyLooks (view T.Store target.old) (view T.Store target.new) result is_from_target }
    ensures looks { T.looks target.new ≤ T.looks target.old + 1 }
    ensures seen { IfOk result (λ shown. IfSome (T.tree target.old) (λ t. shown ≡ seen t path.now)) }
    ensures only { IfErr result (λ e. e ≡ TargetError.TargetFault) }
{
    match target.kind(path) {
        Ok(shown) => Ok(shown),
        Err(_) => Err(TargetError::TargetFault),
    }
}

// Tests that the folder of `-tmp`, where it is given, is a directory of the target.
fn test_tmp<T: Store>(options: &Options, target: &mut T) -> Result<(), TargetError>
    ensures target { OnlyLooks (view T.Store target.old) (view T.Store target.new) result is_from_target }
    ensures looks { T.looks target.new ≤ T.looks target.old + 1 }
    ensures tested { IfSome (T.tree target.old) (λ t. Answers is_target_decided result (test_tmp options.now t)) }
    ensures source { IfErr result (λ e. is_from_source e ≡ false) }
    ensures too_long { IfErr result (λ e. IfLong e Passes) }
{
    let Some(tmp) = options.tmp() else {
        return Ok(());
    };
    let shown = look(target, tmp)?;
    if !is_folder(shown) {
        return Err(TargetError::Bad {
            kind: BadTarget::NoTmp,
        });
    }
    Ok(())
}

// The folder of the work path.
fn work_folder(alloc: Global, options: &Options) -> Result<Path, OutOfMemory>
    ensures { IfOk result (λ p. p ≡ work_folder options.now) }
{
    if let Some(tmp) = options.tmp() {
        return tmp.copy(alloc);
    }
    match options.target().parent(alloc)? {
        Some(folder) => Ok(folder),
        None => Ok(Path::root(alloc)),
    }
}

// The refusal of a work path that passes the limits.
fn too_long<T: Drop>(alloc: Global, parent: &Path, name: Name) -> Result<T, TargetError>
    ensures refused { IfErr result (λ e. is_target_decided e ≡ true → e ≡ TargetError.TooLong parent.now name) }
    ensures never { OnOk result ⊥ }
    ensures source { IfErr result (λ e. is_from_source e ≡ false) }
    ensures target { IfErr result (λ e. is_from_target e ≡ false) }
{
    let parent = parent.copy(alloc)?;
    Err(TargetError::TooLong { parent, name })
}

// The name of the work path.
fn work_name(alloc: Global) -> Result<Name, OutOfMemory>
    ensures { IfOk result (λ name. name ≡ work_name) }
{
    Name::read(alloc, WORK).map_err(|_| OutOfMemory)
}

// The work path in a folder.
fn work_path(alloc: Global, folder: &Path) -> Result<Path, TargetError>
    ensures path { IfOk result (λ p. p ≡ work_path folder.now) }
    ensures within { OnOk result (fits (work_path folder.now) ≡ true) }
    ensures past { IfErr result (λ e. is_target_decided e ≡ true → fits (work_path folder.now) ≡ false) }
    ensures refused { IfErr result (λ e. is_target_decided e ≡ true → e ≡ TargetError.TooLong folder.now work_name) }
    ensures too_long { IfErr result (λ e. IfLong e Passes) }
    ensures source { IfErr result (λ e. is_from_source e ≡ false) }
    ensures target { IfErr result (λ e. is_from_target e ≡ false) }
{
    let name = work_name(alloc)?;
    match folder.child(alloc, &name) {
        Ok(work) => Ok(work),
        Err(PathError::TooDeep | PathError::TooLong) => too_long(alloc, folder, name),
        Err(_) => Err(TargetError::Memory),
    }
}

// Whether two paths are one, or one is above the other.
fn overlap(one: &Path, other: &Path) -> bool
    ensures { result ≡ overlap one.now other.now }
{
    other.starts_with(one) || one.starts_with(other)
}

// A path at which nothing stands yet.
fn free_path<T: Store>(target: &mut T, path: Path) -> Result<Path, TargetError>
    ensures target { OnlyLooks (view T.Store target.old) (view T.Store target.new) result is_from_target }
    ensures looks { T.looks target.new ≤ T.looks target.old + 1 }
    ensures path { IfOk result (λ p. p ≡ path) }
    ensures free { OnOk result (IfSome (T.tree target.old) (λ t. is_absent (seen t path) ≡ true)) }
    ensures taken { IfErr result (λ e. is_target_decided e ≡ true → IfSome (T.tree target.old) (λ t. is_absent (seen t path) ≡ false)) }
    ensures refused { IfErr result (λ e. is_target_decided e ≡ true → e ≡ TargetError.WorkExists path) }
    ensures source { IfErr result (λ e. is_from_source e ≡ false) }
    ensures too_long { IfErr result (λ e. IfLong e Passes) }
{
    let shown = look(target, &path)?;
    if is_absent(shown) {
        Ok(path)
    } else {
        Err(TargetError::WorkExists { path })
    }
}

// The path under which all is put: the target, or with `-atomic` the work path.
fn place<T: Store>(alloc: Global, options: &Options, target: &mut T) -> Result<Path, TargetError>
    ensures target { OnlyLooks (view T.Store target.old) (view T.Store target.new) result is_from_target }
    ensures looks { T.looks target.new ≤ T.looks target.old + 1 }
    ensures base { IfOk result (λ p. p ≡ base_of options.now) }
    ensures place { IfSome (T.tree target.old) (λ t. Answers is_target_decided result (place_in options.now t)) }
    ensures source { IfErr result (λ e. is_from_source e ≡ false) }
    ensures too_long { IfErr result (λ e. IfLong e Passes) }
{
    if !options.atomic() {
        return Ok(options.target().copy(alloc)?);
    }
    let folder = work_folder(alloc, options)?;
    let work = work_path(alloc, &folder)?;
    if overlap(&work, options.target()) {
        return Err(TargetError::Bad {
            kind: BadTarget::TmpInside,
        });
    }
    free_path(target, work)
}

/// The path under which all is put, where the target will do, by what was seen there.
pub(crate) fn find_base<S: Store, T: Store>(
    alloc: Global,
    options: &Options,
    source: &mut S,
    target: &mut T,
    shown: Seen,
    roots: &[Root],
) -> Result<Path, TargetError>
    ensures source { OnlyLooks (view S.Store source.old) (view S.Store source.new) result is_from_source }
    ensures target { OnlyLooks (view T.Store target.old) (view T.Store target.new) result is_from_target }
    ensures source_looks { S.looks source.new ≤ S.looks source.old + 1 }
    ensures target_looks { T.looks target.new ≤ T.looks target.old + 2 }
    ensures base { IfOk result (λ p. p ≡ base_of options.now) }
    ensures answers { BothTell (S.tree source.old) (T.tree target.old) (λ s t. Answers is_target_decided result (base_in options.now s t shown roots.now)) }
    ensures too_long { IfErr result (λ e. IfLong e Passes) }
{
    test_shown(options, shown, roots)?;
    test_source(source, shown, roots)?;
    test_free(options, shown)?;
    test_tmp(options, target)?;
    place(alloc, options, target)
}
