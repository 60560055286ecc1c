//! All tests of a report on a target, in their order.
#![tactic(auto)]

ghost use Rattle.std.specs.Prelude.{◌≡◌, ◌≤◌, ◌+◌, ◌*◌, ◌∷◌, [], ◌||◌, length, map, drop, IfOk, OnOk};
ghost use Rattle.std.specs.BTreeSet.{contains};
ghost use Rattle.std.specs.List.{filter_map, flat_map, list_any};
ghost use Rattle.dc_fs.specs.Views.{view};
ghost use Rattle.dc_path.specs.Paths.{Names, path_cmp, same_path};
ghost use Rattle.dc_report.specs.Carries.{carries_in, OldsFit};
ghost use Rattle.dc_report.specs.Carrying.{carries_of, is_made, place_of, plan};
ghost use Rattle.dc_report.specs.Landings.{is_at, sources_of};
ghost use Rattle.dc_report.specs.Moves.{paths_in, root_moves, stage_name};
ghost use Rattle.dc_report.specs.Told.{AreTold};
ghost use Rattle.dc_replay.specs.Limits.{check_answer, entry_answer, made_answer, moves_answer, new_answer, place_answer, tests_answer};
ghost use Rattle.dc_replay.specs.Replaying.{made_by};
ghost use Rattle.dc_replay.specs.TestAnswers.{Holds, first_answer, within};
ghost use Rattle.dc_sync.specs.Checks.{Tests, TestsPaths, if_there, renamed};

use crate::SyncError;
use crate::steps::step_on;
use crate::tests::{test_entry, test_made, test_new, test_place, test_stage};
use dc_fs::{Store, Target};
use dc_path::{List, OutOfMemory, Path};
use dc_report::{Carries, Entry, Move, Report};
use std::alloc::Global;
use std::collections::BTreeSet;

// The tests of what the entries need, in order.
fn test_entries<S: Store>(
    alloc: Global,
    store: &mut S,
    base: &Path,
    report: &Report,
) -> Result<(), SyncError>
    ensures tests { Tests (view S.Store store.old) (view S.Store store.new) base.now (λ A. first_answer (map (entry_answer base.now (plan report.now) A) report.now)) result }
    ensures looks { S.looks store.new ≤ S.looks store.old + length report.now }
{
    for entry in report.entries().as_slice() {
        test_entry(alloc, store, base, report, entry)?;
    }
    Ok(())
}

// The test of a new path, where it has an old one.
fn test_renamed<S: Store>(
    alloc: Global,
    store: &mut S,
    base: &Path,
    report: &Report,
    sources: &Carries,
    made: &BTreeSet<Path>,
    from: &Option<Path>,
    to: &Path,
) -> Result<(), SyncError>
    requires sources { sources.now.entries ≡ sources_of (carries_of report.now) }
    requires fit { OldsFit (carries_in sources.now.entries) }
    requires made { (q : Names) → contains path_cmp made.now q ≡ is_made (plan report.now) (plan report.now).news q }
    ensures tests { Tests (view S.Store store.old) (view S.Store store.new) base.now (λ A. if_there (λ old. new_answer base.now (plan report.now) A (renamed old to.now)) from.now) result }
    ensures looks { S.looks store.new ≤ S.looks store.old + 2 }
{
    match from {
        Some(from) => test_new(alloc, store, base, report, sources, made, from, to),
        None => Ok(()),
    }
}

// The tests of the new paths, from the least on.
fn test_news<S: Store>(
    alloc: Global,
    store: &mut S,
    base: &Path,
    report: &Report,
    sources: &Carries,
    made: &BTreeSet<Path>,
) -> Result<(), SyncError>
    requires sources { sources.now.entries ≡ sources_of (carries_of report.now) }
    requires fit { OldsFit (carries_in sources.now.entries) }
    requires made { (q : Names) → contains path_cmp made.now q ≡ is_made (plan report.now) (plan report.now).news q }
    ensures tests { Tests (view S.Store store.old) (view S.Store store.new) base.now (λ A. first_answer (map (λ e. if_there (λ old. new_answer base.now (plan report.now) A (renamed old e.0)) e.1) sources.now.entries)) result }
    ensures looks { S.looks store.new ≤ S.looks store.old + 2 * length sources.now.entries }
{
    for (to, from) in sources.iter() {
        test_renamed(alloc, store, base, report, sources, made, from, to)?;
    }
    Ok(())
}

// The test of the place of what an entry creates.
fn test_created_place<S: Store>(
    alloc: Global,
    store: &mut S,
    base: &Path,
    report: &Report,
    sources: &Carries,
    entry: &Entry,
) -> Result<(), SyncError>
    requires sources { sources.now.entries ≡ sources_of (carries_of report.now) }
    requires fit { OldsFit (carries_in sources.now.entries) }
    ensures tests { Tests (view S.Store store.old) (view S.Store store.new) base.now (λ A. if_there (place_answer base.now (plan report.now) A) (place_of (carries_of report.now) entry.now)) result }
    ensures looks { S.looks store.new ≤ S.looks store.old + 1 }
{
    let Entry::Created(path) = entry else {
        return Ok(());
    };
    match report.place_names(alloc, path)? {
        Some(place) => test_place(alloc, store, base, report, sources, place.as_slice()),
        None => Ok(()),
    }
}

// The tests of the places, in order of the entries.
fn test_places<S: Store>(
    alloc: Global,
    store: &mut S,
    base: &Path,
    report: &Report,
    sources: &Carries,
) -> Result<(), SyncError>
    requires sources { sources.now.entries ≡ sources_of (carries_of report.now) }
    requires fit { OldsFit (carries_in sources.now.entries) }
    ensures tests { Tests (view S.Store store.old) (view S.Store store.new) base.now (λ A. first_answer (map (place_answer base.now (plan report.now) A) (plan report.now).places)) result }
    ensures looks { S.looks store.new ≤ S.looks store.old + length report.now }
{
    for entry in report.entries().as_slice() {
        test_created_place(alloc, store, base, report, sources, entry)?;
    }
    Ok(())
}

// The moves behind the first, which makes the stage.
fn behind_stage(moves: &List<Move>) -> &[Move]
    ensures { result.now ≡ drop 1 moves.now }
{
    match moves.as_slice() {
        [_, rest @ ..] => rest,
        [] => &[],
    }
}

// The test of a parent that a move makes.
fn test_parent<S: Store>(
    alloc: Global,
    store: &mut S,
    base: &Path,
    report: &Report,
    sources: &Carries,
    one: &Move,
) -> Result<(), SyncError>
    requires sources { sources.now.entries ≡ sources_of (carries_of report.now) }
    requires fit { OldsFit (carries_in sources.now.entries) }
    ensures tests { Tests (view S.Store store.old) (view S.Store store.new) base.now (λ A. if_there (made_answer base.now (plan report.now) A) (made_by one.now)) result }
    ensures looks { S.looks store.new ≤ S.looks store.old + length (filter_map made_by (one.now ∷ [])) }
{
    match one {
        Move::Make { path } => test_made(alloc, store, base, report, sources, path),
        Move::Shift { .. } | Move::Clear { .. } => Ok(()),
    }
}

// The tests of the parents that moves make, in their order.
fn test_parents<S: Store>(
    alloc: Global,
    store: &mut S,
    base: &Path,
    report: &Report,
    sources: &Carries,
    moves: &[Move],
) -> Result<(), SyncError>
    requires sources { sources.now.entries ≡ sources_of (carries_of report.now) }
    requires fit { OldsFit (carries_in sources.now.entries) }
    ensures tests { Tests (view S.Store store.old) (view S.Store store.new) base.now (λ A. first_answer (map (made_answer base.now (plan report.now) A) (filter_map made_by moves.now))) result }
    ensures looks { S.looks store.new ≤ S.looks store.old + length (filter_map made_by moves.now) }
{
    for one in moves {
        test_parent(alloc, store, base, report, sources, one)?;
    }
    Ok(())
}

// Adds the parent that a move makes.
fn add_made(alloc: Global, one: &Move, made: &mut BTreeSet<Path>) -> Result<(), OutOfMemory>
    ensures { OnOk result ((q : Names) → contains path_cmp made.new q ≡ (contains path_cmp made.old q || is_at (made_by one.now) q)) }
{
    if let Move::Make { path } = one {
        let path = path.copy(alloc)?;
        made.insert(path)?;
    }
    Ok(())
}

// The parents that moves make.
fn made_parents(alloc: Global, moves: &[Move]) -> Result<BTreeSet<Path>, OutOfMemory>
    ensures { IfOk result (λ made. (q : Names) → contains path_cmp made q ≡ list_any (λ p. same_path p q) (filter_map made_by moves.now)) }
{
    let mut made = BTreeSet::new(alloc);
    for one in moves {
        add_made(alloc, one, &mut made)?;
    }
    Ok(made)
}

// The tests of the tree below the base, in their order.
fn test_tree<S: Store>(
    alloc: Global,
    store: &mut S,
    base: &Path,
    report: &Report,
    moves: &List<Move>,
) -> Result<(), SyncError>
    requires moves { moves.now ≡ root_moves stage_name report.now }
    requires told { AreTold [] report.now }
    ensures tests { Tests (view S.Store store.old) (view S.Store store.new) base.now (tests_answer base.now report.now) result }
    ensures looks { S.looks store.new ≤ S.looks store.old + 260 * length report.now }
{
    let sources = report.sources(alloc)?;
    let parents = behind_stage(moves);
    let made = made_parents(alloc, parents)?;
    test_entries(alloc, store, base, report)?;
    test_news(alloc, store, base, report, &sources, &made)?;
    test_places(alloc, store, base, report, &sources)?;
    test_parents(alloc, store, base, report, &sources, parents)
}

// The test that a path below the base is within the limits.
fn fit(alloc: Global, base: &Path, path: &Path) -> Result<(), SyncError>
    ensures { TestsPaths base.now (within base.now path.now Holds) result }
{
    step_on(alloc, base, path.names())?;
    Ok(())
}

// The same of the paths of a move.
fn fit_move(alloc: Global, base: &Path, one: &Move) -> Result<(), SyncError>
    ensures { TestsPaths base.now (first_answer (map (λ p. within base.now p Holds) (paths_in one.now))) result }
{
    match one {
        Move::Make { path } | Move::Clear { path } => fit(alloc, base, path),
        Move::Shift { from, to } => {
            fit(alloc, base, from)?;
            fit(alloc, base, to)
        }
    }
}

// The same of the paths of all moves.
fn fit_moves(alloc: Global, base: &Path, moves: &List<Move>) -> Result<(), SyncError>
    ensures { TestsPaths base.now (first_answer (map (λ p. within base.now p Holds) (flat_map paths_in moves.now))) result }
{
    for one in moves.as_slice() {
        fit_move(alloc, base, one)?;
    }
    Ok(())
}

/// Tests a report on a target before anything is changed: whether its moves may be made on the tree below the base (Hadoop
/// DistCp, `DistCpSync`; HDFS-7535). What the tests are, and what they give, say the laws of `dc_replay`: where all hold, no
/// move is refused (`checked`), and a true report is refused only where a path is too long (`accepted`).
///
/// The target is looked at by at most 1 + 260 looks for each entry, one look for each test; it is not walked.
///
/// # Errors
///
/// The first test that fails decides:
///
/// - `StageExists`, exactly where something stands at the stage, or a path of the report begins with its name;
/// - `ReportFalse` with the path at which the test fails, from the base on;
/// - `TooLong`, exactly where a path below the base passes the limits that a test would look for, a place that something is
///   moved to, or, where all tests hold, a path of the moves;
/// - `Fault`, only where the target's count of faults rose;
/// - `Memory`, which may come in the place of any answer.
pub fn check<T: Target>(
    alloc: Global,
    target: &mut T,
    base: &Path,
    report: &Report,
) -> Result<(), SyncError>
    ensures tests { Tests (view T.Store target.old) (view T.Store target.new) base.now (check_answer stage_name base.now report.now) result }
    ensures looks { T.looks target.new ≤ T.looks target.old + 1 + 260 * length report.now }
{
    // That they are entries which a text can tell is a clause of the call.
    let _entries = report.entries();
    test_stage(alloc, target, base, report)?;
    let moves = report.root_moves(alloc)?;
    test_tree(alloc, target, base, report, &moves)?;
    fit_moves(alloc, base, &moves)
}
