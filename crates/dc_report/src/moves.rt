//! The moves that replay a report on a tree.
#![tactic(auto)]

ghost use Rattle.std.specs.Prelude.{◌≡◌, ◌≢◌, ℕ, ◌++◌, ◌<◌, ◌^◌, ◌||◌, ◌&&◌, not, cond, [], ◌∷◌, map, true, false, None, Ok, IfOk, OnOk, string_bytes};
ghost use Rattle.std.specs.List.{list_any, filter_map};
ghost use Rattle.std.specs.Option.{option_copied};
ghost use Rattle.std.specs.BTreeSet.{contains};
ghost use Rattle.dc_path.specs.Names.{is_name};
ghost use Rattle.dc_path.specs.Paths.{Names, IsPath, path_cmp, same_path};
ghost use Rattle.dc_path.specs.Reading.{within_limits};
ghost use Rattle.dc_path.specs.Unless.{GivesUnless};
ghost use Rattle.dc_path.specs.declared.path.PathError.TheVariants.{Memory};
ghost use Rattle.dc_report.specs.Carries.{carries_in};
ghost use Rattle.dc_report.specs.Carrying.{carries_of, place_of, plan};
ghost use Rattle.dc_report.specs.Landings.{landings_of, NewsDiffer, landed, is_at, is_above_last, is_fresh_at, made_along, landings_moves};
ghost use Rattle.dc_report.specs.Moves.{label_of, limited_move, limited_moves, below, moves, moves_of, root_moves, stage_name, staging};
ghost use Rattle.dc_report.specs.Told.{AreTold};
ghost use Rattle.dc_report.specs.declared.entries.Move.TheVariants.{Make, Shift};

use crate::carries::{Carries, place};
use crate::unlimited::no_memory;
use crate::{Entry, Move};
use dc_path::{List, Name, OutOfMemory, Path, PathError};
use std::alloc::Global;
use std::collections::{BTreeMap, BTreeSet};

// The new paths of renamed items, each with the number of the item in the stage.
type Landings = BTreeMap<Path, u64>;

// What stands on the ways to new paths: the places of what is created, and the new paths themselves.
#[derive(Drop)]
struct Ground {
    places: BTreeSet<Path>,
    landings: Landings,
}

// The name with a text that is one, so want of memory is the one error.
fn name_of(alloc: Global, text: &str) -> Result<Name, OutOfMemory>
    requires { is_name text.now ≡ true }
    ensures { IfOk result (λ name. name ≡ text.now) }
{
    match Name::read(alloc, text) {
        Ok(name) => Ok(name),
        Err(_) => Err(OutOfMemory),
    }
}

// The path of the stage.
fn stage_path(alloc: Global) -> Result<Path, OutOfMemory>
    ensures { IfOk result (λ stage. stage ≡ stage_name ∷ []) }
{
    let name = name_of(alloc, ".distcp.stage")?;
    Path::root(alloc).child_within(alloc, &name)
}

// The path in the stage of the item with this number.
fn slot(alloc: Global, stage: &Path, label: u64) -> Result<Path, OutOfMemory>
    requires { stage.now ≡ stage_name ∷ [] }
    ensures { IfOk result (λ path. path ≡ stage_name ∷ label_of label ∷ []) }
{
    let text = format!(in alloc; "{label}")?;
    let name = name_of(alloc, text.as_str())?;
    stage.child_within(alloc, &name)
}

// Adds the move of the item with this number into the stage.
fn push_staged(
    alloc: Global,
    stage: &Path,
    label: u64,
    old: &Path,
    moves: &mut List<Move>,
) -> Result<(), OutOfMemory>
    requires { stage.now ≡ stage_name ∷ [] }
    ensures { OnOk result (moves.new ≡ moves.old ++ Shift old.now (stage_name ∷ label_of label ∷ []) ∷ []) }
{
    let from = old.copy(alloc)?;
    let to = slot(alloc, stage, label)?;
    moves.add(Move::Shift { from, to })
}

// Adds the move of the item with this number out of the stage.
fn push_landed(
    alloc: Global,
    stage: &Path,
    label: u64,
    new: &Path,
    moves: &mut List<Move>,
) -> Result<(), OutOfMemory>
    requires { stage.now ≡ stage_name ∷ [] }
    ensures { OnOk result (moves.new ≡ moves.old ++ Shift (stage_name ∷ label_of label ∷ []) new.now ∷ []) }
{
    let from = slot(alloc, stage, label)?;
    let to = new.copy(alloc)?;
    moves.add(Move::Shift { from, to })
}

// Adds the new path of the item with this number, where it has one.
fn land(
    alloc: Global,
    landings: &mut Landings,
    new: &Option<Path>,
    label: u64,
) -> Result<(), OutOfMemory>
    ensures { OnOk result (landings.new.entries ≡ landed new.now label landings.old.entries) }
{
    if let Some(new) = new {
        let new = new.copy(alloc)?;
        landings.insert(new, label)?;
    }
    Ok(())
}

// Adds the moves into the stage, the greatest old path first; the new paths, with the numbers in the stage.
fn stage_all(
    alloc: Global,
    stage: &Path,
    carries: &Carries,
    moves: &mut List<Move>,
) -> Result<Landings, OutOfMemory>
    requires stage { stage.now ≡ stage_name ∷ [] }
    requires apart { NewsDiffer (carries_in carries.now.entries) }
    ensures moves { OnOk result (moves.new ≡ moves.old ++ staging stage_name (carries_in carries.now.entries)) }
    ensures landings { IfOk result (λ landings. landings.entries ≡ landings_of (carries_in carries.now.entries)) }
{
    let mut landings = BTreeMap::new(alloc);
    let mut label = 0u64;
    for (old, new) in carries.iter().rev() {
        push_staged(alloc, stage, label, old, moves)?;
        land(alloc, &mut landings, new, label)?;
        label += 1;
    }
    Ok(landings)
}

// Adds the place of what an entry creates, unless it passes the limits of a path.
fn add_place(
    alloc: Global,
    entry: &Entry,
    carries: &Carries,
    places: &mut BTreeSet<Path>,
) -> Result<(), OutOfMemory>
    ensures { OnOk result ((q : Names) → IsPath q → contains path_cmp places.new q ≡ (contains path_cmp places.old q || is_at (place_of (carries_in carries.now.entries) entry.now) q)) }
{
    let Entry::Created(path) = entry else {
        return Ok(());
    };
    match place(carries, alloc, path) {
        Ok(Some(found)) => {
            places.insert(found)?;
            Ok(())
        }
        Ok(None) => Ok(()),
        Err(error) => {
            no_memory(error)?;
            Ok(())
        }
    }
}

// The places of what the entries create, but for those that pass the limits of a path.
fn all_places(
    alloc: Global,
    entries: &List<Entry>,
    carries: &Carries,
) -> Result<BTreeSet<Path>, OutOfMemory>
    ensures { IfOk result (λ places. (q : Names) → IsPath q → contains path_cmp places q ≡ list_any (λ c. same_path c q) (filter_map (place_of (carries_in carries.now.entries)) entries.now)) }
{
    let mut places = BTreeSet::new(alloc);
    for entry in entries.as_slice() {
        add_place(alloc, entry, carries, &mut places)?;
    }
    Ok(places)
}

// Whether a path is to be made, by whether its parent is.
fn is_fresh(ground: &Ground, path: &Path, before: bool) -> bool
    ensures { result ≡ is_fresh_at ground.now path.now before }
{
    ground.places.contains(path) || (!ground.landings.contains_key(path) && before)
}

// Whether a path is a proper prefix of the new path before, where there is one.
fn is_above(last: Option<&Path>, path: &Path) -> bool
    ensures { result ≡ is_above_last (option_copied last.entry) path.now }
{
    match last {
        Some(new) => path.len() < new.len() && new.starts_with(path),
        None => false,
    }
}

// Adds the move that makes a parent, unless it is not to be made or stands above the new path before.
fn push_parent(
    alloc: Global,
    fresh: bool,
    last: Option<&Path>,
    path: &Path,
    moves: &mut List<Move>,
) -> Result<(), OutOfMemory>
    ensures { OnOk result (moves.new ≡ moves.old ++ map Make (cond (fresh && not (is_above_last (option_copied last.entry) path.now)) (path.now ∷ []) [])) }
{
    if !fresh || is_above(last, path) {
        return Ok(());
    }
    let path = path.copy(alloc)?;
    moves.add(Move::Make { path })
}

// Adds the moves that make the parents of a new path, but for those above the new path before.
fn push_parents(
    alloc: Global,
    ground: &Ground,
    last: Option<&Path>,
    new: &Path,
    moves: &mut List<Move>,
) -> Result<(), OutOfMemory>
    ensures { OnOk result (moves.new ≡ moves.old ++ map Make (made_along ground.now (option_copied last.entry) false [] new.now)) }
{
    let mut front = Path::root(alloc);
    let mut fresh = false;
    for count in 0..new.len() {
        fresh = is_fresh(ground, &front, fresh);
        push_parent(alloc, fresh, last, &front, moves)?;
        let Some(name) = new.name(count) else {
            return Ok(());
        };
        front = front.child_within(alloc, name)?;
    }
    Ok(())
}

// Adds the moves out of the stage, the least new path first.
fn land_all(
    alloc: Global,
    stage: &Path,
    ground: &Ground,
    moves: &mut List<Move>,
) -> Result<(), OutOfMemory>
    requires { stage.now ≡ stage_name ∷ [] }
    ensures { OnOk result (moves.new ≡ moves.old ++ landings_moves stage_name ground.now None ground.now.landings.entries) }
{
    let mut last = None;
    for (new, label) in ground.landings.iter() {
        push_parents(alloc, ground, last, new, moves)?;
        push_landed(alloc, stage, *label, new, moves)?;
        last = Some(new);
    }
    Ok(())
}

// The moves of a report that deletes or renames something, below the root.
fn moves_from(
    alloc: Global,
    entries: &List<Entry>,
    carries: &Carries,
) -> Result<List<Move>, OutOfMemory>
    requires told { AreTold [] entries.now }
    requires carries { carries_in carries.now.entries ≡ carries_of entries.now }
    requires apart { NewsDiffer (carries_in carries.now.entries) }
    ensures { IfOk result (λ steps. steps ≡ moves stage_name (plan entries.now)) }
{
    let stage = stage_path(alloc)?;
    let mut moves = List::new(alloc);
    let path = stage.copy(alloc)?;
    moves.add(Move::Make { path })?;
    let landings = stage_all(alloc, &stage, carries, &mut moves)?;
    let places = all_places(alloc, entries, carries)?;
    let ground = Ground { places, landings };
    land_all(alloc, &stage, &ground, &mut moves)?;
    moves.add(Move::Clear { path: stage })?;
    Ok(moves)
}

// A move below a base.
fn move_below(alloc: Global, base: &Path, step: &Move) -> Result<Move, PathError>
    ensures { GivesUnless Memory result (limited_move (below base.now step.now)) }
{
    match step {
        Move::Make { path } => {
            let path = base.join(alloc, path)?;
            Ok(Move::Make { path })
        }
        Move::Shift { from, to } => {
            let from = base.join(alloc, from)?;
            let to = base.join(alloc, to)?;
            Ok(Move::Shift { from, to })
        }
        Move::Clear { path } => {
            let path = base.join(alloc, path)?;
            Ok(Move::Clear { path })
        }
    }
}

// All moves below a base.
fn moves_below(alloc: Global, base: &Path, steps: &List<Move>) -> Result<List<Move>, PathError>
    ensures { GivesUnless Memory result (limited_moves (map (below base.now) steps.now)) }
{
    let mut moves = List::new(alloc);
    for step in steps.as_slice() {
        let placed = move_below(alloc, base, step)?;
        moves.add(placed)?;
    }
    Ok(moves)
}

/// The moves of a report below the root; none where nothing is deleted or renamed. `OutOfMemory` is the one error.
pub fn root_moves(
    alloc: Global,
    entries: &List<Entry>,
    carries: &Carries,
) -> Result<List<Move>, OutOfMemory>
    requires told { AreTold [] entries.now }
    requires carries { carries_in carries.now.entries ≡ carries_of entries.now }
    ensures { IfOk result (λ steps. steps ≡ root_moves stage_name entries.now) }
{
    if carries.len() == 0 {
        return Ok(List::new(alloc));
    }
    moves_from(alloc, entries, carries)
}

/// The moves of a report below a base; none where nothing is deleted or renamed.
///
/// # Errors
///
/// - `TooDeep` and `TooLong`, exactly where a path of the moves passes that limit of `Path`: the first path that passes
///   one, in the order of the moves and in a `Shift` `from` before `to`, decides;
/// - `Memory`, which may come in the place of any answer.
pub fn report_moves(
    alloc: Global,
    base: &Path,
    entries: &List<Entry>,
    carries: &Carries,
) -> Result<List<Move>, PathError>
    requires told { AreTold [] entries.now }
    requires carries { carries_in carries.now.entries ≡ carries_of entries.now }
    ensures { GivesUnless Memory result (limited_moves (moves_of stage_name base.now entries.now)) }
{
    let steps = root_moves(alloc, entries, carries)?;
    moves_below(alloc, base, &steps)
}
