//! The drill: a run over stores in memory, with a source that two numbers make.
#![tactic(auto)]

ghost use Rattle.std.specs.Prelude.{◌≡◌, ℕ, ◌%◌, ◌≢◌, ◌≤◌, ◌<◌, ◌⊎◌, ◌↔◌, ◌++◌, ◌∷◌, [], true, false, codes, map, min, None, Ok, IfOk, OnOk};
ghost use Rattle.std.specs.List.{range_with_len};
ghost use Rattle.std.specs.Fmt.{decimal};
ghost use Rattle.std.specs.Option.{option_map};
ghost use Rattle.dc_path.specs.Reading.{path_from};
ghost use Rattle.dc_attrs.specs.Attributes.{default_file};
ghost use Rattle.dc_attrs.specs.Trees.{File, bare, with_node};
ghost use Rattle.dc_fs.specs.Causes.{Rose};
ghost use Rattle.dc_tree.specs.Arena.{tree_of};
ghost use Rattle.dc_engine.specs.Running.{commits};
ghost use Rattle.dc_plain.specs.Left.{AreCountsOf};
ghost use Rattle.dc_output.specs.Output.{lines};
ghost use Rattle.dc_cli.specs.Drills.{dir_path, drill_source, drill_target, drill_tree, file_bytes, file_path};
ghost use Rattle.dc_cli.specs.DrillSteps.{way_tree, with_dir, with_dirs, with_files};
ghost use Rattle.dc_engine.specs.declared.outcome.Counts.{Counts};

use crate::distcp;
use dc_attrs::Attrs;
use dc_engine::{Counts, Outcome};
use dc_filter::RegexPatterns;
use dc_fs::Sink;
use dc_memfs::{Fails, MemSource, MemTarget};
use dc_output::{Answer, print_no_memory};
use dc_path::{List, Name, OutOfMemory, Path, Text};
use dc_plain::laws::plain_laws;
use dc_tree::MemTree;
use std::alloc::Global;
use std::thread::Threads;

/// The fewest files of a drill.
pub const MIN_COUNT: u32 = 2;

/// The most files of a drill.
pub const MAX_COUNT: u32 = 200_000;

/// How many directories the files of a drill are spread over, where there are as many files.
const SPREAD: u32 = 4;

/// The directory that a drill copies.
const SOURCE: &str = "/src/.snapshot/s1";

/// The path that a drill copies to.
const TARGET: &str = "/dst";

/// How a drill ended.
#[derive(Clone, Copy, Debug, PartialEq, Eq)]
pub enum Drilled {
    /// The run committed.
    Reached,
    /// The run ended in another way, and neither for want of memory nor of the sink. No drill ends so.
    NotReached,
    /// There would be fewer than 2 or more than 200,000 files. Nothing was done.
    BadCount,
    /// The sink did not take all lines.
    Unprinted,
    /// Memory ran out.
    Memory,
}

// The name that is a letter and a number.
fn numbered(alloc: Global, letter: &str, number: u32) -> Result<Name, OutOfMemory>
    ensures { IfOk result (λ name. name ≡ letter.now ++ decimal number) }
{
    let text = format!(in alloc; "{letter}{number}")?;
    Name::read(alloc, text.as_str()).map_err(|_| OutOfMemory)
}

// The path of such a name in a directory.
fn below(alloc: Global, dir: &Path, letter: &str, number: u32) -> Result<Path, OutOfMemory>
    ensures { IfOk result (λ path. path ≡ dir.now ++ (letter.now ++ decimal number) ∷ []) }
{
    let name = numbered(alloc, letter, number)?;
    dir.child(alloc, &name).map_err(|_| OutOfMemory)
}

// The bytes of the file with a number.
fn content(alloc: Global, seed: u64, number: u32) -> Result<List<u8>, OutOfMemory>
    ensures { IfOk result (λ bytes. bytes ≡ file_bytes seed number) }
{
    let length = seed.wrapping_add(7 * u64::from(number)) % 100;
    let first = seed.wrapping_add(u64::from(number));
    let mut bytes = Vec::with_capacity(alloc, length as usize)?;
    for place in 0..length {
        bytes.push((first.wrapping_add(place) % 256) as u8)?;
    }
    Ok(List::of(bytes))
}

// The path that a text reads as.
fn path(alloc: Global, text: &str) -> Result<Path, OutOfMemory>
    ensures { IfOk result (λ path. path_from text.now ≡ Ok path) }
{
    match Path::read(alloc, text) {
        Ok(path) => Ok(path),
        Err(_) => Err(OutOfMemory),
    }
}

// Makes a default directory.
#[tactic(auto, using(dc_tree::proofs::FittingLemmas::default_dir_fits))]
fn add_dir(alloc: Global, tree: &mut MemTree, path: &Path) -> Result<(), OutOfMemory>
    ensures { OnOk result (tree_of tree.new ≡ with_dir path.now (tree_of tree.old)) }
{
    tree.make_dir(alloc, path, Attrs::default_dir(alloc))
        .map_err(|_| OutOfMemory)
}

// The tree of the directory that is copied and of those above it, all with nothing else in them.
fn new_tree(alloc: Global, snapshot: &Path) -> Result<MemTree, OutOfMemory>
    requires { snapshot.now ≡ drill_source }
    ensures { IfOk result (λ tree. tree_of tree ≡ way_tree) }
{
    let mut tree = MemTree::new(alloc)?;
    add_dir(alloc, &mut tree, &path(alloc, "/src")?)?;
    add_dir(alloc, &mut tree, &path(alloc, "/src/.snapshot")?)?;
    add_dir(alloc, &mut tree, snapshot)?;
    Ok(tree)
}

// Makes the directories in which files stand, and answers their paths.
fn add_dirs(
    alloc: Global,
    tree: &mut MemTree,
    snapshot: &Path,
    count: u32,
) -> Result<List<Path>, OutOfMemory>
    requires { snapshot.now ≡ drill_source }
    ensures paths { IfOk result (λ dirs. dirs ≡ map dir_path (range_with_len 0 (min count 4))) }
    ensures tree { OnOk result (tree_of tree.new ≡ with_dirs (min count 4) (tree_of tree.old)) }
{
    let mut dirs = List::new(alloc);
    for number in 0..count.min(SPREAD) {
        let dir = below(alloc, snapshot, "d", number)?;
        add_dir(alloc, tree, &dir)?;
        dirs.push(dir).map_err(|_| OutOfMemory)?;
    }
    Ok(dirs)
}

// Puts the file with a number into its directory.
#[tactic(auto, using(dc_tree::proofs::FittingLemmas::default_file_fits))]
fn add_file(
    alloc: Global,
    tree: &mut MemTree,
    dir: &Path,
    seed: u64,
    number: u32,
) -> Result<(), OutOfMemory>
    requires { dir.now ≡ dir_path (number % 4) }
    ensures { OnOk result (tree_of tree.new ≡ with_node (tree_of tree.old) (file_path number) (File (file_bytes seed number) default_file)) }
{
    let path = below(alloc, dir, "f", number)?;
    let bytes = content(alloc, seed, number)?;
    tree.put(alloc, &path, bytes, Attrs::default_file(alloc))
        .map_err(|_| OutOfMemory)
}

// Puts all files into their directories.
fn add_files(
    alloc: Global,
    tree: &mut MemTree,
    dirs: &[Path],
    seed: u64,
    count: u32,
) -> Result<(), OutOfMemory>
    requires { dirs.now ≡ map dir_path (range_with_len 0 (min count 4)) }
    ensures { OnOk result (tree_of tree.new ≡ with_files seed count (tree_of tree.old)) }
{
    for number in 0..count {
        let Some(dir) = dirs.get((number % SPREAD) as usize) else {
            return Err(OutOfMemory);
        };
        add_file(alloc, tree, dir, seed, number)?;
    }
    Ok(())
}

// The tree that is copied.
fn build(alloc: Global, seed: u64, count: u32) -> Result<MemTree, OutOfMemory>
    ensures { IfOk result (λ tree. tree_of tree ≡ drill_tree seed count) }
{
    let snapshot = path(alloc, SOURCE)?;
    let mut tree = new_tree(alloc, &snapshot)?;
    let dirs = add_dirs(alloc, &mut tree, &snapshot, count)?;
    add_files(alloc, &mut tree, dirs.as_slice(), seed, count)?;
    Ok(tree)
}

// The words of the run.
fn run_words(alloc: Global) -> Result<List<Text>, OutOfMemory>
    ensures { IfOk result (λ words. words ≡ codes "/src/.snapshot/s1" ∷ codes "/dst" ∷ []) }
{
    let source = Text::read(alloc, SOURCE)?;
    let target = Text::read(alloc, TARGET)?;
    let mut words = List::new(alloc);
    words.push(source).map_err(|_| OutOfMemory)?;
    words.push(target).map_err(|_| OutOfMemory)?;
    Ok(words)
}

/// What a drill needs memory for before its run.
#[derive(Drop)]
struct Setup {
    /// The tree that is copied.
    source: MemTree,
    /// The tree that is copied to.
    target: MemTree,
    /// The words of the run.
    words: List<Text>,
}

// Makes ready what the run needs.
fn set_up(alloc: Global, seed: u64, count: u32) -> Result<Setup, OutOfMemory>
    ensures source { IfOk result (λ setup. tree_of setup.source ≡ drill_tree seed count) }
    ensures target { IfOk result (λ setup. tree_of setup.target ≡ bare) }
    ensures words { IfOk result (λ setup. setup.words ≡ codes "/src/.snapshot/s1" ∷ codes "/dst" ∷ []) }
{
    Ok(Setup {
        source: build(alloc, seed, count)?,
        target: MemTree::new(alloc)?,
        words: run_words(alloc)?,
    })
}

// Runs over stores in memory, and prints.
fn run_setup<R: Threads + Sync, O: Sink>(rt: &R, alloc: Global, setup: Setup, out: &mut O) -> Answer
    requires { setup.words ≡ codes "/src/.snapshot/s1" ∷ codes "/dst" ∷ [] }
    ensures ended { (seed count : ℕ) → count ≤ 200000 → tree_of setup.source ≡ drill_tree seed count → tree_of setup.target ≡ bare → (result.outcome ≡ Outcome.Committed) ⊎ (result.outcome ≡ Outcome.Memory) }
    ensures counts { (seed count : ℕ) → tree_of setup.source ≡ drill_tree seed count → tree_of setup.target ≡ bare → result.outcome ≡ Outcome.Committed → AreCountsOf (drill_tree seed count) drill_source drill_target result.counts }
    ensures printed { result.printed ≡ true → O.bytes out.new ≡ option_map (λ old. old ++ lines result.outcome result.counts) (O.bytes out.old) }
    ensures no_counts { commits result.outcome ≡ false → result.counts ≡ Counts.NONE }
    ensures later { O.faults out.old ≤ O.faults out.new }
    ensures cause { result.printed ≡ false → Rose (O.faults out.old) (O.faults out.new) }
{
    let own = Fails::none(alloc);
    let forks = Fails::none(alloc);
    let Setup {
        source: tree,
        target: empty,
        words,
    } = setup;
    let mut source = MemSource::new(&tree, &own, &forks);
    let mut target = MemTarget::new(alloc, empty, Fails::none(alloc), Fails::none(alloc));
    let mut pats = RegexPatterns::new(None);
    plain_laws();
    distcp(
        rt,
        alloc,
        words.as_slice(),
        &mut source,
        &mut target,
        &mut pats,
        out,
    )
}

// Makes ready what a run needs, runs, and prints.
fn run_drill<R: Threads + Sync, O: Sink>(
    rt: &R,
    alloc: Global,
    seed: u64,
    count: u32,
    out: &mut O,
) -> Answer
    ensures ended { count ≤ 200000 → (result.outcome ≡ Outcome.Committed) ⊎ (result.outcome ≡ Outcome.Memory) }
    ensures counts { result.outcome ≡ Outcome.Committed → AreCountsOf (drill_tree seed count) drill_source drill_target result.counts }
    ensures printed { result.printed ≡ true → O.bytes out.new ≡ option_map (λ old. old ++ lines result.outcome result.counts) (O.bytes out.old) }
    ensures no_counts { commits result.outcome ≡ false → result.counts ≡ Counts.NONE }
    ensures later { O.faults out.old ≤ O.faults out.new }
    ensures cause { result.printed ≡ false → Rose (O.faults out.old) (O.faults out.new) }
{
    match set_up(alloc, seed, count) {
        Ok(setup) => run_setup(rt, alloc, setup, out),
        Err(OutOfMemory) => print_no_memory(out),
    }
}

// What a run's answer makes of a drill.
fn drilled_by(answer: &Answer) -> Drilled
    ensures reached { result ≡ Drilled.Reached → (answer.now.outcome ≡ Outcome.Committed) × (answer.now.printed ≡ true) }
    ensures other { result ≡ Drilled.NotReached → (answer.now.outcome ≡ Outcome.Committed) ⊎ (answer.now.outcome ≡ Outcome.Memory) → ⊥ }
    ensures memory { result ≡ Drilled.Memory → (answer.now.outcome ≡ Outcome.Memory) × (answer.now.printed ≡ true) }
    ensures unprinted { result ≡ Drilled.Unprinted → answer.now.printed ≡ false }
    ensures done { result ≢ Drilled.BadCount }
{
    match &answer.outcome {
        _ if !answer.printed => Drilled::Unprinted,
        Outcome::Committed => Drilled::Reached,
        Outcome::Memory => Drilled::Memory,
        _ => Drilled::NotReached,
    }
}

// Drills a number of files that is within the limits.
fn drill_within<R: Threads + Sync, O: Sink>(
    rt: &R,
    alloc: Global,
    seed: u64,
    count: u32,
    out: &mut O,
) -> Drilled
    ensures within { result ≢ Drilled.BadCount }
    ensures reached { result ≡ Drilled.Reached → (counts : Counts) × AreCountsOf (drill_tree seed count) drill_source drill_target counts × (O.bytes out.new ≡ option_map (λ old. old ++ lines Outcome.Committed counts) (O.bytes out.old)) }
    ensures never { count ≤ 200000 → result ≢ Drilled.NotReached }
    ensures memory { result ≡ Drilled.Memory → O.bytes out.new ≡ option_map (λ old. old ++ lines Outcome.Memory Counts.NONE) (O.bytes out.old) }
    ensures unprinted { result ≡ Drilled.Unprinted → Rose (O.faults out.old) (O.faults out.new) }
    ensures later { O.faults out.old ≤ O.faults out.new }
{
    drilled_by(&run_drill(rt, alloc, seed, count, out))
}

/// Copies a directory of `count` small files between two stores in memory, and prints what the run prints.
///
/// The files are spread over four directories at most. The seed decides their lengths, of at most 99 bytes, and their
/// bytes. It takes memory for both trees at once.
pub fn drill<R: Threads + Sync, O: Sink>(
    rt: &R,
    alloc: Global,
    seed: u64,
    count: u32,
    out: &mut O,
) -> Drilled
    ensures bad_count { (result ≡ Drilled.BadCount) ↔ ((count < 2) ⊎ (200000 < count)) }
    ensures untouched { result ≡ Drilled.BadCount → out.new ≡ out.old }

    // A drill that is reached has printed the counters of its files and directories. Its stores never fail, so only the sink and
    // want of memory keep it from that.
    ensures reached { result ≡ Drilled.Reached → (counts : Counts) × AreCountsOf (drill_tree seed count) drill_source drill_target counts × (O.bytes out.new ≡ option_map (λ old. old ++ lines Outcome.Committed counts) (O.bytes out.old)) }
    ensures never { result ≢ Drilled.NotReached }
    ensures memory { result ≡ Drilled.Memory → O.bytes out.new ≡ option_map (λ old. old ++ lines Outcome.Memory Counts.NONE) (O.bytes out.old) }

    ensures unprinted { result ≡ Drilled.Unprinted → Rose (O.faults out.old) (O.faults out.new) }
    ensures later { O.faults out.old ≤ O.faults out.new }
{
    if !(MIN_COUNT..=MAX_COUNT).contains(&count) {
        return Drilled::BadCount;
    }
    drill_within(rt, alloc, seed, count, out)
}
