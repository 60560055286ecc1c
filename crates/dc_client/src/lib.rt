//! A worked example of a client: it copies a small directory with `distcp`, and reads back what came.
//!
//! The source holds the directory `/s` with the file `a`, the target nothing; both are stores in memory of which no call
//! fails. All that the contracts here promise follows from what the public contracts of `distcp`, of the stores and of the
//! trees promise, and from the laws of plain copies: nothing is known of how a copy goes. A client of its own stores would
//! write the same, with what it knows of them in the place of the small tree.
#![tactic(auto)]

#[cfg(test)]
mod tests;

ghost use Rattle.std.specs.Prelude.{◌≡◌, ◌⊎◌, [], ◌∷◌, Some, Ok, codes, true, IfOk, OnOk};
ghost use Rattle.dc_path.specs.Reading.{path_from};
ghost use Rattle.dc_attrs.specs.Attributes.{default_file, default_dir};
ghost use Rattle.dc_attrs.specs.Trees.{Dir, File, bare, with_node};
ghost use Rattle.dc_tree.specs.Arena.{tree_of};
ghost use Rattle.dc_client.specs.Small.{small, from_dir, to_file, small_words, small_landed, small_counts, small_lines, memory_line};

use dc_attrs::Attrs;
use dc_cli::distcp;
use dc_engine::Outcome;
use dc_filter::RegexPatterns;
use dc_fs::{Sink, Store};
use dc_memfs::{Fails, MemSink, MemSource, MemTarget};
use dc_output::Answer;
use dc_path::{List, OutOfMemory, Path, Text};
use dc_plain::laws::plain_laws;
use dc_tree::MemTree;
use std::alloc::Global;
use std::thread::Threads;

// The path that a text reads as.
fn read_path(alloc: Global, text: &str) -> Result<Path, OutOfMemory>
    ensures { IfOk result (λ path. path_from text.now ≡ Ok path) }
{
    match Path::read(alloc, text) {
        Ok(path) => Ok(path),
        Err(_) => Err(OutOfMemory),
    }
}

// The path of the directory that is copied.
#[tactic(auto, using(crate::proofs::SmallLemmas::reads))]
fn dir_path(alloc: Global) -> Result<Path, OutOfMemory>
    ensures { IfOk result (λ path. path ≡ from_dir) }
{
    read_path(alloc, "/s")
}

// The path of its file.
#[tactic(auto, using(crate::proofs::SmallLemmas::reads))]
fn file_path(alloc: Global) -> Result<Path, OutOfMemory>
    ensures { IfOk result (λ path. path ≡ codes "s" ∷ codes "a" ∷ []) }
{
    read_path(alloc, "/s/a")
}

// The path of the copy of that file.
#[tactic(auto, using(crate::proofs::SmallLemmas::reads))]
fn copy_path(alloc: Global) -> Result<Path, OutOfMemory>
    ensures { IfOk result (λ path. path ≡ to_file) }
{
    read_path(alloc, "/d/a")
}

// The bytes of the file.
fn file_bytes(alloc: Global) -> Result<List<u8>, OutOfMemory>
    ensures { IfOk result (λ bytes. bytes ≡ codes "hi") }
{
    let mut bytes = Vec::new(alloc);
    bytes.push(b'h')?;
    bytes.push(b'i')?;
    Ok(List::of(bytes))
}

// Makes a default directory.
fn add_dir(alloc: Global, tree: &mut MemTree, path: &Path) -> Result<(), OutOfMemory>
    ensures { OnOk result (tree_of tree.new ≡ with_node (tree_of tree.old) path.now (Dir default_dir)) }
{
    tree.make_dir(alloc, path, Attrs::default_dir(alloc))
        .map_err(|_| OutOfMemory)
}

// Makes a default file.
fn add_file(
    alloc: Global,
    tree: &mut MemTree,
    path: &Path,
    bytes: List<u8>,
) -> Result<(), OutOfMemory>
    ensures { OnOk result (tree_of tree.new ≡ with_node (tree_of tree.old) path.now (File bytes default_file)) }
{
    tree.put(alloc, path, bytes, Attrs::default_file(alloc))
        .map_err(|_| OutOfMemory)
}

/// The tree that is copied: the directory `/s` with the file `a`, whose bytes are `hi`. `OutOfMemory` is the one error.
pub fn source_tree(alloc: Global) -> Result<MemTree, OutOfMemory>
    ensures { IfOk result (λ tree. tree_of tree ≡ small (codes "s")) }
{
    let mut tree = MemTree::new(alloc)?;
    add_dir(alloc, &mut tree, &dir_path(alloc)?)?;
    add_file(alloc, &mut tree, &file_path(alloc)?, file_bytes(alloc)?)?;
    Ok(tree)
}

/// The words of the run, `/s` and `/d`. `OutOfMemory` is the one error.
pub fn words(alloc: Global) -> Result<List<Text>, OutOfMemory>
    ensures { IfOk result (λ words. words ≡ small_words) }
{
    let source = Text::read(alloc, "/s")?;
    let target = Text::read(alloc, "/d")?;
    let mut words = List::new(alloc);
    words.push(source).map_err(|_| OutOfMemory)?;
    words.push(target).map_err(|_| OutOfMemory)?;
    Ok(words)
}

/// A run that has ended: what it answered, the target as it was left, and what was printed.
#[derive(Drop)]
pub struct Ran {
    /// The answer.
    pub answer: Answer,
    /// The target.
    pub target: MemTarget,
    /// The sink.
    pub sink: MemSink,
}

/// Copies `/s` to `/d` between stores in memory of which no call fails, and prints to an empty sink.
///
/// The run commits, or memory runs out: no other outcome is left. Either way all lines are printed, and neither a
/// temporary nor a desk is left. A run that commits leaves exactly the copy.
pub fn run_small<R: Threads + Sync>(
    rt: &R,
    alloc: Global,
    tree: &MemTree,
    empty: MemTree,
    words: &[Text],
    mut sink: MemSink,
) -> Ran
    requires tree { tree_of tree.now ≡ small (codes "s") }
    requires empty { tree_of empty ≡ bare }
    requires words { words.now ≡ small_words }
    requires sink { ⟦<MemSink as Sink>⟧.bytes sink ≡ Some [] }
    requires limit { ⟦<MemSink as Sink>⟧.limit sink ≡ Some 1048576 }
    ensures ended { (result.answer.outcome ≡ Outcome.Committed) ⊎ (result.answer.outcome ≡ Outcome.Memory) }
    ensures tree { result.answer.outcome ≡ Outcome.Committed → ⟦<MemTarget as Store>⟧.tree result.target ≡ Some (small (codes "d")) }
    ensures landed { result.answer.outcome ≡ Outcome.Committed → (⟦<MemTarget as Store>⟧.rest result.target).landed ≡ small_landed }
    ensures counts { result.answer.outcome ≡ Outcome.Committed → result.answer.counts ≡ small_counts }
    ensures printed { result.answer.printed ≡ true }
    ensures lines { result.answer.outcome ≡ Outcome.Committed → ⟦<MemSink as Sink>⟧.bytes result.sink ≡ Some small_lines }
    ensures memory { result.answer.outcome ≡ Outcome.Memory → ⟦<MemSink as Sink>⟧.bytes result.sink ≡ Some memory_line }
    ensures temporaries { (⟦<MemTarget as Store>⟧.rest result.target).scratch ≡ 0 }
    ensures desks { (⟦<MemTarget as Store>⟧.rest result.target).desks_out ≡ 0 }
{
    let own = Fails::none(alloc);
    let forks = Fails::none(alloc);
    let mut source = MemSource::new(tree, &own, &forks);
    let mut target = MemTarget::new(alloc, empty, Fails::none(alloc), Fails::none(alloc));
    let mut pats = RegexPatterns::new(None);
    let answer = distcp(
        rt,
        alloc,
        words,
        &mut source,
        &mut target,
        &mut pats,
        &mut sink,
    );
    plain_laws();
    Ran {
        answer,
        target,
        sink,
    }
}

/// Copies `/s` to `/d`, and reads the file of the copy back: its bytes are those of the source.
///
/// # Errors
///
/// `OutOfMemory`, and nothing else.
pub fn copy_small<R: Threads + Sync>(rt: &R, alloc: Global) -> Result<Vec<u8>, OutOfMemory>
    ensures { IfOk result (λ bytes. bytes.items ≡ codes "hi") }
{
    let tree = source_tree(alloc)?;
    let empty = MemTree::new(alloc)?;
    let words = words(alloc)?;
    let sink = MemSink::new(alloc, None)?;
    let file = copy_path(alloc)?;
    let ran = run_small(rt, alloc, &tree, empty, words.as_slice(), sink);
    match ran.answer.outcome {
        Outcome::Committed => read_back(alloc, &ran.target, &file),
        Outcome::Memory => Err(OutOfMemory),
        _ => unreachable!(),
    }
}

// The bytes of the copy.
fn read_back(alloc: Global, target: &MemTarget, file: &Path) -> Result<Vec<u8>, OutOfMemory>
    requires tree { ⟦<MemTarget as Store>⟧.tree target.now ≡ Some (small (codes "d")) }
    requires file { file.now ≡ to_file }
    ensures { IfOk result (λ bytes. bytes.items ≡ codes "hi") }
{
    let Some(bytes) = target.tree().bytes(file) else {
        unreachable!();
    };
    let mut copy = Vec::new(alloc);
    copy.extend_from_slice(bytes)?;
    Ok(copy)
}
