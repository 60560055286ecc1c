//! Runs over stores in memory, and what they leave.
#![tactic(auto)]

use crate::trees::{bytes_of, is_tree_of, tree_of};
use dc_attrs::TreeError;
use dc_cli::distcp;
use dc_filter::RegexPatterns;
use dc_fs::{Landed, Mode};
use dc_memfs::{Fail, Fails, MemSink, MemSource, MemTarget};
use dc_output::{Answer, status};
use dc_path::{List, OutOfMemory, Text};
use dc_tree::MemTree;
use std::alloc::Global;
use std::thread::Threads;

/// What a run answered, and what it left.
#[derive(Drop)]
pub(crate) struct Ran {
    pub answer: Answer,
    pub target: MemTarget,
    pub sink: MemSink,
}

/// A run between two trees: the lines of both and the words, and then what the run comes to.
#[derive(Clone, Copy)]
pub(crate) struct Case {
    /// The source.
    pub source: &'static str,
    /// The target.
    pub target: &'static str,
    /// The words, parted by blanks.
    pub words: &'static str,
    /// The target that is left.
    pub left: &'static str,
    /// What has landed, in order: `PATH=BYTES` for a file that is replaced, `PATH+BYTES` for one that is extended.
    pub landed: &'static str,
    /// The exit status.
    pub status: u8,
    /// The whole output, with `;` for each line feed.
    pub output: &'static str,
}

// The words of a run, parted by blanks; none in an empty text.
fn words(alloc: Global, text: &str) -> Result<List<Text>, OutOfMemory> {
    let mut words = List::new(alloc);
    if text.is_empty() {
        return Ok(words);
    }
    for word in text.split(' ') {
        words.add(Text::read(alloc, word)?)?;
    }
    Ok(words)
}

/// A target of this tree, on which no call fails.
pub(crate) fn target_of(alloc: Global, line: &str) -> Result<MemTarget, TreeError> {
    let tree = tree_of(alloc, line)?;
    let own = Fails::none(alloc);
    let desks = Fails::none(alloc);
    Ok(MemTarget::new(alloc, tree, own, desks))
}

/// Runs what words ask for from one tree to another. The sink fails from its `fail_at`-th write on.
pub(crate) fn run<R: Threads + Sync>(
    rt: &R,
    alloc: Global,
    source: &str,
    target: &str,
    text: &str,
    fail_at: Option<u64>,
) -> Result<Ran, TreeError> {
    let tree = tree_of(alloc, source)?;
    run_from(rt, alloc, &tree, target, text, fail_at)
}

/// The same from a tree that is made.
pub(crate) fn run_from<R: Threads + Sync>(
    rt: &R,
    alloc: Global,
    tree: &MemTree,
    target: &str,
    text: &str,
    fail_at: Option<u64>,
) -> Result<Ran, TreeError> {
    let target = target_of(alloc, target)?;
    let mut pats = RegexPatterns::new(None);
    run_quiet(rt, alloc, tree, target, &mut pats, text, fail_at)
}

// The same with these patterns, where no call on the source fails.
fn run_quiet<R: Threads + Sync>(
    rt: &R,
    alloc: Global,
    tree: &MemTree,
    target: MemTarget,
    pats: &mut RegexPatterns,
    text: &str,
    fail_at: Option<u64>,
) -> Result<Ran, TreeError> {
    let none = Fails::none(alloc);
    let mut source = MemSource::new(tree, &none, &none);
    run_with(rt, alloc, &mut source, target, pats, text, fail_at)
}

/// The same between two stores.
pub(crate) fn run_on<R: Threads + Sync>(
    rt: &R,
    alloc: Global,
    source: &mut MemSource,
    target: MemTarget,
    text: &str,
    fail_at: Option<u64>,
) -> Result<Ran, TreeError> {
    let mut pats = RegexPatterns::new(None);
    run_with(rt, alloc, source, target, &mut pats, text, fail_at)
}

// The same with these patterns.
fn run_with<R: Threads + Sync>(
    rt: &R,
    alloc: Global,
    source: &mut MemSource,
    mut target: MemTarget,
    pats: &mut RegexPatterns,
    text: &str,
    fail_at: Option<u64>,
) -> Result<Ran, TreeError> {
    let words = words(alloc, text)?;
    let mut sink = MemSink::new(alloc, fail_at)?;
    let answer = distcp(
        rt,
        alloc,
        words.as_slice(),
        source,
        &mut target,
        pats,
        &mut sink,
    );
    Ok(Ran {
        answer,
        target,
        sink,
    })
}

/// Runs a case with these patterns.
pub(crate) fn run_by<R: Threads + Sync>(
    rt: &R,
    alloc: Global,
    case: &Case,
    pats: &mut RegexPatterns,
) -> Result<Ran, TreeError> {
    let tree = tree_of(alloc, case.source)?;
    let target = target_of(alloc, case.target)?;
    run_quiet(rt, alloc, &tree, target, pats, case.words, None)
}

// Adds what has landed, behind a blank.
fn add_landed(alloc: Global, text: &mut String, landed: &Landed) -> Result<(), OutOfMemory> {
    let path = landed.path.text(alloc)?;
    let sign = match landed.mode {
        Mode::Replace => "=",
        Mode::Extend => "+",
    };
    let bytes = landed.bytes;
    let entry = format!(in alloc; " {}{sign}{bytes}", path.as_str())?;
    text.push_str(entry.as_str())?;
    Ok(())
}

// What has landed, each behind a blank.
fn text_of_landed(alloc: Global, target: &MemTarget) -> Result<String, OutOfMemory> {
    let mut text = String::new(alloc);
    for landed in target.landed().as_slice() {
        add_landed(alloc, &mut text, landed)?;
    }
    Ok(text)
}

/// Whether this has landed, in this order.
pub(crate) fn has_landed(alloc: Global, ran: &Ran, landed: &str) -> Result<bool, OutOfMemory> {
    let text = text_of_landed(alloc, &ran.target)?;
    Ok(text.as_str().trim_start() == landed)
}

/// Whether the exit status is this, and the whole output.
pub(crate) fn ends_with(
    alloc: Global,
    ran: &Ran,
    code: u8,
    output: &str,
) -> Result<bool, OutOfMemory> {
    let output = bytes_of(alloc, output)?;
    Ok(status(&ran.answer) == code && ran.sink.bytes() == output.as_slice())
}

/// Whether the target is the tree of this line, and has no temporary.
pub(crate) fn leaves(alloc: Global, ran: &Ran, line: &str) -> Result<bool, TreeError> {
    Ok(is_tree_of(alloc, ran.target.tree(), line)? && ran.target.scratch() == 0)
}

/// Whether a run comes to what a case says.
pub(crate) fn came_to(alloc: Global, ran: &Ran, case: &Case) -> Result<bool, TreeError> {
    Ok(
        leaves(alloc, ran, case.left)?
            && has_landed(alloc, ran, case.landed)?
            && ends_with(alloc, ran, case.status, case.output)?,
    )
}

/// Whether the run of a case comes to what it says.
pub(crate) fn holds<R: Threads + Sync>(
    rt: &R,
    alloc: Global,
    case: &Case,
) -> Result<bool, TreeError> {
    let ran = run(rt, alloc, case.source, case.target, case.words, None)?;
    came_to(alloc, &ran, case)
}

/// The calls on the objects of a run that are to fail.
#[derive(Clone, Copy)]
pub(crate) struct Failing {
    /// On the source.
    pub source: &'static [Fail],
    /// On each fork of the source.
    pub forks: &'static [Fail],
    /// On the target.
    pub target: &'static [Fail],
    /// On each desk of the target.
    pub desks: &'static [Fail],
}

/// None fails.
pub(crate) const QUIET: Failing = Failing {
    source: &[],
    forks: &[],
    target: &[],
    desks: &[],
};

// These calls on an object.
fn fails_of(alloc: Global, fails: &[Fail]) -> Result<Fails, OutOfMemory> {
    let mut list = List::new(alloc);
    for fail in fails {
        list.add(*fail)?;
    }
    Ok(Fails::new(alloc, list))
}

// A target of this tree, on which these calls fail.
fn failing_target(alloc: Global, line: &str, failing: Failing) -> Result<MemTarget, TreeError> {
    let tree = tree_of(alloc, line)?;
    let own = fails_of(alloc, failing.target)?;
    let desks = fails_of(alloc, failing.desks)?;
    Ok(MemTarget::new(alloc, tree, own, desks))
}

// Runs a case with calls on the target that fail, from a store.
fn run_onto<R: Threads + Sync>(
    rt: &R,
    alloc: Global,
    source: &mut MemSource,
    case: &Case,
    failing: Failing,
) -> Result<Ran, TreeError> {
    let target = failing_target(alloc, case.target, failing)?;
    run_on(rt, alloc, source, target, case.words, None)
}

/// Runs a case with calls that fail.
pub(crate) fn run_failing<R: Threads + Sync>(
    rt: &R,
    alloc: Global,
    case: &Case,
    failing: Failing,
) -> Result<Ran, TreeError> {
    let tree = tree_of(alloc, case.source)?;
    let own = fails_of(alloc, failing.source)?;
    let forks = fails_of(alloc, failing.forks)?;
    let mut source = MemSource::new(&tree, &own, &forks);
    run_onto(rt, alloc, &mut source, case, failing)
}

/// Whether the run of a case with calls that fail comes to what the case says.
pub(crate) fn come_to<R: Threads + Sync>(
    rt: &R,
    alloc: Global,
    case: &Case,
    failing: Failing,
) -> Result<bool, TreeError> {
    let ran = run_failing(rt, alloc, case, failing)?;
    came_to(alloc, &ran, case)
}
