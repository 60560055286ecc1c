//! A copy between two folders.
#![tactic(auto)]

ghost use Rattle.std.specs.Prelude.{◌≡◌, ◌⊎◌, map, string_bytes, IfOk};
ghost use Rattle.std.specs.Fn.{FnOnceReturnsAt};
ghost use Rattle.dc_fs.specs.Causes.{Rose};
ghost use Rattle.dc_fs.specs.Views.{view};
ghost use Rattle.dc_engine.specs.declared.outcome.Outcome.TheVariants as Outcome;
ghost use Rattle.dc_engine.specs.declared.outcome.TheConstants.Counts.{NONE};
ghost use Rattle.dc_output.specs.Output.{lines};
ghost use Rattle.distcp.specs.Ends.{Copies, Prints, Runs, Says, output, unopened};

use crate::say::{NO_MEMORY, UNOPENED, say, say_of};
use dc_cli::distcp;
use dc_filter::RegexPatterns;
use dc_fs::{Sink, Source, Target};
use dc_local::LocalError;
use dc_output::{print_no_memory, status};
use dc_path::{List, OutOfMemory, Text};
use itoa::Buffer;
use std::alloc::Global;
use std::thread::Threads;

/// The words of a copy: its two folders, and what is asked of the run between them.
#[derive(Clone, Copy)]
pub struct Request<'a> {
    /// The folder that is copied from.
    pub source: &'a str,
    /// The folder that is copied to.
    pub target: &'a str,
    /// The words of the run.
    pub words: &'a [String],
}

// Says why a folder is not opened, and answers the exit status.
fn say_unopened<O: Sink>(out: &mut O, folder: &str, error: LocalError) -> u8
    ensures { Says (unopened folder.now error) result (output O.Sink out.old) (output O.Sink out.new) }
{
    match error {
        LocalError::NoFolder => say_of(out, "distcp: no folder ", folder, UNOPENED),
        LocalError::BadCatalogue { line } => {
            let mut digits = Buffer::new();
            say_of(
                out,
                "distcp: bad catalogue in line ",
                digits.format(line),
                UNOPENED,
            )
        }
        LocalError::Fault => say_of(out, "distcp: fault in ", folder, UNOPENED),
        LocalError::Memory => say(out, "distcp: no memory\n", NO_MEMORY),
    }
}

// The words as texts.
fn texts(alloc: Global, words: &[String]) -> Result<List<Text>, OutOfMemory>
    ensures { IfOk result (λ texts. texts ≡ map string_bytes words.now) }
{
    let mut texts = List::new(alloc);
    for word in words {
        texts.add(Text::read(alloc, word.as_str())?)?;
    }
    Ok(texts)
}

// Runs what texts ask for over two stores, and answers the exit status.
fn run_texts<R: Threads + Sync, S: Source, T: Target, O: Sink>(
    rt: &R,
    alloc: Global,
    words: &[Text],
    source: &mut S,
    target: &mut T,
    out: &mut O,
) -> u8
    ensures { Runs words.now result (view S.Store source.old) (view S.Store source.new) (view T.Store target.old) (view T.Store target.new) (output O.Sink out.old) (output O.Sink out.new) }
{
    let mut pats = RegexPatterns::new(None);
    let ran = distcp(rt, alloc, words, source, target, &mut pats, out);
    status(&ran)
}

// Ends a run for which there is no memory before it begins, and answers the exit status.
fn end_without_memory<O: Sink>(out: &mut O) -> u8
    ensures status { result ≡ 24 }
    ensures printed { Prints (lines Outcome.Memory NONE) (output O.Sink out.old) (output O.Sink out.new) ⊎ Rose (O.faults out.old) (O.faults out.new) }
{
    let answer = print_no_memory(out);
    status(&answer)
}

/// Runs what the words ask for over two stores, and answers the exit status.
#[tactic(auto, using(crate::proofs::Ends::memory_runs))]
pub fn run_stores<R: Threads + Sync, S: Source, T: Target, O: Sink>(
    rt: &R,
    alloc: Global,
    words: &[String],
    source: &mut S,
    target: &mut T,
    out: &mut O,
) -> u8
    ensures { Runs (map string_bytes words.now) result (view S.Store source.old) (view S.Store source.new) (view T.Store target.old) (view T.Store target.new) (output O.Sink out.old) (output O.Sink out.new) }
{
    match texts(alloc, words) {
        Ok(texts) => run_texts(rt, alloc, texts.as_slice(), source, target, out),
        Err(OutOfMemory) => end_without_memory(out),
    }
}

/// Opens the two folders of a copy and runs it, and answers the exit status. The source is opened first.
pub fn run_folders<
    R: Threads + Sync,
    S: Source,
    T: Target,
    F: FnOnce(&str) -> Result<S, LocalError>,
    G: FnOnce(&str) -> Result<T, LocalError>,
    O: Sink,
>(rt: &R, alloc: Global, request: Request<'_>, open_source: F, open_target: G, out: &mut O) -> u8
    requires source { F.IsAlwaysCallable open_source }
    requires target { G.IsAlwaysCallable open_target }
    ensures { Copies S T S.Store T.Store (FnOnceReturnsAt F.FnOnce open_source request.entry.source.now) (FnOnceReturnsAt G.FnOnce open_target request.entry.target.now) request.entry.source.now request.entry.target.now (map string_bytes request.entry.words.now) result (output O.Sink out.old) (output O.Sink out.new) }
{
    let mut source = match open_source(request.source) {
        Ok(source) => source,
        Err(error) => return say_unopened(out, request.source, error),
    };
    let mut target = match open_target(request.target) {
        Ok(target) => target,
        Err(error) => return say_unopened(out, request.target, error),
    };
    run_stores(rt, alloc, request.words, &mut source, &mut target, out)
}
