//! The program `distcp`: what its words ask for, and the exit status that it ends with.
#![tactic(auto)]

ghost use Rattle.std.specs.Prelude.{◌≡◌, ◌≢◌, ◌⊎◌, ◌∷◌, ℕ, List, codes, map, string_bytes, IfSome, IfOk, IfErr};
ghost use Rattle.std.specs.Fn.{FnOnceReturnsAt};
ghost use Rattle.distcp.specs.Ends.{Copies, Drills, Says, output};
ghost use Rattle.distcp.specs.Jobs.{said, job_of};

mod folders;
mod say;
mod words;

use dc_cli::{Drilled, drill};
use dc_fs::{Sink, Source, Target};
use dc_local::{LocalError, LocalSource, LocalTarget, StdSink};
use folders::{Request, run_folders};
use say::{DONE, NO_MEMORY, NOT_REACHED, REFUSED, UNPRINTED, say};
use std::alloc::Global;
use std::fs::{File, Files};
use std::io::ErrorKind;
use std::process::ExitCode;
use std::rt::Env;
use std::thread::Threads;
use std::{env, io};
use words::{Job, read_job};

/// What `--help` prints.
const USAGE: &str =
    "usage: distcp SOURCE_FOLDER TARGET_FOLDER [OPTION]... SOURCE... TARGET\n       distcp drill SEED COUNT\nThe first copies paths of one folder of this machine to a path of another. Paths are under their folder and begin with a slash,\nand options may stand anywhere among them. The second copies 2 to 200000 small files in memory.\nexample: distcp . /tmp -update -delete /docs /docs-copy\noptions:\n  -update            copy what the target lacks, or has with another length or content\n  -overwrite         copy every file again\n  -append            with -update: add to a file that begins as the source's what it lacks\n  -delete            with -update or -overwrite: remove what the source lacks, but no snapshots\n  -skipcrccheck      with -update: take files of one length for the same, whatever they hold\n  -p[LETTERS]        keep attributes: r replication, b block size, u user, g group, p mode,\n                     a ACL, x extended attributes, t time; -p alone is -prbugpt\n  -i                 go on without what clashes with the target or can't be read\n  -atomic            copy to the work path .distcp.work, and move it to the target at the end\n  -tmp PATH          with -atomic: the target's folder for the work path\n  -f FILE            take the sources from the lines of a file of the source\n  -filters FILE      leave out what a line of a file of the source matches as a pattern\n  -m N               copy with at most N workers, 1 to 65535 [20]\n  -strategy NAME     share files among workers by size, uniformsize, or in turn, dynamic\n                     [uniformsize]\n  -blocksperchunk N  cut files into pieces of N blocks, or not at all with 0 [0]\n  -copybuffersize N  read so many bytes at once, 1 to 16777216 [8192]\n  -diff FROM TO      with -update: replay what changed between two snapshots of the source\n  -rdiff NEW OLD     with -update: bring the target back to an older snapshot\n  -kills FILE        stop the attempts that a file of the source names, to try a run out\n-diff and -rdiff are not built yet.\n";

/// What `--version` prints.
const VERSION: &str = "distcp 0.1.0\n";

// Runs a drill and answers the exit status.
fn run_drill<R: Threads + Sync, O: Sink>(
    rt: &R,
    alloc: Global,
    seed: u64,
    count: u32,
    out: &mut O,
) -> u8
    ensures { Drills seed count result (output O.Sink out.old) (output O.Sink out.new) }
{
    match drill(rt, alloc, seed, count, out) {
        Drilled::Reached => DONE,
        Drilled::NotReached => NOT_REACHED,
        Drilled::BadCount => say(out, "distcp: bad drill\n", REFUSED),
        Drilled::Unprinted => UNPRINTED,
        Drilled::Memory => NO_MEMORY,
    }
}

// The words of the command line, without the program's name.
fn read_words<R: Env + AllocGlobal>(rt: &R) -> io::Result<Vec<String>> {
    let mut words = env::args(rt)?;
    words.next();
    Ok(words.collect(rt.alloc())?)
}

// Says why there are no words, and answers the exit status.
fn no_words<O: Sink>(out: &mut O, kind: ErrorKind) -> u8
    ensures memory { kind ≡ ErrorKind.OutOfMemory → Says (codes "distcp: no memory\n", 24) result (output O.Sink out.old) (output O.Sink out.new) }
    ensures word { kind ≢ ErrorKind.OutOfMemory → Says (codes "distcp: bad word\n", 255) result (output O.Sink out.old) (output O.Sink out.new) }
    ensures known { (result ≡ 24) ⊎ (result ≡ 28) ⊎ (result ≡ 255) }
{
    match kind {
        ErrorKind::OutOfMemory => say(out, "distcp: no memory\n", NO_MEMORY),
        _ => say(out, "distcp: bad word\n", REFUSED),
    }
}

// Does what words ask for and answers the exit status. What is neither a drill nor a copy prints a line or the usage.
fn run_job<
    R: Threads + Sync,
    S: Source,
    T: Target,
    F: FnOnce(&str) -> Result<S, LocalError>,
    G: FnOnce(&str) -> Result<T, LocalError>,
    O: Sink,
>(rt: &R, alloc: Global, words: &[String], open_source: F, open_target: G, out: &mut O) -> u8
    requires source { F.IsAlwaysCallable open_source }
    requires target { G.IsAlwaysCallable open_target }
    ensures said { IfSome (said (job_of (map string_bytes words.now))) (λ line. Says line result (output O.Sink out.old) (output O.Sink out.new)) }
    ensures drilled { (seed count : ℕ) → job_of (map string_bytes words.now) ≡ Job.Drill seed count → Drills seed count result (output O.Sink out.old) (output O.Sink out.new) }
    ensures copied { (from to : List ℕ) (asked : List (List ℕ)) → job_of (map string_bytes words.now) ≡ Job.Folders → map string_bytes words.now ≡ from ∷ to ∷ asked → Copies S T S.Store T.Store (FnOnceReturnsAt F.FnOnce open_source from) (FnOnceReturnsAt G.FnOnce open_target to) from to asked result (output O.Sink out.old) (output O.Sink out.new) }
{
    match (read_job(words), words) {
        (Job::Help, _) => say(out, USAGE, DONE),
        (Job::Version, _) => say(out, VERSION, DONE),
        (Job::Drill { seed, count }, _) => run_drill(rt, alloc, seed, count, out),
        (Job::BadDrill, _) => say(out, "distcp: bad drill\n", REFUSED),
        (Job::Folders, [source, target, words @ ..]) => {
            let request = Request {
                source: source.as_str(),
                target: target.as_str(),
                words,
            };
            run_folders(rt, alloc, request, open_source, open_target, out)
        }
        (Job::Folders | Job::TooFew, _) => say(out, "distcp: two folders are needed\n", REFUSED),
    }
}

// Does what the words ask for, or says why there are none, and answers the exit status.
fn run_words<
    R: Threads + Sync,
    S: Source,
    T: Target,
    F: FnOnce(&str) -> Result<S, LocalError>,
    G: FnOnce(&str) -> Result<T, LocalError>,
    O: Sink,
>(
    rt: &R,
    alloc: Global,
    words: io::Result<Vec<String>>,
    open_source: F,
    open_target: G,
    out: &mut O,
) -> u8
    requires source { F.IsAlwaysCallable open_source }
    requires target { G.IsAlwaysCallable open_target }
    ensures said { IfOk words (λ words. IfSome (said (job_of (map string_bytes words.items))) (λ line. Says line result (output O.Sink out.old) (output O.Sink out.new))) }
    ensures drilled { IfOk words (λ words. (seed count : ℕ) → job_of (map string_bytes words.items) ≡ Job.Drill seed count → Drills seed count result (output O.Sink out.old) (output O.Sink out.new)) }
    ensures copied { IfOk words (λ words. (from to : List ℕ) (asked : List (List ℕ)) → job_of (map string_bytes words.items) ≡ Job.Folders → map string_bytes words.items ≡ from ∷ to ∷ asked → Copies S T S.Store T.Store (FnOnceReturnsAt F.FnOnce open_source from) (FnOnceReturnsAt G.FnOnce open_target to) from to asked result (output O.Sink out.old) (output O.Sink out.new)) }
    ensures lacking { IfErr words (λ _. (result ≡ 24) ⊎ (result ≡ 28) ⊎ (result ≡ 255)) }
{
    match words {
        Ok(words) => run_job(rt, alloc, words.as_slice(), open_source, open_target, out),
        Err(error) => no_words(out, error.kind()),
    }
}

// Takes the numbers of standard streams that are closed: else the next file that is opened would be the standard output.
fn hold_streams<R: Files<File = File>>(rt: &R) -> [io::Result<File>; 3] {
    [
        File::open(rt, "/dev/null"),
        File::open(rt, "/dev/null"),
        File::open(rt, "/dev/null"),
    ]
}

fn main(rt: HostRuntime) -> ExitCode {
    let alloc = rt.alloc();
    let _streams = hold_streams(&rt);
    let mut out = StdSink::new(&rt);
    ExitCode::from(run_words(
        &rt,
        alloc,
        read_words(&rt),
        |folder| LocalSource::open_at(&rt, alloc, folder),
        |folder| LocalTarget::open_at(&rt, alloc, folder),
        &mut out,
    ))
}
