//! Runs in which one entry of a list makes calls fail, against a plain account of the calls that a run makes.
#![tactic(auto)]

use crate::runs::{Ran, has_landed, run_on};
use crate::trees::{is_tree_of, path, tree_of};
use dc_attrs::TreeError;
use dc_engine::{Counts, Outcome, Phase};
use dc_memfs::{Fail, Fails, MemSource, MemTarget, Which};
use dc_path::{List, OutOfMemory, Path};
use dc_tree::MemTree;
use std::alloc::Global;
use std::test;
use std::thread::Threads;

// Whose call it is.
#[derive(Clone, Copy, PartialEq, Eq)]
enum On {
    Source,
    Fork,
    Target,
    Desk,
}

// How a run ends.
#[derive(Clone, Copy, PartialEq, Eq)]
enum End {
    Committed,
    SourceFault,
    TargetFault(Phase, u64),
    CopyFailed(&'static str),
}

// A call of a run: whose it is, its kind, and how the run ends where it fails, or where it and all later ones of a worker fail.
type Step = (On, Which, End);

const SOURCE: &str = "/s /s/a=1!8 /s/b=22!8 /s/e";

const WORDS: &str = "-m 1 -pb /s /d";

// The target, after so many changes.
const TREES: [&str; 7] = [
    "-",
    "/d",
    "/d /d/e",
    "/d /d/e /d/a=1",
    "/d /d/e /d/a=1 /d/b=22",
    "/d /d/e /d/a=1!8 /d/b=22",
    "/d /d/e /d/a=1!8 /d/b=22!8",
];

// What has landed, after so many files.
const LANDED: [&str; 3] = ["", "/d/a=1", "/d/a=1 /d/b=2"];

const COUNTS: Counts = Counts {
    copied: 2,
    dirs: 1,
    skipped: 0,
    failed: 0,
    bytes_copied: 3,
    bytes_skipped: 0,
};

const IN_DECIDE: End = End::TargetFault(Phase::Decide, 0);

const FIRST: End = End::CopyFailed("/a");

const SECOND: End = End::CopyFailed("/b");

// The calls of a run that goes through.
const STEPS: [Step; 33] = [
    (On::Target, Which::Kind, End::TargetFault(Phase::Check, 0)),
    (On::Source, Which::Kind, End::SourceFault),
    (On::Source, Which::Status, End::SourceFault),
    (On::Source, Which::List, End::SourceFault),
    (On::Source, Which::Status, End::SourceFault),
    (On::Source, Which::Status, End::SourceFault),
    (On::Source, Which::Status, End::SourceFault),
    (On::Source, Which::List, End::SourceFault),
    (On::Target, Which::Kind, IN_DECIDE),
    (On::Target, Which::Kind, IN_DECIDE),
    (On::Target, Which::Kind, IN_DECIDE),
    (
        On::Target,
        Which::OpenDesk,
        End::TargetFault(Phase::Copy, 0),
    ),
    (On::Desk, Which::Create, FIRST),
    (On::Fork, Which::Read, FIRST),
    (On::Desk, Which::Append, FIRST),
    (On::Desk, Which::Digest, FIRST),
    (On::Desk, Which::Seal, FIRST),
    (On::Desk, Which::Create, SECOND),
    (On::Fork, Which::Read, SECOND),
    (On::Desk, Which::Append, SECOND),
    (On::Desk, Which::Digest, SECOND),
    (On::Desk, Which::Seal, SECOND),
    (On::Target, Which::MakeDir, End::TargetFault(Phase::Dirs, 0)),
    (On::Target, Which::MakeDir, End::TargetFault(Phase::Dirs, 1)),
    (On::Target, Which::Land, End::TargetFault(Phase::Land, 0)),
    (On::Target, Which::Land, End::TargetFault(Phase::Land, 1)),
    (On::Target, Which::Sweep, End::TargetFault(Phase::Sweep, 0)),
    (
        On::Target,
        Which::Kind,
        End::TargetFault(Phase::FileAttrs, 0),
    ),
    (
        On::Target,
        Which::SetAttrs,
        End::TargetFault(Phase::FileAttrs, 0),
    ),
    (
        On::Target,
        Which::Kind,
        End::TargetFault(Phase::FileAttrs, 1),
    ),
    (
        On::Target,
        Which::SetAttrs,
        End::TargetFault(Phase::FileAttrs, 1),
    ),
    (
        On::Target,
        Which::Kind,
        End::TargetFault(Phase::DirAttrs, 0),
    ),
    (
        On::Target,
        Which::SetAttrs,
        End::TargetFault(Phase::DirAttrs, 0),
    ),
];

const KINDS: [Which; 17] = [
    Which::Any,
    Which::Kind,
    Which::Status,
    Which::List,
    Which::Read,
    Which::Checksum,
    Which::OpenDesk,
    Which::MakeDir,
    Which::Remove,
    Which::Rename,
    Which::SetAttrs,
    Which::Land,
    Which::Sweep,
    Which::Create,
    Which::Append,
    Which::Digest,
    Which::Seal,
];

// An entry of the list of one object, and how many calls of its kind have come there.
#[derive(Clone, Copy)]
struct Watch {
    on: On,
    fail: Fail,
    seen: u64,
}

impl Watch {
    // Counts a call, and answers whether it fails, and then whether after its change.
    fn strikes(&mut self, on: On, which: Which) -> Option<bool> {
        if on != self.on {
            return None;
        }
        let later = self.fail.then_all && self.fail.nth <= self.seen;
        if self.fail.which == Which::Any || self.fail.which == which {
            self.seen = self.seen.saturating_add(1);
            if self.seen == self.fail.nth {
                return Some(self.fail.done);
            }
        }
        if later { Some(false) } else { None }
    }
}

// What a run comes to: how it ends, how many changes of the target were made, how many files have landed, how many
// temporaries are left, and whether a call has failed.
#[derive(Clone, Copy)]
struct Account {
    end: End,
    changes: usize,
    landed: usize,
    scratch: u64,
    failed: bool,
}

impl Account {
    // A call goes through.
    fn goes(&mut self, which: Which) {
        match which {
            Which::Create => self.scratch = self.scratch.saturating_add(1),
            Which::MakeDir | Which::SetAttrs => self.changes = self.changes.saturating_add(1),
            Which::Land => {
                self.changes = self.changes.saturating_add(1);
                self.landed = self.landed.saturating_add(1);
                self.scratch = self.scratch.saturating_sub(1);
            }
            Which::Sweep => self.scratch = 0,
            _ => {}
        }
    }

    // A call fails, and the run ends. From the decisions on it tries a last sweep.
    fn stops(&mut self, step: &Step, done: bool, watch: &mut Watch) {
        let (_, which, end) = *step;
        self.end = end;
        if done && (which == Which::MakeDir || which == Which::SetAttrs) {
            self.goes(which);
        }
        let looks = end == End::SourceFault || end == End::TargetFault(Phase::Check, 0);
        if !looks && watch.strikes(On::Target, Which::Sweep).is_none() {
            self.goes(Which::Sweep);
        }
    }

    // A call fails. A worker makes it good, unless all its later calls fail too.
    fn fails(&mut self, step: &Step, done: bool, watch: &mut Watch) -> bool {
        self.failed = true;
        let worker = step.0 == On::Fork || step.0 == On::Desk;
        let good = worker && !watch.fail.then_all;
        if good {
            self.goes(step.1);
        } else {
            self.stops(step, done, watch);
        }
        good
    }
}

// The account of a run in which this entry stands in the list of this object.
fn account_of(on: On, fail: Fail) -> Account {
    let mut watch = Watch { on, fail, seen: 0 };
    let mut account = Account {
        end: End::Committed,
        changes: 0,
        landed: 0,
        scratch: 0,
        failed: false,
    };
    for step in &STEPS {
        match watch.strikes(step.0, step.1) {
            None => account.goes(step.1),
            Some(done) => {
                if !account.fails(step, done, &mut watch) {
                    break;
                }
            }
        }
    }
    account
}

// Whether the path of a text is this.
fn is_path(alloc: Global, text: &str, found: &Path) -> Result<bool, TreeError> {
    let path = path(alloc, text)?;
    Ok(path.starts_with(found) && found.starts_with(&path))
}

// Whether a run ended so.
fn ends_as(alloc: Global, outcome: &Outcome, end: End) -> Result<bool, TreeError> {
    match (outcome, end) {
        (Outcome::CopyFailed { path }, End::CopyFailed(text)) => is_path(alloc, text, path),
        (Outcome::Committed, _) => Ok(end == End::Committed),
        (Outcome::SourceFault, _) => Ok(end == End::SourceFault),
        (Outcome::TargetFault { phase, done }, _) => Ok(end == End::TargetFault(*phase, *done)),
        _ => Ok(false),
    }
}

// Whether a run came to what the account says: outcome, counters, tree, landings and temporaries.
fn came_to(alloc: Global, ran: &Ran, account: &Account) -> Result<bool, TreeError> {
    let counts = match account.end {
        End::Committed => COUNTS,
        _ => Counts::NONE,
    };
    let answered = ran.answer.counts == counts && ran.target.scratch() == account.scratch;
    let left = TREES[account.changes.min(TREES.len() - 1)];
    let landed = LANDED[account.landed.min(LANDED.len() - 1)];
    Ok(
        answered
            && ends_as(alloc, &ran.answer.outcome, account.end)?
            && is_tree_of(alloc, ran.target.tree(), left)?
            && has_landed(alloc, ran, landed)?,
    )
}

// The list of an object: the entry, or none.
fn list_of(alloc: Global, has: bool, fail: Fail) -> Result<Fails, OutOfMemory> {
    let mut list = List::new(alloc);
    if has {
        list.add(fail)?;
    }
    Ok(Fails::new(alloc, list))
}

// An empty target with this entry in its list or in that of its desks, or in neither.
fn failing_target(alloc: Global, on: On, fail: Fail) -> Result<MemTarget, TreeError> {
    let tree = MemTree::new(alloc)?;
    let own = list_of(alloc, on == On::Target, fail)?;
    let desks = list_of(alloc, on == On::Desk, fail)?;
    Ok(MemTarget::new(alloc, tree, own, desks))
}

// Runs with this entry in the list of this object.
fn run_failing<R: Threads + Sync>(
    rt: &R,
    alloc: Global,
    tree: &MemTree,
    on: On,
    fail: Fail,
) -> Result<Ran, TreeError> {
    let own = list_of(alloc, on == On::Source, fail)?;
    let forks = list_of(alloc, on == On::Fork, fail)?;
    let mut source = MemSource::new(tree, &own, &forks);
    let target = failing_target(alloc, on, fail)?;
    run_on(rt, alloc, &mut source, target, WORDS, None)
}

// Whether the run with this entry in the list of this object comes to what the account says.
fn comes_to<R: Threads + Sync>(
    rt: &R,
    alloc: Global,
    tree: &MemTree,
    on: On,
    fail: Fail,
    account: &Account,
) -> Result<bool, TreeError> {
    let ran = run_failing(rt, alloc, tree, on, fail)?;
    came_to(alloc, &ran, account)
}

// Whether the runs come to their accounts in which the first, the second, and so on of the calls of a kind fail, up to the
// first in which none does.
fn each_call<R: Threads + Sync>(
    rt: &R,
    alloc: Global,
    tree: &MemTree,
    on: On,
    first: Fail,
) -> Result<bool, TreeError> {
    for nth in 1..=25u64 {
        let fail = Fail { nth, ..first };
        let account = account_of(on, fail);
        if !comes_to(rt, alloc, tree, on, fail, &account)? {
            return Ok(false);
        }
        if !account.failed {
            return Ok(true);
        }
    }
    Ok(false)
}

// The same before and after its change, with and without all later calls.
fn each_way<R: Threads + Sync>(
    rt: &R,
    alloc: Global,
    tree: &MemTree,
    on: On,
    which: Which,
) -> Result<bool, TreeError> {
    for (done, then_all) in [(false, false), (false, true), (true, false), (true, true)] {
        let first = Fail {
            which,
            nth: 1,
            done,
            then_all,
        };
        if !each_call(rt, alloc, tree, on, first)? {
            return Ok(false);
        }
    }
    Ok(true)
}

// The kind of call on an object of which a run from this tree does not come to its account.
fn first_wrong_from<R: Threads + Sync>(
    rt: &R,
    alloc: Global,
    tree: &MemTree,
    on: On,
) -> Result<Option<Which>, TreeError> {
    for which in &KINDS {
        if !each_way(rt, alloc, tree, on, *which)? {
            return Ok(Some(*which));
        }
    }
    Ok(None)
}

// The same from the tree that is copied.
fn first_wrong<R: Threads + Sync>(
    rt: &R,
    alloc: Global,
    on: On,
) -> Result<Option<Which>, TreeError> {
    let tree = tree_of(alloc, SOURCE)?;
    first_wrong_from(rt, alloc, &tree, on)
}

#[test]
fn each_call_of_a_store_that_fails_ends_the_run_with_its_cause(
    rt: HostRuntime,
) -> Result<(), test::Fail> {
    let alloc = rt.alloc();
    assert_eq!(rt; first_wrong(&rt, alloc, On::Source), Ok(None));
    assert_eq!(rt; first_wrong(&rt, alloc, On::Target), Ok(None));
    Ok(())
}

#[test]
fn each_call_of_a_worker_that_fails_is_made_good_or_fails_the_copy(
    rt: HostRuntime,
) -> Result<(), test::Fail> {
    let alloc = rt.alloc();
    assert_eq!(rt; first_wrong(&rt, alloc, On::Fork), Ok(None));
    assert_eq!(rt; first_wrong(&rt, alloc, On::Desk), Ok(None));
    Ok(())
}
