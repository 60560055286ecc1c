//! A run that keeps attributes.
#![tactic(auto)]

use crate::runs::{Case, Ran, ends_with, has_landed, run_from};
use crate::trees::{is_same_tree, tree_of};
use dc_attrs::{Attrs, Seen, TreeError};
use dc_path::Path;
use dc_tree::MemTree;
use std::alloc::Global;
use std::test::Fail;
use std::thread::Threads;

// What is copied: a directory of logs of a day, of which one has been copied before.
const LOGS: Case = Case {
    source: "/data /data/logs /data/logs/2024 /data/logs/2024/app.log=line1;line2; /data/logs/2024/web.log=GET~/;",
    target: "/backup /backup/logs /backup/logs/2023 /backup/logs/2023/x=o /backup/logs/2024 /backup/logs/2024/web.log=GET~/;",
    words: "-update -delete -prbugp -m 20 -strategy dynamic /data/logs /backup/logs",
    left: "/backup /backup/logs /backup/logs/2024 /backup/logs/2024/app.log=line1;line2; /backup/logs/2024/web.log=GET~/;",
    landed: "/backup/logs/2024/app.log=12",
    status: 0,
    output: "COPY=1;DIR_COPY=1;SKIP=1;FAIL=0;BYTESCOPIED=12;BYTESSKIPPED=6;committed;",
};

// Whose the source is, as lines of a catalogue.
const OWNERS: [&str; 2] = [
    "=\t/data/logs/2024\t0\t0\tetl\t\t0750\t\t\t7",
    "=\t/data/logs/2024/app.log\t2\t134217728\tetl\tops\t0640\t\t\t9",
];

// The same in the target, without the times.
const KEPT: [&str; 2] = [
    "=\t/backup/logs/2024\t0\t0\tetl\t\t0750\t\t\t0",
    "=\t/backup/logs/2024/app.log\t2\t134217728\tetl\tops\t0640\t\t\t0",
];

// Sets the attributes of what stands at a path, if they fit it.
#[tactic(auto, using(dc_tree::proofs::FittingLemmas::fitting))]
fn set_at(tree: &mut MemTree, path: &Path, attrs: Attrs) -> Result<(), TreeError> {
    match tree.kind(path) {
        Seen::Dir if attrs.fits_dir() => tree.set_attrs(path, attrs),
        Seen::File { .. } if attrs.fits_file() => tree.set_attrs(path, attrs),
        _ => Err(TreeError::Missing),
    }
}

// Sets the attributes of a line.
fn set(alloc: Global, tree: &mut MemTree, line: &str) -> Result<(), TreeError> {
    match Attrs::read_line(alloc, line) {
        Ok((path, attrs)) => set_at(tree, &path, attrs),
        Err(_) => Err(TreeError::Memory),
    }
}

// The tree of a line, with the attributes of other lines.
fn owned_tree(alloc: Global, line: &str, owners: &[&str]) -> Result<MemTree, TreeError> {
    let mut tree = tree_of(alloc, line)?;
    for owner in owners {
        set(alloc, &mut tree, owner)?;
    }
    Ok(tree)
}

// Runs a case whose source has these owners.
fn run_owned<R: Threads + Sync>(rt: &R, alloc: Global, case: &Case) -> Result<Ran, TreeError> {
    let source = owned_tree(alloc, case.source, &OWNERS)?;
    run_from(rt, alloc, &source, case.target, case.words, None)
}

// Whether the target is the tree that the case says, with the attributes that it asks for.
fn is_kept(alloc: Global, ran: &Ran, case: &Case) -> Result<bool, TreeError> {
    let wanted = owned_tree(alloc, case.left, &KEPT)?;
    Ok(is_same_tree(alloc, ran.target.tree(), &wanted))
}

// Whether a run came to what the case says, and the attributes are kept that it asks for.
fn has_kept(alloc: Global, ran: &Ran, case: &Case) -> Result<bool, TreeError> {
    Ok(
        is_kept(alloc, ran, case)?
            && has_landed(alloc, ran, case.landed)?
            && ends_with(alloc, ran, case.status, case.output)?,
    )
}

// Whether the run of a case does.
fn keeps<R: Threads + Sync>(rt: &R, alloc: Global, case: &Case) -> Result<bool, TreeError> {
    let ran = run_owned(rt, alloc, case)?;
    has_kept(alloc, &ran, case)
}

#[test]
fn letters_say_which_attributes_are_kept(rt: HostRuntime) -> Result<(), Fail> {
    assert_eq!(rt; keeps(&rt, rt.alloc(), &LOGS), Ok(true));
    Ok(())
}
