//! The example, run.
#![tactic(auto)]

use crate::{copy_small, run_small, source_tree, words};
use dc_engine::Outcome;
use dc_memfs::MemSink;
use dc_output::status;
use dc_tree::MemTree;
use std::test::Fail;

const LINES: &[u8] =
    b"COPY=1\nDIR_COPY=0\nSKIP=0\nFAIL=0\nBYTESCOPIED=2\nBYTESSKIPPED=0\ncommitted\n";

#[test]
fn a_small_copy_commits_and_leaves_one_file(rt: HostRuntime) -> Result<(), Fail> {
    let alloc = rt.alloc();
    let tree = source_tree(alloc)?;
    let words = words(alloc)?;
    let sink = MemSink::new(alloc, None)?;
    let empty = MemTree::new(alloc)?;
    let ran = run_small(&rt, alloc, &tree, empty, words.as_slice(), sink);
    assert!(rt; matches!(ran.answer.outcome, Outcome::Committed));
    assert_eq!(rt; status(&ran.answer), 0);
    assert_eq!(rt; ran.sink.bytes(), LINES);
    assert_eq!(rt; ran.target.landed().len(), 1);
    assert_eq!(rt; ran.target.scratch(), 0);
    Ok(())
}

#[test]
fn the_copy_is_read_back_as_it_was(rt: HostRuntime) -> Result<(), Fail> {
    let bytes = copy_small(&rt, rt.alloc())?;
    assert_eq!(rt; bytes.as_slice(), b"hi".as_slice());
    Ok(())
}
