//! A run between two folders.
#![tactic(auto)]

use dc_cli::distcp;
use dc_filter::RegexPatterns;
use dc_fs::{Source, Target};
use dc_local::{LocalSource, LocalTarget};
use dc_memfs::MemSink;
use dc_output::status;
use dc_path::{List, OutOfMemory, Text};
use std::alloc::Global;
use std::fs;
use std::test::Fail;
use std::thread::Threads;

const LINES: &str =
    "COPY=2\nDIR_COPY=1\nSKIP=0\nFAIL=0\nBYTESCOPIED=2\nBYTESSKIPPED=0\ncommitted\n";

// The two paths of a run.
fn words(alloc: Global) -> Result<List<Text>, OutOfMemory> {
    let mut words = List::new(alloc);
    words.add(Text::read(alloc, "/s")?)?;
    words.add(Text::read(alloc, "/d")?)?;
    Ok(words)
}

// Whether the run from `/s` to `/d` commits, and prints its lines.
fn commits<R: Threads + Sync, S: Source, T: Target>(
    rt: &R,
    alloc: Global,
    source: &mut S,
    target: &mut T,
) -> Result<bool, OutOfMemory> {
    let words = words(alloc)?;
    let mut pats = RegexPatterns::new(None);
    let mut out = MemSink::new(alloc, None)?;
    let answer = distcp(
        rt,
        alloc,
        words.as_slice(),
        source,
        target,
        &mut pats,
        &mut out,
    );
    Ok(status(&answer) == 0 && out.bytes() == LINES.as_bytes())
}

// Makes a folder with a directory, an empty one, a file and an empty one.
fn make_source(rt: &HostRuntime) -> Result<(), Fail> {
    fs::create_dir(rt, "from")?;
    fs::create_dir(rt, "from/s")?;
    fs::create_dir(rt, "from/s/e")?;
    fs::write(rt, "from/s/a", "hi")?;
    fs::write(rt, "from/s/b", "")?;
    Ok(())
}

#[test]
fn a_directory_is_copied_between_two_folders(rt: HostRuntime) -> Result<(), Fail> {
    let alloc = rt.alloc();
    make_source(&rt)?;
    fs::create_dir(&rt, "to")?;
    let mut source = LocalSource::open_at(&rt, alloc, "from").expect(&rt, "a folder");
    let mut target = LocalTarget::open_at(&rt, alloc, "to").expect(&rt, "a folder");
    assert_eq!(rt; commits(&rt, alloc, &mut source, &mut target), Ok(true));
    assert!(rt; fs::read_to_string(&rt, "to/d/a")?.as_str() == "hi");
    assert!(rt; fs::read_to_string(&rt, "to/d/b")?.is_empty());
    assert!(rt; fs::symlink_metadata(&rt, "to/d/e")?.is_dir());
    Ok(())
}
