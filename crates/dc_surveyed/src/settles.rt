//! What is settled of what is surveyed, what is refused then, and that temporaries go after a refusal.
#![tactic(auto)]

use crate::fixtures::{options_of, tree_of};
use crate::settled_texts::text_of;
use crate::surveys::{fails_at, parts_of};
use crate::texts::text_of_outcome;
use dc_attrs::{Attrs, TreeError};
use dc_engine::{Surveyed, settle, survey};
use dc_filter::RegexPatterns;
use dc_fs::{Desk, Target};
use dc_memfs::{Fails, MemSource, MemTarget, Which};
use dc_path::{List, OutOfMemory, Path, Text};
use dc_tree::MemTree;
use std::alloc::Global;
use std::test::Fail as Failed;

// What stands in the source: directories, and files with the bytes behind `=`.
const TREE: &str = "/s /s/a=12 /s/b /s/b/c=3";

// Each line has words, what the target has, and behind `= ` what is settled or refused: what becomes of each item, what goes of
// the target, and the pieces, each by the number of its item, its first byte and its length.
const CASES: &str = "\
/s /d over - = plan /a:replace /b:folder /b/c:replace goes cut 0:0+2 2:0+1
/s /d over /d /d/s /d/s/a=1 = plan /s:folder /s/a:skip /s/b:folder /s/b/c:replace goes cut 3:0+1
-update /s /d over /d /d/a=12 /d/z=1 = plan /a:skip /b:folder /b/c:replace goes cut 2:0+1
-overwrite /s /d over /d /d/a=12 = plan /a:replace /b:folder /b/c:replace goes cut 0:0+2 2:0+1
-update -append /s /d over /d /d/a=1 = plan /a:extend-1 /b:folder /b/c:replace goes cut 0:1+1 2:0+1
-atomic /s /d over - = plan /a:replace /b:folder /b/c:replace goes cut 0:0+2 2:0+1
-update -delete /s /d over /d /d/x /d/x/y=1 /d/z=1 = plan /a:replace /b:folder /b/c:replace goes /d/x /d/z cut 0:0+2 2:0+1
-update -delete /s /d over /d /d/b /d/b/x=1 = plan /a:replace /b:folder /b/c:replace goes /d/b/x cut 0:0+2 2:0+1
-update -delete /s /d over /d /d/x /d/x/.snapshot = plan /a:replace /b:folder /b/c:replace goes cut 0:0+2 2:0+1
-update -delete /s /d over - = plan /a:replace /b:folder /b/c:replace goes cut 0:0+2 2:0+1
-update /s /d over /d /d/b=1 = clash /b
-update /s /d over /d /d/a /d/b=1 = clash /a
-update -delete /s /d over /d /d/b=1 /d/z=1 = clash /b
-i -update /s /d over /d /d/b=1 = plan /a:replace /b:without /b/c:without goes cut 0:0+2
-i -update -delete /s /d over /d /d/b=1 /d/z=1 = plan /a:replace /b:without /b/c:without goes /d/z cut 0:0+2
";

// What is settled of a survey, or why it is refused before or then.
fn settled(
    alloc: Global,
    tree: &MemTree,
    words: &str,
    own: &Fails,
    target: &mut MemTarget,
) -> Result<String, OutOfMemory> {
    let options = options_of(alloc, words)?;
    let none = Fails::none(alloc);
    let mut source = MemSource::new(tree, own, &none);
    let mut pats = RegexPatterns::new(None);
    match survey(alloc, &options, &mut source, target, &mut pats) {
        Ok(Surveyed { base, items, .. }) => {
            let answer = settle(alloc, &options, &mut source, target, base, items);
            text_of(alloc, &answer)
        }
        Err(outcome) => text_of_outcome(alloc, &outcome),
    }
}

// Leaves a temporary in the target, by a desk that comes back.
fn leave_temporary(alloc: Global, target: &mut MemTarget) -> Result<(), OutOfMemory> {
    let mut desk = target.open_desk(alloc).map_err(|_| OutOfMemory)?;
    let begun = desk.create(alloc);
    target.rejoin_desk(desk);
    begun.map_err(|_| OutOfMemory)
}

// How many temporaries are left of one, where a line says what is answered and these calls fail; none where it does not.
fn left_after(
    alloc: Global,
    tree: &MemTree,
    line: &str,
    own: &Fails,
    target_own: Fails,
) -> Result<Option<u64>, OutOfMemory> {
    let Some((words, has, expected)) = parts_of(line) else {
        return Ok(None);
    };
    let has = tree_of(alloc, has)?;
    let mut target = MemTarget::new(alloc, has, target_own, Fails::none(alloc));
    leave_temporary(alloc, &mut target)?;
    let text = settled(alloc, tree, words, own, &mut target)?;
    if text.as_str() != expected {
        return Ok(None);
    }
    Ok(Some(target.scratch()))
}

// How many temporaries a line leaves of one where no call fails: all but after a refusal.
fn left_calmly(alloc: Global, line: &str) -> Result<Option<u64>, OutOfMemory> {
    let tree = tree_of(alloc, TREE)?;
    left_after(alloc, &tree, line, &Fails::none(alloc), Fails::none(alloc))
}

// The same where a call of the target fails.
fn left_by_a_target(
    alloc: Global,
    line: &str,
    which: Which,
    nth: u64,
) -> Result<Option<u64>, OutOfMemory> {
    let tree = tree_of(alloc, TREE)?;
    let fails = fails_at(alloc, which, nth)?;
    left_after(alloc, &tree, line, &Fails::none(alloc), fails)
}

// The same where a call of the source fails.
fn left_by_a_source(
    alloc: Global,
    line: &str,
    which: Which,
    nth: u64,
) -> Result<Option<u64>, OutOfMemory> {
    let tree = tree_of(alloc, TREE)?;
    let fails = fails_at(alloc, which, nth)?;
    left_after(alloc, &tree, line, &fails, Fails::none(alloc))
}

#[test]
fn settlings_answer_by_the_table_and_sweep_where_they_refuse(
    rt: HostRuntime,
) -> Result<(), Failed> {
    for line in CASES.lines() {
        let left = if line.contains(" = plan") { 1 } else { 0 };
        assert_eq!(rt; left_calmly(rt.alloc(), line), Ok(Some(left)), "{line}");
    }
    Ok(())
}

#[test]
fn a_call_that_fails_while_deciding_is_a_fault_of_its_store(rt: HostRuntime) -> Result<(), Failed> {
    let alloc = rt.alloc();
    let line = "-update -delete /s /d over /d /d/a=12 = target fault while deciding";
    assert_eq!(rt; left_by_a_target(alloc, line, Which::Kind, 2), Ok(Some(0)));
    assert_eq!(rt; left_by_a_target(alloc, line, Which::List, 1), Ok(Some(0)));
    let line = "-update /s /d over /d /d/a=12 = source fault";
    assert_eq!(rt;
        left_by_a_source(alloc, line, Which::Checksum, 1),
        Ok(Some(0))
    );
    Ok(())
}

#[test]
fn a_sweep_that_fails_after_a_refusal_does_not_change_it(rt: HostRuntime) -> Result<(), Failed> {
    let line = "-update /s /d over /d /d/b=1 = clash /b";
    assert_eq!(rt;
        left_by_a_target(rt.alloc(), line, Which::Sweep, 1),
        Ok(Some(1))
    );
    Ok(())
}

// The attributes of a file in blocks of so many bytes, and else default ones.
fn attrs_with(alloc: Global, block_size: u64) -> Result<Attrs, OutOfMemory> {
    let user = Text::read(alloc, "")?;
    let group = Text::read(alloc, "")?;
    let acl = Text::read(alloc, "")?;
    let xattrs = List::new(alloc);
    Attrs::new(3, block_size, user, group, 0o644, acl, xattrs, 0).map_err(|_| OutOfMemory)
}

// Puts at `/f` a file of so many bytes with these attributes, if they are those of a file.
fn put(alloc: Global, tree: &mut MemTree, length: usize, attrs: Attrs) -> Result<(), TreeError> {
    if !attrs.fits_file() {
        return Err(TreeError::Memory);
    }
    let path = Path::read(alloc, "/f").map_err(|_| TreeError::Memory)?;
    let bytes = vec![in alloc; 7u8; length]?;
    tree.put(alloc, &path, List::of(bytes), attrs)
}

// How many temporaries a line leaves of one, where the source has a file of so many bytes in blocks of so many.
fn left_of_a_file(
    alloc: Global,
    length: usize,
    block_size: u64,
    line: &str,
) -> Result<Option<u64>, OutOfMemory> {
    let mut tree = MemTree::new(alloc).map_err(|_| OutOfMemory)?;
    let attrs = attrs_with(alloc, block_size)?;
    put(alloc, &mut tree, length, attrs).map_err(|_| OutOfMemory)?;
    left_after(alloc, &tree, line, &Fails::none(alloc), Fails::none(alloc))
}

#[test]
fn files_are_cut_by_the_blocks_of_the_options(rt: HostRuntime) -> Result<(), Failed> {
    let alloc = rt.alloc();
    let line = "-blocksperchunk 2 /f /d over - = plan /:replace goes cut 0:0+6 0:6+4";
    assert_eq!(rt; left_of_a_file(alloc, 10, 3, line), Ok(Some(1)));
    let line = "-blocksperchunk 1 /f /d over - = too many pieces";
    assert_eq!(rt; left_of_a_file(alloc, 8_388_609, 1, line), Ok(Some(0)));
    let line = "-blocksperchunk 1 /f /d over /d /d/f = clash /f";
    assert_eq!(rt; left_of_a_file(alloc, 8_388_609, 1, line), Ok(Some(0)));
    Ok(())
}
