//! What is decided by the options, by the source's item and by what the target has, and what a look that fails decides.
#![tactic(auto)]

use crate::fixtures::{item_of, options_of, path_of, source_tree, target_of};
use dc_decide::{Action, DecideError, Decided, decide};
use dc_memfs::{Fail, Fails, MemSource, MemTarget, Which};
use dc_options::Options;
use dc_path::{List, OutOfMemory};
use dc_tree::MemTree;
use std::alloc::Global;
use std::test::Fail as Failed;

// Each line has options, what the source has, what the target has at the place of it, and behind `= ` what is decided. `/` is
// a directory, `-` nothing, `empty` a file of no bytes, `blocked` a file on the way to the place, and every other word a file
// of these bytes.
const CASES: &str = "\
: abc over - = replace
: abc over abd = skip
: abc over / = clash
: abc over blocked = clash
: / over - = folder
: / over / = folder
: / over abc = clash
: / over blocked = clash
-overwrite: abc over abc = replace
-update: abc over abc = skip
-update: abc over abd = replace
-update: abc over ab = replace
-update: abc over abcd = replace
-update -skipcrccheck: abc over abd = skip
-update -skipcrccheck: abc over ab = replace
-update -append: abc over ab = extend 2
-update -append: abc over ax = replace
-update -append: abc over empty = extend 0
-update -append: abc over abcd = replace
-update -append: abc over abc = skip
";

// Whether a text names an action.
fn names_action(text: &str, action: Action) -> bool {
    match action {
        Action::Folder => text == "folder",
        Action::Skip => text == "skip",
        Action::Replace => text == "replace",
        Action::Extend { from } => match text.strip_prefix("extend ") {
            Some(number) => number.parse::<u64>() == Ok(from),
            None => false,
        },
    }
}

// Whether a text names a refusal.
fn names_error(text: &str, error: &DecideError) -> bool {
    match error {
        DecideError::Clash => text == "clash",
        DecideError::SourceFault => text == "source fault",
        DecideError::TargetFault => text == "target fault",
        _ => false,
    }
}

// Whether a text names what is decided.
fn names(text: &str, answer: &Result<Decided, DecideError>) -> bool {
    match answer {
        Ok(decided) => names_action(text, decided.action),
        Err(error) => names_error(text, error),
    }
}

// Whether what is decided on the source's item is what a text names, where these calls on the source fail.
fn decides(
    alloc: Global,
    options: &Options,
    tree: &MemTree,
    own: &Fails,
    target: &mut MemTarget,
    text: &str,
) -> Result<bool, OutOfMemory> {
    let item = item_of(alloc, tree)?;
    let place = path_of(alloc, "/d/f")?;
    let none = Fails::none(alloc);
    let mut source = MemSource::new(tree, own, &none);
    let answer = decide(alloc, options, &mut source, target, &item, &place);
    Ok(names(text, &answer))
}

// The same for a source that has what a word says, with the options of a line.
fn decides_on(
    alloc: Global,
    line: &str,
    word: &str,
    own: &Fails,
    target: &mut MemTarget,
    text: &str,
) -> Result<bool, OutOfMemory> {
    let options = options_of(alloc, line)?;
    let tree = source_tree(alloc, word)?;
    decides(alloc, &options, &tree, own, target, text)
}

// The four parts of a line.
fn parts_of(line: &str) -> Option<(&str, &str, &str, &str)> {
    let (options, rest) = line.split_once(": ")?;
    let (case, expected) = rest.split_once(" = ")?;
    let (source, target) = case.split_once(" over ")?;
    Some((options, source, target, expected))
}

// Whether what a line says is decided, where these calls on the source and on the target fail.
fn is_decided(
    alloc: Global,
    line: &str,
    source_fails: &Fails,
    target_fails: Fails,
) -> Result<bool, OutOfMemory> {
    let Some((options, word, over, expected)) = parts_of(line) else {
        return Ok(false);
    };
    let mut target = target_of(alloc, over, target_fails)?;
    decides_on(alloc, options, word, source_fails, &mut target, expected)
}

// The first call of a kind fails.
fn first_fails(alloc: Global, which: Which) -> Result<Fails, OutOfMemory> {
    let mut list = List::new(alloc);
    list.add(Fail {
        which,
        nth: 1,
        done: false,
        then_all: false,
    })?;
    Ok(Fails::new(alloc, list))
}

// Whether what a line says is decided, where no call fails.
fn is_decided_without(alloc: Global, line: &str) -> Result<bool, OutOfMemory> {
    is_decided(alloc, line, &Fails::none(alloc), Fails::none(alloc))
}

// The same where the first look at the target fails.
fn is_decided_at_the_target(alloc: Global, line: &str) -> Result<bool, OutOfMemory> {
    let fails = first_fails(alloc, Which::Kind)?;
    is_decided(alloc, line, &Fails::none(alloc), fails)
}

// The same where the source's first checksum fails.
fn is_decided_at_the_source(alloc: Global, line: &str) -> Result<bool, OutOfMemory> {
    let fails = first_fails(alloc, Which::Checksum)?;
    is_decided(alloc, line, &fails, Fails::none(alloc))
}

#[test]
fn items_are_decided_by_the_table(rt: HostRuntime) -> Result<(), Failed> {
    for line in CASES.lines() {
        assert_eq!(rt; is_decided_without(rt.alloc(), line), Ok(true), "{line}");
    }
    Ok(())
}

#[test]
fn a_look_that_fails_is_a_fault_of_its_store(rt: HostRuntime) -> Result<(), Failed> {
    let alloc = rt.alloc();
    let line = "-update: abc over abc = target fault";
    assert_eq!(rt; is_decided_at_the_target(alloc, line), Ok(true));
    let line = "-update: abc over abc = source fault";
    assert_eq!(rt; is_decided_at_the_source(alloc, line), Ok(true));
    Ok(())
}
