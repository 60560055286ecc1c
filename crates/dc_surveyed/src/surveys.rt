//! What is found and what is refused, by the words, the source's files and what the target has.
#![tactic(auto)]

use crate::fixtures::{options_of, tree_of};
use crate::texts::text_of;
use dc_engine::survey;
use dc_filter::RegexPatterns;
use dc_memfs::{Fail, Fails, MemSource, MemTarget, Which};
use dc_path::{List, OutOfMemory};
use dc_tree::MemTree;
use std::alloc::Global;
use std::test::Fail as Failed;

// What stands in the source: directories, and files with the bytes behind `=`, where `;` is a line feed and `_` a blank.
const TREE: &str =
    "/s /s/a=1 /s/b /s/b/c=2 /t /t/x=3 /u /u/a=4 /v /v/.snapshot /v/.snapshot/k=5 /f=6 \
/list=/s; /gaps=;/s;; /lists=/t;/s /badlist=/s;s;t /nolist=;; \
/patterns=.*/b;.*/x /badpatterns=.*/b;.*/x;(; /plan=0_1_7;2_1_5_worker /badplan=0_1_7;0_0_7 /twiceplan=0_1_7;0_1_8";

// Each line has words, what the target has, and behind `= ` what is found or refused.
const CASES: &str = "\
/s /d over - = listed /s/a:/a /s/b:/b /s/b/c:/b/c
/s /d over /d = listed /s:/s /s/a:/s/a /s/b:/s/b /s/b/c:/s/b/c
-update /s /d over /d = listed /s/a:/a /s/b:/b /s/b/c:/b/c
/t /s /d over - = listed /s:/s /s/a:/s/a /s/b:/s/b /s/b/c:/s/b/c /t:/t /t/x:/t/x
/f /d over - = listed /f:/
/f /d over /d=1 = listed /f:/
/f /d over /d = listed /f:/f
-f /list /d over - = listed /s/a:/a /s/b:/b /s/b/c:/b/c
-f /gaps /d over - = listed /s/a:/a /s/b:/b /s/b/c:/b/c
-f /lists /d over - = listed /s:/s /s/a:/s/a /s/b:/s/b /s/b/c:/s/b/c /t:/t /t/x:/t/x
-filters /patterns /s /d over - = listed /s/a:/a
-kills /plan /t /d over - = listed /t/x:/x stop 7
-atomic /t /d over - = listed /t/x:/x
-atomic -tmp /tmp /t /d over /tmp = listed /t/x:/x
-f /badlist /d over - = bad list 2
-f /nolist /d over - = bad list 0
-f /m /d over - = no file /m
-f /s /d over - = no file /s
-f /f/g /d over - = no file /f/g
-filters /m /s /d over - = no file /m
-filters /badpatterns /s /d over - = bad pattern 3
-kills /m /s /d over - = no file /m
-kills /badplan /s /d over - = bad plan 2
-kills /twiceplan /s /d over - = bad plan 2
/m /d over - = no source /m
/s /m /n /d over - = no source /m
/s /d/.snapshot/k over - = in a snapshot
-atomic -tmp /.snapshot /s /d over - = in a snapshot
/v/.snapshot /d over /d = in a snapshot
/s /d/e over /d=1 = under a file
/s /f /d over /d=1 = several sources onto a file
/s /d over /d=1 = a directory onto a file
-update /s /d over /d=1 = a directory onto a file
-atomic /s /d over /d = exists under -atomic
-atomic /f /d over /d=1 = exists under -atomic
-atomic -tmp /tmp /s /d over - = no folder for -tmp
-atomic -tmp /tmp /s /d over /tmp=1 = no folder for -tmp
-atomic /s /.distcp.work over - = work path and target overlap
-atomic -tmp /tmp /s /tmp/.distcp.work/d over /tmp = work path and target overlap
-atomic /s /d over /.distcp.work = work exists /.distcp.work
-atomic -tmp /tmp /s /d over /tmp /tmp/.distcp.work=1 = work exists /tmp/.distcp.work
-atomic -tmp /tmp /s /d over /tmp /.distcp.work = listed /s/a:/a /s/b:/b /s/b/c:/b/c
-update /s /u /d over - = twice /a /s/a /u/a
-update -diff a b /m /d over - = not built
-update -rdiff a b /m /d over - = not built
-f /badlist -filters /badpatterns -kills /badplan /.snapshot over - = bad list 2
-filters /badpatterns -kills /badplan /m /.snapshot over - = bad pattern 3
-kills /badplan /m /.snapshot over - = bad plan 2
/m /s /.snapshot over - = no source /m
/s /t /d/.snapshot over /d=1 = in a snapshot
/s /t /d/e over /d=1 = under a file
-atomic /s /t /d over /d=1 /.distcp.work = several sources onto a file
-atomic /s /d over /d=1 = a directory onto a file
-atomic -tmp /tmp /s /d over /d = exists under -atomic
-atomic -tmp /tmp /s /tmp/.distcp.work over - = no folder for -tmp
-atomic -tmp /tmp /s /tmp/.distcp.work/d over /tmp /tmp/.distcp.work = work path and target overlap
-atomic /s /t /s /d over /.distcp.work = work exists /.distcp.work
";

// What a survey answers, where these calls fail, and patterns are refused for size from a build on.
fn surveyed(
    alloc: Global,
    tree: &MemTree,
    words: &str,
    own: &Fails,
    target: &mut MemTarget,
    refuse_at: Option<u64>,
) -> Result<String, OutOfMemory> {
    let options = options_of(alloc, words)?;
    let none = Fails::none(alloc);
    let mut source = MemSource::new(tree, own, &none);
    let mut pats = RegexPatterns::new(refuse_at);
    let answer = survey(alloc, &options, &mut source, target, &mut pats);
    text_of(alloc, &answer)
}

/// The three parts of a line.
pub(crate) fn parts_of(line: &str) -> Option<(&str, &str, &str)> {
    let (case, expected) = line.split_once(" = ")?;
    let (words, target) = case.split_once(" over ")?;
    Some((words, target, expected))
}

// Whether a line says what is answered, where these calls fail, and patterns are refused for size from a build on.
fn is_answered(
    alloc: Global,
    tree: &MemTree,
    line: &str,
    own: &Fails,
    target_own: Fails,
    refuse_at: Option<u64>,
) -> Result<bool, OutOfMemory> {
    let Some((words, has, expected)) = parts_of(line) else {
        return Ok(false);
    };
    let has = tree_of(alloc, has)?;
    let mut target = MemTarget::new(alloc, has, target_own, Fails::none(alloc));
    let text = surveyed(alloc, tree, words, own, &mut target, refuse_at)?;
    Ok(text.as_str() == expected)
}

/// The call of a kind with this number, counted from 1, fails.
pub(crate) fn fails_at(alloc: Global, which: Which, nth: u64) -> Result<Fails, OutOfMemory> {
    let mut list = List::new(alloc);
    list.add(Fail {
        which,
        nth,
        done: false,
        then_all: false,
    })?;
    Ok(Fails::new(alloc, list))
}

// Whether a line says what is answered, where no call fails.
fn is_answered_calmly(alloc: Global, tree: &MemTree, line: &str) -> Result<bool, OutOfMemory> {
    is_answered(
        alloc,
        tree,
        line,
        &Fails::none(alloc),
        Fails::none(alloc),
        None,
    )
}

// The same where a call of the source fails.
fn is_answered_by_a_source(
    alloc: Global,
    line: &str,
    which: Which,
    nth: u64,
) -> Result<bool, OutOfMemory> {
    let tree = tree_of(alloc, TREE)?;
    let fails = fails_at(alloc, which, nth)?;
    is_answered(alloc, &tree, line, &fails, Fails::none(alloc), None)
}

// The same where a look at the target fails.
fn is_answered_by_a_target(alloc: Global, line: &str, nth: u64) -> Result<bool, OutOfMemory> {
    let tree = tree_of(alloc, TREE)?;
    let fails = fails_at(alloc, Which::Kind, nth)?;
    is_answered(alloc, &tree, line, &Fails::none(alloc), fails, None)
}

// The same where the patterns refuse each build for its size.
fn is_answered_by_small_patterns(alloc: Global, line: &str) -> Result<bool, OutOfMemory> {
    let tree = tree_of(alloc, TREE)?;
    is_answered(
        alloc,
        &tree,
        line,
        &Fails::none(alloc),
        Fails::none(alloc),
        Some(1),
    )
}

#[test]
fn surveys_answer_by_the_table(rt: HostRuntime) -> Result<(), Failed> {
    let tree = tree_of(rt.alloc(), TREE)?;
    for line in CASES.lines() {
        assert_eq!(rt;
            is_answered_calmly(rt.alloc(), &tree, line),
            Ok(true),
            "{line}"
        );
    }
    Ok(())
}

#[test]
fn a_call_that_fails_is_a_fault_of_its_store(rt: HostRuntime) -> Result<(), Failed> {
    let alloc = rt.alloc();
    let line = "-f /list /d over - = source fault";
    assert_eq!(rt;
        is_answered_by_a_source(alloc, line, Which::Kind, 1),
        Ok(true)
    );
    assert_eq!(rt;
        is_answered_by_a_source(alloc, line, Which::Read, 1),
        Ok(true)
    );
    assert_eq!(rt;
        is_answered_by_a_source(alloc, line, Which::Kind, 2),
        Ok(true)
    );
    assert_eq!(rt;
        is_answered_by_a_source(alloc, line, Which::List, 2),
        Ok(true)
    );
    let line = "-atomic -tmp /tmp /s /d over /tmp = target fault";
    assert_eq!(rt; is_answered_by_a_target(alloc, line, 1), Ok(true));
    assert_eq!(rt; is_answered_by_a_target(alloc, line, 2), Ok(true));
    assert_eq!(rt; is_answered_by_a_target(alloc, line, 3), Ok(true));
    Ok(())
}

#[test]
fn a_pattern_that_is_refused_for_its_size_is_too_big(rt: HostRuntime) -> Result<(), Failed> {
    let line = "-filters /patterns /s /d over - = pattern too big 1";
    assert_eq!(rt; is_answered_by_small_patterns(rt.alloc(), line), Ok(true));
    Ok(())
}
