//! Outcomes whose lines are told by a kind or a phase, and those that say nothing else.
#![tactic(auto)]

use crate::ended::ends;
use dc_engine::{BadTarget, Outcome, Phase, TooManyOf};
use std::test::Fail;

const TARGETS: [(BadTarget, &str); 7] = [
    (BadTarget::InSnapshot, "distcp: bad target: in a snapshot\n"),
    (BadTarget::UnderFile, "distcp: bad target: under a file\n"),
    (
        BadTarget::ManyOntoFile,
        "distcp: bad target: several sources onto a file\n",
    ),
    (
        BadTarget::DirOntoFile,
        "distcp: bad target: a directory onto a file\n",
    ),
    (
        BadTarget::AtomicExists,
        "distcp: bad target: exists under -atomic\n",
    ),
    (BadTarget::NoTmp, "distcp: bad target: no folder for -tmp\n"),
    (
        BadTarget::TmpInside,
        "distcp: bad target: work path and target overlap\n",
    ),
];

#[test]
fn a_bad_target_ends_with_its_kind(rt: HostRuntime) -> Result<(), Fail> {
    for (kind, line) in TARGETS {
        assert_eq!(rt;
            ends(rt.alloc(), Outcome::BadTarget { kind }, line, 255),
            Ok(true),
            "at {line}"
        );
    }
    Ok(())
}

const MANY: [(TooManyOf, &str); 3] = [
    (TooManyOf::Items, "distcp: too many items\n"),
    (TooManyOf::Pieces, "distcp: too many pieces\n"),
    (TooManyOf::Missing, "distcp: too many target paths\n"),
];

#[test]
fn what_there_is_too_much_of_is_named(rt: HostRuntime) -> Result<(), Fail> {
    for (what, line) in MANY {
        assert_eq!(rt;
            ends(rt.alloc(), Outcome::TooMany { what }, line, 253),
            Ok(true),
            "at {line}"
        );
    }
    Ok(())
}

const FAULTS: [(Phase, u64, &str); 11] = [
    (Phase::Check, 0, "distcp: target fault in check after 0\n"),
    (Phase::Replay, 1, "distcp: target fault in replay after 1\n"),
    (Phase::Decide, 0, "distcp: target fault in decide after 0\n"),
    (Phase::Copy, 0, "distcp: target fault in copy after 0\n"),
    (Phase::Dirs, 9, "distcp: target fault in dirs after 9\n"),
    (Phase::Land, 10, "distcp: target fault in land after 10\n"),
    (Phase::Sweep, 0, "distcp: target fault in sweep after 0\n"),
    (
        Phase::FileAttrs,
        1_048_576,
        "distcp: target fault in file attributes after 1048576\n",
    ),
    (
        Phase::Delete,
        305,
        "distcp: target fault in delete after 305\n",
    ),
    (
        Phase::DirAttrs,
        u64::MAX,
        "distcp: target fault in directory attributes after 18446744073709551615\n",
    ),
    (Phase::Move, 0, "distcp: target fault in move after 0\n"),
];

#[test]
fn a_fault_of_the_target_names_its_phase(rt: HostRuntime) -> Result<(), Fail> {
    for (phase, done, line) in FAULTS {
        assert_eq!(rt;
            ends(rt.alloc(), Outcome::TargetFault { phase, done }, line, 25),
            Ok(true),
            "at {line}"
        );
    }
    Ok(())
}

#[test]
fn other_ends_have_one_line_each(rt: HostRuntime) -> Result<(), Fail> {
    let alloc = rt.alloc();
    assert_eq!(rt;
        ends(alloc, Outcome::SourceFault, "distcp: source fault\n", 25),
        Ok(true)
    );
    assert_eq!(rt;
        ends(alloc, Outcome::Memory, "distcp: no memory\n", 24),
        Ok(true)
    );
    assert_eq!(rt;
        ends(alloc, Outcome::Unbuilt, "distcp: not built yet\n", 255),
        Ok(true)
    );
    Ok(())
}
