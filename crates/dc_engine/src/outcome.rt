//! How a run ends.
#![tactic(auto)]

use dc_options::OptionError;
use dc_path::{List, Name, OutOfMemory, Path};

/// The part of a run in which the target failed, in the order of a run.
#[derive(Clone, Copy, Debug, PartialEq, Eq)]
pub enum Phase {
    /// The target is looked at before anything is changed.
    Check,
    /// The moves of a report are made.
    Replay,
    /// What the target has at the places of items is looked at.
    Decide,
    /// Files are copied to temporaries.
    Copy,
    /// Directories are made.
    Dirs,
    /// Temporaries land as files.
    Land,
    /// What is left of temporaries is removed.
    Sweep,
    /// The attributes of files are set.
    FileAttrs,
    /// What is not listed is removed.
    Delete,
    /// The attributes of directories are set.
    DirAttrs,
    /// The work path is moved to the target.
    Move,
}

/// What there is too much of.
#[derive(Clone, Copy, Debug, PartialEq, Eq)]
pub enum TooManyOf {
    /// More than 1,048,576 listed items.
    Items,
    /// More than 8,388,608 pieces.
    Pieces,
    /// More than 1,048,576 paths of the target that are walked for `-delete`.
    Missing,
}

/// What is wrong with the target, in the order in which it is tested.
#[derive(Clone, Copy, Debug, PartialEq, Eq)]
pub enum BadTarget {
    /// The target, the folder of `-tmp` or the place of a source has the name `.snapshot`.
    InSnapshot,
    /// A file stands above the target.
    UnderFile,
    /// The target is a file, and there are several sources.
    ManyOntoFile,
    /// The target is a file, and the source a directory.
    DirOntoFile,
    /// `-atomic`, and something stands at the target.
    AtomicExists,
    /// The folder of `-tmp` is no directory of the target.
    NoTmp,
    /// `-atomic`, and one of the work path and the target is the other or is above it.
    TmpInside,
}

/// How a run ended.
#[derive(Drop)]
pub enum Outcome {
    /// All steps are done.
    Committed,
    /// All steps are done but for the items at these paths under the target (`-i`).
    CommittedWithout {
        paths: List<Path>,
    },
    /// The words are no options.
    BadOption {
        error: OptionError,
    },
    /// No file of the source stands at a path of `-f`, `-filters` or `-kills`.
    NoFile {
        path: Path,
    },
    /// Such a file, or a report, has more than 67,108,864 bytes.
    TooBig {
        path: Path,
    },
    /// The line of the file of `-f` is no path; 0 where there is no path at all.
    BadList {
        line: u32,
    },
    /// The line of the file of `-filters` is no pattern.
    BadPattern {
        line: u32,
    },
    /// The pattern of the line would be too big.
    BigPattern {
        line: u32,
    },
    /// The line of the file of `-kills` is refused.
    BadPlan {
        line: u32,
    },
    /// The line of a report is refused.
    BadReport {
        line: u32,
    },
    /// A report that is needed is no file.
    NoReport {
        path: Path,
    },
    /// The source does not exist, or the snapshot of a report's run is no directory.
    NoSource {
        path: Path,
    },
    /// The target will not do.
    BadTarget {
        kind: BadTarget,
    },
    /// Two listed items have one path under the target: their paths in the source.
    Duplicate {
        rel: Path,
        first: Path,
        second: Path,
    },
    /// There is too much of something.
    TooMany {
        what: TooManyOf,
    },
    /// A path passes 256 names or 4,096 bytes; it is this name in this directory.
    TooLong {
        parent: Path,
        name: Name,
    },
    /// The target has the other kind at the place of an item, or a file above it.
    Clash {
        path: Path,
    },
    /// The target has changed since the snapshot from which a report is replayed.
    NotAtBegin {
        path: Path,
    },
    /// The folder through which a report is replayed stands already.
    StageExists {
        path: Path,
    },
    /// A report does not fit the target.
    ReportFalse {
        path: Path,
    },
    /// The work path of `-atomic` stands already.
    WorkExists {
        path: Path,
    },
    /// The source failed: its count of faults rose.
    SourceFault,
    /// The target failed in this phase after so many of its elements.
    TargetFault {
        phase: Phase,
        done: u64,
    },
    /// Four attempts at a piece of the file failed.
    CopyFailed {
        path: Path,
    },
    /// What was read and what was written have different digests.
    Differs {
        path: Path,
        expected: [u8; 16],
        found: [u8; 16],
    },
    /// A store denied what it showed before.
    Changed {
        path: Path,
    },
    /// Whether the last move was made is not known.
    Uncertain {
        path: Path,
    },
    /// Memory ran out.
    Memory,
    /// The options ask for a report, which is not built yet.
    Unbuilt,
}

/// The six counters of a run (Hadoop DistCp, `CopyMapper.Counter`). They are 0 where it did not commit.
#[derive(Clone, Copy, Debug, PartialEq, Eq)]
pub struct Counts {
    /// Files that landed.
    pub copied: u64,
    /// Listed directories.
    pub dirs: u64,
    /// Files that were left as the target had them.
    pub skipped: u64,
    /// Items that the run went on without.
    pub failed: u64,
    /// Bytes of all landings.
    pub bytes_copied: u128,
    /// Source lengths of the files that were skipped.
    pub bytes_skipped: u128,
}

impl Counts {
    /// The counters of a run that did not commit.
    pub const NONE: Counts = Counts {
        copied: 0,
        dirs: 0,
        skipped: 0,
        failed: 0,
        bytes_copied: 0,
        bytes_skipped: 0,
    };
}

/// What a run answers.
#[derive(Drop)]
pub struct Run {
    /// How it ended.
    pub outcome: Outcome,
    /// The six counters.
    pub counts: Counts,
    /// How many moves of a report were made: 0 in a run without one.
    pub moves: u64,
}

impl From<OutOfMemory> for Outcome {
    ghost use Rattle.std.specs.Prelude.{◌≡◌};
    ghost use Rattle.dc_engine.specs.declared.outcome.Outcome.TheVariants.{Memory};

    ghost from_gives = { λ _ e. e ≡ Memory };

    fn from(_lack: OutOfMemory) -> Outcome {
        Outcome::Memory
    }
}
