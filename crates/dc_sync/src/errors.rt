//! Why a report is refused.
#![tactic(auto)]

use dc_path::{Name, OutOfMemory, Path};

/// Why a synchronisation by a report is refused. Paths are those of the store, but where they are said to be from the
/// directory of the report on.
#[derive(Drop)]
pub enum SyncError {
    /// No file stands at the path of the report.
    NoReport { path: Path },
    /// The report's file has too many bytes.
    TooBig { path: Path },
    /// The line of the report is refused. Lines count from 1, the heading included.
    BadReport { line: u32 },
    /// The target has changed since the snapshot at which the report begins: the path of the first entry, from the target on.
    NotAtBegin { path: Path },
    /// Something stands at the stage, or a path of the report begins with its name.
    StageExists { path: Path },
    /// The report does not tell of this target: the path at which the first test fails, from the target on.
    ReportFalse { path: Path },
    /// There are too many items.
    TooMany,
    /// A path passes the limits: the shortest part of it that does, by its parent and its last name.
    TooLong { parent: Path, name: Name },
    /// The store denied what it showed before.
    Changed { path: Path },
    /// The store failed.
    Fault,
    /// Memory ran out. No clause says when this comes.
    Memory,
}

impl From<OutOfMemory> for SyncError {
    ghost use Rattle.std.specs.Prelude.{◌≡◌};
    ghost use Rattle.dc_sync.specs.declared.errors.SyncError.TheVariants.{Memory};

    ghost from_gives = { λ _ e. e ≡ Memory };

    fn from(_lack: OutOfMemory) -> SyncError {
        SyncError::Memory
    }
}
