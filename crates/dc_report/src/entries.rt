//! What a report tells of a path, and a change of a tree.
#![tactic(auto)]

use dc_path::Path;

/// What a report tells of a path (HDFS Snapshots, "Get Snapshots Difference Report"). Paths are meant from the
/// directory of the report on.
#[derive(Drop)]
pub enum Entry {
    /// The path was deleted. It is a path of the earlier snapshot.
    Deleted(Path),
    /// What stood at the one path stands at the other.
    Renamed {
        /// The path in the earlier snapshot.
        from: Path,
        /// The path in the later snapshot.
        to: Path,
    },
    /// The path was created. Its parent is a path of the earlier snapshot.
    Created(Path),
    /// The path was modified. It is a path of the earlier snapshot.
    Modified(Path),
}

/// A change of a tree.
#[derive(Drop)]
pub enum Move {
    /// A default directory is made.
    Make { path: Path },
    /// What stands at one path, with all under it, is moved to another.
    Shift { from: Path, to: Path },
    /// What stands at a path is removed, with all under it.
    Clear { path: Path },
}
