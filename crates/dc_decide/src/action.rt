//! What is done with a listed item at its place.
#![tactic(auto)]

/// What becomes of a listed item at the target (Hadoop DistCp, `CopyMapper.FileAction`).
#[derive(Clone, Copy, Debug, PartialEq, Eq)]
pub enum Action {
    /// A directory stands there, and is made where there is none.
    Folder,
    /// The target's file keeps its bytes.
    Skip,
    /// The source's file takes the place.
    Replace,
    /// The source's bytes from this place on, counted from 0, are added to the target's file.
    Extend { from: u64 },
}
