//! Snapshot reports, as `hdfs snapshotDiff` prints them: read, written, and what they say of paths.
//!
//! A report is a list of entries, each of which tells of a path that was deleted, renamed, created or modified
//! between two snapshots of a directory (HDFS Snapshots, "Get Snapshots Difference Report"). Paths are meant from
//! that directory on.
#![tactic(auto)]

mod carries;
mod entries;
mod grammar;
mod known;
pub mod laws;
mod lines;
mod moves;
mod report;
mod sources;
mod unlimited;
mod writing;

pub use carries::Carries;
pub use entries::{Entry, Move};
pub use report::{Report, ReportError};
pub use unlimited::moved_names;
pub use writing::{WriteReportError, write_entries};
