//! Synchronisation by snapshot reports (Hadoop DistCp, `-diff` and `-rdiff`, `DistCpSync`; HDFS-7535, HDFS-9820).
//!
//! A report tells how one snapshot of a directory became another. It is read from a store, it is tested whether a target stands
//! where the report begins, and its moves are made on the target. What the moves make of a tree, and for which reports and trees
//! none of them is refused, are the laws of `dc_replay`.
#![tactic(auto)]

mod beginning;
mod checking;
mod errors;
mod listing;
mod looks;
mod reading;
mod replaying;
mod steps;
mod tests;

pub use beginning::at_begin;
pub use checking::check;
pub use errors::SyncError;
pub use listing::test_listing;
pub use reading::read_report;
pub use replaying::{Replayed, replay};
