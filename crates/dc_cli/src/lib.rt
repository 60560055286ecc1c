//! DistCp: copies what words ask for from a source store to a target store, and prints what it did.
//!
//! `distcp` is the whole of it: words, two stores, patterns and a sink. `drill` is a copy between two stores in memory.
#![tactic(auto)]

mod drills;
mod top;

pub use drills::{Drilled, MAX_COUNT, MIN_COUNT, drill};
pub use top::distcp;
