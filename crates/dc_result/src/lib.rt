//! What a copy leaves: the laws, over definitions alone.
//!
//! Options and a listing define a tree at the target (Hadoop DistCp, `CopyMapper` and `CopyCommitter`). The laws say that
//! the phases of a commit make it, when no tree refuses one of their steps, and what stands where a phase stops early.
#![tactic(auto)]

pub mod laws;
