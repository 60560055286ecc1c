//! What replaying a snapshot report makes of a tree: the laws, over definitions alone.
//!
//! A report is replayed by its moves, one after the other (HDFS-7535). The laws say what they give, when no tree refuses
//! them, and that a true report may be replayed and leads to the later snapshot.
#![tactic(auto)]

pub mod laws;
