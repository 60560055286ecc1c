//! Plain copies: what two words, a directory of the source and the path of an empty target, ask for.
//!
//! The options of such a copy are the defaults (Hadoop DistCp Guide, "Basic Usage"). The laws say that nothing but a limit
//! refuses it, and which tree, landings and counters it leaves, by the source's tree alone.
#![tactic(auto)]

pub mod laws;
