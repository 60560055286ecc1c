//! A tree of directories and files in memory.
#![tactic(auto)]

mod arena;
mod homes;
mod same;
mod slots;
mod tree;

pub use tree::MemTree;
