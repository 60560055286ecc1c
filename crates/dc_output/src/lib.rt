//! What a run prints, and its exit status.
//!
//! `print` writes the lines of a run to a sink: the six counters where it committed, and then how it ended. `status` is the
//! exit status. Neither takes memory.
#![tactic(auto)]

mod pieces;
mod printing;
mod rows;

pub use printing::{Answer, print, print_no_memory, status};
