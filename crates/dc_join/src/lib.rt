//! The parts of files, joined in the order of their ranges, ready to land (Hadoop DistCp, `CopyCommitter.concatFileChunks`).
//!
//! Workers hand in parts of pieces in no order. `join` sorts them by the numbers of their pieces, and makes of the parts of each
//! file that lands one list. Where pieces were given up, `leave_out_given_up` lets the copy go on without their items first.
#![tactic(auto)]

mod joining;
mod leaving;

pub use joining::join;
pub use leaving::leave_out_given_up;
