//! What the target has and the source lacks, which a copy with `-delete` removes (Hadoop DistCp,
//! `CopyCommitter.deleteMissing`).
//!
//! `delete_list` walks what stands below the base of a plan, and answers the paths to remove, none under another.
#![tactic(auto)]

mod error;
mod found;
mod listing;
mod looks;
mod places;
mod walking;

pub use error::DeleteError;
pub use found::MAX_PATHS;
pub use listing::delete_list;
