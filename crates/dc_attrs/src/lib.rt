//! Attributes of files and directories, which of them a copy keeps, what a look at a path shows, and the
//! definitions of trees.
#![tactic(auto)]

mod attributes;
mod escapes;
mod keeping;
pub mod laws;
mod lines;
mod pairs;
mod refusals;
mod shown;

pub use attributes::{Attrs, AttrsError, Field, Xattr, overlay, same_kept};
pub use keeping::{Keep, KeepError};
pub use lines::LineError;
pub use refusals::TreeError;
pub use shown::Seen;
