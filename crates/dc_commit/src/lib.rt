//! Each change of the target in a copy, element by element (Hadoop DistCp, `CopyCommitter`).
//!
//! The phases of a commit, in their order: directories are made, files land, the attributes of files are set, what the
//! source lacks is removed, and the attributes of directories are set. A phase that stops says after how many elements.
#![tactic(auto)]

mod items;
mod landing;
mod making;
mod moving;
mod removing;
mod setting;
mod steps;

pub use landing::{Ready, land_all};
pub use making::make_dirs;
pub use moving::{Moved, move_work};
pub use removing::delete_missing;
pub use setting::{set_dir_attrs, set_file_attrs};
pub use steps::StepError;
