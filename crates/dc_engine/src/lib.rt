//! A run: what is surveyed, settled and finished between a source and a target.
//!
//! `survey` reads the files that the options name, tests the sources and the target, and lists what is to be copied. It
//! changes nothing. `settle` decides what becomes of what is listed, what of the target goes, and how files are cut. `finish`
//! copies the files and commits the copy. `run` does all three.
#![tactic(auto)]

mod committing;
mod copying;
mod counting;
mod finishing;
mod inputs;
pub mod laws;
mod outcome;
mod running;
mod settling;
mod surveying;
mod sweeping;
mod targets;

pub use finishing::finish;
pub use outcome::{BadTarget, Counts, Outcome, Phase, Run, TooManyOf};
pub use running::run;
pub use settling::{Settled, settle};
pub use surveying::{Surveyed, survey};
