//! One attempt at copying a range of a file into a temporary.
//!
//! The bytes go through a buffer once: the digest of what was read is taken as it is read, and compared with that of the
//! temporary before this is sealed. An attempt can be stopped before each of its steps.
#![tactic(auto)]

mod attempted;
mod attempts;
mod copying;
mod stopping;

pub use attempted::Attempted;
pub use attempts::{Attempts, attempt};
