//! What becomes of a listed item at the target: it is made, kept, replaced or added to.
//!
//! `decide` looks at an item's place, and compares files by lengths, block sizes and MD5 digests. It changes nothing. A
//! `Plan` has all items of a copy in path order, each with what was decided on it.
#![tactic(auto)]

mod action;
mod deciding;
mod digests;
mod errors;
mod files;
mod plan;

pub use action::Action;
pub use deciding::{Decided, decide};
pub use errors::DecideError;
pub use plan::{Plan, Planned};
