//! What is listed: where each source is put under the target, what a root lists, and the listing of all roots.
//!
//! `roots` reads where sources stand, by the options and what stands at the target. `walk` adds what one root lists to a
//! list, in path order. `list` puts together what all roots list, in path order, where no path is listed twice.
#![tactic(auto)]

mod item;
mod listed;
mod listing;
mod sources;
mod steps;
mod walking;

pub use item::{Item, ListError, MAX_ITEMS, Root};
pub use listed::list;
pub use listing::walk;
pub use sources::roots;
