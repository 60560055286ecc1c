//! Patterns that keep paths out of a copy, one a line (Hadoop DistCp Guide, `-filters`).
//!
//! A pattern has the syntax of Rust's `regex`. It excludes a path where it matches the whole text of the path.
//! `Filter::read` reads the lines of a file, and names the first one that is refused. A walk takes the `Searches` of
//! a filter once, and asks them at each path.
#![tactic(auto)]

mod filter;
pub mod laws;
mod pattern;
mod search;

pub use filter::{Filter, FilterError, Searches};
pub use pattern::{BuildError, Pattern, Patterns, RegexPatterns};
pub use search::Search;
