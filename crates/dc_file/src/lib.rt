//! A whole file of a store, read into memory.
//!
//! `read_file` is for the small files that steer a copy, as lists of sources, patterns and reports are. Files that are
//! copied go through a buffer, and not through here.
#![tactic(auto)]

mod reading;

pub use reading::{FileError, MAX_BYTES, read_file};
