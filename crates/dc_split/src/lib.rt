//! How the records of a copy are split into bundles, by either of DistCp's two strategies.
//!
//! A record is known by its number, which counts from 0, and a bundle is a list of numbers. One worker does a
//! bundle at a time. `uniform` fills bundles up to one size, `dynamic` deals the records out. Either way each
//! record stands in exactly one bundle, once.
#![tactic(auto)]

mod by_count;
mod by_size;
pub mod laws;

pub use by_count::dynamic;
pub use by_size::uniform;
