//! The options of a copy, read from the words of a command line.
#![tactic(auto)]

mod errors;
pub mod laws;
mod lookup;
mod reading;
mod sets;
mod settings;
mod table;
mod values;
mod words;

pub use errors::OptionError;
pub use settings::{Options, Strategy, SyncBy};
