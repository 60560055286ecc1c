//! Folders of the machine as stores, and the standard output as a sink.
#![tactic(auto)]

mod catalogue;
mod counts;
mod desk;
mod errors;
mod folder;
mod kept;
mod reading;
mod source;
mod stdout;
mod target;
mod written;

pub use desk::{LocalDesk, LocalTemp};
pub use errors::LocalError;
pub use source::LocalSource;
pub use stdout::StdSink;
pub use target::LocalTarget;
