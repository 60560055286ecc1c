//! Stores, desks and sinks in memory, which tell all that they hold.
#![tactic(auto)]

mod calls;
mod desk;
mod fails;
mod looks;
mod sink;
mod source;
mod target;

pub use desk::{MemDesk, MemTemp};
pub use fails::{Fail, Fails, Which};
pub use sink::{MAX_SINK_BYTES, MemSink};
pub use source::MemSource;
pub use target::MemTarget;
