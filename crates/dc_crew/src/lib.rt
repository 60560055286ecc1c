//! The workers of a copy: what each of them owns, and the waves in which all pieces are copied.
//!
//! A worker owns a slot: a fork of the source, a desk of the target and a buffer. In a wave each piece that is due is tried once,
//! as far as workers come to it. A piece that was killed, lost or failed is tried again in the next wave, until it is done or has
//! failed four times. Nothing lands here: what is done waits as a sealed temporary.
#![tactic(auto)]

mod copy;
mod crew;
mod halts;
mod rounds;
mod slots;
mod states;
mod waves;
mod world;

pub use copy::{Copied, CopyError, MAX_WORKERS, copy_pieces};
pub use halts::Halt;
