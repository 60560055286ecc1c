//! Kill plans: which attempts at copying a piece are stopped, and at which step.
//!
//! A plan is a finite map from attempts to stops, which is read from a text. An attempt is a piece and a number
//! from 1 on. Plans are for tests and drills of recovery: they are this project's own.
#![tactic(auto)]

mod entries;
mod parts;
mod plan;
mod stop;

pub use plan::{KillPlan, PlanError};
pub use stop::Stop;
