//! What becomes of all items of a copy: the plan, item by item in path order.
//!
//! `plan_items` decides on each listed item, and leaves out those that clash where the copy is to go on without them. It
//! changes nothing.
#![tactic(auto)]

mod planning;

pub use planning::{PlanError, plan_items};
