//! Worked examples of where sources are put under the target, and of what the walk of a root adds,
//! and of what all roots list.
#![tactic(auto)]

#[cfg(test)]
mod fixtures;
#[cfg(test)]
mod listings;
#[cfg(test)]
mod placed;
#[cfg(test)]
mod walked;
