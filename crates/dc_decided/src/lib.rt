//! Worked examples of what becomes of an item over what the target has at its place.
#![tactic(auto)]

#[cfg(test)]
mod decisions;
#[cfg(test)]
mod fixtures;
