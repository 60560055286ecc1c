//! Worked examples of the calls below the top call: trees, sources, targets and sinks in memory, and attributes.
#![tactic(auto)]

#[cfg(test)]
mod attributes;
#[cfg(test)]
mod changes;
#[cfg(test)]
mod digests;
#[cfg(test)]
mod faults;
#[cfg(test)]
mod fixtures;
#[cfg(test)]
mod forks;
#[cfg(test)]
mod sameness;
#[cfg(test)]
mod sinks;
#[cfg(test)]
mod sources;
#[cfg(test)]
mod targets;
#[cfg(test)]
mod trees;
