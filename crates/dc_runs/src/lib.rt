//! Worked examples of the top call over stores in memory.
#![tactic(auto)]

#[cfg(test)]
mod attributes;
#[cfg(test)]
mod copies;
#[cfg(test)]
mod faults;
#[cfg(test)]
mod filters;
#[cfg(test)]
mod limits;
#[cfg(test)]
mod moves;
#[cfg(test)]
mod refusals;
#[cfg(test)]
mod runs;
#[cfg(test)]
mod trees;
#[cfg(test)]
mod updates;
#[cfg(test)]
mod waves;
#[cfg(test)]
mod workers;
