//! Worked examples of stores over folders of the machine.
#![tactic(auto)]

#[cfg(test)]
mod attributes;
#[cfg(test)]
mod fixtures;
#[cfg(test)]
mod landing;
#[cfg(test)]
mod refusals;
#[cfg(test)]
mod runs;
