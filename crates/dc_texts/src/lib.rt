//! Worked examples of the calls that need no store: texts and paths, bundles, kill plans, patterns, options, reports.
#![tactic(auto)]

#[cfg(test)]
mod attribute_lines;
#[cfg(test)]
mod bundles;
#[cfg(test)]
mod filters;
#[cfg(test)]
mod kills;
#[cfg(test)]
mod moves;
#[cfg(test)]
mod options;
#[cfg(test)]
mod paths;
#[cfg(test)]
mod reports;
