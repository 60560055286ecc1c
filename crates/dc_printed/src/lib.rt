//! What runs print, and their exit statuses, outcome by outcome.
#![tactic(auto)]

#[cfg(test)]
mod commits;
#[cfg(test)]
mod ended;
#[cfg(test)]
mod kinds;
#[cfg(test)]
mod options;
#[cfg(test)]
mod refusals;
