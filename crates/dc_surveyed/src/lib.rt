//! Worked examples of what a survey finds, of what is settled then, and of what both refuse, in which order.
#![tactic(auto)]

#[cfg(test)]
mod fixtures;
#[cfg(test)]
mod settled_texts;
#[cfg(test)]
mod settles;
#[cfg(test)]
mod surveys;
#[cfg(test)]
mod texts;
