//! Worked examples of draws and waves, with ample memory.
#![tactic(auto)]

#[cfg(test)]
mod drawing;
#[cfg(test)]
mod flags;
#[cfg(test)]
mod kills;
#[cfg(test)]
mod script;
