//! Waves: worker threads that draw bundles of numbers, and work on each number once.
//!
//! A number stands for a piece of work, and a bundle is a list of numbers. What is done with a number, and in what, says
//! the trait `Crew`. `wave` runs one worker for each slot. Each of them draws one bundle after the other from a word that
//! all of them count up by one atomic step (`Draws`), so that no bundle is given twice. A number that is killed may stop
//! its worker: then the rest of its bundle is lost, and so are bundles that no worker draws.
#![tactic(auto)]

mod crew;
mod draws;
mod results;
mod rule;
mod threads;
mod waves;
mod worker;

pub use crew::{Crew, Worked};
pub use draws::{Drawer, Draws};
pub use results::{Receipt, Wave};
pub use waves::wave;
