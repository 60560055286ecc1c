//! The rule of the table from which bundles are drawn, and the three kinds of step that keep it.
#![tactic(auto)]

use atomic_table::{Join, Play, Split, TableRule};
use std::collections::LinkedList;

/// What the holder of a seat knows. Contracts alone have values of it: no program makes one.
pub struct View {
    /// The numbers that were drawn, in order.
    pub drawn: LinkedList<u64>,
    /// How many of the seats are held.
    pub seats: u64,
}

/// What a table is told when it is made.
#[derive(Drop)]
pub struct Made {
    /// How many bundles there are.
    pub bundles: u32,
    /// How many seats were made.
    pub seats: u32,
}

/// The rule: each number below word 0 was drawn by one seat, once, and no other number was.
pub struct EachOnce;

impl TableRule<u8, View, Made> for EachOnce {
    ghost use Rattle.dc_pool.specs.Drawing.{IsKept, opened};

    ghost holds = { IsKept };

    ghost first = { opened };
}

/// The kind of step that draws a number.
pub struct Draw;

impl Play<u8, View> for Draw {
    ghost use Rattle.dc_pool.specs.Drawing.{Drew};

    ghost then = { Drew };
}

/// The kinds of step that give one seat away, and that take seats over.
pub struct OneSeat;

impl Split<View> for OneSeat {
    ghost use Rattle.dc_pool.specs.Drawing.{one_less, one_seat};

    ghost left = { one_less };

    ghost right = { λ _. one_seat };
}

impl Join<View> for OneSeat {
    ghost use Rattle.dc_pool.specs.Drawing.{joined, nobody};

    ghost both = { joined };

    ghost spent = { nobody };
}
