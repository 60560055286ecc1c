//! What is known of the stores of a copy.
#![tactic(auto)]

ghost use Rattle.std.specs.Prelude.{false, None};
ghost use Rattle.dc_crew.specs.Slots.{Scene};

use std::marker::Brand;

/// What contracts know of the two stores while workers run. The proof of a call that passes `Brand` picks it.
pub trait World: Sync {
    /// What is known of the two.
    ghost scene: { Scene };
}

impl World for Brand {
    ghost scene = { record { tree = None; tells = false; steady = false } };
}
