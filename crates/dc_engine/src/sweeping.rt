//! What is done with temporaries where a run ends by a refusal.
#![tactic(auto)]

ghost use Rattle.std.specs.Prelude.{◌≡◌, ◌+◌, ◌≤◌};
ghost use Rattle.dc_fs.specs.Views.{view};
ghost use Rattle.dc_engine.specs.Sweeping.{IsSwept};

use crate::Outcome;
use dc_fs::Target;

/// Removes what is left of temporaries after a refusal, which stays the answer whatever comes of that.
pub(crate) fn give_up<T: Target>(target: &mut T, outcome: Outcome) -> Outcome
    ensures outcome { result ≡ outcome }
    ensures target { IsSwept (view T.Store target.old) (view T.Store target.new) }
    ensures looks { T.looks target.new ≤ T.looks target.old + 1 }
{
    let _ = target.sweep();
    outcome
}
