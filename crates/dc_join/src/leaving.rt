//! Items of which a piece was given up.
#![tactic(auto)]

ghost use Rattle.std.specs.Prelude.{◌≡◌, ◌<◌, length, All};
ghost use Rattle.dc_join.specs.Leaving.{AreLeftOut};

use dc_decide::Plan;
use dc_path::List;
use dc_pieces::Pieces;

/// Lets the copy go on without each item of which a piece was given up.
///
/// A number past the last piece is no piece.
pub fn leave_out_given_up(plan: &mut Plan, pieces: &Pieces, given_up: &List<u32>)
    requires items { All (λ p. p.item < length plan.old.items) pieces.now }
    ensures base { plan.new.base ≡ plan.old.base }
    ensures items { AreLeftOut pieces.now given_up.now plan.old.items plan.new.items }
    ensures len { length plan.new.items ≡ length plan.old.items }
{
    for number in given_up.as_slice() {
        if let Some(piece) = pieces.get(*number as usize) {
            plan.leave_out(piece.item as usize);
        }
    }
}
