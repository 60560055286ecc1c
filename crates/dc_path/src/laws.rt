//! What the definitions of paths say together, as the contract of a function that does nothing.
#![tactic(auto)]

ghost use Rattle.dc_path.specs.Laws.{TextReadsBack, CutIsRest, PathsAreOrdered, LessIsOrder};

/// The laws of paths, for those who build on the definitions. The call does nothing.
///
/// - `text`: the text of a path reads as that path again.
/// - `rest`: what is cut from a path is what follows the front in it, and there is no other answer.
/// - `order`: the order of paths is total, and only equal paths tie in it.
/// - `less`: the test that a path comes before another is that order.
#[tactic(auto, using(crate::proofs::LawProofs::laws))]
pub fn path_laws()
    ensures text { TextReadsBack }
    ensures rest { CutIsRest }
    ensures order { PathsAreOrdered }
    ensures less { LessIsOrder }
{}
