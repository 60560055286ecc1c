//! What the definitions of patterns mean, as the contract of a function that does nothing.
#![tactic(auto)]

ghost use Rattle.dc_filter.specs.Laws.{FoundMatches, MatchesAreFound};

/// The laws of patterns, for those who build on the definitions. The call does nothing.
///
/// - `sound`: where a line is found in a text, what the grammar reads in it matches a part of the text.
/// - `complete`: where that matches a part which starts between characters, the line is found.
#[tactic(auto, using(crate::proofs::LawProofs::laws))]
pub fn pattern_laws()
    ensures sound { FoundMatches }
    ensures complete { MatchesAreFound }
{}
