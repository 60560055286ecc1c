//! The laws of plain copies, as the contract of a function that does nothing.
#![tactic(auto)]

ghost use Rattle.dc_plain.specs.Laws.{WordsArePlain, PlainIsAllowed, OnlyLimitsRefuse, NothingRefuses};
ghost use Rattle.dc_plain.specs.Laws.{CopiesAreWhole, LandingsAreOne, FoldersAreOne, CountsAreOne};

/// The laws of plain copies, for those who know the tree that is copied. The call does nothing.
///
/// - `words`: two words that are paths ask for a plain copy from the one to the other.
/// - `allowed`: where a directory stands at the source path, and the target path is neither `/` nor hidden, nothing before the
///   listing refuses a plain copy to an empty target.
/// - `limits`: after that only a limit refuses it: too many items or pieces, or a path that is too long.
/// - `refuses`: nothing refuses it where what is copied is within the limits.
/// - `copies`: where it is made, nothing is left out. The tree is exactly what is copied, under the target path; each file
///   has landed once, in path order; and the counters are exact.
/// - `landings`: what lands is one list.
/// - `folders`: the directories that are copied are one list.
/// - `counts`: so the counters are one too.
pub fn plain_laws()
    ensures words { WordsArePlain }
    ensures allowed { PlainIsAllowed }
    ensures limits { OnlyLimitsRefuse }
    ensures refuses { NothingRefuses }
    ensures copies { CopiesAreWhole }
    ensures landings { LandingsAreOne }
    ensures folders { FoldersAreOne }
    ensures counts { CountsAreOne }
{}
