//! The laws of what a copy leaves, as the contract of a function that does nothing.
#![tactic(auto)]

ghost use Rattle.dc_result.specs.Planning.{ListedCopiesAreJobs, ListedCopiesBegin, RootsArePlaced};
ghost use Rattle.dc_result.specs.Removing.{MissingGoes, NoneGoes};
ghost use Rattle.dc_result.specs.Laws.{EffectsLand, LandStopsAreFronts, MoveGivesResult, MoveNotRefused, NoneRefused, OthersAreSpared, PhasesBuild, PointsArePartly, StopsAreFronts, TargetIsUntouched};

/// The laws of what a copy leaves, for those who build on the definitions. The call does nothing.
///
/// A copy has its options, what is listed, the target's tree before it, the target path, and the path under which the items
/// go. Nothing of it clashes with what the target has.
///
/// - `listed`: where the items of a plan are what roots list, in path order, and each that the copy goes on with is as was
///   decided, the plan is that of the copy.
/// - `begins`: where roots list no path twice, and a listed directory is left out only where it clashes, what is copied has a
///   directory above it that is listed, is the base, or stands in the target.
/// - `roots`: the roots that options give are put at the root path or by one name, and a file at the root path only where it is
///   the only source.
/// - `missing`, `kept`: with `-delete` the paths go that cover what the target has and the items do not: nothing that is listed,
///   nothing above it, and nothing hidden or above what is hidden. Without it none goes.
/// - `build`: the phases of a commit, one after the other, make of the tree what the copy defines: each listed file and
///   directory stands at its place under the base, with the bytes and the attributes that the options ask for, what goes is
///   gone, missing directories on the way are made, and every other path is as before. Where the base is the target, this is
///   the result.
/// - `moves`: what is built under a work path and then moved to the target is the result there.
/// - `effects`: the bytes of each file that lands are told, and it is recorded once, in listing order, with the number of its
///   bytes.
/// - `allowed`: where what is copied has a directory above it, and no file stands on the way to the target, no tree refuses a
///   step of a phase, each on the tree that the steps before it leave, and what is left is a tree.
/// - `move_allowed`: nor does the tree refuse the move of a work path at which something was made.
/// - `points`: after each number of elements of each phase, the tree has exactly those directories, files, attributes and
///   removals that are done by then: what has landed has its bytes, and attributes of the target's file or of a new one.
/// - `spared`: at each of these points all that stood before stands as it was, but for what is copied and what goes.
/// - `untouched`: under a work path that is not under the target, at each of these points all at and under the target is as it was.
/// - `stops`: a phase that stops on a told tree has done its first steps, as many as it says, and after a fault maybe one more.
/// - `land_stops`: of files that land, exactly as many as it says have landed, and each of these is recorded.
pub fn result_laws()
    ensures listed { ListedCopiesAreJobs }
    ensures begins { ListedCopiesBegin }
    ensures roots { RootsArePlaced }
    ensures missing { MissingGoes }
    ensures kept { NoneGoes }
    ensures build { PhasesBuild }
    ensures moves { MoveGivesResult }
    ensures effects { EffectsLand }
    ensures allowed { NoneRefused }
    ensures move_allowed { MoveNotRefused }
    ensures points { PointsArePartly }
    ensures spared { OthersAreSpared }
    ensures untouched { TargetIsUntouched }
    ensures stops { StopsAreFronts }
    ensures land_stops { LandStopsAreFronts }
{}
