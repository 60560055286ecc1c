//! The laws of replaying, as the contract of a function that does nothing.
#![tactic(auto)]

ghost use Rattle.dc_replay.specs.Replaying.{CheckedIsReplayed, CopyIsOne, EndIsReached, MakesAreParents, MovesAreFew, NamelessIsNotHidden, ReplayingHolds, RootIsUnlisted, StageIsTested, TestsDecide, TrueReportsAreAccepted, TrueReportsList, TrueReportsPass};
ghost use Rattle.dc_replay.specs.Limits.{LimitsAreExact, LooksShareFront};
ghost use Rattle.dc_replay.specs.ListingTests.{ListingIsTested};
ghost use Rattle.dc_replay.specs.Words.{WordsMean};

/// The laws of replaying, for those who build on the definitions. The call does nothing.
///
/// - `replaying`: where a report tells of no path twice, the stage is free and the tests pass on a tree, no move of the report
///   is refused by the tree, and all moves together make of it what the report says. After each number of moves below all of
///   them, each node stands where these moves take it, and there are no other files. No move but the last removes anything.
/// - `tests`: where the stage is free, the tests, each by one look, decide the same as the tests in the words of the paths that
///   the report leads from and to.
/// - `truth`: where the stage is free, a true report passes the tests on a tree that, without hidden paths, has the paths and
///   kinds of the earlier snapshot.
/// - `end`: where the stage is free, with a true report, and a directory that without hidden paths is as the earlier snapshot,
///   the moves and then any copy of what is listed leave what without hidden paths is as the later snapshot. The copy may make
///   of each listed path what counts as the same. Which nodes do, any test may say that holds of equal nodes and never of a
///   file and a directory. The two roots are not compared.
/// - `copy`: to take each listed node whole, as it stands in the later snapshot, is such a copy.
/// - `words`: a path goes by the longest of its fronts that is deleted or renamed, and what is created goes where its parent
///   goes. What is fresh is what stands below the place of something created, with no new path between. A parent of a new path
///   is to be made exactly where it is fresh. What is listed is what is fresh, and where what is modified goes, the root left out.
/// - `stage`: the test of the stage says that nothing stands there, and that no path of the report, created and modified ones
///   too, begins with its name. It gives that the stage is free, for entries that a report may have: its names are as a text
///   can tell them, but that they may hold a line feed.
/// - `unlisted`: where the stage is free, the root is not listed.
/// - `lists`: with a true report, what the listing looks for stands in the later snapshot.
/// - `few`: a report of `e` entries has at most 2 + 258 e moves, and 256 e parents to be made; its tests look for at most
///   261 e paths.
/// - `makes`: the moves make the stage and then the parents to be made, in the order of their tests, and no other directory.
/// - `limits`: over a base the tests answer that all holds, that the stage is taken, at which path the first test fails, or
///   which path is too long to be looked for. Each but the last is the answer without limits, and where no path that is looked
///   for is too long, it is the answer. That all holds comes only where no path of the moves is too long.
/// - `listing`: the same of the tests that come before the listing: where all holds, what the listing looks for stands.
/// - `looks`: the path that is looked for to find who else is moved to a new path is that for its parent, and the last name. So
///   it does not matter which of the two is looked for first.
/// - `checked`: where the answer over a base is that all holds, the report is replayed as `replaying` says, and no path of the
///   moves is too long.
/// - `accepted`: where the stage is free, and the directory has without hidden paths the paths and kinds of the earlier
///   snapshot, a true report is refused by neither tests, but where a path is too long.
/// - `nameless`: where no path of a report has the name of snapshots, none of those that it deletes, renames or creates is
///   hidden.
pub fn replay_laws()
    ensures replaying { ReplayingHolds }
    ensures tests { TestsDecide }
    ensures truth { TrueReportsPass }
    ensures end { EndIsReached }
    ensures words { WordsMean }
    ensures stage { StageIsTested }
    ensures unlisted { RootIsUnlisted }
    ensures copy { CopyIsOne }
    ensures lists { TrueReportsList }
    ensures few { MovesAreFew }
    ensures makes { MakesAreParents }
    ensures limits { LimitsAreExact }
    ensures listing { ListingIsTested }
    ensures looks { LooksShareFront }
    ensures checked { CheckedIsReplayed }
    ensures accepted { TrueReportsAreAccepted }
    ensures nameless { NamelessIsNotHidden }
{}
