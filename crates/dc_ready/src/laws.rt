//! The laws of files that are ready, as the contract of a function that does nothing.
#![tactic(auto)]

ghost use Rattle.dc_ready.specs.Laws.{JoinedFilesAreLanding, JoinedFilesAreSized, JoinedFilesLand, PiecesHaveItems};

/// The laws of files that are joined of what workers hand in, for those who build on the definitions. The call does nothing.
///
/// Workers hand in parts of pieces that were cut of a plan: each piece has one part, which is right for it, or is given up. The copy
/// goes on without the items of which a piece was given up, and the parts of the others are joined.
///
/// - `items`: each piece of a plan is of one of its items.
/// - `landing`: the files are the items that land, each once, in the order of the plan.
/// - `sized`: whatever the two stores tell, the sizes of a file's parts are together as many bytes as are copied of it: its length,
///   less the place of the first of them.
/// - `land`: where the source's tree is told, each item that is written stands in it with its length, and the target tells the
///   bytes of temporaries, each file lands with the bytes that the source has from the first on that is copied.
pub fn ready_laws<P>()
    ensures items { PiecesHaveItems }
    ensures landing { JoinedFilesAreLanding P }
    ensures sized { JoinedFilesAreSized P }
    ensures land { JoinedFilesLand P }
{}
