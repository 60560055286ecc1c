//! What the rule of pieces says, as the contract of a function that does nothing.
#![tactic(auto)]

ghost use Rattle.dc_pieces.specs.Laws.{ReplacedIsCovered, ExtendedIsCovered, CoverIsTotal, ChunksAreFull, ChunksHaveBytes, UncutIsOne};

/// The laws of pieces, for those who build on the definition. The pieces of a file that is replaced are ranges in a row, and
/// together the whole file; those of a file that is extended are together what follows. So the sum of their lengths is what is
/// copied. Where a file is cut, each piece but the last has so many blocks, and none is empty or has more; else it is one
/// piece. The call does nothing.
pub fn piece_laws()
    ensures replaced { ReplacedIsCovered }
    ensures extended { ExtendedIsCovered }
    ensures total { CoverIsTotal }
    ensures full { ChunksAreFull }
    ensures bytes { ChunksHaveBytes }
    ensures uncut { UncutIsOne }
{}
