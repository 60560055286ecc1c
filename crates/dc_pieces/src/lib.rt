//! The ranges of what is copied, and the order in which they are put together again.
//!
//! A piece is a range of bytes of one item of a plan. Pieces are numbered from 0 over the whole copy: the number of a piece is
//! its place in the list. A file that is replaced is cut where it has more blocks than a piece may have (Hadoop DistCp Guide,
//! "-blocksperchunk"). Workers copy pieces in any order; `whole` puts what the pieces of a file became in their order again.
#![tactic(auto)]

mod cutting;
pub mod laws;
mod parts;
mod piece;

pub use cutting::{PieceError, pieces};
pub use parts::{Part, PartsError, whole};
pub use piece::{MAX_PIECES, Piece, Pieces};
