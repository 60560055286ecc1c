//! That what workers hand in lands as a copy defines it: the laws, over definitions alone.
//!
//! Pieces are cut of the files of a plan (Hadoop DistCp Guide, "-blocksperchunk"), workers make a temporary of each, and the temporaries
//! of each file are joined in the order of their ranges (`CopyCommitter.concatFileChunks`). The laws say that the bytes of the source
//! land, and how many they are.
#![tactic(auto)]

pub mod laws;
