//! What a look at a path shows.
#![tactic(auto)]

/// What stands at a path. Going from the root, the first prefix that is no directory decides.
#[derive(Clone, Copy, Debug, PartialEq, Eq)]
pub enum Seen {
    /// A directory.
    Dir,
    /// A file, with its length in bytes.
    File { length: u64 },
    /// Nothing: a prefix is absent, or the path itself is.
    Missing,
    /// A proper prefix is a file.
    NotDir,
}
