//! Why words are refused.
#![tactic(auto)]

use dc_path::{OutOfMemory, Text};

/// Why the words of a command line are refused.
///
/// The first word that is refused decides, and only without one the first set of options that is, in the order below.
#[derive(Drop)]
pub enum OptionError {
    /// The word begins with `-` and is no option.
    UnknownOption { word: Text },
    /// The option came before. `word` is the later word.
    Repeated { word: Text },
    /// Too few words follow the option's word.
    NeedsValue { word: Text },
    /// The value of the option with this word is no number, or is out of the option's range.
    BadNumber { word: Text },
    /// The letter at this place after `-p`, counted from 0, is the first that is none of the eight.
    BadLetter { place: u64 },
    /// The value of `-strategy` is no strategy.
    BadStrategy,
    /// One of the two values of the option with this word is no name of a snapshot.
    BadSnapshot { word: Text },
    /// The text is no path: a word that is no option and no value, or the value of an option.
    BadPath { text: Text },
    /// `-update` and `-overwrite`.
    UpdateOverwrite,
    /// `-update` and `-atomic`.
    UpdateAtomic,
    /// `-overwrite` and `-atomic`.
    OverwriteAtomic,
    /// `-delete` without `-update` and without `-overwrite`.
    DeleteAlone,
    /// `-append` without `-update`.
    AppendAlone,
    /// `-append` and `-skipcrccheck`.
    AppendSkipCrc,
    /// `-diff` without `-update`.
    DiffAlone,
    /// `-rdiff` without `-update`.
    RdiffAlone,
    /// `-diff` and `-rdiff`.
    DiffRdiff,
    /// `-delete`, and `-diff` or `-rdiff`.
    DiffDelete,
    /// `-tmp` without `-atomic`.
    TmpAlone,
    /// `-filters`, and `-diff` or `-rdiff`.
    DiffFilters,
    /// `-f`, and `-diff` or `-rdiff`.
    DiffFiles,
    /// `-f` and more than one path.
    FilesWithSources,
    /// No path, or without `-f` fewer than two.
    NoPaths,
    /// `-diff` or `-rdiff`, and more than two paths.
    OneSource,
    /// Memory ran out. No clause says when this comes.
    Memory,
}

impl From<OutOfMemory> for OptionError {
    ghost use Rattle.std.specs.Prelude.{◌≡◌};
    ghost use Rattle.dc_options.specs.declared.errors.OptionError.TheVariants.{Memory};

    ghost from_gives = { λ _ e. e ≡ Memory };

    fn from(_lack: OutOfMemory) -> OptionError {
        OptionError::Memory
    }
}
