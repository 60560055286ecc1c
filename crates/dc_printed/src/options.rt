//! Words that are no options.
#![tactic(auto)]

use crate::ended::ends;
use dc_engine::Outcome;
use dc_options::OptionError;
use dc_path::{OutOfMemory, Text};
use std::alloc::Global;
use std::test::Fail;

// Whether words that are refused so end a run so.
fn refuses(alloc: Global, error: OptionError, line: &str) -> Result<bool, OutOfMemory> {
    ends(alloc, Outcome::BadOption { error }, line, 255)
}

// The lines of errors that name a word, which is `-m`, or a text.
const NAMED: [&str; 6] = [
    "distcp: bad option: unknown -m\n",
    "distcp: bad option: repeated -m\n",
    "distcp: bad option: no value for -m\n",
    "distcp: bad option: bad number for -m\n",
    "distcp: bad option: bad snapshot for -m\n",
    "distcp: bad option: bad path -m\n",
];

// The error that names this word, by its place in the list.
fn named(word: Text, place: usize) -> OptionError {
    match place {
        0 => OptionError::UnknownOption { word },
        1 => OptionError::Repeated { word },
        2 => OptionError::NeedsValue { word },
        3 => OptionError::BadNumber { word },
        4 => OptionError::BadSnapshot { word },
        _ => OptionError::BadPath { text: word },
    }
}

// Whether the error at this place ends a run so.
fn refuses_word(alloc: Global, place: usize, line: &str) -> Result<bool, OutOfMemory> {
    let word = Text::read(alloc, "-m")?;
    refuses(alloc, named(word, place), line)
}

#[test]
fn a_word_that_is_refused_is_named(rt: HostRuntime) -> Result<(), Fail> {
    for place in 0..NAMED.len() {
        let line = NAMED[place];
        assert_eq!(rt;
            refuses_word(rt.alloc(), place, line),
            Ok(true),
            "at {line}"
        );
    }
    Ok(())
}

// The lines of the other errors.
const SETS: [&str; 18] = [
    "distcp: bad option: bad letter at 12\n",
    "distcp: bad option: bad strategy\n",
    "distcp: bad option: -update with -overwrite\n",
    "distcp: bad option: -update with -atomic\n",
    "distcp: bad option: -overwrite with -atomic\n",
    "distcp: bad option: -delete needs -update or -overwrite\n",
    "distcp: bad option: -append needs -update\n",
    "distcp: bad option: -append with -skipcrccheck\n",
    "distcp: bad option: -diff needs -update\n",
    "distcp: bad option: -rdiff needs -update\n",
    "distcp: bad option: -diff with -rdiff\n",
    "distcp: bad option: -delete with a report\n",
    "distcp: bad option: -tmp needs -atomic\n",
    "distcp: bad option: -filters with a report\n",
    "distcp: bad option: -f with a report\n",
    "distcp: bad option: -f with source paths\n",
    "distcp: bad option: no paths\n",
    "distcp: bad option: a report needs one source\n",
];

// The error at this place of the list.
fn set(place: usize) -> OptionError {
    match place {
        0 => OptionError::BadLetter { place: 12 },
        1 => OptionError::BadStrategy,
        2 => OptionError::UpdateOverwrite,
        3 => OptionError::UpdateAtomic,
        4 => OptionError::OverwriteAtomic,
        5 => OptionError::DeleteAlone,
        6 => OptionError::AppendAlone,
        7 => OptionError::AppendSkipCrc,
        8 => OptionError::DiffAlone,
        9 => OptionError::RdiffAlone,
        10 => OptionError::DiffRdiff,
        11 => OptionError::DiffDelete,
        12 => OptionError::TmpAlone,
        13 => OptionError::DiffFilters,
        14 => OptionError::DiffFiles,
        15 => OptionError::FilesWithSources,
        16 => OptionError::NoPaths,
        _ => OptionError::OneSource,
    }
}

#[test]
fn options_that_do_not_go_together_are_told(rt: HostRuntime) -> Result<(), Fail> {
    for place in 0..SETS.len() {
        let line = SETS[place];
        assert_eq!(rt;
            refuses(rt.alloc(), set(place), line),
            Ok(true),
            "at {line}"
        );
    }
    Ok(())
}

#[test]
fn want_of_memory_in_options_ends_as_want_of_memory(rt: HostRuntime) -> Result<(), Fail> {
    let outcome = Outcome::BadOption {
        error: OptionError::Memory,
    };
    assert_eq!(rt;
        ends(rt.alloc(), outcome, "distcp: no memory\n", 24),
        Ok(true)
    );
    Ok(())
}
