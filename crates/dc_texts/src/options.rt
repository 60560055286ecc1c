//! The words of command lines and what they are read as, worked out by hand.
#![tactic(auto)]

use dc_options::{OptionError, Options, Strategy, SyncBy};
use dc_path::{List, OutOfMemory, Path, Text};
use std::alloc::{AllocError, Global};
use std::test::Fail;

// Each line has the words of a command line, and behind `= ` why they are refused or what is set otherwise than by default.
const CASES: &str = "\
= no paths
/s = no paths
/s /d = /s > /d
/a /b /c /d = /a /b /c > /d
/s -i /d = ignore /s > /d
-i /s /d = ignore /s > /d
/s /d -i = ignore /s > /d
s /d = bad path s
/s d = bad path d
/s /a/../d = bad path /a/../d
/s /d -x = unknown -x
/s /d - = unknown -
/s /d --help = unknown --help
/s /d -I = unknown -I
/s /d -mm = unknown -mm
-x s = unknown -x
s -x = bad path s
-i -i /s /d = repeated -i
-m 1 -m 2 /s /d = repeated -m
-m 1 -m x /s /d = repeated -m
-m 1 /s /d -m = repeated -m
-p -pu /s /d = repeated -pu
-pp -pp /s /d = repeated -pp
-pu -pq /s /d = repeated -pq
/s /d -m = no value for -m
/s /d -tmp = no value for -tmp
/s /d -diff s1 = no value for -diff
/s /d -rdiff = no value for -rdiff
-m 0 /s /d = bad number for -m
-m 1 /s /d = maps 1 /s > /d
-m 65535 /s /d = maps 65535 /s > /d
-m 65536 /s /d = bad number for -m
-m 00007 /s /d = maps 7 /s > /d
-m 18446744073709551615 /s /d = bad number for -m
-m 18446744073709551616 /s /d = bad number for -m
-m 4294967297 /s /d = bad number for -m
-m +7 /s /d = bad number for -m
-m -7 /s /d = bad number for -m
-m 7x /s /d = bad number for -m
-blocksperchunk 0 /s /d = /s > /d
-blocksperchunk 2147483647 /s /d = blocks 2147483647 /s > /d
-blocksperchunk 2147483648 /s /d = bad number for -blocksperchunk
-copybuffersize 0 /s /d = bad number for -copybuffersize
-copybuffersize 1 /s /d = buffer 1 /s > /d
-copybuffersize 16777216 /s /d = buffer 16777216 /s > /d
-copybuffersize 16777217 /s /d = bad number for -copybuffersize
-p /s /d = keep rbugpt /s > /d
-prbugpaxt /s /d = keep rbugpaxt /s > /d
-pa /s /d = keep pa /s > /d
-pq /s /d = bad letter at 0
-puq /s /d = bad letter at 1
-path /s /d = bad letter at 2
-strategy uniformsize /s /d = /s > /d
-strategy dynamic /s /d = dynamic /s > /d
-strategy Dynamic /s /d = bad strategy
-strategy -i /s /d = bad strategy
-update /s /d = update /s > /d
-overwrite /s /d = overwrite /s > /d
-update -append /s /d = update append /s > /d
-update -delete /s /d = update delete /s > /d
-overwrite -delete /s /d = overwrite delete /s > /d
-update -skipcrccheck /s /d = update skipcrc /s > /d
-skipcrccheck /s /d = skipcrc /s > /d
-atomic /s /d = atomic /s > /d
-atomic -tmp /t /s /d = atomic tmp /t /s > /d
-tmp t -atomic /s /d = bad path t
-update -diff s1 s2 /s /d = update diff s1 s2 /s > /d
-update -rdiff s2 s1 /s /d = update rdiff s2 s1 /s > /d
-update -diff -update s2 /s /d = update diff -update s2 /s > /d
-diff -update s2 /s /d = -diff needs -update
-update -diff .snapshot s2 /s /d = bad snapshot for -diff
-update -diff s1 .reports /s /d = bad snapshot for -diff
-update -rdiff a/b s1 /s /d = bad snapshot for -rdiff
-f /l /d = list /l > /d
-filters /p /s /d = filters /p /s > /d
-kills /k /s /d = kills /k /s > /d
-kills k /s /d = bad path k
";

const SETS: &str = "\
-update -overwrite /s /d = -update with -overwrite
-update -atomic /s /d = -update with -atomic
-overwrite -atomic /s /d = -overwrite with -atomic
-delete /s /d = -delete needs -update or -overwrite
-append /s /d = -append needs -update
-update -append -skipcrccheck /s /d = -append with -skipcrccheck
-diff s1 s2 /s /d = -diff needs -update
-rdiff s2 s1 /s /d = -rdiff needs -update
-update -diff s1 s2 -rdiff s2 s1 /s /d = -diff with -rdiff
-update -delete -diff s1 s2 /s /d = -delete with a report
-update -delete -rdiff s1 s2 /s /d = -delete with a report
-tmp /t /s /d = -tmp needs -atomic
-update -filters /p -diff s1 s2 /s /d = -filters with a report
-update -filters /p -rdiff s1 s2 /s /d = -filters with a report
-update -f /l -diff s1 s2 /d = -f with a report
-update -f /l -rdiff s1 s2 /d = -f with a report
-f /l /s /d = -f with source paths
-f /l = no paths
-update -diff s1 s2 /a /b /d = a report needs one source
-update -rdiff s1 s2 /a /b /d = a report needs one source
-overwrite -update -atomic /s /d = -update with -overwrite
-atomic -delete -update /s /d = -update with -atomic
-delete -overwrite -atomic /s /d = -overwrite with -atomic
-append -delete /s /d = -delete needs -update or -overwrite
-skipcrccheck -append /s /d = -append needs -update
-diff s1 s2 -update -append -skipcrccheck /s /d = -append with -skipcrccheck
-rdiff s2 s1 -diff s1 s2 /s /d = -diff needs -update
-tmp /t -rdiff s2 s1 /s /d = -rdiff needs -update
-update -delete -diff s1 s2 -rdiff s2 s1 /s /d = -diff with -rdiff
-update -delete -diff s1 s2 -tmp /t /s /d = -delete with a report
-update -filters /p -diff s1 s2 -tmp /t /s /d = -tmp needs -atomic
-update -f /l -filters /p -diff s1 s2 /d = -filters with a report
-update -f /l -diff s1 s2 /s /d = -f with a report
-update -diff s1 s2 /d = no paths
";

// The words of a line, between blanks.
fn words_of(alloc: Global, line: &str) -> Result<List<Text>, OutOfMemory> {
    let mut words = List::new(alloc);
    for word in line.split(' ') {
        if !word.is_empty() {
            let word = Text::read(alloc, word)?;
            words.push(word).map_err(|_| OutOfMemory)?;
        }
    }
    Ok(words)
}

// What a refusal of a word says before the word.
fn of_word(error: &OptionError) -> Option<(&str, &str)> {
    match error {
        OptionError::UnknownOption { word } => Some(("unknown ", word.as_str())),
        OptionError::Repeated { word } => Some(("repeated ", word.as_str())),
        OptionError::NeedsValue { word } => Some(("no value for ", word.as_str())),
        OptionError::BadNumber { word } => Some(("bad number for ", word.as_str())),
        OptionError::BadSnapshot { word } => Some(("bad snapshot for ", word.as_str())),
        OptionError::BadPath { text } => Some(("bad path ", text.as_str())),
        _ => None,
    }
}

// What a refusal of a set says.
fn of_set(error: &OptionError) -> &'static str {
    match error {
        OptionError::BadStrategy => "bad strategy",
        OptionError::UpdateOverwrite => "-update with -overwrite",
        OptionError::UpdateAtomic => "-update with -atomic",
        OptionError::OverwriteAtomic => "-overwrite with -atomic",
        OptionError::DeleteAlone => "-delete needs -update or -overwrite",
        OptionError::AppendAlone => "-append needs -update",
        OptionError::AppendSkipCrc => "-append with -skipcrccheck",
        OptionError::DiffAlone => "-diff needs -update",
        OptionError::RdiffAlone => "-rdiff needs -update",
        OptionError::DiffRdiff => "-diff with -rdiff",
        OptionError::DiffDelete => "-delete with a report",
        OptionError::TmpAlone => "-tmp needs -atomic",
        OptionError::DiffFilters => "-filters with a report",
        OptionError::DiffFiles => "-f with a report",
        OptionError::FilesWithSources => "-f with source paths",
        OptionError::NoPaths => "no paths",
        OptionError::OneSource => "a report needs one source",
        _ => "memory",
    }
}

fn refusal(alloc: Global, error: &OptionError) -> Result<String, AllocError> {
    if let OptionError::BadLetter { place } = error {
        return format!(in alloc; "bad letter at {place}");
    }
    match of_word(error) {
        Some((says, word)) => format!(in alloc; "{says}{word}"),
        None => String::from_str(alloc, of_set(error)),
    }
}

// Adds a word where it applies.
fn add_if(text: &mut String, is: bool, word: &str) -> Result<(), AllocError> {
    if is {
        text.push_str(word)?;
    }
    Ok(())
}

fn add_flags(text: &mut String, options: &Options) -> Result<(), AllocError> {
    add_if(text, options.ignore(), "ignore ")?;
    add_if(text, options.update(), "update ")?;
    add_if(text, options.overwrite(), "overwrite ")?;
    add_if(text, options.append(), "append ")
}

fn add_more_flags(text: &mut String, options: &Options) -> Result<(), AllocError> {
    add_if(text, options.delete(), "delete ")?;
    add_if(text, options.skip_crc(), "skipcrc ")?;
    add_if(text, options.atomic(), "atomic ")?;
    add_if(text, options.strategy() == Strategy::Dynamic, "dynamic ")
}

// Adds a number where it is not the default.
fn add_number(text: &mut String, name: &str, number: u32, default: u32) -> Result<(), AllocError> {
    if number == default {
        return Ok(());
    }
    write!(text, "{name} {number} ")
}

fn add_keep(text: &mut String, options: &Options) -> Result<(), AllocError> {
    let keep = options.keep();
    let mut is_first = true;
    for letter in ['r', 'b', 'u', 'g', 'p', 'a', 'x', 't'] {
        if keep.has(letter) {
            add_if(text, is_first, "keep ")?;
            text.push(letter)?;
            is_first = false;
        }
    }
    add_if(text, !is_first, " ")
}

fn add_sync(text: &mut String, options: &Options) -> Result<(), AllocError> {
    let (name, one, other) = match options.sync() {
        SyncBy::None => return Ok(()),
        SyncBy::Diff { from, to } => ("diff", from.as_str(), to.as_str()),
        SyncBy::Rdiff { newer, older } => ("rdiff", newer.as_str(), older.as_str()),
    };
    write!(text, "{name} {one} {other} ")
}

fn add_path(text: &mut String, name: &str, path: &Path) -> Result<(), OutOfMemory> {
    let alloc = *text.allocator();
    let path = path.text(alloc)?;
    text.push_str(name)?;
    text.push_str(path.as_str())?;
    text.push_str(" ")?;
    Ok(())
}

fn add_if_path(text: &mut String, name: &str, path: Option<&Path>) -> Result<(), OutOfMemory> {
    match path {
        Some(path) => add_path(text, name, path),
        None => Ok(()),
    }
}

fn add_files(text: &mut String, options: &Options) -> Result<(), OutOfMemory> {
    add_if_path(text, "tmp ", options.tmp())?;
    add_if_path(text, "list ", options.list())?;
    add_if_path(text, "filters ", options.filters())?;
    add_if_path(text, "kills ", options.kills())
}

fn add_numbers(text: &mut String, options: &Options) -> Result<(), AllocError> {
    add_number(text, "maps", options.maps(), 20)?;
    add_number(text, "blocks", options.blocks(), 0)?;
    add_number(text, "buffer", options.buffer(), 8192)
}

fn add_sources(text: &mut String, options: &Options) -> Result<(), OutOfMemory> {
    let sources = options.copy_sources(*text.allocator())?;
    for (place, source) in options.sources().iter().enumerate() {
        let same = sources.get(place).is_some_and(|copy| copy == source);
        add_path(text, if same { "" } else { "other " }, source)?;
    }
    Ok(())
}

// What is set otherwise than by default, the source paths and the target.
fn summary(alloc: Global, options: &Options) -> Result<String, OutOfMemory> {
    let mut text = String::new(alloc);
    add_flags(&mut text, options)?;
    add_more_flags(&mut text, options)?;
    add_numbers(&mut text, options)?;
    add_keep(&mut text, options)?;
    add_ends(&mut text, options)?;
    Ok(text)
}

fn add_ends(text: &mut String, options: &Options) -> Result<(), OutOfMemory> {
    add_sync(text, options)?;
    add_files(text, options)?;
    add_sources(text, options)?;
    add_path(text, "> ", options.target())
}

// Whether the words of a line are read as it says.
fn is_read(alloc: Global, line: &str) -> Result<bool, OutOfMemory> {
    let Some((words, expected)) = line.split_once("= ") else {
        return Ok(false);
    };
    let words = words_of(alloc, words)?;
    let answer = match Options::read(alloc, words.as_slice()) {
        Ok(options) => summary(alloc, &options)?,
        Err(error) => refusal(alloc, &error)?,
    };
    Ok(answer.as_str().trim() == expected)
}

#[test]
fn words_are_read_one_after_the_other(rt: HostRuntime) -> Result<(), Fail> {
    for line in CASES.lines() {
        assert_eq!(rt; is_read(rt.alloc(), line), Ok(true), "{line}");
    }
    Ok(())
}

#[test]
fn the_first_refused_set_decides(rt: HostRuntime) -> Result<(), Fail> {
    for line in SETS.lines() {
        assert_eq!(rt; is_read(rt.alloc(), line), Ok(true), "{line}");
    }
    Ok(())
}

// Whether a name of so many bytes is the name of a snapshot.
fn is_snapshot_of(alloc: Global, length: usize) -> Result<bool, OutOfMemory> {
    let mut line = String::from_str(alloc, "-update /s /d -diff s1 ")?;
    for _ in 0..length {
        line.push('n')?;
    }
    let words = words_of(alloc, line.as_str())?;
    Ok(Options::read(alloc, words.as_slice()).is_ok())
}

#[test]
fn a_snapshot_has_at_most_252_bytes(rt: HostRuntime) -> Result<(), Fail> {
    assert_eq!(rt; is_snapshot_of(rt.alloc(), 252), Ok(true));
    assert_eq!(rt; is_snapshot_of(rt.alloc(), 253), Ok(false));
    Ok(())
}
