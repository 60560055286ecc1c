//! Options and their values among the words.
#![tactic(auto)]

ghost use Rattle.std.specs.Prelude.{◌≡◌, ◌≤◌, take, IfOk};
ghost use Rattle.std.specs.Option.{option_copied};
ghost use Rattle.dc_options.specs.Table.{wanted, count_of, needs_of};
ghost use Rattle.dc_options.specs.Words.{heads, is_flag, head_of};
ghost use Rattle.dc_options.specs.Given.{words_from};
ghost use Rattle.dc_options.specs.Settings.{values_of, keep_by, keep_in, number_by, number_or, path_in, strategy_in, names_in, sync_in};
ghost use Rattle.dc_options.specs.Values.{first};
ghost use Rattle.dc_options.specs.declared.table.Flag.TheVariants as flag;

use crate::table::{Flag, Needs};
use crate::values::{letters_of, read_number, read_path, read_snapshot};
use crate::words::values_after;
use crate::{Strategy, SyncBy};
use dc_attrs::Keep;
use dc_path::{Name, OutOfMemory, Path, Text};
use std::alloc::Global;

// Whether a word that was read is this option.
fn is_flag(flag: Flag, read: Option<Flag>) -> bool
    ensures { result ≡ is_flag flag read }
{
    match read {
        None => false,
        Some(other) => other == flag,
    }
}

// How many words follow a word as its values.
fn wanted(read: Option<Flag>) -> usize
    ensures { result ≡ wanted read }
{
    match read {
        None => 0,
        Some(flag) => flag.needs().count(),
    }
}

// The words from that of an option on.
fn words_from(words: &[Text], flag: Flag) -> Option<&[Text]>
    ensures { option_copied result ≡ words_from flag 0 words.now }
{
    let mut skip = 0usize;
    for (place, word) in words.iter().enumerate() {
        if skip > 0 {
            skip -= 1;
            continue;
        }
        let read = Flag::read(word.as_str());
        if is_flag(flag, read) {
            return Some(&words[place..]);
        }
        skip = wanted(read);
    }
    None
}

/// The values of an option; none where it is not given.
pub fn values_of(words: &[Text], flag: Flag) -> &[Text]
    ensures { result.now ≡ values_of flag (heads 0 words.now) }
{
    match words_from(words, flag) {
        Some(found) => values_after(flag, &found[1..]),
        None => &[],
    }
}

// What the word of `-p` keeps.
#[tactic(auto, unfolding(crate::specs::Settings::keep_by))]
fn keep_by(word: &str) -> Keep
    ensures { result ≡ keep_by word.now }
{
    let letters = letters_of(word);
    if letters.is_empty() {
        return Keep::usual();
    }
    match Keep::read(letters) {
        Ok(keep) => keep,
        Err(_) => Keep::none(),
    }
}

/// The attributes that are kept.
pub fn keep_in(words: &[Text]) -> Keep
    ensures { result ≡ keep_in (head_of flag.Keep (heads 0 words.now)) }
{
    match words_from(words, Flag::Keep) {
        Some(found) => keep_by(found[0].as_str()),
        None => Keep::none(),
    }
}

/// The number that is the value of an option, or its default.
#[tactic(auto, unfolding(crate::specs::Settings::number_or))]
pub fn number_or(words: &[Text], flag: Flag, other: u32) -> u32
    ensures { result ≡ number_or flag other (heads 0 words.now) }
{
    number_by(flag.needs(), first(values_of(words, flag))).unwrap_or(other)
}

// The first of some values; no bytes where there is none.
fn first(values: &[Text]) -> &str
    ensures { result.now ≡ first values.now }
{
    match values {
        [] => "",
        [value, ..] => value.as_str(),
    }
}

// The number that a text is, where one is needed.
fn number_by(needs: Needs, text: &str) -> Option<u32>
    ensures { result ≡ number_by needs text.now }
{
    match needs {
        Needs::Number { least, most } => read_number(text, least, most),
        _ => None,
    }
}

/// The path that is the value of an option. `OutOfMemory` is the one error.
pub fn path_in(alloc: Global, words: &[Text], flag: Flag) -> Result<Option<Path>, OutOfMemory>
    ensures { IfOk result (λ path. path ≡ path_in (values_of flag (heads 0 words.now))) }
{
    read_path(alloc, first(values_of(words, flag)))
}

/// The strategy.
pub fn strategy_in(words: &[Text]) -> Strategy
    ensures { result ≡ strategy_in (values_of flag.Strategy (heads 0 words.now)) }
{
    match first(values_of(words, Flag::Strategy)) {
        "dynamic" => Strategy::Dynamic,
        _ => Strategy::Uniform,
    }
}

// The names of two snapshots, where the values are such.
fn names_in(alloc: Global, values: &[Text]) -> Result<Option<(Name, Name)>, OutOfMemory>
    ensures { IfOk result (λ names. names ≡ names_in values.now) }
{
    let [one, other, ..] = values else {
        return Ok(None);
    };
    let one = read_snapshot(alloc, one.as_str())?;
    let other = read_snapshot(alloc, other.as_str())?;
    match (one, other) {
        (Some(one), Some(other)) => Ok(Some((one, other))),
        _ => Ok(None),
    }
}

/// The report to replay. `OutOfMemory` is the one error.
pub fn sync_in(alloc: Global, words: &[Text]) -> Result<SyncBy, OutOfMemory>
    ensures { IfOk result (λ sync. sync ≡ sync_in (names_in (values_of flag.Diff (heads 0 words.now))) (names_in (values_of flag.Rdiff (heads 0 words.now)))) }
{
    if let Some((from, to)) = names_in(alloc, values_of(words, Flag::Diff))? {
        return Ok(SyncBy::Diff { from, to });
    }
    if let Some((newer, older)) = names_in(alloc, values_of(words, Flag::Rdiff))? {
        return Ok(SyncBy::Rdiff { newer, older });
    }
    Ok(SyncBy::None)
}
