//! The values of options.
#![tactic(auto)]

ghost use Rattle.std.specs.Prelude.{◌≡◌, ◌≤◌, ◌&&◌, cond, drop, length, IfSome, IfOk, Some, None, if◌then◌else◌};
ghost use Rattle.std.specs.Option.{is_some};
ghost use Rattle.std.specs.Result.{result_ok};
ghost use Rattle.dc_path.specs.Unless.{GivesUnless};
ghost use Rattle.dc_path.specs.Numbers.{number_in};
ghost use Rattle.dc_path.specs.Reading.{path_from};
ghost use Rattle.dc_attrs.specs.Keeping.{read_letters};
ghost use Rattle.dc_options.specs.Table.{count_of};
ghost use Rattle.dc_options.specs.Values.{is_snapshot, is_strategy, letters_of, refused_letters, refused_path, refused_value};
ghost use Rattle.dc_options.specs.Reading.{unless};
ghost use Rattle.dc_options.specs.declared.errors.OptionError.TheVariants.{Memory, BadNumber, BadSnapshot, BadStrategy};

use crate::OptionError;
use crate::table::Needs;
use dc_attrs::{Keep, KeepError};
use dc_path::{Name, OutOfMemory, Path, PathError, Text};
use std::alloc::Global;

/// The most bytes that the name of a snapshot may have here.
const MAX_SNAPSHOT: usize = 252;

/// The number within two bounds, both included, that decimal digits write. Leading zeros are allowed, signs are not.
pub fn read_number(text: &str, least: u32, most: u32) -> Option<u32>
    ensures { result ≡ number_in least most text.now }
{
    let number = dc_path::read_number(text.as_bytes(), u64::from(least), u64::from(most))?;
    Some(number as u32)
}

/// The path that a text reads as; `None` where it is none. `OutOfMemory` is the one error.
pub fn read_path(alloc: Global, text: &str) -> Result<Option<Path>, OutOfMemory>
    ensures { IfOk result (λ path. path ≡ result_ok (path_from text.now)) }
{
    match Path::read(alloc, text) {
        Ok(path) => Ok(Some(path)),
        Err(PathError::Memory) => Err(OutOfMemory),
        Err(_) => Ok(None),
    }
}

/// The name of a snapshot that a text is; `None` where it is none. `OutOfMemory` is the one error.
#[tactic(auto, unfolding(crate::specs::Values::is_snapshot))]
pub fn read_snapshot(alloc: Global, text: &str) -> Result<Option<Name>, OutOfMemory>
    ensures { IfOk result (λ name. name ≡ (if is_snapshot text.now then Some text.now else None)) }
{
    if text.len() > MAX_SNAPSHOT || text == ".snapshot" || text == ".reports" {
        return Ok(None);
    }
    match Name::read(alloc, text) {
        Ok(name) => Ok(Some(name)),
        Err(PathError::Memory) => Err(OutOfMemory),
        Err(_) => Ok(None),
    }
}

/// The letters of the option `-p`, which stand in its word.
#[tactic(auto, unfolding(crate::specs::Values::letters_of))]
pub fn letters_of(word: &str) -> &str
    ensures { result.now ≡ letters_of word.now }
{
    word.strip_prefix("-p").unwrap_or("")
}

// Letters that name attributes.
fn check_letters(letters: &str) -> Result<(), OptionError>
    ensures { result ≡ unless (refused_letters (read_letters letters.now)) tt }
{
    match Keep::read(letters) {
        Ok(_keep) => Ok(()),
        Err(KeepError::UnknownLetter { place }) => Err(OptionError::BadLetter { place }),
    }
}

// A number within bounds.
fn check_number(
    alloc: Global,
    word: &Text,
    value: &Text,
    least: u32,
    most: u32,
) -> Result<(), OptionError>
    ensures { GivesUnless Memory result (unless (if is_some (number_in least most value.now) then None else Some (BadNumber word.now)) tt) }
{
    if read_number(value.as_str(), least, most).is_none() {
        let word = Text::read(alloc, word.as_str())?;
        return Err(OptionError::BadNumber { word });
    }
    Ok(())
}

// A path.
fn check_path(alloc: Global, value: &Text) -> Result<(), OptionError>
    ensures { GivesUnless Memory result (unless (refused_path value.now (path_from value.now)) tt) }
{
    if read_path(alloc, value.as_str())?.is_none() {
        let text = Text::read(alloc, value.as_str())?;
        return Err(OptionError::BadPath { text });
    }
    Ok(())
}

// The word of a strategy.
fn check_strategy(value: &Text) -> Result<(), OptionError>
    ensures { result ≡ unless (if is_strategy value.now then None else Some BadStrategy) tt }
{
    match value.as_str() {
        "uniformsize" | "dynamic" => Ok(()),
        _ => Err(OptionError::BadStrategy),
    }
}

// The names of two snapshots.
fn check_snapshots(alloc: Global, word: &Text, one: &Text, other: &Text) -> Result<(), OptionError>
    ensures { GivesUnless Memory result (unless (if is_snapshot one.now && is_snapshot other.now then None else Some (BadSnapshot word.now)) tt) }
{
    let one = read_snapshot(alloc, one.as_str())?;
    let other = read_snapshot(alloc, other.as_str())?;
    if one.is_none() || other.is_none() {
        let word = Text::read(alloc, word.as_str())?;
        return Err(OptionError::BadSnapshot { word });
    }
    Ok(())
}

/// Whether the values that follow an option's word are what they must be.
///
/// # Errors
///
/// - `BadLetter`, `BadNumber`, `BadPath`, `BadStrategy` or `BadSnapshot`, by what is needed, exactly where a value is none.
/// - `Memory`, which may come in the place of any answer.
pub fn check_value(
    alloc: Global,
    needs: Needs,
    word: &Text,
    values: &[Text],
) -> Result<(), OptionError>
    requires { count_of needs ≤ length values.now }
    ensures { GivesUnless Memory result (unless (refused_value needs word.now values.now) tt) }
{
    match needs {
        Needs::Nothing => Ok(()),
        Needs::Letters => check_letters(letters_of(word.as_str())),
        Needs::Number { least, most } => check_number(alloc, word, &values[0], least, most),
        Needs::Path => check_path(alloc, &values[0]),
        Needs::Strategy => check_strategy(&values[0]),
        Needs::Snapshots => check_snapshots(alloc, word, &values[0], &values[1]),
    }
}
