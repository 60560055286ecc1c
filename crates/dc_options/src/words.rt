//! Which words are options, values and paths.
#![tactic(auto)]

ghost use Rattle.std.specs.Prelude.{◌≡◌, ◌++◌, [], length, take, OnOk, OnErr, Ok, Some, None, if◌then◌else◌};
ghost use Rattle.std.specs.List.{cons_option};
ghost use Rattle.std.specs.Option.{option_copied};
ghost use Rattle.dc_path.specs.Unless.{GivesUnless};
ghost use Rattle.dc_path.specs.Paths.{Names};
ghost use Rattle.dc_options.specs.Table.{flag_of, wanted, count_of, needs_of};
ghost use Rattle.dc_options.specs.Words.{Head, heads, head_at, read_other, refused_option, refused_head, path_by, first_refused, given, paths};
ghost use Rattle.dc_options.specs.Given.{given_by};
ghost use Rattle.dc_options.specs.Reading.{unless};
ghost use Rattle.dc_options.specs.declared.errors.OptionError.TheVariants.{Memory};

use crate::OptionError;
use crate::table::{Flag, is_among};
use crate::values::{check_value, read_path};
use dc_path::{List, Path, Text};
use std::alloc::Global;

// The path that a word of no option is.
fn read_other(alloc: Global, word: &Text) -> Result<Path, OptionError>
    ensures { GivesUnless Memory result (read_other word.now) }
{
    if word.as_str().as_bytes().first() == Some(&b'-') {
        let word = Text::read(alloc, word.as_str())?;
        return Err(OptionError::UnknownOption { word });
    }
    match read_path(alloc, word.as_str())? {
        Some(path) => Ok(path),
        None => {
            let text = Text::read(alloc, word.as_str())?;
            Err(OptionError::BadPath { text })
        }
    }
}

/// The values of an option: as many of the words after its own as it takes, or all where there are fewer.
pub fn values_after(flag: Flag, after: &[Text]) -> &[Text]
    ensures { result.now ≡ take (count_of (needs_of flag)) after.now }
{
    let count = flag.needs().count();
    if count < after.len() {
        &after[..count]
    } else {
        after
    }
}

// An option, after those that came before.
fn check_option(
    alloc: Global,
    before: &[Flag],
    flag: Flag,
    word: &Text,
    values: &[Text],
) -> Result<(), OptionError>
    ensures { GivesUnless Memory result (unless (refused_option before.now flag word.now values.now) tt) }
{
    if is_among(flag, before) {
        let word = Text::read(alloc, word.as_str())?;
        return Err(OptionError::Repeated { word });
    }
    if values.len() < flag.needs().count() {
        let word = Text::read(alloc, word.as_str())?;
        return Err(OptionError::NeedsValue { word });
    }
    check_value(alloc, flag.needs(), word, values)
}

/// What words give.
#[derive(Drop)]
pub struct Given {
    /// The options, in the order of the words, each once.
    pub flags: List<Flag>,
    /// The paths, in the order of the words.
    pub paths: List<Path>,
}

impl Given {
    // Takes in a word that is no value, with the words after it, and answers how many of these are its values.
    fn add(&mut self, alloc: Global, word: &Text, after: &[Text]) -> Result<usize, OptionError>
        ensures gives { GivesUnless Memory result (unless (refused_head self.old.flags (head_at word.now after.now)) (wanted (flag_of word.now))) }
        ensures flags { OnOk result (self.new.flags ≡ self.old.flags ++ cons_option (flag_of word.now) []) }
        ensures paths { OnOk result (self.new.paths ≡ self.old.paths ++ cons_option (path_by (flag_of word.now) word.now) []) }
    {
        match Flag::read(word.as_str()) {
            None => {
                let path = read_other(alloc, word)?;
                self.paths.add(path)?;
                Ok(0)
            }
            Some(flag) => {
                let values = values_after(flag, after);
                check_option(alloc, self.flags.as_slice(), flag, word, values)?;
                self.flags.add(flag)?;
                Ok(flag.needs().count())
            }
        }
    }

    /// What words give, from left to right; the first that is refused decides.
    pub fn read(alloc: Global, words: &[Text]) -> Result<Given, OptionError>
        ensures { GivesUnless Memory result (given_by (heads 0 words.now)) }
    {
        let mut given = Given {
            flags: List::new(alloc),
            paths: List::new(alloc),
        };
        let mut skip = 0usize;
        for (place, word) in words.iter().enumerate() {
            if skip > 0 {
                skip -= 1;
                continue;
            }
            skip = given.add(alloc, word, &words[place + 1..])?;
        }
        Ok(given)
    }
}
