//! Options, as words set them.
#![tactic(auto)]

ghost use Rattle.std.specs.Prelude.{◌≡◌, IfOk};
ghost use Rattle.dc_path.specs.Unless.{GivesUnless};
ghost use Rattle.dc_options.specs.Words.{heads};
ghost use Rattle.dc_options.specs.Settings.{settings_with};
ghost use Rattle.dc_options.specs.Reading.{options};
ghost use Rattle.dc_options.specs.declared.errors.OptionError.TheVariants.{Memory};

use crate::lookup::{keep_in, number_or, path_in, strategy_in, sync_in};
use crate::sets::check_sets;
use crate::table::{Flag, is_among};
use crate::words::Given;
use crate::{OptionError, Options};
use dc_path::{List, OutOfMemory, Path, Text};
use std::alloc::Global;

// What words set the options to, where these are given, with these paths.
#[tactic(auto, unfolding(crate::specs::Settings::settings_with))]
fn set(
    alloc: Global,
    words: &[Text],
    flags: &[Flag],
    sources: List<Path>,
    target: Path,
) -> Result<Options, OutOfMemory>
    ensures { IfOk result (λ o. o ≡ settings_with flags.now (heads 0 words.now) sources target) }
{
    let tmp = path_in(alloc, words, Flag::Tmp)?;
    let sync = sync_in(alloc, words)?;
    let list = path_in(alloc, words, Flag::Files)?;
    let filters = path_in(alloc, words, Flag::Filters)?;
    let kills = path_in(alloc, words, Flag::Kills)?;
    Ok(Options {
        ignore: is_among(Flag::Ignore, flags),
        keep: keep_in(words),
        maps: number_or(words, Flag::Maps, 20),
        update: is_among(Flag::Update, flags),
        overwrite: is_among(Flag::Overwrite, flags),
        append: is_among(Flag::Append, flags),
        delete: is_among(Flag::Delete, flags),
        skip_crc: is_among(Flag::SkipCrc, flags),
        atomic: is_among(Flag::Atomic, flags),
        tmp,
        sync,
        list,
        filters,
        kills,
        strategy: strategy_in(words),
        blocks: number_or(words, Flag::Blocks, 0),
        buffer: number_or(words, Flag::Buffer, 8192),
        sources,
        target,
    })
}

impl Options {
    /// The options and paths that words name.
    ///
    /// Words are read from left to right. A word that begins with `-` is an option, and takes the words after it that it
    /// needs as its values, whatever they begin with; a word that begins with `-p` is the option `-p`. Every other word is
    /// a path, and the last path is the target. Options may stand before, between and after paths.
    ///
    /// # Errors
    ///
    /// The first word that is refused decides: at an option `UnknownOption`, `Repeated`, `NeedsValue`, then `BadNumber`,
    /// `BadLetter`, `BadStrategy`, `BadSnapshot` or `BadPath` by its values; else `BadPath`. Without one the first set of
    /// options that is refused decides, from `UpdateOverwrite` to `OneSource` in the order of `OptionError`. `Memory` may
    /// come in the place of any answer.
    pub fn read(alloc: Global, words: &[Text]) -> Result<Options, OptionError>
        ensures { GivesUnless Memory result (options words.now) }
    {
        let Given { flags, paths } = Given::read(alloc, words)?;
        check_sets(flags.as_slice(), paths.len())?;
        let mut sources = paths.into_vec();
        let Some(target) = sources.pop() else {
            return Err(OptionError::NoPaths);
        };
        Ok(set(alloc, words, flags.as_slice(), List::of(sources), target)?)
    }
}
