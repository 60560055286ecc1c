//! Which sets of options are refused together.
#![tactic(auto)]

ghost use Rattle.std.specs.Prelude.{◌≡◌, ◌&&◌, ◌||◌, not, cond, Some, None};
ghost use Rattle.dc_options.specs.Table.{is_among};
ghost use Rattle.dc_options.specs.Sets.{mode_sets, report_sets, file_sets, path_sets, first_set, refused_set};
ghost use Rattle.dc_options.specs.Reading.{unless};

use crate::OptionError;
use crate::table::{Flag, is_among};

// An error, where it is due.
fn refuse(due: bool, error: OptionError) -> Result<(), OptionError>
    ensures { result ≡ unless (cond due (Some error) None) tt }
{
    if due { Err(error) } else { Ok(()) }
}

// Ways of copying that do not go together.
#[tactic(auto, unfolding(crate::specs::Sets::mode_sets))]
fn check_modes(flags: &[Flag]) -> Result<(), OptionError>
    ensures { result ≡ unless (first_set (mode_sets (λ f. is_among f flags.now))) tt }
{
    let update = is_among(Flag::Update, flags);
    let overwrite = is_among(Flag::Overwrite, flags);
    let atomic = is_among(Flag::Atomic, flags);
    let delete = is_among(Flag::Delete, flags);
    let append = is_among(Flag::Append, flags);
    let skip_crc = is_among(Flag::SkipCrc, flags);
    refuse(update & overwrite, OptionError::UpdateOverwrite)?;
    refuse(update & atomic, OptionError::UpdateAtomic)?;
    refuse(overwrite & atomic, OptionError::OverwriteAtomic)?;
    refuse(delete & !(update | overwrite), OptionError::DeleteAlone)?;
    refuse(append & !update, OptionError::AppendAlone)?;
    refuse(append & skip_crc, OptionError::AppendSkipCrc)
}

// Reports, and what goes with one.
#[tactic(auto, unfolding(crate::specs::Sets::report_sets))]
fn check_reports(flags: &[Flag]) -> Result<(), OptionError>
    ensures { result ≡ unless (first_set (report_sets (λ f. is_among f flags.now))) tt }
{
    let update = is_among(Flag::Update, flags);
    let diff = is_among(Flag::Diff, flags);
    let rdiff = is_among(Flag::Rdiff, flags);
    let delete = is_among(Flag::Delete, flags);
    refuse(diff & !update, OptionError::DiffAlone)?;
    refuse(rdiff & !update, OptionError::RdiffAlone)?;
    refuse(diff & rdiff, OptionError::DiffRdiff)?;
    refuse(delete & (diff | rdiff), OptionError::DiffDelete)
}

// Folders and files that are named.
#[tactic(auto, unfolding(crate::specs::Sets::file_sets))]
fn check_files(flags: &[Flag]) -> Result<(), OptionError>
    ensures { result ≡ unless (first_set (file_sets (λ f. is_among f flags.now))) tt }
{
    let report = is_among(Flag::Diff, flags) | is_among(Flag::Rdiff, flags);
    let tmp = is_among(Flag::Tmp, flags);
    let atomic = is_among(Flag::Atomic, flags);
    refuse(tmp & !atomic, OptionError::TmpAlone)?;
    refuse(
        is_among(Flag::Filters, flags) & report,
        OptionError::DiffFilters,
    )?;
    refuse(
        is_among(Flag::Files, flags) & report,
        OptionError::DiffFiles,
    )
}

// The number of paths that options ask for.
#[tactic(auto, unfolding(crate::specs::Sets::path_sets))]
fn check_paths(flags: &[Flag], paths: usize) -> Result<(), OptionError>
    ensures { result ≡ unless (first_set (path_sets (λ f. is_among f flags.now) paths)) tt }
{
    let report = is_among(Flag::Diff, flags) | is_among(Flag::Rdiff, flags);
    let files = is_among(Flag::Files, flags);
    refuse(files & (1 < paths), OptionError::FilesWithSources)?;
    refuse(paths < least_paths(files), OptionError::NoPaths)?;
    refuse(report & (2 < paths), OptionError::OneSource)
}

// The least number of paths: the target, and a source where no file names any.
fn least_paths(files: bool) -> usize
    ensures { result ≡ cond files 1 2 }
{
    if files { 1 } else { 2 }
}

/// Whether options may be given together, with so many paths: the first refused set decides.
#[tactic(auto, unfolding(crate::specs::Sets::refused_set))]
pub fn check_sets(flags: &[Flag], paths: usize) -> Result<(), OptionError>
    ensures { result ≡ unless (refused_set (λ f. is_among f flags.now) paths) tt }
{
    check_modes(flags)?;
    check_reports(flags)?;
    check_files(flags)?;
    check_paths(flags, paths)
}
