//! Reports, read from the files of a store.
#![tactic(auto)]

ghost use Rattle.std.specs.Prelude.{◌≡◌, ◌≤◌, ◌+◌, ◌<◌, ◌^◌, [], ◌∷◌, true, false, length, None, Ok, Err, IfOk, IfErr, IfSome};
ghost use Rattle.std.specs.Option.{option_copied};
ghost use Rattle.dc_file.specs.Files.{max_bytes};
ghost use Rattle.dc_fs.specs.Views.{view, OnlyLooks};
ghost use Rattle.dc_path.specs.Unless.{GivesUnless};
ghost use Rattle.dc_report.specs.Reports.{report_from};
ghost use Rattle.dc_sync.specs.Errors.{Gives, IsOfText, is_decided, is_denied, is_fault};
ghost use Rattle.dc_sync.specs.Reading.{file_name, line_in, parsed, refused_file, refused_report, report_at, report_names, report_path, text_at};

use crate::SyncError;
use crate::steps::{name_of, step_on};
use dc_file::{FileError, read_file};
use dc_fs::Store;
use dc_path::{List, Name, OutOfMemory, Path};
use dc_report::{Report, ReportError};
use std::alloc::Global;

// The name of a report's file.
fn file_of(alloc: Global, to: Option<&Name>) -> Result<Name, OutOfMemory>
    requires { IfSome (option_copied to) (λ t. length t ≤ 252) }
    ensures { IfOk result (λ name. name ≡ file_name (option_copied to.entry)) }
{
    let Some(to) = to else {
        return name_of(alloc, "current");
    };
    let text = format!(in alloc; "to.{}", to.as_str())?;
    name_of(alloc, text.as_str())
}

// The names of a report's file below the directory.
fn names_of(alloc: Global, from: &Name, to: Option<&Name>) -> Result<List<Name>, OutOfMemory>
    requires { IfSome (option_copied to) (λ t. length t ≤ 252) }
    ensures { IfOk result (λ names. names ≡ report_names from.now (option_copied to.entry)) }
{
    let mut names = List::new(alloc);
    names.add(name_of(alloc, ".snapshot")?)?;
    names.add(name_of(alloc, ".reports")?)?;
    names.add(from.copy(alloc)?)?;
    names.add(file_of(alloc, to)?)?;
    Ok(names)
}

// The path of a report's file.
fn path_of(alloc: Global, dir: &Path, from: &Name, to: Option<&Name>) -> Result<Path, SyncError>
    requires { IfSome (option_copied to) (λ t. length t ≤ 252) }
    ensures { GivesUnless SyncError.Memory result (report_path dir.now from.now (option_copied to.entry)) }
{
    let names = names_of(alloc, from, to)?;
    step_on(alloc, dir, names.as_slice())
}

// What a refusal of a file names: a copy of its path.
fn named(alloc: Global, path: &Path, error: FileError) -> SyncError
    ensures named { is_decided result ≡ true → result ≡ refused_file path.now error }
    ensures fault { is_fault result ≡ true → error ≡ FileError.Fault }
    ensures denied { is_denied result ≡ true → error ≡ FileError.Changed }
{
    if error == FileError::Fault {
        return SyncError::Fault;
    }
    let Ok(path) = path.copy(alloc) else {
        return SyncError::Memory;
    };
    match error {
        FileError::NoFile => SyncError::NoReport { path },
        FileError::TooBig => SyncError::TooBig { path },
        FileError::Changed => SyncError::Changed { path },
        FileError::Fault => SyncError::Fault,
        FileError::Memory => SyncError::Memory,
    }
}

// The bytes of a report's file.
fn read_text<S: Store>(alloc: Global, store: &mut S, path: &Path) -> Result<List<u8>, SyncError>
    ensures store { OnlyLooks (view S.Store store.old) (view S.Store store.new) result is_fault }
    ensures looks { S.looks store.new ≤ S.looks store.old + 2 }
    ensures text { IfSome (S.tree store.old) (λ s. Gives result (text_at s path.now)) }
    ensures denied { IfErr result (λ e. is_denied e ≡ true → S.tree store.old ≡ None) }
    ensures within { IfOk result (λ text. length text ≤ max_bytes) }
{
    match read_file(alloc, store, path) {
        Ok(text) => Ok(text),
        Err(error) => Err(named(alloc, path, error)),
    }
}

// How a text is refused that is no report. Its lines are counted by 32 bits.
fn unreported(error: ReportError) -> SyncError
    requires { line_in error < 2 ^ 32 }
    ensures { result ≡ refused_report error }
{
    match error {
        ReportError::BadHead => SyncError::BadReport { line: 1 },
        ReportError::BadLine { line } => SyncError::BadReport { line: line as u32 },
        ReportError::DoubleLine { line } => SyncError::BadReport { line: line as u32 },
        ReportError::DoubleSource { line } => SyncError::BadReport { line: line as u32 },
        ReportError::DoubleTarget { line } => SyncError::BadReport { line: line as u32 },
        ReportError::Memory => SyncError::Memory,
    }
}

// The report that a text spells.
fn parse(alloc: Global, text: &[u8]) -> Result<Report, SyncError>
    requires { length text.now ≤ max_bytes }
    ensures report { Gives result (parsed (report_from text.now)) }
    ensures of_text { IfErr result IsOfText }
{
    match Report::read(alloc, text) {
        Ok(report) => Ok(report),
        Err(error) => Err(unreported(error)),
    }
}

/// The report of a directory from one snapshot to another, or to now where no other is given (HDFS Snapshots, "Get Snapshots
/// Difference Report"). Its file stands at `.snapshot/.reports/FROM/to.TO` below the directory; at
/// `.snapshot/.reports/FROM/current` where it is to now.
///
/// The store is looked at twice. A name `to` has at most 252 bytes.
///
/// # Errors
///
/// - `TooLong`, exactly where the path of the file passes the limits;
/// - `NoReport`, exactly where no file stands there;
/// - `TooBig`, exactly where it has more than `dc_file::MAX_BYTES` bytes;
/// - `BadReport`, exactly where it spells no report, with the first line that is refused; 1 for the heading;
/// - `Changed`, only where the store denied what it showed;
/// - `Fault`, only where the store's count of faults rose;
/// - `Memory`, which may come in the place of any answer.
pub fn read_report<S: Store>(
    alloc: Global,
    store: &mut S,
    dir: &Path,
    from: &Name,
    to: Option<&Name>,
) -> Result<Report, SyncError>
    requires short { IfSome (option_copied to) (λ t. length t ≤ 252) }
    ensures store { OnlyLooks (view S.Store store.old) (view S.Store store.new) result is_fault }
    ensures looks { S.looks store.new ≤ S.looks store.old + 2 }
    ensures report { IfSome (S.tree store.old) (λ s. Gives result (report_at s dir.now from.now (option_copied to.entry))) }
    ensures denied { IfErr result (λ e. is_denied e ≡ true → S.tree store.old ≡ None) }
{
    let path = path_of(alloc, dir, from, to)?;
    let text = read_text(alloc, store, &path)?;
    parse(alloc, text.as_slice())
}
