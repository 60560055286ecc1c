//! Reports.
#![tactic(auto)]

ghost use Rattle.std.specs.Prelude.{◌≡◌, ◌≢◌, [], ◌∷◌, ◌++◌, ◌+◌, ◌<◌, ◌^◌, List as Items, Some, Ok, Err, codes, IfOk, IfErr, OnOk};
ghost use Rattle.dc_path.specs.Lines.{lines_of};
ghost use Rattle.dc_path.specs.Unless.{GivesUnless};
ghost use Rattle.dc_report.specs.declared.report.ReportError.TheVariants.{Memory};
ghost use Rattle.dc_report.specs.declared.writing.WriteReportError.TheVariants.{Memory as Full};
ghost use Rattle.dc_path.specs.declared.path.PathError.TheVariants.{Memory as Lacking};
ghost use Rattle.dc_report.specs.Apart.{IsReport};
ghost use Rattle.dc_report.specs.Carries.{carries_in, OldsFit};
ghost use Rattle.dc_report.specs.Carrying.{carries_of, limited, moved, place};
ghost use Rattle.dc_report.specs.Landings.{sources_of};
ghost use Rattle.dc_report.specs.Moves.{limited_moves, moves_of, root_moves, stage_name};
ghost use Rattle.dc_report.specs.Told.{AreTold, HasNoName};
ghost use Rattle.dc_report.specs.Writing.{written};
ghost use Rattle.dc_report.specs.Grammar.{entry_from};
ghost use Rattle.dc_report.specs.Known.{Knows};
ghost use Rattle.dc_report.specs.Reports.{with_spelt, entries_from, report_from};

use crate::carries::{Carries, moved, place};
use crate::grammar::{is_heading, read_entry};
use crate::known::Known;
use crate::lines::without_end;
use crate::moves::{report_moves, root_moves};
use crate::sources::sources;
use crate::unlimited::{moved_names, place_names};
use crate::writing::{WriteReportError, write_entries};
use crate::{Entry, Move};
use dc_path::{List, Name, OutOfMemory, Path, PathError, Text, first_line};
use std::alloc::Global;
use std::marker::Model;

/// Why a text is no report. Lines count from 1, the heading included.
#[derive(Clone, Copy, Debug, PartialEq, Eq)]
pub enum ReportError {
    /// There is no first line, or it is no heading.
    BadHead,
    /// The line is of no form of an entry.
    BadLine { line: u64 },
    /// The line creates or modifies a path again.
    DoubleLine { line: u64 },
    /// The line deletes or renames a path that was deleted or renamed.
    DoubleSource { line: u64 },
    /// The line renames to a path to which another was renamed.
    DoubleTarget { line: u64 },
    /// Memory ran out. No clause says when this comes.
    Memory,
}

impl From<OutOfMemory> for ReportError {
    ghost use Rattle.std.specs.Prelude.{◌≡◌};
    ghost use Rattle.dc_report.specs.declared.report.ReportError.TheVariants.{Memory};

    ghost from_gives = { λ _ e. e ≡ Memory };

    fn from(_lack: OutOfMemory) -> ReportError {
        ReportError::Memory
    }
}

/// A report, seen as the list of its entries, in the order of its lines.
#[derive(Drop)]
pub struct Report {
    entries: List<Entry>,
    carries: Carries,
}

impl Model for Report {
    ghost use Rattle.std.specs.Prelude.{List, []};
    ghost use Rattle.std.specs.Prelude.{◌≡◌};
    ghost use Rattle.dc_report.specs.Told.{AreTold};
    ghost use Rattle.dc_report.specs.Carries.{carries_in};
    ghost use Rattle.dc_report.specs.Carrying.{carries_of};
    ghost use Rattle.dc_report.specs.declared.entries.Entry.{Entry};

    ghost Value = { List Entry };

    ghost view = { λ r. r.entries };

    ghost invariant = { λ r. AreTold [] r.entries × (carries_in r.carries.entries ≡ carries_of r.entries) };
}

// Adds the entry of a line.
fn add_line(
    alloc: Global,
    known: &mut Known,
    entries: &mut List<Entry>,
    line: u64,
    text: &[u8],
) -> Result<(), ReportError>
    requires { Knows known.old entries.old }
    ensures knows { OnOk result (Knows known.new entries.new) }
    ensures ok { OnOk result (with_spelt line entries.old (entry_from text.now) ≡ Ok entries.new) }
    ensures err { IfErr result (λ e. e ≢ Memory → with_spelt line entries.old (entry_from text.now) ≡ Err e) }
{
    let Some(entry) = read_entry(alloc, text)? else {
        return Err(ReportError::BadLine { line });
    };
    known.add(alloc, line, &entry)?;
    entries.add(entry)?;
    Ok(())
}

// The entries of the lines from the second on.
fn read_lines(alloc: Global, lines: &[u8]) -> Result<(List<Entry>, Carries), ReportError>
    ensures ok { IfOk result (λ parts. entries_from 2 [] (lines_of lines.now) ≡ Ok parts.0) }
    ensures carries { IfOk result (λ parts. carries_in parts.1.entries ≡ carries_of parts.0) }
    ensures err { IfErr result (λ e. e ≢ Memory → entries_from 2 [] (lines_of lines.now) ≡ Err e) }
{
    let mut known = Known::new(alloc);
    let mut entries = List::new(alloc);
    let mut line = 2u64;
    let mut rest = lines;
    while !rest.is_empty() {
        let (first, others) = first_line(rest);
        add_line(alloc, &mut known, &mut entries, line, first)?;
        line += 1;
        rest = others;
    }
    Ok((entries, known.into_carries()))
}

impl Report {
    /// The report that a text spells.
    ///
    /// Each line ends with a line feed, which may be missing at the last; empty lines behind the last that is not empty
    /// are passed over. The first line is the heading: it begins with `Difference between ` and ends with `:`. Each
    /// further line is `+`, `-` or `M`, a tab and a path, or `R`, a tab, a path, ` -> ` and a path. A path is `.`, or
    /// `./` and names with one `/` between two. No name is `.snapshot`, or holds a tab or ` -> `, and `.` stands behind
    /// `M` alone.
    ///
    /// # Errors
    ///
    /// The first line with a fault decides, and within a line the first of these:
    ///
    /// - `BadHead`, where the first line is no heading in UTF-8;
    /// - `BadLine`, where a line is of no such form, is not UTF-8, is empty, or has a path outside the limits of `Path`;
    /// - `DoubleLine`, where a path is created or modified that an earlier line of that kind has;
    /// - `DoubleSource`, where a path is deleted or renamed that an earlier line deletes or renames;
    /// - `DoubleTarget`, where the second path of a rename is that of an earlier line.
    ///
    /// `Memory` may come in the place of any answer.
    pub fn read(alloc: Global, text: &[u8]) -> Result<Report, ReportError>
        ensures { GivesUnless Memory result (report_from text.now) }
    {
        let text = without_end(text);
        if text.is_empty() {
            return Err(ReportError::BadHead);
        }
        let (heading, lines) = first_line(text);
        if !is_heading(heading) {
            return Err(ReportError::BadHead);
        }
        let (entries, carries) = read_lines(alloc, lines)?;
        Ok(Report { entries, carries })
    }

    /// The entries, in the order of their lines. They are entries that a text can tell, but for one thing: no clause says
    /// that a name holds no line feed.
    pub fn entries(&self) -> &List<Entry>
        ensures entries { result.now ≡ self.now }
        ensures told { AreTold [] self.now }
        ensures apart { IsReport self.now }
        ensures plain { HasNoName (codes ".snapshot") self.now }
    {
        &self.entries
    }

    /// Where a path goes: its longest prefix that is deleted or renamed decides. Where there is none the answer is the
    /// path itself; where it is renamed, its new path followed by the rest of the path; where it is deleted, `None`.
    ///
    /// # Errors
    ///
    /// - `TooDeep`, exactly where the path of the answer has more than `MAX_NAMES` names;
    /// - else `TooLong`, exactly where its text has more than `MAX_BYTES` bytes;
    /// - `Memory`, which may come in the place of any answer.
    pub fn moved(&self, alloc: Global, path: &Path) -> Result<Option<Path>, PathError>
        ensures { GivesUnless Lacking result (limited (moved (carries_of self.now) path.now)) }
    {
        moved(&self.carries, alloc, path)
    }

    /// Where what is created at a path stands: its parent goes as `moved` says, and its last name follows. `None` where
    /// the parent goes nowhere, and for the root.
    ///
    /// # Errors
    ///
    /// - `TooDeep`, exactly where the path of the answer has more than `MAX_NAMES` names;
    /// - else `TooLong`, exactly where its text has more than `MAX_BYTES` bytes;
    /// - `Memory`, which may come in the place of any answer.
    pub fn place(&self, alloc: Global, created: &Path) -> Result<Option<Path>, PathError>
        ensures { GivesUnless Lacking result (limited (place (carries_of self.now) created.now)) }
    {
        place(&self.carries, alloc, created)
    }

    /// Where the path of these names goes, as `moved` says of a path. Neither the names nor the answer need fit into a path.
    /// `OutOfMemory` is the one error.
    pub fn moved_names(
        &self,
        alloc: Global,
        names: &[Name],
    ) -> Result<Option<List<Name>>, OutOfMemory>
        ensures { IfOk result (λ to. to ≡ moved (carries_of self.now) names.now) }
    {
        moved_names(&self.carries, alloc, names)
    }

    /// Where what is created at a path stands, as `place` says, but as names, which need not fit into a path. `OutOfMemory` is
    /// the one error.
    pub fn place_names(
        &self,
        alloc: Global,
        created: &Path,
    ) -> Result<Option<List<Name>>, OutOfMemory>
        ensures { IfOk result (λ to. to ≡ place (carries_of self.now) created.now) }
    {
        place_names(&self.carries, alloc, created)
    }

    /// Each new path of a rename with its old path, as a map by which `moved_names` leads back: from a path of the later
    /// snapshot to the one path that may have gone there. `OutOfMemory` is the one error.
    pub fn sources(&self, alloc: Global) -> Result<Carries, OutOfMemory>
        ensures sources { IfOk result (λ sources. sources.entries ≡ sources_of (carries_of self.now)) }
        ensures fit { IfOk result (λ sources. OldsFit (carries_in sources.entries)) }
    {
        // That the map is in the order of its keys is a clause of its length.
        let _ordered = self.carries.len();
        sources(alloc, &self.carries)
    }

    /// The moves that replay the report on a tree whose root is the directory of the report: those of `moves`, with the root
    /// as the base. So where `moves` is refused, its first path that passes a limit can be found and named. `OutOfMemory` is
    /// the one error.
    pub fn root_moves(&self, alloc: Global) -> Result<List<Move>, OutOfMemory>
        ensures { IfOk result (λ moves. moves ≡ root_moves stage_name self.now) }
    {
        root_moves(alloc, &self.entries, &self.carries)
    }

    /// The moves that replay the report on the tree below a base; none where nothing is deleted or renamed.
    ///
    /// The stage, `.distcp.stage` below the base, is made. Each path that is deleted or renamed goes into it, the
    /// greatest first, under the names `0`, `1` and so on. Each renamed item goes on to its new path, the least new path
    /// first, behind the moves that make those of its parents that are to be made and were not made before, the shortest
    /// first. The stage is removed. A parent is to be made where the longest of its prefixes that is a new path of a
    /// rename or the place of something created is such a place.
    ///
    /// # Errors
    ///
    /// The first path that passes a limit decides, in the order of the moves, and in a `Shift` `from` before `to`:
    ///
    /// - `TooDeep`, where it has more than `MAX_NAMES` names;
    /// - else `TooLong`, where its text has more than `MAX_BYTES` bytes;
    /// - `Memory`, which may come in the place of any answer.
    pub fn moves(&self, alloc: Global, base: &Path) -> Result<List<Move>, PathError>
        ensures { GivesUnless Lacking result (limited_moves (moves_of stage_name base.now self.now)) }
    {
        report_moves(alloc, base, &self.entries, &self.carries)
    }

    /// The text of the report: the heading and then a line for each entry, in order, each with a line feed.
    ///
    /// # Errors
    ///
    /// - `BadHead`, exactly where the heading does not begin with `Difference between ` and end with `:`, or holds a
    ///   line feed;
    /// - else `Ambiguous` with the first path that has a name with a tab, a line feed or ` -> `, exactly where there is
    ///   one;
    /// - `Memory`, which may come in the place of any answer.
    pub fn write(&self, alloc: Global, heading: &Text) -> Result<Text, WriteReportError>
        ensures text { GivesUnless Full result (written heading.now self.now) }
        ensures read_back { IfOk result (λ text. report_from text ≡ Ok self.now) }
    {
        write_entries(alloc, heading, self.entries.as_slice())
    }
}
