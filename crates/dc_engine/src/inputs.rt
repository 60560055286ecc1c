//! The files that options name: sources, patterns and a kill plan.
#![tactic(auto)]

ghost use Rattle.std.specs.Prelude.{◌≡◌, ◌++◌, ◌+◌, ◌∷◌, [], ◌<◌, ◌≤◌, ◌^◌, true, false, length, filter_map, IfOk, IfErr, IfSome, OnOk, Ok, Err};
ghost use Rattle.std.specs.Option.{is_some, option_copied};
ghost use Rattle.dc_path.specs.Causes.{Rose};
ghost use Rattle.dc_path.specs.Lines.{lines_of};
ghost use Rattle.dc_fs.specs.Views.{view, OnlyLooks};
ghost use Rattle.dc_file.specs.Files.{max_bytes};
ghost use Rattle.dc_filter.specs.Filters.{filter_from};
ghost use Rattle.dc_kills.specs.Faults.{fault_of, IsPlanOf};
ghost use Rattle.dc_kills.specs.Plans.{IsInOrder};
ghost use Rattle.dc_engine.specs.Refusals.{Answers, refused_as};
ghost use Rattle.dc_engine.specs.Inputs.{input_of, text_at, path_in, is_path_line, path_lines, paths_in, sources_in, most_sources, pattern_of, lines_in, plan_of, unless_fault, plan_in, KillsAre, is_input_fault, is_input_denied, is_input_big, is_input_decided, IsOfText, line_in, held_of, inputs_in};

use dc_file::{FileError, read_file};
use dc_filter::{Filter, FilterError, Patterns};
use dc_fs::Store;
use dc_kills::{KillPlan, PlanError};
use dc_options::Options;
use dc_path::{List, OutOfMemory, Path, PathError, first_line};
use std::alloc::Global;

/// What the files that options name hold.
#[derive(Drop)]
pub(crate) struct Inputs {
    /// The sources.
    pub sources: List<Path>,
    /// The patterns of what is left out.
    pub filter: Filter,
    /// Which attempts are stopped.
    pub kills: KillPlan,
}

/// Why the files that options name are refused.
#[derive(Drop)]
pub(crate) enum InputError {
    /// No file stands at the path.
    NoFile { path: Path },
    /// The file has too many bytes.
    TooBig { path: Path },
    /// The line of the file of sources is no path; 0 where there is no path at all.
    BadList { line: u32 },
    /// The line of the file of patterns is no pattern.
    BadPattern { line: u32 },
    /// The pattern of the line would be too big.
    BigPattern { line: u32 },
    /// The line of the kill plan is refused.
    BadPlan { line: u32 },
    /// The source denied what it showed before.
    Changed { path: Path },
    /// The source failed.
    Fault,
    /// Memory ran out.
    Memory,
}

impl From<OutOfMemory> for InputError {
    ghost use Rattle.std.specs.Prelude.{◌≡◌};
    ghost use Rattle.dc_engine.specs.declared.inputs.InputError.TheVariants.{Memory};

    ghost from_gives = { λ _ e. e ≡ Memory };

    fn from(_lack: OutOfMemory) -> InputError {
        InputError::Memory
    }
}

// What a refusal names: a copy of the path.
fn named(alloc: Global, path: &Path, error: FileError) -> InputError
    ensures named { is_input_decided result ≡ true → result ≡ input_of path.now error }
    ensures fault { is_input_fault result ≡ true → error ≡ FileError.Fault }
    ensures denied { is_input_denied result ≡ true → error ≡ FileError.Changed }
    ensures small { is_input_big result ≡ false }
{
    if error == FileError::Fault {
        return InputError::Fault;
    }
    let Ok(path) = path.copy(alloc) else {
        return InputError::Memory;
    };
    match error {
        FileError::NoFile => InputError::NoFile { path },
        FileError::TooBig => InputError::TooBig { path },
        FileError::Changed => InputError::Changed { path },
        FileError::Fault => InputError::Fault,
        FileError::Memory => InputError::Memory,
    }
}

// The bytes of a file of the source.
fn read_text<S: Store>(alloc: Global, source: &mut S, path: &Path) -> Result<List<u8>, InputError>
    ensures source { OnlyLooks (view S.Store source.old) (view S.Store source.new) result is_input_fault }
    ensures looks { S.looks source.new ≤ S.looks source.old + 2 }
    ensures text { IfSome (S.tree source.old) (λ s. Answers is_input_decided result (text_at s path.now)) }
    ensures denied { IfErr result (λ e. is_input_denied e ≡ true → S.tree source.old ≡ None) }
    ensures small { IfErr result (λ e. is_input_big e ≡ false) }
    ensures within { IfOk result (λ text. length text ≤ max_bytes) }
{
    match read_file(alloc, source, path) {
        Ok(text) => Ok(text),
        Err(error) => Err(named(alloc, path, error)),
    }
}

// The path that a line is, if it is one.
#[tactic(auto, using(dc_filter::proofs::PatternLemmas::texts))]
fn read_path(alloc: Global, line: &[u8]) -> Result<Option<Path>, OutOfMemory>
    ensures { IfOk result (λ path. path ≡ path_in line.now) }
{
    let Ok(text) = std::str::from_utf8(line) else {
        return Ok(None);
    };
    match Path::read(alloc, text) {
        Ok(path) => Ok(Some(path)),
        Err(PathError::Memory) => Err(OutOfMemory),
        Err(_) => Ok(None),
    }
}

// Adds the path of a line, which has this number, unless it is empty.
fn add_line(
    alloc: Global,
    paths: &mut List<Path>,
    number: u32,
    line: &[u8],
) -> Result<(), InputError>
    ensures added { OnOk result (paths.new ≡ paths.old ++ filter_map path_in (line.now ∷ [])) }
    ensures good { OnOk result (is_path_line line.now ≡ true) }
    ensures bad { IfErr result (λ e. is_input_decided e ≡ true → is_path_line line.now ≡ false) }
    ensures number { IfErr result (λ e. is_input_decided e ≡ true → e ≡ InputError.BadList number) }
    ensures of_text { IfErr result IsOfText }
    ensures small { IfErr result (λ e. is_input_big e ≡ false) }
{
    if line.is_empty() {
        return Ok(());
    }
    let Some(path) = read_path(alloc, line)? else {
        return Err(InputError::BadList { line: number });
    };
    paths.add(path)?;
    Ok(())
}

// The paths of the lines of a text that are not empty.
fn read_lines(alloc: Global, text: &[u8]) -> Result<List<Path>, InputError>
    requires { length text.now ≤ max_bytes }
    ensures good { OnOk result (path_lines (lines_of text.now) ≡ length (lines_of text.now)) }
    ensures paths { IfOk result (λ paths. paths ≡ filter_map path_in (lines_of text.now)) }
    ensures bad { IfErr result (λ e. is_input_decided e ≡ true → paths_in (lines_of text.now) ≡ Err e) }
    ensures few { IfOk result (λ paths. length paths ≤ max_bytes) }
    ensures of_text { IfErr result IsOfText }
    ensures small { IfErr result (λ e. is_input_big e ≡ false) }
{
    let mut paths = List::new(alloc);
    let mut rest = text;
    let mut number = 0u32;
    'lines: while !rest.is_empty() {
        let (line, after) = first_line(rest);
        number += 1;
        add_line(alloc, &mut paths, number, line)?;
        rest = after;
    }
    Ok(paths)
}

// The paths of a text, of which there is at least one.
fn read_paths(alloc: Global, text: &[u8]) -> Result<List<Path>, InputError>
    requires { length text.now ≤ max_bytes }
    ensures paths { Answers is_input_decided result (paths_in (lines_of text.now)) }
    ensures few { IfOk result (λ paths. length paths ≤ max_bytes) }
    ensures of_text { IfErr result IsOfText }
    ensures small { IfErr result (λ e. is_input_big e ≡ false) }
{
    let paths = read_lines(alloc, text)?;
    if paths.is_empty() {
        return Err(InputError::BadList { line: 0 });
    }
    Ok(paths)
}

// The sources: the paths of the file of `-f`, or else those of the words.
fn read_sources<S: Store>(
    alloc: Global,
    options: &Options,
    source: &mut S,
) -> Result<List<Path>, InputError>
    ensures source { OnlyLooks (view S.Store source.old) (view S.Store source.new) result is_input_fault }
    ensures looks { S.looks source.new ≤ S.looks source.old + 2 }
    ensures sources { IfSome (S.tree source.old) (λ s. Answers is_input_decided result (sources_in options.now s)) }
    ensures denied { IfErr result (λ e. is_input_denied e ≡ true → S.tree source.old ≡ None) }
    ensures small { IfErr result (λ e. is_input_big e ≡ false) }
    ensures few { IfOk result (λ paths. length paths ≤ most_sources options.now) }
{
    let Some(path) = options.list() else {
        return Ok(options.copy_sources(alloc)?);
    };
    let text = read_text(alloc, source, path)?;
    read_paths(alloc, text.as_slice())
}

// How a file of patterns is refused. Its lines are counted by 32 bits.
fn unpatterned(error: FilterError) -> InputError
    requires { line_in error < 2 ^ 32 }
    ensures { result ≡ pattern_of error }
{
    match error {
        FilterError::BadPattern { line } => InputError::BadPattern { line: line as u32 },
        FilterError::BigPattern { line } => InputError::BigPattern { line: line as u32 },
        FilterError::Memory => InputError::Memory,
    }
}

// The filter of the lines of a text.
fn read_patterns<P: Patterns>(
    alloc: Global,
    text: &[u8],
    pats: &mut P,
) -> Result<Filter, InputError>
    requires { length text.now ≤ max_bytes }
    ensures lines { Answers is_input_decided result (refused_as pattern_of (filter_from text.now)) }
    ensures big { IfErr result (λ e. is_input_big e ≡ true → Rose (P.refused pats.old) (P.refused pats.new)) }
    ensures later { P.refused pats.old ≤ P.refused pats.new }
    ensures of_text { IfErr result IsOfText }
{
    match Filter::read(alloc, text, pats) {
        Ok(filter) => Ok(filter),
        Err(error) => Err(unpatterned(error)),
    }
}

// The filter of the file of `-filters`; without it that of no lines.
fn read_filter<S: Store, P: Patterns>(
    alloc: Global,
    options: &Options,
    source: &mut S,
    pats: &mut P,
) -> Result<Filter, InputError>
    ensures source { OnlyLooks (view S.Store source.old) (view S.Store source.new) result is_input_fault }
    ensures looks { S.looks source.new ≤ S.looks source.old + 2 }
    ensures lines { IfSome (S.tree source.old) (λ s. Answers is_input_decided result (lines_in options.now s)) }
    ensures denied { IfErr result (λ e. is_input_denied e ≡ true → S.tree source.old ≡ None) }
    ensures big { IfErr result (λ e. is_input_big e ≡ true → Rose (P.refused pats.old) (P.refused pats.new)) }
    ensures filtered { IfErr result (λ e. is_input_big e ≡ true → is_some options.now.filters ≡ true) }
    ensures later { P.refused pats.old ≤ P.refused pats.new }
{
    let Some(path) = options.filters() else {
        return Ok(Filter::none(alloc));
    };
    let lines = read_text(alloc, source, path)?;
    read_patterns(alloc, lines.as_slice(), pats)
}

// How a kill plan is refused.
fn unplanned(error: PlanError) -> InputError
    ensures { result ≡ plan_of error }
{
    match error {
        PlanError::BadLine { line } => InputError::BadPlan { line },
        PlanError::Repeated { line } => InputError::BadPlan { line },
        PlanError::Memory => InputError::Memory,
    }
}

// The plan that a text spells.
fn read_plan(alloc: Global, text: &[u8]) -> Result<KillPlan, InputError>
    ensures plan { IfOk result (IsPlanOf text.now) }
    ensures stops { IfOk result (λ plan. length plan ≤ 65536) }
    ensures ordered { IfOk result IsInOrder }
    ensures refused { IfErr result (λ e. Answers is_input_decided (Err e) (unless_fault (fault_of text.now))) }
    ensures of_text { IfErr result IsOfText }
    ensures small { IfErr result (λ e. is_input_big e ≡ false) }
{
    match KillPlan::read(alloc, text) {
        Ok(plan) => Ok(plan),
        Err(error) => Err(unplanned(error)),
    }
}

// The plan of the file of `-kills`; without it the empty one.
fn read_kills<S: Store>(
    alloc: Global,
    options: &Options,
    source: &mut S,
) -> Result<KillPlan, InputError>
    ensures source { OnlyLooks (view S.Store source.old) (view S.Store source.new) result is_input_fault }
    ensures looks { S.looks source.new ≤ S.looks source.old + 2 }
    ensures kills { IfOk result (λ plan. IfSome (S.tree source.old) (λ s. KillsAre options.now.kills s plan)) }
    ensures stops { IfOk result (λ plan. length plan ≤ 65536) }
    ensures ordered { IfOk result IsInOrder }
    ensures refused { IfErr result (λ e. IfSome (S.tree source.old) (λ s. Answers is_input_decided (Err e) (plan_in options.now s))) }
    ensures denied { IfErr result (λ e. is_input_denied e ≡ true → S.tree source.old ≡ None) }
    ensures small { IfErr result (λ e. is_input_big e ≡ false) }
{
    let Some(path) = options.kills() else {
        return Ok(KillPlan::none(alloc));
    };
    let text = read_text(alloc, source, path)?;
    read_plan(alloc, text.as_slice())
}

/// What the files that options name hold, in the order of `-f`, `-filters` and `-kills`.
pub(crate) fn read_inputs<S: Store, P: Patterns>(
    alloc: Global,
    options: &Options,
    source: &mut S,
    pats: &mut P,
) -> Result<Inputs, InputError>
    ensures source { OnlyLooks (view S.Store source.old) (view S.Store source.new) result is_input_fault }
    ensures looks { S.looks source.new ≤ S.looks source.old + 6 }
    ensures held { IfOk result (λ i. IfSome (S.tree source.old) (λ s. inputs_in options.now s ≡ Ok (held_of i))) }
    ensures kills { IfOk result (λ i. IfSome (S.tree source.old) (λ s. KillsAre options.now.kills s i.kills)) }
    ensures stops { IfOk result (λ i. length i.kills ≤ 65536) }
    ensures ordered { IfOk result (λ i. IsInOrder i.kills) }
    ensures refused { IfErr result (λ e. IfSome (S.tree source.old) (λ s. Answers is_input_decided (Err e) (inputs_in options.now s))) }
    ensures denied { IfErr result (λ e. is_input_denied e ≡ true → S.tree source.old ≡ None) }
    ensures big { IfErr result (λ e. is_input_big e ≡ true → Rose (P.refused pats.old) (P.refused pats.new)) }
    ensures filtered { IfErr result (λ e. is_input_big e ≡ true → is_some options.now.filters ≡ true) }
    ensures later { P.refused pats.old ≤ P.refused pats.new }
    ensures few { IfOk result (λ i. length i.sources ≤ most_sources options.now) }
{
    let sources = read_sources(alloc, options, source)?;
    let filter = read_filter(alloc, options, source, pats)?;
    let kills = read_kills(alloc, options, source)?;
    Ok(Inputs {
        sources,
        filter,
        kills,
    })
}
