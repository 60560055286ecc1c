//! The lines of a run, and its exit status.
#![tactic(auto)]

ghost use Rattle.std.specs.Prelude.{◌≡◌, ◌≤◌, ◌++◌, true, false, IfSome, IfNone, codes, flat_map};
ghost use Rattle.std.specs.Option.{option_map};
ghost use Rattle.dc_fs.specs.Causes.{Rose};
ghost use Rattle.dc_fs.specs.Temporaries.{WriteStops};
ghost use Rattle.dc_output.specs.Output.{lines, lines_before, counter_lines, left_out, option_status, outcome_text, status_of, without_line};
ghost use Rattle.dc_output.specs.Writes.{Writes, sink_view};
ghost use Rattle.dc_engine.specs.declared.outcome.Outcome.{Outcome};

use crate::pieces::{Piece, write_pieces};
use crate::rows::outcome_row;
use dc_engine::{Counts, Outcome};
use dc_fs::{Sink, SinkFault};
use dc_options::OptionError;
use dc_path::Path;

/// What the top call answers.
#[derive(Drop)]
pub struct Answer {
    /// How the run ended.
    pub outcome: Outcome,
    /// The six counters.
    pub counts: Counts,
    /// How many moves of a report were made: 0 in a run without one.
    pub moves: u64,
    /// Whether the sink took all lines.
    pub printed: bool,
}

/// The end of a line.
const LINE_END: Piece<'static> = Piece::Text("\n");

// Writes the six counters, a line each.
fn write_counters<O: Sink>(out: &mut O, counts: &Counts) -> Result<(), SinkFault>
    ensures { Writes (counter_lines counts.now) (sink_view O.Sink out.old) (sink_view O.Sink out.new) result }
{
    write_pieces(
        out,
        &[
            Piece::Text("COPY="),
            Piece::Number(u128::from(counts.copied)),
            LINE_END,
            Piece::Text("DIR_COPY="),
            Piece::Number(u128::from(counts.dirs)),
            LINE_END,
            Piece::Text("SKIP="),
            Piece::Number(u128::from(counts.skipped)),
            LINE_END,
            Piece::Text("FAIL="),
            Piece::Number(u128::from(counts.failed)),
            LINE_END,
            Piece::Text("BYTESCOPIED="),
            Piece::Number(counts.bytes_copied),
            LINE_END,
            Piece::Text("BYTESSKIPPED="),
            Piece::Number(counts.bytes_skipped),
            LINE_END,
        ],
    )
}

// Writes that the run went on without a path under the target, as a line.
fn write_without<O: Sink>(out: &mut O, path: &Path) -> Result<(), SinkFault>
    ensures { Writes (without_line path.now) (sink_view O.Sink out.old) (sink_view O.Sink out.new) result }
{
    write_pieces(
        out,
        &[Piece::Text("WITHOUT "), Piece::Below(path), LINE_END],
    )
}

// Writes what the run went on without, a line for each path.
fn write_left_out<O: Sink>(out: &mut O, paths: &[Path]) -> Result<(), SinkFault>
    ensures { Writes (flat_map without_line paths.now) (sink_view O.Sink out.old) (sink_view O.Sink out.new) result }
{
    for path in paths {
        write_without(out, path)?;
    }
    Ok(())
}

// The paths that a run which committed went on without.
#[tactic(auto, unfolding(crate::specs::Output::left_out))]
fn paths_left_out(outcome: &Outcome) -> Option<&[Path]>
    ensures some { IfSome result (λ paths. left_out outcome.now ≡ Some paths.now) }
    ensures none { IfNone result (left_out outcome.now ≡ None) }
{
    match outcome {
        Outcome::Committed => Some(&[]),
        Outcome::CommittedWithout { paths } => Some(paths.as_slice()),
        _ => None,
    }
}

// Writes the lines before the last.
fn write_before<O: Sink>(out: &mut O, outcome: &Outcome, counts: &Counts) -> Result<(), SinkFault>
    ensures { Writes (lines_before (left_out outcome.now) counts.now) (sink_view O.Sink out.old) (sink_view O.Sink out.new) result }
{
    match paths_left_out(outcome) {
        Some(paths) => {
            write_counters(out, counts)?;
            write_left_out(out, paths)
        }
        None => Ok(()),
    }
}

// Writes how the run ended, as a line.
fn write_last<O: Sink>(out: &mut O, outcome: &Outcome) -> Result<(), SinkFault>
    ensures { Writes (outcome_text outcome.now ++ codes "\n") (sink_view O.Sink out.old) (sink_view O.Sink out.new) result }
{
    write_pieces(out, &outcome_row(outcome))?;
    out.write(b"\n")
}

// Writes all lines of a run.
fn write_lines<O: Sink>(out: &mut O, outcome: &Outcome, counts: &Counts) -> Result<(), SinkFault>
    ensures { Writes (lines outcome.now counts.now) (sink_view O.Sink out.old) (sink_view O.Sink out.new) result }
{
    write_before(out, outcome, counts)?;
    write_last(out, outcome)
}

/// Prints the lines of a run, and answers whether the sink took them all. It takes no memory.
///
/// After a fault of the sink nothing more is written: the sink has taken a front of the lines.
pub fn print<O: Sink>(answer: &Answer, out: &mut O) -> bool
    ensures printed { result ≡ true → O.bytes out.new ≡ option_map (λ old. old ++ lines answer.now.outcome answer.now.counts) (O.bytes out.old) }
    ensures stopped { result ≡ false → WriteStops (O.limit out.old) (lines answer.now.outcome answer.now.counts) (O.bytes out.old) (O.bytes out.new) }
    ensures limit { O.limit out.new ≡ O.limit out.old }
    ensures later { O.faults out.old ≤ O.faults out.new }
    ensures cause { result ≡ false → Rose (O.faults out.old) (O.faults out.new) }
    ensures still { result ≡ true → O.faults out.new ≡ O.faults out.old }
{
    write_lines(out, &answer.outcome, &answer.counts).is_ok()
}

/// Prints that memory ran out before a run could begin, and gives the answer of that run. It takes no memory.
pub fn print_no_memory<O: Sink>(out: &mut O) -> Answer
    ensures outcome { result.outcome ≡ Outcome.Memory }
    ensures counts { result.counts ≡ Counts.NONE }
    ensures moves { result.moves ≡ 0 }
    ensures printed { result.printed ≡ true → O.bytes out.new ≡ option_map (λ old. old ++ lines Outcome.Memory Counts.NONE) (O.bytes out.old) }
    ensures stopped { result.printed ≡ false → WriteStops (O.limit out.old) (lines Outcome.Memory Counts.NONE) (O.bytes out.old) (O.bytes out.new) }
    ensures limit { O.limit out.new ≡ O.limit out.old }
    ensures later { O.faults out.old ≤ O.faults out.new }
    ensures cause { result.printed ≡ false → Rose (O.faults out.old) (O.faults out.new) }
    ensures still { result.printed ≡ true → O.faults out.new ≡ O.faults out.old }
{
    let mut answer = Answer {
        outcome: Outcome::Memory,
        counts: Counts::NONE,
        moves: 0,
        printed: false,
    };
    answer.printed = print(&answer, out);
    answer
}

// The exit status of words that are no options.
#[tactic(auto, unfolding(crate::specs::Output::option_status))]
fn status_of_option(error: &OptionError) -> u8
    ensures { result ≡ option_status error.now }
{
    match error {
        OptionError::Memory => 24,
        _ => 255,
    }
}

/// The exit status of a run: 0 where it committed and printed all its lines, 29 where it did so without some items.
#[tactic(auto, unfolding(crate::specs::Output::status_of))]
pub fn status(answer: &Answer) -> u8
    ensures { result ≡ status_of answer.now.outcome answer.now.printed }
{
    match &answer.outcome {
        Outcome::Committed | Outcome::CommittedWithout { .. } if !answer.printed => 28,
        Outcome::Committed => 0,
        Outcome::CommittedWithout { .. } => 29,
        Outcome::BadOption { error } => status_of_option(error),
        Outcome::NoFile { .. } => 255,
        Outcome::TooBig { .. } => 255,
        Outcome::BadList { .. } => 255,
        Outcome::BadPattern { .. } => 255,
        Outcome::BigPattern { .. } => 255,
        Outcome::BadPlan { .. } => 255,
        Outcome::BadReport { .. } => 255,
        Outcome::NoReport { .. } => 255,
        Outcome::NoSource { .. } => 255,
        Outcome::BadTarget { .. } => 255,
        Outcome::Duplicate { .. } => 254,
        Outcome::TooMany { .. } => 253,
        Outcome::TooLong { .. } => 25,
        Outcome::Clash { .. } => 25,
        Outcome::NotAtBegin { .. } => 25,
        Outcome::StageExists { .. } => 25,
        Outcome::ReportFalse { .. } => 25,
        Outcome::WorkExists { .. } => 25,
        Outcome::SourceFault => 25,
        Outcome::TargetFault { .. } => 25,
        Outcome::CopyFailed { .. } => 25,
        Outcome::Differs { .. } => 25,
        Outcome::Changed { .. } => 25,
        Outcome::Uncertain { .. } => 26,
        Outcome::Memory => 24,
        Outcome::Unbuilt => 255,
    }
}
