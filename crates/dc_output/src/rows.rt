//! How a run ended, as the pieces of one line.
#![tactic(auto)]

ghost use Rattle.std.specs.Prelude.{◌≡◌, ◌++◌, codes, decimal, flat_map, length};
ghost use Rattle.dc_path.specs.Paths.{dotted_of, text_of};
ghost use Rattle.dc_engine.specs.declared.outcome.Outcome.TheVariants.{Differs, Duplicate, TargetFault, TooLong};
ghost use Rattle.dc_output.specs.Output.{bad_option, many_text, option_text, outcome_text, phase_text, target_text};
ghost use Rattle.dc_output.specs.Pieces.{piece_text};

use crate::pieces::Piece;
use dc_engine::{BadTarget, Outcome, Phase, TooManyOf};
use dc_options::OptionError;
use dc_path::{List, Name, Path};

/// The pieces of a line, of which the last may be empty.
pub(crate) type Row<'a> = [Piece<'a>; 6];

/// No text.
const NONE: Piece<'static> = Piece::Text("");

// A text and a piece.
fn pair<'a>(text: &'a str, piece: Piece<'a>) -> Row<'a>
    ensures { flat_map piece_text result ≡ text.now ++ piece_text piece.entry }
{
    [Piece::Text(text), piece, NONE, NONE, NONE, NONE]
}

// A text alone.
fn single(text: &str) -> Row<'_>
    ensures { flat_map piece_text result ≡ text.now }
{
    pair(text, NONE)
}

// Why words are no options: a reason, and the word or the number that it names.
fn refused<'a>(reason: &'a str, named: Piece<'a>) -> Row<'a>
    ensures { flat_map piece_text result ≡ bad_option (reason.now ++ piece_text named.entry) }
{
    [
        Piece::Text("distcp: bad option: "),
        Piece::Text(reason),
        named,
        NONE,
        NONE,
        NONE,
    ]
}

// Why words are no options, where no word is named.
fn refused_set(reason: &str) -> Row<'_>
    ensures { flat_map piece_text result ≡ bad_option reason.now }
{
    refused(reason, NONE)
}

// Why words are no options.
#[tactic(auto, unfolding(crate::specs::Output::option_text))]
fn option_row(error: &OptionError) -> Row<'_>
    ensures { flat_map piece_text result ≡ option_text error.now }
{
    match error {
        OptionError::UnknownOption { word } => refused("unknown ", Piece::Text(word.as_str())),
        OptionError::Repeated { word } => refused("repeated ", Piece::Text(word.as_str())),
        OptionError::NeedsValue { word } => refused("no value for ", Piece::Text(word.as_str())),
        OptionError::BadNumber { word } => refused("bad number for ", Piece::Text(word.as_str())),
        OptionError::BadLetter { place } => refused(
            "bad letter at ",
            Piece::Number(u128::from(*place)),
        ),
        OptionError::BadStrategy => refused_set("bad strategy"),
        OptionError::BadSnapshot { word } => refused(
            "bad snapshot for ",
            Piece::Text(word.as_str()),
        ),
        OptionError::BadPath { text } => refused("bad path ", Piece::Text(text.as_str())),
        OptionError::UpdateOverwrite => refused_set("-update with -overwrite"),
        OptionError::UpdateAtomic => refused_set("-update with -atomic"),
        OptionError::OverwriteAtomic => refused_set("-overwrite with -atomic"),
        OptionError::DeleteAlone => refused_set("-delete needs -update or -overwrite"),
        OptionError::AppendAlone => refused_set("-append needs -update"),
        OptionError::AppendSkipCrc => refused_set("-append with -skipcrccheck"),
        OptionError::DiffAlone => refused_set("-diff needs -update"),
        OptionError::RdiffAlone => refused_set("-rdiff needs -update"),
        OptionError::DiffRdiff => refused_set("-diff with -rdiff"),
        OptionError::DiffDelete => refused_set("-delete with a report"),
        OptionError::TmpAlone => refused_set("-tmp needs -atomic"),
        OptionError::DiffFilters => refused_set("-filters with a report"),
        OptionError::DiffFiles => refused_set("-f with a report"),
        OptionError::FilesWithSources => refused_set("-f with source paths"),
        OptionError::NoPaths => refused_set("no paths"),
        OptionError::OneSource => refused_set("a report needs one source"),
        OptionError::Memory => single("distcp: no memory"),
    }
}

// The line of a file that is refused.
fn numbered(text: &str, line: u32) -> Row<'_>
    ensures { flat_map piece_text result ≡ text.now ++ decimal line }
{
    pair(text, Piece::Number(u128::from(line)))
}

// All steps are done but for so many items.
fn without(paths: &List<Path>) -> Row<'_>
    ensures { flat_map piece_text result ≡ codes "committed without " ++ decimal (length paths.now) }
{
    pair("committed without ", Piece::Number(paths.len() as u128))
}

// A text and the text of a path.
fn located<'a>(text: &'a str, path: &'a Path) -> Row<'a>
    ensures { flat_map piece_text result ≡ text.now ++ text_of path.now }
{
    pair(text, Piece::Path(path))
}

// A text and the text of a path under the target.
fn below<'a>(text: &'a str, path: &'a Path) -> Row<'a>
    ensures { flat_map piece_text result ≡ text.now ++ dotted_of path.now }
{
    pair(text, Piece::Below(path))
}

// Two listed items have one path under the target.
#[tactic(auto, unfolding(crate::specs::Output::outcome_text))]
fn duplicate<'a>(rel: &'a Path, first: &'a Path, second: &'a Path) -> Row<'a>
    ensures { flat_map piece_text result ≡ outcome_text (Duplicate rel.now first.now second.now) }
{
    [
        Piece::Text("distcp: duplicate "),
        Piece::Below(rel),
        Piece::Text(" from "),
        Piece::Path(first),
        Piece::Text(" and "),
        Piece::Path(second),
    ]
}

// A path passes the limits.
#[tactic(auto, unfolding(crate::specs::Output::outcome_text))]
fn too_long<'a>(parent: &'a Path, name: &'a Name) -> Row<'a>
    ensures { flat_map piece_text result ≡ outcome_text (TooLong parent.now name.now) }
{
    [
        Piece::Text("distcp: path too long: "),
        Piece::Text(name.as_str()),
        Piece::Text(" in "),
        Piece::Path(parent),
        NONE,
        NONE,
    ]
}

// What is wrong with the target.
fn bad_target<'a>(kind: BadTarget) -> Row<'a>
    ensures { flat_map piece_text result ≡ target_text kind }
{
    match kind {
        BadTarget::InSnapshot => single("distcp: bad target: in a snapshot"),
        BadTarget::UnderFile => single("distcp: bad target: under a file"),
        BadTarget::ManyOntoFile => single("distcp: bad target: several sources onto a file"),
        BadTarget::DirOntoFile => single("distcp: bad target: a directory onto a file"),
        BadTarget::AtomicExists => single("distcp: bad target: exists under -atomic"),
        BadTarget::NoTmp => single("distcp: bad target: no folder for -tmp"),
        BadTarget::TmpInside => single("distcp: bad target: work path and target overlap"),
    }
}

// What there is too much of.
fn too_many<'a>(what: TooManyOf) -> Row<'a>
    ensures { flat_map piece_text result ≡ many_text what }
{
    match what {
        TooManyOf::Items => single("distcp: too many items"),
        TooManyOf::Pieces => single("distcp: too many pieces"),
        TooManyOf::Missing => single("distcp: too many target paths"),
    }
}

// The words for a part of a run.
fn phase_words(phase: Phase) -> &'static str
    ensures { result.now ≡ phase_text phase }
{
    match phase {
        Phase::Check => "check",
        Phase::Replay => "replay",
        Phase::Decide => "decide",
        Phase::Copy => "copy",
        Phase::Dirs => "dirs",
        Phase::Land => "land",
        Phase::Sweep => "sweep",
        Phase::FileAttrs => "file attributes",
        Phase::Delete => "delete",
        Phase::DirAttrs => "directory attributes",
        Phase::Move => "move",
    }
}

// The target failed in a part of a run.
#[tactic(auto, unfolding(crate::specs::Output::outcome_text))]
fn target_fault<'a>(phase: Phase, done: u64) -> Row<'a>
    ensures { flat_map piece_text result ≡ outcome_text (TargetFault phase done) }
{
    [
        Piece::Text("distcp: target fault in "),
        Piece::Text(phase_words(phase)),
        Piece::Text(" after "),
        Piece::Number(u128::from(done)),
        NONE,
        NONE,
    ]
}

// What was read and what was written differ.
#[tactic(auto, unfolding(crate::specs::Output::outcome_text))]
fn differs<'a>(path: &'a Path, expected: &'a [u8; 16], found: &'a [u8; 16]) -> Row<'a>
    ensures { flat_map piece_text result ≡ outcome_text (Differs path.now expected.now found.now) }
{
    [
        Piece::Text("distcp: differs "),
        Piece::Below(path),
        Piece::Text(" "),
        Piece::Digest(expected),
        Piece::Text(" "),
        Piece::Digest(found),
    ]
}

/// How a run ended.
#[tactic(auto, unfolding(crate::specs::Output::outcome_text))]
pub(crate) fn outcome_row(outcome: &Outcome) -> Row<'_>
    ensures { flat_map piece_text result ≡ outcome_text outcome.now }
{
    match outcome {
        Outcome::Committed => single("committed"),
        Outcome::CommittedWithout { paths } => without(paths),
        Outcome::BadOption { error } => option_row(error),
        Outcome::NoFile { path } => located("distcp: no file ", path),
        Outcome::TooBig { path } => located("distcp: file too big ", path),
        Outcome::BadList { line } => numbered("distcp: bad list in line ", *line),
        Outcome::BadPattern { line } => numbered("distcp: bad pattern in line ", *line),
        Outcome::BigPattern { line } => numbered("distcp: pattern too big in line ", *line),
        Outcome::BadPlan { line } => numbered("distcp: bad kill plan in line ", *line),
        Outcome::BadReport { line } => numbered("distcp: bad report in line ", *line),
        Outcome::NoReport { path } => located("distcp: no report ", path),
        Outcome::NoSource { path } => located("distcp: no source ", path),
        Outcome::BadTarget { kind } => bad_target(*kind),
        Outcome::Duplicate { rel, first, second } => duplicate(rel, first, second),
        Outcome::TooMany { what } => too_many(*what),
        Outcome::TooLong { parent, name } => too_long(parent, name),
        Outcome::Clash { path } => below("distcp: clash at ", path),
        Outcome::NotAtBegin { path } => below("distcp: target changed at ", path),
        Outcome::StageExists { path } => located("distcp: stage exists ", path),
        Outcome::ReportFalse { path } => below("distcp: report is false at ", path),
        Outcome::WorkExists { path } => located("distcp: work path exists ", path),
        Outcome::SourceFault => single("distcp: source fault"),
        Outcome::TargetFault { phase, done } => target_fault(*phase, *done),
        Outcome::CopyFailed { path } => below("distcp: copy failed ", path),
        Outcome::Differs {
            path,
            expected,
            found,
        } => differs(path, expected, found),
        Outcome::Changed { path } => located("distcp: store changed at ", path),
        Outcome::Uncertain { path } => located("distcp: uncertain ", path),
        Outcome::Memory => single("distcp: no memory"),
        Outcome::Unbuilt => single("distcp: not built yet"),
    }
}
