//! Snapshot reports read and written, worked out by hand, with ample memory.
#![tactic(auto)]

use dc_path::{Name, OutOfMemory, Path, PathError, Text};
use dc_report::{Entry, Report, ReportError, WriteReportError, write_entries};
use std::alloc::{AllocError, Global};
use std::test::Fail;

// The first line of each text below.
const HEADING: &str = "Difference between snapshot s1 and snapshot s2 under directory /src:";

// Adds a path, as one from a directory on.
fn show_path(alloc: Global, path: &Path, shown: &mut String) -> Result<(), OutOfMemory> {
    shown.push_str(path.dotted(alloc)?.as_str())?;
    Ok(())
}

// Adds an entry, in brackets.
fn show_entry(alloc: Global, entry: &Entry, shown: &mut String) -> Result<(), OutOfMemory> {
    match entry {
        Entry::Created(path) => {
            shown.push_str("[created ")?;
            show_path(alloc, path, shown)?;
        }
        Entry::Deleted(path) => {
            shown.push_str("[deleted ")?;
            show_path(alloc, path, shown)?;
        }
        Entry::Modified(path) => {
            shown.push_str("[modified ")?;
            show_path(alloc, path, shown)?;
        }
        Entry::Renamed { from, to } => {
            shown.push_str("[renamed ")?;
            show_path(alloc, from, shown)?;
            shown.push_str(" to ")?;
            show_path(alloc, to, shown)?;
        }
    }
    shown.push_str("]")?;
    Ok(())
}

// All entries, in order.
fn show(alloc: Global, report: &Report) -> Result<String, OutOfMemory> {
    let mut shown = String::new(alloc);
    for entry in report.entries().as_slice() {
        show_entry(alloc, entry, &mut shown)?;
    }
    Ok(shown)
}

// The report of the lines behind the heading.
pub(crate) fn report_of(alloc: Global, lines: &str) -> Result<Report, ReportError> {
    let text = format!(in alloc; "{HEADING}\n{lines}").map_err(OutOfMemory::from)?;
    Report::read(alloc, text.as_bytes())
}

// What the lines behind the heading tell.
fn told(alloc: Global, lines: &str) -> Result<String, ReportError> {
    let report = report_of(alloc, lines)?;
    Ok(show(alloc, &report)?)
}

// Why the lines behind the heading are no report.
fn refusal(alloc: Global, lines: &str) -> Option<ReportError> {
    told(alloc, lines).err()
}

// Whether the lines behind the heading tell this.
fn tells(alloc: Global, lines: &str, shown: &str) -> bool {
    match told(alloc, lines) {
        Ok(text) => text.as_str() == shown,
        Err(_) => false,
    }
}

#[test]
fn each_line_tells_an_entry(rt: HostRuntime) -> Result<(), Fail> {
    let table = [
        ("", ""),
        ("\n", ""),
        ("\n\n\n", ""),
        ("+\t./a\n", "[created ./a]"),
        ("+\t./a", "[created ./a]"),
        ("+\t./a\n\n\n", "[created ./a]"),
        ("-\t./a/b\n", "[deleted ./a/b]"),
        ("M\t.\n", "[modified .]"),
        ("M\t./a\nM\t.\n", "[modified ./a][modified .]"),
        ("R\t./a -> ./b\n", "[renamed ./a to ./b]"),
        ("R\t./a -> ./a\n", "[renamed ./a to ./a]"),
        (
            "+\t./a\n-\t./a\nM\t./a\nR\t./b -> ./a\n",
            "[created ./a][deleted ./a][modified ./a][renamed ./b to ./a]",
        ),
    ];
    for (lines, shown) in table.iter() {
        assert!(rt; tells(rt.alloc(), lines, shown));
    }
    Ok(())
}

#[test]
fn names_stand_for_themselves(rt: HostRuntime) -> Result<(), Fail> {
    let table = [
        ("+\t./a%20b\n", "[created ./a%20b]"),
        ("+\t./a\\b\n", "[created ./a\\b]"),
        ("+\t./a b\n", "[created ./a b]"),
        ("+\t./ü/日\n", "[created ./ü/日]"),
        ("+\t./.distcp.stage/a\n", "[created ./.distcp.stage/a]"),
        ("+\t./a->b\n", "[created ./a->b]"),
        ("+\t./a\r\n", "[created ./a\r]"),
        ("R\t./a -> -> ./b\n", "[renamed ./a -> to ./b]"),
        ("R\t./a  -> ./b\n", "[renamed ./a  to ./b]"),
        ("R\t./a -> ./-> b\n", "[renamed ./a to ./-> b]"),
        ("R\t./.snapshots -> ./b\n", "[renamed ./.snapshots to ./b]"),
    ];
    for (lines, shown) in table.iter() {
        assert!(rt; tells(rt.alloc(), lines, shown));
    }
    Ok(())
}

#[test]
fn other_lines_are_bad(rt: HostRuntime) -> Result<(), Fail> {
    let table = [
        "X\t./a",
        "+./a",
        "+ ./a",
        "+",
        "+\t",
        " +\t./a",
        "+\t.",
        "-\t.",
        "R\t. -> ./a",
        "R\t./a -> .",
        "R\t./a",
        "R\t./a ->./b",
        "R\t./a -> ./b -> ./c",
        "+\t./a -> ./b",
        "+\ta",
        "+\t/a",
        "+\t..",
        "+\t./",
        "+\t./a/",
        "+\t./a//b",
        "+\t./a/../b",
        "+\t././a",
        "+\t./.snapshot",
        "M\t./a/.snapshot/b",
        "+\t./a\tb",
        "+\t./a -> b",
        "\n+\t./a",
    ];
    for lines in table.iter() {
        assert_eq!(rt;
            refusal(rt.alloc(), lines),
            Some(ReportError::BadLine { line: 2 })
        );
    }
    Ok(())
}

#[test]
fn a_path_is_told_once(rt: HostRuntime) -> Result<(), Fail> {
    let table = [
        ("+\t./a\n+\t./a\n", ReportError::DoubleLine { line: 3 }),
        ("M\t.\n+\t./a\nM\t.\n", ReportError::DoubleLine { line: 4 }),
        ("-\t./a\n-\t./a\n", ReportError::DoubleSource { line: 3 }),
        (
            "-\t./a\nR\t./a -> ./b\n",
            ReportError::DoubleSource { line: 3 },
        ),
        (
            "R\t./a -> ./b\n-\t./a\n",
            ReportError::DoubleSource { line: 3 },
        ),
        (
            "R\t./a -> ./b\nR\t./a -> ./b\n",
            ReportError::DoubleSource { line: 3 },
        ),
        (
            "R\t./a -> ./c\nR\t./b -> ./c\n",
            ReportError::DoubleTarget { line: 3 },
        ),
    ];
    for (lines, fault) in table.iter() {
        assert_eq!(rt; refusal(rt.alloc(), lines), Some(*fault));
    }
    Ok(())
}

#[test]
fn the_first_line_with_a_fault_decides(rt: HostRuntime) -> Result<(), Fail> {
    assert_eq!(rt;
        refusal(rt.alloc(), "+\t./a\nX\n+\t./a\n"),
        Some(ReportError::BadLine { line: 3 })
    );
    assert_eq!(rt;
        refusal(rt.alloc(), "+\t./a\n+\t./a\nX\n"),
        Some(ReportError::DoubleLine { line: 3 })
    );
    assert_eq!(rt;
        refusal(rt.alloc(), "+\t./a\n\n+\t./a\n"),
        Some(ReportError::BadLine { line: 3 })
    );
    Ok(())
}

// Why these bytes are no report.
fn fault_of(alloc: Global, text: &[u8]) -> Option<ReportError> {
    Report::read(alloc, text).err()
}

#[test]
fn the_first_line_is_a_heading(rt: HostRuntime) -> Result<(), Fail> {
    let bad = Some(ReportError::BadHead);
    assert_eq!(rt; fault_of(rt.alloc(), b"".as_slice()), bad);
    assert_eq!(rt; fault_of(rt.alloc(), b"\nM\t.\n".as_slice()), bad);
    assert_eq!(rt; fault_of(rt.alloc(), b"M\t.\n".as_slice()), bad);
    assert_eq!(rt;
        fault_of(rt.alloc(), b"Difference between a and b".as_slice()),
        bad
    );
    assert_eq!(rt;
        fault_of(rt.alloc(), b"Difference between \xff:".as_slice()),
        bad
    );
    assert_eq!(rt;
        fault_of(rt.alloc(), b"Difference between :".as_slice()),
        None
    );
    assert_eq!(rt;
        fault_of(rt.alloc(), b"Difference between :\n+\t./\xff\n".as_slice()),
        Some(ReportError::BadLine { line: 2 })
    );
    Ok(())
}

// A text, and another behind it so many times.
pub(crate) fn repeated(
    alloc: Global,
    start: &str,
    more: &str,
    times: u32,
) -> Result<String, AllocError> {
    let mut text = String::from_str(alloc, start)?;
    for _ in 0..times {
        text.push_str(more)?;
    }
    Ok(text)
}

#[test]
fn a_path_has_256_names(rt: HostRuntime) -> Result<(), Fail> {
    let full = repeated(rt.alloc(), "+\t.", "/x", 256)?;
    assert_eq!(rt; refusal(rt.alloc(), full.as_str()), None);
    let deep = repeated(rt.alloc(), "+\t.", "/x", 257)?;
    assert_eq!(rt;
        refusal(rt.alloc(), deep.as_str()),
        Some(ReportError::BadLine { line: 2 })
    );
    Ok(())
}

// Whether a report of these lines is written as they are.
fn is_written_back(alloc: Global, lines: &str) -> Result<bool, ReportError> {
    let report = report_of(alloc, lines)?;
    let text = format!(in alloc; "{HEADING}\n{lines}").map_err(OutOfMemory::from)?;
    let heading = Text::read(alloc, HEADING)?;
    match report.write(alloc, &heading) {
        Ok(written) => Ok(written.as_str() == text.as_str()),
        Err(_) => Ok(false),
    }
}

#[test]
fn a_report_is_written_as_it_was_read(rt: HostRuntime) -> Result<(), Fail> {
    let table = [
        "",
        "M\t.\n",
        "M\t.\nR\t./a -> ./b\nR\t./b -> ./a\n-\t./d\nR\t./d/k -> ./k\n",
        "+\t./new\nR\t./f -> ./new/f\nM\t./f\nR\t./p -> ./q\n+\t./p/c\n",
        "R\t./a -> -> ./b\n",
    ];
    for lines in table.iter() {
        assert_eq!(rt; is_written_back(rt.alloc(), lines), Ok(true));
    }
    Ok(())
}

// Whether a report of no entries has no text with this heading.
fn is_no_heading(alloc: Global, heading: &str) -> Result<bool, ReportError> {
    let report = Report::read(alloc, HEADING.as_bytes())?;
    let heading = Text::read(alloc, heading)?;
    Ok(matches!(
        report.write(alloc, &heading),
        Err(WriteReportError::BadHead)
    ))
}

#[test]
fn a_heading_is_one_line(rt: HostRuntime) -> Result<(), Fail> {
    assert_eq!(rt;
        is_no_heading(rt.alloc(), "Difference between :"),
        Ok(false)
    );
    assert_eq!(rt; is_no_heading(rt.alloc(), ""), Ok(true));
    assert_eq!(rt;
        is_no_heading(rt.alloc(), "Difference between a\n:"),
        Ok(true)
    );
    Ok(())
}

// Whether an entry that creates a path of this one name is refused, with that path.
fn is_refused(alloc: Global, name: &str) -> Result<bool, PathError> {
    let name = Name::read(alloc, name)?;
    let path = Path::root(alloc).child(alloc, &name)?;
    let heading = Text::read(alloc, HEADING)?;
    let entries = [Entry::Created(path)];
    match write_entries(alloc, &heading, entries.as_slice()) {
        Err(WriteReportError::Ambiguous { path }) => {
            Ok(path.last().map(|last| last.as_str()) == Some(name.as_str()))
        }
        _ => Ok(false),
    }
}

#[test]
fn names_that_cannot_be_read_back_are_not_written(rt: HostRuntime) -> Result<(), Fail> {
    assert_eq!(rt; is_refused(rt.alloc(), "a\tb"), Ok(true));
    assert_eq!(rt; is_refused(rt.alloc(), "a\n"), Ok(true));
    assert_eq!(rt; is_refused(rt.alloc(), "a -> b"), Ok(true));
    assert_eq!(rt; is_refused(rt.alloc(), "a ->"), Ok(false));
    Ok(())
}
