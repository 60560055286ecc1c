//! Patterns that exclude paths, worked out by hand, with ample memory.
#![tactic(auto)]

use dc_filter::{BuildError, Filter, FilterError, Patterns, RegexPatterns};
use dc_path::Path;
use std::alloc::{AllocError, Global};
use std::test::Fail;

// How building a line ends.
fn built(alloc: Global, line: &str) -> Option<BuildError> {
    RegexPatterns::new(None).build(alloc, line).err()
}

// How reading a file ends, where builds from this number on are refused for size.
fn ends(alloc: Global, text: &[u8], refuse_at: Option<u64>) -> Option<FilterError> {
    let mut patterns = RegexPatterns::new(refuse_at);
    Filter::read(alloc, text, &mut patterns).err()
}

// Whether the lines of a file exclude a path.
fn excludes(alloc: Global, text: &str, path: &str) -> Result<bool, Fail> {
    let filter = Filter::read(alloc, text.as_bytes(), &mut RegexPatterns::new(None))?;
    let path = Path::read(alloc, path)?;
    Ok(filter.excludes(alloc, &path)?)
}

// So many groups, one in the other.
fn nested(alloc: Global, depth: usize) -> Result<String, AllocError> {
    let mut line = "(".repeat(alloc, depth)?;
    line.push_str("a")?;
    line.push_str(")".repeat(alloc, depth)?.as_str())?;
    Ok(line)
}

#[test]
fn a_pattern_keeps_its_line_and_matches(rt: HostRuntime) -> Result<(), Fail> {
    let pattern = RegexPatterns::new(None).build(rt.alloc(), ".*\\.tmp")?;
    assert_eq!(rt; pattern.line(), ".*\\.tmp");
    let mut search = pattern.search(rt.alloc())?;
    assert!(rt; search.is_in("/s/a.tmp/x"));
    assert!(rt; !search.is_in("/s/a"));
    Ok(())
}

#[test]
fn a_path_is_excluded_where_a_line_matches_all_of_it(rt: HostRuntime) -> Result<(), Fail> {
    for (text, path, out) in [
        (".*\\.tmp", "/s/a.tmp", true),
        (".*\\.tmp", "/s/a.tmp/x", false),
        (".*/_temporary", "/s/_temporary", true),
        (".*/_temporary", "/s/_temporary/x", false),
        ("/", "/", true),
        ("a", "/s/a", false),
        ("/s/a|/s/b", "/s/b", true),
        ("/s/a|/s/b", "/s/bc", false),
        ("/s/a", "/s/a\n", false),
        ("/s/a.b", "/s/a\nb", false),
        ("(?s)/s/a.b", "/s/a\nb", true),
        ("/s/a\\nb", "/s/a\nb", true),
        ("/s/.", "/s/\u{e9}", true),
        ("/s/.", "/s/\u{1f600}", true),
        ("/s/..", "/s/\u{1f600}", false),
    ] {
        assert_eq!(rt; excludes(rt.alloc(), text, path)?, out, "{text} at {path}");
    }
    Ok(())
}

#[test]
fn each_line_is_a_pattern(rt: HostRuntime) -> Result<(), Fail> {
    for (text, path, out) in [
        ("", "/", false),
        ("\n", "/", false),
        ("/a\n/b", "/a", true),
        ("/a\n/b", "/b", true),
        ("/a\n/b\n", "/b", true),
        ("/a\n\n/b\n", "/b", true),
        ("/a\r\n", "/a", false),
        ("/a\r\n", "/a\r", true),
    ] {
        assert_eq!(rt; excludes(rt.alloc(), text, path)?, out, "{text} at {path}");
    }
    Ok(())
}

#[test]
fn the_first_line_that_is_refused_is_named(rt: HostRuntime) -> Result<(), Fail> {
    for (text, line) in [
        (b"(".as_slice(), 1),
        (b")|(".as_slice(), 1),
        (b"(?x) a #".as_slice(), 1),
        (b"a\n\nb\n[\n(\n".as_slice(), 4),
        (b"a\nb\n\xff\n".as_slice(), 3),
    ] {
        assert_eq!(rt;
            ends(rt.alloc(), text, None),
            Some(FilterError::BadPattern { line })
        );
    }
    assert_eq!(rt; built(rt.alloc(), "(?x) a #"), None);
    Ok(())
}

#[test]
fn deep_lines_are_refused(rt: HostRuntime) -> Result<(), Fail> {
    for (depth, plain, line) in [
        (248, None, None),
        (249, None, Some(FilterError::BadPattern { line: 1 })),
        (250, None, Some(FilterError::BadPattern { line: 1 })),
        (
            251,
            Some(BuildError::Syntax),
            Some(FilterError::BadPattern { line: 1 }),
        ),
        (
            260,
            Some(BuildError::Syntax),
            Some(FilterError::BadPattern { line: 1 }),
        ),
    ] {
        let text = nested(rt.alloc(), depth)?;
        assert_eq!(rt; built(rt.alloc(), text.as_str()), plain, "{depth} groups");
        assert_eq!(rt;
            ends(rt.alloc(), text.as_bytes(), None),
            line,
            "{depth} groups"
        );
    }
    Ok(())
}

#[test]
fn a_refusal_for_size_names_its_line(rt: HostRuntime) -> Result<(), Fail> {
    for (refuse_at, line) in [
        (Some(0), Some(1)),
        (Some(1), Some(1)),
        (Some(2), Some(1)),
        (Some(3), Some(2)),
        (Some(4), Some(2)),
        (Some(5), None),
        (None, None),
    ] {
        assert_eq!(rt;
            ends(rt.alloc(), b"a\nb\n", refuse_at),
            line.map(|line| FilterError::BigPattern { line })
        );
    }
    assert_eq!(rt;
        ends(rt.alloc(), b"a\nb{1000000}", None),
        Some(FilterError::BigPattern { line: 2 })
    );
    Ok(())
}

#[test]
fn searches_are_asked_again(rt: HostRuntime) -> Result<(), Fail> {
    let mut patterns = RegexPatterns::new(None);
    let filter = Filter::read(rt.alloc(), b"/a\n/b", &mut patterns)?;
    let mut searches = filter.searches(rt.alloc())?;
    for (path, out) in [("/a", true), ("/c", false), ("/b", true), ("/", false)] {
        let path = Path::read(rt.alloc(), path)?;
        assert_eq!(rt; searches.excludes(rt.alloc(), &path)?, out);
    }
    Ok(())
}

#[test]
fn no_lines_exclude_nothing(rt: HostRuntime) -> Result<(), Fail> {
    let filter = Filter::none(rt.alloc());
    assert!(rt; !filter.excludes(rt.alloc(), &Path::root(rt.alloc()))?);
    Ok(())
}
