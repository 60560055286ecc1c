//! Where reports lead paths, and by which moves, worked out by hand, with ample memory.
#![tactic(auto)]

use crate::reports::{repeated, report_of};
use dc_path::{List, Name, OutOfMemory, Path, PathError};
use dc_report::Move;
use std::alloc::Global;
use std::test::Fail;

// A report that renames below what it renames and deletes.
const CROSSED: &str = "R\t./a -> ./b/x\nR\t./b -> ./a\n-\t./a/y\nR\t./a/z -> ./b\n";

// Whether an answer is this path; no path where the text is empty.
fn is_path(alloc: Global, answer: Option<Path>, text: &str) -> Result<bool, PathError> {
    match answer {
        Some(path) => Ok(path.text(alloc)?.as_str() == text),
        None => Ok(text.is_empty()),
    }
}

// Whether a path goes there by the report of these lines.
fn goes(alloc: Global, lines: &str, path: &str, to: &str) -> Result<bool, PathError> {
    let Ok(report) = report_of(alloc, lines) else {
        return Ok(false);
    };
    let path = Path::read(alloc, path)?;
    is_path(alloc, report.moved(alloc, &path)?, to)
}

// Whether what is created at a path stands there by the report of these lines.
fn stands(alloc: Global, lines: &str, created: &str, at: &str) -> Result<bool, PathError> {
    let Ok(report) = report_of(alloc, lines) else {
        return Ok(false);
    };
    let created = Path::read(alloc, created)?;
    is_path(alloc, report.place(alloc, &created)?, at)
}

#[test]
fn the_longest_prefix_decides(rt: HostRuntime) -> Result<(), Fail> {
    let table = [
        ("/a/k", "/b/x/k"),
        ("/a", "/b/x"),
        ("/a/y", ""),
        ("/a/y/k/l", ""),
        ("/a/z", "/b"),
        ("/a/z/k", "/b/k"),
        ("/b", "/a"),
        ("/b/x", "/a/x"),
        ("/ab/y", "/ab/y"),
        ("/", "/"),
    ];
    for (path, to) in table.iter() {
        assert_eq!(rt; goes(rt.alloc(), CROSSED, path, to), Ok(true));
    }
    Ok(())
}

#[test]
fn what_is_created_goes_with_its_parent(rt: HostRuntime) -> Result<(), Fail> {
    let table = [
        ("/a/n", "/b/x/n"),
        ("/a/y", "/b/x/y"),
        ("/a/y/n", ""),
        ("/a/z/n", "/b/n"),
        ("/a", "/a"),
        ("/n", "/n"),
        ("/", ""),
    ];
    for (created, at) in table.iter() {
        assert_eq!(rt; stands(rt.alloc(), CROSSED, created, at), Ok(true));
    }
    Ok(())
}

#[test]
fn where_a_path_goes_has_256_names(rt: HostRuntime) -> Result<(), Fail> {
    let lines = repeated(rt.alloc(), "R\t./a -> .", "/x", 254)?;
    let full = repeated(rt.alloc(), "", "/x", 256)?;
    assert_eq!(rt;
        goes(rt.alloc(), lines.as_str(), "/a/x/x", full.as_str()),
        Ok(true)
    );
    assert_eq!(rt;
        stands(rt.alloc(), lines.as_str(), "/a/x/x", full.as_str()),
        Ok(true)
    );
    let deep = Err(PathError::TooDeep);
    assert_eq!(rt; goes(rt.alloc(), lines.as_str(), "/a/x/x/x", ""), deep);
    assert_eq!(rt; stands(rt.alloc(), lines.as_str(), "/a/x/x/x", ""), deep);
    Ok(())
}

#[test]
fn where_a_path_goes_has_4096_bytes(rt: HostRuntime) -> Result<(), Fail> {
    let name = repeated(rt.alloc(), "/", "x", 255)?;
    let lines = repeated(rt.alloc(), "R\t./a -> .", name.as_str(), 15)?;
    let rest = repeated(rt.alloc(), "/a/", "x", 255)?;
    let full = repeated(rt.alloc(), "", name.as_str(), 16)?;
    assert_eq!(rt;
        goes(rt.alloc(), lines.as_str(), rest.as_str(), full.as_str()),
        Ok(true)
    );
    assert_eq!(rt;
        stands(rt.alloc(), lines.as_str(), rest.as_str(), full.as_str()),
        Ok(true)
    );
    let long = repeated(rt.alloc(), rest.as_str(), "/x", 1)?;
    assert_eq!(rt;
        goes(rt.alloc(), lines.as_str(), long.as_str(), ""),
        Err(PathError::TooLong)
    );
    let deep = repeated(rt.alloc(), rest.as_str(), "/x", 241)?;
    assert_eq!(rt;
        stands(rt.alloc(), lines.as_str(), deep.as_str(), ""),
        Err(PathError::TooDeep)
    );
    Ok(())
}

// Whether an answer is the names of this path; none where the text is empty.
fn spells(alloc: Global, answer: &Option<List<Name>>, text: &str) -> Result<bool, OutOfMemory> {
    let Some(names) = answer else {
        return Ok(text.is_empty());
    };
    let mut shown = String::new(alloc);
    for name in names.as_slice() {
        shown.push_str("/")?;
        shown.push_str(name.as_str())?;
    }
    Ok(shown.as_str() == text)
}

// Whether the names of a path go to the one place, and what is created there stands at the other.
fn as_names(alloc: Global, lines: &str, path: &str, to: &str, at: &str) -> Result<bool, PathError> {
    let Ok(report) = report_of(alloc, lines) else {
        return Ok(false);
    };
    let path = Path::read(alloc, path)?;
    let moved = report.moved_names(alloc, path.names())?;
    if !spells(alloc, &moved, to)? {
        return Ok(false);
    }
    let placed = report.place_names(alloc, &path)?;
    Ok(spells(alloc, &placed, at)?)
}

#[test]
fn names_go_past_the_limits_of_a_path(rt: HostRuntime) -> Result<(), Fail> {
    let lines = repeated(rt.alloc(), "R\t./a -> .", "/x", 254)?;
    let far = repeated(rt.alloc(), "", "/x", 257)?;
    assert_eq!(rt;
        as_names(
            rt.alloc(),
            lines.as_str(),
            "/a/x/x/x",
            far.as_str(),
            far.as_str()
        ),
        Ok(true)
    );
    assert_eq!(rt;
        as_names(rt.alloc(), CROSSED, "/a/y", "", "/b/x/y"),
        Ok(true)
    );
    assert_eq!(rt;
        as_names(rt.alloc(), CROSSED, "/ab", "/ab", "/ab"),
        Ok(true)
    );
    Ok(())
}

// Adds a path.
fn add_path(alloc: Global, path: &Path, shown: &mut String) -> Result<(), PathError> {
    shown.push_str(path.text(alloc)?.as_str())?;
    Ok(())
}

// Adds a move: what is made behind `+`, what is removed behind `-`, with `>` between two paths.
fn add_move(alloc: Global, step: &Move, shown: &mut String) -> Result<(), PathError> {
    match step {
        Move::Make { path } => {
            shown.push_str(" +")?;
            add_path(alloc, path, shown)
        }
        Move::Shift { from, to } => {
            shown.push_str(" ")?;
            add_path(alloc, from, shown)?;
            shown.push_str(">")?;
            add_path(alloc, to, shown)
        }
        Move::Clear { path } => {
            shown.push_str(" -")?;
            add_path(alloc, path, shown)
        }
    }
}

// Whether moves are shown so.
fn are_shown(alloc: Global, steps: &[Move], moves: &str) -> Result<bool, PathError> {
    let mut shown = String::new(alloc);
    for step in steps {
        add_move(alloc, step, &mut shown)?;
    }
    Ok(shown.as_str() == moves)
}

// Whether the report of these lines has these moves below a base.
fn has_moves(alloc: Global, base: &str, lines: &str, moves: &str) -> Result<bool, PathError> {
    let Ok(report) = report_of(alloc, lines) else {
        return Ok(false);
    };
    let base = Path::read(alloc, base)?;
    let steps = report.moves(alloc, &base)?;
    are_shown(alloc, steps.as_slice(), moves)
}

// Whether the report of these lines has these moves below the root.
fn has_root_moves(alloc: Global, lines: &str, moves: &str) -> Result<bool, PathError> {
    let Ok(report) = report_of(alloc, lines) else {
        return Ok(false);
    };
    let steps = report.root_moves(alloc)?;
    are_shown(alloc, steps.as_slice(), moves)
}

#[test]
fn moves_are_told_without_a_base(rt: HostRuntime) -> Result<(), Fail> {
    let moves = " +/.distcp.stage /a>/.distcp.stage/0 /.distcp.stage/0>/b -/.distcp.stage";
    assert_eq!(rt;
        has_root_moves(rt.alloc(), "R\t./a -> ./b\n", moves),
        Ok(true)
    );
    assert_eq!(rt; has_root_moves(rt.alloc(), "+\t./a\n", ""), Ok(true));
    Ok(())
}

#[test]
fn items_go_through_the_stage(rt: HostRuntime) -> Result<(), Fail> {
    let crossed =
        " +/t/.distcp.stage /t/b>/t/.distcp.stage/0 /t/a/z>/t/.distcp.stage/1 /t/a/y>/t/.distcp.stage/2 /t/a>/t/.distcp.stage/3 /t/.distcp.stage/0>/t/a /t/.distcp.stage/1>/t/b /t/.distcp.stage/3>/t/b/x -/t/.distcp.stage";
    assert_eq!(rt; has_moves(rt.alloc(), "/t", CROSSED, crossed), Ok(true));
    let table = [
        ("+\t./a\nM\t./b\n", ""),
        (
            "-\t./a\n",
            " +/.distcp.stage /a>/.distcp.stage/0 -/.distcp.stage",
        ),
        (
            "M\t.\nR\t./a -> ./b\nR\t./b -> ./a\n-\t./d\nR\t./d/k -> ./k\n",
            " +/.distcp.stage /d/k>/.distcp.stage/0 /d>/.distcp.stage/1 /b>/.distcp.stage/2 /a>/.distcp.stage/3 /.distcp.stage/2>/a /.distcp.stage/3>/b /.distcp.stage/0>/k -/.distcp.stage",
        ),
        (
            "-\t./new\nR\t./new/f -> ./f\nM\t./new/f\nR\t./q -> ./p\n-\t./q/c\n",
            " +/.distcp.stage /q/c>/.distcp.stage/0 /q>/.distcp.stage/1 /new/f>/.distcp.stage/2 /new>/.distcp.stage/3 /.distcp.stage/2>/f /.distcp.stage/1>/p -/.distcp.stage",
        ),
    ];
    for (lines, moves) in table.iter() {
        assert_eq!(rt; has_moves(rt.alloc(), "/", lines, moves), Ok(true));
    }
    Ok(())
}

#[test]
fn parents_are_made_once(rt: HostRuntime) -> Result<(), Fail> {
    let table = [
        (
            "+\t./new\nR\t./f -> ./new/f\nM\t./f\nR\t./p -> ./q\n+\t./p/c\n",
            " +/.distcp.stage /p>/.distcp.stage/0 /f>/.distcp.stage/1 +/new /.distcp.stage/1>/new/f /.distcp.stage/0>/q -/.distcp.stage",
        ),
        (
            "+\t./new\nR\t./f -> ./new/f\nR\t./g -> ./new/g\n",
            " +/.distcp.stage /g>/.distcp.stage/0 /f>/.distcp.stage/1 +/new /.distcp.stage/1>/new/f /.distcp.stage/0>/new/g -/.distcp.stage",
        ),
        (
            "+\t./n\nR\t./f -> ./n/a/f\nR\t./g -> ./n/b/g\n",
            " +/.distcp.stage /g>/.distcp.stage/0 /f>/.distcp.stage/1 +/n +/n/a /.distcp.stage/1>/n/a/f +/n/b /.distcp.stage/0>/n/b/g -/.distcp.stage",
        ),
        (
            "R\t./a -> ./b\n+\t./a/c\nR\t./f -> ./b/c/f\n",
            " +/.distcp.stage /f>/.distcp.stage/0 /a>/.distcp.stage/1 /.distcp.stage/1>/b +/b/c /.distcp.stage/0>/b/c/f -/.distcp.stage",
        ),
    ];
    for (lines, moves) in table.iter() {
        assert_eq!(rt; has_moves(rt.alloc(), "/", lines, moves), Ok(true));
    }
    Ok(())
}

#[test]
fn the_first_path_outside_the_limits_decides(rt: HostRuntime) -> Result<(), Fail> {
    let deep = repeated(rt.alloc(), "", "/x", 256)?;
    assert_eq!(rt;
        has_moves(rt.alloc(), deep.as_str(), "-\t./a\n", ""),
        Err(PathError::TooDeep)
    );
    assert_eq!(rt;
        has_moves(rt.alloc(), deep.as_str(), "+\t./a\n", ""),
        Ok(true)
    );
    let base = repeated(rt.alloc(), "", "/xxxxxxxxxxxxxxx", 255)?;
    assert_eq!(rt;
        has_moves(rt.alloc(), base.as_str(), "-\t./a\n", ""),
        Err(PathError::TooDeep)
    );
    assert_eq!(rt;
        has_moves(rt.alloc(), base.as_str(), "-\t./xxxxxxxxxxxxxxxx\n", ""),
        Err(PathError::TooLong)
    );
    Ok(())
}
