//! The lines of paths and attributes, worked out by hand, with ample memory.
#![tactic(auto)]

use dc_attrs::{Attrs, AttrsError, Field, LineError, Xattr};
use dc_path::{List, OutOfMemory, Path, PathError, Text};
use std::alloc::Global;
use std::test::Fail;

// The line of `/a b` with replication 2, block size 8, user etl, group ops, mode octal 640 and `user.k` = v.
const LINE: &str = "=\t/a%20b\t2\t8\tetl\tops\t0640\t\tuser.k=v\t0";

// Why a line is read as nothing; none where it is read.
fn refused(alloc: Global, line: &str) -> Option<LineError> {
    Attrs::read_line(alloc, line).err()
}

// The one extended attribute `user.k` = v.
fn one_xattr(alloc: Global) -> Result<List<Xattr>, OutOfMemory> {
    let name = Text::read(alloc, "user.k")?;
    let value = Text::read(alloc, "v")?;
    let mut xattrs = List::new(alloc);
    xattrs.push(Xattr { name, value }).map_err(|_| OutOfMemory)?;
    Ok(xattrs)
}

// Attributes with these values, user etl and group ops.
fn attrs_with(
    alloc: Global,
    replication: u16,
    mode: u16,
) -> Result<Result<Attrs, AttrsError>, OutOfMemory> {
    let user = Text::read(alloc, "etl")?;
    let group = Text::read(alloc, "ops")?;
    let xattrs = one_xattr(alloc)?;
    Ok(Attrs::new(
        replication,
        8,
        user,
        group,
        mode,
        Text::new(alloc),
        xattrs,
        0,
    ))
}

// The field that is named for these values.
fn bad_field(alloc: Global, replication: u16, mode: u16) -> Result<Option<Field>, OutOfMemory> {
    match attrs_with(alloc, replication, mode)? {
        Ok(_) => Ok(None),
        Err(AttrsError::Bad { field }) => Ok(Some(field)),
    }
}

// Whether the attributes of the line are written as it, with this path.
fn is_written(alloc: Global, path: &Path) -> Result<bool, OutOfMemory> {
    match attrs_with(alloc, 2, 0o640)? {
        Ok(attrs) => Ok(attrs.write_line(alloc, path)?.as_str() == LINE),
        Err(_) => Ok(false),
    }
}

fn line_is_written(alloc: Global) -> Result<bool, PathError> {
    let path = Path::read(alloc, "/a b")?;
    Ok(is_written(alloc, &path)?)
}

// Whether a line is read, and written again as it is.
fn reads_and_writes(alloc: Global, line: &str) -> Result<bool, LineError> {
    let (path, attrs) = Attrs::read_line(alloc, line)?;
    Ok(attrs.write_line(alloc, &path)?.as_str() == line)
}

// Whether attributes have what the line says of numbers.
fn has_numbers(attrs: &Attrs) -> bool {
    attrs.replication() == 2
        && attrs.block_size() == 8
        && attrs.mode() == 0o640
        && attrs.mtime() == 0
}

// Whether attributes have what the line says in texts.
fn has_texts(attrs: &Attrs) -> bool {
    attrs.user() == "etl" && attrs.group() == "ops" && attrs.acl() == ""
}

// Whether the one extended attribute is `user.k` = v.
fn has_xattr(attrs: &Attrs) -> bool {
    match attrs.xattrs() {
        [xattr] => xattr.name.as_str() == "user.k" && xattr.value.as_str() == "v",
        _ => false,
    }
}

fn line_is_read(alloc: Global) -> Result<bool, LineError> {
    let (path, attrs) = Attrs::read_line(alloc, LINE)?;
    let text = path.text(alloc)?;
    Ok(text.as_str() == "/a b" && has_numbers(&attrs) && has_texts(&attrs) && has_xattr(&attrs))
}

#[test]
fn a_line_is_read_and_written(rt: HostRuntime) -> Result<(), Fail> {
    assert_eq!(rt; line_is_written(rt.alloc()), Ok(true));
    assert_eq!(rt; line_is_read(rt.alloc()), Ok(true));
    assert_eq!(rt; reads_and_writes(rt.alloc(), LINE), Ok(true));
    Ok(())
}

#[test]
fn many_spellings_are_read_and_written(rt: HostRuntime) -> Result<(), Fail> {
    assert_eq!(rt;
        reads_and_writes(rt.alloc(), "=\t/\t0\t0\t\t\t0000\t\t\t18446744073709551615"),
        Ok(true)
    );
    assert_eq!(rt;
        reads_and_writes(
            rt.alloc(),
            "=\t/ä%09%25\t32767\t1099511627776\t%00\t%2C\t1777\t%3D%7F\ta=,b=%3D\t1"
        ),
        Ok(true)
    );
    Ok(())
}

#[test]
fn other_spellings_are_bad(rt: HostRuntime) -> Result<(), Fail> {
    let bad = Some(LineError::Bad);
    assert_eq!(rt; refused(rt.alloc(), "="), bad);
    assert_eq!(rt; refused(rt.alloc(), ""), bad);
    assert_eq!(rt;
        refused(rt.alloc(), "=\t/a%2cb\t2\t8\tetl\tops\t0640\t\tuser.k=v\t0"),
        bad
    );
    assert_eq!(rt;
        refused(rt.alloc(), "=\t/%61\t2\t8\tetl\tops\t0640\t\tuser.k=v\t0"),
        bad
    );
    assert_eq!(rt;
        refused(rt.alloc(), "=\t/a\t2\t8\tetl\tops\t640\t\tuser.k=v\t0"),
        bad
    );
    assert_eq!(rt;
        refused(rt.alloc(), "=\t/a\t02\t8\tetl\tops\t0640\t\tuser.k=v\t0"),
        bad
    );
    assert_eq!(rt;
        refused(rt.alloc(), "=\t/a/\t2\t8\tetl\tops\t0640\t\tuser.k=v\t0"),
        bad
    );
    assert_eq!(rt;
        refused(rt.alloc(), "=\t/a b\t2\t8\tetl\tops\t0640\t\tuser.k=v\t0"),
        bad
    );
    Ok(())
}

#[test]
fn more_spellings_are_bad(rt: HostRuntime) -> Result<(), Fail> {
    let bad = Some(LineError::Bad);
    assert_eq!(rt;
        refused(rt.alloc(), "=\t/a\t2\t8\tetl\tops\t0640\t\tuser.k\t0"),
        bad
    );
    assert_eq!(rt;
        refused(rt.alloc(), "=\t/a\t2\t8\tetl\tops\t0640\t\tk=v,\t0"),
        bad
    );
    assert_eq!(rt;
        refused(rt.alloc(), "=\t/a\t2\t8\tetl\tops\t0640\t\t=v\t0"),
        bad
    );
    assert_eq!(rt;
        refused(rt.alloc(), "+\t/a\t2\t8\tetl\tops\t0640\t\tk=v\t0"),
        bad
    );
    assert_eq!(rt;
        refused(rt.alloc(), "=\t/a\t2\t8\tetl\tops\t0640\t\tk=v\t0\t"),
        bad
    );
    assert_eq!(rt;
        refused(rt.alloc(), "=\t/a\t2\t8\t%FF\tops\t0640\t\tk=v\t0"),
        bad
    );
    assert_eq!(rt;
        refused(rt.alloc(), "=\t/a\t2\t8\tetl\tops\t0840\t\tk=v\t0"),
        bad
    );
    Ok(())
}

#[test]
fn what_passes_a_limit_is_bad(rt: HostRuntime) -> Result<(), Fail> {
    let bad = Some(LineError::Bad);
    assert_eq!(rt;
        refused(rt.alloc(), "=\t/a\t32768\t8\tetl\tops\t0640\t\tk=v\t0"),
        bad
    );
    assert_eq!(rt;
        refused(rt.alloc(), "=\t/a\t2\t8\tetl\tops\t2000\t\tk=v\t0"),
        bad
    );
    assert_eq!(rt;
        refused(rt.alloc(), "=\t/a\t2\t8\tetl\tops\t0640\t\tk=v,k=w\t0"),
        bad
    );
    assert_eq!(rt;
        refused(
            rt.alloc(),
            "=\t/a\t2\t8\tetl\tops\t0640\t\tk=v\t18446744073709551616"
        ),
        bad
    );
    Ok(())
}

#[test]
fn the_first_bad_field_is_named(rt: HostRuntime) -> Result<(), Fail> {
    assert_eq!(rt; bad_field(rt.alloc(), 2, 0o640), Ok(None));
    assert_eq!(rt;
        bad_field(rt.alloc(), 32_768, 0o2000),
        Ok(Some(Field::Replication))
    );
    assert_eq!(rt; bad_field(rt.alloc(), 2, 0o2000), Ok(Some(Field::Mode)));
    Ok(())
}
