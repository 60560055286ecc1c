//! Extended attributes in a line: a name, `=` and a value each, with a comma between two.
#![tactic(auto)]

ghost use Rattle.std.specs.Prelude.{◌≡◌, ◌++◌, ◌∷◌, ◌==◌, ◌<◌, map, IfOk, OnOk, string_bytes};
ghost use Rattle.std.specs.List.{slice_split, flat_map};
ghost use Rattle.dc_attrs.specs.Lines.{pair_of, pairs_of};
ghost use Rattle.dc_attrs.specs.Spelling.{ReadsBack};

use crate::escapes::{read_escaped, write_escaped};
use crate::{LineError, Xattr};
use dc_path::{List, OutOfMemory};
use std::alloc::{AllocError, Global};

/// The parts between separators.
pub fn parts(alloc: Global, text: &str, separator: char) -> Result<Vec<&str>, AllocError>
    requires { separator < 128 }
    ensures { IfOk result (λ parts. map (λ part. part.now) parts.items ≡ slice_split (λ byte. byte == separator) text.now) }
{
    text.split(separator).collect(alloc)
}

// Adds a name, `=` and a value.
fn write_pair(xattr: &Xattr, line: &mut String) -> Result<(), OutOfMemory>
    ensures { OnOk result (string_bytes line.new ≡ string_bytes line.old ++ pair_of xattr.now) }
{
    write_escaped(xattr.name.as_str(), line)?;
    line.push_str("=")?;
    write_escaped(xattr.value.as_str(), line)
}

// Adds extended attributes, each behind a comma.
fn write_more(xattrs: &[Xattr], line: &mut String) -> Result<(), OutOfMemory>
    ensures { OnOk result (string_bytes line.new ≡ string_bytes line.old ++ flat_map (λ x. 44 ∷ pair_of x) xattrs.now) }
{
    for xattr in xattrs {
        line.push_str(",")?;
        write_pair(xattr, line)?;
    }
    Ok(())
}

/// Adds extended attributes, with a comma between two.
pub fn write_pairs(xattrs: &[Xattr], line: &mut String) -> Result<(), OutOfMemory>
    ensures { OnOk result (string_bytes line.new ≡ string_bytes line.old ++ pairs_of xattrs.now) }
{
    let [first, rest @ ..] = xattrs else {
        return Ok(());
    };
    write_pair(first, line)?;
    write_more(rest, line)?;
    Ok(())
}

// The extended attribute that is spelled like this.
fn read_pair(alloc: Global, part: &str) -> Result<Xattr, LineError>
    ensures { ReadsBack (λ xattr. pair_of xattr ≡ part.now) result }
{
    let Some((name, value)) = part.split_once('=') else {
        return Err(LineError::Bad);
    };
    let name = read_escaped(alloc, name)?;
    let value = read_escaped(alloc, value)?;
    Ok(Xattr { name, value })
}

// The extended attributes that are spelled by these parts.
fn read_parts(alloc: Global, parts: &[&str]) -> Result<List<Xattr>, LineError>
    ensures { ReadsBack (λ xattrs. map pair_of xattrs ≡ map (λ part. part.now) parts.now) result }
{
    let mut xattrs = List::new(alloc);
    for part in parts {
        let xattr = read_pair(alloc, part)?;
        xattrs.push(xattr).map_err(|_| LineError::Memory)?;
    }
    Ok(xattrs)
}

/// The extended attributes that are spelled like this, if any are.
pub fn read_pairs(alloc: Global, field: &str) -> Result<List<Xattr>, LineError>
    ensures { ReadsBack (λ xattrs. pairs_of xattrs ≡ field.now) result }
{
    if field.is_empty() {
        return Ok(List::new(alloc));
    }
    let parts = parts(alloc, field, ',')?;
    read_parts(alloc, parts.as_slice())
}
