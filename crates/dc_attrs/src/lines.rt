//! The line of a path and its attributes.
#![tactic(auto)]

ghost use Rattle.std.specs.Prelude.{◌≡◌, ◌++◌, ◌∷◌, ◌+◌, ◌*◌, ◌%◌, ◌≤◌, ◌<◌, codes, decimal, map, IfOk, OnOk, Err, string_bytes};
ghost use Rattle.std.specs.List.{slice_split};
ghost use Rattle.dc_path.specs.Paths.{IsPath, text_of};
ghost use Rattle.dc_attrs.specs.Lines.{escaped, octal, fields_of, line_of, HasLine, IsNoLine};
ghost use Rattle.dc_attrs.specs.Spelling.{ReadsBack};
ghost use Rattle.dc_attrs.specs.declared.lines.LineError.TheVariants.{Bad, Memory};
ghost use Rattle.dc_path.specs.declared.path.PathError.TheVariants as path_error;

use crate::Attrs;
use crate::escapes::{read_escaped, write_escaped};
use crate::pairs::{parts, read_pairs, write_pairs};
use dc_path::{OutOfMemory, Path, PathError, Text, read_number};
use std::alloc::{AllocError, Global};

/// Why a line is read as no path and attributes.
#[derive(Clone, Copy, Debug, PartialEq, Eq)]
pub enum LineError {
    /// No path and no attributes within their limits have this line.
    Bad,
    /// Memory ran out. No clause says when this comes.
    Memory,
}

impl From<OutOfMemory> for LineError {
    ghost use Rattle.std.specs.Prelude.{◌≡◌};
    ghost use Rattle.dc_attrs.specs.declared.lines.LineError.TheVariants.{Memory};

    ghost from_gives = { λ _ e. e ≡ Memory };

    fn from(_lack: OutOfMemory) -> LineError {
        LineError::Memory
    }
}

impl From<AllocError> for LineError {
    ghost use Rattle.std.specs.Prelude.{◌≡◌};
    ghost use Rattle.dc_attrs.specs.declared.lines.LineError.TheVariants.{Memory};

    ghost from_gives = { λ _ e. e ≡ Memory };

    fn from(_lack: AllocError) -> LineError {
        LineError::Memory
    }
}

// Adds a tab and a text.
fn write_text(text: &str, line: &mut String) -> Result<(), OutOfMemory>
    ensures { OnOk result (string_bytes line.new ≡ string_bytes line.old ++ 9 ∷ escaped text.now) }
{
    line.push_str("\t")?;
    write_escaped(text, line)
}

// Adds a tab and a number.
fn write_number(alloc: Global, number: u64, line: &mut String) -> Result<(), OutOfMemory>
    ensures { OnOk result (string_bytes line.new ≡ string_bytes line.old ++ 9 ∷ decimal number) }
{
    let digits = format!(in alloc; "\t{number}")?;
    line.push_str(digits.as_str())?;
    Ok(())
}

// The last octal digit of a number.
fn octal_digit(number: u16) -> char
    ensures { result ≡ 48 + number % 8 }
{
    char::from(b'0' + (number % 8) as u8)
}

// Adds a tab and four octal digits.
fn write_mode(mode: u16, line: &mut String) -> Result<(), OutOfMemory>
    ensures { OnOk result (string_bytes line.new ≡ string_bytes line.old ++ 9 ∷ octal mode) }
{
    line.push_str("\t")?;
    line.push(octal_digit(mode / 512))?;
    line.push(octal_digit(mode / 64))?;
    line.push(octal_digit(mode / 8))?;
    line.push(octal_digit(mode))?;
    Ok(())
}

// Want of memory stays so, and any other refusal of a path is that of the line.
fn path_refused(error: PathError) -> LineError
    ensures { error ≡ path_error.Memory → result ≡ Memory }
{
    match error {
        PathError::Memory => LineError::Memory,
        _ => LineError::Bad,
    }
}

// The path that is spelled like this.
fn read_path(alloc: Global, field: &str) -> Result<Path, LineError>
    ensures { ReadsBack (λ path. IsPath path × (escaped (text_of path) ≡ field.now)) result }
{
    let text = read_escaped(alloc, field)?;
    match Path::read(alloc, text.as_str()) {
        Ok(path) => Ok(path),
        Err(error) => Err(path_refused(error)),
    }
}

// The number, at most `most`, that is spelled like this.
fn read_decimal(field: &str, most: u64) -> Result<u64, LineError>
    ensures back { ReadsBack (λ number. (number ≤ most) × (decimal number ≡ field.now)) result }
    ensures most { IfOk result (λ number. number ≤ most) }
{
    match read_number(field.as_bytes(), 0, most) {
        Some(number) => Ok(number),
        None => Err(LineError::Bad),
    }
}

// The value of an octal digit; 0 for any other byte.
fn octal_value(digit: u8) -> u16
    ensures value { 48 ≤ digit → digit < 56 → 48 + result ≡ digit }
    ensures small { result < 8 }
{
    match digit {
        b'0'..=b'7' => u16::from(digit - b'0'),
        _ => 0,
    }
}

// The mode that four octal digits spell.
fn read_mode(field: &str) -> Result<u16, LineError>
    ensures { ReadsBack (λ mode. (mode < 4096) × (octal mode ≡ field.now)) result }
{
    let digits = field.as_bytes();
    if digits.len() != 4 {
        return Err(LineError::Bad);
    }
    let high = octal_value(digits[0]) * 512 + octal_value(digits[1]) * 64;
    Ok(high + octal_value(digits[2]) * 8 + octal_value(digits[3]))
}

// The path and the attributes that have this line, if any have.
fn read_fields(alloc: Global, fields: &[&str]) -> Result<(Path, Attrs), LineError>
    ensures { ReadsBack (λ read. HasLine read.0 read.1 × (fields_of read.0 read.1 ≡ map (λ field. field.now) fields.now)) result }
{
    if fields.len() != 10 {
        return Err(LineError::Bad);
    }
    let replication = read_decimal(fields[2], 32_767)?;
    let block_size = read_decimal(fields[3], u64::MAX)?;
    let mode = read_mode(fields[6])?;
    let mtime = read_decimal(fields[9], u64::MAX)?;
    let path = read_path(alloc, fields[1])?;
    let user = read_escaped(alloc, fields[4])?;
    let group = read_escaped(alloc, fields[5])?;
    let acl = read_escaped(alloc, fields[7])?;
    let xattrs = read_pairs(alloc, fields[8])?;
    match Attrs::new(
        replication as u16,
        block_size,
        user,
        group,
        mode,
        acl,
        xattrs,
        mtime,
    ) {
        Ok(attrs) => Ok((path, attrs)),
        Err(_) => Err(LineError::Bad),
    }
}

impl Attrs {
    /// The line of a path and its attributes: ten fields with a tab between two, without a line end. The fields are `=`,
    /// the path, replication, block size, user, group, mode as four octal digits, access control list, extended
    /// attributes and mtime. Numbers are decimal, without leading zeros. In a text each byte from 0 to 32, the byte 127
    /// and `%`, `,` and `=` are written as `%` and two hexadecimal digits in capitals. The extended attributes are
    /// `name=value`, with a comma between two.
    ///
    /// # Errors
    ///
    /// `OutOfMemory` is the one error.
    pub fn write_line(&self, alloc: Global, path: &Path) -> Result<Text, OutOfMemory>
        ensures line { IfOk result (λ line. line ≡ line_of path.now self.now) }
        ensures has { OnOk result (HasLine path.now self.now) }
    {
        let mut line = String::with_capacity(alloc, 64 + 16 * path.len())?;
        self.limits();
        line.push_str("=")?;
        let text = path.text(alloc)?;
        write_text(text.as_str(), &mut line)?;
        write_number(alloc, self.replication() as u64, &mut line)?;
        write_number(alloc, self.block_size(), &mut line)?;
        write_text(self.user(), &mut line)?;
        write_text(self.group(), &mut line)?;
        write_mode(self.mode(), &mut line)?;
        write_text(self.acl(), &mut line)?;
        line.push_str("\t")?;
        write_pairs(self.xattrs(), &mut line)?;
        write_number(alloc, self.mtime(), &mut line)?;
        Ok(Text::read(alloc, line.as_str())?)
    }

    /// The path and the attributes that have this line, in the one spelling that `write_line` gives.
    ///
    /// # Errors
    ///
    /// - `Bad`, only where no path and no attributes within their limits have this line;
    /// - `Memory`, which may come in the place of any answer.
    pub fn read_line(alloc: Global, line: &str) -> Result<(Path, Attrs), LineError>
        ensures has { IfOk result (λ read. HasLine read.0 read.1) }
        ensures line { IfOk result (λ read. line_of read.0 read.1 ≡ line.now) }
        ensures bad { result ≡ Err Bad → IsNoLine line.now }
    {
        let fields = parts(alloc, line, '\t')?;
        let (path, attrs) = read_fields(alloc, fields.as_slice())?;
        let spelling = attrs.write_line(alloc, &path)?;
        if spelling.as_str() != line {
            return Err(LineError::Bad);
        }
        Ok((path, attrs))
    }
}
