//! Texts in which some bytes are written as `%` and two hexadecimal digits.
#![tactic(auto)]

ghost use Rattle.std.specs.Prelude.{◌≡◌, ◌++◌, OnOk, string_bytes, encode_utf8};
ghost use Rattle.dc_attrs.specs.Lines.{is_escaped, escaped};
ghost use Rattle.dc_attrs.specs.Spelling.{ReadsBack};

use crate::LineError;
use dc_path::{OutOfMemory, Text};
use percent_encoding::{percent_decode_str, percent_encode_byte};
use std::alloc::Global;
use std::str;

// Whether a character is written as `%` and two digits.
#[tactic(auto, unfolding(crate::specs::Lines::is_escaped))]
fn is_escaped(character: char) -> bool
    ensures { result ≡ is_escaped character }
{
    character <= ' '
        || character == '\u{7f}'
        || character == '%'
        || character == ','
        || character == '='
}

// Adds a character, in the spelling of a line.
fn write_character(character: char, line: &mut String) -> Result<(), OutOfMemory>
    ensures { OnOk result (string_bytes line.new ≡ string_bytes line.old ++ escaped (encode_utf8 character)) }
{
    if is_escaped(character) {
        line.push_str(percent_encode_byte(character as u8))?;
    } else {
        line.push(character)?;
    }
    Ok(())
}

/// Adds a text, in the spelling of a line.
pub fn write_escaped(text: &str, line: &mut String) -> Result<(), OutOfMemory>
    ensures { OnOk result (string_bytes line.new ≡ string_bytes line.old ++ escaped text.now) }
{
    for character in text.chars() {
        write_character(character, line)?;
    }
    Ok(())
}

/// The text that is spelled like this.
pub fn read_escaped(alloc: Global, field: &str) -> Result<Text, LineError>
    ensures { ReadsBack (λ text. escaped text ≡ field.now) result }
{
    let mut bytes = Vec::new(alloc);
    percent_decode_str(field).append_to(&mut bytes)?;
    match str::from_utf8(bytes.as_slice()) {
        Ok(text) => Ok(Text::read(alloc, text)?),
        Err(_) => Err(LineError::Bad),
    }
}
