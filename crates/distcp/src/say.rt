//! Lines of the program itself, and its exit statuses.
#![tactic(auto)]

ghost use Rattle.std.specs.Prelude.{◌≤◌, ◌≡◌, ◌++◌, OnOk, OnErr, codes};
ghost use Rattle.dc_fs.specs.Causes.{Rose};
ghost use Rattle.distcp.specs.Ends.{Prints, Says, output};

use dc_fs::{Sink, SinkFault};

/// All is done and printed.
pub const DONE: u8 = 0;

/// Memory ran out.
pub const NO_MEMORY: u8 = 24;

/// A run ended in another way than by its commit, which no drill does.
pub const NOT_REACHED: u8 = 25;

/// A folder is not opened.
pub const UNOPENED: u8 = 27;

/// The standard output did not take all lines.
pub const UNPRINTED: u8 = 28;

/// The words ask for nothing that the program does.
pub const REFUSED: u8 = 255;

/// Prints a text and answers the exit status, which is `UNPRINTED` where the sink does not take the text.
pub fn say<O: Sink>(out: &mut O, text: &str, status: u8) -> u8
    ensures said { Says (text.now, status) result (output O.Sink out.old) (output O.Sink out.new) }
    ensures later { O.faults out.old ≤ O.faults out.new }
{
    match out.write(text.as_bytes()) {
        Ok(()) => status,
        Err(_) => UNPRINTED,
    }
}

// Writes three texts, one after the other.
fn write_all<O: Sink>(out: &mut O, first: &str, second: &str, third: &str) -> Result<(), SinkFault>
    ensures taken { OnOk result (Prints (first.now ++ second.now ++ third.now) (output O.Sink out.old) (output O.Sink out.new)) }
    ensures cause { OnErr result (Rose (O.faults out.old) (O.faults out.new)) }
{
    out.write(first.as_bytes())?;
    out.write(second.as_bytes())?;
    out.write(third.as_bytes())
}

/// Prints a text and a word, as a line, and answers the exit status, which is `UNPRINTED` where the sink does not take them.
pub fn say_of<O: Sink>(out: &mut O, text: &str, word: &str, status: u8) -> u8
    ensures said { Says (text.now ++ word.now ++ codes "\n", status) result (output O.Sink out.old) (output O.Sink out.new) }
{
    match write_all(out, text, word, "\n") {
        Ok(()) => status,
        Err(_) => UNPRINTED,
    }
}
