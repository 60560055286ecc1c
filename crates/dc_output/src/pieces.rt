//! The pieces that a line is written of.
#![tactic(auto)]

ghost use Rattle.std.specs.Prelude.{◌++◌, codes, decimal, flat_map};
ghost use Rattle.hex.specs.Hex.{encode_lower};
ghost use Rattle.dc_path.specs.Paths.{joined};
ghost use Rattle.dc_output.specs.Pieces.{piece_text};
ghost use Rattle.dc_output.specs.Writes.{Writes, sink_view};

use dc_fs::{Sink, SinkFault};
use dc_path::{Name, Path};
use itoa::Buffer;

/// A piece of a line.
#[derive(Clone, Copy)]
pub(crate) enum Piece<'a> {
    /// A text as it is.
    Text(&'a str),
    /// A number in decimal.
    Number(u128),
    /// The text of a path.
    Path(&'a Path),
    /// The text of a path under the target, which begins with a dot.
    Below(&'a Path),
    /// The bytes as hexadecimal digits in lower case.
    Digest(&'a [u8; 16]),
}

// Writes a `/` and a name.
fn write_name<O: Sink>(out: &mut O, name: &Name) -> Result<(), SinkFault>
    ensures { Writes (codes "/" ++ name.now) (sink_view O.Sink out.old) (sink_view O.Sink out.new) result }
{
    out.write(b"/")?;
    out.write(name.as_str().as_bytes())
}

// Writes a `/` and a name for each name of a path: nothing for the root.
fn write_names<O: Sink>(out: &mut O, path: &Path) -> Result<(), SinkFault>
    ensures { Writes (joined path.now) (sink_view O.Sink out.old) (sink_view O.Sink out.new) result }
{
    for name in path.names() {
        write_name(out, name)?;
    }
    Ok(())
}

// Writes a number in decimal.
fn write_number<O: Sink>(out: &mut O, number: u128) -> Result<(), SinkFault>
    ensures { Writes (decimal number) (sink_view O.Sink out.old) (sink_view O.Sink out.new) result }
{
    let mut buffer = Buffer::new();
    out.write(buffer.format(number).as_bytes())
}

// Writes bytes as hexadecimal digits in lower case.
fn write_digest<O: Sink>(out: &mut O, digest: &[u8; 16]) -> Result<(), SinkFault>
    ensures { Writes (encode_lower digest.now) (sink_view O.Sink out.old) (sink_view O.Sink out.new) result }
{
    let mut digits = [0; 32];
    let _fits = hex::encode_to_slice(digest, &mut digits);
    out.write(&digits)
}

// Writes a piece.
fn write_piece<O: Sink>(out: &mut O, piece: &Piece<'_>) -> Result<(), SinkFault>
    ensures { Writes (piece_text piece.now) (sink_view O.Sink out.old) (sink_view O.Sink out.new) result }
{
    match piece {
        Piece::Text(text) => out.write(text.as_bytes()),
        Piece::Number(number) => write_number(out, *number),
        Piece::Path(path) if path.len() == 0 => out.write(b"/"),
        Piece::Path(path) => write_names(out, path),
        Piece::Below(path) => {
            out.write(b".")?;
            write_names(out, path)
        }
        Piece::Digest(digest) => write_digest(out, digest),
    }
}

/// Writes pieces, one after the other.
pub(crate) fn write_pieces<O: Sink>(out: &mut O, pieces: &[Piece<'_>]) -> Result<(), SinkFault>
    ensures { Writes (flat_map piece_text pieces.now) (sink_view O.Sink out.old) (sink_view O.Sink out.new) result }
{
    for piece in pieces {
        write_piece(out, piece)?;
    }
    Ok(())
}
