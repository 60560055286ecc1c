//! What the definitions of attributes say together, as the contracts of functions.
#![tactic(auto)]

ghost use Rattle.std.specs.Prelude.{◌≡◌, IfOk, IfErr};
ghost use Rattle.dc_attrs.specs.Lines.{OneLineEach};
ghost use Rattle.dc_attrs.specs.declared.lines.LineError.TheVariants.{Memory};

use crate::{Attrs, LineError};
use dc_path::Path;
use std::alloc::Global;

/// The law of lines, for those who build on the definitions. The call does nothing.
///
/// A path and attributes within their limits have a line that no others have.
pub fn line_laws()
    ensures { OneLineEach }
{}

/// Writes the line of a path and its attributes, and reads it: the same path and the same attributes, always.
///
/// # Errors
///
/// `Memory` is the one error.
pub fn read_back(alloc: Global, path: &Path, attrs: &Attrs) -> Result<(Path, Attrs), LineError>
    ensures path { IfOk result (λ read. read.0 ≡ path.now) }
    ensures attrs { IfOk result (λ read. read.1 ≡ attrs.now) }
    ensures error { IfErr result (λ e. e ≡ Memory) }
{
    let line = attrs.write_line(alloc, path)?;
    Attrs::read_line(alloc, line.as_str())
}
