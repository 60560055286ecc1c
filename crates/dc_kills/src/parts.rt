//! The parts of a line, without copies.
#![tactic(auto)]

ghost use Rattle.std.specs.Prelude.{◌≡◌, ◌∷◌, position};
ghost use Rattle.std.specs.Option.{option_copied};
ghost use Rattle.dc_kills.specs.Parts.{is_blank, parts_of, parts_behind};

// Where the first blank stands.
fn blank(line: &[u8]) -> Option<usize>
    ensures { result ≡ position is_blank line.now }
{
    line.iter().position(|byte| *byte == b' ' || *byte == b'\t')
}

/// The first part of a line, and what follows the blank behind it, if there is one.
pub fn first_part(line: &[u8]) -> (&[u8], Option<&[u8]>)
    ensures { parts_of line.now ≡ result.0.now ∷ parts_behind (option_copied result.1) }
{
    match blank(line) {
        Some(at) => (&line[..at], Some(&line[at + 1..])),
        None => (line, None),
    }
}
