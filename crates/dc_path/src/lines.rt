//! The lines of a text, without copies.
#![tactic(auto)]

ghost use Rattle.std.specs.Prelude.{◌≡◌, ◌==◌, ◌<◌, ◌∷◌, length, position};
ghost use Rattle.dc_path.specs.Lines.{lines_of};

// Where the first line feed stands.
fn line_feed(text: &[u8]) -> Option<usize>
    ensures { result ≡ position (λ byte. byte == 10) text.now }
{
    text.iter().position(|byte| *byte == b'\n')
}

/// The first line of a text, without its line feed, and what follows it.
///
/// The last line may lack its line feed. A carriage return is a byte of its line.
pub fn first_line(text: &[u8]) -> (&[u8], &[u8])
    requires { 0 < length text.now }
    ensures split { lines_of text.now ≡ result.0.now ∷ lines_of result.1.now }
    ensures less { length result.1.now < length text.now }
{
    match line_feed(text) {
        Some(at) => (&text[..at], &text[at + 1..]),
        None => (text, &text[text.len()..]),
    }
}
