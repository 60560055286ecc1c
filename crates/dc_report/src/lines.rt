//! Texts without the line feeds at their end, without copies.
#![tactic(auto)]

ghost use Rattle.std.specs.Prelude.{◌≡◌};
ghost use Rattle.dc_report.specs.Lines.{unended};

/// The text without the line feeds at its end.
pub fn without_end(text: &[u8]) -> &[u8]
    ensures { result.now ≡ unended text.now }
{
    let mut end = text.len();
    while end > 0 && text[end - 1] == b'\n' {
        end -= 1;
    }
    &text[..end]
}
