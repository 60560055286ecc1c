//! Owned texts.
#![tactic(auto)]

ghost use Rattle.std.specs.Prelude.{◌≡◌, [], IfOk, string_bytes};

use crate::OutOfMemory;
use std::alloc::Global;
use std::marker::Model;

/// A text that owns its bytes, seen as the list of these bytes (0 to 255 each).
///
/// It is UTF-8, as every `str`. It has no limit but memory, and is never changed once it is made.
#[derive(Drop)]
pub struct Text {
    content: String,
}

impl Model for Text {
    ghost use Rattle.std.specs.Prelude.{List, ℕ, string_bytes};

    ghost Value = { List ℕ };

    ghost view = { λ t. string_bytes t.content };
}

impl Text {
    /// The text of no bytes. It takes no memory, and cannot fail.
    pub fn new(alloc: Global) -> Text
        ensures { result ≡ [] }
    {
        Text {
            content: String::new(alloc),
        }
    }

    /// A text of the same bytes. `OutOfMemory` is the one error.
    pub fn read(alloc: Global, text: &str) -> Result<Text, OutOfMemory>
        ensures { IfOk result (λ t. t ≡ text.now) }
    {
        let content = String::from_str(alloc, text)?;
        Ok(Text { content })
    }

    // The text with the bytes of a string, which it takes over.
    pub(crate) fn of(content: String) -> Text
        ensures { result ≡ string_bytes content }
    {
        Text { content }
    }

    /// The bytes of the text, as a `str`.
    pub fn as_str(&self) -> &str
        ensures { result.now ≡ self.now }
    {
        self.content.as_str()
    }
}
