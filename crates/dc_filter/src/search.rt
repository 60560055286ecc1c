//! Searches for a pattern.
#![tactic(auto)]

ghost use Rattle.std.specs.Prelude.{◌≡◌};
ghost use Rattle.std.specs.List.{list_any};
ghost use Rattle.dc_filter.specs.Forms.{finds};

use regex::{Matcher, Regex};
use std::marker::Model;

/// What searches texts for a pattern, again and again, and takes no memory for it. It is seen as the pattern's line.
#[derive(Drop)]
pub struct Search<'p> {
    pub(crate) regex: &'p Regex,
    pub(crate) matcher: Matcher<'p>,
}

impl<'p> Model for Search<'p> {
    ghost use Rattle.std.specs.Prelude.{◌≡◌, ℕ, List};
    ghost use Rattle.regex.specs.Patterns.{default_config};
    ghost use Rattle.regex.specs.Strings.{regex_source, regex_config, IsReadFromSource, regex_pattern, matcher_pattern};

    ghost Value = { List ℕ };

    ghost view = { λ s. regex_source s.regex.now };

    ghost invariant = { λ s. (regex_config s.regex.now ≡ default_config) × IsReadFromSource s.regex.now × (matcher_pattern s.matcher ≡ regex_pattern s.regex.now) };
}

impl<'p> Search<'p> {
    /// Whether the pattern matches somewhere in a text. It takes no memory.
    pub fn is_in(&mut self, text: &str) -> bool
        ensures found { result ≡ finds self.old text.now }
        ensures same { self.new ≡ self.old }
    {
        self.matcher.is_match(text)
    }
}

/// Whether one of the patterns matches somewhere in a text.
pub(crate) fn any_is_in(searches: &mut [Search<'_>], text: &str) -> bool
    ensures found { result ≡ list_any (λ line. finds line text.now) searches.old }
    ensures same { searches.new ≡ searches.old }
{
    'searches: for search in searches {
        if search.is_in(text) {
            return true;
        }
    }
    false
}
