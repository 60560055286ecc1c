//! Patterns, and what builds them.
#![tactic(auto)]

ghost use Rattle.std.specs.Prelude.{◌≡◌, ◌≢◌, ℕ, ◌≤◌, false, IfOk, IfErr, OnOk, IsErrOf, IsTrue};
ghost use Rattle.dc_path.specs.Causes.{has_come, raised, Rose};
ghost use Rattle.dc_filter.specs.Building.{is_due, with_build, with_refusal};
ghost use Rattle.dc_filter.specs.Forms.{is_pattern};

use crate::Search;
use dc_path::OutOfMemory;
use regex::{Error, Regex};
use std::alloc::{AllocError, Global};
use std::marker::Model;

/// A pattern that `regex` has built, seen as its line, which is a pattern of `regex`'s grammar.
#[derive(Drop)]
pub struct Pattern {
    regex: Regex,
}

impl Model for Pattern {
    ghost use Rattle.std.specs.Prelude.{◌≡◌, ℕ, List};
    ghost use Rattle.regex.specs.Patterns.{default_config};
    ghost use Rattle.regex.specs.Strings.{regex_source, regex_config, IsReadFromSource};

    ghost Value = { List ℕ };

    ghost view = { λ p. regex_source p.regex };

    ghost invariant = { λ p. (regex_config p.regex ≡ default_config) × IsReadFromSource p.regex };
}

impl Pattern {
    /// The line from which the pattern was built.
    pub fn line(&self) -> &str
        ensures value { result.now ≡ self.now }
        ensures pattern { IsTrue (is_pattern self.now) }
    {
        self.regex.as_str()
    }

    /// What searches texts for the pattern. `OutOfMemory` is the one error.
    pub fn search(&self, alloc: Global) -> Result<Search<'_>, OutOfMemory>
        ensures { IfOk result (λ search. search ≡ self.now) }
    {
        let regex = &self.regex;
        let matcher = regex.matcher(alloc)?;
        Ok(Search { regex, matcher })
    }
}

/// Why a line is not built.
#[derive(Clone, Copy, Debug, PartialEq, Eq)]
pub enum BuildError {
    /// The line is no pattern of `regex`'s grammar, or it is nested more than 250 deep.
    Syntax,
    /// What the line would be built to is too big.
    Size,
    /// Memory ran out. No clause says when this comes.
    Memory,
}

impl From<AllocError> for BuildError {
    ghost use Rattle.std.specs.Prelude.{◌≡◌};
    ghost use Rattle.dc_filter.specs.declared.pattern.BuildError.TheVariants.{Memory};

    ghost from_gives = { λ _ e. e ≡ Memory };

    fn from(_lack: AllocError) -> BuildError {
        BuildError::Memory
    }
}

/// What builds patterns. It counts what it refuses for size in `refused`, which never falls and stands still at
/// the last value of 64 bits.
pub trait Patterns: Drop {
    /// How many builds were refused for size.
    ghost refused: { Self → ℕ };

    /// The pattern of a line.
    ///
    /// # Errors
    ///
    /// - `Syntax`, only where the line is no pattern of `regex`'s grammar, or is nested more than 250 deep;
    /// - `Size`, only where `refused` rose in this call, or stands at its last value;
    /// - `Memory`, which may come in the place of any answer.
    fn build(&mut self, alloc: Global, line: &str) -> Result<Pattern, BuildError>
        ensures value { IfOk result (λ pattern. pattern ≡ line.now) }
        ensures pattern { OnOk result (IsTrue (is_pattern line.now)) }
        ensures syntax { IsErrOf result BuildError.Syntax → is_pattern line.now ≡ false }
        ensures size { IsErrOf result BuildError.Size → Rose (refused self.old) (refused self.new) }
        ensures later { refused self.old ≤ refused self.new };
}

/// Builds patterns by `regex`, under its default options. It refuses for size what `regex` finds too big, and,
/// where it was told to, each build from some number on. It is seen as what it was told and what it has counted.
#[derive(Drop)]
pub struct RegexPatterns {
    refuse_at: Option<u64>,
    builds: u64,
    refused: u64,
}

impl Model for RegexPatterns {
    ghost use Rattle.dc_filter.specs.Building.{Building};

    ghost Value = { Building };

    ghost view = { λ p. record { refuse_at = p.refuse_at; builds = p.builds; refused = p.refused } };
}

impl RegexPatterns {
    /// Nothing is built or refused yet. With `refuse_at` the build of this number, counted from 1, and all later
    /// ones are refused for size. It takes no memory, and cannot fail.
    pub fn new(refuse_at: Option<u64>) -> RegexPatterns
        ensures state { result ≡ record { refuse_at = refuse_at; builds = 0; refused = 0 } }
        ensures refused { ⟦<RegexPatterns as Patterns>⟧.refused result ≡ 0 }
    {
        RegexPatterns {
            refuse_at,
            builds: 0,
            refused: 0,
        }
    }

    // Whether the build that was counted last is to be refused for size.
    fn is_told(&self) -> bool
        ensures { result ≡ has_come self.now.refuse_at self.now.builds }
    {
        match self.refuse_at {
            Some(first) => first <= self.builds,
            None => false,
        }
    }

    // Counts a refusal for size.
    fn too_big(&mut self) -> BuildError
        ensures error { result ≡ BuildError.Size }
        ensures counted { self.new ≡ record self.old { refused = raised self.old.refused } }
    {
        self.refused = self.refused.saturating_add(1);
        BuildError::Size
    }
}

impl Patterns for RegexPatterns {
    ghost refused = { λ p. p.refused };

    fn build(&mut self, alloc: Global, line: &str) -> Result<Pattern, BuildError>
        ensures value { IfOk result (λ pattern. pattern ≡ line.now) }
        ensures pattern { OnOk result (IsTrue (is_pattern line.now)) }
        ensures syntax { IsErrOf result BuildError.Syntax → is_pattern line.now ≡ false }
        // for size are refused the builds that are due, and else patterns alone
        ensures due { IsTrue (is_due self.old) → IsErrOf result BuildError.Size }
        ensures big { is_due self.old ≡ false → IsErrOf result BuildError.Size → IsTrue (is_pattern line.now) }
        // what is counted
        ensures size { IsErrOf result BuildError.Size → self.new ≡ with_refusal self.old }
        ensures built { OnOk result (self.new ≡ with_build self.old) }
        ensures failed { IfErr result (λ e. e ≢ BuildError.Size → self.new ≡ with_build self.old) }
        ensures later { self.old.refused ≤ self.new.refused }
    {
        self.builds = self.builds.saturating_add(1);
        if self.is_told() {
            return Err(self.too_big());
        }
        match Regex::new(alloc, line) {
            Ok(regex) => Ok(Pattern { regex }),
            Err(Error::Syntax(_)) => Err(BuildError::Syntax),
            Err(Error::OutOfMemory) => Err(BuildError::Memory),
            Err(Error::CompiledTooBig) => Err(self.too_big()),
            // `regex` is proved not to answer this one.
            Err(Error::Internal) => Err(self.too_big()),
        }
    }
}
