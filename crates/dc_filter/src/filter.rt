//! Filters: the lines of a file of patterns, and which paths they exclude.
#![tactic(auto)]

ghost use Rattle.std.specs.Prelude.{◌≡◌, ℕ, ◌≤◌, [], false, IfOk, OnOk, IsErrOf, IsTrue, string_bytes};
ghost use Rattle.dc_path.specs.Causes.{Rose};
ghost use Rattle.dc_path.specs.Lines.{lines_of};
ghost use Rattle.dc_filter.specs.Forms.{wrapped, is_good_line, any_finds};

use crate::search::any_is_in;
use crate::{BuildError, Pattern, Patterns, Search};
use dc_path::{OutOfMemory, Path, first_line};
use std::alloc::{AllocError, AllocFailed, Global};
use std::marker::Model;

/// Why a file of patterns is refused. Lines are counted from 1.
#[derive(Clone, Copy, Debug, PartialEq, Eq)]
pub enum FilterError {
    /// The line is not UTF-8, or it or its wrapped form is no pattern, or is nested too deep.
    BadPattern { line: u64 },
    /// What the line or its wrapped form would be built to is too big.
    BigPattern { line: u64 },
    /// Memory ran out. No clause says when this comes.
    Memory,
}

impl<T: Drop> From<AllocFailed<T>> for FilterError {
    ghost use Rattle.std.specs.Prelude.{◌≡◌};
    ghost use Rattle.dc_filter.specs.declared.filter.FilterError.TheVariants.{Memory};

    ghost from_gives = { λ _ e. e ≡ Memory };

    fn from(_lack: AllocFailed<T>) -> FilterError {
        FilterError::Memory
    }
}

// The wrapped form of a line, which matches whole texts alone.
fn wrap(alloc: Global, line: &str) -> Result<String, AllocError>
    ensures { IfOk result (λ form. string_bytes form ≡ wrapped line.now) }
{
    let mut form = String::from_str(alloc, "\\A(?:")?;
    form.push_str(line)?;
    form.push_str(")\\z")?;
    Ok(form)
}

// The pattern of a line's wrapped form. The line itself is built first, so that it is a pattern on its own.
// `Syntax` is answered for a line that is not UTF-8, too.
#[tactic(auto, using(crate::proofs::PatternLemmas::texts), unfolding(crate::specs::Forms::is_good_line))]
fn build_line<P: Patterns>(alloc: Global, line: &[u8], pats: &mut P) -> Result<Pattern, BuildError>
    ensures value { IfOk result (λ pattern. pattern ≡ wrapped line.now) }
    ensures good { OnOk result (IsTrue (is_good_line line.now)) }
    ensures bad { IsErrOf result BuildError.Syntax → is_good_line line.now ≡ false }
    ensures big { IsErrOf result BuildError.Size → Rose (P.refused pats.old) (P.refused pats.new) }
    ensures later { P.refused pats.old ≤ P.refused pats.new }
{
    let Ok(line) = std::str::from_utf8(line) else {
        return Err(BuildError::Syntax);
    };
    let _plain = pats.build(alloc, line)?;
    let form = wrap(alloc, line)?;
    pats.build(alloc, form.as_str())
}

/// The lines of a file of patterns, seen as the list of these lines.
///
/// Each is UTF-8, and it and its wrapped form, `\A(?:` line `)\z`, are patterns of `regex`'s grammar. It excludes
/// the paths whose text the wrapped form of some line matches.
#[derive(Drop)]
pub struct Filter {
    patterns: Vec<Pattern>,
}

impl Model for Filter {
    ghost use Rattle.std.specs.Prelude.{List, ℕ};
    ghost use Rattle.dc_filter.specs.Forms.{lines_in, AreForms};

    ghost Value = { List (List ℕ) };

    ghost view = { λ f. lines_in f.patterns.items };

    ghost invariant = { λ f. AreForms f.patterns.items };
}

/// What asks a filter again and again. It is seen as the filter is, which it borrows.
#[derive(Drop)]
pub struct Searches<'f> {
    searches: Vec<Search<'f>>,
}

impl<'f> Model for Searches<'f> {
    ghost use Rattle.std.specs.Prelude.{List, ℕ};
    ghost use Rattle.dc_filter.specs.Forms.{lines_in, AreForms};

    ghost Value = { List (List ℕ) };

    ghost view = { λ s. lines_in s.searches.items };

    ghost invariant = { λ s. AreForms s.searches.items };
}

impl Filter {
    ghost use Rattle.dc_filter.specs.Filters.{filter_from, FilterAnswers, IsReached, is_excluded};

    /// The filter of no lines, which excludes nothing. It takes no memory, and cannot fail.
    pub fn none(alloc: Global) -> Filter
        ensures { result ≡ [] }
    {
        Filter {
            patterns: Vec::new(alloc),
        }
    }

    /// The filter of the lines of a file. Each line ends with a line feed, and the last one may lack it. Every line
    /// is a pattern, an empty line too.
    ///
    /// # Errors
    ///
    /// The first line that is refused decides. A line is built itself and then in its wrapped form.
    ///
    /// - `BadPattern`, exactly where the line is not UTF-8, or one of the two is no pattern of `regex`'s grammar or
    ///   is nested more than 250 deep;
    /// - `BigPattern`, only where the count `refused` rose in this call, and the lines before are good;
    /// - `Memory`, which may come in the place of any answer.
    pub fn read<P: Patterns>(
        alloc: Global,
        text: &[u8],
        pats: &mut P,
    ) -> Result<Filter, FilterError>
        ensures exact { FilterAnswers result (filter_from text.now) }
        ensures big { (n : ℕ) → IsErrOf result (FilterError.BigPattern n) → Rose (P.refused pats.old) (P.refused pats.new) }
        ensures reached { (n : ℕ) → IsErrOf result (FilterError.BigPattern n) → IsReached (lines_of text.now) n }
        ensures later { P.refused pats.old ≤ P.refused pats.new }
    {
        let mut patterns = Vec::new(alloc);
        let mut rest = text;
        let mut number = 0u64;
        'lines: while !rest.is_empty() {
            let (line, after) = first_line(rest);
            number += 1;
            match build_line(alloc, line, pats) {
                Ok(pattern) => patterns.push(pattern)?,
                Err(BuildError::Syntax) => return Err(FilterError::BadPattern { line: number }),
                Err(BuildError::Size) => return Err(FilterError::BigPattern { line: number }),
                Err(BuildError::Memory) => return Err(FilterError::Memory),
            }
            rest = after;
        }
        Ok(Filter { patterns })
    }

    /// Whether the wrapped form of some line matches the text of a path. `OutOfMemory` is the one error.
    ///
    /// It makes a search for each line. A caller with many paths makes them once, by `searches`.
    pub fn excludes(&self, alloc: Global, path: &Path) -> Result<bool, OutOfMemory>
        ensures { IfOk result (λ out. out ≡ is_excluded self.now path.now) }
    {
        let mut searches = self.searches(alloc)?;
        searches.excludes(alloc, path)
    }

    /// What asks the filter again and again: a search for each line. `OutOfMemory` is the one error.
    pub fn searches(&self, alloc: Global) -> Result<Searches<'_>, OutOfMemory>
        ensures { IfOk result (λ searches. searches ≡ self.now) }
    {
        let patterns = &self.patterns;
        let mut searches = Vec::new(alloc);
        'patterns: for pattern in patterns {
            searches.push(pattern.search(alloc)?)?;
        }
        Ok(Searches { searches })
    }
}

impl<'f> Searches<'f> {
    ghost use Rattle.dc_filter.specs.Filters.{is_excluded};

    /// Whether the wrapped form of some line matches the text of a path. The text alone takes memory.
    /// `OutOfMemory` is the one error.
    pub fn excludes(&mut self, alloc: Global, path: &Path) -> Result<bool, OutOfMemory>
        ensures out { IfOk result (λ out. out ≡ is_excluded self.old path.now) }
        ensures same { self.new ≡ self.old }
    {
        let text = path.text(alloc)?;
        Ok(self.any_is_in(text.as_str()))
    }

    // Whether the wrapped form of some line matches a text.
    fn any_is_in(&mut self, text: &str) -> bool
        ensures found { result ≡ any_finds self.old text.now }
        ensures same { self.new ≡ self.old }
    {
        any_is_in(self.searches.as_mut_slice(), text)
    }
}
