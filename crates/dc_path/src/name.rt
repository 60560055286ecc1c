//! The names of directories and files.
#![tactic(auto)]

ghost use Rattle.std.specs.Prelude.{◌≡◌, ℕ, if◌then◌else◌, Ok, Err};
ghost use Rattle.std.specs.Prelude.{IsTrue, IfOk};
ghost use Rattle.std.specs.List.{list_all};
ghost use Rattle.dc_path.specs.Names.{is_name, is_plain};

use crate::{OutOfMemory, PathError};
use std::alloc::{AllocError, Global};
use std::cmp::Ordering;
use std::marker::Model;
use std::sync::ArcStr;

/// A name of a directory or a file, seen as the list of its bytes (POSIX.1, "Filename").
///
/// A name is 1 to 255 bytes of UTF-8 (`NAME_MAX` of POSIX.1 is 255 in common file systems), none of them
/// `/` or the character 0, and is neither `.` nor `..`.
/// Names are ordered by their bytes as numbers, a prefix first.
#[derive(Drop)]
pub struct Name {
    content: ArcStr,
}

impl Model for Name {
    ghost use Rattle.std.specs.Prelude.{List, ℕ, IsTrue};
    ghost use Rattle.std.specs.Arc.{arc_str_bytes};
    ghost use Rattle.dc_path.specs.Names.{is_name};

    ghost Value = { List ℕ };

    ghost view = { λ n. arc_str_bytes n.content };

    ghost invariant = { λ n. IsTrue (is_name (arc_str_bytes n.content)) };
}

// Whether each byte may stand in a name: none is `/` or 0.
fn all_plain(bytes: &[u8]) -> bool
    ensures { result ≡ list_all is_plain bytes.now }
{
    bytes.iter().all(|byte| *byte != b'/' && *byte != 0)
}

/// Whether a text is a name: it has 1 to 255 bytes, none of them `/` or 0, and is neither `.` nor `..`.
#[tactic(auto, using(crate::proofs::Texts::texts), unfolding(crate::specs::Names::is_name))]
pub fn test_name(text: &str) -> bool
    ensures { result ≡ is_name text.now }
{
    if text.is_empty() || text.len() > 255 {
        return false;
    }
    if text == "." || text == ".." {
        return false;
    }
    all_plain(text.as_bytes())
}

impl Name {
    ghost use Rattle.dc_path.specs.declared.path.PathError.TheVariants.{Memory};
    ghost use Rattle.dc_path.specs.Unless.{GivesUnless};

    /// The name with this text.
    ///
    /// # Errors
    ///
    /// - `BadName { place: 0 }`, exactly where the text is no name.
    /// - `Memory`, which may come in the place of any answer.
    pub fn read(alloc: Global, text: &str) -> Result<Name, PathError>
        ensures { GivesUnless Memory result (if is_name text.now then Ok text.now else Err (PathError.BadName 0)) }
    {
        if !test_name(text) {
            return Err(PathError::BadName { place: 0 });
        }
        let content = ArcStr::from_str(alloc, text)?;
        Ok(Name { content })
    }

    /// The 1 to 255 bytes of the name, as a `str`; they always are those of a name.
    pub fn as_str(&self) -> &str
        ensures value { result.now ≡ self.now }
        ensures name { IsTrue (is_name self.now) }
    {
        self.content.as_str()
    }

    /// A name of the same bytes, which it shares: it takes no memory. `OutOfMemory` is the one error.
    pub fn copy(&self, alloc: Global) -> Result<Name, OutOfMemory>
        ensures { IfOk result (λ n. n ≡ self.now) }
    {
        let content = self.content.clone()?;
        Ok(Name { content })
    }
}

impl Clone for Name {
    ghost use Rattle.std.specs.Prelude.{◌≡◌};

    ghost is_clone = { λ a b. b ≡ a };

    fn clone(&self) -> Result<Name, AllocError> {
        Ok(Name {
            content: self.content.clone()?,
        })
    }
}

impl PartialEq for Name {
    ghost use Rattle.std.specs.Prelude.{ℕ, nat_eq};
    ghost use Rattle.std.specs.Cmp.Lexicographic.{pointwise};
    ghost use Rattle.std.proofs.Common.{rules};
    ghost use Rattle.std.specs.Cmp.Rules.{comparing};

    ghost eq = { pointwise nat_eq };

    ghost laws = { Prim.search (comparing, rules) };

    fn eq(&self, other: &Name) -> bool {
        self.content.as_str() == other.content.as_str()
    }
}

impl Eq for Name {
    ghost use Rattle.std.proofs.Common.{rules};
    ghost use Rattle.std.specs.Cmp.Rules.{comparing};

    ghost laws = { Prim.search (comparing, rules) };
}

impl PartialOrd for Name {
    ghost use Rattle.std.specs.Prelude.{Some};
    ghost use Rattle.std.specs.Ordering.{nat_cmp, as_partial_cmp};
    ghost use Rattle.std.specs.Cmp.Lexicographic.{slice_cmp, nat_list_cmp_total};
    ghost use Rattle.std.specs.Cmp.{partial_order_from_own_ties};
    ghost use Rattle.std.proofs.Common.{rules};
    ghost use Rattle.std.specs.Cmp.Rules.{comparing};

    ghost partial_cmp = { as_partial_cmp (slice_cmp nat_cmp) };

    ghost laws = { partial_order_from_own_ties (Prim.search (comparing, rules)) (Prim.search (comparing, rules)) };

    fn partial_cmp(&self, other: &Name) -> Option<Ordering> {
        Some(self.cmp(other))
    }
}

impl Ord for Name {
    ghost use Rattle.std.specs.Ordering.{nat_cmp};
    ghost use Rattle.std.specs.Cmp.Lexicographic.{slice_cmp, nat_list_cmp_total};
    ghost use Rattle.std.proofs.Common.{rules};
    ghost use Rattle.std.specs.Cmp.Rules.{comparing};

    ghost cmp = { slice_cmp nat_cmp };

    ghost total = { nat_list_cmp_total };

    ghost matches_partial_cmp = { Prim.search (comparing, rules) };

    ghost matches_eq = { Prim.search (comparing, rules) };

    fn cmp(&self, other: &Name) -> Ordering {
        self.content.as_str().cmp(other.content.as_str())
    }
}
