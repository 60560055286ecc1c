//! Which attributes a copy keeps.
#![tactic(auto)]

ghost use Rattle.std.specs.Prelude.{◌≡◌, ◌||◌, IsTrue, [], codes, not, position};
ghost use Rattle.dc_attrs.specs.Keeping.{Kept, is_letter, has_letter, keeps, kept_by};

use std::marker::Model;

/// Why a text names no set of attributes.
#[derive(Clone, Copy, Debug, PartialEq, Eq)]
pub enum KeepError {
    /// The letter at this place, counted from 0, is the first that is none of the eight.
    UnknownLetter { place: u64 },
}

/// A set of attributes that a copy keeps, named by letters (Hadoop DistCp Guide, option `-p`).
///
/// `r` is replication, `b` block size, `u` user, `g` group, `p` permission bits, `a` access control list, `x` extended
/// attributes, `t` time of the last change. Where `a` is in the set, `p` is too.
#[derive(Clone, Copy)]
pub struct Keep {
    replication: bool,
    block_size: bool,
    user: bool,
    group: bool,
    mode: bool,
    acl: bool,
    xattrs: bool,
    mtime: bool,
}

impl Model for Keep {
    ghost use Rattle.std.specs.Prelude.{IsTrue, ◌||◌, not};
    ghost use Rattle.dc_attrs.specs.Keeping.{Kept};

    ghost Value = { Kept };

    ghost view = { λ k. record { replication = k.replication; block_size = k.block_size; user = k.user; group = k.group; mode = k.mode; acl = k.acl; xattrs = k.xattrs; mtime = k.mtime } };

    ghost invariant = { λ k. IsTrue (not k.acl || k.mode) };

    ghost inverse = { λ k. record { replication = k.replication; block_size = k.block_size; user = k.user; group = k.group; mode = k.mode; acl = k.acl; xattrs = k.xattrs; mtime = k.mtime } };
}

impl Keep {
    ghost use Rattle.dc_attrs.specs.Keeping.{read_letters};

    /// The empty set.
    #[tactic(auto, unfolding(crate::specs::Keeping::kept_by))]
    pub fn none() -> Keep
        ensures { result ≡ kept_by [] }
    {
        Keep {
            replication: false,
            block_size: false,
            user: false,
            group: false,
            mode: false,
            acl: false,
            xattrs: false,
            mtime: false,
        }
    }

    /// The set that `-p` without letters names: `rbugpt`.
    #[tactic(auto, unfolding(crate::specs::Keeping::kept_by))]
    pub fn usual() -> Keep
        ensures { result ≡ kept_by (codes "rbugpt") }
    {
        Keep {
            replication: true,
            block_size: true,
            user: true,
            group: true,
            mode: true,
            acl: false,
            xattrs: false,
            mtime: true,
        }
    }

    /// The set that letters name, in any order, each any number of times. `a` brings `p` with it.
    ///
    /// # Errors
    ///
    /// `UnknownLetter`, exactly where a character is none of the eight letters, with the place of the first such.
    pub fn read(letters: &str) -> Result<Keep, KeepError>
        ensures { result ≡ read_letters letters.now }
    {
        let letters = letters.as_bytes();
        if let Some(place) = unknown_place(letters) {
            return Err(KeepError::UnknownLetter {
                place: place as u64,
            });
        }
        Ok(set_of(letters))
    }

    /// Whether the attribute of a letter is in the set. No other character has an attribute.
    #[tactic(auto, unfolding(crate::specs::Keeping::keeps))]
    pub fn has(&self, letter: char) -> bool
        ensures value { result ≡ keeps self.now letter }
        ensures brings { IsTrue (not self.now.acl || self.now.mode) }
    {
        match letter {
            'r' => self.replication,
            'b' => self.block_size,
            'u' => self.user,
            'g' => self.group,
            'p' => self.mode,
            'a' => self.acl,
            'x' => self.xattrs,
            't' => self.mtime,
            _ => false,
        }
    }
}

// Whether a byte is one of the eight letters.
fn is_letter(letter: u8) -> bool
    ensures { result ≡ is_letter letter }
{
    b"rbugpaxt".contains(&letter)
}

// The place of the first byte that is none of the eight letters.
fn unknown_place(letters: &[u8]) -> Option<usize>
    ensures { result ≡ position (λ byte. not (is_letter byte)) letters.now }
{
    letters.iter().position(|letter| !is_letter(*letter))
}

// The set of the letters that a text has.
#[tactic(auto, unfolding(crate::specs::Keeping::kept_by))]
fn set_of(letters: &[u8]) -> Keep
    ensures { result ≡ kept_by letters.now }
{
    Keep {
        replication: letters.contains(&b'r'),
        block_size: letters.contains(&b'b'),
        user: letters.contains(&b'u'),
        group: letters.contains(&b'g'),
        mode: has_either(letters, b'p', b'a'),
        acl: letters.contains(&b'a'),
        xattrs: letters.contains(&b'x'),
        mtime: letters.contains(&b't'),
    }
}

// Whether a text has one of two letters.
fn has_either(letters: &[u8], one: u8, other: u8) -> bool
    ensures { result ≡ (has_letter letters.now one || has_letter letters.now other) }
{
    letters.contains(&one) || letters.contains(&other)
}
