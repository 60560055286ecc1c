//! Attributes, with their limits.
#![tactic(auto)]

ghost use Rattle.std.specs.Prelude.{◌≡◌, ◌≤◌, ℕ, true, None, length, IfOk, map, cond};
ghost use Rattle.std.specs.List.{list_all};
ghost use Rattle.dc_attrs.specs.Limits.{bad_field, checked, is_xattr, rises, are_xattrs, name_of};
ghost use Rattle.dc_attrs.specs.Attributes.{Attributes, default_file, default_dir, fits_file, fits_dir};
ghost use Rattle.dc_attrs.specs.Keeping.{overlay, keeps, same_kept};

use crate::Keep;
use dc_path::{List, OutOfMemory, Text};
use std::alloc::Global;
use std::marker::Model;

/// An extended attribute: a name and a value (HDFS, "Extended Attributes").
#[derive(Drop)]
pub struct Xattr {
    /// The name, 1 to 255 bytes where it stands in an `Attrs`.
    pub name: Text,
    /// The value, at most 4,096 bytes where it stands in an `Attrs`.
    pub value: Text,
}

impl PartialEq for Xattr {
    ghost use Rattle.std.proofs.Common.{rules};
    ghost use Rattle.std.specs.Cmp.Rules.{comparing};
    ghost use Rattle.dc_attrs.specs.Keeping.{same_xattr};

    ghost eq = { same_xattr };

    ghost laws = { Prim.search (comparing, rules) };

    fn eq(&self, other: &Xattr) -> bool {
        self.name.as_str() == other.name.as_str() && self.value.as_str() == other.value.as_str()
    }
}

/// A field of `Attrs` that has a limit.
#[derive(Clone, Copy, Debug, PartialEq, Eq)]
pub enum Field {
    Replication,
    BlockSize,
    User,
    Group,
    Mode,
    Acl,
    Xattrs,
}

/// Why values are no attributes.
#[derive(Clone, Copy, Debug, PartialEq, Eq)]
pub enum AttrsError {
    /// The first field that passes its limit.
    Bad { field: Field },
}

/// The attributes of a file or a directory, as HDFS keeps them (HDFS, `FileStatus`).
///
/// The type keeps the limits: replication at most 32,767, block size at most 1,099,511,627,776 bytes, user and group at
/// most 255 bytes, mode at most octal 1777, ACL at most 4,096 bytes, and at most 32 extended attributes in strictly
/// ascending order of names.
#[derive(Drop)]
pub struct Attrs {
    replication: u16,
    block_size: u64,
    user: Text,
    group: Text,
    mode: u16,
    acl: Text,
    xattrs: List<Xattr>,
    mtime: u64,
}

impl Model for Attrs {
    ghost use Rattle.std.specs.Prelude.{◌≡◌, None};
    ghost use Rattle.dc_attrs.specs.Attributes.{Attributes};

    ghost Value = { Attributes };

    ghost use Rattle.dc_attrs.specs.Limits.{bad_field};

    ghost view = { λ a. record { replication = a.replication; block_size = a.block_size; user = a.user; group = a.group; mode = a.mode; acl = a.acl; xattrs = a.xattrs; mtime = a.mtime } };

    ghost invariant = { λ a. bad_field (record { replication = a.replication; block_size = a.block_size; user = a.user; group = a.group; mode = a.mode; acl = a.acl; xattrs = a.xattrs; mtime = a.mtime }) ≡ None };
}

impl Attrs {
    /// The attributes with these values. It takes no memory.
    ///
    /// # Errors
    ///
    /// `Bad` with the first field that passes its limit, in the order replication, block size, user, group, mode, ACL,
    /// extended attributes. The values are given up then.
    pub fn new(
        replication: u16,
        block_size: u64,
        user: Text,
        group: Text,
        mode: u16,
        acl: Text,
        xattrs: List<Xattr>,
        mtime: u64,
    ) -> Result<Attrs, AttrsError>
        ensures { result ≡ checked (record { replication = replication; block_size = block_size; user = user; group = group; mode = mode; acl = acl; xattrs = xattrs; mtime = mtime }) }
    {
        let bad = bad_field(
            replication,
            block_size,
            user.as_str(),
            group.as_str(),
            mode,
            acl.as_str(),
            xattrs.as_slice(),
        );
        if let Some(field) = bad {
            return Err(AttrsError::Bad { field });
        }
        Ok(Attrs {
            replication,
            block_size,
            user,
            group,
            mode,
            acl,
            xattrs,
            mtime,
        })
    }

    /// Each `Attrs` is within the limits. The call does nothing.
    pub fn limits(&self)
        ensures { bad_field self.now ≡ None }
    {
        let _time = self.mtime;
    }

    /// The attributes of a new file: replication 3, block size 134,217,728, mode octal 644, nothing else.
    /// It takes no memory.
    #[tactic(auto, unfolding(crate::specs::Attributes::default_file, crate::specs::Limits::bad_field))]
    pub fn default_file(alloc: Global) -> Attrs
        ensures value { result ≡ default_file }
        ensures fits { fits_file result ≡ true }
    {
        Attrs {
            replication: 3,
            block_size: 134_217_728,
            user: Text::new(alloc),
            group: Text::new(alloc),
            mode: 0o644,
            acl: Text::new(alloc),
            xattrs: List::new(alloc),
            mtime: 0,
        }
    }

    /// The attributes of a new directory: replication 0, block size 0, mode octal 755, nothing else.
    /// It takes no memory.
    #[tactic(auto, unfolding(crate::specs::Attributes::default_dir, crate::specs::Limits::bad_field))]
    pub fn default_dir(alloc: Global) -> Attrs
        ensures value { result ≡ default_dir }
        ensures fits { fits_dir result ≡ true }
    {
        Attrs {
            replication: 0,
            block_size: 0,
            user: Text::new(alloc),
            group: Text::new(alloc),
            mode: 0o755,
            acl: Text::new(alloc),
            xattrs: List::new(alloc),
            mtime: 0,
        }
    }

    /// Whether a file may have these attributes: replication and block size are at least 1.
    pub fn fits_file(&self) -> bool
        ensures { result ≡ fits_file self.now }
    {
        self.replication >= 1 && self.block_size >= 1
    }

    /// Whether a directory may have these attributes: replication and block size are 0.
    pub fn fits_dir(&self) -> bool
        ensures { result ≡ fits_dir self.now }
    {
        self.replication == 0 && self.block_size == 0
    }

    /// How many replicas a file's blocks have, at most 32,767.
    #[tactic(auto, using(crate::proofs::LimitLemmas::most_replication))]
    pub fn replication(&self) -> u16
        ensures value { result ≡ self.now.replication }
        ensures most { result ≤ 32767 }
    {
        self.replication
    }

    /// The size of a file's blocks, at most 1,099,511,627,776 bytes.
    #[tactic(auto, using(crate::proofs::LimitLemmas::most_block_size))]
    pub fn block_size(&self) -> u64
        ensures value { result ≡ self.now.block_size }
        ensures most { result ≤ 1099511627776 }
    {
        self.block_size
    }

    /// The owner, at most 255 bytes.
    #[tactic(auto, using(crate::proofs::LimitLemmas::most_user))]
    pub fn user(&self) -> &str
        ensures value { result.now ≡ self.now.user }
        ensures most { length result.now ≤ 255 }
    {
        self.user.as_str()
    }

    /// The group, at most 255 bytes.
    #[tactic(auto, using(crate::proofs::LimitLemmas::most_group))]
    pub fn group(&self) -> &str
        ensures value { result.now ≡ self.now.group }
        ensures most { length result.now ≤ 255 }
    {
        self.group.as_str()
    }

    /// The permission bits, at most octal 1777.
    #[tactic(auto, using(crate::proofs::LimitLemmas::most_mode))]
    pub fn mode(&self) -> u16
        ensures value { result ≡ self.now.mode }
        ensures most { result ≤ 1023 }
    {
        self.mode
    }

    /// The access control list, at most 4,096 bytes.
    #[tactic(auto, using(crate::proofs::LimitLemmas::most_acl))]
    pub fn acl(&self) -> &str
        ensures value { result.now ≡ self.now.acl }
        ensures most { length result.now ≤ 4096 }
    {
        self.acl.as_str()
    }

    /// The extended attributes, at most 32, in strictly ascending order of names.
    #[tactic(auto, using(crate::proofs::LimitLemmas::xattrs_are))]
    pub fn xattrs(&self) -> &[Xattr]
        ensures value { result.now ≡ self.now.xattrs }
        ensures are { are_xattrs result.now ≡ true }
    {
        self.xattrs.as_slice()
    }

    /// The time of the last change, in milliseconds since the epoch.
    pub fn mtime(&self) -> u64
        ensures { result ≡ self.now.mtime }
    {
        self.mtime
    }

    /// Equal attributes.
    pub fn copy(&self, alloc: Global) -> Result<Attrs, OutOfMemory>
        ensures { IfOk result (λ a. a ≡ self.now) }
    {
        let user = Text::read(alloc, self.user.as_str())?;
        let group = Text::read(alloc, self.group.as_str())?;
        let acl = Text::read(alloc, self.acl.as_str())?;
        let xattrs = copy_xattrs(alloc, self.xattrs.as_slice())?;
        Ok(Attrs {
            replication: self.replication,
            block_size: self.block_size,
            user,
            group,
            mode: self.mode,
            acl,
            xattrs,
            mtime: self.mtime,
        })
    }
}

// Whether an extended attribute has a name of 1 to 255 bytes and a value of at most 4,096.
fn is_xattr(xattr: &Xattr) -> bool
    ensures { result ≡ is_xattr xattr.now }
{
    let name = xattr.name.as_str();
    let value = xattr.value.as_str();
    1 <= name.len() && name.len() <= 255 && value.len() <= 4096
}

// Whether each extended attribute is within its limits.
fn all_xattrs(xattrs: &[Xattr]) -> bool
    ensures { result ≡ list_all is_xattr xattrs.now }
{
    xattrs.iter().all(|xattr| is_xattr(xattr))
}

// Whether each name comes before the next.
fn rises(xattrs: &[Xattr]) -> bool
    ensures { result ≡ rises (map name_of xattrs.now) }
{
    for place in 1..xattrs.len() {
        let before = xattrs[place - 1].name.as_str();
        let name = xattrs[place].name.as_str();
        if before >= name {
            return false;
        }
    }
    true
}

// Whether there are at most 32 extended attributes, each within its limits, in strictly ascending order of names.
fn are_xattrs(xattrs: &[Xattr]) -> bool
    ensures { result ≡ are_xattrs xattrs.now }
{
    if xattrs.len() > 32 {
        return false;
    }
    if !all_xattrs(xattrs) {
        return false;
    }
    rises(xattrs)
}

// The first field that passes its limit.
#[tactic(auto, unfolding(crate::specs::Limits::bad_field))]
fn bad_field(
    replication: u16,
    block_size: u64,
    user: &str,
    group: &str,
    mode: u16,
    acl: &str,
    xattrs: &[Xattr],
) -> Option<Field>
    ensures { (time : ℕ) → result ≡ bad_field (record { replication = replication; block_size = block_size; user = user.now; group = group.now; mode = mode; acl = acl.now; xattrs = xattrs.now; mtime = time }) }
{
    if replication > 32_767 {
        return Some(Field::Replication);
    }
    if block_size > 1_099_511_627_776 {
        return Some(Field::BlockSize);
    }
    if user.len() > 255 {
        return Some(Field::User);
    }
    if group.len() > 255 {
        return Some(Field::Group);
    }
    if mode > 0o1777 {
        return Some(Field::Mode);
    }
    if acl.len() > 4096 {
        return Some(Field::Acl);
    }
    if !are_xattrs(xattrs) {
        return Some(Field::Xattrs);
    }
    None
}

// An equal extended attribute.
fn copy_xattr(alloc: Global, xattr: &Xattr) -> Result<Xattr, OutOfMemory>
    ensures { IfOk result (λ copy. copy ≡ xattr.now) }
{
    let name = Text::read(alloc, xattr.name.as_str())?;
    let value = Text::read(alloc, xattr.value.as_str())?;
    Ok(Xattr { name, value })
}

// Equal extended attributes.
fn copy_xattrs(alloc: Global, xattrs: &[Xattr]) -> Result<List<Xattr>, OutOfMemory>
    ensures { IfOk result (λ copies. copies ≡ xattrs.now) }
{
    let mut copies = List::new(alloc);
    for xattr in xattrs {
        let copy = copy_xattr(alloc, xattr)?;
        copies.push(copy).map_err(|_| OutOfMemory)?;
    }
    Ok(copies)
}

// The attributes that give the field of a letter: `source` where it is kept, and else `onto`.
#[tactic(auto, unfolding(crate::specs::Keeping::keeps))]
fn giver<'a>(keep: &Keep, letter: char, source: &'a Attrs, onto: &'a Attrs) -> &'a Attrs
    ensures { result.now ≡ cond (keeps keep.now letter) source.now onto.now }
{
    if keep.has(letter) { source } else { onto }
}

/// The attributes `onto` with the values of `source` at the kept letters. `OutOfMemory` is the one error.
#[tactic(auto, unfolding(crate::specs::Keeping::overlay, crate::specs::Keeping::keeps))]
pub fn overlay(
    alloc: Global,
    keep: &Keep,
    source: &Attrs,
    onto: &Attrs,
) -> Result<Attrs, OutOfMemory>
    ensures { IfOk result (λ a. a ≡ overlay keep.now source.now onto.now) }
{
    let user = Text::read(alloc, giver(keep, 'u', source, onto).user.as_str())?;
    let group = Text::read(alloc, giver(keep, 'g', source, onto).group.as_str())?;
    let acl = Text::read(alloc, giver(keep, 'a', source, onto).acl.as_str())?;
    let xattrs = copy_xattrs(alloc, giver(keep, 'x', source, onto).xattrs.as_slice())?;
    Ok(Attrs {
        replication: giver(keep, 'r', source, onto).replication,
        block_size: giver(keep, 'b', source, onto).block_size,
        user,
        group,
        mode: giver(keep, 'p', source, onto).mode,
        acl,
        xattrs,
        mtime: giver(keep, 't', source, onto).mtime,
    })
}

/// Whether two attributes have the same values at the kept letters.
#[tactic(auto, unfolding(crate::specs::Keeping::same_kept, crate::specs::Keeping::keeps))]
pub fn same_kept(keep: &Keep, one: &Attrs, other: &Attrs) -> bool
    ensures { result ≡ same_kept keep.now one.now other.now }
{
    (!keep.has('r') || one.replication == other.replication)
        && (!keep.has('b') || one.block_size == other.block_size)
        && (!keep.has('u') || one.user.as_str() == other.user.as_str())
        && (!keep.has('g') || one.group.as_str() == other.group.as_str())
        && (!keep.has('p') || one.mode == other.mode)
        && (!keep.has('a') || one.acl.as_str() == other.acl.as_str())
        && (!keep.has('x') || one.xattrs.as_slice() == other.xattrs.as_slice())
        && (!keep.has('t') || one.mtime == other.mtime)
}
