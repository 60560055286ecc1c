//! Calls on an object in memory: each is counted, and the list of the object decides whether it fails.
#![tactic(auto)]

ghost use Rattle.std.specs.Prelude.{◌≡◌, ◌≤◌, ◌&&◌, Bool, true, false, Some, find, IsTrue};
ghost use Rattle.std.specs.Option.{option_copied};
ghost use Rattle.dc_fs.specs.Causes.{Rose, steady_at};
ghost use Rattle.dc_memfs.specs.Failing.{none_made, no_calls, number_of, counted_call, is_nth, is_later, is_named, fate_by, next_fate, fails, fails_next, after_call, is_steady};

use crate::{Fail, Fails, Which};

/// How many calls of each kind were made on an object. Each count stands still at the last value of 64 bits.
#[derive(Clone, Copy)]
pub struct Counts {
    /// Calls of whatever kind.
    pub any: u64,
    /// Calls of `Store::kind`.
    pub kind: u64,
    /// Calls of `Store::status`.
    pub status: u64,
    /// Calls of `Store::list`.
    pub list: u64,
    /// Calls of `Store::read_at`.
    pub read: u64,
    /// Calls of `Store::checksum`.
    pub checksum: u64,
    /// Calls of `Target::open_desk`.
    pub open_desk: u64,
    /// Calls of `Target::make_dir`.
    pub make_dir: u64,
    /// Calls of `Target::remove`.
    pub remove: u64,
    /// Calls of `Target::rename`.
    pub rename: u64,
    /// Calls of `Target::set_attrs`.
    pub set_attrs: u64,
    /// Calls of `Target::land`.
    pub land: u64,
    /// Calls of `Target::sweep`.
    pub sweep: u64,
    /// Calls of `Desk::create`.
    pub create: u64,
    /// Calls of `Desk::append`.
    pub append: u64,
    /// Calls of `Desk::digest`.
    pub digest: u64,
    /// Calls of `Desk::seal`.
    pub seal: u64,
}

impl Counts {
    // No call was made.
    fn new() -> Counts
        ensures { result ≡ none_made }
    {
        Counts {
            any: 0,
            kind: 0,
            status: 0,
            list: 0,
            read: 0,
            checksum: 0,
            open_desk: 0,
            make_dir: 0,
            remove: 0,
            rename: 0,
            set_attrs: 0,
            land: 0,
            sweep: 0,
            create: 0,
            append: 0,
            digest: 0,
            seal: 0,
        }
    }

    // How many calls of a kind were made.
    fn number(&self, which: Which) -> u64
        ensures { result ≡ number_of which self.now }
    {
        match which {
            Which::Any => self.any,
            Which::Kind => self.kind,
            Which::Status => self.status,
            Which::List => self.list,
            Which::Read => self.read,
            Which::Checksum => self.checksum,
            Which::OpenDesk => self.open_desk,
            Which::MakeDir => self.make_dir,
            Which::Remove => self.remove,
            Which::Rename => self.rename,
            Which::SetAttrs => self.set_attrs,
            Which::Land => self.land,
            Which::Sweep => self.sweep,
            Which::Create => self.create,
            Which::Append => self.append,
            Which::Digest => self.digest,
            Which::Seal => self.seal,
        }
    }

    // The counts after one more call of a kind.
    fn after(self, which: Which) -> Counts
        ensures { result ≡ counted_call which self }
    {
        let counts = Counts {
            any: self.any.saturating_add(1),
            ..self
        };
        match which {
            Which::Any => counts,
            Which::Kind => Counts {
                kind: counts.kind.saturating_add(1),
                ..counts
            },
            Which::Status => Counts {
                status: counts.status.saturating_add(1),
                ..counts
            },
            Which::List => Counts {
                list: counts.list.saturating_add(1),
                ..counts
            },
            Which::Read => Counts {
                read: counts.read.saturating_add(1),
                ..counts
            },
            Which::Checksum => Counts {
                checksum: counts.checksum.saturating_add(1),
                ..counts
            },
            Which::OpenDesk => Counts {
                open_desk: counts.open_desk.saturating_add(1),
                ..counts
            },
            Which::MakeDir => Counts {
                make_dir: counts.make_dir.saturating_add(1),
                ..counts
            },
            Which::Remove => Counts {
                remove: counts.remove.saturating_add(1),
                ..counts
            },
            Which::Rename => Counts {
                rename: counts.rename.saturating_add(1),
                ..counts
            },
            Which::SetAttrs => Counts {
                set_attrs: counts.set_attrs.saturating_add(1),
                ..counts
            },
            Which::Land => Counts {
                land: counts.land.saturating_add(1),
                ..counts
            },
            Which::Sweep => Counts {
                sweep: counts.sweep.saturating_add(1),
                ..counts
            },
            Which::Create => Counts {
                create: counts.create.saturating_add(1),
                ..counts
            },
            Which::Append => Counts {
                append: counts.append.saturating_add(1),
                ..counts
            },
            Which::Digest => Counts {
                digest: counts.digest.saturating_add(1),
                ..counts
            },
            Which::Seal => Counts {
                seal: counts.seal.saturating_add(1),
                ..counts
            },
        }
    }
}

/// What becomes of a call.
#[derive(Clone, Copy)]
pub enum Fate {
    /// It goes through, or is refused for a reason of its own.
    Goes,
    /// It fails, and changes nothing.
    Fails,
    /// It fails, after a change that it makes to the tree.
    FailsDone,
}

impl Fate {
    // Whether the call fails.
    pub fn fails(self) -> bool
        ensures { result ≡ fails self }
    {
        match self {
            Fate::Goes => false,
            Fate::Fails => true,
            Fate::FailsDone => true,
        }
    }
}

// Whether the call that makes `now` of `before` is the one of its kind that the entry counts to.
fn is_nth(before: &Counts, now: &Counts, fail: &Fail) -> bool
    ensures { result ≡ is_nth before.now now.now fail.now }
{
    before.number(fail.which) < fail.nth && fail.nth <= now.number(fail.which)
}

// Whether that one was made before, and all calls after it are to fail.
fn is_later(before: &Counts, fail: &Fail) -> bool
    ensures { result ≡ is_later before.now fail.now }
{
    fail.then_all && 1 <= fail.nth && fail.nth <= before.number(fail.which)
}

// Whether the entry names the call.
fn is_named(before: &Counts, now: &Counts, fail: &Fail) -> bool
    ensures { result ≡ is_named before.now now.now fail.now }
{
    is_nth(before, now, fail) || is_later(before, fail)
}

// The first entry that names the call.
fn first_named<'f>(fails: &'f [Fail], before: &Counts, now: &Counts) -> Option<&'f Fail>
    ensures { option_copied result ≡ find (is_named before.now now.now) fails.now }
{
    fails.iter().find(|fail| is_named(before, now, fail))
}

// What an entry that names the call makes of it.
fn fate_of(fail: &Fail, before: &Counts, now: &Counts) -> Fate
    ensures { result ≡ fate_by before.now now.now (Some fail.now) }
{
    if is_nth(before, now, fail) && fail.done {
        Fate::FailsDone
    } else {
        Fate::Fails
    }
}

// What the first entry that names the call makes of it.
fn decide(fails: &[Fail], before: &Counts, now: &Counts) -> Fate
    ensures { result ≡ fate_by before.now now.now (find (is_named before.now now.now) fails.now) }
{
    match first_named(fails, before, now) {
        None => Fate::Goes,
        Some(fail) => fate_of(fail, before, now),
    }
}

/// The calls on one object so far.
#[derive(Clone, Copy)]
pub struct Calls {
    /// How many there were.
    pub counts: Counts,
    /// How many of them failed; it stands still at the last value of 64 bits.
    pub faults: u64,
}

impl Calls {
    // None was made.
    pub fn new() -> Calls
        ensures { result ≡ no_calls }
    {
        Calls {
            counts: Counts::new(),
            faults: 0,
        }
    }

    // Counts a call of a kind, and its fault if it fails, and answers what becomes of it by the list.
    #[tactic(auto, using(crate::proofs::SteadyLemmas::never_fails, crate::proofs::SteadyLemmas::stays_steady, crate::proofs::SteadyLemmas::both_steady))]
    pub fn count(&mut self, list: &Fails, which: Which) -> Fate
        ensures fate { result ≡ next_fate list.now which self.old }
        ensures after { self.new ≡ after_call list.now which self.old }
        ensures later { self.old.faults ≤ self.new.faults }
        ensures rose { IsTrue (fails result) → Rose self.old.faults self.new.faults }
        ensures calm { steady_at (is_steady list.now) self.new.faults ≡ steady_at (is_steady list.now) self.old.faults }
        ensures both { (others : Bool) → steady_at (is_steady list.now && others) self.new.faults ≡ steady_at (is_steady list.now && others) self.old.faults }
        ensures never { is_steady list.now ≡ true → fails result ≡ false }
    {
        let now = self.counts.after(which);
        let fate = decide(list.as_slice(), &self.counts, &now);
        self.counts = now;
        if fate.fails() {
            self.faults = self.faults.saturating_add(1);
        }
        fate
    }

    // Counts a call that is not made where it fails, and answers whether it fails.
    pub fn fails(&mut self, list: &Fails, which: Which) -> bool
        ensures named { result ≡ fails_next list.now which self.old }
        ensures after { self.new ≡ after_call list.now which self.old }
        ensures later { self.old.faults ≤ self.new.faults }
        ensures rose { IsTrue result → Rose self.old.faults self.new.faults }
        ensures calm { steady_at (is_steady list.now) self.new.faults ≡ steady_at (is_steady list.now) self.old.faults }
        ensures both { (others : Bool) → steady_at (is_steady list.now && others) self.new.faults ≡ steady_at (is_steady list.now && others) self.old.faults }
        ensures never { is_steady list.now ≡ true → result ≡ false }
    {
        self.count(list, which).fails()
    }
}
