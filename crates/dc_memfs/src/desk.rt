//! Desks in memory.
#![tactic(auto)]

ghost use Rattle.std.specs.Prelude.{◌≡◌, ◌≢◌, ◌≤◌, ◌+◌, ◌++◌, true, false, ℕ, length, List, Option, Some, None, IfOk, IfErr, OnOk, OnErr, IsSome, IsSomeAnd, IsTrue};
ghost use Rattle.std.specs.Option.{option_map};
ghost use Rattle.dc_fs.specs.Causes.{Rose, steady_at};
ghost use Rattle.md5.specs.Md5.{md5};
ghost use Rattle.dc_memfs.specs.Failing.{fails_next, is_steady};
ghost use Rattle.dc_memfs.specs.States.{desk_called, with_work, with_begun, new_desk, work_size, DeskFails};

use crate::calls::Calls;
use crate::{Fails, Which};
use dc_fs::{Desk, DeskError, Held};
use md5::{Digest, Md5};
use std::alloc::Global;
use std::marker::Model;

/// A sealed temporary in memory. It owns its bytes and tells them.
#[derive(Drop)]
pub struct MemTemp {
    bytes: Vec<u8>,
}

impl MemTemp {
    /// The bytes, out of the temporary.
    pub fn into_bytes(self) -> Vec<u8>
        ensures bytes { Some result.items ≡ ⟦<MemTemp as Held>⟧.content self }
        ensures size { length result.items ≡ ⟦<MemTemp as Held>⟧.size self }
    {
        let MemTemp { bytes } = self;
        bytes
    }
}

impl Held for MemTemp {
    ghost content = { λ temp. Some temp.bytes.items };

    ghost size = { λ temp. length temp.bytes.items };
}

/// A desk in memory. It owns the bytes of the temporary at work and tells them.
#[derive(Drop)]
pub struct MemDesk {
    at_work: Option<Vec<u8>>,
    made: u64,
    fails: Fails,
    calls: Calls,
}

impl Model for MemDesk {
    ghost use Rattle.std.specs.Option.{option_map};
    ghost use Rattle.dc_memfs.specs.States.{DeskState};

    ghost Value = { DeskState };

    ghost view = { λ d. record { at_work = option_map (λ bytes. bytes.items) d.at_work; made = d.made; fails = d.fails; calls = d.calls } };
}

impl MemDesk {
    // A desk on which nothing is at work, and on which these calls fail.
    pub(crate) fn new(fails: Fails) -> MemDesk
        ensures { result ≡ new_desk fails }
    {
        MemDesk {
            at_work: None,
            made: 0,
            fails,
            calls: Calls::new(),
        }
    }

    // Begins a call: counts it, and answers whether it fails.
    fn fails(&mut self, which: Which) -> bool
        ensures named { result ≡ fails_next self.old.fails which self.old.calls }
        ensures after { self.new ≡ desk_called which self.old }
        ensures later { self.old.calls.faults ≤ self.new.calls.faults }
        ensures rose { IsTrue result → Rose self.old.calls.faults self.new.calls.faults }
        ensures calm { steady_at (is_steady self.old.fails) self.new.calls.faults ≡ steady_at (is_steady self.old.fails) self.old.calls.faults }
        ensures never { is_steady self.old.fails ≡ true → result ≡ false }
    {
        self.calls.fails(&self.fails, which)
    }

    // How many temporaries were created.
    pub(crate) fn made(&self) -> u64
        ensures { result ≡ self.now.made }
    {
        self.made
    }

    // How often it has failed.
    pub(crate) fn faults(&self) -> u64
        ensures { result ≡ self.now.calls.faults }
    {
        self.calls.faults
    }
}

impl Desk for MemDesk {
    type Temp = MemTemp;

    ghost use Rattle.std.specs.Prelude.{true};

    ghost tells = { λ _. true };

    ghost current = { λ desk. option_map (λ bytes. Some bytes) desk.at_work };

    ghost size = { λ desk. work_size desk.at_work };

    ghost made = { λ desk. desk.made };

    ghost faults = { λ desk. desk.calls.faults };

    ghost steady = { λ desk. is_steady desk.fails };

    fn create(&mut self, alloc: Global) -> Result<(), DeskError>
        ensures begun { OnOk result (self.new ≡ with_begun (desk_called Which.Create self.old)) }
        ensures none { OnErr result (self.new ≡ with_work None (desk_called Which.Create self.old)) }
        ensures later { self.old.made ≤ self.new.made }
        ensures fails { DeskFails Which.Create self.old self.new result DeskError.Fault }
    {
        self.at_work = None;
        if self.fails(Which::Create) {
            return Err(DeskError::Fault);
        }
        self.at_work = Some(Vec::new(alloc));
        self.made = self.made.saturating_add(1);
        Ok(())
    }

    fn append(&mut self, _alloc: Global, bytes: &[u8]) -> Result<(), DeskError>
        requires { IsSome (⟦<MemDesk as Desk>⟧.current self.old) }
        ensures added { OnOk result (self.new ≡ with_work (option_map (λ old. old ++ bytes.now) self.old.at_work) (desk_called Which.Append self.old)) }
        ensures longer { OnOk result (work_size self.new.at_work ≡ work_size self.old.at_work + length bytes.now) }
        ensures stopped { OnErr result (self.new ≡ desk_called Which.Append self.old) }
        ensures fails { DeskFails Which.Append self.old self.new result DeskError.Fault }
    {
        if self.fails(Which::Append) {
            return Err(DeskError::Fault);
        }
        match &mut self.at_work {
            None => unreachable!(),
            Some(old) => match old.extend_from_slice(bytes) {
                Ok(()) => Ok(()),
                Err(_) => Err(DeskError::Memory),
            },
        }
    }

    /// The MD5 digest of the temporary at work, which stays as it is. It takes no memory.
    fn digest(&mut self, _alloc: Global) -> Result<[u8; 16], DeskError>
        requires { IsSome (⟦<MemDesk as Desk>⟧.current self.old) }
        ensures after { self.new ≡ desk_called Which.Digest self.old }
        ensures value { IfOk result (λ digest. IsSomeAnd self.old.at_work (λ bytes. digest ≡ md5 bytes)) }
        ensures fails { DeskFails Which.Digest self.old self.new result DeskError.Fault }
        ensures memory { IfErr result (λ e. e ≢ DeskError.Memory) }
    {
        if self.fails(Which::Digest) {
            return Err(DeskError::Fault);
        }
        match &self.at_work {
            None => unreachable!(),
            Some(bytes) => Ok(Md5::digest(bytes.as_slice())),
        }
    }

    fn seal(&mut self, _alloc: Global) -> Result<MemTemp, DeskError>
        requires { IsSome (⟦<MemDesk as Desk>⟧.current self.old) }
        ensures content { IfOk result (λ temp. Some (⟦<MemTemp as Held>⟧.content temp) ≡ ⟦<MemDesk as Desk>⟧.current self.old) }
        ensures size { IfOk result (λ temp. ⟦<MemTemp as Held>⟧.size temp ≡ ⟦<MemDesk as Desk>⟧.size self.old) }
        ensures after { self.new ≡ with_work None (desk_called Which.Seal self.old) }
        ensures fails { DeskFails Which.Seal self.old self.new result DeskError.Fault }
    {
        let at_work = self.at_work.take();
        if self.fails(Which::Seal) {
            return Err(DeskError::Fault);
        }
        match at_work {
            None => unreachable!(),
            Some(bytes) => Ok(MemTemp { bytes }),
        }
    }
}
