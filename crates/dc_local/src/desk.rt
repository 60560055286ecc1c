//! Desks of folders: each temporary is a file in the folder of temporaries.
#![tactic(auto)]

ghost use Rattle.std.specs.Prelude.{◌≡◌, ◌+◌, ◌≤◌, ◌<◌, Some, None, false, length, IsSome, IfOk, IfErr, OnOk, OnErr};
ghost use Rattle.std.specs.Option.{option_map, is_some};
ghost use Rattle.dc_local.specs.AtWork.{bytes_at_work};

use crate::counts::{after_desk, one_more};
use crate::errors::desk_error;
use crate::folder::put;
use crate::reading::{digest_of, write_front};
use dc_fs::{Desk, DeskError, Held};
use std::alloc::{AllocError, Global};
use std::fmt::Write;
use std::fs;
use std::fs::File;
use std::io::ErrorKind;
use std::rt::Files;

/// A sealed temporary: the numbers that its file is named by, and how many bytes it has.
#[derive(Drop)]
pub struct LocalTemp {
    desk: u64,
    number: u64,
    bytes: u64,
}

impl LocalTemp {
    // How many bytes it has.
    pub(crate) fn bytes(&self) -> u64
        ensures { result ≡ ⟦<LocalTemp as Held>⟧.size self.now }
    {
        self.bytes
    }

    // Makes a buffer the text of its place.
    pub(crate) fn put_place(&self, scratch: &str, buffer: &mut String) -> Result<(), DeskError> {
        put_name(scratch, self.desk, self.number, buffer)
    }
}

impl Held for LocalTemp {
    ghost content = { λ _. None };

    ghost size = { λ temp. temp.bytes };
}

/// How many temporaries a folder of a desk has. Each desk makes files in folders of its own, of few names each: the machine
/// then makes and moves them at less cost, and no desk waits for another.
const FOLDER: u64 = 64;

// Makes a buffer the text of the place of the folder of a temporary.
fn put_folder(scratch: &str, desk: u64, number: u64, buffer: &mut String) -> Result<(), DeskError> {
    if put(buffer, scratch).is_err() {
        return Err(DeskError::Memory);
    }
    let folder = number / FOLDER;
    match write!(buffer, "/{desk}-{folder}") {
        Ok(()) => Ok(()),
        Err(_) => Err(DeskError::Memory),
    }
}

// Makes a buffer the text of the place of a temporary.
fn put_name(scratch: &str, desk: u64, number: u64, buffer: &mut String) -> Result<(), DeskError> {
    put_folder(scratch, desk, number, buffer)?;
    match write!(buffer, "/{number}") {
        Ok(()) => Ok(()),
        Err(_) => Err(DeskError::Memory),
    }
}

/// The most bytes of a temporary that are gathered before the machine is given them.
const GATHERED: usize = 65536;

/// A temporary at work.
#[derive(Drop)]
pub struct Begun {
    file: File,
    number: u64,
    // A write has failed, so the file lacks bytes that were added.
    torn: bool,
    pub bytes: u64,
}

/// A desk of a folder. It tells nothing of content.
#[derive(Drop)]
pub struct LocalDesk<'a, R: Files<File = File>> {
    rt: &'a R,
    // The text of the folder of temporaries.
    scratch: String,
    // The number of this desk, which no other desk of the target has.
    desk: u64,
    // The text of the place of the last temporary.
    place: String,
    current: Option<Begun>,
    // The last bytes that were added to the temporary at work, which its file does not have yet. There is room for
    // `GATHERED` bytes.
    gathered: Vec<u8>,
    made: u64,
    faults: u64,
}

impl<'a, R: Files<File = File>> LocalDesk<'a, R> {
    // A desk of this number, on which nothing is at work.
    pub(crate) fn new(
        rt: &'a R,
        alloc: Global,
        scratch: &str,
        desk: u64,
    ) -> Result<LocalDesk<'a, R>, AllocError>
        ensures idle { IfOk result (λ desk. desk.current ≡ None) }
        ensures made { IfOk result (λ desk. desk.made ≡ 0) }
        ensures faults { IfOk result (λ desk. desk.faults ≡ 0) }
    {
        Ok(LocalDesk {
            rt,
            scratch: String::from_str(alloc, scratch)?,
            desk,
            place: String::new(alloc),
            current: None,
            gathered: Vec::with_capacity(alloc, GATHERED)?,
            made: 0,
            faults: 0,
        })
    }

    // How many temporaries were created.
    pub(crate) fn made(&self) -> u64
        ensures { result ≡ self.now.made }
    {
        self.made
    }

    // How often it has failed.
    pub(crate) fn faults(&self) -> u64
        ensures { result ≡ self.now.faults }
    {
        self.faults
    }
}

// Makes the folder of the temporaries from this number on. An earlier try may have made it.
fn make_folder<R: Files<File = File>>(
    rt: &R,
    scratch: &str,
    desk: u64,
    number: u64,
    place: &mut String,
) -> Result<(), DeskError> {
    put_folder(scratch, desk, number, place)?;
    match fs::create_dir(rt, place.as_str()) {
        Ok(()) => Ok(()),
        Err(e) if e.kind() == ErrorKind::AlreadyExists => Ok(()),
        Err(_) => Err(DeskError::Fault),
    }
}

// Makes the file of a temporary, which was not there.
fn begin<R: Files<File = File>>(
    rt: &R,
    scratch: &str,
    desk: u64,
    number: u64,
    place: &mut String,
) -> Result<Begun, DeskError>
    ensures { IfOk result (λ begun. begun.bytes ≡ 0) }
{
    if number % FOLDER == 0 {
        make_folder(rt, scratch, desk, number, place)?;
    }
    put_name(scratch, desk, number, place)?;
    let mut options = File::options();
    options.read(true).write(true).create_new(true);
    match options.open(rt, place.as_str()) {
        Ok(file) => Ok(Begun {
            file,
            number,
            torn: false,
            bytes: 0,
        }),
        Err(_) => Err(DeskError::Fault),
    }
}

// Writes bytes at the end of the file of a temporary. After a failure it is torn, and nothing more is written to it.
fn write_out(begun: &mut Begun, bytes: &[u8]) -> Result<(), DeskError>
    ensures { begun.new.bytes ≡ begun.old.bytes }
{
    if begun.torn {
        return Err(DeskError::Fault);
    }
    if write_front(&mut begun.file, bytes) < bytes.len() {
        begun.torn = true;
        return Err(DeskError::Fault);
    }
    Ok(())
}

// Writes what was gathered to the file of a temporary.
fn flush(begun: &mut Begun, gathered: &mut Vec<u8>) -> Result<(), DeskError>
    ensures { begun.new.bytes ≡ begun.old.bytes }
{
    write_out(begun, gathered.as_slice())?;
    gathered.clear();
    Ok(())
}

// Adds bytes to a temporary. They are gathered, unless they are many. After a refusal none are added.
fn add(begun: &mut Begun, gathered: &mut Vec<u8>, bytes: &[u8]) -> Result<(), DeskError>
    ensures ok { OnOk result (begun.new.bytes ≡ begun.old.bytes + length bytes.now) }
    ensures err { OnErr result (begun.new.bytes ≡ begun.old.bytes) }
{
    let Some(whole) = begun.bytes.checked_add(bytes.len() as u64) else {
        return Err(DeskError::Fault);
    };
    if gathered.len().saturating_add(bytes.len()) > GATHERED {
        flush(begun, gathered)?;
    }
    if bytes.len() >= GATHERED {
        write_out(begun, bytes)?;
    } else if gathered.extend_from_slice(bytes).is_err() {
        return Err(DeskError::Memory);
    }
    begun.bytes = whole;
    Ok(())
}

// Adds bytes to the temporary at work, all of them or none.
fn add_at_work(
    current: &mut Option<Begun>,
    gathered: &mut Vec<u8>,
    bytes: &[u8],
) -> Result<(), DeskError>
    ensures longer { OnOk result (bytes_at_work current.new ≡ bytes_at_work current.old + length bytes.now) }
    ensures err { OnErr result (bytes_at_work current.new ≡ bytes_at_work current.old) }
    ensures same { is_some current.new ≡ is_some current.old }
{
    match current {
        Some(begun) => add(begun, gathered, bytes),
        None => Err(DeskError::Fault),
    }
}

// The digest of the temporary at work, read back from the machine.
fn digest_at_work(
    current: &mut Option<Begun>,
    gathered: &mut Vec<u8>,
) -> Result<[u8; 16], DeskError>
    ensures size { bytes_at_work current.new ≡ bytes_at_work current.old }
    ensures same { is_some current.new ≡ is_some current.old }
{
    match current {
        Some(begun) => {
            flush(begun, gathered)?;
            match digest_of(&begun.file, begun.bytes) {
                Ok(digest) => Ok(digest),
                Err(error) => Err(desk_error(error)),
            }
        }
        None => Err(DeskError::Fault),
    }
}

impl<'a, R: Files<File = File> + Sync> Desk for LocalDesk<'a, R> {
    type Temp = LocalTemp;

    ghost tells = { λ _. false };

    ghost current = { λ desk. option_map (λ _. None) desk.current };

    ghost size = { λ desk. bytes_at_work desk.current };

    ghost made = { λ desk. desk.made };

    ghost faults = { λ desk. desk.faults };

    ghost steady = { λ _. false };

    fn create(&mut self, _alloc: Global) -> Result<(), DeskError> {
        self.current = None;
        self.gathered.clear();
        match begin(
            self.rt,
            self.scratch.as_str(),
            self.desk,
            self.made,
            &mut self.place,
        ) {
            Ok(begun) => {
                self.current = Some(begun);
                self.made = one_more(self.made);
                Ok(())
            }
            Err(error) => {
                self.faults = after_desk(self.faults, error);
                Err(error)
            }
        }
    }

    fn append(&mut self, _alloc: Global, bytes: &[u8]) -> Result<(), DeskError> {
        match add_at_work(&mut self.current, &mut self.gathered, bytes) {
            Ok(()) => Ok(()),
            Err(error) => {
                self.faults = after_desk(self.faults, error);
                Err(error)
            }
        }
    }

    fn digest(&mut self, _alloc: Global) -> Result<[u8; 16], DeskError> {
        match digest_at_work(&mut self.current, &mut self.gathered) {
            Ok(digest) => Ok(digest),
            Err(error) => {
                self.faults = after_desk(self.faults, error);
                Err(error)
            }
        }
    }

    fn seal(&mut self, _alloc: Global) -> Result<LocalTemp, DeskError> {
        let Some(mut begun) = self.current.take() else {
            unreachable!();
        };
        match flush(&mut begun, &mut self.gathered) {
            Ok(()) => Ok(LocalTemp {
                desk: self.desk,
                number: begun.number,
                bytes: begun.bytes,
            }),
            Err(error) => {
                self.faults = after_desk(self.faults, error);
                Err(error)
            }
        }
    }
}
