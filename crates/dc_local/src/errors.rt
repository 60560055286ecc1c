//! Why a folder is not opened, and what an error of the machine answers.
#![tactic(auto)]

use dc_fs::{DeskError, ReadError, WriteError};
use std::io;
use std::io::ErrorKind;
use thiserror::Error;

/// Why a folder is not opened as a store.
#[derive(Debug, Drop, Error)]
pub enum LocalError {
    /// No folder stands there.
    #[error("NoFolder")]
    NoFolder,
    /// The catalogue of attributes has a line of another form.
    #[error("BadCatalogue")]
    BadCatalogue { line: u32 },
    /// The machine failed.
    #[error("Fault")]
    Fault,
    /// Memory ran out.
    #[error("Memory")]
    Memory,
}

// How a look that the machine refused is answered.
pub(crate) fn read_error(error: &io::Error) -> ReadError {
    match error.kind() {
        ErrorKind::NotFound => ReadError::Missing,
        ErrorKind::NotADirectory => ReadError::NotDir,
        ErrorKind::OutOfMemory => ReadError::Memory,
        _ => ReadError::Fault,
    }
}

// How a change that the machine refused is answered.
pub(crate) fn write_error(error: &io::Error) -> WriteError {
    match error.kind() {
        ErrorKind::NotFound => WriteError::Missing,
        ErrorKind::NotADirectory => WriteError::NotDir,
        ErrorKind::IsADirectory => WriteError::IsDir,
        ErrorKind::AlreadyExists => WriteError::Exists,
        ErrorKind::OutOfMemory => WriteError::Memory,
        _ => WriteError::Fault,
    }
}

// How a change is answered whose way was not found as it must be.
pub(crate) fn unchanged(error: ReadError) -> WriteError {
    match error {
        ReadError::Missing => WriteError::Missing,
        ReadError::NotDir => WriteError::NotDir,
        ReadError::Memory => WriteError::Memory,
        _ => WriteError::Fault,
    }
}

// How a desk answers a read that was refused.
pub(crate) fn desk_error(error: ReadError) -> DeskError {
    match error {
        ReadError::Memory => DeskError::Memory,
        _ => DeskError::Fault,
    }
}

// Why a folder is not opened.
pub(crate) fn unopened(error: ReadError) -> LocalError {
    match error {
        ReadError::Missing => LocalError::NoFolder,
        ReadError::NotDir => LocalError::NoFolder,
        ReadError::Memory => LocalError::Memory,
        _ => LocalError::Fault,
    }
}
