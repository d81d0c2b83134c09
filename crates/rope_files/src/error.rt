//! Why nothing was read, and why not all was written.
//!
//! `ReadAnyError::UnpairedSurrogate(7)` prints `Unpaired surrogate: byte offset 7`.
ghost use Rattle.std.specs.Prelude.{Some};
ghost use Rattle.rope_files.specs.ErrorText.{read_error_text, write_error_text};

use ropey::Error;
use std::{fmt, io};

/// Why no rope was read.
#[derive(Drop)]
pub enum ReadAnyError {
    /// The reader failed, with this error.
    Read(io::Error),
    /// The encoding that was declared has a mark, and the file doesn't begin with it.
    NoMark,
    /// The bytes are not UTF-8.
    InvalidUtf8,
    /// A code unit of UTF-16 is half of a pair and stands alone: its byte offset in the file. The
    /// offset stops at `u64::MAX`.
    UnpairedSurrogate(u64),
    /// The file ends with half of a code unit of UTF-16: its byte offset. The offset stops at
    /// `u64::MAX`.
    HalfCodeUnit(u64),
    /// The text would be too long, or memory was refused.
    Rope(Error),
}

/// What a call that reads a file returns.
pub type ReadAnyResult<T> = Result<T, ReadAnyError>;

/// Why a text was not written whole.
#[derive(Drop)]
pub enum WriteAsError {
    /// The encoding can't have a character of the text: the index of the first one, in characters.
    /// Nothing was written.
    Unencodable(usize),
    /// The writer failed, with this error. A beginning of the file was written.
    Write(io::Error),
}

impl fmt::Display for ReadAnyError {
    ghost output = { λ e. Some (read_error_text e) };

    fn fmt<W: fmt::Write>(&self, f: &mut fmt::Formatter<W>) -> fmt::Result {
        match self {
            ReadAnyError::Read(_) => write!(f, "Read failed"),
            ReadAnyError::NoMark => write!(f, "No byte order mark"),
            ReadAnyError::InvalidUtf8 => write!(f, "stream did not contain valid UTF-8"),
            ReadAnyError::UnpairedSurrogate(at) => {
                write!(f, "Unpaired surrogate: byte offset {at}")
            }
            ReadAnyError::HalfCodeUnit(at) => write!(f, "Half a code unit: byte offset {at}"),
            ReadAnyError::Rope(error) => write!(f, "{error}"),
        }
    }
}

impl fmt::Debug for ReadAnyError {
    ghost debug_output = { λ e. Some (read_error_text e) };

    fn fmt<W: fmt::Write>(&self, f: &mut fmt::Formatter<W>) -> fmt::Result {
        fmt::Display::fmt(self, f)
    }
}

impl std::error::Error for ReadAnyError {}

impl fmt::Display for WriteAsError {
    ghost output = { λ e. Some (write_error_text e) };

    fn fmt<W: fmt::Write>(&self, f: &mut fmt::Formatter<W>) -> fmt::Result {
        match self {
            WriteAsError::Unencodable(index) => {
                write!(f, "Character not in the encoding: char index {index}")
            }
            WriteAsError::Write(_) => write!(f, "Write failed"),
        }
    }
}

impl fmt::Debug for WriteAsError {
    ghost debug_output = { λ e. Some (write_error_text e) };

    fn fmt<W: fmt::Write>(&self, f: &mut fmt::Formatter<W>) -> fmt::Result {
        fmt::Display::fmt(self, f)
    }
}

impl std::error::Error for WriteAsError {}
