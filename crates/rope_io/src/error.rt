//! The reasons why no rope was read: the device failed, its bytes are no text, or the rope failed.
ghost use Rattle.std.specs.Prelude.{◌≡◌, Some};
ghost use Rattle.rope_io.specs.ReadErrorText.{read_error_text};
ghost use Rattle.rope_text.specs.declared.error.Error.TheVariants.{OutOfMemory};
ghost use Rattle.rope_io.specs.declared.error.ReadError.TheVariants.{Rope};

use rope_text::Error;
use std::alloc::AllocError;
use std::{fmt, io};

/// The reason why no rope was read.
#[derive(Drop)]
pub enum ReadError {
    /// The reader failed, with this error.
    Read(io::Error),
    /// The bytes are not UTF-8.
    InvalidData,
    /// The text would be too long, or an allocation failed.
    Rope(Error),
}

/// The result of a call that reads a text.
pub type ReadResult<T> = Result<T, ReadError>;

impl From<Error> for ReadError {
    ghost from_gives = { λ e r. r ≡ Rope e };

    fn from(error: Error) -> ReadError {
        ReadError::Rope(error)
    }
}

impl From<AllocError> for ReadError {
    ghost from_gives = { λ _ r. r ≡ Rope OutOfMemory };

    fn from(_error: AllocError) -> ReadError {
        ReadError::Rope(Error::OutOfMemory)
    }
}

impl fmt::Display for ReadError {
    ghost output = { λ e. Some (read_error_text e) };

    fn fmt<W: fmt::Write>(&self, f: &mut fmt::Formatter<W>) -> fmt::Result {
        match self {
            ReadError::Read(_) => write!(f, "Read failed"),
            ReadError::InvalidData => write!(f, "stream did not contain valid UTF-8"),
            ReadError::Rope(error) => write!(f, "{error}"),
        }
    }
}

impl fmt::Debug for ReadError {
    ghost debug_output = { λ e. Some (read_error_text e) };

    fn fmt<W: fmt::Write>(&self, f: &mut fmt::Formatter<W>) -> fmt::Result {
        fmt::Display::fmt(self, f)
    }
}

impl std::error::Error for ReadError {}
