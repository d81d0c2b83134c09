//! Why a call fails: what a `DocumentError` says, and how it is printed.
//!
//! `DocumentError::LengthDiffers(7, 8)` prints `Text length differs: char length 8, the change is
//! for 7`.
ghost use Rattle.std.specs.Prelude.{Some};
ghost use Rattle.rope_documents.specs.ErrorText.{error_text};

use rope_position::Position;
use std::fmt;

/// Why a call fails.
#[derive(Clone, Copy, PartialEq, Eq, Debug)]
pub enum DocumentError {
    /// A range whose end lies before its start: its start and end.
    RangeInvalid(Position, Position),
    /// A text of another length than the change is for: the change's length, and the text's, in
    /// characters.
    LengthDiffers(usize, usize),
    /// A text and the text that is put into it have more than `isize::MAX` bytes together.
    TooLong,
    /// There is not enough memory.
    OutOfMemory,
}

impl fmt::Display for DocumentError {
    ghost output = { λ e. Some (error_text e) };

    fn fmt<W: fmt::Write>(&self, f: &mut fmt::Formatter<W>) -> fmt::Result {
        match *self {
            DocumentError::RangeInvalid(start, end) => write!(
                f,
                "Invalid range: start line {}, column {}, end line {}, column {}",
                start.line, start.column, end.line, end.column
            ),
            DocumentError::LengthDiffers(expected, len) => write!(
                f,
                "Text length differs: char length {len}, the change is for {expected}"
            ),
            DocumentError::TooLong => write!(f, "Text would be longer than isize::MAX"),
            DocumentError::OutOfMemory => write!(f, "Out of memory"),
        }
    }
}

impl std::error::Error for DocumentError {}
