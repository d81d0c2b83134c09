//! Why a call of a change set fails: what a `ChangeError` says, and how it is printed.
//!
//! `ChangeError::RangeOutOfBounds(8, 7)` prints `Char range out of bounds: range end 8, text char
//! length 7`.
ghost use Rattle.std.specs.Prelude.{Some};
ghost use Rattle.rope_changes.specs.ErrorText.{error_text};

use std::fmt;

/// Why a call of a change set fails.
#[derive(Clone, Copy, PartialEq, Eq, Debug)]
pub enum ChangeError {
    /// A range whose start is past its end: its start and end.
    RangeInvalid(usize, usize),
    /// A range that ends past the text before the change: its end, and the length of that text in
    /// characters.
    RangeOutOfBounds(usize, usize),
    /// A range that starts before the end of the last replacement: its start, and that end.
    OutOfOrder(usize, usize),
    /// A text of another length than the change is for: the change's length, and the text's, in
    /// characters.
    LengthDiffers(usize, usize),
    /// The text would have more than `isize::MAX` characters or bytes.
    TooLong,
    /// There is not enough memory.
    OutOfMemory,
}

impl fmt::Display for ChangeError {
    ghost output = { λ e. Some (error_text e) };

    fn fmt<W: fmt::Write>(&self, f: &mut fmt::Formatter<W>) -> fmt::Result {
        match *self {
            ChangeError::RangeInvalid(start, end) => {
                write!(f, "Invalid char range {start}..{end}: start must be <= end")
            }
            ChangeError::RangeOutOfBounds(end, len) => write!(
                f,
                "Char range out of bounds: range end {end}, text char length {len}"
            ),
            ChangeError::OutOfOrder(start, last_end) => write!(
                f,
                "Char range out of order: range start {start}, last replacement end {last_end}"
            ),
            ChangeError::LengthDiffers(expected, len) => write!(
                f,
                "Text length differs: char length {len}, the change is for {expected}"
            ),
            ChangeError::TooLong => write!(f, "Text would be longer than isize::MAX"),
            ChangeError::OutOfMemory => write!(f, "Out of memory"),
        }
    }
}

impl std::error::Error for ChangeError {}
