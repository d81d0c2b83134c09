//! The errors of all calls, and their texts.
//!
//! `Error::CharIndexOutOfBounds(8, 5)` prints `Char index out of bounds: char index 8,
//! Rope/RopeSlice char length 5`.
ghost use Rattle.std.specs.Prelude.{◌≡◌, ◌++◌, Some, codes};
ghost use Rattle.std.specs.Fmt.{decimal, WritesOnOk};
ghost use Rattle.rope_text.specs.declared.error.Error.TheVariants.{OutOfMemory};
ghost use Rattle.rope_text.specs.ErrorText.{bound_text, error_text, range_text};

use std::alloc::{AllocError, AllocFailed};
use std::fmt;

/// The reason why a call failed.
///
/// `Display` and `Debug` print the same text, which is ropey's for the errors that ropey has.
#[derive(Clone, Copy, PartialEq, Eq)]
#[non_exhaustive]
pub enum Error {
    /// A byte index past the end: the index, and the length in bytes.
    ByteIndexOutOfBounds(usize, usize),
    /// A character index past the end: the index, and the length in characters.
    CharIndexOutOfBounds(usize, usize),
    /// A line index past the last line: the index, and the number of lines.
    LineIndexOutOfBounds(usize, usize),
    /// A UTF-16 index past the end: the index, and the length in code units.
    Utf16IndexOutOfBounds(usize, usize),
    /// A byte index inside a character. No call of `ropey` returns it; the library for C does.
    ByteIndexNotCharBoundary(usize),
    /// A byte range that starts or ends inside a character: its bounds as given.
    ByteRangeNotCharBoundary(Option<usize>, Option<usize>),
    /// A byte range whose start is past its end.
    ByteRangeInvalid(usize, usize),
    /// A character range whose start is past its end.
    CharRangeInvalid(usize, usize),
    /// A byte range past the end: its bounds as given, and the length in bytes.
    ByteRangeOutOfBounds(Option<usize>, Option<usize>, usize),
    /// A character range past the end: its bounds as given, and the length in characters.
    CharRangeOutOfBounds(Option<usize>, Option<usize>, usize),
    /// The text would have more than `isize::MAX` bytes.
    TooLong,
    /// An allocation failed.
    OutOfMemory,
    /// Two ropes to be joined have different sets of line breaks.
    LineBreaksDiffer,
}

/// The result of a call that may fail.
pub type Result<T> = std::result::Result<T, Error>;

/// A bound of a range as given: an open one prints nothing.
#[derive(Clone, Copy)]
struct Bound(Option<usize>);

impl fmt::Display for Bound {
    ghost output = { λ b. Some (bound_text b.0) };

    fn fmt<W: fmt::Write>(&self, f: &mut fmt::Formatter<W>) -> fmt::Result {
        match self.0 {
            None => Ok(()),
            Some(index) => write!(f, "{index}"),
        }
    }
}

/// The bounds of a range as given, printed as Rust writes a range.
#[derive(Clone, Copy)]
struct Bounds(Option<usize>, Option<usize>);

impl fmt::Display for Bounds {
    ghost output = { λ b. Some (range_text b.0 b.1) };

    fn fmt<W: fmt::Write>(&self, f: &mut fmt::Formatter<W>) -> fmt::Result {
        write!(f, "{}..{}", Bound(self.0), Bound(self.1))
    }
}

// Writes the text of an index out of bounds.
fn show_index<W: fmt::Write>(
    f: &mut fmt::Formatter<W>,
    index_is: &str,
    index: usize,
    length_is: &str,
    len: usize,
) -> fmt::Result
    ensures { WritesOnOk W.write_str_gives f.old result
        (index_is.now ++ (decimal index ++ (codes ", Rope/RopeSlice "
        ++ (length_is.now ++ decimal len)))) f.new }
{
    write!(f, "{index_is}{index}, Rope/RopeSlice {length_is}{len}")
}

// Writes the text of a range out of bounds.
fn show_range<W: fmt::Write>(
    f: &mut fmt::Formatter<W>,
    range_is: &str,
    range: Bounds,
    length_is: &str,
    len: usize,
) -> fmt::Result
    ensures { WritesOnOk W.write_str_gives f.old result
        (range_is.now ++ (range_text range.0 range.1 ++ (codes ", Rope/RopeSlice "
        ++ (length_is.now ++ decimal len)))) f.new }
{
    write!(f, "{range_is}{range}, Rope/RopeSlice {length_is}{len}")
}

// Writes the text of a range whose start is past its end.
fn show_invalid<W: fmt::Write>(
    f: &mut fmt::Formatter<W>,
    range_is: &str,
    start: usize,
    end: usize,
) -> fmt::Result
    ensures { WritesOnOk W.write_str_gives f.old result
        (range_is.now ++ (decimal start ++ (codes ".."
        ++ (decimal end ++ codes ": start must be <= end")))) f.new }
{
    write!(f, "{range_is}{start}..{end}: start must be <= end")
}

impl fmt::Display for Error {
    ghost output = { λ e. Some (error_text e) };

    fn fmt<W: fmt::Write>(&self, f: &mut fmt::Formatter<W>) -> fmt::Result {
        match *self {
            Error::ByteIndexOutOfBounds(index, len) => show_index(
                f,
                "Byte index out of bounds: byte index ",
                index,
                "byte length ",
                len,
            ),
            Error::CharIndexOutOfBounds(index, len) => show_index(
                f,
                "Char index out of bounds: char index ",
                index,
                "char length ",
                len,
            ),
            Error::LineIndexOutOfBounds(index, len) => show_index(
                f,
                "Line index out of bounds: line index ",
                index,
                "line count ",
                len,
            ),
            Error::Utf16IndexOutOfBounds(index, len) => show_index(
                f,
                "Utf16 code-unit index out of bounds: utf16 index ",
                index,
                "utf16 length ",
                len,
            ),
            Error::ByteIndexNotCharBoundary(index) => write!(
                f,
                "Byte index is not a valid char boundary: byte index {index}"
            ),
            Error::ByteRangeNotCharBoundary(start, end) => write!(
                f,
                "Byte range does not align with char boundaries: range {}",
                Bounds(start, end)
            ),
            Error::ByteRangeInvalid(start, end) => {
                show_invalid(f, "Invalid byte range ", start, end)
            }
            Error::CharRangeInvalid(start, end) => {
                show_invalid(f, "Invalid char range ", start, end)
            }
            Error::ByteRangeOutOfBounds(start, end, len) => show_range(
                f,
                "Byte range out of bounds: byte range ",
                Bounds(start, end),
                "byte length ",
                len,
            ),
            Error::CharRangeOutOfBounds(start, end, len) => show_range(
                f,
                "Char range out of bounds: char range ",
                Bounds(start, end),
                "char length ",
                len,
            ),
            Error::TooLong => f.write_str("Text would be longer than isize::MAX bytes"),
            Error::OutOfMemory => f.write_str("Out of memory"),
            Error::LineBreaksDiffer => f.write_str("Ropes have different line breaks"),
        }
    }
}

impl fmt::Debug for Error {
    ghost debug_output = { λ e. Some (error_text e) };

    fn fmt<W: fmt::Write>(&self, f: &mut fmt::Formatter<W>) -> fmt::Result {
        fmt::Display::fmt(self, f)
    }
}

impl std::error::Error for Error {}

impl From<AllocError> for Error {
    ghost from_gives = { λ _ e. e ≡ OutOfMemory };

    fn from(_e: AllocError) -> Error {
        Error::OutOfMemory
    }
}

impl<T: Drop> From<AllocFailed<T>> for Error {
    ghost from_gives = { λ _ e. e ≡ OutOfMemory };

    fn from(_e: AllocFailed<T>) -> Error {
        Error::OutOfMemory
    }
}
