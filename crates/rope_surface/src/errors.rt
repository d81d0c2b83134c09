//! The variants of `Error`, each with the order of its fields, by the text that it prints.
ghost use Rattle.std.specs.Prelude.{◌≡◌, ◌++◌, codes, IfOk};
ghost use Rattle.std.specs.Fmt.{decimal};
ghost use Rattle.std.specs.String.{string_bytes};
ghost use Rattle.rope_text.specs.ErrorText.{error_text, range_text};

use ropey::Error;
use std::alloc::{AllocError, Global};

/// Makes the error of a byte index past the end.
pub fn byte_index_out_of_bounds(index: usize, len: usize) -> Error
    ensures { error_text result ≡ codes "Byte index out of bounds: byte index "
        ++ (decimal index ++ (codes ", Rope/RopeSlice byte length " ++ decimal len)) }
{
    Error::ByteIndexOutOfBounds(index, len)
}

/// Makes the error of a character index past the end.
pub fn char_index_out_of_bounds(index: usize, len: usize) -> Error
    ensures { error_text result ≡ codes "Char index out of bounds: char index "
        ++ (decimal index ++ (codes ", Rope/RopeSlice char length " ++ decimal len)) }
{
    Error::CharIndexOutOfBounds(index, len)
}

/// Makes the error of a line past the last.
pub fn line_index_out_of_bounds(line: usize, lines: usize) -> Error
    ensures { error_text result ≡ codes "Line index out of bounds: line index "
        ++ (decimal line ++ (codes ", Rope/RopeSlice line count " ++ decimal lines)) }
{
    Error::LineIndexOutOfBounds(line, lines)
}

/// Makes the error of a UTF-16 code unit past the end.
pub fn utf16_index_out_of_bounds(index: usize, len: usize) -> Error
    ensures { error_text result ≡ codes "Utf16 code-unit index out of bounds: utf16 index "
        ++ (decimal index ++ (codes ", Rope/RopeSlice utf16 length " ++ decimal len)) }
{
    Error::Utf16IndexOutOfBounds(index, len)
}

/// Makes the error of a byte index inside a character.
pub fn byte_index_not_char_boundary(index: usize) -> Error
    ensures { error_text result
        ≡ codes "Byte index is not a valid char boundary: byte index " ++ decimal index }
{
    Error::ByteIndexNotCharBoundary(index)
}

/// Makes the error of a byte range with a bound inside a character.
pub fn byte_range_not_char_boundary(start: Option<usize>, end: Option<usize>) -> Error
    ensures { error_text result
        ≡ codes "Byte range does not align with char boundaries: range " ++ range_text start end }
{
    Error::ByteRangeNotCharBoundary(start, end)
}

/// Makes the error of a byte range whose start is past its end.
pub fn byte_range_invalid(start: usize, end: usize) -> Error
    ensures { error_text result ≡ codes "Invalid byte range "
        ++ (decimal start ++ (codes ".." ++ (decimal end ++ codes ": start must be <= end"))) }
{
    Error::ByteRangeInvalid(start, end)
}

/// Makes the error of a character range whose start is past its end.
pub fn char_range_invalid(start: usize, end: usize) -> Error
    ensures { error_text result ≡ codes "Invalid char range "
        ++ (decimal start ++ (codes ".." ++ (decimal end ++ codes ": start must be <= end"))) }
{
    Error::CharRangeInvalid(start, end)
}

/// Makes the error of a byte range past the end.
pub fn byte_range_out_of_bounds(start: Option<usize>, end: Option<usize>, len: usize) -> Error
    ensures { error_text result ≡ codes "Byte range out of bounds: byte range "
        ++ (range_text start end ++ (codes ", Rope/RopeSlice byte length " ++ decimal len)) }
{
    Error::ByteRangeOutOfBounds(start, end, len)
}

/// Makes the error of a character range past the end.
pub fn char_range_out_of_bounds(start: Option<usize>, end: Option<usize>, len: usize) -> Error
    ensures { error_text result ≡ codes "Char range out of bounds: char range "
        ++ (range_text start end ++ (codes ", Rope/RopeSlice char length " ++ decimal len)) }
{
    Error::CharRangeOutOfBounds(start, end, len)
}

/// Makes the errors that have no fields.
pub fn without_fields() -> (Error, Error, Error)
    ensures too_long { error_text result.0 ≡ codes "Text would be longer than isize::MAX bytes" }
    ensures out_of_memory { error_text result.1 ≡ codes "Out of memory" }
    ensures differ { error_text result.2 ≡ codes "Ropes have different line breaks" }
{
    (Error::TooLong, Error::OutOfMemory, Error::LineBreaksDiffer)
}

/// Prints an error by `Display` and by `Debug`.
pub fn printed(alloc: Global, error: Error) -> Result<(String, String), AllocError>
    ensures display { IfOk result (λ texts. string_bytes texts.0 ≡ error_text error) }
    ensures debug { IfOk result (λ texts. string_bytes texts.1 ≡ error_text error) }
{
    let display = format!(in alloc; "{error}")?;
    let debug = format!(in alloc; "{error:?}")?;
    Ok((display, debug))
}

/// Takes any error of the standard library's trait.
fn is_error<E: std::error::Error>(_error: &E) -> bool {
    true
}

/// Copies an error, compares the copy, and passes it as an error of the standard library.
pub fn as_std_error(error: Error) -> bool {
    let copy = error;
    is_error(&copy) && copy == error
}
