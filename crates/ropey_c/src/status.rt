//! The statuses that calls return: 0, or the number of the first reason for which a call fails.
ghost use Rattle.std.specs.Prelude.{◌≡◌, ◌<◌, IsOk, MatchResult};
ghost use Rattle.ropey_c.specs.Status.{status_of, given_breaks, number_of};
ghost use Rattle.ropey_c.specs.Answers.{Answers};

use ropey::{Error, LineBreaks, Result};

/// The call did what it says.
pub const OK: u32 = 0;
/// Out of memory.
pub const OUT_OF_MEMORY: u32 = 1;
/// A handle holds no rope.
pub const NO_ROPE_HELD: u32 = 2;
/// The bytes that were given aren't UTF-8.
pub const INVALID_UTF8: u32 = 3;
/// The number that was given is no Unicode scalar value.
pub const NOT_A_CHARACTER: u32 = 4;
/// The number that was given stands for no set of line breaks.
pub const UNKNOWN_BREAK_SET: u32 = 5;
/// A byte index lies past the end.
pub const BYTE_INDEX_OUT_OF_BOUNDS: u32 = 6;
/// A character index lies past the end.
pub const CHAR_INDEX_OUT_OF_BOUNDS: u32 = 7;
/// A line index lies past the last line.
pub const LINE_INDEX_OUT_OF_BOUNDS: u32 = 8;
/// A UTF-16 index lies past the end.
pub const UTF16_INDEX_OUT_OF_BOUNDS: u32 = 9;
/// A range of characters starts past its end.
pub const CHAR_RANGE_INVALID: u32 = 10;
/// A range of characters reaches past the end.
pub const CHAR_RANGE_OUT_OF_BOUNDS: u32 = 11;
/// A range of bytes starts past its end.
pub const BYTE_RANGE_INVALID: u32 = 12;
/// A range of bytes reaches past the end.
pub const BYTE_RANGE_OUT_OF_BOUNDS: u32 = 13;
/// A range of bytes starts or ends inside a character.
pub const BYTE_RANGE_NOT_CHAR_BOUNDARY: u32 = 14;
/// The text would have more than `isize::MAX` bytes.
pub const TOO_LONG: u32 = 15;
/// Two ropes that were to be joined have different sets of line breaks.
pub const BREAK_SETS_DIFFER: u32 = 16;
/// The caller's buffer has no room for the text.
pub const BUFFER_TOO_SMALL: u32 = 17;
/// A byte index lies inside a character.
pub const BYTE_INDEX_NOT_CHAR_BOUNDARY: u32 = 18;
/// A handle holds no builder.
pub const NO_BUILDER_HELD: u32 = 19;
/// A handle holds no changes.
pub const NO_CHANGES_HELD: u32 = 20;
/// A range starts before the end of the last replacement.
pub const CHAR_RANGE_OUT_OF_ORDER: u32 = 21;
/// A text has another length than the changes are for.
pub const LENGTHS_DIFFER: u32 = 22;
/// The number stands for no side of inserted text.
pub const UNKNOWN_SIDE: u32 = 23;
/// The number stands for no encoding.
pub const UNKNOWN_ENCODING: u32 = 24;
/// The bytes don't begin with the mark of their encoding.
pub const NO_MARK: u32 = 25;
/// A code unit of UTF-16 is half of a pair and stands alone.
pub const UNPAIRED_SURROGATE: u32 = 26;
/// The bytes end inside a code unit of UTF-16.
pub const HALF_CODE_UNIT: u32 = 27;
/// The encoding has no bytes for a character of the text.
pub const UNENCODABLE: u32 = 28;

/// The set of line breaks of LF alone.
pub const LF: u32 = 0;
/// The set of line breaks of LF, CR, and CR LF as one break.
pub const LF_CR: u32 = 1;
/// Unicode's set of line breaks.
pub const UNICODE: u32 = 2;

/// The side before inserted text.
pub const BEFORE: u32 = 0;
/// The side after inserted text.
pub const AFTER: u32 = 1;

/// Columns that count the bytes of UTF-8.
pub const UTF8: u32 = 0;
/// Columns that count the code units of UTF-16.
pub const UTF16: u32 = 1;
/// Columns that count characters.
pub const UTF32: u32 = 2;

/// A file in UTF-8.
pub const FILE_UTF8: u32 = 0;
/// A file in UTF-8 after a byte order mark.
pub const FILE_UTF8_BOM: u32 = 1;
/// A file in UTF-16, the low byte of each code unit first.
pub const FILE_UTF16_LE: u32 = 2;
/// A file in UTF-16 after a byte order mark, the low byte of each code unit first.
pub const FILE_UTF16_LE_BOM: u32 = 3;
/// A file in UTF-16, the high byte of each code unit first.
pub const FILE_UTF16_BE: u32 = 4;
/// A file in UTF-16 after a byte order mark, the high byte of each code unit first.
pub const FILE_UTF16_BE_BOM: u32 = 5;
/// A file in Latin-1.
pub const FILE_LATIN1: u32 = 6;
/// A file in the encoding that its byte order mark shows, or in UTF-8 if it has none.
pub const FILE_BY_MARK: u32 = 7;

// The status of an error.
pub(crate) fn status_of(error: Error) -> u32
    ensures value { result ≡ status_of error }
    ensures refused { 0 < result }
{
    match error {
        Error::ByteIndexOutOfBounds(_, _) => BYTE_INDEX_OUT_OF_BOUNDS,
        Error::CharIndexOutOfBounds(_, _) => CHAR_INDEX_OUT_OF_BOUNDS,
        Error::LineIndexOutOfBounds(_, _) => LINE_INDEX_OUT_OF_BOUNDS,
        Error::Utf16IndexOutOfBounds(_, _) => UTF16_INDEX_OUT_OF_BOUNDS,
        Error::CharRangeInvalid(_, _) => CHAR_RANGE_INVALID,
        Error::CharRangeOutOfBounds(_, _, _) => CHAR_RANGE_OUT_OF_BOUNDS,
        Error::ByteRangeInvalid(_, _) => BYTE_RANGE_INVALID,
        Error::ByteRangeOutOfBounds(_, _, _) => BYTE_RANGE_OUT_OF_BOUNDS,
        Error::TooLong => TOO_LONG,
        Error::OutOfMemory => OUT_OF_MEMORY,
        Error::LineBreaksDiffer => BREAK_SETS_DIFFER,
        Error::ByteIndexNotCharBoundary(_) => BYTE_INDEX_NOT_CHAR_BOUNDARY,
        Error::ByteRangeNotCharBoundary(_, _) => BYTE_RANGE_NOT_CHAR_BOUNDARY,
        // Every error has its number; a new one fails here.
        _ => unreachable!(),
    }
}

// The status of a result of a call of the rope.
pub(crate) fn status(returned: Result<()>) -> u32
    ensures answer { MatchResult returned (λ _. result ≡ OK) (λ e. result ≡ status_of e) }
    ensures ok { IsOk returned → result ≡ OK }
{
    match returned {
        Ok(()) => OK,
        Err(error) => status_of(error),
    }
}

// Writes a value that was found.
pub(crate) fn answer(found: Result<usize>, out: &mut usize) -> u32
    ensures { Answers found result out.old out.new }
{
    match found {
        Ok(value) => {
            *out = value;
            OK
        }
        Err(error) => status_of(error),
    }
}

// The set of line breaks that a number stands for.
pub(crate) fn given_breaks(number: u32) -> Option<LineBreaks>
    ensures { result ≡ given_breaks number }
{
    match number {
        LF => Some(LineBreaks::Lf),
        LF_CR => Some(LineBreaks::CrLf),
        UNICODE => Some(LineBreaks::Unicode),
        _ => None,
    }
}

// The number that stands for a set of line breaks.
pub(crate) fn number_of(breaks: LineBreaks) -> u32
    ensures { result ≡ number_of breaks }
{
    match breaks {
        LineBreaks::Lf => LF,
        LineBreaks::CrLf => LF_CR,
        LineBreaks::Unicode => UNICODE,
    }
}
