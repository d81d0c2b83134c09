//! Look-ups and conversions of slices.
ghost use Rattle.std.specs.Prelude.{◌≡◌, ◌<◌, ◌≤◌, length, slice_get, Some, IfOk};
ghost use Rattle.std.specs.Str.{encode_utf8_all};
ghost use Rattle.rope_text.specs.Answer.{checked};
ghost use Rattle.rope_text.specs.Conversions.{byte_to_char, byte_to_line, char_to_byte, char_to_line, char_to_utf16, line_to_byte, line_to_char, utf16_to_char};
ghost use Rattle.rope_text.specs.Edit.{byte_index_error, char_index_error, line_index_error, utf16_index_error};
ghost use Rattle.rope_text.specs.Lines.{line_count};
ghost use Rattle.rope_text.specs.Lookup.{chunk_index_at_byte, chunk_index_at_char, chunk_index_at_line_break};
ghost use Rattle.rope_text.specs.Text.{byte_len, utf16_len};
ghost use Rattle.rope_slice.specs.Found.{GivesWithin, ShowsChunk};
ghost use Rattle.rope_slice.specs.Slice.{breaks_of, chunks_of, content_of, text_of};

use ropey::{Result, RopeSlice};

/// Converts a byte of a slice.
pub fn of_byte(slice: &RopeSlice<'_>, byte_idx: usize) -> (usize, usize)
    requires { byte_idx ≤ byte_len (text_of slice.now) }
    ensures character { result.0 ≡ byte_to_char (text_of slice.now) byte_idx }
    ensures line { result.1 ≡ byte_to_line (breaks_of slice.now) (text_of slice.now) byte_idx }
{
    (slice.byte_to_char(byte_idx), slice.byte_to_line(byte_idx))
}

/// Converts a character of a slice.
pub fn of_char(slice: &RopeSlice<'_>, char_idx: usize) -> (usize, usize, usize)
    requires { char_idx ≤ length (text_of slice.now) }
    ensures byte { result.0 ≡ char_to_byte (text_of slice.now) char_idx }
    ensures line { result.1 ≡ char_to_line (breaks_of slice.now) (text_of slice.now) char_idx }
    ensures unit { result.2 ≡ char_to_utf16 (text_of slice.now) char_idx }
{
    (
        slice.char_to_byte(char_idx),
        slice.char_to_line(char_idx),
        slice.char_to_utf16_cu(char_idx),
    )
}

/// Converts a UTF-16 code unit of a slice.
pub fn of_unit(slice: &RopeSlice<'_>, unit_idx: usize) -> usize
    requires { unit_idx ≤ utf16_len (text_of slice.now) }
    ensures { result ≡ utf16_to_char (text_of slice.now) unit_idx }
{
    slice.utf16_cu_to_char(unit_idx)
}

/// Converts a line of a slice.
pub fn of_line(slice: &RopeSlice<'_>, line_idx: usize) -> (usize, usize)
    requires { line_idx ≤ line_count (breaks_of slice.now) (text_of slice.now) }
    ensures byte { result.0 ≡ line_to_byte (breaks_of slice.now) (text_of slice.now) line_idx }
    ensures character { result.1 ≡ line_to_char (breaks_of slice.now) (text_of slice.now) line_idx }
{
    (slice.line_to_byte(line_idx), slice.line_to_char(line_idx))
}

/// Converts any byte of a slice.
pub fn try_of_byte(slice: &RopeSlice<'_>, byte_idx: usize) -> (Result<usize>, Result<usize>)
    ensures character { result.0
        ≡ checked (byte_index_error byte_idx (byte_len (text_of slice.now)))
        (byte_to_char (text_of slice.now) byte_idx) }
    ensures line { result.1 ≡ checked (byte_index_error byte_idx (byte_len (text_of slice.now)))
        (byte_to_line (breaks_of slice.now) (text_of slice.now) byte_idx) }
{
    (
        slice.try_byte_to_char(byte_idx),
        slice.try_byte_to_line(byte_idx),
    )
}

/// Converts any character of a slice.
pub fn try_of_char(
    slice: &RopeSlice<'_>,
    char_idx: usize,
) -> (Result<usize>, Result<usize>, Result<usize>)
    ensures byte { result.0 ≡ checked (char_index_error char_idx (length (text_of slice.now)))
        (char_to_byte (text_of slice.now) char_idx) }
    ensures line { result.1 ≡ checked (char_index_error char_idx (length (text_of slice.now)))
        (char_to_line (breaks_of slice.now) (text_of slice.now) char_idx) }
    ensures unit { result.2 ≡ checked (char_index_error char_idx (length (text_of slice.now)))
        (char_to_utf16 (text_of slice.now) char_idx) }
{
    (
        slice.try_char_to_byte(char_idx),
        slice.try_char_to_line(char_idx),
        slice.try_char_to_utf16_cu(char_idx),
    )
}

/// Converts any UTF-16 code unit of a slice.
pub fn try_of_unit(slice: &RopeSlice<'_>, unit_idx: usize) -> Result<usize>
    ensures { result ≡ checked (utf16_index_error unit_idx (utf16_len (text_of slice.now)))
        (utf16_to_char (text_of slice.now) unit_idx) }
{
    slice.try_utf16_cu_to_char(unit_idx)
}

/// Converts any line of a slice.
pub fn try_of_line(slice: &RopeSlice<'_>, line_idx: usize) -> (Result<usize>, Result<usize>)
    ensures byte { result.0 ≡ checked
        (line_index_error line_idx (line_count (breaks_of slice.now) (text_of slice.now)))
        (line_to_byte (breaks_of slice.now) (text_of slice.now) line_idx) }
    ensures character { result.1 ≡ checked
        (line_index_error line_idx (line_count (breaks_of slice.now) (text_of slice.now)))
        (line_to_char (breaks_of slice.now) (text_of slice.now) line_idx) }
{
    (
        slice.try_line_to_byte(line_idx),
        slice.try_line_to_char(line_idx),
    )
}

/// Returns a byte of a slice.
pub fn byte(slice: &RopeSlice<'_>, byte_idx: usize) -> u8
    requires { byte_idx < byte_len (text_of slice.now) }
    ensures { slice_get (encode_utf8_all (text_of slice.now)) byte_idx ≡ Some result }
{
    slice.byte(byte_idx)
}

/// Returns a character of a slice.
pub fn char(slice: &RopeSlice<'_>, char_idx: usize) -> char
    requires { char_idx < length (text_of slice.now) }
    ensures { slice_get (text_of slice.now) char_idx ≡ Some result }
{
    slice.char(char_idx)
}

/// Returns any byte of a slice.
pub fn get_byte(slice: &RopeSlice<'_>, byte_idx: usize) -> Option<u8>
    ensures { result ≡ slice_get (encode_utf8_all (text_of slice.now)) byte_idx }
{
    slice.get_byte(byte_idx)
}

/// Returns any character of a slice.
pub fn get_char(slice: &RopeSlice<'_>, char_idx: usize) -> Option<char>
    ensures { result ≡ slice_get (text_of slice.now) char_idx }
{
    slice.get_char(char_idx)
}

/// Returns the chunk at a byte of a slice.
pub fn chunk_at_byte<'a>(slice: &RopeSlice<'a>, byte_idx: usize) -> (&'a str, usize, usize, usize)
    requires { byte_idx ≤ byte_len (text_of slice.now) }
    ensures { ShowsChunk (content_of slice.now)
        (chunk_index_at_byte (chunks_of slice.now) byte_idx) result }
{
    slice.chunk_at_byte(byte_idx)
}

/// Returns the chunk at a character of a slice.
pub fn chunk_at_char<'a>(slice: &RopeSlice<'a>, char_idx: usize) -> (&'a str, usize, usize, usize)
    requires { char_idx ≤ length (text_of slice.now) }
    ensures { ShowsChunk (content_of slice.now)
        (chunk_index_at_char (chunks_of slice.now) char_idx) result }
{
    slice.chunk_at_char(char_idx)
}

/// Returns the chunk at a line break of a slice.
pub fn chunk_at_line_break<'a>(
    slice: &RopeSlice<'a>,
    line_idx: usize,
) -> (&'a str, usize, usize, usize)
    requires { line_idx ≤ line_count (breaks_of slice.now) (text_of slice.now) }
    ensures { ShowsChunk (content_of slice.now)
        (chunk_index_at_line_break (breaks_of slice.now) (chunks_of slice.now) line_idx) result }
{
    slice.chunk_at_line_break(line_idx)
}

/// Returns the chunk at any byte of a slice.
pub fn try_chunk_at_byte<'a>(
    slice: &RopeSlice<'a>,
    byte_idx: usize,
) -> Result<(&'a str, usize, usize, usize)>
    ensures { IfOk result
        (ShowsChunk (content_of slice.now) (chunk_index_at_byte (chunks_of slice.now) byte_idx)) }
{
    slice.try_chunk_at_byte(byte_idx)
}

/// Returns the chunk at any character of a slice.
pub fn get_chunk_at_char<'a>(
    slice: &RopeSlice<'a>,
    char_idx: usize,
) -> Option<(&'a str, usize, usize, usize)>
    ensures { GivesWithin char_idx (length (text_of slice.now)) result
        (ShowsChunk (content_of slice.now) (chunk_index_at_char (chunks_of slice.now) char_idx)) }
{
    slice.get_chunk_at_char(char_idx)
}

/// Returns the chunk at any line break of a slice.
pub fn get_chunk_at_line_break<'a>(
    slice: &RopeSlice<'a>,
    line_idx: usize,
) -> Option<(&'a str, usize, usize, usize)>
    ensures { GivesWithin line_idx (line_count (breaks_of slice.now) (text_of slice.now)) result
        (ShowsChunk (content_of slice.now)
        (chunk_index_at_line_break (breaks_of slice.now) (chunks_of slice.now) line_idx)) }
{
    slice.get_chunk_at_line_break(line_idx)
}
