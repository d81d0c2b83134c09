//! Slices, lines and cursors of slices.
ghost use Rattle.std.specs.Prelude.{◌≡◌, ◌-◌, ◌<◌, ◌≤◌, length, IfOk, IfSome};
ghost use Rattle.std.specs.Str.{encode_utf8_all};
ghost use Rattle.rope_text.specs.LastBreak.{last_break_len};
ghost use Rattle.rope_text.specs.LineParts.{line_of, lines_of, part_between};
ghost use Rattle.rope_text.specs.Lines.{line_count};
ghost use Rattle.rope_text.specs.Lookup.{chunk_place_at_byte, chunk_place_at_char, chunk_place_at_line_break};
ghost use Rattle.rope_text.specs.Sides.{at_place, at_start};
ghost use Rattle.rope_text.specs.Text.{byte_len};
ghost use Rattle.rope_slice.specs.Found.{StandsBefore};
ghost use Rattle.rope_slice.specs.Ranges.{GivesBytes, GivesChars, IsByteSlice};
ghost use Rattle.rope_slice.specs.Sliced.{HasByteRange, HasCharRange, IsByteRange, IsCharRange};
ghost use Rattle.rope_slice.specs.Slice.{breaks_of, chunks_of, content_of, text_of};

use rope_text::TextInfo;
use ropey::iter::{Bytes, Chars, Chunks, Lines};
use ropey::{IndexRange, Result, RopeSlice};

/// Returns a range of characters of a slice.
pub fn slice<'a, R: IndexRange>(slice: &RopeSlice<'a>, range: R) -> RopeSlice<'a>
    requires { HasCharRange (text_of slice.now) (R.given_start range) (R.given_end range) }
    ensures { IsCharRange (content_of slice.now) (R.given_start range) (R.given_end range)
        (content_of result) }
{
    slice.slice(range)
}

/// Returns any range of characters of a slice.
pub fn get_slice<'a, R: IndexRange>(slice: &RopeSlice<'a>, range: R) -> Option<RopeSlice<'a>>
    ensures { GivesChars (content_of slice.now) (R.given_start range) (R.given_end range) result }
{
    slice.get_slice(range)
}

/// Returns a range of bytes of a slice.
pub fn byte_slice<'a, R: IndexRange>(slice: &RopeSlice<'a>, range: R) -> RopeSlice<'a>
    requires { HasByteRange (text_of slice.now) (R.given_start range) (R.given_end range) }
    ensures { IsByteRange (content_of slice.now) (R.given_start range) (R.given_end range)
        (content_of result) }
{
    slice.byte_slice(range)
}

/// Returns any range of bytes of a slice, or why there is none.
pub fn try_byte_slice<'a, R: IndexRange>(slice: &RopeSlice<'a>, range: R) -> Result<RopeSlice<'a>>
    ensures { IfOk result
        (IsByteSlice (content_of slice.now) (R.given_start range) (R.given_end range)) }
{
    slice.try_byte_slice(range)
}

/// Returns any range of bytes of a slice.
pub fn get_byte_slice<'a, R: IndexRange>(slice: &RopeSlice<'a>, range: R) -> Option<RopeSlice<'a>>
    ensures { GivesBytes (content_of slice.now) (R.given_start range) (R.given_end range) result }
{
    slice.get_byte_slice(range)
}

/// Returns a line of a slice.
pub fn line<'a>(slice: &RopeSlice<'a>, line_idx: usize) -> RopeSlice<'a>
    requires { line_idx < line_count (breaks_of slice.now) (text_of slice.now) }
    ensures { content_of result ≡ line_of (content_of slice.now) line_idx }
{
    slice.line(line_idx)
}

/// Returns any line of a slice.
pub fn get_line<'a>(slice: &RopeSlice<'a>, line_idx: usize) -> Option<RopeSlice<'a>>
    ensures { IfSome result (λ line. content_of line ≡ line_of (content_of slice.now) line_idx) }
{
    slice.get_line(line_idx)
}

/// Returns a slice without its line break, and that line break.
pub fn without_break<'a>(slice: &RopeSlice<'a>) -> (RopeSlice<'a>, RopeSlice<'a>)
    ensures front { content_of result.0 ≡ part_between (content_of slice.now) 0
        (length (text_of slice.now) - last_break_len (breaks_of slice.now) (text_of slice.now)) }
    ensures rest { content_of result.1 ≡ part_between (content_of slice.now)
        (length (text_of slice.now) - last_break_len (breaks_of slice.now) (text_of slice.now))
        (length (text_of slice.now)) }
{
    (slice.without_break(), slice.line_break())
}

/// Starts a cursor at the first byte of a slice.
pub fn bytes<'a>(slice: &RopeSlice<'a>) -> Bytes<'a>
    ensures { result ≡ at_start (encode_utf8_all (text_of slice.now)) }
{
    slice.bytes()
}

/// Starts a cursor at a byte of a slice.
pub fn bytes_at<'a>(slice: &RopeSlice<'a>, byte_idx: usize) -> Bytes<'a>
    requires { byte_idx ≤ byte_len (text_of slice.now) }
    ensures { result ≡ at_place (encode_utf8_all (text_of slice.now)) byte_idx }
{
    slice.bytes_at(byte_idx)
}

/// Starts a cursor at any byte of a slice.
pub fn get_bytes_at<'a>(slice: &RopeSlice<'a>, byte_idx: usize) -> Option<Bytes<'a>>
    ensures { IfSome result
        (λ cursor. cursor ≡ at_place (encode_utf8_all (text_of slice.now)) byte_idx) }
{
    slice.get_bytes_at(byte_idx)
}

/// Starts a cursor at the first character of a slice.
pub fn chars<'a>(slice: &RopeSlice<'a>) -> Chars<'a>
    ensures { result ≡ at_start (text_of slice.now) }
{
    slice.chars()
}

/// Starts a cursor at a character of a slice.
pub fn chars_at<'a>(slice: &RopeSlice<'a>, char_idx: usize) -> Chars<'a>
    requires { char_idx ≤ length (text_of slice.now) }
    ensures { result ≡ at_place (text_of slice.now) char_idx }
{
    slice.chars_at(char_idx)
}

/// Starts a cursor at any character of a slice.
pub fn get_chars_at<'a>(slice: &RopeSlice<'a>, char_idx: usize) -> Option<Chars<'a>>
    ensures { IfSome result (λ cursor. cursor ≡ at_place (text_of slice.now) char_idx) }
{
    slice.get_chars_at(char_idx)
}

/// Starts a cursor at the first line of a slice.
pub fn lines<'a>(slice: &RopeSlice<'a>) -> Lines<'a>
    ensures { result ≡ at_start (lines_of (content_of slice.now)) }
{
    slice.lines()
}

/// Starts a cursor at a line of a slice.
pub fn lines_at<'a>(slice: &RopeSlice<'a>, line_idx: usize) -> Lines<'a>
    requires { line_idx ≤ line_count (breaks_of slice.now) (text_of slice.now) }
    ensures { result ≡ at_place (lines_of (content_of slice.now)) line_idx }
{
    slice.lines_at(line_idx)
}

/// Starts a cursor at a line of a slice, with the counts of the text before it.
pub fn lines_and_counts_at<'a>(slice: &RopeSlice<'a>, line_idx: usize) -> (Lines<'a>, TextInfo)
    requires { line_idx ≤ line_count (breaks_of slice.now) (text_of slice.now) }
    ensures { result.0 ≡ at_place (lines_of (content_of slice.now)) line_idx }
{
    slice.lines_and_counts_at(line_idx)
}

/// Starts a cursor at any line of a slice.
pub fn get_lines_at<'a>(slice: &RopeSlice<'a>, line_idx: usize) -> Option<Lines<'a>>
    ensures { IfSome result
        (λ cursor. cursor ≡ at_place (lines_of (content_of slice.now)) line_idx) }
{
    slice.get_lines_at(line_idx)
}

/// Starts a cursor at the first chunk of a slice.
pub fn chunks<'a>(slice: &RopeSlice<'a>) -> Chunks<'a>
    ensures { result ≡ at_start (chunks_of slice.now) }
{
    slice.chunks()
}

/// Starts a cursor at the chunk of a byte of a slice.
pub fn chunks_at_byte<'a>(
    slice: &RopeSlice<'a>,
    byte_idx: usize,
) -> (Chunks<'a>, usize, usize, usize)
    requires { byte_idx ≤ byte_len (text_of slice.now) }
    ensures { StandsBefore (content_of slice.now)
        (chunk_place_at_byte (chunks_of slice.now) byte_idx) result }
{
    slice.chunks_at_byte(byte_idx)
}

/// Starts a cursor at the chunk of a character of a slice.
pub fn chunks_at_char<'a>(
    slice: &RopeSlice<'a>,
    char_idx: usize,
) -> (Chunks<'a>, usize, usize, usize)
    requires { char_idx ≤ length (text_of slice.now) }
    ensures { StandsBefore (content_of slice.now)
        (chunk_place_at_char (chunks_of slice.now) char_idx) result }
{
    slice.chunks_at_char(char_idx)
}

/// Starts a cursor at the chunk of a line break of a slice.
pub fn chunks_at_line_break<'a>(
    slice: &RopeSlice<'a>,
    line_idx: usize,
) -> (Chunks<'a>, usize, usize, usize)
    requires { line_idx ≤ line_count (breaks_of slice.now) (text_of slice.now) }
    ensures { StandsBefore (content_of slice.now)
        (chunk_place_at_line_break (breaks_of slice.now) (chunks_of slice.now) line_idx) result }
{
    slice.chunks_at_line_break(line_idx)
}

/// Starts a cursor at the chunk of any byte of a slice.
pub fn get_chunks_at_byte<'a>(
    slice: &RopeSlice<'a>,
    byte_idx: usize,
) -> Option<(Chunks<'a>, usize, usize, usize)>
    ensures { IfSome result
        (StandsBefore (content_of slice.now) (chunk_place_at_byte (chunks_of slice.now) byte_idx)) }
{
    slice.get_chunks_at_byte(byte_idx)
}

/// Starts a cursor at the chunk of any character of a slice.
pub fn get_chunks_at_char<'a>(
    slice: &RopeSlice<'a>,
    char_idx: usize,
) -> Option<(Chunks<'a>, usize, usize, usize)>
    ensures { IfSome result
        (StandsBefore (content_of slice.now) (chunk_place_at_char (chunks_of slice.now) char_idx)) }
{
    slice.get_chunks_at_char(char_idx)
}

/// Starts a cursor at the chunk of any line break of a slice.
pub fn get_chunks_at_line_break<'a>(
    slice: &RopeSlice<'a>,
    line_idx: usize,
) -> Option<(Chunks<'a>, usize, usize, usize)>
    ensures { IfSome result (StandsBefore (content_of slice.now)
        (chunk_place_at_line_break (breaks_of slice.now) (chunks_of slice.now) line_idx)) }
{
    slice.get_chunks_at_line_break(line_idx)
}
