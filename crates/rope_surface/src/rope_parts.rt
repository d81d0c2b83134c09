//! Slices, lines and cursors of ropes.
ghost use Rattle.std.specs.Prelude.{◌≡◌, ◌<◌, ◌≤◌, length, IfOk, IfSome};
ghost use Rattle.std.specs.Str.{encode_utf8_all};
ghost use Rattle.rope_text.specs.LineParts.{line_of, lines_of};
ghost use Rattle.rope_text.specs.Lines.{line_count};
ghost use Rattle.rope_text.specs.Lookup.{chunk_place_at_byte, chunk_place_at_char, chunk_place_at_line_break};
ghost use Rattle.rope_text.specs.Sides.{at_place, at_start};
ghost use Rattle.rope_text.specs.Text.{byte_len};
ghost use Rattle.rope_slice.specs.Found.{StandsBefore};
ghost use Rattle.rope_slice.specs.Ranges.{GivesBytes, GivesChars, IsByteSlice};
ghost use Rattle.rope_slice.specs.Sliced.{HasByteRange, HasCharRange, IsByteRange, IsCharRange};
ghost use Rattle.rope_slice.specs.Slice.{content_of};
ghost use Rattle.ropey.specs.View.{content};

use rope_text::TextInfo;
use ropey::iter::{Bytes, Chars, Chunks, Lines};
use ropey::{IndexRange, Result, Rope, RopeSlice};

/// Returns a range of characters of a rope.
pub fn slice<R: IndexRange>(rope: &Rope, range: R) -> RopeSlice<'_>
    requires { HasCharRange rope.now.text (R.given_start range) (R.given_end range) }
    ensures { IsCharRange (content rope.now) (R.given_start range) (R.given_end range)
        (content_of result) }
{
    rope.slice(range)
}

/// Returns any range of characters of a rope.
pub fn get_slice<R: IndexRange>(rope: &Rope, range: R) -> Option<RopeSlice<'_>>
    ensures { GivesChars (content rope.now) (R.given_start range) (R.given_end range) result }
{
    rope.get_slice(range)
}

/// Returns a range of bytes of a rope.
pub fn byte_slice<R: IndexRange>(rope: &Rope, range: R) -> RopeSlice<'_>
    requires { HasByteRange rope.now.text (R.given_start range) (R.given_end range) }
    ensures { IsByteRange (content rope.now) (R.given_start range) (R.given_end range)
        (content_of result) }
{
    rope.byte_slice(range)
}

/// Returns any range of bytes of a rope, or why there is none.
pub fn try_byte_slice<R: IndexRange>(rope: &Rope, range: R) -> Result<RopeSlice<'_>>
    ensures { IfOk result
        (IsByteSlice (content rope.now) (R.given_start range) (R.given_end range)) }
{
    rope.try_byte_slice(range)
}

/// Returns any range of bytes of a rope.
pub fn get_byte_slice<R: IndexRange>(rope: &Rope, range: R) -> Option<RopeSlice<'_>>
    ensures { GivesBytes (content rope.now) (R.given_start range) (R.given_end range) result }
{
    rope.get_byte_slice(range)
}

/// Returns a line of a rope.
pub fn line(rope: &Rope, line_idx: usize) -> RopeSlice<'_>
    requires { line_idx < line_count rope.now.breaks rope.now.text }
    ensures { content_of result ≡ line_of (content rope.now) line_idx }
{
    rope.line(line_idx)
}

/// Returns any line of a rope.
pub fn get_line(rope: &Rope, line_idx: usize) -> Option<RopeSlice<'_>>
    ensures { IfSome result (λ line. content_of line ≡ line_of (content rope.now) line_idx) }
{
    rope.get_line(line_idx)
}

/// Starts a cursor at the first byte of a rope.
pub fn bytes(rope: &Rope) -> Bytes<'_>
    ensures { result ≡ at_start (encode_utf8_all rope.now.text) }
{
    rope.bytes()
}

/// Starts a cursor at a byte of a rope.
pub fn bytes_at(rope: &Rope, byte_idx: usize) -> Bytes<'_>
    requires { byte_idx ≤ byte_len rope.now.text }
    ensures { result ≡ at_place (encode_utf8_all rope.now.text) byte_idx }
{
    rope.bytes_at(byte_idx)
}

/// Starts a cursor at any byte of a rope.
pub fn get_bytes_at(rope: &Rope, byte_idx: usize) -> Option<Bytes<'_>>
    ensures { IfSome result (λ cursor. cursor ≡ at_place (encode_utf8_all rope.now.text) byte_idx) }
{
    rope.get_bytes_at(byte_idx)
}

/// Starts a cursor at the first character of a rope.
pub fn chars(rope: &Rope) -> Chars<'_>
    ensures { result ≡ at_start rope.now.text }
{
    rope.chars()
}

/// Starts a cursor at a character of a rope.
pub fn chars_at(rope: &Rope, char_idx: usize) -> Chars<'_>
    requires { char_idx ≤ length rope.now.text }
    ensures { result ≡ at_place rope.now.text char_idx }
{
    rope.chars_at(char_idx)
}

/// Starts a cursor at any character of a rope.
pub fn get_chars_at(rope: &Rope, char_idx: usize) -> Option<Chars<'_>>
    ensures { IfSome result (λ cursor. cursor ≡ at_place rope.now.text char_idx) }
{
    rope.get_chars_at(char_idx)
}

/// Starts a cursor at the first line of a rope.
pub fn lines(rope: &Rope) -> Lines<'_>
    ensures { result ≡ at_start (lines_of (content rope.now)) }
{
    rope.lines()
}

/// Starts a cursor at a line of a rope.
pub fn lines_at(rope: &Rope, line_idx: usize) -> Lines<'_>
    requires { line_idx ≤ line_count rope.now.breaks rope.now.text }
    ensures { result ≡ at_place (lines_of (content rope.now)) line_idx }
{
    rope.lines_at(line_idx)
}

/// Starts a cursor at a line of a rope, with the counts of the text before it.
pub fn lines_and_counts_at(rope: &Rope, line_idx: usize) -> (Lines<'_>, TextInfo)
    requires { line_idx ≤ line_count rope.now.breaks rope.now.text }
    ensures { result.0 ≡ at_place (lines_of (content rope.now)) line_idx }
{
    rope.lines_and_counts_at(line_idx)
}

/// Starts a cursor at any line of a rope.
pub fn get_lines_at(rope: &Rope, line_idx: usize) -> Option<Lines<'_>>
    ensures { IfSome result (λ cursor. cursor ≡ at_place (lines_of (content rope.now)) line_idx) }
{
    rope.get_lines_at(line_idx)
}

/// Starts a cursor at the first chunk of a rope.
pub fn chunks(rope: &Rope) -> Chunks<'_>
    ensures { result ≡ at_start rope.now.chunks }
{
    rope.chunks()
}

/// Starts a cursor at the chunk of a byte of a rope.
pub fn chunks_at_byte(rope: &Rope, byte_idx: usize) -> (Chunks<'_>, usize, usize, usize)
    requires { byte_idx ≤ byte_len rope.now.text }
    ensures { StandsBefore (content rope.now)
        (chunk_place_at_byte rope.now.chunks byte_idx) result }
{
    rope.chunks_at_byte(byte_idx)
}

/// Starts a cursor at the chunk of a character of a rope.
pub fn chunks_at_char(rope: &Rope, char_idx: usize) -> (Chunks<'_>, usize, usize, usize)
    requires { char_idx ≤ length rope.now.text }
    ensures { StandsBefore (content rope.now)
        (chunk_place_at_char rope.now.chunks char_idx) result }
{
    rope.chunks_at_char(char_idx)
}

/// Starts a cursor at the chunk of a line break of a rope.
pub fn chunks_at_line_break(rope: &Rope, line_idx: usize) -> (Chunks<'_>, usize, usize, usize)
    requires { line_idx ≤ line_count rope.now.breaks rope.now.text }
    ensures { StandsBefore (content rope.now)
        (chunk_place_at_line_break rope.now.breaks rope.now.chunks line_idx) result }
{
    rope.chunks_at_line_break(line_idx)
}

/// Starts a cursor at the chunk of any byte of a rope.
pub fn get_chunks_at_byte(rope: &Rope, byte_idx: usize) -> Option<(Chunks<'_>, usize, usize, usize)>
    ensures { IfSome result
        (StandsBefore (content rope.now) (chunk_place_at_byte rope.now.chunks byte_idx)) }
{
    rope.get_chunks_at_byte(byte_idx)
}

/// Starts a cursor at the chunk of any character of a rope.
pub fn get_chunks_at_char(rope: &Rope, char_idx: usize) -> Option<(Chunks<'_>, usize, usize, usize)>
    ensures { IfSome result
        (StandsBefore (content rope.now) (chunk_place_at_char rope.now.chunks char_idx)) }
{
    rope.get_chunks_at_char(char_idx)
}

/// Starts a cursor at the chunk of any line break of a rope.
pub fn get_chunks_at_line_break(
    rope: &Rope,
    line_idx: usize,
) -> Option<(Chunks<'_>, usize, usize, usize)>
    ensures { IfSome result (StandsBefore (content rope.now)
        (chunk_place_at_line_break rope.now.breaks rope.now.chunks line_idx)) }
{
    rope.get_chunks_at_line_break(line_idx)
}
