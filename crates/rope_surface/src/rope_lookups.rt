//! Look-ups and conversions of ropes, with the calls that count their steps.
ghost use Rattle.std.specs.Prelude.{◌≡◌, ◌<◌, ◌≤◌, length, slice_get, Some};
ghost use Rattle.std.specs.Str.{encode_utf8_all};
ghost use Rattle.rope_text.specs.Answer.{checked};
ghost use Rattle.rope_text.specs.Conversions.{byte_to_char, byte_to_line, char_to_byte, char_to_line, char_to_utf16, line_to_byte, line_to_char, utf16_to_char};
ghost use Rattle.rope_text.specs.Edit.{byte_index_error, char_index_error, line_index_error, utf16_index_error};
ghost use Rattle.rope_text.specs.Lines.{line_count};
ghost use Rattle.rope_text.specs.Lookup.{chunk_index_at_byte, chunk_index_at_char, chunk_index_at_line_break};
ghost use Rattle.rope_text.specs.Text.{byte_len, utf16_len};
ghost use Rattle.rope_slice.specs.Found.{GivesWithin, ShowsChunk};
ghost use Rattle.ropey.specs.View.{content};

use ropey::{Result, Rope, Steps};

/// Converts a byte of a rope.
pub fn of_byte(rope: &Rope, byte_idx: usize) -> (usize, usize)
    requires { byte_idx ≤ byte_len rope.now.text }
    ensures character { result.0 ≡ byte_to_char rope.now.text byte_idx }
    ensures line { result.1 ≡ byte_to_line rope.now.breaks rope.now.text byte_idx }
{
    (rope.byte_to_char(byte_idx), rope.byte_to_line(byte_idx))
}

/// Converts a character of a rope.
pub fn of_char(rope: &Rope, char_idx: usize) -> (usize, usize, usize)
    requires { char_idx ≤ length rope.now.text }
    ensures byte { result.0 ≡ char_to_byte rope.now.text char_idx }
    ensures line { result.1 ≡ char_to_line rope.now.breaks rope.now.text char_idx }
    ensures unit { result.2 ≡ char_to_utf16 rope.now.text char_idx }
{
    (
        rope.char_to_byte(char_idx),
        rope.char_to_line(char_idx),
        rope.char_to_utf16_cu(char_idx),
    )
}

/// Converts a UTF-16 code unit of a rope.
pub fn of_unit(rope: &Rope, unit_idx: usize) -> usize
    requires { unit_idx ≤ utf16_len rope.now.text }
    ensures { result ≡ utf16_to_char rope.now.text unit_idx }
{
    rope.utf16_cu_to_char(unit_idx)
}

/// Converts a line of a rope.
pub fn of_line(rope: &Rope, line_idx: usize) -> (usize, usize)
    requires { line_idx ≤ line_count rope.now.breaks rope.now.text }
    ensures byte { result.0 ≡ line_to_byte rope.now.breaks rope.now.text line_idx }
    ensures character { result.1 ≡ line_to_char rope.now.breaks rope.now.text line_idx }
{
    (rope.line_to_byte(line_idx), rope.line_to_char(line_idx))
}

/// Converts any byte of a rope.
pub fn try_of_byte(rope: &Rope, byte_idx: usize) -> (Result<usize>, Result<usize>)
    ensures character { result.0 ≡ checked (byte_index_error byte_idx (byte_len rope.now.text))
        (byte_to_char rope.now.text byte_idx) }
    ensures line { result.1 ≡ checked (byte_index_error byte_idx (byte_len rope.now.text))
        (byte_to_line rope.now.breaks rope.now.text byte_idx) }
{
    (
        rope.try_byte_to_char(byte_idx),
        rope.try_byte_to_line(byte_idx),
    )
}

/// Converts any character of a rope.
pub fn try_of_char(rope: &Rope, char_idx: usize) -> (Result<usize>, Result<usize>, Result<usize>)
    ensures byte { result.0 ≡ checked (char_index_error char_idx (length rope.now.text))
        (char_to_byte rope.now.text char_idx) }
    ensures line { result.1 ≡ checked (char_index_error char_idx (length rope.now.text))
        (char_to_line rope.now.breaks rope.now.text char_idx) }
    ensures unit { result.2 ≡ checked (char_index_error char_idx (length rope.now.text))
        (char_to_utf16 rope.now.text char_idx) }
{
    (
        rope.try_char_to_byte(char_idx),
        rope.try_char_to_line(char_idx),
        rope.try_char_to_utf16_cu(char_idx),
    )
}

/// Converts any UTF-16 code unit of a rope.
pub fn try_of_unit(rope: &Rope, unit_idx: usize) -> Result<usize>
    ensures { result ≡ checked (utf16_index_error unit_idx (utf16_len rope.now.text))
        (utf16_to_char rope.now.text unit_idx) }
{
    rope.try_utf16_cu_to_char(unit_idx)
}

/// Converts any line of a rope.
pub fn try_of_line(rope: &Rope, line_idx: usize) -> (Result<usize>, Result<usize>)
    ensures byte { result.0
        ≡ checked (line_index_error line_idx (line_count rope.now.breaks rope.now.text))
        (line_to_byte rope.now.breaks rope.now.text line_idx) }
    ensures character { result.1
        ≡ checked (line_index_error line_idx (line_count rope.now.breaks rope.now.text))
        (line_to_char rope.now.breaks rope.now.text line_idx) }
{
    (
        rope.try_line_to_byte(line_idx),
        rope.try_line_to_char(line_idx),
    )
}

/// Returns a byte of a rope.
pub fn byte(rope: &Rope, byte_idx: usize) -> u8
    requires { byte_idx < byte_len rope.now.text }
    ensures { slice_get (encode_utf8_all rope.now.text) byte_idx ≡ Some result }
{
    rope.byte(byte_idx)
}

/// Returns a character of a rope.
pub fn char(rope: &Rope, char_idx: usize) -> char
    requires { char_idx < length rope.now.text }
    ensures { slice_get rope.now.text char_idx ≡ Some result }
{
    rope.char(char_idx)
}

/// Returns any byte of a rope.
pub fn get_byte(rope: &Rope, byte_idx: usize) -> Option<u8>
    ensures { result ≡ slice_get (encode_utf8_all rope.now.text) byte_idx }
{
    rope.get_byte(byte_idx)
}

/// Returns any character of a rope.
pub fn get_char(rope: &Rope, char_idx: usize) -> Option<char>
    ensures { result ≡ slice_get rope.now.text char_idx }
{
    rope.get_char(char_idx)
}

/// Returns the chunk at a byte of a rope.
pub fn chunk_at_byte(rope: &Rope, byte_idx: usize) -> (&str, usize, usize, usize)
    requires { byte_idx ≤ byte_len rope.now.text }
    ensures { ShowsChunk (content rope.now) (chunk_index_at_byte rope.now.chunks byte_idx) result }
{
    rope.chunk_at_byte(byte_idx)
}

/// Returns the chunk at a character of a rope.
pub fn chunk_at_char(rope: &Rope, char_idx: usize) -> (&str, usize, usize, usize)
    requires { char_idx ≤ length rope.now.text }
    ensures { ShowsChunk (content rope.now) (chunk_index_at_char rope.now.chunks char_idx) result }
{
    rope.chunk_at_char(char_idx)
}

/// Returns the chunk at a line break of a rope.
pub fn chunk_at_line_break(rope: &Rope, line_idx: usize) -> (&str, usize, usize, usize)
    requires { line_idx ≤ line_count rope.now.breaks rope.now.text }
    ensures { ShowsChunk (content rope.now)
        (chunk_index_at_line_break rope.now.breaks rope.now.chunks line_idx) result }
{
    rope.chunk_at_line_break(line_idx)
}

/// Returns the chunk at any byte of a rope.
pub fn get_chunk_at_byte(rope: &Rope, byte_idx: usize) -> Option<(&str, usize, usize, usize)>
    ensures { GivesWithin byte_idx (byte_len rope.now.text) result
        (ShowsChunk (content rope.now) (chunk_index_at_byte rope.now.chunks byte_idx)) }
{
    rope.get_chunk_at_byte(byte_idx)
}

/// Returns the chunk at any character of a rope.
pub fn get_chunk_at_char(rope: &Rope, char_idx: usize) -> Option<(&str, usize, usize, usize)>
    ensures { GivesWithin char_idx (length rope.now.text) result
        (ShowsChunk (content rope.now) (chunk_index_at_char rope.now.chunks char_idx)) }
{
    rope.get_chunk_at_char(char_idx)
}

/// Returns the chunk at any line break of a rope.
pub fn get_chunk_at_line_break(rope: &Rope, line_idx: usize) -> Option<(&str, usize, usize, usize)>
    ensures { GivesWithin line_idx (line_count rope.now.breaks rope.now.text) result
        (ShowsChunk (content rope.now)
        (chunk_index_at_line_break rope.now.breaks rope.now.chunks line_idx)) }
{
    rope.get_chunk_at_line_break(line_idx)
}

/// Converts a byte of a rope, counting the steps.
pub fn counted_of_byte(rope: &Rope, byte_idx: usize, steps: &mut Steps) -> (usize, usize)
    requires { byte_idx ≤ byte_len rope.now.text }
    ensures character { result.0 ≡ byte_to_char rope.now.text byte_idx }
    ensures line { result.1 ≡ byte_to_line rope.now.breaks rope.now.text byte_idx }
{
    (
        rope.byte_to_char_counted(byte_idx, steps),
        rope.byte_to_line_counted(byte_idx, steps),
    )
}

/// Converts a character of a rope, counting the steps.
pub fn counted_of_char(rope: &Rope, char_idx: usize, steps: &mut Steps) -> (usize, usize, usize)
    requires { char_idx ≤ length rope.now.text }
    ensures byte { result.0 ≡ char_to_byte rope.now.text char_idx }
    ensures line { result.1 ≡ char_to_line rope.now.breaks rope.now.text char_idx }
    ensures unit { result.2 ≡ char_to_utf16 rope.now.text char_idx }
{
    (
        rope.char_to_byte_counted(char_idx, steps),
        rope.char_to_line_counted(char_idx, steps),
        rope.char_to_utf16_cu_counted(char_idx, steps),
    )
}

/// Converts a UTF-16 code unit of a rope, counting the steps.
pub fn counted_of_unit(rope: &Rope, unit_idx: usize, steps: &mut Steps) -> usize
    requires { unit_idx ≤ utf16_len rope.now.text }
    ensures { result ≡ utf16_to_char rope.now.text unit_idx }
{
    rope.utf16_cu_to_char_counted(unit_idx, steps)
}

/// Converts a line of a rope, counting the steps.
pub fn counted_of_line(rope: &Rope, line_idx: usize, steps: &mut Steps) -> (usize, usize)
    requires { line_idx ≤ line_count rope.now.breaks rope.now.text }
    ensures byte { result.0 ≡ line_to_byte rope.now.breaks rope.now.text line_idx }
    ensures character { result.1 ≡ line_to_char rope.now.breaks rope.now.text line_idx }
{
    (
        rope.line_to_byte_counted(line_idx, steps),
        rope.line_to_char_counted(line_idx, steps),
    )
}

/// Returns a byte of a rope, counting the steps.
pub fn byte_counted(rope: &Rope, byte_idx: usize, steps: &mut Steps) -> u8
    requires { byte_idx < byte_len rope.now.text }
    ensures { slice_get (encode_utf8_all rope.now.text) byte_idx ≡ Some result }
{
    rope.byte_counted(byte_idx, steps)
}

/// Returns a character of a rope, counting the steps.
pub fn char_counted(rope: &Rope, char_idx: usize, steps: &mut Steps) -> char
    requires { char_idx < length rope.now.text }
    ensures { slice_get rope.now.text char_idx ≡ Some result }
{
    rope.char_counted(char_idx, steps)
}
