//! Parts of a rope's text, copied to where the caller wants them. No call takes memory.
ghost use Rattle.std.specs.Prelude.{◌≡◌, ◌+◌, ◌≤◌, ◌++◌, length, take, drop, Some};
ghost use Rattle.std.specs.List.{slice_range};
ghost use Rattle.std.specs.Str.{encode_utf8_all};
ghost use Rattle.rope_text.specs.Text.{byte_len};
ghost use Rattle.rope_text.specs.Conversions.{byte_to_char};
ghost use Rattle.rope_text.specs.Edit.{char_range_error, byte_range_error};
ghost use Rattle.rope_slice.specs.Slice.{text_of};
ghost use Rattle.ropey_c.specs.Handles.{HoldsRope};
ghost use Rattle.ropey_c.specs.Answers.{Copies, CopiesAt};

use crate::lent::Lent;
use crate::macros::{held, ok_or};
use crate::status::{BUFFER_TOO_SMALL, OK, status_of};
use rope_text::range::char_bounds;
use ropey::RopeSlice;

// Writes the bytes over those from an index on.
pub(crate) fn write_at(buffer: &mut [u8], at: usize, bytes: &[u8])
    requires { at + length bytes.now ≤ length buffer.old }
    ensures { buffer.new
        ≡ take at buffer.old ++ bytes.now ++ drop (at + length bytes.now) buffer.old }
{
    buffer[at..at + bytes.len()].copy_from_slice(bytes);
}

// Writes the chunks to the front of a buffer that has room for them.
pub(crate) fn copy_chunks(slice: &RopeSlice<'_>, buffer: &mut [u8])
    requires { byte_len (text_of slice.now) ≤ length buffer.old }
    ensures { buffer.new
        ≡ encode_utf8_all (text_of slice.now) ++ drop (byte_len (text_of slice.now)) buffer.old }
{
    // This opens what every slice keeps: its chunks join to its text.
    let _ = slice.len_bytes();
    let mut at = 0;
    for chunk in slice.chunks() {
        let bytes = chunk.as_bytes();
        write_at(buffer, at, bytes);
        at += bytes.len();
    }
}

// Copies a slice's text, if the buffer has room for it.
fn copy(slice: &RopeSlice<'_>, buffer: &mut [u8], len: &mut usize) -> u32
    ensures { Copies (encode_utf8_all (text_of slice.now)) result buffer.old buffer.new len.new }
{
    *len = slice.len_bytes();
    if *len > buffer.len() {
        return BUFFER_TOO_SMALL;
    }
    copy_chunks(slice, buffer);
    OK
}

/// Copies the text of the characters from `start` up to `end`, counted from 0, to the front of the
/// buffer, and writes its number of bytes to `len`. The bytes of the buffer after it stay. Costs
/// two lookups and a copy.
///
/// # Errors
///
/// `NO_ROPE_HELD`, then `CHAR_RANGE_OUT_OF_BOUNDS`, then `CHAR_RANGE_INVALID`, which write nothing;
/// then `BUFFER_TOO_SMALL`, which writes to `len` how many bytes the buffer has to have, and
/// nothing else.
#[unsafe(no_mangle)]
pub extern "C" fn ropey_copy_chars(
    rope: &Lent,
    start: usize,
    end: usize,
    buffer: &mut [u8],
    len: &mut usize,
) -> u32
    ensures answer { CopiesAt rope.now.rope
        (λ r. char_range_error (Some start) (Some end) (length r.text))
        (λ r. encode_utf8_all (slice_range r.text start end))
        result buffer.old buffer.new len.old len.new }
    ensures kept { HoldsRope rope.now.rope }
{
    let held = held!(rope);
    let (start, end) = ok_or!(char_bounds(&(start..end), held.len_chars()), status_of);
    copy(&held.slice(start..end), buffer, len)
}

/// Copies the text of the bytes from `start` up to `end`, counted from 0, to the front of the
/// buffer, and writes their number to `len`. The bytes of the buffer after it stay. Costs two
/// lookups and a copy.
///
/// # Errors
///
/// `NO_ROPE_HELD`, then `BYTE_RANGE_INVALID`, then `BYTE_RANGE_OUT_OF_BOUNDS`, then
/// `BYTE_RANGE_NOT_CHAR_BOUNDARY`, which write nothing; then `BUFFER_TOO_SMALL`, which writes to
/// `len` how many bytes the buffer has to have, and nothing else.
#[unsafe(no_mangle)]
pub extern "C" fn ropey_copy_bytes(
    rope: &Lent,
    start: usize,
    end: usize,
    buffer: &mut [u8],
    len: &mut usize,
) -> u32
    ensures answer { CopiesAt rope.now.rope (λ r. byte_range_error r.text (Some start) (Some end))
        (λ r. encode_utf8_all
        (slice_range r.text (byte_to_char r.text start) (byte_to_char r.text end)))
        result buffer.old buffer.new len.old len.new }
    ensures kept { HoldsRope rope.now.rope }
{
    let slice = ok_or!(held!(rope).try_byte_slice(start..end), status_of);
    copy(&slice, buffer, len)
}
