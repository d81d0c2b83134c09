//! The chunks of a rope in bulk: one lookup, and then a step a chunk.
//!
//! A program reads a text by them from an index on, several chunks at a time. The bytes belong to
//! the rope, and are lent for as long as its handle is: until it is edited or freed. No call takes
//! memory.
ghost use Rattle.std.specs.Prelude.{◌≡◌, length};
ghost use Rattle.std.specs.Str.{chars, encode_utf8_all};
ghost use Rattle.rope_text.specs.Text.{byte_len};
ghost use Rattle.rope_text.specs.Lines.{line_count};
ghost use Rattle.rope_text.specs.Lookup.{chunk_place_at_byte, chunk_place_at_char, chunk_place_at_line_break};
ghost use Rattle.ropey_c.specs.Handles.{HoldsRope};
ghost use Rattle.ropey_c.specs.Pieces.{FillsFrom, FillsBefore, FillsAt, FillsLine};

use crate::fill::fill;
use crate::lent::Lent;
use crate::lookups::Span;
use crate::macros::{held, some_or};
use crate::status::{
    BYTE_INDEX_OUT_OF_BOUNDS, CHAR_INDEX_OUT_OF_BOUNDS, LINE_INDEX_OUT_OF_BOUNDS, OK,
};

/// A piece of a text: its bytes, which are lent. C sees a pointer, which is never null, and their
/// number.
#[repr(C)]
#[derive(Drop)]
pub struct Piece<'a> {
    pub text: &'a [u8],
}

impl<'a> From<&'a str> for Piece<'a> {
    ghost use Rattle.std.specs.Str.{chars, encode_utf8_all};

    ghost from_gives = { λ text piece. piece.text.now ≡ encode_utf8_all (chars text.now) };

    fn from(text: &'a str) -> Piece<'a>
        ensures { result.text.now ≡ encode_utf8_all (chars text.now) }
    {
        Piece {
            text: text.as_bytes(),
        }
    }
}

/// Writes to `pieces` the chunks from the one that holds the byte `byte_idx` on, as far as there is
/// room, their number to `count`, and the number of bytes before the first of them to
/// `bytes_before`. At the end of the text there are none. To continue, ask for the byte after the
/// last piece.
///
/// # Errors
///
/// `NO_ROPE_HELD`, then `BYTE_INDEX_OUT_OF_BOUNDS`. Then nothing is written.
#[unsafe(no_mangle)]
pub extern "C" fn ropey_chunks_from_byte<'a>(
    rope: &'a Lent,
    byte_idx: usize,
    pieces: &mut [Piece<'a>],
    count: &mut usize,
    bytes_before: &mut usize,
) -> u32
    ensures answer { FillsFrom rope.now.rope byte_idx result pieces.old pieces.new count.old
        count.new bytes_before.old bytes_before.new }
    ensures kept { HoldsRope rope.now.rope }
{
    let held = held!(rope);
    if byte_idx > held.len_bytes() {
        return BYTE_INDEX_OUT_OF_BOUNDS;
    }
    let (cursor, before, _, _) = held.chunks_at_byte(byte_idx);
    *bytes_before = before;
    *count = fill(cursor, pieces);
    OK
}

/// Writes to `pieces` the chunks before the one that holds the byte `byte_idx`, the nearest first,
/// as far as there is room, their number to `count`, and the number of bytes before the chunk that
/// holds the byte to `bytes_before`. At the end of the text the last chunk comes first. To
/// continue, ask for the first byte of the last piece.
///
/// # Errors
///
/// `NO_ROPE_HELD`, then `BYTE_INDEX_OUT_OF_BOUNDS`. Then nothing is written.
#[unsafe(no_mangle)]
pub extern "C" fn ropey_chunks_before_byte<'a>(
    rope: &'a Lent,
    byte_idx: usize,
    pieces: &mut [Piece<'a>],
    count: &mut usize,
    bytes_before: &mut usize,
) -> u32
    ensures answer { FillsBefore rope.now.rope byte_idx result pieces.old pieces.new count.old
        count.new bytes_before.old bytes_before.new }
    ensures kept { HoldsRope rope.now.rope }
{
    let held = held!(rope);
    if byte_idx > held.len_bytes() {
        return BYTE_INDEX_OUT_OF_BOUNDS;
    }
    let (cursor, before, _, _) = held.chunks_at_byte(byte_idx);
    *bytes_before = before;
    *count = fill(cursor.reversed(), pieces);
    OK
}

/// Writes the chunks from the one that holds the byte `byte_idx` on, as `ropey_chunks_from_byte`
/// does, and the numbers of bytes, characters and line breaks before the first of them. At the end
/// of the text there are no chunks, and all of the text is before them.
///
/// # Errors
///
/// `NO_ROPE_HELD`, then `BYTE_INDEX_OUT_OF_BOUNDS`, exactly where the index is past the number of
/// bytes. Then nothing is written.
#[unsafe(no_mangle)]
pub extern "C" fn ropey_chunks_from_byte_with_before<'a>(
    rope: &'a Lent,
    byte_idx: usize,
    pieces: &mut [Piece<'a>],
    count: &mut usize,
    bytes_before: &mut usize,
    chars_before: &mut usize,
    line_breaks_before: &mut usize,
) -> u32
    ensures answer { FillsAt rope.now.rope (λ r. byte_len r.text) byte_idx
        (λ r. chunk_place_at_byte r.chunks byte_idx)
        BYTE_INDEX_OUT_OF_BOUNDS result pieces.old pieces.new count.old count.new bytes_before.old
        bytes_before.new chars_before.old chars_before.new line_breaks_before.old
        line_breaks_before.new }
    ensures kept { HoldsRope rope.now.rope }
{
    let held = held!(rope);
    let found = held.get_chunks_at_byte(byte_idx);
    let (chunks, bytes, chars, line_breaks) = some_or!(found, BYTE_INDEX_OUT_OF_BOUNDS);
    (*bytes_before, *chars_before, *line_breaks_before) = (bytes, chars, line_breaks);
    *count = fill(chunks, pieces);
    OK
}

/// Writes the chunks from the one that holds the character `char_idx` on, and the counts before
/// them, as `ropey_chunks_from_byte_with_before` does.
///
/// # Errors
///
/// `NO_ROPE_HELD`, then `CHAR_INDEX_OUT_OF_BOUNDS`, exactly where the index is past the number of
/// characters. Then nothing is written.
#[unsafe(no_mangle)]
pub extern "C" fn ropey_chunks_from_char_with_before<'a>(
    rope: &'a Lent,
    char_idx: usize,
    pieces: &mut [Piece<'a>],
    count: &mut usize,
    bytes_before: &mut usize,
    chars_before: &mut usize,
    line_breaks_before: &mut usize,
) -> u32
    ensures answer { FillsAt rope.now.rope (λ r. length r.text) char_idx
        (λ r. chunk_place_at_char r.chunks char_idx)
        CHAR_INDEX_OUT_OF_BOUNDS result pieces.old pieces.new count.old count.new bytes_before.old
        bytes_before.new chars_before.old chars_before.new line_breaks_before.old
        line_breaks_before.new }
    ensures kept { HoldsRope rope.now.rope }
{
    let held = held!(rope);
    let found = held.get_chunks_at_char(char_idx);
    let (chunks, bytes, chars, line_breaks) = some_or!(found, CHAR_INDEX_OUT_OF_BOUNDS);
    (*bytes_before, *chars_before, *line_breaks_before) = (bytes, chars, line_breaks);
    *count = fill(chunks, pieces);
    OK
}

/// Writes the chunks from the one that holds the line break before the line `line_idx` on, and the
/// counts before them, as `ropey_chunks_from_byte_with_before` does. For the first line they begin
/// with the first chunk, and for the number of lines there are none.
///
/// # Errors
///
/// `NO_ROPE_HELD`, then `LINE_INDEX_OUT_OF_BOUNDS`, exactly where the index is past the number of
/// lines. Then nothing is written.
#[unsafe(no_mangle)]
pub extern "C" fn ropey_chunks_from_line_break_with_before<'a>(
    rope: &'a Lent,
    line_idx: usize,
    pieces: &mut [Piece<'a>],
    count: &mut usize,
    bytes_before: &mut usize,
    chars_before: &mut usize,
    line_breaks_before: &mut usize,
) -> u32
    ensures answer { FillsAt rope.now.rope (λ r. line_count r.breaks r.text) line_idx
        (λ r. chunk_place_at_line_break r.breaks r.chunks line_idx)
        LINE_INDEX_OUT_OF_BOUNDS result pieces.old pieces.new count.old count.new bytes_before.old
        bytes_before.new chars_before.old chars_before.new line_breaks_before.old
        line_breaks_before.new }
    ensures kept { HoldsRope rope.now.rope }
{
    let held = held!(rope);
    let found = held.get_chunks_at_line_break(line_idx);
    let (chunks, bytes, chars, line_breaks) = some_or!(found, LINE_INDEX_OUT_OF_BOUNDS);
    (*bytes_before, *chars_before, *line_breaks_before) = (bytes, chars, line_breaks);
    *count = fill(chunks, pieces);
    OK
}

/// Writes to `bytes` the range of the line `line_idx`, counted from 0, including its line break, to
/// `pieces` its pieces from its start on, as far as there is room, and their number to `count`.
/// Costs a few lookups, and then a step a piece.
///
/// # Errors
///
/// `NO_ROPE_HELD`, then `LINE_INDEX_OUT_OF_BOUNDS`, also for the number of lines. Then nothing is
/// written.
#[unsafe(no_mangle)]
pub extern "C" fn ropey_line_pieces<'a>(
    rope: &'a Lent,
    line_idx: usize,
    bytes: &mut Span,
    pieces: &mut [Piece<'a>],
    count: &mut usize,
) -> u32
    ensures answer { FillsLine rope.now.rope line_idx result pieces.old pieces.new count.old
        count.new bytes.old bytes.new }
    ensures kept { HoldsRope rope.now.rope }
{
    let held = held!(rope);
    if line_idx >= held.len_lines() {
        return LINE_INDEX_OUT_OF_BOUNDS;
    }
    *bytes = Span {
        start: held.line_to_byte(line_idx),
        end: held.line_to_byte(line_idx + 1),
    };
    *count = fill(held.line(line_idx).chunks(), pieces);
    OK
}
