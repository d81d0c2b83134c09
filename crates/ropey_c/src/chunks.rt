//! The chunk of a rope at an index, as a pointer to its bytes.
//!
//! The bytes belong to the rope, and are lent for as long as its handle is: until it is edited or
//! freed. Each call costs one lookup and takes no memory.
ghost use Rattle.std.specs.Prelude.{length};
ghost use Rattle.std.specs.Str.{chars};
ghost use Rattle.rope_text.specs.Text.{byte_len};
ghost use Rattle.rope_text.specs.Lines.{line_count};
ghost use Rattle.rope_text.specs.Lookup.{found_chunk, chunk_index_at_byte, chunk_index_at_char, chunk_index_at_line_break};
ghost use Rattle.ropey_c.specs.Answers.{FindsChunk, IsChunk};
ghost use Rattle.ropey_c.specs.Handles.{HoldsRope};

use crate::lent::Lent;
use crate::macros::{held, some_or};
use crate::status::{
    BYTE_INDEX_OUT_OF_BOUNDS, CHAR_INDEX_OUT_OF_BOUNDS, LINE_INDEX_OUT_OF_BOUNDS, OK,
};

/// A chunk: its bytes, which are lent, and the bytes, the characters and the line breaks of the
/// text before it. C sees the bytes as a pointer, which is never null, and their number. If the
/// rope is empty all numbers are 0.
#[repr(C)]
#[derive(Drop)]
pub struct Chunk<'a> {
    pub text: &'a [u8],
    pub bytes_before: usize,
    pub chars_before: usize,
    pub line_breaks_before: usize,
}

// A chunk as C sees it.
fn chunk_of(
    text: &str,
    bytes_before: usize,
    chars_before: usize,
    line_breaks_before: usize,
) -> Chunk<'_>
    ensures { IsChunk (chars text.now) bytes_before chars_before line_breaks_before result }
{
    Chunk {
        text: text.as_bytes(),
        bytes_before,
        chars_before,
        line_breaks_before,
    }
}

/// Writes the chunk that holds the byte `byte_idx`, and at the end of the text the last chunk.
///
/// # Errors
///
/// `NO_ROPE_HELD`, then `BYTE_INDEX_OUT_OF_BOUNDS`, exactly where the index is past the number of
/// bytes. Then nothing is written.
#[unsafe(no_mangle)]
pub extern "C" fn ropey_chunk_at_byte<'a>(
    rope: &'a Lent,
    byte_idx: usize,
    chunk: &mut Chunk<'a>,
) -> u32
    ensures answer { FindsChunk rope.now.rope (λ r. byte_len r.text) byte_idx
        (λ r. found_chunk r.breaks r.chunks (chunk_index_at_byte r.chunks byte_idx))
        BYTE_INDEX_OUT_OF_BOUNDS result chunk.old chunk.new }
    ensures kept { HoldsRope rope.now.rope }
{
    let found = held!(rope).get_chunk_at_byte(byte_idx);
    let (text, bytes, chars, line_breaks) = some_or!(found, BYTE_INDEX_OUT_OF_BOUNDS);
    *chunk = chunk_of(text, bytes, chars, line_breaks);
    OK
}

/// Writes the chunk that holds the character `char_idx`, and at the end of the text the last chunk.
///
/// # Errors
///
/// `NO_ROPE_HELD`, then `CHAR_INDEX_OUT_OF_BOUNDS`, exactly where the index is past the number of
/// characters. Then nothing is written.
#[unsafe(no_mangle)]
pub extern "C" fn ropey_chunk_at_char<'a>(
    rope: &'a Lent,
    char_idx: usize,
    chunk: &mut Chunk<'a>,
) -> u32
    ensures answer { FindsChunk rope.now.rope (λ r. length r.text) char_idx
        (λ r. found_chunk r.breaks r.chunks (chunk_index_at_char r.chunks char_idx))
        CHAR_INDEX_OUT_OF_BOUNDS result chunk.old chunk.new }
    ensures kept { HoldsRope rope.now.rope }
{
    let found = held!(rope).get_chunk_at_char(char_idx);
    let (text, bytes, chars, line_breaks) = some_or!(found, CHAR_INDEX_OUT_OF_BOUNDS);
    *chunk = chunk_of(text, bytes, chars, line_breaks);
    OK
}

/// Writes the chunk that holds the line break before the line `line_idx`; for the first line the
/// first chunk, and for the number of lines the last.
///
/// # Errors
///
/// `NO_ROPE_HELD`, then `LINE_INDEX_OUT_OF_BOUNDS`, exactly where the index is past the number of
/// lines. Then nothing is written.
#[unsafe(no_mangle)]
pub extern "C" fn ropey_chunk_at_line_break<'a>(
    rope: &'a Lent,
    line_idx: usize,
    chunk: &mut Chunk<'a>,
) -> u32
    ensures answer { FindsChunk rope.now.rope (λ r. line_count r.breaks r.text) line_idx
        (λ r. found_chunk r.breaks r.chunks (chunk_index_at_line_break r.breaks r.chunks line_idx))
        LINE_INDEX_OUT_OF_BOUNDS result chunk.old chunk.new }
    ensures kept { HoldsRope rope.now.rope }
{
    let found = held!(rope).get_chunk_at_line_break(line_idx);
    let (text, bytes, chars, line_breaks) = some_or!(found, LINE_INDEX_OUT_OF_BOUNDS);
    *chunk = chunk_of(text, bytes, chars, line_breaks);
    OK
}
