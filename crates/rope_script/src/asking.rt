//! Queries of ropes and their slices. A query of a rope is one of the slice of all of it.
ghost use Rattle.std.specs.Prelude.{◌≡◌, ℕ, true, false, nat_lt, length, slice_get, Option, None, Some, IfErr, IfOk, MatchOption, MatchBool, map};
ghost use Rattle.std.specs.Str.{chars, encode_utf8_all};
ghost use Rattle.rope_text.specs.declared.error.Error.{Error};
ghost use Rattle.rope_text.specs.declared.error.Error.TheVariants.{OutOfMemory};
ghost use Rattle.rope_text.specs.Conversions as of_text;
ghost use Rattle.rope_text.specs.Edit.{char_index_error};
ghost use Rattle.rope_text.specs.Lines as of_lines;
ghost use Rattle.rope_text.specs.Lines.{line_count};
ghost use Rattle.rope_text.specs.Lookup.{found_chunk};
ghost use Rattle.rope_text.specs.Position.{char_to_column, position_error, position_to_char};
ghost use Rattle.rope_text.specs.Text.{byte_len, utf16_len};
ghost use Rattle.rope_slice.specs.Found.{IsFoundChunk};
ghost use Rattle.rope_text.specs.Answer.{checked};
ghost use Rattle.rope_slice.specs.Slice.{content_of, text_of, breaks_of, chunks_of};
ghost use Rattle.ropey.specs.View.{content};
ghost use Rattle.rope_script.specs.Ask.{Answers, Compares, IsTextReply, IsChunkReply, conversion, conversion_error, is_inside, chunk_index, refusal_or};
ghost use Rattle.rope_script.specs.Part as of_parts;
ghost use Rattle.rope_script.specs.Step.{Asks};

use crate::script::{At, Conv, Query, Reply};
use crate::shown::{chunk_texts, copy_of};
use crate::walks::walk;
use rope_position::{Position, Positions};
use ropey::{Result, Rope, RopeSlice};
use std::alloc::Global;

/// Returns a slice of a rope, or `None` if the range is out of bounds.
pub(crate) fn part_of(rope: &Rope, range: Option<(usize, usize)>) -> Option<RopeSlice<'_>>
    ensures { MatchOption result (of_parts.part_of (content rope.now) range ≡ None)
        (λ part. of_parts.part_of (content rope.now) range ≡ Some (content_of part)) }
{
    match range {
        None => {
            // ensures that no chunk is empty, so that all of them are those of the slice
            let _ = rope.len_bytes();
            Some(rope.slice(..))
        }
        Some((start, end)) => rope.get_slice(start..end),
    }
}

/// Runs a query of a slice of a rope.
pub(crate) fn ask(
    alloc: Global,
    ropes: &[Rope],
    rope: usize,
    range: Option<(usize, usize)>,
    query: &Query,
) -> Result<Reply>
    ensures step { IfOk result (λ reply. Asks rope range query.now (map content ropes.now) reply
        (map content ropes.now)) }
    ensures memory { IfErr result (λ e. e ≡ OutOfMemory) }
{
    match ropes.get(rope) {
        None => Ok(Reply::NoRope),
        Some(rope) => match part_of(rope, range) {
            None => Ok(Reply::NoSlice),
            Some(part) => answer(alloc, ropes, &part, query),
        },
    }
}

/// Returns the reply to a query of a slice.
fn answer(alloc: Global, ropes: &[Rope], part: &RopeSlice<'_>, query: &Query) -> Result<Reply>
    ensures answer { IfOk result (Answers (map content ropes.now) (content_of part.now) query.now) }
    ensures memory { IfErr result (λ e. e ≡ OutOfMemory) }
{
    match query {
        Query::Lens => Ok(lens(part)),
        Query::Show => Ok(Reply::Text(part.try_to_string(alloc)?)),
        Query::Chunks => Ok(Reply::Texts(chunk_texts(alloc, part)?)),
        Query::Breaks => Ok(Reply::Breaks(part.line_breaks())),
        Query::Convert(conv, index) => Ok(number_reply(convert(part, *conv, *index))),
        Query::Byte(byte_idx) => Ok(byte(part, *byte_idx)),
        Query::Char(char_idx) => Ok(character(part, *char_idx)),
        Query::Line(line_idx) => line(alloc, part, *line_idx),
        Query::ChunkAt(at, index) => chunk_at(alloc, part, *at, *index),
        Query::Walk(unit, index, moves) => walk(alloc, part, *unit, *index, moves),
        Query::Compare((other, range)) => Ok(compare(ropes, part, *other, *range)),
        Query::ToPosition(char_idx) => Ok(to_position(part, *char_idx)),
        Query::FromPosition(line, column) => Ok(from_position(part, *line, *column)),
    }
}

/// Returns the lengths of a slice.
fn lens(part: &RopeSlice<'_>) -> Reply
    ensures { result
        ≡ Reply.Lens (byte_len (text_of part.now)) (length (text_of part.now))
        (line_count (breaks_of part.now) (text_of part.now)) (utf16_len (text_of part.now)) }
{
    Reply::Lens(
        part.len_bytes(),
        part.len_chars(),
        part.len_lines(),
        part.len_utf16_cu(),
    )
}

/// Returns the reply for a number or an error.
fn number_reply(number: Result<usize>) -> Reply
    ensures { (error : Option Error) (value : ℕ) → number ≡ checked error value
        → result ≡ refusal_or error (Reply.Number value) }
{
    match number {
        Ok(number) => Reply::Number(number),
        Err(error) => Reply::Refused(error),
    }
}

/// Converts an index of a slice.
fn convert(part: &RopeSlice<'_>, conv: Conv, index: usize) -> Result<usize>
    ensures { result ≡ checked (conversion_error (content_of part.now) conv index) (conversion
        (content_of part.now) conv index) }
{
    match conv {
        Conv::ByteToChar => part.try_byte_to_char(index),
        Conv::ByteToLine => part.try_byte_to_line(index),
        Conv::CharToByte => part.try_char_to_byte(index),
        Conv::CharToLine => part.try_char_to_line(index),
        Conv::CharToUtf16 => part.try_char_to_utf16_cu(index),
        Conv::Utf16ToChar => part.try_utf16_cu_to_char(index),
        Conv::LineToByte => part.try_line_to_byte(index),
        Conv::LineToChar => part.try_line_to_char(index),
    }
}

/// Returns a byte of a slice.
fn byte(part: &RopeSlice<'_>, byte_idx: usize) -> Reply
    ensures { MatchOption (slice_get (encode_utf8_all (text_of part.now)) byte_idx)
        (result ≡ Reply.Absent) (λ byte. result ≡ Reply.Byte byte) }
{
    match part.get_byte(byte_idx) {
        None => Reply::Absent,
        Some(byte) => Reply::Byte(byte),
    }
}

/// Returns a character of a slice.
fn character(part: &RopeSlice<'_>, char_idx: usize) -> Reply
    ensures { MatchOption (slice_get (text_of part.now) char_idx) (result ≡ Reply.Absent)
        (λ character. result ≡ Reply.Char character) }
{
    match part.get_char(char_idx) {
        None => Reply::Absent,
        Some(character) => Reply::Char(character),
    }
}

/// Returns a line of a slice.
fn line(alloc: Global, part: &RopeSlice<'_>, line_idx: usize) -> Result<Reply>
    ensures line { IfOk result
        (λ reply. MatchBool (nat_lt line_idx (line_count (breaks_of part.now) (text_of part.now)))
        (IsTextReply reply (of_lines.line (breaks_of part.now) (text_of part.now) line_idx))
        (reply ≡ Reply.Absent)) }
    ensures memory { IfErr result (λ e. e ≡ OutOfMemory) }
{
    match part.get_line(line_idx) {
        None => Ok(Reply::Absent),
        Some(line) => Ok(Reply::Text(line.try_to_string(alloc)?)),
    }
}

/// Looks up the chunk of a slice at an index, with the counts before it. Returns `None` if the
/// index is past the end.
fn find_chunk<'a>(
    part: &RopeSlice<'a>,
    at: At,
    index: usize,
) -> Option<(&'a str, usize, usize, usize)>
    ensures { MatchOption result (is_inside (content_of part.now) at index ≡ false)
        (λ found. (is_inside (content_of part.now) at index ≡ true)
        × IsFoundChunk (found_chunk (breaks_of part.now) (chunks_of part.now) (chunk_index
        (content_of part.now) at index))
        (chars found.0.now) found.1 found.2 found.3) }
{
    match at {
        At::Byte => part.try_chunk_at_byte(index).ok(),
        At::Char => part.get_chunk_at_char(index),
        At::LineBreak => part.get_chunk_at_line_break(index),
    }
}

/// Returns the chunk of a slice that an index looks up.
fn chunk_at(alloc: Global, part: &RopeSlice<'_>, at: At, index: usize) -> Result<Reply>
    ensures chunk { IfOk result (λ reply. MatchBool (is_inside (content_of part.now) at index)
        (IsChunkReply reply (found_chunk (breaks_of part.now) (chunks_of part.now) (chunk_index
        (content_of part.now) at index)))
        (reply ≡ Reply.Absent)) }
    ensures memory { IfErr result (λ e. e ≡ OutOfMemory) }
{
    match find_chunk(part, at, index) {
        None => Ok(Reply::Absent),
        Some((chunk, bytes, chars, break_count)) => {
            Ok(Reply::Chunk(copy_of(alloc, chunk)?, bytes, chars, break_count))
        }
    }
}

/// Compares a slice with a slice of one of the ropes.
fn compare(
    ropes: &[Rope],
    part: &RopeSlice<'_>,
    other: usize,
    range: Option<(usize, usize)>,
) -> Reply
    ensures { Compares (map content ropes.now) (content_of part.now) other range result }
{
    match ropes.get(other) {
        None => Reply::NoRope,
        Some(rope) => match part_of(rope, range) {
            None => Reply::NoSlice,
            Some(other) => Reply::Order(part.cmp(&other)),
        },
    }
}

/// Returns the position of a character of a slice.
fn to_position(part: &RopeSlice<'_>, char_idx: usize) -> Reply
    ensures { result
        ≡ refusal_or (char_index_error char_idx (length (text_of part.now)))
        (Reply.Position (of_text.char_to_line (breaks_of part.now) (text_of part.now) char_idx)
        (char_to_column (breaks_of part.now) (text_of part.now) char_idx)) }
{
    match part.try_char_to_position(char_idx) {
        Ok(position) => Reply::Position(position.line, position.column),
        Err(error) => Reply::Refused(error),
    }
}

/// Returns the character of a slice at a position.
fn from_position(part: &RopeSlice<'_>, line: usize, column: usize) -> Reply
    ensures { result
        ≡ refusal_or (position_error (breaks_of part.now) (text_of part.now) line column)
        (Reply.Number (position_to_char (breaks_of part.now) (text_of part.now) line column)) }
{
    number_reply(part.try_position_to_char(Position { line, column }))
}
