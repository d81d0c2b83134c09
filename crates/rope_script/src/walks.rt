//! Walks of cursors over a slice.
ghost use Rattle.std.specs.Prelude.{◌≡◌, true, false, nat_le, length, IfErr, IfOk, MatchOption};
ghost use Rattle.std.specs.Str.{encode_utf8_all};
ghost use Rattle.rope_text.specs.declared.error.Error.TheVariants.{OutOfMemory};
ghost use Rattle.rope_text.specs.LineParts.{lines_of};
ghost use Rattle.rope_text.specs.Lines.{line_count};
ghost use Rattle.rope_text.specs.Sides.{at_place};
ghost use Rattle.rope_text.specs.Text.{byte_len};
ghost use Rattle.rope_slice.specs.Slice.{content_of, text_of, breaks_of, chunks_of};
ghost use Rattle.rope_script.specs.Ask.{AnswersWalk, is_inside, chunk_place};
ghost use Rattle.rope_script.specs.Walk.{IsByteItem, IsCharItem, IsTextItem, IsLineItem, Walks};

use crate::script::{At, Item, Move, Reply, Unit};
use crate::walker::Walker;
use ropey::iter::Chunks;
use ropey::{Result, RopeSlice};
use std::alloc::Global;

/// Returns the results of a cursor that starts at an index and makes these moves.
pub(crate) fn walk(
    alloc: Global,
    part: &RopeSlice<'_>,
    unit: Unit,
    index: usize,
    moves: &[Move],
) -> Result<Reply>
    ensures walk { IfOk result (AnswersWalk (content_of part.now) unit index moves.now) }
    ensures memory { IfErr result (λ e. e ≡ OutOfMemory) }
{
    match unit {
        Unit::Bytes => walk_bytes(alloc, part, index, moves),
        Unit::Chars => walk_chars(alloc, part, index, moves),
        Unit::Lines => walk_lines(alloc, part, index, moves),
        Unit::Chunks(at) => walk_chunks(alloc, part, at, index, moves),
    }
}

fn walk_bytes(alloc: Global, part: &RopeSlice<'_>, index: usize, moves: &[Move]) -> Result<Reply>
    ensures walk { IfOk result
        (Walks IsByteItem (nat_le index (byte_len (text_of part.now)))
        (encode_utf8_all (text_of part.now)) index moves.now) }
    ensures memory { IfErr result (λ e. e ≡ OutOfMemory) }
{
    match part.get_bytes_at(index) {
        None => Ok(Reply::Absent),
        Some(mut bytes) => Ok(Reply::Walk(items(alloc, &mut bytes, moves)?)),
    }
}

fn walk_chars(alloc: Global, part: &RopeSlice<'_>, index: usize, moves: &[Move]) -> Result<Reply>
    ensures walk { IfOk result (Walks IsCharItem (nat_le index (length (text_of part.now)))
        (text_of part.now) index moves.now) }
    ensures memory { IfErr result (λ e. e ≡ OutOfMemory) }
{
    match part.get_chars_at(index) {
        None => Ok(Reply::Absent),
        Some(mut chars) => Ok(Reply::Walk(items(alloc, &mut chars, moves)?)),
    }
}

fn walk_lines(alloc: Global, part: &RopeSlice<'_>, index: usize, moves: &[Move]) -> Result<Reply>
    ensures walk { IfOk result
        (Walks IsLineItem (nat_le index (line_count (breaks_of part.now) (text_of part.now)))
        (lines_of (content_of part.now)) index moves.now) }
    ensures memory { IfErr result (λ e. e ≡ OutOfMemory) }
{
    match part.get_lines_at(index) {
        None => Ok(Reply::Absent),
        Some(mut lines) => Ok(Reply::Walk(items(alloc, &mut lines, moves)?)),
    }
}

fn walk_chunks(
    alloc: Global,
    part: &RopeSlice<'_>,
    at: At,
    index: usize,
    moves: &[Move],
) -> Result<Reply>
    ensures walk { IfOk result
        (Walks IsTextItem (is_inside (content_of part.now) at index) (chunks_of part.now)
        (chunk_place (content_of part.now) at index) moves.now) }
    ensures memory { IfErr result (λ e. e ≡ OutOfMemory) }
{
    match chunks_from(part, at, index) {
        None => Ok(Reply::Absent),
        Some(mut chunks) => Ok(Reply::Walk(items(alloc, &mut chunks, moves)?)),
    }
}

/// Returns a cursor before the chunk that an index looks up, or `None` if the index is past the
/// end.
fn chunks_from<'a>(part: &RopeSlice<'a>, at: At, index: usize) -> Option<Chunks<'a>>
    ensures { MatchOption result (is_inside (content_of part.now) at index ≡ false)
        (λ chunks. (is_inside (content_of part.now) at index ≡ true)
        × (chunks
        ≡ at_place (chunks_of part.now) (chunk_place (content_of part.now) at index))) }
{
    let found = match at {
        At::Byte => part.get_chunks_at_byte(index),
        At::Char => part.get_chunks_at_char(index),
        At::LineBreak => part.get_chunks_at_line_break(index),
    };
    match found {
        None => None,
        Some((chunks, _, _, _)) => Some(chunks),
    }
}

/// Returns the results of a cursor that makes these moves.
fn items<W: Walker>(alloc: Global, walker: &mut W, moves: &[Move]) -> Result<Vec<Option<Item>>>
    ensures items { IfOk result (λ given. W.gives walker.old moves.now given.items) }
    ensures memory { IfErr result (λ e. e ≡ OutOfMemory) }
{
    let mut items = Vec::new(alloc);
    for step in moves {
        match step {
            Move::Next => items.push(walker.next_item(alloc)?)?,
            Move::Prev => items.push(walker.prev_item(alloc)?)?,
            Move::Reverse => walker.turn(),
        }
    }
    Ok(items)
}
