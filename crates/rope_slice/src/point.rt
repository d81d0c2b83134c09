//! Steps from a point of a chunk: over a character, or to the adjacent chunk.
ghost use Rattle.std.specs.Prelude.{if◌then◌else◌, ◌≡◌, ◌<◌, length, IfSome, IfNone};
ghost use Rattle.std.specs.Str.{IsCharBoundary};
ghost use Rattle.rope_slice.specs.Path.{IsBeside, IsLast};
ghost use Rattle.rope_slice.specs.Point.{IsChunkAt, IsCharBetween};

use crate::path::Heads;
use crate::span::Span;

// Returns the index where a walk over `count` items ends, to the left or to the right.
pub(crate) fn end_of(count: usize, is_left: bool) -> usize
    ensures { result ≡ if is_left then 0 else count }
{
    if is_left { 0 } else { count }
}

// Moves to the chunk adjacent to a span's own. The span is moved in and out, so that no call
// receives the address of the caller's.
#[inline(never)]
fn chunk_beside<'a>(mut span: Span<'a>, is_left: bool) -> (Span<'a>, Option<&'a str>)
    ensures moved { IfSome result.1 (λ chunk. IsBeside is_left span.entry result.0) }
    ensures chunk { IfSome result.1 (λ chunk. IsChunkAt result.0 chunk.now) }
    ensures stays { IfNone result.1 (result.0 ≡ span.entry) }
    ensures ended { IfNone result.1 (IsLast is_left span.entry) }
{
    let has_moved = span.step(is_left, Heads::Touched);
    let chunk = span.chunk();
    (span, has_moved.then_some(chunk))
}

// Moves to the chunk to the left, or to the right, if there is one. Returns the chunk and the end
// from which it is entered. The work is kept out of the callers, so that their steps within a chunk
// stay short. The callee receives a copy of the span: with its address, it could reach the cursor
// around it too, and a loop over a cursor would load and store the cursor's position at each step.
pub(crate) fn step_chunk<'a>(span: &mut Span<'a>, is_left: bool) -> Option<(&'a str, usize)>
    ensures moved { IfSome result (λ found. IsBeside is_left span.old span.new) }
    ensures chunk { IfSome result (λ found. IsChunkAt span.new found.0.now) }
    ensures at { IfSome result (λ found. found.1 ≡ if is_left then length found.0.now else 0) }
    ensures stays { IfNone result (span.new ≡ span.old) }
    ensures ended { IfNone result (IsLast is_left span.old) }
{
    let (moved, chunk) = chunk_beside(span.copy(), is_left);
    *span = moved;
    let chunk = chunk?;
    Some((chunk, end_of(chunk.len(), !is_left)))
}

// Returns the character at a byte, and its end.
pub(crate) fn char_after(text: &str, at: usize) -> (char, usize)
    requires within { at < length text.now }
    requires cut { IsCharBoundary text.now at }
    ensures { IsCharBetween text.now at result.1 result.0 }
{
    let byte = text.as_bytes()[at];
    if byte < 0x80 {
        return (byte as char, at + 1);
    }
    let mut rest = text[at..].chars();
    let Some(c) = rest.next() else {
        unreachable!();
    };
    (c, text.len() - rest.as_str().len())
}

// Returns the character that ends at a byte, and its start.
pub(crate) fn char_before(text: &str, at: usize) -> (char, usize)
    requires some { 0 < at }
    requires cut { IsCharBoundary text.now at }
    ensures { IsCharBetween text.now result.1 at result.0 }
{
    let byte = text.as_bytes()[at - 1];
    if byte < 0x80 {
        return (byte as char, at - 1);
    }
    let mut front = text[..at].chars();
    let Some(c) = front.next_back() else {
        unreachable!();
    };
    (c, front.as_str().len())
}
