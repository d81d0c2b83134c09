//! The four cursors: their items, both ways, and how many are left.
ghost use Rattle.std.specs.Prelude.{◌≡◌, Some, IfOk, length};
ghost use Rattle.std.specs.Str.{chars};
ghost use Rattle.rope_text.specs.Sides.{GoesAhead, StepsBack, ahead, turned};
ghost use Rattle.rope_slice.specs.Slice.{content_of};

use ropey::RopeSlice;
use ropey::iter::{Bytes, Chars, Chunks, Lines};
use std::alloc::AllocError;

/// Counts the items that a cursor still gives.
fn left<I: ExactSizeIterator>(items: &I) -> usize {
    items.len()
}

/// Returns the next byte of a cursor.
pub fn next_byte(bytes: &mut Bytes<'_>) -> Option<u8>
    ensures { GoesAhead (λ x. x) bytes.old result bytes.new }
{
    bytes.next()
}

/// Returns the byte before, and steps back.
pub fn prev_byte(bytes: &mut Bytes<'_>) -> Option<u8>
    ensures { StepsBack (λ x. x) bytes.old result bytes.new }
{
    bytes.prev()
}

/// Turns a cursor over bytes.
pub fn reverse_bytes(bytes: &mut Bytes<'_>)
    ensures { bytes.new ≡ turned bytes.old }
{
    bytes.reverse();
}

/// Returns a turned cursor over bytes.
pub fn reversed_bytes<'a>(bytes: Bytes<'a>) -> Bytes<'a>
    ensures { result ≡ turned bytes.entry }
{
    bytes.reversed()
}

/// Clones a cursor over bytes.
pub fn clone_bytes<'a>(bytes: &Bytes<'a>) -> Result<Bytes<'a>, AllocError>
    ensures { IfOk result (λ clone. clone ≡ bytes.now) }
{
    bytes.clone()
}

/// Returns how many bytes a cursor still gives.
pub fn left_bytes(bytes: &Bytes<'_>) -> (usize, usize, Option<usize>)
    ensures least { result.1 ≡ length (ahead bytes.now) }
    ensures most { result.2 ≡ Some (length (ahead bytes.now)) }
{
    let (least, most) = bytes.size_hint();
    (left(bytes), least, most)
}

/// Returns the next character of a cursor.
pub fn next_char(chars: &mut Chars<'_>) -> Option<char>
    ensures { GoesAhead (λ x. x) chars.old result chars.new }
{
    chars.next()
}

/// Returns the character before, and steps back.
pub fn prev_char(chars: &mut Chars<'_>) -> Option<char>
    ensures { StepsBack (λ x. x) chars.old result chars.new }
{
    chars.prev()
}

/// Turns a cursor over characters.
pub fn reverse_chars(chars: &mut Chars<'_>)
    ensures { chars.new ≡ turned chars.old }
{
    chars.reverse();
}

/// Returns a turned cursor over characters.
pub fn reversed_chars<'a>(chars: Chars<'a>) -> Chars<'a>
    ensures { result ≡ turned chars.entry }
{
    chars.reversed()
}

/// Clones a cursor over characters.
pub fn clone_chars<'a>(chars: &Chars<'a>) -> Result<Chars<'a>, AllocError>
    ensures { IfOk result (λ clone. clone ≡ chars.now) }
{
    chars.clone()
}

/// Returns how many characters a cursor still gives.
pub fn left_chars(chars: &Chars<'_>) -> (usize, usize, Option<usize>)
    ensures least { result.1 ≡ length (ahead chars.now) }
    ensures most { result.2 ≡ Some (length (ahead chars.now)) }
{
    let (least, most) = chars.size_hint();
    (left(chars), least, most)
}

/// Returns the next line of a cursor.
pub fn next_line<'a>(lines: &mut Lines<'a>) -> Option<RopeSlice<'a>>
    ensures { GoesAhead (λ x. content_of x) lines.old result lines.new }
{
    lines.next()
}

/// Returns the line before, and steps back.
pub fn prev_line<'a>(lines: &mut Lines<'a>) -> Option<RopeSlice<'a>>
    ensures { StepsBack (λ x. content_of x) lines.old result lines.new }
{
    lines.prev()
}

/// Turns a cursor over lines.
pub fn reverse_lines(lines: &mut Lines<'_>)
    ensures { lines.new ≡ turned lines.old }
{
    lines.reverse();
}

/// Returns a turned cursor over lines.
pub fn reversed_lines<'a>(lines: Lines<'a>) -> Lines<'a>
    ensures { result ≡ turned lines.entry }
{
    lines.reversed()
}

/// Clones a cursor over lines.
pub fn clone_lines<'a>(lines: &Lines<'a>) -> Result<Lines<'a>, AllocError>
    ensures { IfOk result (λ clone. clone ≡ lines.now) }
{
    lines.clone()
}

/// Returns how many lines a cursor still gives.
pub fn left_lines(lines: &Lines<'_>) -> (usize, usize, Option<usize>)
    ensures least { result.1 ≡ length (ahead lines.now) }
    ensures most { result.2 ≡ Some (length (ahead lines.now)) }
{
    let (least, most) = lines.size_hint();
    (left(lines), least, most)
}

/// Returns the next chunk of a cursor.
pub fn next_chunk<'a>(chunks: &mut Chunks<'a>) -> Option<&'a str>
    ensures { GoesAhead (λ x. chars x.now) chunks.old result chunks.new }
{
    chunks.next()
}

/// Returns the chunk before, and steps back.
pub fn prev_chunk<'a>(chunks: &mut Chunks<'a>) -> Option<&'a str>
    ensures { StepsBack (λ x. chars x.now) chunks.old result chunks.new }
{
    chunks.prev()
}

/// Turns a cursor over chunks.
pub fn reverse_chunks(chunks: &mut Chunks<'_>)
    ensures { chunks.new ≡ turned chunks.old }
{
    chunks.reverse();
}

/// Returns a turned cursor over chunks.
pub fn reversed_chunks<'a>(chunks: Chunks<'a>) -> Chunks<'a>
    ensures { result ≡ turned chunks.entry }
{
    chunks.reversed()
}

/// Clones a cursor over chunks.
pub fn clone_chunks<'a>(chunks: &Chunks<'a>) -> Result<Chunks<'a>, AllocError>
    ensures { IfOk result (λ clone. clone ≡ chunks.now) }
{
    chunks.clone()
}
