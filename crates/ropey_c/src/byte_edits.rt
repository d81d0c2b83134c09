//! Edits of ropes at byte indices. Each call looks up the characters first, without memory.
ghost use Rattle.std.specs.Prelude.{◌≡◌, ◌<◌, ◌≤◌, [], length, Some, None, IfErr, IfOk};
ghost use Rattle.std.specs.Str.{chars};
ghost use Rattle.rope_text.specs.Conversions.{byte_to_char};
ghost use Rattle.rope_text.specs.Edit.{inserted, removed, byte_range_error};
ghost use Rattle.ropey.specs.View.{IsRope};
ghost use Rattle.ropey_c.specs.Answers.{Changes, Keeps};
ghost use Rattle.ropey_c.specs.ByteEdits.{byte_place_error, byte_insert_error};
ghost use Rattle.ropey_c.specs.Handles.{HoldsRope};
ghost use Rattle.ropey_c.specs.Status.{IsStatus, IsTextStatus};

use crate::handle::Handle;
use crate::macros::{edit, ok_or, utf8_text};
use crate::status::{OK, status, status_of};
use ropey::{Error, Result, Rope};
use std::alloc::Global;

// The character that begins at a byte, or the end.
fn char_at_byte(rope: &Rope, byte_idx: usize) -> Result<usize>
    ensures ok { IfOk result (λ char_idx. (byte_place_error rope.now.text byte_idx ≡ None)
        × (char_idx ≡ byte_to_char rope.now.text byte_idx) × (char_idx ≤ length rope.now.text)) }
    ensures err { IfErr result (λ e. byte_place_error rope.now.text byte_idx ≡ Some e) }
{
    let len = rope.len_bytes();
    if byte_idx > len {
        return Err(Error::ByteIndexOutOfBounds(byte_idx, len));
    }
    let char_idx = rope.byte_to_char(byte_idx);
    if rope.char_to_byte(char_idx) != byte_idx {
        return Err(Error::ByteIndexNotCharBoundary(byte_idx));
    }
    Ok(char_idx)
}

// The range of characters that a range of bytes covers.
pub(crate) fn chars_of_bytes(rope: &Rope, start: usize, end: usize) -> Result<(usize, usize)>
    ensures ok { IfOk result
        (λ bounds. (byte_range_error rope.now.text (Some start) (Some end) ≡ None)
        × (bounds.0 ≡ byte_to_char rope.now.text start)
        × (bounds.1 ≡ byte_to_char rope.now.text end) × (bounds.0 ≤ bounds.1)
        × (bounds.1 ≤ length rope.now.text)) }
    ensures err { IfErr result
        (λ e. byte_range_error rope.now.text (Some start) (Some end) ≡ Some e) }
{
    let _ = rope.try_byte_slice(start..end)?;
    Ok((rope.byte_to_char(start), rope.byte_to_char(end)))
}

fn insert_at_byte(rope: &mut Rope, byte_idx: usize, text: &[u8]) -> u32
    ensures status { IsTextStatus text.now
        (byte_insert_error rope.old.text byte_idx (chars text.now)) result }
    ensures ok { result ≡ OK
        → rope.new.text
        ≡ inserted rope.old.text (byte_to_char rope.old.text byte_idx) (chars text.now) }
    ensures err { 0 < result → rope.new ≡ rope.old }
    ensures empty { length text.now ≡ 0 → byte_insert_error rope.old.text byte_idx [] ≡ None
        → (result ≡ OK) × (rope.new ≡ rope.old) }
    ensures breaks { rope.new.breaks ≡ rope.old.breaks }
    ensures kept { IsRope rope.old → IsRope rope.new }
{
    let text = utf8_text!(text);
    let char_idx = ok_or!(char_at_byte(rope, byte_idx), status_of);
    status(rope.insert(char_idx, text))
}

/// Inserts the text before the byte `byte_idx`, counted from 0; for the number of bytes, at the
/// end.
///
/// An empty text takes no memory. No text of the rope is scanned.
///
/// # Errors
///
/// `NO_ROPE_HELD`, then `INVALID_UTF8`, then `BYTE_INDEX_OUT_OF_BOUNDS`, then
/// `BYTE_INDEX_NOT_CHAR_BOUNDARY`, then `TOO_LONG`, then `OUT_OF_MEMORY`. A call that fails leaves
/// the rope as it was.
#[unsafe(no_mangle)]
pub extern "C" fn ropey_insert_at_byte(
    alloc: Global,
    rope: &mut Handle,
    byte_idx: usize,
    text: &[u8],
) -> u32
    ensures changes { Changes rope.old.rope rope.new.rope result
        (λ old. IsTextStatus text.now (byte_insert_error old.text byte_idx (chars text.now)) result)
        (λ old new. (new.text ≡ inserted old.text (byte_to_char old.text byte_idx) (chars text.now))
        × (new.breaks ≡ old.breaks)) }
    ensures empty { length text.now ≡ 0
        → Keeps rope.old.rope rope.new.rope result
        (λ old. byte_insert_error old.text byte_idx [] ≡ None) }
    ensures kept { HoldsRope rope.new.rope }
{
    edit!(rope, alloc, held => insert_at_byte(&mut held, byte_idx, text))
}

fn remove_bytes(rope: &mut Rope, start: usize, end: usize) -> u32
    ensures status { IsStatus (byte_range_error rope.old.text (Some start) (Some end)) result }
    ensures ok { result ≡ OK
        → rope.new.text
        ≡ removed rope.old.text (byte_to_char rope.old.text start)
        (byte_to_char rope.old.text end) }
    ensures err { 0 < result → rope.new ≡ rope.old }
    ensures empty { start ≡ end → byte_range_error rope.old.text (Some start) (Some end) ≡ None
        → (result ≡ OK) × (rope.new ≡ rope.old) }
    ensures breaks { rope.new.breaks ≡ rope.old.breaks }
    ensures kept { IsRope rope.old → IsRope rope.new }
{
    let (first, last) = ok_or!(chars_of_bytes(rope, start, end), status_of);
    status(rope.remove(first..last))
}

/// Removes the bytes from `start` up to `end`, counted from 0. An empty range takes no memory and
/// changes nothing. No text is scanned.
///
/// # Errors
///
/// `NO_ROPE_HELD`, then `BYTE_RANGE_INVALID`, then `BYTE_RANGE_OUT_OF_BOUNDS`, then
/// `BYTE_RANGE_NOT_CHAR_BOUNDARY`, then `OUT_OF_MEMORY`. A call that fails leaves the rope as it
/// was.
#[unsafe(no_mangle)]
pub extern "C" fn ropey_remove_bytes(
    alloc: Global,
    rope: &mut Handle,
    start: usize,
    end: usize,
) -> u32
    ensures changes { Changes rope.old.rope rope.new.rope result
        (λ old. IsStatus (byte_range_error old.text (Some start) (Some end)) result)
        (λ old new. (new.text
        ≡ removed old.text (byte_to_char old.text start) (byte_to_char old.text end))
        × (new.breaks ≡ old.breaks)) }
    ensures empty { start ≡ end
        → Keeps rope.old.rope rope.new.rope result
        (λ old. byte_range_error old.text (Some start) (Some end) ≡ None) }
    ensures kept { HoldsRope rope.new.rope }
{
    edit!(rope, alloc, held => remove_bytes(&mut held, start, end))
}
