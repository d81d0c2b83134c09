//! Replacements of a range of a rope's text: each is done whole, or not at all.
ghost use Rattle.std.specs.Prelude.{◌≡◌, ◌<◌, ◌≤◌, ◌^◌, [], length, Some, None, IfSome};
ghost use Rattle.std.specs.Bool.{MatchBool};
ghost use Rattle.std.specs.Str.{chars};
ghost use Rattle.rope_text.specs.declared.error.Error.TheVariants.{TooLong};
ghost use Rattle.rope_text.specs.Conversions.{byte_to_char};
ghost use Rattle.rope_text.specs.Edit.{removed};
ghost use Rattle.rope_text.specs.Text.{byte_len};
ghost use Rattle.ropey.specs.View.{IsRope};
ghost use Rattle.ropey_c.specs.Answers.{Changes, Keeps};
ghost use Rattle.ropey_c.specs.ByteEdits.{replaced, replaced_size_error, replace_error, byte_replace_error};
ghost use Rattle.ropey_c.specs.Handles.{HoldsRope};
ghost use Rattle.ropey_c.specs.Status.{IsStatus, IsTextStatus};

use crate::byte_edits::chars_of_bytes;
use crate::handle::Handle;
use crate::macros::{edit, ok_or, some_or, utf8_text};
use crate::status::{OK, OUT_OF_MEMORY, TOO_LONG, status_of};
use rope_text::MAX_TEXT_BYTES;
use rope_text::range::char_bounds;
use ropey::Rope;
use std::alloc::Global;

// The number of bytes without the characters of a range.
fn len_without(rope: &Rope, start: usize, end: usize) -> usize
    requires ordered { start ≤ end }
    requires within { end ≤ length rope.now.text }
    ensures value { result ≡ byte_len (removed rope.now.text start end) }
    ensures fits { result < 2 ^ 63 }
{
    let cut = rope.char_to_byte(end) - rope.char_to_byte(start);
    rope.len_bytes() - cut
}

// Whether the text is short enough after a range of it is replaced.
fn has_room(rope: &Rope, start: usize, end: usize, text: &str) -> bool
    requires ordered { start ≤ end }
    requires within { end ≤ length rope.now.text }
    ensures { MatchBool result (replaced_size_error rope.now.text start end (chars text.now) ≡ None)
        (replaced_size_error rope.now.text start end (chars text.now) ≡ Some TooLong) }
{
    text.len() <= MAX_TEXT_BYTES - len_without(rope, start, end)
}

// The rope with a range replaced by another text. It is made beside the old one, with which it
// shares the nodes that stay.
fn replaced(rope: &Rope, start: usize, end: usize, text: &str) -> Option<Rope>
    requires ordered { start ≤ end }
    requires within { end ≤ length rope.now.text }
    ensures { IfSome result
        (λ made. (made.text ≡ replaced rope.now.text start end (chars text.now))
        × (made.breaks ≡ rope.now.breaks) × IsRope made) }
{
    let Ok(mut made) = rope.clone() else {
        return None;
    };
    if made.remove(start..end).is_err() || made.insert(start, text).is_err() {
        return None;
    }
    Some(made)
}

// Replaces the old rope by the new one. Makes none if the range and the text are empty.
fn exchange(rope: &mut Rope, start: usize, end: usize, text: &str) -> u32
    requires ordered { start ≤ end }
    requires within { end ≤ length rope.old.text }
    ensures status { IsStatus (replaced_size_error rope.old.text start end (chars text.now))
        result }
    ensures ok { result ≡ OK → rope.new.text ≡ replaced rope.old.text start end (chars text.now) }
    ensures err { 0 < result → rope.new ≡ rope.old }
    ensures empty { start ≡ end → length text.now ≡ 0
        → replaced_size_error rope.old.text start end [] ≡ None
        → (result ≡ OK) × (rope.new ≡ rope.old) }
    ensures breaks { rope.new.breaks ≡ rope.old.breaks }
    ensures kept { IsRope rope.old → IsRope rope.new }
{
    if !has_room(rope, start, end, text) {
        return TOO_LONG;
    }
    if start == end && text.is_empty() {
        return OK;
    }
    *rope = some_or!(replaced(rope, start, end, text), OUT_OF_MEMORY);
    OK
}

fn replace_chars(rope: &mut Rope, start: usize, end: usize, text: &[u8]) -> u32
    ensures status { IsTextStatus text.now (replace_error rope.old.text start end (chars text.now))
        result }
    ensures ok { result ≡ OK → rope.new.text ≡ replaced rope.old.text start end (chars text.now) }
    ensures err { 0 < result → rope.new ≡ rope.old }
    ensures empty { start ≡ end → length text.now ≡ 0
        → replace_error rope.old.text start end [] ≡ None
        → (result ≡ OK) × (rope.new ≡ rope.old) }
    ensures breaks { rope.new.breaks ≡ rope.old.breaks }
    ensures kept { IsRope rope.old → IsRope rope.new }
{
    let text = utf8_text!(text);
    let (start, end) = ok_or!(char_bounds(&(start..end), rope.len_chars()), status_of);
    exchange(rope, start, end, text)
}

/// Replaces the characters from `start` up to `end`, counted from 0, by the text.
///
/// An empty text in the place of an empty range takes no memory and changes nothing. No text of the
/// rope is walked.
///
/// # Errors
///
/// `NO_ROPE_HELD`, then `INVALID_UTF8`, then `CHAR_RANGE_OUT_OF_BOUNDS`, then `CHAR_RANGE_INVALID`,
/// then `TOO_LONG`, then `OUT_OF_MEMORY`. A call that fails leaves the rope as it was: nothing
/// is removed if the text can't be inserted.
#[unsafe(no_mangle)]
pub extern "C" fn ropey_replace(
    alloc: Global,
    rope: &mut Handle,
    start: usize,
    end: usize,
    text: &[u8],
) -> u32
    ensures changes { Changes rope.old.rope rope.new.rope result
        (λ old. IsTextStatus text.now (replace_error old.text start end (chars text.now)) result)
        (λ old new. (new.text ≡ replaced old.text start end (chars text.now))
        × (new.breaks ≡ old.breaks)) }
    ensures empty { start ≡ end → length text.now ≡ 0
        → Keeps rope.old.rope rope.new.rope result
        (λ old. replace_error old.text start end [] ≡ None) }
    ensures kept { HoldsRope rope.new.rope }
{
    edit!(rope, alloc, held => replace_chars(&mut held, start, end, text))
}

fn replace_bytes(rope: &mut Rope, start: usize, end: usize, text: &[u8]) -> u32
    ensures status { IsTextStatus text.now
        (byte_replace_error rope.old.text start end (chars text.now)) result }
    ensures ok { result ≡ OK
        → rope.new.text
        ≡ replaced rope.old.text (byte_to_char rope.old.text start)
        (byte_to_char rope.old.text end) (chars text.now) }
    ensures err { 0 < result → rope.new ≡ rope.old }
    ensures empty { start ≡ end → length text.now ≡ 0
        → byte_replace_error rope.old.text start end [] ≡ None
        → (result ≡ OK) × (rope.new ≡ rope.old) }
    ensures breaks { rope.new.breaks ≡ rope.old.breaks }
    ensures kept { IsRope rope.old → IsRope rope.new }
{
    let text = utf8_text!(text);
    let (first, last) = ok_or!(chars_of_bytes(rope, start, end), status_of);
    exchange(rope, first, last, text)
}

/// Replaces the bytes from `start` up to `end`, counted from 0, by the text.
///
/// An empty text in the place of an empty range takes no memory and changes nothing. No text of the
/// rope is walked.
///
/// # Errors
///
/// `NO_ROPE_HELD`, then `INVALID_UTF8`, then `BYTE_RANGE_INVALID`, then `BYTE_RANGE_OUT_OF_BOUNDS`,
/// then `BYTE_RANGE_NOT_CHAR_BOUNDARY`, then `TOO_LONG`, then `OUT_OF_MEMORY`. A call that fails
/// leaves the rope as it was: nothing is removed if the text can't be inserted.
#[unsafe(no_mangle)]
pub extern "C" fn ropey_replace_bytes(
    alloc: Global,
    rope: &mut Handle,
    start: usize,
    end: usize,
    text: &[u8],
) -> u32
    ensures changes { Changes rope.old.rope rope.new.rope result
        (λ old. IsTextStatus text.now (byte_replace_error old.text start end (chars text.now))
        result)
        (λ old new. (new.text
        ≡ replaced old.text (byte_to_char old.text start) (byte_to_char old.text end)
        (chars text.now))
        × (new.breaks ≡ old.breaks)) }
    ensures empty { start ≡ end → length text.now ≡ 0
        → Keeps rope.old.rope rope.new.rope result
        (λ old. byte_replace_error old.text start end [] ≡ None) }
    ensures kept { HoldsRope rope.new.rope }
{
    edit!(rope, alloc, held => replace_bytes(&mut held, start, end, text))
}
