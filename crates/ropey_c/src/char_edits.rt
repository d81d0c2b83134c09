//! Ropes edited at the index of a character, split and appended.
ghost use Rattle.std.specs.Prelude.{◌≡◌, ◌≢◌, ◌<◌, ◌⊎◌, ◌++◌, [], ◌∷◌, length, take, drop, None, Some, IfSome, IsSomeAnd, MatchOption};
ghost use Rattle.std.specs.Str.{chars};
ghost use Rattle.rope_text.specs.Edit.{inserted, insert_error, removed, char_range_error, char_index_error, append_error};
ghost use Rattle.ropey_c.specs.Handles.{text_at, breaks_at, HoldsRope};
ghost use Rattle.ropey.specs.View.{IsRope};
ghost use Rattle.ropey_c.specs.Status.{IsStatus, IsTextStatus, IsCharStatus};
ghost use Rattle.ropey_c.specs.Answers.{Changes, Keeps};

use crate::handle::Handle;
use crate::macros::{allocated, edit, some_or, utf8_text};
use crate::status::{
    CHAR_INDEX_OUT_OF_BOUNDS, NO_ROPE_HELD, NOT_A_CHARACTER, OK, status, status_of,
};
use ropey::Rope;
use std::alloc::Global;

fn insert(rope: &mut Rope, char_idx: usize, text: &[u8]) -> u32
    ensures status { IsTextStatus text.now (insert_error rope.old.text char_idx (chars text.now))
        result }
    ensures ok { result ≡ OK → rope.new.text ≡ inserted rope.old.text char_idx (chars text.now) }
    ensures err { 0 < result → rope.new ≡ rope.old }
    ensures empty { length text.now ≡ 0 → insert_error rope.old.text char_idx [] ≡ None
        → (result ≡ OK) × (rope.new ≡ rope.old) }
    ensures breaks { rope.new.breaks ≡ rope.old.breaks }
    ensures kept { IsRope rope.old → IsRope rope.new }
{
    status(rope.try_insert(char_idx, utf8_text!(text)))
}

/// Inserts the text before the character `char_idx`, counted from 0; for the number of characters,
/// at the end.
///
/// An empty text takes no memory. No text of the rope is scanned.
///
/// # Errors
///
/// `NO_ROPE_HELD`, then `INVALID_UTF8`, then `CHAR_INDEX_OUT_OF_BOUNDS`, then `TOO_LONG`, then
/// `OUT_OF_MEMORY`. A call that fails leaves the rope as it was.
#[unsafe(no_mangle)]
pub extern "C" fn ropey_insert(
    alloc: Global,
    rope: &mut Handle,
    char_idx: usize,
    text: &[u8],
) -> u32
    ensures changes { Changes rope.old.rope rope.new.rope result
        (λ old. IsTextStatus text.now (insert_error old.text char_idx (chars text.now)) result)
        (λ old new. (new.text ≡ inserted old.text char_idx (chars text.now))
        × (new.breaks ≡ old.breaks)) }
    ensures empty { length text.now ≡ 0
        → Keeps rope.old.rope rope.new.rope result
        (λ old. insert_error old.text char_idx [] ≡ None) }
    ensures kept { HoldsRope rope.new.rope }
{
    edit!(rope, alloc, held => insert(&mut held, char_idx, text))
}

fn insert_char(rope: &mut Rope, char_idx: usize, c: u32) -> u32
    ensures status { IsCharStatus c (insert_error rope.old.text char_idx (c ∷ [])) result }
    ensures ok { result ≡ OK → rope.new.text ≡ inserted rope.old.text char_idx (c ∷ []) }
    ensures err { 0 < result → rope.new ≡ rope.old }
    ensures breaks { rope.new.breaks ≡ rope.old.breaks }
    ensures kept { IsRope rope.old → IsRope rope.new }
{
    let c = some_or!(char::from_u32(c), NOT_A_CHARACTER);
    status(rope.try_insert_char(char_idx, c))
}

/// Inserts the character `c`, a Unicode scalar value, before the character `char_idx`, counted from
/// 0; for the number of characters, at the end. No text is scanned.
///
/// # Errors
///
/// `NO_ROPE_HELD`, then `NOT_A_CHARACTER`, then `CHAR_INDEX_OUT_OF_BOUNDS`, then `TOO_LONG`, then
/// `OUT_OF_MEMORY`. A call that fails leaves the rope as it was.
#[unsafe(no_mangle)]
pub extern "C" fn ropey_insert_char(
    alloc: Global,
    rope: &mut Handle,
    char_idx: usize,
    c: u32,
) -> u32
    ensures changes { Changes rope.old.rope rope.new.rope result
        (λ old. IsCharStatus c (insert_error old.text char_idx (c ∷ [])) result)
        (λ old new. (new.text ≡ inserted old.text char_idx (c ∷ [])) × (new.breaks ≡ old.breaks)) }
    ensures kept { HoldsRope rope.new.rope }
{
    edit!(rope, alloc, held => insert_char(&mut held, char_idx, c))
}

/// Removes the characters from `start` up to `end`, counted from 0. An empty range takes no memory
/// and changes nothing. No text is scanned.
///
/// # Errors
///
/// `NO_ROPE_HELD`, then `CHAR_RANGE_OUT_OF_BOUNDS`, then `CHAR_RANGE_INVALID`, then
/// `OUT_OF_MEMORY`. A call that fails leaves the rope as it was.
#[unsafe(no_mangle)]
pub extern "C" fn ropey_remove(alloc: Global, rope: &mut Handle, start: usize, end: usize) -> u32
    ensures changes { Changes rope.old.rope rope.new.rope result
        (λ old. IsStatus (char_range_error (Some start) (Some end) (length old.text)) result)
        (λ old new. (new.text ≡ removed old.text start end) × (new.breaks ≡ old.breaks)) }
    ensures empty { start ≡ end
        → Keeps rope.old.rope rope.new.rope result
        (λ old. char_range_error (Some start) (Some end) (length old.text) ≡ None) }
    ensures kept { HoldsRope rope.new.rope }
{
    edit!(rope, alloc, held => status(held.try_remove(start..end)))
}

// Splits a clone, so that the rope is unchanged if there is no memory for the handle of its tail.
fn split_off(alloc: Global, rope: &mut Rope, char_idx: usize, tail: &mut Handle) -> u32
    ensures status { IsStatus (char_index_error char_idx (length rope.old.text)) result }
    ensures front { result ≡ OK → rope.new.text ≡ take char_idx rope.old.text }
    ensures back { result ≡ OK
        → IsSomeAnd tail.new.rope
        (λ back. (back.text ≡ drop char_idx rope.old.text) × (back.breaks ≡ rope.old.breaks)
        × IsRope back) }
    ensures err { 0 < result → (rope.new ≡ rope.old) × (tail.new.rope ≡ tail.old.rope) }
    ensures breaks { rope.new.breaks ≡ rope.old.breaks }
    ensures kept { IsRope rope.new }
{
    if char_idx > rope.len_chars() {
        return CHAR_INDEX_OUT_OF_BOUNDS;
    }
    let mut front = allocated!(rope.clone());
    let back = allocated!(front.split_off(char_idx));
    let back = allocated!(Box::new(alloc, back));
    tail.put(back);
    *rope = front;
    OK
}

/// Splits the rope: keeps the first `char_idx` characters, puts the others into `tail`, with the
/// same set of line breaks, and frees the rope that `tail` held. Nodes off the cut are reused. No
/// text is scanned.
///
/// # Errors
///
/// `NO_ROPE_HELD`, then `CHAR_INDEX_OUT_OF_BOUNDS`, then `OUT_OF_MEMORY`. A call that fails leaves
/// both handles as they were.
#[unsafe(no_mangle)]
pub extern "C" fn ropey_split_off(
    alloc: Global,
    rope: &mut Handle,
    char_idx: usize,
    tail: &mut Handle,
) -> u32
    ensures front { Changes rope.old.rope rope.new.rope result
        (λ old. IsStatus (char_index_error char_idx (length old.text)) result)
        (λ old new. (new.text ≡ take char_idx old.text) × (new.breaks ≡ old.breaks)) }
    ensures back { result ≡ OK
        → IsSomeAnd tail.new.rope
        (λ back. (back.text ≡ drop char_idx (text_at rope.old.rope))
        × (back.breaks ≡ breaks_at rope.old.rope) × IsRope back) }
    ensures err { 0 < result → tail.new.rope ≡ tail.old.rope }
    ensures kept { HoldsRope rope.new.rope }
{
    edit!(rope, alloc, held => split_off(alloc, &mut held, char_idx, tail))
}

/// Appends the text of `other`, and reuses the nodes of its tree off the seam. Afterwards `other`
/// holds no rope, also after `OUT_OF_MEMORY`; every other error leaves it as it was. No text is
/// scanned.
///
/// # Errors
///
/// `NO_ROPE_HELD`, then `BREAK_SETS_DIFFER`, then `TOO_LONG`, then `OUT_OF_MEMORY`. A call that
/// fails leaves the rope as it was. To keep the other rope after `OUT_OF_MEMORY`, append a clone of
/// it. If one of two ropes with one set of line breaks is empty, no memory is taken.
#[unsafe(no_mangle)]
pub extern "C" fn ropey_append(alloc: Global, rope: &mut Handle, other: &mut Handle) -> u32
    ensures none { rope.old.rope ≡ None
        → (result ≡ NO_ROPE_HELD) × (rope.new.rope ≡ None) × (other.new.rope ≡ other.old.rope) }
    ensures lone { other.old.rope ≡ None
        → (result ≡ NO_ROPE_HELD) × (other.new.rope ≡ None) × (rope.new.rope ≡ rope.old.rope) }
    ensures changes { IfSome other.old.rope (λ o. Changes rope.old.rope rope.new.rope result
        (λ old. IsStatus (append_error old.breaks o.breaks old.text o.text) result)
        (λ old new. (new.text ≡ old.text ++ o.text) × (new.breaks ≡ old.breaks))) }
    ensures empty { IfSome other.old.rope
        (λ o. length o.text ≡ 0
        → Keeps rope.old.rope rope.new.rope result
        (λ old. append_error old.breaks o.breaks old.text o.text ≡ None)) }
    ensures taken { IfSome other.old.rope
        (λ o. IfSome rope.old.rope
        (λ old. append_error old.breaks o.breaks old.text o.text ≡ None → length old.text ≡ 0
        → 0 < length o.text → (result ≡ OK) × (rope.new.rope ≡ Some o))) }
    ensures spent { IfSome rope.old.rope
        (λ old. IfSome other.old.rope
        (λ o. append_error old.breaks o.breaks old.text o.text ≡ None
        → other.new.rope ≡ None)) }
    ensures left { IfSome rope.old.rope
        (λ old. IfSome other.old.rope
        (λ o. append_error old.breaks o.breaks old.text o.text ≢ None
        → other.new.rope ≡ other.old.rope)) }
    ensures kept { HoldsRope rope.new.rope }
{
    let mut held = some_or!(rope.take(alloc), NO_ROPE_HELD);
    let Some(end) = other.take(alloc) else {
        rope.put(held);
        return NO_ROPE_HELD;
    };
    let status = match held.append_error(&end) {
        None => status(held.append(Box::into_inner(end))),
        Some(error) => {
            other.put(end);
            status_of(error)
        }
    };
    rope.put(held);
    status
}
