//! Calls that make, clone and free ropes.
ghost use Rattle.std.specs.Prelude.{◌≡◌, ◌<◌, ◌⊎◌, [], length, None, Some, IfSome, IsSomeAnd, MatchOption, MatchResult};
ghost use Rattle.std.specs.Str.{IsUtf8, chars};
ghost use Rattle.rope_text.specs.declared.error.Error.TheVariants.{OutOfMemory};
ghost use Rattle.rope_slice.specs.Slice.{text_of, breaks_of};
ghost use Rattle.ropey.specs.View.{HasFewChunks, IsBuilt, IsRope};
ghost use Rattle.ropey_c.specs.Handles.{HoldsRope};
ghost use Rattle.ropey_c.specs.Status.{given_breaks, IsStatus, IsMakerStatus};
ghost use Rattle.ropey_c.specs.Answers.{Changes, Keeps, IsBuiltWith, ClonesChars};

use crate::handle::Handle;
use crate::lent::Lent;
use crate::macros::{allocated, breaks_for, edit, held, ok_or, utf8_text};
use crate::status::{NO_ROPE_HELD, OK, given_breaks, status, status_of};
use rope_text::range::char_bounds;
use ropey::{LineBreaks, Rope, RopeSlice};
use std::alloc::Global;
use std::str;

// Puts a rope that was just made into a handle.
pub(crate) fn keep(alloc: Global, made: Rope, rope: &mut Handle) -> u32
    ensures status { IsStatus None result }
    ensures ok { result ≡ OK → rope.new.rope ≡ Some made }
    ensures err { 0 < result → rope.new.rope ≡ rope.old.rope }
{
    let made = allocated!(Box::new(alloc, made));
    rope.put(made);
    OK
}

fn make(alloc: Global, text: &str, breaks: LineBreaks, rope: &mut Handle) -> u32
    ensures status { IsStatus None result }
    ensures ok { result ≡ OK
        → IsSomeAnd rope.new.rope (λ r. (r.text ≡ chars text.now) × IsBuilt breaks r) }
    ensures err { 0 < result → rope.new.rope ≡ rope.old.rope }
{
    let made = allocated!(Rope::from_str_with(alloc, text, breaks));
    keep(alloc, made, rope)
}

/// Makes a rope of a copy of the text, and frees the one that the handle held.
///
/// Takes time and memory in proportion to the text, which is at most `isize::MAX` bytes.
///
/// # Errors
///
/// `UNKNOWN_BREAK_SET`, then `INVALID_UTF8`, then `OUT_OF_MEMORY`. A call that fails leaves the
/// handle as it was.
#[unsafe(no_mangle)]
pub extern "C" fn ropey_from_text(
    alloc: Global,
    text: &[u8],
    break_set: u32,
    rope: &mut Handle,
) -> u32
    ensures status { IsMakerStatus (given_breaks break_set) text.now result }
    ensures ok { result ≡ OK
        → IsSomeAnd rope.new.rope
        (λ r. (r.text ≡ chars text.now) × IsBuiltWith (given_breaks break_set) r) }
    ensures err { 0 < result → rope.new.rope ≡ rope.old.rope }
{
    let breaks = breaks_for!(break_set);
    make(alloc, utf8_text!(text), breaks, rope)
}

/// Makes a rope of a copy of a text without checking that it is UTF-8, and frees the one that the
/// handle held. The text must be UTF-8: of other bytes the call makes no rope, and later calls may
/// do anything.
///
/// Takes time and memory in proportion to the text, which is at most `isize::MAX` bytes.
///
/// # Errors
///
/// `UNKNOWN_BREAK_SET`, then `OUT_OF_MEMORY`. A call that fails leaves the handle as it was.
#[unsafe(no_mangle)]
pub extern "C" fn ropey_from_text_unchecked(
    alloc: Global,
    text: &[u8],
    break_set: u32,
    rope: &mut Handle,
) -> u32
    requires { IsUtf8 text.now }
    ensures status { IsMakerStatus (given_breaks break_set) text.now result }
    ensures ok { result ≡ OK
        → IsSomeAnd rope.new.rope
        (λ r. (r.text ≡ chars text.now) × IsBuiltWith (given_breaks break_set) r) }
    ensures err { 0 < result → rope.new.rope ≡ rope.old.rope }
{
    let breaks = breaks_for!(break_set);
    let text = unsafe { str::from_utf8_unchecked(text) };
    make(alloc, text, breaks, rope)
}

/// Frees the rope, if there is one. The nodes that it shares with its clones stay. The contract
/// doesn't say that memory is given back: `bindings/c/leaks.c` tests it.
///
/// Afterwards the handle holds no rope. Takes time in proportion to the nodes that are freed.
#[unsafe(no_mangle)]
pub extern "C" fn ropey_free(alloc: Global, rope: &mut Handle)
    ensures { rope.new.rope ≡ None }
{
    drop(rope.take(alloc));
}

/// Makes a clone, and frees the rope that `copy` held. The clone shares every node with the rope
/// until one of the two is edited, which leaves the other as it was. Takes constant time.
///
/// # Errors
///
/// `NO_ROPE_HELD`, then `OUT_OF_MEMORY`. A call that fails leaves `copy` as it was.
#[unsafe(no_mangle)]
pub extern "C" fn ropey_clone(alloc: Global, rope: &Lent, copy: &mut Handle) -> u32
    ensures status { MatchOption rope.now.rope (result ≡ NO_ROPE_HELD) (λ _. IsStatus None result) }
    ensures ok { result ≡ OK → copy.new.rope ≡ rope.now.rope }
    ensures err { 0 < result → copy.new.rope ≡ copy.old.rope }
    ensures kept { HoldsRope rope.now.rope }
{
    let held = held!(rope);
    let made = allocated!(held.clone());
    keep(alloc, made, copy)
}

/// Makes a rope of the characters from `start` up to `end`, counted from 0, and frees the one that
/// `copy` held. The two ropes share the nodes within the range until one of them is edited, which
/// leaves the other as it was. Takes time and memory for the nodes on the two cuts.
///
/// # Errors
///
/// `NO_ROPE_HELD`, then `CHAR_RANGE_OUT_OF_BOUNDS`, then `CHAR_RANGE_INVALID`, then
/// `OUT_OF_MEMORY`. A call that fails leaves `copy` as it was.
#[unsafe(no_mangle)]
pub extern "C" fn ropey_clone_chars(
    alloc: Global,
    rope: &Lent,
    start: usize,
    end: usize,
    copy: &mut Handle,
) -> u32
    ensures answer { ClonesChars rope.now.rope start end result copy.old.rope copy.new.rope }
    ensures kept { HoldsRope rope.now.rope }
{
    let held = held!(rope);
    let (start, end) = ok_or!(char_bounds(&(start..end), held.len_chars()), status_of);
    let made = allocated!(Rope::from_slice(alloc, held.slice(start..end)));
    keep(alloc, made, copy)
}

/// Cuts the text into as few chunks as `ropey_from_text` does. Takes time and memory in proportion
/// to the text: none for an empty rope.
///
/// # Errors
///
/// `NO_ROPE_HELD`, then `OUT_OF_MEMORY`. A call that fails leaves the rope as it was.
#[unsafe(no_mangle)]
pub extern "C" fn ropey_shrink_to_fit(alloc: Global, rope: &mut Handle) -> u32
    ensures changes { Changes rope.old.rope rope.new.rope result (λ _. IsStatus None result)
        (λ old new. (new.text ≡ old.text) × (new.breaks ≡ old.breaks) × HasFewChunks new) }
    ensures empty { Keeps rope.old.rope rope.new.rope result (λ old. length old.text ≡ 0) }
    ensures kept { HoldsRope rope.new.rope }
{
    edit!(rope, alloc, held => if held.len_chars() == 0 {
        OK
    } else {
        status(held.shrink_to_fit())
    })
}
