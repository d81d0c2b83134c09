//! Changes as values: replacements of ranges of one text, in order, that are applied to a rope at
//! once, whole or not at all.
//!
//! The inverse of changes leads back to the text before them, so an editor keeps inverses to undo.
//! Changes take memory for their replacements and for the texts that they insert, not for the text
//! that they are changes of. They share no memory with ropes or with other changes.
ghost use Rattle.std.specs.Prelude.{◌≡◌, ◌<◌, ◌≤◌, ◌^◌, [], length, None, Some, IfSome, MatchOption};
ghost use Rattle.std.specs.Str.{chars};
ghost use Rattle.rope_changes.specs.Built.{unchanged};
ghost use Rattle.rope_changes.specs.Change.{before, after, ops, replaced, IsNormal, IsInOrder};
ghost use Rattle.rope_changes.specs.Ops.{run};
ghost use Rattle.ropey.specs.View.{IsRope};
ghost use Rattle.ropey_c.specs.Answers.{Changes, Keeps};
ghost use Rattle.ropey_c.specs.ChangeSets.{Alters, KeepsChanges, InvertsTo};
ghost use Rattle.ropey_c.specs.ChangeStatus.{IsReplaceStatus, IsApplyStatus};
ghost use Rattle.ropey_c.specs.Handles.{HoldsRope};
ghost use Rattle.ropey_c.specs.Status.{IsStatus};

use crate::change_status::{change_status, status_of_change};
use crate::changes_handle::ChangesHandle;
use crate::handle::Handle;
use crate::lent::Lent;
use crate::lent_changes::LentChanges;
use crate::macros::{allocated, edit, held, held_changes, ok_or, some_or, utf8_text};
use crate::status::{NO_CHANGES_HELD, OK, TOO_LONG};
use rope_changes::ChangeSet;
use ropey::Rope;
use std::alloc::Global;

// Puts changes that were just made into a handle.
pub(crate) fn keep(alloc: Global, made: ChangeSet, changes: &mut ChangesHandle) -> u32
    ensures status { IsStatus None result }
    ensures ok { result ≡ OK → changes.new.held ≡ Some made }
    ensures err { 0 < result → changes.new.held ≡ changes.old.held }
    ensures normal { IsNormal made }
{
    // For the proof: changes are in normal form.
    let _ = made.is_empty();
    let made = allocated!(Box::new(alloc, made));
    changes.put(made);
    OK
}

/// Makes changes of a text of `len` characters that keep all of it, and frees those that the handle
/// held.
///
/// # Errors
///
/// `TOO_LONG` if `len` is above `isize::MAX`, then `OUT_OF_MEMORY`. A call that fails leaves the
/// handle as it was.
#[unsafe(no_mangle)]
pub extern "C" fn ropey_changes_new(alloc: Global, len: usize, changes: &mut ChangesHandle) -> u32
    ensures too_long { 2 ^ 63 ≤ len → result ≡ TOO_LONG }
    ensures status { len < 2 ^ 63 → IsStatus None result }
    ensures ok { result ≡ OK → changes.new.held ≡ Some (unchanged len) }
    ensures err { 0 < result → changes.new.held ≡ changes.old.held }
{
    let made = ok_or!(ChangeSet::new(alloc, len), status_of_change);
    keep(alloc, made, changes)
}

pub(crate) fn replace(changes: &mut ChangeSet, start: usize, end: usize, text: &[u8]) -> u32
    ensures status { IsReplaceStatus changes.old start end text.now result }
    ensures ok { result ≡ OK → changes.new ≡ replaced changes.old start end (chars text.now) }
    ensures err { 0 < result → changes.new ≡ changes.old }
    ensures empty { length text.now ≡ 0 → start ≡ end → IsInOrder changes.old start end
        → (result ≡ OK) × (changes.new ≡ changes.old) }
{
    change_status(changes.replace(start, end, utf8_text!(text)))
}

/// Replaces the characters from `start` up to `end` of the text before the changes by a text. The
/// range comes after the last one that the changes replace. If it begins at the end of that one,
/// the two become one replacement.
///
/// An empty text in the place of an empty range changes nothing and takes no memory.
///
/// # Errors
///
/// `NO_CHANGES_HELD`, then `INVALID_UTF8`, then `CHAR_RANGE_INVALID`, then
/// `CHAR_RANGE_OUT_OF_BOUNDS`, then `CHAR_RANGE_OUT_OF_ORDER`, then `TOO_LONG` if the text after
/// the changes would have more than `isize::MAX` characters, then `OUT_OF_MEMORY`. A call that
/// fails leaves the changes as they were.
#[unsafe(no_mangle)]
pub extern "C" fn ropey_changes_replace(
    alloc: Global,
    changes: &mut ChangesHandle,
    start: usize,
    end: usize,
    text: &[u8],
) -> u32
    ensures alters { Alters changes.old.held changes.new.held result
        (λ old. IsReplaceStatus old start end text.now result)
        (λ old new. new ≡ replaced old start end (chars text.now)) }
    ensures empty { length text.now ≡ 0 → start ≡ end
        → KeepsChanges changes.old.held changes.new.held result
        (λ old. IsInOrder old start end) }
{
    edit!(changes, alloc, NO_CHANGES_HELD, held => replace(&mut held, start, end, text))
}

/// Frees the changes, if there are any. Afterwards the handle holds none. The contract doesn't say
/// that memory is given back: `bindings/c/leaks.c` tests it.
#[unsafe(no_mangle)]
pub extern "C" fn ropey_changes_free(alloc: Global, changes: &mut ChangesHandle)
    ensures { changes.new.held ≡ None }
{
    drop(changes.take(alloc));
}

/// Returns the number of characters of the text before the changes; 0 if the handle holds none.
#[unsafe(no_mangle)]
pub extern "C" fn ropey_changes_len_before(changes: &LentChanges) -> usize
    ensures { MatchOption changes.now.held (result ≡ 0) (λ c. result ≡ before c) }
{
    some_or!(changes.changes(), 0).len_before()
}

/// Returns the number of characters of the text after the changes; 0 if the handle holds none.
#[unsafe(no_mangle)]
pub extern "C" fn ropey_changes_len_after(changes: &LentChanges) -> usize
    ensures { MatchOption changes.now.held (result ≡ 0) (λ c. result ≡ after c) }
{
    some_or!(changes.changes(), 0).len_after()
}

pub(crate) fn apply(changes: &ChangeSet, rope: &mut Rope) -> u32
    ensures status { IsApplyStatus changes.now rope.old.text result }
    ensures ok { result ≡ OK → rope.new.text ≡ run (ops changes.now) rope.old.text }
    ensures err { 0 < result → rope.new ≡ rope.old }
    ensures empty { changes.now.edits ≡ [] → length rope.old.text ≡ before changes.now
        → (result ≡ OK) × (rope.new ≡ rope.old) }
    ensures breaks { rope.new.breaks ≡ rope.old.breaks }
    ensures kept { IsRope rope.new }
{
    change_status(changes.apply(rope))
}

/// Applies the changes to the text of a rope, whose set of line breaks stays. Changes that replace
/// nothing take no memory. Takes time for two edits of the rope per replacement.
///
/// # Errors
///
/// `NO_CHANGES_HELD`, then `NO_ROPE_HELD`, then `LENGTHS_DIFFER` if the rope hasn't the length that
/// the changes are for, then `TOO_LONG` if its text and the texts that the changes insert have more
/// than `isize::MAX` bytes together, then `OUT_OF_MEMORY`. A call that fails leaves the rope as it
/// was.
#[unsafe(no_mangle)]
pub extern "C" fn ropey_changes_apply(
    alloc: Global,
    changes: &LentChanges,
    rope: &mut Handle,
) -> u32
    ensures none { changes.now.held ≡ None
        → (result ≡ NO_CHANGES_HELD) × (rope.new.rope ≡ rope.old.rope) }
    ensures changes { IfSome changes.now.held (λ c. Changes rope.old.rope rope.new.rope result
        (λ old. IsApplyStatus c old.text result)
        (λ old new. (new.text ≡ run (ops c) old.text) × (new.breaks ≡ old.breaks))) }
    ensures empty { IfSome changes.now.held (λ c. c.edits ≡ []
        → Keeps rope.old.rope rope.new.rope result (λ old. length old.text ≡ before c)) }
    ensures kept { IfSome changes.now.held (λ _. HoldsRope rope.new.rope) }
{
    let made = held_changes!(changes);
    edit!(rope, alloc, held => apply(made, &mut held))
}

/// Makes the changes that lead from the text after the changes back to the text of `before`, which
/// is the text before them, and frees those that `inverse` held. Takes memory for the texts that
/// the changes delete.
///
/// # Errors
///
/// `NO_CHANGES_HELD`, then `NO_ROPE_HELD`, then `LENGTHS_DIFFER` if the rope hasn't the length that
/// the changes are for, then `OUT_OF_MEMORY`. A call that fails leaves `inverse` as it was.
#[unsafe(no_mangle)]
pub extern "C" fn ropey_changes_invert(
    alloc: Global,
    changes: &LentChanges,
    before: &Lent,
    inverse: &mut ChangesHandle,
) -> u32
    ensures { InvertsTo changes.now.held before.now.rope result
        inverse.old.held inverse.new.held }
{
    let held = held_changes!(changes);
    let made = ok_or!(held.invert(held!(before)), status_of_change);
    keep(alloc, made, inverse)
}
