//! Lists of edits: changes that are made of one, and the replacements of changes read back.
ghost use Rattle.std.specs.Prelude.{◌≡◌, ◌+◌, ◌<◌, ◌≤◌, ◌^◌, length, map, Some, ⊤};
ghost use Rattle.std.specs.Str.{chars, encode_utf8_all};
ghost use Rattle.rope_changes.specs.Built.{unchanged, built};
ghost use Rattle.ropey.specs.View.{IsRope};
ghost use Rattle.ropey_c.specs.Answers.{Changes, Keeps};
ghost use Rattle.ropey_c.specs.Handles.{HoldsRope};
ghost use Rattle.ropey_c.specs.ChangeEdits.{edit_of, edited, IsEditsStatus, IsAppliedStatus, Lists, ListsAt};

use crate::change_status::status_of_change;
use crate::changes::{apply, keep, replace};
use crate::changes_handle::ChangesHandle;
use crate::handle::Handle;
use crate::lent_changes::LentChanges;
use crate::macros::{edit, held_changes, ok_or};
use crate::status::{NO_CHANGES_HELD, OK, TOO_LONG};
use rope_changes::{ChangeSet, EditRange};
use ropey::Rope;
use std::alloc::Global;

/// An edit that C gives: the characters from `start` up to `end` are replaced by bytes of UTF-8.
#[repr(C)]
#[derive(Clone, Copy)]
pub struct GivenEdit<'a> {
    pub start: usize,
    pub end: usize,
    pub text: &'a [u8],
}

/// A replacement of changes: its range in the text before and in the text after, in characters, and
/// its text, which is lent. C sees a pointer, which is never null, and the number of bytes.
#[repr(C)]
#[derive(Drop)]
pub struct Replacement<'a> {
    pub start: usize,
    pub end: usize,
    pub new_start: usize,
    pub new_end: usize,
    pub text: &'a [u8],
}

// Returns the text of an edit. For no bytes C may give a null pointer, which goes no further.
fn text_of<'a>(edit: &GivenEdit<'a>) -> &'a [u8]
    ensures { result.now ≡ edit.now.text.now }
{
    if edit.text.is_empty() {
        return b"";
    }
    edit.text
}

// Makes the edits in order, up to the first that can't be made.
fn replace_all(changes: &mut ChangeSet, edits: &[GivenEdit<'_>]) -> u32
    ensures status { IsEditsStatus changes.old edits.now result }
    ensures ok { result ≡ OK → changes.new ≡ built changes.old (map edit_of edits.now) }
    ensures empty { length edits.now ≡ 0 → (result ≡ OK) × (changes.new ≡ changes.old) }
{
    for edit in edits {
        let status = replace(changes, edit.start, edit.end, text_of(edit));
        if status != OK {
            return status;
        }
    }
    OK
}

/// Makes changes of a text of `len` characters from edits in order, as `ropey_changes_new` and then
/// `ropey_changes_replace` for each of them do, and frees those that the handle held.
///
/// # Errors
///
/// `TOO_LONG` if `len` is above `isize::MAX`; then the error of `ropey_changes_replace` for the
/// first edit that it refuses; `OUT_OF_MEMORY`. A call that fails leaves the handle as it was.
#[unsafe(no_mangle)]
pub extern "C" fn ropey_changes_of_edits(
    alloc: Global,
    len: usize,
    edits: &[GivenEdit<'_>],
    changes: &mut ChangesHandle,
) -> u32
    ensures too_long { 2 ^ 63 ≤ len → result ≡ TOO_LONG }
    ensures status { len < 2 ^ 63 → IsEditsStatus (unchanged len) edits.now result }
    ensures ok { result ≡ OK
        → changes.new.held ≡ Some (built (unchanged len) (map edit_of edits.now)) }
    ensures err { 0 < result → changes.new.held ≡ changes.old.held }
{
    let mut made = ok_or!(ChangeSet::new(alloc, len), status_of_change);
    let status = replace_all(&mut made, edits);
    if status != OK {
        return status;
    }
    keep(alloc, made, changes)
}

fn apply_edits(alloc: Global, rope: &mut Rope, edits: &[GivenEdit<'_>]) -> u32
    ensures status { IsAppliedStatus rope.old.text edits.now result }
    ensures ok { result ≡ OK → rope.new.text ≡ edited rope.old.text edits.now }
    ensures err { 0 < result → rope.new ≡ rope.old }
    ensures empty { length edits.now ≡ 0 → (result ≡ OK) × (rope.new ≡ rope.old) }
    ensures breaks { rope.new.breaks ≡ rope.old.breaks }
    ensures kept { IsRope rope.new }
{
    let Ok(mut made) = ChangeSet::new(alloc, rope.len_chars()) else {
        unreachable!()
    };
    let status = replace_all(&mut made, edits);
    if status != OK {
        return status;
    }
    apply(&made, rope)
}

/// Makes edits in the text of a rope, in order and apart, or none of them: their indices are those
/// of the text before all of them. The set of line breaks stays. No edits take no memory. Takes
/// time for two edits of the rope per edit.
///
/// # Errors
///
/// `NO_ROPE_HELD`, then the error of `ropey_changes_replace` for the first edit that it refuses,
/// then `TOO_LONG` if the text of the rope and those of the edits have more than `isize::MAX` bytes
/// together, then `OUT_OF_MEMORY`. A call that fails leaves the rope as it was.
#[unsafe(no_mangle)]
pub extern "C" fn ropey_apply_edits(
    alloc: Global,
    rope: &mut Handle,
    edits: &[GivenEdit<'_>],
) -> u32
    ensures changes { Changes rope.old.rope rope.new.rope result
        (λ old. IsAppliedStatus old.text edits.now result)
        (λ old new. (new.text ≡ edited old.text edits.now) × (new.breaks ≡ old.breaks)) }
    ensures empty { length edits.now ≡ 0 → Keeps rope.old.rope rope.new.rope result (λ _. ⊤) }
    ensures kept { HoldsRope rope.new.rope }
{
    edit!(rope, alloc, held => apply_edits(alloc, &mut held, edits))
}

fn shown<'a>(edit: &EditRange<'a>) -> Replacement<'a>
    ensures start { result.start ≡ edit.now.start }
    ensures end { result.end ≡ edit.now.end }
    ensures new_start { result.new_start ≡ edit.now.new_start }
    ensures new_end { result.new_end ≡ edit.now.new_end }
    ensures text { result.text.now ≡ encode_utf8_all (chars edit.now.text.now) }
{
    Replacement {
        start: edit.start,
        end: edit.end,
        new_start: edit.new_start,
        new_end: edit.new_end,
        text: edit.text.as_bytes(),
    }
}

// Writes the replacements as far as there is room, and returns how many there are.
fn list<'a>(changes: &'a ChangeSet, edits: &mut [Replacement<'a>]) -> usize
    ensures { Lists changes.now.edits edits.old edits.new result }
{
    let mut left = changes.edits();
    let count = left.len();
    let mut at = 0;
    while at < edits.len() {
        let Some(edit) = left.next() else {
            return count;
        };
        edits[at] = shown(&edit);
        at += 1;
    }
    count
}

/// Writes the replacements of the changes to `edits`, in order, as far as there is room, and how
/// many there are to `count`. Their texts are lent for as long as the handle is: until the changes
/// are edited or freed. Takes time for the replacements, and no memory.
///
/// # Errors
///
/// `NO_CHANGES_HELD`. A call that fails writes nothing.
#[unsafe(no_mangle)]
pub extern "C" fn ropey_changes_edits<'a>(
    changes: &'a LentChanges,
    edits: &mut [Replacement<'a>],
    count: &mut usize,
) -> u32
    ensures { ListsAt changes.now.held result edits.old edits.new count.old count.new }
{
    *count = list(held_changes!(changes), edits);
    OK
}
