//! Lists of content changes, applied to a rope.
ghost use Rattle.std.specs.Prelude.{◌≡◌, ◌⊎◌, ◌+◌, ◌<◌, ◌≤◌, ◌^◌, [], length, map, None, Some, IsOk, IfOk, IfErr, OnOk, OnErr};
ghost use Rattle.std.specs.List.{replace_range};
ghost use Rattle.std.specs.Str.{chars};
ghost use Rattle.rope_text.specs.Text.{byte_len};
ghost use Rattle.ropey.specs.View.{IsRope};
ghost use Rattle.rope_changes.specs.Built as of_changes;
ghost use Rattle.rope_changes.specs.Change.{before, after, ops, replaced};
ghost use Rattle.rope_changes.specs.Ops.{run};
ghost use Rattle.rope_documents.specs.declared.error.DocumentError.TheVariants.{OutOfMemory, TooLong};
ghost use Rattle.rope_documents.specs.Received.{text_change, first_char, end_char, changed, all_changed, one_change, all_composed, range_error, size_error, change_error, first_error};

use crate::content_change::{ContentChange, Range};
use crate::error::DocumentError;
use rope_changes::ChangeSet;
use rope_position::{Encoding, Positions};
use rope_text::MAX_TEXT_BYTES;
use ropey::Rope;
use std::alloc::Global;

// The characters from the first one up to the second.
#[derive(Clone, Copy)]
struct CharRange {
    start: usize,
    end: usize,
}

// Returns the characters that a change replaces.
fn char_range(
    rope: &Rope,
    range: Option<Range>,
    encoding: Encoding,
) -> Result<CharRange, DocumentError>
    ensures error { IfErr result (λ e.
        range_error encoding rope.now.breaks rope.now.text range ≡ Some e) }
    ensures valid { OnOk result (range_error encoding rope.now.breaks rope.now.text range ≡ None) }
    ensures start { IfOk result (λ found.
        found.start ≡ first_char encoding rope.now.breaks rope.now.text range) }
    ensures end { IfOk result (λ found.
        found.end ≡ end_char encoding rope.now.breaks rope.now.text range) }
    ensures ordered { IfOk result (λ found. found.start ≤ found.end) }
    ensures within { IfOk result (λ found. found.end ≤ length rope.now.text) }
    ensures kept { IsRope rope.now }
{
    let len = rope.len_chars();
    let Some(range) = range else {
        return Ok(CharRange { start: 0, end: len });
    };
    let start = rope.clamped_position_to_char(range.start, encoding);
    let end = rope.clamped_position_to_char(range.end, encoding);
    if end < start {
        return Err(DocumentError::RangeInvalid(range.start, range.end));
    }
    Ok(CharRange { start, end })
}

// Creates a change that keeps all of a rope's text.
fn unchanged(alloc: Global, rope: &Rope) -> ChangeSet
    ensures made { result ≡ of_changes.unchanged (length rope.now.text) }
    ensures applies { run (ops result) rope.now.text ≡ rope.now.text }
    ensures len_before { before result ≡ length rope.now.text }
    ensures len_after { after result ≡ length rope.now.text }
    ensures kept { IsRope rope.now }
{
    match ChangeSet::new(alloc, rope.len_chars()) {
        Ok(change) => change,
        Err(_) => unreachable!(),
    }
}

// Replaces characters of a rope by a text, and returns that as a change. A call that fails may
// leave the range removed.
fn splice(
    alloc: Global,
    rope: &mut Rope,
    range: CharRange,
    text: &str,
) -> Result<ChangeSet, DocumentError>
    requires ordered { range.start ≤ range.end }
    requires within { range.end ≤ length rope.old.text }
    ensures error { IfErr result (λ e. (e ≡ OutOfMemory)
        ⊎ (size_error (byte_len rope.old.text + byte_len (chars text.now)) ≡ Some e)) }
    ensures valid { OnOk result
        (size_error (byte_len rope.old.text + byte_len (chars text.now)) ≡ None) }
    ensures text { OnOk result
        (rope.new.text ≡ replace_range rope.old.text range.start range.end (chars text.now)) }
    ensures change { IfOk result (λ made. made ≡ replaced
        (of_changes.unchanged (length rope.old.text)) range.start range.end (chars text.now)) }
    ensures applies { IfOk result (λ made. run (ops made) rope.old.text ≡ rope.new.text) }
    ensures len_before { IfOk result (λ made. before made ≡ length rope.old.text) }
    ensures len_after { IfOk result (λ made. after made ≡ length rope.new.text) }
    ensures breaks { rope.new.breaks ≡ rope.old.breaks }
    ensures kept { IsRope rope.new }
{
    if text.len() > MAX_TEXT_BYTES - rope.len_bytes() {
        return Err(DocumentError::TooLong);
    }
    let mut change = unchanged(alloc, rope);
    if change.replace(range.start, range.end, text).is_err()
        || rope.remove(range.start..range.end).is_err()
        || rope.insert(range.start, text).is_err()
    {
        return Err(DocumentError::OutOfMemory);
    }
    Ok(change)
}

// Applies one change to a rope. A call that fails may leave a part of the text removed.
fn apply_one(
    alloc: Global,
    rope: &mut Rope,
    change: &ContentChange<'_>,
    encoding: Encoding,
) -> Result<ChangeSet, DocumentError>
    ensures error { IfErr result (λ e. (e ≡ OutOfMemory)
        ⊎ (change_error encoding rope.old.breaks rope.old.text (text_change change.now) ≡ Some e)) }
    ensures valid { OnOk result
        (change_error encoding rope.old.breaks rope.old.text (text_change change.now) ≡ None) }
    ensures text { OnOk result (rope.new.text
        ≡ changed encoding rope.old.breaks rope.old.text (text_change change.now)) }
    ensures change { IfOk result (λ made. made
        ≡ one_change encoding rope.old.breaks rope.old.text (text_change change.now)) }
    ensures applies { IfOk result (λ made. run (ops made) rope.old.text ≡ rope.new.text) }
    ensures len_before { IfOk result (λ made. before made ≡ length rope.old.text) }
    ensures len_after { IfOk result (λ made. after made ≡ length rope.new.text) }
    ensures breaks { rope.new.breaks ≡ rope.old.breaks }
    ensures kept { IsRope rope.new }
{
    let range = char_range(rope, change.range, encoding)?;
    splice(alloc, rope, range, change.text.as_str())
}

// Applies changes to a rope, each to the text that the one before it left. A call that fails may
// leave some of them applied. Both halves of the list are composed, so each change is read log n
// times, not n times.
fn apply_all(
    alloc: Global,
    rope: &mut Rope,
    changes: &[ContentChange<'_>],
    encoding: Encoding,
) -> Result<ChangeSet, DocumentError>
    ensures error { IfErr result (λ e. (e ≡ OutOfMemory)
        ⊎ (first_error encoding rope.old.breaks rope.old.text (map text_change changes.now)
        ≡ Some e)) }
    ensures valid { OnOk result
        (first_error encoding rope.old.breaks rope.old.text (map text_change changes.now) ≡ None) }
    ensures text { OnOk result (rope.new.text
        ≡ all_changed encoding rope.old.breaks rope.old.text (map text_change changes.now)) }
    ensures change { IfOk result (λ made. ops made
        ≡ all_composed encoding rope.old.breaks rope.old.text (map text_change changes.now)) }
    ensures applies { IfOk result (λ made. run (ops made) rope.old.text ≡ rope.new.text) }
    ensures len_before { IfOk result (λ made. before made ≡ length rope.old.text) }
    ensures len_after { IfOk result (λ made. after made ≡ length rope.new.text) }
    ensures breaks { rope.new.breaks ≡ rope.old.breaks }
    ensures kept { IsRope rope.new }
{
    let count = changes.len();
    if count == 0 {
        return Ok(unchanged(alloc, rope));
    }
    if count == 1 {
        return apply_one(alloc, rope, &changes[0], encoding);
    }
    let (front, back) = changes.split_at(count / 2);
    let first = apply_all(alloc, rope, front, encoding)?;
    let later = apply_all(alloc, rope, back, encoding)?;
    match first.compose(&later) {
        Ok(change) => Ok(change),
        Err(_) => Err(DocumentError::OutOfMemory),
    }
}

/// Applies a list of content changes to a document, each to the text that the one before it left,
/// and returns the change of all of them. A change without a range replaces the whole text. The
/// columns of positions count an encoding's code units. Positions are read as
/// [`clamped_position_to_char`](Positions::clamped_position_to_char) reads them, so none is
/// refused. The set of line breaks stays, and an empty list takes no memory.
///
/// # Errors
///
/// The error of the first change that has one: `RangeInvalid`, with the range's start and end, if
/// the character at its end comes before the one at its start; then `TooLong`, if the text that the
/// change before it left and its own text have more than `isize::MAX` bytes together. Or
/// `OutOfMemory`, which may come before that change is reached. A call that fails leaves the rope
/// as it was.
pub fn apply_content_changes(
    alloc: Global,
    rope: &mut Rope,
    changes: &[ContentChange<'_>],
    encoding: Encoding,
) -> Result<ChangeSet, DocumentError>
    ensures error { IfErr result (λ e. (e ≡ OutOfMemory)
        ⊎ (first_error encoding rope.old.breaks rope.old.text (map text_change changes.now)
        ≡ Some e)) }
    ensures valid { OnOk result
        (first_error encoding rope.old.breaks rope.old.text (map text_change changes.now) ≡ None) }
    ensures text { OnOk result (rope.new.text
        ≡ all_changed encoding rope.old.breaks rope.old.text (map text_change changes.now)) }
    ensures change { IfOk result (λ made. ops made
        ≡ all_composed encoding rope.old.breaks rope.old.text (map text_change changes.now)) }
    ensures applies { IfOk result (λ made. run (ops made) rope.old.text ≡ rope.new.text) }
    ensures len_before { IfOk result (λ made. before made ≡ length rope.old.text) }
    ensures len_after { IfOk result (λ made. after made ≡ length rope.new.text) }
    ensures empty { changes.now ≡ [] → IsOk result }
    ensures idle { changes.now ≡ [] → rope.new ≡ rope.old }
    ensures err { OnErr result (rope.new ≡ rope.old) }
    ensures breaks { rope.new.breaks ≡ rope.old.breaks }
    ensures kept { IsRope rope.new }
{
    let none = unchanged(alloc, rope);
    if changes.is_empty() {
        return Ok(none);
    }
    let Ok(mut edited) = rope.clone() else {
        return Err(DocumentError::OutOfMemory);
    };
    let change = apply_all(alloc, &mut edited, changes, encoding)?;
    *rope = edited;
    Ok(change)
}
