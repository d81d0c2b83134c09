//! The list of content changes that leads a peer from the text before a change to the text after
//! it.
ghost use Rattle.std.specs.Prelude.{◌≡◌, ◌≢◌, ◌+◌, ◌<◌, ◌≤◌, ◌^◌, [], ◌∷◌, ◌++◌, ◌||◌, false, length, map, None, IsTrue, IsOk, IfOk, IfErr, if◌then◌else◌};
ghost use Rattle.std.specs.Cow.{cow_str_bytes};
ghost use Rattle.std.specs.Str.{chars};
ghost use Rattle.rope_text.specs.Text.{byte_len};
ghost use Rattle.rope_changes.specs.Change.{before, ops};
ghost use Rattle.rope_changes.specs.Ops.{run};
ghost use Rattle.rope_documents.specs.declared.error.DocumentError.TheVariants.{LengthDiffers, OutOfMemory};
ghost use Rattle.rope_documents.specs.Received.{text_change, all_changed, first_error};
ghost use Rattle.rope_documents.specs.Sent as of_sent;
ghost use Rattle.rope_documents.specs.Sent.{from_last, is_copy, is_owned, is_widened, sent_change, sent, text_bytes};

use crate::content_change::{ContentChange, Range};
use crate::error::DocumentError;
use rope_changes::{ChangeSet, EditRange};
use rope_position::{Encoding, Positions};
use ropey::Rope;
use std::alloc::{AllocError, Global};
use std::borrow::CowStr;

// Returns whether an index lies between the CR and the LF of one line break.
fn is_inside_crlf(rope: &Rope, char_idx: usize) -> bool
    requires { char_idx ≤ length rope.now.text }
    ensures value { result ≡ of_sent.is_inside_crlf rope.now.text char_idx }
    ensures less { IsTrue result → char_idx + 1 < 2 ^ 64 }
{
    if char_idx == 0 || char_idx == rope.len_chars() {
        return false;
    }
    rope.char(char_idx) == '\n' && rope.char(char_idx - 1) == '\r'
}

// Returns a text after a CR, before an LF, or both; borrowed if it is neither.
fn with_ends<'a>(
    alloc: Global,
    has_cr: bool,
    text: &'a str,
    has_lf: bool,
) -> Result<CowStr<'a>, AllocError>
    ensures text { IfOk result (λ whole. chars (cow_str_bytes whole)
        ≡ (if has_cr then 13 ∷ [] else [])
        ++ (chars text.now ++ (if has_lf then 10 ∷ [] else []))) }
    ensures copied { IfOk result (λ whole. is_owned whole ≡ (has_cr || has_lf)) }
    ensures borrowed { has_cr ≡ false → has_lf ≡ false → IsOk result }
{
    if !has_cr && !has_lf {
        return Ok(CowStr::Borrowed(text));
    }
    let mut whole = String::with_capacity(alloc, text.len().saturating_add(2))?;
    if has_cr {
        whole.push_str("\r")?;
    }
    whole.push_str(text)?;
    if has_lf {
        whole.push_str("\n")?;
    }
    Ok(CowStr::Owned(whole))
}

// Returns what a peer is sent for a replacement.
fn content_change<'a>(
    alloc: Global,
    rope: &Rope,
    edit: &EditRange<'a>,
    encoding: Encoding,
) -> Result<ContentChange<'a>, AllocError>
    requires ordered { edit.now.start ≤ edit.now.end }
    requires within { edit.now.end ≤ length rope.now.text }
    ensures made { IfOk result (λ made. text_change made ≡ sent_change encoding rope.now.breaks
        rope.now.text edit.now.start edit.now.end (chars edit.now.text.now)) }
    ensures copied { IfOk result (λ made. is_copy made
        ≡ is_widened rope.now.text edit.now.start edit.now.end (chars edit.now.text.now)) }
{
    let has_cr = is_inside_crlf(rope, edit.start);
    let has_lf = is_inside_crlf(rope, edit.end);
    let start = if has_cr { edit.start - 1 } else { edit.start };
    let end = if has_lf { edit.end + 1 } else { edit.end };
    let range = Range {
        start: rope.char_to_position_in(start, encoding),
        end: rope.char_to_position_in(end, encoding),
    };
    Ok(ContentChange {
        range: Some(range),
        text: with_ends(alloc, has_cr, edit.text, has_lf)?,
    })
}

/// Returns the list of content changes that leads from the text of `rope`, which is the text before
/// a change, to the text after it. A peer that holds the same text, with the same set of line
/// breaks, and applies the list has the text after the change. The list goes from the last
/// replacement to the first, so each of its positions is one of the text before.
///
/// A replacement that starts or ends between the CR and the LF of one line break is sent as one of
/// the whole break, since no position lies there. Its text is then a copy, with the CR or the LF.
/// Other texts are borrowed from the change. The list has no invalid range, and no change of it is
/// too long if the text before and the texts of the list have at most `isize::MAX` bytes together.
///
/// # Errors
///
/// First `LengthDiffers`, with both lengths, if the rope's length isn't `change.len_before()`; then
/// `OutOfMemory`.
pub fn to_content_changes<'a>(
    alloc: Global,
    change: &'a ChangeSet,
    rope: &Rope,
    encoding: Encoding,
) -> Result<Vec<ContentChange<'a>>, DocumentError>
    ensures differs { length rope.now.text ≢ before change.now
        → result ≡ Err (LengthDiffers (before change.now) (length rope.now.text)) }
    ensures memory { length rope.now.text ≡ before change.now
        → IfErr result (λ e. e ≡ OutOfMemory) }
    ensures empty { length rope.now.text ≡ before change.now → change.now.edits ≡ []
        → IsOk result }
    ensures list { IfOk result (λ changes. map text_change changes.items
        ≡ sent encoding rope.now.breaks rope.now.text 0 change.now.edits) }
    ensures copies { IfOk result (λ changes. map is_copy changes.items
        ≡ from_last (is_widened rope.now.text) 0 change.now.edits) }
    ensures leads { IfOk result (λ changes.
        all_changed encoding rope.now.breaks rope.now.text (map text_change changes.items)
        ≡ run (ops change.now) rope.now.text) }
    ensures accepted { IfOk result (λ changes. let list = map text_change changes.items in
        byte_len rope.now.text + text_bytes list < 2 ^ 63
        → first_error encoding rope.now.breaks rope.now.text list ≡ None) }
{
    let len = rope.len_chars();
    if len != change.len_before() {
        return Err(DocumentError::LengthDiffers(change.len_before(), len));
    }
    let mut changes = Vec::new(alloc);
    if change.is_empty() {
        return Ok(changes);
    }
    let mut edits = change.edits();
    while let Some(edit) = edits.next() {
        let Ok(content) = content_change(alloc, rope, &edit, encoding) else {
            return Err(DocumentError::OutOfMemory);
        };
        if changes.push(content).is_err() {
            return Err(DocumentError::OutOfMemory);
        }
    }
    changes.reverse();
    Ok(changes)
}
