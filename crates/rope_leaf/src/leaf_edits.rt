//! Edits of a leaf's text. The counts follow by sums and differences, so that only the text
//! inserted or removed is counted.
ghost use Rattle.std.specs.Prelude.{◌≡◌, ◌+◌, ◌<◌, ◌≤◌, ◌++◌, true, false, length, IfSome, IfNone};
ghost use Rattle.std.specs.Str.{chars, all_scalars};
ghost use Rattle.rope_text.specs.declared.TheConstants.{MAX_BYTES, MAX_SHORT_BYTES};
ghost use Rattle.rope_text.specs.Text.{byte_len};
ghost use Rattle.rope_text.specs.TextInfo.{info_of, shared_breaks};
ghost use Rattle.rope_text.specs.Edit.{inserted, removed};
ghost use Rattle.rope_text.specs.Breaks.{begins_with_lf, ends_in_cr};
ghost use Rattle.rope_leaf.specs.Removal.{KeepsEnds, Spares};

use crate::node_text::text_of_parts;
use crate::{NodeText, ShortText};
use arrayvec::ArrayString;
use rope_text::str_utils::char_to_byte_idx_of;
use rope_text::{LineBreaks, MAX_JOINED_BYTES, TextInfo};

/// Returns whether the last character is CR.
pub fn ends_in_cr(text: &str) -> bool
    ensures { result ≡ ends_in_cr (chars text.now) }
{
    let bytes = text.as_bytes();
    !bytes.is_empty() && bytes[bytes.len() - 1] == b'\r'
}

/// Returns whether the first character is LF.
fn begins_with_lf(text: &str) -> bool
    ensures { result ≡ begins_with_lf (chars text.now) }
{
    text.chars().next() == Some('\n')
}

/// Returns the number of line breaks that two texts lose when they are joined: one if a CR that is
/// a line break meets an LF, else none.
pub fn shared_breaks(first: &str, second: &str, breaks: LineBreaks) -> usize
    ensures { result ≡ shared_breaks breaks (chars first.now) (chars second.now) }
{
    usize::from(ends_in_cr(first) && begins_with_lf(second) && breaks.is_break('\r'))
}

/// Returns the counts of the two parts of a text, by those of the whole. Counts only the shorter
/// part: the counts of the longer one are the difference.
pub fn infos_of_parts(
    front: &str,
    back: &str,
    info: TextInfo,
    breaks: LineBreaks,
) -> (TextInfo, TextInfo)
    requires info { info ≡ info_of breaks (chars front.now ++ chars back.now) }
    requires fits { info.bytes ≤ MAX_BYTES }
    ensures front { result.0 ≡ info_of breaks (chars front.now) }
    ensures back { result.1 ≡ info_of breaks (chars back.now) }
{
    let both = TextInfo {
        break_count: info.break_count + shared_breaks(front, back, breaks),
        ..info
    };
    if front.len() < back.len() {
        let first = TextInfo::of_short(front, breaks);
        return (first, both.minus(first));
    }
    let second = TextInfo::of_short(back, breaks);
    (both.minus(second), second)
}

/// Returns the counts of a text with another inserted between its front and its back, by the counts
/// of the two. Counts only the new text. If neither the front nor the new text ends in CR, no CR
/// meets an LF, and the counts are sums.
#[inline(always)]
fn info_between(
    info: TextInfo,
    front: &str,
    added: &str,
    back: &str,
    breaks: LineBreaks,
) -> TextInfo
    requires info { info ≡ info_of breaks (chars front.now ++ chars back.now) }
    requires fits { info.bytes ≤ MAX_BYTES }
    requires short { length added.now ≤ MAX_BYTES }
    requires some { 1 ≤ length (chars added.now) }
    ensures { result ≡ info_of breaks (chars front.now ++ (chars added.now ++ chars back.now)) }
{
    let more = info.plus(TextInfo::of_short(added, breaks));
    if !ends_in_cr(front) && !ends_in_cr(added) {
        return more;
    }
    let apart = shared_breaks(front, back, breaks);
    let met = shared_breaks(front, added, breaks) + shared_breaks(added, back, breaks);
    TextInfo {
        break_count: more.break_count + apart - met,
        ..more
    }
}

/// Returns the text of a leaf with another inserted before its character `at`, which may be too
/// long for one leaf, and its counts, by those of the leaf.
#[inline(always)]
pub fn leaf_with(
    info: TextInfo,
    leaf: &ShortText<'_>,
    at: usize,
    added: &ShortText<'_>,
    breaks: LineBreaks,
) -> (ArrayString<MAX_JOINED_BYTES>, TextInfo)
    requires info { info ≡ info_of breaks leaf.now }
    requires some { 1 ≤ length added.now }
    requires short { byte_len added.now ≤ MAX_SHORT_BYTES }
    ensures text { chars result.0.bytes ≡ inserted leaf.now at added.now }
    ensures len { length result.0.bytes ≡ byte_len leaf.now + byte_len added.now }
    ensures info { result.1 ≡ info_of breaks (inserted leaf.now at added.now) }
{
    let (front, back) = leaf.split_at_char(at);
    let added = added.as_str();
    let info = info_between(info, front, added, back, breaks);
    (text_of_parts(front, added, back), info)
}

/// Inserts a text before the character `at` of a leaf that has room for it, and returns the counts
/// of the whole, by those before.
// Inlined: a call would store the counts and load them again.
#[inline(always)]
pub fn put_in(
    leaf: &mut NodeText,
    at: usize,
    added: &ShortText<'_>,
    info: TextInfo,
    breaks: LineBreaks,
) -> TextInfo
    requires info { info ≡ info_of breaks leaf.old }
    requires within { at ≤ length leaf.old }
    requires some { 1 ≤ length added.now }
    requires fits { byte_len leaf.old + byte_len added.now ≤ MAX_BYTES }
    ensures text { leaf.new ≡ inserted leaf.old at added.now }
    ensures fits { byte_len leaf.new ≤ MAX_BYTES }
    ensures scalars { all_scalars leaf.new ≡ true }
    ensures info { result ≡ info_of breaks (inserted leaf.old at added.now) }
{
    let text = leaf.as_str();
    // ASCII: the byte index is the character index.
    let place = if info.chars == info.bytes {
        at
    } else {
        char_to_byte_idx_of(text, info.chars, at)
    };
    let added = added.as_str();
    let info = info_between(info, &text[..place], added, &text[place..], breaks);
    leaf.insert_bytes(place, added);
    info
}

/// Returns whether a removal between these two texts leaves no LF first and no CR last that wasn't:
/// beside a neighbour it might form a CR LF.
#[inline(always)]
pub fn keeps_ends(front: &str, back: &str) -> bool
    ensures first { result ≡ true → length (chars front.now) ≡ 0
        → begins_with_lf (chars back.now) ≡ false }
    ensures last { result ≡ true → length (chars back.now) ≡ 0
        → ends_in_cr (chars front.now) ≡ false }
    ensures when { (length (chars front.now) ≡ 0 → begins_with_lf (chars back.now) ≡ false)
        → (length (chars back.now) ≡ 0 → ends_in_cr (chars front.now) ≡ false) → result ≡ true }
{
    if front.is_empty() {
        return !begins_with_lf(back);
    }
    if back.is_empty() {
        return !ends_in_cr(front);
    }
    true
}

/// Removes the characters from `start` up to `end` from a leaf, and returns the counts of the rest,
/// by those before: only the removed text is counted. Returns `None`, leaving the leaf unchanged,
/// if the rest would be empty or have fewer bytes than `least`, or if an LF would be first or a CR
/// last that wasn't.
pub fn take_out(
    leaf: &mut NodeText,
    start: usize,
    end: usize,
    least: usize,
    info: TextInfo,
    breaks: LineBreaks,
) -> Option<TextInfo>
    requires info { info ≡ info_of breaks leaf.old }
    requires ordered { start < end }
    requires within { end ≤ length leaf.old }
    ensures text { IfSome result (λ _. leaf.new ≡ removed leaf.old start end) }
    ensures fits { IfSome result (λ _. byte_len leaf.new ≤ MAX_BYTES) }
    ensures scalars { IfSome result (λ _. all_scalars leaf.new ≡ true) }
    ensures info { IfSome result (λ left. left ≡ info_of breaks (removed leaf.old start end)) }
    ensures some { IfSome result (λ _. 1 ≤ length (removed leaf.old start end)) }
    ensures least { IfSome result (λ _. least ≤ byte_len (removed leaf.old start end)) }
    ensures ends { IfSome result (λ _. KeepsEnds leaf.old (removed leaf.old start end)) }
    ensures kept { IfNone result (leaf.new ≡ leaf.old) }
    ensures when { IfNone result (Spares least start end leaf.old → ⊥) }
{
    let (from, to) = leaf.byte_range(start, end, info.chars);
    let text = leaf.as_str();
    let front = &text[..from];
    let part = &text[from..to];
    let back = &text[to..];
    if front.len() + back.len() < least.max(1) {
        return None;
    }
    if !keeps_ends(front, back) {
        return None;
    }
    let less = TextInfo::of_short(part, breaks);
    let met = shared_breaks(front, part, breaks) + shared_breaks(part, back, breaks);
    let meeting = shared_breaks(front, back, breaks);
    let left = TextInfo {
        bytes: info.bytes - less.bytes,
        chars: info.chars - less.chars,
        utf16_surrogates: info.utf16_surrogates - less.utf16_surrogates,
        break_count: info.break_count + met - less.break_count - meeting,
    };
    leaf.remove_bytes(from, to);
    Some(left)
}
