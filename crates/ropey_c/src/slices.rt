//! Parts of a rope's text: their counts, and their text if one chunk has all of it.
//!
//! A program that draws lines or counts in a range needs one lookup in place of three. The bytes
//! belong to the rope, and are lent for as long as its handle is. No call takes memory.
ghost use Rattle.std.specs.Prelude.{◌≡◌, ◌<◌, ◌≤◌, ◌↔◌, true, [], length, drop, Some, IsSome, IfSome};
ghost use Rattle.std.specs.Str.{chars, encode_utf8_all};
ghost use Rattle.rope_text.specs.Conversions.{line_to_char, byte_to_char};
ghost use Rattle.rope_text.specs.Edit.{is_char_boundary, byte_range_error};
ghost use Rattle.rope_text.specs.Text.{byte_len};
ghost use Rattle.rope_text.specs.LineParts.{part_between, lines_of};
ghost use Rattle.rope_text.specs.Lines.{line_count};
ghost use Rattle.rope_slice.specs.Edge.{line_info};
ghost use Rattle.rope_slice.specs.Slice.{content_of, text_of, chunks_of, breaks_of};
ghost use Rattle.ropey.specs.View.{content};
ghost use Rattle.ropey_c.specs.Handles.{HoldsRope};
ghost use Rattle.ropey_c.specs.Slices.{shown, shown_as, SliceOfChars, SliceOfLine, ShowsLinesFrom, ShowsLinesBefore};
ghost use Rattle.ropey_c.specs.Before.{IsBefore, SliceOfCharsAt, SliceOfBytesAt, CountsInCharsAt, SaysOf, ShowsLinesAt, ShowsLinesFromAt};

use crate::counts::{Counts, counts_of};
use crate::fill::fill;
use crate::lent::Lent;
use crate::macros::{held, ok_or};
use crate::status::{CHAR_INDEX_OUT_OF_BOUNDS, LINE_INDEX_OUT_OF_BOUNDS, OK, status_of};
use rope_text::TextInfo;
use rope_text::range::char_bounds;
use ropey::{Rope, RopeSlice};

/// A part of a rope's text: its bytes if one chunk has all of them, and otherwise none; and its
/// counts.
#[repr(C)]
#[derive(Drop)]
pub struct Slice<'a> {
    pub text: &'a [u8],
    pub counts: Counts,
}

fn bytes_of(text: &str) -> &[u8]
    ensures { result.now ≡ encode_utf8_all (chars text.now) }
{
    text.as_bytes()
}

// The bytes of a slice if one chunk has all of them, and otherwise none.
#[inline(always)]
fn lent_of<'a>(slice: &RopeSlice<'a>) -> &'a [u8]
    ensures one { length (chunks_of slice.now) ≤ 1
        → result.now ≡ encode_utf8_all (text_of slice.now) }
    ensures more { 1 < length (chunks_of slice.now) → result.now ≡ [] }
{
    match slice.as_str() {
        Some(text) => bytes_of(text),
        None => b"",
    }
}

impl<'a> From<RopeSlice<'a>> for Slice<'a> {
    ghost use Rattle.rope_slice.specs.Slice.{content_of};
    ghost use Rattle.ropey_c.specs.Slices.{shown, shown_as};

    ghost from_gives = { λ part slice. shown slice ≡ shown_as (content_of part) };

    #[inline(always)]
    fn from(part: RopeSlice<'a>) -> Slice<'a>
        ensures { shown result ≡ shown_as (content_of part.entry) }
    {
        Slice {
            text: lent_of(&part),
            counts: counts_of(&part),
        }
    }
}

/// Writes the slice of the characters from `start` up to `end`, counted from 0.
///
/// # Errors
///
/// `NO_ROPE_HELD`, then `CHAR_RANGE_OUT_OF_BOUNDS`, then `CHAR_RANGE_INVALID`. Then nothing is
/// written.
#[unsafe(no_mangle)]
pub extern "C" fn ropey_char_slice<'a>(
    rope: &'a Lent,
    start: usize,
    end: usize,
    slice: &mut Slice<'a>,
) -> u32
    ensures answer { SliceOfChars rope.now.rope start end result slice.old slice.new }
    ensures kept { HoldsRope rope.now.rope }
{
    let held = held!(rope);
    let (start, end) = ok_or!(char_bounds(&(start..end), held.len_chars()), status_of);
    *slice = Slice::from(held.slice(start..end));
    OK
}

/// Writes the line `line_idx`, counted from 0, including its line break.
///
/// # Errors
///
/// `NO_ROPE_HELD`, then `LINE_INDEX_OUT_OF_BOUNDS`, also for the number of lines. Then nothing is
/// written.
#[unsafe(no_mangle)]
pub extern "C" fn ropey_line_slice<'a>(
    rope: &'a Lent,
    line_idx: usize,
    slice: &mut Slice<'a>,
) -> u32
    ensures answer { SliceOfLine rope.now.rope line_idx result slice.old slice.new }
    ensures kept { HoldsRope rope.now.rope }
{
    let held = held!(rope);
    if line_idx >= held.len_lines() {
        return LINE_INDEX_OUT_OF_BOUNDS;
    }
    *slice = Slice::from(held.line(line_idx));
    OK
}

/// Writes to `lines` the lines from the line `line_idx` on, each with its line break, as far as
/// there is room, and their number to `count`. Costs one lookup, and then a step a line.
///
/// # Errors
///
/// `NO_ROPE_HELD`, then `LINE_INDEX_OUT_OF_BOUNDS`. Then nothing is written.
#[unsafe(no_mangle)]
pub extern "C" fn ropey_lines_from<'a>(
    rope: &'a Lent,
    line_idx: usize,
    lines: &mut [Slice<'a>],
    count: &mut usize,
) -> u32
    ensures answer { ShowsLinesFrom rope.now.rope line_idx result lines.old lines.new count.old
        count.new }
    ensures kept { HoldsRope rope.now.rope }
{
    let held = held!(rope);
    if line_idx > held.len_lines() {
        return LINE_INDEX_OUT_OF_BOUNDS;
    }
    *count = fill(held.lines_at(line_idx), lines);
    OK
}

/// Writes to `lines` the lines before the line `line_idx`, the nearest first, each with its line
/// break, as far as there is room, and their number to `count`. Costs one lookup, and then a step a
/// line.
///
/// # Errors
///
/// `NO_ROPE_HELD`, then `LINE_INDEX_OUT_OF_BOUNDS`. Then nothing is written.
#[unsafe(no_mangle)]
pub extern "C" fn ropey_lines_before<'a>(
    rope: &'a Lent,
    line_idx: usize,
    lines: &mut [Slice<'a>],
    count: &mut usize,
) -> u32
    ensures answer { ShowsLinesBefore rope.now.rope line_idx result lines.old lines.new count.old
        count.new }
    ensures kept { HoldsRope rope.now.rope }
{
    let held = held!(rope);
    if line_idx > held.len_lines() {
        return LINE_INDEX_OUT_OF_BOUNDS;
    }
    *count = fill(held.lines_at(line_idx).reversed(), lines);
    OK
}

// The counts before a character, after which the text is `rest`.
#[inline(always)]
fn before_rest(rope: &Rope, char_idx: usize, rest: &RopeSlice<'_>) -> Counts
    requires within { char_idx ≤ length rope.now.text }
    requires rest { text_of rest.now ≡ drop char_idx rope.now.text }
    requires breaks { breaks_of rest.now ≡ rope.now.breaks }
    ensures { IsBefore rope.now.breaks rope.now.text char_idx result }
{
    Counts {
        bytes: rope.len_bytes() - rest.len_bytes(),
        chars: char_idx,
        utf16: rope.len_utf16_cu() - rest.len_utf16_cu(),
        line_breaks: rope.len_lines() - rest.len_lines(),
    }
}

// The text from a character on, and the counts before it.
#[inline(always)]
fn rest_from(rope: &Rope, char_idx: usize) -> (RopeSlice<'_>, Counts)
    requires within { char_idx ≤ length rope.now.text }
    ensures rest { content_of result.0
        ≡ part_between (content rope.now) char_idx (length rope.now.text) }
    ensures before { IsBefore rope.now.breaks rope.now.text char_idx result.1 }
{
    let rest = rope.slice(char_idx..);
    let before = before_rest(rope, char_idx, &rest);
    (rest, before)
}

// The characters from `start` up to `end`, and the counts before them.
#[inline(always)]
fn part_at(rope: &Rope, start: usize, end: usize) -> (RopeSlice<'_>, Counts)
    requires ordered { start ≤ end }
    requires within { end ≤ length rope.now.text }
    ensures part { content_of result.0 ≡ part_between (content rope.now) start end }
    ensures before { IsBefore rope.now.breaks rope.now.text start result.1 }
{
    let (rest, before) = rest_from(rope, start);
    (rest.slice(..end - start), before)
}

/// Writes the slice of the characters from `start` up to `end`, as `ropey_char_slice` does, and the
/// counts of the text before them. A line break that ends after `start` is not counted there.
///
/// # Errors
///
/// `NO_ROPE_HELD`, then `CHAR_RANGE_OUT_OF_BOUNDS`, then `CHAR_RANGE_INVALID`. Then nothing is
/// written.
#[unsafe(no_mangle)]
pub extern "C" fn ropey_char_slice_with_before<'a>(
    rope: &'a Lent,
    start: usize,
    end: usize,
    slice: &mut Slice<'a>,
    before: &mut Counts,
) -> u32
    ensures answer { SliceOfCharsAt rope.now.rope start end result slice.old slice.new before.old
        before.new }
    ensures kept { HoldsRope rope.now.rope }
{
    let held = held!(rope);
    let (start, end) = ok_or!(char_bounds(&(start..end), held.len_chars()), status_of);
    let (part, counts) = part_at(held, start, end);
    *slice = Slice::from(part);
    *before = counts;
    OK
}

// The bytes from `start` up to `end`, and the counts before them; none if one of the two is inside
// a character.
#[inline(always)]
fn part_at_byte(rope: &Rope, start: usize, end: usize) -> Option<(RopeSlice<'_>, Counts)>
    requires ordered { start ≤ end }
    requires within { end ≤ byte_len rope.now.text }
    ensures part { IfSome result (λ found. content_of found.0 ≡ part_between (content rope.now)
        (byte_to_char rope.now.text start) (byte_to_char rope.now.text end)) }
    ensures before { IfSome result (λ found.
        IsBefore rope.now.breaks rope.now.text (byte_to_char rope.now.text start) found.1) }
    ensures whole { IsSome result ↔ ((is_char_boundary rope.now.text start ≡ true)
        × (is_char_boundary rope.now.text end ≡ true)) }
{
    let rest = rope.get_byte_slice(start..rope.len_bytes())?;
    let part = rest.get_byte_slice(0..end - start)?;
    let before = before_rest(rope, rope.len_chars() - rest.len_chars(), &rest);
    Some((part, before))
}

// The status of a range of bytes: `OK`, or the first that is wrong with it.
fn check_bytes(rope: &Rope, start: usize, end: usize) -> u32
    ensures { SaysOf (byte_range_error rope.now.text (Some start) (Some end)) result }
{
    let _ = ok_or!(rope.try_byte_slice(start..end), status_of);
    OK
}

/// Writes the slice of the bytes from `start` up to `end`, counted from 0, and the counts of the
/// text before them. A line break that ends after `start` is not counted there.
///
/// # Errors
///
/// `NO_ROPE_HELD`, then `BYTE_RANGE_INVALID`, then `BYTE_RANGE_OUT_OF_BOUNDS`, then
/// `BYTE_RANGE_NOT_CHAR_BOUNDARY`. Then nothing is written.
#[unsafe(no_mangle)]
pub extern "C" fn ropey_byte_slice_with_before<'a>(
    rope: &'a Lent,
    start: usize,
    end: usize,
    slice: &mut Slice<'a>,
    before: &mut Counts,
) -> u32
    ensures answer { SliceOfBytesAt rope.now.rope start end result slice.old slice.new before.old
        before.new }
    ensures kept { HoldsRope rope.now.rope }
{
    let held = held!(rope);
    if start <= end && end <= held.len_bytes() {
        if let Some((part, counts)) = part_at_byte(held, start, end) {
            *slice = Slice::from(part);
            *before = counts;
            return OK;
        }
    }
    check_bytes(held, start, end)
}

/// Writes the counts of the characters from `start` up to `end`, as `ropey_counts_in_chars` does,
/// and those of the text before them, as `ropey_char_slice_with_before` does.
///
/// # Errors
///
/// `NO_ROPE_HELD`, then `CHAR_RANGE_OUT_OF_BOUNDS`, then `CHAR_RANGE_INVALID`. Then nothing is
/// written.
#[unsafe(no_mangle)]
pub extern "C" fn ropey_counts_in_chars_with_before(
    rope: &Lent,
    start: usize,
    end: usize,
    counts: &mut Counts,
    before: &mut Counts,
) -> u32
    ensures answer { CountsInCharsAt rope.now.rope start end result counts.old counts.new before.old
        before.new }
    ensures kept { HoldsRope rope.now.rope }
{
    let held = held!(rope);
    let (start, end) = ok_or!(char_bounds(&(start..end), held.len_chars()), status_of);
    let (counted, front) = part_at(held, start, end);
    *counts = counts_of(&counted);
    *before = front;
    OK
}

/// Writes to `lines` the lines of the text from the character `char_idx` on, each with its line
/// break, as far as there is room, their number to `count`, and the counts of the text before the
/// character to `before`. The first line begins at that character, wherever its line does. A line
/// break that ends after the character is not counted before it. Costs two lookups, and then a step
/// a line.
///
/// # Errors
///
/// `NO_ROPE_HELD`, then `CHAR_INDEX_OUT_OF_BOUNDS`. Then nothing is written.
#[unsafe(no_mangle)]
pub extern "C" fn ropey_lines_from_char_with_before<'a>(
    rope: &'a Lent,
    char_idx: usize,
    lines: &mut [Slice<'a>],
    count: &mut usize,
    before: &mut Counts,
) -> u32
    ensures answer { ShowsLinesAt rope.now.rope char_idx result lines.old lines.new count.old
        count.new before.old before.new }
    ensures kept { HoldsRope rope.now.rope }
{
    let held = held!(rope);
    if char_idx > held.len_chars() {
        return CHAR_INDEX_OUT_OF_BOUNDS;
    }
    let (rest, counts) = rest_from(held, char_idx);
    *before = counts;
    *count = fill(rest.lines(), lines);
    OK
}

// The counts of the text before a line, as C sees them.
#[inline(always)]
fn before_line(rope: &Rope, front: TextInfo, line_idx: usize) -> Counts
    requires { front ≡ line_info rope.now.breaks rope.now.text line_idx }
    ensures { IsBefore rope.now.breaks rope.now.text
        (line_to_char rope.now.breaks rope.now.text line_idx) result }
{
    // For the proof: a rope has at most `isize::MAX` bytes, so the code units before a line are
    // counted.
    let _ = rope.len_bytes();
    Counts {
        bytes: front.bytes,
        chars: front.chars,
        utf16: front.chars + front.utf16_surrogates,
        line_breaks: front.break_count,
    }
}

/// Writes the lines from the line `line_idx` on, as `ropey_lines_from` does, and the counts of the
/// text before the first of them. Costs one lookup, and then a step a line.
///
/// # Errors
///
/// `NO_ROPE_HELD`, then `LINE_INDEX_OUT_OF_BOUNDS`. Then nothing is written.
#[unsafe(no_mangle)]
pub extern "C" fn ropey_lines_from_with_before<'a>(
    rope: &'a Lent,
    line_idx: usize,
    lines: &mut [Slice<'a>],
    count: &mut usize,
    before: &mut Counts,
) -> u32
    ensures answer { ShowsLinesFromAt rope.now.rope line_idx result lines.old lines.new count.old
        count.new before.old before.new }
    ensures kept { HoldsRope rope.now.rope }
{
    let held = held!(rope);
    if line_idx > held.len_lines() {
        return LINE_INDEX_OUT_OF_BOUNDS;
    }
    let (found, front) = held.lines_and_counts_at(line_idx);
    *before = before_line(held, front, line_idx);
    *count = fill(found, lines);
    OK
}
