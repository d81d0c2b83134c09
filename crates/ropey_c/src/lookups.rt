//! The bytes, the characters and the lines of a rope by their index. Each call costs a lookup or
//! two and takes no memory. A call that fails writes nothing.
ghost use Rattle.std.specs.Prelude.{◌≡◌, ◌+◌, ◌<◌, length, slice_get, Some};
ghost use Rattle.std.specs.Str.{encode_utf8_all};
ghost use Rattle.rope_text.specs.Conversions.{line_to_char};
ghost use Rattle.rope_text.specs.Lines.{line_count};
ghost use Rattle.ropey_c.specs.Handles.{HoldsRope};
ghost use Rattle.ropey_c.specs.Answers.{FindsAt, FindsLine, FindsLineBreak};
ghost use Rattle.ropey_c.specs.Status.{number_of};

use crate::lent::Lent;
use crate::macros::{held, some_or};
use crate::status::{
    BYTE_INDEX_OUT_OF_BOUNDS, CHAR_INDEX_OUT_OF_BOUNDS, LINE_INDEX_OUT_OF_BOUNDS, NO_ROPE_HELD, OK,
    number_of,
};

/// A range of a text, from `start` up to `end`, the first index after it. Both count from 0.
#[repr(C)]
#[derive(Clone, Copy)]
pub struct Span {
    pub start: usize,
    pub end: usize,
}

/// Writes the number that stands for the rope's set of line breaks. Takes constant time.
///
/// # Errors
///
/// `NO_ROPE_HELD`.
#[unsafe(no_mangle)]
pub extern "C" fn ropey_get_break_set(rope: &Lent, break_set: &mut u32) -> u32
    ensures answer { FindsAt rope.now.rope (λ r. Some (number_of r.breaks))
        NO_ROPE_HELD result break_set.old break_set.new }
    ensures kept { HoldsRope rope.now.rope }
{
    *break_set = number_of(held!(rope).line_breaks());
    OK
}

/// Writes the byte `byte_idx`, counted from 0.
///
/// # Errors
///
/// `NO_ROPE_HELD`, then `BYTE_INDEX_OUT_OF_BOUNDS`, also for the number of bytes.
#[unsafe(no_mangle)]
pub extern "C" fn ropey_byte(rope: &Lent, byte_idx: usize, byte: &mut u8) -> u32
    ensures answer { FindsAt rope.now.rope (λ r. slice_get (encode_utf8_all r.text) byte_idx)
        BYTE_INDEX_OUT_OF_BOUNDS result byte.old byte.new }
    ensures kept { HoldsRope rope.now.rope }
{
    *byte = some_or!(held!(rope).get_byte(byte_idx), BYTE_INDEX_OUT_OF_BOUNDS);
    OK
}

/// Writes the character `char_idx`, counted from 0, as a Unicode scalar value.
///
/// # Errors
///
/// `NO_ROPE_HELD`, then `CHAR_INDEX_OUT_OF_BOUNDS`, also for the number of characters.
#[unsafe(no_mangle)]
pub extern "C" fn ropey_char(rope: &Lent, char_idx: usize, c: &mut u32) -> u32
    ensures answer { FindsAt rope.now.rope (λ r. slice_get r.text char_idx)
        CHAR_INDEX_OUT_OF_BOUNDS result c.old c.new }
    ensures kept { HoldsRope rope.now.rope }
{
    let found = some_or!(held!(rope).get_char(char_idx), CHAR_INDEX_OUT_OF_BOUNDS);
    *c = u32::from(found);
    OK
}

/// Writes the range of the characters of the line `line_idx`, counted from 0, including its line
/// break.
///
/// # Errors
///
/// `NO_ROPE_HELD`, then `LINE_INDEX_OUT_OF_BOUNDS`, also for the number of lines.
#[unsafe(no_mangle)]
pub extern "C" fn ropey_line(rope: &Lent, line_idx: usize, chars: &mut Span) -> u32
    ensures answer { FindsLine rope.now.rope line_idx result chars.old chars.new }
    ensures kept { HoldsRope rope.now.rope }
{
    let held = held!(rope);
    if line_idx >= held.len_lines() {
        return LINE_INDEX_OUT_OF_BOUNDS;
    }
    *chars = Span {
        start: held.line_to_char(line_idx),
        end: held.line_to_char(line_idx + 1),
    };
    OK
}

/// Writes to `len` the number of characters of the line break that the line `line_idx`, counted
/// from 0, ends in: 2 for CR LF, 1 for another one, 0 if the line ends in none. The characters of
/// the line without it end `len` before those that `ropey_line` finds.
///
/// # Errors
///
/// `NO_ROPE_HELD`, then `LINE_INDEX_OUT_OF_BOUNDS`, also for the number of lines.
#[unsafe(no_mangle)]
pub extern "C" fn ropey_line_break(rope: &Lent, line_idx: usize, len: &mut usize) -> u32
    ensures answer { FindsLineBreak rope.now.rope line_idx result len.old len.new }
    ensures kept { HoldsRope rope.now.rope }
{
    let held = held!(rope);
    if line_idx >= held.len_lines() {
        return LINE_INDEX_OUT_OF_BOUNDS;
    }
    *len = held.line(line_idx).line_break().len_chars();
    OK
}
