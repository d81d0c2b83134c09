//! The counts of a part of a rope. Each call costs two lookups and takes no memory.
ghost use Rattle.std.specs.Prelude.{◌≡◌, length, Some};
ghost use Rattle.std.specs.List.{slice_range};
ghost use Rattle.rope_text.specs.Conversions.{byte_to_char};
ghost use Rattle.rope_text.specs.Edit.{char_range_error, byte_range_error};
ghost use Rattle.rope_slice.specs.Slice.{text_of, breaks_of};
ghost use Rattle.ropey_c.specs.Handles.{HoldsRope};
ghost use Rattle.ropey_c.specs.Counts.{IsCounts, CountsAt};

use crate::lent::Lent;
use crate::macros::{held, ok_or};
use crate::status::{OK, status_of};
use rope_text::range::char_bounds;
use ropey::RopeSlice;

/// The counts of a text, in each of the units.
#[repr(C)]
#[derive(Clone, Copy)]
pub struct Counts {
    pub bytes: usize,
    pub chars: usize,
    pub utf16: usize,
    pub line_breaks: usize,
}

#[inline(always)]
pub(crate) fn counts_of(slice: &RopeSlice<'_>) -> Counts
    ensures { IsCounts (breaks_of slice.now) (text_of slice.now) result }
{
    Counts {
        bytes: slice.len_bytes(),
        chars: slice.len_chars(),
        utf16: slice.len_utf16_cu(),
        line_breaks: slice.len_lines() - 1,
    }
}

/// Writes the counts of the characters from `start` up to `end`, counted from 0, as a text of their
/// own: a CR whose LF is outside is a line break by itself.
///
/// # Errors
///
/// `NO_ROPE_HELD`, then `CHAR_RANGE_OUT_OF_BOUNDS`, then `CHAR_RANGE_INVALID`. Then nothing is
/// written.
#[unsafe(no_mangle)]
pub extern "C" fn ropey_counts_in_chars(
    rope: &Lent,
    start: usize,
    end: usize,
    counts: &mut Counts,
) -> u32
    ensures answer { CountsAt rope.now.rope
        (λ r. char_range_error (Some start) (Some end) (length r.text))
        (λ r. slice_range r.text start end) result counts.old counts.new }
    ensures kept { HoldsRope rope.now.rope }
{
    let held = held!(rope);
    let (start, end) = ok_or!(char_bounds(&(start..end), held.len_chars()), status_of);
    *counts = counts_of(&held.slice(start..end));
    OK
}

/// Writes the counts of the bytes from `start` up to `end`, counted from 0, as a text of their own.
///
/// # Errors
///
/// `NO_ROPE_HELD`, then `BYTE_RANGE_INVALID`, then `BYTE_RANGE_OUT_OF_BOUNDS`, then
/// `BYTE_RANGE_NOT_CHAR_BOUNDARY`. Then nothing is written.
#[unsafe(no_mangle)]
pub extern "C" fn ropey_counts_in_bytes(
    rope: &Lent,
    start: usize,
    end: usize,
    counts: &mut Counts,
) -> u32
    ensures answer { CountsAt rope.now.rope (λ r. byte_range_error r.text (Some start) (Some end))
        (λ r. slice_range r.text (byte_to_char r.text start) (byte_to_char r.text end))
        result counts.old counts.new }
    ensures kept { HoldsRope rope.now.rope }
{
    let slice = ok_or!(held!(rope).try_byte_slice(start..end), status_of);
    *counts = counts_of(&slice);
    OK
}
