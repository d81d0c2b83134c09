//! Backward searches for a line break, with the counts of the text from there on, in one pass over
//! its bytes, in blocks of 32.
ghost use Rattle.std.specs.Prelude.{◌≡◌, ◌+◌, ◌<◌, ◌≤◌, false, length};
ghost use Rattle.rope_text.specs.Scan.{GoesBack, HasRoom, back_from};

use crate::LineBreaks;
use crate::bits::{mark_from_end, ones_before, ones_between};
use crate::lanes::{Mark, is_mark, masks_of};

/// A position reached while scanning backward, with the counts of the text passed.
#[derive(Clone, Copy)]
pub(crate) struct Back {
    pub at: usize,
    pub chars: usize,
    pub pairs: usize,
    /// The number of breaks to pass before the one searched for.
    pub left: usize,
}

/// Scans back one byte. Returns whether the break searched for begins there.
#[inline(always)]
fn back_by_byte(bytes: &[u8], from: Back, breaks: LineBreaks) -> (Back, bool)
    requires room { HasRoom from }
    requires within { from.at ≤ length bytes.now }
    requires some { 0 < from.at }
    ensures goes { GoesBack breaks bytes.now from result.0 result.1 }
    ensures by_one { result.0.at + 1 ≡ from.at }
{
    let at = from.at - 1;
    let mut back = Back {
        at,
        chars: from.chars + is_mark(bytes, at, Mark::Char) as usize,
        pairs: from.pairs + is_mark(bytes, at, Mark::Pair) as usize,
        left: from.left,
    };
    if !is_mark(bytes, at, Mark::Break(breaks)) {
        return (back, false);
    }
    if back.left == 0 {
        return (back, true);
    }
    back.left -= 1;
    (back, false)
}

/// Scans back byte by byte to the byte `to`, or to the break searched for. Returns whether it found
/// that break. Never inlined: only short texts and the ends of texts need it. The position is
/// passed by reference: to receive one as a result, a caller would clear stack at each line.
#[inline(never)]
fn back_by_bytes(bytes: &[u8], back: &mut Back, to: usize, breaks: LineBreaks) -> bool
    requires room { HasRoom back.old }
    requires within { back.old.at ≤ length bytes.now }
    requires to { to ≤ back.old.at }
    ensures goes { GoesBack breaks bytes.now back.old back.new result }
    ensures end { result ≡ false → back.new.at ≡ to }
{
    let mut is_found = false;
    while !is_found && back.at > to {
        (*back, is_found) = back_by_byte(bytes, *back, breaks);
    }
    is_found
}

/// Scans back one block, or byte by byte to the start in a text shorter than a block.
#[inline(always)]
fn back_by_block(bytes: &[u8], back: Back, breaks: LineBreaks) -> (Back, bool)
    requires room { HasRoom back }
    requires within { back.at + 2 ≤ length bytes.now }
    requires some { 0 < back.at }
    ensures goes { GoesBack breaks bytes.now back result.0 result.1 }
    ensures further { result.0.at < back.at }
{
    let from = back.at.saturating_sub(32);
    if bytes.len() - from < 34 {
        let mut moved = back;
        let is_found = back_by_bytes(bytes, &mut moved, 0, breaks);
        return (moved, is_found);
    }
    let len = back.at - from;
    let masks = masks_of(bytes, from, breaks);
    let passed = ones_before(masks.breaks, len);
    if back.left >= passed {
        let before = Back {
            at: from,
            chars: back.chars + ones_before(masks.chars, len),
            pairs: back.pairs + ones_before(masks.pairs, len),
            left: back.left - passed,
        };
        return (before, false);
    }
    let place = mark_from_end(masks.breaks, len, back.left);
    let before = Back {
        at: from + place,
        chars: back.chars + ones_between(masks.chars, place, len),
        pairs: back.pairs + ones_between(masks.pairs, place, len),
        left: 0,
    };
    (before, true)
}

/// Scans back from the byte `end` over `skip` breaks to the last character of the break before
/// them, or to the start. Returns whether it found that break. Inlined: a set that is constant at
/// the call leaves no test of it in the loop.
#[inline(always)]
pub(crate) fn back_to_break(
    bytes: &[u8],
    end: usize,
    skip: usize,
    breaks: LineBreaks,
) -> (Back, bool)
    requires within { end ≤ length bytes.now }
    ensures goes { GoesBack breaks bytes.now (back_from end skip) result.0 result.1 }
    ensures start { result.1 ≡ false → result.0.at ≡ 0 }
{
    let start = Back {
        at: end,
        chars: 0,
        pairs: 0,
        left: skip,
    };
    // The break at the line's end is nearly always one byte; and a block is read two bytes past its
    // end.
    let (mut back, mut is_found) = if end > 0 && end < bytes.len() {
        back_by_byte(bytes, start, breaks)
    } else {
        let mut moved = start;
        let is_found = back_by_bytes(bytes, &mut moved, end.saturating_sub(2), breaks);
        (moved, is_found)
    };
    while !is_found && back.at > 0 {
        (back, is_found) = back_by_block(bytes, back, breaks);
    }
    (back, is_found)
}
