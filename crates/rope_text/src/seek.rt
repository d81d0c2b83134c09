//! Searches in the bytes of a text: whole blocks of 32 bytes are counted up to the block with the
//! position searched for, and a binary search finishes there. The tail is scanned byte by byte. If
//! there is no such position, the result is the end.
//!
//! The first line break of a text is found together with the counts of the text before it, in one
//! pass.
#![tactic(auto, using(crate::proofs::Blocks::begins_le, crate::proofs::Blocks::pairs_le, crate::proofs::Blocks::byte_break_count_le))]

ghost use Rattle.std.specs.Prelude.{◌≡◌, ◌+◌, ◌<◌, ◌≤◌, List, ℕ, length, count_by, drop, take, IsTrue};
ghost use Rattle.rope_text.specs.Bytes.{begins_char, begins_pair};
ghost use Rattle.rope_text.specs.ByteBreaks.{byte_break_count, char_width, IsUnitPlaceOf, breaks_at};
ghost use Rattle.rope_text.specs.Marks.{IsPlaceOf, IsPassed};
ghost use Rattle.std.specs.Str.{chars};
ghost use Rattle.rope_text.specs.Conversions.{line_to_byte, line_to_char};
ghost use Rattle.rope_text.specs.Scan.{IsFront, HasPassed};

use crate::bits::{first_mark, ones_before, ones_between, place_of_mark};
use crate::lanes::{Mark, ahead, is_mark, known_mask, marks_between, marks_in, mask, masks_of};
use crate::{LineBreaks, known_set};

// Returns the byte with which the mark `n`, counted from the byte `from`, begins. Scans byte by
// byte.
fn find(bytes: &[u8], from: usize, n: usize, mark: Mark) -> usize
    requires { from ≤ length bytes.now }
    ensures { IsPlaceOf mark bytes.now from n result }
{
    let mut left = n;
    for at in from..bytes.len() {
        if is_mark(bytes, at, mark) {
            if left == 0 {
                return at;
            }
            left -= 1;
        }
    }
    bytes.len()
}

/// Returns the byte with which the mark `n`, counted from the byte `from`, begins. Scans by blocks.
#[inline(always)]
pub(crate) fn find_from(bytes: &[u8], from: usize, n: usize, mark: Mark) -> usize
    requires { from ≤ length bytes.now }
    ensures { IsPlaceOf mark bytes.now from n result }
{
    let (mut at, mut left) = (from, n);
    while bytes.len() - at >= 32 + ahead(mark) {
        let begun = mask(bytes, at, mark);
        let passed = ones_before(begun, 32);
        if left < passed {
            return at + place_of_mark(begun, 0, left);
        }
        left -= passed;
        at += 32;
    }
    find(bytes, at, left, mark)
}

/// Skips whole pairs of blocks before the character `n`. Returns their end, and the number of the
/// character counted from there.
pub(crate) fn skip_chars(bytes: &[u8], n: usize) -> (usize, usize)
    ensures { IsPassed Mark.Char bytes.now n result.0 result.1 }
{
    let (mut at, mut left) = (0, n);
    while bytes.len() - at >= 64 {
        let passed = marks_in(bytes, at, Mark::Char) + marks_in(bytes, at + 32, Mark::Char);
        if left < passed {
            return (at, left);
        }
        left -= passed;
        at += 64;
    }
    (at, left)
}

/// Skips whole pairs of blocks from the end back to the character `n`, in bytes of `chars`
/// characters. Returns the start of the last pair that begins at or before the character, or 0, and
/// the number of the character counted from there.
pub(crate) fn skip_chars_back(bytes: &[u8], n: usize, chars: usize) -> (usize, usize)
    requires within { n ≤ chars }
    requires chars { chars ≡ count_by begins_char bytes.now }
    ensures { IsPassed Mark.Char bytes.now n result.0 result.1 }
{
    // `left` is the number of characters from `n` on that begin before `at`.
    let (mut at, mut left) = (bytes.len(), chars - n);
    while at >= 64 {
        let passed = marks_in(bytes, at - 64, Mark::Char) + marks_in(bytes, at - 32, Mark::Char);
        if left <= passed {
            return (at - 64, passed - left);
        }
        left -= passed;
        at -= 64;
    }
    (0, n)
}

/// Skips single blocks from the end back to the break `n`, in bytes of `break_count` breaks.
/// Returns a position at or before the break, and the number of the break counted from there. The
/// last bytes, which decide whether breaks begin before them, are counted separately: no block is
/// read there.
pub(crate) fn skip_breaks_back(
    bytes: &[u8],
    n: usize,
    break_count: usize,
    breaks: LineBreaks,
) -> (usize, usize)
    requires within { n ≤ break_count }
    requires break_count { break_count ≡ byte_break_count breaks bytes.now }
    ensures { IsPassed (Mark.Break breaks) bytes.now n result.0 result.1 }
{
    let mut at = bytes.len().saturating_sub(ahead(Mark::Break(breaks)));
    let following = marks_between(bytes, at, bytes.len(), Mark::Break(breaks));
    if break_count - n <= following {
        return (at, following - (break_count - n));
    }
    // `left` is the number of breaks from `n` on that begin before `at`.
    let mut left = break_count - n - following;
    while at >= 32 {
        let passed = marks_in(bytes, at - 32, Mark::Break(breaks));
        if left <= passed {
            return (at - 32, passed - left);
        }
        left -= passed;
        at -= 32;
    }
    (0, n)
}

/// A position that a search has reached, and the numbers of characters and pairs that begin before
/// it.
#[derive(Clone, Copy)]
pub(crate) struct Passed {
    pub at: usize,
    pub chars: usize,
    pub pairs: usize,
}

impl Passed {
    /// Returns the start of a text.
    pub fn none() -> Passed
        ensures passed { (bytes : List ℕ) → HasPassed bytes result }
        ensures none { result.chars + result.pairs ≡ 0 }
    {
        Passed {
            at: 0,
            chars: 0,
            pairs: 0,
        }
    }
}

/// Skips whole blocks from the end back to a position at or before the code unit `n`, in bytes of
/// known counts. Returns the end if there is no such code unit.
pub(crate) fn skip_units_back(bytes: &[u8], n: usize, chars: usize, pairs: usize) -> Passed
    requires chars { chars ≡ count_by begins_char bytes.now }
    requires pairs { pairs ≡ count_by begins_pair bytes.now }
    ensures passed { HasPassed bytes.now result }
    ensures before { result.chars + result.pairs ≤ n }
{
    let mut passed = Passed {
        at: bytes.len(),
        chars,
        pairs,
    };
    while passed.chars + passed.pairs > n {
        if passed.at < 32 {
            return Passed::none();
        }
        passed.at -= 32;
        passed.chars -= marks_in(bytes, passed.at, Mark::Char);
        passed.pairs -= marks_in(bytes, passed.at, Mark::Pair);
    }
    passed
}

/// Returns the byte at which the character that contains the code unit `n`, counted from the byte
/// `from`, begins. Scans byte by byte.
pub(crate) fn find_unit(bytes: &[u8], from: usize, n: usize) -> usize
    requires { from ≤ length bytes.now }
    ensures { IsUnitPlaceOf bytes.now from n result }
{
    let mut left = n;
    for at in from..bytes.len() {
        if is_mark(bytes, at, Mark::Char) {
            let width = 1 + is_mark(bytes, at, Mark::Pair) as usize;
            if left < width {
                return at;
            }
            left -= width;
        }
    }
    bytes.len()
}

/// Returns the byte at which the character `n` begins, and the number of breaks that begin before
/// it. Inlined, since each caller's set is a constant.
#[inline(always)]
pub(crate) fn line_of_char(bytes: &[u8], n: usize, breaks: LineBreaks) -> (usize, usize)
    ensures place { IsPlaceOf Mark.Char bytes.now 0 n result.0 }
    ensures break_count { byte_break_count breaks bytes.now
        ≡ result.1 + byte_break_count breaks (drop result.0 bytes.now) }
{
    let (mut at, mut left, mut break_count) = (0, n, 0);
    while bytes.len() - at >= 34 {
        let passed = marks_in(bytes, at, Mark::Char);
        if left < passed {
            break;
        }
        left -= passed;
        break_count += marks_in(bytes, at, Mark::Break(breaks));
        at += 32;
    }
    let to = find_from(bytes, at, left, Mark::Char);
    let more = marks_between(bytes, at, to, Mark::Break(breaks));
    (to, break_count + more)
}

/// The whole blocks before a break: their end, their characters, and the number of the break
/// counted from their end.
#[derive(Clone, Copy)]
struct Blocks {
    end: usize,
    chars: usize,
    left: usize,
}

// Skips the whole blocks before the break `n`.
fn skip_known(bytes: &[u8], n: usize, breaks: LineBreaks) -> Blocks
    ensures passed { IsPassed (Mark.Break breaks) bytes.now n result.end result.left }
    ensures chars { count_by begins_char bytes.now
        ≡ result.chars + count_by begins_char (drop result.end bytes.now) }
{
    let (mut end, mut chars, mut left) = (0, 0, n);
    while bytes.len() - end >= 34 {
        let passed = marks_in(bytes, end, Mark::Break(breaks));
        if left < passed {
            return Blocks { end, chars, left };
        }
        left -= passed;
        chars += marks_in(bytes, end, Mark::Char);
        end += 32;
    }
    Blocks { end, chars, left }
}

/// Returns the byte with which the break `n` begins, in bytes of `break_count` breaks, from the
/// side with fewer of them. Inlined, since each caller's set is a constant.
#[inline(always)]
pub(crate) fn find_break(bytes: &[u8], n: usize, break_count: usize, breaks: LineBreaks) -> usize
    requires within { n ≤ break_count }
    requires break_count { break_count ≡ byte_break_count breaks bytes.now }
    ensures { IsPlaceOf (Mark.Break breaks) bytes.now 0 n result }
{
    let (from, left) = if n < break_count / 2 {
        let blocks = skip_known(bytes, n, breaks);
        (blocks.end, blocks.left)
    } else {
        skip_breaks_back(bytes, n, break_count, breaks)
    };
    find_from(bytes, from, left, Mark::Break(breaks))
}

/// Returns the number of bytes of the character that begins with the byte.
pub(crate) fn width_of(byte: u8) -> usize
    ensures { result ≡ char_width byte }
{
    match byte {
        0..=0x7F => 1,
        0x80..=0xDF => 2,
        0xE0..=0xEF => 3,
        0xF0..=0xFF => 4,
    }
}

/// Returns the numbers of bytes and characters before the line `line_idx`, or of all if there is no
/// such line. Inlined, so that a count that a caller ignores is not computed.
#[inline(always)]
pub(crate) fn front_of_line(text: &str, line_idx: usize, breaks: LineBreaks) -> (usize, usize)
    ensures bytes { result.0 ≡ line_to_byte breaks (chars text.now) line_idx }
    ensures chars { result.1 ≡ line_to_char breaks (chars text.now) line_idx }
{
    if line_idx == 0 {
        return (0, 0);
    }
    let bytes = text.as_bytes();
    let blocks = known_set!(breaks => skip_known(bytes, line_idx - 1, breaks));
    let to = find_from(bytes, blocks.end, blocks.left, Mark::Break(breaks));
    let chars = blocks.chars + marks_between(bytes, blocks.end, to, Mark::Char);
    if to < bytes.len() {
        return (to + width_of(bytes[to]), chars + 1);
    }
    (to, chars)
}

/// The bytes before a position, with no line break among them, and their counts.
// In this order: the compiler would add up two adjacent counts in one vector register, which takes
// longer.
#[derive(Clone, Copy)]
pub(crate) struct Front {
    pub chars: usize,
    pub at: usize,
    pub pairs: usize,
}

// Advances from a position near the end to the next break, or to the end of the last block that can
// be read. A position after that end stays.
fn go_in_last_block(bytes: &[u8], from: Front, breaks: LineBreaks) -> Front
    requires near { length bytes.now ≤ from.at + 34 }
    requires front { IsFront breaks bytes.now from.chars from.at from.pairs }
    ensures { IsFront breaks bytes.now result.chars result.at result.pairs }
{
    if bytes.len() < 34 || from.at > bytes.len() - 2 {
        return from;
    }
    let at = bytes.len() - 34;
    let skip = from.at - at;
    let begins = known_mask(bytes, at, Mark::Char);
    let pairs = known_mask(bytes, at, Mark::Pair);
    let marks = mask(bytes, at, Mark::Break(breaks)) >> skip;
    let to = skip + first_mark(marks).min(32 - skip);
    Front {
        chars: from.chars + ones_between(begins, skip, to),
        at: at + to,
        pairs: from.pairs + ones_between(pairs, skip, to),
    }
}

// Advances from a position near the end to the next break or to the end of the bytes. Never
// inlined: each chunk needs it once, and it would make its callers longer. The position is passed
// by reference: to receive one as a result, a caller would clear stack at each line.
#[inline(never)]
fn go_to_end(bytes: &[u8], front: &mut Front, breaks: LineBreaks)
    requires near { length bytes.now ≤ front.old.at + 34 }
    requires front { IsFront breaks bytes.now front.old.chars front.old.at front.old.pairs }
    ensures front { IsFront breaks bytes.now front.new.chars front.new.at front.new.pairs }
    ensures inside { front.new.at < length bytes.now
        → IsTrue (breaks_at breaks bytes.now front.new.at) }
{
    let from = go_in_last_block(bytes, *front, breaks);
    let (mut chars, mut at, mut pairs) = (from.chars, from.at, from.pairs);
    while at < bytes.len() && !is_mark(bytes, at, Mark::Break(breaks)) {
        chars += is_mark(bytes, at, Mark::Char) as usize;
        pairs += is_mark(bytes, at, Mark::Pair) as usize;
        at += 1;
    }
    *front = Front { chars, at, pairs };
}

/// Returns the bytes before the last character of the first line break, or all bytes, with their
/// counts, a block at a time. A set that is constant at the call leaves no test of it in the loop.
#[inline(always)]
pub(crate) fn to_first_break(bytes: &[u8], breaks: LineBreaks) -> Front
    ensures front { IsFront breaks bytes.now result.chars result.at result.pairs }
    ensures inside { result.at < length bytes.now → IsTrue (breaks_at breaks bytes.now result.at) }
{
    let (mut chars, mut at, mut pairs) = (0, 0, 0);
    while bytes.len() - at >= 34 {
        let masks = masks_of(bytes, at, breaks);
        if ones_before(masks.breaks, 32) > 0 {
            let skip = first_mark(masks.breaks);
            chars += ones_before(masks.chars, skip);
            pairs += ones_before(masks.pairs, skip);
            at += skip;
            return Front { chars, at, pairs };
        }
        at += 32;
        chars += ones_before(masks.chars, 32);
        pairs += ones_before(masks.pairs, 32);
    }
    let mut front = Front { chars, at, pairs };
    go_to_end(bytes, &mut front, breaks);
    front
}
