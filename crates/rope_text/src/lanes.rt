//! Counts over the bytes of a text, 32 bytes at a time; over runs of blocks of 64 bytes, the counts
//! of each block are added up in 16 lanes, and the lanes are summed once a run.
//!
//! Most functions take the kind of mark to count as an argument, which is a constant at nearly all
//! calls: where the compiler inlines such a call, it keeps the code for that mark alone.
#![tactic(auto, using(crate::proofs::Blocks::begins_le, crate::proofs::Blocks::pairs_le, crate::proofs::Blocks::byte_break_count_le, crate::proofs::Blocks::marks_le))]

ghost use Rattle.std.specs.Prelude.{◌≡◌, ◌+◌, ◌-◌, ◌*◌, ◌<◌, ◌≤◌, length, cond, count_by, drop, List, ℕ, take};
ghost use Rattle.rope_text.specs.Bytes.{begins_char, begins_pair};
ghost use Rattle.rope_text.specs.ByteBreaks.{byte_break_count, AreCounts};
ghost use Rattle.rope_text.specs.Bits.{ones_below};
ghost use Rattle.rope_text.specs.Marks.{HasNoMultibyte, IsLanes, IsBlockMask, ascii_mark, mark_at, marks, ahead, lf_or_cr_lf};
ghost use lib.Lanes.{sum_l};
ghost use Rattle.rope_text.specs.Runs.{IsSum, count_of, multibyte_of, multibyte_at, multibyte_begin, places};

use crate::bits::{first_mark, ones_before, ones_between};
use crate::{LineBreaks, TextInfo, known_set};
use std::simd::prelude::*;

/// A mark that is counted. Each begins with one byte.
#[derive(Clone, Copy)]
pub(crate) enum Mark {
    /// A character.
    Char,
    /// A character of two code units.
    Pair,
    /// The last character of a line break of the set.
    Break(LineBreaks),
}

/// Returns the number of bytes after a block that decide which marks begin in it.
pub(crate) fn ahead(mark: Mark) -> usize
    ensures { result ≡ ahead mark }
{
    match mark {
        Mark::Break(LineBreaks::Unicode) => 2,
        Mark::Break(LineBreaks::CrLf) => 1,
        Mark::Break(LineBreaks::Lf) | Mark::Char | Mark::Pair => 0,
    }
}

// Returns 1 in each lane of `x` where a mark begins, else 0; of the breaks only the ASCII ones. The
// lanes of `y` are the bytes after those of `x`.
fn ones<const N: usize>(x: Simd<u8, N>, y: Simd<u8, N>, mark: Mark) -> Simd<u8, N>
    requires { N ≤ 64 }
    ensures { (ks : List ℕ) (g h : ℕ → ℕ) → length ks ≡ N → ((k : ℕ) → g k < 256)
        → IsLanes ks g x.entry → IsLanes ks h y.entry
        → IsLanes ks (λ k. cond (ascii_mark mark (g k) (h k)) 1 0) result }
{
    let marks = match mark {
        Mark::Char => x.simd_lt(Simd::splat(0x80)) | x.simd_ge(Simd::splat(0xC0)),
        Mark::Pair => x.simd_ge(Simd::splat(0xF0)),
        Mark::Break(LineBreaks::Lf) => x.simd_eq(Simd::splat(b'\n')),
        Mark::Break(LineBreaks::CrLf) => {
            let lone_cr = x.simd_eq(Simd::splat(b'\r')) & y.simd_ne(Simd::splat(b'\n'));
            x.simd_eq(Simd::splat(b'\n')) | lone_cr
        }
        Mark::Break(LineBreaks::Unicode) => {
            // From 10 to 13, but only to 12 before LF.
            let is_before_lf = y.simd_eq(Simd::splat(b'\n'));
            (x - Simd::splat(10)).simd_le(is_before_lf.select(Simd::splat(2), Simd::splat(3)))
        }
    };
    marks.select(Simd::splat(1), Simd::splat(0))
}

// Returns the mask of Unicode's line breaks. Never inlined, so that loops over blocks without
// multibyte ones stay short.
#[inline(never)]
fn unicode_mask(bytes: &[u8], at: usize) -> u64
    requires { at + 34 ≤ length bytes.now }
    ensures { IsBlockMask (Mark.Break LineBreaks.Unicode) bytes.now at result }
{
    let x = u8x32::from_slice(&bytes[at..]);
    let y = u8x32::from_slice(&bytes[at + 1..]);
    let z = u8x32::from_slice(&bytes[at + 2..]);
    let low = ones(x, y, Mark::Break(LineBreaks::Unicode)).simd_eq(u8x32::splat(1));
    let nel = x.simd_eq(u8x32::splat(0xC2)) & y.simd_eq(u8x32::splat(0x85));
    let separator = z.simd_eq(u8x32::splat(0xA8)) | z.simd_eq(u8x32::splat(0xA9));
    let ls_or_ps = x.simd_eq(u8x32::splat(0xE2)) & (y.simd_eq(u8x32::splat(0x80)) & separator);
    (low | (nel | ls_or_ps)).to_bitmask()
}

// Returns the mask of the 32 bytes from `at` on that begin a mark, of the breaks only the ASCII
// ones.
fn ascii_mask(bytes: &[u8], at: usize, mark: Mark) -> u64
    requires { (at + 32) + ahead mark ≤ length bytes.now }
    ensures { (n : ℕ) → n ≤ 32 → HasNoMultibyte mark bytes.now at n
        → marks mark (drop at bytes.now)
        ≡ ones_below result n + marks mark (drop (at + n) bytes.now) }
{
    let x = u8x32::from_slice(&bytes[at..]);
    let mut y = x;
    if ahead(mark) > 0 {
        y = u8x32::from_slice(&bytes[at + 1..]);
    }
    ones(x, y, mark).simd_eq(u8x32::splat(1)).to_bitmask()
}

/// Returns the mask of the 32 bytes from `at` on that begin a mark. For breaks of several bytes,
/// the bytes after the block are read too.
pub(crate) fn known_mask(bytes: &[u8], at: usize, mark: Mark) -> u64
    requires { (at + 32) + ahead mark ≤ length bytes.now }
    ensures { IsBlockMask mark bytes.now at result }
{
    if ahead(mark) == 2 {
        // Most blocks have none of the bytes C2 and E2, which begin NEL, LS and PS.
        let x = u8x32::from_slice(&bytes[at..]);
        let multibyte_begin = (x & u8x32::splat(0xDF)).simd_eq(u8x32::splat(0xC2));
        if multibyte_begin.to_bitmask() != 0 {
            return unicode_mask(bytes, at);
        }
    }
    ascii_mask(bytes, at, mark)
}

/// The masks of a block.
#[derive(Clone, Copy)]
pub(crate) struct Masks {
    pub breaks: u64,
    pub chars: u64,
    pub pairs: u64,
}

/// Returns the masks of the 32 bytes from `at` on that begin a break of the set, a character, and a
/// surrogate pair. ASCII takes one test more.
#[inline(always)]
pub(crate) fn masks_of(bytes: &[u8], at: usize, breaks: LineBreaks) -> Masks
    requires { at + 34 ≤ length bytes.now }
    ensures breaks { IsBlockMask (Mark.Break breaks) bytes.now at result.breaks }
    ensures chars { IsBlockMask Mark.Char bytes.now at result.chars }
    ensures pairs { IsBlockMask Mark.Pair bytes.now at result.pairs }
{
    let lanes = u8x32::from_slice(&bytes[at..]);
    if lanes.simd_ge(u8x32::splat(0x80)).to_bitmask() == 0 {
        // ASCII begins a character at each byte, and no pair and no multibyte break.
        return Masks {
            breaks: ascii_mask(bytes, at, Mark::Break(breaks)),
            chars: 0xFFFF_FFFF,
            pairs: 0,
        };
    }
    Masks {
        breaks: known_mask(bytes, at, Mark::Break(breaks)),
        chars: known_mask(bytes, at, Mark::Char),
        pairs: known_mask(bytes, at, Mark::Pair),
    }
}

// Returns the mask of the line breaks LF, or LF and CR. Never inlined: with the masks of all three
// sets side by side, the compiler would assemble the chosen one bit by bit.
#[inline(never)]
fn mask_apart<const HAS_CR: bool>(bytes: &[u8], at: usize) -> u64
    requires { (at + 32) + ahead (Mark.Break (lf_or_cr_lf HAS_CR)) ≤ length bytes.now }
    ensures { IsBlockMask (Mark.Break (lf_or_cr_lf HAS_CR)) bytes.now at result }
{
    if HAS_CR {
        known_mask(bytes, at, Mark::Break(LineBreaks::CrLf))
    } else {
        known_mask(bytes, at, Mark::Break(LineBreaks::Lf))
    }
}

/// Returns the mask of the 32 bytes from `at` on that begin a mark, for a set of breaks known only
/// at run time.
pub(crate) fn mask(bytes: &[u8], at: usize, mark: Mark) -> u64
    requires { (at + 32) + ahead mark ≤ length bytes.now }
    ensures { IsBlockMask mark bytes.now at result }
{
    match mark {
        Mark::Break(LineBreaks::Lf) => mask_apart::<false>(bytes, at),
        Mark::Break(LineBreaks::CrLf) => mask_apart::<true>(bytes, at),
        _ => known_mask(bytes, at, mark),
    }
}

/// Returns the number of marks that begin in the 32 bytes from `at` on.
pub(crate) fn marks_in(bytes: &[u8], at: usize, mark: Mark) -> usize
    requires { (at + 32) + ahead mark ≤ length bytes.now }
    ensures { marks mark (drop at bytes.now) ≡ result + marks mark (drop (at + 32) bytes.now) }
{
    ones_before(known_mask(bytes, at, mark), 32)
}

/// Returns whether a mark begins with the byte `at`.
pub(crate) fn is_mark(bytes: &[u8], at: usize, mark: Mark) -> bool
    requires { at < length bytes.now }
    ensures { result ≡ mark_at mark bytes.now at }
{
    let x = bytes[at];
    let breaks = match mark {
        Mark::Char => return x < 0x80 || x >= 0xC0,
        Mark::Pair => return x >= 0xF0,
        Mark::Break(breaks) => breaks,
    };
    // Of the bytes from 0E on, only C2 and E2 begin a break.
    if x >= 0x0E && x != 0xC2 && x != 0xE2 {
        return false;
    }
    let y = bytes.get(at + 1).copied().unwrap_or(0);
    let z = bytes.get(at + 2).copied().unwrap_or(0);
    let is_lone_cr = x == b'\r' && y != b'\n';
    match breaks {
        LineBreaks::Lf => x == b'\n',
        LineBreaks::CrLf => x == b'\n' || is_lone_cr,
        LineBreaks::Unicode => {
            (10..=12).contains(&x) || is_lone_cr || is_multibyte_break(x, y, z)
        }
    }
}

// Returns the number of marks that begin from `from` on and before `to`, scanning byte by byte.
fn marks_byte_by_byte(bytes: &[u8], from: usize, to: usize, mark: Mark) -> usize
    requires from { from ≤ to }
    requires to { to ≤ length bytes.now }
    ensures { marks mark (drop from bytes.now) ≡ result + marks mark (drop to bytes.now) }
{
    let mut total = 0;
    for i in from..to {
        if is_mark(bytes, i, mark) {
            total += 1;
        }
    }
    total
}

/// Returns the number of marks that begin from the byte `from` on and before `to`. A range within
/// one block is counted at once: near the end in the last block that can be read, without the bytes
/// before `from`.
pub(crate) fn marks_between(bytes: &[u8], from: usize, to: usize, mark: Mark) -> usize
    requires from { from ≤ to }
    requires to { to ≤ length bytes.now }
    ensures { marks mark (drop from bytes.now) ≡ result + marks mark (drop to bytes.now) }
{
    let ahead = ahead(mark);
    if to - from <= 32 && bytes.len() >= 32 + ahead && bytes.len() - to >= ahead {
        let at = from.min(bytes.len() - 32 - ahead);
        return ones_between(mask(bytes, at, mark), from - at, to - at);
    }
    marks_byte_by_byte(bytes, from, to, mark)
}

// A text of at least this many bytes is counted at four positions at once: it comes from slow
// memory, and the four cache misses overlap.
const LONG_BYTES: usize = 65_536;

// Counts the marks of the first whole blocks of a long text, in four quarters side by side. Returns
// the end of those blocks and the count; both are 0 for a shorter text.
#[inline(always)]
fn marks_in_quarters(bytes: &[u8], to: usize, mark: Mark) -> (usize, usize)
    requires { to ≤ length bytes.now - ahead mark }
    ensures bound { result.0 ≤ to }
    ensures counted { marks mark bytes.now ≡ result.1 + marks mark (drop result.0 bytes.now) }
{
    if to < LONG_BYTES {
        return (0, 0);
    }
    let quarter = to / 128 * 32;
    let (mut first, mut second, mut third, mut fourth) = (0, 0, 0, 0);
    let mut i = 0;
    while i < quarter {
        first += marks_in(bytes, i, mark);
        second += marks_in(bytes, quarter + i, mark);
        third += marks_in(bytes, 2 * quarter + i, mark);
        fourth += marks_in(bytes, 3 * quarter + i, mark);
        i += 32;
    }
    (4 * quarter, first + second + third + fourth)
}

// Counts the breaks of the first whole blocks of a long text, with the set as a constant. A
// function of its own, since its code would make the caller too long to be expanded for each set.
fn breaks_in_quarters(bytes: &[u8], to: usize, breaks: LineBreaks) -> (usize, usize)
    requires { to ≤ length bytes.now - 2 }
    ensures bound { result.0 ≤ to }
    ensures counted { byte_break_count breaks bytes.now
        ≡ result.1 + byte_break_count breaks (drop result.0 bytes.now) }
{
    known_set!(breaks => marks_in_quarters(bytes, to, Mark::Break(breaks)))
}

/// Returns the number of marks that begin from the byte `from` on and before `to`. Inlined, since
/// each caller's mark is a constant.
#[inline(always)]
pub(crate) fn count_marks(bytes: &[u8], from: usize, to: usize, mark: Mark) -> usize
    requires from { from ≤ to }
    requires to { to ≤ length bytes.now - ahead mark }
    ensures { marks mark (drop from bytes.now) ≡ result + marks mark (drop to bytes.now) }
{
    let (mut i, mut total) = (from, 0);
    if from == 0 {
        (i, total) = marks_in_quarters(bytes, to, mark);
    }
    while to - i >= 32 {
        total += marks_in(bytes, i, mark);
        i += 32;
    }
    total + marks_between(bytes, i, to, mark)
}

/// The maximum number of blocks in a run: each adds up to four to a lane, which holds at most 255.
const BLOCKS: usize = 63;

// Returns the `ones` of the 16 bytes from `at` on.
fn ones_from(bytes: &[u8], at: usize, mark: Mark) -> u8x16
    requires { at + 17 ≤ length bytes.now }
    ensures { IsSum 1 (count_of mark bytes.now at 16) result }
{
    let x = u8x16::from_slice(&bytes[at..]);
    let y = u8x16::from_slice(&bytes[at + 1..]);
    ones(x, y, mark)
}

// Adds the `ones` of the 64 bytes from `at` on to the sums.
fn add_ones(sums: u8x16, bytes: &[u8], at: usize, mark: Mark) -> u8x16
    requires { at + 65 ≤ length bytes.now }
    ensures { (most total : ℕ) → most + 4 < 256 → IsSum most total sums
        → IsSum (most + 4) (total + count_of mark bytes.now at 64) result }
{
    let first = sums + ones_from(bytes, at, mark);
    let second = first + ones_from(bytes, at + 16, mark);
    let third = second + ones_from(bytes, at + 32, mark);
    third + ones_from(bytes, at + 48, mark)
}

fn is_multibyte_break(x: u8, y: u8, z: u8) -> bool
    ensures { result ≡ multibyte_at LineBreaks.Unicode x y z }
{
    (x == 0xC2 && y == 0x85) || (x == 0xE2 && y == 0x80 && (z == 0xA8 || z == 0xA9))
}

// Returns the number of NEL, LS and PS that begin in the 64 bytes from `at` on, if the set has
// them. Their first bytes are rare, and each is examined alone.
fn multibyte_in(bytes: &[u8], at: usize, breaks: LineBreaks) -> usize
    requires { at + 66 ≤ length bytes.now }
    ensures { result ≡ multibyte_of breaks bytes.now at 64 }
{
    if ahead(Mark::Break(breaks)) < 2 {
        return 0;
    }
    // C2 in each lane where the byte is C2 or E2.
    let lanes = u8x64::from_slice(&bytes[at..]) & u8x64::splat(0xDF);
    let mut begins = lanes.simd_eq(u8x64::splat(0xC2)).to_bitmask();
    let (mut i, mut total) = (at, 0);
    while begins.count_ones() > 0 {
        let skip = first_mark(begins);
        i += skip;
        if is_multibyte_break(bytes[i], bytes[i + 1], bytes[i + 2]) {
            total += 1;
        }
        i += 1;
        begins = (begins >> skip) >> 1;
    }
    total
}

fn sum_of(lanes: u8x16) -> usize
    ensures { result ≡ sum_l lanes }
{
    lanes.cast::<u16>().strict_reduce_sum() as usize
}

// Returns the counts of a run of whole blocks from `from` on and before `to`, after which two more
// bytes are read. It has at least one block, if there is one.
#[inline(always)]
fn count_run(bytes: &[u8], from: usize, to: usize, breaks: LineBreaks) -> TextInfo
    requires from { from ≤ to }
    requires to { to ≤ length bytes.now - 2 }
    ensures bound { from + result.bytes ≤ to }
    ensures further { from + 64 ≤ to → 64 ≤ result.bytes }
    ensures chars { count_by begins_char (drop from bytes.now)
        ≡ result.chars + count_by begins_char (drop (from + result.bytes) bytes.now) }
    ensures pairs { count_by begins_pair (drop from bytes.now)
        ≡ result.utf16_surrogates + count_by begins_pair (drop (from + result.bytes) bytes.now) }
    ensures break_count { byte_break_count breaks (drop from bytes.now)
        ≡ result.break_count + byte_break_count breaks (drop (from + result.bytes) bytes.now) }
{
    let size = 64 * ((to - from) / 64).min(BLOCKS);
    let none = u8x16::splat(0);
    // Of the breaks, the lanes count the ASCII ones.
    let (mut chars, mut pairs, mut ascii, mut multibyte) = (none, none, none, 0);
    let mut i = from;
    while i < from + size {
        ascii = add_ones(ascii, bytes, i, Mark::Break(breaks));
        let lanes = u8x64::from_slice(&bytes[i..]);
        if lanes.simd_ge(u8x64::splat(0x80)).to_bitmask() == 0 {
            // ASCII begins a character at each byte, and no pair and no multibyte break.
            chars = chars + u8x16::splat(4);
        } else {
            chars = add_ones(chars, bytes, i, Mark::Char);
            pairs = add_ones(pairs, bytes, i, Mark::Pair);
            multibyte += multibyte_in(bytes, i, breaks);
        }
        i += 64;
    }
    TextInfo {
        bytes: size,
        chars: sum_of(chars),
        utf16_surrogates: sum_of(pairs),
        break_count: sum_of(ascii) + multibyte,
    }
}

/// Returns the counts of all whole blocks from `from` on and before `to`, after which two more
/// bytes are read. Fewer bytes than a block remain. Inlined, so that a count that a caller ignores
/// is not computed.
#[inline(always)]
pub(crate) fn count_blocks(bytes: &[u8], from: usize, to: usize, breaks: LineBreaks) -> TextInfo
    requires from { from ≤ to }
    requires to { to ≤ length bytes.now - 2 }
    ensures bound { from + result.bytes ≤ to }
    ensures chars { count_by begins_char (drop from bytes.now)
        ≡ result.chars + count_by begins_char (drop (from + result.bytes) bytes.now) }
    ensures pairs { count_by begins_pair (drop from bytes.now)
        ≡ result.utf16_surrogates + count_by begins_pair (drop (from + result.bytes) bytes.now) }
    ensures break_count { byte_break_count breaks (drop from bytes.now)
        ≡ result.break_count + byte_break_count breaks (drop (from + result.bytes) bytes.now) }
{
    let mut counts = TextInfo::new();
    while to - from - counts.bytes >= 64 {
        counts = counts.plus(count_run(bytes, from + counts.bytes, to, breaks));
    }
    let at = from + counts.bytes;
    if to - at >= 32 {
        counts.chars += marks_in(bytes, at, Mark::Char);
        counts.utf16_surrogates += marks_in(bytes, at, Mark::Pair);
        counts.break_count += marks_in(bytes, at, Mark::Break(breaks));
        counts.bytes += 32;
    }
    counts
}

// Returns the number of breaks that begin from the byte `from` on and before `to`: in blocks before
// `end`, since a block is read two bytes past its end. Inlined, with the set as a constant.
#[inline(always)]
fn breaks_in_blocks(bytes: &[u8], from: usize, end: usize, to: usize, breaks: LineBreaks) -> usize
    requires from { from ≤ end }
    requires end { end ≤ length bytes.now - 2 }
    requires last { end ≤ to }
    requires to { to ≤ length bytes.now }
    ensures { byte_break_count breaks (drop from bytes.now)
        ≡ result + byte_break_count breaks (drop to bytes.now) }
{
    let blocks = count_blocks(bytes, from, end, breaks);
    let more = marks_between(bytes, from + blocks.bytes, end, Mark::Break(breaks));
    blocks.break_count + more + marks_byte_by_byte(bytes, end, to, Mark::Break(breaks))
}

/// Returns the number of breaks that begin before the byte `to`.
pub(crate) fn count_breaks_before(bytes: &[u8], to: usize, breaks: LineBreaks) -> usize
    requires { to ≤ length bytes.now }
    ensures { byte_break_count breaks bytes.now
        ≡ result + byte_break_count breaks (drop to bytes.now) }
{
    let end = to.min(bytes.len().saturating_sub(2));
    let (from, before) = breaks_in_quarters(bytes, end, breaks);
    before + known_set!(breaks => breaks_in_blocks(bytes, from, end, to, breaks))
}

// Returns the counts of the bytes, in blocks. Inlined, with the set as a constant.
#[inline(always)]
fn count_in_blocks(bytes: &[u8], breaks: LineBreaks) -> TextInfo
    ensures { AreCounts breaks bytes.now result }
{
    let end = bytes.len();
    let last = end.saturating_sub(2);
    let mut counts = count_blocks(bytes, 0, last, breaks);
    let at = counts.bytes;
    counts.bytes = end;
    counts.chars += marks_between(bytes, at, end, Mark::Char);
    counts.utf16_surrogates += marks_between(bytes, at, end, Mark::Pair);
    counts.break_count += marks_between(bytes, at, last, Mark::Break(breaks));
    counts.break_count += marks_byte_by_byte(bytes, last, end, Mark::Break(breaks));
    counts
}

// Returns the counts of the bytes, in blocks. Never inlined: in one function with the counts of a
// few bytes, it would make those go through memory, too.
#[inline(never)]
fn count_many(bytes: &[u8], breaks: LineBreaks) -> TextInfo
    ensures { AreCounts breaks bytes.now result }
{
    known_set!(breaks => count_in_blocks(bytes, breaks))
}

/// Returns the counts of the bytes of a text, in one pass.
#[inline(always)]
pub(crate) fn count_all(bytes: &[u8], breaks: LineBreaks) -> TextInfo
    ensures { AreCounts breaks bytes.now result }
{
    let len = bytes.len();
    // One byte, such as a typed character.
    if len == 1 {
        return TextInfo {
            bytes: 1,
            chars: is_mark(bytes, 0, Mark::Char) as usize,
            utf16_surrogates: is_mark(bytes, 0, Mark::Pair) as usize,
            break_count: is_mark(bytes, 0, Mark::Break(breaks)) as usize,
        };
    }
    if len > 32 {
        return count_many(bytes, breaks);
    }
    // Few bytes are copied before zeros, none of which begins a break, and counted at once.
    let mut block = [0; 34];
    block[..len].copy_from_slice(bytes);
    TextInfo {
        bytes: len,
        chars: ones_before(mask(&block, 0, Mark::Char), len),
        utf16_surrogates: ones_before(mask(&block, 0, Mark::Pair), len),
        break_count: ones_before(mask(&block, 0, Mark::Break(breaks)), len),
    }
}
