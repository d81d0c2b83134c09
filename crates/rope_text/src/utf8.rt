//! Bytes that are checked for UTF-8, 64 at a time. No call takes memory.
//!
//! Each byte is tested against the three before it. Loads at offsets of one, two and three bytes
//! put these into the same lane, so that no state is carried from block to block. A block of ASCII
//! takes one test. `str::from_utf8` checks byte by byte only the rest after the last complete
//! character before an error, or the unfinished character at the end.
#![tactic(auto)]

ghost use Rattle.std.specs.Prelude.{◌≡◌, ◌+◌, ◌<◌, ◌≤◌, length, take, List, ℕ, MatchOption, IsTrue, count_by, slice_index};
ghost use Rattle.std.specs.Bool.{IsFalse};
ghost use Rattle.std.specs.Str.{IsUtf8};
ghost use Rattle.std.specs.Str.Lossy.{utf8_valid_len};
ghost use lib.Lanes.{Each1};
ghost use Rattle.rope_text.specs.Marks.{IsLanes};
ghost use Rattle.rope_text.specs.Read.{text_front};
ghost use Rattle.rope_text.specs.Utf8.{is_fault, HasNoFault, IsRepeated};

use std::simd::prelude::*;

// The possible faults of two adjacent bytes, a bit for each:
//
//     1  the first byte of a longer character, without a continuation
//     2  a continuation after ASCII
//     4  C0 or C1
//     8  three bytes for a character that takes fewer
//    16  a surrogate
//    32  four bytes for a character that takes fewer, or F5 or above
//    64  above the last character
//   128  two continuations, immediately after the first byte of three or four
//
// Each table has the faults that half a byte leaves possible. A fault is one that all three have.
const BY_FIRST_HIGH: [u8; 16] = [2, 2, 2, 2, 2, 2, 2, 2, 128, 128, 128, 128, 5, 1, 25, 97];

const BY_FIRST_LOW: [u8; 16] = [
    175, 135, 131, 131, 195, 227, 227, 227, 227, 227, 227, 227, 227, 243, 227, 227,
];

const BY_SECOND_HIGH: [u8; 16] = [1, 1, 1, 1, 1, 1, 1, 1, 174, 206, 214, 214, 1, 1, 1, 1];

// The index of the entry that each of 64 lanes gets from a table.
const OF_LANES: [usize; 64] = [
    0, 1, 2, 3, 4, 5, 6, 7, 8, 9, 10, 11, 12, 13, 14, 15, 0, 1, 2, 3, 4, 5, 6, 7, 8, 9, 10, 11, 12,
    13, 14, 15, 0, 1, 2, 3, 4, 5, 6, 7, 8, 9, 10, 11, 12, 13, 14, 15, 0, 1, 2, 3, 4, 5, 6, 7, 8, 9,
    10, 11, 12, 13, 14, 15,
];

// Returns lanes of which each 16 are the table: byte shuffles work on 16 lanes, at every width.
#[inline(always)]
fn repeated(table: u8x16) -> u8x64
    ensures { IsRepeated table result }
{
    table.swizzle::<64>(OF_LANES)
}

// Looks up an index in the table for each lane.
#[inline(always)]
fn look_up(table: u8x16, places: u8x64) -> u8x64
    requires { Each1 (λ k. k < 16) places }
    ensures { (ks : List ℕ) (g : ℕ → ℕ) → length ks ≡ 64 → ((k : ℕ) → g k < 16)
        → IsLanes ks g places → IsLanes ks (λ k. slice_index table (g k)) result }
{
    repeated(table).swizzle_dyn_within::<16>(places)
}

// Returns whether in some lane the byte of `b` can't follow those of `x`, `y` and `z`, which
// precede it in this order. If `x` or `y` begins a character that is not complete, `b` and `z` must
// be two continuations.
#[inline(always)]
fn has_fault(x: u8x64, y: u8x64, z: u8x64, b: u8x64) -> bool
    ensures { (ks : List ℕ) (f g h i : ℕ → ℕ) → length ks ≡ 64
        → ((k : ℕ) → h k < 256) → ((k : ℕ) → i k < 256)
        → IsLanes ks f x → IsLanes ks g y → IsLanes ks h z → IsLanes ks i b
        → IsFalse result → count_by (λ k. is_fault (f k) (g k) (h k) (i k)) ks ≡ 0 }
{
    let high = u8x64::splat(4);
    let first_high = look_up(u8x16::from_array(BY_FIRST_HIGH), z >> high);
    let first_low = look_up(u8x16::from_array(BY_FIRST_LOW), z & u8x64::splat(15));
    let second_high = look_up(u8x16::from_array(BY_SECOND_HIGH), b >> high);
    let in_long = y.simd_ge(u8x64::splat(0xE0)) | x.simd_ge(u8x64::splat(0xF0));
    let wanted = in_long.select(u8x64::splat(128), u8x64::splat(0));
    let found = (first_high & first_low) & second_high;
    found.simd_ne(wanted).to_bitmask() != 0
}

// Returns whether a byte of the block at `at` can't follow those before it.
#[inline(always)]
fn block_has_fault(bytes: &[u8], at: usize) -> bool
    requires from { 3 ≤ at }
    requires to { at + 64 ≤ length bytes.now }
    ensures { (n : ℕ) → IsFalse result → at ≤ n → HasNoFault bytes.now n
        → HasNoFault bytes.now (at + 64) }
{
    let x = u8x64::from_slice(&bytes[at - 3..]);
    let y = u8x64::from_slice(&bytes[at - 2..]);
    let z = u8x64::from_slice(&bytes[at - 1..]);
    let b = u8x64::from_slice(&bytes[at..]);
    has_fault(x, y, z, b)
}

// Returns whether the 61 bytes from `at` on and the three before them are ASCII. If so, each may
// follow those before it.
#[inline(always)]
fn is_ascii(bytes: &[u8], at: usize) -> bool
    requires from { 3 ≤ at }
    requires to { at + 61 ≤ length bytes.now }
    ensures { (n : ℕ) → IsTrue result → at ≤ n → HasNoFault bytes.now n
        → HasNoFault bytes.now (at + 61) }
{
    let lanes = u8x64::from_slice(&bytes[at - 3..]);
    lanes.simd_ge(u8x64::splat(0x80)).to_bitmask() == 0
}

// Returns whether the byte `b` can't follow `x`, `y` and `z`.
fn is_fault(x: u8, y: u8, z: u8, b: u8) -> bool
    ensures { result ≡ is_fault x y z b }
{
    let continues = b >= 0x80 && b < 0xC0;
    let in_char = z >= 0xC0 || (y >= 0xE0 || x >= 0xF0);
    let after_none = z == 0xC0 || z == 0xC1;
    let misplaced = (continues ^ in_char) || (after_none || z >= 0xF5);
    let overlong = (z == 0xE0 && b < 0xA0) || (z == 0xF0 && b < 0x90);
    misplaced || (overlong || ((z == 0xED && b >= 0xA0) || (z == 0xF4 && b >= 0x90)))
}

// Checks few bytes, in one block after zeros, which are ASCII. Returns the length of a prefix
// without a fault.
#[inline(always)]
fn few_without_fault(bytes: &[u8]) -> usize
    requires few { length bytes.now ≤ 64 }
    ensures bound { result ≤ length bytes.now }
    ensures none { HasNoFault bytes.now result }
{
    let mut block = [0; 67];
    block[67 - bytes.len()..].copy_from_slice(bytes);
    if block_has_fault(&block, 3) {
        return 0;
    }
    bytes.len()
}

// Returns the length of a prefix that was checked and has no fault.
fn front_without_fault(bytes: &[u8]) -> usize
    ensures bound { result ≤ length bytes.now }
    ensures none { HasNoFault bytes.now result }
{
    // Fewer are left to the standard library: most are a typed character or a word.
    if bytes.len() < 32 {
        return 0;
    }
    if bytes.len() < 67 {
        return few_without_fault(&bytes[..bytes.len().min(64)]);
    }
    let (x, y, z) = (bytes[0], bytes[1], bytes[2]);
    if is_fault(0, 0, 0, x) || is_fault(0, 0, x, y) || is_fault(0, x, y, z) {
        return 0;
    }
    let mut at = 3;
    while bytes.len() - at >= 64 {
        if is_ascii(bytes, at) {
            at += 61;
            continue;
        }
        if block_has_fault(bytes, at) {
            return at;
        }
        at += 64;
    }
    // The last block ends at the end of the bytes, and may overlap checked ones.
    if block_has_fault(bytes, bytes.len() - 64) {
        return at;
    }
    bytes.len()
}

// Returns the end of the last complete character up to `at`.
fn last_char_end(bytes: &[u8], at: usize) -> usize
    requires bound { at ≤ length bytes.now }
    requires none { HasNoFault bytes.now at }
    ensures bound { result ≤ at }
    ensures text { IsUtf8 (take result bytes.now) }
{
    if at < 3 {
        return 0;
    }
    if bytes[at - 1] >= 0xC0 {
        at - 1
    } else if bytes[at - 2] >= 0xE0 {
        at - 2
    } else if bytes[at - 3] >= 0xF0 {
        at - 3
    } else {
        at
    }
}

/// Returns the length of the longest prefix that is complete UTF-8.
pub fn valid_len(bytes: &[u8]) -> usize
    ensures { result ≡ utf8_valid_len bytes.now }
{
    let known = last_char_end(bytes, front_without_fault(bytes));
    match str::from_utf8(&bytes[known..]) {
        Ok(_) => bytes.len(),
        Err(error) => known + error.valid_up_to(),
    }
}

/// Returns the longest prefix that is complete UTF-8.
pub fn front(bytes: &[u8]) -> &str
    ensures { result.now ≡ text_front bytes.now }
{
    unsafe { str::from_utf8_unchecked(&bytes[..valid_len(bytes)]) }
}

/// Returns the bytes as a text, or `None` if they aren't UTF-8.
pub fn text_of(bytes: &[u8]) -> Option<&str>
    ensures { MatchOption result (IsUtf8 bytes.now → ⊥)
        (λ text. (text.now ≡ bytes.now) × IsUtf8 bytes.now) }
{
    if valid_len(bytes) < bytes.len() {
        return None;
    }
    Some(unsafe { str::from_utf8_unchecked(bytes) })
}
