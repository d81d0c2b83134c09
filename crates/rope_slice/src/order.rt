//! The order and equality of two texts, independent of their chunks. No call takes memory.
//!
//! The slice `1..3` of `"abc"` equals the slice of the plain text `"bc"`.
ghost use Rattle.std.proofs.Common.{rules};
ghost use Rattle.std.specs.Cmp.Rules.{comparing};
ghost use Rattle.std.specs.Ordering.{on};
ghost use Rattle.std.specs.Str.{chars};
ghost use Rattle.std.specs.Prelude.{◌≡◌, ◌++◌, ◌+◌, ◌≤◌, [], IsTrue, ◌↔◌, length};
ghost use Rattle.std.specs.Cmp.Lexicographic.{slice_cmp};
ghost use Rattle.std.specs.Ordering.{nat_cmp};
ghost use Rattle.rope_text.specs.Compare.{text_cmp};
ghost use Rattle.rope_slice.specs.Slice.{text_of};
ghost use Rattle.rope_slice.specs.Same.{IsSameFrom};

use crate::path::Heads;
use crate::pieces::Pieces;
use crate::slice::RopeSlice;
use std::cmp::Ordering;
use std::simd::prelude::*;

// Returns whether the 64 bytes from `at` on, and those from `next` on, are equal in both, by one
// test.
fn are_same_blocks(left: &[u8], right: &[u8], at: usize, next: usize) -> bool
    requires size { length left.now ≡ length right.now }
    requires first { at + 64 ≤ length left.now }
    requires second { next + 64 ≤ length left.now }
    ensures first { IsTrue result → IsSameFrom left.now right.now at 64 }
    ensures second { IsTrue result → IsSameFrom left.now right.now next 64 }
    ensures other { left.now ≡ right.now → IsTrue result }
{
    let x = u8x64::from_slice(&left[at..]);
    let y = u8x64::from_slice(&right[at..]);
    let z = u8x64::from_slice(&left[next..]);
    let w = u8x64::from_slice(&right[next..]);
    (x.simd_ne(y) | z.simd_ne(w)).to_bitmask() == 0
}

// Returns whether two pieces of one length are equal. The last two blocks may overlap, so no bytes
// remain to be compared one by one, unless the pieces are shorter than a block.
fn are_same(left: &[u8], right: &[u8]) -> bool
    requires { length left.now ≡ length right.now }
    ensures { IsTrue result ↔ (left.now ≡ right.now) }
{
    let size = left.len();
    if size < 64 {
        return left == right;
    }
    let mut at = 0;
    while size - at >= 128 {
        if !are_same_blocks(left, right, at, at + 64) {
            return false;
        }
        at += 128;
    }
    let last = size - 64;
    are_same_blocks(left, right, at.min(last), last)
}

// Returns a piece, or the next one if it is empty: so the result is empty only at the end.
fn filled<'a>(front: &'a [u8], pieces: &mut Pieces<'a>) -> &'a [u8]
    ensures same { result.now ++ pieces.new ≡ front.now ++ pieces.old }
    ensures some { length result.now ≡ 0 → pieces.new ≡ [] }
{
    if !front.is_empty() {
        return front;
    }
    pieces.next_piece(Heads::Left)
}

// Returns the lexicographic order of two lists of bytes, each given as its first piece and the
// pieces after it. A first piece is empty only if the list is.
fn order_of_pieces<'a>(left: (&'a [u8], Pieces<'a>), right: (&'a [u8], Pieces<'a>)) -> Ordering
    requires left { length left.0.now ≡ 0 → left.1 ≡ [] }
    requires right { length right.0.now ≡ 0 → right.1 ≡ [] }
    ensures { result ≡ slice_cmp nat_cmp (left.entry.0.now ++ left.entry.1)
        (right.entry.0.now ++ right.entry.1) }
{
    let (mut x, mut lefts) = left;
    let (mut y, mut rights) = right;
    // The bytes of the shorter piece are compared, and then passed in both.
    'pieces: loop {
        let n = x.len().min(y.len());
        if n == 0 {
            return x.len().cmp(&y.len());
        }
        let (front, rest) = x.split_at(n);
        let (other_front, other_rest) = y.split_at(n);
        // Pieces are mostly equal, which is decided faster than the first difference.
        if !are_same(front, other_front) {
            return front.cmp(other_front);
        }
        x = filled(rest, &mut lefts);
        y = filled(other_rest, &mut rights);
    }
}

// Returns the lexicographic order of the bytes of two texts, independent of their chunks.
fn order(left: &RopeSlice<'_>, right: &RopeSlice<'_>) -> Ordering
    ensures { result ≡ text_cmp (text_of left.now) (text_of right.now) }
{
    order_of_pieces(Pieces::of(left), Pieces::of(right))
}

impl<'a> RopeSlice<'a> {
    /// Returns whether the text equals `other`. Reads both texts up to the first difference.
    ///
    /// `RopeSlice::from("ab").eq_str("ab")` is true.
    pub fn eq_str(&self, other: &str) -> bool
        ensures { IsTrue result ↔ (text_of self.now ≡ chars other.now) }
    {
        self.len_bytes() == other.len()
            && order_of_pieces(Pieces::of(self), Pieces::of_text(other)).is_eq()
    }
}

/// Slices are equal exactly if their texts are, independent of their chunks and sets of line
/// breaks.
impl<'a> PartialEq for RopeSlice<'a> {
    ghost use Rattle.std.specs.Prelude.{◌==◌};
    ghost use lib.Pointwise.{pointwise};
    ghost use Rattle.rope_slice.specs.Slice.{bytes_of};

    ghost eq = { on bytes_of (pointwise ◌==◌) };

    ghost laws = { Prim.search (comparing, rules) };

    fn eq(&self, other: &RopeSlice<'a>) -> bool {
        self.len_bytes() == other.len_bytes() && order(self, other).is_eq()
    }
}

impl<'a> Eq for RopeSlice<'a> {
    ghost laws = { Prim.search (comparing, rules) };
}

/// The lexicographic order of the bytes of the texts, independent of their chunks.
impl<'a> Ord for RopeSlice<'a> {
    ghost cmp = { on text_of text_cmp };

    ghost total = { Prim.search (comparing, rules) };

    ghost matches_partial_cmp = { Prim.search (comparing, rules) };

    ghost matches_eq = { Prim.search (comparing, rules) };

    fn cmp(&self, other: &RopeSlice<'a>) -> Ordering {
        order(self, other)
    }
}

impl<'a> PartialOrd for RopeSlice<'a> {
    ghost use Rattle.std.specs.Cmp.{partial_order_from_own_ties};
    ghost use Rattle.std.specs.Ordering.{as_partial_cmp};

    ghost partial_cmp = { as_partial_cmp (on text_of text_cmp) };

    ghost laws = { partial_order_from_own_ties
        (Prim.search (comparing, rules)) (Prim.search (comparing, rules)) };

    fn partial_cmp(&self, other: &RopeSlice<'a>) -> Option<Ordering> {
        Some(self.cmp(other))
    }
}
