//! The minimum number of bytes of a leaf beside its neighbours: two adjacent leaves have at least
//! `MIN_TWO_LEAVES_BYTES` together.
ghost use Rattle.std.specs.Prelude.{ℕ, ◌+◌, ◌<◌, ◌≤◌, List, length, take, drop};
ghost use Rattle.rope_text.specs.declared.TheConstants.{MIN_TWO_LEAVES_BYTES};
ghost use Rattle.rope_text.specs.Dense.{IsDenseAfter, last_bytes};
ghost use Rattle.rope_leaf.specs.Leaves.{IsEnoughAfter, IsEnoughAhead};
ghost use Rattle.rope_leaf.specs.Tree.{Tree, leaves_of};
ghost use Rattle.rope_leaf.specs.Totals.{AreBelow};

use crate::{Totals, total_before};
use rope_text::{MIN_HALF_BYTES, MIN_TWO_LEAVES_BYTES};

/// The minimum number of bytes of the first and of the last leaf of a node, so that each is long
/// enough beside the leaf next to it, outside of the node. 0 if there is no such leaf.
#[derive(Clone, Copy)]
pub struct Least {
    pub first: usize,
    pub last: usize,
}

/// Returns a number of bytes that is enough for a leaf next to the child at an index. If that child
/// is a leaf, its length comes from the totals, so it isn't read.
fn least_next_to(height: usize, totals: &Totals, place: usize) -> usize
    requires { place < length totals.now }
    ensures following { (ts : List Tree) → AreBelow height totals.now ts
        → (n : ℕ) → MIN_TWO_LEAVES_BYTES ≤ last_bytes n (leaves_of (take (place + 1) ts)) + result }
    ensures ahead { (ts : List Tree) → AreBelow height totals.now ts
        → IsDenseAfter result (leaves_of (drop place ts)) }
{
    // Each leaf has at least one byte, and with that half a leaf is enough.
    if height > 1 {
        return MIN_HALF_BYTES;
    }
    let before = total_before(totals, place).bytes;
    let bytes = totals.get(place).bytes.saturating_sub(before);
    MIN_TWO_LEAVES_BYTES
        .saturating_sub(bytes)
        .min(MIN_HALF_BYTES)
}

/// Returns the minimum number of bytes at the two ends of the child at an index, in the list of a
/// node of this height, by the minimum at the ends of the node.
pub fn least_at(height: usize, totals: &Totals, place: usize, wanted: Least) -> Least
    requires { place < length totals.now }
    ensures first { (ts : List Tree) → AreBelow height totals.now ts
        → IsEnoughAfter wanted.first result.first (leaves_of (take place ts)) }
    ensures last { (ts : List Tree) → AreBelow height totals.now ts
        → IsEnoughAhead wanted.last result.last (leaves_of (drop (place + 1) ts)) }
{
    let mut least = wanted;
    if place > 0 {
        least.first = least_next_to(height, totals, place - 1);
    }
    let end = totals.len() - 1;
    if place < end {
        least.last = least_next_to(height, totals, place + 1);
    }
    least
}
