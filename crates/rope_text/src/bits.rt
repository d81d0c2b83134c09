//! Masks of blocks of 32 bytes: the bit `k` is the mark of the byte `k`.
ghost use Rattle.std.specs.Prelude.{◌≡◌, ◌+◌, ◌<◌, ◌≤◌};
ghost use Rattle.rope_text.specs.Bits.{ones_below, marks_below};

/// Returns the number of marks among the first `n` bytes.
pub(crate) fn ones_before(mask: u64, n: usize) -> usize
    requires { n ≤ 32 }
    ensures { result ≡ ones_below mask n }
{
    (mask & ((1 << n) - 1)).count_ones() as usize
}

/// Returns the number of marks from the byte `from` on and before `to`.
pub(crate) fn ones_between(mask: u64, from: usize, to: usize) -> usize
    requires from { from ≤ to }
    requires to { to ≤ 32 }
    ensures { ones_below mask to ≡ ones_below mask from + result }
{
    ones_before(mask >> from, to - from)
}

/// Returns the first byte with a mark, or 64.
pub(crate) fn first_mark(mask: u64) -> usize
    ensures bound { result ≤ 64 }
    ensures before { ones_below mask result ≡ 0 }
    ensures some { 0 < ones_below mask 64 → result < 64 }
    ensures block { 0 < ones_below mask 32 → result < 32 }
    ensures after { result < 64 → 0 < ones_below mask (result + 1) }
{
    mask.trailing_zeros() as usize
}

/// Returns the byte with the mark `n` of two masks, counted from 0: it has at most `n` marks before
/// it.
pub(crate) fn place_of_mark(first: u64, second: u64, n: usize) -> usize
    requires { n < marks_below first second 32 }
    ensures bound { result < 32 }
    ensures before { marks_below first second result ≤ n }
    ensures after { n < marks_below first second (result + 1) }
{
    // In a block of ASCII each byte has a mark.
    if second == 0 && ones_before(first, 32) == 32 {
        return n;
    }
    let mut place = 0;
    let mut step = 5usize;
    while step > 0 {
        step -= 1;
        let to = place + (1 << step);
        if ones_before(first, to) + ones_before(second, to) <= n {
            place = to;
        }
    }
    place
}

// Returns the last of the first `len` bytes with a mark.
fn last_mark(mask: u64, len: usize) -> usize
    requires len { len ≤ 32 }
    requires some { 0 < ones_below mask len }
    ensures bound { result < len }
    ensures before { ones_below mask len ≡ ones_below mask result + 1 }
    ensures with_it { ones_below mask len ≡ ones_below mask (result + 1) }
{
    let front = mask & ((1 << len) - 1);
    63 - front.leading_zeros() as usize
}

/// Returns the one of the first `len` bytes that has a mark and `left` marks after it.
pub(crate) fn mark_from_end(mask: u64, len: usize, left: usize) -> usize
    requires len { len ≤ 32 }
    requires some { left < ones_below mask len }
    ensures bound { result < len }
    ensures before { ones_below mask len ≡ ones_below mask result + (left + 1) }
    ensures with_it { ones_below mask len ≡ ones_below mask (result + 1) + left }
{
    if left == 0 {
        return last_mark(mask, len);
    }
    place_of_mark(mask, 0, ones_before(mask, len) - 1 - left)
}
