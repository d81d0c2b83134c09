//! Sums and differences for tests: the prover can't know that a sum fits into its type, or that a
//! difference isn't negative.
ghost use Rattle.std.specs.Prelude.{◌≡◌, ◌+◌, ◌-◌, ◌<◌, ◌≤◌, ◌^◌};

/// Returns `a + b`, or the greatest number if the sum doesn't fit.
#[inline(always)]
pub fn plus(a: usize, b: usize) -> usize
    ensures sum { a + b < 2 ^ 64 → result ≡ a + b }
    ensures most { result ≤ a + b }
    ensures rises { a ≤ result }
{
    a.saturating_add(b)
}

/// Returns `a - b`, or 0 if `b` is greater.
#[inline(always)]
pub fn minus(a: usize, b: usize) -> usize
    ensures { result ≡ a - b }
{
    a.saturating_sub(b)
}
