//! Positions where the bytes of a text may be cut: inside no character, and not between CR and LF.
//! Each call reads the bytes around the position and takes no memory. Indices are at most the
//! length.
//!
//! The bytes of `"a\r\nb"` may be cut at 0, 1, 3 and 4, and not at 2.
#![tactic(auto, using(crate::proofs::CutFacts::boundary_of_cut))]

ghost use Rattle.std.specs.Prelude.{◌≡◌, ℕ, ◌-◌, ◌<◌, ◌≤◌, false, length, ◌++◌, IsTrue};
ghost use Rattle.std.specs.Str.{IsUtf8, IsCharBoundary};
ghost use Rattle.rope_text.specs.Cuts.{is_cut, distance};

/// Returns whether a text may be cut into `left` and `right`, neither of which is empty.
pub fn seam_is_break(left: &[u8], right: &[u8]) -> bool
    requires left { 0 < length left.now }
    requires right { 0 < length right.now }
    ensures { result ≡ is_cut (left.now ++ right.now) (length left.now) }
{
    let (x, y) = (left[left.len() - 1], right[0]);
    (y < 0x80 || y >= 0xC0) && (x != b'\r' || y != b'\n')
}

/// Returns whether the text may be cut before the byte `at`. It may always be cut at its ends.
pub fn is_break(at: usize, text: &[u8]) -> bool
    requires { at ≤ length text.now }
    ensures value { result ≡ is_cut text.now at }
{
    at == 0 || at == text.len() || seam_is_break(&text[..at], &text[at..])
}

/// Returns the last position before the byte `at` where the text may be cut, or 0 if `at` is 0.
pub fn prev_break(at: usize, text: &[u8]) -> usize
    requires { at ≤ length text.now }
    ensures boundary { IsUtf8 text.now → IsCharBoundary text.now result }
    ensures cut { IsTrue (is_cut text.now result) }
    ensures before { 0 < at → result < at }
    ensures bound { result ≤ at }
    ensures nearest { (k : ℕ) → k < at → IsTrue (is_cut text.now k) → k ≤ result }
{
    if at == 0 {
        return 0;
    }
    let mut i = at - 1;
    while !is_break(i, text) {
        i -= 1;
    }
    i
}

/// Returns the first position after the byte `at` where the text may be cut, or the end if `at` is
/// the end.
pub fn next_break(at: usize, text: &[u8]) -> usize
    requires { at ≤ length text.now }
    ensures boundary { IsUtf8 text.now → IsCharBoundary text.now result }
    ensures cut { IsTrue (is_cut text.now result) }
    ensures after { at < length text.now → at < result }
    ensures bound { result ≤ length text.now }
    ensures nearest { (k : ℕ) → at < k → k ≤ length text.now → IsTrue (is_cut text.now k)
        → result ≤ k }
    ensures not_before { at ≤ result }
{
    if at == text.len() {
        return at;
    }
    let mut i = at + 1;
    while !is_break(i, text) {
        i += 1;
    }
    i
}

/// Returns the position inside the text, nearest to the byte `at`, where it may be cut: the later
/// one of two equally near. Returns the end if there is no such position inside.
pub fn nearest_internal_break(at: usize, text: &[u8]) -> usize
    requires { at ≤ length text.now }
    ensures boundary { IsUtf8 text.now → IsCharBoundary text.now result }
    ensures cut { IsTrue (is_cut text.now result) }
    ensures bound { result ≤ length text.now }
    ensures inside { (k : ℕ) → 0 < k → k < length text.now → IsTrue (is_cut text.now k)
        → (0 < result) × (result < length text.now) }
    ensures nearest { (k : ℕ) → 0 < k → k < length text.now → IsTrue (is_cut text.now k)
        → distance at result ≤ distance at k }
    ensures later { (k : ℕ) → 0 < k → k < length text.now → IsTrue (is_cut text.now k)
        → distance at result ≡ distance at k → k ≤ result }
    ensures none { result ≡ 0 → length text.now ≡ 0 }
{
    if at > 0 && at < text.len() && is_break(at, text) {
        return at;
    }
    let left = prev_break(at, text);
    let right = next_break(at, text);
    if left == 0 {
        return right;
    }
    if right == text.len() || at - left < right - at {
        return left;
    }
    right
}

/// Returns `at` if the text may be cut there; else the nearest such position before it, if
/// `bias_left`, or after it. If there is none inside the text on that side, returns the nearest on
/// the other side, which may be an end of the text.
pub fn find_good_split(at: usize, text: &[u8], bias_left: bool) -> usize
    requires { at ≤ length text.now }
    ensures boundary { IsUtf8 text.now → IsCharBoundary text.now result }
    ensures cut { IsTrue (is_cut text.now result) }
    ensures bound { result ≤ length text.now }
    ensures exact { IsTrue (is_cut text.now at) → result ≡ at }
    ensures left { IsTrue bias_left → (k : ℕ) → 0 < k → k < at → IsTrue (is_cut text.now k)
        → (k ≤ result) × (result ≤ at) }
    ensures right { bias_left ≡ false → (k : ℕ) → at < k → k < length text.now
        → IsTrue (is_cut text.now k) → (at ≤ result) × (result ≤ k) }
    ensures no_left { IsTrue bias_left → ((k : ℕ) → 0 < k → k < at → IsTrue (is_cut text.now k) → ⊥)
        → (at ≤ result)
        × ((k : ℕ) → at ≤ k → k ≤ length text.now → IsTrue (is_cut text.now k) → result ≤ k) }
    ensures no_right { bias_left ≡ false
        → ((k : ℕ) → at < k → k < length text.now → IsTrue (is_cut text.now k) → ⊥)
        → (result ≤ at) × ((k : ℕ) → k ≤ at → IsTrue (is_cut text.now k) → k ≤ result) }
{
    if is_break(at, text) {
        return at;
    }
    let before = prev_break(at, text);
    let after = next_break(at, text);
    if bias_left {
        return if before > 0 { before } else { after };
    }
    if after < text.len() { after } else { before }
}
