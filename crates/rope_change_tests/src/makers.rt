//! Ropes, changes and random replacements for tests: to make them succeeds if there is memory.
use rope_changes::{ChangeError, ChangeSet};
use rope_plain::failure::Failure;
use rope_plain::numbers::Numbers;
use rope_plain::sums::plus;
use rope_plain::texts::random_text;
use ropey::Rope;
use std::alloc::Global;
use std::process::Abort;

/// The most characters between two ranges, the most that a range has, and the most bytes of its new
/// text.
#[derive(Clone, Copy, Debug)]
pub struct Sizes {
    pub kept: usize,
    pub deleted: usize,
    pub inserted: usize,
}

/// Returns the failure of a call that is refused, where it should succeed.
pub fn refused(error: ChangeError) -> Failure {
    Failure::new(format_args!("refused by {error:?}"))
}

/// Returns a rope of a text.
pub fn rope_of(rt: &impl Abort, alloc: Global, text: &str) -> Rope {
    Rope::from_str(alloc, text).expect(rt, "there is memory")
}

/// Returns a change of a text of `len` characters that replaces these ranges, in order. Fails
/// unless it is empty before.
pub fn replacing(
    rt: &impl Abort,
    alloc: Global,
    len: usize,
    ranges: &[(usize, usize, &str)],
) -> ChangeSet {
    let mut change = ChangeSet::new(alloc, len).expect(rt, "the text fits");
    assert!(rt; change.is_empty());
    for (start, end, text) in ranges {
        change
            .replace(*start, *end, text)
            .expect(rt, "the range is in order");
    }
    change
}

/// Applies a change to a rope of its length.
pub fn apply(rt: &impl Abort, change: &ChangeSet, rope: &mut Rope) {
    change.apply(rope).expect(rt, "there is memory");
}

/// Copies the characters from `start` up to `end`.
pub fn copy(rt: &impl Abort, to: &mut Vec<char>, text: &[char], start: usize, end: usize) {
    if let Some(kept) = text.get(start..end) {
        to.extend_from_slice(kept).expect(rt, "there is memory");
    }
}

/// Replaces a range by a text, in a change and at the end of a list.
fn replace(
    rt: &impl Abort,
    change: &mut ChangeSet,
    after: &mut Vec<char>,
    (start, end): (usize, usize),
    text: &str,
) {
    change
        .replace(start, end, text)
        .expect(rt, "the range is in order");
    for c in text.chars() {
        after.push(c).expect(rt, "there is memory");
    }
}

/// Replaces a range after `at`, and returns its end. Copies the characters before it.
pub fn replace_after(
    rt: &impl Abort,
    alloc: Global,
    numbers: &mut Numbers,
    sizes: Sizes,
    text: &[char],
    at: usize,
    change: &mut ChangeSet,
    after: &mut Vec<char>,
) -> usize {
    let start = plus(at, numbers.up_to(sizes.kept)).min(text.len());
    let end = plus(start, numbers.up_to(sizes.deleted)).min(text.len());
    let new = random_text(alloc, numbers, sizes.inserted).expect(rt, "there is memory");
    copy(rt, after, text, at, start);
    replace(rt, change, after, (start, end), new.as_str());
    end
}
