//! Ranges of indices: the six kinds of Rust. `2..5`, `2..=4` and, in a text of 5 characters, `2..`
//! are equal. No call takes memory.
ghost use Rattle.std.specs.Prelude.{◌≡◌, ℕ, ◌-◌, ◌<◌, None, Some, Option, MatchOption, Ok, Err};
ghost use Rattle.std.specs.Range.{range_inclusive_start, range_inclusive_end};
ghost use Rattle.rope_text.specs.Range.{excluded_end};
ghost use Rattle.rope_text.specs.Edit.{range_start, range_end, char_range_error};

use crate::{Error, Result};
use std::ops::{Range, RangeFrom, RangeFull, RangeInclusive, RangeTo, RangeToInclusive};

/// A range of indices, given by its start and its excluded end, each `None` if it is open.
pub trait IndexRange: Drop {
    ghost given_start: { Self → Option ℕ };

    ghost given_end: { Self → Option ℕ };

    /// Returns the first index, or `None` if the range has no start.
    fn start(&self) -> Option<usize>
        ensures { result ≡ given_start self.now };

    /// Returns the excluded end, or `None` if the range has none. An inclusive end is increased by
    /// one, to at most `usize::MAX`.
    fn end(&self) -> Option<usize>
        ensures { result ≡ given_end self.now };
}

impl IndexRange for Range<usize> {
    ghost given_start = { λ r. Some (r.start) };

    ghost given_end = { λ r. Some (r.end) };

    fn start(&self) -> Option<usize> {
        Some(self.start)
    }

    fn end(&self) -> Option<usize> {
        Some(self.end)
    }
}

impl IndexRange for RangeFrom<usize> {
    ghost given_start = { λ r. Some (r.start) };

    ghost given_end = { λ _. None };

    fn start(&self) -> Option<usize> {
        Some(self.start)
    }

    fn end(&self) -> Option<usize> {
        None
    }
}

impl IndexRange for RangeFull {
    ghost given_start = { λ _. None };

    ghost given_end = { λ _. None };

    fn start(&self) -> Option<usize> {
        None
    }

    fn end(&self) -> Option<usize> {
        None
    }
}

impl IndexRange for RangeInclusive<usize> {
    ghost given_start = { λ r. Some (range_inclusive_start r) };

    ghost given_end = { λ r. Some (excluded_end (range_inclusive_end r)) };

    fn start(&self) -> Option<usize> {
        Some(*self.start())
    }

    fn end(&self) -> Option<usize> {
        Some((*self.end()).saturating_add(1))
    }
}

impl IndexRange for RangeTo<usize> {
    ghost given_start = { λ _. None };

    ghost given_end = { λ r. Some (r.end) };

    fn start(&self) -> Option<usize> {
        None
    }

    fn end(&self) -> Option<usize> {
        Some(self.end)
    }
}

impl IndexRange for RangeToInclusive<usize> {
    ghost given_start = { λ _. None };

    ghost given_end = { λ r. Some (excluded_end r.end) };

    fn start(&self) -> Option<usize> {
        None
    }

    fn end(&self) -> Option<usize> {
        Some(self.end.saturating_add(1))
    }
}

/// Returns the bounds of a range in a text of `len` characters.
///
/// # Errors
///
/// First `CharRangeOutOfBounds`, with the bounds and the number of characters, if a bound is past
/// `len`; then `CharRangeInvalid`, if the start is past the end.
pub fn char_bounds<R: IndexRange>(range: &R, len: usize) -> Result<(usize, usize)>
    ensures { MatchOption (char_range_error (R.given_start range.now) (R.given_end range.now) len)
        (result ≡ Ok (range_start (R.given_start range.now), range_end (R.given_end range.now) len))
        (λ fault. result ≡ Err fault) }
{
    let given_start = range.start();
    let given_end = range.end();
    let start = given_start.unwrap_or(0);
    let end = given_end.unwrap_or(len);
    if start.max(end) > len {
        return Err(Error::CharRangeOutOfBounds(given_start, given_end, len));
    }
    if start > end {
        return Err(Error::CharRangeInvalid(start, end));
    }
    Ok((start, end))
}
