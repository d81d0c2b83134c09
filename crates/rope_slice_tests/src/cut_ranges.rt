//! Ranges with bounds at the ends of a text, past them, reversed, and at the greatest index.
use rope_plain::failure::{Failure, expect_same, within};
use rope_plain::sums::minus;
use rope_plain::{holds, same};
use ropey::{Error, IndexRange, Rope, RopeSlice};
use std::alloc::Global;

/// A range's start and its excluded end, each none if it is open. The kinds of Rust's ranges differ
/// in these alone.
#[derive(Clone, Copy)]
struct Told {
    start: Option<usize>,
    end: Option<usize>,
}

impl IndexRange for Told {
    ghost given_start = { λ r. r.start };

    ghost given_end = { λ r. r.end };

    fn start(&self) -> Option<usize> {
        self.start
    }

    fn end(&self) -> Option<usize> {
        self.end
    }
}

impl Told {
    /// Returns whether the start is past the end, in a text of `len` items.
    fn is_reversed(self, len: usize) -> bool {
        self.start.unwrap_or(0) > self.end.unwrap_or(len)
    }

    /// Returns whether a bound is past the end of the text.
    fn is_past(self, len: usize) -> bool {
        self.start.unwrap_or(0) > len || self.end.unwrap_or(len) > len
    }

    /// Returns the error of a range of characters.
    fn char_error(self, len: usize) -> Option<Error> {
        if self.is_past(len) {
            return Some(Error::CharRangeOutOfBounds(self.start, self.end, len));
        }
        if self.is_reversed(len) {
            let end = self.end.unwrap_or(len);
            return Some(Error::CharRangeInvalid(self.start.unwrap_or(0), end));
        }
        None
    }

    /// Returns the error of a range of bytes, in a text whose characters begin at these bytes, with
    /// the text's end among them.
    fn byte_error(self, starts: &[usize], len: usize) -> Option<Error> {
        if let (Some(start), Some(end)) = (self.start, self.end)
            && start > end
        {
            return Some(Error::ByteRangeInvalid(start, end));
        }
        if self.is_past(len) {
            return Some(Error::ByteRangeOutOfBounds(self.start, self.end, len));
        }
        let is_start = starts.contains(&self.start.unwrap_or(0));
        if is_start && starts.contains(&self.end.unwrap_or(len)) {
            return None;
        }
        Some(Error::ByteRangeNotCharBoundary(self.start, self.end))
    }

    /// Returns the number of items of the range.
    fn count(self, len: usize) -> usize {
        self.end
            .unwrap_or(len)
            .saturating_sub(self.start.unwrap_or(0))
    }
}

/// Characters of one to four bytes, and a pair: 6 characters in 12 bytes.
const TEXT: &str = "aé\r\nこ🐸";

const CHARS: usize = 6;

const BYTES: usize = 12;

/// The byte at which each character begins, and the end.
const STARTS: [usize; 7] = [0, 1, 3, 4, 5, 8, 12];

/// The bounds that are tried, in pairs.
const BOUNDS: [Option<usize>; 13] = [
    None,
    Some(0),
    Some(1),
    Some(2),
    Some(5),
    Some(6),
    Some(7),
    Some(11),
    Some(12),
    Some(13),
    Some(isize::MAX as usize),
    Some(usize::MAX - 1),
    Some(usize::MAX),
];

/// Fails unless a removal of the range returns its error and changes nothing, or else removes its
/// characters.
fn expect_removed(rope: &mut Rope, range: Told) -> Result<(), Failure> {
    let error = range.char_error(CHARS);
    let left = match error {
        Some(_) => CHARS,
        None => minus(CHARS, range.count(CHARS)),
    };
    same!(rope.try_remove(range).err(), error);
    same!(rope.len_chars(), left);
    holds!(left != CHARS || rope.eq_str(TEXT));
    Ok(())
}

fn expect_range_removed(alloc: Global, range: Told) -> Result<(), Failure> {
    let mut rope = Rope::from_str(alloc, TEXT)?;
    expect_removed(&mut rope, range)
}

/// Returns the number of characters of a slice, if there is one.
fn chars_of(slice: Option<RopeSlice<'_>>) -> Option<usize> {
    match slice {
        Some(slice) => Some(slice.len_chars()),
        None => None,
    }
}

/// Returns the number of bytes of a slice, or the error.
fn bytes_of(slice: ropey::Result<RopeSlice<'_>>) -> ropey::Result<usize> {
    match slice {
        Ok(slice) => Ok(slice.len_bytes()),
        Err(error) => Err(error),
    }
}

/// Fails unless slices of a rope and of a plain text have the characters or bytes of the range, or
/// its error.
fn expect_sliced(rope: &Rope, range: Told) -> Result<(), Failure> {
    let slice = RopeSlice::from(TEXT);
    let chars = match range.char_error(CHARS) {
        Some(_) => None,
        None => Some(range.count(CHARS)),
    };
    let bytes = match range.byte_error(&STARTS, BYTES) {
        Some(error) => Err(error),
        None => Ok(range.count(BYTES)),
    };
    let found = [
        chars_of(rope.get_slice(range)),
        chars_of(slice.get_slice(range)),
    ];
    same!(found, [chars; 2]);
    let found = [
        bytes_of(rope.try_byte_slice(range)),
        bytes_of(slice.try_byte_slice(range)),
    ];
    same!(found, [bytes; 2]);
    let are_some = [
        rope.get_byte_slice(range).is_some(),
        slice.get_byte_slice(range).is_some(),
    ];
    expect_same("are_some", &are_some, &[bytes.is_ok(); 2])
}

fn expect_range(alloc: Global, rope: &Rope, range: Told) -> Result<(), Failure> {
    expect_range_removed(alloc, range)?;
    expect_sliced(rope, range)
}

fn expect_from(alloc: Global, rope: &Rope, start: Option<usize>) -> Result<(), Failure> {
    for end in &BOUNDS {
        let range = Told { start, end: *end };
        within(
            format_args!("{start:?}..{end:?}"),
            expect_range(alloc, rope, range),
        )?;
    }
    Ok(())
}

fn expect_from_each(alloc: Global, rope: &Rope) -> Result<(), Failure> {
    for start in &BOUNDS {
        expect_from(alloc, rope, *start)?;
    }
    Ok(())
}

#[test]
fn ranges_cut_or_are_refused(rt: HostRuntime) -> Result<(), Failure> {
    let rope = Rope::from_str(rt.alloc(), TEXT)?;
    expect_from_each(rt.alloc(), &rope)
}
