//! Index ranges of each kind, and the errors of bad ones.
use rope_plain::failure::{Failure, expect_same};
use rope_plain::same;
use rope_plain::texts::expect_shown;
use rope_text::range::char_bounds;
use rope_text::{Error, IndexRange};
use std::alloc::AllocError;

fn bounds<R: IndexRange>(range: &R) -> [Option<usize>; 2] {
    [range.start(), range.end()]
}

#[test]
fn each_kind_of_range_has_its_bounds() -> Result<(), Failure> {
    let ranges = [
        bounds(&(1..3)),
        bounds(&(1..)),
        bounds(&(..)),
        bounds(&(1..=3)),
        bounds(&(..3)),
        bounds(&(..=3)),
        bounds(&(1..=usize::MAX)),
        bounds(&(..=usize::MAX)),
    ];
    let expected = [
        [Some(1), Some(3)],
        [Some(1), None],
        [None, None],
        [Some(1), Some(4)],
        [None, Some(3)],
        [None, Some(4)],
        [Some(1), Some(usize::MAX)],
        [None, Some(usize::MAX)],
    ];
    expect_same("ranges", &ranges, &expected)
}

#[test]
fn an_invalid_range_has_its_error(rt: HostRuntime) -> Result<(), Failure> {
    let inside = char_bounds(&(2..=4), 5);
    let outside = char_bounds(&(9..7), 6);
    let turned = char_bounds(&(4..2), 6);
    let error = Error::CharRangeInvalid(4, 2);
    same!(inside, Ok((2, 5)));
    same!(
        outside,
        Err(Error::CharRangeOutOfBounds(Some(9), Some(7), 6))
    );
    same!(turned, Err(error));
    let shown = format!(in rt.alloc(); "{error}");
    expect_shown(shown, "Invalid char range 4..2: start must be <= end")?;
    let shown = format!(in rt.alloc(); "{:?}", Error::ByteRangeOutOfBounds(None, Some(9), 5));
    let expected = "Byte range out of bounds: byte range ..9, Rope/RopeSlice byte length 5";
    expect_shown(shown, expected)
}
