//! Plain texts, sets of line breaks, sizes, counts of steps and index ranges.
ghost use Rattle.std.specs.Prelude.{◌≡◌, None, Some};
ghost use Rattle.std.specs.Str.{chars};
ghost use Rattle.rope_text.specs.declared.line_breaks.LineBreaks.TheVariants.{Unicode};
ghost use Rattle.rope_text.specs.Breaks.{is_break_char};
ghost use Rattle.rope_text.specs.Conversions.{byte_to_char, byte_to_line, char_to_byte, char_to_line, line_to_byte, line_to_char};
ghost use Rattle.rope_text.specs.Range.{excluded_end};

use ropey::str_utils::{
    byte_to_char_idx, byte_to_line_idx, char_to_byte_idx, char_to_line_idx, line_to_byte_idx,
    line_to_char_idx,
};
use ropey::{IndexRange, LineBreaks, MAX_BYTES, MAX_CHILDREN, MIN_BYTES, MIN_CHILDREN, Steps};

/// Returns the character and the line of a byte of a plain text.
pub fn of_byte(text: &str, byte_idx: usize) -> (usize, usize)
    ensures character { result.0 ≡ byte_to_char (chars text.now) byte_idx }
    ensures line { result.1 ≡ byte_to_line Unicode (chars text.now) byte_idx }
{
    (
        byte_to_char_idx(text, byte_idx),
        byte_to_line_idx(text, byte_idx),
    )
}

/// Returns the byte and the line of a character of a plain text.
pub fn of_char(text: &str, char_idx: usize) -> (usize, usize)
    ensures byte { result.0 ≡ char_to_byte (chars text.now) char_idx }
    ensures line { result.1 ≡ char_to_line Unicode (chars text.now) char_idx }
{
    (
        char_to_byte_idx(text, char_idx),
        char_to_line_idx(text, char_idx),
    )
}

/// Returns the byte and the character at which a line of a plain text starts.
pub fn of_line(text: &str, line_idx: usize) -> (usize, usize)
    ensures byte { result.0 ≡ line_to_byte Unicode (chars text.now) line_idx }
    ensures character { result.1 ≡ line_to_char Unicode (chars text.now) line_idx }
{
    (
        line_to_byte_idx(text, line_idx),
        line_to_char_idx(text, line_idx),
    )
}

/// Returns whether a set of line breaks is each of the three.
pub fn line_breaks(breaks: LineBreaks) -> [bool; 3] {
    match breaks {
        LineBreaks::Lf => [true, false, false],
        LineBreaks::CrLf => [false, breaks == LineBreaks::CrLf, false],
        LineBreaks::Unicode => [false, false, true],
    }
}

/// Returns whether a character ends a line break of a set.
pub fn is_break(breaks: LineBreaks, c: char) -> bool
    ensures { result ≡ is_break_char breaks c }
{
    breaks.is_break(c)
}

/// Returns the bounds on chunks and children.
pub fn sizes() -> (usize, usize, usize, usize)
    ensures max_bytes { result.0 ≡ 984 }
    ensures min_bytes { result.1 ≡ 462 }
    ensures max_children { result.2 ≡ 24 }
    ensures min_children { result.3 ≡ 12 }
{
    (MAX_BYTES, MIN_BYTES, MAX_CHILDREN, MIN_CHILDREN)
}

/// Returns the three counts of a new `Steps`.
pub fn steps() -> (u64, u64, u64)
    ensures nodes { result.0 ≡ 0 }
    ensures compares { result.1 ≡ 0 }
    ensures made { result.2 ≡ 0 }
{
    let Steps {
        nodes,
        compares,
        made,
    } = Steps::new();
    (nodes, compares, made)
}

/// Returns the start and the excluded end of a range.
fn bounds<R: IndexRange>(range: &R) -> (Option<usize>, Option<usize>)
    ensures start { result.0 ≡ R.given_start range.now }
    ensures end { result.1 ≡ R.given_end range.now }
{
    let start: Option<usize> = range.start();
    let end: Option<usize> = range.end();
    (start, end)
}

/// Returns the bounds of a `Range`.
pub fn range(start: usize, end: usize) -> (Option<usize>, Option<usize>)
    ensures start { result.0 ≡ Some start }
    ensures end { result.1 ≡ Some end }
{
    bounds(&(start..end))
}

/// Returns the bounds of a `RangeInclusive`.
pub fn range_inclusive(start: usize, last: usize) -> (Option<usize>, Option<usize>)
    ensures start { result.0 ≡ Some start }
    ensures end { result.1 ≡ Some (excluded_end last) }
{
    bounds(&(start..=last))
}

/// Returns the bounds of a `RangeFrom`.
pub fn range_from(start: usize) -> (Option<usize>, Option<usize>)
    ensures start { result.0 ≡ Some start }
    ensures end { result.1 ≡ None }
{
    bounds(&(start..))
}

/// Returns the bounds of a `RangeTo`.
pub fn range_to(end: usize) -> (Option<usize>, Option<usize>)
    ensures start { result.0 ≡ None }
    ensures end { result.1 ≡ Some end }
{
    bounds(&(..end))
}

/// Returns the bounds of a `RangeToInclusive`.
pub fn range_to_inclusive(last: usize) -> (Option<usize>, Option<usize>)
    ensures start { result.0 ≡ None }
    ensures end { result.1 ≡ Some (excluded_end last) }
{
    bounds(&(..=last))
}

/// Returns the bounds of a `RangeFull`.
pub fn range_full() -> (Option<usize>, Option<usize>)
    ensures start { result.0 ≡ None }
    ensures end { result.1 ≡ None }
{
    bounds(&(..))
}
