//! Slices: made, measured, compared and given out as texts.
ghost use Rattle.std.specs.Prelude.{◌≡◌, ◌↔◌, length, IfOk, IfSome, IsTrue};
ghost use Rattle.std.specs.Cow.{cow_str_bytes};
ghost use Rattle.std.specs.Str.{chars};
ghost use Rattle.std.specs.String.{string_bytes};
ghost use Rattle.rope_text.specs.Compare.{text_cmp};
ghost use Rattle.rope_text.specs.Lines.{line_count};
ghost use Rattle.rope_text.specs.Text.{byte_len, utf16_len};
ghost use Rattle.rope_slice.specs.Slice.{breaks_of, text_of};

use ropey::{CowStr, LineBreaks, Result, RopeSlice};
use std::alloc::Global;
use std::cmp::Ordering;

/// Makes a slice of a plain text.
pub fn from<'a>(text: &'a str) -> RopeSlice<'a>
    ensures { text_of result ≡ chars text.now }
{
    RopeSlice::from(text)
}

/// Makes a slice of a plain text with a set of line breaks.
pub fn from_str_with<'a>(text: &'a str, breaks: LineBreaks) -> RopeSlice<'a>
    ensures { text_of result ≡ chars text.now }
{
    RopeSlice::from_str_with(text, breaks)
}

/// Copies a slice, which is `Copy`.
pub fn copy<'a>(slice: &RopeSlice<'a>) -> RopeSlice<'a>
    ensures { text_of result ≡ text_of slice.now }
{
    *slice
}

/// Returns the lengths of a slice.
pub fn lengths(slice: &RopeSlice<'_>) -> (usize, usize, usize, usize)
    ensures bytes { result.0 ≡ byte_len (text_of slice.now) }
    ensures characters { result.1 ≡ length (text_of slice.now) }
    ensures lines { result.2 ≡ line_count (breaks_of slice.now) (text_of slice.now) }
    ensures units { result.3 ≡ utf16_len (text_of slice.now) }
{
    (
        slice.len_bytes(),
        slice.len_chars(),
        slice.len_lines(),
        slice.len_utf16_cu(),
    )
}

/// Returns the set of line breaks of a slice.
pub fn line_breaks(slice: &RopeSlice<'_>) -> LineBreaks
    ensures { result ≡ breaks_of slice.now }
{
    slice.line_breaks()
}

/// Returns a slice's text where it lies in one chunk.
pub fn as_str<'a>(slice: &RopeSlice<'a>) -> Option<&'a str>
    ensures { IfSome result (λ text. chars text.now ≡ text_of slice.now) }
{
    slice.as_str()
}

/// Copies a slice's text into a string.
pub fn to_string(slice: &RopeSlice<'_>, alloc: Global) -> Result<String>
    ensures { IfOk result (λ text. chars (string_bytes text) ≡ text_of slice.now) }
{
    slice.try_to_string(alloc)
}

/// Returns a slice's text, borrowed or owned.
pub fn to_cow<'a>(slice: &RopeSlice<'a>, alloc: Global) -> Result<CowStr<'a>>
    ensures { IfOk result (λ cow. chars (cow_str_bytes cow) ≡ text_of slice.now) }
{
    slice.try_to_cow(alloc)
}

/// Compares a slice with a text.
pub fn is_text(slice: &RopeSlice<'_>, text: &str) -> bool
    ensures { IsTrue result ↔ (text_of slice.now ≡ chars text.now) }
{
    slice.eq_str(text)
}

/// Orders two slices.
pub fn order(slice: &RopeSlice<'_>, other: &RopeSlice<'_>) -> Ordering
    ensures { result ≡ text_cmp (text_of slice.now) (text_of other.now) }
{
    slice.cmp(other)
}
