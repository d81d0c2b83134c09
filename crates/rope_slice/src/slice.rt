//! Slices, their lengths, and slices of them. No call takes memory. Lengths take constant time; a
//! slice of a slice costs a few lookups, or a count of the text if it is plain.
//!
//! `RopeSlice::from("one\ntwo")` is a slice of a plain text: it has 7 characters, 2 lines and one
//! chunk. The slice `2..9` of `"hello world"` is `"llo wor"`, and of that the slice `1..5` is
//! `"lo w"`.
ghost use Rattle.std.specs.Prelude.{◌≡◌, ◌≤◌, length, true, ◌↔◌, None, Some, Ok, Err, IfOk, IfErr, IfSome, IsSome};
ghost use Rattle.std.specs.List.{slice_range};
ghost use Rattle.std.specs.Str.{chars};
ghost use Rattle.rope_text.specs.declared.line_breaks.LineBreaks.TheVariants.{Unicode};
ghost use Rattle.rope_text.specs.Text.{byte_len, utf16_len};
ghost use Rattle.rope_text.specs.TextInfo.{info_of};
ghost use Rattle.rope_text.specs.Lines.{line_count};
ghost use Rattle.rope_text.specs.Conversions.{byte_to_char};
ghost use Rattle.rope_text.specs.Cutting.{clip, single_chunk};
ghost use Rattle.rope_text.specs.LineParts.{part_between};
ghost use Rattle.rope_text.specs.Edit.{given, byte_range_error, is_char_boundary};
ghost use Rattle.rope_leaf.specs.Tree.{text};
ghost use Rattle.rope_slice.specs.Kept.{IsPart};
ghost use Rattle.rope_slice.specs.Found.{GivesWithin};
ghost use Rattle.rope_slice.specs.Sliced.{HasCharRange, HasByteRange, IsCharRange, IsByteRange};

use crate::excerpt::Excerpt;
use crate::plain::Plain;
use rope_text::range::char_bounds;
use rope_text::str_utils::char_to_byte_idx;
use rope_text::{Error, IndexRange, LineBreaks, MAX_BYTES, Result, TextInfo};
use rope_tree::Node;

/// Returns the index, or `None` if it is past the end.
pub(crate) fn within(idx: usize, len: usize) -> Option<usize>
    ensures { GivesWithin idx len result (λ same. same ≡ idx) }
{
    (idx <= len).then_some(idx)
}

/// A slice of a rope's text, or of a plain text, borrowed for `'a`.
///
/// It counts its own text: one that ends after the CR of a CR LF has that CR as a line break, and
/// one that starts at the LF has that LF, if they are breaks of its set. Its chunks are the rope's,
/// clipped to it, without empty ones; a plain text is one chunk of any length, or none. Copying a
/// slice takes constant time.
///
/// The variant says nothing about the text: it only tells a rope made of the slice whether it can
/// share nodes.
#[derive(Clone, Copy)]
pub enum RopeSlice<'a> {
    /// A slice of a rope's text with at least one character.
    InTree(Excerpt<'a>),
    /// A plain text.
    Alone(Plain<'a>),
}

impl<'a> RopeSlice<'a> {
    ghost use Rattle.rope_slice.specs.Slice.{content_of, text_of, chunks_of, breaks_of};
    ghost use Rattle.rope_slice.specs.Ranges.{GivesChars, GivesBytes, IsByteSlice};

    /// Returns a slice of a plain text, with the given set of line breaks. Reads the text once, to
    /// count it.
    ///
    /// `RopeSlice::from_str_with("a\rb", LineBreaks::Lf).len_lines()` is 1.
    pub fn from_str_with(text: &'a str, breaks: LineBreaks) -> RopeSlice<'a>
        ensures text { text_of result ≡ chars text.now }
        ensures chunks { chunks_of result ≡ single_chunk (chars text.now) }
        ensures breaks { breaks_of result ≡ breaks }
    {
        let info = TextInfo::from_str(text, breaks);
        RopeSlice::Alone(Plain { text, info, breaks })
    }

    /// Returns the whole text of a tree.
    // Inlined: a call would return the slice through memory, with a store-forwarding stall.
    #[inline(always)]
    pub fn of_node(node: &'a Node) -> RopeSlice<'a>
        ensures text { text_of result ≡ text node.now }
        ensures chunks { chunks_of result ≡ node.now.leaves }
        ensures breaks { breaks_of result ≡ node.now.breaks }
    {
        let end = node.info();
        if end.chars == 0 {
            return RopeSlice::from_str_with("", node.line_breaks());
        }
        let start = TextInfo::new();
        RopeSlice::InTree(Excerpt { node, start, end })
    }

    /// Returns the set of line breaks by which lines are counted.
    /// `RopeSlice::from("a").line_breaks()` is `LineBreaks::Unicode`.
    pub fn line_breaks(&self) -> LineBreaks
        ensures { result ≡ breaks_of self.now }
    {
        match self {
            RopeSlice::InTree(excerpt) => excerpt.node.line_breaks(),
            RopeSlice::Alone(plain) => plain.breaks,
        }
    }

    /// Returns the counts of the text, without reading it.
    pub(crate) fn info(&self) -> TextInfo
        ensures value { result ≡ info_of (breaks_of self.now) (text_of self.now) }
        ensures kept { IsPart (content_of self.now) }
    {
        match self {
            RopeSlice::InTree(excerpt) => excerpt.info(),
            RopeSlice::Alone(plain) => {
                // For the proof: `as_bytes` ensures that a text in memory has at most `isize::MAX`
                // bytes, as a slice must.
                let _ = plain.as_str().as_bytes();
                plain.info
            }
        }
    }

    /// Returns the length in bytes. `RopeSlice::from("é\n").len_bytes()` is 3.
    pub fn len_bytes(&self) -> usize
        ensures value { result ≡ byte_len (text_of self.now) }
        ensures kept { IsPart (content_of self.now) }
    {
        self.info().bytes
    }

    /// Returns the length in characters. `RopeSlice::from("é\n").len_chars()` is 2.
    pub fn len_chars(&self) -> usize
        ensures { result ≡ length (text_of self.now) }
    {
        self.info().chars
    }

    /// Returns the number of lines: one more than the number of line breaks.
    /// `RopeSlice::from("é\n").len_lines()` is 2.
    pub fn len_lines(&self) -> usize
        ensures { result ≡ line_count (breaks_of self.now) (text_of self.now) }
    {
        self.info().break_count + 1
    }

    /// Returns the length in UTF-16 code units. `RopeSlice::from("😀").len_utf16_cu()` is 2.
    pub fn len_utf16_cu(&self) -> usize
        ensures { result ≡ utf16_len (text_of self.now) }
    {
        let info = self.info();
        info.chars + info.utf16_surrogates
    }

    // Returns the characters from `start` up to `end`: their text, and the chunks clipped to them.
    pub(crate) fn char_range(&self, start: usize, end: usize) -> RopeSlice<'a>
        requires ordered { start ≤ end }
        requires within { end ≤ length (text_of self.now) }
        ensures text { text_of result ≡ slice_range (text_of self.now) start end }
        ensures chunks { chunks_of result ≡ clip (chunks_of self.now) start end }
        ensures breaks { breaks_of result ≡ breaks_of self.now }
    {
        if start == end {
            return RopeSlice::from_str_with("", self.line_breaks());
        }
        match self {
            RopeSlice::InTree(excerpt) => {
                if end - start <= MAX_BYTES {
                    if let Some(text) = excerpt.in_one_leaf(start, end) {
                        return RopeSlice::from_str_with(text, excerpt.node.line_breaks());
                    }
                }
                RopeSlice::InTree(Excerpt {
                    node: excerpt.node,
                    start: excerpt.start_of(start),
                    end: excerpt.end_of(end),
                })
            }
            RopeSlice::Alone(plain) => {
                let text = plain.as_str();
                let rest = &text[char_to_byte_idx(text, start)..];
                let len = char_to_byte_idx(rest, end - start);
                RopeSlice::from_str_with(&rest[..len], plain.breaks)
            }
        }
    }

    // Returns the bytes from `from` up to `to`, or `None` exactly if one of the two is inside a
    // character.
    fn byte_range(&self, from: usize, to: usize) -> Option<RopeSlice<'a>>
        requires ordered { from ≤ to }
        requires within { to ≤ byte_len (text_of self.now) }
        ensures some { IfSome result (λ slice. content_of slice
            ≡ part_between (content_of self.now) (byte_to_char (text_of self.now) from)
            (byte_to_char (text_of self.now) to)) }
        ensures whole { IsSome result ↔ ((is_char_boundary (text_of self.now) from ≡ true)
            × (is_char_boundary (text_of self.now) to ≡ true)) }
    {
        match self {
            RopeSlice::InTree(excerpt) => {
                if from == to {
                    excerpt.end_at_byte(to)?;
                    return Some(RopeSlice::from_str_with("", excerpt.node.line_breaks()));
                }
                let start = excerpt.start_at_byte(from)?;
                let end = excerpt.end_at_byte(to)?;
                let node = excerpt.node;
                Some(RopeSlice::InTree(Excerpt { node, start, end }))
            }
            RopeSlice::Alone(plain) => {
                let text = plain.as_str();
                if !text.is_char_boundary(from) {
                    return None;
                }
                if !text.is_char_boundary(to) {
                    return None;
                }
                Some(RopeSlice::from_str_with(&text[from..to], plain.breaks))
            }
        }
    }

    /// Returns the characters of a range, as a slice that borrows them: their text, the chunks
    /// clipped to them, and the same set of line breaks.
    ///
    /// The range's bounds are at most `len_chars()`, and its start is at most its end.
    /// `RopeSlice::from("abcd").slice(1..3)` is `"bc"`.
    #[inline(always)]
    pub fn slice<R: IndexRange>(&self, range: R) -> RopeSlice<'a>
        requires { HasCharRange (text_of self.now) (R.given_start range) (R.given_end range) }
        ensures { IsCharRange (content_of self.now) (R.given_start range) (R.given_end range)
            (content_of result) }
    {
        self.get_slice(range).unwrap()
    }

    /// Returns a slice as `slice` does, or `None` exactly if a bound is past `len_chars()` or the
    /// range's start is past its end. `RopeSlice::from("abcd").get_slice(1..9)` is `None`.
    #[inline(always)]
    pub fn get_slice<R: IndexRange>(&self, range: R) -> Option<RopeSlice<'a>>
        ensures { GivesChars (content_of self.now) (R.given_start range) (R.given_end range)
            result }
    {
        let (start, end) = char_bounds(&range, self.len_chars()).ok()?;
        Some(self.char_range(start, end))
    }

    /// Returns a slice as `byte_slice` does, for any range.
    ///
    /// `RopeSlice::from("éa").try_byte_slice(1..2)` is
    /// `Err(Error::ByteRangeNotCharBoundary(Some(1), Some(2)))`.
    ///
    /// # Errors
    ///
    /// First `ByteRangeInvalid`, if both bounds are given and the start is past the end; then
    /// `ByteRangeOutOfBounds`, if a given bound is past `len_bytes()`; then
    /// `ByteRangeNotCharBoundary`, if a given bound is inside a character.
    #[inline(always)]
    pub fn try_byte_slice<R: IndexRange>(&self, range: R) -> Result<RopeSlice<'a>>
        ensures ok { IfOk result
            (IsByteSlice (content_of self.now) (R.given_start range) (R.given_end range)) }
        ensures refused { IfErr result (λ fault.
            byte_range_error (text_of self.now) (R.given_start range) (R.given_end range)
            ≡ Some fault) }
    {
        let (start, end, len) = (range.start(), range.end(), self.len_bytes());
        match (start, end) {
            (Some(a), Some(b)) if a > b => return Err(Error::ByteRangeInvalid(a, b)),
            _ => {}
        }
        let (from, to) = (start.unwrap_or(0), end.unwrap_or(len));
        if from.max(to) > len {
            return Err(Error::ByteRangeOutOfBounds(start, end, len));
        }
        match self.byte_range(from, to) {
            Some(slice) => Ok(slice),
            None => Err(Error::ByteRangeNotCharBoundary(start, end)),
        }
    }

    /// Returns a slice as `byte_slice` does, or `None` exactly if `try_byte_slice` returns an
    /// error. `RopeSlice::from("éa").get_byte_slice(1..2)` is `None`.
    #[inline(always)]
    pub fn get_byte_slice<R: IndexRange>(&self, range: R) -> Option<RopeSlice<'a>>
        ensures { GivesBytes (content_of self.now) (R.given_start range) (R.given_end range)
            result }
    {
        self.try_byte_slice(range).ok()
    }

    /// Returns the bytes of a range, as a slice that borrows them.
    ///
    /// The range's bounds are at most `len_bytes()`, its start is at most its end, and no bound is
    /// inside a character. `RopeSlice::from("éa").byte_slice(2..)` is `"a"`.
    #[inline(always)]
    pub fn byte_slice<R: IndexRange>(&self, range: R) -> RopeSlice<'a>
        requires { HasByteRange (text_of self.now) (R.given_start range) (R.given_end range) }
        ensures { IsByteRange (content_of self.now) (R.given_start range) (R.given_end range)
            (content_of result) }
    {
        self.try_byte_slice(range).unwrap()
    }
}

impl<'a> From<&'a str> for RopeSlice<'a> {
    ghost use Rattle.rope_slice.specs.Slice.{content_of, plain_content, text_of, chunks_of, breaks_of};

    ghost from_gives = { λ text slice. content_of slice ≡ plain_content Unicode (chars text.now) };

    /// Returns a slice of a plain text, with Unicode's line breaks. Reads the text once, to count
    /// it.
    fn from(text: &'a str) -> RopeSlice<'a>
        ensures content { content_of result ≡ plain_content Unicode (chars text.now) }
        ensures text { text_of result ≡ chars text.now }
        ensures chunks { chunks_of result ≡ single_chunk (chars text.now) }
        ensures breaks { breaks_of result ≡ Unicode }
    {
        RopeSlice::from_str_with(text, LineBreaks::Unicode)
    }
}
