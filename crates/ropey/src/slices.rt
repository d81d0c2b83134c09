//! Slices and lines of a rope, cursors over its bytes, characters, chunks and lines, and ropes of
//! slices. No slice and no cursor takes memory; the start of a cursor costs one lookup, and a slice
//! two.
//!
//! With the text `"hello world"`, `slice(6..)` has the text `"world"`, and `byte_slice(..5)` has
//! `"hello"`.
//!
//! A cursor is between two items. Over the characters of `"abc"`, `chars_at(1)` gives `b` by
//! `next`, and then `b` again by `prev`.
ghost use Rattle.std.specs.Prelude.{◌≡◌, length, Some, IfOk, IfErr, ◌≤◌, ◌<◌, ◌^◌, MatchOption};
ghost use Rattle.rope_text.specs.Edit.{byte_range_error};
ghost use Rattle.rope_text.specs.declared.error.Error.TheVariants.{OutOfMemory};
ghost use Rattle.rope_slice.specs.Edge.{line_info};
ghost use Rattle.rope_slice.specs.Sliced.{HasCharRange, HasByteRange, IsCharRange, IsByteRange};
ghost use Rattle.rope_slice.specs.Ranges.{GivesChars, GivesBytes, IsByteSlice};
ghost use Rattle.rope_slice.specs.Slice.{content_of, text_of, breaks_of};
ghost use Rattle.rope_slice.specs.Found.{GivesWithin, StandsBefore};
ghost use Rattle.ropey.specs.View.{content, IsRope};
ghost use Rattle.std.specs.Str.{encode_utf8_all};
ghost use Rattle.rope_text.specs.Text.{byte_len};
ghost use Rattle.rope_text.specs.Lines.{line_count};
ghost use Rattle.rope_text.specs.LineParts.{line_of, lines_of};
ghost use Rattle.rope_text.specs.Lookup.{chunk_place_at_byte, chunk_place_at_char, chunk_place_at_line_break};
ghost use Rattle.rope_text.specs.Sides.{at_start, at_place};

use crate::rope::Rope;
use rope_join::cut::between;
use rope_slice::{Bytes, Chars, ChunksAt, Excerpt, Lines, RopeSlice};
use rope_text::{IndexRange, Result, TextInfo};
use rope_tree::Editor;
use std::alloc::Global;

// Inlined, as in rope_slice: a call would store the slice or the cursor by words, and a caller that
// moves it would have a store-forwarding stall.
impl Rope {
    // Returns all of the rope.
    #[inline(always)]
    pub(crate) fn whole(&self) -> RopeSlice<'_>
        ensures content { content_of result ≡ content self.now }
        ensures few { length self.now.chunks < 2 ^ 63 }
    {
        RopeSlice::of_node(&self.root)
    }

    /// Returns the characters of a range, as a slice that borrows them: their text, the chunks
    /// clipped to them, and the same set of line breaks.
    ///
    /// The range's bounds are at most `len_chars()`, and its start is at most its end. With the
    /// text `"abcd"`, `slice(1..3)` is `"bc"`.
    #[inline(always)]
    pub fn slice<R: IndexRange>(&self, range: R) -> RopeSlice<'_>
        requires { HasCharRange self.now.text (R.given_start range) (R.given_end range) }
        ensures { IsCharRange (content self.now) (R.given_start range) (R.given_end range)
            (content_of result) }
    {
        self.whole().slice(range)
    }

    /// Returns a slice as `slice` does, or `None` exactly if a bound is past `len_chars()` or the
    /// range's start is past its end. With the text `"abcd"`, `get_slice(1..9)` is `None`.
    #[inline(always)]
    pub fn get_slice<R: IndexRange>(&self, range: R) -> Option<RopeSlice<'_>>
        ensures { GivesChars (content self.now) (R.given_start range) (R.given_end range) result }
    {
        self.whole().get_slice(range)
    }

    /// Returns the bytes of a range, as a slice that borrows them.
    ///
    /// The range's bounds are at most `len_bytes()`, its start is at most its end, and no bound is
    /// inside a character. With the text `"éa"`, `byte_slice(2..)` is `"a"`.
    #[inline(always)]
    pub fn byte_slice<R: IndexRange>(&self, range: R) -> RopeSlice<'_>
        requires { HasByteRange self.now.text (R.given_start range) (R.given_end range) }
        ensures { IsByteRange (content self.now) (R.given_start range) (R.given_end range)
            (content_of result) }
    {
        self.whole().byte_slice(range)
    }

    /// Returns a slice as `byte_slice` does, for any range.
    ///
    /// With the text `"éa"`, `try_byte_slice(1..2)` is
    /// `Err(Error::ByteRangeNotCharBoundary(Some(1), Some(2)))`.
    ///
    /// # Errors
    ///
    /// First `ByteRangeInvalid`, if both bounds are given and the start is past the end; then
    /// `ByteRangeOutOfBounds`, if a given bound is past `len_bytes()`; then
    /// `ByteRangeNotCharBoundary`, if a given bound is inside a character.
    pub fn try_byte_slice<R: IndexRange>(&self, range: R) -> Result<RopeSlice<'_>>
        ensures ok { IfOk result
            (IsByteSlice (content self.now) (R.given_start range) (R.given_end range)) }
        ensures refused { IfErr result (λ fault.
            byte_range_error self.now.text (R.given_start range) (R.given_end range) ≡ Some fault) }
    {
        self.whole().try_byte_slice(range)
    }

    /// Returns a slice as `byte_slice` does, or `None` exactly if `try_byte_slice` returns an
    /// error. With the text `"éa"`, `get_byte_slice(1..2)` is `None`.
    #[inline(always)]
    pub fn get_byte_slice<R: IndexRange>(&self, range: R) -> Option<RopeSlice<'_>>
        ensures { GivesBytes (content self.now) (R.given_start range) (R.given_end range) result }
    {
        self.whole().get_byte_slice(range)
    }

    /// Returns a rope of the slice's text, with its set of line breaks. It shares the nodes of a
    /// rope's tree that are within the slice; a plain text is copied.
    ///
    /// Takes memory for the nodes along the two cuts, or for all of a plain text.
    ///
    /// With the text `"abcd"`, `Rope::from_slice(alloc, rope.slice(1..3))?` is a rope of `"bc"`.
    ///
    /// # Errors
    ///
    /// `OutOfMemory`.
    pub fn from_slice(alloc: Global, slice: RopeSlice<'_>) -> Result<Rope>
        ensures text { IfOk result (λ rope. rope.text ≡ text_of slice.entry) }
        ensures breaks { IfOk result (λ rope. rope.breaks ≡ breaks_of slice.entry) }
        ensures kept { IfOk result IsRope }
        ensures err { IfErr result (λ e. e ≡ OutOfMemory) }
    {
        match slice {
            RopeSlice::InTree(Excerpt { node, start, end }) => {
                let root = between(&mut Editor::new(alloc), node, start.chars, end.chars)?;
                Ok(Rope { root, alloc })
            }
            RopeSlice::Alone(plain) => Rope::from_str_with(alloc, plain.text, plain.breaks),
        }
    }

    /// Returns a cursor before the first byte, facing forward.
    ///
    /// With the text `"ab"`, `bytes().next()` is `Some(b'a')`.
    #[inline(always)]
    pub fn bytes(&self) -> Bytes<'_>
        ensures { result ≡ at_start (encode_utf8_all self.now.text) }
    {
        self.whole().bytes()
    }

    /// Returns a cursor before the byte `byte_idx`, facing forward; for `len_bytes()` it is past
    /// the last byte.
    ///
    /// The index is at most `len_bytes()`. With the text `"ab"`, `bytes_at(1).next()` is
    /// `Some(b'b')`.
    #[inline(always)]
    pub fn bytes_at(&self, byte_idx: usize) -> Bytes<'_>
        requires { byte_idx ≤ byte_len self.now.text }
        ensures { result ≡ at_place (encode_utf8_all self.now.text) byte_idx }
    {
        self.whole().bytes_at(byte_idx)
    }

    /// Returns a cursor before the first character, facing forward.
    ///
    /// With the text `"éa"`, `chars().next()` is `Some('é')`.
    #[inline(always)]
    pub fn chars(&self) -> Chars<'_>
        ensures { result ≡ at_start self.now.text }
    {
        self.whole().chars()
    }

    /// Returns a cursor before the character `char_idx`, facing forward; for `len_chars()` it is
    /// past the last character.
    ///
    /// The index is at most `len_chars()`. With the text `"éa"`, `chars_at(1).next()` is
    /// `Some('a')`.
    #[inline(always)]
    pub fn chars_at(&self, char_idx: usize) -> Chars<'_>
        requires { char_idx ≤ length self.now.text }
        ensures { result ≡ at_place self.now.text char_idx }
    {
        self.whole().chars_at(char_idx)
    }

    /// Returns a cursor before the chunk that contains the byte `byte_idx`, facing forward; for
    /// `len_bytes()` it is past the last chunk. Also returns the numbers of bytes, characters and
    /// line breaks that end before the cursor.
    ///
    /// The index is at most `len_bytes()`. With the text `"ab"`, `chunks_at_byte(2)` returns the
    /// numbers 2, 2 and 0.
    #[inline(always)]
    pub fn chunks_at_byte(&self, byte_idx: usize) -> ChunksAt<'_>
        requires { byte_idx ≤ byte_len self.now.text }
        ensures { StandsBefore (content self.now)
            (chunk_place_at_byte self.now.chunks byte_idx) result }
    {
        self.whole().chunks_at_byte(byte_idx)
    }

    /// Returns a cursor before the chunk that contains the character `char_idx`, facing forward;
    /// for `len_chars()` it is past the last chunk. Also returns the numbers of bytes, characters
    /// and line breaks that end before the cursor.
    ///
    /// The index is at most `len_chars()`. With the text `"éb"`, `chunks_at_char(2)` returns the
    /// numbers 3, 2 and 0.
    #[inline(always)]
    pub fn chunks_at_char(&self, char_idx: usize) -> ChunksAt<'_>
        requires { char_idx ≤ length self.now.text }
        ensures { StandsBefore (content self.now)
            (chunk_place_at_char self.now.chunks char_idx) result }
    {
        self.whole().chunks_at_char(char_idx)
    }

    /// Returns a cursor before the first chunk that ends after `line_break_idx` line breaks, or
    /// else before the last, facing forward; for `len_lines()` it is past the last chunk. Also
    /// returns the numbers of bytes, characters and line breaks that end before the cursor.
    ///
    /// The index is at most `len_lines()`. With the text `"a\nb"`, `chunks_at_line_break(2)`
    /// returns the numbers 3, 3 and 1.
    #[inline(always)]
    pub fn chunks_at_line_break(&self, line_break_idx: usize) -> ChunksAt<'_>
        requires { line_break_idx ≤ line_count self.now.breaks self.now.text }
        ensures { StandsBefore (content self.now)
            (chunk_place_at_line_break self.now.breaks self.now.chunks line_break_idx) result }
    {
        self.whole().chunks_at_line_break(line_break_idx)
    }

    /// Returns the line `line_idx`, with its line break, as a slice. Costs at most two lookups, and
    /// counts the line.
    ///
    /// The index is below `len_lines()`. With the text `"a\nb"`, `line(0)` is `"a\n"`.
    pub fn line(&self, line_idx: usize) -> RopeSlice<'_>
        requires { line_idx < line_count self.now.breaks self.now.text }
        ensures { content_of result ≡ line_of (content self.now) line_idx }
    {
        self.whole().line(line_idx)
    }

    /// Returns a cursor before the first line, facing forward.
    ///
    /// With the text `"a\nb"`, `lines().next()` is the line `"a\n"`.
    #[inline(always)]
    pub fn lines(&self) -> Lines<'_>
        ensures { result ≡ at_start (lines_of (content self.now)) }
    {
        self.whole().lines()
    }

    /// Returns a cursor before the line `line_idx`, facing forward; for `len_lines()` it is past
    /// the last line.
    ///
    /// The index is at most `len_lines()`. With the text `"a\nb"`, `lines_at(1).next()` is the line
    /// `"b"`.
    #[inline(always)]
    pub fn lines_at(&self, line_idx: usize) -> Lines<'_>
        requires { line_idx ≤ line_count self.now.breaks self.now.text }
        ensures { result ≡ at_place (lines_of (content self.now)) line_idx }
    {
        self.whole().lines_at(line_idx)
    }

    /// Returns a cursor before the line `line_idx`, facing forward, and the counts of the text
    /// before the line.
    ///
    /// The index is at most `len_lines()`. With the text `"a\nb"` and line 1 the counts are 2
    /// bytes, 2 characters, no surrogate pair and 1 line break.
    #[inline(always)]
    pub fn lines_and_counts_at(&self, line_idx: usize) -> (Lines<'_>, TextInfo)
        requires { line_idx ≤ line_count self.now.breaks self.now.text }
        ensures lines { result.0 ≡ at_place (lines_of (content self.now)) line_idx }
        ensures counts { result.1 ≡ line_info self.now.breaks self.now.text line_idx }
    {
        self.whole().lines_and_counts_at(line_idx)
    }

    /// Returns a cursor as `bytes_at` does, or `None` exactly if the index is past `len_bytes()`.
    /// With the text `"ab"`, `get_bytes_at(3)` is `None`.
    pub fn get_bytes_at(&self, byte_idx: usize) -> Option<Bytes<'_>>
        ensures { GivesWithin byte_idx (byte_len self.now.text) result
            (λ bytes. bytes ≡ at_place (encode_utf8_all self.now.text) byte_idx) }
    {
        self.whole().get_bytes_at(byte_idx)
    }

    /// Returns a cursor as `chars_at` does, or `None` exactly if the index is past `len_chars()`.
    /// With the text `"éa"`, `get_chars_at(3)` is `None`.
    pub fn get_chars_at(&self, char_idx: usize) -> Option<Chars<'_>>
        ensures { GivesWithin char_idx (length self.now.text) result
            (λ chars. chars ≡ at_place self.now.text char_idx) }
    {
        self.whole().get_chars_at(char_idx)
    }

    /// Returns a cursor as `chunks_at_byte` does, or `None` exactly if the index is past
    /// `len_bytes()`. With the text `"ab"`, `get_chunks_at_byte(3)` is `None`.
    pub fn get_chunks_at_byte(&self, byte_idx: usize) -> Option<ChunksAt<'_>>
        ensures { GivesWithin byte_idx (byte_len self.now.text) result
            (StandsBefore (content self.now) (chunk_place_at_byte self.now.chunks byte_idx)) }
    {
        self.whole().get_chunks_at_byte(byte_idx)
    }

    /// Returns a cursor as `chunks_at_char` does, or `None` exactly if the index is past
    /// `len_chars()`. With the text `"ab"`, `get_chunks_at_char(3)` is `None`.
    pub fn get_chunks_at_char(&self, char_idx: usize) -> Option<ChunksAt<'_>>
        ensures { GivesWithin char_idx (length self.now.text) result
            (StandsBefore (content self.now) (chunk_place_at_char self.now.chunks char_idx)) }
    {
        self.whole().get_chunks_at_char(char_idx)
    }

    /// Returns a cursor as `chunks_at_line_break` does, or `None` exactly if the index is past
    /// `len_lines()`. With the text `"ab"`, `get_chunks_at_line_break(2)` is `None`.
    pub fn get_chunks_at_line_break(&self, line_break_idx: usize) -> Option<ChunksAt<'_>>
        ensures { GivesWithin line_break_idx (line_count self.now.breaks self.now.text) result
            (StandsBefore (content self.now)
            (chunk_place_at_line_break self.now.breaks self.now.chunks line_break_idx)) }
    {
        self.whole().get_chunks_at_line_break(line_break_idx)
    }

    /// Returns the line `line_idx`, with its line break, or `None` exactly if the index is
    /// `len_lines()` or more. Costs at most two lookups, and counts the line. With the text `"ab"`,
    /// `get_line(1)` is `None`.
    pub fn get_line(&self, line_idx: usize) -> Option<RopeSlice<'_>>
        ensures { MatchOption result (line_count self.now.breaks self.now.text ≤ line_idx)
            (λ slice. (line_idx < line_count self.now.breaks self.now.text)
            × (content_of slice ≡ line_of (content self.now) line_idx)) }
    {
        self.whole().get_line(line_idx)
    }

    /// Returns a cursor as `lines_at` does, or `None` exactly if the index is past `len_lines()`.
    /// With the text `"ab"`, `get_lines_at(2)` is `None`.
    pub fn get_lines_at(&self, line_idx: usize) -> Option<Lines<'_>>
        ensures { GivesWithin line_idx (line_count self.now.breaks self.now.text) result
            (λ lines. lines ≡ at_place (lines_of (content self.now)) line_idx) }
    {
        self.whole().get_lines_at(line_idx)
    }
}
