//! Bytes, characters and chunks of a slice by their index, and conversions between indices of
//! bytes, characters, UTF-16 code units and lines. Indices begin at 0 at the slice's start. Each
//! call costs one or two lookups and takes no memory.
//!
//! Of the slice `1..3` of `"héllo"`, `char(0)` is `é`, and `chunk_at_char(1)` is `("él", 0, 0, 0)`.
//! For the slice `3..` of `"one\ntwo"`, `char_to_line(1)` is 1 and `line_to_char(1)` is 1: the
//! slice starts with the line break.
ghost use Rattle.std.specs.Prelude.{◌≡◌, ◌<◌, ◌≤◌, length, slice_get, Some, Err, MatchOption, IsOkAnd, OnSome, IfSome, IfNone, true};
ghost use Rattle.std.specs.Str.{chars, encode_utf8_all};
ghost use Rattle.rope_text.specs.Text.{byte_len, utf16_len};
ghost use Rattle.rope_text.specs.Lines.{line_count};
ghost use Rattle.rope_text.specs.Edit.{byte_index_error, char_index_error, line_index_error, utf16_index_error};
ghost use Rattle.rope_text.specs.Lookup.{chunk_index_at_byte, chunk_index_at_char, chunk_index_at_line_break};
ghost use Rattle.rope_slice.specs.Slice.{content_of, text_of, chunks_of, breaks_of};
ghost use Rattle.rope_slice.specs.Found.{GivesWithin, MayHold, ShowsChunk, chunk_index};
ghost use Rattle.rope_text.specs.Conversions.{byte_to_char, byte_to_line, char_to_byte, char_to_line, char_to_utf16, line_to_byte, line_to_char, utf16_to_char};
ghost use Rattle.rope_text.specs.Answer.{checked};
ghost use Rattle.rope_tree.specs.Conversions.{end_index, are_converted, converted};
ghost use Rattle.rope_slice.specs.Refusals.{index_error};

use crate::excerpt::Before;
use crate::path::Path;
use crate::slice::{RopeSlice, within};
use rope_text::str_utils::{byte_len_of, char_to_byte_idx, first_char};
use rope_text::{Error, Result, Steps};
use rope_tree::{Unit, byte_at, char_at, convert, convert_in, count, first_sought};

/// A chunk, and the numbers of bytes, characters and line breaks before it.
pub type ChunkAt<'a> = (&'a str, usize, usize, usize);

impl<'a> RopeSlice<'a> {
    /// Returns the byte `byte_idx`.
    ///
    /// The index is below `len_bytes()`. `RopeSlice::from("ab").byte(1)` is `b'b'`.
    pub fn byte(&self, byte_idx: usize) -> u8
        requires { byte_idx < byte_len (text_of self.now) }
        ensures { slice_get (encode_utf8_all (text_of self.now)) byte_idx ≡ Some result }
    {
        match self {
            RopeSlice::InTree(excerpt) => {
                let place = excerpt.place(Unit::Byte, byte_idx);
                byte_at(excerpt.node, place, &mut Steps::new())
            }
            RopeSlice::Alone(plain) => {
                let bytes = plain.as_str().as_bytes();
                bytes[byte_idx]
            }
        }
    }

    /// Returns the character `char_idx`.
    ///
    /// The index is below `len_chars()`. `RopeSlice::from("éa").char(1)` is `'a'`.
    pub fn char(&self, char_idx: usize) -> char
        requires { char_idx < length (text_of self.now) }
        ensures { slice_get (text_of self.now) char_idx ≡ Some result }
    {
        match self {
            RopeSlice::InTree(excerpt) => {
                let place = excerpt.place(Unit::Char, char_idx);
                char_at(excerpt.node, place, &mut Steps::new())
            }
            RopeSlice::Alone(plain) => {
                let text = plain.as_str();
                first_char(&text[char_to_byte_idx(text, char_idx)..])
            }
        }
    }

    // Returns the chunk that contains a byte, a character, or the last character of a line break;
    // at the end of the text the last chunk. Also returns the numbers of bytes, characters and line
    // breaks that end before it. With no chunk the result is the empty text and zeros. Inlined: the
    // unit is a constant at most calls, and a search for one unit has no test for it.
    #[inline(always)]
    fn chunk_at(&self, unit: Unit, idx: usize) -> ChunkAt<'a>
        requires { MayHold unit (breaks_of self.now) (text_of self.now) idx }
        ensures { ShowsChunk (content_of self.now)
            (chunk_index unit (breaks_of self.now) (chunks_of self.now) idx) result }
    {
        match self {
            RopeSlice::InTree(excerpt) => {
                let place = excerpt.place(unit, idx).min(count(excerpt.end, unit) - 1);
                let (_, found) = Path::at(excerpt.node, unit, place);
                let leaf = found.leaf.as_str();
                let before = found.before;
                let start = excerpt.start;
                let from = start.bytes.saturating_sub(before.bytes);
                let to = (excerpt.end.bytes - before.bytes).min(leaf.len());
                let passed = Before::since(before, start);
                (
                    &leaf[from..to],
                    passed.bytes,
                    passed.chars,
                    passed.break_count,
                )
            }
            RopeSlice::Alone(plain) => (plain.text, 0, 0, 0),
        }
    }

    // Calls `chunk_at`, for callers that are to stay small.
    #[inline(never)]
    fn chunk_apart(&self, unit: Unit, idx: usize) -> ChunkAt<'a>
        requires { MayHold unit (breaks_of self.now) (text_of self.now) idx }
        ensures { ShowsChunk (content_of self.now)
            (chunk_index unit (breaks_of self.now) (chunks_of self.now) idx) result }
    {
        self.chunk_at(unit, idx)
    }

    /// Returns the chunk that contains the byte `byte_idx`, and at the end of the text the last
    /// chunk. Also returns the numbers of bytes, characters and line breaks that end before the
    /// chunk; for an empty slice `("", 0, 0, 0)`.
    ///
    /// The index is at most `len_bytes()`. `RopeSlice::from("ab").chunk_at_byte(1)` is `("ab", 0,
    /// 0, 0)`.
    #[inline(always)]
    pub fn chunk_at_byte(&self, byte_idx: usize) -> ChunkAt<'a>
        requires { byte_idx ≤ byte_len (text_of self.now) }
        ensures { ShowsChunk (content_of self.now)
            (chunk_index_at_byte (chunks_of self.now) byte_idx) result }
    {
        self.chunk_at(Unit::Byte, byte_idx)
    }

    /// Returns the chunk that contains the character `char_idx`, and at the end of the text the
    /// last chunk. Also returns the numbers of bytes, characters and line breaks that end before
    /// the chunk; for an empty slice `("", 0, 0, 0)`.
    ///
    /// The index is at most `len_chars()`. `RopeSlice::from("éb").chunk_at_char(1)` is `("éb", 0,
    /// 0, 0)`.
    #[inline(always)]
    pub fn chunk_at_char(&self, char_idx: usize) -> ChunkAt<'a>
        requires { char_idx ≤ length (text_of self.now) }
        ensures { ShowsChunk (content_of self.now)
            (chunk_index_at_char (chunks_of self.now) char_idx) result }
    {
        self.chunk_at(Unit::Char, char_idx)
    }

    /// Returns the first chunk that ends after `line_break_idx` line breaks, or else the last
    /// chunk. Also returns the numbers of bytes, characters and line breaks that end before the
    /// chunk; for an empty slice `("", 0, 0, 0)`.
    ///
    /// The index is at most `len_lines()`. `RopeSlice::from("a\n").chunk_at_line_break(1)` is
    /// `("a\n", 0, 0, 0)`.
    pub fn chunk_at_line_break(&self, line_break_idx: usize) -> ChunkAt<'a>
        requires { line_break_idx ≤ line_count (breaks_of self.now) (text_of self.now) }
        ensures { ShowsChunk (content_of self.now)
            (chunk_index_at_line_break (breaks_of self.now) (chunks_of self.now) line_break_idx)
            result }
    {
        let info = self.info();
        if line_break_idx == 0 {
            return self.chunk_apart(Unit::Char, 0);
        }
        if line_break_idx > info.break_count {
            return self.chunk_apart(Unit::Char, info.chars.saturating_sub(1));
        }
        self.chunk_at(Unit::LineBreak, line_break_idx - 1)
    }

    /// Returns the whole text if the slice has at most one chunk, else `None`. Costs at most two
    /// lookups.
    ///
    /// `RopeSlice::from("ab").as_str()` is `Some("ab")`.
    #[inline(always)]
    pub fn as_str(&self) -> Option<&'a str>
        ensures one { OnSome result (length (chunks_of self.now) ≤ 1) }
        ensures more { IfNone result (1 < length (chunks_of self.now)) }
        ensures value { IfSome result (λ s. chars s.now ≡ text_of self.now) }
    {
        match self {
            RopeSlice::InTree(_) => self.only_chunk(),
            RopeSlice::Alone(plain) => Some(plain.text),
        }
    }

    // Returns the text of the only chunk, if there is at most one. The slice is passed by value: by
    // reference, a caller would have to keep each line in memory for it, also a plain text.
    #[inline(never)]
    fn only_chunk(self) -> Option<&'a str>
        ensures one { OnSome result (length (chunks_of self.entry) ≤ 1) }
        ensures more { IfNone result (1 < length (chunks_of self.entry)) }
        ensures value { IfSome result (λ s. chars s.now ≡ text_of self.entry) }
    {
        let len = self.info().bytes;
        let (chunk, ..) = self.chunk_at(Unit::Char, 0);
        (byte_len_of(chunk) == len).then_some(chunk)
    }

    /// Returns the byte `byte_idx`, or `None` exactly if the index is `len_bytes()` or more.
    /// `RopeSlice::from("ab").get_byte(2)` is `None`.
    pub fn get_byte(&self, byte_idx: usize) -> Option<u8>
        ensures { result ≡ slice_get (encode_utf8_all (text_of self.now)) byte_idx }
    {
        if byte_idx >= self.len_bytes() {
            return None;
        }
        Some(self.byte(byte_idx))
    }

    /// Returns the character `char_idx`, or `None` exactly if the index is `len_chars()` or more.
    /// `RopeSlice::from("ab").get_char(2)` is `None`.
    pub fn get_char(&self, char_idx: usize) -> Option<char>
        ensures { result ≡ slice_get (text_of self.now) char_idx }
    {
        let last = self.len_chars().checked_sub(1)?;
        Some(self.char(within(char_idx, last)?))
    }

    /// Returns a chunk as `chunk_at_byte` does, for any index.
    ///
    /// `RopeSlice::from("ab").try_chunk_at_byte(3)` is `Err(Error::ByteIndexOutOfBounds(3, 2))`.
    ///
    /// # Errors
    ///
    /// `ByteIndexOutOfBounds`, with the index and the number of bytes, exactly if the index is past
    /// `len_bytes()`.
    pub fn try_chunk_at_byte(&self, byte_idx: usize) -> Result<ChunkAt<'a>>
        ensures { MatchOption (byte_index_error byte_idx (byte_len (text_of self.now)))
            (IsOkAnd result (ShowsChunk (content_of self.now)
            (chunk_index_at_byte (chunks_of self.now) byte_idx)))
            (λ fault. result ≡ Err fault) }
    {
        let len = self.len_bytes();
        let idx = within(byte_idx, len).ok_or(Error::ByteIndexOutOfBounds(byte_idx, len))?;
        Ok(self.chunk_at_byte(idx))
    }

    /// Returns a chunk as `chunk_at_char` does, or `None` exactly if the index is past
    /// `len_chars()`. `RopeSlice::from("ab").get_chunk_at_char(3)` is `None`.
    pub fn get_chunk_at_char(&self, char_idx: usize) -> Option<ChunkAt<'a>>
        ensures { GivesWithin char_idx (length (text_of self.now)) result
            (ShowsChunk (content_of self.now) (chunk_index_at_char (chunks_of self.now) char_idx)) }
    {
        if char_idx > self.len_chars() {
            return None;
        }
        Some(self.chunk_at_char(char_idx))
    }

    /// Returns a chunk as `chunk_at_line_break` does, or `None` exactly if the index is past
    /// `len_lines()`. `RopeSlice::from("ab").get_chunk_at_line_break(2)` is `None`.
    pub fn get_chunk_at_line_break(&self, line_break_idx: usize) -> Option<ChunkAt<'a>>
        ensures { GivesWithin line_break_idx (line_count (breaks_of self.now) (text_of self.now))
            result (ShowsChunk (content_of self.now)
            (chunk_index_at_line_break (breaks_of self.now) (chunks_of self.now) line_break_idx)) }
    {
        if line_break_idx > self.len_lines() {
            return None;
        }
        Some(self.chunk_at_line_break(line_break_idx))
    }

    // Converts an index in the unit `from` to one in the unit `to`: the character that contains the
    // byte or the code unit, the line that contains the position, or the position at which the line
    // starts. The index may be that of the end; for lines that is the one past the last.
    #[inline(always)]
    fn convert(&self, from: Unit, to: Unit, idx: usize) -> usize
        requires units { are_converted from to ≡ true }
        requires within { idx ≤ end_index from (breaks_of self.now) (text_of self.now) }
        ensures { result ≡ converted from to (breaks_of self.now) (text_of self.now) idx }
    {
        match self {
            // The tree's result, minus the counts before the start. If a slice ends between CR and
            // LF, its last line starts at that end, while the tree's line starts after the LF: so
            // the result is limited to the end.
            RopeSlice::InTree(excerpt) => {
                let first = first_sought(from);
                if idx < first {
                    return 0;
                }
                let place = excerpt.place(from, idx);
                let start = count(excerpt.start, to);
                let end = count(excerpt.end, to);
                if place - first == count(excerpt.end, from) {
                    return end - start;
                }
                convert(excerpt.node, from, to, place, &mut Steps::new()).min(end) - start
            }
            RopeSlice::Alone(plain) => {
                convert_in(plain.as_str(), plain.info, plain.breaks, from, to, idx)
            }
        }
    }

    // Converts an index in the unit `from` to one in the unit `to`, or returns the index's error.
    #[inline(always)]
    fn try_convert(&self, from: Unit, to: Unit, idx: usize) -> Result<usize>
        requires { are_converted from to ≡ true }
        ensures { result ≡ checked
            (index_error from idx (end_index from (breaks_of self.now) (text_of self.now)))
            (converted from to (breaks_of self.now) (text_of self.now) idx) }
    {
        let len = count(self.info(), from) + first_sought(from);
        let error = match from {
            Unit::Byte => Error::ByteIndexOutOfBounds(idx, len),
            Unit::Char => Error::CharIndexOutOfBounds(idx, len),
            Unit::CodeUnit => Error::Utf16IndexOutOfBounds(idx, len),
            Unit::LineBreak => Error::LineIndexOutOfBounds(idx, len),
        };
        Ok(self.convert(from, to, within(idx, len).ok_or(error)?))
    }

    /// Returns the index of the character that contains the byte `byte_idx`, which may be inside
    /// the character; at the end of the text, the number of characters.
    ///
    /// The index is at most `len_bytes()`. `RopeSlice::from("éa").byte_to_char(1)` is 0.
    pub fn byte_to_char(&self, byte_idx: usize) -> usize
        requires { byte_idx ≤ byte_len (text_of self.now) }
        ensures { result ≡ byte_to_char (text_of self.now) byte_idx }
    {
        self.convert(Unit::Byte, Unit::Char, byte_idx)
    }

    /// Converts as `byte_to_char` does, for any index.
    ///
    /// `RopeSlice::from("éa").try_byte_to_char(4)` is `Err(Error::ByteIndexOutOfBounds(4, 3))`.
    ///
    /// # Errors
    ///
    /// `ByteIndexOutOfBounds`, with the index and the number of bytes, exactly if the index is past
    /// `len_bytes()`.
    pub fn try_byte_to_char(&self, byte_idx: usize) -> Result<usize>
        ensures { result ≡ checked (byte_index_error byte_idx (byte_len (text_of self.now)))
            (byte_to_char (text_of self.now) byte_idx) }
    {
        self.try_convert(Unit::Byte, Unit::Char, byte_idx)
    }

    /// Returns the line of the byte `byte_idx`: the number of line breaks that end at or before it.
    /// A byte inside a break of several bytes, such as between CR and LF, is on the line that the
    /// break ends.
    ///
    /// The index is at most `len_bytes()`. `RopeSlice::from("é\na").byte_to_line(3)` is 1.
    pub fn byte_to_line(&self, byte_idx: usize) -> usize
        requires { byte_idx ≤ byte_len (text_of self.now) }
        ensures { result ≡ byte_to_line (breaks_of self.now) (text_of self.now) byte_idx }
    {
        self.convert(Unit::Byte, Unit::LineBreak, byte_idx)
    }

    /// Converts as `byte_to_line` does, for any index.
    ///
    /// `RopeSlice::from("éa").try_byte_to_line(4)` is `Err(Error::ByteIndexOutOfBounds(4, 3))`.
    ///
    /// # Errors
    ///
    /// `ByteIndexOutOfBounds`, with the index and the number of bytes, exactly if the index is past
    /// `len_bytes()`.
    pub fn try_byte_to_line(&self, byte_idx: usize) -> Result<usize>
        ensures { result ≡ checked (byte_index_error byte_idx (byte_len (text_of self.now)))
            (byte_to_line (breaks_of self.now) (text_of self.now) byte_idx) }
    {
        self.try_convert(Unit::Byte, Unit::LineBreak, byte_idx)
    }

    /// Returns the byte offset at which the character `char_idx` begins; at the end of the text,
    /// the number of bytes.
    ///
    /// The index is at most `len_chars()`. `RopeSlice::from("éa").char_to_byte(1)` is 2.
    pub fn char_to_byte(&self, char_idx: usize) -> usize
        requires { char_idx ≤ length (text_of self.now) }
        ensures { result ≡ char_to_byte (text_of self.now) char_idx }
    {
        self.convert(Unit::Char, Unit::Byte, char_idx)
    }

    /// Converts as `char_to_byte` does, for any index.
    ///
    /// `RopeSlice::from("éa").try_char_to_byte(3)` is `Err(Error::CharIndexOutOfBounds(3, 2))`.
    ///
    /// # Errors
    ///
    /// `CharIndexOutOfBounds`, with the index and the number of characters, exactly if the index is
    /// past `len_chars()`.
    pub fn try_char_to_byte(&self, char_idx: usize) -> Result<usize>
        ensures { result ≡ checked (char_index_error char_idx (length (text_of self.now)))
            (char_to_byte (text_of self.now) char_idx) }
    {
        self.try_convert(Unit::Char, Unit::Byte, char_idx)
    }

    /// Returns the line of the character `char_idx`: the number of line breaks that end at or
    /// before it. An index between CR and LF is on the line that they end.
    ///
    /// The index is at most `len_chars()`. `RopeSlice::from("é\na").char_to_line(2)` is 1.
    pub fn char_to_line(&self, char_idx: usize) -> usize
        requires { char_idx ≤ length (text_of self.now) }
        ensures { result ≡ char_to_line (breaks_of self.now) (text_of self.now) char_idx }
    {
        self.convert(Unit::Char, Unit::LineBreak, char_idx)
    }

    /// Converts as `char_to_line` does, for any index.
    ///
    /// `RopeSlice::from("éa").try_char_to_line(3)` is `Err(Error::CharIndexOutOfBounds(3, 2))`.
    ///
    /// # Errors
    ///
    /// `CharIndexOutOfBounds`, with the index and the number of characters, exactly if the index is
    /// past `len_chars()`.
    pub fn try_char_to_line(&self, char_idx: usize) -> Result<usize>
        ensures { result ≡ checked (char_index_error char_idx (length (text_of self.now)))
            (char_to_line (breaks_of self.now) (text_of self.now) char_idx) }
    {
        self.try_convert(Unit::Char, Unit::LineBreak, char_idx)
    }

    /// Returns the index of the first UTF-16 code unit of the character `char_idx`; at the end of
    /// the text, the number of code units.
    ///
    /// The index is at most `len_chars()`. `RopeSlice::from("😀a").char_to_utf16_cu(1)` is 2.
    pub fn char_to_utf16_cu(&self, char_idx: usize) -> usize
        requires { char_idx ≤ length (text_of self.now) }
        ensures { result ≡ char_to_utf16 (text_of self.now) char_idx }
    {
        self.convert(Unit::Char, Unit::CodeUnit, char_idx)
    }

    /// Converts as `char_to_utf16_cu` does, for any index.
    ///
    /// `RopeSlice::from("éa").try_char_to_utf16_cu(3)` is `Err(Error::CharIndexOutOfBounds(3, 2))`.
    ///
    /// # Errors
    ///
    /// `CharIndexOutOfBounds`, with the index and the number of characters, exactly if the index is
    /// past `len_chars()`.
    pub fn try_char_to_utf16_cu(&self, char_idx: usize) -> Result<usize>
        ensures { result ≡ checked (char_index_error char_idx (length (text_of self.now)))
            (char_to_utf16 (text_of self.now) char_idx) }
    {
        self.try_convert(Unit::Char, Unit::CodeUnit, char_idx)
    }

    /// Returns the index of the character that contains the UTF-16 code unit `utf16_cu_idx`, which
    /// may be the second half of a surrogate pair; at the end of the text, the number of
    /// characters.
    ///
    /// The index is at most `len_utf16_cu()`. `RopeSlice::from("😀a").utf16_cu_to_char(1)` is 0.
    pub fn utf16_cu_to_char(&self, utf16_cu_idx: usize) -> usize
        requires { utf16_cu_idx ≤ utf16_len (text_of self.now) }
        ensures { result ≡ utf16_to_char (text_of self.now) utf16_cu_idx }
    {
        self.convert(Unit::CodeUnit, Unit::Char, utf16_cu_idx)
    }

    /// Converts as `utf16_cu_to_char` does, for any index.
    ///
    /// `RopeSlice::from("😀a").try_utf16_cu_to_char(4)` is
    /// `Err(Error::Utf16IndexOutOfBounds(4, 3))`.
    ///
    /// # Errors
    ///
    /// `Utf16IndexOutOfBounds`, with the index and the number of code units, exactly if the index
    /// is past `len_utf16_cu()`.
    pub fn try_utf16_cu_to_char(&self, utf16_cu_idx: usize) -> Result<usize>
        ensures { result ≡ checked (utf16_index_error utf16_cu_idx (utf16_len (text_of self.now)))
            (utf16_to_char (text_of self.now) utf16_cu_idx) }
    {
        self.try_convert(Unit::CodeUnit, Unit::Char, utf16_cu_idx)
    }

    /// Returns the byte offset at which the line `line_idx` starts; for `len_lines()`, the end of
    /// the text.
    ///
    /// The index is at most `len_lines()`. `RopeSlice::from("é\na").line_to_byte(1)` is 3.
    pub fn line_to_byte(&self, line_idx: usize) -> usize
        requires { line_idx ≤ line_count (breaks_of self.now) (text_of self.now) }
        ensures { result ≡ line_to_byte (breaks_of self.now) (text_of self.now) line_idx }
    {
        self.convert(Unit::LineBreak, Unit::Byte, line_idx)
    }

    /// Converts as `line_to_byte` does, for any index.
    ///
    /// `RopeSlice::from("é\na").try_line_to_byte(3)` is `Err(Error::LineIndexOutOfBounds(3, 2))`.
    ///
    /// # Errors
    ///
    /// `LineIndexOutOfBounds`, with the index and the number of lines, exactly if the index is past
    /// `len_lines()`.
    pub fn try_line_to_byte(&self, line_idx: usize) -> Result<usize>
        ensures { result ≡ checked
            (line_index_error line_idx (line_count (breaks_of self.now) (text_of self.now)))
            (line_to_byte (breaks_of self.now) (text_of self.now) line_idx) }
    {
        self.try_convert(Unit::LineBreak, Unit::Byte, line_idx)
    }

    /// Returns the index of the first character of the line `line_idx`; for `len_lines()`, the end
    /// of the text.
    ///
    /// The index is at most `len_lines()`. `RopeSlice::from("é\na").line_to_char(1)` is 2.
    pub fn line_to_char(&self, line_idx: usize) -> usize
        requires { line_idx ≤ line_count (breaks_of self.now) (text_of self.now) }
        ensures { result ≡ line_to_char (breaks_of self.now) (text_of self.now) line_idx }
    {
        self.convert(Unit::LineBreak, Unit::Char, line_idx)
    }

    /// Converts as `line_to_char` does, for any index.
    ///
    /// `RopeSlice::from("é\na").try_line_to_char(3)` is `Err(Error::LineIndexOutOfBounds(3, 2))`.
    ///
    /// # Errors
    ///
    /// `LineIndexOutOfBounds`, with the index and the number of lines, exactly if the index is past
    /// `len_lines()`.
    pub fn try_line_to_char(&self, line_idx: usize) -> Result<usize>
        ensures { result ≡ checked
            (line_index_error line_idx (line_count (breaks_of self.now) (text_of self.now)))
            (line_to_char (breaks_of self.now) (text_of self.now) line_idx) }
    {
        self.try_convert(Unit::LineBreak, Unit::Char, line_idx)
    }
}
