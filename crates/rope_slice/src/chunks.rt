//! A cursor over the chunks of a slice. A start costs one lookup. No call takes memory.
ghost use Rattle.std.specs.Prelude.{◌≡◌, ◌≤◌, length, List, ⊤};
ghost use Rattle.std.specs.Bool.{MatchBool};
ghost use Rattle.std.specs.Str.{chars};
ghost use Rattle.std.specs.Iterator.{YieldsFirstBy, item_count};
ghost use Rattle.rope_text.specs.Cutting.{IsCutting};
ghost use Rattle.rope_text.specs.Text.{byte_len};
ghost use Rattle.rope_text.specs.Lines.{line_count};
ghost use Rattle.rope_text.specs.Lookup.{chunk_place_at_byte, chunk_place_at_char, chunk_place_at_line_break};
ghost use Rattle.rope_slice.specs.Found.{GivesWithin, StandsBefore};
ghost use Rattle.rope_text.specs.Sides.{ahead, at_start, turned, GoesRight, GoesLeft, GoesAhead, StepsBack};
ghost use Rattle.rope_slice.specs.Slice.{content_of, text_of, chunks_of, breaks_of};
ghost use Rattle.rope_slice.specs.Starts.{IsItem, size_in, chunk_place};

use crate::path::Heads;
use crate::slice::RopeSlice;
use crate::span::Span;
use rope_tree::{Unit, count};
use std::alloc::AllocError;
use std::marker::Model;

/// A cursor over chunks, and the numbers of bytes, characters and line breaks before it.
pub type ChunksAt<'a> = (Chunks<'a>, usize, usize, usize);

/// A cursor over the chunks of a slice.
///
/// It refers to a chunk and is before or past it. An empty slice has no chunk: its cursor refers to
/// an empty text that it never returns.
///
/// `Debug` prints whether it is past its chunk, and its direction, without text.
#[derive(Drop)]
#[derive_where(Debug)]
pub struct Chunks<'a> {
    #[derive_where(skip)]
    span: Span<'a>,
    is_empty: bool,
    is_past: bool,
    is_backward: bool,
}

impl<'a> Model for Chunks<'a> {
    ghost use Rattle.std.specs.Prelude.{ℕ, List};
    ghost use Rattle.rope_text.specs.Sides.{Sides};
    ghost use Rattle.rope_slice.specs.Chunks.{at_chunk};

    ghost Value = { Sides (List ℕ) };

    ghost view = { λ a. at_chunk a.span a.is_empty a.is_past a.is_backward };
}

impl<'a> RopeSlice<'a> {
    // Returns a cursor before the chunk that contains a byte or a character, facing forward; at the
    // end of the text past the last chunk. Also returns the numbers of bytes, characters and line
    // breaks before it. Inlined: the unit is a constant at each call, and for a slice of one chunk
    // the cursor is its text and two flags.
    #[inline(always)]
    fn chunks_from(&self, unit: Unit, idx: usize) -> ChunksAt<'a>
        requires unit { IsItem unit }
        requires within { idx ≤ size_in unit (text_of self.now) }
        ensures stands { StandsBefore (content_of self.now)
            (chunk_place unit (chunks_of self.now) idx) result }
        ensures cut { IsCutting (text_of self.now) (chunks_of self.now) }
    {
        let info = self.info();
        let (span, before) = Span::holding(self, unit, idx);
        let is_past = idx == count(info, unit);
        let chunks = Chunks {
            span,
            is_empty: info.chars == 0,
            is_past,
            is_backward: false,
        };
        if is_past {
            return (chunks, info.bytes, info.chars, info.break_count);
        }
        (chunks, before.bytes, before.chars, before.break_count)
    }

    /// Returns a cursor before the first chunk, facing forward.
    ///
    /// `RopeSlice::from("ab").chunks().next()` is `Some("ab")`.
    #[inline(always)]
    pub fn chunks(&self) -> Chunks<'a>
        ensures { result ≡ at_start (chunks_of self.now) }
    {
        self.chunks_from(Unit::Char, 0).0
    }

    /// Returns a cursor before the chunk that contains the byte `byte_idx`, facing forward; for
    /// `len_bytes()` it is past the last chunk. Also returns the numbers of bytes, characters and
    /// line breaks that end before the cursor.
    ///
    /// The index is at most `len_bytes()`. For `"ab"`, `chunks_at_byte(2)` returns the numbers 2, 2
    /// and 0.
    #[inline(always)]
    pub fn chunks_at_byte(&self, byte_idx: usize) -> ChunksAt<'a>
        requires { byte_idx ≤ byte_len (text_of self.now) }
        ensures { StandsBefore (content_of self.now)
            (chunk_place_at_byte (chunks_of self.now) byte_idx) result }
    {
        self.chunks_from(Unit::Byte, byte_idx)
    }

    /// Returns a cursor before the chunk that contains the character `char_idx`, facing forward;
    /// for `len_chars()` it is past the last chunk. Also returns the numbers of bytes, characters
    /// and line breaks that end before the cursor.
    ///
    /// The index is at most `len_chars()`. For `"éb"`, `chunks_at_char(2)` returns the numbers 3, 2
    /// and 0.
    #[inline(always)]
    pub fn chunks_at_char(&self, char_idx: usize) -> ChunksAt<'a>
        requires { char_idx ≤ length (text_of self.now) }
        ensures { StandsBefore (content_of self.now)
            (chunk_place_at_char (chunks_of self.now) char_idx) result }
    {
        self.chunks_from(Unit::Char, char_idx)
    }

    /// Returns a cursor before the first chunk that ends after `line_break_idx` line breaks, or
    /// else before the last, facing forward; for `len_lines()` it is past the last chunk. Also
    /// returns the numbers of bytes, characters and line breaks that end before the cursor.
    ///
    /// The index is at most `len_lines()`. For `"a\nb"`, `chunks_at_line_break(2)` returns the
    /// numbers 3, 3 and 1.
    #[inline(always)]
    pub fn chunks_at_line_break(&self, line_break_idx: usize) -> ChunksAt<'a>
        requires { line_break_idx ≤ line_count (breaks_of self.now) (text_of self.now) }
        ensures { StandsBefore (content_of self.now)
            (chunk_place_at_line_break (breaks_of self.now) (chunks_of self.now) line_break_idx)
            result }
    {
        let info = self.info();
        if line_break_idx == 0 {
            return self.chunks_from(Unit::Char, 0);
        }
        if line_break_idx > info.break_count {
            return self.chunks_from(Unit::Char, info.chars);
        }
        let (span, front) = Span::at_break(self, line_break_idx);
        let chunks = Chunks {
            span,
            is_empty: info.chars == 0,
            is_past: false,
            is_backward: false,
        };
        (chunks, front.bytes, front.chars, front.break_count)
    }

    /// Returns a cursor as `chunks_at_byte` does, or `None` exactly if the index is past
    /// `len_bytes()`. `RopeSlice::from("ab").get_chunks_at_byte(3)` is `None`.
    pub fn get_chunks_at_byte(&self, byte_idx: usize) -> Option<ChunksAt<'a>>
        ensures { GivesWithin byte_idx (byte_len (text_of self.now)) result
            (StandsBefore (content_of self.now)
            (chunk_place_at_byte (chunks_of self.now) byte_idx)) }
    {
        if byte_idx > self.len_bytes() {
            return None;
        }
        Some(self.chunks_at_byte(byte_idx))
    }

    /// Returns a cursor as `chunks_at_char` does, or `None` exactly if the index is past
    /// `len_chars()`. `RopeSlice::from("ab").get_chunks_at_char(3)` is `None`.
    pub fn get_chunks_at_char(&self, char_idx: usize) -> Option<ChunksAt<'a>>
        ensures { GivesWithin char_idx (length (text_of self.now)) result
            (StandsBefore (content_of self.now)
            (chunk_place_at_char (chunks_of self.now) char_idx)) }
    {
        if char_idx > self.len_chars() {
            return None;
        }
        Some(self.chunks_at_char(char_idx))
    }

    /// Returns a cursor as `chunks_at_line_break` does, or `None` exactly if the index is past
    /// `len_lines()`. `RopeSlice::from("ab").get_chunks_at_line_break(2)` is `None`.
    pub fn get_chunks_at_line_break(&self, line_break_idx: usize) -> Option<ChunksAt<'a>>
        ensures { GivesWithin line_break_idx (line_count (breaks_of self.now) (text_of self.now))
            result (StandsBefore (content_of self.now)
            (chunk_place_at_line_break (breaks_of self.now) (chunks_of self.now) line_break_idx)) }
    {
        if line_break_idx > self.len_lines() {
            return None;
        }
        Some(self.chunks_at_line_break(line_break_idx))
    }
}

impl<'a> Chunks<'a> {
    // Moves over one chunk to the left, or to the right.
    #[inline(always)]
    fn step(&mut self, is_left: bool) -> Option<&'a str>
        ensures { MatchBool is_left (GoesLeft (λ x. chars x.now) self.old result self.new)
            (GoesRight (λ x. chars x.now) self.old result self.new) }
    {
        if self.is_empty {
            return None;
        }
        if self.is_past != is_left && !self.span.step_inlined(is_left, Heads::Left) {
            return None;
        }
        self.is_past = !is_left;
        Some(self.span.chunk())
    }

    /// Moves back over one chunk and returns it, or returns `None` at that end.
    /// `RopeSlice::from("ab").chunks_at_byte(2).0.prev()` is `Some("ab")`.
    #[inline(always)]
    pub fn prev(&mut self) -> Option<&'a str>
        ensures { StepsBack (λ x. chars x.now) self.old result self.new }
    {
        self.step(!self.is_backward)
    }

    /// Reverses the direction: `next` and `prev` change roles. After it, `next` of
    /// `RopeSlice::from("ab").chunks_at_byte(2).0` is `Some("ab")`.
    pub fn reverse(&mut self)
        ensures { self.new ≡ turned self.old }
    {
        self.is_backward = !self.is_backward;
    }

    /// Returns the cursor with its direction reversed.
    /// `RopeSlice::from("ab").chunks_at_byte(2).0.reversed().next()` is `Some("ab")`.
    pub fn reversed(mut self) -> Chunks<'a>
        ensures { result ≡ turned self.entry }
    {
        self.reverse();
        self
    }
}

impl<'a> Iterator for Chunks<'a> {
    type Item = &'a str;

    ghost next_gives = { YieldsFirstBy (λ x. chars x.now) ahead };

    ghost remaining = { item_count ahead };

    /// Moves over the next chunk and returns it, or returns `None` at the end.
    #[inline(always)]
    fn next(&mut self) -> Option<&'a str>
        ensures steps { YieldsFirstBy (λ x. chars x.now) ahead self.old result self.new }
        ensures goes { GoesAhead (λ x. chars x.now) self.old result self.new }
    {
        self.step(self.is_backward)
    }
}

impl<'a> Clone for Chunks<'a> {
    ghost is_clone = { λ a b. b ≡ a };

    ghost is_infallible = { λ _. ⊤ };

    fn clone(&self) -> Result<Chunks<'a>, AllocError> {
        let span = self.span.copy();
        Ok(Chunks { span, ..*self })
    }
}
