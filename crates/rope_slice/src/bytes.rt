//! A cursor over the bytes of a slice. A start costs one lookup, a step at the end of a chunk up to
//! one. No call takes memory.
ghost use Rattle.std.specs.Prelude.{◌≡◌, ℕ, ◌≤◌, ⊤};
ghost use Rattle.std.specs.Bool.{MatchBool};
ghost use Rattle.std.specs.Str.{encode_utf8_all};
ghost use Rattle.std.specs.Iterator.{YieldsFirstBy, item_count};
ghost use Rattle.rope_text.specs.Text.{byte_len};
ghost use Rattle.rope_slice.specs.Found.{GivesWithin};
ghost use Rattle.rope_text.specs.Sides.{ahead, at_start, at_place, turned, GoesRight, GoesLeft, GoesAhead, StepsBack};
ghost use Rattle.rope_slice.specs.Slice.{text_of};
ghost use Rattle.rope_slice.specs.Hints.{CountsAhead};

use crate::point::{end_of, step_chunk};
use crate::slice::RopeSlice;
use crate::span::Span;
use rope_tree::Unit;
use std::alloc::AllocError;
use std::iter::ExactSizeIterator;
use std::marker::Model;

/// A cursor between two bytes of a slice.
///
/// `Debug` prints its position and direction, without text.
#[derive(Drop)]
#[derive_where(Debug)]
pub struct Bytes<'a> {
    #[derive_where(skip)]
    span: Span<'a>,
    // the span's chunk, kept here so that a step within it is one read
    #[derive_where(skip)]
    chunk: &'a str,
    // the bytes before the chunk, those of the chunk before the cursor, and all of them
    before: usize,
    at: usize,
    total: usize,
    is_backward: bool,
}

impl<'a> Model for Bytes<'a> {
    ghost use Rattle.std.specs.Prelude.{ℕ};
    ghost use Rattle.rope_text.specs.Sides.{Sides};
    ghost use Rattle.rope_slice.specs.Bytes.{at_byte, IsByteCursor};

    ghost Value = { Sides ℕ };

    ghost view = { λ a. at_byte a.span a.chunk.now a.at a.is_backward };

    ghost invariant = { λ a. IsByteCursor a.span a.chunk.now a.at a.before a.total };
}

impl<'a> RopeSlice<'a> {
    /// Returns a cursor before the first byte, facing forward.
    ///
    /// `RopeSlice::from("ab").bytes().next()` is `Some(b'a')`.
    #[inline(always)]
    pub fn bytes(&self) -> Bytes<'a>
        ensures { result ≡ at_start (encode_utf8_all (text_of self.now)) }
    {
        self.bytes_at(0)
    }

    /// Returns a cursor before the byte `byte_idx`, facing forward; for `len_bytes()` it is past
    /// the last byte.
    ///
    /// The index is at most `len_bytes()`. `RopeSlice::from("ab").bytes_at(1).next()` is
    /// `Some(b'b')`.
    #[inline(always)]
    pub fn bytes_at(&self, byte_idx: usize) -> Bytes<'a>
        requires { byte_idx ≤ byte_len (text_of self.now) }
        ensures { result ≡ at_place (encode_utf8_all (text_of self.now)) byte_idx }
    {
        let total = self.info().bytes;
        let (span, start) = Span::holding(self, Unit::Byte, byte_idx);
        let chunk = span.chunk();
        Bytes {
            span,
            chunk,
            at: byte_idx - start.bytes,
            before: start.bytes,
            total,
            is_backward: false,
        }
    }

    /// Returns a cursor as `bytes_at` does, or `None` exactly if the index is past `len_bytes()`.
    /// `RopeSlice::from("ab").get_bytes_at(3)` is `None`.
    pub fn get_bytes_at(&self, byte_idx: usize) -> Option<Bytes<'a>>
        ensures { GivesWithin byte_idx (byte_len (text_of self.now)) result
            (λ bytes. bytes ≡ at_place (encode_utf8_all (text_of self.now)) byte_idx) }
    {
        if byte_idx > self.len_bytes() {
            return None;
        }
        Some(self.bytes_at(byte_idx))
    }
}

impl<'a> Bytes<'a> {
    // Moves over one byte to the left, or to the right.
    fn step(&mut self, is_left: bool) -> Option<u8>
        ensures { MatchBool is_left (GoesLeft (λ x. x) self.old result self.new)
            (GoesRight (λ x. x) self.old result self.new) }
    {
        if self.at == end_of(self.chunk.len(), is_left) {
            if end_of(self.total, is_left) == self.before + self.at {
                return None;
            }
            let (chunk, at) = step_chunk(&mut self.span, is_left)?;
            self.chunk = chunk;
            self.before = self.before + self.at - at;
            self.at = at;
        }
        let at = self.at;
        if is_left {
            self.at = at - 1;
            return Some(self.chunk.as_bytes()[at - 1]);
        }
        self.at = at + 1;
        Some(self.chunk.as_bytes()[at])
    }

    /// Moves back over one byte and returns it, or returns `None` at that end.
    /// `RopeSlice::from("ab").bytes_at(1).prev()` is `Some(b'a')`.
    #[inline(always)]
    pub fn prev(&mut self) -> Option<u8>
        ensures { StepsBack (λ x. x) self.old result self.new }
    {
        if self.is_backward {
            self.step(false)
        } else {
            self.step(true)
        }
    }

    /// Reverses the direction: `next` and `prev` change roles. After it, `next` of
    /// `RopeSlice::from("ab").bytes_at(1)` is `Some(b'a')`.
    pub fn reverse(&mut self)
        ensures { self.new ≡ turned self.old }
    {
        self.is_backward = !self.is_backward;
    }

    /// Returns the cursor with its direction reversed.
    /// `RopeSlice::from("ab").bytes_at(1).reversed().next()` is `Some(b'a')`.
    pub fn reversed(mut self) -> Bytes<'a>
        ensures { result ≡ turned self.entry }
    {
        self.reverse();
        self
    }
}

impl<'a> Iterator for Bytes<'a> {
    type Item = u8;

    ghost next_gives = { YieldsFirstBy (λ x. x) ahead };

    ghost remaining = { item_count ahead };

    /// Moves over the next byte and returns it, or returns `None` at the end.
    #[inline(always)]
    fn next(&mut self) -> Option<u8>
        ensures steps { YieldsFirstBy (λ x. x) ahead self.old result self.new }
        ensures goes { GoesAhead (λ x. x) self.old result self.new }
    {
        if self.is_backward {
            self.step(true)
        } else {
            self.step(false)
        }
    }

    /// Returns the exact number of bytes left.
    fn size_hint(&self) -> (usize, Option<usize>)
        ensures { CountsAhead self.now result.0 result.1 }
    {
        (self.len(), Some(self.len()))
    }
}

impl<'a> ExactSizeIterator for Bytes<'a> {
    /// Returns the number of bytes left.
    fn len(&self) -> usize {
        let left = self.total - self.before - self.at;
        let passed = self.total - left;
        if self.is_backward { passed } else { left }
    }
}

impl<'a> Clone for Bytes<'a> {
    ghost is_clone = { λ a b. b ≡ a };

    ghost is_infallible = { λ _. ⊤ };

    fn clone(&self) -> Result<Bytes<'a>, AllocError> {
        let span = self.span.copy();
        Ok(Bytes { span, ..*self })
    }
}
