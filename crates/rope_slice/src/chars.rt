//! A cursor over the characters of a slice. A start costs one lookup, a step at the end of a chunk
//! up to one. No call takes memory.
ghost use Rattle.std.specs.Prelude.{◌≡◌, ℕ, ◌≤◌, length, ⊤};
ghost use Rattle.std.specs.Iterator.{YieldsFirstBy, item_count};
ghost use Rattle.rope_slice.specs.Found.{GivesWithin};
ghost use Rattle.rope_text.specs.Sides.{ahead, at_start, at_place, turned, GoesRight, GoesLeft, GoesAhead, StepsBack};
ghost use Rattle.rope_slice.specs.Slice.{text_of};
ghost use Rattle.rope_slice.specs.Hints.{CountsAhead};

use crate::point::{char_after, char_before, step_chunk};
use crate::slice::{RopeSlice, within};
use crate::span::Span;
use std::alloc::AllocError;
use std::iter::ExactSizeIterator;
use std::marker::Model;

/// A cursor between two characters of a slice.
///
/// `Debug` prints its position and direction, without text.
#[derive(Drop)]
#[derive_where(Debug)]
pub struct Chars<'a> {
    #[derive_where(skip)]
    span: Span<'a>,
    // the span's chunk, kept here so that a step within it reads only the character
    #[derive_where(skip)]
    chunk: &'a str,
    // the bytes of the chunk before the cursor; the characters of the text before it, and all of
    // them
    #[derive_where(skip)]
    at: usize,
    passed: usize,
    total: usize,
    is_backward: bool,
}

impl<'a> Model for Chars<'a> {
    ghost use Rattle.std.specs.Prelude.{ℕ};
    ghost use Rattle.rope_text.specs.Sides.{Sides};
    ghost use Rattle.rope_slice.specs.Chars.{at_char, IsCharCursor};

    ghost Value = { Sides ℕ };

    ghost view = { λ a. at_char a.span a.chunk.now a.at a.is_backward };

    ghost invariant = { λ a. IsCharCursor a.span a.chunk.now a.at a.passed a.total };
}

impl<'a> RopeSlice<'a> {
    /// Returns a cursor before the first character, facing forward.
    ///
    /// `RopeSlice::from("éa").chars().next()` is `Some('é')`.
    #[inline(always)]
    pub fn chars(&self) -> Chars<'a>
        ensures { result ≡ at_start (text_of self.now) }
    {
        self.chars_at(0)
    }

    /// Returns a cursor before the character `char_idx`, facing forward; for `len_chars()` it is
    /// past the last character.
    ///
    /// The index is at most `len_chars()`. `RopeSlice::from("éa").chars_at(1).next()` is
    /// `Some('a')`.
    #[inline(always)]
    pub fn chars_at(&self, char_idx: usize) -> Chars<'a>
        requires { char_idx ≤ length (text_of self.now) }
        ensures { result ≡ at_place (text_of self.now) char_idx }
    {
        let info = self.info();
        let (span, at) = Span::at(self, info, char_idx);
        let chunk = span.chunk();
        Chars {
            span,
            chunk,
            at,
            passed: char_idx,
            total: info.chars,
            is_backward: false,
        }
    }

    /// Returns a cursor as `chars_at` does, or `None` exactly if the index is past `len_chars()`.
    /// `RopeSlice::from("éa").get_chars_at(3)` is `None`.
    pub fn get_chars_at(&self, char_idx: usize) -> Option<Chars<'a>>
        ensures { GivesWithin char_idx (length (text_of self.now)) result
            (λ chars. chars ≡ at_place (text_of self.now) char_idx) }
    {
        Some(self.chars_at(within(char_idx, self.len_chars())?))
    }
}

impl<'a> Chars<'a> {
    // Moves over one character to the right. Inlined: it mostly stays in the chunk, where a call
    // would cost as much as the step.
    #[inline(always)]
    fn right(&mut self) -> Option<char>
        ensures { GoesRight (λ x. x) self.old result self.new }
    {
        let at = self.at;
        let total = self.total;
        if at < self.chunk.len() {
            let (c, end) = char_after(self.chunk, at);
            self.at = end;
            self.passed += 1;
            return Some(c);
        }
        if self.passed == total {
            return None;
        }
        let (chunk, _) = step_chunk(&mut self.span, false)?;
        let (c, end) = char_after(chunk, 0);
        self.chunk = chunk;
        self.at = end;
        self.passed += 1;
        Some(c)
    }

    // Moves over one character to the left.
    #[inline(always)]
    fn left(&mut self) -> Option<char>
        ensures { GoesLeft (λ x. x) self.old result self.new }
    {
        let at = self.at;
        if at > 0 {
            let (c, start) = char_before(self.chunk, at);
            self.at = start;
            self.passed -= 1;
            return Some(c);
        }
        if self.passed == 0 {
            return None;
        }
        let (chunk, _) = step_chunk(&mut self.span, true)?;
        let (c, start) = char_before(chunk, chunk.len());
        self.chunk = chunk;
        self.at = start;
        self.passed -= 1;
        Some(c)
    }

    /// Moves back over one character and returns it, or returns `None` at that end.
    /// `RopeSlice::from("éa").chars_at(1).prev()` is `Some('é')`.
    #[inline(always)]
    pub fn prev(&mut self) -> Option<char>
        ensures { StepsBack (λ x. x) self.old result self.new }
    {
        if self.is_backward {
            self.right()
        } else {
            self.left()
        }
    }

    /// Reverses the direction: `next` and `prev` change roles. After it, `next` of
    /// `RopeSlice::from("éa").chars_at(1)` is `Some('é')`.
    pub fn reverse(&mut self)
        ensures { self.new ≡ turned self.old }
    {
        self.is_backward = !self.is_backward;
    }

    /// Returns the cursor with its direction reversed.
    /// `RopeSlice::from("éa").chars_at(1).reversed().next()` is `Some('é')`.
    pub fn reversed(mut self) -> Chars<'a>
        ensures { result ≡ turned self.entry }
    {
        self.reverse();
        self
    }
}

impl<'a> Iterator for Chars<'a> {
    type Item = char;

    ghost next_gives = { YieldsFirstBy (λ x. x) ahead };

    ghost remaining = { item_count ahead };

    /// Moves over the next character and returns it, or returns `None` at the end.
    #[inline(always)]
    fn next(&mut self) -> Option<char>
        ensures steps { YieldsFirstBy (λ x. x) ahead self.old result self.new }
        ensures goes { GoesAhead (λ x. x) self.old result self.new }
    {
        if self.is_backward {
            self.left()
        } else {
            self.right()
        }
    }

    /// Returns the exact number of characters left.
    fn size_hint(&self) -> (usize, Option<usize>)
        ensures { CountsAhead self.now result.0 result.1 }
    {
        (self.len(), Some(self.len()))
    }
}

impl<'a> ExactSizeIterator for Chars<'a> {
    /// Returns the number of characters left.
    fn len(&self) -> usize {
        let left = self.total - self.passed;
        if self.is_backward { self.passed } else { left }
    }
}

impl<'a> Clone for Chars<'a> {
    ghost is_clone = { λ a b. b ≡ a };

    ghost is_infallible = { λ _. ⊤ };

    fn clone(&self) -> Result<Chars<'a>, AllocError> {
        let span = self.span.copy();
        Ok(Chars { span, ..*self })
    }
}
