//! A chunk of a slice, from which a cursor moves to the adjacent chunks. No step takes memory.
ghost use Rattle.std.specs.Prelude.{◌≡◌, ◌+◌, ◌-◌, ◌<◌, ◌≤◌, length, take};
ghost use Rattle.std.specs.Bool.{OnTrue, OnFalse};
ghost use Rattle.std.specs.List.{concat};
ghost use Rattle.std.specs.Str.{chars};
ghost use Rattle.rope_text.specs.Breaks.{break_count};
ghost use Rattle.rope_text.specs.Conversions.{char_to_byte};
ghost use Rattle.rope_text.specs.Lookup.{chunk_index_at_line_break};
ghost use Rattle.rope_text.specs.Text.{byte_len};
ghost use Rattle.rope_text.specs.Lines.{line_count};
ghost use Rattle.rope_text.specs.TextInfo.{info_of};
ghost use Rattle.rope_slice.specs.Edge.{line_info};
ghost use Rattle.rope_slice.specs.Slice.{content_of, text_of, chunks_of, breaks_of};
ghost use Rattle.rope_slice.specs.Path.{IsBeside, IsLast, leaves};
ghost use Rattle.rope_slice.specs.Span.{alone};
ghost use Rattle.rope_slice.specs.Starts.{AreBefore, IsItem, IsHolding, size_in};

use crate::excerpt::Before;
use crate::path::{Heads, TreeSpan};
use crate::slice::RopeSlice;
use rope_text::TextInfo;
use rope_text::str_utils::char_to_byte_idx;
use rope_tree::Unit;
use std::marker::Model;

/// A chunk of a slice, seen as the chunks before it, the chunk, and the chunks after it.
// A plain text has no path: none is filled or moved for the lines of a screen.
#[derive(Drop)]
pub(crate) struct Span<'a> {
    chunk: &'a str,
    descent: Option<TreeSpan<'a>>,
}

impl<'a> Model for Span<'a> {
    ghost use Rattle.std.specs.Prelude.{◌≡◌, IfSome};
    ghost use Rattle.std.specs.Str.{chars};
    ghost use Rattle.rope_slice.specs.Path.{Place};
    ghost use Rattle.rope_slice.specs.Span.{place_in};

    ghost Value = { Place };

    ghost view = { λ a. place_in (chars a.chunk.now) a.descent };

    ghost invariant = { λ a. IfSome a.descent (λ p. p.here ≡ chars a.chunk.now) };
}

impl<'a> Span<'a> {
    /// Returns the chunk of a slice that contains a byte or a character, and at the end of the text
    /// the last chunk. Also returns the numbers of bytes, characters and line breaks of the text
    /// before it. For an empty slice, which has no chunk, the chunk is the empty text.
    // Inlined, since a call would return the path through memory.
    #[inline(always)]
    pub(crate) fn holding(slice: &RopeSlice<'a>, unit: Unit, idx: usize) -> (Span<'a>, Before)
        requires unit { IsItem unit }
        requires within { idx ≤ size_in unit (text_of slice.now) }
        ensures { IsHolding unit idx (content_of slice.now)
            result.0 result.1.bytes result.1.chars result.1.break_count }
    {
        match slice {
            RopeSlice::InTree(excerpt) => {
                let (descent, before) = TreeSpan::holding(excerpt, unit, idx);
                let chunk = descent.chunk();
                let descent = Some(descent);
                (Span { chunk, descent }, before)
            }
            RopeSlice::Alone(plain) => Span::alone(plain.text),
        }
    }

    // Returns a plain text as the only chunk, with nothing before it.
    #[inline(always)]
    fn alone(chunk: &'a str) -> (Span<'a>, Before)
        ensures span { result.0 ≡ alone (chars chunk.now) }
        ensures bytes { result.1.bytes ≡ 0 }
        ensures chars { result.1.chars ≡ 0 }
        ensures break_count { result.1.break_count ≡ 0 }
    {
        let before = Before {
            bytes: 0,
            chars: 0,
            break_count: 0,
        };
        let descent = None;
        (Span { chunk, descent }, before)
    }

    /// Returns the chunk of a slice in which the line break before a line ends, and the numbers of
    /// bytes, characters and line breaks of the text before the chunk. The line is not the first.
    // Inlined, since a call would return the path through memory.
    #[inline(always)]
    pub(crate) fn at_break(slice: &RopeSlice<'a>, line_idx: usize) -> (Span<'a>, Before)
        requires later { 0 < line_idx }
        requires within { line_idx ≤ break_count (breaks_of slice.now) (text_of slice.now) }
        ensures text { concat (leaves result.0) ≡ text_of slice.now }
        ensures chunks { leaves result.0 ≡ chunks_of slice.now }
        ensures before { AreBefore (breaks_of slice.now) (text_of slice.now) result.0.before
            result.1.bytes result.1.chars result.1.break_count }
        ensures index { chunk_index_at_line_break (breaks_of slice.now) (chunks_of slice.now)
            line_idx ≡ length result.0.before }
    {
        match slice {
            RopeSlice::InTree(excerpt) => {
                let (descent, found) = TreeSpan::at_break(excerpt, line_idx);
                let before = Before::since(found.before, excerpt.start);
                let chunk = descent.chunk();
                let descent = Some(descent);
                (Span { chunk, descent }, before)
            }
            RopeSlice::Alone(plain) => Span::alone(plain.text),
        }
    }

    /// Returns the chunk of a slice that contains a character, and the byte of the chunk at which
    /// that character starts. At the end of the text it is the last chunk, and its end. For an
    /// empty slice, which has no chunk, the chunk is the empty text. The caller passes in the
    /// slice's counts.
    // Inlined, since a call would return the path through memory. ASCII: the byte index is the
    // character index, and no byte is read.
    #[inline(always)]
    pub(crate) fn at(slice: &RopeSlice<'a>, info: TextInfo, char_idx: usize) -> (Span<'a>, usize)
        requires info { info ≡ info_of (breaks_of slice.now) (text_of slice.now) }
        requires within { char_idx ≤ length (text_of slice.now) }
        ensures text { concat (leaves result.0) ≡ text_of slice.now }
        ensures chunks { 0 < length (text_of slice.now) → leaves result.0 ≡ chunks_of slice.now }
        ensures starts { length (concat result.0.before) ≤ char_idx }
        ensures within { char_idx ≤ length (concat result.0.before) + length result.0.here }
        ensures byte { result.1
            ≡ char_to_byte result.0.here (char_idx - length (concat result.0.before)) }
    {
        let (span, before) = Span::holding(slice, Unit::Char, char_idx);
        let within = char_idx - before.chars;
        let byte = if info.bytes == info.chars {
            within
        } else {
            char_to_byte_idx(span.chunk(), within)
        };
        (span, byte)
    }

    /// Returns the chunk of a slice that contains a position, or that ends at it, and the byte of
    /// the chunk at the position. The caller has the counts of the text before the position, so no
    /// byte is read.
    // Inlined, since a call would return the path through memory.
    #[inline(always)]
    pub(crate) fn at_counts(slice: &RopeSlice<'a>, before: TextInfo) -> (Span<'a>, usize)
        requires within { before.chars ≤ length (text_of slice.now) }
        requires bytes { before.bytes ≡ byte_len (take before.chars (text_of slice.now)) }
        ensures text { concat (leaves result.0) ≡ text_of slice.now }
        ensures chunks { 0 < length (text_of slice.now) → leaves result.0 ≡ chunks_of slice.now }
        ensures starts { length (concat result.0.before) ≤ before.chars }
        ensures within { before.chars
            ≤ length (concat result.0.before) + length result.0.here }
        ensures byte { result.1
            ≡ char_to_byte result.0.here (before.chars - length (concat result.0.before)) }
    {
        let (span, front) = Span::holding(slice, Unit::Byte, before.bytes);
        (span, before.bytes - front.bytes)
    }

    /// Returns the chunk of a slice that contains the start of a line, or that ends at it, the
    /// counts of the text before the line, and the byte of the chunk at its start. For the line
    /// past the last it is the end of the text.
    // Inlined, since a call would return the path through memory.
    #[inline(always)]
    pub(crate) fn at_line(slice: &RopeSlice<'a>, line_idx: usize) -> (Span<'a>, TextInfo, usize)
        requires within { line_idx ≤ line_count (breaks_of slice.now) (text_of slice.now) }
        ensures line { result.1 ≡ line_info (breaks_of slice.now) (text_of slice.now) line_idx }
        ensures text { concat (leaves result.0) ≡ text_of slice.now }
        ensures chunks { 0 < length (text_of slice.now) → leaves result.0 ≡ chunks_of slice.now }
        ensures starts { length (concat result.0.before) ≤ result.1.chars }
        ensures within { result.1.chars
            ≤ length (concat result.0.before) + length result.0.here }
        ensures byte { result.2
            ≡ char_to_byte result.0.here (result.1.chars - length (concat result.0.before)) }
    {
        if let RopeSlice::InTree(excerpt) = slice
            && 0 < line_idx
            && line_idx <= excerpt.info().break_count
        {
            let (descent, found) = TreeSpan::at_break(excerpt, line_idx);
            let front = found.before.bytes.saturating_sub(excerpt.start.bytes);
            let before = excerpt.before_line_in(line_idx, found);
            let chunk = descent.chunk();
            let descent = Some(descent);
            return (Span { chunk, descent }, before, before.bytes - front);
        }
        let before = slice.before_line(line_idx);
        let (span, inside) = Span::at_counts(slice, before);
        (span, before, inside)
    }

    /// Returns a copy with a path of its own.
    #[inline(always)]
    pub(crate) fn copy(&self) -> Span<'a>
        ensures { result ≡ self.now }
    {
        let chunk = self.chunk;
        let descent = match &self.descent {
            Some(descent) => Some(descent.copy()),
            None => None,
        };
        Span { chunk, descent }
    }

    /// Returns the chunk.
    pub(crate) fn chunk(&self) -> &'a str
        ensures { chars result.now ≡ self.now.here }
    {
        self.chunk
    }

    /// Returns whether the next chunk, or backward the previous one, is known at once to have a
    /// line break. It may have one where this returns false: a caller looks elsewhere.
    #[inline(always)]
    pub(crate) fn has_break_beside(&self, is_backward: bool) -> bool {
        match &self.descent {
            Some(descent) => descent.has_break_beside(is_backward),
            None => false,
        }
    }

    /// Moves to the next chunk, or backward to the previous one. Returns false, without a move, if
    /// there is none.
    // Inlined: a plain text has none, which costs no call.
    #[inline(always)]
    pub(crate) fn step(&mut self, is_backward: bool, heads: Heads) -> bool
        ensures moved { OnTrue result (IsBeside is_backward self.old self.new) }
        ensures stays { OnFalse result (self.new ≡ self.old) }
        ensures ended { OnFalse result (IsLast is_backward self.old) }
    {
        self.descent.is_some() && self.step_in_tree(is_backward, heads)
    }

    // Moves to the adjacent chunk of a tree, in a call of its own.
    #[inline(never)]
    fn step_in_tree(&mut self, is_backward: bool, heads: Heads) -> bool
        ensures moved { OnTrue result (IsBeside is_backward self.old self.new) }
        ensures stays { OnFalse result (self.new ≡ self.old) }
        ensures ended { OnFalse result (IsLast is_backward self.old) }
    {
        self.step_inlined(is_backward, heads)
    }

    /// Moves to the adjacent chunk without a call, for a cursor over chunks: nearly each of its
    /// steps is one.
    #[inline(always)]
    pub(crate) fn step_inlined(&mut self, is_backward: bool, heads: Heads) -> bool
        ensures moved { OnTrue result (IsBeside is_backward self.old self.new) }
        ensures stays { OnFalse result (self.new ≡ self.old) }
        ensures ended { OnFalse result (IsLast is_backward self.old) }
    {
        let Some(descent) = &mut self.descent else {
            return false;
        };
        if !descent.step(is_backward, heads) {
            return false;
        }
        self.chunk = descent.chunk();
        true
    }
}
