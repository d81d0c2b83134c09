//! Lines of a slice by their number, and a cursor over them. A start costs one lookup. No call
//! takes memory.
//!
//! The slice of all of `"a\nb\n"` has the lines `"a\n"`, `"b\n"` and `""`.
ghost use Rattle.std.specs.Prelude.{◌≡◌, ◌≤◌, ◌<◌, ◌+◌, ◌++◌, ⊤, false, take, drop, length, MatchOption, IfSome};
ghost use Rattle.std.specs.Bool.{MatchBool, OnTrue};
ghost use Rattle.std.specs.Iterator.{YieldsFirstBy, item_count};
ghost use Rattle.std.specs.List.{concat};
ghost use Rattle.std.specs.Str.{chars};
ghost use Rattle.rope_text.specs.Cutting.{parts_crlf};
ghost use Rattle.rope_text.specs.Lines.{line_count};
ghost use Rattle.rope_text.specs.LineParts.{part_between, line_of, lines_of, first_line, last_start};
ghost use Rattle.rope_text.specs.Sides.{ahead, at_start, at_place, turned, GoesRight, GoesLeft, GoesAhead, StepsBack};
ghost use Rattle.rope_text.specs.TextInfo.{info_of, HasPart, HasSum};
ghost use Rattle.rope_slice.specs.Slice.{content_of, text_of, chunks_of, breaks_of};
ghost use Rattle.rope_slice.specs.Caret.{AreChunks, HoldsAhead, PassesLine, PassesBack, IsPassed, IsPassedBack};
ghost use Rattle.rope_slice.specs.Lines.{IsLineStart};
ghost use Rattle.rope_slice.specs.Path.{leaves};
ghost use Rattle.rope_slice.specs.Hints.{CountsAhead};
ghost use Rattle.rope_slice.specs.Edge.{line_info};
ghost use Rattle.rope_slice.specs.Found.{GivesWithin};
ghost use Rattle.rope_slice.specs.InChunk.{IsInChunk};

use crate::excerpt::Excerpt;
use crate::path::Heads;
use crate::plain::{LinePlace, Plain};
use crate::point::end_of;
use crate::slice::{RopeSlice, within};
use crate::span::Span;
use rope_text::str_utils::byte_len_of;
use rope_text::{LineBreaks, TextInfo};
use std::alloc::AllocError;
use std::iter::ExactSizeIterator;
use std::marker::Model;

/// A cursor over the lines of a slice, each with its line break.
///
/// A slice has one line more than it has line breaks: after a break at its end there is an empty
/// line.
///
/// `Debug` prints its position and direction, without text.
#[derive(Drop)]
#[derive_where(Debug)]
pub struct Lines<'a> {
    #[derive_where(skip)]
    slice: RopeSlice<'a>,
    // the slice's set, kept here: each step would otherwise read it in the tree's root
    #[derive_where(skip)]
    breaks: LineBreaks,
    #[derive_where(skip)]
    caret: Caret<'a>,
    // the counts of the text before the line
    #[derive_where(skip)]
    before: TextInfo,
    line: usize,
    total: usize,
    is_backward: bool,
}

impl<'a> Model for Lines<'a> {
    ghost use Rattle.rope_text.specs.Content.{Content};
    ghost use Rattle.rope_text.specs.Sides.{Sides};
    ghost use Rattle.rope_slice.specs.Slice.{content_of};
    ghost use Rattle.rope_slice.specs.Lines.{at_line, IsLineCursor};

    ghost Value = { Sides Content };

    ghost view = { λ a. at_line (content_of a.slice) a.line a.is_backward };

    ghost invariant = { λ a.
        IsLineCursor (content_of a.slice) a.breaks a.caret a.before a.line a.total };
}

impl<'a> RopeSlice<'a> {
    // Returns the counts of the text before a line; past the last line those of all of it.
    #[inline(always)]
    pub(crate) fn before_line(&self, line_idx: usize) -> TextInfo
        requires { line_idx ≤ line_count (breaks_of self.now) (text_of self.now) }
        ensures { result ≡ line_info (breaks_of self.now) (text_of self.now) line_idx }
    {
        match self {
            RopeSlice::InTree(excerpt) => excerpt.before_line(line_idx),
            RopeSlice::Alone(plain) => plain.before_line(line_idx),
        }
    }

    // Returns the counts of the text before a line and before the next one, and the rest of the
    // chunk from the line's start on. Past the last line the counts are those of all of the text.
    #[inline(always)]
    fn around_line(&self, line_idx: usize) -> LinePlace<'a>
        requires { line_idx < line_count (breaks_of self.now) (text_of self.now) }
        ensures start { result.start ≡ line_info (breaks_of self.now) (text_of self.now) line_idx }
        ensures end { result.end
            ≡ line_info (breaks_of self.now) (text_of self.now) (line_idx + 1) }
        ensures held { IsInChunk (text_of self.now) (chunks_of self.now) result.start.chars
            (chars result.held.now) }
    {
        // For the proof: `info` ensures that a slice has at most `isize::MAX` bytes, so the counts
        // up to the next line fit.
        let _ = self.info();
        match self {
            RopeSlice::InTree(excerpt) => excerpt.around_line(line_idx),
            RopeSlice::Alone(plain) => plain.around_line(line_idx),
        }
    }

    // Returns the slice between two positions, given the counts of the text up to them and the set
    // of line breaks. The first position is in no CR LF. `held` is the rest of a chunk from there
    // on: a slice that ends in it is a plain text, without a lookup.
    #[inline(always)]
    fn between(
        &self,
        breaks: LineBreaks,
        from: TextInfo,
        to: TextInfo,
        held: &'a str,
    ) -> RopeSlice<'a>
        requires breaks_is { breaks ≡ breaks_of self.now }
        requires from_is { from
            ≡ info_of (breaks_of self.now) (take from.chars (text_of self.now)) }
        requires to_is { to ≡ info_of (breaks_of self.now) (take to.chars (text_of self.now)) }
        requires ordered { from.chars ≤ to.chars }
        requires within { to.chars ≤ length (text_of self.now) }
        requires apart { parts_crlf (take from.chars (text_of self.now))
            (drop from.chars (text_of self.now)) ≡ false }
        requires held { IsInChunk (text_of self.now) (chunks_of self.now) from.chars
            (chars held.now) }
        ensures { content_of result ≡ part_between (content_of self.now) from.chars to.chars }
    {
        let info = to.minus(from);
        if info.bytes <= held.len() {
            let text = &held[..info.bytes];
            return RopeSlice::Alone(Plain { text, info, breaks });
        }
        match self {
            RopeSlice::InTree(excerpt) => {
                let node = excerpt.node;
                let start = excerpt.start.plus(from);
                let end = excerpt.start.plus(to);
                RopeSlice::InTree(Excerpt { node, start, end })
            }
            RopeSlice::Alone(plain) => {
                let text = &plain.as_str()[from.bytes..to.bytes];
                let breaks = plain.breaks;
                RopeSlice::Alone(Plain { text, info, breaks })
            }
        }
    }

    // Returns the start of a line, or the end of the text, and the counts of the text before it.
    #[inline(always)]
    fn caret_at(&self, line_idx: usize) -> (Caret<'a>, TextInfo)
        requires { line_idx ≤ line_count (breaks_of self.now) (text_of self.now) }
        ensures { IsLineStart (content_of self.now) result.0 result.1 line_idx
            (line_count (breaks_of self.now) (text_of self.now)) }
    {
        // For the proof: `info` ensures that a slice has at most `isize::MAX` bytes.
        let _ = self.info();
        let (span, before, inside) = Span::at_line(self, line_idx);
        let caret = Caret { span, inside };
        (caret, before)
    }

    /// Returns the line `line_idx`, with its line break, as a slice.
    ///
    /// The index is below `len_lines()`. Costs a few lookups, and counts the line.
    /// `RopeSlice::from("a\nb").line(0)` is `"a\n"`.
    pub fn line(&self, line_idx: usize) -> RopeSlice<'a>
        requires { line_idx < line_count (breaks_of self.now) (text_of self.now) }
        ensures { content_of result ≡ line_of (content_of self.now) line_idx }
    {
        let line = self.around_line(line_idx);
        self.between(self.line_breaks(), line.start, line.end, line.held)
    }

    /// Returns the line `line_idx`, with its line break, or `None` exactly if the index is
    /// `len_lines()` or more. Costs a few lookups, and counts the line.
    /// `RopeSlice::from("ab").get_line(1)` is `None`.
    pub fn get_line(&self, line_idx: usize) -> Option<RopeSlice<'a>>
        ensures { MatchOption result (line_count (breaks_of self.now) (text_of self.now) ≤ line_idx)
            (λ slice. (line_idx < line_count (breaks_of self.now) (text_of self.now))
            × (content_of slice ≡ line_of (content_of self.now) line_idx)) }
    {
        Some(self.line(within(line_idx, self.len_lines() - 1)?))
    }

    /// Returns a cursor before the first line, facing forward.
    ///
    /// `RopeSlice::from("a\nb").lines().next()` is the line `"a\n"`.
    #[inline(always)]
    pub fn lines(&self) -> Lines<'a>
        ensures { result ≡ at_start (lines_of (content_of self.now)) }
    {
        self.lines_at(0)
    }

    /// Returns a cursor before the line `line_idx`, facing forward; for `len_lines()` it is past
    /// the last line.
    ///
    /// The index is at most `len_lines()`. `RopeSlice::from("a\nb").lines_at(1).next()` is the line
    /// `"b"`.
    #[inline(always)]
    pub fn lines_at(&self, line_idx: usize) -> Lines<'a>
        requires { line_idx ≤ line_count (breaks_of self.now) (text_of self.now) }
        ensures { result ≡ at_place (lines_of (content_of self.now)) line_idx }
    {
        self.lines_and_counts_at(line_idx).0
    }

    /// Returns a cursor before the line `line_idx`, facing forward, and the counts of the text
    /// before the line.
    ///
    /// The index is at most `len_lines()`. For `"a\nb"` and line 1 the counts are 2 bytes, 2
    /// characters, no surrogate pair and 1 line break.
    #[inline(always)]
    pub fn lines_and_counts_at(&self, line_idx: usize) -> (Lines<'a>, TextInfo)
        requires { line_idx ≤ line_count (breaks_of self.now) (text_of self.now) }
        ensures lines { result.0 ≡ at_place (lines_of (content_of self.now)) line_idx }
        ensures counts { result.1 ≡ line_info (breaks_of self.now) (text_of self.now) line_idx }
    {
        let total = self.info().break_count + 1;
        let (caret, before) = self.caret_at(line_idx);
        let lines = Lines {
            slice: *self,
            breaks: self.line_breaks(),
            caret,
            before,
            line: line_idx,
            total,
            is_backward: false,
        };
        (lines, before)
    }

    /// Returns a cursor as `lines_at` does, or `None` exactly if the index is past `len_lines()`.
    /// `RopeSlice::from("ab").get_lines_at(2)` is `None`.
    pub fn get_lines_at(&self, line_idx: usize) -> Option<Lines<'a>>
        ensures { GivesWithin line_idx (line_count (breaks_of self.now) (text_of self.now)) result
            (λ lines. lines ≡ at_place (lines_of (content_of self.now)) line_idx) }
    {
        Some(self.lines_at(within(line_idx, self.len_lines())?))
    }
}

impl<'a> Lines<'a> {
    // Moves over one line to the left, or to the right. Inlined, so that only the parts of the
    // slice that the caller uses are computed; a call reads the text.
    #[inline(always)]
    fn step(&mut self, is_left: bool) -> Option<RopeSlice<'a>>
        ensures { MatchBool is_left (GoesLeft (λ x. content_of x) self.old result self.new)
            (GoesRight (λ x. content_of x) self.old result self.new) }
    {
        if self.line == end_of(self.total, is_left) {
            return None;
        }
        let breaks = self.breaks;
        let here = self.before;
        if is_left {
            let line = self.line - 1;
            let held = self
                .caret
                .go_back(&mut self.before, &self.slice, line, breaks);
            self.line = line;
            return Some(self.slice.between(breaks, self.before, here, held));
        }
        let held = self
            .caret
            .go_on(&mut self.before, &self.slice, self.line, breaks);
        self.line += 1;
        Some(self.slice.between(breaks, here, self.before, held))
    }

    /// Moves back over one line and returns it, or returns `None` at that end.
    /// `RopeSlice::from("a\nb").lines_at(1).prev()` is the line `"a\n"`.
    #[inline(always)]
    pub fn prev(&mut self) -> Option<RopeSlice<'a>>
        ensures { StepsBack (λ x. content_of x) self.old result self.new }
    {
        self.step(!self.is_backward)
    }

    /// Reverses the direction: `next` and `prev` change roles. After it, `next` of
    /// `RopeSlice::from("a\nb").lines_at(1)` is the line `"a\n"`.
    pub fn reverse(&mut self)
        ensures { self.new ≡ turned self.old }
    {
        self.is_backward = !self.is_backward;
    }

    /// Returns the cursor with its direction reversed.
    /// `RopeSlice::from("a\nb").lines_at(1).reversed().next()` is the line `"a\n"`.
    pub fn reversed(mut self) -> Lines<'a>
        ensures { result ≡ turned self.entry }
    {
        self.reverse();
        self
    }
}

impl<'a> Iterator for Lines<'a> {
    type Item = RopeSlice<'a>;

    ghost next_gives = { YieldsFirstBy (λ x. content_of x) ahead };

    ghost remaining = { item_count ahead };

    /// Moves over the next line and returns it, or returns `None` at the end.
    #[inline(always)]
    fn next(&mut self) -> Option<RopeSlice<'a>>
        ensures steps { YieldsFirstBy (λ x. content_of x) ahead self.old result self.new }
        ensures goes { GoesAhead (λ x. content_of x) self.old result self.new }
    {
        self.step(self.is_backward)
    }

    /// Returns the exact number of lines left.
    fn size_hint(&self) -> (usize, Option<usize>)
        ensures { CountsAhead self.now result.0 result.1 }
    {
        (self.len(), Some(self.len()))
    }
}

impl<'a> ExactSizeIterator for Lines<'a> {
    /// Returns the number of lines left.
    fn len(&self) -> usize {
        let left = self.total - self.line;
        if self.is_backward { self.line } else { left }
    }
}

impl<'a> Clone for Lines<'a> {
    ghost is_clone = { λ a b. b ≡ a };

    ghost is_infallible = { λ _. ⊤ };

    #[inline(always)]
    fn clone(&self) -> Result<Lines<'a>, AllocError> {
        let span = self.caret.span.copy();
        let caret = Caret {
            span,
            inside: self.caret.inside,
        };
        Ok(Lines { caret, ..*self })
    }
}

// A position between two characters of a slice, as a byte of a chunk. It moves from line to line.
#[derive(Drop)]
struct Caret<'a> {
    span: Span<'a>,
    inside: usize,
}

impl<'a> Model for Caret<'a> {
    ghost use Rattle.rope_slice.specs.Caret.{Halves, halves_at, IsCaret};

    ghost Value = { Halves };

    ghost view = { λ a. halves_at a.span a.inside };

    ghost invariant = { λ a. IsCaret a.span a.inside };
}

// Passes the rest of a line, from the end of a chunk on, if it ends in the next chunk. Returns the
// byte of that chunk at which it ends, and stores the counts of the text passed in `more`: to
// receive counts as a result, a caller would clear stack at each line. If the line ends later, the
// span may have moved. Never inlined, so that a step within one chunk stays short.
#[inline(never)]
fn pass_chunk(span: &mut Span<'_>, more: &mut TextInfo, breaks: LineBreaks) -> Option<usize>
    requires { AreChunks span.old }
    ensures passes { IfSome result (λ end. PassesLine breaks (concat span.old.before
        ++ span.old.here) (concat span.old.after) span.new end more.new) }
    ensures chunks { AreChunks span.new }
    ensures same { leaves span.new ≡ leaves span.old }
{
    if !span.has_break_beside(false) || !span.step(false, Heads::Left) {
        return None;
    }
    let line = TextInfo::of_first_line(span.chunk(), breaks);
    *more = line;
    if line.break_count == 0 {
        return None;
    }
    Some(line.bytes)
}

// Passes line breaks backward from the start of a chunk, if the line starts in the chunk before.
// Returns the byte of that chunk at which it starts, and stores the counts of the text passed in
// `more`. If the line starts earlier, the span may have moved.
#[inline(never)]
fn pass_chunk_back(
    span: &mut Span<'_>,
    skip: usize,
    more: &mut TextInfo,
    breaks: LineBreaks,
) -> Option<usize>
    requires { AreChunks span.old }
    ensures passes { IfSome result (λ start. PassesBack breaks skip (concat span.old.before)
        (span.old.here ++ concat span.old.after) span.new start more.new) }
    ensures chunks { AreChunks span.new }
    ensures same { leaves span.new ≡ leaves span.old }
{
    if !span.has_break_beside(true) || !span.step(true, Heads::Left) {
        return None;
    }
    let chunk = span.chunk();
    let end = byte_len_of(chunk);
    let (start, line) = TextInfo::of_last_line(chunk, end, skip, breaks);
    *more = line;
    if start == 0 {
        return None;
    }
    Some(start)
}

impl<'a> Caret<'a> {
    // Returns the rest of the chunk.
    #[inline(always)]
    fn held(&self) -> &'a str
        ensures { HoldsAhead self.now (chars result.now) }
    {
        &self.span.chunk()[self.inside..]
    }

    // Passes the next line break and adds the text passed to the counts. Returns whether the break
    // was in this chunk or in the next one; if it was in neither, the position may have moved. The
    // callee updates the counts: returned counts would give the caller a store-forwarding stall.
    #[inline(never)]
    fn pass_line(&mut self, before: &mut TextInfo, breaks: LineBreaks) -> bool
        requires { HasSum before.old (info_of breaks (first_line breaks self.old.back)) }
        ensures { OnTrue result (IsPassed breaks self.old before.old self.new before.new) }
    {
        let held = &self.span.chunk()[self.inside..];
        let first = TextInfo::of_first_line(held, breaks);
        if first.break_count > 0 {
            self.inside += first.bytes;
            *before = before.plus(first);
            return true;
        }
        let mut more = TextInfo::new();
        let Some(inside) = pass_chunk(&mut self.span, &mut more, breaks) else {
            self.inside = 0;
            return false;
        };
        self.inside = inside;
        *before = before.plus(first.plus(more));
        true
    }

    // Passes `skip` line breaks backward up to the end of the one before them, and subtracts the
    // text passed from the counts. Returns whether it was found, as `pass_line` does. The position
    // is in no CR LF.
    #[inline(never)]
    fn pass_line_back(&mut self, before: &mut TextInfo, skip: usize, breaks: LineBreaks) -> bool
        requires apart { parts_crlf self.old.front self.old.back ≡ false }
        requires part { HasPart before.old
            (info_of breaks (drop (last_start breaks self.old.front skip) self.old.front)) }
        ensures { OnTrue result (IsPassedBack breaks skip self.old before.old self.new before.new) }
    {
        let chunk = self.span.chunk();
        let (start, last) = TextInfo::of_last_line(chunk, self.inside, skip, breaks);
        if start > 0 {
            self.inside = start;
            *before = before.minus(last);
            return true;
        }
        let mut more = TextInfo::new();
        let left = skip - last.break_count;
        let Some(inside) = pass_chunk_back(&mut self.span, left, &mut more, breaks) else {
            self.inside = 0;
            return false;
        };
        self.inside = inside;
        *before = before.minus(more.plus(last));
        true
    }

    // Moves to the start of a line, or to the end of the text, in a descent from the root.
    #[inline(never)]
    fn seek(&mut self, before: &mut TextInfo, slice: &RopeSlice<'a>, line_idx: usize)
        requires { line_idx ≤ line_count (breaks_of slice.now) (text_of slice.now) }
        ensures { IsLineStart (content_of slice.now) self.new before.new line_idx
            (line_count (breaks_of slice.now) (text_of slice.now)) }
    {
        (*self, *before) = slice.caret_at(line_idx);
    }

    // Moves from the start of a line to the start of the next one. Returns the rest of the chunk
    // from the line's start on.
    #[inline(always)]
    fn go_on(
        &mut self,
        before: &mut TextInfo,
        slice: &RopeSlice<'a>,
        line_idx: usize,
        breaks: LineBreaks,
    ) -> &'a str
        requires start { IsLineStart (content_of slice.now) self.old before.old line_idx
            (line_count (breaks_of slice.now) (text_of slice.now)) }
        requires within { line_idx < line_count (breaks_of slice.now) (text_of slice.now) }
        requires breaks_is { breaks ≡ breaks_of slice.now }
        ensures start { IsLineStart (content_of slice.now) self.new before.new (line_idx + 1)
            (line_count (breaks_of slice.now) (text_of slice.now)) }
        ensures held { HoldsAhead self.old (chars result.now) }
    {
        let held = self.held();
        if self.pass_line(before, breaks) {
            return held;
        }
        self.seek(before, slice, line_idx + 1);
        held
    }

    // Moves back to the start of a line from the start of the next one. Returns the rest of the
    // chunk from there on.
    #[inline(always)]
    fn go_back(
        &mut self,
        before: &mut TextInfo,
        slice: &RopeSlice<'a>,
        line_idx: usize,
        breaks: LineBreaks,
    ) -> &'a str
        requires start { IsLineStart (content_of slice.now) self.old before.old (line_idx + 1)
            (line_count (breaks_of slice.now) (text_of slice.now)) }
        requires breaks_is { breaks ≡ breaks_of slice.now }
        ensures start { IsLineStart (content_of slice.now) self.new before.new line_idx
            (line_count (breaks_of slice.now) (text_of slice.now)) }
        ensures held { HoldsAhead self.new (chars result.now) }
    {
        let skip = before.break_count - line_idx;
        if self.pass_line_back(before, skip, breaks) {
            return self.held();
        }
        self.seek(before, slice, line_idx);
        self.held()
    }
}
