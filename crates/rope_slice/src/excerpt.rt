//! Slices of a tree's text with at least one character.
ghost use Rattle.std.specs.Prelude.{◌≡◌, ◌+◌, ◌-◌, ◌≤◌, ◌<◌, length, min, take};
ghost use Rattle.std.specs.Str.{chars};
ghost use Rattle.rope_text.specs.declared.TheConstants.{MAX_HEIGHT};
ghost use Rattle.rope_text.specs.Breaks.{break_count};
ghost use Rattle.rope_text.specs.Text.{byte_len};
ghost use Rattle.rope_text.specs.TextInfo.{info_of};
ghost use Rattle.rope_text.specs.Lines.{line_start, line_count};
ghost use Rattle.rope_leaf.specs.declared.search.Unit.TheVariants.{LineBreak};
ghost use Rattle.rope_leaf.specs.Found.{IsFound};
ghost use Rattle.rope_leaf.specs.Search.{count_of};
ghost use Rattle.rope_leaf.specs.Tree.{IsTree, text};
ghost use Rattle.rope_slice.specs.Edge.{start_info, end_info, line_info, IsLeafFrom, IsExcerpt, IsExcerpt-prop, IsLowTree, IsLowTree-prop};
ghost use Rattle.rope_slice.specs.InChunk.{IsInChunk};

use crate::path::Path;
use crate::plain::LinePlace;
use rope_text::str_utils::{byte_to_line_of, byte_to_surrogates_of, char_to_byte_idx};
use rope_text::{Steps, TextInfo};
use rope_tree::{Found, Node, Unit, convert_in, count, leaf_at};

// Returns the counts of the text before a line that is not the first, and the rest of the leaf in
// which the break before it ends.
#[inline(always)]
fn line_start_at(node: &Node, line_idx: usize) -> (TextInfo, &str)
    requires later { 0 < line_idx }
    requires within { line_idx < line_count node.now.breaks (text node.now) }
    requires low { node.now.height ≤ MAX_HEIGHT }
    requires tree { IsTree node.now }
    ensures before { result.0 ≡ line_info node.now.breaks (text node.now) line_idx }
    ensures rest { IsLeafFrom node.now (line_start node.now.breaks (text node.now) line_idx)
        (chars result.1.now) }
    ensures chunk { IsInChunk (text node.now) node.now.leaves
        (line_start node.now.breaks (text node.now) line_idx) (chars result.1.now) }
{
    let found = leaf_at(node, Unit::LineBreak, line_idx - 1, &mut Steps::new());
    line_start_in(node, line_idx, found)
}

// Returns the counts of the text before a line that is not the first, and the rest of the given
// leaf, in which the break before that line ends.
#[inline(always)]
fn line_start_in<'a>(node: &Node, line_idx: usize, found: Found<'a>) -> (TextInfo, &'a str)
    requires later { 0 < line_idx }
    requires within { line_idx < line_count node.now.breaks (text node.now) }
    requires tree { IsTree node.now }
    requires found { IsFound LineBreak (line_idx - 1) node.now found.leaf found.before }
    requires inside { found.inside ≡ info_of node.now.breaks found.leaf }
    ensures before { result.0 ≡ line_info node.now.breaks (text node.now) line_idx }
    ensures from { found.entry.before.bytes ≤ result.0.bytes }
    ensures upto { result.0.bytes ≤ found.entry.before.bytes + byte_len found.entry.leaf }
    ensures rest { IsLeafFrom node.now (line_start node.now.breaks (text node.now) line_idx)
        (chars result.1.now) }
    ensures chunk { IsInChunk (text node.now) node.now.leaves
        (line_start node.now.breaks (text node.now) line_idx) (chars result.1.now) }
{
    let leaf = found.leaf.as_str();
    let line = line_idx - found.before.break_count;
    let front = TextInfo::before_line(leaf, found.inside, line, node.line_breaks());
    (found.before.plus(front), &leaf[front.bytes..])
}

// A position in a leaf: the leaf with the counts before it, and the numbers of its bytes and
// characters before the position.
#[derive(Drop)]
struct LeafPlace<'a> {
    found: Found<'a>,
    bytes: usize,
    chars: usize,
}

/// The numbers of bytes, characters and line breaks of a text before a position in it.
#[derive(Clone, Copy)]
pub(crate) struct Before {
    pub bytes: usize,
    pub chars: usize,
    pub break_count: usize,
}

impl Before {
    /// Returns the numbers between a start and a position: 0 if the position is before the start.
    // Inlined to avoid a store-forwarding stall on the numbers.
    #[inline(always)]
    pub(crate) fn since(place: TextInfo, start: TextInfo) -> Before
        ensures bytes { result.bytes ≡ place.bytes - start.bytes }
        ensures chars { result.chars ≡ place.chars - start.chars }
        ensures break_count { result.break_count ≡ place.break_count - start.break_count }
    {
        Before {
            bytes: place.bytes.saturating_sub(start.bytes),
            chars: place.chars.saturating_sub(start.chars),
            break_count: place.break_count.saturating_sub(start.break_count),
        }
    }
}

/// A slice of a tree's text with at least one character. It keeps the counts of the text before its
/// start and before its end, so that a length is a difference of two of them, and a conversion is
/// one of the tree's.
///
/// The breaks before the start are those that end there or before it; those before the end are the
/// breaks of the text up to there alone. So a CR LF that is cut at an end gives a break to each
/// side.
#[derive(Clone, Copy)]
pub struct Excerpt<'a> {
    pub node: &'a Node,
    pub start: TextInfo,
    pub end: TextInfo,
    ghost is_low: { IsLowTree node.now } by { IsLowTree-prop },
    ghost is_excerpt: { IsExcerpt node.now.breaks (text node.now) start end } by { IsExcerpt-prop },
}

impl<'a> Excerpt<'a> {
    ghost use Rattle.rope_slice.specs.Kept.{IsPart};
    ghost use Rattle.std.specs.Prelude.{◌*◌, ◌↔◌, true, IfSome, IsSome};
    ghost use Rattle.std.specs.List.{slice_range};
    ghost use Rattle.rope_text.specs.Cutting.{clip, single_chunk};
    ghost use Rattle.rope_text.specs.Conversions.{byte_to_char};
    ghost use Rattle.rope_text.specs.Edit.{is_char_boundary};
    ghost use Rattle.rope_slice.specs.LeafPlace.{IsLeafPlace};
    ghost use Rattle.rope_slice.specs.Excerpt.{content_of, text_of, chunks_of, breaks_of};

    /// Converts an index of the slice to one of the tree's text. A line index may be the one past
    /// the last.
    pub(crate) fn place(&self, unit: Unit, idx: usize) -> usize
        requires { idx ≤ count_of unit (info_of (breaks_of self.now) (text_of self.now)) + 1 }
        ensures value { result ≡ count_of unit self.now.start + idx }
        ensures low { self.now.node.now.height ≤ MAX_HEIGHT }
        ensures tree { IsTree self.now.node.now }
    {
        count(self.start, unit) + idx
    }

    /// Returns the counts of the slice's text.
    pub(crate) fn info(&self) -> TextInfo
        ensures value { result ≡ info_of (breaks_of self.now) (text_of self.now) }
        ensures kept { IsPart (content_of self.now) }
    {
        self.end.minus(self.start)
    }

    /// Returns the rest of the leaf from the slice's first character on, possibly past the slice's
    /// end.
    fn first_held(&self) -> &'a str
        ensures { IsInChunk (text_of self.now) (chunks_of self.now) 0 (chars result.now) }
    {
        let (_, found) = Path::at(self.node, Unit::Byte, self.start.bytes);
        &found.leaf.as_str()[self.start.bytes - found.before.bytes..]
    }

    /// Returns the characters from `start` up to `end`, if one leaf has them all.
    pub(crate) fn in_one_leaf(&self, start: usize, end: usize) -> Option<&'a str>
        requires some { start < end }
        requires within { end ≤ length (text_of self.now) }
        ensures text { IfSome result (λ part. slice_range (text_of self.now) start end
            ≡ chars part.now) }
        ensures chunks { IfSome result (λ part. clip (chunks_of self.now) start end
            ≡ single_chunk (chars part.now)) }
    {
        let place = self.place(Unit::Char, start);
        let found = leaf_at(self.node, Unit::Char, place, &mut Steps::new());
        let skip = place - found.before.chars;
        let count = end - start;
        if count > found.inside.chars - skip {
            return None;
        }
        let held = &found.leaf.as_str()[found.leaf.char_to_byte_idx(skip)..];
        Some(&held[..char_to_byte_idx(held, count)])
    }

    // Finds the position of a character: the leaf that contains it, and the numbers of the leaf's
    // bytes and characters before it.
    #[inline(always)]
    fn place_of_char(&self, char_idx: usize) -> LeafPlace<'a>
        requires { char_idx < length (text_of self.now) }
        ensures place { IsLeafPlace self.now.node.now (self.now.start.chars + char_idx)
            result.found.leaf result.found.before result.bytes result.chars }
        ensures inside { result.found.inside ≡ info_of (breaks_of self.now) result.found.leaf }
    {
        let place = self.place(Unit::Char, char_idx);
        let found = leaf_at(self.node, Unit::Char, place, &mut Steps::new());
        let chars = place - found.before.chars;
        let bytes = found.leaf.char_to_byte_idx(chars);
        LeafPlace {
            found,
            bytes,
            chars,
        }
    }

    // Finds the position of the character that begins at a byte. Returns `None` if the byte is
    // inside a character.
    #[inline(always)]
    fn place_of_byte(&self, byte_idx: usize) -> Option<LeafPlace<'a>>
        requires { byte_idx < byte_len (text_of self.now) }
        ensures some { IfSome result (λ place. IsLeafPlace self.now.node.now
            (self.now.start.chars + byte_to_char (text_of self.now) byte_idx)
            place.found.leaf place.found.before place.bytes place.chars) }
        ensures inside { IfSome result (λ place.
            place.found.inside ≡ info_of (breaks_of self.now) place.found.leaf) }
        ensures whole { IsSome result ↔ (is_char_boundary (text_of self.now) byte_idx ≡ true) }
    {
        let place = self.place(Unit::Byte, byte_idx);
        let found = leaf_at(self.node, Unit::Byte, place, &mut Steps::new());
        let bytes = place - found.before.bytes;
        let leaf = found.leaf.as_str();
        if !leaf.is_char_boundary(bytes) {
            return None;
        }
        let breaks = self.node.line_breaks();
        let chars = convert_in(leaf, found.inside, breaks, Unit::Byte, Unit::Char, bytes);
        Some(LeafPlace {
            found,
            bytes,
            chars,
        })
    }

    // Returns the `start` counts of the slice from a position on.
    #[inline(always)]
    fn start_at(&self, place: LeafPlace<'a>) -> TextInfo
        requires place { IsLeafPlace self.now.node.now (place.found.before.chars + place.chars)
            place.found.leaf place.found.before place.bytes place.chars }
        requires inside { place.found.inside ≡ info_of (breaks_of self.now) place.found.leaf }
        ensures { result ≡ start_info self.now.node.now.breaks (text self.now.node.now)
            (place.entry.found.before.chars + place.entry.chars) }
    {
        let LeafPlace {
            found,
            bytes,
            chars,
        } = place;
        let leaf = found.leaf.as_str();
        let pairs = byte_to_surrogates_of(leaf, found.inside.utf16_surrogates, bytes);
        let breaks = self.node.line_breaks();
        let lines = byte_to_line_of(leaf, found.inside.break_count, bytes, breaks);
        TextInfo {
            bytes: found.before.bytes + bytes,
            chars: found.before.chars + chars,
            utf16_surrogates: found.before.utf16_surrogates + pairs,
            break_count: found.before.break_count + lines,
        }
    }

    // Returns the `end` counts of the slice up to a position.
    #[inline(always)]
    fn end_at(&self, place: LeafPlace<'a>) -> TextInfo
        requires place { IsLeafPlace self.now.node.now (place.found.before.chars + place.chars)
            place.found.leaf place.found.before place.bytes place.chars }
        requires inside { place.found.inside ≡ info_of (breaks_of self.now) place.found.leaf }
        ensures { result ≡ end_info self.now.node.now.breaks (text self.now.node.now)
            (place.entry.found.before.chars + place.entry.chars) }
    {
        let LeafPlace {
            found,
            bytes,
            chars,
        } = place;
        let leaf = found.leaf.as_str();
        let breaks = self.node.line_breaks();
        let front = TextInfo::of_front(leaf, found.inside, chars, bytes, breaks);
        found.before.plus(front)
    }

    /// Returns the `start` counts of the slice from a character on.
    #[inline(always)]
    pub(crate) fn start_of(&self, char_idx: usize) -> TextInfo
        requires { char_idx < length (text_of self.now) }
        ensures { result ≡ start_info self.now.node.now.breaks (text self.now.node.now)
            (self.now.start.chars + char_idx) }
    {
        if char_idx == 0 {
            return self.start;
        }
        self.start_at(self.place_of_char(char_idx))
    }

    /// Returns the `end` counts of the slice up to a character.
    #[inline(always)]
    pub(crate) fn end_of(&self, char_idx: usize) -> TextInfo
        requires { char_idx ≤ length (text_of self.now) }
        ensures { result ≡ end_info self.now.node.now.breaks (text self.now.node.now)
            (self.now.start.chars + char_idx) }
    {
        if char_idx == self.info().chars {
            return self.end;
        }
        self.end_at(self.place_of_char(char_idx))
    }

    /// Returns the `start` counts of the slice from the character that begins at a byte. Returns
    /// `None` if the byte is inside a character.
    #[inline(always)]
    pub(crate) fn start_at_byte(&self, byte_idx: usize) -> Option<TextInfo>
        requires { byte_idx < byte_len (text_of self.now) }
        ensures some { IfSome result (λ start. start
            ≡ start_info self.now.node.now.breaks (text self.now.node.now)
            (self.now.start.chars + byte_to_char (text_of self.now) byte_idx)) }
        ensures whole { IsSome result ↔ (is_char_boundary (text_of self.now) byte_idx ≡ true) }
    {
        if byte_idx == 0 {
            return Some(self.start);
        }
        Some(self.start_at(self.place_of_byte(byte_idx)?))
    }

    /// Returns the `end` counts of the slice up to the character that begins at a byte. Returns
    /// `None` if the byte is inside a character.
    #[inline(always)]
    pub(crate) fn end_at_byte(&self, byte_idx: usize) -> Option<TextInfo>
        requires { byte_idx ≤ byte_len (text_of self.now) }
        ensures some { IfSome result (λ end. end
            ≡ end_info self.now.node.now.breaks (text self.now.node.now)
            (self.now.start.chars + byte_to_char (text_of self.now) byte_idx)) }
        ensures whole { IsSome result ↔ (is_char_boundary (text_of self.now) byte_idx ≡ true) }
    {
        if byte_idx == self.info().bytes {
            return Some(self.end);
        }
        Some(self.end_at(self.place_of_byte(byte_idx)?))
    }

    // Returns the counts of the slice's text up to a position of the tree's text after its start;
    // past its end those of all of it.
    fn counts_to(&self, place: TextInfo) -> TextInfo
        requires later { self.now.start.chars < place.chars }
        requires within { place.chars ≤ length (text self.now.node.now) }
        requires counts { place
            ≡ end_info (breaks_of self.now) (text self.now.node.now) place.chars }
        ensures value { result ≡ info_of (breaks_of self.now)
            (take (place.chars - self.now.start.chars) (text_of self.now)) }
        ensures bytes { result.bytes
            ≡ min place.bytes self.now.end.bytes - self.now.start.bytes }
    {
        if place.chars >= self.end.chars {
            return self.info();
        }
        place.minus(self.start)
    }

    /// Returns the counts of the slice's text before a line; past the last line those of all of it.
    #[inline(always)]
    pub(crate) fn before_line(&self, line_idx: usize) -> TextInfo
        requires { line_idx ≤ line_count (breaks_of self.now) (text_of self.now) }
        ensures { result ≡ line_info (breaks_of self.now) (text_of self.now) line_idx }
    {
        if line_idx == 0 {
            return TextInfo::new();
        }
        let info = self.info();
        if line_idx > info.break_count {
            return info;
        }
        let place = self.place(Unit::LineBreak, line_idx);
        self.counts_to(line_start_at(self.node, place).0)
    }

    /// Returns the counts of the slice's text before a line that is not the first, given the leaf
    /// in which the break before it ends. Makes no lookup.
    #[inline(always)]
    pub(crate) fn before_line_in(&self, line_idx: usize, found: Found<'_>) -> TextInfo
        requires later { 0 < line_idx }
        requires within { line_idx ≤ break_count (breaks_of self.now) (text_of self.now) }
        requires found { IsFound LineBreak (self.now.start.break_count + line_idx - 1)
            self.now.node.now found.leaf found.before }
        requires inside { found.inside ≡ info_of self.now.node.now.breaks found.leaf }
        ensures value { result ≡ line_info (breaks_of self.now) (text_of self.now) line_idx }
        ensures from { min found.entry.before.bytes self.now.end.bytes - self.now.start.bytes
            ≤ result.bytes }
        ensures upto { result.bytes ≤ min (found.entry.before.bytes + byte_len found.entry.leaf)
            self.now.end.bytes - self.now.start.bytes }
    {
        let place = self.place(Unit::LineBreak, line_idx);
        self.counts_to(line_start_in(self.node, place, found).0)
    }

    /// Returns the counts of the slice's text before a line and before the next one, and the rest
    /// of the leaf from the line's start on. Past the last line the counts are those of all of the
    /// text. Costs one lookup if the line ends before that leaf does.
    #[inline(always)]
    pub(crate) fn around_line(&self, line_idx: usize) -> LinePlace<'a>
        requires { line_idx < line_count (breaks_of self.now) (text_of self.now) }
        ensures start { result.start ≡ line_info (breaks_of self.now) (text_of self.now) line_idx }
        ensures end { result.end
            ≡ line_info (breaks_of self.now) (text_of self.now) (line_idx + 1) }
        ensures held { IsInChunk (text_of self.now) (chunks_of self.now) result.start.chars
            (chars result.held.now) }
    {
        if line_idx == 0 {
            return LinePlace {
                start: TextInfo::new(),
                end: self.before_line(1),
                held: self.first_held(),
            };
        }
        let (before, held) = line_start_at(self.node, self.place(Unit::LineBreak, line_idx));
        let line = TextInfo::of_first_line(held, self.node.line_breaks());
        let start = self.counts_to(before);
        if line.break_count == 0 {
            let end = self.before_line(line_idx + 1);
            return LinePlace { start, end, held };
        }
        let end = self.counts_to(before.plus(line));
        LinePlace { start, end, held }
    }
}
