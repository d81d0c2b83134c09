//! A leaf of a tree, from which a cursor moves to the adjacent leaves; and a leaf within a slice of
//! the text. No step takes memory.
ghost use Rattle.std.specs.Prelude.{◌≡◌, ◌+◌, ◌-◌, ◌<◌, ◌≤◌, ◌∷◌, [], All, length, slice_index_or};
ghost use Rattle.std.specs.Bool.{OnTrue, OnFalse};
ghost use Rattle.std.specs.List.{concat};
ghost use Rattle.std.specs.Str.{chars};
ghost use Rattle.rope_text.specs.Breaks.{break_count};
ghost use Rattle.rope_text.specs.Text.{byte_len};
ghost use Rattle.rope_text.specs.declared.TheConstants.{MAX_CHILDREN};
ghost use Rattle.rope_text.specs.declared.text_info.TextInfo.{TextInfo};
ghost use Rattle.rope_text.specs.TextInfo.{info_of};
ghost use Rattle.rope_leaf.specs.Found.{IsFound};
ghost use Rattle.rope_leaf.specs.RunningTotals.{AreSmall};
ghost use Rattle.rope_leaf.specs.Search.{count_of};
ghost use Rattle.rope_leaf.specs.Tree.{Tree, IsTree, text};
ghost use Rattle.rope_slice.specs.Excerpt.{content_of as excerpt_content, text_of as excerpt_text, breaks_of as excerpt_breaks};
ghost use Rattle.rope_slice.specs.Path.{leaves, IsBeside, IsLast, IsNext, HoldsPlace};
ghost use Rattle.rope_slice.specs.Descent.{IsLow, AreListed};
ghost use Rattle.rope_slice.specs.Starts.{IsItem, IsHolding, IsAtBreak, size_in};

use crate::excerpt::{Before, Excerpt};
use rope_text::str_utils::byte_len_of;
use rope_text::{Steps, TextInfo};
use rope_tree::{Found, Node, Totals, Unit, View, count, place_of, total_before};
use std::marker::Model;

/// A leaf of a tree, seen as the leaves before it, the leaf, and the leaves after it.
///
/// It keeps the list that contains the leaf, so that most steps stay in that list. When the list
/// ends, once in some twenty steps, the next leaf is looked up from the root by its first byte, or
/// by its last.
#[derive(Drop)]
pub(crate) struct Path<'a> {
    root: &'a Node,
    // the children of the leaf's parent with their running totals, and the leaf's index among them;
    // none if the tree is that leaf
    nodes: &'a [Node],
    totals: Option<&'a Totals>,
    at: usize,
    leaf: &'a str,
    // the bytes of the text before the leaf
    start: usize,
}

impl<'a> Model for Path<'a> {
    ghost use Rattle.std.specs.Str.{chars};
    ghost use Rattle.rope_slice.specs.Path.{Place};
    ghost use Rattle.rope_slice.specs.Descent.{place_at, IsListedDescent};

    ghost Value = { Place };

    ghost view = { λ a. place_at a.root.now.leaves (chars a.leaf.now) a.start };

    ghost invariant = { λ a.
        IsListedDescent a.root.now a.nodes.now a.totals a.at (chars a.leaf.now) a.start };
}

// Returns the text of a leaf in its list. Its length comes from the list's totals, so that no byte
// of the leaf is read: a walk over leaves would miss on each.
#[inline(always)]
fn text_in_list<'a>(nodes: &'a [Node], totals: Option<&Totals>, at: usize) -> &'a str
    requires within { at < length nodes.now }
    requires low { All IsLow nodes.now }
    requires listed { AreListed nodes.now totals }
    ensures { (d : Tree) → (slice_index_or nodes.now at d).leaves ≡ chars result.now ∷ [] }
{
    let Some(totals) = totals else {
        unreachable!();
    };
    let info = totals.get(at).minus(total_before(totals, at));
    match nodes[at].known_view(info) {
        View::Leaf(leaf) => leaf.as_str(),
        View::Inner(_, _) => unreachable!(),
    }
}

// Returns the index of the child that contains an index, counted in `unit`. The first byte and the
// first character are in the first child: a cursor from the start of a text makes no search.
#[inline(always)]
fn child_at(totals: &Totals, unit: Unit, at: usize) -> usize
    requires some { 0 < length totals.now }
    requires few { length totals.now ≤ MAX_CHILDREN }
    requires small { AreSmall totals.now }
    requires first { IsItem unit
        → (d : TextInfo) → 0 < count_of unit (slice_index_or totals.now 0 d) }
    requires last { (d : TextInfo)
        → at < count_of unit (slice_index_or totals.now (length totals.now - 1) d) }
    ensures within { result < length totals.now }
    ensures before { (d : TextInfo) → 0 < result
        → count_of unit (slice_index_or totals.now (result - 1) d) ≤ at }
    ensures past { (d : TextInfo) → at < count_of unit (slice_index_or totals.now result d) }
{
    if at == 0 && matches!(unit, Unit::Byte | Unit::Char) {
        return 0;
    }
    place_of(totals, unit, at, &mut Steps::new())
}

/// Whether a walk that reaches a list prefetches the heads of its leaves.
#[derive(Clone, Copy)]
pub(crate) enum Heads {
    /// Prefetches, for bytes, characters and hashes: they read one leaf after the other, each a
    /// cache miss if edits have scattered the leaves.
    Touched,
    /// Doesn't prefetch, for chunks, lines and comparisons, which are faster so: a chunk's length
    /// is known without its head, and the processor prefetches leaves that are in a row.
    Left,
}

// Prefetches the head of each leaf of a list, so that the cache misses overlap. Returns true, since
// all leaves have bytes: callers test the result so that the reads aren't optimized away.
fn touch_heads(nodes: &[Node]) -> bool {
    nodes.iter().all(|node| node.info().bytes > 0)
}

impl<'a> Path<'a> {
    /// Returns the path to the leaf that contains an index of a tree's text, and the leaf with its
    /// counts and those of the text before it. Enters each node on the path once.
    // Inlined, since a call would return the path through memory.
    #[inline(always)]
    pub(crate) fn at(root: &'a Node, unit: Unit, idx: usize) -> (Path<'a>, Found<'a>)
        requires within { idx < count_of unit (info_of root.now.breaks (text root.now)) }
        requires tree { IsTree root.now }
        ensures leaves { leaves result.0 ≡ root.now.leaves }
        ensures leaf { result.1.leaf ≡ result.0.here }
        ensures inside { result.1.inside ≡ info_of root.now.breaks result.0.here }
        ensures holds { HoldsPlace unit root.now.breaks idx result.0.before result.0.here
            result.1.before }
        ensures found { IsFound unit idx root.now result.1.leaf result.1.before }
    {
        let mut here = root;
        // A leaf's counts come from its list's totals, so that no walk misses on the leaf's head.
        let mut inside = root.info();
        let (mut nodes, mut totals): (&[Node], Option<&Totals>) = (&[], None);
        let (mut at, mut rest, mut before) = (0, idx, TextInfo::new());
        'down: loop {
            match here.known_view(inside) {
                View::Leaf(leaf) => {
                    let found = Found {
                        leaf,
                        inside,
                        before,
                    };
                    let leaf = found.leaf.as_str();
                    let start = before.bytes;
                    let path = Path {
                        root,
                        nodes,
                        totals,
                        at,
                        leaf,
                        start,
                    };
                    return (path, found);
                }
                View::Inner(children, sums) => {
                    at = child_at(sums, unit, rest);
                    let child = &children[at];
                    let front = total_before(sums, at);
                    rest -= count(front, unit);
                    before = before.plus(front);
                    inside = sums.get(at).minus(front);
                    (nodes, totals) = (children, Some(sums));
                    here = child;
                }
            }
        }
    }

    /// Returns the text of the leaf.
    pub(crate) fn leaf(&self) -> &'a str
        ensures { chars result.now ≡ self.now.here }
    {
        self.leaf
    }

    /// Returns the number of bytes of the tree's text before the leaf.
    pub(crate) fn start(&self) -> usize
        ensures { result ≡ byte_len (concat self.now.before) }
    {
        self.start
    }

    // Finds the leaf of a tree that contains a byte of its text. Never inlined: most steps stay in
    // the list of the leaf. It takes the root alone: a cursor whose address is never passed can be
    // kept in registers.
    #[inline(never)]
    fn look_up(root: &'a Node, byte_idx: usize, heads: Heads) -> Path<'a>
        requires within { byte_idx < byte_len (text root.now) }
        requires tree { IsTree root.now }
        ensures leaves { leaves result ≡ root.now.leaves }
        ensures starts { byte_len (concat result.before) ≤ byte_idx }
        ensures ends { byte_idx < byte_len (concat result.before) + byte_len result.here }
    {
        let (path, _) = Path::at(root, Unit::Byte, byte_idx);
        if matches!(heads, Heads::Left) || touch_heads(path.nodes) {
            return path;
        }
        Path::at(root, Unit::Byte, byte_idx).0
    }

    /// Returns whether the next leaf, or backward the previous one, is in the same list and has a
    /// line break, by the list's totals, without reading a leaf.
    #[inline(always)]
    fn has_break_beside(&self, is_backward: bool) -> bool {
        let Some(totals) = self.totals else {
            return false;
        };
        let at = if is_backward {
            self.at.wrapping_sub(1)
        } else {
            self.at.wrapping_add(1)
        };
        at < totals.len() && total_before(totals, at).break_count < totals.get(at).break_count
    }

    /// Moves to the next leaf. Returns false, without a move, if there is none.
    #[inline(always)]
    pub(crate) fn step_on(&mut self, heads: Heads) -> bool
        ensures moved { OnTrue result (IsNext self.old self.new) }
        ensures stays { OnFalse result (self.new ≡ self.old) }
        ensures ended { OnFalse result (self.old.after ≡ []) }
    {
        let start = self.start + byte_len_of(self.leaf);
        let at = self.at + 1;
        let (nodes, totals) = (self.nodes, self.totals);
        if at < nodes.len() {
            self.at = at;
            self.leaf = text_in_list(nodes, totals, at);
            self.start = start;
            return true;
        }
        if start == self.root.info().bytes {
            return false;
        }
        *self = Path::look_up(self.root, start, heads);
        true
    }

    // Moves to the previous leaf. Returns false, without a move, if there is none.
    #[inline(always)]
    fn step_back(&mut self) -> bool
        ensures moved { OnTrue result (IsNext self.new self.old) }
        ensures stays { OnFalse result (self.new ≡ self.old) }
        ensures ended { OnFalse result (self.old.before ≡ []) }
    {
        if self.start == 0 {
            return false;
        }
        if self.at > 0 {
            let (nodes, totals) = (self.nodes, self.totals);
            let at = self.at - 1;
            let leaf = text_in_list(nodes, totals, at);
            self.at = at;
            self.leaf = leaf;
            self.start -= byte_len_of(leaf);
            return true;
        }
        let last_before = self.start - 1;
        *self = Path::look_up(self.root, last_before, Heads::Left);
        true
    }

    /// Moves to the next leaf, or backward to the previous one. Returns false, without a move, if
    /// there is none.
    #[inline(always)]
    pub(crate) fn step(&mut self, is_backward: bool, heads: Heads) -> bool
        ensures moved { OnTrue result (IsBeside is_backward self.old self.new) }
        ensures stays { OnFalse result (self.new ≡ self.old) }
        ensures ended { OnFalse result (IsLast is_backward self.old) }
    {
        if is_backward {
            self.step_back()
        } else {
            self.step_on(heads)
        }
    }
}

/// A chunk of an excerpt of a tree, seen as the chunks before it, the chunk, and the chunks after
/// it.
#[derive(Drop)]
pub(crate) struct TreeSpan<'a> {
    path: Path<'a>,
    // the bytes of the text before the excerpt's start, and before its end
    from: usize,
    to: usize,
}

impl<'a> Model for TreeSpan<'a> {
    ghost use Rattle.rope_slice.specs.Path.{Place};
    ghost use Rattle.rope_slice.specs.Span.{clipped_at, IsSpanFrom};

    ghost Value = { Place };

    ghost view = { λ a. clipped_at a.path a.from a.to };

    ghost invariant = { λ a. IsSpanFrom a.path a.from a.to };
}

impl<'a> TreeSpan<'a> {
    /// Returns the chunk of an excerpt that contains a byte or a character, and at the end of the
    /// text the last chunk. Also returns the numbers of bytes, characters and line breaks of the
    /// text before it.
    // Inlined, since a call would return the path through memory.
    #[inline(always)]
    pub(crate) fn holding(excerpt: &Excerpt<'a>, unit: Unit, idx: usize) -> (TreeSpan<'a>, Before)
        requires unit { IsItem unit }
        requires within { idx ≤ size_in unit (excerpt_text excerpt.now) }
        ensures { IsHolding unit idx (excerpt_content excerpt.now)
            result.0 result.1.bytes result.1.chars result.1.break_count }
    {
        let start = excerpt.start;
        let place = excerpt.place(unit, idx).min(count(excerpt.end, unit) - 1);
        let (path, found) = Path::at(excerpt.node, unit, place);
        let (from, to) = (start.bytes, excerpt.end.bytes);
        let span = TreeSpan { path, from, to };
        (span, Before::since(found.before, start))
    }

    /// Returns the chunk of an excerpt in which the line break before a line ends, and the leaf of
    /// that chunk. The line is not the first.
    // Inlined, since a call would return the path through memory.
    #[inline(always)]
    pub(crate) fn at_break(excerpt: &Excerpt<'a>, line_idx: usize) -> (TreeSpan<'a>, Found<'a>)
        requires later { 0 < line_idx }
        requires within { line_idx
            ≤ break_count (excerpt_breaks excerpt.now) (excerpt_text excerpt.now) }
        ensures { IsAtBreak line_idx excerpt.now.node.now excerpt.now.start excerpt.now.end
            result.0 result.1.leaf result.1.inside result.1.before }
    {
        let place = excerpt.place(Unit::LineBreak, line_idx);
        let (path, found) = Path::at(excerpt.node, Unit::LineBreak, place - 1);
        let (from, to) = (excerpt.start.bytes, excerpt.end.bytes);
        (TreeSpan { path, from, to }, found)
    }

    /// Returns whether the adjacent leaf is known at once to have a line break.
    #[inline(always)]
    pub(crate) fn has_break_beside(&self, is_backward: bool) -> bool {
        self.path.has_break_beside(is_backward)
    }

    /// Returns a copy with a path of its own.
    pub(crate) fn copy(&self) -> TreeSpan<'a>
        ensures { result ≡ self.now }
    {
        let path = Path { ..self.path };
        TreeSpan { path, ..*self }
    }

    /// Returns the chunk.
    pub(crate) fn chunk(&self) -> &'a str
        ensures { chars result.now ≡ self.now.here }
    {
        let leaf = self.path.leaf();
        let start = self.path.start();
        let low = self.from.saturating_sub(start);
        let high = (self.to - start).min(leaf.len());
        &leaf[low..high]
    }

    /// Moves to the next chunk, or backward to the previous one. Returns false, without a move, if
    /// there is none.
    #[inline(always)]
    pub(crate) fn step(&mut self, is_backward: bool, heads: Heads) -> bool
        ensures moved { OnTrue result (IsBeside is_backward self.old self.new) }
        ensures stays { OnFalse result (self.new ≡ self.old) }
        ensures ended { OnFalse result (IsLast is_backward self.old) }
    {
        let start = self.path.start();
        if is_backward {
            return self.from < start && self.path.step(true, heads);
        }
        self.path.leaf().len() < self.to - start && self.path.step(false, heads)
    }
}
