//! Edits in place: inserts of short texts, removals from one leaf or from two adjacent ones, and
//! inserts that split full nodes.
//!
//! Each edit is one descent to the leaf. On the ascent it adds the change of the counts to the
//! totals of each list, from the child's index on.
//!
//! - `insert_in_place`: a leaf with room takes the text. A leaf without room is split into two, if
//!   the list above it has room for one more child.
//! - `insert_splitting`: for a leaf in a full list, and for medium texts. The child below the
//!   lowest list with room, other than the leaf's own, is replaced by one or two new nodes.
//! - `remove_in_place`: a leaf, or two adjacent ones below one node, lose the characters. Both have
//!   to stay long enough beside their neighbours ([`Least`]).
//!
//! The first and the last copy each node on the path that another tree shares. Without shared
//! nodes, they allocate only the second leaf of a split. Each edit returns false, with the text
//! unchanged, where it does not apply. If an allocation fails, the text is unchanged too.
//!
//! Each list keeps the index of the child of its last edit. While a descent follows the path of the
//! last edit (`follows`), it tries that child before it searches. Where the paths differ, it
//! prefetches the lowest list and the leaf, so that their cache misses overlap.
ghost use Rattle.std.specs.Prelude.{◌≡◌, ◌+◌, ◌*◌, ◌<◌, ◌≤◌, ◌-◌, ◌^◌, [], ◌∷◌, true, false, length, take, slice_index_or, Ok, IfOk, OnErr, IfSome};
ghost use Rattle.std.specs.List.{insert};
ghost use Rattle.rope_text.specs.declared.TheConstants.{MAX_CHILDREN, MAX_SHORT_BYTES};
ghost use Rattle.rope_text.specs.Text.{byte_len};
ghost use Rattle.rope_text.specs.Edit.{inserted};
ghost use Rattle.rope_leaf.specs.Tree.{Tree, text, joined, height_of, tree_over, IsTree, AreFamily};
ghost use Rattle.rope_tree.specs.declared.node.in_place.Cut.TheVariants.{Kept, Grown, Split};
ghost use Rattle.rope_leaf.specs.Change.{GrowsBy, FallsBy, GrowBy, FallBy};
ghost use Rattle.rope_leaf.specs.Searched.{HasSearched};
ghost use Rattle.rope_tree.specs.Cut.{IsCut};
ghost use Rattle.rope_leaf.specs.Insert.{TakesShort, Takes, MayInsert, GoesIn, IsInserted, AreGrown, extra_leaves};
ghost use Rattle.rope_leaf.specs.Removal.{IsRemoved, AreRemoved};
ghost use Rattle.rope_tree.specs.Tries.{IsTried};

use super::anew::insert;
use super::row::{Row, list_of};
use super::{Children, Form, Node, Nodes};
use crate::{Editor, Made, Maker, MediumText, ShortText, Totals, total_before};
use rope_leaf::{Leaf, Least, char_to_hold, least_at, try_place};
use rope_text::{MAX_BYTES, MAX_CHILDREN, TextInfo};
use std::rc::Rc;

/// Replaces a leaf by a copy with no other owner.
#[inline(never)]
fn copy_leaf(leaf: &mut Rc<Leaf>, maker: &mut Maker) -> Made<()>
    ensures same { leaf.new.value ≡ leaf.old.value }
    ensures made { maker.new.made ≤ maker.old.made + 1 }
    ensures added { maker.old.made + 1 < 2 ^ 64 → maker.new.made ≡ maker.old.made + 1 }
{
    maker.add_made();
    *leaf = Leaf::of_text(
        maker.alloc,
        leaf.line_breaks(),
        leaf.known_text(leaf.info()).as_str(),
        leaf.info(),
    )?;
    Ok(())
}

/// Replaces a list of children by a copy with no other owner.
#[inline(never)]
fn copy_children(children: &mut Rc<Children>, maker: &mut Maker) -> Made<()>
    requires { AreFamily children.old.value }
    ensures same { children.new.value ≡ children.old.value }
    ensures made { maker.new.made ≤ maker.old.made + 1 }
    ensures added { maker.old.made + 1 < 2 ^ 64 → maker.new.made ≡ maker.old.made + 1 }
{
    let (nodes, totals) = children.parts();
    *children = list_of(maker, &(Row::of(nodes, totals), Row::none(), Row::none()))?;
    Ok(())
}

/// Takes ownership of a leaf: replaces it by a copy if another node shares it.
#[inline(always)]
pub(super) fn own_leaf(leaf: &mut Rc<Leaf>, maker: &mut Maker) -> Made<()>
    ensures same { leaf.new.value ≡ leaf.old.value }
    ensures made { maker.new.made ≤ maker.old.made + 1 }
{
    if Rc::strong_count(leaf) > 1 {
        return copy_leaf(leaf, maker);
    }
    Ok(())
}

/// Takes ownership of a list of children: replaces it by a copy if another node shares it.
#[inline(always)]
fn own_children(children: &mut Rc<Children>, maker: &mut Maker) -> Made<()>
    requires { AreFamily children.old.value }
    ensures same { children.new.value ≡ children.old.value }
    ensures made { maker.new.made ≤ maker.old.made + 1 }
{
    if Rc::strong_count(children) > 1 {
        return copy_children(children, maker);
    }
    Ok(())
}

/// Prefetches the list: reads a child in each cache line, so that the search and the step to a
/// child don't miss on them one by one. Always returns false: callers test the result so that the
/// reads aren't optimized away.
#[inline(never)]
fn touch_list(nodes: &[Node; MAX_CHILDREN]) -> bool {
    nodes[0].is_empty()
        & nodes[4].is_empty()
        & nodes[8].is_empty()
        & nodes[12].is_empty()
        & nodes[16].is_empty()
        & nodes[20].is_empty()
}

/// If the child at an index is a leaf, prefetches the bytes that an edit at its character `at`
/// scans. Its length comes from the totals. Returns the result of `Leaf::touch`.
#[inline(never)]
fn touch_leaf(totals: &Totals, nodes: &[Node], place: usize, at: usize) -> bool
    requires totals { place < length totals.now }
    requires nodes { place < length nodes.now }
{
    let before = total_before(totals, place);
    let total = totals.get(place);
    let bytes = total.bytes.wrapping_sub(before.bytes);
    let chars = total.chars.wrapping_sub(before.chars);
    let is_after = bytes == chars || at > chars / 2;
    let from = if is_after { at } else { 0 };
    matches!(nodes[place].leaf(), Some(leaf) if leaf.touch(from, bytes))
}

/// Returns the result of an edit that changed nothing. Marked cold, so the hot path falls through.
#[cold]
#[inline(never)]
fn unchanged() -> Made<bool>
    ensures { result ≡ Ok false }
{
    Ok(false)
}

/// The outcome of splitting a full node.
#[derive(Drop)]
enum Cut {
    /// The node is unchanged: it had room after all.
    Kept,
    /// The node took the text without a split.
    Grown,
    /// The node kept the first half of the text; this node has the second.
    Split(Node),
}

/// Inserts a node after the one at an index, and drops the last one, which is empty.
fn put_after(nodes: &mut [Node], place: usize, node: Node)
    requires { place + 1 < length nodes.old }
    ensures { nodes.new ≡ insert (take (length nodes.old - 1) nodes.old) (place + 1) node }
{
    let last = nodes.len() - 1;
    nodes[last] = node;
    nodes[place + 1..].rotate_right(1);
}

/// The next step of a descent, from a list of children.
#[derive(Clone, Copy)]
pub(super) struct Branch {
    /// The index of the child.
    pub(super) place: usize,
    /// The character index in the child.
    pub(super) inside: usize,
    /// Whether the path still follows that of the last edit.
    follows: bool,
}

impl Children {
    /// Returns the step to the child that takes a text before the character `at`. While the path
    /// follows that of the last edit, the child of that edit is tried first.
    #[inline(always)]
    pub(super) fn branch_at(
        &self,
        editor: &mut Editor,
        at: usize,
        to_right: bool,
        follows: bool,
    ) -> Branch
        requires children { AreFamily self.now }
        requires within { at ≤ length (joined self.now) }
        requires right { to_right ≡ true → at < length (joined self.now) }
        ensures made { editor.new.maker.made ≡ editor.old.maker.made }
        ensures searched { HasSearched 1 7 editor.old editor.new }
        ensures searched_anew { follows ≡ false → HasSearched 1 5 editor.old editor.new }
        ensures child { result.place < length self.now }
        ensures place { at ≡ length (joined (take result.place self.now)) + result.inside }
        ensures goes { (child : Tree)
            → GoesIn at result.inside (length (text (slice_index_or self.now result.place child)))
            to_right }
    {
        let held = char_to_hold(at, to_right);
        let (place, follows) = try_place(
            editor,
            &self.totals,
            held,
            usize::from(self.last),
            follows,
        );
        let before = total_before(&self.totals, place).chars;
        Branch {
            place,
            inside: at - before,
            follows,
        }
    }

    /// Returns the step to the child that takes a text before the character `at`. Where the path
    /// leaves that of the last edit, prefetches the list and the leaf. Returns `None` only if
    /// `touch_list` or `touch_leaf` return true, which they never do.
    #[inline(always)]
    fn locate(
        &self,
        editor: &mut Editor,
        at: usize,
        to_right: bool,
        follows: bool,
    ) -> Option<Branch>
        requires children { AreFamily self.now }
        requires within { at ≤ length (joined self.now) }
        requires right { to_right ≡ true → at < length (joined self.now) }
        ensures made { editor.new.maker.made ≡ editor.old.maker.made }
        ensures searched { HasSearched 1 7 editor.old editor.new }
        ensures child { IfSome result (λ descent. descent.place < length self.now) }
        ensures place { IfSome result
            (λ descent. at ≡ length (joined (take descent.place self.now)) + descent.inside) }
        ensures goes { IfSome result
            (λ descent. (child : Tree)
            → GoesIn at descent.inside (length (text (slice_index_or self.now descent.place child)))
            to_right) }
    {
        if !follows && self.height == 1 && touch_list(&self.nodes) {
            return None;
        }
        let descent = self.branch_at(editor, at, to_right, follows);
        let Branch { place, inside, .. } = descent;
        if !descent.follows
            && self.height == 1
            && touch_leaf(&self.totals, &self.nodes, place, inside)
        {
            return None;
        }
        Some(descent)
    }

    /// Inserts a text before the character `at`, if its leaf has room, or if the list above the
    /// leaf has room for one more child. Returns whether it did, and in `more` by how much the
    /// counts grew.
    #[cycle(in_place)]
    #[inline(never)]
    fn insert_in_place(
        &mut self,
        editor: &mut Editor,
        at: usize,
        added: &ShortText<'_>,
        to_right: bool,
        follows: bool,
        more: &mut TextInfo,
    ) -> Made<bool>
        requires children { AreFamily self.old }
        requires takes { TakesShort (tree_over self.old) at added.now }
        requires side { MayInsert (tree_over self.old) at added.now to_right }
        ensures change { IfOk result (λ did. did ≡ true → GrowBy more.new self.old self.new) }
        ensures made { editor.new.maker.made ≤ editor.old.maker.made + height_of self.old + 2 }
        ensures searched { HasSearched (height_of self.old + 2) (14 * height_of self.old + 14)
            editor.old editor.new }
        ensures idle { IfOk result (λ did.
            did ≡ false → editor.new.maker.made ≤ editor.old.maker.made + height_of self.old + 1) }
        ensures tried { IsTried result self.old self.new
            (AreGrown self.old self.new (inserted (joined self.old) at added.now)) }
    {
        if !self.totals.has_room_for(added.len()) {
            return unchanged();
        }
        let Some(descent) = self.locate(editor, at, to_right, follows) else {
            return unchanged();
        };
        let Branch {
            place,
            inside,
            follows,
        } = descent;
        let most = MAX_BYTES.saturating_sub(added.len());
        if self.nodes[place].is_leaf_above(most) {
            return self.cut_child(editor, at, added, to_right, more);
        }
        let node = &mut self.nodes[place];
        if !node.insert_in_place(editor, inside, added, to_right, follows, more)? {
            return unchanged();
        }
        self.totals.grow(place, more);
        self.last = place as u8;
        Ok(true)
    }

    /// Inserts a text before the character `at` by splitting the child that has no room for it, if
    /// the list has room for one more child. Returns whether it did, and in `more` by how much the
    /// counts grew.
    #[cold]
    #[inline(never)]
    fn cut_child(
        &mut self,
        editor: &mut Editor,
        at: usize,
        added: &ShortText<'_>,
        to_right: bool,
        more: &mut TextInfo,
    ) -> Made<bool>
        requires children { AreFamily self.old }
        requires takes { TakesShort (tree_over self.old) at added.now }
        requires side { MayInsert (tree_over self.old) at added.now to_right }
        ensures change { IfOk result (λ did. did ≡ true → GrowBy more.new self.old self.new) }
        ensures made { editor.new.maker.made ≤ editor.old.maker.made + 2 * height_of self.old + 2 }
        ensures searched { HasSearched (height_of self.old + 1) (7 * height_of self.old + 7)
            editor.old editor.new }
        ensures idle { IfOk result (λ did. did ≡ false → editor.new.maker.made
            ≤ editor.old.maker.made + 1) }
        ensures idle_above { IfOk result (λ did.
            did ≡ false → 1 ≤ height_of self.old → editor.new.maker.made ≡ editor.old.maker.made) }
        ensures idle_above_searched { IfOk result (λ did.
            did ≡ false → 1 ≤ height_of self.old → HasSearched 0 0 editor.old editor.new) }
        ensures tried { IsTried result self.old self.new
            (AreGrown self.old self.new (inserted (joined self.old) at added.now)) }
    {
        let before = self.total();
        if !self.split_child(editor, at, &added.as_medium(), to_right)? {
            return Ok(false);
        }
        *more = self.total().minus(before);
        Ok(true)
    }

    /// Inserts a text before the character `at` by splitting the child that has no room for it, if
    /// the list has room for one more child. Returns whether it did, without reporting the growth
    /// of the counts.
    fn split_child(
        &mut self,
        editor: &mut Editor,
        at: usize,
        added: &MediumText<'_>,
        to_right: bool,
    ) -> Made<bool>
        requires children { AreFamily self.old }
        requires takes { Takes (tree_over self.old) at added.now }
        requires low { height_of self.old ≡ 0 → byte_len added.now ≤ MAX_SHORT_BYTES }
        requires side { MayInsert (tree_over self.old) at added.now to_right }
        ensures made { editor.new.maker.made
            ≤ editor.old.maker.made + 2 * height_of self.old + 2
            + extra_leaves (byte_len added.now) }
        ensures searched { HasSearched (height_of self.old + 1) (7 * height_of self.old + 7)
            editor.old editor.new }
        ensures idle { IfOk result (λ did. did ≡ false → editor.new.maker.made
            ≤ editor.old.maker.made + 1) }
        ensures idle_above { IfOk result (λ did.
            did ≡ false → 1 ≤ height_of self.old → editor.new.maker.made ≡ editor.old.maker.made) }
        ensures idle_above_searched { IfOk result (λ did.
            did ≡ false → 1 ≤ height_of self.old → HasSearched 0 0 editor.old editor.new) }
        ensures full { IfOk result (λ did. did ≡ false → 1 ≤ height_of self.old
            → length self.old < MAX_CHILDREN
            → 2 ^ 32 ≤ byte_len (joined self.old) + byte_len added.now) }
        ensures tried { IsTried result self.old self.new
            (AreGrown self.old self.new (inserted (joined self.old) at added.now)) }
    {
        let count = self.totals.len();
        if count >= MAX_CHILDREN || !self.totals.has_room_for(added.len()) {
            return Ok(false);
        }
        let Branch { place, inside, .. } = self.branch_at(editor, at, to_right, false);
        let node = &mut self.nodes[place];
        let old = node.info();
        let back = match node.cut(editor, inside, added, to_right)? {
            Cut::Kept => return Ok(false),
            Cut::Grown => {
                let new = node.info();
                self.totals.retotal(place, old, new);
                return Ok(true);
            }
            Cut::Split(back) => back,
        };
        let front = node.info();
        let total = total_before(&self.totals, place).plus(front);
        self.totals.retotal(place, old, front.plus(back.info()));
        self.totals.insert(place, total);
        put_after(&mut self.nodes[..count + 1], place, back);
        Ok(true)
    }

    /// Inserts a text before the character `at`, if a list on the path, other than the lowest, has
    /// room for one more child: the full list below it is split into two. Returns whether it did:
    /// not if no list has room, or if a node on the path is shared.
    #[cycle(splitting)]
    #[cold]
    #[inline(never)]
    fn insert_splitting(
        &mut self,
        editor: &mut Editor,
        at: usize,
        added: &MediumText<'_>,
        to_right: bool,
    ) -> Made<bool>
        requires children { AreFamily self.old }
        requires takes { Takes (tree_over self.old) at added.now }
        requires side { MayInsert (tree_over self.old) at added.now to_right }
        ensures made { editor.new.maker.made
            ≤ editor.old.maker.made + 2 * height_of self.old + 2
            + extra_leaves (byte_len added.now) }
        ensures searched { HasSearched (2 * height_of self.old + 2) (14 * height_of self.old + 14)
            editor.old editor.new }
        ensures idle_searched { IfOk result (λ did. did ≡ false
            → HasSearched (height_of self.old + 1) (7 * height_of self.old
            + 7) editor.old editor.new) }
        ensures idle { IfOk result (λ did. did ≡ false
            → editor.new.maker.made ≡ editor.old.maker.made) }
        ensures tried { IsTried result self.old self.new
            (AreGrown self.old self.new (inserted (joined self.old) at added.now)) }
    {
        if self.height == 1 || !self.totals.has_room_for(added.len()) {
            return Ok(false);
        }
        let Branch { place, inside, .. } = self.branch_at(editor, at, to_right, false);
        let node = &mut self.nodes[place];
        let old = node.info();
        if !node.insert_splitting(editor, inside, added, to_right)? {
            return self.split_child(editor, at, added, to_right);
        }
        let grown = node.info();
        self.totals.retotal(place, old, grown);
        Ok(true)
    }

    /// Removes the characters from `start` up to `end`, if they are in one leaf or in two adjacent
    /// ones below one node, and these stay long enough beside their neighbours. Returns whether it
    /// did, and in `less` by how much the counts fell.
    #[cycle(in_place_removal)]
    #[inline(never)]
    fn remove_in_place(
        &mut self,
        editor: &mut Editor,
        start: usize,
        end: usize,
        least: Least,
        follows: bool,
        less: &mut TextInfo,
    ) -> Made<bool>
        requires children { AreFamily self.old }
        requires ordered { start < end }
        requires within { end ≤ length (joined self.old) }
        ensures change { IfOk result (λ did. did ≡ true → FallBy less.new self.old self.new) }
        ensures made { editor.new.maker.made ≤ editor.old.maker.made + height_of self.old + 2 }
        ensures idle { IfOk result (λ did.
            did ≡ false → editor.new.maker.made ≤ editor.old.maker.made + height_of self.old + 1) }
        ensures searched { HasSearched (height_of self.old + 1) (7 * height_of self.old + 7)
            editor.old editor.new }
        ensures tried { IsTried result self.old self.new
            (AreRemoved least.first least.last self.old self.new start end) }
    {
        let Some(descent) = self.locate(editor, start, true, follows) else {
            return unchanged();
        };
        let Branch {
            place,
            inside,
            follows,
        } = descent;
        if self.totals.get(place).chars < end {
            let maker = &mut editor.maker;
            return self.remove_across(maker, place, start, inside, end, least, less);
        }
        let least = least_at(usize::from(self.height), &self.totals, place, least);
        let node = &mut self.nodes[place];
        if !node.remove_in_place(editor, inside, end - (start - inside), least, follows, less)? {
            return unchanged();
        }
        self.totals.retotal(place, *less, TextInfo::new());
        self.last = place as u8;
        Ok(true)
    }
}

impl Node {
    /// Returns whether the node is a leaf of more than `bytes` bytes.
    #[inline(always)]
    fn is_leaf_above(&self, bytes: usize) -> bool
        ensures flat { result ≡ true → self.now.height ≡ 0 }
        ensures above { result ≡ true → bytes < byte_len (text self.now) }
        ensures not_above { result ≡ false → self.now.height ≡ 0
            → byte_len (text self.now) ≤ bytes }
    {
        matches!(self.leaf(), Some(leaf) if leaf.info().bytes > bytes)
    }

    /// Inserts a text of at most 981 bytes before the character `at`, if its leaf has room, or if
    /// the list above the leaf has room for one more child. Returns whether it did, and in `more`
    /// by how much the counts grew. `follows` says whether the path so far follows that of the last
    /// edit.
    #[cycle(in_place)]
    #[inline(always)]
    pub(crate) fn insert_in_place(
        &mut self,
        editor: &mut Editor,
        at: usize,
        added: &ShortText<'_>,
        to_right: bool,
        follows: bool,
        more: &mut TextInfo,
    ) -> Made<bool>
        requires takes { TakesShort self.old at added.now }
        requires side { MayInsert self.old at added.now to_right }
        ensures change { IfOk result (λ did. did ≡ true → GrowsBy more.new self.old self.new) }
        ensures made { editor.new.maker.made ≤ editor.old.maker.made + self.old.height + 2 }
        ensures searched { HasSearched (self.old.height
            + 1) (14 * self.old.height) editor.old editor.new }
        ensures idle { IfOk result (λ did.
            did ≡ false → editor.new.maker.made ≤ editor.old.maker.made + self.old.height + 1) }
        ensures tree { IsTree self.new }
        ensures tried { IsTried result self.old self.new
            (IsInserted self.old (self.new ∷ []) (inserted (text self.old) at added.now)) }
    {
        match &mut self.form {
            Form::Empty(_) => Ok(false),
            Form::Leaf(leaf) => {
                own_leaf(leaf, &mut editor.maker)?;
                match Rc::get_mut(leaf) {
                    Some(leaf) => Ok(leaf.insert_in_place(at, added, more)),
                    None => Ok(false),
                }
            }
            Form::Inner(children) => {
                own_children(children, &mut editor.maker)?;
                match Rc::get_mut(children) {
                    Some(children) => {
                        children.insert_in_place(editor, at, added, to_right, follows, more)
                    }
                    None => Ok(false),
                }
            }
        }
    }

    /// Inserts a text before the character `at`, if a list on the path, other than the lowest, has
    /// room for one more child, and no node on the path to it is shared. Returns whether it did.
    #[cycle(splitting)]
    pub(crate) fn insert_splitting(
        &mut self,
        editor: &mut Editor,
        at: usize,
        added: &MediumText<'_>,
        to_right: bool,
    ) -> Made<bool>
        requires takes { Takes self.old at added.now }
        requires side { MayInsert self.old at added.now to_right }
        ensures made { editor.new.maker.made
            ≤ editor.old.maker.made + 2 * self.old.height + extra_leaves (byte_len added.now) }
        ensures idle { IfOk result (λ did. did ≡ false
            → editor.new.maker.made ≡ editor.old.maker.made) }
        ensures searched { HasSearched (2 * self.old.height) (14 * self.old.height) editor.old
            editor.new }
        ensures idle_searched { IfOk result (λ did. did ≡ false
            → HasSearched self.old.height (7 * self.old.height) editor.old editor.new) }
        ensures tree { IsTree self.new }
        ensures tried { IsTried result self.old self.new
            (IsInserted self.old (self.new ∷ []) (inserted (text self.old) at added.now)) }
    {
        match &mut self.form {
            Form::Inner(children) => match Rc::get_mut(children) {
                Some(children) => children.insert_splitting(editor, at, added, to_right),
                None => Ok(false),
            },
            _ => Ok(false),
        }
    }

    /// Inserts a text before the character `at` of a node that has no room for it: keeps the first
    /// half here, and returns the second.
    fn cut(
        &mut self,
        editor: &mut Editor,
        at: usize,
        added: &MediumText<'_>,
        to_right: bool,
    ) -> Made<Cut>
        requires takes { Takes self.old at added.now }
        requires low { self.old.height ≡ 0 → byte_len added.now ≤ MAX_SHORT_BYTES }
        requires side { MayInsert self.old at added.now to_right }
        ensures cut { IfOk result
            (IsCut self.old self.new (inserted (text self.old) at added.now)) }
        ensures err { OnErr result (self.new ≡ self.old) }
        ensures made { editor.new.maker.made
            ≤ editor.old.maker.made + 2 * self.old.height + 2 + extra_leaves (byte_len added.now) }
        ensures searched { HasSearched self.old.height (7 * self.old.height) editor.old editor.new }
        ensures idle { IfOk result (λ cut. cut ≡ Kept → editor.new.maker.made
            ≤ editor.old.maker.made + 1) }
        ensures inner { IfOk result (λ cut. cut ≡ Kept → self.old.height ≡ 0) }
    {
        if let Form::Inner(_) = self.form {
            return self.cut_anew(editor, at, added, to_right);
        }
        let Form::Leaf(leaf) = &mut self.form else {
            return Ok(Cut::Kept);
        };
        own_leaf(leaf, &mut editor.maker)?;
        let Some(leaf) = Rc::get_mut(leaf) else {
            return Ok(Cut::Kept);
        };
        match leaf.cut(&mut editor.maker, at, &added.as_short())? {
            Some(back) => Ok(Cut::Split(Node::of_leaf(back))),
            None => Ok(Cut::Kept),
        }
    }

    /// Inserts a text before the character `at` of a node by one or two new nodes, which
    /// share the nodes off the path. The first replaces this node, as the last step.
    fn cut_anew(
        &mut self,
        editor: &mut Editor,
        at: usize,
        added: &MediumText<'_>,
        to_right: bool,
    ) -> Made<Cut>
        requires takes { Takes self.old at added.now }
        requires low { self.old.height ≡ 0 → byte_len added.now ≤ MAX_SHORT_BYTES }
        requires side { MayInsert self.old at added.now to_right }
        ensures cut { IfOk result
            (IsCut self.old self.new (inserted (text self.old) at added.now)) }
        ensures done { IfOk result (λ cut. cut ≡ Kept → ⊥) }
        ensures err { OnErr result (self.new ≡ self.old) }
        ensures made { editor.new.maker.made
            ≤ editor.old.maker.made + 2 * self.old.height + 2 + extra_leaves (byte_len added.now) }
        ensures searched { HasSearched self.old.height (5 * self.old.height) editor.old editor.new }
    {
        match insert(editor, self, at, added, to_right)? {
            Nodes::One(node) => {
                *self = node;
                Ok(Cut::Grown)
            }
            Nodes::Two(front, back) => {
                *self = front;
                Ok(Cut::Split(back))
            }
        }
    }

    /// Removes the characters from `start` up to `end`, if they are in one leaf or in two adjacent
    /// ones below one node. The first leaf of the tree keeps at least `least.first` bytes, and the
    /// last one `least.last`. Returns whether it did, and in `less` by how much the counts fell.
    /// `follows` says whether the path so far follows that of the last edit.
    #[cycle(in_place_removal)]
    #[inline(always)]
    pub(crate) fn remove_in_place(
        &mut self,
        editor: &mut Editor,
        start: usize,
        end: usize,
        least: Least,
        follows: bool,
        less: &mut TextInfo,
    ) -> Made<bool>
        requires ordered { start < end }
        requires within { end ≤ length (text self.old) }
        ensures change { IfOk result (λ did. did ≡ true → FallsBy less.new self.old self.new) }
        ensures made { editor.new.maker.made ≤ editor.old.maker.made + self.old.height + 2 }
        ensures idle { IfOk result (λ did.
            did ≡ false → editor.new.maker.made ≤ editor.old.maker.made + self.old.height + 1) }
        ensures searched { HasSearched self.old.height (7 * self.old.height) editor.old editor.new }
        ensures tree { IsTree self.new }
        ensures tried { IsTried result self.old self.new
            (IsRemoved least.first least.last self.old self.new start end) }
    {
        match &mut self.form {
            Form::Empty(_) => Ok(false),
            Form::Leaf(leaf) => {
                own_leaf(leaf, &mut editor.maker)?;
                match Rc::get_mut(leaf) {
                    Some(leaf) => Ok(leaf.remove_in_place(start, end, least, less)),
                    None => Ok(false),
                }
            }
            Form::Inner(children) => {
                own_children(children, &mut editor.maker)?;
                match Rc::get_mut(children) {
                    Some(children) => {
                        children.remove_in_place(editor, start, end, least, follows, less)
                    }
                    None => Ok(false),
                }
            }
        }
    }
}
