//! Removals in place over several leaves of one list, or of two lists below one node.
//!
//! The first leaf loses its end, the last one its start, and those between them are dropped. What
//! is left of the lists moves into one list or two, together with the children of the list before
//! them, so that each keeps at least 12. No memory is taken, so nothing fails: where a node has
//! another owner, a leaf would be too short, or there is no leaf or list before or after those that
//! change, the tree is as it was, and the caller makes a new tree.
ghost use Rattle.std.specs.Prelude.{◌≡◌, ◌+◌, ◌-◌, ◌*◌, ◌^◌, ◌<◌, ◌≤◌, [], ◌∷◌, ◌++◌, true, false, length, take, drop, slice_index_or, IfOk, IfSome, IfNone, OnErr};
ghost use Rattle.std.specs.List.{All};
ghost use Rattle.rope_text.specs.declared.TheConstants.{MAX_CHILDREN, MIN_CHILDREN, MIN_TWO_LEAVES_BYTES};
ghost use Rattle.rope_text.specs.Text.{byte_len};
ghost use Rattle.rope_text.specs.Edit.{removed};
ghost use Rattle.rope_text.specs.Dense.{IsDenseAfter, last_bytes};
ghost use Rattle.rope_leaf.specs.Leaves.{IsSeam};
ghost use Rattle.rope_leaf.specs.Tree.{Tree, text, joined, leaves_of, leaf_tree, height_of, breaks_of, tree_over, IsTree, IsChild, AreFamily};
ghost use Rattle.rope_leaf.specs.Siblings.{AreSiblings, AreLevel};
ghost use Rattle.rope_leaf.specs.Searched.{HasSearched};
ghost use Rattle.rope_tree.specs.Removed.{KeepsFront, AreParted, AreWithout};
ghost use Rattle.rope_tree.specs.Split.{nodes_over};

use super::in_place::Branch;
use super::moves::{MAX_NARROW_BYTES, over};
use super::{Children, Node};
use crate::Editor;
use rope_text::{MAX_CHILDREN, MIN_CHILDREN};
use std::mem;

impl Children {
    /// Keeps the leaves before the character `start`, of which the last one loses its end, and
    /// removes the first `end` characters of the leaf after them, if both stay long enough beside
    /// each other, beside the leaf before them and beside one of `after` bytes. Returns whether it
    /// did.
    fn shorten(
        &mut self,
        editor: &mut Editor,
        start: usize,
        leaf: &mut Node,
        end: usize,
        after: usize,
    ) -> bool
        requires level { AreLevel self.old }
        requires leaves { height_of self.old ≡ 0 }
        requires few { byte_len (joined self.old) < 2 ^ 32 }
        requires most { length self.old ≤ MAX_CHILDREN }
        requires leaf { leaf.old.height ≡ 0 }
        requires some { 1 ≤ end }
        requires within { end ≤ length (text leaf.old) }
        ensures front { result ≡ true → KeepsFront start (leaves_of self.old) (leaves_of self.new) }
        ensures level { result ≡ true
            → AreSiblings (breaks_of self.old) 0 self.new }
        ensures some { result ≡ true → 1 ≤ length self.new }
        ensures fewer { result ≡ true → length self.new ≤ length self.old }
        ensures leaf { result ≡ true
            → leaf.new ≡ leaf_tree leaf.old.breaks (drop end (text leaf.old)) }
        ensures leaf_tree { result ≡ true → IsTree leaf.new }
        ensures some_left { result ≡ true → end < length (text leaf.old) }
        ensures seam { result ≡ true → IsSeam (joined self.new) (text leaf.new) }
        ensures near { result ≡ true → MIN_TWO_LEAVES_BYTES
            ≤ last_bytes MIN_TWO_LEAVES_BYTES (leaves_of self.new) + byte_len (text leaf.new) }
        ensures long { result ≡ true → MIN_TWO_LEAVES_BYTES ≤ byte_len (text leaf.new) + after }
        ensures kept { result ≡ false → self.new ≡ self.old }
        ensures kept_leaf { result ≡ false → leaf.new ≡ leaf.old }
        ensures made { editor.new.maker.made ≡ editor.old.maker.made }
        ensures searched { HasSearched 1 5 editor.old editor.new }
    {
        if self.count() < 2 || start >= self.total().chars {
            return false;
        }
        let Branch { place, inside, .. } = self.branch_at(editor, start, true, false);
        if place == 0 {
            return false;
        }
        let mut middle = Children::none();
        middle.take_from(self, place + 1);
        let mut last = self.pop();
        if last.shorten_both(leaf, inside, end, self.last_leaf_len(), after) {
            self.push(last);
            return true;
        }
        self.push(last);
        self.take_from(&mut middle, 0);
        false
    }

    /// Removes the characters from `start` up to `end`, which lie in these leaves, as
    /// [`shorten`](Children::shorten) does. Returns whether it did.
    fn remove_leaves(&mut self, editor: &mut Editor, start: usize, end: usize) -> bool
        requires children { AreFamily self.old }
        requires leaves { height_of self.old ≡ 0 }
        requires few { byte_len (joined self.old) < 2 ^ 32 }
        requires ordered { start < end }
        requires within { end ≤ length (joined self.old) }
        ensures without { result ≡ true
            → AreWithout start end (leaves_of self.old) (leaves_of self.new) }
        ensures each { result ≡ true
            → All (IsChild (breaks_of self.old) 0) self.new }
        ensures some { result ≡ true → 1 ≤ length self.new }
        ensures most { result ≡ true → length self.new ≤ MAX_CHILDREN }
        ensures kept { result ≡ false → self.new ≡ self.old }
        ensures made { editor.new.maker.made ≡ editor.old.maker.made }
        ensures searched { HasSearched 2 10 editor.old editor.new }
    {
        let Branch { place, inside, .. } = self.branch_at(editor, end, false, false);
        if place + 1 == self.count() {
            return false;
        }
        let mut rest = Children::none();
        rest.take_from(self, place + 1);
        let mut leaf = self.pop();
        if self.shorten(editor, start, &mut leaf, inside, rest.first_leaf_len()) {
            self.push(leaf);
            self.take_from(&mut rest, 0);
            return true;
        }
        self.push(leaf);
        self.take_from(&mut rest, 0);
        false
    }

    /// Keeps the leaves before the character `start`, and of those of a list that follows later
    /// the ones from the character `end` on, as [`shorten`](Children::shorten) does. Returns
    /// whether it did.
    fn shorten_two(
        &mut self,
        editor: &mut Editor,
        start: usize,
        right: &mut Children,
        end: usize,
    ) -> bool
        requires children { AreFamily self.old }
        requires leaves { height_of self.old ≡ 0 }
        requires few { byte_len (joined self.old) < 2 ^ 32 }
        requires right { AreFamily right.old }
        requires right_leaves { height_of right.old ≡ 0 }
        requires right_few { byte_len (joined right.old) < 2 ^ 32 }
        requires same_breaks { breaks_of right.old ≡ breaks_of self.old }
        requires some { 1 ≤ end }
        requires within { end ≤ length (joined right.old) }
        ensures parted { result ≡ true → AreParted start end (leaves_of self.old)
            (leaves_of right.old) (leaves_of self.new ++ leaves_of right.new) }
        ensures each { result ≡ true
            → All (IsChild (breaks_of self.old) 0) (self.new ++ right.new) }
        ensures some { result ≡ true → 1 ≤ length self.new }
        ensures most { result ≡ true → length self.new ≤ MAX_CHILDREN }
        ensures most_right { result ≡ true → length right.new ≤ MAX_CHILDREN }
        ensures kept { result ≡ false → self.new ≡ self.old }
        ensures kept_right { result ≡ false → right.new ≡ right.old }
        ensures made { editor.new.maker.made ≡ editor.old.maker.made }
        ensures searched { HasSearched 2 10 editor.old editor.new }
    {
        let Branch { place, inside, .. } = right.branch_at(editor, end, false, false);
        if place + 1 == right.count() {
            return false;
        }
        let mut rest = Children::none();
        rest.take_from(right, place + 1);
        let mut leaf = right.pop();
        if self.shorten(editor, start, &mut leaf, inside, rest.first_leaf_len()) {
            rest.push_front(leaf);
            mem::swap(right, &mut rest);
            return true;
        }
        right.push(leaf);
        right.take_from(&mut rest, 0);
        false
    }

    /// Moves the children of two adjacent lists into the first one, if they fit, and else halves
    /// them.
    fn gather(&mut self, right: &mut Children, pocket: &mut Children)
        requires level { AreLevel (self.old ++ right.old) }
        requires few { byte_len (joined (self.old ++ right.old)) < 2 ^ 32 }
        requires some { 1 ≤ length self.old }
        requires most { length self.old ≤ MAX_CHILDREN }
        requires most_right { length right.old ≤ MAX_CHILDREN }
        requires none { pocket.old ≡ [] }
        ensures same { self.new ++ right.new ≡ self.old ++ right.old }
        ensures some { 1 ≤ length self.new }
        ensures most { length self.new ≤ MAX_CHILDREN }
        ensures least_right { 1 ≤ length right.new → MIN_CHILDREN ≤ length right.new }
        ensures most_right { length right.new ≤ MAX_CHILDREN }
        ensures none { pocket.new ≡ [] }
    {
        let (first, second) = (self.count(), right.count());
        if first + second <= MAX_CHILDREN {
            self.take_from(right, 0);
            return;
        }
        self.share_out(right, (first + second) / 2, pocket);
    }

    /// Removes the characters from `start` up to `end` of the last child, a list of leaves, and
    /// moves children between it and the list before it, so that each keeps at least 12. Returns
    /// whether it did.
    fn remove_in_one(
        &mut self,
        editor: &mut Editor,
        start: usize,
        end: usize,
        pocket: &mut Children,
    ) -> bool
        requires level { AreLevel self.old }
        requires lists { height_of self.old ≡ 1 }
        requires few { byte_len (joined self.old) < 2 ^ 32 }
        requires some_before { 2 ≤ length self.old }
        requires most { length self.old ≤ MAX_CHILDREN }
        requires ordered { start < end }
        requires within { (list : Tree)
            → end ≤ length (text (slice_index_or self.old (length self.old - 1) list)) }
        requires none { pocket.old ≡ [] }
        ensures without { result ≡ true → AreWithout
            (length (joined (take (length self.old - 1) self.old)) + start)
            (length (joined (take (length self.old - 1) self.old)) + end)
            (leaves_of self.old) (leaves_of self.new) }
        ensures each { result ≡ true → All (IsChild (breaks_of self.old) 1) self.new }
        ensures enough { result ≡ true → length self.old ≤ length self.new + 1 }
        ensures most { result ≡ true → length self.new ≤ length self.old }
        ensures some { result ≡ true → 1 ≤ length self.new }
        ensures kept { result ≡ false → self.new ≡ self.old }
        ensures none { pocket.new ≡ [] }
        ensures made { editor.new.maker.made ≡ editor.old.maker.made }
        ensures searched { HasSearched 2 10 editor.old editor.new }
    {
        let Some((before, mut list)) = self.pop_two() else {
            return false;
        };
        if list.as_mut().remove_leaves(editor, start, end) {
            self.push_settled(before, list, pocket);
            return true;
        }
        self.push_two(before, list);
        false
    }

    /// Removes the characters of the last child, a list of leaves, from `start` on, and the first
    /// `end` ones of a list that follows later. Moves children between the two lists and the one
    /// before them, so that each keeps at least 12, or the last one none. Returns whether it did.
    fn remove_in_two(
        &mut self,
        editor: &mut Editor,
        start: usize,
        right: &mut Children,
        end: usize,
        pocket: &mut Children,
    ) -> bool
        requires level { AreLevel self.old }
        requires lists { height_of self.old ≡ 1 }
        requires few { byte_len (joined self.old) + byte_len (joined right.old) < 2 ^ 32 }
        requires some_before { 2 ≤ length self.old }
        requires most { length self.old ≤ MAX_CHILDREN }
        requires right { AreFamily right.old }
        requires right_leaves { height_of right.old ≡ 0 }
        requires same_breaks { breaks_of right.old ≡ breaks_of self.old }
        requires some { 1 ≤ end }
        requires within { end ≤ length (joined right.old) }
        requires none { pocket.old ≡ [] }
        ensures parted { result ≡ true → AreParted
            (length (joined (take (length self.old - 1) self.old)) + start) end
            (leaves_of self.old) (leaves_of right.old)
            (leaves_of self.new ++ leaves_of right.new) }
        ensures each { result ≡ true
            → All (IsChild (breaks_of self.old) 1) (self.new ++ nodes_over right.new) }
        ensures enough { result ≡ true → length self.old ≤ length self.new + 1 }
        ensures most { result ≡ true → length self.new ≤ length self.old }
        ensures some { result ≡ true → 1 ≤ length self.new }
        ensures family { result ≡ true → 1 ≤ length right.new → AreFamily right.new }
        ensures kept { result ≡ false → self.new ≡ self.old }
        ensures kept_right { result ≡ false → right.new ≡ right.old }
        ensures none { pocket.new ≡ [] }
        ensures made { editor.new.maker.made ≡ editor.old.maker.made }
        ensures searched { HasSearched 2 10 editor.old editor.new }
    {
        let Some((before, mut left)) = self.pop_two() else {
            return false;
        };
        if !left.as_mut().shorten_two(editor, start, right, end) {
            self.push_two(before, left);
            return false;
        }
        left.as_mut().gather(right, pocket);
        self.push_settled(before, left, pocket);
        true
    }

    /// Removes the characters of the child at the index `place`, a list of leaves, from `start` on,
    /// those of the lists after it but the last one, and the first `end` ones of that. Returns
    /// whether it did.
    fn remove_in_several(
        &mut self,
        editor: &mut Editor,
        place: usize,
        start: usize,
        end: usize,
        pocket: &mut Children,
    ) -> bool
        requires level { AreLevel self.old }
        requires lists { height_of self.old ≡ 1 }
        requires few { byte_len (joined self.old) < 2 ^ 32 }
        requires some_before { 1 ≤ place }
        requires some_after { place + 1 < length self.old }
        requires most { length self.old ≤ MAX_CHILDREN }
        requires some { 1 ≤ end }
        requires within { (list : Tree)
            → end ≤ length (text (slice_index_or self.old (length self.old - 1) list)) }
        requires none { pocket.old ≡ [] }
        ensures without { result ≡ true → AreWithout
            (length (joined (take place self.old)) + start)
            (length (joined (take (length self.old - 1) self.old)) + end)
            (leaves_of self.old) (leaves_of self.new) }
        ensures each { result ≡ true → All (IsChild (breaks_of self.old) 1) self.new }
        ensures enough { result ≡ true → place ≤ length self.new }
        ensures most { result ≡ true → length self.new ≤ length self.old }
        ensures kept { result ≡ false → self.new ≡ self.old }
        ensures none { pocket.new ≡ [] }
        ensures made { editor.new.maker.made ≡ editor.old.maker.made }
        ensures searched { HasSearched 2 10 editor.old editor.new }
    {
        let Some(mut right) = self.pop_list() else {
            return false;
        };
        let mut between = Children::none();
        between.take_from(self, place + 1);
        if self.remove_in_two(editor, start, right.as_mut(), end, pocket) {
            self.push_over(right);
            return true;
        }
        self.take_from(&mut between, 0);
        self.push(over(right));
        false
    }

    /// Removes the characters from `start` up to `end` of the last child, a node over lists.
    /// Returns whether it did.
    #[cycle(remove_lists)]
    fn remove_in_last(
        &mut self,
        editor: &mut Editor,
        start: usize,
        end: usize,
        pocket: &mut Children,
    ) -> bool
        requires level { AreLevel self.old }
        requires lists { 2 ≤ height_of self.old }
        requires few { byte_len (joined self.old) < 2 ^ 32 }
        requires some_before { 1 ≤ length self.old }
        requires most { length self.old ≤ MAX_CHILDREN }
        requires ordered { start < end }
        requires within { (list : Tree)
            → end ≤ length (text (slice_index_or self.old (length self.old - 1) list)) }
        requires none { pocket.old ≡ [] }
        ensures without { result ≡ true → AreWithout
            (length (joined (take (length self.old - 1) self.old)) + start)
            (length (joined (take (length self.old - 1) self.old)) + end)
            (leaves_of self.old) (leaves_of self.new) }
        ensures each { result ≡ true → All (IsChild (breaks_of self.old) (height_of self.old))
            self.new }
        ensures as_many { length self.new ≡ length self.old }
        ensures kept { result ≡ false → self.new ≡ self.old }
        ensures none { pocket.new ≡ [] }
        ensures made { editor.new.maker.made ≡ editor.old.maker.made }
        ensures searched { HasSearched (2 * height_of self.old) (10 * height_of self.old)
            editor.old editor.new }
    {
        let Some(mut list) = self.pop_list() else {
            return false;
        };
        if list
            .as_mut()
            .remove_lists(editor, start, end, MIN_CHILDREN, pocket)
        {
            self.push(over(list));
            return true;
        }
        self.push(over(list));
        false
    }

    /// Removes the characters from `start` on of the child at the index `from`, those of the
    /// children after it but the last one, and the first `end` ones of that; where it is the last
    /// one, its characters from `start` up to `end`. Returns whether it did.
    #[cycle(remove_lists)]
    fn remove_up_to_last(
        &mut self,
        editor: &mut Editor,
        from: usize,
        start: usize,
        end: usize,
        pocket: &mut Children,
    ) -> bool
        requires level { AreLevel self.old }
        requires lists { 1 ≤ height_of self.old }
        requires few { byte_len (joined self.old) < 2 ^ 32 }
        requires place { from < length self.old }
        requires most { length self.old ≤ MAX_CHILDREN }
        requires ordered { from + 1 ≡ length self.old → start < end }
        requires some { 1 ≤ end }
        requires within { (list : Tree)
            → end ≤ length (text (slice_index_or self.old (length self.old - 1) list)) }
        requires none { pocket.old ≡ [] }
        ensures without { result ≡ true → AreWithout
            (length (joined (take from self.old)) + start)
            (length (joined (take (length self.old - 1) self.old)) + end)
            (leaves_of self.old) (leaves_of self.new) }
        ensures each { result ≡ true
            → All (IsChild (breaks_of self.old) (height_of self.old)) self.new }
        ensures enough { result ≡ true → from ≤ length self.new }
        ensures most { result ≡ true → length self.new ≤ length self.old }
        ensures kept { result ≡ false → self.new ≡ self.old }
        ensures none { pocket.new ≡ [] }
        ensures made { editor.new.maker.made ≡ editor.old.maker.made }
        ensures searched { HasSearched (2 * height_of self.old) (10 * height_of self.old)
            editor.old editor.new }
    {
        let is_one = from + 1 == self.count();
        if self.levels() > 2 {
            return is_one && self.remove_in_last(editor, start, end, pocket);
        }
        if from == 0 {
            return false;
        }
        if is_one {
            return self.remove_in_one(editor, start, end, pocket);
        }
        self.remove_in_several(editor, from, start, end, pocket)
    }

    /// Removes the characters from `start` up to `end`, which lie in several leaves, where at least
    /// `fewest` children are left. Returns whether it did.
    #[cycle(remove_lists)]
    fn remove_lists(
        &mut self,
        editor: &mut Editor,
        start: usize,
        end: usize,
        fewest: usize,
        pocket: &mut Children,
    ) -> bool
        requires children { AreFamily self.old }
        requires few { byte_len (joined self.old) < 2 ^ 32 }
        requires ordered { start < end }
        requires within { end ≤ length (joined self.old) }
        requires some { 2 ≤ fewest }
        requires fewest { fewest ≤ length self.old }
        requires most { fewest ≤ MIN_CHILDREN }
        requires none { pocket.old ≡ [] }
        ensures without { result ≡ true
            → AreWithout start end (leaves_of self.old) (leaves_of self.new) }
        ensures children { AreFamily self.new }
        ensures height { height_of self.new ≡ height_of self.old }
        ensures breaks { breaks_of self.new ≡ breaks_of self.old }
        ensures enough { fewest ≤ length self.new }
        ensures kept { result ≡ false → self.new ≡ self.old }
        ensures none { pocket.new ≡ [] }
        ensures made { editor.new.maker.made ≡ editor.old.maker.made }
        ensures searched { HasSearched (2 * height_of self.old + 2) (10 * height_of self.old + 10)
            editor.old editor.new }
        ensures searched_low { height_of self.old ≡ 0 → HasSearched 0 0 editor.old editor.new }
    {
        if self.levels() < 2 {
            return false;
        }
        let first = self.branch_at(editor, start, true, false);
        let last = self.branch_at(editor, end, false, false);
        let (from, to) = (first.place, last.place);
        if from > to || self.count() <= fewest + (to - from) {
            return false;
        }
        let mut rest = Children::none();
        rest.take_from(self, to + 1);
        if self.remove_up_to_last(editor, from, first.inside, last.inside, pocket) {
            self.take_from(&mut rest, 0);
            return true;
        }
        self.take_from(&mut rest, 0);
        false
    }
}

impl Node {
    /// Removes the characters from `start` up to `end`, at least one, in place: the leaves that
    /// lose all their characters are dropped, and children move between the lists beside them.
    /// Returns `false`, leaving the tree as it was, if a node on the path or beside it has another
    /// owner, if a leaf would become too short or a CR LF would be split, if all characters are in
    /// one leaf, if they begin in the first list below a node or in the first leaf of a list, or
    /// end in the last leaf of a list, if they are in two lists of different nodes, if a node would
    /// keep too few lists, or if the tree has 4 GiB or more. Takes no memory.
    pub fn remove_in_lists(&mut self, editor: &mut Editor, start: usize, end: usize) -> bool
        requires ordered { start < end }
        requires within { end ≤ length (text self.old) }
        ensures done { result ≡ true → text self.new ≡ removed (text self.old) start end }
        ensures breaks { self.new.breaks ≡ self.old.breaks }
        ensures tree { IsTree self.new }
        ensures kept { result ≡ false → self.new ≡ self.old }
        ensures made { editor.new.maker.made ≡ editor.old.maker.made }
        ensures searched { HasSearched (2 * self.old.height) (10 * self.old.height)
            editor.old editor.new }
        ensures searched_low { self.old.height < 2 → HasSearched 0 0 editor.old editor.new }
    {
        if self.info().bytes > MAX_NARROW_BYTES {
            return false;
        }
        let mut list = match mem::take(self).into_list() {
            Ok(list) => list,
            Err(node) => {
                *self = node;
                return false;
            }
        };
        let mut pocket = Children::none();
        let did = list
            .as_mut()
            .remove_lists(editor, start, end, 2, &mut pocket);
        *self = over(list);
        did
    }
}
