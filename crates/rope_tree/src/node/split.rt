//! Splits of a tree in place: the nodes beside the path move to one side or the other, so that no
//! count of owners is written.
//!
//! A path along the start or the end of the tree needs one list beside it. Any other path is padded
//! first, so that it has a child on each side. On the descent each level allocates the list that it
//! needs, and takes the list on the path and those beside it out of their list, if these have no
//! other owner. The leaf is split last: its first part moves into the leaf before it, or its second
//! part into the leaf after it, if there is room, so that trees which are joined again have no
//! short leaves where they meet; else its second part gets a new leaf. From there on nothing fails:
//! on the ascent each level moves children between the two parts of a split list and the lists
//! beside them, so that each keeps at least 12. Where a node is shared, the tree is as it was, and
//! the caller makes two new trees.
ghost use Rattle.std.specs.Prelude.{◌≡◌, ◌+◌, ◌-◌, ◌*◌, ◌^◌, ◌<◌, ◌≤◌, [], ◌∷◌, ◌++◌, true, false, length, take, drop, slice_index_or, IfOk, IfSome, IfNone, OnErr};
ghost use Rattle.rope_text.specs.declared.TheConstants.{MIN_TWO_LEAVES_BYTES};
ghost use Rattle.rope_text.specs.Text.{byte_len};
ghost use Rattle.rope_leaf.specs.Tree.{Tree, text, joined, leaf_tree, height_of, breaks_of, IsTree, AreFamily};
ghost use Rattle.rope_leaf.specs.Searched.{HasSearched};
ghost use Rattle.rope_tree.specs.Split.{IsFrontOf, IsBackOf, MayFollow, EndsAs, AreSides, IsWhole};

use super::in_place::Branch;
use super::moves::{MAX_NARROW_BYTES, empty_list, gathered, over};
use super::{Children, Form, Node};
use crate::{Editor, Made, Maker, total_before};
use std::mem;
use std::rc::Rc;

impl Children {
    /// Keeps the children before the character `at`, which is neither the first nor past the last,
    /// and moves those from it on to an empty list. Returns whether it did.
    #[cycle(split)]
    fn split(
        &mut self,
        editor: &mut Editor,
        at: usize,
        rest: &mut Children,
        pocket: &mut Children,
    ) -> Made<bool>
        requires children { AreFamily self.old }
        requires few { byte_len (joined self.old) < 2 ^ 32 }
        requires some { 1 ≤ at }
        requires within { at < length (joined self.old) }
        requires none { rest.old ≡ [] }
        requires none_in_pocket { pocket.old ≡ [] }
        ensures done { IfOk result (λ did. did ≡ true → AreSides at self.old self.new rest.new) }
        ensures kept { IfOk result (λ did. did ≡ false → self.new ≡ self.old) }
        ensures err { OnErr result (self.new ≡ self.old) }
        ensures none_in_pocket { pocket.new ≡ [] }
        ensures idle { IfOk result (λ did. did ≡ false
            → editor.new.maker.made ≡ editor.old.maker.made) }
        ensures made { editor.new.maker.made ≤ editor.old.maker.made + height_of self.old + 1 }
        ensures searched { HasSearched (height_of self.old + 1) (7 * height_of self.old + 7)
            editor.old editor.new }
    {
        let Branch { place, inside, .. } = self.branch_at(editor, at, true, false);
        if inside == 0 {
            rest.take_from(self, place);
            return Ok(true);
        }
        if place == 0 || place + 1 == self.totals.len() {
            return Ok(false);
        }
        if self.height == 1 {
            return self.split_leaf_at(&mut editor.maker, place, inside, rest);
        }
        rest.take_from(self, place + 2);
        let did = self.split_list(editor, inside, rest, pocket);
        if !matches!(did, Ok(true)) {
            self.take_from(rest, 0);
        }
        did
    }

    /// Splits the leaf at the index `place`, `inside` characters from its start, if both parts are
    /// long enough beside the leaves around it, and moves the second part and the leaves after it
    /// to an empty list. Returns whether it did.
    fn split_leaf_at(
        &mut self,
        maker: &mut Maker,
        place: usize,
        inside: usize,
        rest: &mut Children,
    ) -> Made<bool>
        requires children { AreFamily self.old }
        requires leaves { height_of self.old ≡ 0 }
        requires few { byte_len (joined self.old) < 2 ^ 32 }
        requires child { place < length self.old }
        requires some { 1 ≤ inside }
        requires within { (leaf : Tree)
            → inside < length (text (slice_index_or self.old place leaf)) }
        requires none { rest.old ≡ [] }
        ensures front { IfOk result (λ did. did ≡ true → IsFrontOf
            (length (joined (take place self.old)) + inside) self.old self.new) }
        ensures back { IfOk result (λ did. did ≡ true → IsBackOf
            (length (joined (take place self.old)) + inside) self.old rest.new) }
        ensures following { IfOk result (λ did. did ≡ true → 1 ≤ place
            → MayFollow self.old self.new) }
        ensures ahead { IfOk result (λ did. did ≡ true → place + 1 < length self.old
            → EndsAs self.old rest.new) }
        ensures kept { IfOk result (λ did. did ≡ false → self.new ≡ self.old) }
        ensures err { OnErr result (self.new ≡ self.old) }
        ensures idle { IfOk result (λ did. did ≡ false → maker.new.made ≡ maker.old.made) }
        ensures made { maker.new.made ≤ maker.old.made + 1 }
    {
        rest.take_from(self, place + 1);
        let did = self.split_leaf(maker, inside, rest);
        if !matches!(did, Ok(true)) {
            self.take_from(rest, 0);
        }
        did
    }

    /// Splits the last child, a leaf, `inside` characters from its start, without a new leaf: the
    /// first part moves into the leaf before it, if that has room and no other owner, and the
    /// second part, if long enough beside the leaf after it, becomes the first child of `rest`,
    /// whose children follow. Returns whether it did. So the two parts are long enough beside each
    /// other, if they are joined again.
    fn give_start(&mut self, inside: usize, rest: &mut Children) -> bool
        requires children { AreFamily (self.old ++ rest.old) }
        requires leaves { height_of (self.old ++ rest.old) ≡ 0 }
        requires few { byte_len (joined (self.old ++ rest.old)) < 2 ^ 32 }
        requires some_children { 1 ≤ length self.old }
        requires some { 1 ≤ inside }
        requires within { (leaf : Tree)
            → inside < length (text (slice_index_or self.old (length self.old - 1) leaf)) }
        ensures front { result ≡ true → IsFrontOf
            (length (joined (take (length self.old - 1) self.old)) + inside)
            (self.old ++ rest.old) self.new }
        ensures back { result ≡ true → IsBackOf
            (length (joined (take (length self.old - 1) self.old)) + inside)
            (self.old ++ rest.old) rest.new }
        ensures following { result ≡ true → MayFollow (self.old ++ rest.old) self.new }
        ensures ahead { result ≡ true → 1 ≤ length rest.old
            → EndsAs (self.old ++ rest.old) rest.new }
        ensures kept { result ≡ false → self.new ≡ self.old }
        ensures kept_rest { result ≡ false → rest.new ≡ rest.old }
    {
        if self.count() < 2 {
            return false;
        }
        let mut leaf = self.pop();
        let mut left = self.pop();
        if leaf.give_start(&mut left, inside, rest.first_leaf_len()) {
            self.push(left);
            rest.push_front(leaf);
            return true;
        }
        self.push(left);
        self.push(leaf);
        false
    }

    /// Splits the last child, a leaf, `inside` characters from its start, without a new leaf: the
    /// second part moves into the leaf after it, the first child of `rest`, if that has room and no
    /// other owner and the first part is long enough beside the leaf before it. Returns whether it
    /// did, as [`give_start`](Children::give_start) does.
    fn give_end(&mut self, inside: usize, rest: &mut Children) -> bool
        requires children { AreFamily (self.old ++ rest.old) }
        requires leaves { height_of (self.old ++ rest.old) ≡ 0 }
        requires few { byte_len (joined (self.old ++ rest.old)) < 2 ^ 32 }
        requires some_children { 1 ≤ length self.old }
        requires some { 1 ≤ inside }
        requires within { (leaf : Tree)
            → inside < length (text (slice_index_or self.old (length self.old - 1) leaf)) }
        ensures front { result ≡ true → IsFrontOf
            (length (joined (take (length self.old - 1) self.old)) + inside)
            (self.old ++ rest.old) self.new }
        ensures back { result ≡ true → IsBackOf
            (length (joined (take (length self.old - 1) self.old)) + inside)
            (self.old ++ rest.old) rest.new }
        ensures following { result ≡ true → 2 ≤ length self.old
            → MayFollow (self.old ++ rest.old) self.new }
        ensures ahead { result ≡ true → EndsAs (self.old ++ rest.old) rest.new }
        ensures kept { result ≡ false → self.new ≡ self.old }
        ensures kept_rest { result ≡ false → rest.new ≡ rest.old }
    {
        if rest.count() == 0 || self.last_chars().saturating_sub(inside) > rest.first_room() {
            return false;
        }
        let mut tail = Children::none();
        tail.take_from(rest, 1);
        let (mut leaf, mut right) = (self.pop(), rest.pop());
        let did = leaf.give_end(&mut right, inside, self.last_leaf_len());
        self.push(leaf);
        rest.push(right);
        rest.take_from(&mut tail, 0);
        did
    }

    /// Splits the last child, a leaf, `inside` characters from its start, if both parts are long
    /// enough beside the leaves around it. Returns whether it did. The second part becomes the
    /// first child of `rest`, whose children follow; the first part moves into the leaf before it,
    /// or the second one into the leaf after it, if there is room.
    fn split_leaf(&mut self, maker: &mut Maker, inside: usize, rest: &mut Children) -> Made<bool>
        requires children { AreFamily (self.old ++ rest.old) }
        requires leaves { height_of (self.old ++ rest.old) ≡ 0 }
        requires few { byte_len (joined (self.old ++ rest.old)) < 2 ^ 32 }
        requires some_children { 1 ≤ length self.old }
        requires some { 1 ≤ inside }
        requires within { (leaf : Tree)
            → inside < length (text (slice_index_or self.old (length self.old - 1) leaf)) }
        ensures front { IfOk result (λ did. did ≡ true → IsFrontOf
            (length (joined (take (length self.old - 1) self.old)) + inside)
            (self.old ++ rest.old) self.new) }
        ensures back { IfOk result (λ did. did ≡ true → IsBackOf
            (length (joined (take (length self.old - 1) self.old)) + inside)
            (self.old ++ rest.old) rest.new) }
        ensures following { IfOk result (λ did. did ≡ true → 2 ≤ length self.old
            → MayFollow (self.old ++ rest.old) self.new) }
        ensures ahead { IfOk result (λ did. did ≡ true → 1 ≤ length rest.old
            → EndsAs (self.old ++ rest.old) rest.new) }
        ensures kept { IfOk result (λ did. did ≡ false
            → (self.new ≡ self.old) × (rest.new ≡ rest.old)) }
        ensures err { OnErr result ((self.new ≡ self.old) × (rest.new ≡ rest.old)) }
        ensures idle { IfOk result (λ did. did ≡ false → maker.new.made ≡ maker.old.made) }
        ensures made { maker.new.made ≤ maker.old.made + 1 }
    {
        if self.give_start(inside, rest) {
            return Ok(true);
        }
        if self.give_end(inside, rest) {
            return Ok(true);
        }
        self.split_leaf_anew(maker, inside, rest)
    }

    /// Splits the last child, a leaf, as [`split_leaf`](Children::split_leaf) does, and makes a new
    /// leaf of the second part.
    fn split_leaf_anew(
        &mut self,
        maker: &mut Maker,
        inside: usize,
        rest: &mut Children,
    ) -> Made<bool>
        requires children { AreFamily (self.old ++ rest.old) }
        requires leaves { height_of (self.old ++ rest.old) ≡ 0 }
        requires few { byte_len (joined (self.old ++ rest.old)) < 2 ^ 32 }
        requires some_children { 1 ≤ length self.old }
        requires some { 1 ≤ inside }
        requires within { (leaf : Tree)
            → inside < length (text (slice_index_or self.old (length self.old - 1) leaf)) }
        ensures front { IfOk result (λ did. did ≡ true → IsFrontOf
            (length (joined (take (length self.old - 1) self.old)) + inside)
            (self.old ++ rest.old) self.new) }
        ensures back { IfOk result (λ did. did ≡ true → IsBackOf
            (length (joined (take (length self.old - 1) self.old)) + inside)
            (self.old ++ rest.old) rest.new) }
        ensures following { IfOk result (λ did. did ≡ true → 2 ≤ length self.old
            → MayFollow (self.old ++ rest.old) self.new) }
        ensures ahead { IfOk result (λ did. did ≡ true → 1 ≤ length rest.old
            → EndsAs (self.old ++ rest.old) rest.new) }
        ensures kept { IfOk result (λ did. did ≡ false
            → (self.new ≡ self.old) × (rest.new ≡ rest.old)) }
        ensures err { OnErr result ((self.new ≡ self.old) × (rest.new ≡ rest.old)) }
        ensures idle { IfOk result (λ did. did ≡ false → maker.new.made ≡ maker.old.made) }
        ensures made { maker.new.made ≤ maker.old.made + 1 }
    {
        let mut leaf = self.pop();
        let (before, after) = (self.last_leaf_len(), rest.first_leaf_len());
        let found = leaf.split_leaf(maker, inside, before, after);
        self.push(leaf);
        let Some(back) = found? else {
            return Ok(false);
        };
        rest.push_front(back);
        Ok(true)
    }

    /// Splits the last child but one, `inside` characters from its start, and moves children
    /// between its parts and its neighbours, so that each keeps at least 12. Returns whether it
    /// did: not if one of the three has another owner. The second part and the last child become
    /// the first children of `rest`, whose children follow.
    #[cycle(split)]
    fn split_list(
        &mut self,
        editor: &mut Editor,
        inside: usize,
        rest: &mut Children,
        pocket: &mut Children,
    ) -> Made<bool>
        requires children { AreFamily (self.old ++ rest.old) }
        requires lists { 1 ≤ height_of (self.old ++ rest.old) }
        requires few { byte_len (joined (self.old ++ rest.old)) < 2 ^ 32 }
        requires some_before { 3 ≤ length self.old }
        requires some { 1 ≤ inside }
        requires within { (child : Tree)
            → inside < length (text (slice_index_or self.old (length self.old - 2) child)) }
        requires none { pocket.old ≡ [] }
        ensures done { IfOk result (λ did. did ≡ true → AreSides
            (length (joined (take (length self.old - 2) self.old)) + inside)
            (self.old ++ rest.old) self.new rest.new) }
        ensures kept { IfOk result (λ did. did ≡ false
            → (self.new ≡ self.old) × (rest.new ≡ rest.old)) }
        ensures err { OnErr result ((self.new ≡ self.old) × (rest.new ≡ rest.old)) }
        ensures none { pocket.new ≡ [] }
        ensures idle { IfOk result (λ did. did ≡ false
            → editor.new.maker.made ≡ editor.old.maker.made) }
        ensures made { editor.new.maker.made
            ≤ editor.old.maker.made + height_of (self.old ++ rest.old) + 1 }
        ensures searched { HasSearched (height_of (self.old ++ rest.old))
            (7 * height_of (self.old ++ rest.old)) editor.old editor.new }
    {
        let mut back = empty_list(editor.maker.alloc)?;
        let Some((left, mut list, right)) = self.pop_three() else {
            return Ok(false);
        };
        let did = list.as_mut().split(editor, inside, back.as_mut(), pocket);
        if !matches!(did, Ok(true)) {
            self.push_two(left, list);
            self.push(over(right));
            return did;
        }
        editor.maker.add_made();
        self.push_settled(left, list, pocket);
        rest.prepend_settled(back, right, pocket);
        Ok(true)
    }

    /// Splits the first child before the character `at`, which is in it. Keeps the children of its
    /// first part, without the nodes over them that have no other child, and moves the second part
    /// and the other children to an empty list. Returns whether it did.
    #[cycle(split_front)]
    fn split_first(
        &mut self,
        editor: &mut Editor,
        at: usize,
        rest: &mut Children,
        pocket: &mut Children,
    ) -> Made<bool>
        requires children { AreFamily self.old }
        requires lists { 1 ≤ height_of self.old }
        requires few { byte_len (joined self.old) < 2 ^ 32 }
        requires some { 1 ≤ at }
        requires within { at < length (joined (take 1 self.old)) }
        requires none { rest.old ≡ [] }
        requires none_in_pocket { pocket.old ≡ [] }
        ensures front { IfOk result (λ did. did ≡ true
            → IsWhole (breaks_of self.old) (take at (joined self.old)) self.new) }
        ensures back { IfOk result (λ did. did ≡ true → IsBackOf at self.old rest.new) }
        ensures ahead { IfOk result (λ did. did ≡ true → EndsAs self.old rest.new) }
        ensures kept { IfOk result (λ did. did ≡ false → self.new ≡ self.old) }
        ensures err { OnErr result (self.new ≡ self.old) }
        ensures none_in_pocket { pocket.new ≡ [] }
        ensures idle { IfOk result (λ did. did ≡ false
            → editor.new.maker.made ≡ editor.old.maker.made) }
        ensures made { editor.new.maker.made ≤ editor.old.maker.made + height_of self.old + 1 }
        ensures searched { HasSearched (height_of self.old) (7 * height_of self.old) editor.old
            editor.new }
    {
        let mut back = empty_list(editor.maker.alloc)?;
        rest.take_from(self, 2);
        let Some((mut list, right)) = self.pop_two() else {
            self.take_from(rest, 0);
            return Ok(false);
        };
        let did = list.as_mut().split_front(editor, at, back.as_mut(), pocket);
        if !matches!(did, Ok(true)) {
            self.push_two(list, right);
            self.take_from(rest, 0);
            return did;
        }
        editor.maker.add_made();
        rest.prepend_settled(back, right, pocket);
        mem::swap(self, list.as_mut());
        Ok(true)
    }

    /// Splits the last child, `inside` characters from its start. Keeps the other children and the
    /// first part, and moves the children of the second part to an empty list, without the nodes
    /// over them that have no other child. Returns whether it did.
    #[cycle(split_back)]
    fn split_last(
        &mut self,
        editor: &mut Editor,
        inside: usize,
        rest: &mut Children,
        pocket: &mut Children,
    ) -> Made<bool>
        requires children { AreFamily self.old }
        requires lists { 1 ≤ height_of self.old }
        requires few { byte_len (joined self.old) < 2 ^ 32 }
        requires some { 1 ≤ inside }
        requires within { length (joined (take (length self.old - 1) self.old)) + inside
            < length (joined self.old) }
        requires none { rest.old ≡ [] }
        requires none_in_pocket { pocket.old ≡ [] }
        ensures front { IfOk result (λ did. did ≡ true → IsFrontOf
            (length (joined (take (length self.old - 1) self.old)) + inside) self.old self.new) }
        ensures following { IfOk result (λ did. did ≡ true → MayFollow self.old self.new) }
        ensures back { IfOk result (λ did. did ≡ true → IsWhole (breaks_of self.old)
            (drop (length (joined (take (length self.old - 1) self.old)) + inside)
            (joined self.old)) rest.new) }
        ensures kept { IfOk result (λ did. did ≡ false → self.new ≡ self.old) }
        ensures err { OnErr result (self.new ≡ self.old) }
        ensures none_in_pocket { pocket.new ≡ [] }
        ensures idle { IfOk result (λ did. did ≡ false
            → editor.new.maker.made ≡ editor.old.maker.made) }
        ensures made { editor.new.maker.made ≤ editor.old.maker.made + height_of self.old + 1 }
        ensures searched { HasSearched (height_of self.old) (7 * height_of self.old) editor.old
            editor.new }
    {
        let mut back = empty_list(editor.maker.alloc)?;
        let Some((left, mut list)) = self.pop_two() else {
            return Ok(false);
        };
        let did = list
            .as_mut()
            .split_back(editor, inside, back.as_mut(), pocket);
        if !matches!(did, Ok(true)) {
            self.push_two(left, list);
            return did;
        }
        editor.maker.add_made();
        self.push_settled(left, list, pocket);
        mem::swap(rest, back.as_mut());
        Ok(true)
    }

    /// Splits the children before the character `at`, which is neither the first nor past the
    /// last, where nothing is before them. Keeps those before it, without the nodes over them that
    /// have no other child, and moves those from it on to an empty list. Returns whether it did.
    #[cycle(split_front)]
    fn split_front(
        &mut self,
        editor: &mut Editor,
        at: usize,
        rest: &mut Children,
        pocket: &mut Children,
    ) -> Made<bool>
        requires children { AreFamily self.old }
        requires few { byte_len (joined self.old) < 2 ^ 32 }
        requires some { 1 ≤ at }
        requires within { at < length (joined self.old) }
        requires none { rest.old ≡ [] }
        requires none_in_pocket { pocket.old ≡ [] }
        ensures front { IfOk result (λ did. did ≡ true
            → IsWhole (breaks_of self.old) (take at (joined self.old)) self.new) }
        ensures back { IfOk result (λ did. did ≡ true → IsBackOf at self.old rest.new) }
        ensures ahead { IfOk result (λ did. did ≡ true → EndsAs self.old rest.new) }
        ensures kept { IfOk result (λ did. did ≡ false → self.new ≡ self.old) }
        ensures err { OnErr result (self.new ≡ self.old) }
        ensures none_in_pocket { pocket.new ≡ [] }
        ensures idle { IfOk result (λ did. did ≡ false
            → editor.new.maker.made ≡ editor.old.maker.made) }
        ensures made { editor.new.maker.made ≤ editor.old.maker.made + height_of self.old + 1 }
        ensures searched { HasSearched (height_of self.old + 1) (7 * height_of self.old + 7)
            editor.old editor.new }
    {
        if at >= self.totals.get(0).chars {
            return self.split(editor, at, rest, pocket);
        }
        if self.height == 1 {
            return self.split_leaf_at(&mut editor.maker, 0, at, rest);
        }
        self.split_first(editor, at, rest, pocket)
    }

    /// Splits the children before the character `at`, which is neither the first nor past the
    /// last, where nothing is after them. Keeps those before it, and moves those from it on to an
    /// empty list, without the nodes over them that have no other child. Returns whether it did.
    #[cycle(split_back)]
    fn split_back(
        &mut self,
        editor: &mut Editor,
        at: usize,
        rest: &mut Children,
        pocket: &mut Children,
    ) -> Made<bool>
        requires children { AreFamily self.old }
        requires few { byte_len (joined self.old) < 2 ^ 32 }
        requires some { 1 ≤ at }
        requires within { at < length (joined self.old) }
        requires none { rest.old ≡ [] }
        requires none_in_pocket { pocket.old ≡ [] }
        ensures front { IfOk result (λ did. did ≡ true → IsFrontOf at self.old self.new) }
        ensures following { IfOk result (λ did. did ≡ true → MayFollow self.old self.new) }
        ensures back { IfOk result (λ did. did ≡ true
            → IsWhole (breaks_of self.old) (drop at (joined self.old)) rest.new) }
        ensures kept { IfOk result (λ did. did ≡ false → self.new ≡ self.old) }
        ensures err { OnErr result (self.new ≡ self.old) }
        ensures none_in_pocket { pocket.new ≡ [] }
        ensures idle { IfOk result (λ did. did ≡ false
            → editor.new.maker.made ≡ editor.old.maker.made) }
        ensures made { editor.new.maker.made ≤ editor.old.maker.made + height_of self.old + 1 }
        ensures searched { HasSearched (height_of self.old + 1) (7 * height_of self.old + 7)
            editor.old editor.new }
    {
        let last = self.totals.len() - 1;
        let before = total_before(&self.totals, last).chars;
        if at <= before {
            return self.split(editor, at, rest, pocket);
        }
        if self.height == 1 {
            return self.split_leaf_at(&mut editor.maker, last, at - before, rest);
        }
        self.split_last(editor, at - before, rest, pocket)
    }

    /// Splits the children of a root before the character `at`, which is neither the first nor past
    /// the last: keeps those before it, and moves those from it on to an empty list. Returns
    /// whether it did.
    fn split_root(
        &mut self,
        editor: &mut Editor,
        at: usize,
        rest: &mut Children,
        pocket: &mut Children,
    ) -> Made<bool>
        requires children { AreFamily self.old }
        requires few { byte_len (joined self.old) < 2 ^ 32 }
        requires some { 1 ≤ at }
        requires within { at < length (joined self.old) }
        requires none { rest.old ≡ [] }
        requires none_in_pocket { pocket.old ≡ [] }
        ensures front { IfOk result (λ did. did ≡ true
            → IsWhole (breaks_of self.old) (take at (joined self.old)) self.new) }
        ensures back { IfOk result (λ did. did ≡ true
            → IsWhole (breaks_of self.old) (drop at (joined self.old)) rest.new) }
        ensures kept { IfOk result (λ did. did ≡ false → self.new ≡ self.old) }
        ensures err { OnErr result (self.new ≡ self.old) }
        ensures idle { IfOk result (λ did. did ≡ false
            → editor.new.maker.made ≡ editor.old.maker.made) }
        ensures made { editor.new.maker.made ≤ editor.old.maker.made + height_of self.old + 1 }
        ensures searched { HasSearched (height_of self.old + 1) (7 * height_of self.old + 7)
            editor.old editor.new }
    {
        if at < self.totals.get(0).chars {
            return self.split_front(editor, at, rest, pocket);
        }
        self.split_back(editor, at, rest, pocket)
    }
}

impl Node {
    /// Moves the first `at` characters of a leaf to the end of the leaf before it, if that has room
    /// for them, neither has another owner, and the rest is long enough beside a leaf of `after`
    /// bytes. Returns whether it did.
    fn give_start(&mut self, left: &mut Node, at: usize, after: usize) -> bool
        requires leaf { self.old.height ≡ 0 }
        requires left { left.old.height ≡ 0 }
        requires some { 1 ≤ at }
        requires within { at < length (text self.old) }
        ensures left { result ≡ true
            → left.new ≡ leaf_tree left.old.breaks (text left.old ++ take at (text self.old)) }
        ensures rest { result ≡ true
            → self.new ≡ leaf_tree self.old.breaks (drop at (text self.old)) }
        ensures left_tree { IsTree left.new }
        ensures tree { IsTree self.new }
        ensures long { result ≡ true
            → MIN_TWO_LEAVES_BYTES ≤ byte_len (drop at (text self.old)) + after }
        ensures kept_left { result ≡ false → left.new ≡ left.old }
        ensures kept { result ≡ false → self.new ≡ self.old }
    {
        let Form::Leaf(leaf) = &mut self.form else {
            return false;
        };
        let Form::Leaf(left) = &mut left.form else {
            return false;
        };
        let Some(leaf) = Rc::get_mut(leaf) else {
            return false;
        };
        let Some(left) = Rc::get_mut(left) else {
            return false;
        };
        leaf.give_start(left, at, after)
    }

    /// Moves the characters of a leaf from `at` on to the start of the leaf after it, if that has
    /// room for them, neither has another owner, and the rest is long enough beside a leaf of
    /// `before` bytes. Returns whether it did.
    fn give_end(&mut self, right: &mut Node, at: usize, before: usize) -> bool
        requires leaf { self.old.height ≡ 0 }
        requires right { right.old.height ≡ 0 }
        requires within { at < length (text self.old) }
        ensures right { result ≡ true
            → right.new ≡ leaf_tree right.old.breaks (drop at (text self.old) ++ text right.old) }
        ensures rest { result ≡ true
            → self.new ≡ leaf_tree self.old.breaks (take at (text self.old)) }
        ensures right_tree { IsTree right.new }
        ensures tree { IsTree self.new }
        ensures long { result ≡ true
            → MIN_TWO_LEAVES_BYTES ≤ before + byte_len (take at (text self.old)) }
        ensures kept_right { result ≡ false → right.new ≡ right.old }
        ensures kept { result ≡ false → self.new ≡ self.old }
    {
        let Form::Leaf(leaf) = &mut self.form else {
            return false;
        };
        let Form::Leaf(right) = &mut right.form else {
            return false;
        };
        let Some(leaf) = Rc::get_mut(leaf) else {
            return false;
        };
        let Some(right) = Rc::get_mut(right) else {
            return false;
        };
        leaf.give_end(right, at, before)
    }

    /// Splits a leaf before the character `at`, if it has no other owner and both parts are long
    /// enough beside leaves of `before` and `after` bytes. Keeps the first part, and returns a leaf
    /// of the second.
    fn split_leaf(
        &mut self,
        maker: &mut Maker,
        at: usize,
        before: usize,
        after: usize,
    ) -> Made<Option<Node>>
        requires leaf { self.old.height ≡ 0 }
        requires some { 1 ≤ at }
        requires within { at < length (text self.old) }
        ensures front { IfOk result (λ found. IfSome found
            (λ back. self.new ≡ leaf_tree self.old.breaks (take at (text self.old)))) }
        ensures back { IfOk result (λ found. IfSome found
            (λ back. back ≡ leaf_tree self.old.breaks (drop at (text self.old)))) }
        ensures front_tree { IsTree self.new }
        ensures back_tree { IfOk result (λ found. IfSome found (λ back. IsTree back)) }
        ensures long_front { IfOk result (λ found. IfSome found
            (λ back. MIN_TWO_LEAVES_BYTES ≤ before + byte_len (take at (text self.old)))) }
        ensures long_back { IfOk result (λ found. IfSome found
            (λ back. MIN_TWO_LEAVES_BYTES ≤ byte_len (drop at (text self.old)) + after)) }
        ensures kept { IfOk result (λ found. IfNone found (self.new ≡ self.old)) }
        ensures err { OnErr result (self.new ≡ self.old) }
        ensures idle { IfOk result (λ found. IfNone found (maker.new.made ≡ maker.old.made)) }
        ensures made { maker.new.made ≤ maker.old.made + 1 }
    {
        let Form::Leaf(leaf) = &mut self.form else {
            return Ok(None);
        };
        let Some(leaf) = Rc::get_mut(leaf) else {
            return Ok(None);
        };
        match leaf.split(maker, at, before, after)? {
            Some(back) => Ok(Some(Node::of_leaf(back))),
            None => Ok(None),
        }
    }

    /// Splits a tree before the character `at`, where it stands: keeps the characters before it,
    /// and returns a tree of those from it on. Returns `None`, leaving the tree as it was, if a
    /// node on the path or beside it has another owner, if the path is at the end of a list that
    /// gets no child from the one beside it, if a part of the leaf would be too short, or if the
    /// tree is a leaf or has 4 GiB or more. Takes memory for a list a level, one more, and a leaf.
    pub fn split_in_place(&mut self, editor: &mut Editor, at: usize) -> Made<Option<Node>>
        requires { at ≤ length (text self.old) }
        ensures front { IfOk result (λ found. IfSome found
            (λ back. text self.new ≡ take at (text self.old))) }
        ensures back { IfOk result (λ found. IfSome found
            (λ back. text back ≡ drop at (text self.old))) }
        ensures breaks { self.new.breaks ≡ self.old.breaks }
        ensures back_breaks { IfOk result (λ found. IfSome found
            (λ back. back.breaks ≡ self.old.breaks)) }
        ensures tree { IsTree self.new }
        ensures back_tree { IfOk result (λ found. IfSome found (λ back. IsTree back)) }
        ensures kept { IfOk result (λ found. IfNone found (self.new ≡ self.old)) }
        ensures err { OnErr result (self.new ≡ self.old) }
        ensures idle { IfOk result (λ found. IfNone found
            (editor.new.maker.made ≡ editor.old.maker.made)) }
        ensures made { editor.new.maker.made ≤ editor.old.maker.made + self.old.height + 1 }
        ensures searched { HasSearched (3 * self.old.height) (21 * self.old.height) editor.old
            editor.new }
    {
        let info = self.info();
        if at == 0 || at == info.chars || info.bytes > MAX_NARROW_BYTES {
            return Ok(None);
        }
        let mut rest = empty_list(editor.maker.alloc)?;
        let mut pocket = Children::none();
        self.pad_path(editor, at, rest.as_mut(), &mut pocket);
        let mut list = match mem::take(self).into_list() {
            Ok(list) => list,
            Err(node) => {
                *self = node;
                return Ok(None);
            }
        };
        let did = list
            .as_mut()
            .split_root(editor, at, rest.as_mut(), &mut pocket);
        if let Ok(true) = did {
            *self = gathered(list);
            editor.maker.add_made();
            return Ok(Some(gathered(rest)));
        }
        *self = over(list);
        did?;
        Ok(None)
    }
}
