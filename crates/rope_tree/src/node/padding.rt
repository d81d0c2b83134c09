//! Room beside a path: a path that is at the end of a list gets a child beside it, from the next
//! list, so that the list can be split there in place. The tree keeps its leaves.
ghost use Rattle.std.specs.Prelude.{◌≡◌, ◌+◌, ◌-◌, ◌*◌, ◌^◌, ◌<◌, ◌≤◌, [], ◌++◌, true, length};
ghost use Rattle.rope_text.specs.declared.TheConstants.{MAX_CHILDREN, MIN_CHILDREN};
ghost use Rattle.rope_text.specs.Text.{byte_len};
ghost use Rattle.rope_leaf.specs.Tree.{text, joined, height_of, tree_over, AreFamily};
ghost use Rattle.rope_leaf.specs.Siblings.{AreLevel};
ghost use Rattle.rope_leaf.specs.Searched.{HasSearched};

use super::in_place::Branch;
use super::{Children, Form, Node, View};
use crate::{Editor, total_before};
use rope_text::{MAX_CHILDREN, MIN_CHILDREN};
use std::rc::Rc;

/// Returns how many of the children of two adjacent lists the first one is to have, so that neither
/// the last of the first list nor the first of the second one is at the end of its list: one moves
/// over from the other list, or two to it, if each list keeps at least 12 and has room.
fn lent_count(len: usize, next_len: usize, to_next: bool) -> usize
    requires least { MIN_CHILDREN ≤ len }
    requires most { len ≤ MAX_CHILDREN }
    requires least_next { MIN_CHILDREN ≤ next_len }
    requires most_next { next_len ≤ MAX_CHILDREN }
    ensures least { MIN_CHILDREN ≤ result }
    ensures most { result ≤ MAX_CHILDREN }
    ensures least_next { result + MIN_CHILDREN ≤ len + next_len }
    ensures most_next { len + next_len ≤ result + MAX_CHILDREN }
{
    if to_next {
        if len > MIN_CHILDREN && next_len < MAX_CHILDREN {
            return len - 1;
        }
        if next_len > MIN_CHILDREN + 1 && len + 1 < MAX_CHILDREN {
            return len + 2;
        }
        return len;
    }
    if next_len > MIN_CHILDREN && len < MAX_CHILDREN {
        return len + 1;
    }
    if len > MIN_CHILDREN + 1 && next_len + 1 < MAX_CHILDREN {
        return len - 2;
    }
    len
}

impl Children {
    /// Moves children between this list and the next one, so that the first child of the next list
    /// isn't at its start any more if `to_next`, or the last child of this one not at its end.
    fn lend(&mut self, next: &mut Children, to_next: bool, pocket: &mut Children)
        requires level { AreLevel (self.old ++ next.old) }
        requires few { byte_len (joined (self.old ++ next.old)) < 2 ^ 32 }
        requires least { MIN_CHILDREN ≤ length self.old }
        requires most { length self.old ≤ MAX_CHILDREN }
        requires least_next { MIN_CHILDREN ≤ length next.old }
        requires most_next { length next.old ≤ MAX_CHILDREN }
        requires none { pocket.old ≡ [] }
        ensures same { self.new ++ next.new ≡ self.old ++ next.old }
        ensures least { MIN_CHILDREN ≤ length self.new }
        ensures most { length self.new ≤ MAX_CHILDREN }
        ensures least_next { MIN_CHILDREN ≤ length next.new }
        ensures most_next { length next.new ≤ MAX_CHILDREN }
        ensures none { pocket.new ≡ [] }
    {
        let len = self.count();
        let count = lent_count(len, next.count(), to_next);
        if count != len {
            self.share_out(next, count, pocket);
        }
    }

    /// Moves children between the lists of the children at the indices `place` and `place + 1`, as
    /// [`lend`](Children::lend) does, if neither has another owner.
    fn shift(&mut self, place: usize, to_next: bool, rest: &mut Children, pocket: &mut Children)
        requires children { AreFamily self.old }
        requires lists { 1 ≤ height_of self.old }
        requires few { byte_len (joined self.old) < 2 ^ 32 }
        requires pair { place + 1 < length self.old }
        requires none { rest.old ≡ [] }
        requires none_in_pocket { pocket.old ≡ [] }
        ensures same { tree_over self.new ≡ tree_over self.old }
        ensures children { AreFamily self.new }
        ensures none { rest.new ≡ [] }
        ensures none_in_pocket { pocket.new ≡ [] }
    {
        rest.take_from(self, place + 2);
        let Some((mut list, mut next)) = self.pop_two() else {
            self.take_from(rest, 0);
            return;
        };
        list.as_mut().lend(next.as_mut(), to_next, pocket);
        self.push_two(list, next);
        self.take_from(rest, 0);
    }

    /// Moves children between the child at an index, a list, and a list beside it, if the character
    /// `inside` is in the first child of the list or in its last.
    fn pad_child(&mut self, place: usize, inside: usize, rest: &mut Children, pocket: &mut Children)
        requires children { AreFamily self.old }
        requires lists { 1 ≤ height_of self.old }
        requires few { byte_len (joined self.old) < 2 ^ 32 }
        requires child { place < length self.old }
        requires none { rest.old ≡ [] }
        requires none_in_pocket { pocket.old ≡ [] }
        ensures same { tree_over self.new ≡ tree_over self.old }
        ensures children { AreFamily self.new }
        ensures none { rest.new ≡ [] }
        ensures none_in_pocket { pocket.new ≡ [] }
    {
        let (is_first, is_last) = self.nodes[place].is_at_ends(inside);
        if is_first && place > 0 {
            self.shift(place - 1, true, rest, pocket);
        } else if is_last && place + 1 < self.count() {
            self.shift(place, false, rest, pocket);
        }
    }

    /// Gives each list on the path to the character `at` a child beside the path, where a list
    /// beside it can lend one.
    #[cycle(pad)]
    fn pad_path(
        &mut self,
        editor: &mut Editor,
        at: usize,
        rest: &mut Children,
        pocket: &mut Children,
    )
        requires children { AreFamily self.old }
        requires few { byte_len (joined self.old) < 2 ^ 32 }
        requires within { at < length (joined self.old) }
        requires none { rest.old ≡ [] }
        requires none_in_pocket { pocket.old ≡ [] }
        ensures same { tree_over self.new ≡ tree_over self.old }
        ensures children { AreFamily self.new }
        ensures none { rest.new ≡ [] }
        ensures none_in_pocket { pocket.new ≡ [] }
        ensures made { editor.new.maker.made ≡ editor.old.maker.made }
        ensures searched { HasSearched (2 * height_of self.old) (14 * height_of self.old)
            editor.old editor.new }
    {
        if self.height == 1 {
            return;
        }
        let Branch { place, inside, .. } = self.branch_at(editor, at, true, false);
        self.pad_child(place, inside, rest, pocket);
        let Branch { place, inside, .. } = self.branch_at(editor, at, true, false);
        self.nodes[place].pad_path(editor, inside, rest, pocket);
    }
}

impl Node {
    /// Returns whether the character `at` is within the first child, after its start, and whether
    /// it is within the last one.
    fn is_at_ends(&self, at: usize) -> (bool, bool) {
        let View::Inner(_, totals) = self.view() else {
            return (false, false);
        };
        let last = total_before(totals, totals.len() - 1).chars;
        (at > 0 && at < totals.get(0).chars, at > last)
    }

    /// Gives each list on the path to the character `at` a child beside the path, where a list
    /// beside it can lend one and neither has another owner.
    #[cycle(pad)]
    pub(super) fn pad_path(
        &mut self,
        editor: &mut Editor,
        at: usize,
        rest: &mut Children,
        pocket: &mut Children,
    )
        requires few { byte_len (text self.old) < 2 ^ 32 }
        requires within { at < length (text self.old) }
        requires none { rest.old ≡ [] }
        requires none_in_pocket { pocket.old ≡ [] }
        ensures same { self.new ≡ self.old }
        ensures none { rest.new ≡ [] }
        ensures none_in_pocket { pocket.new ≡ [] }
        ensures made { editor.new.maker.made ≡ editor.old.maker.made }
        ensures searched { HasSearched (2 * (self.old.height - 1)) (14 * (self.old.height - 1))
            editor.old editor.new }
    {
        let Form::Inner(children) = &mut self.form else {
            return;
        };
        if let Some(children) = Rc::get_mut(children) {
            children.pad_path(editor, at, rest, pocket);
        }
    }
}
