//! Appends of a tree in place: children move between the lists where two trees meet, so that no
//! count of owners is written.
ghost use Rattle.std.specs.Prelude.{◌≡◌, ◌+◌, ◌^◌, ◌<◌, ◌≤◌, [], ◌++◌, true, false, length, IfOk, IfSome, IfNone, OnErr};
ghost use Rattle.rope_text.specs.declared.TheConstants.{MIN_TWO_LEAVES_BYTES};
ghost use Rattle.rope_text.specs.Text.{byte_len};
ghost use Rattle.rope_text.specs.Dense.{IsDenseAfter, last_bytes};
ghost use Rattle.rope_leaf.specs.Leaves.{AreLeaves, IsSeam};
ghost use Rattle.rope_leaf.specs.Tree.{text, joined, leaves_of, height_of, breaks_of, tree_over, IsTree, AreFamily};

use super::moves::{MAX_NARROW_BYTES, empty_list, over};
use super::{Children, Node};
use crate::{Made, Maker};
use rope_shared::local::Sole;
use rope_text::MAX_CHILDREN;
use std::alloc::AllocError;
use std::mem;

/// Takes the lists of two nodes, if neither has another owner, and leaves empty texts there.
fn take_lists(left: &mut Node, right: &mut Node) -> Option<(Sole<Children>, Sole<Children>)>
    ensures left { IfSome result (λ two. left.old ≡ tree_over two.0.value) }
    ensures right { IfSome result (λ two. right.old ≡ tree_over two.1.value) }
    ensures first { IfSome result (λ two. AreFamily two.0.value) }
    ensures second { IfSome result (λ two. AreFamily two.1.value) }
    ensures right_tree { IfSome result (λ _. IsTree right.new) }
    ensures kept { IfNone result (left.new ≡ left.old) }
    ensures kept_right { IfNone result (right.new ≡ right.old) }
{
    let none = Node::empty(right.line_breaks());
    let second = match mem::replace(right, none).into_list() {
        Ok(list) => list,
        Err(node) => {
            *right = node;
            return None;
        }
    };
    match mem::take(left).into_list() {
        Ok(first) => Some((first, second)),
        Err(node) => {
            *left = node;
            *right = over(second);
            None
        }
    }
}

impl Children {
    /// Moves the children of a lower list to the end of the last list of its height. Returns that
    /// list if one on the way has another owner, or no room for one more child.
    fn append_lower(
        &mut self,
        lower: Sole<Children>,
        pocket: &mut Children,
    ) -> Option<Sole<Children>>
        requires children { AreFamily self.old }
        requires lower { AreFamily lower.value }
        requires below { height_of lower.value < height_of self.old }
        requires same_breaks { breaks_of lower.value ≡ breaks_of self.old }
        requires leaves { AreLeaves (leaves_of self.old ++ leaves_of lower.value) }
        requires few { byte_len (joined self.old) + byte_len (joined lower.value) < 2 ^ 32 }
        requires none { pocket.old ≡ [] }
        ensures leaves { IfNone result
            (leaves_of self.new ≡ leaves_of self.old ++ leaves_of lower.value) }
        ensures children { AreFamily self.new }
        ensures height { height_of self.new ≡ height_of self.old }
        ensures breaks { breaks_of self.new ≡ breaks_of self.old }
        ensures wide { length self.old ≤ length self.new }
        ensures kept { IfSome result (λ list. self.new ≡ self.old) }
        ensures kept_lower { IfSome result (λ list. list.value ≡ lower.value) }
        ensures none { pocket.new ≡ [] }
    {
        if self.count() >= MAX_CHILDREN {
            return Some(lower);
        }
        let Some(mut last) = self.pop_list() else {
            return Some(lower);
        };
        if last.as_ref().levels() == lower.as_ref().levels() {
            self.push_settled(last, lower, pocket);
            return None;
        }
        let left = last.as_mut().append_lower(lower, pocket);
        self.push(over(last));
        left
    }

    /// Moves the children of a lower list before those of the first list of its height, as
    /// [`append_lower`](Children::append_lower) does after those of the last one.
    fn prepend_lower(
        &mut self,
        lower: Sole<Children>,
        pocket: &mut Children,
    ) -> Option<Sole<Children>>
        requires children { AreFamily self.old }
        requires lower { AreFamily lower.value }
        requires below { height_of lower.value < height_of self.old }
        requires same_breaks { breaks_of lower.value ≡ breaks_of self.old }
        requires leaves { AreLeaves (leaves_of lower.value ++ leaves_of self.old) }
        requires few { byte_len (joined self.old) + byte_len (joined lower.value) < 2 ^ 32 }
        requires none { pocket.old ≡ [] }
        ensures leaves { IfNone result
            (leaves_of self.new ≡ leaves_of lower.value ++ leaves_of self.old) }
        ensures children { AreFamily self.new }
        ensures height { height_of self.new ≡ height_of self.old }
        ensures breaks { breaks_of self.new ≡ breaks_of self.old }
        ensures wide { length self.old ≤ length self.new }
        ensures kept { IfSome result (λ list. self.new ≡ self.old) }
        ensures kept_lower { IfSome result (λ list. list.value ≡ lower.value) }
        ensures none { pocket.new ≡ [] }
    {
        if self.count() >= MAX_CHILDREN {
            return Some(lower);
        }
        let mut rest = Children::none();
        rest.take_from(self, 1);
        let Some(mut first) = self.pop_list() else {
            self.take_from(&mut rest, 0);
            return Some(lower);
        };
        if first.as_ref().levels() == lower.as_ref().levels() {
            self.push_settled(lower, first, pocket);
            self.take_from(&mut rest, 0);
            return None;
        }
        let left = first.as_mut().prepend_lower(lower, pocket);
        self.push(over(first));
        self.take_from(&mut rest, 0);
        left
    }
}

impl Node {
    /// Appends the children of another tree of the same height. Returns `false`, leaving both trees
    /// as they were, if a root has another owner, or the text would have 4 GiB or more. Takes
    /// memory for one list, where one can't hold the children of both roots.
    pub fn append_in_place(&mut self, maker: &mut Maker, other: &mut Node) -> Made<bool>
        requires same_breaks { other.old.breaks ≡ self.old.breaks }
        requires level { other.old.height ≡ self.old.height }
        requires seam { IsSeam (text self.old) (text other.old) }
        requires near { IsDenseAfter (last_bytes MIN_TWO_LEAVES_BYTES self.old.leaves)
            other.old.leaves }
        requires fits { byte_len (text self.old) + byte_len (text other.old) < 2 ^ 63 }
        ensures done { IfOk result (λ did. did ≡ true
            → text self.new ≡ text self.old ++ text other.old) }
        ensures breaks { self.new.breaks ≡ self.old.breaks }
        ensures tree { IsTree self.new }
        ensures other_tree { IsTree other.new }
        ensures kept { IfOk result (λ did. did ≡ false
            → (self.new ≡ self.old) × (other.new ≡ other.old)) }
        ensures err { OnErr result ((self.new ≡ self.old) × (other.new ≡ other.old)) }
        ensures idle { IfOk result (λ did. did ≡ false → maker.new.made ≡ maker.old.made) }
        ensures made { maker.new.made ≤ maker.old.made + 1 }
    {
        if self.info().bytes + other.info().bytes > MAX_NARROW_BYTES {
            return Ok(false);
        }
        let Some((mut left, mut right)) = take_lists(self, other) else {
            return Ok(false);
        };
        if left.as_ref().count() + right.as_ref().count() <= MAX_CHILDREN {
            left.as_mut().take_from(right.as_mut(), 0);
            *self = over(left);
            return Ok(true);
        }
        let Ok(mut root) = empty_list(maker.alloc) else {
            *self = over(left);
            *other = over(right);
            return Err(AllocError);
        };
        left.as_mut().settle(right.as_mut(), root.as_mut());
        root.as_mut().push(over(left));
        root.as_mut().push(over(right));
        *self = over(root);
        maker.add_made();
        Ok(true)
    }

    /// Appends the children of a lower or a higher tree: those of the lower root move to a list of
    /// their height in the other. Returns `false`, leaving both trees as they were, if a list on
    /// the way has another owner or no room for one more child, if the trees have one height, or
    /// if the text would have 4 GiB or more. Takes no memory.
    pub fn append_uneven(&mut self, other: &mut Node) -> bool
        requires same_breaks { other.old.breaks ≡ self.old.breaks }
        requires seam { IsSeam (text self.old) (text other.old) }
        requires near { IsDenseAfter (last_bytes MIN_TWO_LEAVES_BYTES self.old.leaves)
            other.old.leaves }
        ensures done { result ≡ true → text self.new ≡ text self.old ++ text other.old }
        ensures breaks { self.new.breaks ≡ self.old.breaks }
        ensures tree { IsTree self.new }
        ensures other_tree { IsTree other.new }
        ensures kept { result ≡ false → self.new ≡ self.old }
        ensures kept_other { result ≡ false → other.new ≡ other.old }
    {
        let bytes = self.info().bytes + other.info().bytes;
        if bytes > MAX_NARROW_BYTES {
            return false;
        }
        let Some((mut left, mut right)) = take_lists(self, other) else {
            return false;
        };
        let mut pocket = Children::none();
        if left.as_ref().levels() > right.as_ref().levels() {
            let lower = left.as_mut().append_lower(right, &mut pocket);
            *self = over(left);
            let Some(lower) = lower else {
                return true;
            };
            *other = over(lower);
            return false;
        }
        if left.as_ref().levels() < right.as_ref().levels() {
            let lower = right.as_mut().prepend_lower(left, &mut pocket);
            let Some(lower) = lower else {
                *self = over(right);
                return true;
            };
            *self = over(lower);
            *other = over(right);
            return false;
        }
        *self = over(left);
        *other = over(right);
        false
    }
}
