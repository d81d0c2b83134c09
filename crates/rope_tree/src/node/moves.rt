//! Children that move between adjacent lists, so that no count of owners is written. Only the first
//! function can fail.
ghost use Rattle.std.specs.Prelude.{◌≡◌, ℕ, ◌+◌, ◌-◌, ◌^◌, ◌<◌, ◌≤◌, [], ◌∷◌, ◌++◌, List, length, take, drop, IfOk, IfSome, IfNone, MatchResult};
ghost use Rattle.rope_text.specs.declared.TheConstants.{MAX_CHILDREN, MIN_CHILDREN, MIN_TWO_LEAVES_BYTES};
ghost use Rattle.rope_text.specs.Text.{byte_len};
ghost use Rattle.rope_text.specs.Dense.{IsDenseAfter, last_bytes};
ghost use Rattle.rope_leaf.specs.Tree.{Tree, joined, leaves_of, height_of, tree_over, AreFamily};
ghost use Rattle.rope_leaf.specs.Siblings.{AreLevel, gathered};
ghost use Rattle.rope_tree.specs.Split.{nodes_over, AreSettled, IsPushed, IsPrepended};

use super::{Children, Form, Node};
use crate::{Made, Totals, total_before};
use rope_shared::local::Sole;
use rope_text::{LineBreaks, MAX_BYTES, MAX_CHILDREN, MIN_CHILDREN, MIN_TWO_LEAVES_BYTES};
use std::alloc::{AllocError, Global};
use std::mem;

/// The maximum number of bytes of a tree whose totals all fit in 32 bits.
pub(super) const MAX_NARROW_BYTES: usize = 4_294_967_295;

/// Allocates an empty list.
#[inline(never)]
pub(super) fn empty_list(alloc: Global) -> Made<Sole<Children>>
    ensures { IfOk result (λ list. list.value ≡ []) }
{
    match Sole::new(alloc, Children::none()) {
        Ok(list) => Ok(list),
        Err(refused) => {
            // It is empty, so nothing leaks; dropping it would add a 400-byte move to the path that
            // succeeds.
            mem::forget(refused);
            Err(AllocError)
        }
    }
}

/// Exchanges `count` entries of two lists.
fn exchange(places: &mut [Node], at: usize, others: &mut [Node], from: usize, count: usize)
    requires room { at + count ≤ length places.old }
    requires within { from + count ≤ length others.old }
    ensures first { places.new ≡ take at places.old
        ++ (take count (drop from others.old) ++ drop (at + count) places.old) }
    ensures second { others.new ≡ take from others.old
        ++ (take count (drop at places.old) ++ drop (from + count) others.old) }
{
    places[at..at + count].swap_with_slice(&mut others[from..from + count]);
}

/// Puts a node before the others, and drops the last one, which is empty.
fn put_first(nodes: &mut [Node], node: Node)
    requires { 1 ≤ length nodes.old }
    ensures { nodes.new ≡ node ∷ take (length nodes.old - 1) nodes.old }
{
    let last = nodes.len() - 1;
    nodes[last] = node;
    nodes.rotate_right(1);
}

/// Makes a node of a list.
pub(super) fn over(list: Sole<Children>) -> Node
    requires { AreFamily list.value }
    ensures { result ≡ tree_over list.value }
{
    let form = Form::Inner(list.into_rc());
    Node { form }
}

impl Children {
    /// Returns an empty list.
    #[inline(always)]
    pub(super) fn none() -> Children
        ensures { result ≡ [] }
    {
        Children {
            height: 1,
            breaks: LineBreaks::Unicode,
            last: 0,
            totals: Totals::new(),
            nodes: Default::default(),
        }
    }

    /// Returns the number of children.
    #[inline(always)]
    pub(super) fn count(&self) -> usize
        ensures { result ≡ length self.now }
    {
        self.totals.len()
    }

    /// Returns the height of a node over the children.
    #[inline(always)]
    pub(super) fn levels(&self) -> u8
        ensures { result ≡ height_of self.now + 1 }
    {
        self.height
    }

    /// Moves the children of another list from the index `from` on to the end of this one.
    pub(super) fn take_from(&mut self, other: &mut Children, from: usize)
        requires level { AreLevel (self.old ++ drop from other.old) }
        requires level_other { AreLevel other.old }
        requires few { byte_len (joined (self.old ++ drop from other.old)) < 2 ^ 32 }
        requires room { length (self.old ++ drop from other.old) ≤ MAX_CHILDREN }
        ensures moved { self.new ≡ self.old ++ drop from other.old }
        ensures rest { other.new ≡ take from other.old }
    {
        let (len, past) = (self.totals.len(), other.totals.len());
        if from >= past {
            return;
        }
        let count = past - from;
        let base = total_before(&other.totals, from);
        let before = total_before(&self.totals, len);
        self.totals.take_from(&mut other.totals, from, base, before);
        exchange(&mut self.nodes, len, &mut other.nodes, from, count);
        (self.height, self.breaks) = (other.height, other.breaks);
        if from == 0 {
            (other.height, other.breaks) = (1, LineBreaks::Unicode);
        }
    }

    /// Appends a child.
    pub(super) fn push(&mut self, node: Node)
        requires level { AreLevel (self.old ++ node ∷ []) }
        requires few { byte_len (joined (self.old ++ node ∷ [])) < 2 ^ 32 }
        requires room { length self.old < MAX_CHILDREN }
        ensures { self.new ≡ self.old ++ node ∷ [] }
    {
        let len = self.totals.len();
        let total = total_before(&self.totals, len).plus(node.info());
        self.totals.push_fitting(total);
        self.height = (node.height() + 1) as u8;
        self.breaks = node.line_breaks();
        self.nodes[len] = node;
    }

    /// Puts a child before the others.
    pub(super) fn push_front(&mut self, node: Node)
        requires level { AreLevel (node ∷ self.old) }
        requires few { byte_len (joined (node ∷ self.old)) < 2 ^ 32 }
        requires room { length self.old < MAX_CHILDREN }
        ensures { self.new ≡ node ∷ self.old }
    {
        let len = self.totals.len();
        self.totals.push_front(node.info());
        self.height = (node.height() + 1) as u8;
        self.breaks = node.line_breaks();
        put_first(&mut self.nodes[..len + 1], node);
    }

    /// Removes the last child, and returns it.
    pub(super) fn pop(&mut self) -> Node
        requires { 1 ≤ length self.old }
        ensures { self.old ≡ self.new ++ result ∷ [] }
    {
        let last = self.totals.len() - 1;
        let node = mem::take(&mut self.nodes[last]);
        self.totals.truncate(last);
        if last == 0 {
            (self.height, self.breaks) = (1, LineBreaks::Unicode);
        }
        node
    }

    /// Removes the last child, and returns its list, if that has no other owner.
    pub(super) fn pop_list(&mut self) -> Option<Sole<Children>>
        requires some { 1 ≤ length self.old }
        requires level { AreLevel self.old }
        requires few { byte_len (joined self.old) < 2 ^ 32 }
        requires room { length self.old ≤ MAX_CHILDREN }
        ensures list { IfSome result (λ list. self.old ≡ self.new ++ tree_over list.value ∷ []) }
        ensures family { IfSome result (λ list. AreFamily list.value) }
        ensures kept { IfNone result (self.new ≡ self.old) }
    {
        match self.pop().into_list() {
            Ok(list) => Some(list),
            Err(node) => {
                self.push(node);
                None
            }
        }
    }

    /// Appends a node over a list, unless the list is empty.
    pub(super) fn push_over(&mut self, list: Sole<Children>)
        requires family { 1 ≤ length list.value → AreFamily list.value }
        requires level { AreLevel (self.old ++ nodes_over list.value) }
        requires few { byte_len (joined (self.old ++ nodes_over list.value)) < 2 ^ 32 }
        requires room { length self.old < MAX_CHILDREN }
        ensures { self.new ≡ self.old ++ nodes_over list.value }
    {
        if list.as_ref().count() > 0 {
            self.push(over(list));
        }
    }

    /// Puts a node over a list before the children, unless the list is empty.
    fn push_front_over(&mut self, list: Sole<Children>)
        requires family { 1 ≤ length list.value → AreFamily list.value }
        requires level { AreLevel (nodes_over list.value ++ self.old) }
        requires few { byte_len (joined (nodes_over list.value ++ self.old)) < 2 ^ 32 }
        requires room { length self.old < MAX_CHILDREN }
        ensures { self.new ≡ nodes_over list.value ++ self.old }
    {
        if list.as_ref().count() > 0 {
            self.push_front(over(list));
        }
    }

    /// Moves children between two adjacent lists, so that this one has `count`.
    pub(super) fn share_out(&mut self, right: &mut Children, count: usize, pocket: &mut Children)
        requires level { AreLevel (self.old ++ right.old) }
        requires few { byte_len (joined (self.old ++ right.old)) < 2 ^ 32 }
        requires within { count ≤ length (self.old ++ right.old) }
        requires most { count ≤ MAX_CHILDREN }
        requires most_right { length (self.old ++ right.old) ≤ count + MAX_CHILDREN }
        requires none { pocket.old ≡ [] }
        ensures same { self.new ++ right.new ≡ self.old ++ right.old }
        ensures count { length self.new ≡ count }
        ensures rest { count + length right.new ≡ length (self.old ++ right.old) }
        ensures none { pocket.new ≡ [] }
    {
        let first = self.totals.len();
        if first > count {
            pocket.take_from(self, count);
            pocket.take_from(right, 0);
        } else {
            pocket.take_from(right, count - first);
            self.take_from(right, 0);
        }
        mem::swap(pocket, right);
    }

    /// Moves children between two adjacent lists, so that each has at least 12, or the second none.
    pub(super) fn settle(&mut self, right: &mut Children, pocket: &mut Children)
        requires level { AreLevel (self.old ++ right.old) }
        requires few { byte_len (joined (self.old ++ right.old)) < 2 ^ 32 }
        requires some { 1 ≤ length self.old }
        requires most { length self.old ≤ MAX_CHILDREN }
        requires most_right { length right.old ≤ MAX_CHILDREN }
        requires enough { MIN_CHILDREN ≤ length (self.old ++ right.old) }
        requires none { pocket.old ≡ [] }
        ensures same { self.new ++ right.new ≡ self.old ++ right.old }
        ensures least { MIN_CHILDREN ≤ length self.new }
        ensures most { length self.new ≤ MAX_CHILDREN }
        ensures least_right { 1 ≤ length right.new → MIN_CHILDREN ≤ length right.new }
        ensures most_right { length right.new ≤ MAX_CHILDREN }
        ensures none { pocket.new ≡ [] }
    {
        let (first, second) = (self.totals.len(), right.totals.len());
        if first >= MIN_CHILDREN && second >= MIN_CHILDREN {
            return;
        }
        if first + second <= MAX_CHILDREN {
            self.take_from(right, 0);
            return;
        }
        self.share_out(right, (first + second) / 2, pocket);
    }

    /// Removes the last two children, and returns their lists, if neither has another owner.
    pub(super) fn pop_two(&mut self) -> Option<(Sole<Children>, Sole<Children>)>
        requires some { 2 ≤ length self.old }
        requires level { AreLevel self.old }
        requires few { byte_len (joined self.old) < 2 ^ 32 }
        requires room { length self.old ≤ MAX_CHILDREN }
        ensures lists { IfSome result (λ two. self.old
            ≡ self.new ++ (tree_over two.0.value ∷ tree_over two.1.value ∷ [])) }
        ensures first { IfSome result (λ two. AreFamily two.0.value) }
        ensures second { IfSome result (λ two. AreFamily two.1.value) }
        ensures kept { IfNone result (self.new ≡ self.old) }
    {
        let second = self.pop_list()?;
        match self.pop_list() {
            Some(first) => Some((first, second)),
            None => {
                self.push(over(second));
                None
            }
        }
    }

    /// Removes the last three children, and returns their lists, if none has another owner.
    pub(super) fn pop_three(&mut self) -> Option<(Sole<Children>, Sole<Children>, Sole<Children>)>
        requires some { 3 ≤ length self.old }
        requires level { AreLevel self.old }
        requires few { byte_len (joined self.old) < 2 ^ 32 }
        requires room { length self.old ≤ MAX_CHILDREN }
        ensures lists { IfSome result (λ three. self.old ≡ self.new ++ (tree_over three.0.value
            ∷ tree_over three.1.value ∷ tree_over three.2.value ∷ [])) }
        ensures first { IfSome result (λ three. AreFamily three.0.value) }
        ensures second { IfSome result (λ three. AreFamily three.1.value) }
        ensures third { IfSome result (λ three. AreFamily three.2.value) }
        ensures kept { IfNone result (self.new ≡ self.old) }
    {
        let third = self.pop_list()?;
        match self.pop_two() {
            Some((first, second)) => Some((first, second, third)),
            None => {
                self.push(over(third));
                None
            }
        }
    }

    /// Appends nodes over two lists.
    pub(super) fn push_two(&mut self, first: Sole<Children>, second: Sole<Children>)
        requires first { AreFamily first.value }
        requires second { AreFamily second.value }
        requires level { AreLevel (self.old
            ++ (tree_over first.value ∷ tree_over second.value ∷ [])) }
        requires few { byte_len (joined (self.old
            ++ (tree_over first.value ∷ tree_over second.value ∷ []))) < 2 ^ 32 }
        requires room { length self.old + 2 ≤ MAX_CHILDREN }
        ensures { self.new ≡ self.old ++ (tree_over first.value ∷ tree_over second.value ∷ []) }
    {
        self.push(over(first));
        self.push(over(second));
    }

    /// Appends nodes over the children of two adjacent lists, after moving children between them so
    /// that each has at least 12, or the second none.
    pub(super) fn push_settled(
        &mut self,
        mut first: Sole<Children>,
        mut second: Sole<Children>,
        pocket: &mut Children,
    )
        requires level { AreLevel (first.value ++ second.value) }
        requires few { byte_len (joined (first.value ++ second.value)) < 2 ^ 32 }
        requires some { 1 ≤ length first.value }
        requires most { length first.value ≤ MAX_CHILDREN }
        requires most_second { length second.value ≤ MAX_CHILDREN }
        requires enough { MIN_CHILDREN ≤ length (first.value ++ second.value) }
        requires room { length self.old + 2 ≤ MAX_CHILDREN }
        requires fits { (nodes : List Tree) → AreSettled (first.value ++ second.value) nodes
            → AreLevel (self.old ++ nodes) }
        requires narrow { (nodes : List Tree) → AreSettled (first.value ++ second.value) nodes
            → byte_len (joined (self.old ++ nodes)) < 2 ^ 32 }
        requires none { pocket.old ≡ [] }
        ensures pushed { IsPushed self.old (first.value ++ second.value) self.new }
        ensures none { pocket.new ≡ [] }
    {
        first.as_mut().settle(second.as_mut(), pocket);
        self.push_over(first);
        self.push_over(second);
    }

    /// Puts such nodes as [`push_settled`](Children::push_settled) appends before the children.
    pub(super) fn prepend_settled(
        &mut self,
        mut first: Sole<Children>,
        mut second: Sole<Children>,
        pocket: &mut Children,
    )
        requires level { AreLevel (first.value ++ second.value) }
        requires few { byte_len (joined (first.value ++ second.value)) < 2 ^ 32 }
        requires some { 1 ≤ length first.value }
        requires most { length first.value ≤ MAX_CHILDREN }
        requires most_second { length second.value ≤ MAX_CHILDREN }
        requires enough { MIN_CHILDREN ≤ length (first.value ++ second.value) }
        requires room { length self.old + 2 ≤ MAX_CHILDREN }
        requires fits { (nodes : List Tree) → AreSettled (first.value ++ second.value) nodes
            → AreLevel (nodes ++ self.old) }
        requires narrow { (nodes : List Tree) → AreSettled (first.value ++ second.value) nodes
            → byte_len (joined (nodes ++ self.old)) < 2 ^ 32 }
        requires none { pocket.old ≡ [] }
        ensures prepended { IsPrepended (first.value ++ second.value) self.old self.new }
        ensures none { pocket.new ≡ [] }
    {
        first.as_mut().settle(second.as_mut(), pocket);
        self.push_front_over(second);
        self.push_front_over(first);
    }

    /// Returns the number of characters of the last child.
    pub(super) fn last_chars(&self) -> usize {
        let len = self.totals.len();
        if len == 0 {
            return 0;
        }
        let before = total_before(&self.totals, len - 1);
        total_before(&self.totals, len)
            .chars
            .saturating_sub(before.chars)
    }

    /// Returns the number of bytes that the first child, a leaf, has room for.
    pub(super) fn first_room(&self) -> usize {
        if self.totals.len() == 0 {
            return 0;
        }
        MAX_BYTES.saturating_sub(self.totals.get(0).bytes)
    }

    /// Returns the number of bytes of the last child, a leaf. Without children, it returns what
    /// makes a leaf of any length long enough beside it.
    pub(super) fn last_leaf_len(&self) -> usize
        requires level { AreLevel self.now }
        requires leaves { height_of self.now ≡ 0 }
        ensures { result ≡ last_bytes MIN_TWO_LEAVES_BYTES (leaves_of self.now) }
    {
        let len = self.totals.len();
        if len == 0 {
            return MIN_TWO_LEAVES_BYTES;
        }
        total_before(&self.totals, len).bytes - total_before(&self.totals, len - 1).bytes
    }

    /// Returns the number of bytes of the first child, a leaf, as
    /// [`last_leaf_len`](Children::last_leaf_len) does.
    pub(super) fn first_leaf_len(&self) -> usize
        requires level { AreLevel self.now }
        requires leaves { height_of self.now ≡ 0 }
        ensures { (n : ℕ) → MIN_TWO_LEAVES_BYTES ≤ n + result
            → IsDenseAfter n (leaves_of self.now) }
    {
        if self.totals.len() == 0 {
            return MIN_TWO_LEAVES_BYTES;
        }
        self.totals.get(0).bytes
    }
}

impl Node {
    /// Returns the list of an inner node, if that has no other owner, and the node otherwise.
    pub(super) fn into_list(self) -> Result<Sole<Children>, Node>
        ensures node { MatchResult result (λ list. self ≡ tree_over list.value)
            (λ node. node ≡ self) }
        ensures family { IfOk result (λ list. AreFamily list.value) }
    {
        let Node { form } = self;
        let form = match form {
            Form::Inner(children) => match Sole::claim(children) {
                Ok(list) => return Ok(list),
                Err(children) => Form::Inner(children),
            },
            form => form,
        };
        Err(Node { form })
    }
}

/// Returns the only child of a list, or a node over all.
pub(super) fn gathered(mut list: Sole<Children>) -> Node
    requires some { 1 ≤ length list.value }
    requires few { length list.value ≤ MAX_CHILDREN }
    requires level { AreLevel list.value }
    ensures { result ≡ gathered list.value }
{
    if list.as_ref().count() > 1 {
        return over(list);
    }
    list.as_mut().pop()
}
