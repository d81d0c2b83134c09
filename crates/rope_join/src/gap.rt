//! Removals over several leaves.
//!
//! A removal descends to the node at which the two ends of the range are in different children.
//! There it joins the front of the first child and the back of the second. On the ascent each list
//! is made once, with the result in place of the children that were split.
ghost use Rattle.std.specs.Prelude.{◌≡◌, ◌+◌, ◌*◌, ◌<◌, ◌≤◌, ◌^◌, true, false, length, take, drop, max, IfOk};
ghost use Rattle.rope_text.specs.declared.TheConstants.{MIN_TWO_LEAVES_BYTES};
ghost use Rattle.rope_text.specs.Dense.{IsDenseAfter, last_bytes};
ghost use Rattle.rope_text.specs.Text.{byte_len};
ghost use Rattle.rope_leaf.specs.Leaves.{IsSeam};
ghost use Rattle.rope_leaf.specs.Siblings.{gathered};
ghost use Rattle.rope_leaf.specs.Totals.{HasTotals};
ghost use Rattle.rope_leaf.specs.Searched.{HasSearched};
ghost use Rattle.rope_leaf.specs.Tree.{text, leaves_of, height_of, breaks_of, IsTree, AreFamily};
ghost use Rattle.rope_join.specs.Cut.{first_chars, last_chars, SparesFirst, SparesLast, IsSides};
ghost use Rattle.rope_join.specs.Put.{CanPut, CanPutAtEnd, IsPut, IsPutAtEnd, leaves_before};

use crate::cut::{back, front};
use crate::join::{end_leaf_len, join, unite};
use rope_text::MIN_TWO_LEAVES_BYTES;
use rope_tree::{
    Editor, Made, Maker, Node, Row, Totals, View, node_over, pack, pack_over, root_of, total_before,
};

/// The maximum height of a tree for a removal in one descent. A higher tree, of at least half a
/// gigabyte, is split into a front and a back, so that the nodes made are bounded by a multiple of
/// the height.
const MAX_ONE_WAY: usize = 6;

/// Returns whether a split before a character leaves the first leaf whole, and the tree has others.
fn spares_first(node: &Node, at: usize) -> bool
    ensures spares { result ≡ true → SparesFirst at node.now }
    ensures cuts { result ≡ false → 1 ≤ node.now.height → at < first_chars node.now.leaves }
{
    match node.view() {
        View::Leaf(_) => false,
        View::Inner(children, totals) => {
            totals.get(0).chars <= at || spares_first(&children[0], at)
        }
    }
}

/// Returns whether a split before a character leaves the last leaf whole, and the tree has others.
fn spares_last(node: &Node, at: usize) -> bool
    ensures spares { result ≡ true → SparesLast at node.now }
    ensures cuts { result ≡ false → 1 ≤ node.now.height
        → length (text node.now) < at + last_chars 0 node.now.leaves }
{
    match node.view() {
        View::Leaf(_) => false,
        View::Inner(children, totals) => {
            let last = children.len() - 1;
            let before = total_before(totals, last).chars;
            at <= before || spares_last(&children[last], at - before)
        }
    }
}

/// Returns whether the first and the last leaf of a tree are long enough for it to replace the
/// children from `first` up to `past`.
pub(crate) fn stands(children: &[Node], first: usize, past: usize, part: &Node) -> bool
    requires children { AreFamily children.now }
    requires some_before { 1 ≤ first }
    requires ordered { first < past }
    requires some_after { past < length children.now }
    requires some { 1 ≤ length part.now.leaves }
    ensures near { result ≡ true → IsDenseAfter
        (last_bytes MIN_TWO_LEAVES_BYTES (leaves_before children.now first)) part.now.leaves }
    ensures next { result ≡ true → IsDenseAfter (last_bytes MIN_TWO_LEAVES_BYTES part.now.leaves)
        (leaves_of (drop past children.now)) }
{
    let before = end_leaf_len(&children[first - 1], true);
    let following = end_leaf_len(&children[past], false);
    before + end_leaf_len(part, false) >= MIN_TWO_LEAVES_BYTES
        && end_leaf_len(part, true) + following >= MIN_TWO_LEAVES_BYTES
}

/// Joins the first `end` characters of one tree and the characters of another from `start` on, if
/// no CR meets an LF there.
pub(crate) fn join_sides(
    editor: &mut Editor,
    left: &Node,
    end: usize,
    right: &Node,
    start: usize,
) -> Made<Node>
    requires end { end ≤ length (text left.now) }
    requires start { start ≤ length (text right.now) }
    requires same_breaks { right.now.breaks ≡ left.now.breaks }
    requires seam { IsSeam (take end (text left.now)) (drop start (text right.now)) }
    requires fits { byte_len (take end (text left.now)) + byte_len (drop start (text right.now))
        < 2 ^ 63 }
    ensures sides { IfOk result (λ node. IsSides left.now end right.now start node) }
    ensures tree { IfOk result (λ node. IsTree node) }
    ensures made { editor.new.maker.made
        ≤ editor.old.maker.made + 14 * max left.now.height right.now.height + 5 }
    ensures searched { HasSearched (2 * max left.now.height right.now.height) (10 * max
        left.now.height right.now.height) editor.old editor.new }
{
    let first = front(editor, left, end)?;
    let second = back(editor, right, start)?;
    join(&mut editor.maker, &first, &second)
}

/// Replaces the children of a node from `first` up to `past` by a tree. If the tree is higher than
/// they are, its children replace them. Any other tree is united with the child before it, so that
/// it has enough children.
pub(crate) fn put(
    maker: &mut Maker,
    children: &[Node],
    totals: &Totals,
    first: usize,
    past: usize,
    part: &Node,
) -> Made<Node>
    requires children { AreFamily children.now }
    requires totals { HasTotals (breaks_of children.now) totals.now children.now }
    requires put { CanPut children.now first past part.now }
    ensures put { IfOk result (λ node. IsPut children.now first past part.now node) }
    ensures tree { IfOk result (λ node. IsTree node) }
    ensures made { maker.new.made ≤ maker.old.made + 2 * height_of children.now + 5 }
{
    let row = Row::of(children, totals);
    let after = row.rest(past);
    if part.height() > children[0].height() {
        let View::Inner(nodes, _) = part.view() else {
            unreachable!()
        };
        let packed = pack_over(maker, row.first(first), Row::new(nodes), after)?;
        return root_of(maker, packed);
    }
    let middle = unite(maker, &children[first - 1], part)?;
    let packed = pack(maker, row.first(first - 1), middle, after)?;
    root_of(maker, packed)
}

/// Returns the only one of some adjacent nodes, or a node over them.
fn gather(maker: &mut Maker, nodes: &[Node]) -> Made<Node>
    requires some { 1 ≤ length nodes.now }
    requires family { 2 ≤ length nodes.now → AreFamily nodes.now }
    ensures ok { IfOk result (λ node. node ≡ gathered nodes.now) }
    ensures made { maker.new.made ≤ maker.old.made + 1 }
{
    if nodes.len() == 1 {
        return nodes[0].share();
    }
    node_over(maker, nodes)
}

/// Replaces the first children of a node, up to `past`, or the last, from `first` on, by a tree.
fn put_at_end(
    maker: &mut Maker,
    children: &[Node],
    first: usize,
    past: usize,
    part: &Node,
) -> Made<Node>
    requires children { AreFamily children.now }
    requires put { CanPutAtEnd children.now first past part.now }
    ensures put { IfOk result (λ node. IsPutAtEnd children.now first past part.now node) }
    ensures tree { IfOk result (λ node. IsTree node) }
    ensures made { maker.new.made ≤ maker.old.made + 2 * height_of children.now + 6 }
{
    if past < children.len() {
        let after = gather(maker, &children[past..])?;
        return join(maker, part, &after);
    }
    let before = gather(maker, &children[..first])?;
    join(maker, &before, part)
}

/// Returns the tree without the characters from `start` up to `end`, at least one, if no CR meets
/// an LF there.
pub(crate) fn without(editor: &mut Editor, node: &Node, start: usize, end: usize) -> Made<Node>
    requires ordered { start < end }
    requires within { end ≤ length (text node.now) }
    requires seam { IsSeam (take start (text node.now)) (drop end (text node.now)) }
    ensures sides { IfOk result (λ part. IsSides node.now start node.now end part) }
    ensures tree { IfOk result (λ part. IsTree part) }
    ensures made { editor.new.maker.made ≤ editor.old.maker.made + 16 * node.now.height + 11 }
    ensures searched { HasSearched (2 * node.now.height + 2) (10 * node.now.height + 10)
        editor.old editor.new }
{
    let height = node.height();
    if let View::Inner(children, totals) = node.view()
        && height <= MAX_ONE_WAY
    {
        let first = editor.child_at(totals, start);
        let last = editor.child_at(totals, end - 1);
        let (left, right) = (&children[first], &children[last]);
        let from = start - total_before(totals, first).chars;
        let to = end - total_before(totals, last).chars;
        if first > 0 && last + 1 < children.len() {
            if height == 1 {
                // At most three leaves are wasted, if they turn out too short for their neighbours.
                let part = join_sides(editor, left, from, right, to)?;
                if part.info().bytes > 0 && stands(children, first, last + 1, &part) {
                    return put(&mut editor.maker, children, totals, first, last + 1, &part);
                }
            } else if spares_first(left, from) && spares_last(right, to) {
                let part = if first == last {
                    without(editor, left, from, to)?
                } else {
                    join_sides(editor, left, from, right, to)?
                };
                return put(&mut editor.maker, children, totals, first, last + 1, &part);
            }
        } else if height > 1 && (first > 0 || last + 1 < children.len()) {
            let part = if first == last {
                without(editor, left, from, to)?
            } else {
                join_sides(editor, left, from, right, to)?
            };
            return put_at_end(&mut editor.maker, children, first, last + 1, &part);
        }
    }
    join_sides(editor, node, start, node, end)
}
