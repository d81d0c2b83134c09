//! Two trees as one. A join descends along the adjacent sides of the two trees to nodes of one
//! height, and merges these. On the ascent, the one or two results replace the child of each level.
ghost use Rattle.std.specs.Prelude.{◌≡◌, ℕ, ◌+◌, ◌-◌, ◌*◌, ◌<◌, ◌≤◌, ◌↔◌, [], ◌∷◌, ◌++◌, true, false, length, max, IsTrue, IfOk};
ghost use Rattle.rope_text.specs.declared.TheConstants.{MAX_BYTES, MAX_CHILDREN, MIN_TWO_LEAVES_BYTES};
ghost use Rattle.rope_text.specs.Cuts.{distance};
ghost use Rattle.rope_text.specs.Dense.{IsDenseAfter, last_bytes};
ghost use Rattle.rope_text.specs.Text.{byte_len};
ghost use Rattle.rope_text.specs.TextInfo.{info_of};
ghost use Rattle.rope_leaf.specs.Tree.{height_of, leaf_tree, IsTree};
ghost use Rattle.rope_tree.specs.View.{trees_in};
ghost use Rattle.rope_leaf.specs.Siblings.{gathered};
ghost use Rattle.rope_tree.specs.Rows.{IsRow};
ghost use Rattle.rope_join.specs.Join.{CanJoin, CanMerge, EndsIn, BeginsIn, IsNear, IsUnion, IsJoin};
ghost use Rattle.rope_join.specs.Cut.{AreGatherable};

use rope_text::{
    LineBreaks, MAX_BYTES, MAX_CHILDREN, MIN_BYTES, MIN_CHILDREN, MIN_TWO_LEAVES_BYTES, TextInfo,
};
use rope_tree::{
    Made, Maker, Node, NodeText, Nodes, Row, ShortText, View, gather_rows, make_leaf, pack,
    pack_first, pack_last, pack_over, root_of,
};

/// Returns the number of bytes of the last leaf of a tree, or of the first. Where two trees are
/// joined, these leaves need `MIN_TWO_LEAVES_BYTES` bytes together.
pub(crate) fn end_leaf_len(node: &Node, is_last: bool) -> usize
    requires { 1 ≤ length node.now.leaves }
    ensures last { IsTrue is_last → (n : ℕ) → result ≡ last_bytes n node.now.leaves }
    ensures first { is_last ≡ false → (n : ℕ)
        → MIN_TWO_LEAVES_BYTES ≤ n + result ↔ IsDenseAfter n node.now.leaves }
    ensures fits { result ≤ MAX_BYTES }
{
    match node.view() {
        View::Leaf(leaf) => leaf.len(),
        View::Inner(children, _) if is_last => end_leaf_len(&children[children.len() - 1], true),
        View::Inner(children, _) => end_leaf_len(&children[0], false),
    }
}

/// Makes a leaf of two texts, one after the other. Never inlined, since its caller would clear
/// stack for the text at each call.
#[inline(never)]
fn leaf_of_both(
    maker: &mut Maker,
    breaks: LineBreaks,
    first: &ShortText<'_>,
    second: &ShortText<'_>,
    info: TextInfo,
) -> Made<Node>
    requires fits { byte_len first.now + byte_len second.now ≤ MAX_BYTES }
    requires info { info ≡ info_of breaks (first.now ++ second.now) }
    ensures ok { IfOk result (λ node. node ≡ leaf_tree breaks (first.now ++ second.now)) }
    ensures tree { IfOk result (λ node. IsTree node) }
    ensures made { maker.new.made ≤ maker.old.made + 1 }
{
    let mut text = NodeText::from_str(first.as_str());
    text.push_str(second.as_str());
    make_leaf(maker, breaks, text.as_str(), info)
}

/// Merges two trees of one height into one or two of that height. Two leaves are merged if they fit
/// in one and either is short. Two inner nodes are merged if one can hold all children; if either
/// has too few, they share the children evenly.
fn merge(maker: &mut Maker, left: &Node, right: &Node) -> Made<Nodes>
    requires left_some { 1 ≤ length left.now.leaves }
    requires right_some { 1 ≤ length right.now.leaves }
    requires join { CanJoin left.now right.now }
    requires merge { CanMerge left.now right.now }
    ensures union { IfOk result (λ nodes. IsUnion left.now right.now (trees_in nodes)) }
    ensures made { maker.new.made ≤ maker.old.made + 2 }
{
    match left.view() {
        View::Leaf(first) => {
            let View::Leaf(second) = right.view() else {
                unreachable!()
            };
            let is_short = first.len() < MIN_BYTES || second.len() < MIN_BYTES;
            if first.len() + second.len() <= MAX_BYTES && is_short {
                let info = left.info().plus(right.info());
                let node = leaf_of_both(maker, left.line_breaks(), &first, &second, info)?;
                return Ok(Nodes::One(node));
            }
            Ok(Nodes::Two(left.share()?, right.share()?))
        }
        View::Inner(first, first_totals) => {
            let View::Inner(second, second_totals) = right.view() else {
                unreachable!()
            };
            if first.len() >= MIN_CHILDREN
                && second.len() >= MIN_CHILDREN
                && first.len() + second.len() > MAX_CHILDREN
            {
                return Ok(Nodes::Two(left.share()?, right.share()?));
            }
            let before = Row::of(first, first_totals);
            let after = Row::of(second, second_totals);
            pack_over(maker, before, Row::none(), after)
        }
    }
}

/// The last child of a tree or the first, between its siblings before and after it.
#[derive(Clone, Copy)]
struct End<'a> {
    before: Row<'a>,
    node: &'a Node,
    after: Row<'a>,
}

/// Returns the last child of a tree or the first, if the height of the tree is at least `least`;
/// else the tree itself, without siblings.
fn end_of(node: &Node, least: usize, is_last: bool) -> End<'_>
    requires { least ≤ node.now.height → 1 ≤ node.now.height }
    ensures before { IsRow result.before }
    ensures after { IsRow result.after }
    ensures last { IsTrue is_last → least ≤ node.now.height
        → EndsIn node.now result.before.nodes.now result.node.now }
    ensures first { is_last ≡ false → least ≤ node.now.height
        → BeginsIn node.now result.node.now result.after.nodes.now }
    ensures whole { node.now.height < least → (result.before.nodes.now ≡ [])
        × (result.node.now ≡ node.now) × (result.after.nodes.now ≡ []) }
{
    let none = Row::none();
    if node.height() < least {
        return End {
            before: none,
            node,
            after: none,
        };
    }
    let View::Inner(children, totals) = node.view() else {
        unreachable!()
    };
    let row = Row::of(children, totals);
    if is_last {
        let last = children.len() - 1;
        return End {
            before: row.first(last),
            node: &children[last],
            after: none,
        };
    }
    End {
        before: none,
        node: &children[0],
        after: row.rest(1),
    }
}

/// Joins two nonempty trees into one or two of the greater height. Descends along their adjacent
/// sides to nodes of one height, or further, to the two adjacent leaves, if these have too few
/// bytes together and have to be merged.
pub(crate) fn unite(maker: &mut Maker, left: &Node, right: &Node) -> Made<Nodes>
    requires left_some { 1 ≤ length left.now.leaves }
    requires right_some { 1 ≤ length right.now.leaves }
    requires join { CanJoin left.now right.now }
    ensures union { IfOk result (λ nodes. IsUnion left.now right.now (trees_in nodes)) }
    ensures made { maker.new.made ≤ maker.old.made + 2 * max left.now.height right.now.height + 2 }
    ensures made_near { IsNear left.now right.now
        → maker.new.made ≤ maker.old.made + 2 * distance left.now.height right.now.height + 2 }
{
    let height = left.height();
    if height == right.height()
        && (height == 0
            || end_leaf_len(left, true) + end_leaf_len(right, false) >= MIN_TWO_LEAVES_BYTES)
    {
        return merge(maker, left, right);
    }
    let last = end_of(left, right.height(), true);
    let first = end_of(right, height, false);
    let middle = unite(maker, last.node, first.node)?;
    pack(maker, last.before, middle, first.after)
}

/// Joins two trees into one, at most one level higher than the higher one. No CR at the end of the
/// first may meet an LF at the start of the second.
pub fn join(maker: &mut Maker, left: &Node, right: &Node) -> Made<Node>
    requires { CanJoin left.now right.now }
    ensures join { IfOk result (λ node. IsJoin left.now right.now node) }
    ensures tree { IfOk result (λ node. IsTree node) }
    ensures made { maker.new.made ≤ maker.old.made + 2 * max left.now.height right.now.height + 3 }
    ensures made_near { IsNear left.now right.now
        → maker.new.made ≤ maker.old.made + 2 * distance left.now.height right.now.height + 3 }
{
    if right.info().bytes == 0 {
        return left.share();
    }
    if left.info().bytes == 0 {
        return right.share();
    }
    let nodes = unite(maker, left, right)?;
    root_of(maker, nodes)
}

/// Returns whether `count` nodes should be merged into a neighbour with `children` children.
/// Otherwise they keep a node of their own, as in `merge`.
fn shares_children(children: usize, count: usize) -> bool
    requires children { children ≤ MAX_CHILDREN }
    requires count { count ≤ MAX_CHILDREN }
    ensures { result ≡ true → 2 ≤ count }
{
    let is_few = children < MIN_CHILDREN || count < MIN_CHILDREN;
    count > 1 && (is_few || children + count <= MAX_CHILDREN)
}

/// Joins a tree and the nodes after it into one or two trees of the greater height. Makes a node
/// over the nodes alone only if it is in the result.
pub(crate) fn unite_after(
    maker: &mut Maker,
    left: &Node,
    before: Row<'_>,
    nodes: Nodes,
) -> Made<Nodes>
    requires before { IsRow before }
    requires gather { AreGatherable (before.nodes.now ++ trees_in nodes) }
    requires level { 2 ≤ length (before.nodes.now ++ trees_in nodes)
        → height_of (before.nodes.now ++ trees_in nodes) + 1 ≡ left.now.height }
    requires left_some { 1 ≤ length left.now.leaves }
    requires right_some { 1 ≤ length (gathered (before.nodes.now ++ trees_in nodes)).leaves }
    requires join { CanJoin left.now (gathered (before.nodes.now ++ trees_in nodes)) }
    requires near { IsNear left.now (gathered (before.nodes.now ++ trees_in nodes)) }
    ensures union { IfOk result (λ united. IsUnion left.now
        (gathered (before.entry.nodes.now ++ trees_in nodes)) (trees_in united)) }
    ensures made { maker.new.made ≤ maker.old.made + 2 * distance left.now.height
        (gathered (before.entry.nodes.now ++ trees_in nodes)).height + 3 }
{
    if let View::Inner(children, totals) = left.view()
        && shares_children(children.len(), before.nodes.len() + nodes.len())
    {
        return pack_last(maker, Row::of(children, totals), before, nodes);
    }
    let part = gather_rows(maker, before, nodes, Row::none())?;
    unite(maker, left, &part)
}

/// Joins some nodes and the tree after them into one or two trees of the greater height. Makes a
/// node over the nodes alone only if it is in the result.
pub(crate) fn unite_before(
    maker: &mut Maker,
    nodes: Nodes,
    after: Row<'_>,
    right: &Node,
) -> Made<Nodes>
    requires after { IsRow after }
    requires gather { AreGatherable (trees_in nodes ++ after.nodes.now) }
    requires level { 2 ≤ length (trees_in nodes ++ after.nodes.now)
        → height_of (trees_in nodes ++ after.nodes.now) + 1 ≡ right.now.height }
    requires left_some { 1 ≤ length (gathered (trees_in nodes ++ after.nodes.now)).leaves }
    requires right_some { 1 ≤ length right.now.leaves }
    requires join { CanJoin (gathered (trees_in nodes ++ after.nodes.now)) right.now }
    requires near { IsNear (gathered (trees_in nodes ++ after.nodes.now)) right.now }
    ensures union { IfOk result (λ united. IsUnion
        (gathered (trees_in nodes ++ after.entry.nodes.now)) right.now (trees_in united)) }
    ensures made { maker.new.made ≤ maker.old.made + 2 * distance
        (gathered (trees_in nodes ++ after.entry.nodes.now)).height right.now.height + 3 }
{
    if let View::Inner(children, totals) = right.view()
        && shares_children(children.len(), nodes.len() + after.nodes.len())
    {
        return pack_first(maker, nodes, after, Row::of(children, totals));
    }
    let part = gather_rows(maker, Row::none(), nodes, after)?;
    unite(maker, &part, right)
}
