//! Splits of a tree: its front, its back, and a range, as trees no higher than it. Nodes that are
//! wholly inside the result are shared.
ghost use Rattle.std.specs.Prelude.{◌≡◌, ◌+◌, ◌-◌, ◌*◌, ◌<◌, ◌≤◌, ◌++◌, length, take, drop, IfOk, OnOk, OnErr};
ghost use Rattle.std.specs.List.{slice_range};
ghost use Rattle.rope_leaf.specs.Tree.{text, leaf_tree, IsTree};
ghost use Rattle.rope_tree.specs.View.{trees_in};
ghost use Rattle.rope_leaf.specs.Siblings.{gathered};
ghost use Rattle.rope_tree.specs.Rows.{IsRow};
ghost use Rattle.rope_leaf.specs.Searched.{HasSearched};
ghost use Rattle.rope_join.specs.Cut.{side_of, IsFront, IsBack, ArePart, AreBeside, IsWithFront, IsWithBack};

use crate::join::{unite, unite_after, unite_before};
use rope_tree::{
    Editor, Made, Maker, Node, Nodes, Row, ShortText, View, gather_rows, infos_of_parts, leaf_of,
    make_leaf, total_before,
};

/// The two sides of a split.
#[derive(Clone, Copy)]
enum Side {
    Front,
    Back,
}

/// Makes a leaf of the first `at` characters of a leaf, or of the rest. Never inlined, since each
/// level of a descent would clear stack for its text.
#[inline(never)]
fn leaf_part(
    maker: &mut Maker,
    node: &Node,
    leaf: &ShortText<'_>,
    at: usize,
    side: Side,
) -> Made<Node>
    requires leaf { node.now ≡ leaf_tree node.now.breaks leaf.now }
    requires some { 1 ≤ at }
    requires within { at < length leaf.now }
    ensures ok { IfOk result (λ part. part ≡ leaf_tree node.now.breaks (side_of side at leaf.now)) }
    ensures tree { IfOk result (λ part. IsTree part) }
    ensures made { maker.new.made ≤ maker.old.made + 1 }
{
    let breaks = node.line_breaks();
    let text = leaf.as_str();
    let place = leaf.char_to_byte_idx(at);
    let (front, back) = (&text[..place], &text[place..]);
    let (front_info, back_info) = infos_of_parts(front, back, node.info(), breaks);
    match side {
        Side::Front => make_leaf(maker, breaks, front, front_info),
        Side::Back => make_leaf(maker, breaks, back, back_info),
    }
}

/// A side of a split inner node, not yet under a node of its own: a row of its children, and one or
/// two new nodes. One level up, most sides go under one or two nodes together with the children of
/// a neighbour; a node over them alone would be discarded there at once.
#[derive(Drop)]
struct Part<'a> {
    row: Row<'a>,
    nodes: Nodes,
}

/// Returns the first `at` characters of an inner node, at least one.
#[cycle(front)]
fn front_part<'a>(editor: &mut Editor, node: &'a Node, at: usize) -> Made<Part<'a>>
    requires inner { 1 ≤ node.now.height }
    requires some { 1 ≤ at }
    requires within { at ≤ length (text node.now) }
    ensures row { IfOk result (λ part. IsRow part.row) }
    ensures part { IfOk result (λ part. ArePart node.now
        (part.row.nodes.now ++ trees_in part.nodes)) }
    ensures front { IfOk result (λ part. IsFront at node.now
        (gathered (part.row.nodes.now ++ trees_in part.nodes))) }
    ensures made_ok { IfOk result (λ part. editor.new.maker.made ≤ editor.old.maker.made
        + 4 * node.now.height
        + 2 * (gathered (part.row.nodes.now ++ trees_in part.nodes)).height) }
    ensures made { editor.new.maker.made ≤ editor.old.maker.made + 6 * node.now.height }
    ensures searched { HasSearched node.now.height (5 * node.now.height) editor.old editor.new }
{
    let View::Inner(children, totals) = node.view() else {
        unreachable!()
    };
    let place = editor.child_at(totals, at - 1);
    let before = total_before(totals, place).chars;
    let child = &children[place];
    let within = at - before;
    if place == 0 {
        let only = front(editor, child, within)?;
        return Ok(Part {
            row: Row::none(),
            nodes: Nodes::One(only),
        });
    }
    let row = Row::of(children, totals).first(place - 1);
    let nodes = with_front(editor, &children[place - 1], child, within)?;
    Ok(Part { row, nodes })
}

/// Joins a tree and the first `at` characters of its next sibling, at least one.
#[cycle(front)]
fn with_front(editor: &mut Editor, left: &Node, right: &Node, at: usize) -> Made<Nodes>
    requires beside { AreBeside left.now right.now }
    requires some { 1 ≤ at }
    requires within { at ≤ length (text right.now) }
    ensures union { IfOk result (λ nodes. IsWithFront left.now at right.now (trees_in nodes)) }
    ensures made { editor.new.maker.made ≤ editor.old.maker.made + 6 * right.now.height + 3 }
    ensures searched { HasSearched right.now.height (5 * right.now.height) editor.old editor.new }
{
    if right.height() == 0 || at == right.info().chars {
        let part = front(editor, right, at)?;
        return unite(&mut editor.maker, left, &part);
    }
    let Part { row, nodes } = front_part(editor, right, at)?;
    unite_after(&mut editor.maker, left, row, nodes)
}

/// Returns the first `at` characters, possibly none.
#[cycle(front)]
pub fn front(editor: &mut Editor, node: &Node, at: usize) -> Made<Node>
    requires { at ≤ length (text node.now) }
    ensures front { IfOk result (λ part. IsFront at node.now part) }
    ensures tree { IfOk result (λ part. IsTree part) }
    ensures made_ok { IfOk result (λ part. editor.new.maker.made
        ≤ editor.old.maker.made + 4 * node.now.height + 2 * part.height + 1) }
    ensures made { editor.new.maker.made ≤ editor.old.maker.made + 6 * node.now.height + 1 }
    ensures searched { HasSearched node.now.height (5 * node.now.height) editor.old editor.new }
{
    if at == 0 {
        return leaf_of(&mut editor.maker, node.line_breaks(), "");
    }
    if at == node.info().chars {
        return node.share();
    }
    if let View::Leaf(leaf) = node.view() {
        return leaf_part(&mut editor.maker, node, &leaf, at, Side::Front);
    }
    let Part { row, nodes } = front_part(editor, node, at)?;
    gather_rows(&mut editor.maker, row, nodes, Row::none())
}

/// Returns the characters of an inner node from `at` on, at least one.
#[cycle(back)]
fn back_part<'a>(editor: &mut Editor, node: &'a Node, at: usize) -> Made<Part<'a>>
    requires inner { 1 ≤ node.now.height }
    requires within { at < length (text node.now) }
    ensures row { IfOk result (λ part. IsRow part.row) }
    ensures part { IfOk result (λ part. ArePart node.now
        (trees_in part.nodes ++ part.row.nodes.now)) }
    ensures back { IfOk result (λ part. IsBack at node.now
        (gathered (trees_in part.nodes ++ part.row.nodes.now))) }
    ensures made_ok { IfOk result (λ part. editor.new.maker.made ≤ editor.old.maker.made
        + 4 * node.now.height
        + 2 * (gathered (trees_in part.nodes ++ part.row.nodes.now)).height) }
    ensures made { editor.new.maker.made ≤ editor.old.maker.made + 6 * node.now.height }
    ensures searched { HasSearched node.now.height (5 * node.now.height) editor.old editor.new }
{
    let View::Inner(children, totals) = node.view() else {
        unreachable!()
    };
    let place = editor.child_at(totals, at);
    let before = total_before(totals, place).chars;
    let child = &children[place];
    let within = at - before;
    if place + 1 == children.len() {
        let only = back(editor, child, within)?;
        return Ok(Part {
            row: Row::none(),
            nodes: Nodes::One(only),
        });
    }
    let row = Row::of(children, totals).rest(place + 2);
    let nodes = with_back(editor, child, within, &children[place + 1])?;
    Ok(Part { row, nodes })
}

/// Joins the characters of a tree from `at` on, at least one, and its next sibling.
#[cycle(back)]
fn with_back(editor: &mut Editor, left: &Node, at: usize, right: &Node) -> Made<Nodes>
    requires beside { AreBeside left.now right.now }
    requires within { at < length (text left.now) }
    ensures union { IfOk result (λ nodes. IsWithBack left.now at right.now (trees_in nodes)) }
    ensures made { editor.new.maker.made ≤ editor.old.maker.made + 6 * left.now.height + 3 }
    ensures searched { HasSearched left.now.height (5 * left.now.height) editor.old editor.new }
{
    if left.height() == 0 || at == 0 {
        let part = back(editor, left, at)?;
        return unite(&mut editor.maker, &part, right);
    }
    let Part { row, nodes } = back_part(editor, left, at)?;
    unite_before(&mut editor.maker, nodes, row, right)
}

/// Returns the characters from `at` on, possibly none.
#[cycle(back)]
pub fn back(editor: &mut Editor, node: &Node, at: usize) -> Made<Node>
    requires { at ≤ length (text node.now) }
    ensures back { IfOk result (λ part. IsBack at node.now part) }
    ensures tree { IfOk result (λ part. IsTree part) }
    ensures made { editor.new.maker.made ≤ editor.old.maker.made + 6 * node.now.height + 1 }
    ensures made_ok { IfOk result (λ part. editor.new.maker.made
        ≤ editor.old.maker.made + 4 * node.now.height + 2 * part.height + 1) }
    ensures searched { HasSearched node.now.height (5 * node.now.height) editor.old editor.new }
{
    if at == node.info().chars {
        return leaf_of(&mut editor.maker, node.line_breaks(), "");
    }
    if at == 0 {
        return node.share();
    }
    if let View::Leaf(leaf) = node.view() {
        return leaf_part(&mut editor.maker, node, &leaf, at, Side::Back);
    }
    let Part { row, nodes } = back_part(editor, node, at)?;
    gather_rows(&mut editor.maker, Row::none(), nodes, row)
}

/// Returns the characters from `start` up to `end`, at least one.
pub fn between(editor: &mut Editor, node: &Node, start: usize, end: usize) -> Made<Node>
    requires ordered { start < end }
    requires within { end ≤ length (text node.now) }
    ensures text { IfOk result (λ part. text part ≡ slice_range (text node.now) start end) }
    ensures breaks { IfOk result (λ part. part.breaks ≡ node.now.breaks) }
    ensures tree { IfOk result (λ part. IsTree part) }
    ensures made { editor.new.maker.made ≤ editor.old.maker.made + 12 * node.now.height + 3 }
    ensures searched { HasSearched (2 * node.now.height) (10 * node.now.height) editor.old
        editor.new }
{
    let front = front(editor, node, end)?;
    back(editor, &front, start)
}

/// Splits a tree: keeps the characters before `at`, and returns a tree of those from it on. Where
/// the nodes on the path and beside it have no other owner, they are split in place. Else a front
/// and a back that share the tree's nodes replace it, as the last step.
pub fn split_off(editor: &mut Editor, root: &mut Node, at: usize) -> Made<Node>
    requires { at ≤ length (text root.old) }
    ensures front { OnOk result (text root.new ≡ take at (text root.old)) }
    ensures back { IfOk result (λ back. text back ≡ drop at (text root.old)) }
    ensures breaks { root.new.breaks ≡ root.old.breaks }
    ensures back_breaks { IfOk result (λ back. back.breaks ≡ root.old.breaks) }
    ensures tree { IsTree root.new }
    ensures back_tree { IfOk result (λ back. IsTree back) }
    ensures err { OnErr result (root.new ≡ root.old) }
    ensures made { editor.new.maker.made ≤ editor.old.maker.made + 12 * root.old.height + 2 }
    ensures searched { HasSearched (5 * root.old.height) (31 * root.old.height) editor.old
        editor.new }
{
    if let Some(back) = root.split_in_place(editor, at)? {
        return Ok(back);
    }
    let first = front(editor, root, at)?;
    let second = back(editor, root, at)?;
    *root = first;
    Ok(second)
}
