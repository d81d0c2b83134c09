//! Edits that change more than one leaf: inserts, removals and appends, by splits and joins.
//!
//! Where a removal or an append makes a CR meet an LF, the two become a leaf of their own between
//! the two trees, so that no CR LF is split between two leaves. If an allocation fails, the tree is
//! unchanged.
ghost use Rattle.std.specs.Prelude.{◌≡◌, ◌+◌, ◌*◌, ◌/◌, ◌<◌, ◌≤◌, ◌^◌, ◌++◌, true, length, take, drop, max, IfOk, OnOk, OnErr};
ghost use Rattle.std.specs.Str.{chars};
ghost use Rattle.rope_text.specs.declared.TheConstants.{MAX_SHORT_BYTES, MIN_CUT_BYTES, MIN_TWO_LEAVES_BYTES};
ghost use Rattle.rope_text.specs.Text.{byte_len};
ghost use Rattle.rope_text.specs.Cutting.{parts_crlf};
ghost use Rattle.rope_text.specs.Dense.{IsDenseAfter, last_bytes};
ghost use Rattle.rope_text.specs.Edit.{inserted, removed};
ghost use Rattle.rope_leaf.specs.Leaves.{IsSeam};
ghost use Rattle.rope_leaf.specs.Searched.{HasSearched};
ghost use Rattle.rope_leaf.specs.Tree.{text, leaf_tree, IsTree};

use crate::cut::{back, front};
use crate::gap::{join_sides, put, stands, without};
use crate::join::{end_leaf_len, join};
use rope_text::{MAX_BYTES, MAX_SHORT_BYTES, MIN_TWO_LEAVES_BYTES};
use rope_tree::build::build;
use rope_tree::{
    Builder, Editor, MAX_MEDIUM_BYTES, Made, Maker, Node, ShortText, View, counted_char_at,
    insert_at, insert_medium_at, is_lf, leaf_of, remove_at, total_before,
};

/// Returns whether a CR at the end of the first `end` characters of one tree meets an LF at the
/// character `start` of another.
fn meets(editor: &mut Editor, left: &Node, end: usize, right: &Node, start: usize) -> bool
    requires tree { IsTree left.now }
    requires end { end ≤ length (text left.now) }
    requires start { start ≤ length (text right.now) }
    ensures value { result ≡ parts_crlf (take end (text left.now)) (drop start (text right.now)) }
    ensures tree { result ≡ true → IsTree right.now }
    ensures made { editor.new.maker.made ≡ editor.old.maker.made }
    ensures searched { HasSearched (2 * max left.now.height right.now.height + 2)
        (10 * max left.now.height right.now.height) editor.old editor.new }
{
    end > 0 && counted_char_at(editor, left, end - 1) == '\r' && is_lf(editor, right, start)
}

/// Joins the first `end` characters of one tree, which end in CR, and the characters of another
/// from `start` on, which begin with LF: the two become a leaf of their own.
fn join_at_crlf(
    editor: &mut Editor,
    left: &Node,
    end: usize,
    right: &Node,
    start: usize,
) -> Made<Node>
    requires tree { IsTree right.now }
    requires end { end ≤ length (text left.now) }
    requires same_breaks { right.now.breaks ≡ left.now.breaks }
    requires fits { byte_len (take end (text left.now)) + byte_len (drop start (text right.now))
        < 2 ^ 63 }
    requires meets { parts_crlf (take end (text left.now)) (drop start (text right.now)) ≡ true }
    ensures text { IfOk result (λ node. text node
        ≡ take end (text left.now) ++ drop start (text right.now)) }
    ensures breaks { IfOk result (λ node. node.breaks ≡ left.now.breaks) }
    ensures tree { IfOk result (λ node. IsTree node) }
    ensures made { editor.new.maker.made
        ≤ editor.old.maker.made + 16 * max left.now.height right.now.height + 11 }
    ensures searched { HasSearched (2 * max left.now.height right.now.height) (10 * max
        left.now.height right.now.height) editor.old editor.new }
{
    let first = front(editor, left, end - 1)?;
    let second = back(editor, right, start + 1)?;
    let pair = leaf_of(&mut editor.maker, left.line_breaks(), "\r\n")?;
    let ended = join(&mut editor.maker, &first, &pair)?;
    join(&mut editor.maker, &ended, &second)
}

/// Joins the first `end` characters of one tree and the characters of another from `start` on.
fn join_parts(
    editor: &mut Editor,
    left: &Node,
    end: usize,
    right: &Node,
    start: usize,
) -> Made<Node>
    requires tree { IsTree left.now }
    requires end { end ≤ length (text left.now) }
    requires start { start ≤ length (text right.now) }
    requires same_breaks { right.now.breaks ≡ left.now.breaks }
    requires fits { byte_len (take end (text left.now)) + byte_len (drop start (text right.now))
        < 2 ^ 63 }
    ensures text { IfOk result (λ node. text node
        ≡ take end (text left.now) ++ drop start (text right.now)) }
    ensures breaks { IfOk result (λ node. node.breaks ≡ left.now.breaks) }
    ensures tree { IfOk result (λ node. IsTree node) }
    ensures made { editor.new.maker.made
        ≤ editor.old.maker.made + 16 * max left.now.height right.now.height + 11 }
    ensures searched { HasSearched (4 * max left.now.height right.now.height
        + 2) (20 * max left.now.height right.now.height) editor.old editor.new }
{
    if !meets(editor, left, end, right, start) {
        return join_sides(editor, left, end, right, start);
    }
    join_at_crlf(editor, left, end, right, start)
}

/// Joins the texts of two trees.
fn append(editor: &mut Editor, left: &Node, right: &Node) -> Made<Node>
    requires same_breaks { right.now.breaks ≡ left.now.breaks }
    requires fits { byte_len (text left.now) + byte_len (text right.now) < 2 ^ 63 }
    ensures text { IfOk result (λ node. text node ≡ text left.now ++ text right.now) }
    ensures breaks { IfOk result (λ node. node.breaks ≡ left.now.breaks) }
    ensures tree { IfOk result (λ node. IsTree node) }
    ensures made { editor.new.maker.made
        ≤ editor.old.maker.made + 16 * max left.now.height right.now.height + 11 }
    ensures searched { HasSearched (4 * max left.now.height right.now.height
        + 2) (20 * max left.now.height right.now.height) editor.old editor.new }
{
    join_parts(editor, left, left.info().chars, right, 0)
}

/// Returns whether two trees are higher than a leaf, with adjacent leaves that are long enough
/// beside each other.
fn are_near(left: &Node, right: &Node) -> bool
    ensures { result ≡ true
        → IsDenseAfter (last_bytes MIN_TWO_LEAVES_BYTES left.now.leaves) right.now.leaves }
{
    if left.height() == 0 || right.height() == 0 {
        return false;
    }
    if end_leaf_len(left, true) + end_leaf_len(right, false) < MIN_TWO_LEAVES_BYTES {
        return false;
    }
    true
}

/// Appends a tree whose first leaf needs no other text: in place, if the nodes where they meet have
/// no other owner; else a tree of both replaces the old one as the last step. The other tree may
/// lose its text.
fn append_near(maker: &mut Maker, root: &mut Node, other: &mut Node) -> Made<()>
    requires same_breaks { other.old.breaks ≡ root.old.breaks }
    requires seam { IsSeam (text root.old) (text other.old) }
    requires near { IsDenseAfter (last_bytes MIN_TWO_LEAVES_BYTES root.old.leaves)
        other.old.leaves }
    requires fits { byte_len (text root.old) + byte_len (text other.old) < 2 ^ 63 }
    ensures text { OnOk result (text root.new ≡ text root.old ++ text other.old) }
    ensures breaks { root.new.breaks ≡ root.old.breaks }
    ensures tree { IsTree root.new }
    ensures other_tree { IsTree other.new }
    ensures err { OnErr result (root.new ≡ root.old) }
    ensures made { maker.new.made
        ≤ maker.old.made + 2 * max root.old.height other.old.height + 3 }
{
    let did = if root.height() == other.height() {
        root.append_in_place(maker, other)?
    } else {
        root.append_uneven(other)
    };
    if !did {
        *root = join(maker, root, other)?;
    }
    Ok(())
}

/// Appends the text of another tree. If that is a short leaf, its text is inserted into the last
/// leaf in place. If the nodes where the trees meet have no other owner, children move into one
/// tree. Else a tree of both replaces the old one as the last step. The other tree may lose its
/// text.
pub fn append_to(editor: &mut Editor, root: &mut Node, other: &mut Node) -> Made<()>
    requires same_breaks { other.old.breaks ≡ root.old.breaks }
    requires fits { byte_len (text root.old) + byte_len (text other.old) < 2 ^ 63 }
    ensures text { OnOk result (text root.new ≡ text root.old ++ text other.old) }
    ensures breaks { root.new.breaks ≡ root.old.breaks }
    ensures tree { IsTree root.new }
    ensures other_tree { IsTree other.new }
    ensures err { OnErr result (root.new ≡ root.old) }
    ensures made { editor.new.maker.made
        ≤ editor.old.maker.made + 16 * max root.old.height other.old.height + 11 }
    ensures searched { HasSearched (6 * max root.old.height other.old.height
        + 4) (33 * max root.old.height other.old.height) editor.old editor.new }
{
    let end = root.info().chars;
    if other.height() == 0
        && let View::Leaf(leaf) = other.view()
        && leaf.len() > 0
        && leaf.len() <= MAX_SHORT_BYTES
    {
        return insert_at(editor, root, end, leaf.as_str());
    }
    if are_near(root, other) && !meets(editor, root, end, other, 0) {
        return append_near(&mut editor.maker, root, other);
    }
    *root = append(editor, root, other)?;
    Ok(())
}

/// Returns a tree without the characters from `start` up to `end`, at least one.
fn removed_from(editor: &mut Editor, root: &Node, start: usize, end: usize) -> Made<Node>
    requires ordered { start < end }
    requires within { end ≤ length (text root.now) }
    ensures text { IfOk result (λ node. text node ≡ removed (text root.now) start end) }
    ensures breaks { IfOk result (λ node. node.breaks ≡ root.now.breaks) }
    ensures tree { IfOk result (λ node. IsTree node) }
    ensures own { IsTree root.now }
    ensures made { editor.new.maker.made ≤ editor.old.maker.made + 16 * root.now.height + 11 }
    ensures searched { HasSearched (6 * root.now.height
        + 4) (30 * root.now.height) editor.old editor.new }
    ensures searched_high { 2 ≤ root.now.height → HasSearched (4 * root.now.height
        + 4) (20 * root.now.height + 10) editor.old editor.new }
{
    if root.height() == 0 {
        return join_parts(editor, root, start, root, end);
    }
    if meets(editor, root, start, root, end) {
        return join_at_crlf(editor, root, start, root, end);
    }
    without(editor, root, start, end)
}

/// Removes the characters from `start` up to `end`, at least one: in place, if they are in one leaf
/// or in two adjacent ones that stay long enough, or if they are more and no node on the path has
/// another owner ([`Node::remove_in_lists`]); else by a tree without them, which replaces the old
/// one as the last step.
pub fn remove(editor: &mut Editor, root: &mut Node, start: usize, end: usize) -> Made<()>
    requires ordered { start < end }
    requires within { end ≤ length (text root.old) }
    ensures text { OnOk result (text root.new ≡ removed (text root.old) start end) }
    ensures breaks { root.new.breaks ≡ root.old.breaks }
    ensures tree { IsTree root.new }
    ensures err { OnErr result (root.new ≡ root.old) }
    ensures made { editor.new.maker.made ≤ editor.old.maker.made + 17 * root.old.height + 12 }
    ensures searched { HasSearched (7 * root.old.height
        + 4) (37 * root.old.height) editor.old editor.new }
{
    let did = if end - start < 2 * MAX_BYTES {
        remove_at(editor, root, start, end)?
    } else {
        root.remove_in_lists(editor, start, end)
    };
    if did {
        return Ok(());
    }
    *root = removed_from(editor, root, start, end)?;
    Ok(())
}

/// Returns the tree with a text of any length inserted before its character `at`: splits the tree,
/// and joins the two sides with a tree of the text between them. Makes nodes for the new text, and
/// for each level of the old tree.
fn insert_apart(editor: &mut Editor, node: &Node, at: usize, added: &str) -> Made<Node>
    requires within { at ≤ length (text node.now) }
    requires fits { byte_len (text node.now) + length added.now < 2 ^ 63 }
    ensures text { IfOk result (λ new. text new ≡ inserted (text node.now) at (chars added.now)) }
    ensures breaks { IfOk result (λ new. new.breaks ≡ node.now.breaks) }
    ensures tree { IfOk result (λ new. IsTree new) }
    ensures made { editor.new.maker.made
        ≤ editor.old.maker.made + 2 * (length added.now / MIN_CUT_BYTES) + 12 * node.now.height
        + 603 }
    ensures searched { HasSearched (2 * node.now.height + 148) (10 * node.now.height
        + 720) editor.old editor.new }
{
    let front = front(editor, node, at)?;
    let back = back(editor, node, at)?;
    let middle = build(&mut editor.maker, added, node.line_breaks())?;
    let first = append(editor, &front, &middle)?;
    append(editor, &first, &back)
}

/// Returns a leaf with a text of any length inserted before its character `at`, as a tree built
/// from the three texts.
fn insert_into_leaf(
    maker: &mut Maker,
    node: &Node,
    leaf: &ShortText<'_>,
    at: usize,
    added: &str,
) -> Made<Node>
    requires leaf { node.now ≡ leaf_tree node.now.breaks leaf.now }
    requires fits { byte_len (text node.now) + length added.now < 2 ^ 63 }
    ensures text { IfOk result (λ new. text new ≡ inserted (text node.now) at (chars added.now)) }
    ensures breaks { IfOk result (λ new. new.breaks ≡ node.now.breaks) }
    ensures tree { IfOk result (λ new. IsTree new) }
    ensures made { maker.new.made
        ≤ maker.old.made + 2 * (length added.now / MIN_CUT_BYTES) + 7 }
{
    let text = leaf.as_str();
    let place = leaf.char_to_byte_idx(at);
    let mut builder = Builder::new(maker.alloc, node.line_breaks());
    builder.append(&text[..place])?;
    builder.append(added)?;
    builder.append(&text[place..])?;
    builder.finish(maker)
}

/// Joins the characters of a tree before `start`, another tree, and the characters of the first one
/// from `end` on.
fn join_around(
    editor: &mut Editor,
    node: &Node,
    start: usize,
    part: &Node,
    end: usize,
) -> Made<Node>
    requires start { start ≤ length (text node.now) }
    requires end { end ≤ length (text node.now) }
    requires same_breaks { part.now.breaks ≡ node.now.breaks }
    requires some { 1 ≤ length (text part.now) }
    requires seam_before { IsSeam (take start (text node.now)) (text part.now) }
    requires seam_after { IsSeam (text part.now) (drop end (text node.now)) }
    requires fits { byte_len (take start (text node.now))
        + (byte_len (text part.now) + byte_len (drop end (text node.now))) < 2 ^ 63 }
    ensures text { IfOk result (λ new. text new
        ≡ take start (text node.now) ++ (text part.now ++ drop end (text node.now))) }
    ensures breaks { IfOk result (λ new. new.breaks ≡ node.now.breaks) }
    ensures tree { IfOk result (λ new. IsTree new) }
    ensures made { editor.new.maker.made ≤ editor.old.maker.made + 12 * node.now.height
        + 4 * max node.now.height part.now.height + 10 }
    ensures searched { HasSearched (2 * node.now.height) (10 * node.now.height) editor.old
        editor.new }
{
    let front = front(editor, node, start)?;
    let first = join(&mut editor.maker, &front, part)?;
    let back = back(editor, node, end)?;
    join(&mut editor.maker, &first, &back)
}

/// The maximum number of bytes of a text that is built into a leaf: with that leaf it fills at most
/// one list of leaves. A longer text is joined between the two sides of a split tree.
const MAX_AMONG_BYTES: usize = 20 * MAX_BYTES;

/// Returns the tree with a text of any length inserted before its character `at`.
///
/// A text of at most `MAX_AMONG_BYTES` bytes is built into the leaf that contains the character,
/// and the leaves that this gives replace it, in one descent. A longer text, or one at the start of
/// a child or at the end of the tree, is joined between the two sides of the split tree. Makes at
/// most two nodes for each 981 bytes of the text, 298 for each level and 603 more.
fn insert(editor: &mut Editor, node: &Node, at: usize, added: &str) -> Made<Node>
    requires within { at ≤ length (text node.now) }
    requires fits { byte_len (text node.now) + length added.now < 2 ^ 63 }
    ensures text { IfOk result (λ new. text new ≡ inserted (text node.now) at (chars added.now)) }
    ensures breaks { IfOk result (λ new. new.breaks ≡ node.now.breaks) }
    ensures tree { IfOk result (λ new. IsTree new) }
    ensures own { IsTree node.now }
    ensures made { editor.new.maker.made
        ≤ editor.old.maker.made + 2 * (length added.now / MIN_CUT_BYTES) + 298 * node.now.height
        + 603 }
    ensures searched { HasSearched (37 * node.now.height + 148) (185 * node.now.height
        + 720) editor.old editor.new }
{
    if at >= node.info().chars || added.len() > MAX_AMONG_BYTES {
        return insert_apart(editor, node, at, added);
    }
    match node.view() {
        View::Leaf(leaf) => insert_into_leaf(&mut editor.maker, node, &leaf, at, added),
        View::Inner(children, totals) => {
            let place = editor.child_at(totals, at);
            let child = &children[place];
            let inside = at - total_before(totals, place).chars;
            if inside == 0 {
                return insert_apart(editor, node, at, added);
            }
            let part = insert(editor, child, inside, added)?;
            if place > 0
                && place + 1 < children.len()
                && part.height() <= child.height() + 1
                && stands(children, place, place + 1, &part)
            {
                return put(&mut editor.maker, children, totals, place, place + 1, &part);
            }
            join_around(editor, node, at - inside, &part, totals.get(place).chars)
        }
    }
}

/// Inserts a text of at least one byte before the character `at`. A short text goes into the leaf
/// at the index. A medium text, in a tree of more than one leaf, goes into leaves that replace that
/// one. Any other text makes a new tree, which replaces the old one as the last step.
#[inline(always)]
pub fn insert_into(editor: &mut Editor, root: &mut Node, at: usize, added: &str) -> Made<()>
    requires within { at ≤ length (text root.old) }
    requires some { 1 ≤ length added.now }
    requires fits { byte_len (text root.old) + length added.now < 2 ^ 63 }
    ensures text { OnOk result (text root.new ≡ inserted (text root.old) at (chars added.now)) }
    ensures breaks { root.new.breaks ≡ root.old.breaks }
    ensures tree { IsTree root.new }
    ensures err { OnErr result (root.new ≡ root.old) }
    ensures made { editor.new.maker.made
        ≤ editor.old.maker.made + 2 * (length added.now / MIN_CUT_BYTES) + 298 * root.old.height
        + 603 }
    ensures made_short { length added.now ≤ MAX_SHORT_BYTES
        → editor.new.maker.made ≤ editor.old.maker.made + 3 * root.old.height + 5 }
    ensures searched { HasSearched (37 * root.old.height + 148) (185 * root.old.height
        + 720) editor.old editor.new }
    ensures searched_short { length added.now ≤ MAX_SHORT_BYTES
        → HasSearched (4 * root.old.height + 2) (33 * root.old.height) editor.old editor.new }
{
    if added.len() <= MAX_SHORT_BYTES {
        return insert_at(editor, root, at, added);
    }
    if added.len() <= MAX_MEDIUM_BYTES && root.height() > 0 {
        return insert_medium_at(editor, root, at, added);
    }
    *root = insert(editor, root, at, added)?;
    Ok(())
}
