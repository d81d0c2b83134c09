//! Edits of whole trees that replace one leaf, or change two: inserts of short and medium texts,
//! and removals from one leaf or from two adjacent ones.
//!
//! If an allocation fails, the tree is unchanged.
ghost use Rattle.std.specs.Prelude.{◌≡◌, ◌+◌, ◌-◌, ◌*◌, ◌<◌, ◌≤◌, ◌^◌, true, false, length, drop, slice_get, Some, IfOk, OnOk, OnErr};
ghost use Rattle.std.specs.Str.{chars};
ghost use Rattle.rope_text.specs.declared.TheConstants.{MAX_BYTES, MAX_SHORT_BYTES};
ghost use Rattle.rope_text.specs.Text.{byte_len};
ghost use Rattle.rope_text.specs.Breaks.{begins_with_lf};
ghost use Rattle.rope_text.specs.Edit.{inserted, removed};
ghost use Rattle.rope_leaf.specs.Tree.{text, leaf_tree, IsTree};
ghost use Rattle.rope_tree.specs.View.{trees_in};
ghost use Rattle.rope_leaf.specs.Searched.{HasSearched};
ghost use Rattle.rope_leaf.specs.declared.TheConstants.{MAX_MEDIUM_BYTES};
ghost use Rattle.rope_leaf.specs.Insert.{Takes, MayInsert, IsInserted, extra_leaves};
ghost use Rattle.rope_tree.specs.Tries.{IsTried};

use crate::node::anew::insert;
use crate::{Editor, Made, MediumText, Node, ShortText, char_at, root_of};
use rope_leaf::{Least, ends_in_cr};
use rope_text::{Steps, TextInfo};

/// Returns the character at an index, and counts the lookup.
pub fn counted_char_at(editor: &mut Editor, node: &Node, char_idx: usize) -> char
    requires tree { IsTree node.now }
    requires within { char_idx < length (text node.now) }
    ensures value { slice_get (text node.now) char_idx ≡ Some result }
    ensures made { editor.new.maker.made ≡ editor.old.maker.made }
    ensures searched { HasSearched (node.now.height + 1) (5 * node.now.height)
        editor.old editor.new }
{
    let mut steps = Steps::new();
    let found = char_at(node, char_idx, &mut steps);
    editor.add(steps);
    found
}

/// Returns whether the character at an index is LF. The end of the text has none.
pub fn is_lf(editor: &mut Editor, node: &Node, at: usize) -> bool
    requires { at ≤ length (text node.now) }
    ensures value { result ≡ begins_with_lf (drop at (text node.now)) }
    ensures tree { IsTree node.now }
    ensures made { editor.new.maker.made ≡ editor.old.maker.made }
    ensures searched { HasSearched (node.now.height + 1) (5 * node.now.height)
        editor.old editor.new }
{
    at < node.info().chars && counted_char_at(editor, node, at) == '\n'
}

/// Returns on which side of a seam between leaves a text goes: a text that ends in CR goes to the
/// right of it if an LF stands there, so that the two lie in one leaf.
#[inline(always)]
fn goes_right(editor: &mut Editor, root: &Node, at: usize, added: &str) -> bool
    requires { at ≤ length (text root.now) }
    ensures side { MayInsert root.now at (chars added.now) result }
    ensures tree { result ≡ true → IsTree root.now }
    ensures made { editor.new.maker.made ≡ editor.old.maker.made }
    ensures searched { HasSearched (root.now.height + 1) (5 * root.now.height)
        editor.old editor.new }
{
    ends_in_cr(added) && is_lf(editor, root, at)
}

/// Inserts a text by splitting full nodes in place, or else by a new tree, which replaces the old
/// one as the last step.
fn insert_or_rebuild(
    editor: &mut Editor,
    root: &mut Node,
    at: usize,
    added: &MediumText<'_>,
    to_right: bool,
) -> Made<()>
    requires takes { Takes root.old at added.now }
    requires low { root.old.height ≡ 0 → byte_len added.now ≤ MAX_SHORT_BYTES }
    requires side { MayInsert root.old at added.now to_right }
    ensures text { OnOk result (text root.new ≡ inserted (text root.old) at added.now) }
    ensures breaks { root.new.breaks ≡ root.old.breaks }
    ensures tree { IsTree root.new }
    ensures err { OnErr result (root.new ≡ root.old) }
    ensures made { editor.new.maker.made ≤ editor.old.maker.made + 2 * root.old.height + 3
        + extra_leaves (byte_len added.now) }
    ensures searched { HasSearched (2 * root.old.height) (14 * root.old.height)
        editor.old editor.new }
{
    if root.insert_splitting(editor, at, added, to_right)? {
        return Ok(());
    }
    let nodes = insert(editor, root, at, added, to_right)?;
    *root = root_of(&mut editor.maker, nodes)?;
    Ok(())
}

/// Inserts a text of 1 to 981 bytes before the character `at`, by the first of three methods that
/// applies:
///
/// 1. In place, if the leaf has room, or if the list above it has room for the second half of a
///    split. Allocates copies of shared nodes, and the second half.
/// 2. By a second descent (`Node::insert_splitting`), if that list is full, but one above it isn't:
///    the full child below is split into two new nodes.
/// 3. By a new tree, which shares the nodes off the path, and replaces the old tree as the last
///    step.
pub fn insert_at(editor: &mut Editor, root: &mut Node, at: usize, added: &str) -> Made<()>
    requires within { at ≤ length (text root.old) }
    requires some { 1 ≤ length added.now }
    requires short { length added.now ≤ MAX_SHORT_BYTES }
    requires fits { byte_len (text root.old) + length added.now < 2 ^ 63 }
    ensures text { OnOk result (text root.new ≡ inserted (text root.old) at (chars added.now)) }
    ensures breaks { root.new.breaks ≡ root.old.breaks }
    ensures tree { IsTree root.new }
    ensures err { OnErr result (root.new ≡ root.old) }
    ensures made { editor.new.maker.made ≤ editor.old.maker.made + 3 * root.old.height + 5 }
    ensures searched { HasSearched (4 * root.old.height
        + 2) (33 * root.old.height) editor.old editor.new }
{
    let added = ShortText::new(added);
    let to_right = goes_right(editor, root, at, added.as_str());
    if root.insert_in_place(editor, at, &added, to_right, true, &mut TextInfo::new())? {
        return Ok(());
    }
    // The first descent took ownership of the nodes on the path, so this one needn't copy any.
    insert_or_rebuild(editor, root, at, &added.as_medium(), to_right)
}

/// Inserts a medium text before the character `at` of a tree of more than one leaf: the leaf at the
/// index is replaced by up to six, by the second or the third method of [`insert_at`].
pub fn insert_medium_at(editor: &mut Editor, root: &mut Node, at: usize, added: &str) -> Made<()>
    requires within { at ≤ length (text root.old) }
    requires inner { 1 ≤ root.old.height }
    requires some { 1 ≤ length added.now }
    requires medium { length added.now ≤ MAX_MEDIUM_BYTES }
    requires fits { byte_len (text root.old) + length added.now < 2 ^ 63 }
    ensures text { OnOk result (text root.new ≡ inserted (text root.old) at (chars added.now)) }
    ensures breaks { root.new.breaks ≡ root.old.breaks }
    ensures tree { IsTree root.new }
    ensures err { OnErr result (root.new ≡ root.old) }
    ensures made { editor.new.maker.made ≤ editor.old.maker.made + 2 * root.old.height + 3
        + extra_leaves (length added.now) }
    ensures searched { HasSearched (3 * root.old.height + 1) (19 * root.old.height)
        editor.old editor.new }
{
    let added = MediumText::new(added);
    let to_right = goes_right(editor, root, at, added.as_str());
    insert_or_rebuild(editor, root, at, &added, to_right)
}

/// The first leaf and the last leaf of a tree may have any length, since they have no neighbour
/// there.
const ANY: Least = Least { first: 0, last: 0 };

/// Removes the characters from `start` up to `end`, if they are in one leaf or in two adjacent ones
/// below one node, and these stay long enough. Neither leaf may become empty, nor begin with LF or
/// end in CR if it didn't before, so no CR LF is split between two leaves. Returns whether it did.
/// Allocates only copies of shared nodes.
pub fn remove_at(editor: &mut Editor, root: &mut Node, start: usize, end: usize) -> Made<bool>
    requires ordered { start < end }
    requires within { end ≤ length (text root.old) }
    ensures tried { IsTried result root.old root.new
        (text root.new ≡ removed (text root.old) start end) }
    ensures breaks { root.new.breaks ≡ root.old.breaks }
    ensures tree { IsTree root.new }
    ensures made { editor.new.maker.made ≤ editor.old.maker.made + root.old.height + 2 }
    ensures idle { IfOk result (λ did.
        did ≡ false → editor.new.maker.made ≤ editor.old.maker.made + root.old.height + 1) }
    ensures searched { HasSearched root.old.height (7 * root.old.height) editor.old editor.new }
{
    root.remove_in_place(editor, start, end, ANY, true, &mut TextInfo::new())
}
