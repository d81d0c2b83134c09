//! Inserts of short and medium texts that leave the old tree unchanged, and share its nodes.
ghost use Rattle.std.specs.Prelude.{◌≡◌, ◌+◌, ◌*◌, ◌<◌, ◌≤◌, ◌^◌, length, IfOk};
ghost use Rattle.rope_text.specs.declared.TheConstants.{MAX_SHORT_BYTES};
ghost use Rattle.rope_text.specs.Text.{byte_len};
ghost use Rattle.rope_text.specs.Edit.{inserted};
ghost use Rattle.rope_leaf.specs.Tree.{text, leaf_tree};
ghost use Rattle.rope_tree.specs.View.{trees_in};
ghost use Rattle.rope_leaf.specs.Searched.{HasSearched};
ghost use Rattle.rope_leaf.specs.Insert.{Takes, MayInsert, IsInserted, extra_leaves};

use super::pieces::{Pieces, fill_with};
use super::row::{Row, pack, pack_over};
use super::{Node, Nodes, View, make_leaf};
use crate::{Editor, Made, Maker, MediumText, ShortText, total_before};
use rope_leaf::{char_to_hold, halves_of, leaf_with};
use rope_text::{MAX_BYTES, MAX_SHORT_BYTES, TextInfo};

/// Returns the leaf with a text inserted before the character `at`, as one leaf, or as two if one
/// can't hold it. Counts only the new text, and the first of two leaves.
fn insert_into_leaf(
    maker: &mut Maker,
    node: &Node,
    leaf: &ShortText<'_>,
    at: usize,
    added: &ShortText<'_>,
) -> Made<Nodes>
    requires leaf { node.now ≡ leaf_tree node.now.breaks leaf.now }
    requires some { 1 ≤ length added.now }
    requires short { byte_len added.now ≤ MAX_SHORT_BYTES }
    ensures ok { IfOk result (λ nodes.
        IsInserted node.now (trees_in nodes) (inserted leaf.now at added.now)) }
    ensures made { maker.new.made ≤ maker.old.made + 2 }
    ensures some_made { maker.old.made + 1 < 2 ^ 64 → maker.old.made < maker.new.made }
    ensures rises { maker.old.made ≤ maker.new.made }
{
    let breaks = node.line_breaks();
    let (grown, info) = leaf_with(node.info(), leaf, at, added, breaks);
    let text = grown.as_str();
    if text.len() <= MAX_BYTES {
        let node = make_leaf(maker, breaks, text, info)?;
        return Ok(Nodes::One(node));
    }
    let (front, back) = halves_of(text);
    let front_info = TextInfo::from_str(front, breaks);
    let back_info = info.minus(front_info);
    let first = make_leaf(maker, breaks, front, front_info)?;
    let second = make_leaf(maker, breaks, back, back_info)?;
    Ok(Nodes::Two(first, second))
}

/// Returns the tree with a text inserted before the character `at`, as one tree or as two of the
/// same height. The old tree is unchanged, and the new one shares its nodes off the path. A medium
/// text needs a tree of more than one leaf: the leaf at the index is replaced by up to six.
pub(crate) fn insert(
    editor: &mut Editor,
    node: &Node,
    at: usize,
    added: &MediumText<'_>,
    to_right: bool,
) -> Made<Nodes>
    requires takes { Takes node.now at added.now }
    requires low { node.now.height ≡ 0 → byte_len added.now ≤ MAX_SHORT_BYTES }
    requires side { MayInsert node.now at added.now to_right }
    ensures ok { IfOk result (λ nodes.
        IsInserted node.now (trees_in nodes) (inserted (text node.now) at added.now)) }
    ensures made { editor.new.maker.made
        ≤ editor.old.maker.made + 2 * node.now.height + 2 + extra_leaves (byte_len added.now) }
    ensures some_made { editor.old.maker.made + 1 < 2 ^ 64
        → editor.old.maker.made < editor.new.maker.made }
    ensures searched { HasSearched node.now.height (5 * node.now.height) editor.old editor.new }
    ensures rises { editor.old.maker.made ≤ editor.new.maker.made }
{
    match node.view() {
        View::Leaf(leaf) => {
            insert_into_leaf(&mut editor.maker, node, &leaf, at, &added.as_short())
        }
        View::Inner(children, totals) => {
            let held = char_to_hold(at, to_right);
            let place = editor.child_at(totals, held);
            let front = total_before(totals, place).chars;
            let row = Row::of(children, totals);
            let (before, after) = (row.first(place), row.rest(place + 1));
            let child = &children[place];
            let inside = at - front;
            if added.len() > MAX_SHORT_BYTES && child.height() == 0 {
                let mut pieces = Pieces::new();
                fill_with(&mut editor.maker, child, inside, added, &mut pieces)?;
                return pack_over(
                    &mut editor.maker,
                    before,
                    Row::new(pieces.as_slice()),
                    after,
                );
            }
            let middle = insert(editor, child, inside, added, to_right)?;
            pack(&mut editor.maker, before, middle, after)
        }
    }
}
