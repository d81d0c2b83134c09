//! The leaves that replace one leaf when a medium text is inserted into it.
ghost use Rattle.std.specs.Prelude.{◌≡◌, ◌+◌, ◌-◌, ◌/◌, ◌<◌, ◌≤◌, ◌^◌, [], ◌∷◌, length, IfOk, OnOk};
ghost use Rattle.std.specs.Str.{chars};
ghost use Rattle.rope_text.specs.declared.TheConstants.{MAX_BYTES, MAX_SHORT_BYTES, MIN_CUT_BYTES, MIN_HALF_BYTES};
ghost use Rattle.rope_text.specs.Text.{byte_len};
ghost use Rattle.rope_text.specs.Edit.{inserted};
ghost use Rattle.rope_leaf.specs.declared.TheConstants.{MAX_MEDIUM_BYTES};
ghost use Rattle.rope_leaf.specs.Tree.{text};
ghost use Rattle.rope_leaf.specs.Insert.{IsReplaced, extra_leaves};
ghost use Rattle.rope_tree.specs.Pieces.{ArePieces, IsFirstSplit};

use super::{Node, View, leaf_of};
use crate::{MAX_MEDIUM_BYTES, MAX_PIECES, Made, Maker, MediumText};
use arrayvec::ArrayVec;
use rope_leaf::{first_leaf_len, halves_of, text_of_parts};
use rope_text::{LineBreaks, MAX_BYTES, MAX_JOINED_BYTES};

/// Adjacent leaves.
pub(super) type Pieces = ArrayVec<Node, MAX_PIECES>;

/// The maximum number of bytes of a leaf and a medium text together.
const MAX_WHOLE_BYTES: usize = MAX_BYTES + MAX_MEDIUM_BYTES;

/// Splits the first leaf off a text that is too long for one leaf. The rest has at least
/// `MIN_HALF_BYTES` bytes: a text that fits in two leaves is split near its middle.
fn split_first(text: &str) -> (&str, &str)
    requires { MAX_BYTES < length text.now }
    ensures { IsFirstSplit text.now result.0.now result.1.now }
{
    if text.len() <= MAX_JOINED_BYTES {
        return halves_of(text);
    }
    let len = first_leaf_len(text);
    (&text[..len], &text[len..])
}

/// Makes the last leaf of a text.
fn last_piece(maker: &mut Maker, breaks: LineBreaks, text: &str) -> Made<Node>
    requires least { MIN_HALF_BYTES ≤ length text.now }
    requires fits { length text.now ≤ MAX_BYTES }
    ensures ok { IfOk result (λ node. ArePieces breaks (chars text.now) (node ∷ [])) }
    ensures made { maker.new.made ≤ maker.old.made + 1 }
    ensures some_made { maker.old.made + 1 < 2 ^ 64 → maker.old.made < maker.new.made }
    ensures rises { maker.old.made ≤ maker.new.made }
{
    leaf_of(maker, breaks, text)
}

/// Fills an empty list with the leaves of a text of at least `MIN_HALF_BYTES` bytes.
fn fill(maker: &mut Maker, breaks: LineBreaks, text: &str, pieces: &mut Pieces) -> Made<()>
    requires none { pieces.old.items ≡ [] }
    requires least { MIN_HALF_BYTES ≤ length text.now }
    requires most { length text.now ≤ MAX_BYTES + MAX_MEDIUM_BYTES }
    ensures ok { OnOk result (ArePieces breaks (chars text.now) pieces.new.items) }
    ensures few { OnOk result
        (length pieces.new.items ≤ (length text.now - 4) / MIN_CUT_BYTES + 1) }
    ensures made { maker.new.made ≤ maker.old.made + (length text.now - 4) / MIN_CUT_BYTES + 1 }
    ensures some_made { maker.old.made + 1 < 2 ^ 64 → maker.old.made < maker.new.made }
    ensures rises { maker.old.made ≤ maker.new.made }
{
    if text.len() <= MAX_BYTES {
        pieces.push(last_piece(maker, breaks, text)?);
        return Ok(());
    }
    let (front, back) = split_first(text);
    fill(maker, breaks, back, pieces)?;
    let first = leaf_of(maker, breaks, front)?;
    pieces.insert(0, first);
    Ok(())
}

/// Fills an empty list with the leaves of a leaf's text with another inserted before the character
/// `at`. Never inlined: a caller would clear stack for the text at each call.
#[inline(never)]
pub(super) fn fill_with(
    maker: &mut Maker,
    node: &Node,
    at: usize,
    added: &MediumText<'_>,
    pieces: &mut Pieces,
) -> Made<()>
    requires none { pieces.old.items ≡ [] }
    requires leaf { node.now.height ≡ 0 }
    requires long { MAX_SHORT_BYTES < byte_len added.now }
    ensures ok { OnOk result
        (IsReplaced node.now pieces.new.items (inserted (text node.now) at added.now)) }
    ensures made { maker.new.made ≤ maker.old.made + 2 + extra_leaves (byte_len added.now) }
    ensures some_made { maker.old.made + 1 < 2 ^ 64 → maker.old.made < maker.new.made }
    ensures rises { maker.old.made ≤ maker.new.made }
{
    let View::Leaf(leaf) = node.view() else {
        unreachable!()
    };
    let (front, back) = leaf.split_at_char(at);
    let whole = text_of_parts::<MAX_WHOLE_BYTES>(front, added.as_str(), back);
    fill(maker, node.line_breaks(), whole.as_str(), pieces)
}
