//! Conversions between the indices of a tree's text. [`convert`] descends to the leaf that contains
//! the position, and allocates nothing.
ghost use Rattle.std.specs.Prelude.{◌≡◌, ◌≤◌, ◌<◌, true};
ghost use Rattle.std.specs.Str.{chars};
ghost use Rattle.rope_text.specs.TextInfo.{info_of};
ghost use Rattle.rope_tree.specs.Conversions.{end_index, first_sought, are_converted, converted};
ghost use Rattle.rope_leaf.specs.Tree.{text};
ghost use Rattle.rope_tree.specs.StepBounds.{HaveRoom, LooksUp, WentDown};

use crate::{Node, Unit, count, leaf_at};
use rope_leaf::Unit::{Byte, Char, CodeUnit, LineBreak};
use rope_text::{LineBreaks, Steps, TextInfo, str_utils};

/// Returns the first index for which a conversion descends: 1 for lines, since the first line
/// starts at 0.
pub fn first_sought(unit: Unit) -> usize
    ensures { result ≡ first_sought unit }
{
    usize::from(matches!(unit, LineBreak))
}

/// Converts an index from the unit `from` to the unit `to`, in a text whose counts are known. Scans
/// the text from its nearer end, or not at all if both units count the same: bytes and characters
/// in ASCII, characters and code units in a text without surrogate pairs.
#[inline(always)]
pub fn convert_in(
    text: &str,
    info: TextInfo,
    breaks: LineBreaks,
    from: Unit,
    to: Unit,
    idx: usize,
) -> usize
    requires units { are_converted from to ≡ true }
    requires info { info ≡ info_of breaks (chars text.now) }
    ensures { result ≡ converted from to breaks (chars text.now) idx }
{
    let is_ascii = info.chars == info.bytes;
    match (from, to) {
        (LineBreak, Byte) => str_utils::line_to_byte_of(text, info.break_count, idx, breaks),
        (LineBreak, Char) => str_utils::line_to_char_of(text, info, idx, breaks),
        (Byte, LineBreak) => str_utils::byte_to_line_of(text, info.break_count, idx, breaks),
        (Char, LineBreak) => str_utils::char_to_line_of(text, info, idx, breaks),
        _ if is_ascii => idx.min(info.bytes),
        (Byte, Char) => str_utils::byte_to_char_idx_of(text, info.chars, idx),
        (Char, Byte) => str_utils::char_to_byte_idx_of(text, info.chars, idx),
        (Char, CodeUnit) => str_utils::char_to_utf16_idx_of(text, info, idx),
        (CodeUnit, Char) => str_utils::utf16_to_char_idx_of(text, info, idx),
        _ => unreachable!(),
    }
}

/// Converts an index of the tree's text from the unit `from` to the unit `to`: to the character
/// that contains the byte or the code unit, to the line of the position, or to the start of the
/// line. The index may be the end of the text, which for lines is one past the last. Inlined, so
/// that the units are constants.
#[inline(always)]
pub fn convert(node: &Node, from: Unit, to: Unit, idx: usize, steps: &mut Steps) -> usize
    requires units { are_converted from to ≡ true }
    requires within { idx ≤ end_index from node.now.breaks (text node.now) }
    requires room { HaveRoom node.now.height steps.old }
    ensures value { result ≡ converted from to node.now.breaks (text node.now) idx }
    ensures steps { LooksUp node.now.height steps.old steps.new }
    ensures inside { first_sought from ≤ idx → idx < end_index from node.now.breaks (text node.now)
        → WentDown node.now.height steps.old steps.new }
    ensures at_start { idx < first_sought from → steps.new ≡ steps.old }
    ensures at_end { idx ≡ end_index from node.now.breaks (text node.now) → steps.new ≡ steps.old }
{
    let first = first_sought(from);
    if idx < first {
        return 0;
    }
    let at = idx - first;
    let info = node.info();
    if at == count(info, from) {
        return count(info, to);
    }
    let found = leaf_at(node, from, at, steps);
    let leaf = found.leaf.as_str();
    let rest = idx - count(found.before, from);
    let inside = convert_in(leaf, found.inside, node.line_breaks(), from, to, rest);
    count(found.before, to) + inside
}
