//! The descent to the leaf that contains an index. It enters one node on each level, compares at
//! most five totals in each inner node, and allocates nothing.
ghost use Rattle.std.specs.Prelude.{◌≡◌, ◌+◌, ◌-◌, ◌*◌, ◌<◌, ◌≤◌, ◌^◌, length, slice_get, Some};
ghost use Rattle.std.specs.Str.{encode_utf8_all};
ghost use Rattle.rope_text.specs.declared.text_info.TextInfo.{TextInfo};
ghost use Rattle.rope_text.specs.Text.{byte_len};
ghost use Rattle.rope_text.specs.TextInfo.{info_of};
ghost use Rattle.rope_leaf.specs.Search.{count_of};
ghost use Rattle.rope_leaf.specs.Tree.{text};
ghost use Rattle.rope_leaf.specs.Found.{IsFound};
ghost use Rattle.rope_tree.specs.StepBounds.{HaveRoom, LooksUp};

use crate::{Node, ShortText, Unit, View, count, place_of, total_before};
use rope_text::str_utils::first_char;
use rope_text::{Steps, TextInfo};

/// A leaf that was looked up, its counts, and those of the text before it.
#[derive(Drop)]
pub struct Found<'a> {
    pub leaf: ShortText<'a>,
    pub inside: TextInfo,
    pub before: TextInfo,
}

/// Returns the leaf that contains the index `at`, counted in `unit`.
#[inline(always)]
pub fn leaf_at<'a>(node: &'a Node, unit: Unit, at: usize, steps: &mut Steps) -> Found<'a>
    requires within { at < count_of unit (info_of node.now.breaks (text node.now)) }
    requires room { steps.old.nodes + node.now.height + 1 < 2 ^ 64 }
    requires room_to_compare { steps.old.compares + 5 * node.now.height < 2 ^ 64 }
    ensures found { IsFound unit at node.now result.leaf result.before }
    ensures inside { result.inside ≡ info_of node.now.breaks result.leaf }
    ensures nodes { steps.new.nodes ≡ steps.old.nodes + node.now.height + 1 }
    ensures compares { steps.new.compares ≤ steps.old.compares + 5 * node.now.height }
    ensures counted { steps.old.compares + node.now.height ≤ steps.new.compares }
    ensures made { steps.new.made ≡ steps.old.made }
{
    let mut here = node;
    // A leaf's counts come from the totals of its list, so that no lookup misses on the leaf's
    // head.
    let mut inside = node.info();
    let mut rest = at;
    let mut before = TextInfo::new();
    'down: loop {
        steps.nodes += 1;
        match here.known_view(inside) {
            View::Leaf(leaf) => {
                return Found {
                    leaf,
                    inside,
                    before,
                };
            }
            View::Inner(children, totals) => {
                let place = place_of(totals, unit, rest, steps);
                let child = &children[place];
                let front = total_before(totals, place);
                rest -= count(front, unit);
                before = before.plus(front);
                inside = totals.get(place).minus(front);
                here = child;
            }
        }
    }
}

/// Returns the number of chunks: the leaves that aren't empty. Reads only inner nodes.
pub fn leaf_count(node: &Node) -> usize
    ensures { result ≡ length node.now.leaves }
{
    let height = node.height();
    match node.view() {
        View::Leaf(leaf) => leaf.len().min(1),
        View::Inner(children, _) if height == 1 => children.len(),
        View::Inner(children, _) => {
            let mut count = 0;
            for child in children {
                count += leaf_count(child);
            }
            count
        }
    }
}

/// Returns the byte at an index.
// Inlined, so that a caller that doesn't use the steps doesn't count them.
#[inline(always)]
pub fn byte_at(node: &Node, byte_idx: usize, steps: &mut Steps) -> u8
    requires within { byte_idx < byte_len (text node.now) }
    requires room { HaveRoom node.now.height steps.old }
    ensures value { slice_get (encode_utf8_all (text node.now)) byte_idx ≡ Some result }
    ensures nodes { steps.new.nodes ≡ steps.old.nodes + node.now.height + 1 }
    ensures steps { LooksUp node.now.height steps.old steps.new }
    ensures counted { steps.old.compares + node.now.height ≤ steps.new.compares }
{
    let found = leaf_at(node, Unit::Byte, byte_idx, steps);
    let bytes = found.leaf.as_str().as_bytes();
    bytes[byte_idx - found.before.bytes]
}

/// Returns the character at an index.
// Inlined, so that a caller that doesn't use the steps doesn't count them.
#[inline(always)]
pub fn char_at(node: &Node, char_idx: usize, steps: &mut Steps) -> char
    requires within { char_idx < length (text node.now) }
    requires room { HaveRoom node.now.height steps.old }
    ensures value { slice_get (text node.now) char_idx ≡ Some result }
    ensures nodes { steps.new.nodes ≡ steps.old.nodes + node.now.height + 1 }
    ensures steps { LooksUp node.now.height steps.old steps.new }
    ensures counted { steps.old.compares + node.now.height ≤ steps.new.compares }
{
    let found = leaf_at(node, Unit::Char, char_idx, steps);
    let leaf = found.leaf.as_str();
    let at = found.leaf.char_to_byte_idx(char_idx - found.before.chars);
    first_char(&leaf[at..])
}
