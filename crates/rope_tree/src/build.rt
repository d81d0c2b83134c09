//! Trees of whole texts, built from the bottom up.
ghost use Rattle.std.specs.Prelude.{◌≡◌, ◌+◌, ◌-◌, ◌*◌, ◌/◌, ◌<◌, ◌≤◌, length, IfOk};
ghost use Rattle.std.specs.Str.{chars};
ghost use Rattle.rope_text.specs.declared.TheConstants.{MAX_CHILDREN, MIN_CHILDREN, MIN_CUT_BYTES};
ghost use Rattle.rope_leaf.specs.Tree.{text, leaves_of, height_of, breaks_of, IsTree};
ghost use Rattle.rope_leaf.specs.Siblings.{AreSiblings};

use crate::{Made, Maker, Node, leaf_of, node_over};
use rope_leaf::first_leaf_len;
use rope_text::{FRESH_CHILDREN, FRESH_LEAVES, LineBreaks, MAX_BYTES, MAX_CHILDREN};

/// Returns the number of nodes on the level above these, by the numbers of children of a fresh
/// tree.
fn count_over(nodes: &[Node]) -> usize
    requires { MAX_CHILDREN < length nodes.now }
    ensures least { MIN_CHILDREN * result ≤ length nodes.now }
    ensures most { length nodes.now ≤ MAX_CHILDREN * result }
{
    if nodes[0].height() == 0 {
        return nodes.len().div_ceil(FRESH_LEAVES);
    }
    nodes.len().div_ceil(FRESH_CHILDREN)
}

/// Makes the level above these nodes: `count` nodes, each with an even share of them.
fn level_over(maker: &mut Maker, nodes: &[Node], count: usize) -> Made<Vec<Node>>
    requires siblings { AreSiblings (breaks_of nodes.now) (height_of nodes.now) nodes.now }
    requires least { MIN_CHILDREN * count ≤ length nodes.now }
    requires most { length nodes.now ≤ MAX_CHILDREN * count }
    ensures siblings { IfOk result (λ level.
        AreSiblings (breaks_of nodes.now) (height_of nodes.now + 1) level.items) }
    ensures leaves { IfOk result (λ level. leaves_of level.items ≡ leaves_of nodes.now) }
    ensures count { IfOk result (λ level. length level.items ≡ count) }
    ensures made { maker.new.made ≤ maker.old.made + count }
{
    let mut level = Vec::with_capacity(maker.alloc, count)?;
    let mut rest = nodes;
    let mut groups = count;
    while groups > 0 {
        let len = rest.len() / groups;
        level.push(node_over(maker, &rest[..len])?)?;
        rest = &rest[len..];
        groups -= 1;
    }
    Ok(level)
}

/// Builds the tree over these nodes, level by level up to its root.
pub(crate) fn root_over(maker: &mut Maker, nodes: Vec<Node>) -> Made<Node>
    requires siblings { AreSiblings (breaks_of nodes.items) (height_of nodes.items) nodes.items }
    requires some { 1 ≤ length nodes.items }
    ensures leaves { IfOk result (λ node. node.leaves ≡ leaves_of nodes.items) }
    ensures breaks { IfOk result (λ node. node.breaks ≡ breaks_of nodes.items) }
    ensures tree { IfOk result (λ node. IsTree node) }
    ensures made { maker.new.made ≤ maker.old.made + length nodes.items }
{
    let mut level = nodes;
    while level.len() > MAX_CHILDREN {
        let count = count_over(&level);
        level = level_over(maker, &level, count)?;
    }
    if level.len() == 1 {
        return level[0].share();
    }
    node_over(maker, &level)
}

/// Builds a tree of this text from the bottom up: leaves in order, each but the last of at least
/// 981 bytes, and over them levels of nodes with 12 to 22 children. Makes at most two nodes for
/// each leaf, and one for a text that fits in a leaf. Counts each byte once.
pub fn build(maker: &mut Maker, whole: &str, breaks: LineBreaks) -> Made<Node>
    ensures text { IfOk result (λ node. text node ≡ chars whole.now) }
    ensures breaks { IfOk result (λ node. node.breaks ≡ breaks) }
    ensures tree { IfOk result (λ node. IsTree node) }
    ensures few { IfOk result (λ node. length node.leaves
        ≤ (length whole.now + (MIN_CUT_BYTES - 1)) / MIN_CUT_BYTES) }
    ensures made { maker.new.made
        ≤ maker.old.made + 2 * ((length whole.now + (MIN_CUT_BYTES - 1)) / MIN_CUT_BYTES) + 1 }
{
    if whole.len() <= MAX_BYTES {
        return leaf_of(maker, breaks, whole);
    }
    let mut leaves = Vec::new(maker.alloc);
    let mut rest = whole;
    while rest.len() > MAX_BYTES {
        let len = first_leaf_len(rest);
        leaves.push(leaf_of(maker, breaks, &rest[..len])?)?;
        rest = &rest[len..];
    }
    leaves.push(leaf_of(maker, breaks, rest)?)?;
    root_over(maker, leaves)
}
