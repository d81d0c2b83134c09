//! Nodes: an empty text, or a pointer to a leaf or to a list of children. The fields are private to
//! this module and its submodules.
ghost use Rattle.std.specs.Prelude.{◌≡◌, ◌+◌, ◌^◌, ◌<◌, ◌≤◌, [], List, length, IfOk, IfSome, IfNone};
ghost use Rattle.std.specs.Str.{chars};
ghost use Rattle.rope_text.specs.declared.TheConstants.{MAX_BYTES, MAX_CHILDREN, MAX_HEIGHT};
ghost use Rattle.rope_text.specs.TextInfo.{info_of};
ghost use Rattle.rope_leaf.specs.Tree.{Tree, text, joined, breaks_of, leaf_tree, IsTree};
ghost use Rattle.rope_leaf.specs.Totals.{HasTotals};
ghost use Rattle.rope_leaf.specs.Flat.{IsFlat};
ghost use Rattle.rope_leaf.specs.LeafTree.{IsLeafNode};
ghost use Rattle.rope_tree.specs.View.{IsViewOf};

use crate::{Made, Maker, ShortText, Totals};
use rope_leaf::Leaf;
use rope_text::{LineBreaks, MAX_CHILDREN, TextInfo};
use std::marker::Model;
use std::rc::Rc;

mod across;
pub(crate) mod anew;
mod append;
mod in_place;
mod moves;
mod padding;
mod pieces;
mod removal;
pub mod row;
mod split;

/// A node of a rope's tree, with the whole tree below it.
#[cycle(tree)]
#[derive(Drop)]
pub struct Node {
    form: Form,
}

/// The form of a node. The tag is kept beside the pointer, so reading it touches no other memory.
/// An empty text allocates nothing.
#[cycle(tree)]
#[derive(Drop)]
enum Form {
    Empty(LineBreaks),
    Leaf(Rc<Leaf>),
    Inner(Rc<Children>),
}

/// The children of an inner node, with their running totals. The entries after the children are
/// empty nodes.
#[cycle(tree)]
#[derive(Drop)]
struct Children {
    height: u8,
    breaks: LineBreaks,
    /// The child of the last edit, tried first by the next one.
    last: u8,
    totals: Totals,
    nodes: [Node; MAX_CHILDREN],
}

impl Model for Children {
    ghost use Rattle.std.specs.Prelude.{List};
    ghost use Rattle.rope_leaf.specs.Tree.{Tree};

    ghost Value = { List Tree };

    ghost use Rattle.rope_tree.specs.Listed.{listed, IsListed, tallest};

    ghost view = { listed };

    ghost invariant = { IsListed };

    ghost size = { tallest };

    ghost use Rattle.rope_tree.specs.Falls.{deep_le_tallest};

    ghost size_decreases = { deep_le_tallest };
}

impl Model for Node {
    ghost use Rattle.std.specs.Prelude.{◌+◌};
    ghost use Rattle.rope_leaf.specs.Tree.{Tree};

    ghost Value = { Tree };

    ghost use Rattle.rope_tree.specs.Shape.{tree_of, IsNode};

    ghost view = { tree_of };

    ghost invariant = { IsNode };

    ghost size = { λ t. t.height + t.height };

    ghost use Rattle.rope_tree.specs.Falls.{deep_le_height};

    ghost size_decreases = { λ a h. deep_le_height a.form h.form };
}

impl Children {
    /// Returns the nodes and their running totals.
    fn parts(&self) -> (&[Node], &Totals)
        ensures nodes { result.0.now ≡ self.now }
        ensures totals { HasTotals (breaks_of self.now) result.1.now self.now }
    {
        (&self.nodes[..self.totals.len()], &self.totals)
    }

    /// Returns the counts of all children.
    #[inline(always)]
    fn total(&self) -> TextInfo
        requires { 1 ≤ length self.now }
        ensures { result ≡ info_of (breaks_of self.now) (joined self.now) }
    {
        self.totals.get(self.totals.len() - 1)
    }
}

impl Default for Node {
    ghost is_default = { IsFlat };

    /// Returns an empty node. All its bytes are 0, so that an array of them is one memset.
    fn default() -> Self {
        let form = Form::Empty(LineBreaks::Lf);
        Node { form }
    }
}

impl Node {
    /// Returns the number of levels below: 0 for a leaf, and at most 18. The other clauses state
    /// the invariants of every node.
    pub fn height(&self) -> usize
        ensures value { result ≡ self.now.height }
        ensures low { self.now.height ≤ MAX_HEIGHT }
        ensures tree { IsTree self.now }
    {
        match &self.form {
            Form::Empty(_) | Form::Leaf(_) => 0,
            Form::Inner(children) => usize::from(children.height),
        }
    }

    /// Returns the set of line breaks.
    pub fn line_breaks(&self) -> LineBreaks
        ensures { result ≡ self.now.breaks }
    {
        match &self.form {
            Form::Empty(breaks) => *breaks,
            Form::Leaf(leaf) => leaf.line_breaks(),
            Form::Inner(children) => children.breaks,
        }
    }

    /// Returns the counts of the text. The other clauses state the invariants of every node.
    pub fn info(&self) -> TextInfo
        ensures value { result ≡ info_of self.now.breaks (text self.now) }
        ensures low { self.now.height ≤ MAX_HEIGHT }
        ensures tree { IsTree self.now }
    {
        match &self.form {
            Form::Empty(_) => TextInfo::new(),
            Form::Leaf(leaf) => leaf.info(),
            Form::Inner(children) => children.total(),
        }
    }

    /// Returns the text of a leaf, or the children of an inner node.
    pub fn view(&self) -> View<'_>
        ensures { IsViewOf self.now result }
    {
        self.known_view(self.info())
    }

    /// Returns the text of a leaf, or the children of an inner node. The caller passes the counts
    /// of the text, so that no byte of a leaf is read.
    pub fn known_view(&self, info: TextInfo) -> View<'_>
        requires { info ≡ info_of self.now.breaks (text self.now) }
        ensures { IsViewOf self.now result }
    {
        match &self.form {
            Form::Empty(_) => View::Leaf(ShortText::new("")),
            Form::Leaf(leaf) => View::Leaf(leaf.known_text(info)),
            Form::Inner(children) => {
                let (nodes, totals) = children.parts();
                View::Inner(nodes, totals)
            }
        }
    }

    /// Returns an empty text. It takes no memory.
    fn empty(breaks: LineBreaks) -> Node
        ensures value { result ≡ leaf_tree breaks [] }
        ensures tree { IsTree result }
    {
        let form = Form::Empty(breaks);
        Node { form }
    }

    /// Wraps a leaf as a node.
    pub(crate) fn of_leaf(leaf: Rc<Leaf>) -> Node
        requires { IsLeafNode leaf.value }
        ensures { result ≡ leaf.value }
    {
        let form = Form::Leaf(leaf);
        Node { form }
    }

    /// Returns another reference to this node.
    pub fn share(&self) -> Made<Node>
        ensures same { IfOk result (λ node. node ≡ self.now) }
        ensures tree { IfOk result (λ node. IsTree node) }
    {
        let form = match &self.form {
            Form::Empty(breaks) => Form::Empty(*breaks),
            Form::Leaf(leaf) => Form::Leaf(leaf.clone()?),
            Form::Inner(children) => Form::Inner(children.clone()?),
        };
        Ok(Node { form })
    }

    /// Returns the leaf, if the node is one.
    #[inline(always)]
    fn leaf(&self) -> Option<&Leaf>
        ensures leaf { IfSome result (λ leaf. leaf.now ≡ self.now) }
        ensures flat { IfSome result (λ _. self.now.height ≡ 0) }
        ensures none { IfNone result (self.now.height ≡ 0 → text self.now ≡ []) }
    {
        match &self.form {
            Form::Leaf(leaf) => Some(leaf),
            _ => None,
        }
    }

    /// Returns whether the node has neither text nor children.
    fn is_empty(&self) -> bool {
        matches!(self.form, Form::Empty(_))
    }
}

/// A view of a node: the text of a leaf, or the children of an inner node with their running
/// totals.
#[derive(Drop)]
pub enum View<'a> {
    Leaf(ShortText<'a>),
    Inner(&'a [Node], &'a Totals),
}

/// One node, or two adjacent ones.
#[derive(Drop)]
pub enum Nodes {
    One(Node),
    Two(Node, Node),
}

/// Makes a leaf of this text, whose counts may be known. An empty text allocates nothing.
#[inline(always)]
fn leaf_node(
    maker: &mut Maker,
    breaks: LineBreaks,
    text: &str,
    known: Option<TextInfo>,
) -> Made<Node>
    requires fits { length text.now ≤ MAX_BYTES }
    requires info { IfSome known (λ info. info ≡ info_of breaks (chars text.now)) }
    ensures ok { IfOk result (λ node. node ≡ leaf_tree breaks (chars text.now)) }
    ensures tree { IfOk result (λ node. IsTree node) }
    ensures made { maker.new.made ≤ maker.old.made + 1 }
    ensures added { maker.old.made + 1 < 2 ^ 64 → maker.new.made ≡ maker.old.made + 1 }
    ensures rises { maker.old.made ≤ maker.new.made }
{
    maker.add_made();
    if text.len() == 0 {
        return Ok(Node::empty(breaks));
    }
    let leaf = match known {
        Some(info) => Leaf::of_text(maker.alloc, breaks, text, info)?,
        None => Leaf::counted(maker.alloc, breaks, text)?,
    };
    Ok(Node::of_leaf(leaf))
}

/// Makes a leaf of this text, whose counts are known. An empty text allocates nothing.
pub fn make_leaf(maker: &mut Maker, breaks: LineBreaks, text: &str, info: TextInfo) -> Made<Node>
    requires fits { length text.now ≤ MAX_BYTES }
    requires info { info ≡ info_of breaks (chars text.now) }
    ensures ok { IfOk result (λ node. node ≡ leaf_tree breaks (chars text.now)) }
    ensures tree { IfOk result (λ node. IsTree node) }
    ensures made { maker.new.made ≤ maker.old.made + 1 }
    ensures added { maker.old.made + 1 < 2 ^ 64 → maker.new.made ≡ maker.old.made + 1 }
    ensures rises { maker.old.made ≤ maker.new.made }
{
    leaf_node(maker, breaks, text, Some(info))
}

/// Makes a leaf of this text, and counts it. An empty text allocates nothing.
pub fn leaf_of(maker: &mut Maker, breaks: LineBreaks, text: &str) -> Made<Node>
    requires { length text.now ≤ MAX_BYTES }
    ensures ok { IfOk result (λ node. node ≡ leaf_tree breaks (chars text.now)) }
    ensures tree { IfOk result (λ node. IsTree node) }
    ensures made { maker.new.made ≤ maker.old.made + 1 }
    ensures added { maker.old.made + 1 < 2 ^ 64 → maker.new.made ≡ maker.old.made + 1 }
    ensures rises { maker.old.made ≤ maker.new.made }
{
    leaf_node(maker, breaks, text, None)
}
