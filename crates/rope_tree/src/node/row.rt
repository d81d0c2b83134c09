//! Rows of adjacent nodes, and the nodes made over them. A new node shares the nodes below it.
ghost use Rattle.std.specs.Prelude.{◌≡◌, ◌+◌, ◌*◌, ◌^◌, ◌<◌, ◌≤◌, ◌++◌, [], length, take, drop, IfOk, OnOk};
ghost use Rattle.rope_text.specs.declared.TheConstants.{MAX_CHILDREN};
ghost use Rattle.rope_leaf.specs.Tree.{breaks_of, leaves_of, tree_over, AreFamily};
ghost use Rattle.rope_leaf.specs.Totals.{HasTotals};
ghost use Rattle.rope_tree.specs.View.{trees_in};
ghost use Rattle.rope_leaf.specs.Siblings.{AreLevel, AreOver, gathered};
ghost use Rattle.rope_tree.specs.Rows.{IsRow};
ghost use Rattle.rope_tree.specs.NewList.{new_list, nodes_in, IsNewList};

use super::{Children, Form, Node, Nodes};
use crate::{Made, Maker, Totals, total_before};
use rope_text::{LineBreaks, MAX_CHILDREN};
use std::alloc::{AllocError, Global};
use std::mem;
use std::rc::Rc;

/// A row of adjacent nodes. If they are children of one node, `totals` are the running totals of
/// all its children, and `from` is the number of children before the row: the counts are then known
/// without a read of each node.
#[derive(Clone, Copy)]
pub struct Row<'a> {
    pub nodes: &'a [Node],
    pub totals: Option<&'a Totals>,
    pub from: usize,
}

/// Appends references to nodes to a list. Their counts are summed in a local, so that no total is
/// loaded right after it was stored.
#[inline(always)]
fn push_all(alloc: Global, totals: &mut Totals, places: &mut [Node], nodes: &[Node]) -> Made<()>
    requires list { IsNewList (new_list totals.old places.old) }
    requires room { length (nodes_in (new_list totals.old places.old)) + length nodes.now
        ≤ MAX_CHILDREN }
    requires siblings { AreLevel (nodes_in (new_list totals.old places.old) ++ nodes.now) }
    ensures list { OnOk result (IsNewList (new_list totals.new places.new)) }
    ensures nodes { OnOk result (nodes_in (new_list totals.new places.new)
        ≡ nodes_in (new_list totals.old places.old) ++ nodes.now) }
{
    let mut total = total_before(totals, totals.len());
    for node in nodes {
        let count = totals.len();
        let shared = node.share()?;
        total = total.plus(shared.info());
        totals.push(alloc, total)?;
        places[count] = shared;
    }
    Ok(())
}

/// Appends references to the nodes of a row to a list. If the totals of the row are known, they are
/// copied in one piece.
fn push_row(alloc: Global, totals: &mut Totals, places: &mut [Node], row: &Row<'_>) -> Made<()>
    requires list { IsNewList (new_list totals.old places.old) }
    requires room { length (nodes_in (new_list totals.old places.old)) + length row.now.nodes.now
        ≤ MAX_CHILDREN }
    requires row { IsRow row.now }
    requires siblings { AreLevel (nodes_in (new_list totals.old places.old) ++ row.now.nodes.now) }
    ensures list { OnOk result (IsNewList (new_list totals.new places.new)) }
    ensures nodes { OnOk result (nodes_in (new_list totals.new places.new)
        ≡ nodes_in (new_list totals.old places.old) ++ row.now.nodes.now) }
{
    let nodes = row.nodes;
    if nodes.is_empty() {
        return Ok(());
    }
    let Some(known) = row.totals else {
        return push_all(alloc, totals, places, nodes);
    };
    let base = total_before(known, row.from);
    let count = totals.len();
    let before = total_before(totals, count);
    if !totals.append(alloc, known, row.from, nodes.len(), base, before)? {
        return push_all(alloc, totals, places, nodes);
    }
    let places = &mut places[count..count + nodes.len()];
    for k in 0..nodes.len() {
        places[k] = nodes[k].share()?;
    }
    Ok(())
}

/// Three adjacent rows of nodes.
pub(super) type Rows<'a> = (Row<'a>, Row<'a>, Row<'a>);

/// Removes all nodes from a list. Never inlined, since a caller would clear stack for empty nodes
/// at each call.
#[inline(never)]
fn clear(totals: &mut Totals, places: &mut [Node; MAX_CHILDREN])
    ensures list { IsNewList (new_list totals.new places.new) }
    ensures none { nodes_in (new_list totals.new places.new) ≡ [] }
{
    *totals = Totals::new();
    *places = Default::default();
}

/// Makes a list of the nodes of three rows. It is filled in place, so that no node is moved.
#[inline(never)]
pub(super) fn list_of(maker: &mut Maker, rows: &Rows<'_>) -> Made<Rc<Children>>
    requires before { IsRow rows.now.0 }
    requires middle { IsRow rows.now.1 }
    requires after { IsRow rows.now.2 }
    requires children { AreFamily
        (rows.now.0.nodes.now ++ (rows.now.1.nodes.now ++ rows.now.2.nodes.now)) }
    ensures ok { IfOk result (λ list. list.value
        ≡ rows.now.0.nodes.now ++ (rows.now.1.nodes.now ++ rows.now.2.nodes.now)) }
    ensures made { maker.new.made ≤ maker.old.made + 1 }
    ensures added { maker.old.made + 1 < 2 ^ 64 → maker.new.made ≡ maker.old.made + 1 }
    ensures rises { maker.old.made ≤ maker.new.made }
{
    maker.add_made();
    let none = Children {
        height: 1,
        breaks: LineBreaks::Unicode,
        last: 0,
        totals: Totals::new(),
        nodes: Default::default(),
    };
    let mut list = match Rc::new(maker.alloc, none) {
        Ok(list) => list,
        Err(refused) => {
            // It is empty, so nothing leaks; dropping it would add a 400-byte move to the path that
            // succeeds.
            mem::forget(refused);
            return Err(AllocError);
        }
    };
    // It was just made and has no other owner, so this never fails.
    let Some(children) = Rc::get_mut(&mut list) else {
        return Err(AllocError);
    };
    let alloc = maker.alloc;
    let (totals, places) = (&mut children.totals, &mut children.nodes);
    if push_row(alloc, totals, places, &rows.0).is_ok()
        && push_row(alloc, totals, places, &rows.1).is_ok()
        && push_row(alloc, totals, places, &rows.2).is_ok()
    {
        children.height = (children.nodes[0].height() + 1) as u8;
        children.breaks = children.nodes[0].line_breaks();
        return Ok(list);
    }
    // If an allocation fails, the list is emptied before it is dropped.
    clear(&mut children.totals, &mut children.nodes);
    Err(AllocError)
}

/// Makes a node over the nodes of three rows. Inlined: a row passed through memory would be stored
/// in words and loaded as a vector, a store-forwarding stall.
#[inline(always)]
fn make_over(maker: &mut Maker, rows: Rows<'_>) -> Made<Node>
    requires before { IsRow rows.0 }
    requires middle { IsRow rows.1 }
    requires after { IsRow rows.2 }
    requires children { AreFamily
        (rows.0.nodes.now ++ (rows.1.nodes.now ++ rows.2.nodes.now)) }
    ensures ok { IfOk result (λ node. node ≡ tree_over
        (rows.entry.0.nodes.now ++ (rows.entry.1.nodes.now ++ rows.entry.2.nodes.now))) }
    ensures made { maker.new.made ≤ maker.old.made + 1 }
    ensures added { maker.old.made + 1 < 2 ^ 64 → maker.new.made ≡ maker.old.made + 1 }
    ensures rises { maker.old.made ≤ maker.new.made }
{
    let form = Form::Inner(list_of(maker, &rows)?);
    Ok(Node { form })
}

/// Makes a node over adjacent nodes.
pub fn node_over(maker: &mut Maker, nodes: &[Node]) -> Made<Node>
    requires { AreFamily nodes.now }
    ensures ok { IfOk result (λ node. node ≡ tree_over nodes.now) }
    ensures made { maker.new.made ≤ maker.old.made + 1 }
    ensures added { maker.old.made + 1 < 2 ^ 64 → maker.new.made ≡ maker.old.made + 1 }
    ensures rises { maker.old.made ≤ maker.new.made }
{
    make_over(maker, (Row::none(), Row::new(nodes), Row::none()))
}

impl Nodes {
    /// Returns the number of nodes, 1 or 2.
    pub fn len(&self) -> usize
        ensures { result ≡ length (trees_in self.now) }
    {
        match self {
            Nodes::One(_) => 1,
            Nodes::Two(_, _) => 2,
        }
    }
}

impl<'a> Row<'a> {
    /// Returns an empty row.
    pub fn none() -> Row<'a>
        ensures row { IsRow result }
        ensures nodes { result.nodes.now ≡ [] }
    {
        Row::new(&[])
    }

    /// Returns a row of nodes, which may have different parents.
    pub fn new(nodes: &'a [Node]) -> Row<'a>
        ensures row { IsRow result }
        ensures nodes { result.nodes.now ≡ nodes.now }
    {
        Row {
            nodes,
            totals: None,
            from: 0,
        }
    }

    /// Returns a row of all children of a node, with their running totals.
    pub fn of(nodes: &'a [Node], totals: &'a Totals) -> Row<'a>
        requires children { AreFamily nodes.now }
        requires totals { HasTotals (breaks_of nodes.now) totals.now nodes.now }
        ensures row { IsRow result }
        ensures nodes { result.nodes.now ≡ nodes.now }
    {
        Row {
            nodes,
            totals: Some(totals),
            from: 0,
        }
    }

    /// Returns the first `most` nodes, or all if there are fewer.
    pub fn first(self, most: usize) -> Row<'a>
        requires { IsRow self }
        ensures row { IsRow result }
        ensures nodes { result.nodes.now ≡ take most self.entry.nodes.now }
    {
        Row {
            nodes: &self.nodes[..most.min(self.nodes.len())],
            ..self
        }
    }

    /// Returns the nodes after the first `past`.
    pub fn rest(self, past: usize) -> Row<'a>
        requires { IsRow self }
        ensures row { IsRow result }
        ensures nodes { result.nodes.now ≡ drop past self.entry.nodes.now }
    {
        let past = past.min(self.nodes.len());
        Row {
            nodes: &self.nodes[past..],
            from: self.from.saturating_add(past),
            ..self
        }
    }
}

/// Makes a node over the nodes of three rows, or two over half of them each, if one can't hold
/// them.
#[inline(always)]
pub fn pack_over(maker: &mut Maker, before: Row<'_>, middle: Row<'_>, after: Row<'_>) -> Made<Nodes>
    requires before { IsRow before }
    requires middle { IsRow middle }
    requires after { IsRow after }
    requires siblings { AreLevel (before.nodes.now ++ (middle.nodes.now ++ after.nodes.now)) }
    requires at_least_two { 2 ≤ length (before.nodes.now ++ (middle.nodes.now ++ after.nodes.now)) }
    requires at_most_48 { length (before.nodes.now ++ (middle.nodes.now ++ after.nodes.now))
        ≤ 2 * MAX_CHILDREN }
    ensures leaves { IfOk result (λ p. leaves_of (trees_in p) ≡ leaves_of
        (before.entry.nodes.now ++ (middle.entry.nodes.now ++ after.entry.nodes.now))) }
    ensures shape { IfOk result (λ p. AreOver
        (before.entry.nodes.now ++ (middle.entry.nodes.now ++ after.entry.nodes.now))
        (trees_in p)) }
    ensures made { maker.new.made ≤ maker.old.made + 2 }
    ensures rises { maker.old.made ≤ maker.new.made }
{
    let count = before.nodes.len() + middle.nodes.len() + after.nodes.len();
    if count <= MAX_CHILDREN {
        let node = make_over(maker, (before, middle, after))?;
        return Ok(Nodes::One(node));
    }
    let half = count / 2;
    let more = half.saturating_sub(before.nodes.len());
    let most = more.saturating_sub(middle.nodes.len());
    let front = (before.first(half), middle.first(more), after.first(most));
    let first = make_over(maker, front)?;
    let back = (before.rest(half), middle.rest(more), after.rest(most));
    let second = make_over(maker, back)?;
    Ok(Nodes::Two(first, second))
}

/// Makes a node over a row, one or two nodes, and another row; or two over half of the nodes each,
/// if one can't hold them.
pub fn pack(maker: &mut Maker, before: Row<'_>, middle: Nodes, after: Row<'_>) -> Made<Nodes>
    requires before { IsRow before }
    requires after { IsRow after }
    requires siblings { AreLevel (before.nodes.now ++ (trees_in middle ++ after.nodes.now)) }
    requires at_least_two { 2 ≤ length (before.nodes.now ++ (trees_in middle ++ after.nodes.now)) }
    requires at_most_48 { length (before.nodes.now ++ (trees_in middle ++ after.nodes.now))
        ≤ 2 * MAX_CHILDREN }
    ensures leaves { IfOk result (λ p. leaves_of (trees_in p)
        ≡ leaves_of (before.entry.nodes.now ++ (trees_in middle ++ after.entry.nodes.now))) }
    ensures shape { IfOk result (λ p. AreOver
        (before.entry.nodes.now ++ (trees_in middle ++ after.entry.nodes.now)) (trees_in p)) }
    ensures made { maker.new.made ≤ maker.old.made + 2 }
    ensures rises { maker.old.made ≤ maker.new.made }
{
    match middle {
        Nodes::One(node) => pack_over(maker, before, Row::new(&[node]), after),
        Nodes::Two(first, second) => { pack_over(maker, before, Row::new(&[first, second]), after) }
    }
}

/// Makes a node over two rows and one or two nodes after them; or two over half of the nodes each,
/// if one can't hold them.
pub fn pack_last(maker: &mut Maker, before: Row<'_>, middle: Row<'_>, last: Nodes) -> Made<Nodes>
    requires before { IsRow before }
    requires middle { IsRow middle }
    requires siblings { AreLevel (before.nodes.now ++ (middle.nodes.now ++ trees_in last)) }
    requires at_least_two { 2
        ≤ length (before.nodes.now ++ (middle.nodes.now ++ trees_in last)) }
    requires at_most_48 { length (before.nodes.now ++ (middle.nodes.now ++ trees_in last))
        ≤ 2 * MAX_CHILDREN }
    ensures leaves { IfOk result (λ p. leaves_of (trees_in p)
        ≡ leaves_of (before.entry.nodes.now ++ (middle.entry.nodes.now ++ trees_in last))) }
    ensures shape { IfOk result (λ p. AreOver
        (before.entry.nodes.now ++ (middle.entry.nodes.now ++ trees_in last)) (trees_in p)) }
    ensures made { maker.new.made ≤ maker.old.made + 2 }
    ensures rises { maker.old.made ≤ maker.new.made }
{
    match last {
        Nodes::One(node) => pack_over(maker, before, middle, Row::new(&[node])),
        Nodes::Two(first, second) => pack_over(maker, before, middle, Row::new(&[first, second])),
    }
}

/// Makes a node over one or two nodes and two rows after them; or two over half of the nodes each,
/// if one can't hold them.
pub fn pack_first(maker: &mut Maker, first: Nodes, middle: Row<'_>, after: Row<'_>) -> Made<Nodes>
    requires middle { IsRow middle }
    requires after { IsRow after }
    requires siblings { AreLevel (trees_in first ++ (middle.nodes.now ++ after.nodes.now)) }
    requires at_least_two { 2
        ≤ length (trees_in first ++ (middle.nodes.now ++ after.nodes.now)) }
    requires at_most_48 { length (trees_in first ++ (middle.nodes.now ++ after.nodes.now))
        ≤ 2 * MAX_CHILDREN }
    ensures leaves { IfOk result (λ p. leaves_of (trees_in p)
        ≡ leaves_of (trees_in first ++ (middle.entry.nodes.now ++ after.entry.nodes.now))) }
    ensures shape { IfOk result (λ p. AreOver
        (trees_in first ++ (middle.entry.nodes.now ++ after.entry.nodes.now)) (trees_in p)) }
    ensures made { maker.new.made ≤ maker.old.made + 2 }
    ensures rises { maker.old.made ≤ maker.new.made }
{
    match first {
        Nodes::One(node) => pack_over(maker, Row::new(&[node]), middle, after),
        Nodes::Two(one, other) => pack_over(maker, Row::new(&[one, other]), middle, after),
    }
}

/// Returns the only tree, or a node over both.
pub fn root_of(maker: &mut Maker, nodes: Nodes) -> Made<Node>
    requires { length (trees_in nodes) ≡ 2 → AreFamily (trees_in nodes) }
    ensures ok { IfOk result (λ node. node ≡ gathered (trees_in nodes)) }
    ensures made { maker.new.made ≤ maker.old.made + 1 }
    ensures rises { maker.old.made ≤ maker.new.made }
{
    match nodes {
        Nodes::One(node) => Ok(node),
        Nodes::Two(first, second) => node_over(maker, &[first, second]),
    }
}

/// Returns the only node of two rows and the nodes between them, or a node over all.
pub fn gather_rows(maker: &mut Maker, before: Row<'_>, middle: Nodes, after: Row<'_>) -> Made<Node>
    requires before { IsRow before }
    requires after { IsRow after }
    requires family { 2 ≤ length (before.nodes.now ++ (trees_in middle ++ after.nodes.now))
        → AreFamily (before.nodes.now ++ (trees_in middle ++ after.nodes.now)) }
    ensures ok { IfOk result (λ node. node ≡ gathered
        (before.entry.nodes.now ++ (trees_in middle ++ after.entry.nodes.now))) }
    ensures made { maker.new.made ≤ maker.old.made + 1 }
    ensures rises { maker.old.made ≤ maker.new.made }
{
    match middle {
        Nodes::One(node) if before.nodes.is_empty() && after.nodes.is_empty() => Ok(node),
        Nodes::One(node) => make_over(maker, (before, Row::new(&[node]), after)),
        Nodes::Two(first, second) => {
            make_over(maker, (before, Row::new(&[first, second]), after))
        }
    }
}
