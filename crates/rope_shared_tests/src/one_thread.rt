//! Values that count their drops, by owners that are dropped in several orders.
ghost use Rattle.std.specs.Prelude.{◌≡◌, true, false, IfOk, IfErr, MatchResult};
ghost use Rattle.rope_shared.specs.Local.Shared.{shared_value};

use rope_shared::local::{Shared, Sole};
use std::alloc::{AllocError, Global};
use std::cell::Cell;
use std::process::Abort;
use std::rc::Rc;

fn write(sole: &mut Sole<u64>, number: u64)
    ensures { sole.new.value ≡ number }
{
    *sole.as_mut() = number;
}

/// Writes to the value where this is its only owner.
fn write_alone(shared: &mut Shared<u64>, number: u64) -> bool
    ensures written { result ≡ true → shared_value shared.new ≡ number }
    ensures kept { result ≡ false → shared.new ≡ shared.old }
{
    match shared.get_mut() {
        Some(value) => {
            *value = number;
            true
        }
        None => false,
    }
}

/// Writes to the value, by its only owner for that time.
fn write_by_sole(shared: Shared<u64>, number: u64) -> Result<Shared<u64>, Shared<u64>>
    ensures { MatchResult result (λ s. shared_value s ≡ number)
        (λ s. shared_value s ≡ shared_value shared) }
{
    let mut sole = shared.into_sole()?;
    write(&mut sole, number);
    Ok(sole.share())
}

/// Writes to the value, or to a new one if it has other owners. Fails only without memory.
fn write_own(alloc: Global, shared: &mut Shared<u64>, number: u64) -> Result<(), AllocError>
    ensures written { IfOk result (λ _. shared_value shared.new ≡ number) }
    ensures kept { IfErr result (λ _. shared.new ≡ shared.old) }
{
    match shared.get_mut() {
        Some(value) => *value = number,
        None => match Sole::new(alloc, 0) {
            Ok(sole) => *shared.reset(sole) = number,
            Err(_) => return Err(AllocError),
        },
    }
    Ok(())
}

/// Writes to the value of an `Rc`, or to a new one if it has other owners.
fn write_rc(alloc: Global, rc: &mut Rc<u64, Global>, number: u64) -> Result<(), AllocError>
    ensures written { IfOk result (λ _. rc.new.value ≡ number) }
    ensures kept { IfErr result (λ _. rc.new ≡ rc.old) }
{
    match Rc::get_mut(rc) {
        Some(value) => *value = number,
        None => match Sole::new(alloc, 0) {
            Ok(sole) => *Sole::reset(rc, sole) = number,
            Err(_) => return Err(AllocError),
        },
    }
    Ok(())
}

/// A value that counts its drop.
struct Tracked<'a> {
    drops: &'a Cell<u64>,
    number: u64,
}

impl Drop for Tracked<'_> {
    fn drop(self) {
        let Tracked { drops, number: _ } = self;
        drops.set(drops.get().wrapping_add(1));
    }
}

/// A tree whose nodes several trees share.
#[cycle(local_tree)]
#[derive(Drop)]
enum Node {
    Empty,
    Leaf(Shared<u64>),
    List(Shared<List>),
    Own(Sole<List>),
}

#[cycle(local_tree)]
#[derive(Drop)]
struct List {
    nodes: [Node; 3],
}

fn make_list(rt: &impl Abort, alloc: Global, nodes: [Node; 3]) -> Shared<List> {
    let list = Sole::new(alloc, List { nodes }).ok();
    list.expect(rt, "there is memory").share()
}

fn number_of(node: &Node) -> u64 {
    match node {
        Node::Empty => 0,
        Node::Leaf(leaf) => *leaf.as_ref(),
        Node::List(_) => 1,
        Node::Own(list) => list.nodes.len() as u64,
    }
}

fn make_number(rt: &impl Abort, alloc: Global, number: u64) -> Sole<u64> {
    Sole::new(alloc, number).ok().expect(rt, "there is memory")
}

fn make_tracked<'a>(
    rt: &impl Abort,
    alloc: Global,
    drops: &'a Cell<u64>,
    number: u64,
) -> Sole<Tracked<'a>> {
    let tracked = Sole::new(alloc, Tracked { drops, number }).ok();
    tracked.expect(rt, "there is memory")
}

/// Fails unless the value has this number, and the cell this count of drops.
fn expect_value(rt: &impl Abort, value: &Tracked<'_>, number: u64, drops: u64) {
    assert_eq!(rt; [value.number, value.drops.get()], [number, drops]);
}

#[test]
fn the_only_owner_drops_its_value_once(rt: HostRuntime) {
    let drops = Cell::new(0);
    let mut sole = make_tracked(&rt, rt.alloc(), &drops, 3);
    sole.as_mut().number = 4;
    expect_value(&rt, sole.as_ref(), 4, 0);
    drop(sole);
    assert_eq!(rt; drops.get(), 1);
}

#[test]
fn the_value_outlives_its_owner_where_it_is_taken(rt: HostRuntime) {
    let drops = Cell::new(0);
    let value = make_tracked(&rt, rt.alloc(), &drops, 5).into_inner();
    expect_value(&rt, &value, 5, 0);
    drop(value);
    assert_eq!(rt; drops.get(), 1);
}

fn make_three<'a>(
    rt: &impl Abort,
    alloc: Global,
    drops: &'a Cell<u64>,
) -> [Option<Shared<Tracked<'a>>>; 3] {
    let first = make_tracked(rt, alloc, drops, 7).share();
    let second = first.try_clone().expect(rt, "there is memory");
    let third = second.try_clone().expect(rt, "there is memory");
    [Some(first), Some(second), Some(third)]
}

/// Drops one of three owners of the number 7, and fails if the value was dropped before.
fn drop_owner(rt: &impl Abort, owners: &mut [Option<Shared<Tracked<'_>>>; 3], at: usize) {
    let owner = owners.get_mut(at).expect(rt, "there are three owners");
    let owner = owner.take().expect(rt, "each owner is dropped once");
    expect_value(rt, owner.as_ref(), 7, 0);
}

/// Drops three owners in this order.
fn drop_each(rt: &impl Abort, owners: &mut [Option<Shared<Tracked<'_>>>; 3], order: [usize; 3]) {
    for at in order {
        drop_owner(rt, owners, at);
    }
}

/// Fails unless the last of three owners, dropped in this order, drops the value.
fn expect_last_drops(rt: &impl Abort, alloc: Global, order: [usize; 3]) {
    let drops = Cell::new(0);
    let mut owners = make_three(rt, alloc, &drops);
    drop_each(rt, &mut owners, order);
    assert_eq!(rt; drops.get(), 1, "after {order:?}");
}

#[test]
fn the_last_of_three_owners_drops_the_value(rt: HostRuntime) {
    // Each row is an order in which the three owners are dropped.
    for order in [
        [0, 1, 2],
        [0, 2, 1],
        [1, 0, 2],
        [1, 2, 0],
        [2, 0, 1],
        [2, 1, 0],
    ] {
        expect_last_drops(&rt, rt.alloc(), order);
    }
}

/// Drops an owner, and fails if it is the only one.
fn drop_one_of_two(rt: &impl Abort, mut owner: Shared<Tracked<'_>>) {
    assert!(rt; owner.get_mut().is_none());
    assert!(rt; owner.into_sole().is_err());
}

/// Drops an owner, and fails unless it is the only one.
fn drop_only_one(rt: &impl Abort, owner: Shared<Tracked<'_>>) {
    let sole = owner.into_sole().ok();
    let mut sole = sole.expect(rt, "this owner is the only one");
    sole.as_mut().number = 2;
    assert_eq!(rt; sole.as_ref().number, 2);
    drop(sole.share());
}

#[test]
fn one_of_two_owners_is_not_the_only_one(rt: HostRuntime) {
    let drops = Cell::new(0);
    let first = make_tracked(&rt, rt.alloc(), &drops, 1).share();
    let second = first.try_clone().expect(&rt, "there is memory");
    drop_one_of_two(&rt, first);
    expect_value(&rt, second.as_ref(), 1, 0);
    drop_only_one(&rt, second);
    assert_eq!(rt; drops.get(), 1);
}

/// Writes to the value of the only owner left, after another one.
fn write_after_drop(rt: &impl Abort, owner: &mut Shared<Tracked<'_>>) {
    drop(owner.try_clone().expect(rt, "there is memory"));
    let value = owner.get_mut().expect(rt, "the other owner was dropped");
    value.number = 9;
    assert_eq!(rt; owner.as_ref().number, 9);
}

#[test]
fn the_only_owner_of_several_writes_to_the_value(rt: HostRuntime) {
    let drops = Cell::new(0);
    let mut first = make_tracked(&rt, rt.alloc(), &drops, 1).share();
    write_after_drop(&rt, &mut first);
    let second = first.try_clone().expect(&rt, "there is memory");
    drop(first);
    expect_value(&rt, second.as_ref(), 9, 0);
    drop(second);
    assert_eq!(rt; drops.get(), 1);
}

/// Returns a list of a leaf, and one of that leaf and the first list.
fn make_trees(rt: &impl Abort, alloc: Global) -> (Shared<List>, Shared<List>) {
    let leaf = make_number(rt, alloc, 6).share();
    let other = leaf.try_clone().expect(rt, "there is memory");
    let low = make_list(rt, alloc, [Node::Leaf(other), Node::Empty, Node::Empty]);
    let other = low.try_clone().expect(rt, "there is memory");
    let nodes = [Node::Leaf(leaf), Node::List(other), Node::Empty];
    (low, make_list(rt, alloc, nodes))
}

fn expect_numbers(rt: &impl Abort, list: &List, numbers: [u64; 3]) {
    let [first, second, third] = &list.nodes;
    assert_eq!(rt;
        [number_of(first), number_of(second), number_of(third)],
        numbers
    );
}

#[test]
fn two_trees_share_a_leaf(rt: HostRuntime) {
    let (low, high) = make_trees(&rt, rt.alloc());
    expect_numbers(&rt, high.as_ref(), [6, 1, 0]);
    assert!(rt; low.into_sole().is_err());
    let high = high.into_sole().ok();
    let mut high = high.expect(&rt, "this owner is the only one");
    high.as_mut().nodes[1] = Node::Empty;
    assert_eq!(rt; number_of(&high.as_ref().nodes[0]), 6);
    assert_eq!(rt; number_of(&Node::Own(high)), 3);
}

/// Writes to a number by the first of its two owners, and then by the second.
fn write_by_each(rt: &impl Abort, mut first: Shared<u64>) {
    assert!(rt; write_alone(&mut first, 4));
    let second = first.try_clone().expect(rt, "there is memory");
    assert!(rt; !write_alone(&mut first, 5));
    assert!(rt; write_by_sole(first, 6).is_err());
    let second = write_by_sole(second, 7).ok();
    assert_eq!(rt; *second.expect(rt, "this owner is the only one"), 7);
}

#[test]
fn a_number_is_written_in_place(rt: HostRuntime) {
    let mut sole = make_number(&rt, rt.alloc(), 1);
    write(&mut sole, 2);
    *sole = *sole + 1;
    write_by_each(&rt, sole.share());
}

#[test]
fn a_shared_number_is_left_to_its_other_owners(rt: HostRuntime) {
    let first = Shared::new(rt.alloc(), 1).ok();
    let mut first = first.expect(&rt, "there is memory");
    write_own(rt.alloc(), &mut first, 2).expect(&rt, "there is memory");
    let mut second = first.try_clone().expect(&rt, "there is memory");
    write_own(rt.alloc(), &mut second, 3).expect(&rt, "there is memory");
    assert_eq!(rt; [*first, *second], [2, 3]);
    assert_eq!(rt; [first.strong_count(), second.strong_count()], [1, 1]);
}

/// Returns the only owner of a value that replaced another one.
fn make_reset<'a>(rt: &impl Abort, alloc: Global, drops: &'a Cell<u64>) -> Shared<Tracked<'a>> {
    let mut owner = make_tracked(rt, alloc, drops, 1).share();
    owner.reset(make_tracked(rt, alloc, drops, 2)).number = 3;
    owner
}

#[test]
fn an_owner_of_another_value_drops_the_old_one(rt: HostRuntime) {
    let drops = Cell::new(0);
    let mut first = make_reset(&rt, rt.alloc(), &drops);
    expect_value(&rt, first.as_ref(), 3, 1);
    let second = first.try_clone().expect(&rt, "there is memory");
    first.reset(make_tracked(&rt, rt.alloc(), &drops, 4));
    expect_value(&rt, first.as_ref(), 4, 1);
    drop(second);
    assert_eq!(rt; drops.get(), 2);
    drop(first);
    assert_eq!(rt; drops.get(), 3);
}

/// Fails unless an `Rc` with a weak handle, and then with another one, is not claimed.
fn expect_not_claimed<'a>(
    rt: &impl Abort,
    first: Rc<Tracked<'a>, Global>,
) -> Rc<Tracked<'a>, Global> {
    let weak = Rc::downgrade(&first).expect(rt, "there is memory");
    let first = Sole::claim(first).err();
    let first = first.expect(rt, "there is a weak handle");
    drop(weak);
    let second = first.clone().expect(rt, "there is memory");
    let first = Sole::claim(first).err();
    drop(second);
    first.expect(rt, "there is another handle")
}

#[test]
fn an_rc_with_another_handle_is_not_claimed(rt: HostRuntime) {
    let drops = Cell::new(0);
    let rc = make_tracked(&rt, rt.alloc(), &drops, 1).into_rc();
    let sole = Sole::claim(expect_not_claimed(&rt, rc)).ok();
    let sole = sole.expect(&rt, "this handle is the only one");
    expect_value(&rt, sole.as_ref(), 1, 0);
    drop(sole);
    assert_eq!(rt; drops.get(), 1);
}

#[test]
fn an_rc_is_left_to_its_other_owners(rt: HostRuntime) {
    let first = Rc::new(rt.alloc(), 1).ok();
    let mut first = first.expect(&rt, "there is memory");
    write_rc(rt.alloc(), &mut first, 2).expect(&rt, "there is memory");
    let mut second = first.clone().expect(&rt, "there is memory");
    write_rc(rt.alloc(), &mut second, 3).expect(&rt, "there is memory");
    assert_eq!(rt; [*first, *second], [2, 3]);
    assert_eq!(rt;
        [Rc::strong_count(&first), Rc::strong_count(&second)],
        [1, 1]
    );
}
