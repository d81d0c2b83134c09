//! The counts of counted edits in small trees, worked by hand from the shape of the tree: the nodes
//! entered, the totals compared and the nodes made.
//!
//! A rope of 20,000 letters has a list of 21 leaves, 20 of them of 984 bytes. A search of 21
//! children for the eleventh takes five comparisons. An edit first tries the child of the previous
//! edit, the first one of a fresh list, by two comparisons.
use crate::texts::chunk_count;
use rope_plain::failure::{Failure, expect_same};
use rope_plain::holds;
use rope_plain::texts::{repeated, rope_of};
use ropey::{LineBreaks, Rope, Steps};
use std::alloc::Global;

/// Counts before a call: those of an earlier call.
const LEFT_OVER: Steps = Steps {
    nodes: 1,
    compares: 2,
    made: 3,
};

fn counts(steps: Steps) -> [u64; 3] {
    [steps.nodes, steps.compares, steps.made]
}

/// Fails unless a call had these counts.
fn expect_counts(steps: Steps, expected: [u64; 3]) -> Result<(), Failure> {
    expect_same("the counts", &counts(steps), &expected)
}

/// The root and the leaf are entered. The child is found twice, since its leaf is full and is
/// split.
fn expect_counts_of_a_split_leaf(rope: &mut Rope) -> Result<(), Failure> {
    let mut steps = LEFT_OVER;
    holds!(rope.len_chars() == 20_000);
    rope.insert_char_counted(10_000, 'x', &mut steps)?;
    expect_counts(steps, [3, 12, 1])
}

#[test]
fn an_insert_that_splits_a_leaf_counts_the_new_leaf(rt: HostRuntime) -> Result<(), Failure> {
    let mut rope = rope_of(rt.alloc(), "a", 20_000)?;
    expect_counts_of_a_split_leaf(&mut rope)
}

/// The list and the last leaf are copied; two comparisons find the last of 21 children.
fn expect_counts_of_copies(rope: &mut Rope) -> Result<(), Failure> {
    let mut steps = LEFT_OVER;
    holds!(rope.len_chars() == 20_000);
    rope.insert_counted(20_000, "x", &mut steps)?;
    expect_counts(steps, [2, 4, 2])
}

#[test]
fn an_insert_beside_a_clone_counts_the_copies(rt: HostRuntime) -> Result<(), Failure> {
    let rope = rope_of(rt.alloc(), "a", 20_000)?;
    let mut clone = rope.clone()?;
    expect_counts_of_copies(&mut clone)
}

/// The leaf is found once. With 2,000 letters in it, it becomes four in a new list of 24: two of
/// 984 and two of 508. With 4,096, it becomes six, and two lists of 13 replace the root's.
fn expect_counts_of_a_medium_text(
    rope: &mut Rope,
    text: &str,
    expected: [u64; 3],
) -> Result<(), Failure> {
    let mut steps = LEFT_OVER;
    holds!(rope.len_chars() == 20_000);
    rope.insert_counted(10_000, text, &mut steps)?;
    expect_counts(steps, expected)
}

fn expect_counts_of_letters(
    alloc: Global,
    letters: usize,
    expected: [u64; 3],
) -> Result<(), Failure> {
    let text = repeated(alloc, "z", letters)?;
    let mut rope = rope_of(alloc, "a", 20_000)?;
    expect_counts_of_a_medium_text(&mut rope, text.as_str(), expected)
}

#[test]
fn a_medium_insert_counts_its_leaves_and_their_lists(rt: HostRuntime) -> Result<(), Failure> {
    expect_counts_of_letters(rt.alloc(), 2_000, [2, 5, 5])?;
    expect_counts_of_letters(rt.alloc(), 4_096, [2, 5, 9])
}

/// A leaf of 6,500 bytes becomes seven, the last of 596 bytes, with a list over them.
fn expect_counts_of_a_long_text(alloc: Global, rope: &mut Rope) -> Result<(), Failure> {
    let text = repeated(alloc, "z", 6_000)?;
    let mut steps = LEFT_OVER;
    holds!(rope.len_chars() == 500);
    rope.insert_counted(250, text.as_str(), &mut steps)?;
    expect_counts(steps, [1, 0, 8])
}

#[test]
fn a_long_insert_counts_its_leaves_and_their_list(rt: HostRuntime) -> Result<(), Failure> {
    let mut rope = rope_of(rt.alloc(), "a", 500)?;
    expect_counts_of_a_long_text(rt.alloc(), &mut rope)
}

fn expect_counts_of_a_short_removal(rope: &mut Rope) -> Result<(), Failure> {
    let mut steps = LEFT_OVER;
    holds!(rope.len_chars() == 20_000);
    rope.remove_counted(10_000..10_010, &mut steps)?;
    expect_counts(steps, [2, 7, 0])
}

#[test]
fn a_removal_in_place_makes_no_node(rt: HostRuntime) -> Result<(), Failure> {
    let mut rope = rope_of(rt.alloc(), "a", 20_000)?;
    expect_counts_of_a_short_removal(&mut rope)
}

/// The leaves of the range are dropped, and those left in their list move to the one before it.
fn expect_no_node_of_a_long_removal(rope: &mut Rope) -> Result<(), Failure> {
    let mut steps = LEFT_OVER;
    holds!(rope.len_chars() == 1_000_000);
    rope.remove_counted(500_000..510_000, &mut steps)?;
    expect_same("nodes made", &counts(steps)[2], &0)?;
    expect_same("characters left", &rope.len_chars(), &990_000)
}

#[test]
fn a_long_removal_in_place_makes_no_node(rt: HostRuntime) -> Result<(), Failure> {
    let mut rope = rope_of(rt.alloc(), "a", 1_000_000)?;
    expect_no_node_of_a_long_removal(&mut rope)
}

/// The split takes a search, a leaf for the second part of the eleventh, and a list for the leaves
/// after it. The append looks up the last character of 11 leaves by two comparisons, to test for a
/// CR, and moves the 11 leaves of the other list to this one.
fn expect_counts_of_a_split_and_its_append(rope: &mut Rope) -> Result<(), Failure> {
    let mut split = LEFT_OVER;
    let mut joined = LEFT_OVER;
    holds!(rope.len_chars() == 20_000);
    let back = rope.split_off_counted(10_000, &mut split)?;
    rope.append_counted(back, &mut joined)?;
    expect_counts(split, [2, 5, 2])?;
    expect_counts(joined, [3, 2, 0])?;
    let shape = [chunk_count(rope), rope.depth()];
    expect_same("chunks and depth", &shape, &[22, 1])
}

#[test]
fn a_split_counts_its_leaf_and_its_list_and_an_append_no_node(
    rt: HostRuntime,
) -> Result<(), Failure> {
    let mut rope = rope_of(rt.alloc(), "a", 20_000)?;
    expect_counts_of_a_split_and_its_append(&mut rope)
}

/// Calls that enter no node set all counts to 0.
fn expect_no_counts(alloc: Global, rope: &mut Rope) -> Result<(), Failure> {
    let mut steps = [LEFT_OVER; 3];
    holds!(rope.len_chars() == 20_000);
    rope.insert_counted(7, "", &mut steps[0])?;
    holds!(rope.len_chars() == 20_000);
    rope.remove_counted(7..7, &mut steps[1])?;
    let other = Rope::from_str_with(alloc, "b", LineBreaks::Lf)?;
    holds!(rope.append_counted(other, &mut steps[2]).is_err());
    expect_same("steps", &steps, &[Steps::new(); 3])
}

#[test]
fn edits_that_have_nothing_to_do_count_nothing(rt: HostRuntime) -> Result<(), Failure> {
    let mut rope = rope_of(rt.alloc(), "a", 20_000)?;
    expect_no_counts(rt.alloc(), &mut rope)
}
